//! A sending link (AMQP 1.0 2.6.7): its delivery-count and its link-credit. The container, which
//! receives, states the credit in its flows; the gateway takes one of it with each transfer.

ghost use Rattle.std.specs.Prelude.{◌≡◌, ◌≤◌};
ghost use Rattle.links_10.specs.Send.{new_link, after_flow, after_begun, after_drain};

use std::marker::Model;

/// What the sending end of a link keeps, as contracts see a `SendLink`.
#[derive(Clone, Copy, Debug, PartialEq, Eq)]
pub struct Sending {
    /// The delivery-count: how many deliveries the link went through, those given up by a drain
    /// counted. It goes round after 2^32 - 1.
    pub(crate) count: u32,
    /// The link-credit: how many deliveries the container still takes.
    pub(crate) credit: u32,
}

/// The sending end of a link. Contracts see its state. Each call takes the same time, whatever came
/// before, and no memory.
#[derive(Clone, Debug, Drop)]
pub struct SendLink {
    state: Sending,
}

impl Model for SendLink {
    ghost use Rattle.links_10.specs.declared.send.Sending.{Sending};

    ghost Value = { Sending };

    ghost view = { λ a. a.state };
}

impl SendLink {
    /// A link whose attach the gateway sends with the delivery-count 0. It has no credit.
    pub fn new() -> SendLink
        ensures { result ≡ new_link }
    {
        SendLink {
            state: Sending {
                count: 0,
                credit: 0,
            },
        }
    }

    /// A flow of the container came for this link, with this delivery-count and link-credit
    /// (AMQP 1.0 2.7.4). An absent count stands for that of the gateway's attach.
    pub fn flow(&mut self, count: Option<u32>, credit: u32)
        ensures { self.new ≡ after_flow count credit self.old }
    {
        let stated = count.unwrap_or(0);
        let past = self.state.count.wrapping_sub(stated);
        self.state.credit = credit.saturating_sub(past);
    }

    /// How many deliveries the container still takes.
    pub fn credit(&self) -> u32
        ensures { result ≡ self.now.credit }
    {
        self.state.credit
    }

    /// The delivery-count.
    pub fn count(&self) -> u32
        ensures { result ≡ self.now.count }
    {
        self.state.count
    }

    /// The first frame of a transfer was sent.
    pub fn begun(&mut self)
        requires { 1 ≤ self.old.credit }
        ensures { self.new ≡ after_begun self.old }
    {
        self.state.count = self.state.count.wrapping_add(1);
        self.state.credit -= 1;
    }

    /// A flow that answers a drain was sent: the credit left is given up, and the count advances
    /// past it.
    pub fn drain(&mut self)
        ensures { self.new ≡ after_drain self.old }
    {
        self.state.count = self.state.count.wrapping_add(self.state.credit);
        self.state.credit = 0;
    }
}
