//! A receiving link (AMQP 1.0 2.6.7): its delivery-count, the credit that the gateway stated, and
//! how many of its deliveries count in its quota. The gateway fills credit and counted deliveries
//! to the quota, once at most half of it is in use.

ghost use Rattle.std.specs.Prelude.{◌≡◌, ◌+◌, ◌≤◌, IfSome};
ghost use Rattle.links_10.specs.Recv.{new_recv, asked_recv, after_attach, after_peer_flow};
ghost use Rattle.links_10.specs.Recv.{after_grant, after_arrival, recounted, after_cancel};
ghost use Rattle.links_10.specs.Recv.{grant_of};

use std::marker::Model;

/// Whether a link is granted credit by itself.
#[derive(Clone, Copy, Debug, PartialEq, Eq)]
pub enum Granting {
    /// Once its attach is answered.
    Unattached,
    /// As long as at most half of its quota is in use.
    Live,
    /// Never, or not any more.
    Ended,
}

/// What the receiving end of a link keeps, as contracts see a `RecvLink`.
#[derive(Clone, Copy, Debug, PartialEq, Eq)]
pub struct Receiving {
    /// How many deliveries may count or be on their way.
    pub(crate) quota: u32,
    pub(crate) granting: Granting,
    /// The delivery-count: how many deliveries the link went through, those that the container gave
    /// up counted. It goes round after 2^32 - 1.
    pub(crate) count: u32,
    /// The link-credit: how many deliveries may still begin.
    pub(crate) credit: u32,
    /// How many may still begin within the greatest delivery-limit that was stated.
    pub(crate) limit_left: u32,
    /// How many deliveries count in the quota.
    pub(crate) counted: u64,
}

/// The receiving end of a link. Contracts see its state. Each call takes the same time, whatever
/// came before, and no memory.
#[derive(Clone, Debug, Drop)]
pub struct RecvLink {
    state: Receiving,
}

impl Model for RecvLink {
    ghost use Rattle.links_10.specs.declared.recv.Receiving.{Receiving};

    ghost Value = { Receiving };

    ghost view = { λ a. a.state };
}

fn with_granting(quota: u32, granting: Granting) -> RecvLink
    ensures { result ≡ record (new_recv quota) { granting = granting } }
{
    RecvLink {
        state: Receiving {
            quota,
            granting,
            count: 0,
            credit: 0,
            limit_left: 0,
            counted: 0,
        },
    }
}

impl RecvLink {
    /// A link that is granted credit by itself: of its quota, as many as may count or be on their
    /// way.
    pub fn new(quota: u32) -> RecvLink
        ensures { result ≡ new_recv quota }
    {
        with_granting(quota, Granting::Unattached)
    }

    /// A link that is granted no credit by itself.
    pub fn asked() -> RecvLink
        ensures { result ≡ asked_recv }
    {
        with_granting(1, Granting::Ended)
    }

    /// The container's attach came, with this initial delivery-count (AMQP 1.0 2.7.3).
    pub fn attached(&mut self, count: u32)
        ensures { self.new ≡ after_attach count self.old }
    {
        if self.state.granting == Granting::Unattached {
            self.state.granting = Granting::Live;
        }
        self.state.count = count;
        self.state.credit = 0;
        self.state.limit_left = 0;
    }

    /// A flow of the container came for this link, with this delivery-count (AMQP 1.0 2.7.4). A
    /// count past what is known gives credit up.
    pub fn flow(&mut self, count: u32)
        ensures { self.new ≡ after_peer_flow count self.old }
    {
        let credit = self.state.credit;
        let left = self.state.count.wrapping_add(credit).wrapping_sub(count);
        if left < credit {
            let given_up = credit - left;
            self.state.count = self.state.count.wrapping_add(given_up);
            self.state.credit = left;
            self.state.limit_left = self.state.limit_left.saturating_sub(given_up);
        }
    }

    /// The delivery-count.
    pub fn count(&self) -> u32
        ensures { result ≡ self.now.count }
    {
        self.state.count
    }

    /// How many deliveries may still begin.
    pub fn credit(&self) -> u32
        ensures { result ≡ self.now.credit }
    {
        self.state.credit
    }

    /// How many deliveries may still begin within the greatest delivery-limit that was stated. One
    /// past them is a fault of the container (AMQP 1.0 2.8.18, transfer-limit-exceeded).
    pub fn limit_left(&self) -> u32
        ensures { result ≡ self.now.limit_left }
    {
        self.state.limit_left
    }

    /// How many deliveries count in the quota.
    pub fn counted(&self) -> u64
        ensures { result ≡ self.now.counted }
    {
        self.state.counted
    }

    /// The credit that a flow states to fill the quota, where one is due.
    pub fn grant_due(&self) -> Option<u32>
        ensures due { result ≡ grant_of self.now }
        ensures quota { IfSome result (λ credit. credit + self.now.counted ≡ self.now.quota) }
    {
        let quota = self.state.quota as u64;
        let counted = self.state.counted;
        let in_use = counted.saturating_add(self.state.credit as u64);
        if self.state.granting == Granting::Live && in_use <= quota / 2 {
            Some((quota - counted) as u32)
        } else {
            None
        }
    }

    /// A flow that states this credit was sent.
    pub fn granted(&mut self, credit: u32)
        ensures { self.new ≡ after_grant credit self.old }
    {
        self.state.credit = credit;
        self.state.limit_left = self.state.limit_left.max(credit);
    }

    /// The first transfer of a delivery came.
    pub fn arrived(&mut self)
        ensures { self.new ≡ after_arrival self.old }
    {
        self.state.count = self.state.count.wrapping_add(1);
        self.state.credit = self.state.credit.saturating_sub(1);
        self.state.limit_left = self.state.limit_left.saturating_sub(1);
    }

    /// So many of its deliveries count in the quota now.
    pub fn recounted(&mut self, counted: u64)
        ensures { self.new ≡ recounted counted self.old }
    {
        self.state.counted = counted;
    }

    /// No credit is due any more.
    pub fn cancel(&mut self)
        ensures { self.new ≡ after_cancel self.old }
    {
        self.state.granting = Granting::Ended;
    }
}
