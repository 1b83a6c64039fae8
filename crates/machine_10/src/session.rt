//! The windows and ids of one session (AMQP 1.0 2.5.6).

ghost use Rattle.std.specs.Prelude.{◌≡◌, ◌≤◌, nat_le};
ghost use Rattle.machine_10.specs.Session.{new_session, after_began, after_flowed, after_sent};
ghost use Rattle.machine_10.specs.Session.{after_got, after_flow_sent, left_of};
ghost use Rattle.machine_10.specs.declared.session.TheConstants.{REFILL_AT};

use crate::limits::WINDOW;
use std::marker::Model;

/// A flow is due once so many transfer frames, or fewer, are left of the window that the gateway
/// stated.
pub const REFILL_AT: u32 = 1_024;

/// The windows and ids of a session, as contracts see a `Session10`. All ids go round after 2^32 -
/// 1.
#[derive(Clone, Copy, Debug, PartialEq, Eq)]
pub struct Windows {
    /// The id of the container's next transfer frame; 0 until its begin.
    pub(crate) next_incoming: u32,
    /// The id of the gateway's next transfer frame.
    pub(crate) next_outgoing: u32,
    /// How many transfer frames the container still takes; 0 until its begin.
    pub(crate) window: u32,
    /// How many transfer frames are left of the window that the gateway stated.
    pub(crate) stated: u32,
    /// The greatest handle that the container takes; 0 until its begin.
    pub(crate) handle_max: u32,
}

/// How many transfer frames the container still takes, where it stated a window from an id on.
fn room_from(id: u32, window: u32, next_outgoing: u32) -> u32
    ensures { result ≡ left_of id window next_outgoing }
{
    window.saturating_sub(next_outgoing.wrapping_sub(id))
}

/// The windows and ids of one session (AMQP 1.0 2.5.6), which the gateway begins with the outgoing
/// id 0 and an incoming window of 2,048 transfer frames. Contracts see its state. Each call takes
/// the same time, whatever came before.
#[derive(Clone, Copy, Debug)]
pub struct Session10 {
    state: Windows,
}

impl Model for Session10 {
    ghost use Rattle.machine_10.specs.declared.session.Windows.{Windows};

    ghost Value = { Windows };

    ghost view = { λ s. s.state };

    ghost inverse = { λ w. record { state = w } };
}

impl Session10 {
    /// A session whose begin the container didn't answer yet.
    pub fn new() -> Session10
        ensures { result ≡ new_session }
    {
        Session10 {
            state: Windows {
                next_incoming: 0,
                next_outgoing: 0,
                window: 0,
                stated: WINDOW,
                handle_max: 0,
            },
        }
    }

    /// The container's begin came, with these fields (AMQP 1.0 2.7.2).
    pub fn began(&mut self, next_outgoing: u32, incoming_window: u32, handle_max: u32)
        ensures { self.new ≡ after_began next_outgoing incoming_window handle_max self.old }
    {
        self.state.next_incoming = next_outgoing;
        self.state.window = room_from(0, incoming_window, self.state.next_outgoing);
        self.state.handle_max = handle_max;
    }

    /// A flow of the container came, with these fields (AMQP 1.0 2.7.4). An absent id stands for
    /// that of the gateway's begin.
    pub fn flowed(&mut self, next_incoming: Option<u32>, incoming_window: u32)
        ensures { self.new ≡ after_flowed next_incoming incoming_window self.old }
    {
        let id = next_incoming.unwrap_or(0);
        self.state.window = room_from(id, incoming_window, self.state.next_outgoing);
    }

    /// How many transfer frames the container still takes.
    pub fn window(&self) -> u32
        ensures { result ≡ self.now.window }
    {
        self.state.window
    }

    /// A transfer frame of the gateway was sent.
    pub fn sent_frame(&mut self)
        requires { 1 ≤ self.old.window }
        ensures { self.new ≡ after_sent self.old }
    {
        self.state.next_outgoing = self.state.next_outgoing.wrapping_add(1);
        self.state.window -= 1;
    }

    /// A transfer frame of the container came: whether it was within the window that the gateway
    /// stated.
    pub fn got_frame(&mut self) -> bool
        ensures within { result ≡ nat_le 1 self.old.stated }
        ensures state { self.new ≡ after_got self.old }
    {
        let within = 1 <= self.state.stated;
        self.state.next_incoming = self.state.next_incoming.wrapping_add(1);
        self.state.stated = self.state.stated.saturating_sub(1);
        within
    }

    /// A flow is due, for little is left of the window that the gateway stated.
    pub fn refill_due(&self) -> bool
        ensures { result ≡ nat_le self.now.stated REFILL_AT }
    {
        self.state.stated <= REFILL_AT
    }

    /// A flow of the gateway was sent: it states the whole window again.
    pub fn flow_sent(&mut self)
        ensures { self.new ≡ after_flow_sent self.old }
    {
        self.state.stated = WINDOW;
    }

    /// The id of the container's next transfer frame, and that of the gateway's.
    pub fn ids(&self) -> (u32, u32)
        ensures { result ≡ (self.now.next_incoming, self.now.next_outgoing) }
    {
        (self.state.next_incoming, self.state.next_outgoing)
    }

    /// The greatest handle that the container takes (AMQP 1.0 2.7.2); 0 until its begin.
    pub fn handle_max(&self) -> u32
        ensures { result ≡ self.now.handle_max }
    {
        self.state.handle_max
    }
}
