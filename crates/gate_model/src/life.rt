//! The channels of a client: what is due on each, to the client and to the container.

use crate::reply::Reason;
use machine_10::Session10;
use performatives_10::Condition;

/// The session that carries a channel, and what is to be told of it.
#[derive(Clone, Copy, Debug)]
pub struct SessionState {
    /// The windows and ids of both ends, since the container's begin.
    pub windows: Session10,
    /// The container asked so many times for the state of the session, and no flow answered yet.
    pub echoes: u32,
    /// Before the first of these, little was left of the window that the gateway stated: the next
    /// flow is for that.
    pub refills: bool,
}

/// What is due on a channel, and on the session of the same number that carries it.
#[derive(Clone, Copy, Debug)]
pub struct Life {
    /// channel.open was taken up, and the container's begin is awaited.
    pub waits: bool,
    /// The gateway's begin is due.
    pub begin: bool,
    /// channel.open-ok is due.
    pub open_ok: bool,
    /// channel.close was taken up of a channel that was open, and the container's end is awaited.
    pub awaits_end: bool,
    /// The closing event of the channel came.
    pub over: bool,
    /// The moment of that, in milliseconds.
    pub closed_at: Option<u64>,
    /// The container was the cause of it.
    pub by_peer: bool,
    /// channel.close-ok is due, once nothing of the session is waited for.
    pub close_ok: bool,
    /// channel.close-ok is due for the life before, which the client's own channel.close-ok ended.
    pub crossed_ok: bool,
    /// channel.close is due for this reason, at the same point.
    pub close: Option<Reason>,
    /// channel.close was sent, and the client's channel.close-ok is awaited.
    pub told: bool,
    /// The error of the gateway's end.
    pub why: Option<Condition>,
    /// The session of the same number.
    pub session: SessionState,
}
