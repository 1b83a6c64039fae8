//! The units to a client, and which of them are due or were sent.

use crate::channel::ChannelUnit;
use machine_091::Refusal;
use property_map::Told;

/// Why the gateway closes a channel.
#[derive(Clone, Copy, Debug, PartialEq, Eq)]
pub struct Reason {
    pub refusal: Refusal,
    /// What is told of a message that has no image, in place of the name of the code.
    pub told: Option<Told>,
}

/// A unit to the client.
#[derive(Clone, Copy, Debug, PartialEq, Eq)]
pub enum Reply {
    /// The gateway's own protocol header.
    Protocol,
    /// connection.start
    Start,
    /// connection.tune
    Tune,
    /// connection.open-ok
    OpenOk,
    /// connection.close-ok
    CloseOk,
    /// connection.close, for this refusal
    Close(Refusal),
    /// connection.close, after the pair ran out of memory
    NoMemory,
    /// A heartbeat
    Heartbeat,
    /// channel.open-ok of this channel
    ChannelOpenOk(u16),
    /// A unit on this channel, while it is open.
    OnChannel(u16, ChannelUnit),
    /// channel.close-ok of this channel
    ChannelCloseOk(u16),
    /// channel.close-ok to a channel.close that crossed the gateway's, after the client answered
    /// that
    CrossedOk(u16),
    /// channel.close of this channel, for this reason
    ChannelClose(u16, Reason),
}

/// The units that are due to a client, and of which no byte was sent.
#[derive(Clone, Copy, Debug, PartialEq, Eq)]
pub struct Pending {
    pub protocol: bool,
    pub start: bool,
    pub tune: bool,
    pub open_ok: bool,
    pub close_ok: bool,
    pub close: Option<Refusal>,
    /// A connection.close, after the pair ran out of memory.
    pub no_memory: bool,
}

/// Which of the units that end a connection were sent to their last byte.
#[derive(Clone, Copy, Debug, PartialEq, Eq)]
pub struct SentLast {
    pub protocol: bool,
    pub close_ok: bool,
    pub close: bool,
}
