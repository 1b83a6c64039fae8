//! The units to a container, and which of them are due or were sent.

use crate::channel::SessionUnit;
use crate::reply::Reply;
use performatives_10::Condition;

/// A unit to the container.
#[derive(Clone, Copy, Debug, PartialEq, Eq)]
pub enum UpUnit {
    /// The protocol header of the SASL layer.
    SaslHeader,
    SaslInit,
    /// The protocol header of AMQP.
    AmqpHeader,
    Open,
    /// A close, perhaps with an error.
    Close(Option<Condition>),
    /// A frame without a body.
    Empty,
    /// The begin of the session on this channel.
    Begin(u16),
    /// A flow that tells the state of this channel's session: the ids of the next transfer frame of
    /// the container and of the gateway.
    Flow(u16, u32, u32),
    /// A unit of the links of this channel's session.
    OnSession(u16, SessionUnit),
    /// The end of the session on this channel, perhaps with an error.
    End(u16, Option<Condition>),
}

/// A unit to an end.
#[derive(Clone, Copy, Debug, PartialEq, Eq)]
pub enum Outgoing {
    ToClient(Reply),
    ToUp(UpUnit),
}

/// The units of the opening that are due to a container, and of which no byte was sent.
#[derive(Clone, Copy, Debug, PartialEq, Eq)]
pub struct UpPending {
    pub sasl_header: bool,
    pub init: bool,
    pub amqp_header: bool,
    pub open: bool,
}

/// Which of the units that begin and end a connection were sent.
#[derive(Clone, Copy, Debug, PartialEq, Eq)]
pub struct UpSent {
    /// The first byte of the open.
    pub open: bool,
    /// The first byte of the close.
    pub close: bool,
    /// Its last byte.
    pub whole_close: bool,
}
