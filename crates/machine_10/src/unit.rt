//! The units of a container, what they want, and why one doesn't count.

use crate::limits::Stated10;
use crate::whole::Whole10;
use frames_10::{Frame10, Kind10};
use performatives_10::{Condition, Error10, Perf, PerfFault};
use wire_base::ByteText;

/// A unit of the container's stream.
#[derive(Debug, Drop)]
pub enum Unit10 {
    /// A protocol header (AMQP 1.0 2.2, 5.3.2).
    Header(Kind10),
    Frame(Frame10),
    /// Bytes with which no unit begins, and the condition that they get: the stream ends there.
    Bad(Condition),
}

/// What a unit of the container wants.
#[derive(Debug, Drop)]
pub enum Want10 {
    Nothing,
    /// The wanted mechanism is offered: sasl-init is due.
    Init,
    /// The login succeeded: the gateway's AMQP header is due, and once the container's came, its
    /// open.
    AmqpHeader,
    /// The container's open came: sessions may begin.
    Opened,
    /// A performative of a session, by the gateway's number of its channel, and the payload behind
    /// it.
    Session(u16, Perf, ByteText),
    /// The container closes the connection, perhaps with an error: the gateway's close is due.
    Closed(Option<Error10>),
    /// The login is refused: the wanted mechanism isn't offered, or the outcome is another one than
    /// success.
    Refused,
    /// The unit is out of order or can't be read: a close with this condition is due.
    Violation(Condition),
}

/// What the order of refusals says of a unit that doesn't count.
#[derive(Clone, Copy, Debug)]
pub enum Ruling10 {
    /// The connection is closed with this condition.
    Violated(Condition),
    /// It is passed over.
    PassedOver,
}

/// The body of a frame.
#[derive(Debug, Drop)]
pub(crate) enum Body10 {
    /// An AMQP frame without a body, which tells that its sender is alive (AMQP 1.0 2.4.5).
    Empty,
    /// It begins with no performative.
    Faulty(PerfFault),
    /// A performative, and the payload behind it.
    Whole(Whole10),
}

/// What a performative does to a connection.
#[derive(Clone, Copy, Debug)]
pub(crate) enum Act10 {
    /// It opens the connection, and states this.
    Open(Stated10),
    /// It begins a session, in answer to the gateway's begin of this channel.
    Begin(Option<u16>),
    /// It belongs to a session: a disposition from a first delivery to a last one.
    Settle(u32, Option<u32>),
    /// It belongs to a session: attach, flow, transfer or detach.
    Within,
    End,
    Close,
    /// It is one of the SASL layer's: what a container offers, how a login came out, a challenge,
    /// or what only clients send.
    Offer,
    Outcome(u8),
    Challenge,
    ClientLogin,
}
