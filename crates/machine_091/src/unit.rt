//! The units of a client, what they want, and why one is refused.

ghost use Rattle.wire_base.specs.Bytes.{IsBytes};
ghost use Rattle.machine_091.specs.Writable.{AreBytes};

use close_translate::Scope;
use content_091::Content;
use frames_091::Frame91;
use methods_091::Method91;
use wire_base::ByteText;

/// A unit of the client's stream.
#[derive(Debug, Drop)]
pub enum Unit91 {
    /// The protocol header of AMQP 0-9-1.
    Protocol,
    Frame(Frame91),
    /// Bytes with which no unit begins, and the reply code that they get: the stream ends there.
    /// Where the protocol header is awaited they are those of no header, which has no code.
    Bad(u16),
}

/// Tells proofs that the items of a slice are bytes.
fn tell_slice(bytes: &[u8])
    ensures { IsBytes bytes.now }
{}

impl Unit91 {
    /// Tells proofs that the payload of a frame is bytes. The call does nothing.
    pub(crate) fn tell_bytes(&self)
        ensures { AreBytes self.now }
    {
        match self {
            Unit91::Protocol | Unit91::Bad(_) => {}
            Unit91::Frame(frame) => tell_slice(frame.payload.as_slice()),
        }
    }
}

/// Why a unit is refused, in the terms of the close that follows (AMQP 0-9-1 1.4.2.9).
#[derive(Clone, Copy, Debug, PartialEq, Eq)]
pub struct Refusal {
    /// The reply code.
    pub code: u16,
    /// What closes.
    pub scope: Scope,
    /// The channel that closes; 0 where the connection does.
    pub channel: u16,
    /// The class id of the refused method, 0 where no method was refused or the ids are cut off.
    /// A basic.publish is refused with the frame that makes its content whole.
    pub class: u16,
    /// The method id, in the same way.
    pub method: u16,
}

/// What a unit of the client wants.
#[derive(Debug, Drop)]
pub enum Want91 {
    Nothing,
    /// connection.start is due.
    Start,
    /// The mechanism and the response of a connection.start-ok. connection.tune is due.
    Login(ByteText, ByteText),
    /// The limits are agreed.
    Tuned,
    /// connection.open: the container upstream is to open, and `opened` tells that it did.
    OpenUp,
    /// A method of this channel: channel.open, channel.flow, channel.close, exchange.declare,
    /// queue.declare, confirm.select, basic.consume, basic.get, basic.cancel, basic.qos or
    /// basic.recover, whose answer is due, unless its no-wait is set; or basic.ack, basic.reject,
    /// basic.nack or basic.recover-async, which has none.
    Method(u16, Method91),
    /// A basic.publish of this channel, whose content is whole.
    Publish(u16, Method91, Content),
    /// The client answered the gateway's channel.close of this channel.
    ChannelCloseOk(u16),
    /// The client closes the connection. connection.close-ok is due.
    Close,
    /// The client answered the gateway's connection.close.
    CloseOk,
    /// The unit is refused. channel.close or connection.close is due.
    Refuse(Refusal),
}

/// What the order of refusals says of a unit that doesn't count.
#[derive(Clone, Copy, Debug)]
pub enum Ruling {
    /// It is refused with this reply code, and the connection closes.
    Refused(u16),
    /// The content is whole with it, and its basic.publish is refused with this reply code: the
    /// connection closes.
    MethodRefused(u16),
    /// It is refused with this reply code, and its channel closes.
    ChannelRefused(u16),
    /// It is passed over.
    PassedOver,
}
