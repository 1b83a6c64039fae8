//! The units of a channel's requests, publishes and deliveries, and those of the session that
//! carries it.

use consume_path::NextSettle;
use performatives_10::Condition;
use publish_path::{Confirm, NextFrame, NextReturn};
use session_path::{ContentDue, DeliverDue, PathOk, Settling};

/// A unit to the client on a channel that is open.
#[derive(Clone, Copy, Debug, PartialEq, Eq)]
pub enum ChannelUnit {
    /// An answer to a request that opens or closes nothing.
    Ok(PathOk),
    /// basic.deliver or basic.get-ok
    Deliver(DeliverDue),
    /// A frame of the content of a delivery.
    Content(ContentDue),
    /// basic.ack or basic.nack, for publishes.
    Confirm(Confirm),
    /// A frame of a basic.return and of its content, for a publish.
    Return(NextReturn),
}

/// The attach of a link: its number on the channel, its handle, and the number in its name.
#[derive(Clone, Copy, Debug, PartialEq, Eq)]
pub struct AttachOut {
    pub link: u32,
    pub handle: u32,
    pub name: u64,
    /// The gateway is the receiver.
    pub receives: bool,
}

/// The flow of a link: the state of its session and its own (AMQP 1.0 2.7.4).
#[derive(Clone, Copy, Debug, PartialEq, Eq)]
pub struct LinkFlow {
    pub link: u32,
    pub handle: u32,
    /// The ids of the next transfer frame of the container and of the gateway.
    pub incoming: u32,
    pub outgoing: u32,
    pub count: u32,
    pub credit: u32,
    pub drain: bool,
}

/// A frame of a transfer (AMQP 1.0 2.7.5).
#[derive(Clone, Copy, Debug, PartialEq, Eq)]
pub struct TransferOut {
    pub frame: NextFrame,
    pub handle: u32,
    /// The delivery-id, where it is the first frame.
    pub id: u32,
    /// How many bytes of the publish's payload it carries, and that more follow.
    pub bytes: u32,
    pub more: bool,
}

/// A unit of a session's links.
#[derive(Clone, Copy, Debug, PartialEq, Eq)]
pub enum SessionUnit {
    Attach(AttachOut),
    Flow(LinkFlow),
    Transfer(TransferOut),
    /// The disposition of deliveries: their outcome, settled.
    Dispose(NextSettle),
    /// A settled disposition that answers the container's.
    Settle(Settling),
    /// The detach of this link, with its handle, and perhaps with an error.
    Detach(u32, u32, Option<Condition>),
}
