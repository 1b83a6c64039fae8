//! What is kept of a session's links, and of the requests of its channel.

use consume_path::{NextDeliver, TransferFault};
use wire_base::ByteText;

/// How far a link is.
#[derive(Clone, Copy, Debug, PartialEq, Eq)]
pub enum Stage {
    /// The gateway's attach is due.
    Wanted,
    /// It was sent with this handle, and the container's is awaited.
    Asked(u32),
    /// Both attached.
    Open(u32),
    /// The container's attach had no source or target, which refuses the link: its detach is
    /// awaited (AMQP 1.0 2.6.3).
    Refused(u32),
    /// The container's detach came: the gateway's is due.
    Left(u32),
    /// The gateway detached it, since its handle is wanted for another, or for a fault: the
    /// container's detach is awaited.
    Given(u32),
    /// A transfer passed a limit: the gateway's detach is due, with this error.
    Failed(u32, TransferFault),
}

/// A link of a session.
#[derive(Clone, Copy, Debug, PartialEq, Eq)]
pub struct PathLink {
    /// Its number on the channel.
    pub link: u32,
    /// The gateway is its receiver.
    pub receives: bool,
    pub stage: Stage,
    /// The number that its name has, once its attach was sent.
    pub name: u64,
    /// The container asked so many times for the state of a sending link, and no flow answered yet.
    pub echoes: u32,
    /// It asked so many times that the credit is used up or given back, and no flow answered yet.
    pub drains: u32,
    /// Its last flow asked for that.
    pub draining: bool,
    /// The delivery-count and the credit that a sending link had when the container detached it; a
    /// flow gives that credit back. 0 before.
    pub count: u32,
    pub credit: u32,
}

/// The address of a receiving link.
#[derive(Debug, Drop)]
pub struct Source {
    /// The number of the link.
    pub link: u32,
    /// The name of the queue.
    pub address: ByteText,
}

/// A basic.consume or queue.declare that waits for the container's attach.
#[derive(Clone, Copy, Debug, PartialEq, Eq)]
pub struct Awaited {
    /// The number of its link.
    pub link: u32,
    /// It is a queue.declare.
    pub declares: bool,
    /// It wants no answer.
    pub no_wait: bool,
}

/// A content that is begun, of which frames are to go.
#[derive(Clone, Copy, Debug, PartialEq, Eq)]
pub struct Writing {
    /// The delivery-id, and the delivery tag.
    pub id: u32,
    pub tag: u64,
    /// So many of its frames went.
    pub gone: usize,
}

/// A frame of a content that is due.
#[derive(Clone, Copy, Debug, PartialEq, Eq)]
pub struct ContentDue {
    /// The delivery tag.
    pub tag: u64,
    /// No frame of the content follows.
    pub last: bool,
}

/// A deliver or a get-ok that is due.
#[derive(Clone, Copy, Debug, PartialEq, Eq)]
pub struct DeliverDue {
    pub next: NextDeliver,
    /// Its delivery tag.
    pub tag: u64,
    /// It answers a basic.get.
    pub get: bool,
}

/// What an attach of the container says (AMQP 1.0 2.7.3).
#[derive(Clone, Copy, Debug, PartialEq, Eq)]
pub struct AttachHeard {
    /// The number in its name.
    pub name: u64,
    /// The container's handle.
    pub peer: u32,
    /// The container is the receiver.
    pub role: bool,
    /// It has a target, where the container is the receiver, or else a source.
    pub there: bool,
    /// Its initial delivery-count.
    pub count: u32,
}

/// A disposition of the container that is to be answered by a settled one: its first and its last
/// delivery-id (AMQP 1.0 2.7.6).
#[derive(Clone, Copy, Debug, PartialEq, Eq)]
pub struct Settling {
    pub first: u32,
    pub last: Option<u32>,
}

/// An answer to a request of a channel that opens or closes nothing.
#[derive(Clone, Copy, Debug, PartialEq, Eq)]
pub enum PathOk {
    /// channel.flow-ok
    Flow,
    /// exchange.declare-ok
    Declare,
    /// confirm.select-ok
    Select,
    /// basic.consume-ok, for the consumer of the link with this number
    Consume(u32),
    /// basic.qos-ok, for so many unsettled deliveries: of each consumer to come, or with `global`
    /// of all consumers together
    Qos { count: u16, global: bool },
    /// basic.cancel-ok
    Cancel,
    /// queue.declare-ok
    Queue,
    /// basic.get-ok: the deliver of the next get goes in its place
    Get,
    /// basic.get-empty, for the get of the link with this number
    Empty(u32),
    /// basic.recover-ok
    Recover,
}

/// Why an attach of the container can't be taken.
#[derive(Clone, Copy, Debug, PartialEq, Eq)]
pub enum AttachFault {
    /// No attach of the gateway asks for a link of this name with the other role.
    NotAsked,
    /// Its handle names another link (AMQP 1.0 2.8.17).
    HandleInUse,
}

/// An attach of the gateway that is due.
#[derive(Clone, Copy, Debug, PartialEq, Eq)]
pub struct AttachDue {
    /// The number of its link on the channel.
    pub link: u32,
    /// The handle that it takes.
    pub handle: u32,
    /// The gateway is the receiver.
    pub receives: bool,
}

/// A flow of the gateway on a link that is due (AMQP 1.0 2.7.4).
#[derive(Clone, Copy, Debug, PartialEq, Eq)]
pub struct FlowDue {
    /// The number of its link on the channel.
    pub link: u32,
    pub handle: u32,
    /// The delivery-count before it.
    pub count: u32,
    /// The credit before it.
    pub credit: u32,
    /// It gives the credit back.
    pub drains: bool,
    /// The container's last flow on the link had drain set.
    pub draining: bool,
}
