//! What is kept of one receiving link, and what is offered of the links of a life.

use links_10::RecvLink;
use wire_base::ByteText;

/// What a receiving link is for.
#[derive(Debug, Drop)]
pub enum RecvKind {
    /// A consumer with this tag.
    Consumer { tag: ByteText, no_ack: bool },
    /// The basic.gets of one queue.
    Get,
    /// To see whether a queue is there.
    Probe,
}

/// A delivery of which a transfer came, and which no `arrived` took yet.
#[derive(Debug, Drop)]
pub struct Partial {
    /// Its delivery-id.
    pub id: u32,
    /// A transfer of it came settled.
    pub settled: bool,
    /// The payloads of its transfers, joined (AMQP 1.0 2.6.14).
    pub bytes: ByteText,
    /// Its last transfer came.
    pub whole: bool,
}

/// A basic.get that waits.
#[derive(Clone, Copy, Debug, PartialEq, Eq)]
pub struct WaitingGet {
    /// Its place among the gets of the life, from 1.
    pub number: u64,
    pub no_ack: bool,
    /// The flow that states its credit was sent.
    pub asked: bool,
    /// A get-empty is due.
    pub empty: bool,
}

/// A receiving link of a life.
#[derive(Debug, Drop)]
pub struct ReceivingLink {
    /// Its number.
    pub link: u32,
    pub kind: RecvKind,
    /// So many unsettled deliveries its consumer takes at most.
    pub limit: Option<u32>,
    /// The container's attach was read.
    pub attached: bool,
    /// Its delivery-count, its credit and its quota.
    pub state: RecvLink,
    pub partial: Option<Partial>,
    /// Its consumer was cancelled.
    pub cancelled: bool,
    /// The flow that takes its credit back is due.
    pub stopping: bool,
    /// So many flows of the container with echo aren't answered.
    pub echoes: u64,
    pub get: Option<WaitingGet>,
}

/// What a transfer frame says of its delivery (AMQP 1.0 2.7.5).
#[derive(Clone, Copy, Debug, PartialEq, Eq)]
pub struct Part {
    /// Its delivery-id.
    pub id: Option<u32>,
    /// How many bytes its delivery-tag has.
    pub tag_length: Option<usize>,
    pub settled: bool,
    pub more: bool,
    pub aborted: bool,
    pub resume: bool,
}

/// What a transfer comes to.
#[derive(Clone, Copy, Debug, PartialEq, Eq)]
pub enum Arrival {
    /// More transfers of its delivery follow.
    More,
    /// Its delivery is whole.
    Whole,
    /// Its delivery was aborted.
    Dropped,
    /// It is at fault, and nothing changes.
    Violation(TransferFault),
}

/// What is wrong with a transfer.
#[derive(Clone, Copy, Debug, PartialEq, Eq)]
pub enum TransferFault {
    /// A field is missing, too long, or names another delivery (amqp:invalid-field).
    InvalidField,
    /// Its delivery passes each delivery-limit that was stated (amqp:link:transfer-limit-exceeded).
    LimitExceeded,
    /// Its delivery is too large (amqp:link:message-size-exceeded).
    SizeExceeded,
}

/// Why a flow of a receiving link is due.
#[derive(Clone, Copy, Debug, PartialEq, Eq)]
pub enum Cause {
    /// At most half of its quota is in use.
    Refill,
    /// Its consumer was cancelled.
    Stop,
    /// A basic.get waits.
    Get,
    /// A flow of the container with echo.
    Echo,
}

/// A flow of a receiving link that is due, with the link-credit that it states.
#[derive(Clone, Copy, Debug, PartialEq, Eq)]
pub struct NextGrant {
    pub link: u32,
    pub credit: u32,
    pub cause: Cause,
}
