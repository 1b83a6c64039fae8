//! What is kept of one publish, and what is offered of it.

use crate::payload::Payload;
use open_items::{Frames, LostKind};

/// Where the frames of its transfer are.
#[derive(Clone, Copy, Debug, PartialEq, Eq)]
pub enum Place {
    /// None was sent.
    Waiting,
    /// Some were sent, and not the last.
    Begun,
    /// The last was sent.
    Sent,
    /// Its link was lost before the last was sent.
    Lost,
}

/// The outcome of a transfer (AMQP 1.0 3.4).
#[derive(Clone, Copy, Debug, PartialEq, Eq)]
pub enum Outcome {
    Accepted,
    Released,
    /// It was rejected or modified, or settled without a state.
    Refused,
}

/// What its client is owed.
#[derive(Clone, Copy, Debug, PartialEq, Eq)]
pub enum Answer {
    /// There is no outcome.
    Open,
    /// There is an outcome, and a confirm is owed: an ack, or else a nack.
    Owed(bool),
    /// Nothing is owed any more.
    Settled,
}

/// A publish of a life.
#[derive(Debug, Drop)]
pub struct Publish {
    /// Its place among the publishes of the life, from 1.
    pub number: u64,
    /// The number of its link.
    pub link: u32,
    /// Its place among those that are to be confirmed, from 1.
    pub confirm: Option<u64>,
    /// The delivery-id of its transfer, once that began.
    pub id: Option<u32>,
    /// The payload of its transfer; empty once nothing of it is left to be sent.
    pub payload: Payload,
    /// So many bytes of the payload were sent.
    pub gone: usize,
    /// So many bytes the whole payload has.
    pub size: usize,
    pub place: Place,
    pub answer: Answer,
    /// The frames of its basic.return (AMQP 0-9-1 1.8.3.8) that are still to be sent. There are
    /// none unless it was published as mandatory, nor once it has an outcome that doesn't return
    /// it.
    pub back: Frames,
    /// Some frames of its basic.return were sent, and more are to come.
    pub returning: bool,
    /// The line that the report is owed.
    pub line: Option<LostKind>,
}

/// A transfer frame that is due.
#[derive(Clone, Copy, Debug, PartialEq, Eq)]
pub struct NextFrame {
    /// The number of its publish.
    pub publish: u64,
    /// The number of the link that it goes on.
    pub link: u32,
    /// It is the first of its transfer.
    pub first: bool,
}

/// A frame of a basic.return that is due.
#[derive(Clone, Copy, Debug, PartialEq, Eq)]
pub struct NextReturn {
    /// The number of its publish.
    pub publish: u64,
    /// It is the first of the return.
    pub first: bool,
}

/// A basic.ack or a basic.nack that is due.
#[derive(Clone, Copy, Debug, PartialEq, Eq)]
pub struct Confirm {
    /// The confirm number that it names.
    pub number: u64,
    /// It covers all unanswered numbers up to this one.
    pub multiple: bool,
    /// It is an ack, or else a nack.
    pub ack: bool,
}
