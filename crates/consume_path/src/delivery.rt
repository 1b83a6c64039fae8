//! What is kept of one delivery, and what is offered of the deliveries of a life.

use open_items::LostKind;
use wire_base::{ByteText, ItemList};

/// The frames of a content as they are spelled: the header frame and the body frames.
pub type Frames = ItemList<ByteText>;

/// What goes to the client of a delivery (AMQP 0-9-1 1.8.3.9, 1.8.3.11).
#[derive(Debug, Drop)]
pub struct Content {
    /// The name of the exchange.
    pub exchange: ByteText,
    /// The routing key.
    pub key: ByteText,
    pub frames: Frames,
}

/// The outcome that a disposition tells (AMQP 1.0 3.4).
#[derive(Clone, Copy, Debug, PartialEq, Eq)]
pub enum Settle {
    Accepted,
    Rejected,
    Released,
}

/// Whom a delivery goes to.
#[derive(Clone, Copy, Debug, PartialEq, Eq)]
pub enum Taker {
    Nobody,
    /// A basic.get, by its number.
    Getter { number: u64, no_ack: bool },
    /// A consumer, with so many unsettled deliveries at most.
    Consumer { no_ack: bool, limit: Option<u32> },
}

/// Where a delivery is.
#[derive(Clone, Copy, Debug, PartialEq, Eq)]
pub enum Place {
    /// It waits to be delivered.
    Held,
    /// Its deliver or get-ok was sent, and nothing settles it.
    Out,
    /// This disposition is owed.
    Owed(Settle),
    /// No disposition is owed any more.
    Settled,
}

/// What a link says of its whole delivery.
#[derive(Clone, Copy, Debug, PartialEq, Eq)]
pub struct Arriving {
    /// The number of the link.
    pub link: u32,
    /// The delivery-id.
    pub id: u32,
    /// A transfer of it came settled.
    pub settled: bool,
    /// Whom it goes to.
    pub taker: Taker,
}

/// A whole delivery of a life.
#[derive(Debug, Drop)]
pub struct Delivery {
    /// Its place among the whole deliveries of the life, from 1.
    pub number: u64,
    /// The number of its link, as long as that stands.
    pub link: Option<u32>,
    /// Its delivery-id.
    pub id: u32,
    /// Its transfer came settled, so no disposition is owed (AMQP 1.0 2.6.12).
    pub settled: bool,
    /// It was delivered before.
    pub again: bool,
    /// What goes to the client; kept while it is held or written.
    pub content: Option<Content>,
    pub taker: Taker,
    /// Its delivery tag, once its deliver or get-ok was sent; 0 before.
    pub tag: u64,
    pub place: Place,
    /// Its content is being written.
    pub writing: bool,
    /// It came settled, isn't complete, and its life hasn't closed.
    pub at_risk: bool,
    /// The line that the report is owed.
    pub line: Option<LostKind>,
}

/// A deliver or a get-ok that is due.
#[derive(Clone, Copy, Debug, PartialEq, Eq)]
pub struct NextDeliver {
    /// The number of its delivery.
    pub number: u64,
    /// The number of its link.
    pub link: u32,
    /// Its delivery-id.
    pub id: u32,
    /// It was delivered before.
    pub again: bool,
}

/// A disposition that is due, of the delivery-ids from `first` to `last`.
#[derive(Clone, Copy, Debug, PartialEq, Eq)]
pub struct NextSettle {
    pub first: u32,
    pub last: u32,
    pub settle: Settle,
}
