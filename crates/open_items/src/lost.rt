//! What a line of the report says of a message that was given up.

/// A message that a life of a channel gave up.
#[derive(Clone, Copy, Debug, PartialEq, Eq)]
pub struct LostItem {
    /// The number of the life on its connection, from 1.
    pub life: u64,
    /// The number of a publish in its life, from 1; of a delivery its delivery-id.
    pub number: u64,
    pub kind: LostKind,
}

/// What became of it.
#[derive(Clone, Copy, Debug, PartialEq, Eq)]
pub enum LostKind {
    /// A publish without outcome, whose transfer hadn't begun.
    PublishLost,
    /// A publish without outcome, whose transfer had begun: whether the container took it isn't
    /// known.
    PublishUnknown,
    /// A delivery whose settlement hadn't begun when the container's end was lost.
    DeliveryLeft,
    /// A delivery that came settled, and wasn't complete when its life closed.
    DeliveryLost,
}
