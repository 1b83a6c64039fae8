//! The deliveries of a life of a channel, on their way to the client: from the transfers of the
//! container, over delivers and get-oks, to their settlements and their lines of the report.
#![tactic(auto)]

mod changes;
mod deliveries;
mod delivery;
mod laws;
mod link_changes;
mod places;
mod receiving;
mod searches;
mod tallies;
mod visits;

pub use deliveries::Deliveries;
pub use delivery::{
    Arriving, Content, Delivery, Frames, NextDeliver, NextSettle, Place, Settle, Taker,
};
pub use laws::{
    counts_lawfully, delivers_lawfully, delivery_lines_lawfully, ids_lawfully, links_lawfully,
    numbers_lawfully, settles_lawfully,
};
pub use receiving::{
    Arrival, Cause, NextGrant, Part, Partial, ReceivingLink, RecvKind, TransferFault, WaitingGet,
};
