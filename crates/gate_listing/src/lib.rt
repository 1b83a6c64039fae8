//! Listings of the byte streams of AMQP 0-9-1 and of AMQP 1.0: a line for each protocol header and
//! each frame.
//!
//! - Listing: `list_units`.
//! - The names of faults: `fault_text`.
//!
//! Cases stand in `tools/cases`.
#![tactic(auto)]

mod fault;
mod listing;
mod method_names;
mod performative_names;
mod texts;
mod units_091;
mod units_10;

pub use fault::{UnitFault, fault_text};
pub use listing::{Dialect, Listed, list_units};
