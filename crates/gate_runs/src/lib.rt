//! What a run of the gateway's loop is, over any pairs: its limits and ends, its marked history,
//! the call that comes next, and the report. The loop follows these definitions, and the laws of
//! runs rest on them alone.
#![tactic(auto)]

mod lap;
mod limits;
mod served;

pub use lap::Lap;
pub use limits::Limits;
pub use served::{Outside, Served};
