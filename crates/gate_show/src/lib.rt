//! Listings: what bytes hold, a line for each unit.
#![tactic(auto)]

mod lines;
mod show;

pub use lines::put_line;
pub use show::{Shown, show_capture};
