//! The top call of the gateway, and the reading of its command line.
#![tactic(auto)]

mod exchanges;
mod input;
mod listing;
mod options;
mod recorded;
mod replay;
mod rerun;
mod saying;
mod serving;
mod told_words;
mod top_call;
mod words;

pub use serving::CaptureSink;
pub use top_call::{Status, gateway};
pub use words::{Asked, Misplaced, read_words};
