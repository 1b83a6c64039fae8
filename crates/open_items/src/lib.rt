//! What the paths of messages share: the names of what is given up, frames that are still to go,
//! and, for proofs to cite, lemmas on lists of open items. Such items have rising numbers, and a
//! list keeps those for which something is still to come.
#![tactic(auto)]

mod frames;
mod lost;

pub use frames::Frames;
pub use lost::{LostItem, LostKind};
