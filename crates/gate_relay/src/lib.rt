//! What the loop of the gateway and a pair know of one another: a pair's entries in bytes, and the
//! trait `Relay`.
#![tactic(auto)]

mod loss;
mod relay;
mod sides;

pub use loss::Loss;
pub use relay::Relay;
pub use sides::{Side, Sides};
