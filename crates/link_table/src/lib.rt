//! The handles of a session's links: the gateway's own, and the container's for the same links.
#![tactic(auto)]

mod handles;
mod laws;

pub use handles::{Attachment, HandleState, Handles};
pub use laws::handle_laws;
