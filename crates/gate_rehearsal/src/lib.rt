//! The rehearsal: a client and a container as ports in memory.
//!
//! - The ports: `RehearsePorts`. They play both peers, and tell their log.
//! - The messages that go between them: `MOST_MESSAGES`, `body_len`.
#![tactic(auto)]

mod client;
mod container;
mod messages;
mod opened;
mod ports;
mod story;
mod telling;

pub use messages::{MOST_MESSAGES, body_len};
pub use ports::RehearsePorts;
