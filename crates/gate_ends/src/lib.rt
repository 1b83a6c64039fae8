//! Ends of pairs over streams that may not give or take bytes at once: what waits to be sent, what
//! the system's answers say, and which ends are open. Any stream serves; gate_edge has sockets.
#![tactic(auto)]

mod answers;
mod link;
mod open_ends;
mod outgoing;
mod pace;
mod partings;
mod pieces;
mod tries;
mod unsent;

pub use answers::{accepted_of, got_of, is_used_up, is_waiting, is_waiting_to_accept, put_of};
pub use link::Link;
pub use open_ends::{ENDS, OpenEnds, PAIRS};
pub use outgoing::Outgoing;
pub use pace::Pace;
pub use partings::Parting;
pub use pieces::{PIECE, read_into};
pub use tries::{Reach, Tries};
pub use unsent::Unsent;
