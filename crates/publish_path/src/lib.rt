//! The publishes of a life of a channel, on their way to the container: from their taking up, over
//! the frames of their transfers, to their outcomes, their returns, their confirms and their lines
//! of the report.
#![tactic(auto)]

mod changes;
mod counts;
mod laws;
mod payload;
mod publish;
mod publishes;
mod searches;
mod send_links;
mod visits;

pub use laws::{confirms_lawfully, lines_lawfully, payloads_lawfully, returns_lawfully};
pub use payload::{Payload, Pieces};
pub use publish::{Answer, Confirm, NextFrame, NextReturn, Outcome, Place, Publish};
pub use publishes::Publishes;
pub use send_links::SendLinks;
