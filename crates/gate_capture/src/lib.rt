//! Captures: the log of a run as bytes, both ways, and ports that answer from a log again.
#![tactic(auto)]

mod kinds;
mod laws;
mod parts;
mod reading;
mod recorded;
mod recorder;
mod replay;
mod writing;

pub use laws::{capture_laws, replay_laws};
pub use reading::{Capture, CaptureFault, next_entry, next_words, read_capture};
pub use recorder::{CaptureTo, NoCapture, Recorder};
pub use replay::ReplayPorts;
pub use writing::{put_capture, put_entry, put_start, write_entry, write_start};
