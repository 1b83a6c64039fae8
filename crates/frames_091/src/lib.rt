//! The frames and the protocol header of AMQP 0-9-1: scanning the first of a stream, and writing.
#![tactic(auto)]

mod frame;
mod header;
mod laws;
mod scanning;
mod unread;
mod writing;

pub use frame::{Frame91, FrameFault, Kind91};
pub use header::{NotHeader, scan_header};
pub use laws::frame_laws;
pub use scanning::scan_frame;
pub use unread::Unread91;
pub use writing::put_frame;
