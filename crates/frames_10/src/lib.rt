//! The frames and the protocol headers of AMQP 1.0: scanning the first of a stream, and writing.
#![tactic(auto)]

mod frame;
mod header;
mod laws;
mod scanning;
mod writing;

pub use frame::{Frame10, FrameFault10, Kind10};
pub use header::{NotHeader, scan_header10};
pub use laws::frame_laws10;
pub use scanning::scan_frame10;
pub use writing::put_frame10;
