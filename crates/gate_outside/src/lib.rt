//! The outside of the gateway: ports, sources and sinks, and implementations of them in memory.
#![tactic(auto)]

mod calls;
mod clock;
mod copying;
mod log;
mod memory_streams;
mod pairs;
mod pieces;
mod ports;
mod reserved;
mod rooms;
mod script;
mod streams;
mod telling;

pub use calls::CallList;
pub use log::{Call, Entries, Log, LogEntry};
pub use memory_streams::{MemorySink, MemorySource};
pub use pieces::{Piece, Pieces};
pub use ports::{Accepted, End, Got, Linked, Next, Ports, Put};
pub use rooms::{Room, Rooms};
pub use script::{Script, ScriptPorts};
pub use streams::{Drawn, Sink, Source, Sunk, write_all};
