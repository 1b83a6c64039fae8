//! The edge of the gateway: ports over real sockets, and sources and sinks over files and standard
//! streams. What the system answers is trusted; what is proved is how each answer is told, counted
//! and kept.
#![tactic(auto)]

mod clock;
mod door;
mod faults;
mod outbox;
mod real_ports;
mod sockets;
mod standard;
mod standard_error;
mod upstream;
mod waiting;

pub use outbox::{Outbox, OutboxSink, StandardOut};
pub use real_ports::{Addresses, RealPorts};
pub use standard::{ReaderSource, WriterSink};
pub use standard_error::tell;
