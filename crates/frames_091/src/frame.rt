//! The types of frames.

use wire_base::ByteText;

/// The kind of a frame (AMQP 0-9-1 4.2.3).
#[derive(Clone, Copy, Debug, PartialEq, Eq)]
pub enum Kind91 {
    Method,
    Header,
    Body,
    Heartbeat,
}

/// A frame (AMQP 0-9-1 4.2.3). A payload that is written has fewer than 2^32 - 8 bytes.
#[derive(Debug, Drop)]
pub struct Frame91 {
    pub kind: Kind91,
    pub channel: u16,
    pub payload: ByteText,
}

/// Why no frame begins a stream. Each closes the connection with the reply code 501, a frame error.
#[derive(Clone, Copy, Debug, PartialEq, Eq)]
pub enum FrameFault {
    /// The first byte is that of no kind; at 0.
    Kind,
    /// The payload's length and 8 together pass the limit; at 3.
    Size,
    /// The byte behind the payload isn't the end byte; at 7 and the payload's length.
    End,
}
