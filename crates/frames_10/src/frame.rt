//! The types of frames.

use wire_base::ByteText;

/// The kind of a frame (AMQP 1.0 2.3.1, 5.3.1), and of a protocol header (2.2, 5.3.2).
#[derive(Clone, Copy, Debug, PartialEq, Eq)]
pub enum Kind10 {
    Amqp,
    Sasl,
}

/// A frame (AMQP 1.0 2.3) without its extended header, which has no meaning here. A body that is
/// written has fewer than 2^32 - 8 bytes. The channel of a SASL frame has no meaning either
/// (5.3.1).
#[derive(Debug, Drop)]
pub struct Frame10 {
    pub kind: Kind10,
    pub channel: u16,
    pub body: ByteText,
}

/// Why no frame begins a stream. Each closes the connection with the condition
/// `amqp:connection:framing-error` (AMQP 1.0 2.8.16).
#[derive(Clone, Copy, Debug, PartialEq, Eq)]
pub enum FrameFault10 {
    /// The size is below 8 or above the limit; at 0.
    FrameSize,
    /// The data offset is below 2, or passes the size; at 4.
    DataOffset,
    /// The type is that of no kind; at 5.
    FrameType,
}
