//! How much a pair holds and states.

/// A client isn't read while so many of its units aren't taken up.
pub const QUEUE_UNITS: usize = 1_024;

/// It isn't read either while their payloads have so many bytes.
pub const QUEUE_BYTES: usize = 67_108_864;

/// Nothing of a client is taken up, and it isn't read, while a pair holds so many publishes.
pub const HELD_PUBLISHES: u64 = 256;

/// Nor while the payloads of those that it holds have so many bytes.
pub const HELD_BYTES: u64 = 67_108_864;

/// The greatest handle of a session that the gateway's begin states (AMQP 1.0 2.7.2).
pub const HANDLE_MAX: u32 = 255;
