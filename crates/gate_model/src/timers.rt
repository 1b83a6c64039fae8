//! The timers of a client's connection, in milliseconds.

/// A client's end is shut where no connection.open came within so long of its accept.
pub const HANDSHAKE_LIMIT: u64 = 10_000;

/// A channel that closes ends its session so long after its closing event, where publishes lack an
/// outcome.
pub const LINGER_LIMIT: u64 = 5_000;

/// Both ends are shut so long after the closing event of the connection.
pub const CLOSING_LIMIT: u64 = 10_000;

/// A heartbeat is due after so long without a byte sent, for each second of the interval that was
/// agreed to: half of it (AMQP 0-9-1 4.2.7).
pub const BEAT_PER_SECOND: u64 = 500;

/// A client that is read is given up after so long without a byte of it, for each second of the
/// interval that was agreed to: twice that (AMQP 0-9-1 4.2.7).
pub const SILENCE_PER_SECOND: u64 = 2_000;

/// A container is given up after so long without a byte of it: twice what the gateway's open states
/// (AMQP 1.0 2.4.5).
pub const UP_SILENCE: u64 = 120_000;

/// The time-out for silence that the gateway's open states to a container (AMQP 1.0 2.4.5 and
/// 2.7.1).
pub const IDLE_STATED: u32 = 60_000;
