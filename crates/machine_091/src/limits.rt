//! The limits of a connection (AMQP 0-9-1 1.4.2.6), and those of a login.

ghost use Rattle.std.specs.Prelude.{◌≡◌};
ghost use Rattle.machine_091.specs.Limits.{own_limits, agreed_limits, is_agreed};

/// The greatest size of a frame that the gateway takes, in bytes. It stands until the client agrees
/// to another.
pub const FRAME_MAX: u32 = 131_072;

/// The least size of a frame that both sides must take, in bytes (AMQP 0-9-1 4.2.3).
pub const FRAME_MIN_SIZE: u32 = 4_096;

/// The greatest number of a channel that the gateway takes. It stands until the client agrees to
/// another.
pub const CHANNEL_MAX: u16 = 255;

/// The interval of heartbeats that the gateway states, in seconds.
pub const HEARTBEAT: u16 = 60;

/// The greatest response of a login, in bytes.
pub const RESPONSE_MAX: usize = 300;

/// The limits of a connection: the gateway's own until the client agreed to others.
#[derive(Clone, Copy, Debug, PartialEq, Eq)]
pub struct Limits {
    /// The greatest size of a frame, in bytes, 4,096 to 131,072.
    pub frame_max: u32,
    /// The greatest number of a channel, 1 to 255.
    pub channel_max: u16,
    /// The interval of heartbeats in seconds; 0 for none, as until the client agreed to one.
    pub heartbeat: u16,
}

/// The limits until the client agrees to others.
pub(crate) fn own_limits() -> Limits
    ensures { result ≡ own_limits }
{
    Limits {
        frame_max: FRAME_MAX,
        channel_max: CHANNEL_MAX,
        heartbeat: 0,
    }
}

/// Whether the gateway agrees to these limits: none is above its own, and frames aren't shorter
/// than all must take. 0 stands for the gateway's own.
pub(crate) fn is_agreed(channel_max: u16, frame_max: u32) -> bool
    ensures { result ≡ is_agreed channel_max frame_max }
{
    channel_max <= CHANNEL_MAX
        && (frame_max == 0 || (FRAME_MIN_SIZE <= frame_max && frame_max <= FRAME_MAX))
}

/// The limits that a tune-ok agrees to. 0 stands for the gateway's own.
pub(crate) fn agreed_limits(channel_max: u16, frame_max: u32, heartbeat: u16) -> Limits
    ensures { result ≡ agreed_limits channel_max frame_max heartbeat }
{
    Limits {
        frame_max: if frame_max == 0 { FRAME_MAX } else { frame_max },
        channel_max: if channel_max == 0 {
            CHANNEL_MAX
        } else {
            channel_max
        },
        heartbeat,
    }
}
