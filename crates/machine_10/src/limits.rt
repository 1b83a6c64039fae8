//! The limits that the gateway states to a container, and those that a container states.

ghost use Rattle.std.specs.Prelude.{◌≡◌};
ghost use Rattle.machine_10.specs.State.{unstated};

/// The greatest size of a frame that the gateway takes, in bytes.
pub const FRAME_MAX: u32 = 65_536;

/// The least size of a frame that both sides must take, in bytes (AMQP 1.0 2.8.19).
pub const FRAME_MIN_SIZE: u32 = 512;

/// The window for transfer frames that the gateway states, of each session.
pub const WINDOW: u32 = 2_048;

/// What a container's open states (AMQP 1.0 2.7.1).
#[derive(Clone, Copy, Debug, PartialEq, Eq)]
pub struct Stated10 {
    /// The greatest size of a frame that it takes, in bytes, at least 512; 512 until its open.
    pub max_frame: u32,
    /// The greatest number of a channel that it takes; 0 until its open.
    pub channel_max: u16,
    /// After how many milliseconds without a frame it gives the connection up; `None` where it
    /// doesn't, and until its open.
    pub idle: Option<u32>,
}

/// What holds until the container's open.
pub(crate) fn unstated() -> Stated10
    ensures { result ≡ unstated }
{
    Stated10 {
        max_frame: FRAME_MIN_SIZE,
        channel_max: 0,
        idle: None,
    }
}
