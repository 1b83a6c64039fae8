//! The laps of writes of a pair's part of a turn.

ghost use Rattle.std.specs.Prelude.{◌≡◌, true, false};
ghost use Rattle.gate_runs.specs.Stages.{lap_end, lap_after};

use gate_outside::End;

/// A lap of writes.
#[derive(Clone, Copy, Debug, PartialEq, Eq)]
pub enum Lap {
    /// Upstream.
    ToUp,
    /// To the client.
    ToClient,
    /// To the client, once the pair ran out of memory in that lap.
    ToClientLate,
    /// Upstream once more, after that.
    ToUpAgain,
}

impl Lap {
    /// The end that is written to.
    pub fn end(self) -> End
        ensures { result ≡ lap_end self }
    {
        match self {
            Lap::ToUp | Lap::ToUpAgain => End::Up,
            Lap::ToClient | Lap::ToClientLate => End::Client,
        }
    }
}
