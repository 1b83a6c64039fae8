//! How often a line may be told.

ghost use Rattle.std.specs.Prelude.{◌≡◌, ◌+◌, ◌-◌, ◌^◌, true, false, min, nat_le};
ghost use Rattle.gate_ends.specs.declared.pace.TheConstants.{QUIET};

/// How long after a line none is told, in milliseconds.
const QUIET: u64 = 1_000;

/// The moment from which a line may be told that is told once a second at most.
#[derive(Drop)]
pub struct Pace {
    pub from: u64,
}

impl Pace {
    /// A line may be told at once.
    pub fn new() -> Pace
        ensures { result.from ≡ 0 }
    {
        Pace { from: 0 }
    }

    /// Whether a line may be told at this moment. Then none may for a second.
    pub fn is_due(&mut self, moment: u64) -> bool
        ensures due { result ≡ nat_le self.old.from moment }
        ensures next { result ≡ true → self.new.from ≡ min (moment + QUIET) (2 ^ 64 - 1) }
        ensures kept { result ≡ false → self.new ≡ self.old }
    {
        let is_due = self.from <= moment;
        if is_due {
            self.from = moment.saturating_add(QUIET);
        }
        is_due
    }
}
