//! What a turn counts, and what may stop it.

ghost use Rattle.std.specs.Prelude.{◌≡◌, ◌||◌, true, false};
ghost use Rattle.gate_turns.specs.Parts.{begun, noted, outside_of};

use gate_runs::Outside;

/// What is counted while the pairs have their turn.
#[derive(Clone, Copy, Debug, PartialEq, Eq)]
pub struct Tally {
    /// In this turn a pair was accepted, a byte was read or taken, an end ended or failed, or one
    /// was shut.
    pub moved: bool,
    /// The pairs that ran out of memory so far. It stands still at its type's end.
    pub out_of_memory: u32,
}

impl Tally {
    /// Nothing was counted yet.
    pub fn new() -> Tally
        ensures { result ≡ record { moved = false; out_of_memory = 0 } }
    {
        Tally {
            moved: false,
            out_of_memory: 0,
        }
    }

    /// A turn begins.
    pub fn begin(&mut self)
        ensures { self.new ≡ begun self.old }
    {
        self.moved = false;
    }

    /// Notes whether something moved, and whether a pair ran out of memory.
    pub fn note(&mut self, moved: bool, ran_out: bool)
        ensures { self.new ≡ noted moved ran_out self.old }
    {
        self.moved |= moved;
        if ran_out {
            self.out_of_memory = self.out_of_memory.saturating_add(1);
        }
    }
}

/// A sink that failed, which ends the service at once.
#[derive(Clone, Copy, Debug, PartialEq, Eq)]
pub enum SinkFault {
    /// The report was not taken.
    Out,
    /// The record of a call was not taken.
    Capture,
}

impl SinkFault {
    /// What of the outside failed.
    pub fn outside(self) -> Outside
        ensures { result ≡ outside_of self }
    {
        match self {
            SinkFault::Out => Outside::Out,
            SinkFault::Capture => Outside::Capture,
        }
    }
}
