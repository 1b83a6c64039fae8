//! The clock of a script.

ghost use Rattle.std.specs.Prelude.{◌≡◌, ◌≤◌};
ghost use Rattle.gate_outside.specs.Script.{ClockState, clock_after};

use std::marker::Model;

/// A clock that gives 0 first and the same step more at each call. It stands still at the largest
/// `u64`.
#[derive(Debug, Drop)]
pub struct Clock {
    next: u64,
    step: u64,
    last: u64,
}

impl Model for Clock {
    ghost use Rattle.std.specs.Prelude.{◌≤◌};
    ghost use Rattle.gate_outside.specs.Script.{ClockState};

    ghost Value = { ClockState };

    ghost view = { λ a. record { next = a.next; step = a.step; last = a.last } };

    ghost invariant = { λ a. a.last ≤ a.next };
}

impl Clock {
    /// A clock that gave no moment yet.
    pub fn new(step: u64) -> Clock
        ensures { result ≡ record { next = 0; step = step; last = 0 } }
    {
        Clock {
            next: 0,
            step,
            last: 0,
        }
    }

    /// The next moment.
    pub fn now(&mut self) -> u64
        ensures answer { result ≡ self.old.next }
        ensures goes { self.new ≡ clock_after self.old }
        ensures onward { self.old.last ≤ result }
    {
        let moment = self.next;
        self.last = moment;
        self.next = moment.saturating_add(self.step);
        moment
    }
}
