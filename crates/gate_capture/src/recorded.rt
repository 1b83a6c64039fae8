//! A log that calls use up, entry by entry.

ghost use Rattle.std.specs.Prelude.{◌≡◌, ℕ, ◌<◌, [], length, MatchOption, option_copied, slice_get};
ghost use Rattle.std.specs.List.{AllByRecursion};
ghost use Rattle.gate_capture.specs.Spelling.{HasSpelling};
ghost use Rattle.gate_capture.specs.Replay.{step, whole};

use gate_outside::{Entries, LogEntry};
use std::marker::Model;

/// A log, and how many of its entries were used.
#[derive(Debug, Drop)]
pub struct RecordedLog {
    entries: Entries,
    at: usize,
}

impl Model for RecordedLog {
    ghost use Rattle.std.specs.Prelude.{◌≤◌, length, take, drop, reverse};
    ghost use Rattle.std.specs.List.{AllByRecursion};
    ghost use Rattle.gate_capture.specs.Spelling.{HasSpelling};
    ghost use Rattle.gate_capture.specs.Replay.{Recorded};

    ghost Value = { Recorded };

    ghost view = { λ a. record {
      left = drop a.at a.entries;
      used = reverse
          (take a.at a.entries);
    } };

    ghost invariant = { λ a. (a.at ≤ length a.entries) × AllByRecursion HasSpelling a.entries };
}

impl RecordedLog {
    /// A log of which nothing was used.
    pub fn new(entries: Entries) -> RecordedLog
        requires { AllByRecursion HasSpelling entries }
        ensures { result ≡ record { left = entries; used = [] } }
    {
        RecordedLog { entries, at: 0 }
    }

    /// The entry that comes next.
    pub fn next(&self) -> Option<&LogEntry>
        ensures entry { option_copied result ≡ slice_get self.now.left 0 }
        ensures there { MatchOption result (Unit {0}) (λ entry. 0 < length self.now.left) }
        ensures spelled { MatchOption result (Unit {0}) (λ entry. HasSpelling entry.now) }
    {
        self.entries.get(self.at)
    }

    /// The whole log.
    #[tactic(auto, using(crate::proofs::RecordedLemmas::whole_is))]
    pub fn entries(&self) -> &Entries
        ensures { result.now ≡ whole self.now }
    {
        &self.entries
    }

    /// How many entries were used.
    pub fn used(&self) -> usize
        ensures { result ≡ length self.now.used }
    {
        self.at
    }

    /// How many entries are left.
    pub fn left(&self) -> usize
        ensures { result ≡ length self.now.left }
    {
        self.entries.len() - self.at
    }

    /// Uses the next entry, if there is one.
    #[tactic(auto, using(crate::proofs::RecordedLemmas::step_is))]
    pub fn step(&mut self)
        ensures { self.new ≡ step self.old }
    {
        if self.at < self.entries.len() {
            self.at += 1;
        }
    }
}
