//! The calls of a rehearsal, while they are told.

use gate_outside::Log;
use std::marker::Model;

/// A log of calls that were answered as in a rehearsal, and whether all are told.
#[derive(Debug, Drop)]
pub struct Story {
    pub log: Log,
    pub tells: bool,
}

impl Model for Story {
    ghost use Rattle.std.specs.List.{AllByRecursion};
    ghost use Rattle.gate_rehearsal.specs.Playing.{IsPlayed, StoryState};

    ghost Value = { StoryState };

    ghost view = { λ a. record { entries = a.log.entries; tells = a.tells } };

    ghost invariant = { λ a. AllByRecursion IsPlayed a.log.entries };
}
