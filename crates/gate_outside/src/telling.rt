//! A log that is told until an entry finds no room.

ghost use Rattle.std.specs.Prelude.{◌≡◌, [], true, IfOk};
ghost use Rattle.gate_outside.specs.History.{Tells};
ghost use Rattle.gate_outside.specs.LogState.{entry_of};
ghost use Rattle.gate_outside.specs.Telling.{told, told_log};

use crate::log::{Call, Log};
use std::alloc::Global;
use wire_base::Memory;

/// The log so far, and whether it is still told.
#[derive(Debug, Drop)]
pub struct Telling {
    log: Log,
    tells: bool,
}

impl Telling {
    /// An empty log with room for so many entries, whose bytes are so many in all.
    pub fn new(alloc: Global, entries: usize, bytes: usize) -> Result<Telling, Memory>
        ensures { IfOk result (λ telling. telling ≡ record {
          log = record { entries = []; entry_room = entries; byte_room = bytes };
          tells = true;
        }) }
    {
        let log = Log::new(alloc, entries, bytes)?;
        Ok(Telling { log, tells: true })
    }

    /// Adds the entry of a call, or ends the telling where it finds no room.
    pub fn tell(&mut self, call: Call, bytes: &[u8])
        ensures goes { self.new ≡ told call bytes.now self.old }
        ensures log { Tells (told_log self.old) (told_log self.new) (entry_of call bytes.now) }
    {
        self.tells = self.tells && self.log.add(call, bytes);
    }

    /// The log up to where it was told.
    pub fn log(&self) -> &Log
        ensures { result.now ≡ self.now.log }
    {
        &self.log
    }
}
