//! The telling of calls.

ghost use Rattle.std.specs.Prelude.{◌≡◌, [], None, Some, reverse, IfOk, IfSome, IfNone};
ghost use Rattle.std.specs.List.{AllByRecursion};
ghost use Rattle.gate_outside.specs.History.{Tells};
ghost use Rattle.gate_outside.specs.LogState.{entry_of};
ghost use Rattle.gate_rehearsal.specs.Playing.{IsPlayed};
ghost use Rattle.gate_rehearsal.specs.Standing.{told_log};

use crate::story::Story;
use gate_outside::{Call, Log};
use std::alloc::Global;
use wire_base::Memory;

impl Story {
    /// No call yet, and room for so many, whose bytes are so many in all.
    pub fn new(alloc: Global, calls: usize, bytes: usize) -> Result<Story, Memory>
        ensures { IfOk result (λ story. told_log story ≡ Some []) }
    {
        let log = Log::new(alloc, calls, bytes)?;
        Ok(Story { log, tells: true })
    }

    /// Adds a call, or ends the telling where it finds no room.
    pub fn tell(&mut self, call: Call, bytes: &[u8])
        requires { IsPlayed (entry_of call bytes.now) }
        ensures { Tells (told_log self.old) (told_log self.new) (entry_of call bytes.now) }
    {
        self.tells = self.tells && self.log.add(call, bytes);
    }

    /// The calls; `None` exactly where the entry of one found no room.
    pub fn log(&self) -> Option<&Log>
        ensures some { IfSome result (λ log. told_log self.now ≡ Some (reverse log.now.entries)) }
        ensures played { IfSome result (λ log. AllByRecursion IsPlayed log.now.entries) }
        ensures none { IfNone result (told_log self.now ≡ None) }
    {
        if self.tells { Some(&self.log) } else { None }
    }
}
