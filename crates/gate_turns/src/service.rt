//! The live pairs of a run.

ghost use Rattle.std.specs.Prelude.{◌≡◌, ◌+◌, ◌<◌, ◌∷◌, ◌++◌, [], length, remove, OnOk, OnErr};
ghost use Rattle.std.specs.Vec.{vec_len};

use crate::live::Live;
use std::alloc::Global;
use wire_base::Memory;

/// The live pairs, in the order of their accepts, and the count of the pairs accepted.
#[derive(Drop)]
pub struct Service<R> {
    pub live: Vec<Live<R>>,
    pub accepted: u32,
}

impl<R: Drop> Service<R> {
    /// No pair was accepted yet.
    pub fn new(alloc: Global) -> Service<R>
        ensures live { result.live.items ≡ [] }
        ensures accepted { result.accepted ≡ 0 }
    {
        Service {
            live: Vec::new(alloc),
            accepted: 0,
        }
    }

    /// A pair was accepted.
    pub fn count(&mut self)
        requires { self.old.accepted < 4294967295 }
        ensures accepted { self.new.accepted ≡ self.old.accepted + 1 }
        ensures live { self.new.live.items ≡ self.old.live.items }
    {
        self.accepted += 1;
    }

    /// A pair lives, if there is memory for its place in the list.
    pub fn admit(&mut self, live: Live<R>) -> Result<(), Memory>
        ensures accepted { self.new.accepted ≡ self.old.accepted }
        ensures ok { OnOk result (self.new.live.items ≡ self.old.live.items ++ live ∷ []) }
        ensures err { OnErr result (self.new.live.items ≡ self.old.live.items) }
    {
        match self.live.push(live) {
            Ok(()) => Ok(()),
            Err(_) => Err(Memory),
        }
    }

    /// The live pair at a place in the list was shut.
    pub fn retire(&mut self, at: usize)
        requires { at < vec_len self.old.live }
        ensures accepted { self.new.accepted ≡ self.old.accepted }
        ensures live { self.new.live.items ≡ remove self.old.live.items at }
    {
        let _ = self.live.remove(at);
    }
}
