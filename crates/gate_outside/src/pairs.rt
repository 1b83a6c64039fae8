//! The pairs of a script, with their open ends and the bytes taken there.

ghost use Rattle.std.specs.Prelude.{◌≡◌, ◌<◌, [], ◌∷◌, ◌++◌, false, length, IfOk};
ghost use Rattle.gate_outside.specs.declared.ports.End.{End};
ghost use Rattle.gate_outside.specs.Ends.{is_end, is_open, closed};
ghost use Rattle.gate_outside.specs.Script.{PairsState, pair_answer, pairs_accepted, taken_at};
ghost use Rattle.gate_outside.specs.Script.{taken_at_end, more_taken, more_at_end};

use crate::ports::{Accepted, End};
use std::alloc::Global;
use std::marker::Model;
use wire_base::Memory;

/// How many bytes were taken at the ends of a pair.
#[derive(Clone, Copy, Debug)]
pub struct Taken {
    client: u64,
    up: u64,
}

/// The pairs so far. All memory that they need is reserved when they are made.
#[derive(Debug, Drop)]
pub struct Pairs {
    most: u32,
    taken: Vec<Taken>,
    ends: Vec<(u32, End)>,
}

impl Model for Pairs {
    ghost use Rattle.gate_outside.specs.Script.{PairsState};

    ghost Value = { PairsState };

    ghost use Rattle.gate_outside.specs.Reserved.{HasRoomForPairs};

    ghost view = { λ a. record { most = a.most; taken = a.taken.items; ends = a.ends.items } };

    ghost invariant = { HasRoomForPairs };
}

impl Pairs {
    /// No pair yet, of so many.
    pub fn new(alloc: Global, most: u32) -> Result<Pairs, Memory>
        ensures { IfOk result (λ pairs. pairs ≡ record { most = most; taken = []; ends = [] }) }
    {
        let taken = Vec::with_capacity(alloc, most as usize)?;
        let ends = Vec::with_capacity(alloc, most as usize * 2)?;
        Ok(Pairs { most, taken, ends })
    }

    /// The next pair, while there is one. Its client's end is then open.
    pub fn accept(&mut self) -> Accepted
        ensures answer { result ≡ pair_answer self.old }
        ensures goes { self.new ≡ pairs_accepted result self.old }
    {
        let pair = self.taken.len();
        if pair >= self.most as usize {
            return Accepted::NotYet;
        }
        self.taken.push_reserved(Taken { client: 0, up: 0 });
        self.ends.push_reserved((pair as u32, End::Client));
        Accepted::Pair(pair as u32)
    }

    /// Opens the upstream end of a pair.
    pub fn link(&mut self, pair: u32)
        requires known { pair < length self.old.taken }
        requires free { is_open pair End.Up self.old.ends ≡ false }
        ensures { self.new ≡ record self.old { ends = self.old.ends ++ (pair, End.Up) ∷ [] } }
    {
        self.ends.push_reserved((pair, End::Up));
    }

    /// Closes an end.
    pub fn close(&mut self, pair: u32, end: End)
        ensures { self.new ≡ record self.old { ends = closed pair end self.old.ends } }
    {
        self.ends.retain(|this| !is_end(this, pair, end));
    }

    /// How many bytes were taken at an end.
    pub fn taken_at(&self, pair: u32, end: End) -> u64
        ensures { result ≡ taken_at pair end self.now }
    {
        match self.taken.get(pair as usize) {
            Some(taken) => taken.at(end),
            None => 0,
        }
    }

    /// So many bytes were taken at an end.
    pub fn take(&mut self, pair: u32, end: End, count: usize)
        ensures { self.new ≡ more_taken pair end count self.old }
    {
        let at = pair as usize;
        if at < self.taken.len() {
            self.taken[at] = self.taken[at].more(end, count);
        }
    }
}

impl Taken {
    fn at(self, end: End) -> u64
        ensures { result ≡ taken_at_end end self }
    {
        match end {
            End::Client => self.client,
            End::Up => self.up,
        }
    }

    fn more(self, end: End, count: usize) -> Taken
        ensures { result ≡ more_at_end end count self }
    {
        match end {
            End::Client => Taken {
                client: self.client.saturating_add(count as u64),
                up: self.up,
            },
            End::Up => Taken {
                client: self.client,
                up: self.up.saturating_add(count as u64),
            },
        }
    }
}

fn is_end(this: &(u32, End), pair: u32, end: End) -> bool
    ensures { result ≡ is_end pair end this.now }
{
    this.0 == pair && this.1 == end
}
