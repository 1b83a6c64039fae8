//! The units on channels above those of a client: which can't be taken up behind the front.

use crate::lives::CHANNELS;
use crate::queue::{channel_of, waits_for_all};
use machine_091::Unit91;
use std::alloc::Global;
use std::collections::{BTreeSet, VecDeque};

/// What is known of a queue's units on channels above those of a client. The queue is looked
/// through from its front, up to the first of them that can be taken up behind it.
#[derive(Drop)]
pub struct Above {
    /// So many units were passed. None of these on such a channel can be taken up behind the front.
    pub(crate) passed: usize,
    /// The channels above those of a client that they are of.
    pub(crate) channels: BTreeSet<u16>,
}

impl Above {
    ghost use Rattle.std.specs.Prelude.{◌≡◌, ◌||◌, [], IfSome, List, Some, slice_get};
    ghost use Rattle.std.specs.Bool.{OnTrue};
    ghost use Rattle.std.specs.BTreeSet.{contains};
    ghost use Rattle.std.specs.Ordering.{nat_cmp};
    ghost use Rattle.machine_091.specs.declared.unit.Unit91.{Unit91};
    ghost use Rattle.gate_model.specs.Queue.{channel_of, removed, waits_for_all};
    ghost use Rattle.bridge_core.specs.Held.{ArePassed, IsFreeAbove};

    /// No unit was passed.
    pub fn new(alloc: Global) -> Above
        ensures { ArePassed [] result.passed result.channels }
    {
        Above {
            passed: 0,
            channels: BTreeSet::new(alloc),
        }
    }

    /// The same, whatever waits.
    #[tactic(auto, using(crate::proofs::Passed::none_passed))]
    pub fn clear(&mut self)
        ensures { (us : List Unit91) → ArePassed us self.new.passed self.new.channels }
    {
        self.passed = 0;
        self.channels.clear();
    }

    /// A unit of such a channel, behind those that were passed, can't be taken up behind the front.
    fn is_held(&self, unit: &Unit91) -> bool
        ensures { result ≡ (waits_for_all unit.now
            || contains nat_cmp self.now.channels (channel_of unit.now)) }
    {
        waits_for_all(unit) || self.channels.contains(&channel_of(unit))
    }

    /// The next unit is passed, where it can't be taken up behind the front.
    fn pass(&mut self, units: &VecDeque<Unit91>) -> bool
        ensures { ArePassed units.now.items self.old.passed self.old.channels
            → ArePassed units.now.items self.new.passed self.new.channels }
    {
        let Some(unit) = units.get(self.passed) else {
            return false;
        };
        let channel = channel_of(unit);
        if CHANNELS <= usize::from(channel) {
            if !self.is_held(unit) {
                return false;
            }
            let Ok(_) = self.channels.insert(channel) else {
                return false;
            };
        }
        self.passed += 1;
        true
    }

    /// Units are passed up to the first that can be taken up behind the front.
    pub fn pass_all(&mut self, units: &VecDeque<Unit91>)
        ensures { ArePassed units.now.items self.old.passed self.old.channels
            → ArePassed units.now.items self.new.passed self.new.channels }
    {
        for _ in self.passed..units.len() {
            if !self.pass(units) {
                return;
            }
        }
    }

    /// The unit at a place went.
    fn close_up(&mut self, place: usize, unit: &Unit91)
        ensures { (us : List Unit91) → slice_get us place ≡ Some unit.now
            → ArePassed us self.old.passed self.old.channels
            → ArePassed (removed place us) self.new.passed self.new.channels }
    {
        if self.passed <= place {
            return;
        }
        if usize::from(channel_of(unit)) < CHANNELS {
            self.passed -= 1;
        } else {
            self.clear();
        }
    }

    /// The same, and these stay. Where it wasn't the front, units are passed as far as may be.
    pub fn went(&mut self, place: usize, unit: &Unit91, units: &VecDeque<Unit91>)
        ensures { (us : List Unit91) → slice_get us place ≡ Some unit.now
            → units.now.items ≡ removed place us
            → ArePassed us self.old.passed self.old.channels
            → ArePassed units.now.items self.new.passed self.new.channels }
    {
        self.close_up(place, unit);
        if 0 < place {
            self.pass_all(units);
        }
    }

    /// The unit at a place can be taken up behind the front, if no request waits on its channel and
    /// none of channel 0 stands before it.
    pub fn is_free(&self, place: usize, units: &VecDeque<Unit91>) -> bool
        ensures { ArePassed units.now.items self.now.passed self.now.channels
            → OnTrue result (IfSome (slice_get units.now.items place)
            (IsFreeAbove units.now.items place)) }
    {
        match units.get(place) {
            Some(unit) if place == self.passed && CHANNELS <= usize::from(channel_of(unit)) => {
                !self.is_held(unit)
            }
            _ => false,
        }
    }
}
