//! The units of a client that aren't taken up yet.

ghost use Rattle.std.specs.Prelude.{◌≡◌, ◌<◌, ◌≤◌, ◌+◌, ◌^◌, ◌++◌, ◌∷◌, [], OnOk, OnErr};
ghost use Rattle.std.specs.Prelude.{drop, length, map};
ghost use Rattle.std.specs.Prelude.{IfSome, if◌then◌else◌, option_copied, slice_get, slice_set, take, true, Some};
ghost use Rattle.std.specs.Prelude.{count_by, nat_lt};
ghost use Rattle.std.specs.Bool.{OnFalse, OnTrue};
ghost use Rattle.std.specs.List.{list_any, position_or_len};
ghost use Rattle.gate_model.specs.Queue.{holds, is_bad_unit, is_empty, is_full, payload_of};
ghost use Rattle.gate_model.specs.Queue.{removed, waits_for_all, channel_of};
ghost use Rattle.bridge_core.specs.Held.{AreAboveHeld, AreHeld, IsFreeAbove, firsts_after};
ghost use Rattle.bridge_core.specs.Held.{gone_after, is_counted_at, moved_up};
ghost use Rattle.bridge_core.specs.Held.{place_of};
ghost use Rattle.bridge_core.specs.declared.queue.TheConstants.{COUNTS};

use crate::above::Above;
use crate::lives::CHANNELS;
use frames_091::Kind91;
use gate_model::{QUEUE_BYTES, QUEUE_UNITS};
use machine_091::Unit91;
use std::alloc::Global;
use std::collections::VecDeque;
use std::marker::Model;
use wire_base::Memory;

/// Units are counted for each channel of a client, and for all channels above those at once.
pub const COUNTS: usize = CHANNELS + 1;

/// The units of a client that aren't taken up yet, in their order.
#[derive(Drop)]
pub struct Queue {
    /// How many are of each channel.
    counts: [u32; COUNTS],
    /// The place of the first unit of each channel that has some, counted from the first unit ever.
    firsts: [usize; COUNTS],
    /// How many went from the front.
    gone: usize,
    /// Those on channels above those of a client.
    above: Above,
    units: VecDeque<Unit91>,
    bytes: usize,
    /// Bytes with which no unit begins are among them.
    bad: bool,
}

impl Model for Queue {
    ghost use Rattle.std.specs.Prelude.{◌≡◌, List};
    ghost use Rattle.std.specs.List.{list_any};
    ghost use Rattle.machine_091.specs.declared.unit.Unit91.{Unit91};
    ghost use Rattle.gate_model.specs.Queue.{is_bad_unit, payloads};
    ghost use Rattle.bridge_core.specs.Held.{AreCounted, AreFirst, ArePassed};

    ghost Value = { List Unit91 };

    ghost view = { λ a. a.units.items };

    ghost invariant = { λ a. (a.bytes ≡ payloads a.units.items)
        × (a.bad ≡ list_any is_bad_unit a.units.items) × AreCounted a.units.items a.counts
        × AreFirst a.units.items a.gone a.firsts
        × ArePassed a.units.items a.above.passed a.above.channels };
}

/// The channel that a unit is of: of the connection is what isn't a frame.
pub fn channel_of(unit: &Unit91) -> u16
    ensures { result ≡ channel_of unit.now }
{
    match unit {
        Unit91::Frame(frame) => frame.channel,
        Unit91::Protocol | Unit91::Bad(_) => 0,
    }
}

/// It waits for all that came before it.
pub fn waits_for_all(unit: &Unit91) -> bool
    ensures { result ≡ waits_for_all unit.now }
{
    match unit {
        Unit91::Frame(frame) => frame.channel == 0 || matches!(frame.kind, Kind91::Heartbeat),
        Unit91::Protocol | Unit91::Bad(_) => true,
    }
}

/// The bytes that count of a unit.
fn payload_of(unit: &Unit91) -> usize
    ensures { result ≡ payload_of unit.now }
{
    match unit {
        Unit91::Frame(frame) => frame.payload.as_slice().len(),
        Unit91::Protocol | Unit91::Bad(_) => 0,
    }
}

/// Bytes with which no unit begins.
fn is_bad_unit(unit: &Unit91) -> bool
    ensures { result ≡ is_bad_unit unit.now }
{
    matches!(unit, Unit91::Bad(_))
}

/// Bytes with which no unit begins are among these.
fn any_bad(units: &VecDeque<Unit91>) -> bool
    ensures { result ≡ list_any is_bad_unit units.now.items }
{
    units.iter().any(is_bad_unit)
}

/// Whether bad bytes are among the units that stay, where these were among all, and this unit goes.
fn bad_without(bad: bool, unit: &Unit91, units: &VecDeque<Unit91>) -> bool
    ensures { result ≡ (if is_bad_unit unit.now then list_any is_bad_unit units.now.items
        else bad) }
{
    if is_bad_unit(unit) {
        any_bad(units)
    } else {
        bad
    }
}

/// The place of a unit's channel among the counts.
fn place_of(unit: &Unit91) -> usize
    ensures value { result ≡ place_of unit.now }
    ensures within { result < COUNTS }
{
    usize::from(channel_of(unit)).min(CHANNELS)
}

/// A unit of a channel waits for this one.
fn holds(channel: u16, unit: &Unit91) -> bool
    ensures { result ≡ holds channel unit.now }
{
    let of = channel_of(unit);
    of == 0 || of == channel
}

/// A channel is held.
#[tactic(auto, using(crate::proofs::Places::set_past))]
fn mark(held: &mut [bool; CHANNELS], channel: u16)
    ensures { held.new ≡ slice_set held.old channel true }
{
    let at = usize::from(channel);
    if at < CHANNELS {
        held[at] = true;
    }
}

/// A unit stands behind this place, and so one place before, once the one there went.
fn moved_up(at: usize, first: usize) -> usize
    ensures { result ≡ moved_up at first }
{
    if at < first { first - 1 } else { first }
}

/// The unit at a place went, which isn't the front.
fn close_up(firsts: &mut [usize; COUNTS], at: usize)
    ensures { firsts.new ≡ map (moved_up at) firsts.old }
{
    for first in firsts.iter_mut() {
        *first = moved_up(at, *first);
    }
}

/// The unit at a place went: the first units behind it move up, and how many went from the front.
fn went(firsts: &mut [usize; COUNTS], gone: usize, place: usize) -> usize
    requires { gone + place + 1 < 2 ^ 64 }
    ensures gone { result ≡ gone_after place gone }
    ensures firsts { firsts.new ≡ firsts_after place gone firsts.old }
{
    if place == 0 {
        gone + 1
    } else {
        close_up(firsts, gone + place);
        gone
    }
}

/// The place of the first unit of a channel from a place on, or how many units wait.
fn next_from(units: &VecDeque<Unit91>, place: usize, of: usize) -> usize
    requires { place ≤ length units.now.items }
    ensures { result ≡ place + position_or_len (is_counted_at of) (drop place units.now.items) }
{
    for i in place..units.len() {
        match units.get(i) {
            Some(unit) if place_of(unit) == of => return i,
            _ => {}
        }
    }
    units.len()
}

impl Queue {
    /// All is taken up.
    pub fn new(alloc: Global) -> Queue
        ensures { result ≡ [] }
    {
        Queue {
            units: VecDeque::new(alloc),
            bytes: 0,
            bad: false,
            counts: [0; COUNTS],
            firsts: [0; COUNTS],
            gone: 0,
            above: Above::new(alloc),
        }
    }

    /// A unit waits behind the others. Without memory all is as it was.
    #[tactic(auto, using(crate::proofs::Payloads::payloads_more, crate::proofs::Payloads::bad_more, crate::proofs::Counts::counted_more))]
    pub fn push(&mut self, unit: Unit91) -> Result<(), Memory>
        ensures ok { OnOk result (self.new ≡ self.old ++ unit ∷ []) }
        ensures err { OnErr result (self.new ≡ self.old) }
    {
        let Some(bytes) = self.bytes.checked_add(payload_of(&unit)) else {
            return Err(Memory);
        };
        let place = place_of(&unit);
        let Some(count) = self.counts[place].checked_add(1) else {
            return Err(Memory);
        };
        let Some(end) = self.gone.checked_add(self.units.len() + 1) else {
            return Err(Memory);
        };
        let bad = is_bad_unit(&unit);
        match self.units.push_back(unit) {
            Ok(()) => {
                self.bytes = bytes;
                self.bad |= bad;
                self.counts[place] = count;
                self.above.pass_all(&self.units);
                if count == 1 {
                    self.firsts[place] = end - 1;
                }
                Ok(())
            }
            Err(_) => Err(Memory),
        }
    }

    /// No unit waits any more.
    pub fn clear(&mut self)
        ensures { self.new ≡ [] }
    {
        self.units.clear();
        self.bytes = 0;
        self.bad = false;
        self.counts = [0; COUNTS];
        self.gone = 0;
        self.above.clear();
    }

    /// How many units wait.
    pub fn len(&self) -> usize
        ensures { result ≡ length self.now }
    {
        self.units.len()
    }

    /// The unit at a place.
    pub fn get(&self, place: usize) -> Option<&Unit91>
        ensures { option_copied result ≡ slice_get self.now place }
    {
        self.units.get(place)
    }

    /// All is taken up.
    pub fn is_empty(&self) -> bool
        ensures { result ≡ is_empty self.now }
    {
        self.units.len() == 0
    }

    /// So much waits that the client isn't read.
    pub fn is_full(&self) -> bool
        ensures { result ≡ is_full self.now }
    {
        QUEUE_UNITS <= self.units.len() || QUEUE_BYTES <= self.bytes
    }

    /// Bytes with which no unit begins are among what waits.
    pub fn has_bad(&self) -> bool
        ensures { result ≡ list_any is_bad_unit self.now }
    {
        self.bad
    }

    /// Units of a channel wait; the number above those of a client stands for all above.
    pub fn has(&self, channel: u16) -> bool
        requires { channel < COUNTS }
        ensures { result ≡ nat_lt 0 (count_by (is_counted_at channel) self.now) }
    {
        0 < self.counts[usize::from(channel)]
    }

    /// The place of a channel's first unit, or how many units wait; the number above those of a
    /// client stands for all above.
    pub fn first(&self, channel: u16) -> usize
        requires { channel < COUNTS }
        ensures { result ≡ position_or_len (is_counted_at channel) self.now }
    {
        if self.has(channel) {
            self.firsts[usize::from(channel)] - self.gone
        } else {
            self.len()
        }
    }

    /// How many units at the front were passed: of these none on a channel above those of a client
    /// can be taken up behind the front.
    pub fn passed(&self) -> usize
        ensures { AreAboveHeld (take result self.now) }
    {
        self.above.passed
    }

    /// Units are passed up to the first such that can be taken up behind the front.
    pub fn pass(&mut self)
        ensures { self.new ≡ self.old }
    {
        self.above.pass_all(&self.units);
    }

    /// The unit at this place, which is on such a channel, waits neither for all before it nor for
    /// another of its channel. Only of the one behind those that were passed this is said.
    pub fn is_free_above(&self, place: usize) -> bool
        ensures { OnTrue result (IfSome (slice_get self.now place) (IsFreeAbove self.now place)) }
    {
        self.above.is_free(place, &self.units)
    }

    /// Whether one of the first units holds those of a channel.
    fn holds_before(&self, place: usize, channel: u16) -> bool
        requires { place < length self.now }
        ensures { result ≡ list_any (holds channel) (take place self.now) }
    {
        self.units.iter().take(place).any(|u| holds(channel, u))
    }

    /// Whether one of the first units holds those of a channel, where this says it of each channel
    /// of a client.
    pub fn is_held(&self, place: usize, channel: u16, held: &[bool; CHANNELS]) -> bool
        requires within { place < length self.now }
        requires held { AreHeld (take place self.now) held.now }
        ensures { result ≡ list_any (holds channel) (take place self.now) }
    {
        let at = usize::from(channel);
        if at < CHANNELS {
            held[at]
        } else {
            self.holds_before(place, channel)
        }
    }

    /// The channel of the unit at a place.
    fn channel_at(&self, place: usize) -> u16
        requires { place < length self.now }
        ensures { IfSome (slice_get self.now place) (λ u. result ≡ channel_of u) }
    {
        match self.units.get(place) {
            None => 0,
            Some(unit) => channel_of(unit),
        }
    }

    /// The unit at a place holds its channel. `false` is for one of channel 0, which holds all.
    #[tactic(auto, using(crate::proofs::Places::hold_more))]
    pub fn hold(&self, place: usize, held: &mut [bool; CHANNELS]) -> bool
        requires within { place < length self.now }
        requires held { AreHeld (take place self.now) held.old }
        ensures all { OnFalse result (IfSome (slice_get self.now place) (λ u. channel_of u ≡ 0)) }
        ensures held { OnTrue result (AreHeld (take (place + 1) self.now) held.new) }
    {
        let channel = self.channel_at(place);
        if channel == 0 {
            return false;
        }
        mark(held, channel);
        true
    }

    /// The unit at a place doesn't wait any more.
    #[tactic(auto, using(crate::proofs::Payloads::payloads_less))]
    pub fn remove(&mut self, place: usize) -> Unit91
        requires { place < length self.old }
        ensures unit { slice_get self.old place ≡ Some result }
        ensures rest { self.new ≡ removed place self.old }
    {
        let Some(unit) = self.units.remove(place) else {
            unreachable!()
        };
        self.bytes -= payload_of(&unit);
        let of = place_of(&unit);
        self.counts[of] -= 1;
        self.bad = bad_without(self.bad, &unit, &self.units);
        let was_first = self.firsts[of] == self.gone + place;
        self.gone = went(&mut self.firsts, self.gone, place);
        self.above.went(place, &unit, &self.units);
        if was_first && 0 < self.counts[of] {
            self.firsts[of] = self.gone + next_from(&self.units, place, of);
        }
        unit
    }
}
