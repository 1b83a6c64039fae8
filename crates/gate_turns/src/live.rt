//! A live pair.

ghost use Rattle.std.specs.Prelude.{◌≡◌, ℕ, ◌≤◌, ◌<◌, ◌^◌, true, false, List, ◌∷◌, length, Option};
ghost use Rattle.std.specs.Prelude.{Some, None, is_some, IfSome};
ghost use Rattle.gate_relay.specs.Sides.{side_of, with_side, side_lost, side_linked, is_readable};
ghost use Rattle.gate_relay.specs.Sides.{is_writable, is_absent, is_open_side};

use gate_outside::{End, Got, Linked, Put};
use gate_relay::{Loss, Relay, Sides};
use std::alloc::Global;
use wire_base::Memory;

/// A live pair: its number, how far its ends are, and the state of its protocols.
#[derive(Drop)]
pub struct Live<R> {
    /// Pairs are numbered in the order of their accepts.
    pub number: u32,
    pub sides: Sides,
    /// In a box, so that the list of the live pairs is short to go through and to shift.
    pub relay: Box<R>,
}

/// What was found for a write.
#[derive(Clone, Copy, Debug)]
pub struct Look {
    /// Bytes are offered.
    pub ready: bool,
    /// The pair ran out of memory.
    pub ran_out: bool,
}

impl<R: Relay> Live<R> {
    ghost use Rattle.gate_relay.specs.Entries.{Entry, Moment, Settled, Joined, Lost, Over};
    ghost use Rattle.gate_relay.specs.Entries.{is_out_of_memory};
    ghost use Rattle.gate_relay.specs.Guards.{reads, takes_up, connects, offers, shuts};
    ghost use Rattle.gate_runs.specs.Journal.{read_entry, write_entry};
    ghost use Rattle.gate_turns.specs.Represents.{Represents, with_cut, sides_read, sides_wrote};
    ghost use Rattle.gate_turns.specs.Represents.{has_come, found_by};
    ghost use Rattle.gate_outside.specs.Ends.{TakesSome};

    /// A moment was given.
    pub fn tell(&mut self, moment: u64)
        ensures number { self.new.number ≡ self.old.number }
        ensures sides { self.new.sides ≡ self.old.sides }
        ensures memory { R.out_of_memory self.new.relay.value
            ≡ R.out_of_memory self.old.relay.value }
        ensures entry { (s : R.Setup) (h : List Entry) → Represents (R.represents s) self.old h
            → Represents (R.represents s) self.new (Moment moment ∷ h) }
    {
        self.relay.tell(moment);
    }

    /// The service ended.
    pub fn finish(&mut self)
        ensures number { self.new.number ≡ self.old.number }
        ensures sides { self.new.sides ≡ self.old.sides }
        ensures memory { R.out_of_memory self.new.relay.value
            ≡ R.out_of_memory self.old.relay.value }
        ensures entry { (s : R.Setup) (h : List Entry) → Represents (R.represents s) self.old h
            → Represents (R.represents s) self.new (Over ∷ h) }
    {
        self.relay.finish();
    }

    /// An end is to be read.
    pub fn is_read(&self, end: End) -> bool
        ensures side { result ≡ true → is_readable (side_of end self.now.sides) ≡ true }
        ensures memory { result ≡ true → R.out_of_memory self.now.relay.value ≡ false }
        ensures word { (s : R.Setup) (h : List Entry) → Represents (R.represents s) self.now h
            → result ≡ reads (R.words s) end h }
    {
        self.sides.of(end).is_readable()
            && (!self.relay.is_out_of_memory() && self.relay.awaits(end))
    }

    /// What came is to be taken up.
    pub fn takes_up(&self) -> bool
        ensures memory { result ≡ true → R.out_of_memory self.now.relay.value ≡ false }
        ensures word { (s : R.Setup) (h : List Entry) → Represents (R.represents s) self.now h
            → result ≡ takes_up (R.words s) h }
    {
        !self.relay.is_out_of_memory() && self.relay.takes_up()
    }

    /// The connection upstream is to be asked for.
    pub fn is_linked(&self) -> bool
        ensures side { result ≡ true → is_absent (side_of End.Up self.now.sides) ≡ true }
        ensures word { (s : R.Setup) (h : List Entry) → Represents (R.represents s) self.now h
            → result ≡ connects (R.words s) h }
    {
        self.sides.of(End::Up).is_absent()
            && (!self.relay.is_out_of_memory() && self.relay.connects())
    }

    /// An end is to be shut.
    pub fn is_shut(&self, end: End) -> bool
        ensures side { result ≡ true → is_open_side (side_of end self.now.sides) ≡ true }
        ensures word { (s : R.Setup) (h : List Entry) → Represents (R.represents s) self.now h
            → result ≡ shuts (R.words s) end h }
    {
        self.sides.of(end).is_open() && self.relay.shut_due(end)
    }

    /// An end was lost.
    pub fn lose(&mut self, end: End, how: Loss)
        ensures number { self.new.number ≡ self.old.number }
        ensures sides { self.new.sides ≡ with_side end (side_lost how) self.old.sides }
        ensures memory { R.out_of_memory self.new.relay.value
            ≡ R.out_of_memory self.old.relay.value }
        ensures entry { (s : R.Setup) (h : List Entry) → Represents (R.represents s) self.old h
            → Represents (R.represents s) self.new (Lost end how ∷ h) }
    {
        self.sides.lose(end, how);
        self.relay.lose(end, how);
    }

    /// The connection upstream was asked for.
    pub fn link(&mut self, answer: Linked)
        ensures number { self.new.number ≡ self.old.number }
        ensures sides { self.new.sides ≡ with_side End.Up (side_linked answer) self.old.sides }
        ensures memory { R.out_of_memory self.new.relay.value
            ≡ R.out_of_memory self.old.relay.value }
        ensures entry { (s : R.Setup) (h : List Entry) → Represents (R.represents s) self.old h
            → Represents (R.represents s) self.new (Joined answer ∷ h) }
    {
        self.sides.link(answer);
        self.relay.link(answer);
    }

    /// A read of an end was answered so, with these bytes; whether the pair ran out of memory in
    /// it.
    pub fn heard(
        &mut self,
        alloc: Global,
        setup: &R::Setup,
        end: End,
        got: Got,
        bytes: &[u8],
    ) -> bool
        requires { R.out_of_memory self.old.relay.value ≡ false }
        ensures number { self.new.number ≡ self.old.number }
        ensures sides { self.new.sides ≡ sides_read end got self.old.sides }
        ensures memory { R.out_of_memory self.new.relay.value ≡ result }
        ensures came { result ≡ true → has_come got ≡ true }
        ensures entry { (cut : ℕ) × ((h : List Entry) → Represents
            (R.represents setup.now) self.old h
            → Represents (R.represents setup.now) self.new (with_cut result cut
            (read_entry end got bytes.now ∷ h))) }
    {
        match got {
            Got::Bytes(_) => match self.relay.came_in(alloc, setup, end, bytes) {
                Ok(()) => false,
                Err(Memory) => true,
            },
            Got::NotYet => {
                self.relay.dry(end);
                false
            }
            Got::Ended => {
                self.lose(end, Loss::Ended);
                false
            }
            Got::Failed => {
                self.lose(end, Loss::Failed);
                false
            }
        }
    }

    /// What came is taken up, as far as it can be; whether the pair ran out of memory in that.
    pub fn settle(&mut self, alloc: Global, setup: &R::Setup) -> bool
        requires { R.out_of_memory self.old.relay.value ≡ false }
        ensures number { self.new.number ≡ self.old.number }
        ensures sides { self.new.sides ≡ self.old.sides }
        ensures memory { R.out_of_memory self.new.relay.value ≡ result }
        ensures entry { (cut : ℕ) × ((h : List Entry) → Represents
            (R.represents setup.now) self.old h
            → Represents (R.represents setup.now) self.new (with_cut result cut (Settled ∷ h))) }
    {
        match self.relay.settle(alloc, setup) {
            Ok(()) => false,
            Err(Memory) => true,
        }
    }

    /// Looks for what is offered to an end.
    pub fn look(&mut self, alloc: Global, setup: &R::Setup, end: End) -> Look
        ensures number { self.new.number ≡ self.old.number }
        ensures sides { self.new.sides ≡ self.old.sides }
        ensures first { result.ran_out ≡ true → R.out_of_memory self.old.relay.value ≡ false }
        ensures met { result.ran_out ≡ true → R.out_of_memory self.new.relay.value ≡ true }
        ensures memory { result.ran_out ≡ false → R.out_of_memory self.new.relay.value
            ≡ R.out_of_memory self.old.relay.value }
        ensures side { result.ready ≡ true → is_writable (side_of end self.old.sides) ≡ true }
        ensures ready { result.ready ≡ true → is_some (R.ready self.new.relay.value end) ≡ true }
        ensures calm { result.ran_out ≡ true → (h : List Entry)
            → Represents (R.represents setup.now) self.old h
            → is_out_of_memory h ≡ false }
        ensures due { result.ran_out ≡ true → (h : List Entry)
            → Represents (R.represents setup.now) self.old h
            → is_some (offers (R.words setup.now) end h) ≡ true }
        ensures takes { result.ran_out ≡ true → (h : List Entry)
            → Represents (R.represents setup.now) self.old h
            → (R.words setup.now).takes_memory end h ≡ true }
        ensures found { (h : List Entry) → Represents (R.represents setup.now) self.old h
            → offers (R.words setup.now) end (with_cut result.ran_out 0 h)
            ≡ found_by result.ready (R.ready self.new.relay.value end) }
        ensures entry { (h : List Entry) → Represents (R.represents setup.now) self.old h
            → Represents (R.represents setup.now) self.new (with_cut result.ran_out 0 h) }
    {
        if !self.sides.of(end).is_writable() {
            return Look {
                ready: false,
                ran_out: false,
            };
        }
        let was_out = self.relay.is_out_of_memory();
        prove!(was_out || !was_out);
        match self.relay.peek(alloc, setup, end) {
            Ok(ready) => Look {
                ready,
                ran_out: false,
            },
            Err(Memory) => Look {
                ready: self.look_again(alloc, setup, end),
                ran_out: true,
            },
        }
    }

    /// Looks again, after the pair ran out of memory.
    fn look_again(&mut self, alloc: Global, setup: &R::Setup, end: End) -> bool
        requires writable { is_writable (side_of end self.old.sides) ≡ true }
        requires memory { R.out_of_memory self.old.relay.value ≡ true }
        ensures number { self.new.number ≡ self.old.number }
        ensures sides { self.new.sides ≡ self.old.sides }
        ensures memory { R.out_of_memory self.new.relay.value ≡ true }
        ensures ready { result ≡ true → is_some (R.ready self.new.relay.value end) ≡ true }
        ensures found { (h : List Entry) → Represents (R.represents setup.now) self.old h
            → offers (R.words setup.now) end h
            ≡ found_by result (R.ready self.new.relay.value end) }
        ensures entry { (h : List Entry) → Represents (R.represents setup.now) self.old h
            → Represents (R.represents setup.now) self.new h }
    {
        match self.relay.peek(alloc, setup, end) {
            Ok(ready) => ready,
            Err(Memory) => false,
        }
    }

    /// A write of what was found was answered so.
    pub fn wrote(&mut self, end: End, put: Put)
        requires ready { is_some (R.ready self.old.relay.value end) ≡ true }
        requires within { IfSome (R.ready self.old.relay.value end) (λ bytes. TakesSome put
            (length bytes)) }
        ensures number { self.new.number ≡ self.old.number }
        ensures sides { self.new.sides ≡ sides_wrote end put self.old.sides }
        ensures memory { R.out_of_memory self.new.relay.value
            ≡ R.out_of_memory self.old.relay.value }
        ensures entry { (s : R.Setup) (h : List Entry) (bytes : List ℕ)
            → R.ready self.old.relay.value end ≡ Some bytes
            → Represents (R.represents s) self.old h → Represents (R.represents s) self.new
            (write_entry end bytes put ∷ h) }
    {
        match put {
            Put::Took(count) => self.relay.took(end, count),
            Put::NotYet => self.relay.stuck(end),
            Put::Failed => self.lose(end, Loss::Failed),
        }
    }
}
