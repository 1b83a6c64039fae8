//! A relay of the tests' own: what comes from one end is offered to the other. The first byte of
//! each read is an order.

ghost use Rattle.std.specs.Prelude.{◌≡◌, ◌<◌, ◌≤◌, ◌++◌, true, false, [], length};
ghost use Rattle.std.specs.Prelude.{is_some, Some, OnOk};
ghost use Rattle.gate_outside.specs.declared.ports.End.TheVariants.{Client, Up};
ghost use Rattle.gate_relay.specs.Sides.{side_of};
ghost use Rattle.tests_gate.specs.FerryWords.{farewell, front, is_failed, is_shut_order};
ghost use Rattle.tests_gate.specs.FerryWords.{leaves, memory_order};

use super::note::Note;
use gate_outside::{End, Linked, Sink, write_all};
use gate_relay::{Loss, Relay, Side, Sides};
use std::alloc::Global;
use wire_base::{ByteText, Memory};

/// What is offered to the client at first.
const GREETING: &[u8] = b"hi";

/// What is offered upstream once the pair ran out of memory.
const FAREWELL: &[u8] = b"!";

/// The most bytes that are offered at once.
const MOST_OFFERED: usize = 8;

/// The moment from which on each one is told, in milliseconds.
const LATE: u64 = 1000;

/// What all ferries of a run share.
#[derive(Clone, Copy)]
pub struct Setup {
    /// The pair for which there is no memory at its accept.
    pub refused: Option<u32>,
}

/// A pair whose bytes are carried over.
#[derive(Drop)]
pub struct Ferry {
    pub for_client: ByteText,
    pub for_up: ByteText,
    /// What upstream is offered once the pair ran out of memory; reserved at the accept.
    pub parting: ByteText,
    pub sides: Sides,
    /// The first byte of the last read that gave bytes.
    pub order: u8,
    /// What came from the client was taken up.
    pub settled: bool,
    pub out_of_memory: bool,
    pub note: Note,
    ghost reserved: { out_of_memory ≡ false → parting ≡ farewell },
}

/// The order upon which what is offered to an end runs out of memory.
fn memory_order(end: End) -> u8
    ensures { result ≡ memory_order end }
{
    match end {
        End::Client => b'C',
        End::Up => b'U',
    }
}

/// An order says that an end is to be shut.
fn is_shut_order(end: End, order: u8) -> bool
    ensures { result ≡ is_shut_order end order }
{
    match end {
        End::Client => order == b'Q',
        End::Up => order == b'Q' || order == b'P',
    }
}

/// An end failed.
fn is_failed(side: Side) -> bool
    ensures { result ≡ is_failed side }
{
    matches!(side, Side::Failed)
}

/// An end is to be shut once nothing is offered to it.
fn leaves(end: End, sides: Sides) -> bool
    ensures { result ≡ leaves end sides }
{
    match end {
        End::Client => matches!(sides.client, Side::Ended),
        End::Up => matches!(sides.up, Side::Ended) || matches!(sides.client, Side::Gone),
    }
}

impl Ferry {
    ghost use Rattle.tests_gate.specs.Ferries.{is_ready};

    /// The pair ran out of memory: nothing of what waited counts, and upstream is offered the
    /// farewell.
    fn run_out(&mut self)
        requires { self.old.out_of_memory ≡ false }
        ensures client { self.new.for_client ≡ [] }
        ensures up { self.new.for_up ≡ farewell }
        ensures sides { self.new.sides ≡ self.old.sides }
        ensures order { self.new.order ≡ self.old.order }
        ensures settled { self.new.settled ≡ true }
        ensures memory { self.new.out_of_memory ≡ true }
        ensures told { self.new.note ≡ Note.Parting }
    {
        self.for_client.truncate(0);
        self.out_of_memory = true;
        std::mem::swap(&mut self.for_up, &mut self.parting);
        self.settled = true;
        self.note = Note::Parting;
    }

    /// Something is offered to an end.
    fn has_ready(&self, end: End) -> bool
        ensures { result ≡ is_some (is_ready self.now end) }
    {
        match end {
            End::Client => self.for_client.as_slice().len() > 0,
            End::Up => self.settled && self.for_up.as_slice().len() > 0,
        }
    }

    /// Keeps bytes for the other end.
    fn keep(&mut self, end: End, bytes: &[u8]) -> Result<(), Memory>
        ensures sides { self.new.sides ≡ self.old.sides }
        ensures order { self.new.order ≡ self.old.order }
        ensures settled { self.new.settled ≡ self.old.settled }
        ensures memory { self.new.out_of_memory ≡ self.old.out_of_memory }
        ensures told { self.new.note ≡ self.old.note }
        ensures client { OnOk result (end ≡ Client
            → (self.new.for_up ≡ self.old.for_up ++ bytes.now)
            × (self.new.for_client ≡ self.old.for_client)) }
        ensures up { OnOk result (end ≡ Up
            → (self.new.for_client ≡ self.old.for_client ++ bytes.now)
            × (self.new.for_up ≡ self.old.for_up)) }
    {
        match end {
            End::Client => self.for_up.append(bytes),
            End::Up => self.for_client.append(bytes),
        }
    }
}

/// The front of what waits.
fn front_of(waiting: &[u8]) -> &[u8]
    requires { 0 < length waiting.now }
    ensures front { front waiting.now ≡ Some result.now }
    ensures some { 0 < length result.now }
    ensures small { length result.now ≤ 8 }
{
    let (front, _) = waiting.split_at(waiting.len().min(MOST_OFFERED));
    front
}

impl Relay for Ferry {
    ghost use Rattle.tests_gate.specs.FerryWords.{ferry_words};
    ghost use Rattle.tests_gate.specs.Ferries.{Represents, is_ready};

    type Setup = Setup;

    ghost words = { λ s. ferry_words };

    ghost represents = { λ s. Represents };

    ghost ready = { is_ready };

    ghost out_of_memory = { λ t. t.out_of_memory };

    fn new(alloc: Global, setup: &Setup, number: u32, _moment: u64) -> Result<Ferry, Memory> {
        if setup.refused == Some(number) {
            return Err(Memory);
        }
        Ok(Ferry {
            for_client: ByteText::copy_of(alloc, GREETING)?,
            for_up: ByteText::empty(alloc),
            parting: ByteText::copy_of(alloc, FAREWELL)?,
            sides: Sides::new(),
            order: 0,
            settled: true,
            out_of_memory: false,
            note: Note::Nothing,
        })
    }

    fn is_out_of_memory(&self) -> bool {
        self.out_of_memory
    }

    fn tell(&mut self, moment: u64) {
        self.note = if moment >= LATE {
            Note::Late
        } else {
            Note::Nothing
        };
    }

    #[tactic(auto, unfolding(crate::specs::FerryWords::ferry_words))]
    fn awaits(&self, end: End) -> bool {
        match end {
            End::Client => self.for_up.as_slice().len() == 0,
            End::Up => true,
        }
    }

    fn came_in(
        &mut self,
        _alloc: Global,
        _setup: &Setup,
        end: End,
        bytes: &[u8],
    ) -> Result<(), Memory> {
        self.order = bytes.first().copied().unwrap_or(self.order);
        match end {
            End::Client => {
                self.settled = false;
                self.note = Note::FromClient;
            }
            End::Up => self.note = Note::FromUpstream,
        }
        if self.order == b'M' || self.keep(end, bytes).is_err() {
            self.run_out();
            return Err(Memory);
        }
        Ok(())
    }

    fn dry(&mut self, _end: End) {
        self.note = Note::Nothing;
    }

    fn lose(&mut self, end: End, how: Loss) {
        self.sides.lose(end, how);
        self.note = match how {
            Loss::Ended => Note::Ended,
            Loss::Failed => Note::Failed,
            Loss::Shut => Note::Shut,
        };
    }

    #[tactic(auto, unfolding(crate::specs::FerryWords::ferry_words))]
    fn takes_up(&self) -> bool {
        !self.settled
    }

    fn settle(&mut self, _alloc: Global, _setup: &Setup) -> Result<(), Memory> {
        if self.order == b'S' {
            self.run_out();
            return Err(Memory);
        }
        self.settled = true;
        self.note = Note::TakenUp;
        Ok(())
    }

    #[tactic(auto, unfolding(crate::specs::FerryWords::ferry_words))]
    fn connects(&self) -> bool {
        self.settled && (self.for_up.as_slice().len() > 0 && self.for_client.as_slice().len() == 0)
    }

    fn link(&mut self, answer: Linked) {
        self.sides.link(answer);
        self.note = match answer {
            Linked::Ok => Note::Joined,
            Linked::Failed => Note::Refused,
        };
    }

    #[tactic(auto, unfolding(crate::specs::FerryWords::ferry_words))]
    fn peek(&mut self, _alloc: Global, _setup: &Setup, end: End) -> Result<bool, Memory> {
        let ready = self.has_ready(end);
        if ready && !self.out_of_memory && self.order == memory_order(end) {
            self.run_out();
            return Err(Memory);
        }
        Ok(ready)
    }

    fn bytes(&self, end: End) -> &[u8] {
        match end {
            End::Client => front_of(self.for_client.as_slice()),
            End::Up => front_of(self.for_up.as_slice()),
        }
    }

    fn took(&mut self, end: End, count: usize) {
        match end {
            End::Client => self.for_client.discard(count),
            End::Up => self.for_up.discard(count),
        }
        self.note = Note::Nothing;
    }

    fn stuck(&mut self, _end: End) {
        self.note = Note::Nothing;
    }

    #[tactic(auto, unfolding(crate::specs::FerryWords::ferry_words))]
    fn shut_due(&self, end: End) -> bool {
        is_failed(self.sides.of(end))
            || is_shut_order(end, self.order)
            || !self.has_ready(end) && (leaves(end, self.sides) || self.out_of_memory)
    }

    fn finish(&mut self) {
        self.note = Note::Nothing;
    }

    #[tactic(auto, unfolding(crate::specs::FerryWords::ferry_words))]
    fn tell_lines<K: Sink>(&self, report: &mut K) -> bool {
        let text = self.note.text();
        if text.is_empty() {
            return true;
        }
        write_all(report, text)
    }
}
