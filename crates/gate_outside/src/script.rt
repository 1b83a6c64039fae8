//! Ports that answer by a script.

ghost use Rattle.std.specs.Prelude.{◌≡◌, ◌<◌, ◌≤◌, ◌^◌, [], length, true, false, IfOk};
ghost use Rattle.gate_outside.specs.Counts.{Rose};
ghost use Rattle.gate_outside.specs.declared.ports.End.{End};
ghost use Rattle.gate_outside.specs.declared.log.LogEntry.{LogEntry};
ghost use Rattle.gate_outside.specs.declared.log.Call.TheVariants as call;
ghost use Rattle.gate_outside.specs.Ends.{is_open, closed, IsNumbered, pairs_after, ends_accepted};
ghost use Rattle.gate_outside.specs.Ends.{ends_linked, ReadsInto, got_bytes, TakesSome};
ghost use Rattle.gate_outside.specs.History.{Tells};
ghost use Rattle.gate_outside.specs.Script.{bytes_of, current_piece};
ghost use Rattle.gate_outside.specs.Telling.{told_log};
ghost use Rattle.gate_outside.specs.ScriptState.{HasCome};

use crate::calls::{CallList, Calls};
use crate::clock::Clock;
use crate::log::{Call, Log};
use crate::pairs::Pairs;
use crate::pieces::{Pieces, PiecesLeft};
use crate::ports::{Accepted, End, Got, Linked, Next, Ports, Put};
use crate::rooms::{Rooms, RoomsLeft};
use crate::telling::Telling;
use std::alloc::Global;
use std::marker::Model;
use wire_base::Memory;

/// What scripted ports answer. They give so many pairs, answer `Go` so many times to `idle`, and
/// step the clock by
/// `step` milliseconds at each `now`. The calls whose numbers stand in `fails` answer `Failed`, if
/// their kind can: all calls are numbered together, from 0.
#[derive(Debug, Drop)]
pub struct Script {
    pub pairs: u32,
    pub pieces: Pieces,
    pub rooms: Rooms,
    pub fails: CallList,
    pub idles: u64,
    pub step: u64,
}

/// Ports that answer by a script. All memory that their calls need is reserved when they are made.
#[derive(Debug, Drop)]
pub struct ScriptPorts {
    calls: Calls,
    pairs: Pairs,
    pieces: PiecesLeft,
    rooms: RoomsLeft,
    idles: u64,
    clock: Clock,
    telling: Telling,
}

impl Model for ScriptPorts {
    ghost use Rattle.gate_outside.specs.ScriptState.{ScriptState};

    ghost Value = { ScriptState };

    ghost view = { λ a. record {
      calls = a.calls;
      pairs = a.pairs;
      pieces = a.pieces;
      rooms = a.rooms;
      idles = a.idles;
      clock = a.clock;
      telling = a.telling;
    } };
}

impl ScriptPorts {
    ghost use Rattle.gate_outside.specs.ScriptState.{fresh, accept_answer, after_accept};
    ghost use Rattle.gate_outside.specs.ScriptState.{connect_answer, after_connect, read_answer};
    ghost use Rattle.gate_outside.specs.ScriptState.{after_read, write_answer, after_write};

    /// Ports that play a script from its start, with a log of so many entries, whose bytes are so
    /// many in all.
    pub fn new(
        alloc: Global,
        script: Script,
        entries: usize,
        bytes: usize,
    ) -> Result<ScriptPorts, Memory>
        ensures { IfOk result (λ ports. ports ≡ fresh script entries bytes) }
    {
        let pairs = Pairs::new(alloc, script.pairs)?;
        let pieces = PiecesLeft::new(alloc, &script.pieces)?;
        let rooms = RoomsLeft::new(alloc, &script.rooms)?;
        let telling = Telling::new(alloc, entries, bytes)?;
        Ok(ScriptPorts {
            calls: Calls::new(script.fails),
            pairs,
            pieces,
            rooms,
            idles: script.idles,
            clock: Clock::new(script.step),
            telling,
        })
    }

    /// The log up to where it is told.
    pub fn log(&self) -> &Log
        ensures { result.now ≡ self.now.telling.log }
    {
        self.telling.log()
    }

    fn accept_next(&mut self) -> Accepted
        ensures answer { result ≡ accept_answer self.old }
        ensures goes { self.new ≡ after_accept result self.old }
        ensures later { self.old.calls.faults ≤ self.new.calls.faults }
        ensures cause { result ≡ Accepted.Failed
            → Rose self.old.calls.faults self.new.calls.faults }
    {
        if self.calls.fails() {
            return Accepted::Failed;
        }
        self.pairs.accept()
    }

    fn connect_to(&mut self, pair: u32) -> Linked
        requires known { pair < length self.old.pairs.taken }
        requires free { is_open pair End.Up self.old.pairs.ends ≡ false }
        ensures answer { result ≡ connect_answer self.old }
        ensures goes { self.new ≡ after_connect pair result self.old }
        ensures later { self.old.calls.faults ≤ self.new.calls.faults }
        ensures cause { result ≡ Linked.Failed → Rose self.old.calls.faults self.new.calls.faults }
    {
        if self.calls.fails() {
            return Linked::Failed;
        }
        self.pairs.link(pair);
        Linked::Ok
    }

    fn read_piece(&mut self, pair: u32, end: End, buf: &mut [u8]) -> Got
        requires { 0 < length buf.old }
        ensures answer { result ≡ read_answer pair end (length buf.old) self.old }
        ensures came { got_bytes result buf.new ≡ got_bytes result (bytes_of
            (current_piece pair end self.old.pieces)) }
        ensures goes { self.new ≡ after_read pair end result self.old }
        ensures bytes { ReadsInto result buf.old buf.new }
        ensures later { self.old.calls.faults ≤ self.new.calls.faults }
        ensures cause { result ≡ Got.Failed → Rose self.old.calls.faults self.new.calls.faults }
    {
        if self.calls.fails() {
            return Got::Failed;
        }
        let taken = self.pairs.taken_at(pair, end);
        self.pieces.read(pair, end, taken, buf)
    }

    fn write_room(&mut self, pair: u32, end: End, offered: usize) -> Put
        requires { 0 < offered }
        ensures answer { result ≡ write_answer pair end offered self.old }
        ensures goes { self.new ≡ after_write pair end result self.old }
        ensures taken { TakesSome result offered }
        ensures later { self.old.calls.faults ≤ self.new.calls.faults }
        ensures cause { result ≡ Put.Failed → Rose self.old.calls.faults self.new.calls.faults }
    {
        if self.calls.fails() {
            return Put::Failed;
        }
        let answer = self.rooms.write(pair, end, offered);
        if let Put::Took(count) = answer {
            self.pairs.take(pair, end, count);
        }
        answer
    }
}

/// The bytes that came into a buffer.
fn bytes_that_came(answer: Got, buf: &[u8]) -> &[u8]
    requires { HasCome answer buf.now }
    ensures { result.now ≡ got_bytes answer buf.now }
{
    match answer {
        Got::Bytes(count) => buf.split_at(count).0,
        Got::NotYet | Got::Ended | Got::Failed => &[],
    }
}

impl Ports for ScriptPorts {
    ghost use Rattle.gate_outside.specs.ScriptState.{logged, accept_answer, after_accept};
    ghost use Rattle.gate_outside.specs.ScriptState.{connect_answer, after_connect, read_answer};
    ghost use Rattle.gate_outside.specs.ScriptState.{after_read, write_answer, after_write};
    ghost use Rattle.gate_outside.specs.ScriptState.{after_shut, idle_answer, after_idle};
    ghost use Rattle.gate_outside.specs.ScriptState.{after_now};

    ghost faults = { λ ports. ports.calls.faults };

    ghost pairs = { λ ports. length ports.pairs.taken };

    ghost ends = { λ ports. ports.pairs.ends };

    ghost last = { λ ports. ports.clock.last };

    ghost log = { λ ports. told_log ports.telling };

    fn accept(&mut self) -> Accepted
        requires { length self.old.pairs.taken < 4294967295 }
        ensures later { self.old.calls.faults ≤ self.new.calls.faults }
        ensures cause { result ≡ Accepted.Failed
            → Rose self.old.calls.faults self.new.calls.faults }
        ensures number { IsNumbered result (length self.old.pairs.taken) }
        ensures pairs { length self.new.pairs.taken ≡ pairs_after result
            (length self.old.pairs.taken) }
        ensures ends { self.new.pairs.ends ≡ ends_accepted result self.old.pairs.ends }
        ensures last { self.new.clock.last ≡ self.old.clock.last }
        ensures log { Tells (told_log self.old.telling) (told_log self.new.telling)
            (LogEntry.Accept result) }
        ensures answer { result ≡ accept_answer self.old }
        ensures goes { self.new ≡ logged (call.Accept result) [] (after_accept result self.old) }
    {
        let answer = self.accept_next();
        self.telling.tell(Call::Accept { answer }, &[]);
        answer
    }

    fn connect(&mut self, pair: u32) -> Linked
        requires known { pair < length self.old.pairs.taken }
        requires free { is_open pair End.Up self.old.pairs.ends ≡ false }
        ensures later { self.old.calls.faults ≤ self.new.calls.faults }
        ensures cause { result ≡ Linked.Failed → Rose self.old.calls.faults self.new.calls.faults }
        ensures pairs { length self.new.pairs.taken ≡ length self.old.pairs.taken }
        ensures ends { self.new.pairs.ends ≡ ends_linked result pair self.old.pairs.ends }
        ensures last { self.new.clock.last ≡ self.old.clock.last }
        ensures log { Tells (told_log self.old.telling) (told_log self.new.telling)
            (LogEntry.Connect pair result) }
        ensures answer { result ≡ connect_answer self.old }
        ensures goes { self.new ≡ logged (call.Connect pair result) []
            (after_connect pair result self.old) }
    {
        let answer = self.connect_to(pair);
        self.telling.tell(Call::Connect { pair, answer }, &[]);
        answer
    }

    fn read(&mut self, pair: u32, end: End, buf: &mut [u8]) -> Got
        requires some { 0 < length buf.old }
        requires small { length buf.old < 2 ^ 32 }
        requires open { is_open pair end self.old.pairs.ends ≡ true }
        ensures later { self.old.calls.faults ≤ self.new.calls.faults }
        ensures cause { result ≡ Got.Failed → Rose self.old.calls.faults self.new.calls.faults }
        ensures bytes { ReadsInto result buf.old buf.new }
        ensures pairs { length self.new.pairs.taken ≡ length self.old.pairs.taken }
        ensures ends { self.new.pairs.ends ≡ self.old.pairs.ends }
        ensures last { self.new.clock.last ≡ self.old.clock.last }
        ensures log { Tells (told_log self.old.telling) (told_log self.new.telling)
            (LogEntry.Read pair end (length buf.old) result (got_bytes result buf.new)) }
        ensures answer { result ≡ read_answer pair end (length buf.old) self.old }
        ensures came { got_bytes result buf.new ≡ got_bytes result (bytes_of
            (current_piece pair end self.old.pieces)) }
        ensures goes { self.new ≡ logged (call.Read pair end (length buf.old) result)
            (got_bytes result buf.new)
            (after_read pair end result self.old) }
    {
        let answer = self.read_piece(pair, end, buf);
        let read = Call::Read {
            pair,
            end,
            room: buf.len() as u32,
            answer,
        };
        self.telling.tell(read, bytes_that_came(answer, buf));
        answer
    }

    fn write(&mut self, pair: u32, end: End, bytes: &[u8]) -> Put
        requires some { 0 < length bytes.now }
        requires small { length bytes.now < 2 ^ 32 }
        requires open { is_open pair end self.old.pairs.ends ≡ true }
        ensures later { self.old.calls.faults ≤ self.new.calls.faults }
        ensures cause { result ≡ Put.Failed → Rose self.old.calls.faults self.new.calls.faults }
        ensures taken { TakesSome result (length bytes.now) }
        ensures pairs { length self.new.pairs.taken ≡ length self.old.pairs.taken }
        ensures ends { self.new.pairs.ends ≡ self.old.pairs.ends }
        ensures last { self.new.clock.last ≡ self.old.clock.last }
        ensures log { Tells (told_log self.old.telling) (told_log self.new.telling)
            (LogEntry.Write pair end bytes.now result) }
        ensures answer { result ≡ write_answer pair end (length bytes.now) self.old }
        ensures goes { self.new ≡ logged (call.Write pair end result) bytes.now
            (after_write pair end result self.old) }
    {
        let answer = self.write_room(pair, end, bytes.len());
        self.telling.tell(Call::Write { pair, end, answer }, bytes);
        answer
    }

    fn shut(&mut self, pair: u32, end: End)
        ensures later { self.old.calls.faults ≤ self.new.calls.faults }
        ensures pairs { length self.new.pairs.taken ≡ length self.old.pairs.taken }
        ensures ends { self.new.pairs.ends ≡ closed pair end self.old.pairs.ends }
        ensures last { self.new.clock.last ≡ self.old.clock.last }
        ensures log { Tells (told_log self.old.telling) (told_log self.new.telling)
            (LogEntry.Shut pair end) }
        ensures goes { self.new ≡ logged (call.Shut pair end) [] (after_shut pair end self.old) }
    {
        self.calls.count();
        self.pairs.close(pair, end);
        self.telling.tell(Call::Shut { pair, end }, &[]);
    }

    fn idle(&mut self) -> Next
        ensures later { self.old.calls.faults ≤ self.new.calls.faults }
        ensures pairs { length self.new.pairs.taken ≡ length self.old.pairs.taken }
        ensures ends { self.new.pairs.ends ≡ self.old.pairs.ends }
        ensures last { self.new.clock.last ≡ self.old.clock.last }
        ensures log { Tells (told_log self.old.telling) (told_log self.new.telling)
            (LogEntry.Idle result) }
        ensures answer { result ≡ idle_answer self.old }
        ensures goes { self.new ≡ logged (call.Idle result) [] (after_idle self.old) }
    {
        self.calls.count();
        let answer = if self.idles == 0 {
            Next::Stop
        } else {
            Next::Go
        };
        self.idles = self.idles.saturating_sub(1);
        self.telling.tell(Call::Idle { answer }, &[]);
        answer
    }

    fn now(&mut self) -> u64
        ensures later { self.old.calls.faults ≤ self.new.calls.faults }
        ensures onward { self.old.clock.last ≤ result }
        ensures last { self.new.clock.last ≡ result }
        ensures pairs { length self.new.pairs.taken ≡ length self.old.pairs.taken }
        ensures ends { self.new.pairs.ends ≡ self.old.pairs.ends }
        ensures log { Tells (told_log self.old.telling) (told_log self.new.telling)
            (LogEntry.Now result) }
        ensures answer { result ≡ self.old.clock.next }
        ensures goes { self.new ≡ logged (call.Now result) [] (after_now self.old) }
    {
        self.calls.count();
        let ms = self.clock.now();
        self.telling.tell(Call::Now { ms }, &[]);
        ms
    }
}
