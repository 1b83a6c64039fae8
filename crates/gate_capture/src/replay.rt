//! Ports that answer from the log of a run, while each call is the one that the run made.

ghost use Rattle.std.specs.Prelude.{◌≡◌, ℕ, ◌+◌, ◌<◌, ◌≤◌, ◌^◌, [], length, true, false, Option};
ghost use Rattle.std.specs.Prelude.{None, Some, is_some, IfOk, MatchOption, option_copied};
ghost use Rattle.std.specs.Prelude.{option_map, unwrap_or};
ghost use Rattle.std.specs.List.{AllByRecursion};
ghost use Rattle.gate_outside.specs.Counts.{Rose};
ghost use Rattle.gate_outside.specs.declared.ports.End.{End};
ghost use Rattle.gate_outside.specs.declared.log.LogEntry.{LogEntry};
ghost use Rattle.gate_outside.specs.Ends.{is_end, is_open, closed, IsNumbered, pairs_after};
ghost use Rattle.gate_outside.specs.Ends.{ends_accepted, ends_linked, ReadsInto, got_bytes};
ghost use Rattle.gate_outside.specs.Ends.{TakesSome};
ghost use Rattle.gate_outside.specs.History.{Tells};
ghost use Rattle.gate_capture.specs.Spelling.{HasSpelling, HasCome};
ghost use Rattle.gate_capture.specs.Replay.{accept_in, begun, coming, connect_in, difference};
ghost use Rattle.gate_capture.specs.Replay.{idle_in, is_in_order, is_shut, now_in, read_in, told};
ghost use Rattle.gate_capture.specs.Replay.{whole, write_in};

use crate::recorded::RecordedLog;
use gate_outside::{Accepted, End, Entries, Got, Linked, LogEntry, Next, Ports, Put};
use std::alloc::Global;
use std::marker::Model;
use wire_base::Memory;

// ---- whether an entry is the call that is made, and what it records of it

fn is_in_order(pairs: u32, answer: Accepted) -> bool
    ensures { result ≡ is_in_order pairs answer }
{
    match answer {
        Accepted::Pair(pair) => pair == pairs,
        Accepted::NotYet | Accepted::Failed => true,
    }
}

fn accept_in(pairs: u32, entry: &LogEntry) -> Option<Accepted>
    ensures { result ≡ accept_in pairs entry.now }
{
    match entry {
        LogEntry::Accept { answer } if is_in_order(pairs, *answer) => Some(*answer),
        _ => None,
    }
}

fn connect_in(pair: u32, entry: &LogEntry) -> Option<Linked>
    ensures { result ≡ connect_in pair entry.now }
{
    match entry {
        LogEntry::Connect { pair: own, answer } if *own == pair => Some(*answer),
        _ => None,
    }
}

fn is_end(own: u32, own_end: End, pair: u32, end: End) -> bool
    ensures { result ≡ is_end pair end (own, own_end) }
{
    own == pair && own_end == end
}

/// The answer of a read, and the bytes that came.
fn read_in<'a>(pair: u32, end: End, room: usize, entry: &'a LogEntry) -> Option<(Got, &'a [u8])>
    ensures { option_map (λ x. (x.0, x.1.now)) result ≡ read_in pair end room entry.now }
{
    match entry {
        LogEntry::Read {
            pair: own,
            end: own_end,
            room: own_room,
            answer,
            bytes,
        } if is_end(*own, *own_end, pair, end) && *own_room as usize == room => {
            Some((*answer, bytes.as_slice()))
        }
        _ => None,
    }
}

fn write_in(pair: u32, end: End, offered: &[u8], entry: &LogEntry) -> Option<Put>
    ensures { result ≡ write_in pair end offered.now entry.now }
{
    match entry {
        LogEntry::Write {
            pair: own,
            end: own_end,
            bytes,
            answer,
        } if is_end(*own, *own_end, pair, end) && bytes.as_slice() == offered => Some(*answer),
        _ => None,
    }
}

fn is_shut(pair: u32, end: End, entry: &LogEntry) -> bool
    ensures { result ≡ is_shut pair end entry.now }
{
    match entry {
        LogEntry::Shut {
            pair: own,
            end: own_end,
        } => is_end(*own, *own_end, pair, end),
        _ => false,
    }
}

fn idle_in(entry: &LogEntry) -> Option<Next>
    ensures { result ≡ idle_in entry.now }
{
    match entry {
        LogEntry::Idle { answer } => Some(*answer),
        _ => None,
    }
}

fn now_in(last: u64, entry: &LogEntry) -> Option<u64>
    ensures { result ≡ now_in last entry.now }
{
    match entry {
        LogEntry::Now { ms } if *ms >= last => Some(*ms),
        _ => None,
    }
}

/// Ports that answer from the log of a run, while each call is the one that the run made. From the
/// first call on that is another, or for which there is no entry, they answer NotYet, Failed, Stop
/// and the last moment. All memory that their calls need is reserved when they are made.
#[derive(Debug, Drop)]
pub struct ReplayPorts {
    log: RecordedLog,
    differs: bool,
    faults: u64,
    pairs: u32,
    ends: Vec<(u32, End)>,
    last: u64,
}

impl Model for ReplayPorts {
    ghost use Rattle.std.specs.Prelude.{◌+◌, ◌≤◌, length, vec_len, vec_capacity};
    ghost use Rattle.gate_capture.specs.Replay.{ReplayState};

    ghost Value = { ReplayState };

    ghost view = { λ a. record {
      log = a.log;
      differs = a.differs;
      faults = a.faults;
      pairs = a.pairs;
      ends = a.ends.items;
      last = a.last;
    } };

    // An entry opens one end at most.
    ghost invariant = { λ a. vec_len a.ends + length a.log.left ≤ vec_capacity a.ends };
}

impl ReplayPorts {
    ghost use Rattle.gate_capture.specs.Replay.{recorded_accept, accept_answer, after_accept};
    ghost use Rattle.gate_capture.specs.Replay.{recorded_connect, connect_answer, after_connect};
    ghost use Rattle.gate_capture.specs.Replay.{recorded_read, read_answer, after_read};
    ghost use Rattle.gate_capture.specs.Replay.{recorded_write, write_answer, after_write};
    ghost use Rattle.gate_capture.specs.Replay.{answered, is_shut_next, recorded_idle, idle_answer};
    ghost use Rattle.gate_capture.specs.Replay.{after_idle, recorded_now, now_answer, after_now};

    /// Ports that answer from this log, from its first entry on.
    pub fn new(alloc: Global, entries: Entries) -> Result<ReplayPorts, Memory>
        requires { AllByRecursion HasSpelling entries }
        ensures { IfOk result (λ ports. ports ≡ begun entries) }
    {
        let ends = Vec::with_capacity(alloc, entries.len())?;
        Ok(ReplayPorts {
            log: RecordedLog::new(entries),
            differs: false,
            faults: 0,
            pairs: 0,
            ends,
            last: 0,
        })
    }

    /// The number of the first call that was another than its entry, or for which there was none,
    /// or of the first entry that is left; they count from 0. `None` where the calls were exactly
    /// the recorded ones.
    pub fn differs(&self) -> Option<u64>
        ensures { result ≡ difference self.now }
    {
        if !self.differs && self.log.left() == 0 {
            return None;
        }
        Some(self.log.used() as u64)
    }

    /// The log that they answer from, in the order of its calls.
    pub fn entries(&self) -> &Entries
        ensures { result.now ≡ whole self.now.log }
    {
        self.log.entries()
    }

    /// The entry of the next call, while each was its entry.
    fn coming(&self) -> Option<&LogEntry>
        ensures entry { option_copied result ≡ coming self.now }
        ensures there { MatchOption result (Unit {0}) (λ entry. 0 < length self.now.log.left) }
        ensures spelled { MatchOption result (Unit {0}) (λ entry. HasSpelling entry.now) }
    {
        if self.differs {
            return None;
        }
        self.log.next()
    }

    fn recorded_accept(&self) -> Option<Accepted>
        ensures answer { result ≡ recorded_accept self.now }
        ensures there { MatchOption result (Unit {0}) (λ answer. 0 < length self.now.log.left) }
    {
        let entry = self.coming()?;
        accept_in(self.pairs, entry)
    }

    fn accept_next(&mut self) -> Accepted
        requires { self.old.pairs < 4294967295 }
        ensures answer { result ≡ accept_answer self.old }
        ensures goes { self.new ≡ after_accept self.old }
        ensures later { self.old.faults ≤ self.new.faults }
    {
        let Some(answer) = self.recorded_accept() else {
            self.differs = true;
            return Accepted::NotYet;
        };
        self.log.step();
        match answer {
            Accepted::Pair(pair) => {
                self.pairs += 1;
                self.ends.push_reserved((pair, End::Client));
            }
            Accepted::NotYet => {}
            Accepted::Failed => self.faults = self.faults.saturating_add(1),
        }
        answer
    }

    fn recorded_connect(&self, pair: u32) -> Option<Linked>
        ensures answer { result ≡ recorded_connect pair self.now }
        ensures there { MatchOption result (Unit {0}) (λ answer. 0 < length self.now.log.left) }
    {
        let entry = self.coming()?;
        connect_in(pair, entry)
    }

    fn connect_next(&mut self, pair: u32) -> Linked
        ensures answer { result ≡ connect_answer pair self.old }
        ensures goes { self.new ≡ after_connect pair self.old }
        ensures later { self.old.faults ≤ self.new.faults }
    {
        let Some(answer) = self.recorded_connect(pair) else {
            self.differs = true;
            self.faults = self.faults.saturating_add(1);
            return Linked::Failed;
        };
        self.log.step();
        match answer {
            Linked::Ok => self.ends.push_reserved((pair, End::Up)),
            Linked::Failed => self.faults = self.faults.saturating_add(1),
        }
        answer
    }

    /// The answer of the recorded read, and the bytes that came, if this is that read.
    fn recorded_read(&self, pair: u32, end: End, room: usize) -> Option<(Got, &[u8])>
        ensures answer { option_map (λ x. (x.0, x.1.now)) result
            ≡ recorded_read pair end room self.now }
        ensures there { MatchOption result (Unit {0}) (λ x. 0 < length self.now.log.left) }
        ensures came { MatchOption result (Unit {0}) (λ x. HasCome x.0 room x.1.now) }
    {
        let entry = self.coming()?;
        read_in(pair, end, room, entry)
    }

    /// Copies the bytes that came into the front of the buffer.
    fn give(&self, pair: u32, end: End, buf: &mut [u8]) -> Option<Got>
        ensures answer { result ≡ option_map (λ x. x.0) (recorded_read pair end
            (length buf.old) self.now) }
        ensures there { MatchOption result (Unit {0}) (λ x. 0 < length self.now.log.left) }
        ensures came { got_bytes (read_answer pair end (length buf.old) self.now).0 buf.new
            ≡ (read_answer pair end (length buf.old) self.now).1 }
        ensures bytes { ReadsInto (read_answer pair end
            (length buf.old) self.now).0 buf.old buf.new }
    {
        let (answer, bytes) = self.recorded_read(pair, end, buf.len())?;
        buf[..bytes.len()].copy_from_slice(bytes);
        Some(answer)
    }

    fn read_next(&mut self, pair: u32, end: End, buf: &mut [u8]) -> Got
        ensures answer { result ≡ (read_answer pair end (length buf.old) self.old).0 }
        ensures came { got_bytes result buf.new ≡ (read_answer pair end
            (length buf.old) self.old).1 }
        ensures bytes { ReadsInto result buf.old buf.new }
        ensures goes { self.new ≡ after_read pair end (length buf.old) self.old }
        ensures later { self.old.faults ≤ self.new.faults }
    {
        let Some(answer) = self.give(pair, end, buf) else {
            self.differs = true;
            return Got::NotYet;
        };
        self.log.step();
        if let Got::Failed = answer {
            self.faults = self.faults.saturating_add(1);
        }
        answer
    }

    fn recorded_write(&self, pair: u32, end: End, bytes: &[u8]) -> Option<Put>
        ensures answer { result ≡ recorded_write pair end bytes.now self.now }
        ensures there { MatchOption result (Unit {0}) (λ answer. 0 < length self.now.log.left) }
        ensures taken { MatchOption result (Unit {0}) (λ answer. TakesSome answer
            (length bytes.now)) }
    {
        let entry = self.coming()?;
        write_in(pair, end, bytes, entry)
    }

    fn write_next(&mut self, pair: u32, end: End, bytes: &[u8]) -> Put
        ensures answer { result ≡ write_answer pair end bytes.now self.old }
        ensures taken { TakesSome result (length bytes.now) }
        ensures goes { self.new ≡ after_write pair end bytes.now self.old }
        ensures later { self.old.faults ≤ self.new.faults }
    {
        let Some(answer) = self.recorded_write(pair, end, bytes) else {
            self.differs = true;
            return Put::NotYet;
        };
        self.log.step();
        if let Put::Failed = answer {
            self.faults = self.faults.saturating_add(1);
        }
        answer
    }

    fn is_shut_next(&self, pair: u32, end: End) -> bool
        ensures answer { result ≡ is_shut_next pair end (coming self.now) }
    {
        match self.coming() {
            Some(entry) => is_shut(pair, end, entry),
            None => false,
        }
    }

    fn use_shut(&mut self, pair: u32, end: End)
        ensures { self.new ≡ answered (is_shut_next pair end (coming self.old)) self.old }
    {
        if self.is_shut_next(pair, end) {
            self.log.step();
        } else {
            self.differs = true;
        }
    }

    fn close(&mut self, pair: u32, end: End)
        ensures { self.new ≡ record self.old { ends = closed pair end self.old.ends } }
    {
        self.ends.retain(|this| !is_end(this.0, this.1, pair, end));
    }

    fn recorded_idle(&self) -> Option<Next>
        ensures answer { result ≡ recorded_idle self.now }
    {
        let entry = self.coming()?;
        idle_in(entry)
    }

    fn idle_next(&mut self) -> Next
        ensures answer { result ≡ idle_answer self.old }
        ensures goes { self.new ≡ after_idle self.old }
    {
        let Some(answer) = self.recorded_idle() else {
            self.differs = true;
            return Next::Stop;
        };
        self.log.step();
        answer
    }

    fn recorded_now(&self) -> Option<u64>
        ensures answer { result ≡ recorded_now self.now }
    {
        let entry = self.coming()?;
        now_in(self.last, entry)
    }

    fn now_next(&mut self) -> u64
        ensures answer { result ≡ now_answer self.old }
        ensures goes { self.new ≡ after_now self.old }
    {
        let Some(ms) = self.recorded_now() else {
            self.differs = true;
            return self.last;
        };
        self.log.step();
        self.last = ms;
        ms
    }
}

impl Ports for ReplayPorts {
    ghost use Rattle.gate_capture.specs.Replay.{told, accept_answer, after_accept, connect_answer};
    ghost use Rattle.gate_capture.specs.Replay.{after_connect, read_answer, after_read};
    ghost use Rattle.gate_capture.specs.Replay.{write_answer, after_write, after_shut, idle_answer};
    ghost use Rattle.gate_capture.specs.Replay.{after_idle, now_answer, after_now};

    ghost faults = { λ ports. ports.faults };

    ghost pairs = { λ ports. ports.pairs };

    ghost ends = { λ ports. ports.ends };

    ghost last = { λ ports. ports.last };

    ghost log = { told };

    fn accept(&mut self) -> Accepted
        requires { self.old.pairs < 4294967295 }
        ensures later { self.old.faults ≤ self.new.faults }
        ensures cause { result ≡ Accepted.Failed → Rose self.old.faults self.new.faults }
        ensures number { IsNumbered result self.old.pairs }
        ensures pairs { self.new.pairs ≡ pairs_after result self.old.pairs }
        ensures ends { self.new.ends ≡ ends_accepted result self.old.ends }
        ensures last { self.new.last ≡ self.old.last }
        ensures log { Tells (told self.old) (told self.new) (LogEntry.Accept result) }
        ensures answer { result ≡ accept_answer self.old }
        ensures goes { self.new ≡ after_accept self.old }
    {
        self.accept_next()
    }

    fn connect(&mut self, pair: u32) -> Linked
        requires known { pair < self.old.pairs }
        requires free { is_open pair End.Up self.old.ends ≡ false }
        ensures later { self.old.faults ≤ self.new.faults }
        ensures cause { result ≡ Linked.Failed → Rose self.old.faults self.new.faults }
        ensures pairs { self.new.pairs ≡ self.old.pairs }
        ensures ends { self.new.ends ≡ ends_linked result pair self.old.ends }
        ensures last { self.new.last ≡ self.old.last }
        ensures log { Tells (told self.old) (told self.new) (LogEntry.Connect pair result) }
        ensures answer { result ≡ connect_answer pair self.old }
        ensures goes { self.new ≡ after_connect pair self.old }
    {
        self.connect_next(pair)
    }

    fn read(&mut self, pair: u32, end: End, buf: &mut [u8]) -> Got
        requires some { 0 < length buf.old }
        requires small { length buf.old < 2 ^ 32 }
        requires open { is_open pair end self.old.ends ≡ true }
        ensures later { self.old.faults ≤ self.new.faults }
        ensures cause { result ≡ Got.Failed → Rose self.old.faults self.new.faults }
        ensures bytes { ReadsInto result buf.old buf.new }
        ensures pairs { self.new.pairs ≡ self.old.pairs }
        ensures ends { self.new.ends ≡ self.old.ends }
        ensures last { self.new.last ≡ self.old.last }
        ensures log { Tells (told self.old) (told self.new)
            (LogEntry.Read pair end (length buf.old) result (got_bytes result buf.new)) }
        ensures answer { result ≡ (read_answer pair end (length buf.old) self.old).0 }
        ensures came { got_bytes result buf.new ≡ (read_answer pair end
            (length buf.old) self.old).1 }
        ensures goes { self.new ≡ after_read pair end (length buf.old) self.old }
    {
        self.read_next(pair, end, buf)
    }

    fn write(&mut self, pair: u32, end: End, bytes: &[u8]) -> Put
        requires some { 0 < length bytes.now }
        requires small { length bytes.now < 2 ^ 32 }
        requires open { is_open pair end self.old.ends ≡ true }
        ensures later { self.old.faults ≤ self.new.faults }
        ensures cause { result ≡ Put.Failed → Rose self.old.faults self.new.faults }
        ensures taken { TakesSome result (length bytes.now) }
        ensures pairs { self.new.pairs ≡ self.old.pairs }
        ensures ends { self.new.ends ≡ self.old.ends }
        ensures last { self.new.last ≡ self.old.last }
        ensures log { Tells (told self.old) (told self.new)
            (LogEntry.Write pair end bytes.now result) }
        ensures answer { result ≡ write_answer pair end bytes.now self.old }
        ensures goes { self.new ≡ after_write pair end bytes.now self.old }
    {
        self.write_next(pair, end, bytes)
    }

    fn shut(&mut self, pair: u32, end: End)
        ensures later { self.old.faults ≤ self.new.faults }
        ensures pairs { self.new.pairs ≡ self.old.pairs }
        ensures ends { self.new.ends ≡ closed pair end self.old.ends }
        ensures last { self.new.last ≡ self.old.last }
        ensures log { Tells (told self.old) (told self.new) (LogEntry.Shut pair end) }
        ensures goes { self.new ≡ after_shut pair end self.old }
    {
        self.use_shut(pair, end);
        self.close(pair, end);
    }

    fn idle(&mut self) -> Next
        ensures later { self.old.faults ≤ self.new.faults }
        ensures pairs { self.new.pairs ≡ self.old.pairs }
        ensures ends { self.new.ends ≡ self.old.ends }
        ensures last { self.new.last ≡ self.old.last }
        ensures log { Tells (told self.old) (told self.new) (LogEntry.Idle result) }
        ensures answer { result ≡ idle_answer self.old }
        ensures goes { self.new ≡ after_idle self.old }
    {
        self.idle_next()
    }

    fn now(&mut self) -> u64
        ensures later { self.old.faults ≤ self.new.faults }
        ensures onward { self.old.last ≤ result }
        ensures last { self.new.last ≡ result }
        ensures pairs { self.new.pairs ≡ self.old.pairs }
        ensures ends { self.new.ends ≡ self.old.ends }
        ensures log { Tells (told self.old) (told self.new) (LogEntry.Now result) }
        ensures answer { result ≡ now_answer self.old }
        ensures goes { self.new ≡ after_now self.old }
    {
        self.now_next()
    }
}
