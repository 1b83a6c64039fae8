//! The ports of the gateway: clients' ends that are accepted, upstream ends that are connected, and
//! the clock.

ghost use Rattle.std.specs.Prelude.{◌≡◌, ℕ, ◌+◌, ◌<◌, ◌≤◌, ◌^◌, List, length, Option, true, false};
ghost use Rattle.gate_outside.specs.Counts.{Rose};
ghost use Rattle.gate_outside.specs.declared.ports.End.{End};
ghost use Rattle.gate_outside.specs.declared.log.LogEntry.{LogEntry};
ghost use Rattle.gate_outside.specs.Ends.{is_open, closed, IsNumbered, pairs_after, ends_accepted};
ghost use Rattle.gate_outside.specs.Ends.{ends_linked, ReadsInto, got_bytes, TakesSome};
ghost use Rattle.gate_outside.specs.History.{Tells};

/// An end of a pair: that of its client, or that of its upstream connection.
#[derive(Clone, Copy, Debug, PartialEq, Eq)]
pub enum End {
    Client,
    Up,
}

/// The answer of `accept`.
#[derive(Clone, Copy, Debug, PartialEq, Eq)]
pub enum Accepted {
    Pair(u32),
    NotYet,
    Failed,
}

/// The answer of `connect`.
#[derive(Clone, Copy, Debug, PartialEq, Eq)]
pub enum Linked {
    Ok,
    Failed,
}

/// The answer of `read`; the number is a count of bytes.
#[derive(Clone, Copy, Debug, PartialEq, Eq)]
pub enum Got {
    Bytes(usize),
    NotYet,
    Ended,
    Failed,
}

/// The answer of `write`; the number is a count of bytes.
#[derive(Clone, Copy, Debug, PartialEq, Eq)]
pub enum Put {
    Took(usize),
    NotYet,
    Failed,
}

/// The answer of `idle`.
#[derive(Clone, Copy, Debug, PartialEq, Eq)]
pub enum Next {
    Go,
    Stop,
}

/// What the gateway asks of the outside. A call changes only what its clauses name, and `Failed`
/// comes only where the count of faults rose in that call.
pub trait Ports {
    /// A count of faults, which never falls.
    ghost faults: { Self → ℕ };

    /// The count of the pairs accepted.
    ghost pairs: { Self → ℕ };

    /// The open ends.
    ghost ends: { Self → List (ℕ × End) };

    /// The last moment given, 0 before the first.
    ghost last: { Self → ℕ };

    /// The calls with their answers, the newest first, where they are told.
    ghost log: { Self → Option (List LogEntry) };

    /// Takes the next client, if one waits, and opens its end.
    fn accept(&mut self) -> Accepted
        requires { pairs self.old < 4294967295 }
        ensures later { faults self.old ≤ faults self.new }
        ensures cause { result ≡ Accepted.Failed → Rose (faults self.old) (faults self.new) }
        ensures number { IsNumbered result (pairs self.old) }
        ensures pairs { pairs self.new ≡ pairs_after result (pairs self.old) }
        ensures ends { ends self.new ≡ ends_accepted result (ends self.old) }
        ensures last { last self.new ≡ last self.old }
        ensures log { Tells (log self.old) (log self.new) (LogEntry.Accept result) };

    /// Begins the upstream connection of a pair.
    fn connect(&mut self, pair: u32) -> Linked
        requires known { pair < pairs self.old }
        requires free { is_open pair End.Up (ends self.old) ≡ false }
        ensures later { faults self.old ≤ faults self.new }
        ensures cause { result ≡ Linked.Failed → Rose (faults self.old) (faults self.new) }
        ensures pairs { pairs self.new ≡ pairs self.old }
        ensures ends { ends self.new ≡ ends_linked result pair (ends self.old) }
        ensures last { last self.new ≡ last self.old }
        ensures log { Tells (log self.old) (log self.new) (LogEntry.Connect pair result) };

    /// Reads into the front of a buffer, and leaves the rest of it as it was.
    fn read(&mut self, pair: u32, end: End, buf: &mut [u8]) -> Got
        requires some { 0 < length buf.old }
        requires small { length buf.old < 2 ^ 32 }
        requires open { is_open pair end (ends self.old) ≡ true }
        ensures later { faults self.old ≤ faults self.new }
        ensures cause { result ≡ Got.Failed → Rose (faults self.old) (faults self.new) }
        ensures bytes { ReadsInto result buf.old buf.new }
        ensures pairs { pairs self.new ≡ pairs self.old }
        ensures ends { ends self.new ≡ ends self.old }
        ensures last { last self.new ≡ last self.old }
        ensures log { Tells (log self.old) (log self.new)
            (LogEntry.Read pair end (length buf.old) result (got_bytes result buf.new)) };

    /// Offers bytes, of which the first may be taken.
    fn write(&mut self, pair: u32, end: End, bytes: &[u8]) -> Put
        requires some { 0 < length bytes.now }
        requires small { length bytes.now < 2 ^ 32 }
        requires open { is_open pair end (ends self.old) ≡ true }
        ensures later { faults self.old ≤ faults self.new }
        ensures cause { result ≡ Put.Failed → Rose (faults self.old) (faults self.new) }
        ensures taken { TakesSome result (length bytes.now) }
        ensures pairs { pairs self.new ≡ pairs self.old }
        ensures ends { ends self.new ≡ ends self.old }
        ensures last { last self.new ≡ last self.old }
        ensures log { Tells (log self.old) (log self.new)
            (LogEntry.Write pair end bytes.now result) };

    /// Closes an end.
    fn shut(&mut self, pair: u32, end: End)
        ensures later { faults self.old ≤ faults self.new }
        ensures pairs { pairs self.new ≡ pairs self.old }
        ensures ends { ends self.new ≡ closed pair end (ends self.old) }
        ensures last { last self.new ≡ last self.old }
        ensures log { Tells (log self.old) (log self.new) (LogEntry.Shut pair end) };

    /// Is called where nothing can be done. `Stop` asks the loop to end.
    fn idle(&mut self) -> Next
        ensures later { faults self.old ≤ faults self.new }
        ensures pairs { pairs self.new ≡ pairs self.old }
        ensures ends { ends self.new ≡ ends self.old }
        ensures last { last self.new ≡ last self.old }
        ensures log { Tells (log self.old) (log self.new) (LogEntry.Idle result) };

    /// The moment, in milliseconds. It never falls.
    fn now(&mut self) -> u64
        ensures later { faults self.old ≤ faults self.new }
        ensures onward { last self.old ≤ result }
        ensures last { last self.new ≡ result }
        ensures pairs { pairs self.new ≡ pairs self.old }
        ensures ends { ends self.new ≡ ends self.old }
        ensures log { Tells (log self.old) (log self.new) (LogEntry.Now result) };
}
