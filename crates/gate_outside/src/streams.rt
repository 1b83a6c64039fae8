//! Sources of bytes and sinks for bytes.

ghost use Rattle.std.specs.Prelude.{◌≡◌, ℕ, ◌+◌, ◌<◌, ◌≤◌, List, [], length, Option, true, false};
ghost use Rattle.gate_outside.specs.Counts.{Rose};
ghost use Rattle.gate_outside.specs.Streams.{Appends, AppendsFront, SinksSome, sunk_bytes};
ghost use Rattle.gate_outside.specs.Streams.{DrawsInto, Draws};

/// The answer of a source; the number is a count of bytes.
#[derive(Clone, Copy, Debug, PartialEq, Eq)]
pub enum Drawn {
    Bytes(usize),
    Ended,
    Failed,
}

/// The answer of a sink; the number is a count of bytes.
#[derive(Clone, Copy, Debug, PartialEq, Eq)]
pub enum Sunk {
    Took(usize),
    Failed,
}

/// A source of bytes.
pub trait Source {
    /// A count of faults, which never falls.
    ghost faults: { Self → ℕ };

    /// What is left of the input, where it is told.
    ghost left: { Self → Option (List ℕ) };

    /// Reads into the front of a buffer, and leaves the rest of it as it was.
    fn read(&mut self, buf: &mut [u8]) -> Drawn
        requires { 0 < length buf.old }
        ensures later { faults self.old ≤ faults self.new }
        ensures cause { result ≡ Drawn.Failed → Rose (faults self.old) (faults self.new) }
        ensures bytes { DrawsInto result buf.old buf.new }
        ensures left { Draws result buf.new (left self.old) (left self.new) };
}

/// A sink for bytes.
pub trait Sink {
    /// A count of faults, which never falls.
    ghost faults: { Self → ℕ };

    /// What the sink holds, where it is told.
    ghost held: { Self → Option (List ℕ) };

    /// Takes a front part of the bytes, or fails and takes nothing.
    fn write(&mut self, bytes: &[u8]) -> Sunk
        requires { 0 < length bytes.now }
        ensures later { faults self.old ≤ faults self.new }
        ensures cause { result ≡ Sunk.Failed → Rose (faults self.old) (faults self.new) }
        ensures taken { SinksSome result (length bytes.now) }
        ensures held { Appends (held self.old) (held self.new) (sunk_bytes result bytes.now) };
}

/// Writes all the bytes. `false` comes only where the sink's count of faults rose; a front part of
/// the bytes was then taken.
pub fn write_all<K: Sink>(sink: &mut K, bytes: &[u8]) -> bool
    ensures later { K.faults sink.old ≤ K.faults sink.new }
    ensures cause { result ≡ false → Rose (K.faults sink.old) (K.faults sink.new) }
    ensures whole { result ≡ true → Appends (K.held sink.old) (K.held sink.new) bytes.now }
    ensures part { AppendsFront (K.held sink.old) (K.held sink.new) bytes.now }
{
    let mut at = 0;
    while at < bytes.len() {
        let (_, rest) = bytes.split_at(at);
        match sink.write(rest) {
            Sunk::Took(n) => at += n,
            Sunk::Failed => return false,
        }
    }
    true
}
