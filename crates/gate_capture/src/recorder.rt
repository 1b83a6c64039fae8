//! Where the calls of a run are kept.

ghost use Rattle.std.specs.Prelude.{◌≡◌, ℕ, ◌≤◌, List, Option, None, true, false};
ghost use Rattle.gate_outside.specs.Counts.{Rose};
ghost use Rattle.gate_outside.specs.LogState.{entry_of};
ghost use Rattle.gate_outside.specs.Streams.{Appends, AppendsFront};
ghost use Rattle.gate_capture.specs.Spelling.{spelling_of, HasSpelling};

use crate::writing::write_entry;
use gate_outside::{Call, Sink};

/// Keeps the calls of a run with their answers, one after the other, as a capture spells them.
pub trait Recorder {
    /// A count of faults, which never falls.
    ghost faults: { Self → ℕ };

    /// What was kept, where it is told.
    ghost held: { Self → Option (List ℕ) };

    /// Keeps a call, with the bytes that came or were offered. It takes no memory. `false` comes
    /// only where the count of faults rose; a front part of the entry was then kept.
    fn record(&mut self, call: Call, bytes: &[u8]) -> bool
        requires { HasSpelling (entry_of call bytes.now) }
        ensures later { faults self.old ≤ faults self.new }
        ensures cause { result ≡ false → Rose (faults self.old) (faults self.new) }
        ensures whole { result ≡ true → Appends (held self.old) (held self.new) (spelling_of
            (entry_of call bytes.now)) }
        ensures part { AppendsFront (held self.old) (held self.new) (spelling_of
            (entry_of call bytes.now)) };
}

/// Writes each call to a sink.
#[derive(Drop)]
pub struct CaptureTo<'a, C: Sink> {
    pub sink: &'a mut C,
}

impl<'a, C: Sink> Recorder for CaptureTo<'a, C> {
    ghost faults = { λ recorder. C.faults recorder.sink.now };

    ghost held = { λ recorder. C.held recorder.sink.now };

    fn record(&mut self, call: Call, bytes: &[u8]) -> bool {
        write_entry(&mut *self.sink, call, bytes)
    }
}

/// Keeps nothing.
#[derive(Clone, Copy, Debug)]
pub struct NoCapture;

impl Recorder for NoCapture {
    ghost use Rattle.std.specs.Prelude.{None};

    ghost faults = { λ recorder. 0 };

    ghost held = { λ recorder. None };

    fn record(&mut self, _call: Call, _bytes: &[u8]) -> bool {
        true
    }
}
