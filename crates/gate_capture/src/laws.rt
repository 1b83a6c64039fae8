//! What holds of captures, and of the ports that answer from a log.

ghost use Rattle.std.specs.Prelude.{◌≡◌, ◌<◌, ◌^◌, ℕ, List, ◌++◌, length, reverse, Ok, None};
ghost use Rattle.std.specs.List.{AllByRecursion, flat_map};
ghost use Rattle.gate_outside.specs.declared.ports.End.{End};
ghost use Rattle.gate_outside.specs.declared.log.LogEntry.{LogEntry};
ghost use Rattle.gate_capture.specs.Spelling.{spelling_of, HasSpelling};
ghost use Rattle.gate_capture.specs.Captures.{start, capture, spelling, IsInForm, IsCapture};
ghost use Rattle.gate_capture.specs.Reading.{capture_in};
ghost use Rattle.gate_capture.specs.Replay.{ReplayState, whole, begun, difference, after_accept};
ghost use Rattle.gate_capture.specs.Replay.{after_connect, after_read, after_write, after_shut};
ghost use Rattle.gate_capture.specs.Replay.{after_idle, after_now};

/// The laws of captures, for proofs to cite; the call does nothing.
pub fn capture_laws()
    // What is written is read.
    ensures back { (words : List ℕ) (log : List LogEntry) → length words < 2 ^ 32
        → AllByRecursion IsInForm log
        → capture_in (capture words log) ≡ Ok (words, log) }
    // Bytes are at most one capture.
    ensures one { (words more : List ℕ) (log others : List LogEntry) (bytes : List ℕ)
        → IsCapture words log bytes → IsCapture more others bytes → (words ≡ more) × (log
        ≡ others) }
    // A log whose newest entry stands first is spelled in the order of the calls.
    ensures history { (log : List LogEntry) → spelling log ≡ flat_map spelling_of (reverse log) }
    // The entries that a capture holds can be written and replayed.
    ensures replayable { (log : List LogEntry) → AllByRecursion IsInForm log
        → AllByRecursion HasSpelling log }
{}

/// The laws of the ports that answer from a log, for proofs to cite; the call does nothing.
pub fn replay_laws()
    // A call keeps the log that the ports answer from.
    ensures accept { (replay : ReplayState) → whole (after_accept replay).log ≡ whole replay.log }
    ensures connect { (replay : ReplayState) (pair : ℕ) → whole (after_connect pair replay).log
        ≡ whole replay.log }
    ensures read { (replay : ReplayState) (pair : ℕ) (end : End) (room : ℕ)
        → whole (after_read pair end room replay).log ≡ whole replay.log }
    ensures write { (replay : ReplayState) (pair : ℕ) (end : End) (bytes : List ℕ)
        → whole (after_write pair end bytes replay).log ≡ whole replay.log }
    ensures shut { (replay : ReplayState) (pair : ℕ) (end : End)
        → whole (after_shut pair end replay).log ≡ whole replay.log }
    ensures idle { (replay : ReplayState) → whole (after_idle replay).log ≡ whole replay.log }
    ensures now { (replay : ReplayState) → whole (after_now replay).log ≡ whole replay.log }
    // Where nothing differs, the calls were exactly the recorded ones.
    ensures same { (replay : ReplayState) → difference replay ≡ None → reverse replay.log.used
        ≡ whole replay.log }
{}
