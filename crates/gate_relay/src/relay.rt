//! What the loop asks of a pair, whatever its protocols.

ghost use Rattle.std.specs.Prelude.{◌≡◌, ℕ, ◌≤◌, ◌<◌, ◌^◌, Bool, true, false, List, [], ◌∷◌};
ghost use Rattle.std.specs.Prelude.{length, Option, Some, None, is_some, IfOk, IfSome, OnOk, OnErr};
ghost use Rattle.std.specs.Prelude.{IsOk};
ghost use Rattle.std.specs.Bool.{OnTrue, OnFalse};
ghost use Rattle.gate_outside.specs.Counts.{Rose};
ghost use Rattle.gate_outside.specs.Streams.{Appends, AppendsFront};
ghost use Rattle.gate_outside.specs.declared.ports.End.{End};
ghost use Rattle.gate_relay.specs.Entries.{Entry, Began, Moment, Came, Dry, Settled, Joined, Took};
ghost use Rattle.gate_relay.specs.Entries.{Stuck, Lost, OutOfMemory, Over, is_empty};
ghost use Rattle.gate_relay.specs.Entries.{is_out_of_memory};
ghost use Rattle.gate_relay.specs.RelayWords.{RelayWords};

use crate::loss::Loss;
use gate_outside::{End, Linked, Sink};
use std::alloc::Global;
use wire_base::Memory;

/// The state of one pair of connections. Each call that changes it is an entry of the pair, and
/// each answer is a word of the entries so far. Only `new`, `came_in`, `settle` and `peek` take
/// memory.
pub trait Relay: Drop {
    /// What all pairs of a run share.
    type Setup;

    /// What the loop asks of a pair's entries.
    ghost words: { Self.Setup → RelayWords };

    /// The state is what these entries, the newest first, say.
    ghost represents: { Self.Setup → Self → List Entry → Type 0 };

    /// The bytes that the last look for them found for an end.
    ghost ready: { Self → End → Option (List ℕ) };

    /// The pair ran out of memory.
    ghost out_of_memory: { Self → Bool };

    /// A pair with this number, accepted at this moment in milliseconds.
    fn new(alloc: Global, setup: &Self::Setup, number: u32, moment: u64) -> Result<Self, Memory>
        ensures memory { IfOk result (λ r. out_of_memory r ≡ false) }
        ensures entry { IfOk result (λ r. represents setup.now r (Began number moment ∷ [])) };

    /// Whether the pair ran out of memory.
    fn is_out_of_memory(&self) -> bool
        ensures value { result ≡ out_of_memory self.now }
        ensures word { (s : Self.Setup) (h : List Entry) → represents s self.now h → result
            ≡ is_out_of_memory h };

    /// A moment, in milliseconds, was given.
    fn tell(&mut self, moment: u64)
        ensures memory { out_of_memory self.new ≡ out_of_memory self.old }
        ensures entry { (s : Self.Setup) (h : List Entry) → represents s self.old h
            → represents s self.new (Moment moment ∷ h) };

    /// Whether bytes of an end are awaited.
    fn awaits(&self, end: End) -> bool
        ensures word { (s : Self.Setup) (h : List Entry) → represents s self.now h
            → result ≡ (words s).awaits end h };

    /// Bytes came. If the pair runs out of memory, the newest `cut` steps of this read don't count.
    fn came_in(
        &mut self,
        alloc: Global,
        setup: &Self::Setup,
        end: End,
        bytes: &[u8],
    ) -> Result<(), Memory>
        requires { out_of_memory self.old ≡ false }
        ensures memory { OnOk result (out_of_memory self.new ≡ false) }
        ensures ok { OnOk result ((h : List Entry) → represents setup.now self.old h
            → represents setup.now self.new (Came end bytes.now ∷ h)) }
        ensures met { OnErr result (out_of_memory self.new ≡ true) }
        ensures err { OnErr result ((cut : ℕ) × ((h : List Entry) → represents setup.now self.old h
            → represents setup.now self.new (OutOfMemory cut ∷ Came end bytes.now ∷ h))) };

    /// A read gave nothing yet.
    fn dry(&mut self, end: End)
        ensures memory { out_of_memory self.new ≡ out_of_memory self.old }
        ensures entry { (s : Self.Setup) (h : List Entry) → represents s self.old h
            → represents s self.new (Dry end ∷ h) };

    /// An end was lost.
    fn lose(&mut self, end: End, how: Loss)
        ensures memory { out_of_memory self.new ≡ out_of_memory self.old }
        ensures entry { (s : Self.Setup) (h : List Entry) → represents s self.old h
            → represents s self.new (Lost end how ∷ h) };

    /// Whether something that came can be taken up.
    fn takes_up(&self) -> bool
        ensures word { (s : Self.Setup) (h : List Entry) → represents s self.now h
            → result ≡ (words s).takes_up h };

    /// What came is taken up, as far as it can be. If the pair runs out of memory, the newest `cut`
    /// steps of this don't count.
    fn settle(&mut self, alloc: Global, setup: &Self::Setup) -> Result<(), Memory>
        requires { out_of_memory self.old ≡ false }
        ensures memory { OnOk result (out_of_memory self.new ≡ false) }
        ensures ok { OnOk result ((h : List Entry) → represents setup.now self.old h
            → represents setup.now self.new (Settled ∷ h)) }
        ensures met { OnErr result (out_of_memory self.new ≡ true) }
        ensures err { OnErr result ((cut : ℕ) × ((h : List Entry) → represents setup.now self.old h
            → represents setup.now self.new (OutOfMemory cut ∷ Settled ∷ h))) };

    /// Whether the connection upstream is to be asked for.
    fn connects(&self) -> bool
        ensures word { (s : Self.Setup) (h : List Entry) → represents s self.now h
            → result ≡ (words s).connects h };

    /// The connection upstream was asked for.
    fn link(&mut self, answer: Linked)
        ensures memory { out_of_memory self.new ≡ out_of_memory self.old }
        ensures entry { (s : Self.Setup) (h : List Entry) → represents s self.old h
            → represents s self.new (Joined answer ∷ h) };

    /// Looks for what is offered to an end. After the pair ran out of memory this takes none.
    fn peek(&mut self, alloc: Global, setup: &Self::Setup, end: End) -> Result<bool, Memory>
        ensures ready { IfOk result (λ yes. yes ≡ is_some (ready self.new end)) }
        ensures word { OnOk result ((h : List Entry) → represents setup.now self.old h
            → ready self.new end ≡ (words setup.now).offer end h) }
        ensures memory { OnOk result (out_of_memory self.new ≡ out_of_memory self.old) }
        ensures ok { OnOk result ((h : List Entry) → represents setup.now self.old h
            → represents setup.now self.new h) }
        ensures calm { OnErr result (out_of_memory self.old ≡ false) }
        ensures met { OnErr result (out_of_memory self.new ≡ true) }
        ensures due { OnErr result ((h : List Entry) → represents setup.now self.old h
            → is_some ((words setup.now).offer end h) ≡ true) }
        ensures takes { OnErr result ((h : List Entry) → represents setup.now self.old h
            → (words setup.now).takes_memory end h ≡ true) }
        ensures err { OnErr result ((h : List Entry) → represents setup.now self.old h
            → represents setup.now self.new (OutOfMemory 0 ∷ h)) };

    /// What was found.
    fn bytes(&self, end: End) -> &[u8]
        requires { is_some (ready self.now end) ≡ true }
        ensures ready { ready self.now end ≡ Some result.now }
        ensures some { 0 < length result.now }
        ensures small { length result.now < 2 ^ 32 };

    /// So many bytes of it were taken.
    fn took(&mut self, end: End, count: usize)
        requires some { 1 ≤ count }
        requires ready { is_some (ready self.old end) ≡ true }
        requires within { IfSome (ready self.old end) (λ bytes. count ≤ length bytes) }
        ensures memory { out_of_memory self.new ≡ out_of_memory self.old }
        ensures entry { (s : Self.Setup) (h : List Entry) (bytes : List ℕ) → ready self.old end
            ≡ Some bytes
            → represents s self.old h → represents s self.new (Took end bytes count ∷ h) };

    /// None of it was taken yet.
    fn stuck(&mut self, end: End)
        requires { is_some (ready self.old end) ≡ true }
        ensures memory { out_of_memory self.new ≡ out_of_memory self.old }
        ensures entry { (s : Self.Setup) (h : List Entry) (bytes : List ℕ) → ready self.old end
            ≡ Some bytes
            → represents s self.old h → represents s self.new (Stuck end bytes ∷ h) };

    /// Whether an end is to be shut.
    fn shut_due(&self, end: End) -> bool
        ensures word { (s : Self.Setup) (h : List Entry) → represents s self.now h
            → result ≡ (words s).shut_due end h };

    /// The service ended.
    fn finish(&mut self)
        ensures memory { out_of_memory self.new ≡ out_of_memory self.old }
        ensures entry { (s : Self.Setup) (h : List Entry) → represents s self.old h
            → represents s self.new (Over ∷ h) };

    /// Writes the report lines that the newest entry adds. `false` comes only if the report's count
    /// of faults rose; then there is a line, and a front part of the lines was taken.
    fn tell_lines<K: Sink>(&self, report: &mut K) -> bool
        ensures later { K.faults report.old ≤ K.faults report.new }
        ensures cause { OnFalse result (Rose (K.faults report.old) (K.faults report.new)) }
        ensures whole { OnTrue result ((s : Self.Setup) (h : List Entry) → represents s self.now h
            → Appends (K.held report.old) (K.held report.new) ((words s).lines h)) }
        ensures some { OnFalse result ((s : Self.Setup) (h : List Entry) → represents s self.now h
            → is_empty ((words s).lines h) ≡ false) }
        ensures part { OnFalse result ((s : Self.Setup) (h : List Entry) → represents s self.now h
            → AppendsFront (K.held report.old) (K.held report.new) ((words s).lines h)) };
}
