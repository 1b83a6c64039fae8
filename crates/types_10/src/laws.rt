//! What holds of the grammar of values (AMQP 1.0 1.6), and of the spelling that is written. Only
//! laws stand here.

ghost use Rattle.std.specs.Prelude.{◌≡◌, ◌↔◌, ℕ, ◌+◌, ◌<◌, ◌^◌, List, ◌++◌, length, Ok, Err};
ghost use Rattle.wire_base.specs.Bytes.{IsBytes};
ghost use Rattle.wire_base.specs.Spelling.{StandsAt};
ghost use Rattle.types_10.specs.Tree.{Tree};
ghost use Rattle.types_10.specs.Grammar.{IsValue};
ghost use Rattle.types_10.specs.Canonical.{IsCanonical};
ghost use Rattle.types_10.specs.Faults.{IsFaultAt};
ghost use Rattle.types_10.specs.Reading.{Fault, value_at};
ghost use Rattle.types_10.specs.Ranges.{IsRanged};
ghost use Rattle.types_10.specs.Writing.{value_text, HasSpelling};

/// The laws of values, for proofs to cite; the call does nothing.
///
/// Bytes are numbers below 256, and offsets and lengths are in bytes. `IsRanged` says that the
/// numbers inside are of their types, which `tell_ranges` tells of any value; `HasSpelling` is the
/// condition of `put_value`. No law says that what is read can be written: see the head of the
/// crate.
pub fn value_laws()
    // Bytes spell at most one value.
    ensures one { (t u : Tree) (text : List ℕ) → IsValue t text → IsValue u text → t ≡ u }
    // A value is read exactly where one stands.
    ensures read { (t : Tree) (bytes : List ℕ) (at after : ℕ) → IsBytes bytes
        → (value_at bytes at ≡ Ok (t, after)) ↔ StandsAt IsValue t bytes at after }
    // Else the first fault is told, at its place.
    ensures fault { (bytes : List ℕ) (at : ℕ) (f : Fault) → IsBytes bytes
        → (value_at bytes at ≡ Err f) ↔ IsFaultAt bytes at f }
    // What is written is the canonical spelling.
    ensures canonical { (t : Tree) → IsRanged t → HasSpelling t → IsCanonical t (value_text t) }
    // What has a canonical spelling of fewer than 2^32 bytes can be written, and that spelling is
    // what is written.
    ensures writable { (t : Tree) (text : List ℕ) → IsRanged t → IsCanonical t text
        → length text < 2 ^ 32 → HasSpelling t × (value_text t ≡ text) }
    // The canonical spelling is in the grammar.
    ensures spelled { (t : Tree) (text : List ℕ) → IsCanonical t text → IsValue t text }
    // A value has one canonical spelling at most.
    ensures alone { (t : Tree) (a b : List ℕ) → IsCanonical t a → IsCanonical t b → a ≡ b }
    // What is written is read back, wherever it stands and whatever follows.
    ensures back { (t : Tree) (before rest : List ℕ) → IsRanged t → HasSpelling t
        → value_at (before ++ (value_text t ++ rest)) (length before)
        ≡ Ok (t, length before + length (value_text t)) }
{}
