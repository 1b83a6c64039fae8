//! What holds of the grammar of tables and of the spelling that is written.

ghost use Rattle.std.specs.Prelude.{◌≡◌, ◌↔◌, ℕ, ◌+◌, List, ◌++◌, length, Ok, Err};
ghost use Rattle.wire_base.specs.Bytes.{IsBytes};
ghost use Rattle.wire_base.specs.Spelling.{StandsAt};
ghost use Rattle.tables_091.specs.Tree.{Tree};
ghost use Rattle.tables_091.specs.Grammar.{IsTable};
ghost use Rattle.tables_091.specs.Faults.{IsFaultAt};
ghost use Rattle.tables_091.specs.Reading.{table_at};
ghost use Rattle.tables_091.specs.Writing.{table_text, HasSpelling};
ghost use Rattle.tables_091.specs.Ranges.{AreRanged};

/// The laws of tables, for proofs to cite; the call does nothing.
pub fn table_laws()
    // What is written is in the grammar.
    ensures spelled { (ms : List (List ℕ × Tree)) → HasSpelling ms → AreRanged ms
        → IsTable ms (table_text ms) }
    // A table is read exactly where one stands.
    ensures read { (ms : List (List ℕ × Tree)) (bytes : List ℕ) (at after : ℕ) → IsBytes bytes
        → (table_at bytes at ≡ Ok (ms, after)) ↔ StandsAt IsTable ms bytes at after }
    // Else the first fault is told, at its place.
    ensures fault { (bytes : List ℕ) (at place : ℕ) → IsBytes bytes
        → (table_at bytes at ≡ Err place) ↔ IsFaultAt bytes at place }
    // What is written is read back, wherever it stands and whatever follows.
    ensures back { (ms : List (List ℕ × Tree)) (before rest : List ℕ) → HasSpelling ms
        → AreRanged ms
        → table_at (before ++ (table_text ms ++ rest)) (length before)
        ≡ Ok (ms, length before + length (table_text ms)) }
    // What is read can be written: its names were behind a length of one byte, what it held was
    // behind one of four, and the spelling that is written is as long as the one that was read.
    ensures writable { (ms : List (List ℕ × Tree)) (text : List ℕ) → IsTable ms text
        → HasSpelling ms }
    // Bytes spell at most one table.
    ensures one { (ms ns : List (List ℕ × Tree)) (text : List ℕ) → IsTable ms text
        → IsTable ns text → ms ≡ ns }
{}
