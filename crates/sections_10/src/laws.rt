//! What holds of the grammar of messages (AMQP 1.0 3.2). Only laws stand here.

ghost use Rattle.std.specs.Prelude.{◌≡◌, ◌↔◌, ℕ, List, Ok, Err};
ghost use Rattle.wire_base.specs.declared.scan.At.{At};
ghost use Rattle.wire_base.specs.Bytes.{IsBytes};
ghost use Rattle.types_10.specs.Ranges.{IsRanged};
ghost use Rattle.sections_10.specs.View.{Kept, kept_of};
ghost use Rattle.sections_10.specs.Writing.{message_text, EachWritten, CanBeWritten, HasTypes};
ghost use Rattle.sections_10.specs.declared.message.Message10.{Message10};
ghost use Rattle.sections_10.specs.Faults.{IsFault};
ghost use Rattle.sections_10.specs.Grammar.{IsMessage};
ghost use Rattle.sections_10.specs.Reading.{message_in};
ghost use Rattle.sections_10.specs.declared.reading.SectionFault.{SectionFault};

/// The laws of messages, for proofs to cite; the call does nothing.
///
/// `HasTypes` says that the values inside a message have the types of their rows, and
/// `CanBeWritten` is the condition of
/// `put_message`. `IsRanged` says that the numbers inside are of their types, as they are.
pub fn message_laws()
    // A message is read exactly where it fills the bytes.
    ensures read { (k : Kept) (bytes : List ℕ) → IsBytes bytes
        → (message_in bytes ≡ Ok k) ↔ IsMessage k bytes }
    // Else the first section at fault is told.
    ensures fault { (bytes : List ℕ) (e : At SectionFault) → IsBytes bytes
        → message_in bytes ≡ Err e → IsFault bytes e }
    // Bytes spell at most one message, as far as it is kept.
    ensures one { (j k : Kept) (bytes : List ℕ) → IsMessage j bytes → IsMessage k bytes → j ≡ k }
    // What is written is read back.
    ensures back { (m : Message10) → HasTypes m → EachWritten IsRanged m → CanBeWritten m
        → message_in (message_text m) ≡ Ok (kept_of m) }
{}
