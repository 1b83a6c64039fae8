//! What holds of the grammar of content headers, of the spelling that is written, and of contents.

ghost use Rattle.std.specs.Prelude.{◌≡◌, ◌↔◌, ℕ, List, Ok, Err};
ghost use Rattle.wire_base.specs.Bytes.{IsBytes};
ghost use Rattle.wire_base.specs.declared.scan.At.{At};
ghost use Rattle.content_091.specs.View.{parts_of};
ghost use Rattle.content_091.specs.Grammar.{IsHeader};
ghost use Rattle.content_091.specs.Faults.{IsFault};
ghost use Rattle.content_091.specs.Reading.{header_in};
ghost use Rattle.content_091.specs.Writing.{header_text, CanPut, HasRanges};
ghost use Rattle.content_091.specs.Assembling.{IsContent};
ghost use Rattle.content_091.specs.declared.header.Header91.{Header91};
ghost use Rattle.content_091.specs.declared.assembly.Content.{Content};
ghost use Rattle.content_091.specs.declared.reading.HeaderFault.{HeaderFault};

/// The laws of contents, for proofs to cite; the call does nothing.
pub fn content_laws()
    // What is written is in the grammar.
    ensures spelled { (h : Header91) → CanPut h → HasRanges h → IsHeader h (header_text h) }
    // A header is read exactly where bytes spell it.
    ensures read { (h : Header91) (bytes : List ℕ) → IsBytes bytes
        → (header_in bytes ≡ Ok (parts_of h)) ↔ IsHeader h bytes }
    // Else the first fault is told, at its place.
    ensures fault { (bytes : List ℕ) (e : At HeaderFault) → IsBytes bytes
        → (header_in bytes ≡ Err e) ↔ IsFault bytes e }
    // What is written is read back.
    ensures back { (h : Header91) → CanPut h → HasRanges h
        → header_in (header_text h) ≡ Ok (parts_of h) }
    // What is spelled can be written.
    ensures writable { (h : Header91) (bytes : List ℕ) → IsHeader h bytes → CanPut h }
    // Bytes spell at most one header.
    ensures one { (h i : Header91) (bytes : List ℕ) → IsHeader h bytes → IsHeader i bytes → h ≡ i }
    // A header is what its size and its properties make it.
    ensures parts { (h i : Header91) → parts_of h ≡ parts_of i → h ≡ i }
    // A header and payloads are at most one content.
    ensures content { (c d : Content) (header : List ℕ) (payloads : List (List ℕ))
        → IsContent c header payloads → IsContent d header payloads → c ≡ d }
{}
