//! What holds of the grammar of methods and of the spelling that is written.

ghost use Rattle.std.specs.Prelude.{◌≡◌, ◌↔◌, ℕ, List, Ok};
ghost use Rattle.wire_base.specs.Bytes.{IsBytes};
ghost use Rattle.methods_091.specs.Rows.{class_of, id_of};
ghost use Rattle.methods_091.specs.View.{parts_of};
ghost use Rattle.methods_091.specs.Grammar.{IsMethod};
ghost use Rattle.methods_091.specs.Reading.{method_in};
ghost use Rattle.methods_091.specs.Writing.{method_text, CanPut, HasRanges};
ghost use Rattle.methods_091.specs.declared.kind.MethodKind.{MethodKind};
ghost use Rattle.methods_091.specs.declared.method.Method91.{Method91};

/// The laws of methods, for proofs to cite; the call does nothing.
pub fn method_laws()
    // What is written is in the grammar.
    ensures spelled { (m : Method91) → CanPut m → HasRanges m → IsMethod m (method_text m) }
    // A method is read exactly where bytes spell it.
    ensures read { (m : Method91) (bytes : List ℕ) → IsBytes bytes
        → (method_in bytes ≡ Ok (parts_of m)) ↔ IsMethod m bytes }
    // What is written is read back.
    ensures back { (m : Method91) → CanPut m → HasRanges m → method_in (method_text m)
        ≡ Ok (parts_of m) }
    // What is spelled can be written.
    ensures writable { (m : Method91) (bytes : List ℕ) → IsMethod m bytes → CanPut m }
    // Bytes spell at most one method.
    ensures one { (m n : Method91) (bytes : List ℕ) → IsMethod m bytes → IsMethod n bytes → m ≡ n }
    // A method is what its kind and its arguments make it.
    ensures parts { (m n : Method91) → parts_of m ≡ parts_of n → m ≡ n }
    // The ids of two kinds differ.
    ensures apart { (j k : MethodKind) → class_of j ≡ class_of k → id_of j ≡ id_of k → j ≡ k }
{}
