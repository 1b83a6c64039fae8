//! What holds of performatives (AMQP 1.0 2.7, 5.3.3), and of what is written of them. Only laws
//! stand here.

ghost use Rattle.std.specs.Prelude.{◌≡◌, ◌≢◌, ◌↔◌, ℕ, List, ◌++◌, length, Option, Some, Ok};
ghost use Rattle.wire_base.specs.Bytes.{IsBytes};
ghost use Rattle.types_10.specs.Ranges.{IsRanged};
ghost use Rattle.types_10.specs.Writing.{HasSpelling};
ghost use Rattle.performatives_10.specs.declared.performative.Perf.{Perf};
ghost use Rattle.performatives_10.specs.declared.performative.Error10.{Error10};
ghost use Rattle.performatives_10.specs.declared.performative.Source10.{Source10};
ghost use Rattle.performatives_10.specs.declared.performative.State.{State};
ghost use Rattle.performatives_10.specs.declared.performative.State.TheVariants as state;
ghost use Rattle.performatives_10.specs.declared.performative.Target10.{Target10};
ghost use Rattle.performatives_10.specs.Fields.{leaves_in};
ghost use Rattle.performatives_10.specs.Rows.{source_rows, target_rows};
ghost use Rattle.performatives_10.specs.View.{parts_of, error_tree, state_tree, source_fields};
ghost use Rattle.performatives_10.specs.View.{source_tree, target_fields, target_tree};
ghost use Rattle.performatives_10.specs.Reading.{perf_at, error_in, state_in, source_in, target_in};
ghost use Rattle.performatives_10.specs.Grammar.{IsPerfAt, AreOfTypes, HasTypes};
ghost use Rattle.performatives_10.specs.Writing.{perf_tree, perf_text};

/// The laws of performatives, for proofs to cite; the call does nothing.
///
/// `HasTypes` says that each field of a performative has the type of its row, which only fields of
/// the types `Spelling10` and `Value10` and the state `Received` can break. `IsRanged` says that the
/// numbers inside are of their types, as they are.
pub fn perf_laws()
    // A performative is read exactly where bytes begin with one.
    ensures read { (p : Perf) (bytes : List ℕ) (after : ℕ) → IsBytes bytes
        → (perf_at bytes ≡ Ok (parts_of p, after)) ↔ IsPerfAt p bytes after }
    // What is written is read back, whatever follows.
    ensures back { (p : Perf) (rest : List ℕ) → HasTypes p → IsRanged (perf_tree p)
        → HasSpelling (perf_tree p)
        → perf_at (perf_text p ++ rest) ≡ Ok (parts_of p, length (perf_text p)) }
    // Errors, and states other than Received, have the types of such fields.
    ensures errors { (e : Error10) → error_in (error_tree e) ≡ Some (error_tree e) }
    ensures states { (s : State) → s ≢ state.Received → state_in (state_tree s)
        ≡ Some (state_tree s) }
    // And so have sources and targets, if their own fields have the types of their rows.
    ensures sources { (s : Source10) → AreOfTypes leaves_in source_rows (source_fields s)
        → source_in (source_tree s) ≡ Some (source_tree s) }
    ensures targets { (s : Target10) → AreOfTypes leaves_in target_rows (target_fields s)
        → target_in (target_tree s) ≡ Some (target_tree s) }
{}
