//! Counts of faults.

ghost use Rattle.std.specs.Prelude.{◌≤◌};
ghost use Rattle.gate_outside.specs.Counts.{Rose};

/// Counts one more fault. The count stands still at its type's end.
pub(crate) fn raise(faults: &mut u64)
    ensures later { faults.old ≤ faults.new }
    ensures risen { Rose faults.old faults.new }
{
    *faults = faults.saturating_add(1);
}
