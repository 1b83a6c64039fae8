//! The commands whose input is a byte stream of one of the two protocols.

ghost use Rattle.std.specs.Prelude.{◌≡◌, ◌≢◌, ◌⊎◌, ◌≤◌, IfOk, OnErr, Ok};
ghost use Rattle.gate_outside.specs.Counts.{Rose};
ghost use Rattle.gate_listing.specs.Names.{fault_text};
ghost use Rattle.gate_command.specs.declared.input.Input.{Input};
ghost use Rattle.gate_command.specs.declared.top_call.Status.{Status};
ghost use Rattle.gate_command.specs.Input.{IsInput};
ghost use Rattle.gate_command.specs.Listings.{HasUnits, IsStream, IsStreamListing, IsStreamOf};
ghost use Rattle.gate_command.specs.Recorded.{Says, bad_line};

use crate::input::{Input, read_input};
use crate::recorded::say_too_long;
use crate::saying::say_counted;
use crate::top_call::Status;
use gate_listing::{Dialect, Listed, UnitFault, fault_text, list_units};
use gate_outside::{Sink, Source};
use std::alloc::Global;
use wire_base::{At, Memory};

/// Writes the line for a stream at fault.
fn say_bad<K: Sink>(alloc: Global, out: &mut K, found: At<UnitFault>) -> Result<Status, Memory>
    ensures later { K.faults out.old ≤ K.faults out.new }
    ensures cause { result ≡ Ok Status.Outside → Rose (K.faults out.old) (K.faults out.new) }
    ensures said { IfOk result (λ answer. Says Status.BadInput (bad_line found.at
        (fault_text found.fault)) answer
        (K.held out.old) (K.held out.new)) }
    ensures none { OnErr result (out.new ≡ out.old) }
    ensures never { result ≢ Ok Status.Usage }
{
    say_counted(
        alloc,
        out,
        b"bad input at ",
        found.at as u64,
        fault_text(found.fault),
        Status::BadInput,
    )
}

/// Lists the bytes of a whole input.
fn list<K: Sink>(
    alloc: Global,
    dialect: Dialect,
    bytes: &[u8],
    out: &mut K,
) -> Result<Status, Memory>
    ensures later { K.faults out.old ≤ K.faults out.new }
    ensures cause { result ≡ Ok Status.Outside → Rose (K.faults out.old) (K.faults out.new) }
    ensures listed { IfOk result (λ answer. IsStream dialect bytes.now answer (K.held out.old)
        (K.held out.new)) }
    ensures some { OnErr result (HasUnits dialect (K.held out.old) (K.held out.new)) }
    ensures never { result ≢ Ok Status.Usage }
{
    match list_units(alloc, dialect, bytes, out)? {
        Listed::Whole => Ok(Status::Ok),
        Listed::Bad(found) => say_bad(alloc, out, found),
        Listed::OutFailed => Ok(Status::Outside),
    }
}

/// Reads the input to its end, and lists its units. Where memory runs out, the lines of some units
/// were written.
fn list_input<R: Source, K: Sink>(
    alloc: Global,
    dialect: Dialect,
    input: &mut R,
    out: &mut K,
) -> Result<Status, Memory>
    ensures drawn { R.faults input.old ≤ R.faults input.new }
    ensures later { K.faults out.old ≤ K.faults out.new }
    ensures cause { result ≡ Ok Status.Outside
        → Rose (R.faults input.old) (R.faults input.new) ⊎ Rose (K.faults out.old)
        (K.faults out.new) }
    ensures listed { IfOk result (λ answer. (read : Input) × IsInput (R.left input.old)
        (R.left input.new) read
        × IsStreamOf dialect read answer (K.held out.old) (K.held out.new)) }
    ensures some { OnErr result (HasUnits dialect (K.held out.old) (K.held out.new)) }
    ensures never { result ≢ Ok Status.Usage }
{
    match read_input(alloc, input)? {
        Input::Whole(bytes) => list(alloc, dialect, bytes.as_slice(), out),
        Input::TooLong => say_too_long(alloc, out),
        Input::Failed => Ok(Status::Outside),
    }
}

/// Lists the units of the byte stream that is the input; its status.
pub fn run_listing<R: Source, K: Sink>(
    alloc: Global,
    dialect: Dialect,
    input: &mut R,
    out: &mut K,
) -> Status
    ensures drawn { R.faults input.old ≤ R.faults input.new }
    ensures later { K.faults out.old ≤ K.faults out.new }
    ensures cause { result ≡ Status.Outside
        → Rose (R.faults input.old) (R.faults input.new) ⊎ Rose (K.faults out.old)
        (K.faults out.new) }
    ensures listing { IsStreamListing dialect result (R.left input.old) (R.left input.new)
        (K.held out.old) (K.held out.new) }
    ensures never { result ≢ Status.Usage }
{
    match list_input(alloc, dialect, input, out) {
        Ok(status) => status,
        Err(Memory) => Status::Memory,
    }
}
