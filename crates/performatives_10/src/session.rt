//! This file is written by tools/generate_performatives.py from the definition of AMQP 1.0.
//!
//! The performatives of a session (AMQP 1.0 2.7.2, 2.7.8).

ghost use Rattle.std.specs.Prelude.{◌≡◌, IfOk};
ghost use Rattle.wire_base.specs.Reading.{Gives};
ghost use Rattle.types_10.specs.Tree.{trees_of};
ghost use Rattle.performatives_10.specs.Rows.{begin_rows, end_rows};
ghost use Rattle.performatives_10.specs.View.{parts_of, begin_fields, end_fields};
ghost use Rattle.performatives_10.specs.Reading.{perf_in};
ghost use Rattle.performatives_10.specs.Writing.{written};

use crate::collecting::push_maybe_error;
use crate::fault::PerfFault;
use crate::getting::{both, error_at, mapping_at, needed_uint, symbols_at, uint_or, ushort_at};
use crate::kind::PerfKind;
use crate::performative::{Begin, End, Perf};
use std::alloc::Global;
use types_10::{Fields, SpelledList, Value10};
use wire_base::{Memory, Stop};

/// The fields of begin.
pub(crate) fn begin_of(alloc: Global, fields: &SpelledList<'_>) -> Result<Perf, Stop<PerfFault>>
    ensures { Gives parts_of result (perf_in PerfKind.Begin (trees_of fields.now)) }
{
    let remote_channel = ushort_at(alloc, fields, 0)?;
    let next_outgoing_id = needed_uint(alloc, fields, 1)?;
    let incoming_window = needed_uint(alloc, fields, 2)?;
    let outgoing_window = needed_uint(alloc, fields, 3)?;
    let handle_max = uint_or(alloc, fields, 4, u32::MAX)?;
    let offered_capabilities = symbols_at(alloc, fields, 5)?;
    let read = both(offered_capabilities, symbols_at(alloc, fields, 6))?;
    let read = both(read, mapping_at(alloc, fields, 7))?;
    let ((offered_capabilities, desired_capabilities), properties) = read;
    Ok(Perf::Begin(Begin {
        remote_channel,
        next_outgoing_id,
        incoming_window,
        outgoing_window,
        handle_max,
        offered_capabilities,
        desired_capabilities,
        properties,
    }))
}

/// What is written of the fields of begin.
pub(crate) fn begin_written(alloc: Global, perf: &Begin) -> Result<Fields, Memory>
    ensures { IfOk result (λ f. f ≡ written begin_rows (begin_fields perf.now)) }
{
    let mut fields = Fields::empty(alloc);
    fields.push_maybe_ushort(perf.remote_channel)?;
    fields.push(Value10::Uint(perf.next_outgoing_id))?;
    fields.push(Value10::Uint(perf.incoming_window))?;
    fields.push(Value10::Uint(perf.outgoing_window))?;
    fields.push(Value10::Uint(perf.handle_max))?;
    fields.push_maybe_kept(alloc, &perf.offered_capabilities)?;
    fields.push_maybe_kept(alloc, &perf.desired_capabilities)?;
    fields.push_maybe_kept(alloc, &perf.properties)?;
    Ok(fields)
}

/// The fields of end.
pub(crate) fn end_of(alloc: Global, fields: &SpelledList<'_>) -> Result<Perf, Stop<PerfFault>>
    ensures { Gives parts_of result (perf_in PerfKind.End (trees_of fields.now)) }
{
    let error = error_at(alloc, fields, 0)?;
    Ok(Perf::End(End { error }))
}

/// What is written of the fields of end.
pub(crate) fn end_written(alloc: Global, perf: &End) -> Result<Fields, Memory>
    ensures { IfOk result (λ f. f ≡ written end_rows (end_fields perf.now)) }
{
    let mut fields = Fields::empty(alloc);
    push_maybe_error(alloc, &mut fields, &perf.error)?;
    Ok(fields)
}
