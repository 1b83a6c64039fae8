//! This file is written by tools/generate_performatives.py from the definition of AMQP 1.0.
//!
//! The performatives of a connection (AMQP 1.0 2.7.1, 2.7.9).

ghost use Rattle.std.specs.Prelude.{◌≡◌, IfOk};
ghost use Rattle.wire_base.specs.Reading.{Gives};
ghost use Rattle.types_10.specs.Tree.{trees_of};
ghost use Rattle.performatives_10.specs.Rows.{open_rows, close_rows};
ghost use Rattle.performatives_10.specs.View.{parts_of, open_fields, close_fields};
ghost use Rattle.performatives_10.specs.Reading.{perf_in};
ghost use Rattle.performatives_10.specs.Writing.{written};

use crate::collecting::push_maybe_error;
use crate::fault::PerfFault;
use crate::getting::{
    both, error_at, mapping_at, needed_string, string_at, symbols_at, uint_at, uint_or, ushort_or,
};
use crate::kind::PerfKind;
use crate::performative::{Close, Open, Perf};
use std::alloc::Global;
use types_10::{Fields, SpelledList, Value10};
use wire_base::{Memory, Stop};

/// The fields of open.
pub(crate) fn open_of(alloc: Global, fields: &SpelledList<'_>) -> Result<Perf, Stop<PerfFault>>
    ensures { Gives parts_of result (perf_in PerfKind.Open (trees_of fields.now)) }
{
    let container_id = needed_string(alloc, fields, 0)?;
    let read = both(container_id, string_at(alloc, fields, 1))?;
    let (read, max_frame_size) = both(read, uint_or(alloc, fields, 2, u32::MAX))?;
    let (read, channel_max) = both(read, ushort_or(alloc, fields, 3, u16::MAX))?;
    let (read, idle_time_out) = both(read, uint_at(alloc, fields, 4))?;
    let read = both(read, symbols_at(alloc, fields, 5))?;
    let read = both(read, symbols_at(alloc, fields, 6))?;
    let read = both(read, symbols_at(alloc, fields, 7))?;
    let read = both(read, symbols_at(alloc, fields, 8))?;
    let read = both(read, mapping_at(alloc, fields, 9))?;
    let (
        (
            (
                (((container_id, hostname), outgoing_locales), incoming_locales),
                offered_capabilities,
            ),
            desired_capabilities,
        ),
        properties,
    ) = read;
    Ok(Perf::Open(Open {
        container_id,
        hostname,
        max_frame_size,
        channel_max,
        idle_time_out,
        outgoing_locales,
        incoming_locales,
        offered_capabilities,
        desired_capabilities,
        properties,
    }))
}

/// What is written of the fields of open.
pub(crate) fn open_written(alloc: Global, perf: &Open) -> Result<Fields, Memory>
    ensures { IfOk result (λ f. f ≡ written open_rows (open_fields perf.now)) }
{
    let mut fields = Fields::empty(alloc);
    fields.push_string(alloc, &perf.container_id)?;
    fields.push_maybe_string(alloc, &perf.hostname)?;
    fields.push(Value10::Uint(perf.max_frame_size))?;
    fields.push(Value10::Ushort(perf.channel_max))?;
    fields.push_maybe_uint(perf.idle_time_out)?;
    fields.push_maybe_kept(alloc, &perf.outgoing_locales)?;
    fields.push_maybe_kept(alloc, &perf.incoming_locales)?;
    fields.push_maybe_kept(alloc, &perf.offered_capabilities)?;
    fields.push_maybe_kept(alloc, &perf.desired_capabilities)?;
    fields.push_maybe_kept(alloc, &perf.properties)?;
    Ok(fields)
}

/// The fields of close.
pub(crate) fn close_of(alloc: Global, fields: &SpelledList<'_>) -> Result<Perf, Stop<PerfFault>>
    ensures { Gives parts_of result (perf_in PerfKind.Close (trees_of fields.now)) }
{
    let error = error_at(alloc, fields, 0)?;
    Ok(Perf::Close(Close { error }))
}

/// What is written of the fields of close.
pub(crate) fn close_written(alloc: Global, perf: &Close) -> Result<Fields, Memory>
    ensures { IfOk result (λ f. f ≡ written close_rows (close_fields perf.now)) }
{
    let mut fields = Fields::empty(alloc);
    push_maybe_error(alloc, &mut fields, &perf.error)?;
    Ok(fields)
}
