//! This file is written by tools/generate_performatives.py from the definition of AMQP 1.0.
//!
//! The performatives of a link (AMQP 1.0 2.7.3 to 2.7.7).

ghost use Rattle.std.specs.Prelude.{◌≡◌, IfOk};
ghost use Rattle.wire_base.specs.Reading.{Gives};
ghost use Rattle.types_10.specs.Tree.{trees_of};
ghost use Rattle.performatives_10.specs.Rows.{attach_rows, flow_rows, transfer_rows};
ghost use Rattle.performatives_10.specs.Rows.{disposition_rows, detach_rows};
ghost use Rattle.performatives_10.specs.View.{parts_of, attach_fields, flow_fields};
ghost use Rattle.performatives_10.specs.View.{transfer_fields, disposition_fields, detach_fields};
ghost use Rattle.performatives_10.specs.Reading.{perf_in};
ghost use Rattle.performatives_10.specs.Writing.{written};

use crate::collecting::{
    push_maybe_error, push_maybe_source, push_maybe_state, push_maybe_target, push_unless_default,
};
use crate::fault::PerfFault;
use crate::getting::{
    binary_at, boolean_at, boolean_or, both, error_at, mapping_at, needed_boolean, needed_string,
    needed_uint, source_at, state_at, symbols_at, target_at, ubyte_at, ubyte_or, uint_at, ulong_at,
};
use crate::kind::PerfKind;
use crate::performative::{Attach, Detach, Disposition, Flow, Perf, Transfer};
use std::alloc::Global;
use types_10::{Fields, SpelledList, Value10};
use wire_base::{Memory, Stop};

/// The fields of attach.
pub(crate) fn attach_of(alloc: Global, fields: &SpelledList<'_>) -> Result<Perf, Stop<PerfFault>>
    ensures { Gives parts_of result (perf_in PerfKind.Attach (trees_of fields.now)) }
{
    let name = needed_string(alloc, fields, 0)?;
    let (name, handle) = both(name, needed_uint(alloc, fields, 1))?;
    let (name, role) = both(name, needed_boolean(alloc, fields, 2))?;
    let (name, snd_settle_mode) = both(name, ubyte_or(alloc, fields, 3, 2))?;
    let (name, rcv_settle_mode) = both(name, ubyte_or(alloc, fields, 4, 0))?;
    let read = both(name, source_at(alloc, fields, 5))?;
    let read = both(read, target_at(alloc, fields, 6))?;
    let read = both(read, mapping_at(alloc, fields, 7))?;
    let (read, incomplete_unsettled) = both(read, boolean_or(alloc, fields, 8, false))?;
    let (read, initial_delivery_count) = both(read, uint_at(alloc, fields, 9))?;
    let (read, max_message_size) = both(read, ulong_at(alloc, fields, 10))?;
    let read = both(read, symbols_at(alloc, fields, 11))?;
    let read = both(read, symbols_at(alloc, fields, 12))?;
    let read = both(read, mapping_at(alloc, fields, 13))?;
    let (
        (((((name, source), target), unsettled), offered_capabilities), desired_capabilities),
        properties,
    ) = read;
    Ok(Perf::Attach(Attach {
        name,
        handle,
        role,
        snd_settle_mode,
        rcv_settle_mode,
        source,
        target,
        unsettled,
        incomplete_unsettled,
        initial_delivery_count,
        max_message_size,
        offered_capabilities,
        desired_capabilities,
        properties,
    }))
}

/// What is written of the fields of attach.
pub(crate) fn attach_written(alloc: Global, perf: &Attach) -> Result<Fields, Memory>
    ensures { IfOk result (λ f. f ≡ written attach_rows (attach_fields perf.now)) }
{
    let mut fields = Fields::empty(alloc);
    fields.push_string(alloc, &perf.name)?;
    fields.push(Value10::Uint(perf.handle))?;
    fields.push(Value10::Boolean(perf.role))?;
    fields.push(Value10::Ubyte(perf.snd_settle_mode))?;
    fields.push(Value10::Ubyte(perf.rcv_settle_mode))?;
    push_maybe_source(alloc, &mut fields, &perf.source)?;
    push_maybe_target(alloc, &mut fields, &perf.target)?;
    fields.push_maybe_kept(alloc, &perf.unsettled)?;
    push_unless_default(&mut fields, perf.incomplete_unsettled, false)?;
    fields.push_maybe_uint(perf.initial_delivery_count)?;
    fields.push_maybe_ulong(perf.max_message_size)?;
    fields.push_maybe_kept(alloc, &perf.offered_capabilities)?;
    fields.push_maybe_kept(alloc, &perf.desired_capabilities)?;
    fields.push_maybe_kept(alloc, &perf.properties)?;
    Ok(fields)
}

/// The fields of flow.
pub(crate) fn flow_of(alloc: Global, fields: &SpelledList<'_>) -> Result<Perf, Stop<PerfFault>>
    ensures { Gives parts_of result (perf_in PerfKind.Flow (trees_of fields.now)) }
{
    let next_incoming_id = uint_at(alloc, fields, 0)?;
    let incoming_window = needed_uint(alloc, fields, 1)?;
    let next_outgoing_id = needed_uint(alloc, fields, 2)?;
    let outgoing_window = needed_uint(alloc, fields, 3)?;
    let handle = uint_at(alloc, fields, 4)?;
    let delivery_count = uint_at(alloc, fields, 5)?;
    let link_credit = uint_at(alloc, fields, 6)?;
    let available = uint_at(alloc, fields, 7)?;
    let drain = boolean_or(alloc, fields, 8, false)?;
    let echo = boolean_or(alloc, fields, 9, false)?;
    let properties = mapping_at(alloc, fields, 10)?;
    Ok(Perf::Flow(Flow {
        next_incoming_id,
        incoming_window,
        next_outgoing_id,
        outgoing_window,
        handle,
        delivery_count,
        link_credit,
        available,
        drain,
        echo,
        properties,
    }))
}

/// What is written of the fields of flow.
pub(crate) fn flow_written(alloc: Global, perf: &Flow) -> Result<Fields, Memory>
    ensures { IfOk result (λ f. f ≡ written flow_rows (flow_fields perf.now)) }
{
    let mut fields = Fields::empty(alloc);
    fields.push_maybe_uint(perf.next_incoming_id)?;
    fields.push(Value10::Uint(perf.incoming_window))?;
    fields.push(Value10::Uint(perf.next_outgoing_id))?;
    fields.push(Value10::Uint(perf.outgoing_window))?;
    fields.push_maybe_uint(perf.handle)?;
    fields.push_maybe_uint(perf.delivery_count)?;
    fields.push_maybe_uint(perf.link_credit)?;
    fields.push_maybe_uint(perf.available)?;
    push_unless_default(&mut fields, perf.drain, false)?;
    push_unless_default(&mut fields, perf.echo, false)?;
    fields.push_maybe_kept(alloc, &perf.properties)?;
    Ok(fields)
}

/// The fields of transfer.
pub(crate) fn transfer_of(alloc: Global, fields: &SpelledList<'_>) -> Result<Perf, Stop<PerfFault>>
    ensures { Gives parts_of result (perf_in PerfKind.Transfer (trees_of fields.now)) }
{
    let handle = needed_uint(alloc, fields, 0)?;
    let delivery_id = uint_at(alloc, fields, 1)?;
    let delivery_tag = binary_at(alloc, fields, 2)?;
    let (delivery_tag, message_format) = both(delivery_tag, uint_at(alloc, fields, 3))?;
    let (delivery_tag, settled) = both(delivery_tag, boolean_at(alloc, fields, 4))?;
    let (delivery_tag, more) = both(delivery_tag, boolean_or(alloc, fields, 5, false))?;
    let (delivery_tag, rcv_settle_mode) = both(delivery_tag, ubyte_at(alloc, fields, 6))?;
    let read = both(delivery_tag, state_at(alloc, fields, 7))?;
    let (read, resume) = both(read, boolean_or(alloc, fields, 8, false))?;
    let (read, aborted) = both(read, boolean_or(alloc, fields, 9, false))?;
    let (read, batchable) = both(read, boolean_or(alloc, fields, 10, false))?;
    let (delivery_tag, state) = read;
    Ok(Perf::Transfer(Transfer {
        handle,
        delivery_id,
        delivery_tag,
        message_format,
        settled,
        more,
        rcv_settle_mode,
        state,
        resume,
        aborted,
        batchable,
    }))
}

/// What is written of the fields of transfer.
pub(crate) fn transfer_written(alloc: Global, perf: &Transfer) -> Result<Fields, Memory>
    ensures { IfOk result (λ f. f ≡ written transfer_rows (transfer_fields perf.now)) }
{
    let mut fields = Fields::empty(alloc);
    fields.push(Value10::Uint(perf.handle))?;
    fields.push_maybe_uint(perf.delivery_id)?;
    fields.push_maybe_binary(alloc, &perf.delivery_tag)?;
    fields.push_maybe_uint(perf.message_format)?;
    fields.push_maybe_boolean(perf.settled)?;
    push_unless_default(&mut fields, perf.more, false)?;
    fields.push_maybe_ubyte(perf.rcv_settle_mode)?;
    push_maybe_state(alloc, &mut fields, &perf.state)?;
    push_unless_default(&mut fields, perf.resume, false)?;
    push_unless_default(&mut fields, perf.aborted, false)?;
    push_unless_default(&mut fields, perf.batchable, false)?;
    Ok(fields)
}

/// The fields of disposition.
pub(crate) fn disposition_of(
    alloc: Global,
    fields: &SpelledList<'_>,
) -> Result<Perf, Stop<PerfFault>>
    ensures { Gives parts_of result (perf_in PerfKind.Disposition (trees_of fields.now)) }
{
    let role = needed_boolean(alloc, fields, 0)?;
    let first = needed_uint(alloc, fields, 1)?;
    let last = uint_at(alloc, fields, 2)?;
    let settled = boolean_or(alloc, fields, 3, false)?;
    let state = state_at(alloc, fields, 4)?;
    let (state, batchable) = both(state, boolean_or(alloc, fields, 5, false))?;
    Ok(Perf::Disposition(Disposition {
        role,
        first,
        last,
        settled,
        state,
        batchable,
    }))
}

/// What is written of the fields of disposition.
pub(crate) fn disposition_written(alloc: Global, perf: &Disposition) -> Result<Fields, Memory>
    ensures { IfOk result (λ f. f ≡ written disposition_rows (disposition_fields perf.now)) }
{
    let mut fields = Fields::empty(alloc);
    fields.push(Value10::Boolean(perf.role))?;
    fields.push(Value10::Uint(perf.first))?;
    fields.push_maybe_uint(perf.last)?;
    push_unless_default(&mut fields, perf.settled, false)?;
    push_maybe_state(alloc, &mut fields, &perf.state)?;
    push_unless_default(&mut fields, perf.batchable, false)?;
    Ok(fields)
}

/// The fields of detach.
pub(crate) fn detach_of(alloc: Global, fields: &SpelledList<'_>) -> Result<Perf, Stop<PerfFault>>
    ensures { Gives parts_of result (perf_in PerfKind.Detach (trees_of fields.now)) }
{
    let handle = needed_uint(alloc, fields, 0)?;
    let closed = boolean_or(alloc, fields, 1, false)?;
    let error = error_at(alloc, fields, 2)?;
    Ok(Perf::Detach(Detach {
        handle,
        closed,
        error,
    }))
}

/// What is written of the fields of detach.
pub(crate) fn detach_written(alloc: Global, perf: &Detach) -> Result<Fields, Memory>
    ensures { IfOk result (λ f. f ≡ written detach_rows (detach_fields perf.now)) }
{
    let mut fields = Fields::empty(alloc);
    fields.push(Value10::Uint(perf.handle))?;
    push_unless_default(&mut fields, perf.closed, false)?;
    push_maybe_error(alloc, &mut fields, &perf.error)?;
    Ok(fields)
}
