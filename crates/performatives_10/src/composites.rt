//! Errors, states and termini: the composite values inside performatives (AMQP 1.0 2.8.14, 3.4,
//! 3.5).

ghost use Rattle.std.specs.Prelude.{◌≡◌, Option, Some, None, Ok, Err, IfOk, option_map};
ghost use Rattle.wire_base.specs.Reading.{Gives};
ghost use Rattle.types_10.specs.Tree.{trees_of};
ghost use Rattle.performatives_10.specs.Composites.{ulong_of, list_of, described_list};
ghost use Rattle.performatives_10.specs.View.{error_tree, state_tree, source_tree, target_tree};
ghost use Rattle.performatives_10.specs.Reading.{error_read, received_read, rejected_read};
ghost use Rattle.performatives_10.specs.Reading.{modified_read, state_read, source_read};
ghost use Rattle.performatives_10.specs.Reading.{target_read, error_in, state_in, source_in};
ghost use Rattle.performatives_10.specs.Reading.{target_in};

use crate::fault::PerfFault;
use crate::getting::{
    address_at, anything_at, boolean_at, both, error_at, mapping_at, needed_symbol, needed_uint,
    needed_ulong, string_at, symbol_at, uint_at,
};
use crate::performative::{Error10, Source10, State, Target10};
use std::alloc::Global;
use types_10::{Spelled, SpelledList, Value10};
use wire_base::{Memory, Stop};

pub(crate) const ERROR: u64 = 0x1D;

pub(crate) const RECEIVED: u64 = 0x23;

pub(crate) const ACCEPTED: u64 = 0x24;

pub(crate) const REJECTED: u64 = 0x25;

pub(crate) const RELEASED: u64 = 0x26;

pub(crate) const MODIFIED: u64 = 0x27;

pub(crate) const SOURCE: u64 = 0x28;

pub(crate) const TARGET: u64 = 0x29;

/// The number that a value is, where it is a ulong.
#[tactic(auto, using(crate::proofs::Scalars::no_ulong))]
fn ulong_of(alloc: Global, value: &Spelled<'_>) -> Result<Option<u64>, Memory>
    ensures { IfOk result (λ n. n ≡ ulong_of value.now) }
{
    match value.scalar(alloc)? {
        Some(Value10::Ulong(n)) => Ok(Some(n)),
        _ => Ok(None),
    }
}

/// The values of a list.
#[tactic(auto, using(crate::proofs::Scalars::lists))]
fn list_of<'a>(value: &Spelled<'a>) -> Option<SpelledList<'a>>
    ensures { option_map trees_of result ≡ list_of value.now }
{
    value.list()
}

/// The descriptor and the fields of a described list.
pub(crate) fn described_list<'a>(
    alloc: Global,
    value: &Spelled<'a>,
) -> Result<Option<(u64, SpelledList<'a>)>, Memory>
    ensures { IfOk result (λ found. option_map (λ x. (x.0, trees_of x.1)) found
        ≡ described_list value.now) }
{
    let Some((descriptor, inside)) = value.described() else {
        return Ok(None);
    };
    let Some(code) = ulong_of(alloc, &descriptor)? else {
        return Ok(None);
    };
    let Some(list) = list_of(&inside) else {
        return Ok(None);
    };
    Ok(Some((code, list)))
}

// ---- errors

fn error_of(alloc: Global, fields: &SpelledList<'_>) -> Result<Error10, Stop<PerfFault>>
    ensures { Gives error_tree result (error_read (trees_of fields.now)) }
{
    let condition = needed_symbol(alloc, fields, 0)?;
    let read = both(condition, string_at(alloc, fields, 1))?;
    let (read, _information) = both(read, mapping_at(alloc, fields, 2))?;
    let (condition, description) = read;
    Ok(Error10 {
        condition,
        description,
    })
}

/// A value as an error; `None` where it is none.
#[tactic(auto, unfolding(crate::specs::Reading::error_in))]
pub(crate) fn error_from(alloc: Global, value: &Spelled<'_>) -> Result<Option<Error10>, Memory>
    ensures { IfOk result (λ x. option_map error_tree x ≡ error_in value.now) }
{
    let Some((code, fields)) = described_list(alloc, value)? else {
        return Ok(None);
    };
    if code != ERROR {
        return Ok(None);
    }
    match error_of(alloc, &fields) {
        Ok(error) => Ok(Some(error)),
        Err(Stop::Fault(_)) => Ok(None),
        Err(Stop::Memory) => Err(Memory),
    }
}

// ---- states

fn received_of(alloc: Global, fields: &SpelledList<'_>) -> Result<State, Stop<PerfFault>>
    ensures { Gives state_tree result (received_read (trees_of fields.now)) }
{
    let _number = needed_uint(alloc, fields, 0)?;
    let _offset = needed_ulong(alloc, fields, 1)?;
    Ok(State::Received)
}

fn rejected_of(alloc: Global, fields: &SpelledList<'_>) -> Result<State, Stop<PerfFault>>
    ensures { Gives state_tree result (rejected_read (trees_of fields.now)) }
{
    let error = error_at(alloc, fields, 0)?;
    Ok(State::Rejected(error))
}

fn modified_of(alloc: Global, fields: &SpelledList<'_>) -> Result<State, Stop<PerfFault>>
    ensures { Gives state_tree result (modified_read (trees_of fields.now)) }
{
    let _failed = boolean_at(alloc, fields, 0)?;
    let _undeliverable = boolean_at(alloc, fields, 1)?;
    let _annotations = mapping_at(alloc, fields, 2)?;
    Ok(State::Modified)
}

/// The state of this descriptor with these fields.
#[tactic(auto, unfolding(crate::specs::Reading::state_read))]
fn state_of(alloc: Global, code: u64, fields: &SpelledList<'_>) -> Result<State, Stop<PerfFault>>
    ensures { Gives state_tree result (state_read code (trees_of fields.now)) }
{
    match code {
        RECEIVED => received_of(alloc, fields),
        ACCEPTED => Ok(State::Accepted),
        REJECTED => rejected_of(alloc, fields),
        RELEASED => Ok(State::Released),
        MODIFIED => modified_of(alloc, fields),
        _ => Err(Stop::Fault(PerfFault::UnknownDescriptor)),
    }
}

/// A value as the state of a delivery; `None` where it is none.
#[tactic(auto, unfolding(crate::specs::Reading::state_in))]
pub(crate) fn state_from(alloc: Global, value: &Spelled<'_>) -> Result<Option<State>, Memory>
    ensures { IfOk result (λ x. option_map state_tree x ≡ state_in value.now) }
{
    let Some((code, fields)) = described_list(alloc, value)? else {
        return Ok(None);
    };
    match state_of(alloc, code, &fields) {
        Ok(state) => Ok(Some(state)),
        Err(Stop::Fault(_)) => Ok(None),
        Err(Stop::Memory) => Err(Memory),
    }
}

// ---- termini

fn source_of(alloc: Global, fields: &SpelledList<'_>) -> Result<Source10, Stop<PerfFault>>
    ensures { Gives source_tree result (source_read (trees_of fields.now)) }
{
    let address = address_at(alloc, fields, 0)?;
    let (address, durable) = both(address, uint_at(alloc, fields, 1))?;
    let read = both(address, symbol_at(alloc, fields, 2))?;
    let (read, timeout) = both(read, uint_at(alloc, fields, 3))?;
    let (read, dynamic) = both(read, boolean_at(alloc, fields, 4))?;
    let read = both(read, mapping_at(alloc, fields, 5))?;
    let read = both(read, symbol_at(alloc, fields, 6))?;
    let read = both(read, mapping_at(alloc, fields, 7))?;
    let read = both(read, anything_at(alloc, fields, 8))?;
    let read = both(read, anything_at(alloc, fields, 9))?;
    let read = both(read, anything_at(alloc, fields, 10))?;
    let (
        (
            (
                ((((address, expiry_policy), dynamic_node_properties), distribution_mode), filter),
                default_outcome,
            ),
            outcomes,
        ),
        capabilities,
    ) = read;
    Ok(Source10 {
        address,
        durable,
        expiry_policy,
        timeout,
        dynamic,
        dynamic_node_properties,
        distribution_mode,
        filter,
        default_outcome,
        outcomes,
        capabilities,
    })
}

/// A value as a source; `None` where it is none.
#[tactic(auto, unfolding(crate::specs::Reading::source_in))]
pub(crate) fn source_from(alloc: Global, value: &Spelled<'_>) -> Result<Option<Source10>, Memory>
    ensures { IfOk result (λ x. option_map source_tree x ≡ source_in value.now) }
{
    let Some((code, fields)) = described_list(alloc, value)? else {
        return Ok(None);
    };
    if code != SOURCE {
        return Ok(None);
    }
    match source_of(alloc, &fields) {
        Ok(source) => Ok(Some(source)),
        Err(Stop::Fault(_)) => Ok(None),
        Err(Stop::Memory) => Err(Memory),
    }
}

fn target_of(alloc: Global, fields: &SpelledList<'_>) -> Result<Target10, Stop<PerfFault>>
    ensures { Gives target_tree result (target_read (trees_of fields.now)) }
{
    let address = address_at(alloc, fields, 0)?;
    let (address, durable) = both(address, uint_at(alloc, fields, 1))?;
    let read = both(address, symbol_at(alloc, fields, 2))?;
    let (read, timeout) = both(read, uint_at(alloc, fields, 3))?;
    let (read, dynamic) = both(read, boolean_at(alloc, fields, 4))?;
    let read = both(read, mapping_at(alloc, fields, 5))?;
    let read = both(read, anything_at(alloc, fields, 6))?;
    let (((address, expiry_policy), dynamic_node_properties), capabilities) = read;
    Ok(Target10 {
        address,
        durable,
        expiry_policy,
        timeout,
        dynamic,
        dynamic_node_properties,
        capabilities,
    })
}

/// A value as a target; `None` where it is none.
#[tactic(auto, unfolding(crate::specs::Reading::target_in))]
pub(crate) fn target_from(alloc: Global, value: &Spelled<'_>) -> Result<Option<Target10>, Memory>
    ensures { IfOk result (λ x. option_map target_tree x ≡ target_in value.now) }
{
    let Some((code, fields)) = described_list(alloc, value)? else {
        return Ok(None);
    };
    if code != TARGET {
        return Ok(None);
    }
    match target_of(alloc, &fields) {
        Ok(target) => Ok(Some(target)),
        Err(Stop::Fault(_)) => Ok(None),
        Err(Stop::Memory) => Err(Memory),
    }
}
