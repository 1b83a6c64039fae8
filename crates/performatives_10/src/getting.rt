//! The fields of composite types, by their place (AMQP 1.0 1.4). A field past the end of the list
//! is absent, and so is null.

ghost use Rattle.std.specs.Prelude.{◌≡◌, false, Ok, Err, IfOk, IfErr, IfSome, IfNone};
ghost use Rattle.wire_base.specs.Reading.{Gives};
ghost use Rattle.wire_base.specs.declared.stop.Stop.TheVariants as stop;
ghost use Rattle.types_10.specs.Tree.{trees_of};
ghost use Rattle.types_10.specs.Tree as value;
ghost use Rattle.types_10.specs.View.{value_tree};
ghost use Rattle.types_10.specs.Spelled.{is_scalar};
ghost use Rattle.types_10.specs.Fields.{maybe, a_boolean, a_ubyte, a_ushort, a_uint, a_ulong};
ghost use Rattle.types_10.specs.Fields.{a_binary, a_string, a_symbol, a_value, absent, is_absent};
ghost use Rattle.types_10.specs.Fields.{tree_at};
ghost use Rattle.performatives_10.specs.Fields.{mandatory, optional, defaults};
ghost use Rattle.performatives_10.specs.Fields.{is_multiple, leaf_field, part_field};
ghost use Rattle.performatives_10.specs.Fields as field;
ghost use Rattle.performatives_10.specs.View.{error_tree, state_tree, source_tree, target_tree};
ghost use Rattle.performatives_10.specs.Reading.{error_in, state_in, source_in, target_in};

use crate::composites::{error_from, source_from, state_from, target_from};
use crate::fault::PerfFault;
use crate::performative::{Error10, Source10, State, Target10};
use std::alloc::Global;
use types_10::{Spelled, SpelledList, Spelling10, Value10};
use wire_base::{ByteText, Memory, Stop};

/// Two results as one; where there is no second, the first is dropped.
pub(crate) fn both<A: Drop, B, E>(first: A, second: Result<B, E>) -> Result<(A, B), E>
    ensures ok { IfOk result (λ x. (x.0 ≡ first) × (second ≡ Ok x.1)) }
    ensures err { IfErr result (λ e. second ≡ Err e) }
{
    match second {
        Ok(second) => Ok((first, second)),
        Err(e) => Err(e),
    }
}

/// The value at a place.
fn element_at<'a>(list: &SpelledList<'a>, place: usize) -> Option<Spelled<'a>>
    ensures { maybe a_value result ≡ tree_at (trees_of list.now) place }
{
    list.get(place)
}

/// The value of a field.
fn value_at<'a>(fields: &SpelledList<'a>, place: u8) -> Option<Spelled<'a>>
    ensures { maybe a_value result ≡ tree_at (trees_of fields.now) place }
{
    element_at(fields, usize::from(place))
}

/// The value at a place, where it holds no other; null where there is none.
fn scalar_at(alloc: Global, fields: &SpelledList<'_>, place: u8) -> Result<Option<Value10>, Memory>
    ensures value { IfOk result (λ x. IfSome x (λ v. value_tree v
        ≡ tree_at (trees_of fields.now) place)) }
    ensures none { IfOk result (λ x. IfNone x (is_scalar (tree_at (trees_of fields.now) place)
        ≡ false)) }
{
    match value_at(fields, place) {
        None => Ok(Some(Value10::Null)),
        Some(value) => value.scalar(alloc),
    }
}

/// Whether a value is null.
#[tactic(auto, using(crate::proofs::Scalars::not_absent))]
fn is_null(alloc: Global, value: &Spelled<'_>) -> Result<bool, Memory>
    ensures { IfOk result (λ b. b ≡ is_absent value.now) }
{
    match value.scalar(alloc)? {
        Some(Value10::Null) => Ok(true),
        _ => Ok(false),
    }
}

/// The value at a place; `None` where it is absent.
fn there<'a>(
    alloc: Global,
    fields: &SpelledList<'a>,
    place: u8,
) -> Result<Option<Spelled<'a>>, Memory>
    ensures value { IfOk result (λ x. IfSome x (λ v. (v ≡ tree_at (trees_of fields.now) place)
        × (is_absent v ≡ false))) }
    ensures none { IfOk result (λ x. IfNone x (tree_at (trees_of fields.now) place ≡ absent)) }
{
    let Some(value) = value_at(fields, place) else {
        return Ok(None);
    };
    if is_null(alloc, &value)? {
        return Ok(None);
    }
    Ok(Some(value))
}

/// Whether a value is one symbol or an array of symbols.
#[tactic(auto, using(crate::proofs::Scalars::multiples))]
fn is_multiple(value: &Spelled<'_>) -> bool
    ensures { result ≡ is_multiple value.now }
{
    value.are_symbols()
}

fn missing(place: u8) -> Stop<PerfFault>
    ensures { result ≡ stop.Fault (PerfFault.Missing place) }
{
    Stop::Fault(PerfFault::Missing(place))
}

fn wrong_type(place: u8) -> Stop<PerfFault>
    ensures { result ≡ stop.Fault (PerfFault.WrongType place) }
{
    Stop::Fault(PerfFault::WrongType(place))
}

// ---- primitive types

/// A boolean that must be there.
#[tactic(auto, using(crate::proofs::Scalars::no_field), unfolding(crate::specs::Fields::leaf_in, crate::specs::Fields::field_in))]
pub(crate) fn needed_boolean(
    alloc: Global,
    fields: &SpelledList<'_>,
    place: u8,
) -> Result<bool, Stop<PerfFault>>
    ensures { Gives a_boolean result (leaf_field field.boolean mandatory place
        (trees_of fields.now)) }
{
    match scalar_at(alloc, fields, place)? {
        Some(Value10::Null) => Err(missing(place)),
        Some(Value10::Boolean(n)) => Ok(n),
        _ => Err(wrong_type(place)),
    }
}

/// A boolean that may be absent.
#[tactic(auto, using(crate::proofs::Scalars::no_field), unfolding(crate::specs::Fields::leaf_in, crate::specs::Fields::field_in))]
pub(crate) fn boolean_at(
    alloc: Global,
    fields: &SpelledList<'_>,
    place: u8,
) -> Result<Option<bool>, Stop<PerfFault>>
    ensures { Gives (maybe a_boolean) result (leaf_field field.boolean optional place
        (trees_of fields.now)) }
{
    match scalar_at(alloc, fields, place)? {
        Some(Value10::Null) => Ok(None),
        Some(Value10::Boolean(n)) => Ok(Some(n)),
        _ => Err(wrong_type(place)),
    }
}

/// A boolean that is this one where it is absent.
#[tactic(auto, using(crate::proofs::Scalars::no_field), unfolding(crate::specs::Fields::leaf_in, crate::specs::Fields::field_in))]
pub(crate) fn boolean_or(
    alloc: Global,
    fields: &SpelledList<'_>,
    place: u8,
    default: bool,
) -> Result<bool, Stop<PerfFault>>
    ensures { Gives a_boolean result (leaf_field field.boolean (defaults
        (value.boolean default)) place (trees_of fields.now)) }
{
    match scalar_at(alloc, fields, place)? {
        Some(Value10::Null) => Ok(default),
        Some(Value10::Boolean(n)) => Ok(n),
        _ => Err(wrong_type(place)),
    }
}

/// A ubyte that must be there.
#[tactic(auto, using(crate::proofs::Scalars::no_field), unfolding(crate::specs::Fields::leaf_in, crate::specs::Fields::field_in))]
pub(crate) fn needed_ubyte(
    alloc: Global,
    fields: &SpelledList<'_>,
    place: u8,
) -> Result<u8, Stop<PerfFault>>
    ensures { Gives a_ubyte result (leaf_field field.ubyte mandatory place (trees_of fields.now)) }
{
    match scalar_at(alloc, fields, place)? {
        Some(Value10::Null) => Err(missing(place)),
        Some(Value10::Ubyte(n)) => Ok(n),
        _ => Err(wrong_type(place)),
    }
}

/// A ubyte that may be absent.
#[tactic(auto, using(crate::proofs::Scalars::no_field), unfolding(crate::specs::Fields::leaf_in, crate::specs::Fields::field_in))]
pub(crate) fn ubyte_at(
    alloc: Global,
    fields: &SpelledList<'_>,
    place: u8,
) -> Result<Option<u8>, Stop<PerfFault>>
    ensures { Gives (maybe a_ubyte) result (leaf_field field.ubyte optional place
        (trees_of fields.now)) }
{
    match scalar_at(alloc, fields, place)? {
        Some(Value10::Null) => Ok(None),
        Some(Value10::Ubyte(n)) => Ok(Some(n)),
        _ => Err(wrong_type(place)),
    }
}

/// A ubyte that is this one where it is absent.
#[tactic(auto, using(crate::proofs::Scalars::no_field), unfolding(crate::specs::Fields::leaf_in, crate::specs::Fields::field_in))]
pub(crate) fn ubyte_or(
    alloc: Global,
    fields: &SpelledList<'_>,
    place: u8,
    default: u8,
) -> Result<u8, Stop<PerfFault>>
    ensures { Gives a_ubyte result (leaf_field field.ubyte (defaults (value.ubyte default)) place
        (trees_of fields.now)) }
{
    match scalar_at(alloc, fields, place)? {
        Some(Value10::Null) => Ok(default),
        Some(Value10::Ubyte(n)) => Ok(n),
        _ => Err(wrong_type(place)),
    }
}

/// A ushort that may be absent.
#[tactic(auto, using(crate::proofs::Scalars::no_field), unfolding(crate::specs::Fields::leaf_in, crate::specs::Fields::field_in))]
pub(crate) fn ushort_at(
    alloc: Global,
    fields: &SpelledList<'_>,
    place: u8,
) -> Result<Option<u16>, Stop<PerfFault>>
    ensures { Gives (maybe a_ushort) result (leaf_field field.ushort optional place
        (trees_of fields.now)) }
{
    match scalar_at(alloc, fields, place)? {
        Some(Value10::Null) => Ok(None),
        Some(Value10::Ushort(n)) => Ok(Some(n)),
        _ => Err(wrong_type(place)),
    }
}

/// A ushort that is this one where it is absent.
#[tactic(auto, using(crate::proofs::Scalars::no_field), unfolding(crate::specs::Fields::leaf_in, crate::specs::Fields::field_in))]
pub(crate) fn ushort_or(
    alloc: Global,
    fields: &SpelledList<'_>,
    place: u8,
    default: u16,
) -> Result<u16, Stop<PerfFault>>
    ensures { Gives a_ushort result (leaf_field field.ushort (defaults
        (value.ushort default)) place (trees_of fields.now)) }
{
    match scalar_at(alloc, fields, place)? {
        Some(Value10::Null) => Ok(default),
        Some(Value10::Ushort(n)) => Ok(n),
        _ => Err(wrong_type(place)),
    }
}

/// An uint that must be there.
#[tactic(auto, using(crate::proofs::Scalars::no_field), unfolding(crate::specs::Fields::leaf_in, crate::specs::Fields::field_in))]
pub(crate) fn needed_uint(
    alloc: Global,
    fields: &SpelledList<'_>,
    place: u8,
) -> Result<u32, Stop<PerfFault>>
    ensures { Gives a_uint result (leaf_field field.uint mandatory place (trees_of fields.now)) }
{
    match scalar_at(alloc, fields, place)? {
        Some(Value10::Null) => Err(missing(place)),
        Some(Value10::Uint(n)) => Ok(n),
        _ => Err(wrong_type(place)),
    }
}

/// An uint that may be absent.
#[tactic(auto, using(crate::proofs::Scalars::no_field), unfolding(crate::specs::Fields::leaf_in, crate::specs::Fields::field_in))]
pub(crate) fn uint_at(
    alloc: Global,
    fields: &SpelledList<'_>,
    place: u8,
) -> Result<Option<u32>, Stop<PerfFault>>
    ensures { Gives (maybe a_uint) result (leaf_field field.uint optional place
        (trees_of fields.now)) }
{
    match scalar_at(alloc, fields, place)? {
        Some(Value10::Null) => Ok(None),
        Some(Value10::Uint(n)) => Ok(Some(n)),
        _ => Err(wrong_type(place)),
    }
}

/// An uint that is this one where it is absent.
#[tactic(auto, using(crate::proofs::Scalars::no_field), unfolding(crate::specs::Fields::leaf_in, crate::specs::Fields::field_in))]
pub(crate) fn uint_or(
    alloc: Global,
    fields: &SpelledList<'_>,
    place: u8,
    default: u32,
) -> Result<u32, Stop<PerfFault>>
    ensures { Gives a_uint result (leaf_field field.uint (defaults (value.uint default)) place
        (trees_of fields.now)) }
{
    match scalar_at(alloc, fields, place)? {
        Some(Value10::Null) => Ok(default),
        Some(Value10::Uint(n)) => Ok(n),
        _ => Err(wrong_type(place)),
    }
}

/// An ulong that must be there.
#[tactic(auto, using(crate::proofs::Scalars::no_field), unfolding(crate::specs::Fields::leaf_in, crate::specs::Fields::field_in))]
pub(crate) fn needed_ulong(
    alloc: Global,
    fields: &SpelledList<'_>,
    place: u8,
) -> Result<u64, Stop<PerfFault>>
    ensures { Gives a_ulong result (leaf_field field.ulong mandatory place (trees_of fields.now)) }
{
    match scalar_at(alloc, fields, place)? {
        Some(Value10::Null) => Err(missing(place)),
        Some(Value10::Ulong(n)) => Ok(n),
        _ => Err(wrong_type(place)),
    }
}

/// An ulong that may be absent.
#[tactic(auto, using(crate::proofs::Scalars::no_field), unfolding(crate::specs::Fields::leaf_in, crate::specs::Fields::field_in))]
pub(crate) fn ulong_at(
    alloc: Global,
    fields: &SpelledList<'_>,
    place: u8,
) -> Result<Option<u64>, Stop<PerfFault>>
    ensures { Gives (maybe a_ulong) result (leaf_field field.ulong optional place
        (trees_of fields.now)) }
{
    match scalar_at(alloc, fields, place)? {
        Some(Value10::Null) => Ok(None),
        Some(Value10::Ulong(n)) => Ok(Some(n)),
        _ => Err(wrong_type(place)),
    }
}

/// A binary that must be there.
#[tactic(auto, using(crate::proofs::Scalars::no_field), unfolding(crate::specs::Fields::leaf_in, crate::specs::Fields::field_in))]
pub(crate) fn needed_binary(
    alloc: Global,
    fields: &SpelledList<'_>,
    place: u8,
) -> Result<ByteText, Stop<PerfFault>>
    ensures { Gives a_binary result (leaf_field field.binary mandatory place
        (trees_of fields.now)) }
{
    match scalar_at(alloc, fields, place)? {
        Some(Value10::Null) => Err(missing(place)),
        Some(Value10::Binary(text)) => Ok(text),
        _ => Err(wrong_type(place)),
    }
}

/// A binary that may be absent.
#[tactic(auto, using(crate::proofs::Scalars::no_field), unfolding(crate::specs::Fields::leaf_in, crate::specs::Fields::field_in))]
pub(crate) fn binary_at(
    alloc: Global,
    fields: &SpelledList<'_>,
    place: u8,
) -> Result<Option<ByteText>, Stop<PerfFault>>
    ensures { Gives (maybe a_binary) result (leaf_field field.binary optional place
        (trees_of fields.now)) }
{
    match scalar_at(alloc, fields, place)? {
        Some(Value10::Null) => Ok(None),
        Some(Value10::Binary(text)) => Ok(Some(text)),
        _ => Err(wrong_type(place)),
    }
}

/// A string that must be there.
#[tactic(auto, using(crate::proofs::Scalars::no_field), unfolding(crate::specs::Fields::leaf_in, crate::specs::Fields::field_in))]
pub(crate) fn needed_string(
    alloc: Global,
    fields: &SpelledList<'_>,
    place: u8,
) -> Result<ByteText, Stop<PerfFault>>
    ensures { Gives a_string result (leaf_field field.string mandatory place
        (trees_of fields.now)) }
{
    match scalar_at(alloc, fields, place)? {
        Some(Value10::Null) => Err(missing(place)),
        Some(Value10::String(text)) => Ok(text),
        _ => Err(wrong_type(place)),
    }
}

/// A string that may be absent.
#[tactic(auto, using(crate::proofs::Scalars::no_field), unfolding(crate::specs::Fields::leaf_in, crate::specs::Fields::field_in))]
pub(crate) fn string_at(
    alloc: Global,
    fields: &SpelledList<'_>,
    place: u8,
) -> Result<Option<ByteText>, Stop<PerfFault>>
    ensures { Gives (maybe a_string) result (leaf_field field.string optional place
        (trees_of fields.now)) }
{
    match scalar_at(alloc, fields, place)? {
        Some(Value10::Null) => Ok(None),
        Some(Value10::String(text)) => Ok(Some(text)),
        _ => Err(wrong_type(place)),
    }
}

/// A symbol that must be there.
#[tactic(auto, using(crate::proofs::Scalars::no_field), unfolding(crate::specs::Fields::leaf_in, crate::specs::Fields::field_in))]
pub(crate) fn needed_symbol(
    alloc: Global,
    fields: &SpelledList<'_>,
    place: u8,
) -> Result<ByteText, Stop<PerfFault>>
    ensures { Gives a_symbol result (leaf_field field.symbol mandatory place
        (trees_of fields.now)) }
{
    match scalar_at(alloc, fields, place)? {
        Some(Value10::Null) => Err(missing(place)),
        Some(Value10::Symbol(text)) => Ok(text),
        _ => Err(wrong_type(place)),
    }
}

/// A symbol that may be absent.
#[tactic(auto, using(crate::proofs::Scalars::no_field), unfolding(crate::specs::Fields::leaf_in, crate::specs::Fields::field_in))]
pub(crate) fn symbol_at(
    alloc: Global,
    fields: &SpelledList<'_>,
    place: u8,
) -> Result<Option<ByteText>, Stop<PerfFault>>
    ensures { Gives (maybe a_symbol) result (leaf_field field.symbol optional place
        (trees_of fields.now)) }
{
    match scalar_at(alloc, fields, place)? {
        Some(Value10::Null) => Ok(None),
        Some(Value10::Symbol(text)) => Ok(Some(text)),
        _ => Err(wrong_type(place)),
    }
}

// ---- other types

/// Symbols that must be there, as the value that they are.
#[tactic(auto, unfolding(crate::specs::Fields::leaf_in, crate::specs::Fields::field_in))]
pub(crate) fn needed_symbols(
    alloc: Global,
    fields: &SpelledList<'_>,
    place: u8,
) -> Result<Value10, Stop<PerfFault>>
    ensures { Gives value_tree result (leaf_field field.symbols mandatory place
        (trees_of fields.now)) }
{
    let Some(value) = there(alloc, fields, place)? else {
        return Err(missing(place));
    };
    if !is_multiple(&value) {
        return Err(wrong_type(place));
    }
    Ok(value.read(alloc)?)
}

/// Symbols that may be absent.
#[tactic(auto, unfolding(crate::specs::Fields::leaf_in, crate::specs::Fields::field_in))]
pub(crate) fn symbols_at(
    alloc: Global,
    fields: &SpelledList<'_>,
    place: u8,
) -> Result<Option<Spelling10>, Stop<PerfFault>>
    ensures { Gives (maybe a_value) result (leaf_field field.symbols optional place
        (trees_of fields.now)) }
{
    let Some(value) = there(alloc, fields, place)? else {
        return Ok(None);
    };
    if !is_multiple(&value) {
        return Err(wrong_type(place));
    }
    Ok(Some(value.keep(alloc)?))
}

/// A map that may be absent.
#[tactic(auto, using(crate::proofs::Scalars::maps, crate::proofs::Scalars::no_maps), unfolding(crate::specs::Fields::leaf_in, crate::specs::Fields::field_in))]
pub(crate) fn mapping_at(
    alloc: Global,
    fields: &SpelledList<'_>,
    place: u8,
) -> Result<Option<Spelling10>, Stop<PerfFault>>
    ensures { Gives (maybe a_value) result (leaf_field field.mapping optional place
        (trees_of fields.now)) }
{
    let Some(value) = there(alloc, fields, place)? else {
        return Ok(None);
    };
    if !value.is_map() {
        return Err(wrong_type(place));
    }
    Ok(Some(value.keep(alloc)?))
}

/// Any value, which may be absent.
#[tactic(auto, unfolding(crate::specs::Fields::leaf_in, crate::specs::Fields::field_in))]
pub(crate) fn anything_at(
    alloc: Global,
    fields: &SpelledList<'_>,
    place: u8,
) -> Result<Option<Spelling10>, Stop<PerfFault>>
    ensures { Gives (maybe a_value) result (leaf_field field.anything optional place
        (trees_of fields.now)) }
{
    match there(alloc, fields, place)? {
        None => Ok(None),
        Some(value) => Ok(Some(value.keep(alloc)?)),
    }
}

/// An address; one that is no string is absent.
#[tactic(auto, using(crate::proofs::Scalars::no_address, crate::proofs::Scalars::not_absent), unfolding(crate::specs::Fields::leaf_in, crate::specs::Fields::field_in))]
pub(crate) fn address_at(
    alloc: Global,
    fields: &SpelledList<'_>,
    place: u8,
) -> Result<Option<ByteText>, Stop<PerfFault>>
    ensures { Gives (maybe a_string) result (leaf_field field.address optional place
        (trees_of fields.now)) }
{
    match scalar_at(alloc, fields, place)? {
        Some(Value10::String(text)) => Ok(Some(text)),
        _ => Ok(None),
    }
}

/// An error that may be absent.
#[tactic(auto, unfolding(crate::specs::Fields::field_in))]
pub(crate) fn error_at(
    alloc: Global,
    fields: &SpelledList<'_>,
    place: u8,
) -> Result<Option<Error10>, Stop<PerfFault>>
    ensures { Gives (maybe error_tree) result (part_field error_in place (trees_of fields.now)) }
{
    let Some(value) = there(alloc, fields, place)? else {
        return Ok(None);
    };
    match error_from(alloc, &value)? {
        Some(error) => Ok(Some(error)),
        None => Err(wrong_type(place)),
    }
}

/// The state of a delivery that may be absent.
#[tactic(auto, unfolding(crate::specs::Fields::field_in))]
pub(crate) fn state_at(
    alloc: Global,
    fields: &SpelledList<'_>,
    place: u8,
) -> Result<Option<State>, Stop<PerfFault>>
    ensures { Gives (maybe state_tree) result (part_field state_in place (trees_of fields.now)) }
{
    let Some(value) = there(alloc, fields, place)? else {
        return Ok(None);
    };
    match state_from(alloc, &value)? {
        Some(state) => Ok(Some(state)),
        None => Err(wrong_type(place)),
    }
}

/// A source that may be absent.
#[tactic(auto, unfolding(crate::specs::Fields::field_in))]
pub(crate) fn source_at(
    alloc: Global,
    fields: &SpelledList<'_>,
    place: u8,
) -> Result<Option<Source10>, Stop<PerfFault>>
    ensures { Gives (maybe source_tree) result (part_field source_in place (trees_of fields.now)) }
{
    let Some(value) = there(alloc, fields, place)? else {
        return Ok(None);
    };
    match source_from(alloc, &value)? {
        Some(source) => Ok(Some(source)),
        None => Err(wrong_type(place)),
    }
}

/// A target that may be absent.
#[tactic(auto, unfolding(crate::specs::Fields::field_in))]
pub(crate) fn target_at(
    alloc: Global,
    fields: &SpelledList<'_>,
    place: u8,
) -> Result<Option<Target10>, Stop<PerfFault>>
    ensures { Gives (maybe target_tree) result (part_field target_in place (trees_of fields.now)) }
{
    let Some(value) = there(alloc, fields, place)? else {
        return Ok(None);
    };
    match target_from(alloc, &value)? {
        Some(target) => Ok(Some(target)),
        None => Err(wrong_type(place)),
    }
}
