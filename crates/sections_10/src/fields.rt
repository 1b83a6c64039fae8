//! The fields of a list, by their place (AMQP 1.0 1.4). A field past the end of the list is absent,
//! and so is null.

ghost use Rattle.std.specs.Prelude.{◌≡◌};
ghost use Rattle.wire_base.specs.Reading.{Gives};
ghost use Rattle.types_10.specs.Tree.{trees_of};
ghost use Rattle.types_10.specs.View.{value_tree};
ghost use Rattle.types_10.specs.Fields.{maybe, absent, a_boolean, a_ubyte, a_uint, a_timestamp};
ghost use Rattle.types_10.specs.Fields.{a_binary, a_string, a_symbol, tree_at};
ghost use Rattle.sections_10.specs.Fields.{may};
ghost use Rattle.sections_10.specs.Fields.{field_at};
ghost use Rattle.sections_10.specs.Fields as field;

use std::alloc::Global;
use types_10::{Value10, ValueList};
use wire_base::{ByteText, Stop};

/// The value at a place.
fn value_at(fields: &ValueList, place: usize) -> Option<&Value10>
    ensures { maybe (λ v. value_tree v.now) result ≡ tree_at (trees_of fields.now) place }
{
    fields.get(place)
}

/// A boolean that may be absent.
#[tactic(auto, unfolding(crate::specs::Fields::leaf_in, crate::specs::Fields::field_in))]
pub(crate) fn boolean_at(fields: &ValueList, place: usize) -> Result<Option<bool>, Stop<()>>
    ensures { Gives (maybe a_boolean) result (field_at (may field.boolean) place
        (trees_of fields.now)) }
{
    match value_at(fields, place) {
        None | Some(Value10::Null) => Ok(None),
        Some(Value10::Boolean(n)) => Ok(Some(*n)),
        Some(_) => Err(Stop::Fault(())),
    }
}

/// A boolean that is this one where it is absent.
#[tactic(auto, unfolding(crate::specs::Fields::leaf_in, crate::specs::Fields::field_in))]
pub(crate) fn boolean_or(fields: &ValueList, place: usize, default: bool) -> Result<bool, Stop<()>>
    ensures { Gives a_boolean result (field_at (field.boolean, a_boolean default) place
        (trees_of fields.now)) }
{
    match value_at(fields, place) {
        None | Some(Value10::Null) => Ok(default),
        Some(Value10::Boolean(n)) => Ok(*n),
        Some(_) => Err(Stop::Fault(())),
    }
}

/// An ubyte that may be absent.
#[tactic(auto, unfolding(crate::specs::Fields::leaf_in, crate::specs::Fields::field_in))]
pub(crate) fn ubyte_at(fields: &ValueList, place: usize) -> Result<Option<u8>, Stop<()>>
    ensures { Gives (maybe a_ubyte) result (field_at (may field.ubyte) place
        (trees_of fields.now)) }
{
    match value_at(fields, place) {
        None | Some(Value10::Null) => Ok(None),
        Some(Value10::Ubyte(n)) => Ok(Some(*n)),
        Some(_) => Err(Stop::Fault(())),
    }
}

/// An uint that may be absent.
#[tactic(auto, unfolding(crate::specs::Fields::leaf_in, crate::specs::Fields::field_in))]
pub(crate) fn uint_at(fields: &ValueList, place: usize) -> Result<Option<u32>, Stop<()>>
    ensures { Gives (maybe a_uint) result (field_at (may field.uint) place (trees_of fields.now)) }
{
    match value_at(fields, place) {
        None | Some(Value10::Null) => Ok(None),
        Some(Value10::Uint(n)) => Ok(Some(*n)),
        Some(_) => Err(Stop::Fault(())),
    }
}

/// An uint that is this one where it is absent.
#[tactic(auto, unfolding(crate::specs::Fields::leaf_in, crate::specs::Fields::field_in))]
pub(crate) fn uint_or(fields: &ValueList, place: usize, default: u32) -> Result<u32, Stop<()>>
    ensures { Gives a_uint result (field_at (field.uint, a_uint default) place
        (trees_of fields.now)) }
{
    match value_at(fields, place) {
        None | Some(Value10::Null) => Ok(default),
        Some(Value10::Uint(n)) => Ok(*n),
        Some(_) => Err(Stop::Fault(())),
    }
}

/// A timestamp that may be absent.
#[tactic(auto, unfolding(crate::specs::Fields::leaf_in, crate::specs::Fields::field_in))]
pub(crate) fn timestamp_at(fields: &ValueList, place: usize) -> Result<Option<i64>, Stop<()>>
    ensures { Gives (maybe a_timestamp) result (field_at (may field.timestamp) place
        (trees_of fields.now)) }
{
    match value_at(fields, place) {
        None | Some(Value10::Null) => Ok(None),
        Some(Value10::Timestamp(n)) => Ok(Some(*n)),
        Some(_) => Err(Stop::Fault(())),
    }
}

/// A binary that may be absent.
#[tactic(auto, unfolding(crate::specs::Fields::leaf_in, crate::specs::Fields::field_in))]
pub(crate) fn binary_at(
    alloc: Global,
    fields: &ValueList,
    place: usize,
) -> Result<Option<ByteText>, Stop<()>>
    ensures { Gives (maybe a_binary) result (field_at (may field.binary) place
        (trees_of fields.now)) }
{
    match value_at(fields, place) {
        None | Some(Value10::Null) => Ok(None),
        Some(Value10::Binary(text)) => Ok(Some(text.copy(alloc)?)),
        Some(_) => Err(Stop::Fault(())),
    }
}

/// A string that may be absent.
#[tactic(auto, unfolding(crate::specs::Fields::leaf_in, crate::specs::Fields::field_in))]
pub(crate) fn string_at(
    alloc: Global,
    fields: &ValueList,
    place: usize,
) -> Result<Option<ByteText>, Stop<()>>
    ensures { Gives (maybe a_string) result (field_at (may field.string) place
        (trees_of fields.now)) }
{
    match value_at(fields, place) {
        None | Some(Value10::Null) => Ok(None),
        Some(Value10::String(text)) => Ok(Some(text.copy(alloc)?)),
        Some(_) => Err(Stop::Fault(())),
    }
}

/// A symbol that may be absent.
#[tactic(auto, unfolding(crate::specs::Fields::leaf_in, crate::specs::Fields::field_in))]
pub(crate) fn symbol_at(
    alloc: Global,
    fields: &ValueList,
    place: usize,
) -> Result<Option<ByteText>, Stop<()>>
    ensures { Gives (maybe a_symbol) result (field_at (may field.symbol) place
        (trees_of fields.now)) }
{
    match value_at(fields, place) {
        None | Some(Value10::Null) => Ok(None),
        Some(Value10::Symbol(text)) => Ok(Some(text.copy(alloc)?)),
        Some(_) => Err(Stop::Fault(())),
    }
}

/// An address; of another type than string it is absent.
#[tactic(auto, unfolding(crate::specs::Fields::leaf_in, crate::specs::Fields::field_in))]
pub(crate) fn address_at(
    alloc: Global,
    fields: &ValueList,
    place: usize,
) -> Result<Option<ByteText>, Stop<()>>
    ensures { Gives (maybe a_string) result (field_at (may field.address) place
        (trees_of fields.now)) }
{
    match value_at(fields, place) {
        Some(Value10::String(text)) => Ok(Some(text.copy(alloc)?)),
        _ => Ok(None),
    }
}

/// An id of a message: an ulong, a uuid, a binary or a string.
#[tactic(auto, unfolding(crate::specs::Fields::leaf_in, crate::specs::Fields::field_in))]
pub(crate) fn id_at(
    alloc: Global,
    fields: &ValueList,
    place: usize,
) -> Result<Option<Value10>, Stop<()>>
    ensures { Gives (maybe value_tree) result (field_at (may field.id) place
        (trees_of fields.now)) }
{
    match value_at(fields, place) {
        None | Some(Value10::Null) => Ok(None),
        Some(Value10::Ulong(n)) => Ok(Some(Value10::Ulong(*n))),
        Some(Value10::Uuid(id)) => Ok(Some(Value10::Uuid(*id))),
        Some(Value10::Binary(text)) => Ok(Some(Value10::Binary(text.copy(alloc)?))),
        Some(Value10::String(text)) => Ok(Some(Value10::String(text.copy(alloc)?))),
        Some(_) => Err(Stop::Fault(())),
    }
}
