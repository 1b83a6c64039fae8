//! The sections of a message (AMQP 1.0 3.2), each by itself: a descriptor, and a value of its kind.
//!
//! Offsets are in bytes from the front of the input. A section that isn't there leaves the offset
//! as it is.

ghost use Rattle.std.specs.Prelude.{◌≡◌, IfOk, option_map};
ghost use Rattle.wire_base.specs.Reading.{Gives};
ghost use Rattle.types_10.specs.Tree.{pairs_of};
ghost use Rattle.types_10.specs.View.{value_tree};
ghost use Rattle.types_10.specs.Reading.{value_at};
ghost use Rattle.types_10.specs.Fields.{a_binary};
ghost use Rattle.sections_10.specs.Rows.{header_section, properties_section};
ghost use Rattle.sections_10.specs.Rows.{data_section, sequence_section, value_section};
ghost use Rattle.sections_10.specs.View.{header_tree, props_tree};
ghost use Rattle.sections_10.specs.Reading.{is_key_of, key_at, keys_are, kind_of, meaning_in};
ghost use Rattle.sections_10.specs.Reading.{value_in, without_fault, code_at, if_code, located_at};
ghost use Rattle.sections_10.specs.Reading.{section_in, stands_in};

use crate::fields::{boolean_at, boolean_or, ubyte_at, uint_at, uint_or};
use crate::message::{MsgHeader, MsgProps};
use crate::properties::fields_from;
use std::alloc::Global;
use types_10::{PairList, Value10, read_value};
use wire_base::{ByteText, Memory, Stop};

/// The codes of sections.
pub(crate) const HEADER: u8 = 0x70;

pub(crate) const DELIVERY_ANNOTATIONS: u8 = 0x71;

pub(crate) const MESSAGE_ANNOTATIONS: u8 = 0x72;

pub(crate) const PROPERTIES: u8 = 0x73;

pub(crate) const APPLICATION_PROPERTIES: u8 = 0x74;

pub(crate) const DATA: u8 = 0x75;

const SEQUENCE: u8 = 0x76;

const VALUE: u8 = 0x77;

pub(crate) const FOOTER: u8 = 0x78;

// ---- descriptors and values

/// The code that describes the value at an offset, and the offset behind it; `None` where none
/// does.
#[tactic(auto, unfolding(crate::specs::Reading::code_at))]
pub(crate) fn code_of(
    alloc: Global,
    bytes: &[u8],
    at: usize,
) -> Result<Option<(u64, usize)>, Memory>
    ensures { IfOk result (λ code. code ≡ code_at bytes.now at) }
{
    if at >= bytes.len() || bytes[at] != 0 {
        return Ok(None);
    }
    match read_value(alloc, bytes, at + 1)? {
        Ok((Value10::Ulong(code), after)) => Ok(Some((code, after))),
        _ => Ok(None),
    }
}

/// The offset behind this code, where it stands there.
fn behind(alloc: Global, bytes: &[u8], at: usize, code: u8) -> Result<Option<usize>, Memory>
    ensures { IfOk result (λ after. after ≡ if_code code (code_at bytes.now at)) }
{
    match code_of(alloc, bytes, at)? {
        Some((found, after)) if found == u64::from(code) => Ok(Some(after)),
        _ => Ok(None),
    }
}

/// The value at an offset, and the offset behind it.
fn value_of(alloc: Global, bytes: &[u8], at: usize) -> Result<(Value10, usize), Stop<()>>
    ensures { Gives (λ x. (value_tree x.0, x.1)) result (without_fault (value_at bytes.now at)) }
{
    match read_value(alloc, bytes, at)? {
        Ok(read) => Ok(read),
        Err(_) => Err(Stop::Fault(())),
    }
}

// ---- lists of fields

/// The fields of a header.
#[tactic(auto, unfolding(crate::specs::Reading::meaning_in))]
fn header_from(value: &Value10) -> Result<MsgHeader, Stop<()>>
    ensures { Gives header_tree result (meaning_in header_section.1 (value_tree value.now)) }
{
    let Value10::List(fields) = value else {
        return Err(Stop::Fault(()));
    };
    Ok(MsgHeader {
        durable: boolean_at(fields, 0)?,
        priority: ubyte_at(fields, 1)?,
        ttl: uint_at(fields, 2)?,
        first_acquirer: boolean_or(fields, 3, false)?,
        delivery_count: uint_or(fields, 4, 0)?,
    })
}

/// The fields of properties.
#[tactic(auto, unfolding(crate::specs::Reading::meaning_in))]
fn properties_from(alloc: Global, value: &Value10) -> Result<MsgProps, Stop<()>>
    ensures { Gives props_tree result (meaning_in properties_section.1 (value_tree value.now)) }
{
    let Value10::List(fields) = value else {
        return Err(Stop::Fault(()));
    };
    fields_from(alloc, fields)
}

// ---- maps

/// What the keys of a map are to be.
#[derive(Clone, Copy)]
pub(crate) enum Keys {
    /// Symbols and ulongs
    Annotations,
    Strings,
    Any,
}

/// Whether a key is such a one.
fn is_key(keys: Keys, key: &Value10) -> bool
    ensures { result ≡ is_key_of keys (value_tree key.now) }
{
    match keys {
        Keys::Annotations => matches!(key, Value10::Symbol(_) | Value10::Ulong(_)),
        Keys::Strings => matches!(key, Value10::String(_)),
        Keys::Any => true,
    }
}

/// Whether the key at a place is such a one.
fn is_key_at(keys: Keys, pairs: &PairList, place: usize) -> bool
    ensures { result ≡ key_at keys pairs.now place }
{
    match pairs.get(place) {
        Some((key, _)) => is_key(keys, key),
        None => true,
    }
}

/// Whether all keys are such.
fn are_keys(keys: Keys, pairs: &PairList) -> bool
    ensures { result ≡ keys_are (is_key_of keys) (pairs_of pairs.now) }
{
    let mut place = 0;
    while place < pairs.len() {
        if !is_key_at(keys, pairs, place) {
            return false;
        }
        place += 1;
    }
    true
}

/// A map with such keys.
#[tactic(auto, unfolding(crate::specs::Reading::map_with, crate::specs::Reading::meaning_in))]
fn map_from(keys: Keys, value: Value10) -> Result<Value10, Stop<()>>
    ensures { Gives value_tree result (meaning_in (kind_of keys) (value_tree value)) }
{
    let is_right = match &value {
        Value10::Map(pairs) => are_keys(keys, pairs),
        _ => false,
    };
    if is_right {
        Ok(value)
    } else {
        Err(Stop::Fault(()))
    }
}

// ---- sections

/// A section whose value was read or is at fault.
fn located<T: Drop>(
    read: Result<(T, usize), Stop<()>>,
    at: usize,
) -> Result<(Option<T>, usize), Stop<usize>>
    ensures { result ≡ located_at at read }
{
    match read {
        Ok((value, after)) => Ok((Some(value), after)),
        Err(Stop::Memory) => Err(Stop::Memory),
        Err(Stop::Fault(())) => Err(Stop::Fault(at)),
    }
}

/// The fields of a header at an offset, and the offset behind them.
fn header_behind(alloc: Global, bytes: &[u8], at: usize) -> Result<(MsgHeader, usize), Stop<()>>
    ensures { Gives (λ x. (header_tree x.0, x.1)) result (value_in header_section.1 bytes.now at) }
{
    let (value, after) = value_of(alloc, bytes, at)?;
    Ok((header_from(&value)?, after))
}

/// A header.
#[tactic(auto, unfolding(crate::specs::Reading::section_in))]
pub(crate) fn header_in(
    alloc: Global,
    bytes: &[u8],
    at: usize,
) -> Result<(Option<MsgHeader>, usize), Stop<usize>>
    ensures { Gives (λ x. (option_map header_tree x.0, x.1)) result
        (section_in header_section bytes.now at) }
{
    match behind(alloc, bytes, at, HEADER)? {
        Some(after) => located(header_behind(alloc, bytes, after), at),
        None => Ok((None, at)),
    }
}

/// The fields of properties at an offset, and the offset behind them.
fn properties_behind(alloc: Global, bytes: &[u8], at: usize) -> Result<(MsgProps, usize), Stop<()>>
    ensures { Gives (λ x. (props_tree x.0, x.1)) result
        (value_in properties_section.1 bytes.now at) }
{
    let (value, after) = value_of(alloc, bytes, at)?;
    Ok((properties_from(alloc, &value)?, after))
}

/// Properties.
#[tactic(auto, unfolding(crate::specs::Reading::section_in))]
pub(crate) fn properties_in(
    alloc: Global,
    bytes: &[u8],
    at: usize,
) -> Result<(Option<MsgProps>, usize), Stop<usize>>
    ensures { Gives (λ x. (option_map props_tree x.0, x.1)) result
        (section_in properties_section bytes.now at) }
{
    match behind(alloc, bytes, at, PROPERTIES)? {
        Some(after) => located(properties_behind(alloc, bytes, after), at),
        None => Ok((None, at)),
    }
}

/// A map at an offset, and the offset behind it.
fn map_behind(
    alloc: Global,
    keys: Keys,
    bytes: &[u8],
    at: usize,
) -> Result<(Value10, usize), Stop<()>>
    ensures { Gives (λ x. (value_tree x.0, x.1)) result (value_in (kind_of keys) bytes.now at) }
{
    let (value, after) = value_of(alloc, bytes, at)?;
    Ok((map_from(keys, value)?, after))
}

/// A section of this code whose value is a map with such keys.
#[tactic(auto, unfolding(crate::specs::Reading::section_in))]
pub(crate) fn map_in(
    alloc: Global,
    keys: Keys,
    code: u8,
    bytes: &[u8],
    at: usize,
) -> Result<(Option<Value10>, usize), Stop<usize>>
    ensures { Gives (λ x. (option_map value_tree x.0, x.1)) result (section_in
        (code, kind_of keys) bytes.now at) }
{
    match behind(alloc, bytes, at, code)? {
        Some(after) => located(map_behind(alloc, keys, bytes, after), at),
        None => Ok((None, at)),
    }
}

/// The bytes of a data section at an offset, and the offset behind them.
#[tactic(auto, unfolding(crate::specs::Reading::meaning_in))]
fn data_behind(alloc: Global, bytes: &[u8], at: usize) -> Result<(ByteText, usize), Stop<()>>
    ensures { Gives (λ x. (a_binary x.0, x.1)) result (value_in data_section.1 bytes.now at) }
{
    let (value, after) = value_of(alloc, bytes, at)?;
    match value {
        Value10::Binary(data) => Ok((data, after)),
        _ => Err(Stop::Fault(())),
    }
}

/// A data section.
#[tactic(auto, unfolding(crate::specs::Reading::section_in))]
pub(crate) fn data_section_in(
    alloc: Global,
    bytes: &[u8],
    at: usize,
) -> Result<(Option<ByteText>, usize), Stop<usize>>
    ensures { Gives (λ x. (option_map a_binary x.0, x.1)) result
        (section_in data_section bytes.now at) }
{
    match behind(alloc, bytes, at, DATA)? {
        Some(after) => located(data_behind(alloc, bytes, after), at),
        None => Ok((None, at)),
    }
}

/// A list at an offset, and the offset behind it.
#[tactic(auto, unfolding(crate::specs::Reading::meaning_in))]
fn sequence_behind(alloc: Global, bytes: &[u8], at: usize) -> Result<(Value10, usize), Stop<()>>
    ensures { Gives (λ x. (value_tree x.0, x.1)) result (value_in sequence_section.1 bytes.now at) }
{
    let (value, after) = value_of(alloc, bytes, at)?;
    match &value {
        Value10::List(_) => Ok((value, after)),
        _ => Err(Stop::Fault(())),
    }
}

/// A sequence.
#[tactic(auto, unfolding(crate::specs::Reading::section_in))]
fn maybe_sequence_in(
    alloc: Global,
    bytes: &[u8],
    at: usize,
) -> Result<(Option<Value10>, usize), Stop<usize>>
    ensures { Gives (λ x. (option_map value_tree x.0, x.1)) result
        (section_in sequence_section bytes.now at) }
{
    match behind(alloc, bytes, at, SEQUENCE)? {
        Some(after) => located(sequence_behind(alloc, bytes, after), at),
        None => Ok((None, at)),
    }
}

/// Whether a sequence stands at an offset, and the offset behind it.
pub(crate) fn sequence_in(
    alloc: Global,
    bytes: &[u8],
    at: usize,
) -> Result<(bool, usize), Stop<usize>>
    ensures { Gives (λ x. x) result (stands_in sequence_section bytes.now at) }
{
    let (sequence, after) = maybe_sequence_in(alloc, bytes, at)?;
    Ok((sequence.is_some(), after))
}

/// Any value at an offset, and the offset behind it.
#[tactic(auto, unfolding(crate::specs::Reading::meaning_in))]
fn anything_behind(alloc: Global, bytes: &[u8], at: usize) -> Result<(Value10, usize), Stop<()>>
    ensures { Gives (λ x. (value_tree x.0, x.1)) result (value_in value_section.1 bytes.now at) }
{
    let (value, after) = value_of(alloc, bytes, at)?;
    Ok((value, after))
}

/// The section of a body that is one value.
#[tactic(auto, unfolding(crate::specs::Reading::section_in))]
pub(crate) fn value_section_in(
    alloc: Global,
    bytes: &[u8],
    at: usize,
) -> Result<(Option<Value10>, usize), Stop<usize>>
    ensures { Gives (λ x. (option_map value_tree x.0, x.1)) result
        (section_in value_section bytes.now at) }
{
    match behind(alloc, bytes, at, VALUE)? {
        Some(after) => located(anything_behind(alloc, bytes, after), at),
        None => Ok((None, at)),
    }
}
