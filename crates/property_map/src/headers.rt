//! The property headers in AMQP 1.0.

ghost use Rattle.std.specs.Prelude.{◌≡◌, ℕ, nat_le, List, [], ◌∷◌, ◌++◌, OnOk};
ghost use Rattle.wire_base.specs.Reading.{Gives};
ghost use Rattle.tables_091.specs.Tree.{depth, list_depth, entries_depth};
ghost use Rattle.tables_091.specs.View.{field_tree};
ghost use Rattle.property_map.specs.Headers.{header_name_in, holds_others, headers_in, table_in};
ghost use Rattle.property_map.specs.Names.{Holds};
ghost use Rattle.property_map.specs.Rows.{headers_row};

use crate::fault::{MapFault, PropName};
use crate::names::Names;
use crate::texts::{is_reserved, string_of};
use crate::values::value_of;
use std::alloc::Global;
use tables_091::{Field, FieldList, Table};
use types_10::{PairList, Value10};
use wire_base::{ByteText, Stop};

/// The greatest depth of what a table holds that leaves room for the maps around it.
const MOST_INSIDE: u8 = 14;

/// The headers in AMQP 1.0, in order.
#[derive(Drop)]
pub(crate) struct HeaderMaps {
    /// Headers that hold no others: properties of the application
    pub(crate) application: PairList,
    /// Headers that hold others: a map under an annotation
    pub(crate) annotation: PairList,
}

// ---- depth

/// Whether a field has at most this depth.
#[cycle(within)]
fn is_within(field: &Field, most: u8) -> bool
    ensures { result ≡ nat_le (depth (field_tree field.now)) most }
{
    match field {
        Field::Array(list) => most > 0 && list_is_within(list, most - 1),
        Field::Table(table) => most > 0 && table_is_within(table, most - 1),
        _ => true,
    }
}

/// Whether each field of a list has at most this depth.
#[cycle(within)]
fn list_is_within(list: &FieldList, most: u8) -> bool
    ensures { result ≡ nat_le (list_depth list.now) most }
{
    let mut k = 0;
    while k < list.len() {
        let Some(field) = list.get(k) else {
            break;
        };
        if !is_within(field, most) {
            return false;
        }
        k += 1;
    }
    true
}

/// Whether each field of a table has at most this depth.
#[cycle(within)]
fn table_is_within(table: &Table, most: u8) -> bool
    ensures { result ≡ nat_le (entries_depth table.now) most }
{
    let mut k = 0;
    while k < table.len() {
        let Some((_, field)) = table.get(k) else {
            break;
        };
        if !is_within(field, most) {
            return false;
        }
        k += 1;
    }
    true
}

// ---- headers

/// The name of a header as a key, after those that are there.
fn header_key(alloc: Global, names: &mut Names, name: &ByteText) -> Result<ByteText, Stop<MapFault>>
    ensures gives { (before : List (List ℕ)) → Holds names.old before
        → Gives (λ s. s) result (header_name_in before name.now) }
    ensures more { (before : List (List ℕ)) → Holds names.old before
        → OnOk result (Holds names.new (before ++ name.now ∷ [])) }
{
    let key = string_of(alloc, PropName::Headers, name)?;
    if is_reserved(key.as_slice()) {
        return Err(Stop::Fault(MapFault::Reserved(key)));
    }
    names.add_new(alloc, key)
}

/// Whether a field holds others.
fn holds_others(field: &Field) -> bool
    ensures { result ≡ holds_others (field_tree field.now) }
{
    matches!(field, Field::Array(_) | Field::Table(_))
}

/// All headers, in order.
fn maps_of(alloc: Global, table: &Table) -> Result<HeaderMaps, Stop<MapFault>>
    ensures { Gives (λ maps. maps) result (headers_in [] table.now) }
{
    let mut names = Names::empty(alloc);
    let mut application = PairList::empty(alloc);
    let mut annotation = PairList::empty(alloc);
    let mut k = 0;
    while k < table.len() {
        let Some((name, field)) = table.get(k) else {
            break;
        };
        let key = header_key(alloc, &mut names, name)?;
        let value = value_of(alloc, field)?;
        if holds_others(field) {
            annotation.push((Value10::String(key), value))?;
        } else {
            application.push((Value10::String(key), value))?;
        }
        k += 1;
    }
    Ok(HeaderMaps {
        application,
        annotation,
    })
}

/// Headers whose depth leaves room for the maps around them.
#[tactic(auto, unfolding(crate::specs::Headers::table_in))]
fn checked_maps(alloc: Global, table: &Table) -> Result<HeaderMaps, Stop<MapFault>>
    ensures { Gives (λ maps. maps) result (table_in table.now) }
{
    let maps = maps_of(alloc, table)?;
    if !table_is_within(table, MOST_INSIDE) {
        return Err(Stop::Fault(MapFault::Depth));
    }
    Ok(maps)
}

/// The headers, where they are there.
pub(crate) fn headers_of(
    alloc: Global,
    headers: &Option<Table>,
) -> Result<Option<HeaderMaps>, Stop<MapFault>>
    ensures { Gives (λ maps. maps) result (headers_row headers.now) }
{
    match headers {
        Some(table) => Ok(Some(checked_maps(alloc, table)?)),
        None => Ok(None),
    }
}
