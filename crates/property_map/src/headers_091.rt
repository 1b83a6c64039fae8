//! The property headers of AMQP 0-9-1, of properties of the application and of an annotation.

ghost use Rattle.std.specs.Prelude.{◌≡◌, [], option_map, IfOk};
ghost use Rattle.wire_base.specs.Reading.{Gives};
ghost use Rattle.tables_091.specs.Tree.{members_of};
ghost use Rattle.types_10.specs.View.{value_tree};
ghost use Rattle.property_map.specs.Fields.{members_in, unreserved, names_of};
ghost use Rattle.property_map.specs.Names.{Holds};
ghost use Rattle.property_map.specs.Rows091.{pairs_in_map, one_table_in, headers_row};

use crate::annotations::{HEADERS, annotation, map_pairs};
use crate::fault::{MapFault, PropName};
use crate::fields::{NamedTable, no_entries, with_pairs};
use std::alloc::Global;
use tables_091::Table;
use types_10::Value10;
use wire_base::Stop;

/// The properties of the application as a table, but for those whose names stand for something
/// else.
fn properties_of(alloc: Global, application: &Option<Value10>) -> Result<NamedTable, Stop<MapFault>>
    ensures table { Gives (λ t. members_of t.table) result
        (members_in [] (unreserved (pairs_in_map (option_map value_tree application.now)))) }
    ensures names { IfOk result (λ t. Holds t.names (names_of t.table)) }
{
    let Some(pairs) = map_pairs(application) else {
        return Ok(no_entries(alloc));
    };
    with_pairs(alloc, no_entries(alloc), pairs, true)
}

/// The properties of the application, and then the map of an annotation, as one table.
#[tactic(auto, unfolding(crate::specs::Rows091::one_table_in))]
fn table_of(
    alloc: Global,
    application: &Option<Value10>,
    nested: Option<&Value10>,
) -> Result<Table, Stop<MapFault>>
    ensures { Gives (λ t. t) result
        (one_table_in (option_map value_tree application.now)
        (option_map (λ v. value_tree v.now) nested.entry)) }
{
    let named = properties_of(alloc, application)?;
    let Some(nested) = nested else {
        return Ok(named.into_table());
    };
    match nested {
        Value10::Map(pairs) => Ok(with_pairs(alloc, named, pairs, false)?.into_table()),
        _ => Err(Stop::Fault(MapFault::ValueKind(PropName::Headers))),
    }
}

/// The headers, where either is there.
pub(crate) fn headers_of(
    alloc: Global,
    application: &Option<Value10>,
    annotations: &Option<Value10>,
) -> Result<Option<Table>, Stop<MapFault>>
    ensures { Gives (λ t. t) result
        (headers_row (option_map value_tree application.now)
        (option_map value_tree annotations.now)) }
{
    let nested = annotation(annotations, HEADERS);
    if application.is_none() && nested.is_none() {
        return Ok(None);
    }
    Ok(Some(table_of(alloc, application, nested)?))
}
