//! Fields of AMQP 0-9-1 as values of AMQP 1.0.

ghost use Rattle.std.specs.Prelude.{ℕ, List, [], ◌∷◌, ◌++◌, OnOk};
ghost use Rattle.wire_base.specs.Reading.{Gives};
ghost use Rattle.tables_091.specs.Tree as field;
ghost use Rattle.tables_091.specs.View.{field_tree};
ghost use Rattle.types_10.specs.Tree.{trees_of, pairs_of};
ghost use Rattle.types_10.specs.View.{value_tree};
ghost use Rattle.property_map.specs.Names.{Holds};
ghost use Rattle.property_map.specs.Values.{name_in, value_in, values_in, pairs_in};

use crate::fault::{MapFault, PropName};
use crate::names::Names;
use crate::texts::{milliseconds_of, string_of};
use std::alloc::Global;
use tables_091::{Field, FieldList, Table};
use types_10::{PairList, Value10, ValueList};
use wire_base::{ByteText, Stop};

/// The name of an entry as a key, after those that are there.
fn key_of(alloc: Global, names: &mut Names, name: &ByteText) -> Result<ByteText, Stop<MapFault>>
    ensures gives { (before : List (List ℕ)) → Holds names.old before
        → Gives (λ s. s) result (name_in before name.now) }
    ensures more { (before : List (List ℕ)) → Holds names.old before
        → OnOk result (Holds names.new (before ++ name.now ∷ [])) }
{
    let key = string_of(alloc, PropName::Headers, name)?;
    names.add_new(alloc, key)
}

/// A field as a value.
#[cycle(value)]
#[tactic(auto, unfolding(crate::specs::Values::value_in))]
pub(crate) fn value_of(alloc: Global, field: &Field) -> Result<Value10, Stop<MapFault>>
    ensures { Gives value_tree result (value_in (field_tree field.now)) }
{
    match field {
        Field::Bool(b) => Ok(Value10::Boolean(*b)),
        Field::I8(n) => Ok(Value10::Byte(*n)),
        Field::U8(n) => Ok(Value10::Ubyte(*n)),
        Field::I16(n) => Ok(Value10::Short(*n)),
        Field::U16(n) => Ok(Value10::Ushort(*n)),
        Field::I32(n) => Ok(Value10::Int(*n)),
        Field::U32(n) => Ok(Value10::Uint(*n)),
        Field::I64(n) => Ok(Value10::Long(*n)),
        Field::F32(bits) => Ok(Value10::Float(*bits)),
        Field::F64(bits) => Ok(Value10::Double(*bits)),
        Field::Decimal(_, _) => Err(Stop::Fault(MapFault::ValueKind(PropName::Headers))),
        Field::Long(text) => Ok(Value10::String(string_of(alloc, PropName::Headers, text)?)),
        Field::Array(list) => Ok(Value10::List(values_of(alloc, list)?)),
        Field::Time(n) => Ok(Value10::Timestamp(milliseconds_of(PropName::Headers, *n)?)),
        Field::Table(table) => Ok(Value10::Map(pairs_of(alloc, table)?)),
        Field::Void => Ok(Value10::Null),
        Field::Bytes(bytes) => Ok(Value10::Binary(bytes.copy(alloc)?)),
    }
}

/// The fields of an array as values, in order.
#[cycle(value)]
fn values_of(alloc: Global, list: &FieldList) -> Result<ValueList, Stop<MapFault>>
    ensures { Gives (λ us. trees_of us) result (values_in (field.trees_of list.now)) }
{
    let mut values = ValueList::empty(alloc);
    let mut k = 0;
    while k < list.len() {
        let Some(field) = list.get(k) else {
            break;
        };
        values.push(value_of(alloc, field)?)?;
        k += 1;
    }
    Ok(values)
}

/// The entries of a table as pairs, in order.
#[cycle(value)]
fn pairs_of(alloc: Global, table: &Table) -> Result<PairList, Stop<MapFault>>
    ensures { Gives (λ ps. pairs_of ps) result (pairs_in [] (field.members_of table.now)) }
{
    let mut names = Names::empty(alloc);
    let mut pairs = PairList::empty(alloc);
    let mut k = 0;
    while k < table.len() {
        let Some((name, field)) = table.get(k) else {
            break;
        };
        let key = key_of(alloc, &mut names, name)?;
        let value = value_of(alloc, field)?;
        pairs.push((Value10::String(key), value))?;
        k += 1;
    }
    Ok(pairs)
}
