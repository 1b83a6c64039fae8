//! Values of AMQP 1.0 as fields of AMQP 0-9-1.

ghost use Rattle.std.specs.Prelude.{◌≡◌, ℕ, List, [], ◌∷◌, ◌++◌, decimal, IfOk};
ghost use Rattle.uuid.specs.Text.{hyphenated_text, lower};
ghost use Rattle.wire_base.specs.Reading.{Gives};
ghost use Rattle.tables_091.specs.Tree.{trees_of, members_of};
ghost use Rattle.tables_091.specs.View.{field_tree};
ghost use Rattle.types_10.specs.Tree as value;
ghost use Rattle.types_10.specs.View.{value_tree};
ghost use Rattle.property_map.specs.Names.{Holds};
ghost use Rattle.property_map.specs.Fields.{long_in, char_text_in, key_text_in, entry_name_in};
ghost use Rattle.property_map.specs.Fields.{is_left_out, kept_of, names_of, field_in, fields_in};
ghost use Rattle.property_map.specs.Fields.{members_in, entries_behind};

use crate::fault::{MapFault, PropName};
use crate::names::Names;
use crate::texts::{is_reserved, seconds_of, short_of};
use std::alloc::Global;
use tables_091::{Field, FieldList, Table};
use types_10::{PairList, Value10, ValueList};
use uuid::Uuid;
use wire_base::{ByteText, Memory, Stop};

/// A table, and the names of its entries.
#[derive(Drop)]
pub(crate) struct NamedTable {
    pub(crate) names: Names,
    pub(crate) table: Table,
}

impl NamedTable {
    pub(crate) fn into_table(self) -> Table
        ensures { result ≡ self.table }
    {
        let NamedTable { names: _, table } = self;
        table
    }
}

/// The empty table.
pub(crate) fn no_entries(alloc: Global) -> NamedTable
    ensures table { result.table ≡ [] }
    ensures names { Holds result.names [] }
{
    NamedTable {
        names: Names::empty(alloc),
        table: Table::empty(alloc),
    }
}

// ---- texts

/// A number in decimal.
pub(crate) fn decimal_text(alloc: Global, n: u64) -> Result<ByteText, Memory>
    ensures { IfOk result (λ s. s ≡ decimal n) }
{
    let mut buffer = itoa::Buffer::new();
    ByteText::copy_of(alloc, buffer.format(n).as_bytes())
}

/// A uuid in hexadecimal digits with hyphens.
pub(crate) fn uuid_text(alloc: Global, bytes: &[u8; 16]) -> Result<ByteText, Memory>
    ensures { IfOk result (λ s. s ≡ hyphenated_text lower bytes.now) }
{
    let mut buffer = Uuid::encode_buffer();
    let id = Uuid::from_bytes(*bytes);
    let text = id.hyphenated().encode_lower(&mut buffer);
    ByteText::copy_of(alloc, text.as_bytes())
}

/// A character in UTF-8.
fn char_text(alloc: Global, code: u32) -> Result<ByteText, Stop<MapFault>>
    ensures { Gives (λ s. s) result (char_text_in code) }
{
    let Some(c) = char::from_u32(code) else {
        return Err(Stop::Fault(MapFault::ValueKind(PropName::Headers)));
    };
    let mut buffer = [0; 4];
    let text = c.encode_utf8(&mut buffer);
    Ok(ByteText::copy_of(alloc, text.as_bytes())?)
}

/// An ulong as a long.
fn long_of(n: u64) -> Result<i64, Stop<MapFault>>
    ensures { Gives (λ z. z) result (long_in n) }
{
    match i64::try_from(n) {
        Ok(n) => Ok(n),
        Err(_) => Err(Stop::Fault(MapFault::ValueKind(PropName::Headers))),
    }
}

// ---- names

/// The text of a key.
fn key_text(key: &Value10) -> Result<&[u8], Stop<MapFault>>
    ensures { Gives (λ s. s.now) result (key_text_in (value_tree key.now)) }
{
    match key {
        Value10::String(text) | Value10::Symbol(text) => Ok(text.as_slice()),
        _ => Err(Stop::Fault(MapFault::ValueKind(PropName::Headers))),
    }
}

/// Whether a pair is left out, as its name stands for something else.
fn is_left_out(skips: bool, key: &Value10) -> bool
    ensures { result ≡ is_left_out skips (value_tree key.now) }
{
    match key {
        Value10::String(text) | Value10::Symbol(text) => skips && is_reserved(text.as_slice()),
        _ => false,
    }
}

/// A key as the name of an entry, after those that are there.
fn entry_name(alloc: Global, names: &mut Names, key: &Value10) -> Result<ByteText, Stop<MapFault>>
    ensures gives { (before : List (List ℕ)) → Holds names.old before
        → Gives (λ s. s) result (entry_name_in before (value_tree key.now)) }
    ensures more { (before : List (List ℕ)) → Holds names.old before
        → IfOk result (λ s. Holds names.new (before ++ s ∷ [])) }
{
    let name = short_of(alloc, PropName::Headers, key_text(key)?)?;
    Ok(names.add_new(alloc, name)?)
}

// ---- fields

/// A value as a field.
#[cycle(field)]
#[tactic(auto, unfolding(crate::specs::Fields::field_in))]
fn field_of(alloc: Global, value: &Value10) -> Result<Field, Stop<MapFault>>
    ensures { Gives field_tree result (field_in (value_tree value.now)) }
{
    match value {
        Value10::Null => Ok(Field::Void),
        Value10::Boolean(b) => Ok(Field::Bool(*b)),
        Value10::Ubyte(n) => Ok(Field::U8(*n)),
        Value10::Byte(n) => Ok(Field::I8(*n)),
        Value10::Ushort(n) => Ok(Field::U16(*n)),
        Value10::Short(n) => Ok(Field::I16(*n)),
        Value10::Uint(n) => Ok(Field::U32(*n)),
        Value10::Int(n) => Ok(Field::I32(*n)),
        Value10::Ulong(n) => Ok(Field::I64(long_of(*n)?)),
        Value10::Long(n) => Ok(Field::I64(*n)),
        Value10::Float(bits) => Ok(Field::F32(*bits)),
        Value10::Double(bits) => Ok(Field::F64(*bits)),
        Value10::Char(code) => Ok(Field::Long(char_text(alloc, *code)?)),
        Value10::Timestamp(n) => Ok(Field::Time(seconds_of(PropName::Headers, *n)?)),
        Value10::Uuid(bytes) => Ok(Field::Long(uuid_text(alloc, bytes)?)),
        Value10::Binary(bytes) => Ok(Field::Bytes(bytes.copy(alloc)?)),
        Value10::String(text) | Value10::Symbol(text) => Ok(Field::Long(text.copy(alloc)?)),
        Value10::List(list) | Value10::Array(list) => Ok(Field::Array(fields_of(alloc, list)?)),
        Value10::Map(pairs) => Ok(Field::Table(table_of(alloc, pairs)?)),
        Value10::Decimal32(_)
        | Value10::Decimal64(_)
        | Value10::Decimal128(_)
        | Value10::Described(_, _) => { Err(Stop::Fault(MapFault::ValueKind(PropName::Headers))) }
    }
}

/// The values of a list as fields, in order.
#[cycle(field)]
fn fields_of(alloc: Global, list: &ValueList) -> Result<FieldList, Stop<MapFault>>
    ensures { Gives (λ fs. trees_of fs) result (fields_in (value.trees_of list.now)) }
{
    let mut fields = FieldList::empty(alloc);
    let mut k = 0;
    while k < list.len() {
        let Some(value) = list.get(k) else {
            break;
        };
        fields.push(field_of(alloc, value)?)?;
        k += 1;
    }
    Ok(fields)
}

/// The pairs of a map as a table, in order.
#[cycle(field)]
fn table_of(alloc: Global, pairs: &PairList) -> Result<Table, Stop<MapFault>>
    ensures { Gives (λ t. members_of t) result (members_in [] (value.pairs_of pairs.now)) }
{
    Ok(with_pairs(alloc, no_entries(alloc), pairs, false)?.into_table())
}

/// A table with the pairs of a map behind its entries, in order. Where it `skips`, those whose
/// names stand for something else are left out.
#[cycle(field)]
pub(crate) fn with_pairs(
    alloc: Global,
    named: NamedTable,
    pairs: &PairList,
    skips: bool,
) -> Result<NamedTable, Stop<MapFault>>
    requires { Holds named.names (names_of named.table) }
    ensures table { Gives (λ t. members_of t.table) result
        (entries_behind named.table
        (members_in (names_of named.table) (kept_of skips (value.pairs_of pairs.now)))) }
    ensures names { IfOk result (λ t. Holds t.names (names_of t.table)) }
{
    let NamedTable {
        mut names,
        mut table,
    } = named;
    let mut k = 0;
    while k < pairs.len() {
        let Some((key, value)) = pairs.get(k) else {
            break;
        };
        k += 1;
        if is_left_out(skips, key) {
            continue;
        }
        let name = entry_name(alloc, &mut names, key)?;
        let field = field_of(alloc, value)?;
        table.push((name, field))?;
    }
    Ok(NamedTable { names, table })
}
