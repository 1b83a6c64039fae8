//! Writing tables (AMQP 0-9-1 4.2.5.5).
//!
//! Where a function of this module answers `Memory`, what stood in `out` before still stands at its
//! front.

ghost use Rattle.std.specs.Prelude.{◌≡◌, ℕ, ◌+◌, ◌<◌, ◌≤◌, ◌^◌, List, [], ◌∷◌, ◌++◌, length, take};
ghost use Rattle.std.specs.Prelude.{map, OnOk, OnErr};
ghost use Rattle.std.specs.Int.{w8, w16, w32, w64, to_be_bytes};
ghost use Rattle.wire_base.specs.Spelling.{text_of};
ghost use Rattle.tables_091.specs.Tree.{trees_of, members_of};
ghost use Rattle.tables_091.specs.View.{field_tree, entry_member};
ghost use Rattle.tables_091.specs.Grammar.{IsTable};
ghost use Rattle.tables_091.specs.Writing.{trees_text, members_text, table_text, field_text};
ghost use Rattle.tables_091.specs.Writing.{entry_text, TreesNamesAreShort, MembersNamesAreShort};
ghost use Rattle.tables_091.specs.Writing.{FieldIsShort, EntryIsShort, HasSpelling};

use crate::field::{Field, FieldList, Table};
use wire_base::{ByteText, Memory, put_u8, put_u16, put_u32, put_u64};

/// A type byte, and a number of one byte.
fn put_octet(out: &mut ByteText, kind: u8, n: u8) -> Result<(), Memory>
    ensures ok { OnOk result (out.new ≡ out.old ++ (to_be_bytes w8 kind ++ to_be_bytes w8 n)) }
    ensures err { OnErr result (take (length out.old) out.new ≡ out.old) }
{
    put_u8(out, kind)?;
    put_u8(out, n)
}

/// A type byte, and a number of two bytes.
fn put_short(out: &mut ByteText, kind: u8, n: u16) -> Result<(), Memory>
    ensures ok { OnOk result (out.new ≡ out.old ++ (to_be_bytes w8 kind ++ to_be_bytes w16 n)) }
    ensures err { OnErr result (take (length out.old) out.new ≡ out.old) }
{
    put_u8(out, kind)?;
    put_u16(out, n)
}

/// A type byte, and a number of four bytes.
fn put_long(out: &mut ByteText, kind: u8, n: u32) -> Result<(), Memory>
    ensures ok { OnOk result (out.new ≡ out.old ++ (to_be_bytes w8 kind ++ to_be_bytes w32 n)) }
    ensures err { OnErr result (take (length out.old) out.new ≡ out.old) }
{
    put_u8(out, kind)?;
    put_u32(out, n)
}

/// A type byte, and a number of eight bytes.
fn put_longlong(out: &mut ByteText, kind: u8, n: u64) -> Result<(), Memory>
    ensures ok { OnOk result (out.new ≡ out.old ++ (to_be_bytes w8 kind ++ to_be_bytes w64 n)) }
    ensures err { OnErr result (take (length out.old) out.new ≡ out.old) }
{
    put_u8(out, kind)?;
    put_u64(out, n)
}

/// A type byte, a length of four bytes, and so many bytes.
fn put_text(out: &mut ByteText, kind: u8, text: &ByteText) -> Result<(), Memory>
    requires { length text.now < 2 ^ 32 }
    ensures ok { OnOk result (out.new ≡ out.old ++ (to_be_bytes w8 kind ++ text_of w32 text.now)) }
    ensures err { OnErr result (take (length out.old) out.new ≡ out.old) }
{
    let text = text.as_slice();
    put_u8(out, kind)?;
    put_u32(out, text.len() as u32)?;
    out.append(text)
}

/// A type byte, and the value of a field.
#[cycle(nested)]
fn put_field(out: &mut ByteText, field: &Field) -> Result<(), Memory>
    requires names { FieldIsShort field.now }
    requires size { length (field_text field.now) < 2 ^ 32 }
    ensures ok { OnOk result (out.new ≡ out.old ++ field_text field.now) }
    ensures err { OnErr result (take (length out.old) out.new ≡ out.old) }
{
    match field {
        Field::Bool(b) => put_octet(out, b't', u8::from(*b)),
        Field::I8(n) => put_octet(out, b'b', n.cast_unsigned()),
        Field::U8(n) => put_octet(out, b'B', *n),
        Field::I16(n) => put_short(out, b's', n.cast_unsigned()),
        Field::U16(n) => put_short(out, b'u', *n),
        Field::I32(n) => put_long(out, b'I', n.cast_unsigned()),
        Field::U32(n) => put_long(out, b'i', *n),
        Field::I64(n) => put_longlong(out, b'l', n.cast_unsigned()),
        Field::F32(n) => put_long(out, b'f', *n),
        Field::F64(n) => put_longlong(out, b'd', *n),
        Field::Decimal(scale, n) => {
            put_octet(out, b'D', *scale)?;
            put_u32(out, *n)
        }
        Field::Long(text) => put_text(out, b'S', text),
        Field::Array(list) => put_list(out, list),
        Field::Time(n) => put_longlong(out, b'T', *n),
        Field::Table(table) => {
            put_u8(out, b'F')?;
            put_body(out, table)
        }
        Field::Void => put_u8(out, b'V'),
        Field::Bytes(text) => put_text(out, b'x', text),
    }
}

/// An array: its type byte, the length of its fields, and the fields.
#[cycle(nested)]
fn put_list(out: &mut ByteText, list: &FieldList) -> Result<(), Memory>
    requires names { TreesNamesAreShort (trees_of list.now) }
    requires size { length (trees_text (trees_of list.now)) < 2 ^ 32 }
    ensures ok { OnOk result (out.new ≡ out.old ++ 65 ∷ text_of w32 (trees_text
        (trees_of list.now))) }
    ensures err { OnErr result (take (length out.old) out.new ≡ out.old) }
{
    put_u8(out, b'A')?;
    let start = out.as_slice().len();
    put_u32(out, 0)?;
    put_fields(out, &list.items)?;
    let size = out.as_slice().len() - start - 4;
    out.set_u32(start, size as u32);
    Ok(())
}

/// Fields, one after another.
#[cycle(nested)]
fn put_fields(out: &mut ByteText, fields: &[Field]) -> Result<(), Memory>
    requires names { TreesNamesAreShort (trees_of (map field_tree fields.now)) }
    requires size { length (trees_text (trees_of (map field_tree fields.now))) < 2 ^ 32 }
    ensures ok { OnOk result (out.new ≡ out.old ++ trees_text (trees_of
        (map field_tree fields.now))) }
    ensures err { OnErr result (take (length out.old) out.new ≡ out.old) }
{
    for field in fields {
        put_field(out, field)?;
    }
    Ok(())
}

/// What stands behind the type byte of a table, if it has one: the length of its entries, and the
/// entries.
#[cycle(nested)]
fn put_body(out: &mut ByteText, table: &Table) -> Result<(), Memory>
    requires names { MembersNamesAreShort (members_of table.now) }
    requires size { length (members_text (members_of table.now)) < 2 ^ 32 }
    ensures ok { OnOk result (out.new ≡ out.old ++ table_text table.now) }
    ensures err { OnErr result (take (length out.old) out.new ≡ out.old) }
{
    let start = out.as_slice().len();
    put_u32(out, 0)?;
    put_entries(out, &table.entries)?;
    let size = out.as_slice().len() - start - 4;
    out.set_u32(start, size as u32);
    Ok(())
}

/// Entries, one after another.
#[cycle(nested)]
fn put_entries(out: &mut ByteText, entries: &[(ByteText, Field)]) -> Result<(), Memory>
    requires names { MembersNamesAreShort (members_of (map entry_member entries.now)) }
    requires size { length (members_text (members_of (map entry_member entries.now))) < 2 ^ 32 }
    ensures ok { OnOk result
        (out.new ≡ out.old ++ members_text (members_of (map entry_member entries.now))) }
    ensures err { OnErr result (take (length out.old) out.new ≡ out.old) }
{
    for entry in entries {
        put_entry(out, entry)?;
    }
    Ok(())
}

/// A name behind its length, and a field.
#[cycle(nested)]
fn put_entry(out: &mut ByteText, entry: &(ByteText, Field)) -> Result<(), Memory>
    requires names { EntryIsShort entry.now }
    requires size { length (entry_text entry.now) < 2 ^ 32 }
    ensures ok { OnOk result (out.new ≡ out.old ++ entry_text entry.now) }
    ensures err { OnErr result (take (length out.old) out.new ≡ out.old) }
{
    let (name, field) = entry;
    let name = name.as_slice();
    put_u8(out, name.len() as u8)?;
    out.append(name)?;
    put_field(out, field)
}

/// Adds the spelling of the table, or leaves `out` as it was.
///
/// Names have at most 255 bytes, what the table holds is shorter than 2^32 bytes, and its depth is
/// at most 16. A bool is written as 0 or 1.
///
/// # Errors
///
/// `Memory` where the allocator has no room.
pub fn put_table(out: &mut ByteText, table: &Table) -> Result<(), Memory>
    requires { HasSpelling table.now }
    ensures ok { OnOk result (out.new ≡ out.old ++ table_text table.now) }
    ensures err { OnErr result (out.new ≡ out.old) }
    // What is written is in the grammar.
    ensures spelled { IsTable table.now (table_text table.now) }
{
    table.tell_ranges();
    let start = out.as_slice().len();
    let written = put_body(out, table);
    if written.is_err() {
        out.truncate(start);
    }
    written
}
