//! Reading tables (AMQP 0-9-1 4.2.5.5).
//!
//! Each function takes `end`, the offset at which its bytes end in the whole input, and answers its
//! value and the bytes after it.

ghost use Rattle.std.specs.Prelude.{◌≡◌, ℕ, ◌+◌, ◌-◌, ◌≤◌, ◌++◌, List, length, take, drop, Ok, Err};
ghost use Rattle.std.specs.Prelude.{IfOk, IfErr};
ghost use Rattle.std.specs.Int.{w32};
ghost use Rattle.wire_base.specs.Reading.{Gives, made, container_in, all_items, offset};
ghost use Rattle.tables_091.specs.Tree.{Tree, scalar};
ghost use Rattle.tables_091.specs.View.{field_tree};
ghost use Rattle.tables_091.specs.Grammar.{IsTable};
ghost use Rattle.tables_091.specs.Faults.{IsFaultAt};
ghost use Rattle.tables_091.specs.Writing.{HasSpelling};
ghost use Rattle.tables_091.specs.Reading.{octet_in, wide_in, bytes_in, decimal_in, single_in};
ghost use Rattle.tables_091.specs.Reading.{flat_in, deep_in, member_in, field_in, table_in};
ghost use Rattle.tables_091.specs.Reading.{table_at, seen};

use crate::field::{Field, FieldList, Table};
use crate::kind::{Kind, Octet, Single, Text, Wide, kind_at};
use std::alloc::Global;
use wire_base::{
    At, ByteText, Memory, Stop, long_in, place, short_in, u8_in, u16_in, u32_in, u64_in,
};

/// Why bytes are no table: a type byte that is unknown or passes the depth, a length that passes
/// what holds it, or a value that is cut off.
#[derive(Clone, Copy, Debug, PartialEq, Eq)]
pub struct Syntax;

/// The greatest depth of a field inside a table, whose own depth is at most 16.
const DEPTH_INSIDE: u8 = 15;

/// A number of one byte. A bool is false where it is 0, and true at each other byte.
fn octet_of(kind: Octet, end: usize, content: &[u8]) -> Result<(Field, &[u8]), Stop<usize>>
    ensures { Gives (λ x. (field_tree x.0, x.1.now)) result
        (made scalar (octet_in kind end content.now)) }
{
    let (n, rest) = u8_in(end, content)?;
    let field = match kind {
        Octet::Bool => Field::Bool(n != 0),
        Octet::I8 => Field::I8(n.cast_signed()),
        Octet::U8 => Field::U8(n),
    };
    Ok((field, rest))
}

/// A number of two, four or eight bytes.
fn wide_of(kind: Wide, end: usize, content: &[u8]) -> Result<(Field, &[u8]), Stop<usize>>
    ensures { Gives (λ x. (field_tree x.0, x.1.now)) result
        (made scalar (wide_in kind end content.now)) }
{
    match kind {
        Wide::I16 => {
            let (n, rest) = u16_in(end, content)?;
            Ok((Field::I16(n.cast_signed()), rest))
        }
        Wide::U16 => {
            let (n, rest) = u16_in(end, content)?;
            Ok((Field::U16(n), rest))
        }
        Wide::I32 => {
            let (n, rest) = u32_in(end, content)?;
            Ok((Field::I32(n.cast_signed()), rest))
        }
        Wide::U32 => {
            let (n, rest) = u32_in(end, content)?;
            Ok((Field::U32(n), rest))
        }
        Wide::I64 => {
            let (n, rest) = u64_in(end, content)?;
            Ok((Field::I64(n.cast_signed()), rest))
        }
        Wide::F32 => {
            let (n, rest) = u32_in(end, content)?;
            Ok((Field::F32(n), rest))
        }
        Wide::F64 => {
            let (n, rest) = u64_in(end, content)?;
            Ok((Field::F64(n), rest))
        }
        Wide::Time => {
            let (n, rest) = u64_in(end, content)?;
            Ok((Field::Time(n), rest))
        }
    }
}

/// Bytes behind a length of four bytes.
fn text_of(
    alloc: Global,
    kind: Text,
    end: usize,
    content: &[u8],
) -> Result<(Field, &[u8]), Stop<usize>>
    ensures { Gives (λ x. (field_tree x.0, x.1.now)) result
        (made scalar (bytes_in kind end content.now)) }
{
    let (text, rest) = long_in(end, content)?;
    let text = ByteText::copy_of(alloc, text)?;
    let field = match kind {
        Text::Long => Field::Long(text),
        Text::Bytes => Field::Bytes(text),
    };
    Ok((field, rest))
}

/// A scale and a number of four bytes; where one of the five bytes is missing, the fault is at the
/// first.
fn decimal_of(end: usize, content: &[u8]) -> Result<(Field, &[u8]), Stop<usize>>
    ensures { Gives (λ x. (field_tree x.0, x.1.now)) result
        (made scalar (decimal_in end content.now)) }
{
    if content.len() < 5 {
        return Err(Stop::Fault(place(end, content)));
    }
    let (scale, rest) = u8_in(end, content)?;
    let (number, rest) = u32_in(end, rest)?;
    Ok((Field::Decimal(scale, number), rest))
}

/// The value of a field that holds no other.
fn single_of(
    alloc: Global,
    kind: Single,
    end: usize,
    content: &[u8],
) -> Result<(Field, &[u8]), Stop<usize>>
    ensures { Gives (λ x. (field_tree x.0, x.1.now)) result
        (made scalar (single_in kind end content.now)) }
{
    match kind {
        Single::Octet(kind) => octet_of(kind, end, content),
        Single::Wide(kind) => wide_of(kind, end, content),
        Single::Text(kind) => text_of(alloc, kind, end, content),
        Single::Decimal => decimal_of(end, content),
        Single::Void => Ok((Field::Void, content)),
    }
}

/// The value of a field that may hold no other, whose type byte stands at `at`.
fn flat_of(
    alloc: Global,
    kind: Kind,
    at: usize,
    end: usize,
    content: &[u8],
) -> Result<(Field, &[u8]), Stop<usize>>
    ensures { Gives (λ x. (field_tree x.0, x.1.now)) result (flat_in kind at end content.now) }
{
    match kind {
        Kind::Single(kind) => single_of(alloc, kind, end, content),
        Kind::Array | Kind::Table => Err(Stop::Fault(at)),
    }
}

/// A field of at most this depth.
#[cycle(nested)]
#[tactic(auto, using(crate::proofs::Depth::field_in_is))]
fn field_of(
    alloc: Global,
    depth: u8,
    end: usize,
    bytes: &[u8],
) -> Result<(Field, &[u8]), Stop<usize>>
    ensures { Gives (λ x. (field_tree x.0, x.1.now)) result (field_in depth end bytes.now) }
{
    let at = place(end, bytes);
    let (byte, content) = u8_in(end, bytes)?;
    let Some(kind) = kind_at(byte) else {
        return Err(Stop::Fault(at));
    };
    if depth == 0 {
        flat_of(alloc, kind, at, end, content)
    } else {
        deep_of(alloc, kind, depth - 1, end, content)
    }
}

/// The value of a field that may hold fields of at most this depth.
#[cycle(nested)]
fn deep_of(
    alloc: Global,
    kind: Kind,
    depth: u8,
    end: usize,
    content: &[u8],
) -> Result<(Field, &[u8]), Stop<usize>>
    ensures { Gives (λ x. (field_tree x.0, x.1.now)) result
        (deep_in (field_in depth) kind end content.now) }
{
    match kind {
        Kind::Single(kind) => single_of(alloc, kind, end, content),
        Kind::Array => {
            let (list, rest) = list_of(alloc, depth, end, content)?;
            Ok((Field::Array(list), rest))
        }
        Kind::Table => {
            let (table, rest) = table_of(alloc, depth, end, content)?;
            Ok((Field::Table(table), rest))
        }
    }
}

/// The fields of an array behind their length, each of at most this depth.
#[cycle(nested)]
fn list_of(
    alloc: Global,
    depth: u8,
    end: usize,
    content: &[u8],
) -> Result<(FieldList, &[u8]), Stop<usize>>
    ensures { Gives (λ x. (x.0, x.1.now)) result
        (container_in offset w32 (field_in depth) end content.now) }
{
    let (items, rest) = long_in(end, content)?;
    let list = fields_of(alloc, depth, place(end, rest), items)?;
    Ok((list, rest))
}

/// The fields that fill these bytes, each of at most this depth.
#[cycle(nested)]
fn fields_of(alloc: Global, depth: u8, end: usize, body: &[u8]) -> Result<FieldList, Stop<usize>>
    ensures { Gives (λ list. list) result (all_items offset (field_in depth) end body.now) }
{
    let mut list = FieldList::empty(alloc);
    let mut rest = body;
    while !rest.is_empty() {
        let (field, after) = field_of(alloc, depth, end, rest)?;
        list.push(field)?;
        rest = after;
    }
    Ok(list)
}

/// The entries of a table behind their length, with fields of at most this depth.
#[cycle(nested)]
fn table_of(
    alloc: Global,
    depth: u8,
    end: usize,
    content: &[u8],
) -> Result<(Table, &[u8]), Stop<usize>>
    ensures { Gives (λ x. (x.0, x.1.now)) result
        (container_in offset w32 (member_in (field_in depth)) end content.now) }
{
    let (entries, rest) = long_in(end, content)?;
    let table = entries_of(alloc, depth, place(end, rest), entries)?;
    Ok((table, rest))
}

/// The entries that fill these bytes, with fields of at most this depth.
#[cycle(nested)]
fn entries_of(alloc: Global, depth: u8, end: usize, body: &[u8]) -> Result<Table, Stop<usize>>
    ensures { Gives (λ table. table) result (all_items offset (member_in
        (field_in depth)) end body.now) }
{
    let mut table = Table::empty(alloc);
    let mut rest = body;
    while !rest.is_empty() {
        let ((name, field), after) = entry_of(alloc, depth, end, rest)?;
        table.push((name, field))?;
        rest = after;
    }
    Ok(table)
}

/// An entry of a table: a name behind its length, and a field of at most this depth.
#[cycle(nested)]
fn entry_of(
    alloc: Global,
    depth: u8,
    end: usize,
    bytes: &[u8],
) -> Result<((ByteText, Field), &[u8]), Stop<usize>>
    ensures { Gives (λ x. ((x.0.0, field_tree x.0.1), x.1.now)) result
        (member_in (field_in depth) end bytes.now) }
{
    let (name, rest) = short_in(end, bytes)?;
    let (field, rest) = field_of(alloc, depth, end, rest)?;
    Ok(((ByteText::copy_of(alloc, name)?, field), rest))
}

/// The table with which these bytes begin, and the bytes after it: for readers that have a table
/// among their parts.
///
/// # Errors
///
/// As `read_table`; `end` is the offset at which the bytes end in the whole input.
pub fn next_table(alloc: Global, end: usize, bytes: &[u8]) -> Result<(Table, &[u8]), Stop<usize>>
    ensures { Gives (λ x. (x.0, x.1.now)) result (table_in end bytes.now) }
{
    table_of(alloc, DEPTH_INSIDE, end, bytes)
}

/// The table that stands at `at`, and the offset after it.
fn table_from(alloc: Global, bytes: &[u8], at: usize) -> Result<(Table, usize), Stop<usize>>
    ensures { Gives (λ x. (x.0, x.1)) result (table_at bytes.now at) }
{
    let left = bytes.get(at..).unwrap_or(&[]);
    let (table, rest) = next_table(alloc, bytes.len(), left)?;
    Ok((table, place(bytes.len(), rest)))
}

/// The table that stands at `at`, and the offset after it.
///
/// # Errors
///
/// `Syntax` exactly where no table stands at `at`. Its offset is that of the first type byte that
/// is unknown or passes the depth of 16, length that passes what holds it, or value that is cut
/// off. A length and a value are told at their first byte, and what is missing altogether at the
/// end of what holds it. Where `at` is past the end of the bytes, the offset is their length.
///
/// `Memory` where the allocator has no room.
pub fn read_table(
    alloc: Global,
    bytes: &[u8],
    at: usize,
) -> Result<Result<(Table, usize), At<Syntax>>, Memory>
    // What is read is spelled so.
    ensures found { IfOk result (λ read. IfOk read (λ x.
        (x.1 ≤ length bytes.now) × IsTable x.0 (take (x.1 - at) (drop at bytes.now)))) }
    // What is spelled so is read, whatever follows.
    ensures only { (ms : List (List ℕ × Tree)) (text rest : List ℕ)
        → IsTable ms text → drop at bytes.now ≡ text ++ rest
        → IfOk result (λ read. read ≡ Ok (ms, at + length text)) }
    // What is read can be written.
    ensures writable { IfOk result (λ read. IfOk read (λ x. HasSpelling x.0)) }
    // Where the first fault is.
    ensures fault { IfOk result (λ read. IfErr read (λ e. IsFaultAt bytes.now at e.at)) }
    // Which table is read, or where the first fault is.
    ensures exact { IfOk result (λ read. seen read ≡ table_at bytes.now at) }
{
    match table_from(alloc, bytes, at) {
        Ok(read) => Ok(Ok(read)),
        Err(Stop::Memory) => Err(Memory),
        Err(Stop::Fault(at)) => Ok(Err(At { fault: Syntax, at })),
    }
}
