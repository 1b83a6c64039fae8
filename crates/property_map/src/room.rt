//! Whether the header of a content fits a room: the bytes that it takes are taken off the room,
//! part by part.

ghost use Rattle.std.specs.Prelude.{◌+◌, ◌≤◌, length};
ghost use Rattle.wire_base.specs.Reading.{Gives};
ghost use Rattle.tables_091.specs.Tree.{trees_of, members_of};
ghost use Rattle.tables_091.specs.View.{field_tree};
ghost use Rattle.content_091.specs.View.{an_octet, a_longlong, a_text, a_table, earlier_of};
ghost use Rattle.content_091.specs.View.{later_of};
ghost use Rattle.property_map.specs.Rows091.{header_row};
ghost use Rattle.property_map.specs.Room.{tree_len, trees_len, members_len, left_of, left_behind};
ghost use Rattle.property_map.specs.Room.{left_behind_all, left_behind_header};

use crate::fault::{MapFault, PropName};
use content_091::Props;
use tables_091::{Field, FieldList, Table};
use wire_base::{ByteText, Stop};

/// Class, weight, size and flags.
const HEAD_LEN: usize = 14;

/// The room that so many bytes leave.
fn left_of(room: u32, len: usize) -> Result<u32, Stop<MapFault>>
    ensures { Gives (λ n. n) result (left_of room len) }
{
    if len > room as usize {
        return Err(Stop::Fault(MapFault::TooLong(PropName::Header)));
    }
    Ok(room - len as u32)
}

/// The room that a text leaves, behind so many bytes.
fn left_of_text(room: u32, front: usize, text: &[u8]) -> Result<u32, Stop<MapFault>>
    ensures { Gives (λ n. n) result (left_of room (front + length text.now)) }
{
    let left = left_of(room, front)?;
    left_of(left, text.len())
}

// ---- tables

/// The room that a field leaves, with its type byte.
#[cycle(room)]
fn left_of_field(room: u32, field: &Field) -> Result<u32, Stop<MapFault>>
    ensures { Gives (λ n. n) result (left_of room (tree_len (field_tree field.now))) }
{
    match field {
        Field::Void => left_of(room, 1),
        Field::Bool(_) | Field::I8(_) | Field::U8(_) => left_of(room, 2),
        Field::I16(_) | Field::U16(_) => left_of(room, 3),
        Field::I32(_) | Field::U32(_) | Field::F32(_) => left_of(room, 5),
        Field::Decimal(_, _) => left_of(room, 6),
        Field::I64(_) | Field::F64(_) | Field::Time(_) => left_of(room, 9),
        Field::Long(text) | Field::Bytes(text) => left_of_text(room, 5, text.as_slice()),
        Field::Array(list) => left_of_list(room, list),
        Field::Table(table) => left_of_entries(room, 5, table),
    }
}

/// The room that an array leaves, with its type byte.
#[cycle(room)]
fn left_of_list(room: u32, list: &FieldList) -> Result<u32, Stop<MapFault>>
    ensures { Gives (λ n. n) result (left_of room (5 + trees_len (trees_of list.now))) }
{
    let mut left = left_of(room, 5)?;
    let mut k = 0;
    while k < list.len() {
        let Some(field) = list.get(k) else {
            break;
        };
        left = left_of_field(left, field)?;
        k += 1;
    }
    Ok(left)
}

/// The room that the entries of a table leave, behind so many bytes.
#[cycle(room)]
fn left_of_entries(room: u32, front: usize, table: &Table) -> Result<u32, Stop<MapFault>>
    ensures { Gives (λ n. n) result (left_of room (front + members_len (members_of table.now))) }
{
    let mut left = left_of(room, front)?;
    let mut k = 0;
    while k < table.len() {
        let Some((name, field)) = table.get(k) else {
            break;
        };
        let behind_name = left_of_text(left, 1, name.as_slice())?;
        left = left_of_field(behind_name, field)?;
        k += 1;
    }
    Ok(left)
}

// ---- properties

fn left_of_short(room: u32, text: &Option<ByteText>) -> Result<u32, Stop<MapFault>>
    ensures { Gives (λ n. n) result (left_behind room (a_text text.now)) }
{
    match text {
        Some(text) => left_of_text(room, 1, text.as_slice()),
        None => Ok(room),
    }
}

fn left_of_octet(room: u32, n: Option<u8>) -> Result<u32, Stop<MapFault>>
    ensures { Gives (λ n. n) result (left_behind room (an_octet n)) }
{
    match n {
        Some(_) => left_of(room, 1),
        None => Ok(room),
    }
}

fn left_of_longlong(room: u32, n: Option<u64>) -> Result<u32, Stop<MapFault>>
    ensures { Gives (λ n. n) result (left_behind room (a_longlong n)) }
{
    match n {
        Some(_) => left_of(room, 8),
        None => Ok(room),
    }
}

fn left_of_table(room: u32, table: &Option<Table>) -> Result<u32, Stop<MapFault>>
    ensures { Gives (λ n. n) result (left_behind room (a_table table.now)) }
{
    match table {
        Some(table) => left_of_entries(room, 4, table),
        None => Ok(room),
    }
}

/// The room that the properties up to reply-to leave.
fn left_of_earlier(room: u32, p: &Props) -> Result<u32, Stop<MapFault>>
    ensures { Gives (λ n. n) result (left_behind_all room (earlier_of p.now)) }
{
    let room = left_of_short(room, &p.content_type)?;
    let room = left_of_short(room, &p.content_encoding)?;
    let room = left_of_table(room, &p.headers)?;
    let room = left_of_octet(room, p.delivery_mode)?;
    let room = left_of_octet(room, p.priority)?;
    let room = left_of_short(room, &p.correlation_id)?;
    left_of_short(room, &p.reply_to)
}

/// The room that the properties from expiration on leave.
fn left_of_later(room: u32, p: &Props) -> Result<u32, Stop<MapFault>>
    ensures { Gives (λ n. n) result (left_behind_all room (later_of p.now)) }
{
    let room = left_of_short(room, &p.expiration)?;
    let room = left_of_short(room, &p.message_id)?;
    let room = left_of_longlong(room, p.timestamp)?;
    let room = left_of_short(room, &p.kind)?;
    let room = left_of_short(room, &p.user_id)?;
    let room = left_of_short(room, &p.app_id)?;
    left_of_short(room, &p.cluster_id)
}

/// The room that a content header with these properties leaves.
fn left_of_header(room: u32, p: &Props) -> Result<u32, Stop<MapFault>>
    ensures { Gives (λ n. n) result (left_behind_header room p.now) }
{
    let left = left_of(room, HEAD_LEN)?;
    let left = left_of_earlier(left, p)?;
    left_of_later(left, p)
}

/// The properties, where the header that holds them fits the room.
pub(crate) fn fitting(room: u32, props: Props) -> Result<Props, Stop<MapFault>>
    ensures { Gives (λ p. p) result (header_row room props) }
{
    match left_of_header(room, &props) {
        Ok(_) => Ok(props),
        Err(stop) => Err(stop),
    }
}
