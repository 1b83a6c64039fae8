//! Writing values (AMQP 1.0 1.6), from the numbers up to `put_value`. Lengths and kinds come from
//! `measure`: what a value holds is measured at most three times for it, so the work grows with the
//! depth times the number of values.
//!
//! Where a function of this module but `put_value` answers `Memory`, what stood in `out` before
//! still stands at its front.

ghost use Rattle.std.specs.Prelude.{◌≡◌, ◌<◌, ◌^◌, ◌++◌, length, take, map, OnOk, OnErr};
ghost use Rattle.std.specs.Int.{w8, w16, w32, w64, to_be_bytes};
ghost use Rattle.types_10.specs.Tree.{list, mapping, array, trees_of, pairs_of};
ghost use Rattle.types_10.specs.View.{value_tree, pair_trees};
ghost use Rattle.types_10.specs.Kinds.{size_width};
ghost use Rattle.types_10.specs.Writing.{number_content, text_content, array_body, written};
ghost use Rattle.types_10.specs.Writing.{written_each, written_pairs, value_text, AreOfOneType};
ghost use Rattle.types_10.specs.Writing.{IsWritable, EachIsWritable, PairsAreWritable, HasSpelling};
ghost use Rattle.types_10.specs.Measures.{capped, body_len, head_text, pair_text};

use crate::kind::{Kind, Single, Size};
use crate::measure::{measure_each, measure_value};
use crate::value::Value10;
use wire_base::{ByteText, Memory, put_u8, put_u16, put_u32, put_u64};

/// A number of one byte under a kind of its type.
fn put_octet(out: &mut ByteText, single: Single, n: u8) -> Result<(), Memory>
    ensures ok { OnOk result (out.new ≡ out.old ++ number_content single w8 n) }
    ensures err { OnErr result (take (length out.old) out.new ≡ out.old) }
{
    match single {
        Single::Bare(_) => Ok(()),
        Single::Boolean
        | Single::Octet(_)
        | Single::Wide(_)
        | Single::Char
        | Single::Sixteen(_)
        | Single::Text(_, _) => put_u8(out, n),
    }
}

/// A number of two bytes under a kind of its type.
fn put_short(out: &mut ByteText, single: Single, n: u16) -> Result<(), Memory>
    ensures ok { OnOk result (out.new ≡ out.old ++ number_content single w16 n) }
    ensures err { OnErr result (take (length out.old) out.new ≡ out.old) }
{
    match single {
        Single::Bare(_) => Ok(()),
        Single::Octet(_) => put_u8(out, (n % 256) as u8),
        Single::Boolean
        | Single::Wide(_)
        | Single::Char
        | Single::Sixteen(_)
        | Single::Text(_, _) => put_u16(out, n),
    }
}

/// A number of four bytes under a kind of its type.
fn put_long(out: &mut ByteText, single: Single, n: u32) -> Result<(), Memory>
    ensures ok { OnOk result (out.new ≡ out.old ++ number_content single w32 n) }
    ensures err { OnErr result (take (length out.old) out.new ≡ out.old) }
{
    match single {
        Single::Bare(_) => Ok(()),
        Single::Octet(_) => put_u8(out, (n % 256) as u8),
        Single::Boolean
        | Single::Wide(_)
        | Single::Char
        | Single::Sixteen(_)
        | Single::Text(_, _) => put_u32(out, n),
    }
}

/// A number of eight bytes under a kind of its type.
fn put_longlong(out: &mut ByteText, single: Single, n: u64) -> Result<(), Memory>
    ensures ok { OnOk result (out.new ≡ out.old ++ number_content single w64 n) }
    ensures err { OnErr result (take (length out.old) out.new ≡ out.old) }
{
    match single {
        Single::Bare(_) => Ok(()),
        Single::Octet(_) => put_u8(out, (n % 256) as u8),
        Single::Boolean
        | Single::Wide(_)
        | Single::Char
        | Single::Sixteen(_)
        | Single::Text(_, _) => put_u64(out, n),
    }
}

/// A length, a size or a count: its lowest bytes, which hold all of it wherever the kind was chosen
/// for the value.
fn put_size(out: &mut ByteText, size: Size, n: usize) -> Result<(), Memory>
    ensures ok { OnOk result (out.new ≡ out.old ++ to_be_bytes (size_width size) n) }
    ensures err { OnErr result (take (length out.old) out.new ≡ out.old) }
{
    match size {
        Size::Short => put_u8(out, (n % 256) as u8),
        Size::Long => put_u32(out, (n % 0x1_0000_0000) as u32),
    }
}

/// Bytes behind their length.
fn put_text(out: &mut ByteText, single: Single, text: &ByteText) -> Result<(), Memory>
    ensures ok { OnOk result (out.new ≡ out.old ++ text_content single text.now) }
    ensures err { OnErr result (take (length out.old) out.new ≡ out.old) }
{
    match single {
        Single::Text(_, size) => {
            let text = text.as_slice();
            put_size(out, size, text.len())?;
            out.append(text)
        }
        Single::Bare(_)
        | Single::Boolean
        | Single::Octet(_)
        | Single::Wide(_)
        | Single::Char
        | Single::Sixteen(_) => Ok(()),
    }
}

/// The size, which counts the count too, and the count before so many bytes.
fn put_head(out: &mut ByteText, size: Size, count: usize, body: usize) -> Result<(), Memory>
    requires { body < 2 ^ 32 }
    ensures ok { OnOk result (out.new ≡ out.old ++ head_text size count body) }
    ensures err { OnErr result (take (length out.old) out.new ≡ out.old) }
{
    put_size(out, size, size.width() + body)?;
    put_size(out, size, count)
}

/// The content of a value that holds no other, under a kind of its type; of one that does, nothing.
#[cycle(single)]
fn put_single(out: &mut ByteText, single: Single, value: &Value10) -> Result<(), Memory>
    ensures ok { OnOk result (out.new ≡ out.old ++ (written (value_tree value.now)).content
        (Kind.Single single)) }
    ensures err { OnErr result (take (length out.old) out.new ≡ out.old) }
{
    match value {
        Value10::Null => Ok(()),
        Value10::Boolean(b) => put_octet(out, single, u8::from(*b)),
        Value10::Ubyte(n) => put_octet(out, single, *n),
        Value10::Byte(n) => put_octet(out, single, n.cast_unsigned()),
        Value10::Ushort(n) => put_short(out, single, *n),
        Value10::Short(n) => put_short(out, single, n.cast_unsigned()),
        Value10::Uint(n) => put_long(out, single, *n),
        Value10::Int(n) => put_long(out, single, n.cast_unsigned()),
        Value10::Ulong(n) => put_longlong(out, single, *n),
        Value10::Long(n) => put_longlong(out, single, n.cast_unsigned()),
        Value10::Float(n) => put_long(out, single, *n),
        Value10::Double(n) => put_longlong(out, single, *n),
        Value10::Decimal32(n) => put_long(out, single, *n),
        Value10::Decimal64(n) => put_longlong(out, single, *n),
        Value10::Decimal128(bytes) => out.append(bytes),
        Value10::Char(n) => put_long(out, single, *n),
        Value10::Timestamp(n) => put_longlong(out, single, n.cast_unsigned()),
        Value10::Uuid(bytes) => out.append(bytes),
        Value10::Binary(text) => put_text(out, single, text),
        Value10::String(text) => put_text(out, single, text),
        Value10::Symbol(text) => put_text(out, single, text),
        Value10::List(_) | Value10::Map(_) | Value10::Array(_) => Ok(()),
        Value10::Described(_, value) => put_single(out, single, &value.value),
    }
}

/// A value where it stands alone: its descriptors, its code and its content.
#[cycle(whole)]
fn put_whole(out: &mut ByteText, value: &Value10) -> Result<(), Memory>
    requires writable { IsWritable (value_tree value.now) }
    requires size { length (value_text (value_tree value.now)) < 2 ^ 32 }
    ensures ok { OnOk result (out.new ≡ out.old ++ value_text (value_tree value.now)) }
    ensures err { OnErr result (take (length out.old) out.new ≡ out.old) }
{
    let measure = measure_value(value);
    put_front(out, value)?;
    put_u8(out, measure.kind.code())?;
    put_content(out, measure.kind, measure.body, value)
}

/// The descriptors of a value, each behind its code.
#[cycle(whole)]
fn put_front(out: &mut ByteText, value: &Value10) -> Result<(), Memory>
    requires writable { IsWritable (value_tree value.now) }
    requires size { length (written (value_tree value.now)).front < 2 ^ 32 }
    ensures ok { OnOk result (out.new ≡ out.old ++ (written (value_tree value.now)).front) }
    ensures err { OnErr result (take (length out.old) out.new ≡ out.old) }
{
    match value {
        Value10::Described(descriptor, value) => {
            put_u8(out, Kind::Described.code())?;
            put_whole(out, &descriptor.value)?;
            put_front(out, &value.value)
        }
        _ => Ok(()),
    }
}

/// The content of a value under a kind of its type. `body` is its length, but for what the kind
/// decides.
#[cycle(whole)]
fn put_content(out: &mut ByteText, kind: Kind, body: usize, value: &Value10) -> Result<(), Memory>
    requires writable { IsWritable (value_tree value.now) }
    requires size { length ((written (value_tree value.now)).content kind) < 2 ^ 32 }
    requires measured { body ≡ capped (body_len (value_tree value.now)) }
    ensures ok { OnOk result (out.new ≡ out.old ++ (written (value_tree value.now)).content kind) }
    ensures err { OnErr result (take (length out.old) out.new ≡ out.old) }
{
    match kind {
        Kind::Single(single) => put_single(out, single, value),
        Kind::List(size) | Kind::Map(size) | Kind::Array(size) => put_held(out, size, body, value),
        Kind::EmptyList | Kind::Described => Ok(()),
    }
}

/// The size, the count and the body of a value that holds others; of one that does not, nothing.
#[cycle(whole)]
fn put_held(out: &mut ByteText, size: Size, body: usize, value: &Value10) -> Result<(), Memory>
    requires writable { IsWritable (value_tree value.now) }
    requires size { length ((written (value_tree value.now)).content (Kind.List size)) < 2 ^ 32 }
    requires measured { body ≡ capped (body_len (value_tree value.now)) }
    ensures ok { OnOk result (out.new ≡ out.old ++ (written (value_tree value.now)).content
        (Kind.List size)) }
    ensures err { OnErr result (take (length out.old) out.new ≡ out.old) }
{
    match value {
        Value10::List(list) => put_list(out, size, body, &list.items),
        Value10::Map(list) => put_map(out, size, body, &list.pairs),
        Value10::Array(list) => put_array(out, size, body, &list.items),
        Value10::Described(_, value) => put_held(out, size, body, &value.value),
        _ => Ok(()),
    }
}

/// The size, the count and the values of a list.
#[cycle(whole)]
fn put_list(out: &mut ByteText, size: Size, body: usize, values: &[Value10]) -> Result<(), Memory>
    requires writable { EachIsWritable (trees_of (map value_tree values.now)) }
    requires size { length (written_each (trees_of (map value_tree values.now))).text < 2 ^ 32 }
    requires measured { body ≡ length (written_each (trees_of (map value_tree values.now))).text }
    ensures ok { OnOk result (out.new ≡ out.old ++ (written (list (trees_of
        (map value_tree values.now)))).content (Kind.List size)) }
    ensures err { OnErr result (take (length out.old) out.new ≡ out.old) }
{
    put_head(out, size, values.len(), body)?;
    put_each(out, values)
}

/// The size, the count and the keys and values of a map.
#[cycle(whole)]
fn put_map(
    out: &mut ByteText,
    size: Size,
    body: usize,
    pairs: &[(Value10, Value10)],
) -> Result<(), Memory>
    requires writable { PairsAreWritable (pairs_of (map pair_trees pairs.now)) }
    requires size { length (written_pairs (pairs_of (map pair_trees pairs.now))).1 < 2 ^ 32 }
    requires measured { body ≡ length (written_pairs (pairs_of (map pair_trees pairs.now))).1 }
    ensures ok { OnOk result (out.new ≡ out.old ++ (written (mapping (pairs_of
        (map pair_trees pairs.now)))).content (Kind.Map size)) }
    ensures err { OnErr result (take (length out.old) out.new ≡ out.old) }
{
    put_head(out, size, 2 * pairs.len(), body)?;
    put_pairs(out, pairs)
}

/// The size, the count, the constructor and the elements of an array.
#[cycle(whole)]
fn put_array(out: &mut ByteText, size: Size, body: usize, values: &[Value10]) -> Result<(), Memory>
    requires writable { EachIsWritable (trees_of (map value_tree values.now)) }
    requires alike { AreOfOneType (trees_of (map value_tree values.now)) }
    requires size { length (array_body (written_each (trees_of
        (map value_tree values.now)))) < 2 ^ 32 }
    requires measured { body ≡ length (array_body (written_each (trees_of
        (map value_tree values.now)))) }
    ensures ok { OnOk result (out.new ≡ out.old ++ (written (array (trees_of
        (map value_tree values.now)))).content (Kind.Array size)) }
    ensures err { OnErr result (take (length out.old) out.new ≡ out.old) }
{
    put_head(out, size, values.len(), body)?;
    let kind = measure_each(values).kind;
    put_first_front(out, values)?;
    put_u8(out, kind.code())?;
    put_contents(out, kind, values)
}

/// Values, each where it stands alone.
#[cycle(whole)]
fn put_each(out: &mut ByteText, values: &[Value10]) -> Result<(), Memory>
    requires writable { EachIsWritable (trees_of (map value_tree values.now)) }
    requires size { length (written_each (trees_of (map value_tree values.now))).text < 2 ^ 32 }
    ensures ok { OnOk result (out.new ≡ out.old ++ (written_each (trees_of
        (map value_tree values.now))).text) }
    ensures err { OnErr result (take (length out.old) out.new ≡ out.old) }
{
    for value in values {
        put_whole(out, value)?;
    }
    Ok(())
}

/// The keys and values of pairs, in turn.
#[cycle(whole)]
fn put_pairs(out: &mut ByteText, pairs: &[(Value10, Value10)]) -> Result<(), Memory>
    requires writable { PairsAreWritable (pairs_of (map pair_trees pairs.now)) }
    requires size { length (written_pairs (pairs_of (map pair_trees pairs.now))).1 < 2 ^ 32 }
    ensures ok { OnOk result (out.new ≡ out.old ++ (written_pairs (pairs_of
        (map pair_trees pairs.now))).1) }
    ensures err { OnErr result (take (length out.old) out.new ≡ out.old) }
{
    for pair in pairs {
        put_pair(out, pair)?;
    }
    Ok(())
}

/// A key, and its value.
#[cycle(whole)]
fn put_pair(out: &mut ByteText, pair: &(Value10, Value10)) -> Result<(), Memory>
    requires key { IsWritable (pair_trees pair.now).0 }
    requires value { IsWritable (pair_trees pair.now).1 }
    requires size { length (pair_text pair.now) < 2 ^ 32 }
    ensures ok { OnOk result (out.new ≡ out.old ++ pair_text pair.now) }
    ensures err { OnErr result (take (length out.old) out.new ≡ out.old) }
{
    let (key, value) = pair;
    put_whole(out, key)?;
    put_whole(out, value)
}

/// The descriptors of the first of these values, if there is one.
#[cycle(whole)]
fn put_first_front(out: &mut ByteText, values: &[Value10]) -> Result<(), Memory>
    requires writable { EachIsWritable (trees_of (map value_tree values.now)) }
    requires size { length (written_each (trees_of (map value_tree values.now))).front < 2 ^ 32 }
    ensures ok { OnOk result (out.new ≡ out.old ++ (written_each (trees_of
        (map value_tree values.now))).front) }
    ensures err { OnErr result (take (length out.old) out.new ≡ out.old) }
{
    match values {
        [first, ..] => put_front(out, first),
        [] => Ok(()),
    }
}

/// The contents of elements under the kind that they share.
#[cycle(whole)]
fn put_contents(out: &mut ByteText, kind: Kind, values: &[Value10]) -> Result<(), Memory>
    requires writable { EachIsWritable (trees_of (map value_tree values.now)) }
    requires size { length ((written_each (trees_of
        (map value_tree values.now))).contents kind) < 2 ^ 32 }
    ensures ok { OnOk result (out.new ≡ out.old ++ (written_each (trees_of
        (map value_tree values.now))).contents kind) }
    ensures err { OnErr result (take (length out.old) out.new ≡ out.old) }
{
    for value in values {
        let body = measure_value(value).body;
        put_content(out, kind, body, value)?;
    }
    Ok(())
}

/// Adds the shortest spelling of the value (AMQP 1.0 1.6), or leaves `out` as it was.
///
/// Each value has the shortest of its type's encodings, and the elements of an array the shortest
/// that all of them have; an array without elements has the constructor of null.
///
/// The value must have a spelling, as `has_spelling` tells: its depth is at most 16, what is
/// written of it is shorter than 2^32 bytes, and, of the value and of each one inside it,
///
/// - a string is UTF-8, a symbol is ASCII, and a char is a Unicode scalar value (at most 10FFFF,
/// not D800 to DFFF);
/// - the elements of an array are of one type, all of them described by equal descriptors or none
/// described, and what the descriptors describe is of one type;
/// - the elements of an array are at most 65,536 where their shortest encoding has no bytes: nulls,
/// booleans that are all true or all false, uints or ulongs that are all 0, and lists that are all
/// empty, described or not. An array with more is read where a longer encoding was sent, as 65,537
/// zeros behind the code 70, but can't be put.
///
/// And the elements of all arrays inside the value together take at most 65,536 besides their
/// bytes: each as many as values stand in its descriptors, and one more for each 64 bytes of a text
/// there, or one where it has neither bytes nor descriptors.
///
/// # Errors
///
/// `Memory` where the allocator has no room.
pub fn put_value(out: &mut ByteText, value: &Value10) -> Result<(), Memory>
    requires { HasSpelling (value_tree value.now) }
    ensures ok { OnOk result (out.new ≡ out.old ++ value_text (value_tree value.now)) }
    ensures err { OnErr result (out.new ≡ out.old) }
{
    let start = out.as_slice().len();
    let written = put_whole(out, value);
    if written.is_err() {
        out.truncate(start);
    }
    written
}
