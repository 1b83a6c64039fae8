//! Reading values (AMQP 1.0 1.6).
//!
//! Each function takes the bounds of its bytes, and answers its value and the bytes after it.

ghost use Rattle.std.specs.Prelude.{◌≡◌, ℕ, ◌+◌, ◌-◌, ◌*◌, ◌≤◌, ◌++◌, List, length, take, drop, map, Ok};
ghost use Rattle.std.specs.Prelude.{Err, IfOk, IfErr, IsOkAnd};
ghost use Rattle.std.specs.Int.{w8, w16, w32, w64};
ghost use Rattle.std.specs.Char.{is_ascii};
ghost use Rattle.std.specs.Str.{is_utf8};
ghost use Rattle.std.specs.List.{list_all};
ghost use Rattle.wire_base.specs.Reading.{Gives, made};
ghost use Rattle.types_10.specs.Tree.{Tree, scalar, depth};
ghost use Rattle.types_10.specs.Kinds.{bare_scalar, octet_scalar, wide_scalar, wide_width};
ghost use Rattle.types_10.specs.Kinds.{sixteen_scalar, text_scalar, is_text, is_character};
ghost use Rattle.types_10.specs.Kinds.{size_width};
ghost use Rattle.types_10.specs.Loads.{element_load};
ghost use Rattle.types_10.specs.Measures.{capped};
ghost use Rattle.types_10.specs.declared.kind.Single.TheVariants.{Text as TextKind};
ghost use Rattle.types_10.specs.View.{value_tree, pair_trees};
ghost use Rattle.types_10.specs.Grammar.{IsValue};
ghost use Rattle.types_10.specs.Faults.{IsFaultAt};
ghost use Rattle.types_10.specs.Shapes.{shape_data};
ghost use Rattle.types_10.specs.declared.fault.TypeFault.TheVariants as fault;
ghost use Rattle.types_10.specs.Reading.{Tells, fault_at, code_in, contents_in, shape_in, element_in};
ghost use Rattle.types_10.specs.Reading.{count_in, bytes_in, sixteen_in, tested, text_fault, text_in};
ghost use Rattle.types_10.specs.Reading.{boolean_in, char_in, single_in, flat_in, deep_in};
ghost use Rattle.types_10.specs.Reading.{filled_in, row_in, two_in, items_in, entries_in};
ghost use Rattle.types_10.specs.Reading.{spent_in, elements_in, level, value_in, value_at, seen};

use crate::copying::copy_value;
use crate::depth::is_within;
use crate::fault::TypeFault;
use crate::kind::{Bare, Kind, Octet, Single, Sixteen, Size, Text, Wide, kind_at};
use crate::value::{Inner, PairList, Value10, ValueList};
use crate::weight::{element_load, weights_of};
use std::alloc::Global;
use wire_base::{At, ByteText, Memory, Stop, place};

pub(crate) type Fault = At<TypeFault>;

/// What holds the bytes that are read.
#[derive(Clone, Copy)]
pub(crate) struct Bounds {
    /// The fault of a value that is cut off: `Cut` in the input itself, and inside a list, a map or
    /// an array that a value disagrees with its size.
    pub(crate) cut: Fault,
    /// The offset at which the bytes end.
    pub(crate) end: usize,
}

/// A format code.
#[derive(Clone, Copy)]
pub(crate) struct Code {
    pub(crate) kind: Kind,
    /// The offset of the code.
    pub(crate) at: usize,
}

/// The constructor of an array: the descriptors of its elements, the outermost first, and the kind
/// of what they describe.
#[derive(Drop)]
struct Shape {
    descriptors: ValueList,
    kind: Kind,
}

impl Shape {
    /// What an element takes besides its bytes.
    fn element_load(&self) -> usize
        ensures { result ≡ capped (element_load (shape_data self.now)) }
    {
        element_load(weights_of(&self.descriptors.items), self.kind.is_bare())
    }
}

/// What is left of a room behind so many elements, of which each takes this.
pub(crate) fn room_after(room: u32, count: u32, each: usize, cut: Fault) -> Result<u32, Stop<Fault>>
    ensures { (load : ℕ) → each ≡ capped load → Tells (λ n. n) result
        (spent_in cut room (count * load)) }
{
    let load = (count as usize).saturating_mul(each);
    if load > room as usize {
        return Err(Stop::Fault(cut));
    }
    Ok(room - load as u32)
}

/// The most that the elements inside a value may take besides their bytes.
pub(crate) const MOST_LOAD: u32 = 65_536;

// ---- numbers and bytes

fn octet_in(cut: Fault, bytes: &[u8]) -> Result<(u8, &[u8]), Stop<Fault>>
    ensures { Tells (λ x. (x.0, x.1.now)) result (count_in cut w8 bytes.now) }
{
    let Some((first, rest)) = bytes.split_first() else {
        return Err(Stop::Fault(cut));
    };
    Ok((*first, rest))
}

fn short_in(cut: Fault, bytes: &[u8]) -> Result<(u16, &[u8]), Stop<Fault>>
    ensures { Tells (λ x. (x.0, x.1.now)) result (count_in cut w16 bytes.now) }
{
    let Some((front, rest)) = bytes.split_first_chunk::<2>() else {
        return Err(Stop::Fault(cut));
    };
    Ok((u16::from_be_bytes(*front), rest))
}

fn long_in(cut: Fault, bytes: &[u8]) -> Result<(u32, &[u8]), Stop<Fault>>
    ensures { Tells (λ x. (x.0, x.1.now)) result (count_in cut w32 bytes.now) }
{
    let Some((front, rest)) = bytes.split_first_chunk::<4>() else {
        return Err(Stop::Fault(cut));
    };
    Ok((u32::from_be_bytes(*front), rest))
}

fn longlong_in(cut: Fault, bytes: &[u8]) -> Result<(u64, &[u8]), Stop<Fault>>
    ensures { Tells (λ x. (x.0, x.1.now)) result (count_in cut w64 bytes.now) }
{
    let Some((front, rest)) = bytes.split_first_chunk::<8>() else {
        return Err(Stop::Fault(cut));
    };
    Ok((u64::from_be_bytes(*front), rest))
}

fn sixteen_in(cut: Fault, bytes: &[u8]) -> Result<([u8; 16], &[u8]), Stop<Fault>>
    ensures { Tells (λ x. (x.0, x.1.now)) result (sixteen_in cut bytes.now) }
{
    let Some((front, rest)) = bytes.split_first_chunk::<16>() else {
        return Err(Stop::Fault(cut));
    };
    Ok((*front, rest))
}

/// A length, a size or a count.
pub(crate) fn count_in(size: Size, cut: Fault, bytes: &[u8]) -> Result<(u32, &[u8]), Stop<Fault>>
    ensures { Tells (λ x. (x.0, x.1.now)) result (count_in cut (size_width size) bytes.now) }
{
    match size {
        Size::Short => {
            let (count, rest) = octet_in(cut, bytes)?;
            Ok((u32::from(count), rest))
        }
        Size::Long => long_in(cut, bytes),
    }
}

/// A length, and so many bytes.
#[tactic(auto, unfolding(wire_base::specs::Reading::text_in))]
pub(crate) fn bytes_in(size: Size, cut: Fault, bytes: &[u8]) -> Result<(&[u8], &[u8]), Stop<Fault>>
    ensures { Tells (λ x. (x.0.now, x.1.now)) result (bytes_in cut (size_width size) bytes.now) }
{
    let (length, rest) = count_in(size, cut, bytes)?;
    let length = length as usize;
    if rest.len() < length {
        return Err(Stop::Fault(cut));
    }
    Ok(rest.split_at(length))
}

// ---- values that hold no other

fn is_utf8(text: &[u8]) -> bool
    ensures { result ≡ is_utf8 text.now }
{
    match std::str::from_utf8(text) {
        Ok(_) => true,
        Err(_) => false,
    }
}

fn is_ascii(text: &[u8]) -> bool
    ensures { result ≡ list_all is_ascii text.now }
{
    text.iter().all(|byte| byte.is_ascii())
}

pub(crate) fn is_text(kind: Text, text: &[u8]) -> bool
    ensures { result ≡ is_text kind text.now }
{
    match kind {
        Text::Binary => true,
        Text::String => is_utf8(text),
        Text::Symbol => is_ascii(text),
    }
}

/// The fault of a text of this kind, at its first byte.
fn text_fault(kind: Text, text: &[u8], after: usize) -> Fault
    ensures { result ≡ text_fault kind text.now after }
{
    let at = after.saturating_sub(text.len());
    let fault = match kind {
        Text::Binary | Text::String => TypeFault::NotUtf8,
        Text::Symbol => TypeFault::NotAscii,
    };
    At { fault, at }
}

fn bare_of(kind: Bare) -> Value10
    ensures { value_tree result ≡ scalar (bare_scalar kind) }
{
    match kind {
        Bare::Null => Value10::Null,
        Bare::True => Value10::Boolean(true),
        Bare::False => Value10::Boolean(false),
        Bare::Uint => Value10::Uint(0),
        Bare::Ulong => Value10::Ulong(0),
    }
}

pub(crate) fn boolean_of(bounds: Bounds, content: &[u8]) -> Result<(Value10, &[u8]), Stop<Fault>>
    ensures { Tells (λ x. (value_tree x.0, x.1.now)) result
        (made scalar (boolean_in bounds.cut bounds.end content.now)) }
{
    let (n, rest) = octet_in(bounds.cut, content)?;
    if n >= 2 {
        let at = place(bounds.end, rest).saturating_sub(1);
        let fault = TypeFault::UnknownCode;
        return Err(Stop::Fault(At { fault, at }));
    }
    Ok((Value10::Boolean(n == 1), rest))
}

pub(crate) fn char_of(bounds: Bounds, content: &[u8]) -> Result<(Value10, &[u8]), Stop<Fault>>
    ensures { Tells (λ x. (value_tree x.0, x.1.now)) result
        (made scalar (char_in bounds.cut bounds.end content.now)) }
{
    let (n, rest) = long_in(bounds.cut, content)?;
    if n < 0xD800 || (n >= 0xE000 && n < 0x11_0000) {
        return Ok((Value10::Char(n), rest));
    }
    let at = place(bounds.end, rest).saturating_sub(4);
    let fault = TypeFault::NotUtf8;
    Err(Stop::Fault(At { fault, at }))
}

/// A number of one byte.
pub(crate) fn octet_of(
    kind: Octet,
    cut: Fault,
    content: &[u8],
) -> Result<(Value10, &[u8]), Stop<Fault>>
    ensures { Tells (λ x. (value_tree x.0, x.1.now)) result
        (made scalar (made (octet_scalar kind) (count_in cut w8 content.now))) }
{
    let (n, rest) = octet_in(cut, content)?;
    let value = match kind {
        Octet::Ubyte => Value10::Ubyte(n),
        Octet::Byte => Value10::Byte(n.cast_signed()),
        Octet::Uint => Value10::Uint(u32::from(n)),
        Octet::Int => Value10::Int(i32::from(n.cast_signed())),
        Octet::Ulong => Value10::Ulong(u64::from(n)),
        Octet::Long => Value10::Long(i64::from(n.cast_signed())),
    };
    Ok((value, rest))
}

/// A number of two, four or eight bytes.
pub(crate) fn wide_of(
    kind: Wide,
    cut: Fault,
    content: &[u8],
) -> Result<(Value10, &[u8]), Stop<Fault>>
    ensures { Tells (λ x. (value_tree x.0, x.1.now)) result
        (made scalar (made (wide_scalar kind) (count_in cut (wide_width kind) content.now))) }
{
    match kind {
        Wide::Ushort => {
            let (n, rest) = short_in(cut, content)?;
            Ok((Value10::Ushort(n), rest))
        }
        Wide::Short => {
            let (n, rest) = short_in(cut, content)?;
            Ok((Value10::Short(n.cast_signed()), rest))
        }
        Wide::Uint => {
            let (n, rest) = long_in(cut, content)?;
            Ok((Value10::Uint(n), rest))
        }
        Wide::Int => {
            let (n, rest) = long_in(cut, content)?;
            Ok((Value10::Int(n.cast_signed()), rest))
        }
        Wide::Float => {
            let (n, rest) = long_in(cut, content)?;
            Ok((Value10::Float(n), rest))
        }
        Wide::Decimal32 => {
            let (n, rest) = long_in(cut, content)?;
            Ok((Value10::Decimal32(n), rest))
        }
        Wide::Ulong => {
            let (n, rest) = longlong_in(cut, content)?;
            Ok((Value10::Ulong(n), rest))
        }
        Wide::Long => {
            let (n, rest) = longlong_in(cut, content)?;
            Ok((Value10::Long(n.cast_signed()), rest))
        }
        Wide::Double => {
            let (n, rest) = longlong_in(cut, content)?;
            Ok((Value10::Double(n), rest))
        }
        Wide::Timestamp => {
            let (n, rest) = longlong_in(cut, content)?;
            Ok((Value10::Timestamp(n.cast_signed()), rest))
        }
        Wide::Decimal64 => {
            let (n, rest) = longlong_in(cut, content)?;
            Ok((Value10::Decimal64(n), rest))
        }
    }
}

pub(crate) fn sixteen_of(
    kind: Sixteen,
    cut: Fault,
    content: &[u8],
) -> Result<(Value10, &[u8]), Stop<Fault>>
    ensures { Tells (λ x. (value_tree x.0, x.1.now)) result
        (made scalar (made (sixteen_scalar kind) (sixteen_in cut content.now))) }
{
    let (bytes, rest) = sixteen_in(cut, content)?;
    let value = match kind {
        Sixteen::Decimal128 => Value10::Decimal128(bytes),
        Sixteen::Uuid => Value10::Uuid(bytes),
    };
    Ok((value, rest))
}

/// Bytes behind a length, which are a text of this kind.
pub(crate) fn text_in(
    kind: Text,
    size: Size,
    bounds: Bounds,
    content: &[u8],
) -> Result<(&[u8], &[u8]), Stop<Fault>>
    ensures { Tells (λ x. (x.0.now, x.1.now)) result
        (text_in kind size bounds.cut bounds.end content.now) }
{
    let (text, rest) = bytes_in(size, bounds.cut, content)?;
    if !is_text(kind, text) {
        return Err(Stop::Fault(text_fault(kind, text, place(bounds.end, rest))));
    }
    Ok((text, rest))
}

fn text_of(
    alloc: Global,
    kind: Text,
    size: Size,
    bounds: Bounds,
    content: &[u8],
) -> Result<(Value10, &[u8]), Stop<Fault>>
    ensures { Gives (λ x. (value_tree x.0, x.1.now)) result
        (made scalar (single_in (TextKind kind size) bounds.cut bounds.end content.now)) }
{
    let (text, rest) = text_in(kind, size, bounds, content)?;
    let text = ByteText::copy_of(alloc, text)?;
    let value = match kind {
        Text::Binary => Value10::Binary(text),
        Text::String => Value10::String(text),
        Text::Symbol => Value10::Symbol(text),
    };
    Ok((value, rest))
}

/// A value that holds no other.
pub(crate) fn single_of(
    alloc: Global,
    kind: Single,
    bounds: Bounds,
    content: &[u8],
) -> Result<(Value10, &[u8]), Stop<Fault>>
    ensures { Gives (λ x. (value_tree x.0, x.1.now)) result
        (made scalar (single_in kind bounds.cut bounds.end content.now)) }
{
    match kind {
        Single::Bare(kind) => Ok((bare_of(kind), content)),
        Single::Boolean => boolean_of(bounds, content),
        Single::Octet(kind) => octet_of(kind, bounds.cut, content),
        Single::Wide(kind) => wide_of(kind, bounds.cut, content),
        Single::Char => char_of(bounds, content),
        Single::Sixteen(kind) => sixteen_of(kind, bounds.cut, content),
        Single::Text(kind, size) => text_of(alloc, kind, size, bounds, content),
    }
}

// ---- values by their code

/// A format code.
pub(crate) fn code_in(bounds: Bounds, bytes: &[u8]) -> Result<(Code, &[u8]), Stop<Fault>>
    ensures { Tells (λ x. ((x.0.kind, x.0.at), x.1.now)) result
        (code_in bounds.cut bounds.end bytes.now) }
{
    let at = place(bounds.end, bytes);
    let (byte, content) = octet_in(bounds.cut, bytes)?;
    let Some(kind) = kind_at(byte) else {
        let fault = TypeFault::UnknownCode;
        return Err(Stop::Fault(At { fault, at }));
    };
    Ok((Code { kind, at }, content))
}

/// The bounds of what stands inside a value whose code stands at `at`: up to the bytes that follow,
/// and what is cut off there disagrees with the size.
pub(crate) fn bounds_inside(at: usize, end: usize, rest: &[u8]) -> Bounds
    ensures { result ≡ record { cut = fault_at fault.Count at; end = end - length rest.now } }
{
    let cut = At {
        fault: TypeFault::Count,
        at,
    };
    let end = place(end, rest);
    Bounds { cut, end }
}

/// The content of a value that may hold no other.
fn flat_of(
    alloc: Global,
    room: u32,
    code: Code,
    bounds: Bounds,
    content: &[u8],
) -> Result<((Value10, u32), &[u8]), Stop<Fault>>
    ensures { Gives (λ x. ((value_tree x.0.0, x.0.1), x.1.now)) result
        (flat_in room code.kind code.at bounds.cut bounds.end content.now) }
{
    match code.kind {
        Kind::Single(kind) => {
            let (value, rest) = single_of(alloc, kind, bounds, content)?;
            Ok(((value, room), rest))
        }
        Kind::EmptyList | Kind::List(_) | Kind::Map(_) | Kind::Array(_) | Kind::Described => {
            let fault = TypeFault::Depth;
            Err(Stop::Fault(At { fault, at: code.at }))
        }
    }
}

/// A value of at most this depth.
#[cycle(nested)]
pub(crate) fn value_of(
    alloc: Global,
    depth: u8,
    room: u32,
    bounds: Bounds,
    bytes: &[u8],
) -> Result<((Value10, u32), &[u8]), Stop<Fault>>
    ensures { Gives (λ x. ((value_tree x.0.0, x.0.1), x.1.now)) result
        (value_in depth room bounds.cut bounds.end bytes.now) }
{
    let (code, content) = code_in(bounds, bytes)?;
    content_of(alloc, depth, room, code, bounds, content)
}

/// The content of a value of at most this depth.
#[cycle(nested)]
#[tactic(auto, using(crate::proofs::Levels::contents_is))]
fn content_of(
    alloc: Global,
    depth: u8,
    room: u32,
    code: Code,
    bounds: Bounds,
    content: &[u8],
) -> Result<((Value10, u32), &[u8]), Stop<Fault>>
    ensures { Gives (λ x. ((value_tree x.0.0, x.0.1), x.1.now)) result
        (contents_in depth room code.kind code.at bounds.cut bounds.end content.now) }
{
    if depth == 0 {
        flat_of(alloc, room, code, bounds, content)
    } else {
        deep_of(alloc, depth - 1, room, code, bounds, content)
    }
}

/// The content of a value that may hold values of at most this depth.
#[cycle(nested)]
fn deep_of(
    alloc: Global,
    depth: u8,
    room: u32,
    code: Code,
    bounds: Bounds,
    content: &[u8],
) -> Result<((Value10, u32), &[u8]), Stop<Fault>>
    ensures { Gives (λ x. ((value_tree x.0.0, x.0.1), x.1.now)) result
        (deep_in (level depth) room code.kind code.at bounds.cut bounds.end content.now) }
{
    match code.kind {
        Kind::Single(kind) => {
            let (value, rest) = single_of(alloc, kind, bounds, content)?;
            Ok(((value, room), rest))
        }
        Kind::EmptyList => Ok(((Value10::List(ValueList::empty(alloc)), room), content)),
        Kind::List(size) => {
            let ((list, room), rest) = list_of(alloc, depth, room, size, code.at, bounds, content)?;
            Ok(((Value10::List(list), room), rest))
        }
        Kind::Map(size) => {
            let ((map, room), rest) = map_of(alloc, depth, room, size, code.at, bounds, content)?;
            Ok(((Value10::Map(map), room), rest))
        }
        Kind::Array(size) => {
            let ((list, room), rest) = array_of(
                alloc, depth, room, size, code.at, bounds, content,
            )?;
            Ok(((Value10::Array(list), room), rest))
        }
        Kind::Described => {
            let ((descriptor, room), rest) = value_of(alloc, depth, room, bounds, content)?;
            let ((value, room), rest) = value_of(alloc, depth, room, bounds, rest)?;
            let descriptor = Inner::new(alloc, descriptor)?;
            let value = Inner::new(alloc, value)?;
            Ok(((Value10::Described(descriptor, value), room), rest))
        }
    }
}

/// The values of a list, behind its size, whose code stands at `at`.
#[cycle(nested)]
fn list_of(
    alloc: Global,
    depth: u8,
    room: u32,
    size: Size,
    at: usize,
    bounds: Bounds,
    content: &[u8],
) -> Result<((ValueList, u32), &[u8]), Stop<Fault>>
    ensures { Gives (λ x. ((x.0.0, x.0.1), x.1.now)) result
        (filled_in (size_width size) at (items_in (size_width size)
        (value_in depth) room) bounds.cut bounds.end content.now) }
{
    let (body, rest) = bytes_in(size, bounds.cut, content)?;
    let inside = bounds_inside(at, bounds.end, rest);
    let (count, items) = count_in(size, inside.cut, body)?;
    let ((list, room), left) = values_of(alloc, depth, room, count, inside, items)?;
    if !left.is_empty() {
        return Err(Stop::Fault(inside.cut));
    }
    Ok(((list, room), rest))
}

/// So many values.
#[cycle(nested)]
fn values_of(
    alloc: Global,
    depth: u8,
    room: u32,
    count: u32,
    bounds: Bounds,
    bytes: &[u8],
) -> Result<((ValueList, u32), &[u8]), Stop<Fault>>
    ensures { Gives (λ x. ((x.0.0, x.0.1), x.1.now)) result
        (row_in (λ room. value_in depth room bounds.cut) count room bounds.end bytes.now) }
{
    let mut list = ValueList::empty(alloc);
    let mut spare = room;
    let mut rest = bytes;
    let mut done = 0;
    while done < count {
        let ((value, left), after) = value_of(alloc, depth, spare, bounds, rest)?;
        list.push(value)?;
        spare = left;
        rest = after;
        done += 1;
    }
    Ok(((list, spare), rest))
}

/// The pairs of a map, behind its size, whose code stands at `at`.
#[cycle(nested)]
fn map_of(
    alloc: Global,
    depth: u8,
    room: u32,
    size: Size,
    at: usize,
    bounds: Bounds,
    content: &[u8],
) -> Result<((PairList, u32), &[u8]), Stop<Fault>>
    ensures { Gives (λ x. ((x.0.0, x.0.1), x.1.now)) result
        (filled_in (size_width size) at (entries_in (size_width size)
        (value_in depth) room) bounds.cut bounds.end content.now) }
{
    let (body, rest) = bytes_in(size, bounds.cut, content)?;
    let inside = bounds_inside(at, bounds.end, rest);
    let (count, entries) = count_in(size, inside.cut, body)?;
    if count % 2 != 0 {
        return Err(Stop::Fault(inside.cut));
    }
    let ((list, room), left) = pairs_of(alloc, depth, room, count / 2, inside, entries)?;
    if !left.is_empty() {
        return Err(Stop::Fault(inside.cut));
    }
    Ok(((list, room), rest))
}

/// So many pairs of key and value.
#[cycle(nested)]
fn pairs_of(
    alloc: Global,
    depth: u8,
    room: u32,
    count: u32,
    bounds: Bounds,
    bytes: &[u8],
) -> Result<((PairList, u32), &[u8]), Stop<Fault>>
    ensures { Gives (λ x. ((x.0.0, x.0.1), x.1.now)) result
        (row_in (two_in (λ room. value_in depth room bounds.cut)) count room bounds.end
        bytes.now) }
{
    let mut list = PairList::empty(alloc);
    let mut spare = room;
    let mut rest = bytes;
    let mut done = 0;
    while done < count {
        let (((key, value), left), after) = pair_of(alloc, depth, spare, bounds, rest)?;
        list.push((key, value))?;
        spare = left;
        rest = after;
        done += 1;
    }
    Ok(((list, spare), rest))
}

/// A key and its value.
#[cycle(nested)]
fn pair_of(
    alloc: Global,
    depth: u8,
    room: u32,
    bounds: Bounds,
    bytes: &[u8],
) -> Result<(((Value10, Value10), u32), &[u8]), Stop<Fault>>
    ensures { Gives (λ x. ((pair_trees x.0.0, x.0.1), x.1.now)) result
        (two_in (λ room. value_in depth room bounds.cut) room bounds.end bytes.now) }
{
    let ((key, room), rest) = value_of(alloc, depth, room, bounds, bytes)?;
    let ((value, room), rest) = value_of(alloc, depth, room, bounds, rest)?;
    Ok((((key, value), room), rest))
}

/// The elements of an array, behind its size, whose code stands at `at`.
#[cycle(nested)]
fn array_of(
    alloc: Global,
    depth: u8,
    room: u32,
    size: Size,
    at: usize,
    bounds: Bounds,
    content: &[u8],
) -> Result<((ValueList, u32), &[u8]), Stop<Fault>>
    ensures { Gives (λ x. ((x.0.0, x.0.1), x.1.now)) result
        (filled_in (size_width size) at (elements_in (size_width size)
        (level depth) room) bounds.cut bounds.end content.now) }
{
    let (body, rest) = bytes_in(size, bounds.cut, content)?;
    let inside = bounds_inside(at, bounds.end, rest);
    let (count, shape) = count_in(size, inside.cut, body)?;
    let ((shape, room), elements) = shape_of(alloc, depth, room, inside, shape)?;
    let room = room_after(room, count, shape.element_load(), inside.cut)?;
    // The last code of the constructor is the byte before the elements.
    let at = place(inside.end, elements).saturating_sub(1);
    let ((list, room), left) = elements_of(
        alloc, depth, room, count, &shape, at, inside, elements,
    )?;
    if !left.is_empty() {
        return Err(Stop::Fault(inside.cut));
    }
    Ok(((list, room), rest))
}

/// The constructor of an array whose descriptors have at most this depth.
#[cycle(nested)]
fn shape_of(
    alloc: Global,
    depth: u8,
    room: u32,
    bounds: Bounds,
    bytes: &[u8],
) -> Result<((Shape, u32), &[u8]), Stop<Fault>>
    ensures { Gives (λ x. ((shape_data x.0.0, x.0.1), x.1.now)) result
        (shape_in depth room bounds.cut bounds.end bytes.now) }
{
    let mut descriptors = ValueList::empty(alloc);
    let mut spare = room;
    let mut rest = bytes;
    // Each code has a byte, so there are no more codes than bytes.
    let mut most = bytes.len();
    while most > 0 {
        let (code, after) = code_in(bounds, rest)?;
        let Kind::Described = code.kind else {
            let kind = code.kind;
            return Ok(((Shape { descriptors, kind }, spare), after));
        };
        let ((descriptor, left), after) = value_of(alloc, depth, spare, bounds, after)?;
        descriptors.push(descriptor)?;
        spare = left;
        rest = after;
        most -= 1;
    }
    Err(Stop::Fault(bounds.cut))
}

/// So many elements of this constructor, whose last code stands at `at`.
#[cycle(nested)]
fn elements_of<'a>(
    alloc: Global,
    depth: u8,
    room: u32,
    count: u32,
    shape: &Shape,
    at: usize,
    bounds: Bounds,
    bytes: &'a [u8],
) -> Result<((ValueList, u32), &'a [u8]), Stop<Fault>>
    ensures { Gives (λ x. ((x.0.0, x.0.1), x.1.now)) result
        (row_in (λ room. element_in depth room (shape_data shape.now) at bounds.cut) count room
        bounds.end bytes.now) }
{
    let mut list = ValueList::empty(alloc);
    let mut spare = room;
    let mut rest = bytes;
    let mut done = 0;
    while done < count {
        let ((value, left), after) = shaped_of(alloc, depth, spare, shape, at, bounds, rest)?;
        list.push(value)?;
        spare = left;
        rest = after;
        done += 1;
    }
    Ok(((list, spare), rest))
}

/// An element of this constructor, whose last code stands at `at`.
#[cycle(nested)]
fn shaped_of<'a>(
    alloc: Global,
    depth: u8,
    room: u32,
    shape: &Shape,
    at: usize,
    bounds: Bounds,
    content: &'a [u8],
) -> Result<((Value10, u32), &'a [u8]), Stop<Fault>>
    ensures { Gives (λ x. ((value_tree x.0.0, x.0.1), x.1.now)) result
        (element_in depth room (shape_data shape.now) at bounds.cut bounds.end content.now) }
{
    let descriptors = &shape.descriptors.items;
    let kind = shape.kind;
    element_of(
        alloc,
        depth,
        room,
        descriptors,
        Code { kind, at },
        bounds,
        content,
    )
}

/// An element behind these descriptors, the outermost first, and this code.
#[cycle(nested)]
fn element_of<'a>(
    alloc: Global,
    depth: u8,
    room: u32,
    descriptors: &[Value10],
    code: Code,
    bounds: Bounds,
    content: &'a [u8],
) -> Result<((Value10, u32), &'a [u8]), Stop<Fault>>
    ensures { Gives (λ x. ((value_tree x.0.0, x.0.1), x.1.now)) result
        (element_in depth room
        (map value_tree descriptors.now, code.kind) code.at bounds.cut bounds.end content.now) }
{
    let Some((descriptor, inner)) = descriptors.split_first() else {
        return content_of(alloc, depth, room, code, bounds, content);
    };
    if depth == 0 || !is_within(descriptor, depth - 1) {
        let fault = TypeFault::Depth;
        return Err(Stop::Fault(At { fault, at: code.at }));
    }
    let ((value, room), rest) = element_of(alloc, depth - 1, room, inner, code, bounds, content)?;
    let descriptor = Inner::new(alloc, copy_value(alloc, descriptor)?)?;
    let value = Inner::new(alloc, value)?;
    Ok(((Value10::Described(descriptor, value), room), rest))
}

/// The bounds of an input.
pub(crate) fn bounds_of(bytes: &[u8]) -> Bounds
    ensures { result ≡ record {
      cut = fault_at fault.Cut (length bytes.now);
      end = length bytes.now;
    } }
{
    let end = bytes.len();
    let fault = TypeFault::Cut;
    let cut = At { fault, at: end };
    Bounds { cut, end }
}

/// The bytes from an offset on.
pub(crate) fn left_at(bytes: &[u8], at: usize) -> &[u8]
    ensures { result.now ≡ drop at bytes.now }
{
    bytes.get(at..).unwrap_or(&[])
}

/// The greatest depth of a value.
pub(crate) const MOST_DEPTH: u8 = 16;

/// The value that stands at `at`, and the offset after it.
fn value_from(alloc: Global, bytes: &[u8], at: usize) -> Result<(Value10, usize), Stop<Fault>>
    ensures { Gives (λ x. (value_tree x.0, x.1)) result (value_at bytes.now at) }
{
    let bounds = bounds_of(bytes);
    let left = left_at(bytes, at);
    let ((value, _), rest) = value_of(alloc, MOST_DEPTH, MOST_LOAD, bounds, left)?;
    Ok((value, place(bounds.end, rest)))
}

/// The value that stands at `at` (AMQP 1.0 1.6), and the offset after it; offsets are in bytes from
/// the front of `bytes`. Any of a type's encodings is taken.
///
/// # Errors
///
/// A `TypeFault` exactly where no value of depth 16 or less stands at `at`, and where it is:
/// `UnknownCode` at the code, or at the byte of a boolean; `Cut` at the length of the input;
/// `NotUtf8` and `NotAscii` at the first byte of the content; `Depth` at the code, which is the
/// last one of the constructor for an element of an array; `Count` at the code of the list, the map
/// or the array. The faults of a value are looked for in the order `UnknownCode`, `Depth`, `Cut`,
/// `Count` for a wrong count, the fault of its text or those of what it holds in order, and `Count`
/// for bytes left over. The constructor of an array, descriptors and all, is read before the count
/// is tested, and its descriptors count in the depth of the elements alone.
///
/// Elements take memory that no bytes stand for: each has a copy of its descriptors, which takes as
/// many as values stand in it, and one more for each 64 bytes of a text; one without bytes and
/// descriptors takes one. All arrays inside the value together may take 65,536; the array that
/// passes it is `Count`.
///
/// `Memory` where the allocator has no room.
pub fn read_value(
    alloc: Global,
    bytes: &[u8],
    at: usize,
) -> Result<Result<(Value10, usize), At<TypeFault>>, Memory>
    // What is read is spelled so.
    ensures found { IfOk result (λ read. IfOk read (λ x.
        (x.1 ≤ length bytes.now) × IsValue (value_tree x.0) (take (x.1 - at)
        (drop at bytes.now)))) }
    ensures depth { IfOk result (λ read. IfOk read (λ x. depth (value_tree x.0) ≤ 16)) }
    // What is spelled so is read, whatever follows.
    ensures only { (v : Tree) (text rest : List ℕ)
        → IsValue v text → drop at bytes.now ≡ text ++ rest
        → IfOk result (λ read. IsOkAnd read (λ x. (value_tree x.0 ≡ v) × (x.1
        ≡ at + length text))) }
    // Which the first fault is, and where.
    ensures fault { IfOk result (λ read. IfErr read (IsFaultAt bytes.now at)) }
    // Which value is read, or which fault is told.
    ensures exact { IfOk result (λ read. seen read ≡ value_at bytes.now at) }
{
    match value_from(alloc, bytes, at) {
        Ok(read) => Ok(Ok(read)),
        Err(Stop::Memory) => Err(Memory),
        Err(Stop::Fault(fault)) => Ok(Err(fault)),
    }
}
