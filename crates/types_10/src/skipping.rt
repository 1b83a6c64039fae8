//! Reading past values (AMQP 1.0 1.6): where a value ends, or its first fault. Nothing is built, so
//! no memory is taken.
//!
//! An array counts what copies of its descriptors take, and how deep they are, so this is told of
//! each value that is read past. The sums saturate, so that none of them overflows.

ghost use Rattle.std.specs.Prelude.{◌≡◌, ℕ, ◌+◌, ◌-◌, ◌≤◌, List, ◌++◌, length, take, drop, IfOk, IfErr};
ghost use Rattle.std.specs.Prelude.{IsOkAnd, true};
ghost use Rattle.wire_base.specs.Reading.{Reads, made};
ghost use Rattle.types_10.specs.Tree.{Scalar, Tree, scalar};
ghost use Rattle.types_10.specs.View.{value_tree};
ghost use Rattle.types_10.specs.Kinds.{size_width, is_bare};
ghost use Rattle.types_10.specs.Loads.{weight, element_load};
ghost use Rattle.types_10.specs.Measures.{capped};
ghost use Rattle.types_10.specs.Grammar.{IsValue};
ghost use Rattle.types_10.specs.Faults.{IsFaultAt};
ghost use Rattle.types_10.specs.Reading.{Fault, Tells, Shape, single_in, flat_in, deep_in, filled_in};
ghost use Rattle.types_10.specs.Reading.{row_in, items_in, entries_in, elements_in, level, value_in};
ghost use Rattle.types_10.specs.Reading.{contents_in, shape_in, element_in, value_at};
ghost use Rattle.types_10.specs.Skipping.{with_room, extent, each_extent, pairs_extent, joined, times};
ghost use Rattle.types_10.specs.Skipping.{outer, no_extent, behind, no_front, one_more, outline};
ghost use Rattle.types_10.specs.Skipping.{end_of};

use crate::fault::TypeFault;
use crate::kind::{Kind, Single, Size};
use crate::reading::{
    Bounds, Code, Fault, MOST_DEPTH, MOST_LOAD, boolean_of, bounds_inside, bounds_of, bytes_in,
    char_of, code_in, count_in, left_at, octet_of, room_after, sixteen_of, text_in, wide_of,
};
use crate::value::Value10;
use crate::weight::{element_load, weight_of};
use wire_base::{At, Stop, place};

/// What is known of a value that was read past, or of values together.
#[derive(Clone, Copy)]
pub(crate) struct Extent {
    /// What a copy takes.
    weight: usize,
    /// How deep it is.
    depth: usize,
}

/// What is known of the descriptors of a constructor.
#[derive(Clone, Copy)]
pub(crate) struct Front {
    /// What copies of them take.
    copies: usize,
    /// How many there are.
    pub(crate) count: usize,
    /// How deep they make a value that holds no other.
    depth: usize,
}

/// What is known of the constructor of an array.
#[derive(Clone, Copy)]
pub(crate) struct Outline {
    pub(crate) front: Front,
    pub(crate) kind: Kind,
}

impl Extent {
    fn none() -> Extent
        ensures { result ≡ no_extent }
    {
        Extent {
            weight: 0,
            depth: 0,
        }
    }

    /// That of values, and of others.
    fn joined(self, other: Extent) -> Extent
        ensures { result ≡ joined self other }
    {
        Extent {
            weight: self.weight.saturating_add(other.weight),
            depth: self.depth.max(other.depth),
        }
    }

    /// That of so many values that are alike, one at least.
    fn times(self, count: u32) -> Extent
        ensures { result ≡ times count self }
    {
        Extent {
            weight: (count as usize).saturating_mul(self.weight),
            depth: self.depth,
        }
    }

    /// That of a value that holds these.
    fn outer(self) -> Extent
        ensures { result ≡ outer self }
    {
        Extent {
            weight: self.weight.saturating_add(1),
            depth: self.depth.saturating_add(1),
        }
    }
}

impl Front {
    fn none() -> Front
        ensures { result ≡ no_front }
    {
        Front {
            copies: 0,
            count: 0,
            depth: 0,
        }
    }

    /// With one more descriptor inside.
    fn one_more(self, descriptor: Extent) -> Front
        ensures { result ≡ one_more self descriptor }
    {
        let inside = self
            .count
            .saturating_add(descriptor.depth.saturating_add(1));
        Front {
            copies: self.copies.saturating_add(descriptor.weight),
            count: self.count.saturating_add(1),
            depth: self.depth.max(inside),
        }
    }

    /// The extent of a value behind these descriptors.
    fn behind(self, value: Extent) -> Extent
        ensures { result ≡ behind self value }
    {
        let copies = self.copies.saturating_add(self.count);
        let inside = self.count.saturating_add(value.depth);
        Extent {
            weight: copies.saturating_add(value.weight),
            depth: self.depth.max(inside),
        }
    }
}

impl Outline {
    /// What an element takes besides its bytes.
    fn element_load(self) -> usize
        ensures { (c : Shape) → self ≡ outline c → result ≡ capped (element_load c) }
    {
        element_load(self.front.copies, self.kind.is_bare())
    }
}

/// What a copy of a value takes that was read.
fn weighed<'a>(
    read: Result<(Value10, &'a [u8]), Stop<Fault>>,
) -> Result<(usize, &'a [u8]), Stop<Fault>>
    ensures { (r : Reads Scalar Fault) → Tells (λ x. (value_tree x.0, x.1.now)) read.entry (made scalar r)
        → Tells (λ x. (x.0, x.1.now)) result (made (λ s. capped (weight (scalar s))) r) }
{
    let (value, rest) = read?;
    Ok((weight_of(&value), rest))
}

/// What a copy takes of a value that holds no other.
fn weight_past(kind: Single, bounds: Bounds, content: &[u8]) -> Result<(usize, &[u8]), Stop<Fault>>
    ensures { Tells (λ x. (x.0, x.1.now)) result (made (λ s. capped (weight (scalar s)))
        (single_in kind bounds.cut bounds.end content.now)) }
{
    match kind {
        Single::Bare(_) => Ok((1, content)),
        Single::Boolean => weighed(boolean_of(bounds, content)),
        Single::Octet(kind) => weighed(octet_of(kind, bounds.cut, content)),
        Single::Wide(kind) => weighed(wide_of(kind, bounds.cut, content)),
        Single::Char => weighed(char_of(bounds, content)),
        Single::Sixteen(kind) => weighed(sixteen_of(kind, bounds.cut, content)),
        Single::Text(kind, size) => {
            let (text, rest) = text_in(kind, size, bounds, content)?;
            Ok((text.len() / 64 + 1, rest))
        }
    }
}

/// A value that holds no other.
fn single_past(
    room: u32,
    kind: Single,
    bounds: Bounds,
    content: &[u8],
) -> Result<((Extent, u32), &[u8]), Stop<Fault>>
    ensures { Tells (λ x. ((x.0.0, x.0.1), x.1.now)) result (made (with_room extent)
        (made (λ s. (scalar s, room)) (single_in kind bounds.cut bounds.end content.now))) }
{
    let (weight, rest) = weight_past(kind, bounds, content)?;
    let extent = Extent { weight, depth: 0 };
    Ok(((extent, room), rest))
}

/// The content of a value that may hold no other.
fn flat_past(
    room: u32,
    code: Code,
    bounds: Bounds,
    content: &[u8],
) -> Result<((Extent, u32), &[u8]), Stop<Fault>>
    ensures { Tells (λ x. ((x.0.0, x.0.1), x.1.now)) result (made (with_room extent)
        (flat_in room code.kind code.at bounds.cut bounds.end content.now)) }
{
    match code.kind {
        Kind::Single(kind) => single_past(room, kind, bounds, content),
        Kind::EmptyList | Kind::List(_) | Kind::Map(_) | Kind::Array(_) | Kind::Described => {
            let fault = TypeFault::Depth;
            Err(Stop::Fault(At { fault, at: code.at }))
        }
    }
}

/// A value of at most this depth.
#[cycle(past)]
pub(crate) fn value_past(
    depth: u8,
    room: u32,
    bounds: Bounds,
    bytes: &[u8],
) -> Result<((Extent, u32), &[u8]), Stop<Fault>>
    ensures { Tells (λ x. ((x.0.0, x.0.1), x.1.now)) result (made (with_room extent)
        (value_in depth room bounds.cut bounds.end bytes.now)) }
{
    let (code, content) = code_in(bounds, bytes)?;
    content_past(depth, room, code, bounds, content)
}

/// The content of a value of at most this depth.
#[cycle(past)]
#[tactic(auto, using(crate::proofs::Levels::contents_is))]
fn content_past(
    depth: u8,
    room: u32,
    code: Code,
    bounds: Bounds,
    content: &[u8],
) -> Result<((Extent, u32), &[u8]), Stop<Fault>>
    ensures { Tells (λ x. ((x.0.0, x.0.1), x.1.now)) result (made (with_room extent)
        (contents_in depth room code.kind code.at bounds.cut bounds.end content.now)) }
{
    if depth == 0 {
        flat_past(room, code, bounds, content)
    } else {
        deep_past(depth - 1, room, code, bounds, content)
    }
}

/// The content of a value that may hold values of at most this depth.
#[cycle(past)]
fn deep_past(
    depth: u8,
    room: u32,
    code: Code,
    bounds: Bounds,
    content: &[u8],
) -> Result<((Extent, u32), &[u8]), Stop<Fault>>
    ensures { Tells (λ x. ((x.0.0, x.0.1), x.1.now)) result (made (with_room extent)
        (deep_in (level depth) room code.kind code.at bounds.cut bounds.end content.now)) }
{
    match code.kind {
        Kind::Single(kind) => single_past(room, kind, bounds, content),
        Kind::EmptyList => Ok(((Extent::none().outer(), room), content)),
        Kind::List(size) => {
            let ((inner, room), rest) = list_past(depth, room, size, code.at, bounds, content)?;
            Ok(((inner.outer(), room), rest))
        }
        Kind::Map(size) => {
            let ((inner, room), rest) = map_past(depth, room, size, code.at, bounds, content)?;
            Ok(((inner.outer(), room), rest))
        }
        Kind::Array(size) => {
            let ((inner, room), rest) = array_past(depth, room, size, code.at, bounds, content)?;
            Ok(((inner.outer(), room), rest))
        }
        Kind::Described => {
            let ((descriptor, room), rest) = value_past(depth, room, bounds, content)?;
            let ((value, room), rest) = value_past(depth, room, bounds, rest)?;
            Ok(((descriptor.joined(value).outer(), room), rest))
        }
    }
}

/// The values of a list, behind its size, whose code stands at `at`.
#[cycle(past)]
fn list_past(
    depth: u8,
    room: u32,
    size: Size,
    at: usize,
    bounds: Bounds,
    content: &[u8],
) -> Result<((Extent, u32), &[u8]), Stop<Fault>>
    ensures { Tells (λ x. ((x.0.0, x.0.1), x.1.now)) result (made (with_room each_extent)
        (filled_in (size_width size) at (items_in (size_width size)
        (value_in depth) room) bounds.cut bounds.end content.now)) }
{
    let (body, rest) = bytes_in(size, bounds.cut, content)?;
    let inside = bounds_inside(at, bounds.end, rest);
    let (count, items) = count_in(size, inside.cut, body)?;
    let ((inner, room), left) = values_past(depth, room, count, inside, items)?;
    if !left.is_empty() {
        return Err(Stop::Fault(inside.cut));
    }
    Ok(((inner, room), rest))
}

/// The keys and values of a map, behind its size, whose code stands at `at`.
#[cycle(past)]
fn map_past(
    depth: u8,
    room: u32,
    size: Size,
    at: usize,
    bounds: Bounds,
    content: &[u8],
) -> Result<((Extent, u32), &[u8]), Stop<Fault>>
    ensures { Tells (λ x. ((x.0.0, x.0.1), x.1.now)) result (made (with_room pairs_extent)
        (filled_in (size_width size) at (entries_in (size_width size)
        (value_in depth) room) bounds.cut bounds.end content.now)) }
{
    let (body, rest) = bytes_in(size, bounds.cut, content)?;
    let inside = bounds_inside(at, bounds.end, rest);
    let (count, entries) = count_in(size, inside.cut, body)?;
    if count % 2 != 0 {
        return Err(Stop::Fault(inside.cut));
    }
    let ((inner, room), left) = values_past(depth, room, count, inside, entries)?;
    if !left.is_empty() {
        return Err(Stop::Fault(inside.cut));
    }
    Ok(((inner, room), rest))
}

/// So many values.
#[cycle(past)]
fn values_past(
    depth: u8,
    room: u32,
    count: u32,
    bounds: Bounds,
    bytes: &[u8],
) -> Result<((Extent, u32), &[u8]), Stop<Fault>>
    ensures { Tells (λ x. ((x.0.0, x.0.1), x.1.now)) result (made (with_room each_extent)
        (row_in (λ room. value_in depth room bounds.cut) count room bounds.end bytes.now)) }
{
    let mut all = Extent::none();
    let mut spare = room;
    let mut rest = bytes;
    let mut done = 0;
    while done < count {
        let ((value, left), after) = value_past(depth, spare, bounds, rest)?;
        all = all.joined(value);
        spare = left;
        rest = after;
        done += 1;
    }
    Ok(((all, spare), rest))
}

/// The elements of an array, behind its size, whose code stands at `at`.
#[cycle(past)]
fn array_past(
    depth: u8,
    room: u32,
    size: Size,
    at: usize,
    bounds: Bounds,
    content: &[u8],
) -> Result<((Extent, u32), &[u8]), Stop<Fault>>
    ensures { Tells (λ x. ((x.0.0, x.0.1), x.1.now)) result (made (with_room each_extent)
        (filled_in (size_width size) at (elements_in (size_width size)
        (level depth) room) bounds.cut bounds.end content.now)) }
{
    let (body, rest) = bytes_in(size, bounds.cut, content)?;
    let inside = bounds_inside(at, bounds.end, rest);
    let (count, shape) = count_in(size, inside.cut, body)?;
    let ((outline, room), elements) = shape_past(depth, room, inside, shape)?;
    let room = room_after(room, count, outline.element_load(), inside.cut)?;
    // The last code of the constructor is the byte before the elements.
    let at = place(inside.end, elements).saturating_sub(1);
    let ((inner, room), left) = elements_past(depth, room, count, outline, at, inside, elements)?;
    if !left.is_empty() {
        return Err(Stop::Fault(inside.cut));
    }
    Ok(((inner, room), rest))
}

/// The constructor of an array whose descriptors have at most this depth.
#[cycle(past)]
pub(crate) fn shape_past(
    depth: u8,
    room: u32,
    bounds: Bounds,
    bytes: &[u8],
) -> Result<((Outline, u32), &[u8]), Stop<Fault>>
    ensures { Tells (λ x. ((x.0.0, x.0.1), x.1.now)) result (made (with_room outline)
        (shape_in depth room bounds.cut bounds.end bytes.now)) }
{
    let mut front = Front::none();
    let mut spare = room;
    let mut rest = bytes;
    // Each code has a byte, so there are no more codes than bytes.
    let mut most = bytes.len();
    while most > 0 {
        let (code, after) = code_in(bounds, rest)?;
        let Kind::Described = code.kind else {
            let kind = code.kind;
            return Ok(((Outline { front, kind }, spare), after));
        };
        let ((descriptor, left), after) = value_past(depth, spare, bounds, after)?;
        front = front.one_more(descriptor);
        spare = left;
        rest = after;
        most -= 1;
    }
    Err(Stop::Fault(bounds.cut))
}

/// So many elements of this constructor, whose last code stands at `at`.
#[cycle(past)]
fn elements_past(
    depth: u8,
    room: u32,
    count: u32,
    shape: Outline,
    at: usize,
    bounds: Bounds,
    bytes: &[u8],
) -> Result<((Extent, u32), &[u8]), Stop<Fault>>
    ensures { (c : Shape) → shape ≡ outline c
        → Tells (λ x. ((x.0.0, x.0.1), x.1.now)) result (made (with_room each_extent)
        (row_in (λ room. element_in depth room c at bounds.cut) count room bounds.end bytes.now)) }
{
    if shape.kind.is_bare() {
        return alike_past(depth, room, count, shape, at, bounds, bytes);
    }
    let mut all = Extent::none();
    let mut spare = room;
    let mut rest = bytes;
    let mut done = 0;
    while done < count {
        let ((value, left), after) = element_past(depth, spare, shape, at, bounds, rest)?;
        all = all.joined(value);
        spare = left;
        rest = after;
        done += 1;
    }
    Ok(((all, spare), rest))
}

/// So many elements that have no bytes. They are alike, so the first tells of the others, and a
/// count that an array of a few bytes gives costs no time.
#[cycle(past)]
fn alike_past(
    depth: u8,
    room: u32,
    count: u32,
    shape: Outline,
    at: usize,
    bounds: Bounds,
    bytes: &[u8],
) -> Result<((Extent, u32), &[u8]), Stop<Fault>>
    requires { is_bare shape.kind ≡ true }
    ensures { (c : Shape) → shape ≡ outline c
        → Tells (λ x. ((x.0.0, x.0.1), x.1.now)) result (made (with_room each_extent)
        (row_in (λ room. element_in depth room c at bounds.cut) count room bounds.end bytes.now)) }
{
    if count == 0 {
        return Ok(((Extent::none(), room), bytes));
    }
    let ((first, room), rest) = element_past(depth, room, shape, at, bounds, bytes)?;
    Ok(((first.times(count), room), rest))
}

/// An element of this constructor, whose last code stands at `at`.
#[cycle(past)]
fn element_past(
    depth: u8,
    room: u32,
    shape: Outline,
    at: usize,
    bounds: Bounds,
    content: &[u8],
) -> Result<((Extent, u32), &[u8]), Stop<Fault>>
    ensures { (c : Shape) → shape ≡ outline c
        → Tells (λ x. ((x.0.0, x.0.1), x.1.now)) result (made (with_room extent)
        (element_in depth room c at bounds.cut bounds.end content.now)) }
{
    let front = shape.front;
    if front.depth > usize::from(depth) {
        let fault = TypeFault::Depth;
        return Err(Stop::Fault(At { fault, at }));
    }
    let inside = usize::from(depth).saturating_sub(front.count);
    let kind = shape.kind;
    let code = Code { kind, at };
    let ((value, room), rest) = content_past(inside as u8, room, code, bounds, content)?;
    Ok(((front.behind(value), room), rest))
}

/// The offset after the value that stands at `at`.
fn end_from(bytes: &[u8], at: usize) -> Result<usize, Stop<Fault>>
    ensures { Tells (λ after. after) result (end_of (value_at bytes.now at)) }
{
    let bounds = bounds_of(bytes);
    let (_, rest) = value_past(MOST_DEPTH, MOST_LOAD, bounds, left_at(bytes, at))?;
    Ok(place(bounds.end, rest))
}

/// The offset after the value that stands at `at` (AMQP 1.0 1.6), as `read_value` tells it. No value
/// is built, and no memory is taken.
///
/// # Errors
///
/// The fault that `read_value` tells, at its place.
pub fn skip_value(bytes: &[u8], at: usize) -> Result<usize, At<TypeFault>>
    // A value stands there.
    ensures found { IfOk result (λ after. (after ≤ length bytes.now) × ((v : Tree)
        × IsValue v (take (after - at) (drop at bytes.now)))) }
    // What is spelled so is read past, whatever follows.
    ensures only { (v : Tree) (text rest : List ℕ)
        → IsValue v text → drop at bytes.now ≡ text ++ rest
        → IsOkAnd result (λ after. after ≡ at + length text) }
    // Which the first fault is, and where.
    ensures fault { IfErr result (IsFaultAt bytes.now at) }
    // Where the value ends that is read, or which fault is told.
    ensures exact { result ≡ end_of (value_at bytes.now at) }
{
    match end_from(bytes, at) {
        Ok(after) => Ok(after),
        Err(Stop::Fault(fault)) => Err(fault),
        Err(Stop::Memory) => unreachable!(),
    }
}
