//! Values that aren't built (AMQP 1.0 1.6): where they stand, or the bytes that spell them, and what
//! they are at their first level.

ghost use Rattle.std.specs.Prelude.{◌≡◌, ℕ, ◌-◌, ◌<◌, List, Some, Ok, false, length, take, IfOk};
ghost use Rattle.std.specs.Prelude.{IfSome, IfNone};
ghost use Rattle.std.specs.Prelude.{option_map, slice_get};
ghost use Rattle.types_10.specs.Tree.{Tree, trees_of};
ghost use Rattle.types_10.specs.View.{value_tree};
ghost use Rattle.types_10.specs.Kinds.{size_width};
ghost use Rattle.types_10.specs.declared.fault.TypeFault.TheVariants as fault;
ghost use Rattle.types_10.specs.Reading.{fault_at, bytes_in, count_in, code_in, filled_in, row_in};
ghost use Rattle.types_10.specs.Reading.{elements_in, level, value_in, value_at};
ghost use Rattle.types_10.specs.Spelled.{told, told_row, IsRead, IsCounted, is_scalar};
ghost use Rattle.types_10.specs.Spelled.{described_in, list_in};
ghost use Rattle.types_10.specs.Spelled.{is_map, each_is_symbol, are_symbols, symbol_kind};

use crate::fault::TypeFault;
use crate::kind::{Kind, Single, Size, Text};
use crate::reading::{
    Bounds, Code, MOST_DEPTH, MOST_LOAD, bounds_inside, bounds_of, bytes_in, code_in, count_in,
    left_at, single_of, value_of,
};
use crate::skipping::{shape_past, skip_value, value_past};
use crate::value::Value10;
use std::alloc::Global;
use std::fmt;
use std::marker::Model;
use wire_base::{At, ByteText, Memory, Stop};

/// A value where it stands, which isn't built. Contracts see it as the value.
#[derive(Drop)]
pub struct Spelled<'a> {
    /// How deep it may be there.
    depth: u8,
    /// The room that its elements have there.
    room: u32,
    bounds: Bounds,
    /// Its bytes, and what follows.
    text: &'a [u8],
}

impl<'a> Model for Spelled<'a> {
    ghost use Rattle.types_10.specs.Tree.{Tree};
    ghost use Rattle.types_10.specs.TreeCode.{tree_code};

    ghost Value = { Tree };

    ghost coded = { tree_code };

    ghost use Rattle.types_10.specs.Reading.{value_in};
    ghost use Rattle.types_10.specs.Spelled.{told, IsRead};

    ghost view = { λ a. told (value_in a.depth a.room a.bounds.cut a.bounds.end a.text.now) };

    ghost invariant = { λ a. IsRead (value_in a.depth a.room a.bounds.cut a.bounds.end a.text.now) };
}

/// The values of a list where they stand, which aren't built. Contracts see it as the list of them.
#[derive(Drop)]
pub struct SpelledList<'a> {
    /// How deep each may be there.
    depth: u8,
    /// The room that their elements have.
    room: u32,
    bounds: Bounds,
    count: u32,
    /// Their bytes.
    text: &'a [u8],
}

impl<'a> Model for SpelledList<'a> {
    ghost use Rattle.std.specs.Prelude.{List};
    ghost use Rattle.types_10.specs.Tree.{Tree};
    ghost use Rattle.types_10.specs.TreeCode.{trees_code};

    ghost Value = { List Tree };

    ghost coded = { trees_code };

    ghost use Rattle.types_10.specs.Reading.{row_in, value_in};
    ghost use Rattle.types_10.specs.Spelled.{told_row, IsRead};

    ghost view = { λ a. told_row (row_in (λ room. value_in a.depth room a.bounds.cut) a.count
        a.room a.bounds.end a.text.now) };

    ghost invariant = { λ a. IsRead (row_in (λ room. value_in a.depth room a.bounds.cut) a.count
        a.room a.bounds.end a.text.now) };
}

/// The bytes that spell a value, kept as they are. Contracts see it as the value.
#[derive(Drop)]
pub struct Spelling10 {
    /// How deep the value may be.
    depth: u8,
    /// The room that its elements have.
    room: u32,
    text: ByteText,
}

impl Model for Spelling10 {
    ghost use Rattle.std.specs.Prelude.{length};
    ghost use Rattle.types_10.specs.Tree.{Tree};
    ghost use Rattle.types_10.specs.TreeCode.{tree_code};

    ghost Value = { Tree };

    ghost coded = { tree_code };

    ghost use Rattle.types_10.specs.declared.fault.TypeFault.TheVariants as fault;
    ghost use Rattle.types_10.specs.Reading.{fault_at, value_in};
    ghost use Rattle.types_10.specs.Spelled.{told, IsRead};

    ghost view = { λ a. told (value_in a.depth a.room (fault_at fault.Cut (length a.text))
        (length a.text) a.text) };

    ghost invariant = { λ a. IsRead (value_in a.depth a.room (fault_at fault.Cut (length a.text))
        (length a.text) a.text) };
}

/// The code of the value that stands there, and its content.
fn code_there(depth: u8, room: u32, bounds: Bounds, text: &[u8]) -> (Code, &[u8])
    requires { IsRead (value_in depth room bounds.cut bounds.end text.now) }
    ensures { code_in bounds.cut bounds.end text.now
        ≡ Ok ((result.0.kind, result.0.at), result.1.now) }
{
    let (_depth, _room) = (depth, room);
    match code_in(bounds, text) {
        Ok(coded) => coded,
        Err(_) => unreachable!(),
    }
}

/// The room that the value leaves that stands there, and the bytes after it.
fn past(depth: u8, room: u32, bounds: Bounds, text: &[u8]) -> (u32, &[u8])
    requires { IsRead (value_in depth room bounds.cut bounds.end text.now) }
    ensures { value_in depth room bounds.cut bounds.end text.now
        ≡ Ok ((told (value_in depth room bounds.cut bounds.end text.now), result.0), result.1.now) }
{
    match value_past(depth, room, bounds, text) {
        Ok(((_, left), rest)) => (left, rest),
        Err(_) => unreachable!(),
    }
}

/// The bounds, the count and the bytes of what stands inside a value whose code stands at `at`.
fn counted(size: Size, at: usize, bounds: Bounds, content: &[u8]) -> (Bounds, u32, &[u8])
    requires { IsCounted (size_width size) at bounds.cut content.now }
    ensures { (body : List ℕ × List ℕ) (items : ℕ × List ℕ)
        → bytes_in bounds.cut (size_width size) content.now ≡ Ok body
        → count_in (fault_at fault.Count at) (size_width size) body.0 ≡ Ok items
        → (result.0 ≡ record { cut = fault_at fault.Count at; end = bounds.end - length body.1 })
        × (result.1 ≡ items.0) × (result.2.now ≡ items.1) }
{
    let Ok((body, rest)) = bytes_in(size, bounds.cut, content) else {
        unreachable!()
    };
    let inside = bounds_inside(at, bounds.end, rest);
    match count_in(size, inside.cut, body) {
        Ok((count, items)) => (inside, count, items),
        Err(_) => unreachable!(),
    }
}

/// The value at this place of so many, the first of which stands there.
fn nth_of<'a>(
    depth: u8,
    room: u32,
    bounds: Bounds,
    text: &'a [u8],
    count: u32,
    place: usize,
) -> Spelled<'a>
    requires read { IsRead (row_in (λ room. value_in depth room bounds.cut) count room bounds.end
        text.now) }
    requires there { place < count }
    ensures { Some result ≡ slice_get (told_row (row_in (λ room. value_in depth room bounds.cut)
        count room bounds.end text.now)) place }
{
    let _count = count;
    let mut spare = room;
    let mut rest = text;
    let mut before = place;
    while before > 0 {
        let (left, after) = past(depth, spare, bounds, rest);
        spare = left;
        rest = after;
        before -= 1;
    }
    Spelled {
        depth,
        room: spare,
        bounds,
        text: rest,
    }
}

/// The bytes of a value, of which so many follow.
fn front_of<'a>(text: &'a [u8], rest: &[u8]) -> &'a [u8]
    ensures { result.now ≡ take (length text.now - length rest.now) text.now }
{
    let length = text.len().saturating_sub(rest.len());
    text.get(..length).unwrap_or(&[])
}

/// The bytes of the value that stands there.
fn kept_of(
    alloc: Global,
    depth: u8,
    room: u32,
    bounds: Bounds,
    text: &[u8],
) -> Result<Spelling10, Memory>
    requires { IsRead (value_in depth room bounds.cut bounds.end text.now) }
    ensures { IfOk result (λ kept. kept ≡ told (value_in depth room bounds.cut bounds.end text.now)) }
{
    let (_, rest) = past(depth, room, bounds, text);
    let text = ByteText::copy_of(alloc, front_of(text, rest))?;
    Ok(Spelling10 { depth, room, text })
}

fn is_symbol_kind(kind: Kind) -> bool
    ensures { result ≡ symbol_kind kind }
{
    matches!(kind, Kind::Single(Single::Text(Text::Symbol, _)))
}

/// Whether the elements of an array are symbols, whose code stands at `at`.
fn holds_symbols(
    depth: u8,
    room: u32,
    size: Size,
    at: usize,
    bounds: Bounds,
    content: &[u8],
) -> bool
    requires { IsRead (filled_in (size_width size) at (elements_in (size_width size)
        (level depth) room) bounds.cut bounds.end content.now) }
    ensures { (ts : (List Tree × ℕ) × List ℕ)
        → filled_in (size_width size) at (elements_in (size_width size) (level depth) room)
        bounds.cut bounds.end content.now ≡ Ok ts
        → result ≡ each_is_symbol (trees_of ts.0.0) }
{
    let (inside, count, shape) = counted(size, at, bounds, content);
    match shape_past(depth, room, inside, shape) {
        Ok(((shape, _), _)) => {
            count == 0 || (shape.front.count == 0 && is_symbol_kind(shape.kind))
        }
        Err(_) => unreachable!(),
    }
}

impl<'a> Spelled<'a> {
    /// The value that stands at `at`, and the offset after it.
    ///
    /// # Errors
    ///
    /// The fault that `read_value` tells, at its place.
    pub fn at(bytes: &'a [u8], at: usize) -> Result<(Spelled<'a>, usize), At<TypeFault>>
        ensures { result ≡ value_at bytes.now at }
    {
        match skip_value(bytes, at) {
            Ok(after) => {
                let value = Spelled {
                    depth: MOST_DEPTH,
                    room: MOST_LOAD,
                    bounds: bounds_of(bytes),
                    text: left_at(bytes, at),
                };
                Ok((value, after))
            }
            Err(fault) => Err(fault),
        }
    }

    /// The value, where it holds no other.
    ///
    /// # Errors
    ///
    /// `Memory` where the allocator has no room for a text.
    pub fn scalar(&self, alloc: Global) -> Result<Option<Value10>, Memory>
        ensures value { IfOk result (λ x. IfSome x (λ v. value_tree v ≡ self.now)) }
        ensures none { IfOk result (λ x. IfNone x (is_scalar self.now ≡ false)) }
    {
        let (code, content) = code_there(self.depth, self.room, self.bounds, self.text);
        let Kind::Single(kind) = code.kind else {
            return Ok(None);
        };
        match single_of(alloc, kind, self.bounds, content) {
            Ok((value, _)) => Ok(Some(value)),
            Err(Stop::Memory) => Err(Memory),
            Err(Stop::Fault(_)) => unreachable!(),
        }
    }

    /// The descriptor and the value that it describes.
    pub fn described(&self) -> Option<(Spelled<'a>, Spelled<'a>)>
        ensures { result ≡ described_in self.now }
    {
        let bounds = self.bounds;
        let (code, content) = code_there(self.depth, self.room, bounds, self.text);
        let Kind::Described = code.kind else {
            return None;
        };
        let depth = self.depth.saturating_sub(1);
        let room = self.room;
        let (left, rest) = past(depth, room, bounds, content);
        let descriptor = Spelled {
            depth,
            room,
            bounds,
            text: content,
        };
        let value = Spelled {
            depth,
            room: left,
            bounds,
            text: rest,
        };
        Some((descriptor, value))
    }

    /// The values of a list.
    pub fn list(&self) -> Option<SpelledList<'a>>
        ensures { option_map trees_of result ≡ list_in self.now }
    {
        let (room, bounds) = (self.room, self.bounds);
        let (code, content) = code_there(self.depth, room, bounds, self.text);
        let depth = self.depth.saturating_sub(1);
        match code.kind {
            Kind::EmptyList => Some(SpelledList {
                depth,
                room,
                bounds,
                count: 0,
                text: content,
            }),
            Kind::List(size) => {
                let (bounds, count, text) = counted(size, code.at, bounds, content);
                Some(SpelledList {
                    depth,
                    room,
                    bounds,
                    count,
                    text,
                })
            }
            _ => None,
        }
    }

    /// Whether the value is a map.
    pub fn is_map(&self) -> bool
        ensures { result ≡ is_map self.now }
    {
        let (code, _) = code_there(self.depth, self.room, self.bounds, self.text);
        matches!(code.kind, Kind::Map(_))
    }

    /// Whether the value is one symbol or an array of symbols.
    pub fn are_symbols(&self) -> bool
        ensures { result ≡ are_symbols self.now }
    {
        let (code, content) = code_there(self.depth, self.room, self.bounds, self.text);
        let Kind::Array(size) = code.kind else {
            return is_symbol_kind(code.kind);
        };
        let depth = self.depth.saturating_sub(1);
        holds_symbols(depth, self.room, size, code.at, self.bounds, content)
    }

    /// The value itself.
    ///
    /// # Errors
    ///
    /// `Memory` where the allocator has no room.
    pub fn read(&self, alloc: Global) -> Result<Value10, Memory>
        ensures { IfOk result (λ value. value_tree value ≡ self.now) }
    {
        match value_of(alloc, self.depth, self.room, self.bounds, self.text) {
            Ok(((value, _), _)) => Ok(value),
            Err(Stop::Memory) => Err(Memory),
            Err(Stop::Fault(_)) => unreachable!(),
        }
    }

    /// The same, with bytes of its own.
    ///
    /// # Errors
    ///
    /// `Memory` where the allocator has no room for the bytes.
    pub fn keep(&self, alloc: Global) -> Result<Spelling10, Memory>
        ensures { IfOk result (λ kept. kept ≡ self.now) }
    {
        kept_of(alloc, self.depth, self.room, self.bounds, self.text)
    }
}

impl<'a> SpelledList<'a> {
    /// Value `k`, counted from 0; `None` exactly where there is none. Those before it are read past.
    pub fn get(&self, k: usize) -> Option<Spelled<'a>>
        ensures { result ≡ slice_get self.now k }
    {
        if k >= self.count as usize {
            return None;
        }
        let value = nth_of(self.depth, self.room, self.bounds, self.text, self.count, k);
        Some(value)
    }
}

impl fmt::Debug for Spelling10 {
    fn fmt<W: fmt::Write>(&self, f: &mut fmt::Formatter<W>) -> fmt::Result {
        let text = &self.text;
        write!(f, "Spelling10({text:?})")
    }
}

impl Spelling10 {
    /// The value, where its bytes stand.
    pub fn spelled(&self) -> Spelled<'_>
        ensures { result ≡ self.now }
    {
        let text = self.text.as_slice();
        Spelled {
            depth: self.depth,
            room: self.room,
            bounds: bounds_of(text),
            text,
        }
    }
}
