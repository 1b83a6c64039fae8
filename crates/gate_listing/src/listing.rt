//! Listings of whole inputs.

ghost use Rattle.std.specs.Prelude.{◌≡◌, ℕ, ◌+◌, ◌≤◌, List, [], ◌++◌, codes, decimal, length};
ghost use Rattle.std.specs.Prelude.{false, true, Ok, Err, IfOk, OnErr, OnOk};
ghost use Rattle.wire_base.specs.Reading.{Gives};
ghost use Rattle.wire_base.specs.declared.stop.Stop.TheVariants.{Fault};
ghost use Rattle.gate_outside.specs.Counts.{Rose};
ghost use Rattle.gate_outside.specs.Streams.{Appends, AppendsFront};
ghost use Rattle.gate_listing.specs.Listing.{BeginsWith, EndsAll, IsListed, Piece, line};
ghost use Rattle.gate_listing.specs.Steps.{NextListed, UnitsListed, ended_by, unit_in};

use crate::fault::UnitFault;
use crate::texts::put_decimal;
use crate::{units_10, units_091};
use gate_outside::{Sink, write_all};
use std::alloc::Global;
use wire_base::{At, ByteText, Memory, Stop, place};

/// The protocol whose units a stream has.
#[derive(Clone, Copy, Debug, PartialEq, Eq)]
pub enum Dialect {
    /// AMQP 0-9-1, in frames of at most 131,072 bytes; the protocol header at the front alone.
    Amqp091,
    /// AMQP 1.0, in frames of at most 65,536 bytes.
    Amqp10,
}

/// How a listing ended.
#[derive(Clone, Copy, Debug, PartialEq, Eq)]
pub enum Listed {
    /// The input was whole units.
    Whole,
    /// The first fault, after the lines of the units before it.
    Bad(At<UnitFault>),
    /// The lines were not taken.
    OutFailed,
}

/// The line of the unit with which the bytes begin, and how many bytes the unit has.
fn first_unit(
    alloc: Global,
    dialect: Dialect,
    end: usize,
    bytes: &[u8],
) -> Result<(ByteText, usize), Stop<At<UnitFault>>>
    ensures exact { Gives (λ x. (x.0, x.1)) result (unit_in dialect end bytes.now) }
    ensures within { IfOk result (λ x. x.1 ≤ length bytes.now) }
{
    match dialect {
        Dialect::Amqp091 => units_091::first_unit(alloc, end, bytes),
        Dialect::Amqp10 => units_10::first_unit(alloc, end, bytes),
    }
}

/// A whole line: the offset, and what is said of the unit.
fn whole_line(alloc: Global, at: usize, words: &[u8]) -> Result<ByteText, Memory>
    ensures { IfOk result (λ text. text ≡ line at words.now) }
{
    let mut text = ByteText::empty(alloc);
    put_decimal(&mut text, at as u64)?;
    text.append(b" ")?;
    text.append(words)?;
    text.append(b"\n")?;
    Ok(text)
}

/// Writes a line. Nothing is written where memory runs out.
fn write_line<K: Sink>(alloc: Global, out: &mut K, at: usize, words: &[u8]) -> Result<bool, Memory>
    ensures later { K.faults out.old ≤ K.faults out.new }
    ensures cause { result ≡ Ok false → Rose (K.faults out.old) (K.faults out.new) }
    ensures whole { result ≡ Ok true → Appends (K.held out.old) (K.held out.new)
        (line at words.now) }
    ensures part { AppendsFront (K.held out.old) (K.held out.new) (line at words.now) }
    ensures none { OnErr result (Appends (K.held out.old) (K.held out.new) []) }
{
    let text = whole_line(alloc, at, words)?;
    Ok(write_all(out, text.as_slice()))
}

/// Writes the line of the unit with which the bytes begin, and answers the bytes after it.
fn list_next<'a, K: Sink>(
    alloc: Global,
    dialect: Dialect,
    end: usize,
    bytes: &'a [u8],
    out: &mut K,
) -> Result<&'a [u8], Stop<Listed>>
    ensures later { K.faults out.old ≤ K.faults out.new }
    ensures cause { result ≡ Err (Fault Listed.OutFailed) → Rose (K.faults out.old)
        (K.faults out.new) }
    ensures listed { NextListed (λ rest. rest.now) dialect end bytes.now (K.held out.old)
        (K.held out.new) result }
{
    let (words, size) = match first_unit(alloc, dialect, end, bytes) {
        Ok(found) => found,
        Err(Stop::Memory) => return Err(Stop::Memory),
        Err(Stop::Fault(fault)) => return Err(Stop::Fault(Listed::Bad(fault))),
    };
    match write_line(alloc, out, place(end, bytes), words.as_slice()) {
        Ok(true) => Ok(&bytes[size..]),
        Ok(false) => Err(Stop::Fault(Listed::OutFailed)),
        Err(Memory) => Err(Stop::Memory),
    }
}

/// What a listing answers that stopped so.
fn ended(stop: Stop<Listed>) -> Result<Listed, Memory>
    ensures { result ≡ ended_by stop }
{
    match stop {
        Stop::Memory => Err(Memory),
        Stop::Fault(how) => Ok(how),
    }
}

/// Writes a line for each of the units that fill these bytes.
fn list_all<K: Sink>(
    alloc: Global,
    dialect: Dialect,
    bytes: &[u8],
    out: &mut K,
) -> Result<Listed, Memory>
    ensures later { K.faults out.old ≤ K.faults out.new }
    ensures cause { result ≡ Ok Listed.OutFailed → Rose (K.faults out.old) (K.faults out.new) }
    ensures listed { UnitsListed dialect bytes.now (K.held out.old) (K.held out.new) result }
{
    let end = bytes.len();
    let mut rest = bytes;
    while !rest.is_empty() {
        match list_next(alloc, dialect, end, rest, out) {
            Ok(after) => rest = after,
            Err(stop) => return ended(stop),
        }
    }
    Ok(Listed::Whole)
}

/// Writes the listing of a byte stream: a line for each protocol header and each frame, with its
/// offset. Where the bytes aren't whole units, the lines of the units before the first fault are
/// written; `OutFailed` comes only where the count of faults of `out` rose.
///
/// # Errors
///
/// `Memory` where the allocator has no room for a unit or a line.
pub fn list_units<K: Sink>(
    alloc: Global,
    dialect: Dialect,
    bytes: &[u8],
    out: &mut K,
) -> Result<Listed, Memory>
    ensures later { K.faults out.old ≤ K.faults out.new }
    ensures cause { result ≡ Ok Listed.OutFailed → Rose (K.faults out.old) (K.faults out.new) }
    ensures listed { IsListed dialect bytes.now (K.held out.old) (K.held out.new) result }

    // Bytes that are whole units are never told as at fault, and have one listing.
    ensures all { (us : List Piece) → BeginsWith dialect us [] bytes.now
        → IfOk result (EndsAll us (K.held out.old) (K.held out.new)) }
{
    list_all(alloc, dialect, bytes, out)
}
