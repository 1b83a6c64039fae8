//! Listings of whole inputs.

ghost use Rattle.std.specs.Prelude.{◌≡◌, ℕ, ◌+◌, ◌≤◌, [], length, true, false, Ok, Err, OnErr};
ghost use Rattle.wire_base.specs.declared.stop.Stop.TheVariants.{Fault};
ghost use Rattle.gate_outside.specs.Counts.{Rose};
ghost use Rattle.gate_outside.specs.Streams.{Appends, AppendsFront};
ghost use Rattle.gate_show.specs.Showing.{ended_by, start_ended_by, EntriesListed, IsListed};
ghost use Rattle.gate_show.specs.Showing.{NextListed};
ghost use Rattle.gate_show.specs.Listing.{line};

use crate::lines::put_line;
use gate_capture::{CaptureFault, next_entry, next_words};
use gate_outside::{LogEntry, Sink, write_all};
use std::alloc::Global;
use wire_base::{At, ByteText, Memory, Stop};

/// How a listing ended.
#[derive(Clone, Copy, Debug, PartialEq, Eq)]
pub enum Shown {
    /// The input was whole units.
    Whole,
    /// The first fault, after the lines of the units before it.
    Bad(At<CaptureFault>),
    /// The lines were not taken.
    OutFailed,
}

/// Writes the line of an entry. Nothing is written where memory runs out.
fn write_line<K: Sink>(
    alloc: Global,
    out: &mut K,
    number: u64,
    entry: &LogEntry,
) -> Result<bool, Memory>
    ensures later { K.faults out.old ≤ K.faults out.new }
    ensures cause { result ≡ Ok false → Rose (K.faults out.old) (K.faults out.new) }
    ensures whole { result ≡ Ok true → Appends (K.held out.old) (K.held out.new)
        (line number entry.now) }
    ensures part { AppendsFront (K.held out.old) (K.held out.new) (line number entry.now) }
    ensures none { OnErr result (Appends (K.held out.old) (K.held out.new) []) }
{
    let mut text = ByteText::empty(alloc);
    put_line(&mut text, number, entry)?;
    Ok(write_all(out, text.as_slice()))
}

/// Writes the line of the entry with which the bytes begin, and answers the bytes after it.
fn show_next<'a, K: Sink>(
    alloc: Global,
    size: usize,
    number: u64,
    bytes: &'a [u8],
    out: &mut K,
) -> Result<&'a [u8], Stop<Shown>>
    ensures later { K.faults out.old ≤ K.faults out.new }
    ensures cause { result ≡ Err (Fault Shown.OutFailed) → Rose (K.faults out.old)
        (K.faults out.new) }
    ensures listed { NextListed (λ rest. rest.now) size number bytes.now (K.held out.old)
        (K.held out.new) result }
{
    let (entry, rest) = match next_entry(alloc, size, bytes) {
        Ok(read) => read,
        Err(Stop::Memory) => return Err(Stop::Memory),
        Err(Stop::Fault(fault)) => return Err(Stop::Fault(Shown::Bad(fault))),
    };
    match write_line(alloc, out, number, &entry) {
        Ok(true) => Ok(rest),
        Ok(false) => Err(Stop::Fault(Shown::OutFailed)),
        Err(Memory) => Err(Stop::Memory),
    }
}

/// What a listing answers that stopped so.
fn ended(stop: Stop<Shown>) -> Result<Shown, Memory>
    ensures { result ≡ ended_by stop }
{
    match stop {
        Stop::Memory => Err(Memory),
        Stop::Fault(shown) => Ok(shown),
    }
}

/// Writes a line for each of the entries that fill these bytes.
fn show_entries<K: Sink>(
    alloc: Global,
    size: usize,
    bytes: &[u8],
    out: &mut K,
) -> Result<Shown, Memory>
    ensures later { K.faults out.old ≤ K.faults out.new }
    ensures cause { result ≡ Ok Shown.OutFailed → Rose (K.faults out.old) (K.faults out.new) }
    ensures listed { EntriesListed size bytes.now (K.held out.old) (K.held out.new) result }
{
    let mut rest = bytes;
    let mut number = 0;
    while !rest.is_empty() {
        match show_next(alloc, size, number, rest, out) {
            Ok(after) => rest = after,
            Err(stop) => return ended(stop),
        }
        number += 1;
    }
    Ok(Shown::Whole)
}

/// Writes the listing of a capture: a line for each entry, numbered from 0. The words aren't
/// listed. Where the bytes are no capture, the lines of the entries before the first fault are
/// written; `OutFailed` comes only where the count of faults of
/// `out` rose.
///
/// # Errors
///
/// `Memory` where the allocator has no room for an entry or a line.
pub fn show_capture<K: Sink>(alloc: Global, bytes: &[u8], out: &mut K) -> Result<Shown, Memory>
    ensures later { K.faults out.old ≤ K.faults out.new }
    ensures cause { result ≡ Ok Shown.OutFailed → Rose (K.faults out.old) (K.faults out.new) }
    ensures listed { IsListed bytes.now (K.held out.old) (K.held out.new) result }
{
    match next_words(bytes.len(), bytes) {
        Ok((_, rest)) => show_entries(alloc, bytes.len(), rest, out),
        Err(stop) => start_ended(stop),
    }
}

/// What a listing answers whose start is at fault.
fn start_ended(stop: Stop<At<CaptureFault>>) -> Result<Shown, Memory>
    ensures { result ≡ start_ended_by stop }
{
    match stop {
        Stop::Memory => Err(Memory),
        Stop::Fault(fault) => Ok(Shown::Bad(fault)),
    }
}
