//! The first unit of a byte stream of AMQP 1.0, as its line.

ghost use Rattle.std.specs.Prelude.{◌≡◌, ℕ, ◌-◌, ◌≤◌, length, IfOk};
ghost use Rattle.wire_base.specs.Reading.{Gives};
ghost use Rattle.frames_10.specs.FrameScan.{scan_of};
ghost use Rattle.frames_10.specs.Headers.{header_scan};
ghost use Rattle.frames_10.specs.declared.frame.Kind10.TheVariants.{Amqp, Sasl};
ghost use Rattle.performatives_10.specs.Reading.{code_of, perf_at, seen};
ghost use Rattle.performatives_10.specs.View.{kind_of};
ghost use Rattle.gate_listing.specs.Scanning.{body_in, fault_place, frame_10_in, header_10_in};
ghost use Rattle.gate_listing.specs.Scanning.{performative_in, unit_10_in};
ghost use Rattle.gate_listing.specs.Units.{empty_words, header_words, is_empty, most_10};
ghost use Rattle.gate_listing.specs.Units.{performative_words, performed_words, sasl_words};

use crate::fault::{UnitFault, further};
use crate::performative_names::{is_sasl, performative_name};
use crate::texts::{counted, named, put_decimal};
use crate::units_091::{Fault, begins_with_a};
use frames_10::{Frame10, Kind10, NotHeader, scan_frame10, scan_header10};
use performatives_10::{Perf, PerfFault, read_perf};
use std::alloc::Global;
use wire_base::{At, ByteText, Memory, Scan, Stop, place};

/// The most bytes that a frame may have.
const MOST: u32 = 65_536;

/// The line of a frame of the SASL layer.
fn sasl_line(alloc: Global, name: &[u8]) -> Result<ByteText, Memory>
    ensures { IfOk result (λ text. text ≡ sasl_words name.now) }
{
    let mut text = ByteText::copy_of(alloc, b"sasl ")?;
    text.append(name)?;
    Ok(text)
}

/// The line of a frame with a performative and so many bytes behind it.
fn performed_line(alloc: Global, channel: u16, name: &[u8], size: u64) -> Result<ByteText, Memory>
    ensures { IfOk result (λ text. text ≡ performed_words channel name.now size) }
{
    let mut text = named(alloc, b"", u64::from(channel), name)?;
    text.append(b" ")?;
    put_decimal(&mut text, size)?;
    Ok(text)
}

/// The line of a frame with this performative.
fn performative_line(
    alloc: Global,
    kind: Kind10,
    channel: u16,
    perf: &Perf,
    size: u64,
) -> Result<ByteText, Memory>
    ensures { IfOk result (λ text. text ≡ performative_words kind channel (code_of
        (kind_of perf.now)) size) }
{
    let name = performative_name(perf);
    match kind {
        Kind10::Amqp if !is_sasl(perf) => performed_line(alloc, channel, name, size),
        Kind10::Amqp | Kind10::Sasl => sasl_line(alloc, name),
    }
}

/// Where a fault of a frame's body counts: a value that can't be read at its own place, else the
/// frame's offset.
fn fault_place(at: usize, start: usize, fault: PerfFault) -> usize
    ensures { result ≡ fault_place at start fault }
{
    match fault {
        PerfFault::Value(e) => further(further(at, start), e.at),
        PerfFault::UnknownDescriptor | PerfFault::Missing(_) | PerfFault::WrongType(_) => at,
    }
}

/// The line of a frame with what was read of its body, which begins so many bytes behind the
/// frame's offset.
fn read_line(
    alloc: Global,
    at: usize,
    start: usize,
    frame: &Frame10,
    read: Result<(Perf, usize), PerfFault>,
) -> Result<ByteText, Stop<Fault>>
    ensures { Gives (λ text. text) result (performative_in at start frame.now (seen read)) }
{
    match read {
        Ok((perf, after)) => {
            let size = frame.body.as_slice().len().saturating_sub(after);
            let line = performative_line(alloc, frame.kind, frame.channel, &perf, size as u64);
            drop(perf);
            Ok(line?)
        }
        Err(fault) => Err(Stop::Fault(At {
            fault: UnitFault::Performative(fault),
            at: fault_place(at, start, fault),
        })),
    }
}

/// The frame keeps a connection alive (AMQP 1.0 2.4.5).
fn is_empty(frame: &Frame10) -> bool
    ensures { result ≡ is_empty frame.now.kind frame.now.body }
{
    match frame.kind {
        Kind10::Amqp => frame.body.as_slice().is_empty(),
        Kind10::Sasl => false,
    }
}

/// The line of a frame without a body.
fn empty_line(alloc: Global, channel: u16) -> Result<ByteText, Memory>
    ensures { IfOk result (λ text. text ≡ empty_words channel) }
{
    let mut text = counted(alloc, b"", u64::from(channel))?;
    text.append(b" empty")?;
    Ok(text)
}

/// The line of a frame at this offset, whose body begins so many bytes behind it.
fn frame_line(
    alloc: Global,
    at: usize,
    start: usize,
    frame: &Frame10,
) -> Result<ByteText, Stop<Fault>>
    ensures { Gives (λ text. text) result (body_in at start frame.now) }
{
    if is_empty(frame) {
        return Ok(empty_line(alloc, frame.channel)?);
    }
    match read_perf(alloc, frame.body.as_slice()) {
        Ok(read) => read_line(alloc, at, start, frame, read),
        Err(Memory) => Err(Stop::Memory),
    }
}

/// The frame with which the bytes begin.
fn first_frame(
    alloc: Global,
    end: usize,
    at: usize,
    bytes: &[u8],
) -> Result<(ByteText, usize), Stop<Fault>>
    ensures exact { Gives (λ x. (x.0, x.1)) result (frame_10_in end at
        (scan_of most_10 bytes.now)) }
    ensures within { IfOk result (λ x. x.1 ≤ length bytes.now) }
{
    match scan_frame10(alloc, bytes, MOST)? {
        Scan::Whole(frame, size) => {
            let start = size.saturating_sub(frame.body.as_slice().len());
            let line = frame_line(alloc, at, start, &frame)?;
            Ok((line, size))
        }
        Scan::More => Err(Stop::Fault(At {
            fault: UnitFault::Cut,
            at: end,
        })),
        Scan::Bad(e) => Err(Stop::Fault(At {
            fault: UnitFault::Frame10(e.fault),
            at: further(at, e.at),
        })),
    }
}

/// The line of a protocol header.
fn header_line(alloc: Global, kind: Kind10) -> Result<ByteText, Memory>
    ensures { IfOk result (λ text. text ≡ header_words kind) }
{
    match kind {
        Kind10::Amqp => ByteText::copy_of(alloc, b"header amqp"),
        Kind10::Sasl => ByteText::copy_of(alloc, b"header sasl"),
    }
}

/// The protocol header with which the bytes begin, of one kind or the other.
fn first_header(
    alloc: Global,
    end: usize,
    at: usize,
    bytes: &[u8],
) -> Result<(ByteText, usize), Stop<Fault>>
    ensures exact { Gives (λ x. (x.0, x.1)) result (header_10_in end at
        (header_scan Amqp bytes.now) (header_scan Sasl bytes.now)) }
    ensures within { IfOk result (λ x. x.1 ≤ length bytes.now) }
{
    let amqp = scan_header10(bytes, Kind10::Amqp);
    let sasl = scan_header10(bytes, Kind10::Sasl);
    match (amqp, sasl) {
        (Scan::Whole((), size), _) => Ok((header_line(alloc, Kind10::Amqp)?, size)),
        (Scan::Bad(_), Scan::Whole((), size)) => Ok((header_line(alloc, Kind10::Sasl)?, size)),
        (Scan::Bad(e), Scan::Bad(f)) => Err(Stop::Fault(At {
            fault: UnitFault::NotHeader,
            at: further(at, e.at.max(f.at)),
        })),
        (Scan::More, _) | (Scan::Bad(_), Scan::More) => Err(Stop::Fault(At {
            fault: UnitFault::Cut,
            at: end,
        })),
    }
}

/// The line of the unit with which the bytes begin, which end at `end`, and how many bytes the unit
/// has.
#[tactic(auto, unfolding(crate::specs::Scanning::unit_10_in))]
pub(crate) fn first_unit(
    alloc: Global,
    end: usize,
    bytes: &[u8],
) -> Result<(ByteText, usize), Stop<Fault>>
    ensures exact { Gives (λ x. (x.0, x.1)) result (unit_10_in end bytes.now) }
    ensures within { IfOk result (λ x. x.1 ≤ length bytes.now) }
{
    let at = place(end, bytes);
    if begins_with_a(bytes) {
        first_header(alloc, end, at, bytes)
    } else {
        first_frame(alloc, end, at, bytes)
    }
}
