//! The first unit of a byte stream of AMQP 0-9-1, as its line.

ghost use Rattle.std.specs.Prelude.{◌≡◌, ℕ, ◌≤◌, length, IfOk};
ghost use Rattle.wire_base.specs.Reading.{Gives};
ghost use Rattle.gate_listing.specs.Scanning.{begins_with_a, content_in, frame_091_in};
ghost use Rattle.gate_listing.specs.Scanning.{header_091_in, method_in, payload_in, unit_091_in};
ghost use Rattle.frames_091.specs.FrameScan.{scan_of};
ghost use Rattle.frames_091.specs.Headers.{header_scan};
ghost use Rattle.methods_091.specs.Reading as methods;
ghost use Rattle.content_091.specs.Reading as contents;
ghost use Rattle.gate_listing.specs.Units.{most_091};

use crate::fault::{UnitFault, further};
use crate::method_names::method_name;
use crate::texts::{counted, named, sized};
use content_091::read_header;
use frames_091::{Frame91, Kind91, scan_frame, scan_header};
use methods_091::read_method;
use std::alloc::Global;
use wire_base::{At, ByteText, Memory, Scan, Stop, place};

/// The most bytes that a frame may have.
const MOST: u32 = 131_072;

/// Where the payload of a frame begins (AMQP 0-9-1 4.2.3).
const PAYLOAD_AT: usize = 7;

/// A fault at this offset.
pub(crate) type Fault = At<UnitFault>;

/// The line of a frame with a method.
fn method_line(
    alloc: Global,
    at: usize,
    channel: u16,
    payload: &[u8],
) -> Result<ByteText, Stop<Fault>>
    ensures { Gives (λ text. text) result (method_in at channel (methods.method_in payload.now)) }
{
    match read_method(alloc, payload)? {
        Ok(method) => {
            let name = method_name(&method);
            Ok(named(alloc, b"method ", u64::from(channel), name)?)
        }
        Err(e) => Err(Stop::Fault(At {
            fault: UnitFault::Method(e.fault),
            at: further(further(at, PAYLOAD_AT), e.at),
        })),
    }
}

/// The line of a frame with a content header.
fn content_line(
    alloc: Global,
    at: usize,
    channel: u16,
    payload: &[u8],
) -> Result<ByteText, Stop<Fault>>
    ensures { Gives (λ text. text) result (content_in at channel (contents.header_in payload.now)) }
{
    match read_header(alloc, payload)? {
        Ok(header) => {
            let size = header.size;
            Ok(sized(alloc, b"content ", u64::from(channel), size)?)
        }
        Err(e) => Err(Stop::Fault(At {
            fault: UnitFault::Content(e.fault),
            at: further(further(at, PAYLOAD_AT), e.at),
        })),
    }
}

/// The line of a frame at this offset.
fn frame_line(alloc: Global, at: usize, frame: &Frame91) -> Result<ByteText, Stop<Fault>>
    ensures { Gives (λ text. text) result
        (payload_in at frame.now.kind frame.now.channel frame.now.payload) }
{
    let channel = frame.channel;
    let payload = frame.payload.as_slice();
    match frame.kind {
        Kind91::Method => method_line(alloc, at, channel, payload),
        Kind91::Header => content_line(alloc, at, channel, payload),
        Kind91::Body => Ok(sized(alloc, b"body ", u64::from(channel), payload.len() as u64)?),
        Kind91::Heartbeat => Ok(counted(alloc, b"heartbeat ", u64::from(channel))?),
    }
}

/// The frame with which the bytes begin.
fn first_frame(
    alloc: Global,
    end: usize,
    at: usize,
    bytes: &[u8],
) -> Result<(ByteText, usize), Stop<Fault>>
    ensures exact { Gives (λ x. (x.0, x.1)) result (frame_091_in end at
        (scan_of most_091 bytes.now)) }
    ensures within { IfOk result (λ x. x.1 ≤ length bytes.now) }
{
    match scan_frame(alloc, bytes, MOST)? {
        Scan::Whole(frame, size) => {
            let line = frame_line(alloc, at, &frame)?;
            Ok((line, size))
        }
        Scan::More => Err(Stop::Fault(At {
            fault: UnitFault::Cut,
            at: end,
        })),
        Scan::Bad(e) => Err(Stop::Fault(At {
            fault: UnitFault::Frame91(e.fault),
            at: further(at, e.at),
        })),
    }
}

/// The protocol header with which the input begins.
fn first_header(alloc: Global, end: usize, bytes: &[u8]) -> Result<(ByteText, usize), Stop<Fault>>
    ensures exact { Gives (λ x. (x.0, x.1)) result (header_091_in end (header_scan bytes.now)) }
    ensures within { IfOk result (λ x. x.1 ≤ length bytes.now) }
{
    match scan_header(bytes) {
        Scan::Whole((), size) => Ok((ByteText::copy_of(alloc, b"header 0-9-1")?, size)),
        Scan::More => Err(Stop::Fault(At {
            fault: UnitFault::Cut,
            at: end,
        })),
        Scan::Bad(e) => Err(Stop::Fault(At {
            fault: UnitFault::NotHeader,
            at: e.at,
        })),
    }
}

/// The letter with which each protocol header begins (AMQP 0-9-1 4.2.2; AMQP 1.0 2.2).
pub(crate) fn begins_with_a(bytes: &[u8]) -> bool
    ensures { result ≡ begins_with_a bytes.now }
{
    match bytes.first() {
        Some(first) => *first == b'A',
        None => false,
    }
}

/// The line of the unit with which the bytes begin, which end at `end`, and how many bytes the unit
/// has.
#[tactic(auto, unfolding(crate::specs::Scanning::unit_091_in))]
pub(crate) fn first_unit(
    alloc: Global,
    end: usize,
    bytes: &[u8],
) -> Result<(ByteText, usize), Stop<Fault>>
    ensures exact { Gives (λ x. (x.0, x.1)) result (unit_091_in end bytes.now) }
    ensures within { IfOk result (λ x. x.1 ≤ length bytes.now) }
{
    let at = place(end, bytes);
    if begins_with_a(bytes) && at == 0 {
        first_header(alloc, end, bytes)
    } else {
        first_frame(alloc, end, at, bytes)
    }
}
