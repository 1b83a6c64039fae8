//! Scanning a frame.

ghost use Rattle.std.specs.Prelude.{◌≡◌, ℕ, ◌*◌, ◌≤◌, true, length, IfOk, OnErr, slice_index};
ghost use Rattle.wire_base.specs.Scans.{IfBad, Scans};
ghost use Rattle.frames_10.specs.Frames.{IsFrame};
ghost use Rattle.frames_10.specs.FrameFaults.{IsFrameFault};
ghost use Rattle.frames_10.specs.FrameScan.{frame_in, is_whole, kind_of, scan_of};
ghost use Rattle.frames_10.specs.FrameScan.{stated_offset, stated_size};

use crate::frame::{Frame10, FrameFault10, Kind10};
use std::alloc::Global;
use wire_base::{At, ByteText, Memory, Scan};

/// The bytes before an extended header, or before the body where there is none.
const HEADER_LEN: usize = 8;

/// The unit of the data offset, in bytes.
const WORD: usize = 4;

/// The least data offset: that of a frame without an extended header.
const LEAST_OFFSET: u8 = 2;

fn kind_at(byte: u8) -> Option<Kind10>
    ensures { result ≡ kind_of byte }
{
    match byte {
        0 => Some(Kind10::Amqp),
        1 => Some(Kind10::Sasl),
        _ => None,
    }
}

fn byte_or_zero(bytes: &[u8], at: usize) -> u8
    ensures { result ≡ slice_index bytes.now at }
{
    bytes.get(at).copied().unwrap_or(0)
}

/// The size that a frame states, where bytes of it that aren't there count as zeros.
#[tactic(auto, unfolding(crate::specs::FrameScan::stated_size))]
fn size_of(bytes: &[u8]) -> u32
    ensures { result ≡ stated_size bytes.now }
{
    u32::from_be_bytes([
        byte_or_zero(bytes, 0),
        byte_or_zero(bytes, 1),
        byte_or_zero(bytes, 2),
        byte_or_zero(bytes, 3),
    ])
}

/// The data offset, in words; the least one where it isn't there.
#[tactic(auto, unfolding(crate::specs::FrameScan::stated_offset))]
fn offset_of(bytes: &[u8]) -> u8
    ensures { result ≡ stated_offset bytes.now }
{
    bytes.get(4).copied().unwrap_or(LEAST_OFFSET)
}

/// The frame of this kind that the bytes hold.
#[tactic(auto, unfolding(crate::specs::FrameScan::frame_in))]
fn frame_of(
    alloc: Global,
    kind: Kind10,
    start: usize,
    size: usize,
    bytes: &[u8],
) -> Result<Frame10, Memory>
    requires offset { start ≡ 4 * stated_offset bytes.now }
    requires stated { size ≡ stated_size bytes.now }
    requires within { start ≤ size }
    requires there { size ≤ length bytes.now }
    ensures { IfOk result (λ frame. frame ≡ frame_in kind bytes.now) }
{
    let channel = u16::from_be_bytes([byte_or_zero(bytes, 6), byte_or_zero(bytes, 7)]);
    let body = ByteText::copy_of(alloc, &bytes[start..size])?;
    Ok(Frame10 {
        kind,
        channel,
        body,
    })
}

fn bad(fault: FrameFault10, at: usize) -> Scan<Frame10, At<FrameFault10>>
    ensures { result ≡ Scan.Bad (record { fault = fault; at = at }) }
{
    Scan::Bad(At { fault, at })
}

/// The scan, as a function of the bytes.
#[tactic(auto, unfolding(crate::specs::FrameScan::scan_of))]
fn first_frame(
    alloc: Global,
    bytes: &[u8],
    limit: u32,
) -> Result<Scan<Frame10, At<FrameFault10>>, Memory>
    ensures exact { IfOk result (λ scan. scan ≡ scan_of limit bytes.now) }
    ensures memory { OnErr result (is_whole (scan_of limit bytes.now) ≡ true) }
{
    let size = size_of(bytes) as usize;
    if size > limit as usize {
        return Ok(bad(FrameFault10::FrameSize, 0));
    }
    if bytes.len() < 4 {
        return Ok(Scan::More);
    }
    if size < HEADER_LEN {
        return Ok(bad(FrameFault10::FrameSize, 0));
    }
    let offset = offset_of(bytes);
    let start = WORD * usize::from(offset);
    if offset < LEAST_OFFSET || start > size {
        return Ok(bad(FrameFault10::DataOffset, 4));
    }
    let Some(kind) = kind_at(byte_or_zero(bytes, 5)) else {
        return Ok(bad(FrameFault10::FrameType, 5));
    };
    if bytes.len() < size {
        return Ok(Scan::More);
    }
    let frame = frame_of(alloc, kind, start, size, bytes)?;
    Ok(Scan::Whole(frame, size))
}

/// Scans the first frame of a stream (AMQP 1.0 2.3). `max` bounds a whole frame, in bytes. A size
/// is told as too large as soon as the bytes of it that came, with zeros for the others, say so,
/// and each other fault as soon as its bytes are there. Of the faults the first of `FrameSize`,
/// `DataOffset` and `FrameType` is told, with its offset. An extended header is skipped. The body
/// is copied.
///
/// # Errors
///
/// `Memory` where there is no room for the body, which is only where a whole frame is there.
#[tactic(auto, using(crate::proofs::FrameLaws::scans_by, crate::proofs::FrameLaws::faults_by))]
pub fn scan_frame10(
    alloc: Global,
    bytes: &[u8],
    max: u32,
) -> Result<Scan<Frame10, At<FrameFault10>>, Memory>
    requires { 512 ≤ max }
    ensures exact { IfOk result (λ scan. scan ≡ scan_of max bytes.now) }
    ensures scans { IfOk result (Scans (IsFrame max) bytes.now) }
    ensures fault { IfOk result (λ scan. IfBad scan (IsFrameFault max bytes.now)) }
    ensures memory { OnErr result (is_whole (scan_of max bytes.now) ≡ true) }
{
    first_frame(alloc, bytes, max)
}
