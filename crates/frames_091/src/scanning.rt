//! Scanning a frame.

ghost use Rattle.std.specs.Prelude.{◌≡◌, ℕ, ◌+◌, ◌≤◌, length, IfOk, slice_index};
ghost use Rattle.wire_base.specs.Scans.{IfBad, Scans};
ghost use Rattle.frames_091.specs.Frames.{IsFrame};
ghost use Rattle.frames_091.specs.FrameFaults.{IsFrameFault};
ghost use Rattle.frames_091.specs.FrameScan.{frame_in, kind_of, scan_of, stated_size};

use crate::frame::{Frame91, FrameFault, Kind91};
use std::alloc::Global;
use wire_base::{At, ByteText, Memory, Scan};

/// The byte that ends each frame (AMQP 0-9-1 4.2.3).
pub(crate) const FRAME_END: u8 = 0xCE;

pub(crate) fn kind_at(byte: u8) -> Option<Kind91>
    ensures { result ≡ kind_of byte }
{
    match byte {
        1 => Some(Kind91::Method),
        2 => Some(Kind91::Header),
        3 => Some(Kind91::Body),
        8 => Some(Kind91::Heartbeat),
        _ => None,
    }
}

pub(crate) fn byte_or_zero(bytes: &[u8], at: usize) -> u8
    ensures { result ≡ slice_index bytes.now at }
{
    bytes.get(at).copied().unwrap_or(0)
}

/// The size that a frame states, where bytes of it that aren't there count as zeros.
#[tactic(auto, unfolding(crate::specs::FrameScan::stated_size))]
fn size_of(bytes: &[u8]) -> u32
    ensures { result ≡ stated_size bytes.now }
{
    u32::from_be_bytes([
        byte_or_zero(bytes, 3),
        byte_or_zero(bytes, 4),
        byte_or_zero(bytes, 5),
        byte_or_zero(bytes, 6),
    ])
}

/// The frame of this kind that the bytes hold.
#[tactic(auto, unfolding(crate::specs::FrameScan::frame_in))]
fn frame_of(alloc: Global, kind: Kind91, size: usize, bytes: &[u8]) -> Result<Frame91, Memory>
    requires stated { size ≡ stated_size bytes.now }
    requires there { size + 7 ≤ length bytes.now }
    ensures { IfOk result (λ frame. frame ≡ frame_in kind bytes.now) }
{
    let channel = u16::from_be_bytes([byte_or_zero(bytes, 1), byte_or_zero(bytes, 2)]);
    let payload = ByteText::copy_of(alloc, &bytes[7..7 + size])?;
    Ok(Frame91 {
        kind,
        channel,
        payload,
    })
}

pub(crate) fn bad(fault: FrameFault, at: usize) -> Scan<Frame91, At<FrameFault>>
    ensures { result ≡ Scan.Bad (record { fault = fault; at = at }) }
{
    Scan::Bad(At { fault, at })
}

/// The scan, as a function of the bytes.
#[tactic(auto, unfolding(crate::specs::FrameScan::scan_of))]
fn first_frame(
    alloc: Global,
    bytes: &[u8],
    limit: u32,
) -> Result<Scan<Frame91, At<FrameFault>>, Memory>
    ensures { IfOk result (λ scan. scan ≡ scan_of limit bytes.now) }
{
    let Some(first) = bytes.first() else {
        return Ok(Scan::More);
    };
    let Some(kind) = kind_at(*first) else {
        return Ok(bad(FrameFault::Kind, 0));
    };
    let size = size_of(bytes) as usize;
    let whole = size + 8;
    if whole > limit as usize {
        return Ok(bad(FrameFault::Size, 3));
    }
    if bytes.len() < whole {
        return Ok(Scan::More);
    }
    if bytes[7 + size] != FRAME_END {
        return Ok(bad(FrameFault::End, 7 + size));
    }
    let frame = frame_of(alloc, kind, size, bytes)?;
    Ok(Scan::Whole(frame, whole))
}

/// Scans the first frame of a stream (AMQP 0-9-1 4.2.3). `frame_max` bounds a whole frame, in
/// bytes. A size is told as too large as soon as the bytes of it that came, with zeros for the
/// others, say so. Of the faults the first of `Kind`,
/// `Size` and `End` is told, with its offset. The payload is copied; `Memory` says that there was
/// no room for it.
#[tactic(auto, using(crate::proofs::FrameLaws::scans_by, crate::proofs::FrameLaws::faults_by))]
pub fn scan_frame(
    alloc: Global,
    bytes: &[u8],
    frame_max: u32,
) -> Result<Scan<Frame91, At<FrameFault>>, Memory>
    requires { 4096 ≤ frame_max }
    ensures exact { IfOk result (λ scan. scan ≡ scan_of frame_max bytes.now) }
    ensures scans { IfOk result (Scans (IsFrame frame_max) bytes.now) }
    ensures fault { IfOk result (λ scan. IfBad scan (IsFrameFault frame_max bytes.now)) }
{
    first_frame(alloc, bytes, frame_max)
}
