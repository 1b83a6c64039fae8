//! Calls that scan and write frames, and the protocol header.

use crate::call::{Answer, Call, parted, short_of, told, word_of};
use frames_091::{Frame91, Kind91, Unread91, put_frame};
use std::alloc::Global;
use wire_base::{ByteText, Memory};

/// The frame of a kind and a channel, whose payload the bytes are.
pub fn frame_of(alloc: Global, call: Call) -> Result<Frame91, Memory> {
    let payload = ByteText::copy_of(alloc, call.bytes)?;
    let kind = match call.numbers[0] {
        1 => Kind91::Method,
        2 => Kind91::Header,
        3 => Kind91::Body,
        _ => Kind91::Heartbeat,
    };
    Ok(Frame91 {
        kind,
        channel: short_of(call.numbers[1]),
        payload,
    })
}

/// What is written of a frame behind bytes that are there; nothing of one that is very large.
pub fn put_call(alloc: Global, call: Call) -> Answer {
    let frame = frame_of(alloc, call)?;
    let mut written = ByteText::empty(alloc);
    let before = written.append(b"before");
    let put = if frame.payload.as_slice().len() < 1_000_000 {
        put_frame(&mut written, &frame)
    } else {
        Ok(())
    };
    let answer = told(alloc, (before, put, written.as_slice()));
    drop(written);
    drop(frame);
    answer
}

/// The first frame, where some of the bytes came before the others.
pub fn parted_frame_call(alloc: Global, call: Call) -> Answer {
    let (first, rest) = parted(call.bytes, call.numbers[1]);
    let mut kept = Unread91::empty(alloc);
    let added = kept.append(first);
    let scan = kept.scan_frame(alloc, rest, word_of(call.numbers[0]).max(4096));
    drop(kept);
    told(alloc, (added, scan))
}

/// The protocol header, where some of the bytes came before the others.
pub fn parted_header_call(alloc: Global, call: Call) -> Answer {
    let (first, rest) = parted(call.bytes, call.numbers[0]);
    let mut kept = Unread91::empty(alloc);
    let added = kept.append(first);
    let scan = kept.scan_header(alloc, rest);
    drop(kept);
    told(alloc, (added, scan))
}
