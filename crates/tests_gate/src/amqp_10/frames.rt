//! Calls of `frames_10`.

use super::values::Written;
use crate::call::{Answer, Call, no_call, told, word_of};
use crate::verbs::{FRAME, HEADERS};
use frames_10::{Frame10, FrameFault10, Kind10, put_frame10, scan_frame10, scan_header10};
use std::alloc::Global;
use wire_base::{At, ByteText, Scan};

/// The least limit of a frame, in bytes (AMQP 1.0 2.4.1).
const LEAST_LIMIT: u32 = 512;

/// The longest body that is written again, in bytes.
const BODY_MAX: usize = 1_000_000;

/// Writes a frame.
fn put(text: &mut ByteText, frame: &Frame10) -> Written {
    if frame.body.as_slice().len() > BODY_MAX {
        return Ok(false);
    }
    put_frame10(text, frame)?;
    Ok(true)
}

/// Writes a frame that was found.
fn put_found(text: &mut ByteText, scan: &Scan<Frame10, At<FrameFault10>>) -> Written {
    match scan {
        Scan::Whole(frame, _) => put(text, frame),
        Scan::More | Scan::Bad(_) => Ok(false),
    }
}

/// The frame with which bytes begin, within a limit, and what is written of it.
fn scan(alloc: Global, call: Call) -> Answer {
    let limit = word_of(call.numbers[0]).max(LEAST_LIMIT);
    let scan = scan_frame10(alloc, call.bytes, limit)?;
    let mut text = ByteText::empty(alloc);
    let written = put_found(&mut text, &scan);
    told(alloc, (scan, written, text))
}

/// What stands at the front of bytes where a header of each kind is to be.
fn scan_headers(alloc: Global, bytes: &[u8]) -> Answer {
    let amqp = scan_header10(bytes, Kind10::Amqp);
    told(alloc, (amqp, scan_header10(bytes, Kind10::Sasl)))
}

/// A call with bytes, and with a limit.
pub fn frame_call(alloc: Global, call: Call) -> Answer {
    match call.verb {
        FRAME => scan(alloc, call),
        HEADERS => scan_headers(alloc, call.bytes),
        _ => no_call(alloc),
    }
}
