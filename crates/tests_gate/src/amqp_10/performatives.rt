//! Calls of `performatives_10`.

use super::frames::frame_call;
use super::values::Written;
use crate::call::{Answer, Call, short_of, told, word_of};
use crate::verbs::{PERF, PROPERTIES, SETTLED};
use performatives_10::{Perf, PerfFault, has_text, put_perf, put_settled, read_perf};
use std::alloc::Global;
use types_10::Spelling10;
use wire_base::ByteText;

/// Writes a performative.
fn put(alloc: Global, text: &mut ByteText, perf: &Perf) -> Written {
    if !has_text(alloc, perf)? {
        return Ok(false);
    }
    put_perf(alloc, text, perf)?;
    Ok(true)
}

/// Writes a performative that was read.
fn put_read(
    alloc: Global,
    text: &mut ByteText,
    read: &Result<(Perf, usize), PerfFault>,
) -> Written {
    match read {
        Ok((perf, _)) => put(alloc, text, perf),
        Err(_) => Ok(false),
    }
}

/// The performative with which bytes begin, and what is written of it.
fn read(alloc: Global, bytes: &[u8]) -> Answer {
    let read = read_perf(alloc, bytes)?;
    let mut text = ByteText::empty(alloc);
    let written = put_read(alloc, &mut text, &read);
    told(alloc, (read, written, text))
}

/// The properties of an open or a flow, which are kept as they are spelled.
fn properties_of(perf: &Perf) -> Option<&Spelling10> {
    match perf {
        Perf::Open(open) => open.properties.as_ref(),
        Perf::Flow(flow) => flow.properties.as_ref(),
        _ => None,
    }
}

/// Their value.
fn tell_properties(alloc: Global, perf: &Perf) -> Answer {
    match properties_of(perf) {
        Some(kept) => told(alloc, kept.spelled().read(alloc)),
        None => told(alloc, false),
    }
}

/// The same of the performative with which bytes begin.
fn read_properties(alloc: Global, bytes: &[u8]) -> Answer {
    match read_perf(alloc, bytes)? {
        Ok((perf, _)) => {
            let answer = tell_properties(alloc, &perf);
            drop(perf);
            answer
        }
        Err(fault) => told(alloc, fault),
    }
}

/// The length of a settled disposition of the sender, and the room that it was written into.
fn settled(alloc: Global, call: Call) -> Answer {
    let [channel, first, has_last, last] = call.numbers;
    let last = (has_last == 1).then_some(word_of(last));
    let mut room = [0x5A; 512];
    let size = put_settled(&mut room, short_of(channel), word_of(first), last);
    told(alloc, (size, room))
}

/// A call with bytes, and with a number, or with numbers alone.
pub fn perf_call(alloc: Global, call: Call) -> Answer {
    match call.verb {
        PERF => read(alloc, call.bytes),
        PROPERTIES => read_properties(alloc, call.bytes),
        SETTLED => settled(alloc, call),
        _ => frame_call(alloc, call),
    }
}
