//! Calls of the readers of numbers and texts, and those that change bytes in place.

use crate::call::{Answer, Call, no_call, told, word_of};
use crate::verbs::{DISCARD, FRONT, ROOM, SET, TRUNCATE};
use std::alloc::Global;
use wire_base::{ByteText, ReservedText, long_in, place, short_in, u8_in, u16_in, u32_in, u64_in};

/// What each reader takes from the front of bytes that end at an offset, and the offset of the bytes.
fn tell_front(alloc: Global, call: Call) -> Answer {
    let end = call.numbers[0] as usize;
    let numbers = (
        u8_in(end, call.bytes),
        u16_in(end, call.bytes),
        u32_in(end, call.bytes),
        u64_in(end, call.bytes),
    );
    let texts = (short_in(end, call.bytes), long_in(end, call.bytes));
    told(alloc, (numbers, texts, place(end, call.bytes)))
}

/// A call with bytes and numbers.
pub fn number_call(alloc: Global, call: Call) -> Answer {
    match call.verb {
        FRONT => tell_front(alloc, call),
        ROOM => reserved_call(alloc, call),
        SET | TRUNCATE | DISCARD => changed_call(alloc, call),
        _ => no_call(alloc),
    }
}

/// Bytes after a change in place, if they have room for it.
fn changed_call(alloc: Global, call: Call) -> Answer {
    let at = call.numbers[0] as usize;
    let size = call.bytes.len();
    let mut text = ByteText::copy_of(alloc, call.bytes)?;
    match call.verb {
        SET if size >= 4 && at <= size - 4 => text.set_u32(at, word_of(call.numbers[1])),
        TRUNCATE => text.truncate(at),
        DISCARD if at <= size => text.discard(at),
        _ => {}
    }
    told(alloc, text)
}

/// Bytes in reserved room if they fit, how many may still be added, and what stands after the first
/// of them were dropped.
fn reserved_call(alloc: Global, call: Call) -> Answer {
    let count = call.numbers[1] as usize;
    let mut text = ReservedText::with_room(alloc, call.numbers[0] as usize)?;
    if call.bytes.len() <= text.left() {
        text.append_within(call.bytes);
    }
    let left = text.left();
    if count <= text.as_slice().len() {
        text.discard(count);
    }
    let answer = told(alloc, (left, text.as_slice()));
    drop(text);
    answer
}
