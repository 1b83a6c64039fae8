//! Byte strings, lists, numbers, and streams in memory.
//!
//! | Line | Answer |
//! |---|---|
//! | `values` | an empty text; one that grew twice, how, and its copy; how a number of each size was put into a text, and that |
//! | `list-of-two` | two pushes; the count of the list, its second item, and the one behind it |
//! | `take AT`, bytes | the numbers of 8, 16, 32 and 64 bits at a place |
//!
//! A sink in memory is written to in steps: the first writes `am` and `qp`, and `qp` as a whole. The
//! second one writes no bytes and three as a whole.

use crate::call::{Answer, Call, told};
use gate_outside::{Drawn, Sink, Source, Sunk, write_all};
use std::alloc::Global;
use wire_base::{
    ByteText, ItemList, put_u8, put_u16, put_u32, put_u64, take_u8, take_u16, take_u32, take_u64,
};

/// Texts and numbers.
pub fn tell_values(alloc: Global) -> Answer {
    let mut text = ByteText::empty(alloc);
    let grown = (text.append(b"AM"), text.append(b"QP"));
    let copy = text.copy(alloc);
    let mut numbers = ByteText::empty(alloc);
    let put = (
        put_u8(&mut numbers, 0xF0),
        put_u16(&mut numbers, 0x0102),
        put_u32(&mut numbers, 0x0102_0304),
        put_u64(&mut numbers, 0x0102_0304_0506_0708),
    );
    let texts = (ByteText::empty(alloc), grown, text, copy);
    told(alloc, (texts, put, numbers))
}

/// What pushes of 7 and 9 are answered, the count of the list then, its second item, and the one
/// behind it.
pub fn tell_list(alloc: Global) -> Answer {
    let mut list: ItemList<u64> = ItemList::empty(alloc);
    let pushed = (list.push(7), list.push(9));
    let items = (list.len(), list.get(1).copied(), list.get(2).copied());
    drop(list);
    told(alloc, (pushed, items))
}

/// The numbers at a place.
pub fn take_numbers(alloc: Global, call: Call) -> Answer {
    let at = call.numbers[0] as usize;
    let taken = (
        take_u8(call.bytes, at),
        take_u16(call.bytes, at),
        take_u32(call.bytes, at),
        take_u64(call.bytes, at),
    );
    told(alloc, taken)
}

/// Four reads into one buffer, and what it then holds.
pub fn draws<S: Source>(source: &mut S) -> [(Drawn, [u8; 3]); 4] {
    let mut buf = [0; 3];
    [
        (source.read(&mut buf), buf),
        (source.read(&mut buf), buf),
        (source.read(&mut buf), buf),
        (source.read(&mut buf), buf),
    ]
}

/// What the steps of a sink are answered.
type Steps = (Option<(Sunk, Sunk, bool)>, Option<(bool, bool)>);

/// Writes as many steps.
pub fn write_steps<K: Sink>(sink: &mut K, steps: u64) -> Steps {
    if steps == 0 {
        return (None, None);
    }
    let first = (sink.write(b"am"), sink.write(b"qp"), write_all(sink, b"qp"));
    if steps == 1 {
        return (Some(first), None);
    }
    (
        Some(first),
        Some((write_all(sink, b""), write_all(sink, b"101"))),
    )
}
