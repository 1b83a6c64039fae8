//! Captures and their listings.
//!
//! | Line | Answer |
//! |---|---|
//! | `capture`, bytes | the words, the entries, and what is written of both; or the fault |
//! | `list`, bytes | how the listing ends, and the listing |
//! | `next AT`, bytes | the entry at a place of the bytes, and what stands behind it |

ghost use Rattle.std.specs.Prelude.{◌<◌, ◌^◌, length};
ghost use Rattle.std.specs.List.{AllByRecursion};
ghost use Rattle.gate_capture.specs.Spelling.{HasSpelling};

use crate::call::{Answer, Call, parted, told};
use gate_capture::{next_entry, put_capture, read_capture};
use gate_outside::{Entries, MemorySink};
use gate_show::show_capture;
use std::alloc::Global;
use wire_base::{ByteText, ItemList};

/// The room for a listing.
const LISTING: usize = 1_048_576;

/// What was read of a capture, and what is written of it.
fn write_again(alloc: Global, words: &ByteText, entries: &Entries) -> Answer
    requires words { length words.now < 2 ^ 32 }
    requires entries { AllByRecursion HasSpelling entries.now }
{
    let mut written = ByteText::empty(alloc);
    let put = put_capture(&mut written, words, entries);
    let answer = told(alloc, (words, entries, put, &written));
    drop(written);
    answer
}

/// Reads a capture, and writes it again.
pub fn read(alloc: Global, bytes: &[u8]) -> Answer {
    match read_capture(alloc, bytes)? {
        Ok(capture) => {
            let answer = write_again(alloc, &capture.words, &capture.entries);
            drop(capture);
            answer
        }
        Err(found) => told(alloc, found),
    }
}

/// Lists a capture.
pub fn list(alloc: Global, bytes: &[u8]) -> Answer {
    let mut sink = MemorySink::new(alloc, LISTING, ItemList::empty(alloc))?;
    let shown = show_capture(alloc, bytes, &mut sink);
    let answer = told(alloc, (shown, sink.held()));
    drop(sink);
    answer
}

/// The entry at a place, as one of bytes that are so many in all.
pub fn next(alloc: Global, call: Call) -> Answer {
    let (_, rest) = parted(call.bytes, call.numbers[0]);
    told(alloc, next_entry(alloc, call.bytes.len(), rest))
}
