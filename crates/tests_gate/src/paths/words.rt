//! The words of a call on what is kept of a session.

use crate::call::{Call, word_of};

/// More transfers of the delivery follow.
pub const MORE: u64 = 1;

/// The delivery is settled.
pub const SETTLED: u64 = 2;

/// Nothing goes to the client of the delivery.
pub const NO_IMAGE: u64 = 4;

/// It was delivered before.
pub const AGAIN: u64 = 8;

/// The answer speaks of all tags up to the one that it names.
pub const MULTIPLE: u64 = 16;

/// The publish is to be confirmed.
pub const CONFIRMED: u64 = 32;

/// It is returned where its exchange has no place for it.
pub const MANDATORY: u64 = 64;

/// The words of a call.
#[derive(Clone, Copy)]
pub struct Words<'a> {
    pub verb: u64,
    pub first: u32,
    pub second: u32,
    /// The sum of the marks above that it has.
    marks: u64,
    pub text: &'a [u8],
}

/// What a call says: two numbers of 32 bits, and marks.
pub fn words_of(call: Call) -> Words {
    Words {
        verb: call.verb,
        first: word_of(call.numbers[0]),
        second: word_of(call.numbers[1]),
        marks: call.numbers[2],
        text: call.bytes,
    }
}

/// The words have a mark.
pub fn has_mark(words: Words, mark: u64) -> bool {
    words.marks & mark != 0
}
