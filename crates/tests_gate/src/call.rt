//! A call as a line tells it, the bytes and numbers in it, and its answer.

use std::alloc::Global;
use std::fmt::Debug;
use wire_base::{ByteText, Memory};

/// What a line is answered: a line.
pub type Answer = Result<String, Memory>;

/// The verb of a line (`verbs.rt`), its numbers, and its bytes.
#[derive(Clone, Copy)]
pub struct Call<'a> {
    pub verb: u64,
    pub numbers: [u64; 4],
    pub bytes: &'a [u8],
}

/// The number before the first blank, 0 where there is none of up to 64 bits, and what stands behind
/// it.
pub fn first_number(words: &str) -> (u64, &str) {
    let (word, rest) = words.split_once(' ').unwrap_or((words, ""));
    (word.parse().unwrap_or(0), rest)
}

/// The four numbers with which words begin, and what stands behind them.
pub fn four_numbers(words: &str) -> ([u64; 4], &str) {
    let (a, rest) = first_number(words);
    let (b, rest) = first_number(rest);
    let (c, rest) = first_number(rest);
    let (d, rest) = first_number(rest);
    ([a, b, c, d], rest)
}

/// The number that a hexadecimal digit stands for.
fn digit_of(byte: u8) -> u8 {
    // (a letter has its place in the alphabet in its lower half)
    if byte < b'A' {
        byte & 0x0F
    } else {
        (byte & 0x0F) + 9
    }
}

/// The bytes that pairs of hexadecimal digits tell.
pub fn bytes_of(alloc: Global, digits: &str) -> Result<ByteText, Memory> {
    let mut out = ByteText::empty(alloc);
    let (pairs, _) = digits.as_bytes().as_chunks::<2>();
    for [high, low] in pairs {
        out.append(&[(digit_of(*high) << 4) | digit_of(*low)])?;
    }
    Ok(out)
}

/// A number of 16 bits; the greatest for a greater one.
pub fn short_of(number: u64) -> u16 {
    number.min(0xFFFF) as u16
}

/// A number of 32 bits; the greatest for a greater one.
pub fn word_of(number: u64) -> u32 {
    number.min(0xFFFF_FFFF) as u32
}

/// The first of bytes, so many of them, and the others.
pub fn parted(bytes: &[u8], count: u64) -> (&[u8], &[u8]) {
    bytes.split_at(bytes.len().min(count as usize))
}

/// An answer as a derived `Debug` prints it.
pub fn told<T: Debug + Drop>(alloc: Global, answer: T) -> Answer {
    Ok(format!(in alloc; "{answer:?}\n")?)
}

/// The answer to a line that is no call.
pub fn no_call(alloc: Global) -> Answer {
    told(alloc, "no call")
}
