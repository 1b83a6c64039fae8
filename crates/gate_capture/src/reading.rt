//! Reading captures.
//!
//! Each function takes `size`, the length of the whole input, and the bytes that are left; it
//! answers its value and the bytes after it.

ghost use Rattle.std.specs.Prelude.{◌≡◌, ℕ, ◌-◌, ◌<◌, ◌≤◌, ◌^◌, List, [], length, Option, Ok, Err};
ghost use Rattle.std.specs.Prelude.{IfOk, IfErr};
ghost use Rattle.std.specs.Int.{w8, w32, w64};
ghost use Rattle.std.specs.List.{AllByRecursion};
ghost use Rattle.wire_base.specs.declared.stop.Stop.{Stop};
ghost use Rattle.wire_base.specs.declared.stop.Stop.TheVariants.{Fault};
ghost use Rattle.wire_base.specs.Reading.{Gives, made, all_items};
ghost use Rattle.gate_outside.specs.declared.log.LogEntry.{LogEntry};
ghost use Rattle.gate_capture.specs.Spelling.{HasSpelling};
ghost use Rattle.gate_capture.specs.Captures.{IsCapture};
ghost use Rattle.gate_capture.specs.Kinds.{kind_of, answer_of, end_of, next_of};
ghost use Rattle.gate_capture.specs.Reading.{cut, misfit, octet_in, long_in, longlong_in, byte_in};
ghost use Rattle.gate_capture.specs.Reading.{count_in, bytes_in, pair_end_in, accepted_in};
ghost use Rattle.gate_capture.specs.Reading.{linked_in, got_in, put_in, connect_in, read_in};
ghost use Rattle.gate_capture.specs.Reading.{write_in, entry_in, letter_in, magic_in, start_in};
ghost use Rattle.gate_capture.specs.Reading.{capture_in, seen};

use crate::kinds::{Answer, EntryKind, end_at, next_at};
use gate_outside::{Accepted, End, Entries, Got, Linked, LogEntry, Next, Put};
use std::alloc::Global;
use wire_base::{At, ByteText, Memory, Stop, place};

/// Why bytes are no capture.
#[derive(Clone, Copy, Debug, PartialEq, Eq)]
pub enum CaptureFault {
    /// A byte that isn't that of the start; at this byte.
    Magic,
    /// The input ends inside a field; at its length.
    Cut,
    /// A kind, an end or an answer that no entry has, or a length or a count that is 0 or passes
    /// its room; at its first byte.
    Kind,
}

/// The words of a command, joined by line feeds, and the log of its run.
#[derive(Debug, Drop)]
pub struct Capture {
    pub words: ByteText,
    pub entries: Entries,
}

/// The input ends inside a field.
fn cut_at(size: usize) -> Stop<At<CaptureFault>>
    ensures { result ≡ Fault (cut size size) }
{
    Stop::Fault(At {
        fault: CaptureFault::Cut,
        at: size,
    })
}

/// The field with which these bytes begin has no such value.
fn misfit_of(size: usize, bytes: &[u8]) -> Stop<At<CaptureFault>>
    ensures { result ≡ Fault (misfit size bytes.now) }
{
    Stop::Fault(At {
        fault: CaptureFault::Kind,
        at: place(size, bytes),
    })
}

fn u8_of(size: usize, bytes: &[u8]) -> Result<(u8, &[u8]), Stop<At<CaptureFault>>>
    ensures { Gives (λ x. (x.0, x.1.now)) result (octet_in size bytes.now) }
{
    let Some((first, rest)) = bytes.split_first() else {
        return Err(cut_at(size));
    };
    Ok((*first, rest))
}

fn u32_of(size: usize, bytes: &[u8]) -> Result<(u32, &[u8]), Stop<At<CaptureFault>>>
    ensures { Gives (λ x. (x.0, x.1.now)) result (long_in size bytes.now) }
{
    let Some((front, rest)) = bytes.split_first_chunk::<4>() else {
        return Err(cut_at(size));
    };
    Ok((u32::from_be_bytes(*front), rest))
}

fn u64_of(size: usize, bytes: &[u8]) -> Result<(u64, &[u8]), Stop<At<CaptureFault>>>
    ensures { Gives (λ x. (x.0, x.1.now)) result (longlong_in size bytes.now) }
{
    let Some((front, rest)) = bytes.split_first_chunk::<8>() else {
        return Err(cut_at(size));
    };
    Ok((u64::from_be_bytes(*front), rest))
}

fn kind_of(size: usize, bytes: &[u8]) -> Result<(EntryKind, &[u8]), Stop<At<CaptureFault>>>
    ensures { Gives (λ x. (x.0, x.1.now)) result (byte_in kind_of size bytes.now) }
{
    let (byte, rest) = u8_of(size, bytes)?;
    match EntryKind::of(byte) {
        Some(kind) => Ok((kind, rest)),
        None => Err(misfit_of(size, bytes)),
    }
}

fn answer_of(size: usize, bytes: &[u8]) -> Result<(Answer, &[u8]), Stop<At<CaptureFault>>>
    ensures { Gives (λ x. (x.0, x.1.now)) result (byte_in answer_of size bytes.now) }
{
    let (byte, rest) = u8_of(size, bytes)?;
    match Answer::of(byte) {
        Some(answer) => Ok((answer, rest)),
        None => Err(misfit_of(size, bytes)),
    }
}

fn end_of(size: usize, bytes: &[u8]) -> Result<(End, &[u8]), Stop<At<CaptureFault>>>
    ensures { Gives (λ x. (x.0, x.1.now)) result (byte_in end_of size bytes.now) }
{
    let (byte, rest) = u8_of(size, bytes)?;
    match end_at(byte) {
        Some(end) => Ok((end, rest)),
        None => Err(misfit_of(size, bytes)),
    }
}

fn next_of(size: usize, bytes: &[u8]) -> Result<(Next, &[u8]), Stop<At<CaptureFault>>>
    ensures { Gives (λ x. (x.0, x.1.now)) result (byte_in next_of size bytes.now) }
{
    let (byte, rest) = u8_of(size, bytes)?;
    match next_at(byte) {
        Some(answer) => Ok((answer, rest)),
        None => Err(misfit_of(size, bytes)),
    }
}

/// A number of four bytes that is at least 1 and at most `most`.
fn count_of(most: u32, size: usize, bytes: &[u8]) -> Result<(u32, &[u8]), Stop<At<CaptureFault>>>
    ensures { Gives (λ x. (x.0, x.1.now)) result (count_in most size bytes.now) }
{
    let (count, rest) = u32_of(size, bytes)?;
    if count == 0 || count > most {
        return Err(misfit_of(size, bytes));
    }
    Ok((count, rest))
}

/// So many bytes.
fn bytes_of(count: u32, size: usize, bytes: &[u8]) -> Result<(&[u8], &[u8]), Stop<At<CaptureFault>>>
    ensures { Gives (λ x. (x.0.now, x.1.now)) result (bytes_in count size bytes.now) }
{
    let count = count as usize;
    if bytes.len() < count {
        return Err(cut_at(size));
    }
    Ok(bytes.split_at(count))
}

/// A pair and its end.
fn pair_end_of(size: usize, bytes: &[u8]) -> Result<((u32, End), &[u8]), Stop<At<CaptureFault>>>
    ensures { Gives (λ x. (x.0, x.1.now)) result (pair_end_in size bytes.now) }
{
    let (pair, rest) = u32_of(size, bytes)?;
    let (end, rest) = end_of(size, rest)?;
    Ok(((pair, end), rest))
}

fn accepted_of(size: usize, bytes: &[u8]) -> Result<(Accepted, &[u8]), Stop<At<CaptureFault>>>
    ensures { Gives (λ x. (x.0, x.1.now)) result (accepted_in size bytes.now) }
{
    let (answer, rest) = answer_of(size, bytes)?;
    match answer {
        Answer::NotYet => Ok((Accepted::NotYet, rest)),
        Answer::Done => {
            let (pair, rest) = u32_of(size, rest)?;
            Ok((Accepted::Pair(pair), rest))
        }
        Answer::Failed => Ok((Accepted::Failed, rest)),
        Answer::Ended => Err(misfit_of(size, bytes)),
    }
}

fn linked_of(size: usize, bytes: &[u8]) -> Result<(Linked, &[u8]), Stop<At<CaptureFault>>>
    ensures { Gives (λ x. (x.0, x.1.now)) result (linked_in size bytes.now) }
{
    let (answer, rest) = answer_of(size, bytes)?;
    match answer {
        Answer::Done => Ok((Linked::Ok, rest)),
        Answer::Failed => Ok((Linked::Failed, rest)),
        Answer::NotYet | Answer::Ended => Err(misfit_of(size, bytes)),
    }
}

/// The answer of a read that had so much room, and the bytes that came.
fn got_of(
    room: u32,
    size: usize,
    bytes: &[u8],
) -> Result<((Got, &[u8]), &[u8]), Stop<At<CaptureFault>>>
    ensures { Gives (λ x. ((x.0.0, x.0.1.now), x.1.now)) result (got_in room size bytes.now) }
{
    let (answer, rest) = answer_of(size, bytes)?;
    match answer {
        Answer::NotYet => Ok(((Got::NotYet, &[]), rest)),
        Answer::Done => {
            let (count, rest) = count_of(room, size, rest)?;
            let (came, rest) = bytes_of(count, size, rest)?;
            Ok(((Got::Bytes(count as usize), came), rest))
        }
        Answer::Failed => Ok(((Got::Failed, &[]), rest)),
        Answer::Ended => Ok(((Got::Ended, &[]), rest)),
    }
}

/// The answer of a write that offered so many bytes.
fn put_of(offered: u32, size: usize, bytes: &[u8]) -> Result<(Put, &[u8]), Stop<At<CaptureFault>>>
    ensures { Gives (λ x. (x.0, x.1.now)) result (put_in offered size bytes.now) }
{
    let (answer, rest) = answer_of(size, bytes)?;
    match answer {
        Answer::NotYet => Ok((Put::NotYet, rest)),
        Answer::Done => {
            let (count, rest) = count_of(offered, size, rest)?;
            Ok((Put::Took(count as usize), rest))
        }
        Answer::Failed => Ok((Put::Failed, rest)),
        Answer::Ended => Err(misfit_of(size, bytes)),
    }
}

fn connect_of(size: usize, bytes: &[u8]) -> Result<(LogEntry, &[u8]), Stop<At<CaptureFault>>>
    ensures { Gives (λ x. (x.0, x.1.now)) result (connect_in size bytes.now) }
{
    let (pair, rest) = u32_of(size, bytes)?;
    let (answer, rest) = linked_of(size, rest)?;
    Ok((LogEntry::Connect { pair, answer }, rest))
}

fn read_of(
    alloc: Global,
    size: usize,
    bytes: &[u8],
) -> Result<(LogEntry, &[u8]), Stop<At<CaptureFault>>>
    ensures { Gives (λ x. (x.0, x.1.now)) result (read_in size bytes.now) }
{
    let ((pair, end), rest) = pair_end_of(size, bytes)?;
    let (room, rest) = count_of(u32::MAX, size, rest)?;
    let ((answer, came), rest) = got_of(room, size, rest)?;
    let entry = LogEntry::Read {
        pair,
        end,
        room,
        answer,
        bytes: ByteText::copy_of(alloc, came)?,
    };
    Ok((entry, rest))
}

fn write_of(
    alloc: Global,
    size: usize,
    bytes: &[u8],
) -> Result<(LogEntry, &[u8]), Stop<At<CaptureFault>>>
    ensures { Gives (λ x. (x.0, x.1.now)) result (write_in size bytes.now) }
{
    let ((pair, end), rest) = pair_end_of(size, bytes)?;
    let (count, rest) = count_of(u32::MAX, size, rest)?;
    let (offered, rest) = bytes_of(count, size, rest)?;
    let (answer, rest) = put_of(count, size, rest)?;
    let entry = LogEntry::Write {
        pair,
        end,
        bytes: ByteText::copy_of(alloc, offered)?,
        answer,
    };
    Ok((entry, rest))
}

/// The entry with which these bytes begin, and the bytes after it: for readers that go by entries.
///
/// # Errors
///
/// As `read_capture`; `size` is the length of the whole input, which these bytes end.
pub fn next_entry(
    alloc: Global,
    size: usize,
    bytes: &[u8],
) -> Result<(LogEntry, &[u8]), Stop<At<CaptureFault>>>
    ensures { Gives (λ x. (x.0, x.1.now)) result (entry_in size bytes.now) }
{
    let (kind, rest) = kind_of(size, bytes)?;
    match kind {
        EntryKind::Accept => {
            let (answer, rest) = accepted_of(size, rest)?;
            Ok((LogEntry::Accept { answer }, rest))
        }
        EntryKind::Connect => connect_of(size, rest),
        EntryKind::Read => read_of(alloc, size, rest),
        EntryKind::Write => write_of(alloc, size, rest),
        EntryKind::Shut => {
            let ((pair, end), rest) = pair_end_of(size, rest)?;
            Ok((LogEntry::Shut { pair, end }, rest))
        }
        EntryKind::Idle => {
            let (answer, rest) = next_of(size, rest)?;
            Ok((LogEntry::Idle { answer }, rest))
        }
        EntryKind::Now => {
            let (ms, rest) = u64_of(size, rest)?;
            Ok((LogEntry::Now { ms }, rest))
        }
    }
}

/// The bytes after a letter of the start.
fn letter_of(letter: u8, size: usize, bytes: &[u8]) -> Result<&[u8], Stop<At<CaptureFault>>>
    ensures { Gives (λ x. (tt, x.now)) result (letter_in letter size bytes.now) }
{
    let (byte, rest) = u8_of(size, bytes)?;
    if byte != letter {
        return Err(Stop::Fault(At {
            fault: CaptureFault::Magic,
            at: place(size, bytes),
        }));
    }
    Ok(rest)
}

/// The bytes after the letters and the version.
fn magic_of(size: usize, bytes: &[u8]) -> Result<&[u8], Stop<At<CaptureFault>>>
    ensures { Gives (λ x. (tt, x.now)) result (magic_in size bytes.now) }
{
    let rest = letter_of(b'A', size, bytes)?;
    let rest = letter_of(b'G', size, rest)?;
    let rest = letter_of(b'C', size, rest)?;
    letter_of(b'1', size, rest)
}

/// The words of the command, behind the letters and their length, and the entries after them.
///
/// # Errors
///
/// As `read_capture`; `size` is the length of the whole input, which these bytes end.
pub fn next_words(size: usize, bytes: &[u8]) -> Result<(&[u8], &[u8]), Stop<At<CaptureFault>>>
    ensures { Gives (λ x. (x.0.now, x.1.now)) result (start_in size bytes.now) }
{
    let rest = magic_of(size, bytes)?;
    let (count, rest) = u32_of(size, rest)?;
    bytes_of(count, size, rest)
}

/// The entries that fill these bytes.
fn entries_of(alloc: Global, size: usize, bytes: &[u8]) -> Result<Entries, Stop<At<CaptureFault>>>
    ensures { Gives (λ log. log) result (all_items (cut size) entry_in size bytes.now) }
{
    let mut entries = Entries::empty(alloc);
    let mut rest = bytes;
    while !rest.is_empty() {
        let (entry, after) = next_entry(alloc, size, rest)?;
        entries.push(entry)?;
        rest = after;
    }
    Ok(entries)
}

/// The capture that these bytes are.
fn capture_of(alloc: Global, bytes: &[u8]) -> Result<Capture, Stop<At<CaptureFault>>>
    ensures { Gives (λ capture. (capture.words, capture.entries)) result (capture_in bytes.now) }
{
    let size = bytes.len();
    let (words, rest) = next_words(size, bytes)?;
    let entries = entries_of(alloc, size, rest)?;
    let words = ByteText::copy_of(alloc, words)?;
    Ok(Capture { words, entries })
}

/// The capture that these bytes are, or the first fault.
fn seen_in(alloc: Global, bytes: &[u8]) -> Result<Result<Capture, At<CaptureFault>>, Memory>
    ensures { IfOk result (λ read. seen read ≡ capture_in bytes.now) }
{
    match capture_of(alloc, bytes) {
        Ok(capture) => Ok(Ok(capture)),
        Err(Stop::Memory) => Err(Memory),
        Err(Stop::Fault(e)) => Ok(Err(e)),
    }
}

/// The capture that these bytes are. It doesn't look into the words.
///
/// # Errors
///
/// The first fault in the order of the bytes: `Magic` at the first of the four letters that
/// differs; `Kind` at a kind, an end or an answer byte that no entry has, or at a length or a count
/// that is 0 or passes its room; `Cut` at the length of the input where it ends inside a field.
///
/// `Memory` where the allocator has no room.
pub fn read_capture(
    alloc: Global,
    bytes: &[u8],
) -> Result<Result<Capture, At<CaptureFault>>, Memory>
    // What is read is a capture.
    ensures found { IfOk result (λ read. IfOk read (λ capture.
        IsCapture capture.words capture.entries bytes.now)) }
    // A capture is read.
    ensures only { (words : List ℕ) (log : List LogEntry) → IsCapture words log bytes.now
        → IfOk result (λ read. read ≡ Ok (record { words = words; entries = log })) }
    // What is read can be written again, and replayed.
    ensures again { IfOk result (λ read. IfOk read (λ capture.
        (length capture.words < 2 ^ 32) × AllByRecursion HasSpelling capture.entries)) }
    // Which capture is read, or which is the first fault, and where.
    ensures exact { IfOk result (λ read. seen read ≡ capture_in bytes.now) }
{
    let read = seen_in(alloc, bytes)?;
    Ok(read)
}
