//! The parts of an entry's spelling that have a fixed length. They need no memory.

ghost use Rattle.std.specs.Prelude.{◌≡◌, ℕ, ◌+◌, ◌<◌, ◌≤◌, ◌^◌, [], ◌∷◌, ◌++◌, length};
ghost use Rattle.std.specs.Int.{w32, to_be_bytes};
ghost use Rattle.arrayvec.specs.ArrayVec.{array_vec_len};
ghost use Rattle.gate_outside.specs.LogState.{entry_of};
ghost use Rattle.gate_capture.specs.Spelling.{end_text, accepted_text, linked_text, got_text};
ghost use Rattle.gate_capture.specs.Spelling.{put_text};
ghost use Rattle.gate_capture.specs.Kinds.{kind_byte};
ghost use Rattle.gate_capture.specs.Parts.{head_text, body_text, tail_text, GotFits, PutFits};
ghost use Rattle.gate_capture.specs.Parts.{CallFits};

use crate::kinds::{Answer, EntryKind, end_byte_of, next_byte_of};
use arrayvec::ArrayVec;
use gate_outside::{Accepted, Call, End, Got, Linked, Next, Put};

/// As many bytes as the longest part has: a read's, before the bytes that came.
const PART: usize = 15;

/// A part of a spelling.
pub(crate) type Part = ArrayVec<u8, PART>;

/// Adds bytes, for which there is room.
fn add(part: &mut Part, bytes: &[u8])
    requires { array_vec_len part.old + length bytes.now ≤ 15 }
    ensures items { part.new.items ≡ part.old.items ++ bytes.now }
    ensures len { array_vec_len part.new ≡ array_vec_len part.old + length bytes.now }
{
    part.try_extend_from_slice(bytes).unwrap();
}

/// The pair, and its end.
fn add_end(part: &mut Part, pair: u32, end: End)
    requires { array_vec_len part.old ≤ 10 }
    ensures items { part.new.items ≡ part.old.items ++ end_text pair end }
    ensures len { array_vec_len part.new ≡ array_vec_len part.old + 5 }
{
    add(part, &pair.to_be_bytes());
    part.push(end_byte_of(end));
}

/// An answer that has a number behind it.
fn add_count(part: &mut Part, count: u32)
    requires { array_vec_len part.old ≤ 10 }
    ensures items { part.new.items ≡ part.old.items ++ 1 ∷ to_be_bytes w32 count }
    ensures len { array_vec_len part.new ≡ array_vec_len part.old + 5 }
{
    part.push(Answer::Done.byte());
    add(part, &count.to_be_bytes());
}

fn add_accepted(part: &mut Part, answer: Accepted)
    requires { array_vec_len part.old ≤ 10 }
    ensures { part.new.items ≡ part.old.items ++ accepted_text answer }
{
    match answer {
        Accepted::NotYet => part.push(Answer::NotYet.byte()),
        Accepted::Pair(pair) => add_count(part, pair),
        Accepted::Failed => part.push(Answer::Failed.byte()),
    }
}

fn add_linked(part: &mut Part, answer: Linked)
    requires { array_vec_len part.old ≤ 10 }
    ensures { part.new.items ≡ part.old.items ++ linked_text answer }
{
    match answer {
        Linked::Ok => part.push(Answer::Done.byte()),
        Linked::Failed => part.push(Answer::Failed.byte()),
    }
}

fn add_got(part: &mut Part, answer: Got)
    requires room { array_vec_len part.old ≤ 10 }
    requires small { GotFits answer }
    ensures { part.new.items ≡ part.old.items ++ got_text answer [] }
{
    match answer {
        Got::NotYet => part.push(Answer::NotYet.byte()),
        Got::Bytes(count) => add_count(part, count as u32),
        Got::Failed => part.push(Answer::Failed.byte()),
        Got::Ended => part.push(Answer::Ended.byte()),
    }
}

fn add_put(part: &mut Part, answer: Put)
    requires room { array_vec_len part.old ≤ 10 }
    requires small { PutFits answer }
    ensures { part.new.items ≡ part.old.items ++ put_text answer }
{
    match answer {
        Put::NotYet => part.push(Answer::NotYet.byte()),
        Put::Took(count) => add_count(part, count as u32),
        Put::Failed => part.push(Answer::Failed.byte()),
    }
}

/// A part that begins with the kind of its entry.
fn begun(kind: EntryKind) -> Part
    ensures items { result.items ≡ kind_byte kind ∷ [] }
    ensures len { array_vec_len result ≡ 1 }
{
    let mut part = Part::new();
    part.push(kind.byte());
    part
}

/// What stands before the bytes that came or were offered.
pub(crate) fn head(call: Call, offered: u32) -> Part
    requires { CallFits call }
    ensures { result.items ≡ head_text call offered }
{
    match call {
        Call::Accept { answer } => {
            let mut part = begun(EntryKind::Accept);
            add_accepted(&mut part, answer);
            part
        }
        Call::Connect { pair, answer } => {
            let mut part = begun(EntryKind::Connect);
            add(&mut part, &pair.to_be_bytes());
            add_linked(&mut part, answer);
            part
        }
        Call::Read {
            pair,
            end,
            room,
            answer,
        } => {
            let mut part = begun(EntryKind::Read);
            add_end(&mut part, pair, end);
            add(&mut part, &room.to_be_bytes());
            add_got(&mut part, answer);
            part
        }
        Call::Write { pair, end, .. } => {
            let mut part = begun(EntryKind::Write);
            add_end(&mut part, pair, end);
            add(&mut part, &offered.to_be_bytes());
            part
        }
        Call::Shut { pair, end } => {
            let mut part = begun(EntryKind::Shut);
            add_end(&mut part, pair, end);
            part
        }
        Call::Idle { answer } => {
            let mut part = begun(EntryKind::Idle);
            part.push(next_byte_of(answer));
            part
        }
        Call::Now { ms } => {
            let mut part = begun(EntryKind::Now);
            add(&mut part, &ms.to_be_bytes());
            part
        }
    }
}

/// The bytes that came or were offered, where the spelling has them.
pub(crate) fn body(call: Call, bytes: &[u8]) -> &[u8]
    ensures { result.now ≡ body_text call bytes.now }
{
    match call {
        Call::Write { .. }
        | Call::Read {
            answer: Got::Bytes(_),
            ..
        } => bytes,
        _ => &[],
    }
}

/// What stands behind the bytes.
pub(crate) fn tail(call: Call) -> Part
    requires { CallFits call }
    ensures { result.items ≡ tail_text call }
{
    let mut part = Part::new();
    if let Call::Write { answer, .. } = call {
        add_put(&mut part, answer);
    }
    part
}
