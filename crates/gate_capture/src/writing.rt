//! Writing captures.

ghost use Rattle.std.specs.Prelude.{◌≡◌, ℕ, ◌+◌, ◌<◌, ◌≤◌, ◌^◌, ◌++◌, length, take, true, false};
ghost use Rattle.std.specs.Prelude.{OnOk, OnErr};
ghost use Rattle.std.specs.List.{AllByRecursion};
ghost use Rattle.gate_outside.specs.Counts.{Rose};
ghost use Rattle.gate_outside.specs.LogState.{entry_of};
ghost use Rattle.gate_outside.specs.Streams.{Appends, AppendsFront};
ghost use Rattle.gate_capture.specs.Spelling.{spelling_of, HasSpelling};
ghost use Rattle.gate_capture.specs.Captures.{start, capture};
ghost use Rattle.gate_capture.specs.Parts.{head_text, body_text, tail_text, CallFits};

use crate::parts::{body, head, tail};
use gate_outside::{Call, Entries, LogEntry, Sink, write_all};
use wire_base::{ByteText, Memory};

/// Writes two texts, one after the other. `false` comes only where the sink's count of faults rose;
/// a front part of them was then taken.
#[tactic(auto, using(crate::proofs::Fronts::front_of_first, crate::proofs::Fronts::front_of_second))]
fn write_both<K: Sink>(sink: &mut K, first: &[u8], second: &[u8]) -> bool
    ensures later { K.faults sink.old ≤ K.faults sink.new }
    ensures cause { result ≡ false → Rose (K.faults sink.old) (K.faults sink.new) }
    ensures whole { result ≡ true → Appends (K.held sink.old) (K.held sink.new) (first.now
        ++ second.now) }
    ensures part { AppendsFront (K.held sink.old) (K.held sink.new) (first.now ++ second.now) }
{
    if !write_all(sink, first) {
        return false;
    }
    write_all(sink, second)
}

/// Writes three texts, one after another, as `write_both` does two.
#[tactic(auto, using(crate::proofs::Fronts::front_of_first, crate::proofs::Fronts::front_of_second))]
fn write_three<K: Sink>(sink: &mut K, front: &[u8], middle: &[u8], back: &[u8]) -> bool
    ensures later { K.faults sink.old ≤ K.faults sink.new }
    ensures cause { result ≡ false → Rose (K.faults sink.old) (K.faults sink.new) }
    ensures whole { result ≡ true → Appends (K.held sink.old) (K.held sink.new) (front.now
        ++ middle.now ++ back.now) }
    ensures part { AppendsFront (K.held sink.old) (K.held sink.new) (front.now ++ middle.now
        ++ back.now) }
{
    if !write_both(sink, front, middle) {
        return false;
    }
    write_all(sink, back)
}

/// Writes the entry of a call, with the bytes that came or were offered. It takes no memory, and
/// asks at most three times for a write of all. `false` comes only where the sink's count of faults
/// rose; a front part of the entry was then taken.
#[tactic(auto, using(crate::proofs::PartLemmas::entry_front))]
pub fn write_entry<K: Sink>(sink: &mut K, call: Call, bytes: &[u8]) -> bool
    requires { HasSpelling (entry_of call bytes.now) }
    ensures later { K.faults sink.old ≤ K.faults sink.new }
    ensures cause { result ≡ false → Rose (K.faults sink.old) (K.faults sink.new) }
    ensures whole { result ≡ true → Appends (K.held sink.old) (K.held sink.new) (spelling_of
        (entry_of call bytes.now)) }
    ensures part { AppendsFront (K.held sink.old) (K.held sink.new) (spelling_of
        (entry_of call bytes.now)) }
{
    let bytes = body(call, bytes);
    let front = head(call, bytes.len() as u32);
    let back = tail(call);
    write_three(sink, front.as_slice(), bytes, back.as_slice())
}

/// Adds the entry, or leaves the output as it was.
pub fn put_entry(out: &mut ByteText, entry: &LogEntry) -> Result<(), Memory>
    requires { HasSpelling entry.now }
    ensures ok { OnOk result (out.new ≡ out.old ++ spelling_of entry.now) }
    ensures err { OnErr result (out.new ≡ out.old) }
{
    let (call, bytes) = parts_of(entry);
    let bytes = body(call, bytes);
    let front = head(call, bytes.len() as u32);
    let back = tail(call);
    put_three(out, front.as_slice(), bytes, back.as_slice())
}

/// Adds three texts, one after another, or leaves the output as it was.
fn put_three(out: &mut ByteText, front: &[u8], middle: &[u8], back: &[u8]) -> Result<(), Memory>
    ensures ok { OnOk result (out.new ≡ out.old ++ (front.now ++ middle.now ++ back.now)) }
    ensures err { OnErr result (out.new ≡ out.old) }
{
    let len = out.as_slice().len();
    let put = append_three(out, front, middle, back);
    if put.is_err() {
        out.truncate(len);
    }
    put
}

fn append_three(out: &mut ByteText, front: &[u8], middle: &[u8], back: &[u8]) -> Result<(), Memory>
    ensures ok { OnOk result (out.new ≡ out.old ++ (front.now ++ middle.now ++ back.now)) }
    ensures err { OnErr result (take (length out.old) out.new ≡ out.old) }
{
    out.append(front)?;
    out.append(middle)?;
    out.append(back)
}

/// The call of an entry, and the bytes that came or were offered.
fn parts_of(entry: &LogEntry) -> (Call, &[u8])
    ensures { entry_of result.0 result.1.now ≡ entry.now }
{
    match entry {
        LogEntry::Accept { answer } => (Call::Accept { answer: *answer }, &[]),
        LogEntry::Connect { pair, answer } => (
            Call::Connect {
                pair: *pair,
                answer: *answer,
            },
            &[],
        ),
        LogEntry::Read {
            pair,
            end,
            room,
            answer,
            bytes,
        } => (
            Call::Read {
                pair: *pair,
                end: *end,
                room: *room,
                answer: *answer,
            },
            bytes.as_slice(),
        ),
        LogEntry::Write {
            pair,
            end,
            bytes,
            answer,
        } => (
            Call::Write {
                pair: *pair,
                end: *end,
                answer: *answer,
            },
            bytes.as_slice(),
        ),
        LogEntry::Shut { pair, end } => (
            Call::Shut {
                pair: *pair,
                end: *end,
            },
            &[],
        ),
        LogEntry::Idle { answer } => (Call::Idle { answer: *answer }, &[]),
        LogEntry::Now { ms } => (Call::Now { ms: *ms }, &[]),
    }
}

/// The letters AGC, and the version 1.
const MAGIC: [u8; 4] = *b"AGC1";

/// Adds the start of a capture, or leaves the output as it was. The words are those of the command,
/// joined by line feeds.
pub fn put_start(out: &mut ByteText, words: &ByteText) -> Result<(), Memory>
    requires { length words.now < 2 ^ 32 }
    ensures ok { OnOk result (out.new ≡ out.old ++ start words.now) }
    ensures err { OnErr result (out.new ≡ out.old) }
{
    let words = words.as_slice();
    let len = words.len() as u32;
    put_three(out, &MAGIC, &len.to_be_bytes(), words)
}

/// Writes the start of a capture. It takes no memory. `false` comes only where the sink's count of
/// faults rose; a front part of the start was then taken.
pub fn write_start<K: Sink>(sink: &mut K, words: &[u8]) -> bool
    requires { length words.now < 2 ^ 32 }
    ensures later { K.faults sink.old ≤ K.faults sink.new }
    ensures cause { result ≡ false → Rose (K.faults sink.old) (K.faults sink.new) }
    ensures whole { result ≡ true → Appends (K.held sink.old) (K.held sink.new) (start words.now) }
    ensures part { AppendsFront (K.held sink.old) (K.held sink.new) (start words.now) }
{
    let len = words.len() as u32;
    write_three(sink, &MAGIC, &len.to_be_bytes(), words)
}

/// Adds the start and the entries. After `Memory` the output begins with what it was.
fn append_capture(out: &mut ByteText, words: &ByteText, entries: &Entries) -> Result<(), Memory>
    requires words { length words.now < 2 ^ 32 }
    requires entries { AllByRecursion HasSpelling entries.now }
    ensures ok { OnOk result (out.new ≡ out.old ++ capture words.now entries.now) }
    ensures err { OnErr result (take (length out.old) out.new ≡ out.old) }
{
    put_start(out, words)?;
    for k in 0..entries.len() {
        if let Some(entry) = entries.get(k) {
            put_entry(out, entry)?;
        }
    }
    Ok(())
}

/// Adds a whole capture, or leaves the output as it was. The words are those of the command, joined
/// by line feeds.
pub fn put_capture(out: &mut ByteText, words: &ByteText, entries: &Entries) -> Result<(), Memory>
    requires words { length words.now < 2 ^ 32 }
    requires entries { AllByRecursion HasSpelling entries.now }
    ensures ok { OnOk result (out.new ≡ out.old ++ capture words.now entries.now) }
    ensures err { OnErr result (out.new ≡ out.old) }
{
    let len = out.as_slice().len();
    let put = append_capture(out, words, entries);
    if put.is_err() {
        out.truncate(len);
    }
    put
}
