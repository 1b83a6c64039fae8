//! The lines of the entries of a capture.

ghost use Rattle.std.specs.Prelude.{◌≡◌, ◌++◌, codes, decimal, OnOk};
ghost use Rattle.gate_show.specs.Listing.{accepted_words, at_end, call_words, end_words, got_words};
ghost use Rattle.gate_show.specs.Listing.{line, linked_words, next_words, put_words};

use gate_outside::{Accepted, End, Got, Linked, LogEntry, Next, Put};
use itoa::Buffer;
use wire_base::{ByteText, Memory};

/// Adds a number in decimal.
fn put_decimal(out: &mut ByteText, n: u64) -> Result<(), Memory>
    ensures { OnOk result (out.new ≡ out.old ++ decimal n) }
{
    let mut buffer = Buffer::new();
    out.append(buffer.format(n).as_bytes())
}

/// Adds a text and a number.
fn put_counted(out: &mut ByteText, before: &[u8], n: u64) -> Result<(), Memory>
    ensures { OnOk result (out.new ≡ out.old ++ (before.now ++ decimal n)) }
{
    out.append(before)?;
    put_decimal(out, n)
}

fn put_accepted(out: &mut ByteText, answer: Accepted) -> Result<(), Memory>
    ensures { OnOk result (out.new ≡ out.old ++ accepted_words answer) }
{
    match answer {
        Accepted::Pair(pair) => put_counted(out, b" pair ", u64::from(pair)),
        Accepted::NotYet => out.append(b" notyet"),
        Accepted::Failed => out.append(b" failed"),
    }
}

fn put_linked(out: &mut ByteText, answer: Linked) -> Result<(), Memory>
    ensures { OnOk result (out.new ≡ out.old ++ linked_words answer) }
{
    match answer {
        Linked::Ok => out.append(b" ok"),
        Linked::Failed => out.append(b" failed"),
    }
}

fn put_got(out: &mut ByteText, answer: Got) -> Result<(), Memory>
    ensures { OnOk result (out.new ≡ out.old ++ got_words answer) }
{
    match answer {
        Got::Bytes(count) => put_counted(out, b" bytes ", count as u64),
        Got::NotYet => out.append(b" notyet"),
        Got::Ended => out.append(b" ended"),
        Got::Failed => out.append(b" failed"),
    }
}

fn put_put(out: &mut ByteText, answer: Put) -> Result<(), Memory>
    ensures { OnOk result (out.new ≡ out.old ++ put_words answer) }
{
    match answer {
        Put::Took(count) => put_counted(out, b" took ", count as u64),
        Put::NotYet => out.append(b" notyet"),
        Put::Failed => out.append(b" failed"),
    }
}

fn put_next(out: &mut ByteText, answer: Next) -> Result<(), Memory>
    ensures { OnOk result (out.new ≡ out.old ++ next_words answer) }
{
    match answer {
        Next::Go => out.append(b" go"),
        Next::Stop => out.append(b" stop"),
    }
}

fn put_end(out: &mut ByteText, end: End) -> Result<(), Memory>
    ensures { OnOk result (out.new ≡ out.old ++ end_words end) }
{
    match end {
        End::Client => out.append(b" client"),
        End::Up => out.append(b" up"),
    }
}

/// Adds a text, a pair and its end.
fn put_at_end(out: &mut ByteText, before: &[u8], pair: u32, end: End) -> Result<(), Memory>
    ensures { OnOk result (out.new ≡ out.old ++ (before.now ++ at_end pair end)) }
{
    put_counted(out, before, u64::from(pair))?;
    put_end(out, end)
}

/// Adds a call with its answer.
fn put_call(out: &mut ByteText, entry: &LogEntry) -> Result<(), Memory>
    ensures { OnOk result (out.new ≡ out.old ++ call_words entry.now) }
{
    match entry {
        LogEntry::Accept { answer } => {
            out.append(b"accept")?;
            put_accepted(out, *answer)
        }
        LogEntry::Connect { pair, answer } => {
            put_counted(out, b"connect ", u64::from(*pair))?;
            put_linked(out, *answer)
        }
        LogEntry::Read {
            pair,
            end,
            answer,
            ..
        } => {
            put_at_end(out, b"read ", *pair, *end)?;
            put_got(out, *answer)
        }
        LogEntry::Write {
            pair,
            end,
            answer,
            ..
        } => {
            put_at_end(out, b"write ", *pair, *end)?;
            put_put(out, *answer)
        }
        LogEntry::Shut { pair, end } => put_at_end(out, b"shut ", *pair, *end),
        LogEntry::Idle { answer } => {
            out.append(b"idle")?;
            put_next(out, *answer)
        }
        LogEntry::Now { ms } => put_counted(out, b"now ", *ms),
    }
}

/// Adds the line of an entry with its number. After `Memory` the output has a front part of it.
pub fn put_line(out: &mut ByteText, number: u64, entry: &LogEntry) -> Result<(), Memory>
    ensures { OnOk result (out.new ≡ out.old ++ line number entry.now) }
{
    put_counted(out, b"", number)?;
    out.append(b" ")?;
    put_call(out, entry)?;
    out.append(b"\n")
}
