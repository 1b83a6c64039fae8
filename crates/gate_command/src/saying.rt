//! Lines with a number, and what they tell.

ghost use Rattle.std.specs.Prelude.{◌≡◌, ◌≢◌, ◌≤◌, ◌++◌, decimal, IfOk, OnOk, OnErr, Ok};
ghost use Rattle.gate_outside.specs.Counts.{Rose};
ghost use Rattle.gate_command.specs.Recorded.{Says, counted_line};

use crate::top_call::Status;
use gate_outside::{Sink, write_all};
use itoa::Buffer;
use std::alloc::Global;
use wire_base::{ByteText, Memory};

/// Writes a line, whose status is this if out takes it.
fn say<K: Sink>(out: &mut K, line: &[u8], meant: Status) -> Status
    requires { meant ≢ Status.Outside }
    ensures later { K.faults out.old ≤ K.faults out.new }
    ensures cause { result ≡ Status.Outside → Rose (K.faults out.old) (K.faults out.new) }
    ensures said { Says meant line.now result (K.held out.old) (K.held out.new) }
    ensures never { meant ≢ Status.Usage → result ≢ Status.Usage }
{
    if write_all(out, line) {
        meant
    } else {
        Status::Outside
    }
}

/// Adds a number in decimal.
fn put_decimal(out: &mut ByteText, number: u64) -> Result<(), Memory>
    ensures { OnOk result (out.new ≡ out.old ++ decimal number) }
{
    let mut buffer = Buffer::new();
    out.append(buffer.format(number).as_bytes())
}

/// A line: a text, a number and a text.
fn counted_line(alloc: Global, before: &[u8], number: u64, after: &[u8]) -> Result<ByteText, Memory>
    ensures { IfOk result (λ line. line ≡ counted_line before.now number after.now) }
{
    let mut line = ByteText::copy_of(alloc, before)?;
    put_decimal(&mut line, number)?;
    line.append(after)?;
    Ok(line)
}

/// Writes a text, a number and a text. Nothing is written where memory runs out.
pub fn say_counted<K: Sink>(
    alloc: Global,
    out: &mut K,
    before: &[u8],
    number: u64,
    after: &[u8],
    meant: Status,
) -> Result<Status, Memory>
    requires { meant ≢ Status.Outside }
    ensures later { K.faults out.old ≤ K.faults out.new }
    ensures cause { result ≡ Ok Status.Outside → Rose (K.faults out.old) (K.faults out.new) }
    ensures said { IfOk result (λ answer. Says meant
        (counted_line before.now number after.now) answer (K.held out.old) (K.held out.new)) }
    ensures none { OnErr result (out.new ≡ out.old) }
    ensures never { meant ≢ Status.Usage → result ≢ Ok Status.Usage }
{
    let line = counted_line(alloc, before, number, after)?;
    Ok(say(out, line.as_slice(), meant))
}
