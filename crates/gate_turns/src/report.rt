//! The lines of the report.

ghost use Rattle.std.specs.Prelude.{◌≡◌, ◌+◌, ◌≤◌, ◌++◌, true, false, length, codes, decimal, not};
ghost use Rattle.std.specs.Prelude.{if◌then◌else◌};
ghost use Rattle.gate_outside.specs.Counts.{Rose};
ghost use Rattle.gate_outside.specs.Streams.{Appends, AppendsFront};
ghost use Rattle.gate_runs.specs.Report.{pair_line, memory_line, closed_line, closed_lines};
ghost use Rattle.gate_runs.specs.Report.{count_line, last_line};
ghost use Rattle.gate_turns.specs.Parts.{memory_lines};

use gate_outside::{Sink, write_all};
use gate_runs::{Outside, Served};
use itoa::Buffer;

/// Writes a number in decimal.
fn tell_decimal<K: Sink>(report: &mut K, number: u32) -> bool
    ensures later { K.faults report.old ≤ K.faults report.new }
    ensures cause { result ≡ false → Rose (K.faults report.old) (K.faults report.new) }
    ensures whole { result ≡ true → Appends (K.held report.old) (K.held report.new)
        (decimal number) }
    ensures part { AppendsFront (K.held report.old) (K.held report.new) (decimal number) }
{
    let mut buffer = Buffer::new();
    write_all(report, buffer.format(number).as_bytes())
}

/// Writes a number and a text.
fn tell_count<K: Sink>(report: &mut K, number: u32, after: &[u8]) -> bool
    ensures later { K.faults report.old ≤ K.faults report.new }
    ensures cause { result ≡ false → Rose (K.faults report.old) (K.faults report.new) }
    ensures whole { result ≡ true → Appends (K.held report.old) (K.held report.new)
        (decimal number ++ after.now) }
    ensures part { AppendsFront (K.held report.old) (K.held report.new) (decimal number
        ++ after.now) }
{
    if !tell_decimal(report, number) {
        return false;
    }
    write_all(report, after)
}

/// Writes a text, a number in decimal and a text. `false` comes only where the sink's count of
/// faults rose; a front part was then taken.
pub fn tell_number<K: Sink>(report: &mut K, before: &[u8], number: u32, after: &[u8]) -> bool
    ensures later { K.faults report.old ≤ K.faults report.new }
    ensures cause { result ≡ false → Rose (K.faults report.old) (K.faults report.new) }
    ensures whole { result ≡ true
        → Appends (K.held report.old) (K.held report.new) (before.now ++ (decimal number
        ++ after.now)) }
    ensures part { AppendsFront (K.held report.old) (K.held report.new) (before.now
        ++ (decimal number ++ after.now)) }
{
    if !write_all(report, before) {
        return false;
    }
    tell_count(report, number, after)
}

/// Writes the line of a pair that ran out of memory.
pub fn tell_memory<K: Sink>(report: &mut K, number: u32) -> bool
    ensures later { K.faults report.old ≤ K.faults report.new }
    ensures cause { result ≡ false → Rose (K.faults report.old) (K.faults report.new) }
    ensures whole { result ≡ true → Appends (K.held report.old) (K.held report.new)
        (memory_line number) }
    ensures part { AppendsFront (K.held report.old) (K.held report.new) (memory_line number) }
{
    tell_number(report, b"pair ", number, b" memory\n")
}

/// Writes the line of a pair that was shut.
pub fn tell_closed<K: Sink>(report: &mut K, number: u32) -> bool
    ensures later { K.faults report.old ≤ K.faults report.new }
    ensures cause { result ≡ false → Rose (K.faults report.old) (K.faults report.new) }
    ensures whole { result ≡ true → Appends (K.held report.old) (K.held report.new)
        (closed_line number) }
    ensures part { AppendsFront (K.held report.old) (K.held report.new) (closed_line number) }
{
    tell_number(report, b"pair ", number, b" closed\n")
}

/// Writes the line of a pair that ran out of memory, if it did.
pub fn tell_memory_if<K: Sink>(report: &mut K, number: u32, ran_out: bool) -> bool
    ensures later { K.faults report.old ≤ K.faults report.new }
    ensures cause { result ≡ false → Rose (K.faults report.old) (K.faults report.new) }
    ensures met { result ≡ false → ran_out ≡ true }
    ensures whole { result ≡ true → Appends (K.held report.old) (K.held report.new)
        (memory_lines ran_out number) }
    ensures part { AppendsFront (K.held report.old) (K.held report.new)
        (memory_lines ran_out number) }
{
    if !ran_out {
        return true;
    }
    tell_memory(report, number)
}

/// Writes the line of a pair that was shut, if it was.
pub fn tell_closed_if<K: Sink>(report: &mut K, number: u32, gone: bool) -> bool
    ensures later { K.faults report.old ≤ K.faults report.new }
    ensures cause { result ≡ false → Rose (K.faults report.old) (K.faults report.new) }
    ensures met { result ≡ false → gone ≡ true }
    ensures whole { result ≡ true → Appends (K.held report.old) (K.held report.new)
        (closed_lines number (not gone)) }
    ensures part { AppendsFront (K.held report.old) (K.held report.new) (closed_lines number
        (not gone)) }
{
    if !gone {
        return true;
    }
    tell_closed(report, number)
}

/// Writes the lines of a pair for which there was no memory at its accept, and which was shut.
pub fn tell_refused<K: Sink>(report: &mut K, number: u32) -> bool
    ensures later { K.faults report.old ≤ K.faults report.new }
    ensures cause { result ≡ false → Rose (K.faults report.old) (K.faults report.new) }
    ensures whole { result ≡ true
        → Appends (K.held report.old) (K.held report.new) (memory_line number
        ++ closed_line number) }
    ensures part { AppendsFront (K.held report.old) (K.held report.new) (memory_line number
        ++ closed_line number) }
{
    if !tell_memory(report, number) {
        return false;
    }
    tell_closed(report, number)
}

/// Writes the last line: how the service ended, after so many pairs were accepted.
pub fn tell_last<K: Sink>(report: &mut K, how: Served, accepted: u32) -> bool
    ensures later { K.faults report.old ≤ K.faults report.new }
    ensures cause { result ≡ false → Rose (K.faults report.old) (K.faults report.new) }
    ensures whole { result ≡ true → Appends (K.held report.old) (K.held report.new)
        (last_line how accepted) }
    ensures part { AppendsFront (K.held report.old) (K.held report.new) (last_line how accepted) }
{
    match how {
        Served::Stopped => tell_number(report, b"stopped: ", accepted, b" pairs\n"),
        Served::PairsDone => tell_number(report, b"done: ", accepted, b" pairs\n"),
        Served::TurnLimit => tell_number(report, b"turn limit: ", accepted, b" pairs\n"),
        Served::Fault(Outside::Accept) => write_all(report, b"fault: accept\n"),
        Served::Fault(Outside::Out) => true,
        Served::Fault(Outside::Capture) => write_all(report, b"fault: capture\n"),
        Served::Memory => write_all(report, b"memory\n"),
    }
}
