//! Calls over scripted ports, a source in memory, and sinks in memory.
//!
//! | Line | Answer |
//! |---|---|
//! | `memory-source`, bytes | four reads of at most three of the bytes, each with the buffer then |
//! | `memory-sink STEPS` | what so many steps of the report were answered, and what it holds (`values.rt`) |
//! | `play PAIRS TURNS REFUSED` | the service over ferries (`plays.rt`): how it ended, and how many pairs ran out of memory |
//! | `gateway`, bytes | `gateway` for the words, with these bytes as its input: the status, and its number |
//!
//! Behind the answer of the last two stand the report and the capture, and the log of the ports, as
//! `logs.rt` tells it.

ghost use Rattle.std.specs.Prelude.{◌≡◌, []};

use super::logs::tell_log;
use super::plays::serve_ferries;
use super::values::{draws, write_steps};
use crate::call::{Answer, Call, told};
use crate::scripted::{Scripted, Streams};
use crate::verbs::{MEMORY_SINK, MEMORY_SOURCE, PLAY};
use gate_command::{CaptureSink, Status, gateway};
use gate_outside::{Ports, ScriptPorts, Sink, Source};
use std::alloc::Global;

/// Calls the gateway over any ports: what its contract says isn't needed here, and is not worked out
/// for the ports of a run.
fn status_of<P: Ports, S: Source, K: Sink, C: Sink>(
    alloc: Global,
    words: &Vec<String>,
    ports: &mut P,
    input: &mut S,
    out: &mut K,
    capture: &mut CaptureSink<C>,
) -> Status
    requires pairs { P.pairs ports.old ≡ 0 }
    requires ends { P.ends ports.old ≡ [] }
{
    gateway(alloc, words, ports, input, out, capture)
}

/// What the report and the capture hold.
fn held(streams: &Streams) -> (&[u8], &[u8]) {
    (streams.report.held(), streams.capture.sink.held())
}

/// A call over ports of the script.
fn call_over_ports(
    alloc: Global,
    scripted: &mut Scripted,
    streams: &mut Streams,
    call: Call,
) -> Answer {
    let [entries, bytes, _, _] = scripted.rooms;
    let script = scripted.take_script(alloc);
    let mut ports = ScriptPorts::new(alloc, script, entries, bytes)?;
    let Streams {
        input,
        report,
        capture,
    } = &mut *streams;
    let answer = match call.verb {
        PLAY => {
            let ended = serve_ferries(alloc, call.numbers, &mut ports, report, &mut capture.sink);
            tell_log(alloc, (ended, held(streams)), ports.log())
        }
        _ => {
            let status = status_of(alloc, &scripted.words, &mut ports, input, report, capture);
            let ended = (status, status.number());
            tell_log(alloc, (ended, held(streams)), ports.log())
        }
    };
    drop(ports);
    answer
}

/// A call with streams.
pub fn call_with_streams(alloc: Global, scripted: &mut Scripted, call: Call) -> Answer {
    let mut streams = scripted.take_streams(alloc, call.bytes)?;
    let answer = match call.verb {
        MEMORY_SOURCE => told(alloc, draws(&mut streams.input)),
        MEMORY_SINK => told(
            alloc,
            (
                write_steps(&mut streams.report, call.numbers[0]),
                streams.report.held(),
            ),
        ),
        _ => call_over_ports(alloc, scripted, &mut streams, call),
    };
    drop(streams);
    answer
}
