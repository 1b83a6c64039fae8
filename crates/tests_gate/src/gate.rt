//! Calls of the loop with both ends, of what stands around it, and of the gateway. Each file lists
//! the verbs that it knows:
//!
//! | Verbs | Of | In |
//! |---|---|---|
//! | `gateway`, `play`, `memory-source`, `memory-sink` | the gateway, the service, and streams in memory | `runs.rt` |
//! | `asked` | `read_words` for the words: the parts of what is asked for, or where they cease to be a command line | `commands.rt` |
//! | `statuses` | the statuses, and their numbers | |
//! | `start`, bytes | `next_words` over the bytes of a capture | |
//! | `log` | a log | `logs.rt` |
//! | `capture`, `list`, `next` | captures and their listings | `captures.rt` |
//! | `values`, `list-of-two`, `take` | byte strings, lists and numbers | `values.rt` |
//! | all others | sources, sinks and ends over streams | `edge.rt` |

mod captures;
mod commands;
mod edge;
mod ferry;
mod late;
mod logs;
mod note;
mod plays;
mod runs;
mod values;

use crate::call::{Answer, Call, told};
use crate::scripted::Scripted;
use crate::verbs::{
    ASKED, CAPTURE, GATEWAY, LIST, LIST_OF_TWO, LOG, MEMORY_SINK, MEMORY_SOURCE, NEXT, PLAY, START,
    STATUSES, TAKE, VALUES,
};
use captures::{list, next, read};
use commands::{ask, statuses};
pub use edge::Edge;
use gate_capture::next_words;
use logs::tell_full_log;
use runs::call_with_streams;
use std::alloc::Global;
use std::mem;
use values::{take_numbers, tell_list, tell_values};

/// Makes a call that takes the words that were told, and leaves none.
fn call_with_words(alloc: Global, scripted: &mut Scripted, call: Call) -> Answer {
    let answer = match call.verb {
        ASKED => ask(alloc, &scripted.words),
        _ => call_with_streams(alloc, scripted, call),
    };
    drop(mem::replace(&mut scripted.words, Vec::new(alloc)));
    answer
}

/// Makes a call.
pub fn call_gate(alloc: Global, scripted: &mut Scripted, edge: &mut Edge, call: Call) -> Answer {
    match call.verb {
        GATEWAY | ASKED | PLAY | MEMORY_SOURCE | MEMORY_SINK => {
            call_with_words(alloc, scripted, call)
        }
        STATUSES => statuses(alloc),
        START => told(alloc, next_words(call.bytes.len(), call.bytes)),
        CAPTURE => read(alloc, call.bytes),
        LIST => list(alloc, call.bytes),
        NEXT => next(alloc, call),
        LOG => tell_full_log(alloc),
        VALUES => tell_values(alloc),
        LIST_OF_TWO => tell_list(alloc),
        TAKE => take_numbers(alloc, call),
        _ => edge.call(alloc, call),
    }
}
