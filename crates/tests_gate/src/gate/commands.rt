//! Words and statuses.

use crate::call::{Answer, told};
use gate_command::{Asked, Status, read_words};
use std::alloc::Global;

/// What is asked for, by its parts.
fn tell_asked(alloc: Global, asked: &Asked) -> Answer {
    match asked {
        Asked::Serve {
            limits,
            setup,
            listen,
            upstream,
            capture,
        } => {
            let shared = (setup.name(), setup.host(), setup.vhost());
            let routes = setup.routes().as_slice();
            told(alloc, (limits, shared, routes, listen, upstream, capture))
        }
        Asked::Replay => told(alloc, "replay"),
        Asked::Show091 => told(alloc, "show 091"),
        Asked::Show10 => told(alloc, "show 10"),
        Asked::ShowCapture => told(alloc, "show capture"),
    }
}

/// What words ask for, or where they cease to be a command line.
pub fn ask(alloc: Global, words: &Vec<String>) -> Answer {
    match read_words(alloc, words)? {
        Ok(asked) => {
            let answer = tell_asked(alloc, &asked);
            drop(asked);
            answer
        }
        Err(misplaced) => told(alloc, misplaced),
    }
}

/// Each status, and their numbers.
pub fn statuses(alloc: Global) -> Answer {
    let all = [
        Status::Ok,
        Status::Differs,
        Status::Usage,
        Status::BadInput,
        Status::Outside,
        Status::Memory,
        Status::TurnLimit,
    ];
    told(alloc, (all, all.map(Status::number)))
}
