//! The probe of the gateway: frames for its codecs, and a client and a container that play with the
//! running program between them.
//!
//!     gate_probe suite
//!     gate_probe live PROGRAM [LISTEN UPSTREAM IDLE]
//!
//! `suite` reads 23 frames whole and in part, and writes them again. It prints `suite: 23 of 23`
//! where each passes, as `suite::count_passing` says.
//!
//! `live` starts the program with `serve --pairs 1`, at 127.0.0.1:25672 and 127.0.0.1:25673 or at
//! these addresses. It prints `live: ok`, or `live: failed at STEP`, where STEP counts the frames
//! that are awaited from 1, and the end of the program behind them. IDLE clients, 255 at most, stand
//! beside and do nothing once they are greeted.
//!
//! The status is 0 where all came about, 1 where something didn't, and 2 for other words.
#![tactic(auto)]

mod frames;
mod live;
mod peer;
mod script;
mod suite;

use live::{Venue, live};
use std::alloc::Global;
use std::io;
use std::io::Eprint;
use std::net::Net;
use std::process::{ExitCode, Processes};
use std::rt::Clock;
use suite::{count_passing, samples};
use wire_base::Memory;

/// What is asked for.
enum Task<'a> {
    Suite,
    Live(Venue<'a>),
}

/// The status for words that ask for nothing.
const USAGE: u8 = 2;

/// How many clients may stand beside the one that plays.
const IDLE_MAX: u32 = 255;

fn venue_of(words: &[String]) -> Option<Venue<'_>> {
    match words {
        [program] => Some(Venue {
            program: program.as_str(),
            listen: "127.0.0.1:25672",
            upstream: "127.0.0.1:25673",
            idle: 0,
        }),
        [program, listen, upstream, idle] => Some(Venue {
            program: program.as_str(),
            listen: listen.as_str(),
            upstream: upstream.as_str(),
            idle: idle.parse().ok().filter(|idle| *idle <= IDLE_MAX)?,
        }),
        _ => None,
    }
}

fn task_of(words: &[String]) -> Option<Task<'_>> {
    let (first, rest) = words.split_first()?;
    match first.as_str() {
        "suite" if rest.is_empty() => Some(Task::Suite),
        "live" => Some(Task::Live(venue_of(rest)?)),
        _ => None,
    }
}

/// How many frames of the suite pass, and how many there are.
fn tried(alloc: Global) -> Result<(usize, usize), Memory> {
    let samples = samples(alloc)?;
    let count = count_passing(alloc, samples.as_slice())?;
    Ok((count, samples.len()))
}

/// Prints how many frames pass; whether each does.
fn tell_suite(rt: &(impl Print + AllocGlobal)) -> io::Result<bool> {
    let Ok((count, all)) = tried(rt.alloc()) else {
        return Err(io::ErrorKind::OutOfMemory.into());
    };
    println!(rt; "suite: {count} of {all}")?;
    Ok(count == all)
}

/// Prints whether a play came about, or at which step it failed.
fn tell_live<R: Net + Processes + Clock + Print + Eprint + AllocGlobal>(
    rt: &R,
    venue: Venue<'_>,
) -> io::Result<bool> {
    let mut met = 0;
    let is_well = match live(rt, venue, &mut met) {
        Ok(is_well) => is_well,
        Err(error) => {
            eprintln!(rt; "{error}")?;
            false
        }
    };
    if is_well {
        println!(rt; "live: ok")?;
    } else {
        let step = met.saturating_add(1);
        println!(rt; "live: failed at {step}")?;
    }
    Ok(is_well)
}

/// Does what the words ask for.
fn run(rt: &HostRuntime) -> io::Result<ExitCode> {
    let words: Vec<String> = std::env::args(rt)?.skip(1).collect(rt.alloc())?;
    let is_well = match task_of(words.as_slice()) {
        Some(Task::Suite) => tell_suite(rt)?,
        Some(Task::Live(venue)) => tell_live(rt, venue)?,
        None => {
            println!(rt; "usage")?;
            eprintln!(rt;
                "usage: gate_probe suite | gate_probe live PROGRAM [LISTEN UPSTREAM IDLE]"
            )?;
            return Ok(ExitCode::from(USAGE));
        }
    };
    Ok(if is_well {
        ExitCode::SUCCESS
    } else {
        ExitCode::FAILURE
    })
}

fn main(rt: HostRuntime) -> ExitCode {
    match run(&rt) {
        Ok(code) => code,
        Err(error) => {
            let _ = eprintln!(&rt; "gate_probe: {error}");
            ExitCode::FAILURE
        }
    }
}
