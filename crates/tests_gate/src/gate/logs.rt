//! Logs of the calls of ports.
//!
//! `log` answers what a log with room for two entries and three bytes takes of four. Behind an answer
//! that is told with a log stand its entries: whether all could be copied, they, and what stands
//! behind them.

use crate::call::{Answer, told};
use gate_outside::{Call, End, Entries, Log, Put};
use std::alloc::Global;
use std::fmt::Debug;
use wire_base::{ItemList, Memory};

/// Adds the calls of a log.
fn add_calls(alloc: Global, calls: &mut Entries, log: &Log) -> Result<(), Memory> {
    for k in 0..log.len() {
        if let Some(entry) = log.copy(alloc, k)? {
            calls.push(entry)?;
        }
    }
    Ok(())
}

/// Tells what was answered, and the entries of a log.
pub fn tell_log<T: Debug + Drop>(alloc: Global, answer: T, log: &Log) -> Answer {
    let mut calls = ItemList::empty(alloc);
    let added = add_calls(alloc, &mut calls, log);
    let behind = log.copy(alloc, log.len());
    told(alloc, (answer, added, calls, behind))
}

/// What a log takes that has room for two entries and three bytes.
fn fill_log(log: &mut Log) -> [bool; 4] {
    let write = Call::Write {
        pair: 7,
        end: End::Up,
        answer: Put::NotYet,
    };
    let now = Call::Now { ms: 9 };
    [
        log.add(write, b"abcd"),
        log.add(write, b"abc"),
        log.add(now, b""),
        log.add(now, b""),
    ]
}

/// A log by itself.
pub fn tell_full_log(alloc: Global) -> Answer {
    let mut log = Log::new(alloc, 2, 3)?;
    let answer = tell_log(alloc, fill_log(&mut log), &log);
    drop(log);
    answer
}
