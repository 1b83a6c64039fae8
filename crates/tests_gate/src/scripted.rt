//! What lines tell before a call of the gate: a script of ports, the words of a command line, and
//! where sources and sinks end or fail.
//!
//! | Line | Meaning |
//! |---|---|
//! | `piece PAIR END AFTER ENDS`, bytes | an end sends bytes once it took so many; it ends then where ENDS isn't 0 |
//! | `room PAIR END MOST` | the next write to an end takes so many bytes at most |
//! | `fault CALL` | a call of the ports fails |
//! | `run PAIRS IDLES STEP` | how many clients come, how often `idle` answers Go, and the milliseconds of a turn |
//! | `rooms ENTRIES LOG REPORT CAPTURE` | the most entries and bytes of the log, and the most bytes of the report and of the capture |
//! | `in CALL`, `out CALL`, `lost CALL` | a call of the source fails, of the report, or of the capture |
//! | `word`, bytes | one more word; what isn't UTF-8 is an empty one |
//!
//! END is 0 for the client's end and 1 for that upstream. The next call that is given ports, words, a
//! source or sinks takes all of it.

use crate::call::{Answer, Call, no_call, told, word_of};
use crate::verbs::{FAULT, IN, LOST, OUT, PIECE, ROOM, ROOMS, RUN, WORD};
use gate_command::CaptureSink;
use gate_outside::{CallList, End, MemorySink, MemorySource, Piece, Room, Script};
use std::alloc::Global;
use std::mem;
use wire_base::{ByteText, ItemList, Memory};

/// What was told and not taken yet.
#[derive(Drop)]
pub struct Scripted {
    script: Script,
    pub words: Vec<String>,
    /// The calls at which the source fails, the report, and the capture.
    unread: CallList,
    unreported: CallList,
    lost: CallList,
    /// The most entries and bytes of the log, and the most bytes of the report and of the capture.
    pub rooms: [usize; 4],
}

/// A source, a sink for the report and one for the capture.
#[derive(Drop)]
pub struct Streams {
    pub input: MemorySource,
    pub report: MemorySink,
    pub capture: CaptureSink<MemorySink>,
}

/// A script of one pair of which nothing comes.
fn quiet(alloc: Global) -> Script {
    Script {
        pairs: 1,
        pieces: ItemList::empty(alloc),
        rooms: ItemList::empty(alloc),
        fails: ItemList::empty(alloc),
        idles: 0,
        step: 1,
    }
}

/// The end that a number stands for.
fn end_of(number: u64) -> End {
    if number == 0 { End::Client } else { End::Up }
}

impl Scripted {
    /// Nothing was told.
    pub fn new(alloc: Global) -> Scripted {
        Scripted {
            script: quiet(alloc),
            words: Vec::new(alloc),
            unread: ItemList::empty(alloc),
            unreported: ItemList::empty(alloc),
            lost: ItemList::empty(alloc),
            rooms: [0; 4],
        }
    }

    /// Adds what an end sends.
    fn add_piece(&mut self, alloc: Global, call: Call) -> Answer {
        let [pair, end, after, ends] = call.numbers;
        let piece = Piece {
            pair: word_of(pair),
            end: end_of(end),
            after,
            bytes: ByteText::copy_of(alloc, call.bytes)?,
            ends: ends != 0,
        };
        told(alloc, self.script.pieces.push(piece))
    }

    /// Adds how much a write takes.
    fn add_room(&mut self, alloc: Global, numbers: [u64; 4]) -> Answer {
        let room = Room {
            pair: word_of(numbers[0]),
            end: end_of(numbers[1]),
            most: word_of(numbers[2]),
        };
        told(alloc, self.script.rooms.push(room))
    }

    /// Adds a word.
    fn add_word(&mut self, alloc: Global, bytes: &[u8]) -> Answer {
        let word = String::from_str(alloc, std::str::from_utf8(bytes).unwrap_or(""))?;
        self.words.push(word)?;
        told(alloc, ())
    }

    /// Sets the numbers of the script, or the rooms.
    fn set(&mut self, alloc: Global, call: Call) -> Answer {
        let [a, b, c, d] = call.numbers;
        match call.verb {
            RUN => {
                self.script.pairs = word_of(a);
                self.script.idles = b;
                self.script.step = c;
            }
            ROOMS => self.rooms = [a as usize, b as usize, c as usize, d as usize],
            _ => return no_call(alloc),
        }
        told(alloc, ())
    }

    /// Takes what a line tells.
    pub fn tell(&mut self, alloc: Global, call: Call) -> Answer {
        let number = call.numbers[0];
        match call.verb {
            PIECE => self.add_piece(alloc, call),
            ROOM => self.add_room(alloc, call.numbers),
            WORD => self.add_word(alloc, call.bytes),
            FAULT => told(alloc, self.script.fails.push(number)),
            IN => told(alloc, self.unread.push(number)),
            OUT => told(alloc, self.unreported.push(number)),
            LOST => told(alloc, self.lost.push(number)),
            _ => self.set(alloc, call),
        }
    }

    /// The script, after which there is none.
    pub fn take_script(&mut self, alloc: Global) -> Script {
        mem::replace(&mut self.script, quiet(alloc))
    }

    /// The streams, of which the source gives these bytes.
    pub fn take_streams(&mut self, alloc: Global, bytes: &[u8]) -> Result<Streams, Memory> {
        let [_, _, report, capture] = self.rooms;
        // (where memory runs out, little is there yet that is dropped)
        let bytes = ByteText::copy_of(alloc, bytes)?;
        let unreported = mem::replace(&mut self.unreported, ItemList::empty(alloc));
        let report = MemorySink::new(alloc, report, unreported)?;
        let lost = mem::replace(&mut self.lost, ItemList::empty(alloc));
        let sink = MemorySink::new(alloc, capture, lost)?;
        let unread = mem::replace(&mut self.unread, ItemList::empty(alloc));
        Ok(Streams {
            input: MemorySource::new(bytes, unread),
            report,
            capture: CaptureSink { sink },
        })
    }
}
