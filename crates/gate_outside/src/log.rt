//! The log of ports: one entry for each call, with its answer.

ghost use Rattle.std.specs.Prelude.{◌≡◌, ◌+◌, ◌≤◌, [], length, IfOk, slice_get};
ghost use Rattle.std.specs.Bool.{OnTrue, OnFalse};
ghost use Rattle.gate_outside.specs.LogState.{LogState, finds_room, added};
ghost use Rattle.gate_outside.specs.Marks.{entry_at};

use crate::ports::{Accepted, End, Got, Linked, Next, Put};
use crate::reserved::append_reserved;
use std::alloc::Global;
use std::marker::Model;
use wire_base::{ByteText, ItemList, Memory};

/// One call on ports, with its answer.
#[derive(Debug, Drop)]
pub enum LogEntry {
    Accept {
        answer: Accepted,
    },
    Connect {
        pair: u32,
        answer: Linked,
    },
    /// `room` is the length of the buffer, `bytes` what came: as many as a `Bytes` answer says,
    /// else none.
    Read {
        pair: u32,
        end: End,
        room: u32,
        answer: Got,
        bytes: ByteText,
    },
    /// `bytes` is all that was offered.
    Write {
        pair: u32,
        end: End,
        bytes: ByteText,
        answer: Put,
    },
    Shut {
        pair: u32,
        end: End,
    },
    Idle {
        answer: Next,
    },
    Now {
        ms: u64,
    },
}

/// A list of log entries, in the order of the calls.
pub type Entries = ItemList<LogEntry>;

/// A call with its answer, without the bytes that came or were offered.
#[derive(Clone, Copy, Debug)]
pub enum Call {
    Accept {
        answer: Accepted,
    },
    Connect {
        pair: u32,
        answer: Linked,
    },
    Read {
        pair: u32,
        end: End,
        room: u32,
        answer: Got,
    },
    Write {
        pair: u32,
        end: End,
        answer: Put,
    },
    Shut {
        pair: u32,
        end: End,
    },
    Idle {
        answer: Next,
    },
    Now {
        ms: u64,
    },
}

/// A call, and where its bytes stand in the byte string of a log.
#[derive(Clone, Copy, Debug)]
struct Mark {
    call: Call,
    start: usize,
    len: usize,
}

/// A log whose memory is reserved when it is made. Contracts see its entries, and the room that it
/// has left.
#[derive(Debug, Drop)]
pub struct Log {
    marks: Vec<Mark>,
    bytes: Vec<u8>,
    entry_room: usize,
    byte_room: usize,
}

impl Model for Log {
    ghost use Rattle.gate_outside.specs.LogState.{LogState};

    ghost Value = { LogState };

    ghost use Rattle.gate_outside.specs.Marks.{log_state, HasReserved};

    ghost view = { log_state };

    ghost invariant = { HasReserved };
}

impl Log {
    /// An empty log with room for so many entries, whose bytes are so many in all.
    pub fn new(alloc: Global, entries: usize, bytes: usize) -> Result<Log, Memory>
        ensures { IfOk result (λ log. log
            ≡ record { entries = []; entry_room = entries; byte_room = bytes }) }
    {
        let marks = Vec::with_capacity(alloc, entries)?;
        let text = Vec::with_capacity(alloc, bytes)?;
        Ok(Log {
            marks,
            bytes: text,
            entry_room: entries,
            byte_room: bytes,
        })
    }

    /// The count of the entries.
    pub fn len(&self) -> usize
        ensures { result ≡ length self.now.entries }
    {
        self.marks.len()
    }

    /// Entry `k`, counted from 0; `None` exactly where there is none.
    pub fn copy(&self, alloc: Global, k: usize) -> Result<Option<LogEntry>, Memory>
        ensures { IfOk result (λ entry. entry ≡ slice_get self.now.entries k) }
    {
        match mark_at(self.marks.as_slice(), k) {
            Some(mark) => {
                let entry = copied_entry(alloc, self.bytes.as_slice(), mark)?;
                Ok(Some(entry))
            }
            None => Ok(None),
        }
    }

    /// Adds the entry of a call, with the bytes that came or were offered, where it finds room. It
    /// takes no memory.
    pub fn add(&mut self, call: Call, bytes: &[u8]) -> bool
        ensures room { result ≡ finds_room (length bytes.now) self.old }
        ensures added { OnTrue result (self.new ≡ added call bytes.now self.old) }
        ensures full { OnFalse result (self.new ≡ self.old) }
    {
        if self.entry_room == 0 || bytes.len() > self.byte_room {
            return false;
        }
        let mark = Mark {
            call,
            start: self.bytes.len(),
            len: bytes.len(),
        };
        self.marks.push_reserved(mark);
        append_reserved(&mut self.bytes, bytes);
        self.entry_room -= 1;
        self.byte_room -= bytes.len();
        true
    }
}

fn mark_at(marks: &[Mark], k: usize) -> Option<Mark>
    ensures { result ≡ slice_get marks.now k }
{
    marks.get(k).copied()
}

/// The entry of a mark, with bytes of its own.
fn copied_entry(alloc: Global, bytes: &[u8], mark: Mark) -> Result<LogEntry, Memory>
    requires { mark.start + mark.len ≤ length bytes.now }
    ensures { IfOk result (λ entry. entry ≡ entry_at bytes.now mark) }
{
    let (_, rest) = bytes.split_at(mark.start);
    let (part, _) = rest.split_at(mark.len);
    let entry = match mark.call {
        Call::Accept { answer } => LogEntry::Accept { answer },
        Call::Connect { pair, answer } => LogEntry::Connect { pair, answer },
        Call::Read {
            pair,
            end,
            room,
            answer,
        } => LogEntry::Read {
            pair,
            end,
            room,
            answer,
            bytes: ByteText::copy_of(alloc, part)?,
        },
        Call::Write { pair, end, answer } => LogEntry::Write {
            pair,
            end,
            bytes: ByteText::copy_of(alloc, part)?,
            answer,
        },
        Call::Shut { pair, end } => LogEntry::Shut { pair, end },
        Call::Idle { answer } => LogEntry::Idle { answer },
        Call::Now { ms } => LogEntry::Now { ms },
    };
    Ok(entry)
}
