//! One open end: its stream, what the system said of it, and the bytes that wait to be sent there.

ghost use Rattle.std.specs.Prelude.{◌≡◌, ◌<◌, ◌||◌, [], false, true, length};
ghost use Rattle.gate_outside.specs.Ends.{ReadsInto};
ghost use Rattle.gate_ends.specs.Streams.{Gives};

use crate::answers::{got_of, is_used_up};
use crate::outgoing::Outgoing;
use crate::pieces::read_into;
use crate::unsent::Unsent;
use gate_outside::Got;
use std::io::{Read, Write};

/// An end's stream. A read is asked of the system only while it may give something, as a write is.
#[derive(Drop)]
pub struct Link<S: Read + Write> {
    /// The stream, and what waits to be sent there.
    pub out: Outgoing<S>,
    pub readable: bool,
    /// The buffer that is kept for the other end of the pair, until that is opened.
    pub kept: Option<Unsent>,
}

impl<S: Read + Write> Link<S> {
    /// A stream that was not asked yet. The buffer is emptied.
    pub fn new(stream: S, unsent: Unsent) -> Link<S>
        ensures stream { result.out.writer ≡ stream }
        ensures unsent { result.out.unsent.bytes.items ≡ [] }
        ensures failed { result.out.failed ≡ false }
    {
        Link {
            out: Outgoing::new(stream, unsent),
            readable: true,
            kept: None,
        }
    }

    /// Reads into the front of a buffer. After a write that failed each read fails.
    pub fn read(&mut self, piece: &mut [u8], buf: &mut [u8]) -> Got
        requires piece { 0 < length piece.old }
        requires some { 0 < length buf.old }
        ensures bytes { ReadsInto result buf.old buf.new }
        ensures given { Gives result buf.new
            (S.remaining self.old.out.writer) (S.remaining self.new.out.writer) }
        ensures unsent { self.new.out.unsent ≡ self.old.out.unsent }
        ensures failed { self.old.out.failed ≡ true → result ≡ Got.Failed }
        ensures quiet { self.old.readable ≡ false → self.new ≡ self.old }
        ensures waits { self.old.readable ≡ false → self.old.out.failed ≡ false
            → result ≡ Got.NotYet }
    {
        if self.out.failed {
            return Got::Failed;
        }
        if !self.readable {
            return Got::NotYet;
        }
        let read = read_into(&mut self.out.writer, piece, buf);
        self.readable = !is_used_up(&read);
        let got = got_of(&read);
        if got == Got::Failed {
            self.out.why = read.err();
        }
        got
    }

    /// The system said that the stream may be read, or written.
    pub fn note(&mut self, readable: bool, writable: bool)
        ensures readable { self.new.readable ≡ self.old.readable || readable }
        ensures out { self.new.out
            ≡ record self.old.out { ready = self.old.out.ready || writable } }
    {
        self.readable |= readable;
        self.out.ready |= writable;
    }
}
