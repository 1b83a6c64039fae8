//! A writer that may not take bytes at once, and the bytes that wait for it.

ghost use Rattle.std.specs.Prelude.{◌≡◌, ◌<◌, ◌≤◌, ◌-◌, ◌↔◌, ◌++◌, ◌==◌, ◌||◌, []};
ghost use Rattle.std.specs.Prelude.{false, true, length, min};
ghost use Rattle.gate_outside.specs.Ends.{TakesSome};
ghost use Rattle.gate_ends.specs.Streams.{put_bytes, SameInAll};
ghost use Rattle.gate_ends.specs.declared.outgoing.TheConstants.{LONG};

use crate::answers::{is_used_up, put_of};
use crate::unsent::Unsent;
use gate_outside::Put;
use std::io;
use std::io::Write;

/// As many bytes as go past the buffer, half of what an end's buffer holds. A call of the system
/// for these alone costs no more than to copy them there.
const LONG: usize = 32_768;

/// A writer with a buffer before it. A write is asked of the system only while it may take
/// something: until an answer that it would wait, and again once the system has said that it is
/// ready.
#[derive(Drop)]
pub struct Outgoing<W: Write> {
    pub writer: W,
    pub unsent: Unsent,
    pub ready: bool,
    pub failed: bool,
    /// What the system said where it failed.
    pub why: Option<io::Error>,
}

impl<W: Write> Outgoing<W> {
    /// A writer that was not asked yet. The buffer is emptied.
    pub fn new(writer: W, mut unsent: Unsent) -> Outgoing<W>
        ensures writer { result.writer ≡ writer }
        ensures unsent { result.unsent.bytes.items ≡ [] }
        ensures failed { result.failed ≡ false }
    {
        unsent.clear();
        Outgoing {
            writer,
            unsent,
            ready: true,
            failed: false,
            why: None,
        }
    }

    /// Takes bytes into the buffer, as many as fit. Where it is full, it is sent first. So it is
    /// before 32,768 bytes and more, which go past it where nothing waits there then and the writer
    /// takes some. While the system hasn't said that it is ready, bytes of any number go into the
    /// buffer.
    pub fn write(&mut self, bytes: &[u8]) -> Put
        requires some { 0 < length bytes.now }
        ensures taken { TakesSome result (length bytes.now) }
        ensures full { result ≡ Put.NotYet
            → length self.new.unsent.bytes.items ≡ self.new.unsent.room }
        ensures failed { result ≡ Put.Failed ↔ self.new.failed ≡ true }
        ensures takes { self.old.failed ≡ false → length bytes.now < LONG
            → length self.old.unsent.bytes.items < self.old.unsent.room
            → result ≡ Put.Took (min (length bytes.now)
            (self.old.unsent.room - length self.old.unsent.bytes.items)) }
        ensures unready { self.old.failed ≡ false → self.old.ready ≡ false
            → length self.old.unsent.bytes.items < self.old.unsent.room
            → result ≡ Put.Took (min (length bytes.now)
            (self.old.unsent.room - length self.old.unsent.bytes.items)) }
        ensures order { self.new.failed ≡ false → SameInAll
            (W.contents self.old.writer) (self.old.unsent.bytes.items ++ put_bytes result bytes.now)
            (W.contents self.new.writer) self.new.unsent.bytes.items }
    {
        if bytes.len() >= LONG {
            self.write_long(bytes)
        } else {
            self.write_short(bytes)
        }
    }

    /// Takes bytes into the buffer, as many as fit. Where it is full, it is sent first.
    fn write_short(&mut self, bytes: &[u8]) -> Put
        requires some { 0 < length bytes.now }
        ensures taken { TakesSome result (length bytes.now) }
        ensures full { result ≡ Put.NotYet
            → length self.new.unsent.bytes.items ≡ self.new.unsent.room }
        ensures failed { result ≡ Put.Failed ↔ self.new.failed ≡ true }
        ensures takes { self.old.failed ≡ false
            → length self.old.unsent.bytes.items < self.old.unsent.room
            → result ≡ Put.Took (min (length bytes.now)
            (self.old.unsent.room - length self.old.unsent.bytes.items)) }
        ensures order { self.new.failed ≡ false → SameInAll
            (W.contents self.old.writer) (self.old.unsent.bytes.items ++ put_bytes result bytes.now)
            (W.contents self.new.writer) self.new.unsent.bytes.items }
    {
        if self.unsent.is_full() {
            self.flush();
        }
        if self.failed {
            return Put::Failed;
        }
        match self.unsent.take_in(bytes) {
            0 => Put::NotYet,
            n => Put::Took(n),
        }
    }

    /// Writes bytes past the buffer, once that was sent. Where the writer takes none, the buffer
    /// does.
    fn write_long(&mut self, bytes: &[u8]) -> Put
        requires some { 0 < length bytes.now }
        ensures taken { TakesSome result (length bytes.now) }
        ensures full { result ≡ Put.NotYet
            → length self.new.unsent.bytes.items ≡ self.new.unsent.room }
        ensures failed { result ≡ Put.Failed ↔ self.new.failed ≡ true }
        ensures unready { self.old.failed ≡ false → self.old.ready ≡ false
            → length self.old.unsent.bytes.items < self.old.unsent.room
            → result ≡ Put.Took (min (length bytes.now)
            (self.old.unsent.room - length self.old.unsent.bytes.items)) }
        ensures order { self.new.failed ≡ false → SameInAll
            (W.contents self.old.writer) (self.old.unsent.bytes.items ++ put_bytes result bytes.now)
            (W.contents self.new.writer) self.new.unsent.bytes.items }
    {
        self.flush();
        match self.write_past(bytes) {
            Put::NotYet => self.write_short(bytes),
            Put::Took(n) => Put::Took(n),
            Put::Failed => Put::Failed,
        }
    }

    /// Writes bytes at once, where nothing waits and the writer may take some.
    fn write_past(&mut self, bytes: &[u8]) -> Put
        requires some { 0 < length bytes.now }
        ensures taken { TakesSome result (length bytes.now) }
        ensures failed { result ≡ Put.Failed ↔ self.new.failed ≡ true }
        ensures still { self.old.failed ≡ true → result ≡ Put.Failed }
        ensures unready { self.old.failed ≡ false → self.old.ready ≡ false → result ≡ Put.NotYet }
        ensures unsent { self.new.unsent ≡ self.old.unsent }
        ensures order { self.new.failed ≡ false → SameInAll
            (W.contents self.old.writer) (self.old.unsent.bytes.items ++ put_bytes result bytes.now)
            (W.contents self.new.writer) self.old.unsent.bytes.items }
    {
        if self.failed {
            return Put::Failed;
        }
        if !self.ready || !self.unsent.is_empty() {
            return Put::NotYet;
        }
        let written = self.writer.write(bytes);
        self.ready = !is_used_up(&written);
        let put = put_of(&written);
        if put == Put::Failed {
            self.failed = true;
            self.why = written.err();
        }
        put
    }

    /// Sends what waits by one write, where the writer may take it. Where that fails, what waits is
    /// given up.
    pub fn flush(&mut self)
        ensures order { self.new.failed ≡ false → SameInAll
            (W.contents self.old.writer) self.old.unsent.bytes.items
            (W.contents self.new.writer) self.new.unsent.bytes.items }
        ensures still { self.old.failed ≡ true → self.new ≡ self.old }
        ensures quiet { self.old.ready ≡ false → self.new ≡ self.old }
        ensures room { self.new.unsent.room ≡ self.old.unsent.room }
    {
        if self.failed || !self.ready || self.unsent.is_empty() {
            return;
        }
        let written = self.writer.write(self.unsent.bytes.as_slice());
        self.ready = !is_used_up(&written);
        match put_of(&written) {
            Put::Took(n) => self.unsent.drop_front(n),
            Put::NotYet => {}
            Put::Failed => {
                self.failed = true;
                self.unsent.clear();
                self.why = written.err();
            }
        }
    }

    /// Whether nothing more will go out: all of it did, or a write failed.
    pub fn is_settled(&self) -> bool
        ensures { result ≡ self.now.failed || length self.now.unsent.bytes.items == 0 }
    {
        self.failed || self.unsent.is_empty()
    }
}
