//! The way of the report to the standard output, which may not take it at once.

ghost use Rattle.std.specs.Prelude.{◌≡◌, ◌<◌, ◌≤◌, length, IfOk, IfSome, None};

use crate::faults::raise;
use crate::standard_error::{may_write, tell_output};
use gate_ends::{Outgoing, Unsent};
use gate_outside::{Put, Sink, Sunk};
use std::alloc::Global;
use std::cell::RefCell;
use std::io::{Eprint, ErrorKind, Stdout, Write};
use std::rt::Clock;
use std::time::Duration;
use std::{io, thread};
use wire_base::Memory;

/// The most bytes that wait for the standard output.
const ROOM: usize = 1_048_576;

/// The most bytes of one write. Where a pipe takes any, it takes so many without a wait.
const ONE_WRITE: usize = 4_096;

/// The tries of `finish`, with a millisecond after each that took nothing.
const LAST_TRIES: u32 = 1_000;

/// The standard output, which is written to only where the system says that a write would not wait.
/// It stays as it is for others that share it.
#[derive(Drop)]
pub struct StandardOut {
    out: Stdout,
}

impl StandardOut {
    pub fn new(out: Stdout) -> StandardOut {
        StandardOut { out }
    }
}

impl Write for StandardOut {
    fn write(&mut self, buf: &[u8]) -> io::Result<usize> {
        if !may_write(libc::STDOUT_FILENO) {
            return Err(ErrorKind::WouldBlock.into());
        }
        let (front, _) = buf.split_at(buf.len().min(ONE_WRITE));
        self.out.write(front)
    }

    fn flush(&mut self) -> io::Result<()> {
        Ok(())
    }
}

/// Bytes for a writer that may not take them at once, 1,048,576 at most. It is shared by the sink
/// that takes them and the ports that send them.
#[derive(Drop)]
pub struct Outbox<W: Write> {
    out: RefCell<Outgoing<W>>,
}

impl<W: Write + Drop> Outbox<W> {
    /// No byte waits.
    pub fn new(alloc: Global, writer: W) -> Result<Outbox<W>, Memory> {
        let unsent = Unsent::new(alloc, ROOM)?;
        Ok(Outbox {
            out: RefCell::new(Outgoing::new(writer, unsent)),
        })
    }

    /// Takes bytes, and sends some where a line ends. `None` where no more fit, or a write failed.
    fn put(&self, bytes: &[u8]) -> Option<usize>
        requires { 0 < length bytes.now }
        ensures some { IfSome result (λ n. 1 ≤ n) }
        ensures bound { IfSome result (λ n. n ≤ length bytes.now) }
    {
        let mut out = self.out.try_borrow_mut().ok()?;
        out.ready = true;
        let put = out.write(bytes);
        if let Some(b'\n') = bytes.last() {
            out.flush();
        }
        match put {
            Put::Took(n) if !out.failed => Some(n),
            _ => None,
        }
    }

    /// Sends some of what waits, if the writer takes it. Whether more may be sent at once.
    pub(crate) fn send(&self) -> bool {
        let Ok(mut out) = self.out.try_borrow_mut() else {
            return false;
        };
        out.ready = true;
        out.flush();
        out.ready
    }

    /// Tells why a write to the writer failed, if one did, or that no more bytes fit.
    pub(crate) fn tell(&self, runtime: &impl Eprint) {
        if let Ok(out) = self.out.try_borrow()
            && (out.failed || out.unsent.is_full())
        {
            tell_output(runtime, &out.why);
        }
    }

    /// Sends what waits, for a second at most where the writer takes nothing. Whether all of it
    /// went and no write failed.
    pub fn finish(&self, clock: &impl Clock) -> bool {
        for _ in 0..LAST_TRIES {
            let ready = self.send();
            if let Ok(out) = self.out.try_borrow()
                && out.is_settled()
            {
                return !out.failed;
            }
            if !ready {
                thread::sleep(clock, Duration::from_millis(1));
            }
        }
        false
    }
}

/// A sink over an outbox. A write fails where no more bytes fit, or where one to the writer failed.
#[derive(Drop)]
pub struct OutboxSink<'a, W: Write> {
    outbox: &'a Outbox<W>,
    faults: u64,
}

impl<'a, W: Write + Drop> OutboxSink<'a, W> {
    /// A sink that has not failed.
    pub fn new(outbox: &'a Outbox<W>) -> OutboxSink<'a, W>
        ensures faults { ⟦<OutboxSink<'a, W> as Sink>⟧.faults result ≡ 0 }
        ensures held { ⟦<OutboxSink<'a, W> as Sink>⟧.held result ≡ None }
    {
        OutboxSink { outbox, faults: 0 }
    }
}

impl<'a, W: Write + Drop> Sink for OutboxSink<'a, W> {
    ghost faults = { λ sink. sink.faults };

    ghost held = { λ _. None };

    fn write(&mut self, bytes: &[u8]) -> Sunk {
        match self.outbox.put(bytes) {
            Some(n) => Sunk::Took(n),
            None => {
                raise(&mut self.faults);
                Sunk::Failed
            }
        }
    }
}
