//! A stream of the tests' own.

ghost use Rattle.std.specs.Prelude.{◌≤◌, IfOk};

use std::io;
use std::io::{ErrorKind, Read, Write};

/// What a stream answers once it isn't interrupted any more.
#[derive(Clone, Copy)]
pub enum Then {
    /// So many bytes are given or taken, if there is room; each that is given is a 7.
    Moves(usize),
    Waits,
    Fails,
}

/// A reader and writer that is interrupted so often first.
#[derive(Drop)]
pub struct Late {
    pub interruptions: u32,
    pub then: Then,
}

/// What numbers say: 0 that the stream moves so many bytes, 1 that it waits, 2 that it fails.
pub fn then_of(kind: u64, count: u64) -> Then {
    match kind {
        0 => Then::Moves(count as usize),
        1 => Then::Waits,
        _ => Then::Fails,
    }
}

impl Late {
    fn answer(&mut self, room: usize) -> io::Result<usize>
        ensures { IfOk result (λ n. n ≤ room) }
    {
        if self.interruptions > 0 {
            self.interruptions -= 1;
            return Err(ErrorKind::Interrupted.into());
        }
        match self.then {
            Then::Moves(count) => Ok(count.min(room)),
            Then::Waits => Err(ErrorKind::WouldBlock.into()),
            Then::Fails => Err(ErrorKind::ConnectionReset.into()),
        }
    }
}

impl Read for Late {
    fn read(&mut self, buf: &mut [u8]) -> io::Result<usize> {
        let count = self.answer(buf.len())?;
        buf[..count].fill(7);
        Ok(count)
    }
}

impl Write for Late {
    fn write(&mut self, buf: &[u8]) -> io::Result<usize> {
        self.answer(buf.len())
    }

    fn flush(&mut self) -> io::Result<()> {
        Ok(())
    }
}
