//! A peer of the gateway, over a stream that doesn't wait.

use crate::frames::bytes_of;
use std::alloc::Global;
use std::io;
use std::io::{ErrorKind, Read, Write};
use std::net::OpenStream;
use wire_base::{ByteText, Memory};

/// How often the system is asked for what a peer waits for.
pub const TURNS: u32 = 10_000_000;

/// The bytes that one read takes at most.
const PIECE: usize = 4096;

/// A stream that doesn't wait, and the bytes that came on it and weren't met yet.
#[derive(Drop)]
pub struct Peer<S: Drop> {
    alloc: Global,
    stream: S,
    came: ByteText,
}

/// Whether the system has nothing to give or to take yet.
pub fn is_waiting(error: &io::Error) -> bool {
    matches!(error.kind(), ErrorKind::WouldBlock | ErrorKind::Interrupted)
}

fn no_memory(_memory: Memory) -> io::Error {
    ErrorKind::OutOfMemory.into()
}

impl<S: Read + Write + OpenStream + Drop> Peer<S> {
    /// A peer over a stream, which doesn't wait from now on.
    pub fn new(alloc: Global, stream: S) -> io::Result<Peer<S>> {
        stream.set_nonblocking(true)?;
        Ok(Peer {
            alloc,
            stream,
            came: ByteText::empty(alloc),
        })
    }

    /// Sends the bytes that digits tell; whether all of them went.
    pub fn send(&mut self, digits: &str) -> io::Result<bool> {
        let bytes = bytes_of(self.alloc, digits).map_err(no_memory)?;
        let mut rest = bytes.as_slice();
        for _ in 0..TURNS {
            if rest.is_empty() {
                return Ok(true);
            }
            match self.stream.write(rest) {
                Ok(count) => rest = &rest[count..],
                Err(error) if is_waiting(&error) => {}
                Err(error) => return Err(error),
            }
        }
        Ok(false)
    }

    /// Waits for the bytes that digits tell; whether they came, and no others before them.
    pub fn meet(&mut self, digits: &str) -> io::Result<bool> {
        let wanted = bytes_of(self.alloc, digits).map_err(no_memory)?;
        for _ in 0..TURNS {
            if self.came.as_slice().starts_with(wanted.as_slice()) {
                self.came.discard(wanted.as_slice().len());
                return Ok(true);
            }
            let is_other = !wanted.as_slice().starts_with(self.came.as_slice());
            if is_other || !self.read()? {
                return Ok(false);
            }
        }
        Ok(false)
    }

    /// Waits for the first bytes that come; whether any did.
    pub fn begins(&mut self) -> io::Result<bool> {
        for _ in 0..TURNS {
            if !self.came.as_slice().is_empty() {
                return Ok(true);
            }
            if !self.read()? {
                return Ok(false);
            }
        }
        Ok(false)
    }

    /// Takes what came; false where the stream has ended.
    fn read(&mut self) -> io::Result<bool> {
        let mut piece = [0; PIECE];
        match self.stream.read(&mut piece) {
            Ok(0) => Ok(false),
            Ok(count) => {
                self.came.append(&piece[..count]).map_err(no_memory)?;
                Ok(true)
            }
            Err(error) if is_waiting(&error) => Ok(true),
            Err(error) => Err(error),
        }
    }
}
