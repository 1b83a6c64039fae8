//! Ends that were shut while bytes still waited to be sent there.

ghost use Rattle.std.specs.Prelude.{◌≡◌, ◌||◌, ◌==◌, length, nat_le};

use crate::link::Link;
use gate_outside::End;
use std::io::{Read, Write};

/// How long what waits at an end may still take once it was shut, in milliseconds.
const PARTING: u64 = 1_000;

/// An end that was shut, whose bytes still go out.
#[derive(Drop)]
pub struct Parting<S: Read + Write> {
    pair: u32,
    end: End,
    pub link: Link<S>,
    pub until: u64,
}

impl<S: Read + Write> Parting<S> {
    /// An end that is shut at this moment.
    pub fn new(pair: u32, end: End, link: Link<S>, moment: u64) -> Parting<S> {
        Parting {
            pair,
            end,
            link,
            until: moment.saturating_add(PARTING),
        }
    }

    /// Whether nothing more goes out, or the time is over.
    pub fn is_over(&self, moment: u64) -> bool
        ensures { result ≡ self.now.link.out.failed
            || length self.now.link.out.unsent.bytes.items == 0 || nat_le self.now.until moment }
    {
        self.link.out.is_settled() || self.until <= moment
    }

    /// The system said that an end may be written.
    pub fn note(&mut self, pair: u32, end: End, writable: bool) {
        if self.pair == pair && self.end == end {
            self.link.note(false, writable);
        }
    }
}
