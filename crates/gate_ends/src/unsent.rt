//! Bytes that wait to be sent.

ghost use Rattle.std.specs.Prelude.{◌≡◌, ◌-◌, ◌≤◌, ◌==◌, [], ◌++◌, IfOk};
ghost use Rattle.std.specs.Prelude.{min, take, drop, length, vec_len, vec_capacity};

use std::alloc::Global;
use wire_base::Memory;

/// Bytes that wait to be sent, oldest first, so many at most. Their memory is taken when this is
/// made.
#[derive(Drop)]
pub struct Unsent {
    pub bytes: Vec<u8>,
    pub room: usize,
    ghost within: { vec_len bytes ≤ room },
    ghost reserved: { room ≤ vec_capacity bytes },
}

impl Unsent {
    /// No byte waits.
    pub fn new(alloc: Global, room: usize) -> Result<Unsent, Memory>
        ensures bytes { IfOk result (λ unsent. unsent.bytes.items ≡ []) }
        ensures room { IfOk result (λ unsent. unsent.room ≡ room) }
    {
        let bytes = Vec::with_capacity(alloc, room)?;
        Ok(Unsent { bytes, room })
    }

    pub fn is_empty(&self) -> bool
        ensures { result ≡ (length self.now.bytes.items == 0) }
    {
        self.bytes.is_empty()
    }

    /// Whether no more bytes fit.
    pub fn is_full(&self) -> bool
        ensures { result ≡ (length self.now.bytes.items == self.now.room) }
    {
        self.bytes.len() == self.room
    }

    /// Takes as many of the bytes as fit, and says how many.
    pub fn take_in(&mut self, bytes: &[u8]) -> usize
        ensures count { result
            ≡ min (length bytes.now) (self.old.room - length self.old.bytes.items) }
        ensures items { self.new.bytes.items ≡ self.old.bytes.items ++ take result bytes.now }
        ensures room { self.new.room ≡ self.old.room }
    {
        let count = bytes.len().min(self.room - self.bytes.len());
        let (front, _) = bytes.split_at(count);
        match self.bytes.extend_from_slice(front) {
            Ok(()) => count,
            Err(_) => unreachable!(),
        }
    }

    /// The first of the bytes were sent.
    pub fn drop_front(&mut self, count: usize)
        requires { count ≤ length self.old.bytes.items }
        ensures items { self.new.bytes.items ≡ drop count self.old.bytes.items }
        ensures room { self.new.room ≡ self.old.room }
    {
        self.bytes.drain(..count);
    }

    /// The bytes are given up.
    pub fn clear(&mut self)
        ensures items { self.new.bytes.items ≡ [] }
        ensures room { self.new.room ≡ self.old.room }
    {
        self.bytes.clear();
    }
}
