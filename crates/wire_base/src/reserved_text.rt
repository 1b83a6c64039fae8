//! Byte strings whose memory was taken when they were made, for calls that may take none.

ghost use Rattle.std.specs.Prelude.{◌≡◌, ℕ, ◌+◌, ◌≤◌, List, [], ◌++◌, length, drop, IfOk};

use crate::memory::Memory;
use std::alloc::Global;
use std::marker::Model;

/// A byte string with reserved room. Only `with_room` takes memory.
/// Contracts see its bytes, and how many it may hold.
#[derive(Drop)]
pub struct ReservedText {
    bytes: Vec<u8>,
    room: usize,
}

impl Model for ReservedText {
    ghost use Rattle.wire_base.specs.Reserved.{Reserved};
    ghost use Rattle.std.specs.Prelude.{◌≤◌, vec_len, vec_capacity};

    ghost Value = { Reserved };

    ghost view = { λ a. record { text = a.bytes.items; room = a.room } };

    ghost invariant = { λ a. (vec_len a.bytes ≤ a.room) × (a.room ≤ vec_capacity a.bytes) };
}

impl ReservedText {
    /// The empty byte string, with room for so many bytes.
    ///
    /// # Errors
    ///
    /// `Memory` if the allocator hasn't so much room.
    pub fn with_room(alloc: Global, room: usize) -> Result<ReservedText, Memory>
        ensures text { IfOk result (λ made. made.text ≡ []) }
        ensures room { IfOk result (λ made. made.room ≡ room) }
    {
        let bytes = Vec::with_capacity(alloc, room)?;
        Ok(ReservedText { bytes, room })
    }

    /// The bytes, in order.
    pub fn as_slice(&self) -> &[u8]
        ensures bytes { result.now ≡ self.now.text }
        ensures within { length self.now.text ≤ self.now.room }
    {
        self.bytes.as_slice()
    }

    /// How many bytes may still be added.
    pub fn left(&self) -> usize
        ensures { length self.now.text + result ≡ self.now.room }
    {
        self.room - self.bytes.len()
    }

    /// Adds bytes at the end, in the room that was reserved for them.
    pub fn append_within(&mut self, bytes: &[u8])
        requires { length self.old.text + length bytes.now ≤ self.old.room }
        ensures text { self.new.text ≡ self.old.text ++ bytes.now }
        ensures room { self.new.room ≡ self.old.room }
    {
        self.bytes.extend_from_slice(bytes).unwrap();
    }

    /// Drops the first `n` bytes.
    pub fn discard(&mut self, n: usize)
        requires { n ≤ length self.old.text }
        ensures text { self.new.text ≡ drop n self.old.text }
        ensures room { self.new.room ≡ self.old.room }
    {
        let left = self.bytes.len() - n;
        self.bytes.rotate_left(n);
        self.bytes.truncate(left);
    }
}
