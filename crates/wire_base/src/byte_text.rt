//! Byte strings that own their bytes.

ghost use Rattle.std.specs.Prelude.{◌≡◌, ℕ, ◌+◌, ◌≤◌, List, [], ◌++◌, length, take, drop, IfOk};
ghost use Rattle.std.specs.Prelude.{OnOk, OnErr};
ghost use Rattle.std.specs.Int.{w32, to_be_bytes};

use crate::memory::Memory;
use std::alloc::Global;
use std::fmt;
use std::marker::Model;

/// A byte string. Contracts see it as the list of its bytes.
#[derive(Drop)]
pub struct ByteText {
    bytes: Vec<u8>,
}

impl Model for ByteText {
    ghost Value = { List ℕ };

    ghost view = { λ a. a.bytes.items };
}

impl ByteText {
    /// The empty byte string. It takes the allocator that later growth uses, and no memory.
    pub fn empty(alloc: Global) -> ByteText
        ensures { result ≡ [] }
    {
        ByteText {
            bytes: Vec::new(alloc),
        }
    }

    /// A byte string with these bytes.
    pub fn copy_of(alloc: Global, bytes: &[u8]) -> Result<ByteText, Memory>
        ensures { IfOk result (λ text. text ≡ bytes.now) }
    {
        let bytes = Vec::from_slice(alloc, bytes)?;
        Ok(ByteText { bytes })
    }

    /// The bytes, in order.
    pub fn as_slice(&self) -> &[u8]
        ensures { result.now ≡ self.now }
    {
        self.bytes.as_slice()
    }

    /// Adds bytes at the end, or leaves the string as it was.
    pub fn append(&mut self, bytes: &[u8]) -> Result<(), Memory>
        ensures ok { OnOk result (self.new ≡ self.old ++ bytes.now) }
        ensures err { OnErr result (self.new ≡ self.old) }
    {
        self.bytes.extend_from_slice(bytes)?;
        Ok(())
    }

    /// Drops the first `n` bytes; the room that they took stays.
    pub fn discard(&mut self, n: usize)
        requires { n ≤ length self.old }
        ensures { self.new ≡ drop n self.old }
    {
        let left = self.bytes.len() - n;
        self.bytes.rotate_left(n);
        self.bytes.truncate(left);
    }

    /// Keeps the first `n` bytes, or all where there are fewer; the room stays.
    pub fn truncate(&mut self, n: usize)
        ensures { self.new ≡ take n self.old }
    {
        self.bytes.truncate(n);
    }

    /// Writes a number of four bytes, most significant byte first, over the four bytes from `at`
    /// on.
    pub fn set_u32(&mut self, at: usize, n: u32)
        requires { at + 4 ≤ length self.old }
        ensures { self.new ≡ take at self.old ++ to_be_bytes w32 n ++ drop (at + 4) self.old }
    {
        self.bytes[at..at + 4].copy_from_slice(&n.to_be_bytes());
    }

    /// A byte string of its own with the same bytes.
    pub fn copy(&self, alloc: Global) -> Result<ByteText, Memory>
        ensures { IfOk result (λ text. text ≡ self.now) }
    {
        ByteText::copy_of(alloc, self.as_slice())
    }
}

/// Prints the bytes as a text in quotes: `"queue\x00"`. What isn't printable ASCII stands as in
/// Rust's byte strings.
impl fmt::Debug for ByteText {
    fn fmt<W: fmt::Write>(&self, f: &mut fmt::Formatter<W>) -> fmt::Result {
        let bytes = self.bytes.escape_ascii();
        write!(f, "\"{bytes}\"")
    }
}
