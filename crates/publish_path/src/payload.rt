//! The payload of a transfer, in two parts, and what is lent of it.

ghost use Rattle.std.specs.Prelude.{◌≡◌, ◌==◌, ◌++◌, [], take, drop, length};
ghost use Rattle.publish_path.specs.Payloads.{joined};

use std::alloc::Global;
use std::marker::Model;
use wire_base::ByteText;

/// The payload of a transfer in two parts, one behind the other: the sections before the bytes of
/// the body, and these. Contracts see the list of its bytes. No call takes memory.
#[derive(Debug, Drop)]
pub struct Payload {
    front: ByteText,
    body: ByteText,
}

impl Model for Payload {
    ghost use Rattle.std.specs.Prelude.{ℕ, ◌++◌, List};

    ghost Value = { List ℕ };

    ghost view = { λ a. a.front ++ a.body };
}

/// Bytes in two pieces that are lent, one behind the other.
#[derive(Clone, Copy, Debug)]
pub struct Pieces<'a> {
    pub front: &'a [u8],
    pub back: &'a [u8],
}

/// The bytes from a place on.
#[tactic(auto, using(std::proofs::lemmas::List::take_rest, crate::proofs::Steps::drop_past))]
fn part_from(bytes: &[u8], at: usize) -> &[u8]
    ensures { result.now ≡ drop at bytes.now }
{
    if at < bytes.len() { &bytes[at..] } else { &[] }
}

/// The first bytes, at most so many.
#[tactic(auto, using(crate::proofs::Joined::take_past))]
fn part_to(bytes: &[u8], count: usize) -> &[u8]
    ensures { result.now ≡ take count bytes.now }
{
    if count < bytes.len() {
        &bytes[..count]
    } else {
        bytes
    }
}

impl Payload {
    /// No bytes.
    pub fn empty(alloc: Global) -> Payload
        ensures { result ≡ [] }
    {
        Payload {
            front: ByteText::empty(alloc),
            body: ByteText::empty(alloc),
        }
    }

    /// These bytes, which are moved and not copied.
    pub fn new(front: ByteText, body: ByteText) -> Payload
        ensures { result ≡ front ++ body }
    {
        Payload { front, body }
    }

    /// How many bytes there are.
    pub fn len(&self) -> usize
        ensures { result ≡ length self.now }
    {
        self.front.as_slice().len() + self.body.as_slice().len()
    }

    /// The bytes from a place on.
    #[tactic(auto, using(crate::proofs::Joined::drop_both))]
    pub fn from(&self, at: usize) -> Pieces<'_>
        ensures { joined result ≡ drop at self.now }
    {
        let front = self.front.as_slice();
        Pieces {
            front: part_from(front, at),
            back: part_from(self.body.as_slice(), at.saturating_sub(front.len())),
        }
    }
}

impl<'a> Pieces<'a> {
    /// No bytes.
    pub fn none() -> Pieces<'a>
        ensures { joined result ≡ [] }
    {
        Pieces {
            front: &[],
            back: &[],
        }
    }

    /// These bytes.
    pub fn one(bytes: &'a [u8]) -> Pieces<'a>
        ensures { joined result ≡ bytes.now }
    {
        Pieces {
            front: bytes,
            back: &[],
        }
    }

    /// How many bytes there are.
    pub fn len(&self) -> usize
        ensures { result ≡ length (joined self.now) }
    {
        self.front.len() + self.back.len()
    }

    /// There is no byte.
    pub fn is_empty(&self) -> bool
        ensures { result ≡ (length (joined self.now) == 0) }
    {
        self.front.is_empty() && self.back.is_empty()
    }

    /// The first bytes, at most so many.
    #[tactic(auto, using(crate::proofs::Joined::take_both))]
    pub fn first(self, count: usize) -> Pieces<'a>
        ensures { joined result ≡ take count (joined self.entry) }
    {
        let Pieces { front, back } = self;
        Pieces {
            front: part_to(front, count),
            back: part_to(back, count.saturating_sub(front.len())),
        }
    }
}
