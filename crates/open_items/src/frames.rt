//! Frames that were spelled ahead, and go one after the other.

ghost use Rattle.std.specs.Prelude.{◌≡◌, List, [], ◌∷◌, ◌++◌, drop, length, not, OnOk, OnErr};
ghost use Rattle.std.specs.Prelude.{option_copied};
ghost use Rattle.open_items.specs.Numbers.{first, has_any};

use std::alloc::Global;
use std::marker::Model;
use wire_base::{ByteText, Memory};

/// Frames that are still to go, in order. Contracts see the list of their bytes. No call takes
/// memory but `push`.
#[derive(Debug, Drop)]
pub struct Frames {
    frames: Vec<ByteText>,
    /// So many of them went.
    gone: usize,
}

impl Model for Frames {
    ghost use Rattle.std.specs.Prelude.{ℕ, List, drop, length, ◌≤◌};

    ghost Value = { List (List ℕ) };

    ghost view = { λ a. drop a.gone a.frames.items };

    ghost invariant = { λ a. a.gone ≤ length a.frames.items };
}

impl Frames {
    /// No frames. It takes the allocator that later growth uses, and no memory.
    pub fn empty(alloc: Global) -> Frames
        ensures { result ≡ [] }
    {
        Frames {
            frames: Vec::new(alloc),
            gone: 0,
        }
    }

    /// Adds a frame at the end, or leaves the frames as they were.
    pub fn push(&mut self, frame: ByteText) -> Result<(), Memory>
        ensures ok { OnOk result (self.new ≡ self.old ++ frame ∷ []) }
        ensures err { OnErr result (self.new ≡ self.old) }
    {
        self.frames.push(frame)?;
        Ok(())
    }

    /// The frame that goes next; `None` if none is left.
    pub fn first(&self) -> Option<&ByteText>
        ensures { option_copied result ≡ first self.now }
    {
        self.frames.get(self.gone)
    }

    /// The first frame went. The memory of all is freed once none is left.
    pub fn drop_first(&mut self)
        ensures { self.new ≡ drop 1 self.old }
    {
        if self.gone + 1 < self.frames.len() {
            self.gone += 1;
        } else {
            self.frames = Vec::new(*self.frames.allocator());
            self.gone = 0;
        }
    }

    /// No frame is left.
    pub fn is_empty(&self) -> bool
        ensures { result ≡ not (has_any self.now) }
    {
        self.gone == self.frames.len()
    }

    /// How many frames are left.
    pub fn len(&self) -> usize
        ensures { result ≡ length self.now }
    {
        self.frames.len() - self.gone
    }
}
