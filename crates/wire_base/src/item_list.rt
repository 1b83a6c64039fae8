//! The list type of the public types: a `Vec` that contracts see as the list of its items.

ghost use Rattle.std.specs.Prelude.{◌≡◌, ℕ, ◌+◌, List, [], ◌∷◌, ◌++◌, length, OnOk, OnErr};
ghost use Rattle.std.specs.Prelude.{slice_get, option_copied};

use crate::memory::Memory;
use std::alloc::Global;
use std::fmt;
use std::marker::Model;

/// A list of items. Contracts see it as that list.
#[derive(Drop)]
pub struct ItemList<T> {
    items: Vec<T>,
}

impl<T> Model for ItemList<T> {
    ghost Value = { List T };

    ghost view = { λ a. a.items.items };
}

impl<T: Drop> ItemList<T> {
    /// The empty list. It takes the allocator that later growth uses, and no memory.
    pub fn empty(alloc: Global) -> ItemList<T>
        ensures { result ≡ [] }
    {
        ItemList {
            items: Vec::new(alloc),
        }
    }

    /// Adds an item at the end, or leaves the list as it was and drops the item.
    pub fn push(&mut self, item: T) -> Result<(), Memory>
        ensures ok { OnOk result (self.new ≡ self.old ++ item ∷ []) }
        ensures err { OnErr result (self.new ≡ self.old) }
    {
        match self.items.push(item) {
            Ok(()) => Ok(()),
            Err(_) => Err(Memory),
        }
    }

    /// The count of the items.
    pub fn len(&self) -> usize
        ensures { result ≡ length self.now }
    {
        self.items.len()
    }

    /// Item `k`, counted from 0; `None` exactly where there is none.
    pub fn get(&self, k: usize) -> Option<&T>
        ensures { option_copied result ≡ slice_get self.now k }
    {
        self.items.get(k)
    }
}

/// Prints the items as a list: `[1, 2]`.
impl<T: fmt::Debug> fmt::Debug for ItemList<T> {
    fn fmt<W: fmt::Write>(&self, f: &mut fmt::Formatter<W>) -> fmt::Result {
        let items = &self.items;
        write!(f, "{items:?}")
    }
}
