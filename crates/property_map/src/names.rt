//! Sets of names.

ghost use Rattle.std.specs.Prelude.{◌≡◌, ℕ, not, List, [], ◌∷◌, ◌++◌, IfOk, OnOk};
ghost use Rattle.wire_base.specs.Reading.{Gives};

use crate::fault::MapFault;
use std::alloc::Global;
use std::collections::BTreeSet;
use wire_base::{ByteText, Memory, Stop};

/// Names, each once.
#[derive(Drop)]
pub(crate) struct Names {
    pub(crate) set: BTreeSet<Vec<u8>>,
}

impl Names {
    ghost use Rattle.property_map.specs.Names.{has, Holds, Adds};
    ghost use Rattle.property_map.specs.Texts.{new_in};

    pub(crate) fn empty(alloc: Global) -> Names
        ensures { Holds result [] }
    {
        Names {
            set: BTreeSet::new(alloc),
        }
    }

    /// Adds a name; whether it wasn't there before.
    fn add(&mut self, alloc: Global, name: &[u8]) -> Result<bool, Memory>
        ensures new { IfOk result (λ new. new ≡ not (has self.old name.now)) }
        ensures more { OnOk result (Adds self.old name.now self.new) }
    {
        let key = Vec::from_slice(alloc, name)?;
        Ok(self.set.insert(key)?)
    }

    /// Adds a name that is to be new.
    pub(crate) fn add_new(
        &mut self,
        alloc: Global,
        name: ByteText,
    ) -> Result<ByteText, Stop<MapFault>>
        ensures gives { (before : List (List ℕ)) → Holds self.old before
            → Gives (λ s. s) result (new_in before name) }
        ensures more { (before : List (List ℕ)) → Holds self.old before
            → OnOk result (Holds self.new (before ++ name ∷ [])) }
        ensures same { IfOk result (λ s. s ≡ name) }
    {
        if !self.add(alloc, name.as_slice())? {
            return Err(Stop::Fault(MapFault::Repeated(name)));
        }
        Ok(name)
    }
}
