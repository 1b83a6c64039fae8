//! The fields of a list, collected one by one (AMQP 1.0 1.4). Null is an absent field.
//!
//! Each call adds one value at the end, or leaves the fields as they were and answers `Memory`, where
//! the allocator has no room for it or for a copy.

ghost use Rattle.std.specs.Prelude.{◌≡◌, ◌++◌, [], ◌∷◌, OnOk, OnErr};
ghost use Rattle.types_10.specs.Fields.{maybe, a_boolean, a_ubyte, a_ushort, a_uint, a_ulong};
ghost use Rattle.types_10.specs.Fields.{a_timestamp, a_binary, a_string, a_symbol, a_value};
ghost use Rattle.types_10.specs.Fields.{absent, nulls, trim};
ghost use Rattle.types_10.specs.View.{value_tree};

use crate::spelled::Spelling10;
use crate::value::{Value10, ValueList, is_null};
use std::alloc::Global;
use std::marker::Model;
use wire_base::{ByteText, Memory};

/// The fields so far. Contracts see them as the list of them.
#[derive(Drop)]
pub struct Fields {
    list: ValueList,
    /// The nulls behind the list, which are counted alone: those that stay at the end take no memory.
    behind: usize,
}

impl Model for Fields {
    ghost use Rattle.std.specs.Prelude.{◌++◌, List};
    ghost use Rattle.types_10.specs.Tree.{Tree};
    ghost use Rattle.types_10.specs.TreeCode.{trees_code};

    ghost Value = { List Tree };

    ghost coded = { trees_code };

    ghost use Rattle.types_10.specs.Fields.{nulls};

    ghost view = { λ a. a.list ++ nulls a.behind };
}

/// Adds the nulls that are left to a list. Where there is no room, some of them may still be left.
#[tactic(auto, using(crate::proofs::Trimmed::nulls_next))]
fn spell_nulls(list: &mut ValueList, left: &mut usize) -> Result<(), Memory>
    ensures same { list.new ++ nulls left.new ≡ list.old ++ nulls left.old }
    ensures none { OnOk result (left.new ≡ 0) }
{
    while *left > 0 {
        list.push(Value10::Null)?;
        *left -= 1;
    }
    Ok(())
}

impl Fields {
    /// No fields. It takes the allocator that later growth uses, and no memory.
    pub fn empty(alloc: Global) -> Fields
        ensures { result ≡ [] }
    {
        Fields {
            list: ValueList::empty(alloc),
            behind: 0,
        }
    }

    /// The list of the fields, without the nulls at its end.
    #[tactic(auto, using(crate::proofs::Trimmed::trim_nulls))]
    pub fn into_list(self) -> ValueList
        ensures { result ≡ trim self }
    {
        let Fields { list, behind: _ } = self;
        let mut list = list;
        list.trim();
        list
    }

    /// Adds a null.
    #[tactic(auto, using(crate::proofs::Trimmed::nulls_pushed))]
    fn push_null(&mut self) -> Result<(), Memory>
        ensures ok { OnOk result (self.new ≡ self.old ++ absent ∷ []) }
        ensures err { OnErr result (self.new ≡ self.old) }
    {
        // No list has more nulls than a number of this type can count.
        match self.behind.checked_add(1) {
            Some(behind) => {
                self.behind = behind;
                Ok(())
            }
            None => Err(Memory),
        }
    }

    /// Adds a value, which is dropped where there is no room.
    pub fn push(&mut self, value: Value10) -> Result<(), Memory>
        ensures ok { OnOk result (self.new ≡ self.old ++ value_tree value ∷ []) }
        ensures err { OnErr result (self.new ≡ self.old) }
    {
        if is_null(&value) {
            return self.push_null();
        }
        spell_nulls(&mut self.list, &mut self.behind)?;
        self.list.push(value)
    }

    /// Adds a boolean, or null.
    pub fn push_maybe_boolean(&mut self, n: Option<bool>) -> Result<(), Memory>
        ensures ok { OnOk result (self.new ≡ self.old ++ maybe a_boolean n ∷ []) }
        ensures err { OnErr result (self.new ≡ self.old) }
    {
        match n {
            Some(n) => self.push(Value10::Boolean(n)),
            None => self.push_null(),
        }
    }

    /// Adds a ubyte, or null.
    pub fn push_maybe_ubyte(&mut self, n: Option<u8>) -> Result<(), Memory>
        ensures ok { OnOk result (self.new ≡ self.old ++ maybe a_ubyte n ∷ []) }
        ensures err { OnErr result (self.new ≡ self.old) }
    {
        match n {
            Some(n) => self.push(Value10::Ubyte(n)),
            None => self.push_null(),
        }
    }

    /// Adds a ushort, or null.
    pub fn push_maybe_ushort(&mut self, n: Option<u16>) -> Result<(), Memory>
        ensures ok { OnOk result (self.new ≡ self.old ++ maybe a_ushort n ∷ []) }
        ensures err { OnErr result (self.new ≡ self.old) }
    {
        match n {
            Some(n) => self.push(Value10::Ushort(n)),
            None => self.push_null(),
        }
    }

    /// Adds a uint, or null.
    pub fn push_maybe_uint(&mut self, n: Option<u32>) -> Result<(), Memory>
        ensures ok { OnOk result (self.new ≡ self.old ++ maybe a_uint n ∷ []) }
        ensures err { OnErr result (self.new ≡ self.old) }
    {
        match n {
            Some(n) => self.push(Value10::Uint(n)),
            None => self.push_null(),
        }
    }

    /// Adds a ulong, or null.
    pub fn push_maybe_ulong(&mut self, n: Option<u64>) -> Result<(), Memory>
        ensures ok { OnOk result (self.new ≡ self.old ++ maybe a_ulong n ∷ []) }
        ensures err { OnErr result (self.new ≡ self.old) }
    {
        match n {
            Some(n) => self.push(Value10::Ulong(n)),
            None => self.push_null(),
        }
    }

    /// Adds a timestamp, or null.
    pub fn push_maybe_timestamp(&mut self, n: Option<i64>) -> Result<(), Memory>
        ensures ok { OnOk result (self.new ≡ self.old ++ maybe a_timestamp n ∷ []) }
        ensures err { OnErr result (self.new ≡ self.old) }
    {
        match n {
            Some(n) => self.push(Value10::Timestamp(n)),
            None => self.push_null(),
        }
    }

    /// Adds a binary with these bytes.
    pub fn push_binary(&mut self, alloc: Global, text: &ByteText) -> Result<(), Memory>
        ensures ok { OnOk result (self.new ≡ self.old ++ a_binary text.now ∷ []) }
        ensures err { OnErr result (self.new ≡ self.old) }
    {
        self.push(Value10::Binary(text.copy(alloc)?))
    }

    /// Adds such a binary, or null.
    pub fn push_maybe_binary(
        &mut self,
        alloc: Global,
        text: &Option<ByteText>,
    ) -> Result<(), Memory>
        ensures ok { OnOk result (self.new ≡ self.old ++ maybe a_binary text.now ∷ []) }
        ensures err { OnErr result (self.new ≡ self.old) }
    {
        match text {
            Some(text) => self.push_binary(alloc, text),
            None => self.push_null(),
        }
    }

    /// Adds a string with these bytes.
    pub fn push_string(&mut self, alloc: Global, text: &ByteText) -> Result<(), Memory>
        ensures ok { OnOk result (self.new ≡ self.old ++ a_string text.now ∷ []) }
        ensures err { OnErr result (self.new ≡ self.old) }
    {
        self.push(Value10::String(text.copy(alloc)?))
    }

    /// Adds such a string, or null.
    pub fn push_maybe_string(
        &mut self,
        alloc: Global,
        text: &Option<ByteText>,
    ) -> Result<(), Memory>
        ensures ok { OnOk result (self.new ≡ self.old ++ maybe a_string text.now ∷ []) }
        ensures err { OnErr result (self.new ≡ self.old) }
    {
        match text {
            Some(text) => self.push_string(alloc, text),
            None => self.push_null(),
        }
    }

    /// Adds a symbol with these bytes.
    pub fn push_symbol(&mut self, alloc: Global, text: &ByteText) -> Result<(), Memory>
        ensures ok { OnOk result (self.new ≡ self.old ++ a_symbol text.now ∷ []) }
        ensures err { OnErr result (self.new ≡ self.old) }
    {
        self.push(Value10::Symbol(text.copy(alloc)?))
    }

    /// Adds such a symbol, or null.
    pub fn push_maybe_symbol(
        &mut self,
        alloc: Global,
        text: &Option<ByteText>,
    ) -> Result<(), Memory>
        ensures ok { OnOk result (self.new ≡ self.old ++ maybe a_symbol text.now ∷ []) }
        ensures err { OnErr result (self.new ≡ self.old) }
    {
        match text {
            Some(text) => self.push_symbol(alloc, text),
            None => self.push_null(),
        }
    }

    /// Adds a copy of a value.
    pub fn push_value(&mut self, alloc: Global, value: &Value10) -> Result<(), Memory>
        ensures ok { OnOk result (self.new ≡ self.old ++ value_tree value.now ∷ []) }
        ensures err { OnErr result (self.new ≡ self.old) }
    {
        self.push(value.copy(alloc)?)
    }

    /// Adds a copy of a value, or null.
    pub fn push_maybe_value(&mut self, alloc: Global, value: &Option<Value10>) -> Result<(), Memory>
        ensures ok { OnOk result (self.new ≡ self.old ++ maybe value_tree value.now ∷ []) }
        ensures err { OnErr result (self.new ≡ self.old) }
    {
        match value {
            Some(value) => self.push_value(alloc, value),
            None => self.push_null(),
        }
    }

    /// Adds the value that these bytes spell.
    pub fn push_kept(&mut self, alloc: Global, kept: &Spelling10) -> Result<(), Memory>
        ensures ok { OnOk result (self.new ≡ self.old ++ a_value kept.now ∷ []) }
        ensures err { OnErr result (self.new ≡ self.old) }
    {
        self.push(kept.spelled().read(alloc)?)
    }

    /// Adds the value that these bytes spell, or null.
    pub fn push_maybe_kept(
        &mut self,
        alloc: Global,
        kept: &Option<Spelling10>,
    ) -> Result<(), Memory>
        ensures ok { OnOk result (self.new ≡ self.old ++ maybe a_value kept.now ∷ []) }
        ensures err { OnErr result (self.new ≡ self.old) }
    {
        match kept {
            Some(kept) => self.push_kept(alloc, kept),
            None => self.push_null(),
        }
    }
}
