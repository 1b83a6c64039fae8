//! Fields, and the lists and tables of them (AMQP 0-9-1 4.2.5.5).

ghost use Rattle.std.specs.Prelude.{◌≡◌, ℕ, ◌+◌, List, [], ◌∷◌, ◌++◌, length, option_map};
ghost use Rattle.std.specs.Prelude.{slice_get, OnOk, OnErr};
ghost use Rattle.tables_091.specs.View.{entry_member, field_tree};
ghost use Rattle.tables_091.specs.Ranges.{IsRanged, AreRanged};

use std::alloc::Global;
use std::marker::Model;
use wire_base::{ByteText, Memory};

/// The value of a field. A float is the pattern of its bits.
#[derive(Debug, Drop)]
#[cycle(field)]
pub enum Field {
    /// `t`
    Bool(bool),
    /// `b`
    I8(i8),
    /// `B`
    U8(u8),
    /// `s`
    I16(i16),
    /// `u`
    U16(u16),
    /// `I`
    I32(i32),
    /// `i`
    U32(u32),
    /// `l`
    I64(i64),
    /// `f`: the bits of a float of four bytes
    F32(u32),
    /// `d`: the bits of a float of eight bytes
    F64(u64),
    /// `D`: the count of decimal places, and the number without its point
    Decimal(u8, u32),
    /// `S`: a text of any bytes
    Long(ByteText),
    /// `A`
    Array(FieldList),
    /// `T`: seconds since 1970-01-01 00:00 UTC
    Time(u64),
    /// `F`
    Table(Table),
    /// `V`
    Void,
    /// `x`: bytes that are no text
    Bytes(ByteText),
}

/// The fields of an array, in order. Contracts see it as the list of them.
#[derive(Debug, Drop)]
#[cycle(field)]
pub struct FieldList {
    pub(crate) items: Vec<Field>,
}

/// The entries of a table, in order: names and fields. Contracts see it as the list of them.
#[derive(Debug, Drop)]
#[cycle(field)]
pub struct Table {
    pub(crate) entries: Vec<(ByteText, Field)>,
}

impl Model for FieldList {
    ghost use Rattle.std.specs.Prelude.{List, map};
    ghost use Rattle.tables_091.specs.Tree.{Tree, list_depth};
    ghost use Rattle.tables_091.specs.TreeCode.{trees_code};

    ghost Value = { List Tree };

    ghost coded = { trees_code };

    ghost use Rattle.tables_091.specs.View.{field_tree};

    ghost view = { λ a. map field_tree a.items.items };

    // The list in a clause is one of numbers without bounds, so the invariant keeps those of the
    // types.
    ghost use Rattle.tables_091.specs.Ranges.{FieldsAreRanged};

    ghost invariant = { λ a. FieldsAreRanged (map field_tree a.items.items) };

    ghost size = { list_depth };

    ghost use Rattle.tables_091.specs.Falls.{list_falls};

    ghost size_decreases = { λ a h. list_falls a.items.items };
}

impl Model for Table {
    ghost use Rattle.std.specs.Prelude.{ℕ, List, map};
    ghost use Rattle.tables_091.specs.Tree.{Tree, entries_depth};
    ghost use Rattle.tables_091.specs.TreeCode.{members_code};

    ghost Value = { List (List ℕ × Tree) };

    ghost coded = { members_code };

    ghost use Rattle.tables_091.specs.View.{entry_member};

    ghost view = { λ a. map entry_member a.entries.items };

    // As for the fields of an array.
    ghost use Rattle.tables_091.specs.Ranges.{AreRanged};

    ghost invariant = { λ a. AreRanged (map entry_member a.entries.items) };

    ghost size = { entries_depth };

    ghost use Rattle.tables_091.specs.Falls.{entries_fall};

    ghost size_decreases = { λ a h. entries_fall a.entries.items };
}

/// Tells proofs that the numbers inside a field are of their types. The call does nothing.
fn tell_field_ranges(field: &Field)
    ensures { IsRanged (field_tree field.now) }
{
    match field {
        Field::I8(n) => {
            let _known = *n;
        }
        Field::U8(n) => {
            let _known = *n;
        }
        Field::I16(n) => {
            let _known = *n;
        }
        Field::U16(n) => {
            let _known = *n;
        }
        Field::I32(n) => {
            let _known = *n;
        }
        Field::U32(n) | Field::F32(n) => {
            let _known = *n;
        }
        Field::I64(n) => {
            let _known = *n;
        }
        Field::F64(n) | Field::Time(n) => {
            let _known = *n;
        }
        Field::Decimal(scale, n) => {
            let _known = (*scale, *n);
        }
        Field::Array(list) => {
            let _known = &list.items;
        }
        Field::Table(table) => {
            let _known = &table.entries;
        }
        Field::Bool(_) | Field::Long(_) | Field::Void | Field::Bytes(_) => {}
    }
}

impl FieldList {
    /// The empty list. It takes the allocator that later growth uses, and no memory.
    pub fn empty(alloc: Global) -> FieldList
        ensures { result ≡ [] }
    {
        FieldList {
            items: Vec::new(alloc),
        }
    }

    /// Adds a field at the end, or leaves the list as it was and drops the field.
    pub fn push(&mut self, field: Field) -> Result<(), Memory>
        ensures ok { OnOk result (self.new ≡ self.old ++ field_tree field ∷ []) }
        ensures err { OnErr result (self.new ≡ self.old) }
    {
        tell_field_ranges(&field);
        self.items.push(field)?;
        Ok(())
    }

    /// The count of the fields.
    pub fn len(&self) -> usize
        ensures { result ≡ length self.now }
    {
        self.items.len()
    }

    /// Field `k`, counted from 0; `None` exactly where there is none.
    pub fn get(&self, k: usize) -> Option<&Field>
        ensures { option_map (λ f. field_tree f.now) result ≡ slice_get self.now k }
    {
        self.items.get(k)
    }
}

impl Table {
    /// The empty table. It takes the allocator that later growth uses, and no memory.
    pub fn empty(alloc: Global) -> Table
        ensures { result ≡ [] }
    {
        Table {
            entries: Vec::new(alloc),
        }
    }

    /// Adds an entry at the end, or leaves the table as it was and drops the entry.
    /// A name may have any length here; only to write the table does it need at most 255 bytes.
    pub fn push(&mut self, entry: (ByteText, Field)) -> Result<(), Memory>
        ensures ok { OnOk result (self.new ≡ self.old ++ entry_member entry ∷ []) }
        ensures err { OnErr result (self.new ≡ self.old) }
    {
        tell_field_ranges(&entry.1);
        self.entries.push(entry)?;
        Ok(())
    }

    /// Tells proofs that the numbers inside a table are of their types. The call does nothing.
    pub fn tell_ranges(&self)
        ensures { AreRanged self.now }
    {
        let _known = &self.entries;
    }

    /// The count of the entries.
    pub fn len(&self) -> usize
        ensures { result ≡ length self.now }
    {
        self.entries.len()
    }

    /// The name and the field of entry `k`, counted from 0; `None` exactly where there is none.
    pub fn get(&self, k: usize) -> Option<&(ByteText, Field)>
        ensures { option_map (λ e. entry_member e.now) result ≡ slice_get self.now k }
    {
        self.entries.get(k)
    }
}
