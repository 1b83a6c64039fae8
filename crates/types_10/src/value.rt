//! Values, and the lists and maps of them (AMQP 1.0 1.6).

ghost use Rattle.std.specs.Prelude.{◌≡◌, ℕ, ◌+◌, List, [], ◌∷◌, ◌++◌, length, option_map};
ghost use Rattle.std.specs.Prelude.{map, slice_get, IfOk, OnOk, OnErr};
ghost use Rattle.types_10.specs.Fields.{is_absent, ends_absent, trim};
ghost use Rattle.types_10.specs.Ranges.{IsRanged};
ghost use Rattle.types_10.specs.View.{value_tree, pair_trees};

use std::alloc::Global;
use std::marker::Model;
use wire_base::{ByteText, Memory};

/// A value of each type of AMQP 1.0 1.6. A float, a double or a decimal is the pattern of its bits,
/// most significant first.
///
/// The type holds more than `put_value` takes: what a variant says of its texts, its char or its
/// elements is so of each value that `read_value` answers, and is for the caller to see to in
/// others.
#[derive(Debug, Drop)]
#[cycle(value)]
pub enum Value10 {
    Null,
    Boolean(bool),
    Ubyte(u8),
    Byte(i8),
    Ushort(u16),
    Short(i16),
    Uint(u32),
    Int(i32),
    Ulong(u64),
    Long(i64),
    Float(u32),
    Double(u64),
    Decimal32(u32),
    Decimal64(u64),
    Decimal128([u8; 16]),
    /// The number of a Unicode character: at most 10FFFF, and no surrogate (D800 to DFFF)
    Char(u32),
    /// Milliseconds since 1970-01-01 00:00 UTC
    Timestamp(i64),
    Uuid([u8; 16]),
    Binary(ByteText),
    /// A text in UTF-8
    String(ByteText),
    /// A text in ASCII
    Symbol(ByteText),
    List(ValueList),
    Map(PairList),
    /// Values of one type, described ones by equal descriptors
    Array(ValueList),
    /// A descriptor, and the value that it describes
    Described(Inner, Inner),
}

/// The values of a list or an array (AMQP 1.0 1.6.22, 1.6.24), in order. Contracts see it as the
/// list of them.
#[derive(Debug, Drop)]
#[cycle(value)]
pub struct ValueList {
    pub(crate) items: Vec<Value10>,
}

/// The pairs of a map (AMQP 1.0 1.6.23), in order: keys and values. Keys aren't compared, so two
/// may be equal. Contracts see it as the list of them.
#[derive(Debug, Drop)]
#[cycle(value)]
pub struct PairList {
    pub(crate) pairs: Vec<(Value10, Value10)>,
}

/// A value inside a described one: the descriptor, or what it describes (AMQP 1.0 1.1.2). Contracts
/// see it as that value.
#[derive(Debug, Drop)]
#[cycle(value)]
pub struct Inner {
    pub(crate) value: Box<Value10>,
}

impl Model for ValueList {
    ghost use Rattle.std.specs.Prelude.{List, map};
    ghost use Rattle.types_10.specs.Tree.{Tree, list_depth};
    ghost use Rattle.types_10.specs.TreeCode.{trees_code};

    ghost Value = { List Tree };

    ghost coded = { trees_code };

    ghost use Rattle.types_10.specs.View.{pair_trees, value_tree};

    ghost view = { λ a. map value_tree a.items.items };

    // The list in a clause is one of numbers without bounds, so the invariant keeps those of the
    // types.
    ghost use Rattle.types_10.specs.Ranges.{ListIsRanged};

    ghost invariant = { λ a. ListIsRanged (map value_tree a.items.items) };

    ghost size = { list_depth };

    ghost use Rattle.types_10.specs.Falls.{list_falls};

    ghost size_decreases = { λ a h. list_falls a.items.items };
}

impl Model for PairList {
    ghost use Rattle.std.specs.Prelude.{List, map};
    ghost use Rattle.types_10.specs.Tree.{Tree, pairs_depth_of};
    ghost use Rattle.types_10.specs.TreeCode.{pairs_code};

    ghost Value = { List (Tree × Tree) };

    ghost coded = { pairs_code };

    ghost use Rattle.types_10.specs.View.{pair_trees};

    ghost view = { λ a. map pair_trees a.pairs.items };

    // As for the values of a list.
    ghost use Rattle.types_10.specs.Ranges.{PairsAreRanged};

    ghost invariant = { λ a. PairsAreRanged (map pair_trees a.pairs.items) };

    ghost size = { pairs_depth_of };

    ghost use Rattle.types_10.specs.Falls.{pairs_fall};

    ghost size_decreases = { λ a h. pairs_fall a.pairs.items };
}

impl Model for Inner {
    ghost use Rattle.types_10.specs.Tree.{Tree, depth};
    ghost use Rattle.types_10.specs.TreeCode.{tree_code};

    ghost Value = { Tree };

    ghost coded = { tree_code };

    ghost use Rattle.types_10.specs.View.{value_tree};

    ghost view = { λ a. value_tree a.value.value };

    // As for the values of a list.
    ghost use Rattle.types_10.specs.Ranges.{IsRanged};

    ghost invariant = { λ a. IsRanged (value_tree a.value.value) };

    ghost size = { depth };

    ghost use Rattle.types_10.specs.Falls.{inner_falls};

    ghost size_decreases = { λ a h. inner_falls a.value.value };
}

/// Tells proofs that sixteen bytes are sixteen. The call does nothing.
fn tell_length(bytes: &[u8; 16])
    ensures { length bytes.now ≡ 16 }
{
    let _known = *bytes;
}

/// Tells proofs that the numbers inside a value are of their types. The call does nothing.
pub fn tell_ranges(value: &Value10)
    ensures { IsRanged (value_tree value.now) }
{
    match value {
        Value10::Ubyte(n) => {
            let _known = *n;
        }
        Value10::Byte(n) => {
            let _known = *n;
        }
        Value10::Ushort(n) => {
            let _known = *n;
        }
        Value10::Short(n) => {
            let _known = *n;
        }
        Value10::Uint(n) | Value10::Float(n) | Value10::Decimal32(n) | Value10::Char(n) => {
            let _known = *n;
        }
        Value10::Int(n) => {
            let _known = *n;
        }
        Value10::Ulong(n) | Value10::Double(n) | Value10::Decimal64(n) => {
            let _known = *n;
        }
        Value10::Long(n) | Value10::Timestamp(n) => {
            let _known = *n;
        }
        Value10::Decimal128(bytes) | Value10::Uuid(bytes) => tell_length(bytes),
        Value10::List(list) | Value10::Array(list) => {
            let _known = &list.items;
        }
        Value10::Map(list) => {
            let _known = &list.pairs;
        }
        Value10::Described(descriptor, value) => {
            let _known = &descriptor.value;
            let _known = &value.value;
        }
        Value10::Null
        | Value10::Boolean(_)
        | Value10::Binary(_)
        | Value10::String(_)
        | Value10::Symbol(_) => {}
    }
}

/// A value is null.
pub(crate) fn is_null(value: &Value10) -> bool
    ensures { result ≡ is_absent (value_tree value.now) }
{
    matches!(value, Value10::Null)
}

/// The last of these values is null.
fn ends_with_null(values: &[Value10]) -> bool
    ensures { result ≡ ends_absent (map value_tree values.now) }
{
    match values.split_last() {
        Some((last, _)) => is_null(last),
        None => false,
    }
}

impl ValueList {
    /// The empty list. It takes the allocator that later growth uses, and no memory.
    pub fn empty(alloc: Global) -> ValueList
        ensures { result ≡ [] }
    {
        ValueList {
            items: Vec::new(alloc),
        }
    }

    /// Adds a value at the end, or leaves the list as it was and drops the value.
    ///
    /// # Errors
    ///
    /// `Memory` where the allocator has no room.
    pub fn push(&mut self, value: Value10) -> Result<(), Memory>
        ensures ok { OnOk result (self.new ≡ self.old ++ value_tree value ∷ []) }
        ensures err { OnErr result (self.new ≡ self.old) }
    {
        tell_ranges(&value);
        self.items.push(value)?;
        Ok(())
    }

    /// Drops the nulls at the end.
    pub(crate) fn trim(&mut self)
        ensures { self.new ≡ trim self.old }
    {
        while ends_with_null(self.items.as_slice()) {
            drop(self.items.pop());
        }
    }

    /// The count of the values.
    pub fn len(&self) -> usize
        ensures { result ≡ length self.now }
    {
        self.items.len()
    }

    /// Value `k`, counted from 0; `None` exactly where there is none.
    pub fn get(&self, k: usize) -> Option<&Value10>
        ensures { option_map (λ v. value_tree v.now) result ≡ slice_get self.now k }
    {
        self.items.get(k)
    }
}

impl PairList {
    /// The empty list of pairs. It takes the allocator that later growth uses, and no memory.
    pub fn empty(alloc: Global) -> PairList
        ensures { result ≡ [] }
    {
        PairList {
            pairs: Vec::new(alloc),
        }
    }

    /// Adds a pair, a key and its value, at the end, or leaves the list as it was and drops the
    /// pair.
    ///
    /// # Errors
    ///
    /// `Memory` where the allocator has no room.
    pub fn push(&mut self, pair: (Value10, Value10)) -> Result<(), Memory>
        ensures ok { OnOk result (self.new ≡ self.old ++ pair_trees pair ∷ []) }
        ensures err { OnErr result (self.new ≡ self.old) }
    {
        tell_ranges(&pair.0);
        tell_ranges(&pair.1);
        self.pairs.push(pair)?;
        Ok(())
    }

    /// The count of the pairs: half of what is written as the map's count, which is of keys and
    /// values together.
    pub fn len(&self) -> usize
        ensures { result ≡ length self.now }
    {
        self.pairs.len()
    }

    /// The key and the value of pair `k`, counted from 0; `None` exactly where there is none.
    pub fn get(&self, k: usize) -> Option<&(Value10, Value10)>
        ensures { option_map (λ p. pair_trees p.now) result ≡ slice_get self.now k }
    {
        self.pairs.get(k)
    }
}

impl Inner {
    /// The value, as a part of a described one.
    ///
    /// # Errors
    ///
    /// `Memory` where the allocator has no room. The value is dropped then.
    pub fn new(alloc: Global, value: Value10) -> Result<Inner, Memory>
        ensures { IfOk result (λ inner. inner ≡ value_tree value) }
    {
        tell_ranges(&value);
        let value = Box::new(alloc, value)?;
        Ok(Inner { value })
    }

    /// The value itself.
    pub fn get(&self) -> &Value10
        ensures { value_tree result.now ≡ self.now }
    {
        &self.value
    }
}
