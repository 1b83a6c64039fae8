//! Copies of values.

ghost use Rattle.std.specs.Prelude.{◌≡◌, List, map, IfOk};
ghost use Rattle.types_10.specs.View.{value_tree, pair_trees};

use crate::value::{Inner, PairList, Value10, ValueList};
use std::alloc::Global;
use wire_base::Memory;

/// A value of its own that is the same.
#[cycle(copied)]
pub(crate) fn copy_value(alloc: Global, value: &Value10) -> Result<Value10, Memory>
    ensures { IfOk result (λ copy. value_tree copy ≡ value_tree value.now) }
{
    let copy = match value {
        Value10::Null => Value10::Null,
        Value10::Boolean(b) => Value10::Boolean(*b),
        Value10::Ubyte(n) => Value10::Ubyte(*n),
        Value10::Byte(n) => Value10::Byte(*n),
        Value10::Ushort(n) => Value10::Ushort(*n),
        Value10::Short(n) => Value10::Short(*n),
        Value10::Uint(n) => Value10::Uint(*n),
        Value10::Int(n) => Value10::Int(*n),
        Value10::Ulong(n) => Value10::Ulong(*n),
        Value10::Long(n) => Value10::Long(*n),
        Value10::Float(n) => Value10::Float(*n),
        Value10::Double(n) => Value10::Double(*n),
        Value10::Decimal32(n) => Value10::Decimal32(*n),
        Value10::Decimal64(n) => Value10::Decimal64(*n),
        Value10::Decimal128(s) => Value10::Decimal128(*s),
        Value10::Char(n) => Value10::Char(*n),
        Value10::Timestamp(n) => Value10::Timestamp(*n),
        Value10::Uuid(s) => Value10::Uuid(*s),
        Value10::Binary(s) => Value10::Binary(s.copy(alloc)?),
        Value10::String(s) => Value10::String(s.copy(alloc)?),
        Value10::Symbol(s) => Value10::Symbol(s.copy(alloc)?),
        Value10::List(list) => Value10::List(copy_values(alloc, &list.items)?),
        Value10::Map(list) => Value10::Map(copy_pairs(alloc, &list.pairs)?),
        Value10::Array(list) => Value10::Array(copy_values(alloc, &list.items)?),
        Value10::Described(descriptor, value) => {
            let descriptor = copy_value(alloc, &descriptor.value)?;
            let value = copy_value(alloc, &value.value)?;
            Value10::Described(Inner::new(alloc, descriptor)?, Inner::new(alloc, value)?)
        }
    };
    Ok(copy)
}

/// Copies of values, in order.
#[cycle(copied)]
fn copy_values(alloc: Global, values: &[Value10]) -> Result<ValueList, Memory>
    ensures { IfOk result (λ list. list ≡ map value_tree values.now) }
{
    let mut list = ValueList::empty(alloc);
    for value in values {
        list.push(copy_value(alloc, value)?)?;
    }
    Ok(list)
}

/// Copies of pairs, in order.
#[cycle(copied)]
fn copy_pairs(alloc: Global, pairs: &[(Value10, Value10)]) -> Result<PairList, Memory>
    ensures { IfOk result (λ list. list ≡ map pair_trees pairs.now) }
{
    let mut list = PairList::empty(alloc);
    for pair in pairs {
        let (key, value) = copy_pair(alloc, pair)?;
        list.push((key, value))?;
    }
    Ok(list)
}

/// A copy of a key and its value.
#[cycle(copied)]
fn copy_pair(alloc: Global, pair: &(Value10, Value10)) -> Result<(Value10, Value10), Memory>
    ensures { IfOk result (λ copy. pair_trees copy ≡ pair_trees pair.now) }
{
    let (key, value) = pair;
    let key = copy_value(alloc, key)?;
    let value = copy_value(alloc, value)?;
    Ok((key, value))
}

impl Value10 {
    /// A value of its own that is the same.
    ///
    /// # Errors
    ///
    /// `Memory` where the allocator has no room.
    pub fn copy(&self, alloc: Global) -> Result<Value10, Memory>
        ensures { IfOk result (λ copy. value_tree copy ≡ value_tree self.now) }
    {
        copy_value(alloc, self)
    }
}
