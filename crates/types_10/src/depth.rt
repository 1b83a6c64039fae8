//! Whether values are no deeper than they may be.

ghost use Rattle.std.specs.Prelude.{◌≡◌, nat_le, map};
ghost use Rattle.types_10.specs.Tree.{depth, list_depth, pairs_depth_of};
ghost use Rattle.types_10.specs.View.{value_tree, pair_trees};

use crate::value::Value10;

/// Whether the depth of a value is at most this.
#[cycle(within)]
pub(crate) fn is_within(value: &Value10, most: u8) -> bool
    ensures { result ≡ nat_le (depth (value_tree value.now)) most }
{
    match value {
        Value10::List(list) | Value10::Array(list) => {
            most > 0 && values_are_within(&list.items, most - 1)
        }
        Value10::Map(list) => most > 0 && pairs_are_within(&list.pairs, most - 1),
        Value10::Described(descriptor, value) => {
            most > 0 && is_within(&descriptor.value, most - 1) && is_within(&value.value, most - 1)
        }
        Value10::Null
        | Value10::Boolean(_)
        | Value10::Ubyte(_)
        | Value10::Byte(_)
        | Value10::Ushort(_)
        | Value10::Short(_)
        | Value10::Uint(_)
        | Value10::Int(_)
        | Value10::Ulong(_)
        | Value10::Long(_)
        | Value10::Float(_)
        | Value10::Double(_)
        | Value10::Decimal32(_)
        | Value10::Decimal64(_)
        | Value10::Decimal128(_)
        | Value10::Char(_)
        | Value10::Timestamp(_)
        | Value10::Uuid(_)
        | Value10::Binary(_)
        | Value10::String(_)
        | Value10::Symbol(_) => true,
    }
}

/// The same of each value.
#[cycle(within)]
fn values_are_within(values: &[Value10], most: u8) -> bool
    ensures { result ≡ nat_le (list_depth (map value_tree values.now)) most }
{
    for value in values {
        if !is_within(value, most) {
            return false;
        }
    }
    true
}

/// The same of each key and each value.
#[cycle(within)]
fn pairs_are_within(pairs: &[(Value10, Value10)], most: u8) -> bool
    ensures { result ≡ nat_le (pairs_depth_of (map pair_trees pairs.now)) most }
{
    for (key, value) in pairs {
        if !is_within(key, most) || !is_within(value, most) {
            return false;
        }
    }
    true
}
