//! What a copy of a value takes: the elements of an array have copies of its descriptors (AMQP 1.0
//! 1.6.24).
//!
//! The sums saturate, so that none of them overflows.

ghost use Rattle.std.specs.Prelude.{◌≡◌, ℕ, ◌+◌, max, map, if◌then◌else◌};
ghost use Rattle.types_10.specs.Loads.{weight, weights, pairs_weight};
ghost use Rattle.types_10.specs.Measures.{capped};
ghost use Rattle.types_10.specs.Tree.{trees_of, pairs_of};
ghost use Rattle.types_10.specs.View.{value_tree, pair_trees};

use crate::value::Value10;

/// As many as values stand in it, and one more for each 64 bytes of a text.
#[cycle(weighed)]
pub(crate) fn weight_of(value: &Value10) -> usize
    ensures { result ≡ capped (weight (value_tree value.now)) }
{
    match value {
        Value10::Binary(text) | Value10::String(text) | Value10::Symbol(text) => {
            text.as_slice().len() / 64 + 1
        }
        Value10::List(list) | Value10::Array(list) => weights_of(&list.items).saturating_add(1),
        Value10::Map(list) => pairs_weight_of(&list.pairs).saturating_add(1),
        Value10::Described(descriptor, value) => {
            let descriptor = weight_of(&descriptor.value);
            descriptor
                .saturating_add(weight_of(&value.value))
                .saturating_add(1)
        }
        Value10::Null
        | Value10::Boolean(_)
        | Value10::Ubyte(_)
        | Value10::Byte(_)
        | Value10::Ushort(_)
        | Value10::Short(_)
        | Value10::Uint(_)
        | Value10::Int(_)
        | Value10::Ulong(_)
        | Value10::Long(_)
        | Value10::Float(_)
        | Value10::Double(_)
        | Value10::Decimal32(_)
        | Value10::Decimal64(_)
        | Value10::Decimal128(_)
        | Value10::Char(_)
        | Value10::Timestamp(_)
        | Value10::Uuid(_) => 1,
    }
}

/// The same of values together, by one pass from the last to the first.
#[cycle(weighed)]
pub(crate) fn weights_of(values: &[Value10]) -> usize
    ensures { result ≡ capped (weights (trees_of (map value_tree values.now))) }
{
    let mut sum: usize = 0;
    let mut left = values.len();
    while left > 0 {
        left -= 1;
        sum = weight_of(&values[left]).saturating_add(sum);
    }
    sum
}

/// The same of keys and values together.
#[cycle(weighed)]
fn pairs_weight_of(pairs: &[(Value10, Value10)]) -> usize
    ensures { result ≡ capped (pairs_weight (pairs_of (map pair_trees pairs.now))) }
{
    let mut sum: usize = 0;
    let mut left = pairs.len();
    while left > 0 {
        left -= 1;
        sum = pair_weight_of(&pairs[left]).saturating_add(sum);
    }
    sum
}

/// The same of a key and its value.
#[cycle(weighed)]
fn pair_weight_of(pair: &(Value10, Value10)) -> usize
    ensures { result ≡ capped (weight (pair_trees pair.now).0 + weight (pair_trees pair.now).1) }
{
    let (key, value) = pair;
    weight_of(key).saturating_add(weight_of(value))
}

/// What an element takes besides its bytes: what the copies of its descriptors take, and one if it
/// has neither bytes nor descriptors.
pub(crate) fn element_load(copies: usize, bare: bool) -> usize
    ensures { (n : ℕ) → copies ≡ capped n → result ≡ capped (max n (if bare then 1 else 0)) }
{
    if bare && copies == 0 { 1 } else { copies }
}
