//! What the elements of the arrays inside a value take besides their bytes, before it is written
//! (AMQP 1.0 1.6.24).
//!
//! The sums saturate, so that none of them overflows.

ghost use Rattle.std.specs.Prelude.{◌≡◌, ◌+◌, map};
ghost use Rattle.types_10.specs.Loads.{copies};
ghost use Rattle.types_10.specs.Measures.{capped, IsLoad, IsEachLoad};
ghost use Rattle.types_10.specs.Tree.{Tree, array, described, Trees, tree, trees_of, pairs_of};
ghost use Rattle.types_10.specs.View.{value_tree, pair_trees};
ghost use Rattle.types_10.specs.Writing.{descriptors, first_descriptors, load, pairs_load};
ghost use Rattle.types_10.specs.Writing.{IsWritable, EachIsWritable, PairsAreWritable};

use crate::measure::measure_each;
use crate::value::Value10;
use crate::weight::{element_load, weight_of};

/// What a value takes besides its bytes.
#[derive(Clone, Copy)]
pub(crate) struct Load {
    /// In its descriptors.
    pub(crate) front: usize,
    /// In what they describe.
    pub(crate) inner: usize,
}

/// What values together take besides their bytes.
#[derive(Clone, Copy)]
pub(crate) struct EachLoad {
    /// In all of them.
    pub(crate) whole: usize,
    /// In the first one's descriptors.
    pub(crate) first: usize,
    /// In what the descriptors of each one describe.
    pub(crate) inner: usize,
}

impl Load {
    /// What a value takes that isn't described.
    fn plain(inner: usize) -> Load
        ensures front { result.front ≡ 0 }
        ensures inner { result.inner ≡ inner }
    {
        Load { front: 0, inner }
    }

    /// All that the value takes.
    pub(crate) fn whole(self) -> usize
        ensures { (t : Tree) → IsLoad self t → result ≡ capped (load t) }
    {
        self.front.saturating_add(self.inner)
    }

    /// What the value behind a descriptor takes.
    fn described(self, descriptor: Load) -> Load
        ensures { (d t : Tree) → IsLoad descriptor d → IsLoad self t
            → IsLoad result (described d t) }
    {
        Load {
            front: descriptor.whole().saturating_add(self.front),
            inner: self.inner,
        }
    }
}

impl EachLoad {
    /// What these values behind another one take.
    fn behind(self, first: Load) -> EachLoad
        ensures { (t : Tree) (ts : Trees) → IsLoad first t → IsEachLoad self ts
            → IsEachLoad result (tree t ts) }
    {
        EachLoad {
            whole: first.whole().saturating_add(self.whole),
            first: first.front,
            inner: first.inner.saturating_add(self.inner),
        }
    }
}

/// What copies of a value's descriptors take.
fn copies_of(value: &Value10) -> usize
    ensures { result ≡ capped (copies (descriptors (value_tree value.now))) }
{
    match value {
        Value10::Described(descriptor, value) => {
            weight_of(&descriptor.value).saturating_add(copies_of(&value.value))
        }
        _ => 0,
    }
}

/// What copies of the first one's descriptors take.
fn first_copies(values: &[Value10]) -> usize
    ensures { result ≡ capped (copies (first_descriptors (trees_of (map value_tree values.now)))) }
{
    match values {
        [first, ..] => copies_of(first),
        [] => 0,
    }
}

/// What a value takes besides its bytes.
#[cycle(loaded)]
pub(crate) fn load_of(value: &Value10) -> Load
    requires { IsWritable (value_tree value.now) }
    ensures { IsLoad result (value_tree value.now) }
{
    match value {
        Value10::List(list) => Load::plain(loads_of(&list.items).whole),
        Value10::Map(list) => Load::plain(pairs_load_of(&list.pairs)),
        Value10::Array(list) => array_load(&list.items),
        Value10::Described(descriptor, value) => {
            let descriptor = load_of(&descriptor.value);
            load_of(&value.value).described(descriptor)
        }
        Value10::Null
        | Value10::Boolean(_)
        | Value10::Ubyte(_)
        | Value10::Byte(_)
        | Value10::Ushort(_)
        | Value10::Short(_)
        | Value10::Uint(_)
        | Value10::Int(_)
        | Value10::Ulong(_)
        | Value10::Long(_)
        | Value10::Float(_)
        | Value10::Double(_)
        | Value10::Decimal32(_)
        | Value10::Decimal64(_)
        | Value10::Decimal128(_)
        | Value10::Char(_)
        | Value10::Timestamp(_)
        | Value10::Uuid(_)
        | Value10::Binary(_)
        | Value10::String(_)
        | Value10::Symbol(_) => Load::plain(0),
    }
}

#[cycle(loaded)]
fn array_load(values: &[Value10]) -> Load
    requires { EachIsWritable (trees_of (map value_tree values.now)) }
    ensures { IsLoad result (array (trees_of (map value_tree values.now))) }
{
    let each = loads_of(values);
    let bare = measure_each(values).kind.is_bare();
    let one = element_load(first_copies(values), bare);
    let own = values.len().saturating_mul(one);
    Load::plain(each.first.saturating_add(own).saturating_add(each.inner))
}

/// What values together take, by one pass from the last to the first.
#[cycle(loaded)]
fn loads_of(values: &[Value10]) -> EachLoad
    requires { EachIsWritable (trees_of (map value_tree values.now)) }
    ensures { IsEachLoad result (trees_of (map value_tree values.now)) }
{
    let mut each = EachLoad {
        whole: 0,
        first: 0,
        inner: 0,
    };
    let mut left = values.len();
    while left > 0 {
        left -= 1;
        each = each.behind(load_of(&values[left]));
    }
    each
}

/// What the keys and values of pairs take.
#[cycle(loaded)]
fn pairs_load_of(pairs: &[(Value10, Value10)]) -> usize
    requires { PairsAreWritable (pairs_of (map pair_trees pairs.now)) }
    ensures { result ≡ capped (pairs_load (pairs_of (map pair_trees pairs.now))) }
{
    let mut sum: usize = 0;
    let mut left = pairs.len();
    while left > 0 {
        left -= 1;
        sum = pair_load_of(&pairs[left]).saturating_add(sum);
    }
    sum
}

#[cycle(loaded)]
fn pair_load_of(pair: &(Value10, Value10)) -> usize
    requires key { IsWritable (pair_trees pair.now).0 }
    requires value { IsWritable (pair_trees pair.now).1 }
    ensures { result ≡ capped (load (pair_trees pair.now).0 + load (pair_trees pair.now).1) }
{
    let (key, value) = pair;
    let key = load_of(key).whole();
    key.saturating_add(load_of(value).whole())
}
