//! What is known of values before they are written: their kinds, and how long they are (AMQP 1.0
//! 1.6).
//!
//! Lengths are in bytes. They saturate, so that no sum of them overflows. A measure is one pass
//! over a value.

ghost use Rattle.std.specs.Prelude.{◌≡◌, ℕ, List, length, map};
ghost use Rattle.types_10.specs.Tree.{uint, int, ulong, long, Tree, list, mapping, array};
ghost use Rattle.types_10.specs.Tree.{described, Trees, tree, trees_of, pairs_of};
ghost use Rattle.types_10.specs.View.{value_tree, pair_trees};
ghost use Rattle.types_10.specs.Writing.{text_kind, single_kind, list_kind, EachIsWritable};
ghost use Rattle.types_10.specs.Writing.{PairsAreWritable, AreOfOneType, IsWritable, written_pairs};
ghost use Rattle.types_10.specs.Writing.{value_text};
ghost use Rattle.types_10.specs.Measures.{capped, head_len, held_size, pair_text, IsMeasure};
ghost use Rattle.types_10.specs.Measures.{IsEachMeasure};

use crate::kind::{Bare, Kind, Octet, Single, Sixteen, Size, Text, Wide};
use crate::value::Value10;
use wire_base::ByteText;

/// What is known of a value before it is written.
#[derive(Clone, Copy)]
pub(crate) struct Measure {
    /// The kind that it has where it stands alone; of a described value, that of what is described.
    pub(crate) kind: Kind,
    /// The length of its descriptors, each behind its code.
    pub(crate) front: usize,
    /// The length of its content, but for what the kind decides.
    pub(crate) body: usize,
}

/// What is known of values together.
#[derive(Clone, Copy)]
pub(crate) struct EachMeasure {
    /// The length of all that is written of them where each stands alone.
    pub(crate) text: usize,
    /// The length of the first one's descriptors, each behind its code.
    pub(crate) front: usize,
    /// The kind that they share as the elements of an array.
    pub(crate) kind: Kind,
    /// The length of their contents, but for what the kind decides.
    pub(crate) bodies: usize,
}

impl Measure {
    /// The measure of a value that isn't described.
    fn plain(kind: Kind, body: usize) -> Measure
        ensures kind { result.kind ≡ kind }
        ensures front { result.front ≡ 0 }
        ensures body { result.body ≡ body }
    {
        Measure {
            kind,
            front: 0,
            body,
        }
    }

    /// The measure of a number.
    fn number(single: Single) -> Measure
        ensures kind { result.kind ≡ Kind.Single single }
        ensures front { result.front ≡ 0 }
        ensures body { result.body ≡ 0 }
    {
        Measure::plain(Kind::Single(single), 0)
    }

    /// The measure of sixteen bytes.
    fn sixteen(sixteen: Sixteen, bytes: &[u8; 16]) -> Measure
        ensures kind { result.kind ≡ Kind.Single (Single.Sixteen sixteen) }
        ensures front { result.front ≡ 0 }
        ensures body { result.body ≡ length bytes.now }
    {
        Measure::plain(Kind::Single(Single::Sixteen(sixteen)), bytes.len())
    }

    /// The measure of bytes behind their length.
    fn text(text: Text, bytes: &ByteText) -> Measure
        ensures kind { result.kind ≡ Kind.Single (text_kind text bytes.now) }
        ensures front { result.front ≡ 0 }
        ensures body { result.body ≡ capped (length bytes.now) }
    {
        let body = bytes.as_slice().len();
        let size = if body < 256 { Size::Short } else { Size::Long };
        Measure::plain(Kind::Single(Single::Text(text, size)), body)
    }

    /// The length of all that is written of the value where it stands alone.
    pub(crate) fn whole_len(self) -> usize
        ensures { (t : Tree) → IsMeasure self t → result ≡ capped (length (value_text t)) }
    {
        let head = self
            .front
            .saturating_add(1)
            .saturating_add(self.kind.head_len());
        head.saturating_add(self.body)
    }

    /// The measure of the value behind a descriptor.
    fn described(self, descriptor: Measure) -> Measure
        ensures { (d t : Tree) → IsMeasure descriptor d → IsMeasure self t
            → IsMeasure result (described d t) }
    {
        let front = descriptor
            .whole_len()
            .saturating_add(1)
            .saturating_add(self.front);
        Measure {
            kind: self.kind,
            front,
            body: self.body,
        }
    }
}

impl EachMeasure {
    /// The measure of these values behind another one.
    fn behind(self, first: Measure) -> EachMeasure
        ensures { (t : Tree) (ts : Trees) → IsMeasure first t → IsEachMeasure self ts
            → IsEachMeasure result (tree t ts) }
    {
        EachMeasure {
            text: first.whole_len().saturating_add(self.text),
            front: first.front,
            kind: first.kind.shared(self.kind),
            bodies: first.body.saturating_add(self.bodies),
        }
    }
}

impl Size {
    /// How wide a size and a count are where they stand before so many values, which take so many
    /// bytes.
    fn of(count: usize, body: usize) -> Size
        ensures { (text : List ℕ) → body ≡ capped (length text) → result ≡ held_size count text }
    {
        // The size is that of the count too.
        if count < 256 && body < 255 {
            Size::Short
        } else {
            Size::Long
        }
    }
}

/// The kind of a list that stands alone.
fn list_kind(count: usize, body: usize) -> Kind
    ensures { (text : List ℕ) → body ≡ capped (length text) → result ≡ list_kind count text }
{
    if count == 0 {
        Kind::EmptyList
    } else {
        Kind::List(Size::of(count, body))
    }
}

fn uint_kind(n: u32) -> Single
    ensures { result ≡ single_kind (uint n) }
{
    if n == 0 {
        Single::Bare(Bare::Uint)
    } else if n < 256 {
        Single::Octet(Octet::Uint)
    } else {
        Single::Wide(Wide::Uint)
    }
}

fn ulong_kind(n: u64) -> Single
    ensures { result ≡ single_kind (ulong n) }
{
    if n == 0 {
        Single::Bare(Bare::Ulong)
    } else if n < 256 {
        Single::Octet(Octet::Ulong)
    } else {
        Single::Wide(Wide::Ulong)
    }
}

fn int_kind(n: i32) -> Single
    ensures { result ≡ single_kind (int n) }
{
    if -128 <= n && n < 128 {
        Single::Octet(Octet::Int)
    } else {
        Single::Wide(Wide::Int)
    }
}

fn long_kind(n: i64) -> Single
    ensures { result ≡ single_kind (long n) }
{
    if -128 <= n && n < 128 {
        Single::Octet(Octet::Long)
    } else {
        Single::Wide(Wide::Long)
    }
}

/// The measure of a value, by one pass over it.
#[cycle(measured)]
pub(crate) fn measure_value(value: &Value10) -> Measure
    requires { IsWritable (value_tree value.now) }
    ensures { IsMeasure result (value_tree value.now) }
{
    match value {
        Value10::Null => Measure::number(Single::Bare(Bare::Null)),
        Value10::Boolean(true) => Measure::number(Single::Bare(Bare::True)),
        Value10::Boolean(false) => Measure::number(Single::Bare(Bare::False)),
        Value10::Ubyte(_) => Measure::number(Single::Octet(Octet::Ubyte)),
        Value10::Byte(_) => Measure::number(Single::Octet(Octet::Byte)),
        Value10::Ushort(_) => Measure::number(Single::Wide(Wide::Ushort)),
        Value10::Short(_) => Measure::number(Single::Wide(Wide::Short)),
        Value10::Uint(n) => Measure::number(uint_kind(*n)),
        Value10::Int(n) => Measure::number(int_kind(*n)),
        Value10::Ulong(n) => Measure::number(ulong_kind(*n)),
        Value10::Long(n) => Measure::number(long_kind(*n)),
        Value10::Float(_) => Measure::number(Single::Wide(Wide::Float)),
        Value10::Double(_) => Measure::number(Single::Wide(Wide::Double)),
        Value10::Decimal32(_) => Measure::number(Single::Wide(Wide::Decimal32)),
        Value10::Decimal64(_) => Measure::number(Single::Wide(Wide::Decimal64)),
        Value10::Decimal128(bytes) => Measure::sixteen(Sixteen::Decimal128, bytes),
        Value10::Char(_) => Measure::number(Single::Char),
        Value10::Timestamp(_) => Measure::number(Single::Wide(Wide::Timestamp)),
        Value10::Uuid(bytes) => Measure::sixteen(Sixteen::Uuid, bytes),
        Value10::Binary(bytes) => Measure::text(Text::Binary, bytes),
        Value10::String(bytes) => Measure::text(Text::String, bytes),
        Value10::Symbol(bytes) => Measure::text(Text::Symbol, bytes),
        Value10::List(list) => measure_list(&list.items),
        Value10::Map(list) => measure_map(&list.pairs),
        Value10::Array(list) => measure_array(&list.items),
        Value10::Described(descriptor, value) => {
            let descriptor = measure_value(&descriptor.value);
            measure_value(&value.value).described(descriptor)
        }
    }
}

#[cycle(measured)]
fn measure_list(values: &[Value10]) -> Measure
    requires { EachIsWritable (trees_of (map value_tree values.now)) }
    ensures { IsMeasure result (list (trees_of (map value_tree values.now))) }
{
    let body = measure_each(values).text;
    Measure::plain(list_kind(values.len(), body), body)
}

#[cycle(measured)]
fn measure_map(pairs: &[(Value10, Value10)]) -> Measure
    requires { PairsAreWritable (pairs_of (map pair_trees pairs.now)) }
    ensures { IsMeasure result (mapping (pairs_of (map pair_trees pairs.now))) }
{
    let body = measure_pairs(pairs);
    Measure::plain(Kind::Map(Size::of(2 * pairs.len(), body)), body)
}

#[cycle(measured)]
fn measure_array(values: &[Value10]) -> Measure
    requires writable { EachIsWritable (trees_of (map value_tree values.now)) }
    requires alike { AreOfOneType (trees_of (map value_tree values.now)) }
    ensures { IsMeasure result (array (trees_of (map value_tree values.now))) }
{
    let each = measure_each(values);
    let heads = values.len().saturating_mul(each.kind.head_len());
    let contents = heads.saturating_add(each.bodies);
    // The code of the elements' kind stands behind their descriptors.
    let body = each.front.saturating_add(1).saturating_add(contents);
    Measure::plain(Kind::Array(Size::of(values.len(), body)), body)
}

/// The measure of values together, by one pass from the last to the first.
#[cycle(measured)]
pub(crate) fn measure_each(values: &[Value10]) -> EachMeasure
    requires { EachIsWritable (trees_of (map value_tree values.now)) }
    ensures { IsEachMeasure result (trees_of (map value_tree values.now)) }
{
    let mut each = EachMeasure {
        text: 0,
        front: 0,
        kind: Kind::Single(Single::Bare(Bare::Null)),
        bodies: 0,
    };
    let mut left = values.len();
    while left > 0 {
        left -= 1;
        each = each.behind(measure_value(&values[left]));
    }
    each
}

/// The length of all that is written of the keys and values of pairs.
#[cycle(measured)]
fn measure_pairs(pairs: &[(Value10, Value10)]) -> usize
    requires { PairsAreWritable (pairs_of (map pair_trees pairs.now)) }
    ensures { result ≡ capped (length (written_pairs (pairs_of (map pair_trees pairs.now))).1) }
{
    let mut body: usize = 0;
    for pair in pairs {
        body = body.saturating_add(measure_pair(pair));
    }
    body
}

#[cycle(measured)]
fn measure_pair(pair: &(Value10, Value10)) -> usize
    requires key { IsWritable (pair_trees pair.now).0 }
    requires value { IsWritable (pair_trees pair.now).1 }
    ensures { result ≡ capped (length (pair_text pair.now)) }
{
    let (key, value) = pair;
    let key = measure_value(key).whole_len();
    key.saturating_add(measure_value(value).whole_len())
}
