//! Whether a value can be written: the test for what `put_value` requires (AMQP 1.0 1.6).

ghost use Rattle.std.specs.Prelude.{◌≡◌, ◌↔◌, ◌≤◌, [], true, map, IsTrue};
ghost use Rattle.types_10.specs.Kinds.{is_bare};
ghost use Rattle.types_10.specs.Tree.{trees_of, pairs_of};
ghost use Rattle.types_10.specs.View.{value_tree, pair_trees};
ghost use Rattle.types_10.specs.Writing.{written_each, descriptors, type_of, AreAlike, EachIsAlike};
ghost use Rattle.types_10.specs.Writing.{AreOfOneType, IsWritable, EachIsWritable};
ghost use Rattle.types_10.specs.Writing.{PairsAreWritable, HasSpelling};

use crate::depth::is_within;
use crate::kind::Text;
use crate::load::load_of;
use crate::measure::{measure_each, measure_value};
use crate::reading::{MOST_DEPTH, MOST_LOAD, is_text};
use crate::value::Value10;

/// The length that is too long for what is written of a value: 4 GiB.
const LEAST_TOO_LONG: usize = 4_294_967_296;

/// Whether two values are equal.
#[cycle(same)]
fn is_same(one: &Value10, other: &Value10) -> bool
    ensures { result ≡ true ↔ value_tree one.now ≡ value_tree other.now }
{
    match (one, other) {
        (Value10::Null, Value10::Null) => true,
        (Value10::Boolean(one), Value10::Boolean(other)) => *one == *other,
        (Value10::Ubyte(one), Value10::Ubyte(other)) => *one == *other,
        (Value10::Byte(one), Value10::Byte(other)) => *one == *other,
        (Value10::Ushort(one), Value10::Ushort(other)) => *one == *other,
        (Value10::Short(one), Value10::Short(other)) => *one == *other,
        (Value10::Uint(one), Value10::Uint(other)) => *one == *other,
        (Value10::Int(one), Value10::Int(other)) => *one == *other,
        (Value10::Ulong(one), Value10::Ulong(other)) => *one == *other,
        (Value10::Long(one), Value10::Long(other)) => *one == *other,
        (Value10::Float(one), Value10::Float(other)) => *one == *other,
        (Value10::Double(one), Value10::Double(other)) => *one == *other,
        (Value10::Decimal32(one), Value10::Decimal32(other)) => *one == *other,
        (Value10::Decimal64(one), Value10::Decimal64(other)) => *one == *other,
        (Value10::Decimal128(one), Value10::Decimal128(other)) => *one == *other,
        (Value10::Char(one), Value10::Char(other)) => *one == *other,
        (Value10::Timestamp(one), Value10::Timestamp(other)) => *one == *other,
        (Value10::Uuid(one), Value10::Uuid(other)) => *one == *other,
        (Value10::Binary(one), Value10::Binary(other)) => one.as_slice() == other.as_slice(),
        (Value10::String(one), Value10::String(other)) => one.as_slice() == other.as_slice(),
        (Value10::Symbol(one), Value10::Symbol(other)) => one.as_slice() == other.as_slice(),
        (Value10::List(one), Value10::List(other)) => are_same(&one.items, &other.items),
        (Value10::Map(one), Value10::Map(other)) => pairs_are_same(&one.pairs, &other.pairs),
        (Value10::Array(one), Value10::Array(other)) => are_same(&one.items, &other.items),
        (Value10::Described(d, one), Value10::Described(e, other)) => {
            is_same(&d.value, &e.value) && is_same(&one.value, &other.value)
        }
        _ => false,
    }
}

/// Whether each of these values equals the one at its place.
#[cycle(same)]
fn are_same(ones: &[Value10], others: &[Value10]) -> bool
    ensures { result ≡ true ↔ map value_tree ones.now ≡ map value_tree others.now }
{
    if ones.len() != others.len() {
        return false;
    }
    let mut at = 0;
    while at < ones.len() {
        if !is_same(&ones[at], &others[at]) {
            return false;
        }
        at += 1;
    }
    true
}

/// Whether each pair equals the one at its place.
#[cycle(same)]
fn pairs_are_same(ones: &[(Value10, Value10)], others: &[(Value10, Value10)]) -> bool
    ensures { result ≡ true ↔ map pair_trees ones.now ≡ map pair_trees others.now }
{
    if ones.len() != others.len() {
        return false;
    }
    let mut at = 0;
    while at < ones.len() {
        if !pair_is_same(&ones[at], &others[at]) {
            return false;
        }
        at += 1;
    }
    true
}

#[cycle(same)]
fn pair_is_same(one: &(Value10, Value10), other: &(Value10, Value10)) -> bool
    ensures { result ≡ true ↔ pair_trees one.now ≡ pair_trees other.now }
{
    let (key, value) = one;
    let (other_key, other) = other;
    is_same(key, other_key) && is_same(value, other)
}

/// Whether two values have equal descriptors, or both none.
fn are_described_alike(one: &Value10, other: &Value10) -> bool
    ensures { result ≡ true ↔ descriptors (value_tree one.now)
        ≡ descriptors (value_tree other.now) }
{
    match (one, other) {
        (Value10::Described(d, one), Value10::Described(e, other)) => {
            is_same(&d.value, &e.value) && are_described_alike(&one.value, &other.value)
        }
        (Value10::Described(_, _), _) | (_, Value10::Described(_, _)) => false,
        _ => true,
    }
}

/// The last code of the type of what a value's descriptors describe.
fn type_of(value: &Value10) -> u8
    ensures { result ≡ type_of (value_tree value.now) }
{
    match value {
        Value10::Null => 0x40,
        Value10::Boolean(_) => 0x56,
        Value10::Ubyte(_) => 0x50,
        Value10::Byte(_) => 0x51,
        Value10::Ushort(_) => 0x60,
        Value10::Short(_) => 0x61,
        Value10::Uint(_) => 0x70,
        Value10::Int(_) => 0x71,
        Value10::Ulong(_) => 0x80,
        Value10::Long(_) => 0x81,
        Value10::Float(_) => 0x72,
        Value10::Double(_) => 0x82,
        Value10::Decimal32(_) => 0x74,
        Value10::Decimal64(_) => 0x84,
        Value10::Decimal128(_) => 0x94,
        Value10::Char(_) => 0x73,
        Value10::Timestamp(_) => 0x83,
        Value10::Uuid(_) => 0x98,
        Value10::Binary(_) => 0xB0,
        Value10::String(_) => 0xB1,
        Value10::Symbol(_) => 0xB3,
        Value10::List(_) => 0xD0,
        Value10::Map(_) => 0xD1,
        Value10::Array(_) => 0xF0,
        Value10::Described(_, value) => type_of(&value.value),
    }
}

/// Whether two values may be elements of one array.
fn are_alike(one: &Value10, other: &Value10) -> bool
    ensures { result ≡ true ↔ AreAlike (value_tree one.now) (value_tree other.now) }
{
    are_described_alike(one, other) && type_of(one) == type_of(other)
}

/// Whether each of these values and the first one may be elements of one array.
fn each_is_alike(first: &Value10, others: &[Value10]) -> bool
    ensures { result ≡ true ↔ EachIsAlike (value_tree first.now) (trees_of
        (map value_tree others.now)) }
{
    for other in others {
        if !are_alike(other, first) {
            return false;
        }
    }
    true
}

fn are_of_one_type(values: &[Value10]) -> bool
    ensures { result ≡ true ↔ AreOfOneType (trees_of (map value_tree values.now)) }
{
    let Some((first, others)) = values.split_first() else {
        return true;
    };
    each_is_alike(first, others)
}

/// Whether elements without bytes are no more than an array may have.
fn fits_bare(values: &[Value10]) -> bool
    requires { EachIsWritable (trees_of (map value_tree values.now)) }
    ensures { result ≡ true ↔ (IsTrue (is_bare (written_each (trees_of
        (map value_tree values.now))).kind)
        → (written_each (trees_of (map value_tree values.now))).count ≤ 65536) }
{
    values.len() <= MOST_LOAD as usize || !measure_each(values).kind.is_bare()
}

/// Whether texts, chars and arrays inside a value are as they must be.
#[cycle(writable)]
fn is_writable(value: &Value10) -> bool
    ensures { result ≡ true ↔ IsWritable (value_tree value.now) }
{
    match value {
        Value10::Char(n) => *n < 0xD800 || (*n >= 0xE000 && *n < 0x11_0000),
        Value10::String(bytes) => is_text(Text::String, bytes.as_slice()),
        Value10::Symbol(bytes) => is_text(Text::Symbol, bytes.as_slice()),
        Value10::List(list) => each_is_writable(&list.items),
        Value10::Map(list) => pairs_are_writable(&list.pairs),
        Value10::Array(list) => {
            each_is_writable(&list.items) && are_of_one_type(&list.items) && fits_bare(&list.items)
        }
        Value10::Described(descriptor, value) => {
            is_writable(&descriptor.value) && is_writable(&value.value)
        }
        Value10::Null
        | Value10::Boolean(_)
        | Value10::Ubyte(_)
        | Value10::Byte(_)
        | Value10::Ushort(_)
        | Value10::Short(_)
        | Value10::Uint(_)
        | Value10::Int(_)
        | Value10::Ulong(_)
        | Value10::Long(_)
        | Value10::Float(_)
        | Value10::Double(_)
        | Value10::Decimal32(_)
        | Value10::Decimal64(_)
        | Value10::Decimal128(_)
        | Value10::Timestamp(_)
        | Value10::Uuid(_)
        | Value10::Binary(_) => true,
    }
}

#[cycle(writable)]
fn each_is_writable(values: &[Value10]) -> bool
    ensures { result ≡ true ↔ EachIsWritable (trees_of (map value_tree values.now)) }
{
    for value in values {
        if !is_writable(value) {
            return false;
        }
    }
    true
}

#[cycle(writable)]
fn pairs_are_writable(pairs: &[(Value10, Value10)]) -> bool
    ensures { result ≡ true ↔ PairsAreWritable (pairs_of (map pair_trees pairs.now)) }
{
    for pair in pairs {
        if !pair_is_writable(pair) {
            return false;
        }
    }
    true
}

#[cycle(writable)]
fn pair_is_writable(pair: &(Value10, Value10)) -> bool
    ensures { result ≡ true ↔ (IsWritable (pair_trees pair.now).0
        × IsWritable (pair_trees pair.now).1) }
{
    let (key, value) = pair;
    is_writable(key) && is_writable(value)
}

/// Whether a value has a spelling, so that `put_value` takes it.
pub fn has_spelling(value: &Value10) -> bool
    ensures { result ≡ true ↔ HasSpelling (value_tree value.now) }
{
    is_within(value, MOST_DEPTH)
        && is_writable(value)
        && measure_value(value).whole_len() < LEAST_TOO_LONG
        && load_of(value).whole() <= MOST_LOAD as usize
}
