//! Properties of each kind, which are there or aren't (AMQP 0-9-1 4.2.6.1).

ghost use Rattle.std.specs.Prelude.{◌≡◌, ◌<◌, ◌≤◌, ◌^◌, ℕ, ◌++◌, length, take, OnOk, OnErr};
ghost use Rattle.wire_base.specs.Reading.{Gives};
ghost use Rattle.content_091.specs.Grammar.{bit_at};
ghost use Rattle.content_091.specs.Reading.{maybe_in};
ghost use Rattle.content_091.specs.Rows as kind;
ghost use Rattle.content_091.specs.View.{an_octet, a_longlong, a_text, a_table};
ghost use Rattle.content_091.specs.Writing.{flag_of, maybe_text, CanPutOne};

use std::alloc::Global;
use tables_091::{Table, next_table, put_table};
use wire_base::{ByteText, Memory, Stop, put_u8, put_u64, short_in, u8_in, u64_in};

/// Whether a bit of the flags is set; the lowest is 0.
fn is_set(flags: u16, bit: u8) -> bool
    requires { bit < 16 }
    ensures { result ≡ bit_at bit flags }
{
    (flags >> bit) % 2 == 1
}

/// An octet, where its bit is set.
pub(crate) fn octet_in(
    flags: u16,
    bit: u8,
    end: usize,
    bytes: &[u8],
) -> Result<(Option<u8>, &[u8]), Stop<usize>>
    requires { bit < 16 }
    ensures { Gives (λ x. (an_octet x.0, x.1.now)) result
        (maybe_in (bit_at bit flags) kind.octet end bytes.now) }
{
    if !is_set(flags, bit) {
        return Ok((None, bytes));
    }
    let (n, rest) = u8_in(end, bytes)?;
    Ok((Some(n), rest))
}

/// A number of eight bytes, where its bit is set.
pub(crate) fn longlong_in(
    flags: u16,
    bit: u8,
    end: usize,
    bytes: &[u8],
) -> Result<(Option<u64>, &[u8]), Stop<usize>>
    requires { bit < 16 }
    ensures { Gives (λ x. (a_longlong x.0, x.1.now)) result
        (maybe_in (bit_at bit flags) kind.longlong end bytes.now) }
{
    if !is_set(flags, bit) {
        return Ok((None, bytes));
    }
    let (n, rest) = u64_in(end, bytes)?;
    Ok((Some(n), rest))
}

/// A short string, where its bit is set.
pub(crate) fn text_in(
    alloc: Global,
    flags: u16,
    bit: u8,
    end: usize,
    bytes: &[u8],
) -> Result<(Option<ByteText>, &[u8]), Stop<usize>>
    requires { bit < 16 }
    ensures { Gives (λ x. (a_text x.0, x.1.now)) result
        (maybe_in (bit_at bit flags) kind.shortstr end bytes.now) }
{
    if !is_set(flags, bit) {
        return Ok((None, bytes));
    }
    let (text, rest) = short_in(end, bytes)?;
    Ok((Some(ByteText::copy_of(alloc, text)?), rest))
}

/// A table, where its bit is set.
pub(crate) fn table_in(
    alloc: Global,
    flags: u16,
    bit: u8,
    end: usize,
    bytes: &[u8],
) -> Result<(Option<Table>, &[u8]), Stop<usize>>
    requires { bit < 16 }
    ensures { Gives (λ x. (a_table x.0, x.1.now)) result
        (maybe_in (bit_at bit flags) kind.fields end bytes.now) }
{
    if !is_set(flags, bit) {
        return Ok((None, bytes));
    }
    let (table, rest) = next_table(alloc, end, bytes)?;
    Ok((Some(table), rest))
}

/// The bit of an octet that is there.
#[tactic(auto, unfolding(crate::specs::Writing::flag_of))]
pub(crate) fn octet_flag(bit: u8, n: &Option<u8>) -> u16
    requires { bit < 16 }
    ensures value { result ≡ flag_of bit (an_octet n.now) }
    ensures range { result ≤ 2 ^ bit }
{
    match n {
        Some(_) => 1 << bit,
        None => 0,
    }
}

/// The bit of a number of eight bytes that is there.
#[tactic(auto, unfolding(crate::specs::Writing::flag_of))]
pub(crate) fn longlong_flag(bit: u8, n: &Option<u64>) -> u16
    requires { bit < 16 }
    ensures value { result ≡ flag_of bit (a_longlong n.now) }
    ensures range { result ≤ 2 ^ bit }
{
    match n {
        Some(_) => 1 << bit,
        None => 0,
    }
}

/// The bit of a short string that is there.
#[tactic(auto, unfolding(crate::specs::Writing::flag_of))]
pub(crate) fn text_flag(bit: u8, text: &Option<ByteText>) -> u16
    requires { bit < 16 }
    ensures value { result ≡ flag_of bit (a_text text.now) }
    ensures range { result ≤ 2 ^ bit }
{
    match text {
        Some(_) => 1 << bit,
        None => 0,
    }
}

/// The bit of a table that is there.
#[tactic(auto, unfolding(crate::specs::Writing::flag_of))]
pub(crate) fn table_flag(bit: u8, table: &Option<Table>) -> u16
    requires { bit < 16 }
    ensures value { result ≡ flag_of bit (a_table table.now) }
    ensures range { result ≤ 2 ^ bit }
{
    match table {
        Some(_) => 1 << bit,
        None => 0,
    }
}

/// An octet that is there.
#[tactic(auto, unfolding(crate::specs::Writing::maybe_text))]
pub(crate) fn put_octet(out: &mut ByteText, n: &Option<u8>) -> Result<(), Memory>
    ensures ok { OnOk result (out.new ≡ out.old ++ maybe_text (an_octet n.now)) }
    ensures err { OnErr result (take (length out.old) out.new ≡ out.old) }
{
    match n {
        Some(n) => put_u8(out, *n),
        None => Ok(()),
    }
}

/// A number of eight bytes that is there.
#[tactic(auto, unfolding(crate::specs::Writing::maybe_text))]
pub(crate) fn put_longlong(out: &mut ByteText, n: &Option<u64>) -> Result<(), Memory>
    ensures ok { OnOk result (out.new ≡ out.old ++ maybe_text (a_longlong n.now)) }
    ensures err { OnErr result (take (length out.old) out.new ≡ out.old) }
{
    match n {
        Some(n) => put_u64(out, *n),
        None => Ok(()),
    }
}

/// A short string that is there.
#[tactic(auto, unfolding(crate::specs::Writing::maybe_text))]
pub(crate) fn put_text(out: &mut ByteText, text: &Option<ByteText>) -> Result<(), Memory>
    requires { CanPutOne (a_text text.now) }
    ensures ok { OnOk result (out.new ≡ out.old ++ maybe_text (a_text text.now)) }
    ensures err { OnErr result (take (length out.old) out.new ≡ out.old) }
{
    match text {
        Some(text) => {
            let text = text.as_slice();
            put_u8(out, text.len() as u8)?;
            out.append(text)
        }
        None => Ok(()),
    }
}

/// A table that is there.
#[tactic(auto, unfolding(crate::specs::Writing::maybe_text))]
pub(crate) fn put_fields(out: &mut ByteText, table: &Option<Table>) -> Result<(), Memory>
    requires { CanPutOne (a_table table.now) }
    ensures ok { OnOk result (out.new ≡ out.old ++ maybe_text (a_table table.now)) }
    ensures err { OnErr result (take (length out.old) out.new ≡ out.old) }
{
    match table {
        Some(table) => put_table(out, table),
        None => Ok(()),
    }
}
