//! Texts with numbers.

ghost use Rattle.std.specs.Prelude.{◌≡◌, ℕ, ◌++◌, codes, decimal, IfOk, OnOk};

use itoa::Buffer;
use std::alloc::Global;
use wire_base::{ByteText, Memory};

/// Adds a number in decimal.
pub(crate) fn put_decimal(out: &mut ByteText, number: u64) -> Result<(), Memory>
    ensures { OnOk result (out.new ≡ out.old ++ decimal number) }
{
    let mut buffer = Buffer::new();
    out.append(buffer.format(number).as_bytes())
}

/// A text and a number.
pub(crate) fn counted(alloc: Global, before: &[u8], number: u64) -> Result<ByteText, Memory>
    ensures { IfOk result (λ text. text ≡ before.now ++ decimal number) }
{
    let mut text = ByteText::copy_of(alloc, before)?;
    put_decimal(&mut text, number)?;
    Ok(text)
}

/// A text, a number and a text.
pub(crate) fn named(
    alloc: Global,
    before: &[u8],
    number: u64,
    after: &[u8],
) -> Result<ByteText, Memory>
    ensures { IfOk result (λ text. text ≡ before.now ++ (decimal number ++ (codes " "
        ++ after.now))) }
{
    let mut text = counted(alloc, before, number)?;
    text.append(b" ")?;
    text.append(after)?;
    Ok(text)
}

/// A text and two numbers.
pub(crate) fn sized(
    alloc: Global,
    before: &[u8],
    number: u64,
    size: u64,
) -> Result<ByteText, Memory>
    ensures { IfOk result (λ text. text ≡ before.now ++ (decimal number ++ (codes " "
        ++ decimal size))) }
{
    let mut text = counted(alloc, before, number)?;
    text.append(b" ")?;
    put_decimal(&mut text, size)?;
    Ok(text)
}
