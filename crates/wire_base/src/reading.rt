//! Readers over a slice that shrinks: each answers its value and the bytes after it (AMQP 0-9-1
//! 4.2.5).
//!
//! A reader takes `end`, the offset at which its bytes end in the whole input, and the bytes that
//! are left. A fault is the offset of the number or length that is cut off, or of the length that
//! passes the bytes that are left.

ghost use Rattle.std.specs.Prelude.{◌≡◌, ℕ, ◌-◌, length};
ghost use Rattle.std.specs.Int.{w8, w16, w32, w64};
ghost use Rattle.wire_base.specs.Reading.{Gives, number_in, text_in, offset};

use crate::stop::Stop;

/// The offset of the first byte that is left.
pub fn place(end: usize, bytes: &[u8]) -> usize
    ensures { result ≡ end - length bytes.now }
{
    end.saturating_sub(bytes.len())
}

/// An octet.
pub fn u8_in(end: usize, bytes: &[u8]) -> Result<(u8, &[u8]), Stop<usize>>
    ensures { Gives (λ x. (x.0, x.1.now)) result (number_in offset w8 end bytes.now) }
{
    let Some((first, rest)) = bytes.split_first() else {
        return Err(Stop::Fault(place(end, bytes)));
    };
    Ok((*first, rest))
}

/// A number of two bytes.
pub fn u16_in(end: usize, bytes: &[u8]) -> Result<(u16, &[u8]), Stop<usize>>
    ensures { Gives (λ x. (x.0, x.1.now)) result (number_in offset w16 end bytes.now) }
{
    let Some((front, rest)) = bytes.split_first_chunk::<2>() else {
        return Err(Stop::Fault(place(end, bytes)));
    };
    Ok((u16::from_be_bytes(*front), rest))
}

/// A number of four bytes.
pub fn u32_in(end: usize, bytes: &[u8]) -> Result<(u32, &[u8]), Stop<usize>>
    ensures { Gives (λ x. (x.0, x.1.now)) result (number_in offset w32 end bytes.now) }
{
    let Some((front, rest)) = bytes.split_first_chunk::<4>() else {
        return Err(Stop::Fault(place(end, bytes)));
    };
    Ok((u32::from_be_bytes(*front), rest))
}

/// A number of eight bytes.
pub fn u64_in(end: usize, bytes: &[u8]) -> Result<(u64, &[u8]), Stop<usize>>
    ensures { Gives (λ x. (x.0, x.1.now)) result (number_in offset w64 end bytes.now) }
{
    let Some((front, rest)) = bytes.split_first_chunk::<8>() else {
        return Err(Stop::Fault(place(end, bytes)));
    };
    Ok((u64::from_be_bytes(*front), rest))
}

/// A short string: a length of one byte, and so many bytes.
#[tactic(auto, unfolding(crate::specs::Reading::text_in))]
pub fn short_in(end: usize, bytes: &[u8]) -> Result<(&[u8], &[u8]), Stop<usize>>
    ensures { Gives (λ x. (x.0.now, x.1.now)) result (text_in offset w8 end bytes.now) }
{
    let (length, rest) = u8_in(end, bytes)?;
    let length = usize::from(length);
    if rest.len() < length {
        return Err(Stop::Fault(place(end, bytes)));
    }
    Ok(rest.split_at(length))
}

/// A long string: a length of four bytes, and so many bytes.
#[tactic(auto, unfolding(crate::specs::Reading::text_in))]
pub fn long_in(end: usize, bytes: &[u8]) -> Result<(&[u8], &[u8]), Stop<usize>>
    ensures { Gives (λ x. (x.0.now, x.1.now)) result (text_in offset w32 end bytes.now) }
{
    let (length, rest) = u32_in(end, bytes)?;
    let length = length as usize;
    if rest.len() < length {
        return Err(Stop::Fault(place(end, bytes)));
    }
    Ok(rest.split_at(length))
}
