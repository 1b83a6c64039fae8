//! Arguments of methods (AMQP 0-9-1 4.2.5).

ghost use Rattle.std.specs.Prelude.{◌≡◌, ℕ, ◌<◌, ◌≤◌, ◌^◌, List, [], ◌∷◌, ◌++◌, length, take, OnOk};
ghost use Rattle.std.specs.Prelude.{OnErr};
ghost use Rattle.std.specs.Int.{w8, w32, w64, to_be_bytes};
ghost use Rattle.wire_base.specs.Spelling.{text_of};
ghost use Rattle.wire_base.specs.Reading.{Gives, offset, text_in};
ghost use Rattle.methods_091.specs.Grammar.{bit_at};
ghost use Rattle.methods_091.specs.Writing.{octet_of};

use std::alloc::Global;
use wire_base::{ByteText, Memory, Stop, long_in, put_u8, put_u32, put_u64, short_in};

/// Whether a bit of an octet is set; the lowest has the place 0.
pub(crate) fn bit(octet: u8, place: u8) -> bool
    requires { place < 8 }
    ensures { result ≡ bit_at place octet }
{
    (octet >> place) % 2 == 1
}

/// A copy of a short string.
pub(crate) fn shortstr_in(
    alloc: Global,
    end: usize,
    bytes: &[u8],
) -> Result<(ByteText, &[u8]), Stop<usize>>
    ensures { Gives (λ x. (x.0, x.1.now)) result (text_in offset w8 end bytes.now) }
{
    let (text, rest) = short_in(end, bytes)?;
    Ok((ByteText::copy_of(alloc, text)?, rest))
}

/// A copy of a long string.
pub(crate) fn longstr_in(
    alloc: Global,
    end: usize,
    bytes: &[u8],
) -> Result<(ByteText, &[u8]), Stop<usize>>
    ensures { Gives (λ x. (x.0, x.1.now)) result (text_in offset w32 end bytes.now) }
{
    let (text, rest) = long_in(end, bytes)?;
    Ok((ByteText::copy_of(alloc, text)?, rest))
}

/// The octet with this flag in the lowest bit.
#[tactic(auto, unfolding(crate::specs::Writing::octet_of))]
pub(crate) fn octet_of_1(first: bool) -> u8
    ensures value { result ≡ octet_of (first ∷ []) }
    ensures range { result < 2 }
{
    u8::from(first)
}

/// The octet with these flags, the first in the lowest bit.
#[tactic(auto, unfolding(crate::specs::Writing::octet_of))]
pub(crate) fn octet_of_2(first: bool, second: bool) -> u8
    ensures value { result ≡ octet_of (first ∷ second ∷ []) }
    ensures range { result < 4 }
{
    u8::from(first) + 2 * octet_of_1(second)
}

/// The octet with these flags, the first in the lowest bit.
#[tactic(auto, unfolding(crate::specs::Writing::octet_of))]
pub(crate) fn octet_of_3(first: bool, second: bool, third: bool) -> u8
    ensures value { result ≡ octet_of (first ∷ second ∷ third ∷ []) }
    ensures range { result < 8 }
{
    u8::from(first) + 2 * octet_of_2(second, third)
}

/// The octet with these flags, the first in the lowest bit.
#[tactic(auto, unfolding(crate::specs::Writing::octet_of))]
pub(crate) fn octet_of_4(first: bool, second: bool, third: bool, fourth: bool) -> u8
    ensures value { result ≡ octet_of (first ∷ second ∷ third ∷ fourth ∷ []) }
    ensures range { result < 16 }
{
    u8::from(first) + 2 * octet_of_3(second, third, fourth)
}

/// The octet with these flags, the first in the lowest bit.
#[tactic(auto, unfolding(crate::specs::Writing::octet_of))]
pub(crate) fn octet_of_5(first: bool, second: bool, third: bool, fourth: bool, fifth: bool) -> u8
    ensures value { result ≡ octet_of (first ∷ second ∷ third ∷ fourth ∷ fifth ∷ []) }
    ensures range { result < 32 }
{
    u8::from(first) + 2 * octet_of_4(second, third, fourth, fifth)
}

/// A short string of at most 255 bytes.
pub(crate) fn put_shortstr(out: &mut ByteText, text: &ByteText) -> Result<(), Memory>
    requires { length text.now ≤ 255 }
    ensures ok { OnOk result (out.new ≡ out.old ++ text_of w8 text.now) }
    ensures err { OnErr result (take (length out.old) out.new ≡ out.old) }
{
    let text = text.as_slice();
    put_u8(out, text.len() as u8)?;
    out.append(text)
}

/// A long string of fewer than 2^32 bytes.
pub(crate) fn put_longstr(out: &mut ByteText, text: &ByteText) -> Result<(), Memory>
    requires { length text.now < 2 ^ 32 }
    ensures ok { OnOk result (out.new ≡ out.old ++ text_of w32 text.now) }
    ensures err { OnErr result (take (length out.old) out.new ≡ out.old) }
{
    let text = text.as_slice();
    put_u32(out, text.len() as u32)?;
    out.append(text)
}

/// Two long strings, each of fewer than 2^32 bytes.
pub(crate) fn put_longstrs(
    out: &mut ByteText,
    first: &ByteText,
    second: &ByteText,
) -> Result<(), Memory>
    requires first { length first.now < 2 ^ 32 }
    requires second { length second.now < 2 ^ 32 }
    ensures ok { OnOk result (out.new ≡ out.old ++ (text_of w32 first.now ++ text_of w32 second.now)) }
    ensures err { OnErr result (take (length out.old) out.new ≡ out.old) }
{
    put_longstr(out, first)?;
    put_longstr(out, second)
}

/// A version: two octets.
pub(crate) fn put_version(out: &mut ByteText, major: u8, minor: u8) -> Result<(), Memory>
    ensures ok { OnOk result (out.new ≡ out.old ++ (to_be_bytes w8 major ++ to_be_bytes w8 minor)) }
    ensures err { OnErr result (take (length out.old) out.new ≡ out.old) }
{
    put_u8(out, major)?;
    put_u8(out, minor)
}

/// A delivery tag and flags.
pub(crate) fn put_tag(out: &mut ByteText, delivery_tag: u64, flags: u8) -> Result<(), Memory>
    ensures ok { OnOk result (out.new ≡ out.old
        ++ (to_be_bytes w64 delivery_tag ++ to_be_bytes w8 flags)) }
    ensures err { OnErr result (take (length out.old) out.new ≡ out.old) }
{
    put_u64(out, delivery_tag)?;
    put_u8(out, flags)
}
