//! Texts and times of one protocol in the other.

ghost use Rattle.std.specs.Prelude.{◌≡◌};
ghost use Rattle.std.specs.Char.{is_ascii};
ghost use Rattle.std.specs.List.{list_all};
ghost use Rattle.std.specs.Str.{is_utf8};
ghost use Rattle.wire_base.specs.Reading.{Gives};
ghost use Rattle.property_map.specs.Texts.{string_in, symbol_in, milliseconds_in, short_in};
ghost use Rattle.property_map.specs.Texts.{seconds_in, maybe_in, is_reserved};

use crate::fault::{MapFault, PropName};
use std::alloc::Global;
use wire_base::{ByteText, Stop};

/// The last second that has a number of milliseconds below 2^63.
const LAST_SECOND: u64 = 9_223_372_036_854_775;

/// The most bytes of a short string.
const SHORT_MAX: usize = 255;

/// How the names begin that stand for what has no other place in AMQP 1.0.
const RESERVED: &[u8] = b"x-opt-091-";

fn is_utf8(text: &[u8]) -> bool
    ensures { result ≡ is_utf8 text.now }
{
    match std::str::from_utf8(text) {
        Ok(_) => true,
        Err(_) => false,
    }
}

fn is_ascii(text: &[u8]) -> bool
    ensures { result ≡ list_all is_ascii text.now }
{
    text.iter().all(|byte| byte.is_ascii())
}

/// Whether a name stands for what has no other place in AMQP 1.0.
pub(crate) fn is_reserved(name: &[u8]) -> bool
    ensures { result ≡ is_reserved name.now }
{
    name.starts_with(RESERVED)
}

/// A copy of a text that becomes a string.
pub(crate) fn string_of(
    alloc: Global,
    name: PropName,
    text: &ByteText,
) -> Result<ByteText, Stop<MapFault>>
    ensures { Gives (λ s. s) result (string_in name text.now) }
{
    if !is_utf8(text.as_slice()) {
        return Err(Stop::Fault(MapFault::NotUtf8(name)));
    }
    Ok(text.copy(alloc)?)
}

/// A copy of a text that becomes a symbol.
fn symbol_of(alloc: Global, name: PropName, text: &ByteText) -> Result<ByteText, Stop<MapFault>>
    ensures { Gives (λ s. s) result (symbol_in name text.now) }
{
    if !is_ascii(text.as_slice()) {
        return Err(Stop::Fault(MapFault::NotAscii(name)));
    }
    Ok(text.copy(alloc)?)
}

/// Seconds as milliseconds.
pub(crate) fn milliseconds_of(name: PropName, seconds: u64) -> Result<i64, Stop<MapFault>>
    ensures { Gives (λ z. z) result (milliseconds_in name seconds) }
{
    if seconds > LAST_SECOND {
        return Err(Stop::Fault(MapFault::Time(name)));
    }
    Ok(1000 * seconds as i64)
}

/// A copy of a text that becomes a short string.
pub(crate) fn short_of(
    alloc: Global,
    name: PropName,
    text: &[u8],
) -> Result<ByteText, Stop<MapFault>>
    ensures { Gives (λ s. s) result (short_in name text.now) }
{
    if text.len() > SHORT_MAX {
        return Err(Stop::Fault(MapFault::TooLong(name)));
    }
    Ok(ByteText::copy_of(alloc, text)?)
}

/// Milliseconds as seconds, rounded down.
pub(crate) fn seconds_of(name: PropName, milliseconds: i64) -> Result<u64, Stop<MapFault>>
    ensures { Gives (λ n. n) result (seconds_in name milliseconds) }
{
    match u64::try_from(milliseconds) {
        Ok(milliseconds) => Ok(milliseconds / 1000),
        Err(_) => Err(Stop::Fault(MapFault::Time(name))),
    }
}

/// A copy of a text that may be there, and becomes a string.
pub(crate) fn maybe_string(
    alloc: Global,
    name: PropName,
    text: &Option<ByteText>,
) -> Result<Option<ByteText>, Stop<MapFault>>
    ensures { Gives (λ s. s) result (maybe_in (string_in name) text.now) }
{
    match text {
        Some(text) => Ok(Some(string_of(alloc, name, text)?)),
        None => Ok(None),
    }
}

/// A copy of a text that may be there, and becomes a symbol.
pub(crate) fn maybe_symbol(
    alloc: Global,
    name: PropName,
    text: &Option<ByteText>,
) -> Result<Option<ByteText>, Stop<MapFault>>
    ensures { Gives (λ s. s) result (maybe_in (symbol_in name) text.now) }
{
    match text {
        Some(text) => Ok(Some(symbol_of(alloc, name, text)?)),
        None => Ok(None),
    }
}

/// A copy of a text that may be there, and becomes a short string.
pub(crate) fn maybe_short(
    alloc: Global,
    name: PropName,
    text: &Option<ByteText>,
) -> Result<Option<ByteText>, Stop<MapFault>>
    ensures { Gives (λ s. s) result (maybe_in (short_in name) text.now) }
{
    match text {
        Some(text) => Ok(Some(short_of(alloc, name, text.as_slice())?)),
        None => Ok(None),
    }
}

/// A copy of a text that may be there.
pub(crate) fn maybe_copy(
    alloc: Global,
    text: &Option<ByteText>,
) -> Result<Option<ByteText>, Stop<MapFault>>
    ensures { Gives (λ s. s) result (Ok text.now) }
{
    match text {
        Some(text) => Ok(Some(text.copy(alloc)?)),
        None => Ok(None),
    }
}
