//! What a message of AMQP 1.0 says in AMQP 0-9-1, row by row: the first row at fault ends the
//! reading.

ghost use Rattle.std.specs.Prelude.{◌≡◌, option_map};
ghost use Rattle.wire_base.specs.Reading.{Gives};
ghost use Rattle.types_10.specs.View.{value_tree};
ghost use Rattle.property_map.specs.Texts.{maybe_in};
ghost use Rattle.property_map.specs.Rows091.{short_string_in, short_under, exchange_row, key_row};
ghost use Rattle.property_map.specs.Rows091.{id_in, expiration_row, timestamp_row, mode_of};
ghost use Rattle.property_map.specs.Rows091.{body_row, body_in};

use crate::annotations::{EXCHANGE, annotation};
use crate::fault::{MapFault, PropName};
use crate::fields::{decimal_text, uuid_text};
use crate::texts::{seconds_of, short_of};
use sections_10::Body10;
use std::alloc::Global;
use types_10::Value10;
use wire_base::{ByteText, Stop};

/// The longest body of a content.
const BODY_MAX: usize = 16_777_216;

// ---- annotations

/// A value that is a short string.
fn short_string(alloc: Global, name: PropName, value: &Value10) -> Result<ByteText, Stop<MapFault>>
    ensures { Gives (λ s. s) result (short_string_in name (value_tree value.now)) }
{
    match value {
        Value10::String(text) => short_of(alloc, name, text.as_slice()),
        _ => Err(Stop::Fault(MapFault::ValueKind(name))),
    }
}

/// An annotation that is a short string, where it is there.
pub(crate) fn short_annotation(
    alloc: Global,
    name: PropName,
    key: &[u8],
    annotations: &Option<Value10>,
) -> Result<Option<ByteText>, Stop<MapFault>>
    ensures { Gives (λ s. s) result
        (short_under name key.now (option_map value_tree annotations.now)) }
{
    match annotation(annotations, key) {
        Some(value) => Ok(Some(short_string(alloc, name, value)?)),
        None => Ok(None),
    }
}

/// The exchange.
pub(crate) fn exchange_of(
    alloc: Global,
    annotations: &Option<Value10>,
) -> Result<ByteText, Stop<MapFault>>
    ensures { Gives (λ s. s) result (exchange_row (option_map value_tree annotations.now)) }
{
    match short_annotation(alloc, PropName::Exchange, EXCHANGE, annotations)? {
        Some(exchange) => Ok(exchange),
        None => Ok(ByteText::empty(alloc)),
    }
}

/// The routing key.
pub(crate) fn key_of(
    alloc: Global,
    subject: &Option<ByteText>,
    queue: &[u8],
) -> Result<ByteText, Stop<MapFault>>
    ensures { Gives (λ s. s) result (key_row subject.now queue.now) }
{
    match subject {
        Some(subject) => short_of(alloc, PropName::RoutingKey, subject.as_slice()),
        None => short_of(alloc, PropName::RoutingKey, queue),
    }
}

// ---- ids, numbers and times

/// The text of an id.
fn id_text(alloc: Global, name: PropName, id: &Value10) -> Result<ByteText, Stop<MapFault>>
    ensures { Gives (λ s. s) result (id_in name (value_tree id.now)) }
{
    match id {
        Value10::String(text) | Value10::Binary(text) => short_of(alloc, name, text.as_slice()),
        Value10::Ulong(n) => Ok(decimal_text(alloc, *n)?),
        Value10::Uuid(bytes) => Ok(uuid_text(alloc, bytes)?),
        _ => Err(Stop::Fault(MapFault::ValueKind(name))),
    }
}

/// The text of an id that may be there.
pub(crate) fn maybe_id(
    alloc: Global,
    name: PropName,
    id: &Option<Value10>,
) -> Result<Option<ByteText>, Stop<MapFault>>
    ensures { Gives (λ s. s) result (maybe_in (id_in name) (option_map value_tree id.now)) }
{
    match id {
        Some(id) => Ok(Some(id_text(alloc, name, id)?)),
        None => Ok(None),
    }
}

/// Whether a message is durable, as a delivery mode.
pub(crate) fn mode_of(durable: Option<bool>) -> Option<u8>
    ensures { result ≡ option_map mode_of durable }
{
    match durable {
        Some(false) => Some(1),
        Some(true) => Some(2),
        None => None,
    }
}

/// An expiration.
pub(crate) fn expiration_of(
    alloc: Global,
    ttl: Option<u32>,
) -> Result<Option<ByteText>, Stop<MapFault>>
    ensures { Gives (λ s. s) result (expiration_row ttl) }
{
    match ttl {
        Some(ttl) => Ok(Some(decimal_text(alloc, u64::from(ttl))?)),
        None => Ok(None),
    }
}

/// A time that may be there, in seconds.
pub(crate) fn timestamp_of(creation: Option<i64>) -> Result<Option<u64>, Stop<MapFault>>
    ensures { Gives (λ n. n) result (timestamp_row creation) }
{
    match creation {
        Some(creation) => Ok(Some(seconds_of(PropName::Timestamp, creation)?)),
        None => Ok(None),
    }
}

// ---- the body

/// Bytes that become a body: they are moved, and not copied.
fn body_within(bytes: ByteText) -> Result<ByteText, Stop<MapFault>>
    ensures { Gives (λ s. s) result (body_in bytes) }
{
    if bytes.as_slice().len() > BODY_MAX {
        return Err(Stop::Fault(MapFault::TooLong(PropName::Body)));
    }
    Ok(bytes)
}

/// The body.
pub(crate) fn body_of(body: Body10) -> Result<ByteText, Stop<MapFault>>
    ensures { Gives (λ s. s) result (body_row body) }
{
    match body {
        Body10::Data(bytes) | Body10::Text(bytes) | Body10::Binary(bytes) => body_within(bytes),
        Body10::Other => Err(Stop::Fault(MapFault::BodyKind)),
    }
}
