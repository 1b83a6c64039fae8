//! What a message of AMQP 0-9-1 says in AMQP 1.0, row by row: the first row at fault ends the
//! reading.

ghost use Rattle.std.specs.Prelude.{◌≡◌};
ghost use Rattle.std.specs.Char.{is_ascii_digit};
ghost use Rattle.std.specs.List.{list_all};
ghost use Rattle.wire_base.specs.Reading.{Gives};
ghost use Rattle.property_map.specs.Rows.{exchange_row, key_row, is_decimal, decimal_in, ttl_in};
ghost use Rattle.property_map.specs.Rows.{expiration_row, durable_in, delivery_mode_row};
ghost use Rattle.property_map.specs.Rows.{timestamp_row};
ghost use Rattle.property_map.specs.Said.{earlier_in, middle_in, later_in};

use crate::fault::{MapFault, PropName};
use crate::headers::{HeaderMaps, headers_of};
use crate::message::Message091;
use crate::texts::{maybe_copy, maybe_string, maybe_symbol, milliseconds_of, string_of};
use content_091::Props;
use std::alloc::Global;
use wire_base::{ByteText, Stop};

/// The first five rows.
#[derive(Drop)]
pub(crate) struct Earlier {
    pub(crate) exchange: Option<ByteText>,
    pub(crate) subject: Option<ByteText>,
    pub(crate) content_type: Option<ByteText>,
    pub(crate) content_encoding: Option<ByteText>,
    pub(crate) headers: Option<HeaderMaps>,
}

/// The six rows behind them.
#[derive(Drop)]
pub(crate) struct Middle {
    pub(crate) durable: Option<bool>,
    pub(crate) priority: Option<u8>,
    pub(crate) correlation_id: Option<ByteText>,
    pub(crate) reply_to: Option<ByteText>,
    pub(crate) ttl: Option<u32>,
    pub(crate) message_id: Option<ByteText>,
}

/// The last five rows before the body.
#[derive(Drop)]
pub(crate) struct Later {
    pub(crate) creation_time: Option<i64>,
    pub(crate) kind: Option<ByteText>,
    pub(crate) user_id: Option<ByteText>,
    pub(crate) app_id: Option<ByteText>,
    pub(crate) cluster_id: Option<ByteText>,
}

/// The exchange, where it has a name.
fn exchange_of(alloc: Global, exchange: &ByteText) -> Result<Option<ByteText>, Stop<MapFault>>
    ensures { Gives (λ s. s) result (exchange_row exchange.now) }
{
    if exchange.as_slice().is_empty() {
        return Ok(None);
    }
    Ok(Some(string_of(alloc, PropName::Exchange, exchange)?))
}

/// The first five rows.
pub(crate) fn earlier_of(alloc: Global, m: &Message091) -> Result<Earlier, Stop<MapFault>>
    ensures { Gives (λ e. e) result (earlier_in m.now) }
{
    Ok(Earlier {
        exchange: exchange_of(alloc, &m.exchange)?,
        subject: Some(string_of(alloc, PropName::RoutingKey, &m.key)?),
        content_type: maybe_symbol(alloc, PropName::ContentType, &m.props.content_type)?,
        content_encoding: maybe_symbol(
            alloc,
            PropName::ContentEncoding,
            &m.props.content_encoding,
        )?,
        headers: headers_of(alloc, &m.props.headers)?,
    })
}

/// The delivery mode as whether a message is durable.
fn durable_of(mode: Option<u8>) -> Result<Option<bool>, Stop<MapFault>>
    ensures { Gives (λ b. b) result (delivery_mode_row mode) }
{
    let Some(mode) = mode else {
        return Ok(None);
    };
    match mode {
        1 => Ok(Some(false)),
        2 => Ok(Some(true)),
        _ => Err(Stop::Fault(MapFault::DeliveryMode)),
    }
}

fn all_digits(text: &[u8]) -> bool
    ensures { result ≡ list_all is_ascii_digit text.now }
{
    text.iter().all(|byte| byte.is_ascii_digit())
}

/// Whether a text is a decimal number without needless zeros.
fn is_decimal(text: &[u8]) -> bool
    ensures { result ≡ is_decimal text.now }
{
    if text.is_empty() || (text.len() > 1 && text[0] == b'0') {
        return false;
    }
    all_digits(text)
}

/// The number of 64 bits that a text is in decimal digits, without needless zeros.
pub fn decimal_of(text: &[u8]) -> Option<u64>
    ensures { result ≡ decimal_in text.now }
{
    if !is_decimal(text) {
        return None;
    }
    let Ok(text) = std::str::from_utf8(text) else {
        return None;
    };
    match text.parse::<u64>() {
        Ok(number) => Some(number),
        Err(_) => None,
    }
}

/// The milliseconds of an expiration.
fn ttl_of(text: &[u8]) -> Result<u32, Stop<MapFault>>
    ensures { Gives (λ n. n) result (ttl_in text.now) }
{
    let Some(number) = decimal_of(text) else {
        return Err(Stop::Fault(MapFault::Expiration));
    };
    match u32::try_from(number) {
        Ok(ttl) => Ok(ttl),
        Err(_) => Err(Stop::Fault(MapFault::Expiration)),
    }
}

/// The milliseconds of an expiration that may be there.
fn maybe_ttl(expiration: &Option<ByteText>) -> Result<Option<u32>, Stop<MapFault>>
    ensures { Gives (λ n. n) result (expiration_row expiration.now) }
{
    match expiration {
        Some(text) => Ok(Some(ttl_of(text.as_slice())?)),
        None => Ok(None),
    }
}

/// The six rows behind the first five.
pub(crate) fn middle_of(alloc: Global, p: &Props) -> Result<Middle, Stop<MapFault>>
    ensures { Gives (λ e. e) result (middle_in p.now) }
{
    Ok(Middle {
        durable: durable_of(p.delivery_mode)?,
        priority: p.priority,
        correlation_id: maybe_string(alloc, PropName::CorrelationId, &p.correlation_id)?,
        reply_to: maybe_string(alloc, PropName::ReplyTo, &p.reply_to)?,
        ttl: maybe_ttl(&p.expiration)?,
        message_id: maybe_string(alloc, PropName::MessageId, &p.message_id)?,
    })
}

/// A time that may be there, in milliseconds.
fn creation_of(seconds: Option<u64>) -> Result<Option<i64>, Stop<MapFault>>
    ensures { Gives (λ z. z) result (timestamp_row seconds) }
{
    match seconds {
        Some(seconds) => Ok(Some(milliseconds_of(PropName::Timestamp, seconds)?)),
        None => Ok(None),
    }
}

/// The last five rows before the body.
pub(crate) fn later_of(alloc: Global, p: &Props) -> Result<Later, Stop<MapFault>>
    ensures { Gives (λ e. e) result (later_in p.now) }
{
    Ok(Later {
        creation_time: creation_of(p.timestamp)?,
        kind: maybe_string(alloc, PropName::Kind, &p.kind)?,
        user_id: maybe_copy(alloc, &p.user_id)?,
        app_id: maybe_string(alloc, PropName::AppId, &p.app_id)?,
        cluster_id: maybe_string(alloc, PropName::ClusterId, &p.cluster_id)?,
    })
}
