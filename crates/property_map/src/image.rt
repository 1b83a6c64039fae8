//! The image of a message of AMQP 0-9-1 in AMQP 1.0.

ghost use Rattle.std.specs.Prelude.{◌≡◌, ◌++◌, ◌∷◌, [], IfOk, IfErr, OnOk, option_map};
ghost use Rattle.types_10.specs.View.{value_tree};
ghost use Rattle.property_map.specs.Image.{a_string, header_with, annotation, nested_map, map_of};
ghost use Rattle.property_map.specs.Image.{annotations_with, application_of, IsImage10, IsFault10};
ghost use Rattle.property_map.specs.Said.{IsMessageOf, IsStop10};

use crate::annotations::{APP_ID, CLUSTER_ID, EXCHANGE, HEADERS, KIND};
use crate::fault::MapFault;
use crate::headers::HeaderMaps;
use crate::message::Message091;
use crate::rows::{Earlier, Later, Middle, earlier_of, later_of, middle_of};
use sections_10::{Body10, Message10, MsgHeader, MsgProps};
use std::alloc::Global;
use types_10::{PairList, Value10};
use wire_base::{ByteText, Memory, Stop};

/// The header, where one of its fields is there.
fn header_of(durable: Option<bool>, priority: Option<u8>, ttl: Option<u32>) -> Option<MsgHeader>
    ensures { result ≡ header_with durable priority ttl }
{
    if durable.is_none() && priority.is_none() && ttl.is_none() {
        return None;
    }
    Some(MsgHeader {
        durable,
        priority,
        ttl,
        first_acquirer: false,
        delivery_count: 0,
    })
}

// ---- annotations

/// Adds an annotation of this name, where there is something to say.
fn add(
    alloc: Global,
    annotations: &mut PairList,
    key: &[u8],
    value: Option<Value10>,
) -> Result<(), Memory>
    ensures { OnOk result
        (annotations.new ≡ annotations.old ++ annotation key.now (option_map value_tree value)) }
{
    let Some(value) = value else {
        return Ok(());
    };
    let key = Value10::Symbol(ByteText::copy_of(alloc, key)?);
    annotations.push((key, value))
}

/// A text that may be there, as a string.
fn string_value(text: Option<ByteText>) -> Option<Value10>
    ensures { option_map value_tree result ≡ option_map a_string text }
{
    match text {
        Some(text) => Some(Value10::String(text)),
        None => None,
    }
}

/// A map, where it isn't empty.
fn map_of(pairs: PairList) -> Option<Value10>
    ensures { option_map value_tree result ≡ map_of pairs }
{
    if pairs.len() == 0 {
        return None;
    }
    Some(Value10::Map(pairs))
}

/// The annotations, where there are some.
fn annotations_of(
    alloc: Global,
    exchange: Option<ByteText>,
    kind: Option<ByteText>,
    app_id: Option<ByteText>,
    cluster_id: Option<ByteText>,
    headers: Option<Value10>,
) -> Result<Option<Value10>, Memory>
    ensures { IfOk result (λ annotations. option_map value_tree annotations
        ≡ map_of
        (annotations_with exchange kind app_id cluster_id (option_map value_tree headers))) }
{
    let mut annotations = PairList::empty(alloc);
    add(alloc, &mut annotations, EXCHANGE, string_value(exchange))?;
    add(alloc, &mut annotations, KIND, string_value(kind))?;
    add(alloc, &mut annotations, APP_ID, string_value(app_id))?;
    add(
        alloc,
        &mut annotations,
        CLUSTER_ID,
        string_value(cluster_id),
    )?;
    add(alloc, &mut annotations, HEADERS, headers)?;
    Ok(map_of(annotations))
}

/// The properties of the application, and the headers that hold others.
fn places_of(headers: Option<HeaderMaps>) -> (Option<Value10>, Option<Value10>)
    ensures application { option_map value_tree result.0 ≡ application_of headers }
    ensures annotation { option_map value_tree result.1 ≡ nested_map headers }
{
    let Some(maps) = headers else {
        return (None, None);
    };
    let HeaderMaps {
        application,
        annotation,
    } = maps;
    if application.len() == 0 && annotation.len() > 0 {
        return (None, map_of(annotation));
    }
    (Some(Value10::Map(application)), map_of(annotation))
}

// ---- the message

/// The message of these rows.
fn message_of(
    alloc: Global,
    earlier: Earlier,
    middle: Middle,
    later: Later,
    body: ByteText,
) -> Result<Message10, Memory>
    ensures { IfOk result (IsMessageOf earlier middle later body) }
{
    let (application, nested) = places_of(earlier.headers);
    let annotations = annotations_of(
        alloc,
        earlier.exchange,
        later.kind,
        later.app_id,
        later.cluster_id,
        nested,
    )?;
    let properties = MsgProps {
        message_id: string_value(middle.message_id),
        user_id: later.user_id,
        to: None,
        subject: earlier.subject,
        reply_to: middle.reply_to,
        correlation_id: string_value(middle.correlation_id),
        content_type: earlier.content_type,
        content_encoding: earlier.content_encoding,
        absolute_expiry_time: None,
        creation_time: later.creation_time,
        group_id: None,
        group_sequence: None,
        reply_to_group_id: None,
    };
    Ok(Message10 {
        header: header_of(middle.durable, middle.priority, middle.ttl),
        annotations,
        properties: Some(properties),
        application,
        body: Body10::Data(body),
    })
}

/// The image of a message, or its first fault.
fn image_of(alloc: Global, m: &Message091) -> Result<Message10, Stop<MapFault>>
    ensures image { IfOk result (IsImage10 m.now) }
    ensures fault { IfErr result (IsStop10 m.now) }
{
    let earlier = earlier_of(alloc, m)?;
    let middle = middle_of(alloc, &m.props)?;
    let later = later_of(alloc, &m.props)?;
    let body = m.body.copy(alloc)?;
    Ok(message_of(alloc, earlier, middle, later, body)?)
}

/// The image of a message in AMQP 1.0.
///
/// # Errors
///
/// The first fault, in the order of the properties: first the exchange and the routing key, then
/// the properties as they stand in a content header. `NotUtf8`, `NotAscii`: of a text. `Reserved`,
/// `Repeated`: of the name of a header. `ValueKind`: a header or a field inside is a decimal.
/// `Depth`: the headers are 16 deep, and are told so only where each is right. `DeliveryMode`: it
/// is neither 1 nor 2. `Expiration`: it is no decimal number below 2^32, or has needless zeros.
/// `Time`: a time whose milliseconds don't fit 63 bits.
///
/// `Memory` where the allocator has no room.
pub fn to_10(alloc: Global, m: &Message091) -> Result<Message10, MapFault>
    // The image, by the rows of the table.
    ensures image { IfOk result (IsImage10 m.now) }
    // Else the first row at fault.
    ensures fault { IfErr result (IsFault10 m.now) }
{
    match image_of(alloc, m) {
        Ok(image) => Ok(image),
        Err(Stop::Memory) => Err(MapFault::Memory),
        Err(Stop::Fault(fault)) => Err(fault),
    }
}
