//! The image of a message of AMQP 1.0 in AMQP 0-9-1.

ghost use Rattle.std.specs.Prelude.{◌≡◌, None, IfOk, IfErr, Ok};
ghost use Rattle.wire_base.specs.Reading.{Gives, Stops};
ghost use Rattle.property_map.specs.Rows091.{header_in, properties_in, body_row};
ghost use Rattle.property_map.specs.Facts.{facts_of};
ghost use Rattle.property_map.specs.Image091.{earlier_in, later_in, both_of, props_in, with_body};
ghost use Rattle.property_map.specs.Image091.{AreOfMessage, image_in, IsFault091, is_redelivered};

use crate::annotations::{APP_ID, CLUSTER_ID, KIND};
use crate::fault::{MapFault, PropName};
use crate::headers_091::headers_of;
use crate::message::Message091;
use crate::room::fitting;
use crate::rows_091::{
    body_of, exchange_of, expiration_of, key_of, maybe_id, mode_of, short_annotation, timestamp_of,
};
use crate::texts::maybe_short;
use content_091::Props;
use sections_10::{Body10, Message10, MsgHeader, MsgProps};
use std::alloc::Global;
use wire_base::{ByteText, Stop};

/// A message, with its header and its properties or what stands for them where they aren't there.
#[derive(Drop)]
struct Sections<'a> {
    message: &'a Message10,
    header: &'a MsgHeader,
    properties: &'a MsgProps,
}

// ---- sections that aren't there

fn no_header() -> MsgHeader
    ensures { result ≡ header_in None }
{
    MsgHeader {
        durable: None,
        priority: None,
        ttl: None,
        first_acquirer: false,
        delivery_count: 0,
    }
}

fn no_properties() -> MsgProps
    ensures { result ≡ properties_in None }
{
    MsgProps {
        message_id: None,
        user_id: None,
        to: None,
        subject: None,
        reply_to: None,
        correlation_id: None,
        content_type: None,
        content_encoding: None,
        absolute_expiry_time: None,
        creation_time: None,
        group_id: None,
        group_sequence: None,
        reply_to_group_id: None,
    }
}

fn header_or<'a>(header: &'a Option<MsgHeader>, absent: &'a MsgHeader) -> &'a MsgHeader
    requires { absent.now ≡ header_in None }
    ensures { result.now ≡ header_in header.now }
{
    match header {
        Some(header) => header,
        None => absent,
    }
}

fn properties_or<'a>(properties: &'a Option<MsgProps>, absent: &'a MsgProps) -> &'a MsgProps
    requires { absent.now ≡ properties_in None }
    ensures { result.now ≡ properties_in properties.now }
{
    match properties {
        Some(properties) => properties,
        None => absent,
    }
}

// ---- properties

/// The properties up to reply-to.
#[tactic(auto, unfolding(crate::specs::Image091::earlier_in))]
fn earlier_of(alloc: Global, s: &Sections) -> Result<Props, Stop<MapFault>>
    requires { AreOfMessage s.now }
    ensures { Gives (λ p. p) result (earlier_in (facts_of s.now.message.now)) }
{
    Ok(Props {
        content_type: maybe_short(alloc, PropName::ContentType, &s.properties.content_type)?,
        content_encoding: maybe_short(
            alloc,
            PropName::ContentEncoding,
            &s.properties.content_encoding,
        )?,
        headers: headers_of(alloc, &s.message.application, &s.message.annotations)?,
        delivery_mode: mode_of(s.header.durable),
        priority: s.header.priority,
        correlation_id: maybe_id(alloc, PropName::CorrelationId, &s.properties.correlation_id)?,
        reply_to: maybe_short(alloc, PropName::ReplyTo, &s.properties.reply_to)?,
        expiration: None,
        message_id: None,
        timestamp: None,
        kind: None,
        user_id: None,
        app_id: None,
        cluster_id: None,
    })
}

/// The properties from expiration on.
#[tactic(auto, unfolding(crate::specs::Image091::later_in))]
fn later_of(alloc: Global, s: &Sections) -> Result<Props, Stop<MapFault>>
    requires { AreOfMessage s.now }
    ensures { Gives (λ p. p) result (later_in (facts_of s.now.message.now)) }
{
    Ok(Props {
        content_type: None,
        content_encoding: None,
        headers: None,
        delivery_mode: None,
        priority: None,
        correlation_id: None,
        reply_to: None,
        expiration: expiration_of(alloc, s.header.ttl)?,
        message_id: maybe_id(alloc, PropName::MessageId, &s.properties.message_id)?,
        timestamp: timestamp_of(s.properties.creation_time)?,
        kind: short_annotation(alloc, PropName::Kind, KIND, &s.message.annotations)?,
        user_id: maybe_short(alloc, PropName::UserId, &s.properties.user_id)?,
        app_id: short_annotation(alloc, PropName::AppId, APP_ID, &s.message.annotations)?,
        cluster_id: short_annotation(
            alloc,
            PropName::ClusterId,
            CLUSTER_ID,
            &s.message.annotations,
        )?,
    })
}

/// The properties up to reply-to of one, and from expiration on of the other.
fn both_of(p: Props, q: Props) -> Props
    ensures { result ≡ both_of p q }
{
    Props {
        expiration: q.expiration,
        message_id: q.message_id,
        timestamp: q.timestamp,
        kind: q.kind,
        user_id: q.user_id,
        app_id: q.app_id,
        cluster_id: q.cluster_id,
        ..p
    }
}

/// All properties.
fn props_of(alloc: Global, s: &Sections) -> Result<Props, Stop<MapFault>>
    requires { AreOfMessage s.now }
    ensures { Gives (λ p. p) result (props_in (facts_of s.now.message.now)) }
{
    let earlier = earlier_of(alloc, s)?;
    match later_of(alloc, s) {
        Ok(later) => Ok(both_of(earlier, later)),
        Err(stop) => Err(stop),
    }
}

// ---- the message

/// A message but for its body.
#[derive(Drop)]
struct Bodiless {
    exchange: ByteText,
    key: ByteText,
    props: Props,
}

/// The image of a message but for its body, or its first fault before the body.
#[tactic(auto, unfolding(crate::specs::Image091::image_by))]
fn bodiless_with(
    alloc: Global,
    s: &Sections,
    queue: &[u8],
    room: u32,
) -> Result<Bodiless, Stop<MapFault>>
    requires { AreOfMessage s.now }
    ensures rest { IfOk result (λ rest. image_in queue.now room s.now.message.now
        ≡ with_body rest.exchange rest.key rest.props (body_row s.now.message.now.body)) }
    ensures fault { IfErr result (λ stop. Stops stop (image_in queue.now room s.now.message.now)) }
{
    let exchange = exchange_of(alloc, &s.message.annotations)?;
    let key = key_of(alloc, &s.properties.subject, queue)?;
    let all = props_of(alloc, s)?;
    let props = fitting(room, all)?;
    Ok(Bodiless {
        exchange,
        key,
        props,
    })
}

/// The same of a message as it came.
fn bodiless_of(
    alloc: Global,
    m: &Message10,
    queue: &[u8],
    room: u32,
) -> Result<Bodiless, Stop<MapFault>>
    ensures rest { IfOk result (λ rest. image_in queue.now room m.now
        ≡ with_body rest.exchange rest.key rest.props (body_row m.now.body)) }
    ensures fault { IfErr result (λ stop. Stops stop (image_in queue.now room m.now)) }
{
    let absent_header = no_header();
    let absent_properties = no_properties();
    let sections = Sections {
        message: m,
        header: header_or(&m.header, &absent_header),
        properties: properties_or(&m.properties, &absent_properties),
    };
    bodiless_with(alloc, &sections, queue, room)
}

/// The same with the body of another message, which is moved.
fn with_body(rest: Bodiless, body: Body10) -> Result<Message091, Stop<MapFault>>
    ensures { Gives (λ m. m) result
        (with_body rest.exchange rest.key rest.props (body_row body)) }
{
    match body_of(body) {
        Ok(body) => Ok(Message091 {
            exchange: rest.exchange,
            key: rest.key,
            props: rest.props,
            body,
        }),
        Err(stop) => Err(stop),
    }
}

/// The image of a message, or its first fault.
pub(crate) fn image_of(
    alloc: Global,
    m: Message10,
    queue: &[u8],
    room: u32,
) -> Result<Message091, Stop<MapFault>>
    ensures { Gives (λ m. m) result (image_in queue.now room m) }
{
    match bodiless_of(alloc, &m, queue, room) {
        Ok(rest) => with_body(rest, m.body),
        Err(stop) => Err(stop),
    }
}

/// The image of a message in AMQP 0-9-1, as it comes from this queue. `room` is the longest payload
/// of a content header. The body is moved, and not copied.
///
/// # Errors
///
/// The first fault, in the order of the properties: first the exchange and the routing key, then
/// the properties as they stand in a content header, then the header as a whole and the body.
/// `TooLong`: a text or a name of more than 255 bytes, a header that is longer than `room`, or a
/// body of more than 16,777,216 bytes. `ValueKind`: a value that AMQP 0-9-1 has no type for, a key
/// that is neither a string nor a symbol, or an annotation or an id of another type. `Repeated`:
/// two entries of a table have this name. `Time`: a time before 1970. `BodyKind`: a body that is
/// neither bytes nor one text.
///
/// `Memory` where the allocator has no room.
pub fn to_091(alloc: Global, m: Message10, queue: &[u8], room: u32) -> Result<Message091, MapFault>
    // The image, by the rows of the table.
    ensures image { IfOk result (λ image. image_in queue.now room m ≡ Ok image) }
    // Else the first row at fault.
    ensures fault { IfErr result (IsFault091 queue.now room m) }
{
    match image_of(alloc, m, queue, room) {
        Ok(image) => Ok(image),
        Err(Stop::Memory) => Err(MapFault::Memory),
        Err(Stop::Fault(fault)) => Err(fault),
    }
}

/// Whether a message was delivered before.
pub fn redelivered(m: &Message10) -> bool
    ensures { result ≡ is_redelivered m.now }
{
    match &m.header {
        Some(header) => header.delivery_count > 0,
        None => false,
    }
}
