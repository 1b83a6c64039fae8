//! Messages of AMQP 1.0, read for a client of AMQP 0-9-1.

ghost use Rattle.std.specs.Prelude.{◌≡◌, ◌<◌, ◌≤◌, ◌^◌, length, option_map, IfOk, IfSome};
ghost use Rattle.types_10.specs.Ranges.{IsRanged};
ghost use Rattle.types_10.specs.View.{value_tree};
ghost use Rattle.types_10.specs.Fields.{maybe};
ghost use Rattle.content_091.specs.Writing.{header_text, CanPut};
ghost use Rattle.sections_10.specs.View.{kept_of};
ghost use Rattle.sections_10.specs.Writing.{IfThere};
ghost use Rattle.property_map.specs.Rows091.{header_in, properties_in};
ghost use Rattle.property_map.specs.Facts.{facts_of, facts_in, id_in, AreTold, AreToldOf};
ghost use Rattle.property_map.specs.Facts.{AreRanged, AreShallow};
ghost use Rattle.property_map.specs.Received.{received_by, received_in, header_of, CanBeSent};

use crate::image_091::{image_of, redelivered};
use crate::message::Message091;
use sections_10::{Message10, MsgHeader, MsgProps, read_message};
use std::alloc::Global;
use types_10::{Value10, tell_ranges};
use wire_base::{Memory, Stop};

/// A message of AMQP 1.0 as a client of AMQP 0-9-1 gets it.
#[derive(Debug, Drop)]
pub struct Received {
    pub message: Message091,
    /// It was delivered before (AMQP 1.0 3.2.1).
    pub again: bool,
}

// ---- what bytes tell

/// An id as bytes tell it, which tell no null from what isn't there.
fn told_id(id: Option<Value10>) -> Option<Value10>
    ensures { option_map value_tree result ≡ id_in (maybe value_tree id) }
{
    match id {
        Some(Value10::Null) => None,
        id => id,
    }
}

/// Properties with such ids.
fn told_properties(p: MsgProps) -> MsgProps
    ensures { AreTold p result }
{
    MsgProps {
        message_id: told_id(p.message_id),
        correlation_id: told_id(p.correlation_id),
        ..p
    }
}

/// The same, where they are there.
fn told_section(section: Option<MsgProps>) -> Option<MsgProps>
    ensures { AreToldOf section result }
{
    match section {
        Some(p) => Some(told_properties(p)),
        None => None,
    }
}

/// A message as its bytes tell it.
fn told_message(m: Message10) -> Message10
    ensures { facts_of result ≡ facts_in (kept_of m) }
{
    let Message10 {
        header,
        annotations,
        properties,
        application,
        body,
    } = m;
    Message10 {
        header,
        annotations,
        properties: told_section(properties),
        application,
        body,
    }
}

// ---- numbers

fn tell_id(id: &Option<Value10>)
    ensures { IfThere IsRanged (option_map value_tree id.now) }
{
    if let Some(id) = id {
        tell_ranges(id);
    }
}

fn tell_ttl(ttl: &Option<u32>)
    ensures { IfSome ttl.now (λ n. n < 2 ^ 32) }
{
    if let Some(ttl) = ttl {
        let _known = *ttl;
    }
}

fn tell_header(header: &Option<MsgHeader>)
    ensures { IfSome (header_in header.now).ttl (λ n. n < 2 ^ 32) }
{
    if let Some(header) = header {
        tell_ttl(&header.ttl);
    }
}

fn tell_ids(properties: &Option<MsgProps>)
    ensures message_id { IfThere IsRanged
        (option_map value_tree (properties_in properties.now).message_id) }
    ensures correlation_id { IfThere IsRanged
        (option_map value_tree (properties_in properties.now).correlation_id) }
{
    if let Some(properties) = properties {
        tell_id(&properties.message_id);
        tell_id(&properties.correlation_id);
    }
}

/// Tells proofs that the numbers of a message are of their types. The call does nothing.
fn tell_numbers(m: &Message10)
    ensures { AreRanged (facts_of m.now) }
{
    tell_header(&m.header);
    tell_ids(&m.properties);
}

// ---- images

/// What a client receives of a message.
fn received_of(
    alloc: Global,
    m: Message10,
    queue: &[u8],
    room: u32,
) -> Result<Option<Received>, Memory>
    ensures received { IfOk result (λ received. received
        ≡ received_by queue.now room (facts_of m)) }
    ensures sent { AreShallow (facts_of m)
        → IfOk result (λ received. IfSome received (λ x. CanBeSent room x.message)) }
{
    tell_numbers(&m);
    let again = redelivered(&m);
    match image_of(alloc, m, queue, room) {
        Ok(message) => Ok(Some(Received { message, again })),
        Err(Stop::Memory) => Err(Memory),
        Err(Stop::Fault(_)) => Ok(None),
    }
}

/// Reads the message that these bytes are, for a client of a queue. A content header has at most
/// `room` bytes. `None` where the bytes are no message, or one without an image.
///
/// # Errors
///
/// `Memory` where the allocator has no room.
pub fn read_image(
    alloc: Global,
    bytes: &[u8],
    queue: &[u8],
    room: u32,
) -> Result<Option<Received>, Memory>
    // What the client receives, by the bytes alone.
    ensures received { IfOk result (λ received. received
        ≡ received_in queue.now room bytes.now) }
    // The exchange is a short string.
    ensures exchange { IfOk result (λ received. IfSome received (λ x.
        length x.message.exchange ≤ 255)) }
    // So is the routing key.
    ensures key { IfOk result (λ received. IfSome received (λ x. length x.message.key ≤ 255)) }
    // The content header can be written.
    ensures header { IfOk result (λ received. IfSome received (λ x. CanPut (header_of x.message))) }
    // It fits the room.
    ensures fits { IfOk result (λ received. IfSome received (λ x.
        length (header_text (header_of x.message)) ≤ room)) }
{
    match read_message(alloc, bytes)? {
        Ok(message) => received_of(alloc, told_message(message), queue, room),
        Err(_) => Ok(None),
    }
}
