//! The fields of properties (AMQP 1.0 3.2.4). They are read in three parts, so that what was read
//! before a fault is dropped part by part.

ghost use Rattle.wire_base.specs.Reading.{Gives};
ghost use Rattle.types_10.specs.Tree.{trees_of};
ghost use Rattle.sections_10.specs.Fields.{fields_in};
ghost use Rattle.sections_10.specs.Rows.{properties_rows};
ghost use Rattle.sections_10.specs.View.{props_fields};
ghost use Rattle.sections_10.specs.Parts.{route_rows, content_rows, group_rows, route_fields};
ghost use Rattle.sections_10.specs.Parts.{content_fields, group_fields};

use crate::fields::{address_at, binary_at, id_at, string_at, symbol_at, timestamp_at, uint_at};
use crate::message::MsgProps;
use std::alloc::Global;
use types_10::{Value10, ValueList};
use wire_base::{ByteText, Stop};

/// Which message it is, and where it goes: message-id to reply-to.
#[derive(Drop)]
struct Route {
    message_id: Option<Value10>,
    user_id: Option<ByteText>,
    to: Option<ByteText>,
    subject: Option<ByteText>,
    reply_to: Option<ByteText>,
}

/// What is in the message: correlation-id to creation-time.
#[derive(Drop)]
struct Content {
    correlation_id: Option<Value10>,
    content_type: Option<ByteText>,
    content_encoding: Option<ByteText>,
    absolute_expiry_time: Option<i64>,
    creation_time: Option<i64>,
}

/// The group of the message: group-id to reply-to-group-id.
#[derive(Drop)]
struct Group {
    group_id: Option<ByteText>,
    group_sequence: Option<u32>,
    reply_to_group_id: Option<ByteText>,
}

/// The first five fields.
fn route_from(alloc: Global, fields: &ValueList) -> Result<Route, Stop<()>>
    ensures { Gives route_fields result (fields_in route_rows 0 (trees_of fields.now)) }
{
    let route = Route {
        message_id: id_at(alloc, fields, 0)?,
        user_id: binary_at(alloc, fields, 1)?,
        to: address_at(alloc, fields, 2)?,
        subject: string_at(alloc, fields, 3)?,
        reply_to: address_at(alloc, fields, 4)?,
    };
    Ok(route)
}

/// The next five fields.
fn content_from(alloc: Global, fields: &ValueList) -> Result<Content, Stop<()>>
    ensures { Gives content_fields result (fields_in content_rows 5 (trees_of fields.now)) }
{
    let content = Content {
        correlation_id: id_at(alloc, fields, 5)?,
        content_type: symbol_at(alloc, fields, 6)?,
        content_encoding: symbol_at(alloc, fields, 7)?,
        absolute_expiry_time: timestamp_at(fields, 8)?,
        creation_time: timestamp_at(fields, 9)?,
    };
    Ok(content)
}

/// The last three fields.
fn group_from(alloc: Global, fields: &ValueList) -> Result<Group, Stop<()>>
    ensures { Gives group_fields result (fields_in group_rows 10 (trees_of fields.now)) }
{
    let group = Group {
        group_id: string_at(alloc, fields, 10)?,
        group_sequence: uint_at(fields, 11)?,
        reply_to_group_id: string_at(alloc, fields, 12)?,
    };
    Ok(group)
}

/// The fields of properties, in their order.
pub(crate) fn fields_from(alloc: Global, fields: &ValueList) -> Result<MsgProps, Stop<()>>
    ensures { Gives props_fields result (fields_in properties_rows 0 (trees_of fields.now)) }
{
    let route = route_from(alloc, fields)?;
    let content = content_from(alloc, fields)?;
    let group = group_from(alloc, fields)?;
    Ok(MsgProps {
        message_id: route.message_id,
        user_id: route.user_id,
        to: route.to,
        subject: route.subject,
        reply_to: route.reply_to,
        correlation_id: content.correlation_id,
        content_type: content.content_type,
        content_encoding: content.content_encoding,
        absolute_expiry_time: content.absolute_expiry_time,
        creation_time: content.creation_time,
        group_id: group.group_id,
        group_sequence: group.group_sequence,
        reply_to_group_id: group.reply_to_group_id,
    })
}
