//! Calls of `property_map`.

use super::messages::put;
use crate::call::{Answer, Call, parted, told, word_of};
use content_091::{Props, read_header};
use property_map::{MapFault, Message091, redelivered, to_10, to_091};
use sections_10::{Message10, read_message};
use std::alloc::Global;
use wire_base::{ByteText, Memory};

/// The longest payload of a content header that an image comes back in.
const ROOM: u32 = 131_064;

/// The exchange, the key and the body that a call tells.
fn texts(alloc: Global, call: Call) -> Result<(ByteText, ByteText, ByteText), Memory> {
    let (exchange, rest) = parted(call.bytes, call.numbers[0]);
    let (key, rest) = parted(rest, call.numbers[1]);
    let (_, body) = parted(rest, call.numbers[2]);
    let exchange = ByteText::copy_of(alloc, exchange)?;
    let key = ByteText::copy_of(alloc, key)?;
    Ok((exchange, key, ByteText::copy_of(alloc, body)?))
}

/// What is written of an image, and the message that comes back of it.
fn tell_image(alloc: Global, image: Result<Message10, MapFault>) -> Answer {
    match image {
        Ok(image) => {
            let mut text = ByteText::empty(alloc);
            let written = put(alloc, &mut text, &image);
            let back = to_091(alloc, image, b"queue", ROOM);
            told(alloc, (written, text, back))
        }
        Err(fault) => told(alloc, fault),
    }
}

/// The same of the message with these properties.
fn tell_image_with(alloc: Global, props: Props, call: Call) -> Answer {
    match texts(alloc, call) {
        Ok((exchange, key, body)) => {
            let message = Message091 {
                exchange,
                key,
                props,
                body,
            };
            let image = to_10(alloc, &message);
            drop(message);
            tell_image(alloc, image)
        }
        Err(memory) => {
            drop(props);
            Err(memory)
        }
    }
}

/// The same of the message that a call tells, whose properties stand in a content header.
pub fn image_call(alloc: Global, call: Call) -> Answer {
    let (_, rest) = parted(call.bytes, call.numbers[0].saturating_add(call.numbers[1]));
    let (header, _) = parted(rest, call.numbers[2]);
    match read_header(alloc, header)? {
        Ok(header) => tell_image_with(alloc, header.props, call),
        Err(fault) => told(alloc, fault),
    }
}

/// A message of AMQP 1.0 in AMQP 0-9-1, from a queue and for a room. Before it stands whether it was
/// delivered before.
pub fn mapped(alloc: Global, call: Call) -> Answer {
    let (queue, bytes) = parted(call.bytes, call.numbers[0]);
    let room = word_of(call.numbers[1]);
    match read_message(alloc, bytes)? {
        Ok(message) => {
            let again = redelivered(&message);
            told(alloc, (again, to_091(alloc, message, queue, room)))
        }
        Err(fault) => told(alloc, fault),
    }
}
