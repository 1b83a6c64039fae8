//! What goes to a client of a message of AMQP 1.0 (AMQP 0-9-1 4.2.6).

ghost use Rattle.std.specs.Prelude.{◌≡◌, ◌+◌, ◌-◌, ◌<◌, ◌≤◌, ◌^◌, ◌++◌, IfOk, IfSome, OnOk, length};
ghost use Rattle.std.specs.Prelude.{Bool};
ghost use Rattle.std.specs.Option.{option_map};
ghost use Rattle.content_091.specs.Writing.{header_text};
ghost use Rattle.gate_model.specs.Paths.{content_of, is_again};
ghost use Rattle.gate_model.specs.Returns.{body_parts, header_of, header_part};
ghost use Rattle.property_map.specs.Received.{received_in};
ghost use Rattle.bridge_core.specs.Backs.{IsWritable};

use crate::returns::{FRAME_LEN, frame_with};
use consume_path::{Content, Frames};
use content_091::{Header91, put_header};
use frames_091::Kind91;
use property_map::{Message091, Received, read_image};
use std::alloc::Global;
use wire_base::{ByteText, Memory};

/// The message that a payload is, of which these bytes came before the last ones.
fn received(
    alloc: Global,
    room: u32,
    queue: &[u8],
    before: &[u8],
    payload: &[u8],
) -> Result<Option<Received>, Memory>
    ensures received { IfOk result (λ r. r
        ≡ received_in queue.now room (before.now ++ payload.now)) }
    ensures writable { IfOk result (λ r. IfSome r (λ x. IsWritable x.message)) }
    ensures short { IfOk result (λ r. IfSome r (λ x.
        length (header_text (header_of x.message)) ≤ room)) }
{
    if before.is_empty() {
        return read_image(alloc, payload, queue, room);
    }
    let mut bytes = ByteText::copy_of(alloc, before)?;
    bytes.append(payload)?;
    read_image(alloc, bytes.as_slice(), queue, room)
}

/// Adds the frames of a body, each as long as the client takes them, the last one perhaps shorter.
fn push_body(
    frames: &mut Frames,
    alloc: Global,
    channel: u16,
    limit: u32,
    body: &[u8],
) -> Result<(), Memory>
    requires { 8 < limit }
    ensures { OnOk result (frames.new ≡ frames.old ++ body_parts limit channel body.now) }
{
    let room = limit as usize - FRAME_LEN;
    let mut rest = body;
    while !rest.is_empty() {
        let (piece, more) = rest.split_at(room.min(rest.len()));
        let payload = ByteText::copy_of(alloc, piece)?;
        frames.push(frame_with(alloc, Kind91::Body, channel, payload)?)?;
        rest = more;
    }
    Ok(())
}

/// The frame of the header of a content, and the names and the body of its message.
fn header_frame(
    alloc: Global,
    channel: u16,
    message: Message091,
) -> Result<(ByteText, ByteText, ByteText, ByteText), Memory>
    requires writable { IsWritable message }
    requires short { length (header_text (header_of message)) + 8 < 2 ^ 32 }
    ensures frame { IfOk result (λ x. x.0 ≡ header_part channel message) }
    ensures exchange { IfOk result (λ x. x.1 ≡ message.exchange) }
    ensures key { IfOk result (λ x. x.2 ≡ message.key) }
    ensures body { IfOk result (λ x. x.3 ≡ message.body) }
{
    let Message091 {
        exchange,
        key,
        props,
        body,
    } = message;
    let header = Header91 {
        size: body.as_slice().len() as u64,
        props,
    };
    let mut payload = ByteText::empty(alloc);
    put_header(&mut payload, &header)?;
    drop(header);
    let frame = frame_with(alloc, Kind91::Header, channel, payload)?;
    Ok((frame, exchange, key, body))
}

/// The content of a message on a channel, whose client takes frames of so many bytes.
fn content_of(
    alloc: Global,
    limit: u32,
    channel: u16,
    message: Message091,
) -> Result<Content, Memory>
    requires limit { 8 < limit }
    requires writable { IsWritable message }
    requires short { length (header_text (header_of message)) ≤ limit - 8 }
    ensures { (again : Bool) → IfOk result (λ c. c
        ≡ content_of limit channel (record { message = message; again = again })) }
{
    let (header, exchange, key, body) = header_frame(alloc, channel, message)?;
    let mut frames = Frames::empty(alloc);
    frames.push(header)?;
    push_body(&mut frames, alloc, channel, limit, body.as_slice())?;
    drop(body);
    Ok(Content {
        exchange,
        key,
        frames,
    })
}

/// What goes to the client on a channel of a message of this queue, of whose payload these bytes
/// came before the last ones, and whether it was delivered before; nothing where it has no image.
pub fn image_of(
    alloc: Global,
    limit: u32,
    channel: u16,
    queue: &[u8],
    before: &[u8],
    payload: &[u8],
) -> Result<(Option<Content>, bool), Memory>
    requires { 8 < limit }
    ensures image { IfOk result (λ x. x.0 ≡ option_map (content_of limit channel)
        (received_in queue.now (limit - 8) (before.now ++ payload.now))) }
    ensures again { IfOk result (λ x. x.1
        ≡ is_again (received_in queue.now (limit - 8) (before.now ++ payload.now))) }
{
    match received(alloc, limit - FRAME_LEN as u32, queue, before, payload)? {
        None => Ok((None, false)),
        Some(Received { message, again }) => {
            Ok((Some(content_of(alloc, limit, channel, message)?), again))
        }
    }
}
