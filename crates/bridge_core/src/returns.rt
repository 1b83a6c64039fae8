//! The frames of a basic.return, by which a mandatory publish goes back to its client (AMQP 0-9-1
//! 1.8.3.8, 4.2.6).

ghost use Rattle.std.specs.Prelude.{◌≡◌, ◌+◌, ◌<◌, ◌≤◌, ◌^◌, ◌++◌, IfOk, OnOk, length};
ghost use Rattle.std.specs.Prelude.{if◌then◌else◌};
ghost use Rattle.std.specs.Prelude.{[]};
ghost use Rattle.content_091.specs.Writing.{header_text};
ghost use Rattle.methods_091.specs.Writing.{method_text};
ghost use Rattle.gate_model.specs.Returns.{body_parts, frame_with, header_of, header_part};
ghost use Rattle.gate_model.specs.Returns.{method_part, return_method, return_parts};
ghost use Rattle.bridge_core.specs.Backs.{IsWritable, fitted};

use close_translate::{NO_ROUTE, code_name};
use content_091::{Header91, put_header};
use frames_091::{Frame91, Kind91, put_frame};
use methods_091::{Method91, put_method};
use open_items::Frames;
use property_map::Message091;
use std::alloc::Global;
use wire_base::{ByteText, Memory};

/// The bytes of a frame around its payload.
pub const FRAME_LEN: usize = 8;

/// A frame on a channel.
pub fn frame_with(
    alloc: Global,
    kind: Kind91,
    channel: u16,
    payload: ByteText,
) -> Result<ByteText, Memory>
    requires { length payload + 8 < 2 ^ 32 }
    ensures { IfOk result (λ text. text ≡ frame_with kind channel payload) }
{
    let mut text = ByteText::empty(alloc);
    put_frame(
        &mut text,
        &Frame91 {
            kind,
            channel,
            payload,
        },
    )?;
    Ok(text)
}

/// A frame on a channel, unless it is longer than the client's.
#[tactic(auto, using(crate::proofs::Backs::fits, crate::proofs::Backs::passes))]
fn fitted(
    alloc: Global,
    kind: Kind91,
    channel: u16,
    limit: u32,
    payload: ByteText,
) -> Result<Option<ByteText>, Memory>
    requires { 8 < limit }
    ensures { IfOk result (λ o. o ≡ fitted limit (frame_with kind channel payload)) }
{
    if payload.as_slice().len() > limit as usize - FRAME_LEN {
        return Ok(None);
    }
    Ok(Some(frame_with(alloc, kind, channel, payload)?))
}

/// The method that gives a message back.
fn return_method(alloc: Global, message: &Message091) -> Result<Method91, Memory>
    ensures { IfOk result (λ method. method ≡ return_method message.now) }
{
    Ok(Method91::BasicReturn {
        reply_code: NO_ROUTE,
        reply_text: ByteText::copy_of(alloc, code_name(NO_ROUTE))?,
        exchange: message.exchange.copy(alloc)?,
        routing_key: message.key.copy(alloc)?,
    })
}

/// The frame of the method.
fn method_frame(
    alloc: Global,
    channel: u16,
    limit: u32,
    message: &Message091,
) -> Result<Option<ByteText>, Memory>
    requires limit { 8 < limit }
    requires writable { IsWritable message.now }
    ensures { IfOk result (λ o. o ≡ fitted limit (method_part channel message.now)) }
{
    let method = return_method(alloc, message)?;
    let mut payload = ByteText::empty(alloc);
    put_method(&mut payload, &method)?;
    drop(method);
    fitted(alloc, Kind91::Method, channel, limit, payload)
}

/// The frame of the header of the content, and the message.
fn header_frame(
    alloc: Global,
    channel: u16,
    limit: u32,
    message: Message091,
) -> Result<(Message091, Option<ByteText>), Memory>
    requires limit { 8 < limit }
    requires writable { IsWritable message }
    ensures same { IfOk result (λ x. x.0 ≡ message) }
    ensures frame { IfOk result (λ x. x.1 ≡ fitted limit (header_part channel message)) }
{
    let Message091 {
        exchange,
        key,
        props,
        body,
    } = message;
    let header = Header91 {
        size: body.as_slice().len() as u64,
        props,
    };
    let mut payload = ByteText::empty(alloc);
    put_header(&mut payload, &header)?;
    let frame = fitted(alloc, Kind91::Header, channel, limit, payload)?;
    let message = Message091 {
        exchange,
        key,
        props: header.props,
        body,
    };
    Ok((message, frame))
}

/// Adds the frames of a body, each as long as the client takes them, the last one perhaps shorter.
fn push_body(
    frames: &mut Frames,
    alloc: Global,
    channel: u16,
    limit: u32,
    body: &[u8],
) -> Result<(), Memory>
    requires { 8 < limit }
    ensures { OnOk result (frames.new ≡ frames.old ++ body_parts limit channel body.now) }
{
    let room = limit as usize - FRAME_LEN;
    let mut rest = body;
    while !rest.is_empty() {
        let (piece, more) = rest.split_at(room.min(rest.len()));
        let payload = ByteText::copy_of(alloc, piece)?;
        frames.push(frame_with(alloc, Kind91::Body, channel, payload)?)?;
        rest = more;
    }
    Ok(())
}

/// The frames of the return of a message, where its client takes frames of so many bytes, and the
/// message; none where its method or its header doesn't fit one.
pub fn return_frames(
    alloc: Global,
    channel: u16,
    limit: u32,
    message: Message091,
) -> Result<(Message091, Frames), Memory>
    requires limit { 8 < limit }
    requires writable { IsWritable message }
    ensures same { IfOk result (λ x. x.0 ≡ message) }
    ensures frames { IfOk result (λ x. x.1 ≡ return_parts limit channel message) }
{
    let method = method_frame(alloc, channel, limit, &message)?;
    let (message, header) = header_frame(alloc, channel, limit, message)?;
    let mut frames = Frames::empty(alloc);
    if let (Some(method), Some(header)) = (method, header) {
        frames.push(method)?;
        frames.push(header)?;
        push_body(&mut frames, alloc, channel, limit, message.body.as_slice())?;
    }
    Ok((message, frames))
}
