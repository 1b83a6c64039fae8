//! What a unit of the client wants, as the gateway meets it: a request that it can't meet is
//! refused, and a publish becomes a message of AMQP 1.0.

ghost use Rattle.std.specs.Prelude.{◌≡◌, ◌<◌, true, IfOk, OnErr, option_copied};
ghost use Rattle.gate_model.specs.Paths.{path_at};
ghost use Rattle.gate_model.specs.Requests.{address_for, exchange_fault, is_known, message_of};
ghost use Rattle.gate_model.specs.Requests.{method_fault, refusal_for};
ghost use Rattle.gate_model.specs.Returns.{is_mandatory};
ghost use Rattle.session_path.specs.Path.{PathState};
ghost use Rattle.std.specs.Prelude.{List, Option};
ghost use Rattle.bridge_core.specs.Backs.{IsWritable};
ghost use Rattle.bridge_core.specs.Met.{IsMet, IsPublish, back_if, is_publish};
ghost use Rattle.machine_091.specs.Writable.{CanPutBack};
ghost use Rattle.bridge_core.specs.declared.requests.Met.TheVariants as met;
ghost use Rattle.machine_091.specs.Calls.{after_closing};
ghost use Rattle.methods_091.specs.Rows.{class_of, id_of};
ghost use Rattle.methods_091.specs.View.{kind_of};
ghost use Rattle.methods_091.specs.declared.method.Method91.{Method91};
ghost use Rattle.machine_091.specs.declared.unit.Want91.TheVariants as want;

use crate::paths::{Paths, cancel_fault, declare_fault};
use crate::returns::return_frames;
use close_translate::{NOT_ALLOWED, NOT_FOUND, PRECONDITION_FAILED, Scope};
use content_091::Content;
use gate_model::Routes;
use machine_091::{Conn91, Refusal, Want91};
use methods_091::{Method91, ids};
use open_items::Frames;
use property_map::{Message091, Told, put_image};
use publish_path::Payload;
use std::alloc::Global;
use wire_base::{ByteText, Memory};

/// What a unit wants, once it is known what the gateway makes of it.
#[derive(Drop)]
pub enum Met {
    /// This, which is no publish, and what is told of one that is refused.
    Want(Want91, Option<Told>),
    /// A publish on this channel, to this address, with the payload of its transfer, and the frames
    /// of its return.
    Publish(u16, ByteText, Payload, Frames),
}

/// What becomes of a publish: the reply code that refuses it and what is told of that, or its
/// address, its payload and the frames of its return.
#[derive(Drop)]
enum Published {
    Refused(u16, Option<Told>),
    Sent(ByteText, Payload, Frames),
}

/// An exchange is known: the default one, whose name is empty, and those that have an address.
fn is_known(routes: &Routes, exchange: &[u8]) -> bool
    ensures { result ≡ is_known routes.now exchange.now }
{
    exchange.is_empty() || routes.address(exchange).is_some()
}

/// Why the declare of an exchange is refused, if it is.
fn exchange_fault(routes: &Routes, exchange: &[u8]) -> Option<u16>
    ensures { result ≡ exchange_fault routes.now exchange.now }
{
    if is_known(routes, exchange) {
        None
    } else {
        Some(NOT_FOUND)
    }
}

/// The reply code that a method on a channel is refused with, if it is.
fn method_fault(routes: &Routes, paths: &Paths, channel: u16, method: &Method91) -> Option<u16>
    ensures { result ≡ method_fault routes.now (path_at paths.now channel) method.now }
{
    match method {
        Method91::ExchangeDeclare { exchange, .. } => exchange_fault(routes, exchange.as_slice()),
        Method91::BasicConsume {
            queue,
            consumer_tag,
            ..
        } => paths.consume_fault(channel, queue.as_slice(), consumer_tag.as_slice()),
        Method91::QueueDeclare { queue, .. } => declare_fault(queue.as_slice()),
        Method91::BasicGet { queue, .. } => paths.get_fault(channel, queue.as_slice()),
        Method91::BasicCancel { consumer_tag, .. } => cancel_fault(consumer_tag.as_slice()),
        Method91::BasicAck {
            delivery_tag,
            multiple,
        } => paths.answer_fault(channel, *delivery_tag, *multiple),
        Method91::BasicReject { delivery_tag, .. } => {
            paths.answer_fault(channel, *delivery_tag, false)
        }
        Method91::BasicNack {
            delivery_tag,
            multiple,
            ..
        } => paths.answer_fault(channel, *delivery_tag, *multiple),
        _ => None,
    }
}

/// The refusal of a method on a channel with a reply code: 530 closes the connection.
fn refusal_for(channel: u16, ids: (u16, u16), code: u16) -> Refusal
    ensures { (m : Method91) → class_of (kind_of m) ≡ ids.0 → id_of (kind_of m) ≡ ids.1
        → result ≡ refusal_for channel m code }
{
    let (class, method) = ids;
    let (scope, channel) = if code == NOT_ALLOWED {
        (Scope::Connection, 0)
    } else {
        (Scope::Channel, channel)
    };
    Refusal {
        code,
        scope,
        channel,
        class,
        method,
    }
}

/// Where a publish goes: on the default exchange to the address that its routing key names, on
/// another one to the address that this stands for.
fn address_for<'a>(routes: &'a Routes, message: &'a Message091) -> Option<&'a ByteText>
    ensures { option_copied result ≡ address_for routes.now message.now }
{
    let exchange = message.exchange.as_slice();
    if !exchange.is_empty() {
        return routes.address(exchange);
    }
    if message.key.as_slice().is_empty() {
        None
    } else {
        Some(&message.key)
    }
}

/// The message that a publish and its content are, and whether it is mandatory.
fn message_of(alloc: Global, method: Method91, content: Content) -> (Message091, bool)
    ensures message { result.0 ≡ message_of method content }
    ensures mandatory { result.1 ≡ is_mandatory method }
{
    let (exchange, key, mandatory) = match method {
        Method91::BasicPublish {
            exchange,
            routing_key,
            mandatory,
            ..
        } => (exchange, routing_key, mandatory),
        _other => (ByteText::empty(alloc), ByteText::empty(alloc), false),
    };
    let message = Message091 {
        exchange,
        key,
        props: content.props,
        body: content.body,
    };
    (message, mandatory)
}

/// The frames of the return of a message on a channel, and the message; none where it isn't
/// mandatory.
fn back_of(
    alloc: Global,
    channel: u16,
    limit: u32,
    message: Message091,
    mandatory: bool,
) -> Result<(Message091, Frames), Memory>
    requires limit { 8 < limit }
    requires writable { IsWritable message }
    ensures same { IfOk result (λ x. x.0 ≡ message) }
    ensures back { IfOk result (λ x. x.1 ≡ back_if mandatory limit channel message) }
{
    if mandatory {
        return_frames(alloc, channel, limit, message)
    } else {
        Ok((message, Frames::empty(alloc)))
    }
}

/// A publish on a channel is refused, or becomes the payload of a transfer. Its client takes frames
/// of so many bytes.
fn publish(
    alloc: Global,
    routes: &Routes,
    channel: u16,
    limit: u32,
    message: Message091,
    mandatory: bool,
) -> Result<Published, Memory>
    requires limit { 8 < limit }
    requires writable { IsWritable message }
    ensures { IfOk result (IsPublish routes.now limit channel mandatory message) }
{
    let Some(address) = address_for(routes, &message) else {
        return Ok(Published::Refused(NOT_FOUND, None));
    };
    let address = address.copy(alloc)?;
    let (message, back) = back_of(alloc, channel, limit, message, mandatory)?;
    match put_image(alloc, message) {
        Ok(image) => {
            let payload = Payload::new(image.front, image.body);
            Ok(Published::Sent(address, payload, back))
        }
        Err(fault) => match fault.told() {
            Some(told) => Ok(Published::Refused(PRECONDITION_FAILED, Some(told))),
            None => Err(Memory),
        },
    }
}

/// A refusal closes what it says, and is as one of the connection.
fn refuse(conn: &mut Conn91, refusal: Refusal, told: Option<Told>) -> Met
    ensures conn { conn.new ≡ after_closing refusal.scope refusal.channel conn.old }
    ensures met { result ≡ met.Want (want.Refuse refusal) told }
{
    conn.closing(refusal.scope, refusal.channel);
    Met::Want(Want91::Refuse(refusal), told)
}

/// What becomes of a publish on a channel. Without memory for it the connection stays.
#[tactic(auto, using(crate::proofs::Backs::writable))]
fn meet_publish(
    alloc: Global,
    routes: &Routes,
    conn: &mut Conn91,
    channel: u16,
    method: Method91,
    content: Content,
) -> Result<Met, Memory>
    requires put { CanPutBack (want.Publish channel method content) }
    ensures ok { (ps : List (Option PathState)) → IfOk result (IsMet routes.now ps
        (want.Publish channel method content) conn.old conn.new) }
    ensures err { OnErr result (conn.new ≡ conn.old) }
{
    let ids = ids(&method);
    let limit = conn.frame_max();
    let (message, mandatory) = message_of(alloc, method, content);
    match publish(alloc, routes, channel, limit, message, mandatory)? {
        Published::Sent(address, payload, back) => Ok(Met::Publish(
            channel, address, payload, back,
        )),
        Published::Refused(code, told) => {
            Ok(refuse(conn, refusal_for(channel, ids, code), told))
        }
    }
}

/// What becomes of what a unit wants. Without memory for it the connection stays.
pub fn meet(
    alloc: Global,
    routes: &Routes,
    paths: &Paths,
    conn: &mut Conn91,
    want: Want91,
) -> Result<Met, Memory>
    requires put { CanPutBack want }
    ensures ok { IfOk result (IsMet routes.now paths.now want conn.old conn.new) }
    ensures err { OnErr result (conn.new ≡ conn.old) }
    ensures publish { OnErr result (is_publish want ≡ true) }
{
    match want {
        Want91::Method(channel, method) => match method_fault(routes, paths, channel, &method) {
            None => Ok(Met::Want(Want91::Method(channel, method), None)),
            Some(code) => {
                let refusal = refusal_for(channel, ids(&method), code);
                drop(method);
                Ok(refuse(conn, refusal, None))
            }
        },
        Want91::Publish(channel, method, content) => {
            meet_publish(alloc, routes, conn, channel, method, content)
        }
        want => Ok(Met::Want(want, None)),
    }
}
