//! The bytes of the units of a session's links.

ghost use Rattle.std.specs.Prelude.{◌≡◌, ◌≤◌, ◌++◌, [], length, IfOk, IsTrue, OnOk};
ghost use Rattle.gate_model.specs.Paths.{transfer_perf};
ghost use Rattle.std.specs.Prelude.{false, true};
ghost use Rattle.gate_model.specs.Spelling.{attach_perf, empty_source, empty_target, frame_on};
ghost use Rattle.gate_model.specs.Spelling.{link_flow_perf, source_of, spell_on, target_of};
ghost use Rattle.gate_model.specs.declared.channel.SessionUnit.TheVariants as unit;
ghost use Rattle.performatives_10.specs.Writing.{perf_text, perf_tree};
ghost use Rattle.publish_path.specs.Payloads.{joined};
ghost use Rattle.session_path.specs.Links.{link_name};
ghost use Rattle.std.specs.Str.{is_utf8};
ghost use Rattle.types_10.specs.Writing.{HasSpelling};

use frames_10::{Frame10, Kind10, put_frame10};
use gate_model::{AttachOut, LinkFlow, TransferOut};
use itoa::Buffer;
use machine_10::{FRAME_MAX, WINDOW};
use performatives_10::{Attach, Flow, Perf, Source10, Target10, Transfer, put_perf};
use publish_path::Pieces;
use std::alloc::Global;
use wire_base::{ByteText, Memory};

/// The bytes of a frame's header (AMQP 1.0 2.3.1).
const HEADER: usize = 8;

/// The bytes of a frame behind its header, at most.
const BODY_MAX: usize = FRAME_MAX as usize - HEADER;

/// The bytes of an address, at most: that of a short string (AMQP 0-9-1 4.2.5.3).
const ADDRESS_MAX: usize = 255;

/// The bytes of a message that the gateway takes, at most.
const MESSAGE_MAX: u64 = 16_842_752;

/// Whether a text is UTF-8.
pub fn is_utf8(text: &[u8]) -> bool
    ensures { result ≡ is_utf8 text.now }
{
    match std::str::from_utf8(text) {
        Ok(_) => true,
        Err(_) => false,
    }
}

/// The name of a link: `l-` and the number of its attach.
#[tactic(auto, using(crate::proofs::LinkSpellings::name_utf8))]
fn link_name(alloc: Global, number: u64) -> Result<ByteText, Memory>
    ensures name { IfOk result (λ name. name ≡ link_name number) }
    ensures utf8 { IfOk result (λ name. IsTrue (is_utf8 name)) }
    ensures short { IfOk result (λ name. length name ≤ 22) }
{
    let mut name = ByteText::copy_of(alloc, b"l-")?;
    let mut digits = Buffer::new();
    name.append(digits.format(number).as_bytes())?;
    Ok(name)
}

/// A source without an address: of the gateway's own messages.
fn empty_source() -> Source10
    ensures { result ≡ empty_source }
{
    Source10 {
        address: None,
        durable: None,
        expiry_policy: None,
        timeout: None,
        dynamic: None,
        dynamic_node_properties: None,
        distribution_mode: None,
        filter: None,
        default_outcome: None,
        outcomes: None,
        capabilities: None,
    }
}

/// A source with this address (AMQP 1.0 3.5.3).
fn source_of(address: ByteText) -> Source10
    ensures { result ≡ source_of address }
{
    Source10 {
        address: Some(address),
        ..empty_source()
    }
}

/// A target with this address (AMQP 1.0 3.5.4).
fn target_of(address: ByteText) -> Target10
    ensures { result ≡ target_of address }
{
    Target10 {
        address: Some(address),
        ..empty_target()
    }
}

/// A target without an address: of deliveries that the gateway takes.
fn empty_target() -> Target10
    ensures { result ≡ empty_target }
{
    Target10 {
        address: None,
        durable: None,
        expiry_policy: None,
        timeout: None,
        dynamic: None,
        dynamic_node_properties: None,
        capabilities: None,
    }
}

/// The attach of a sending link to an address.
fn attach_to(alloc: Global, attach: AttachOut, address: &[u8]) -> Result<Perf, Memory>
    requires utf8 { IsTrue (is_utf8 address.now) }
    requires short { length address.now ≤ 255 }
    requires sends { attach.receives ≡ false }
    ensures perf { IfOk result (λ perf. perf ≡ attach_perf attach address.now) }
    ensures spelled { IfOk result (λ perf. HasSpelling (perf_tree perf)) }
{
    Ok(Perf::Attach(Attach {
        name: link_name(alloc, attach.name)?,
        handle: attach.handle,
        role: false,
        snd_settle_mode: 0,
        rcv_settle_mode: 0,
        source: Some(empty_source()),
        target: Some(target_of(ByteText::copy_of(alloc, address)?)),
        unsettled: None,
        incomplete_unsettled: false,
        initial_delivery_count: Some(0),
        max_message_size: None,
        offered_capabilities: None,
        desired_capabilities: None,
        properties: None,
    }))
}

/// The attach of a receiving link from an address.
fn attach_from(alloc: Global, attach: AttachOut, address: &[u8]) -> Result<Perf, Memory>
    requires utf8 { IsTrue (is_utf8 address.now) }
    requires short { length address.now ≤ 255 }
    requires receives { attach.receives ≡ true }
    ensures perf { IfOk result (λ perf. perf ≡ attach_perf attach address.now) }
    ensures spelled { IfOk result (λ perf. HasSpelling (perf_tree perf)) }
{
    Ok(Perf::Attach(Attach {
        name: link_name(alloc, attach.name)?,
        handle: attach.handle,
        role: true,
        snd_settle_mode: 0,
        rcv_settle_mode: 0,
        source: Some(source_of(ByteText::copy_of(alloc, address)?)),
        target: Some(empty_target()),
        unsettled: None,
        incomplete_unsettled: false,
        initial_delivery_count: None,
        max_message_size: Some(MESSAGE_MAX),
        offered_capabilities: None,
        desired_capabilities: None,
        properties: None,
    }))
}

/// The attach of a link.
fn attach_of(alloc: Global, attach: AttachOut, address: &[u8]) -> Result<Perf, Memory>
    requires utf8 { IsTrue (is_utf8 address.now) }
    requires short { length address.now ≤ 255 }
    ensures perf { IfOk result (λ perf. perf ≡ attach_perf attach address.now) }
    ensures spelled { IfOk result (λ perf. HasSpelling (perf_tree perf)) }
{
    if attach.receives {
        attach_from(alloc, attach, address)
    } else {
        attach_to(alloc, attach, address)
    }
}

/// The flow of a link.
fn flow_of(flow: LinkFlow) -> Perf
    ensures perf { result ≡ link_flow_perf flow }
    ensures spelled { HasSpelling (perf_tree result) }
{
    Perf::Flow(Flow {
        next_incoming_id: Some(flow.incoming),
        incoming_window: WINDOW,
        next_outgoing_id: flow.outgoing,
        outgoing_window: WINDOW,
        handle: Some(flow.handle),
        delivery_count: Some(flow.count),
        link_credit: Some(flow.credit),
        available: None,
        drain: flow.drain,
        echo: false,
        properties: None,
    })
}

/// A frame of a transfer, without its payload.
fn transfer_of(alloc: Global, transfer: TransferOut) -> Result<Perf, Memory>
    ensures { IfOk result (λ perf. perf ≡ transfer_perf transfer transfer.more) }
{
    let first = transfer.frame.first;
    let tag = if first {
        Some(ByteText::copy_of(alloc, &transfer.frame.publish.to_be_bytes())?)
    } else {
        None
    };
    Ok(Perf::Transfer(Transfer {
        handle: transfer.handle,
        delivery_id: if first { Some(transfer.id) } else { None },
        delivery_tag: tag,
        message_format: if first { Some(0) } else { None },
        settled: if first { Some(false) } else { None },
        more: transfer.more,
        rcv_settle_mode: None,
        state: None,
        resume: false,
        aborted: false,
        batchable: false,
    }))
}

/// Adds bytes that are lent in pieces.
fn put_pieces(out: &mut ByteText, pieces: Pieces<'_>) -> Result<(), Memory>
    ensures { OnOk result (out.new ≡ out.old ++ joined pieces.entry) }
{
    out.append(pieces.front)?;
    out.append(pieces.back)
}

/// The bytes of a frame whose body is a text and then a payload. The payload is copied once, since
/// its pieces go behind a frame of the text, whose size then counts both. `Memory` also if the
/// frame is longer than the gateway's are, as none of the gateway's is.
#[tactic(auto, using(crate::proofs::Joined::joined))]
fn frame_behind(
    alloc: Global,
    channel: u16,
    body: ByteText,
    payload: Pieces<'_>,
) -> Result<ByteText, Memory>
    ensures text { IfOk result (λ text. text ≡ frame_on channel (body ++ joined payload.entry)) }
    ensures small { IfOk result (λ text. length text ≤ FRAME_MAX) }
{
    let Some(room) = BODY_MAX.checked_sub(body.as_slice().len()) else {
        return Err(Memory);
    };
    if payload.len() > room {
        return Err(Memory);
    }
    let size = HEADER + body.as_slice().len() + payload.len();
    let mut text = ByteText::empty(alloc);
    put_frame10(
        &mut text,
        &Frame10 {
            kind: Kind10::Amqp,
            channel,
            body,
        },
    )?;
    put_pieces(&mut text, payload)?;
    text.set_u32(0, size as u32);
    Ok(text)
}

/// The bytes of a frame with a performative and what follows it.
fn frame_of(
    alloc: Global,
    channel: u16,
    perf: &Perf,
    payload: Pieces<'_>,
) -> Result<ByteText, Memory>
    requires { HasSpelling (perf_tree perf.now) }
    ensures text { IfOk result (λ text.
        text ≡ frame_on channel (perf_text perf.now ++ joined payload.entry)) }
    ensures small { IfOk result (λ text. length text ≤ FRAME_MAX) }
{
    let mut body = ByteText::empty(alloc);
    put_perf(alloc, &mut body, perf)?;
    frame_behind(alloc, channel, body, payload)
}

/// The frame of an attach to this address. `Memory` also if that is longer than a short string or
/// isn't UTF-8: no publish or consume of such an address is taken up.
pub fn attach_frame(
    alloc: Global,
    channel: u16,
    attach: AttachOut,
    address: Pieces<'_>,
) -> Result<ByteText, Memory>
    ensures text { IfOk result (λ text.
        text ≡ spell_on channel (unit.Attach attach) (joined address.entry)) }
    ensures small { IfOk result (λ text. length text ≤ FRAME_MAX) }
{
    if address.len() > ADDRESS_MAX {
        return Err(Memory);
    }
    let mut text = ByteText::empty(alloc);
    put_pieces(&mut text, address)?;
    if !is_utf8(text.as_slice()) {
        return Err(Memory);
    }
    let perf = attach_of(alloc, attach, text.as_slice())?;
    let frame = frame_of(alloc, channel, &perf, Pieces::none());
    drop(perf);
    frame
}

/// The frame of a link's flow.
pub fn flow_frame(alloc: Global, channel: u16, flow: LinkFlow) -> Result<ByteText, Memory>
    ensures text { IfOk result (λ text. text ≡ spell_on channel (unit.Flow flow) []) }
    ensures small { IfOk result (λ text. length text ≤ FRAME_MAX) }
{
    let perf = flow_of(flow);
    let frame = frame_of(alloc, channel, &perf, Pieces::none());
    drop(perf);
    frame
}

/// A frame of a transfer, with this part of its payload.
pub fn transfer_frame(
    alloc: Global,
    channel: u16,
    transfer: TransferOut,
    part: Pieces<'_>,
) -> Result<ByteText, Memory>
    ensures text { IfOk result (λ text.
        text ≡ spell_on channel (unit.Transfer transfer) (joined part.entry)) }
    ensures small { IfOk result (λ text. length text ≤ FRAME_MAX) }
{
    let perf = transfer_of(alloc, transfer)?;
    let frame = frame_of(alloc, channel, &perf, part);
    drop(perf);
    frame
}
