//! The bytes of the units that the gateway writes to a container.

ghost use Rattle.std.specs.Prelude.{◌≡◌, ◌≤◌, [], length, true, false, IfOk, OnOk, OnErr};
ghost use Rattle.frames_10.specs.Frames.{frame_text};
ghost use Rattle.frames_10.specs.declared.frame.Kind10.TheVariants.{Amqp, Sasl};
ghost use Rattle.performatives_10.specs.Closing.{IsWrittenOver, end_text};
ghost use Rattle.performatives_10.specs.Writing.{perf_text, perf_tree};
ghost use Rattle.performatives_10.specs.declared.closing.Ending.TheVariants.{Close, End};
ghost use Rattle.machine_091.specs.RefusalsOpening.{is_login};
ghost use Rattle.types_10.specs.Writing.{HasSpelling};
ghost use Rattle.gate_model.specs.Due.{takes_memory_up};
ghost use Rattle.gate_model.specs.Setup.{IsInForm};
ghost use Rattle.gate_model.specs.Spelling.{begin_perf, container_id, flow_perf, frame_10};
ghost use Rattle.gate_model.specs.Spelling.{frame_on};
ghost use Rattle.gate_model.specs.Spelling.{init_of, open_of, spell_up};
ghost use Rattle.bridge_core.specs.Logins.{IsLoginOf};
ghost use Rattle.bridge_core.specs.Offers.{is_on_session};

use crate::frames::{ROOM, write_over};
use frames_10::{Frame10, Kind10, put_frame10};
use gate_model::{HANDLE_MAX, IDLE_STATED, Setup, UpUnit};
use itoa::Buffer;
use machine_10::{Conn10, FRAME_MAX, WINDOW};
use machine_091::CHANNEL_MAX;
use performatives_10::{Begin, Condition, Ending, Flow, Open, Perf, SaslInit, put_end, put_perf};
use std::alloc::Global;
use wire_base::{ByteText, Memory};

/// The protocol header of the SASL layer (AMQP 1.0 5.3.2).
const SASL_HEADER: [u8; 8] = [b'A', b'M', b'Q', b'P', 3, 1, 0, 0];

/// The protocol header of AMQP (AMQP 1.0 2.2).
const AMQP_HEADER: [u8; 8] = [b'A', b'M', b'Q', b'P', 0, 1, 0, 0];

/// A frame without a body (AMQP 1.0 2.4.5).
#[tactic(auto, unfolding(frames_10::specs::Frames::text_behind))]
fn empty_frame() -> &'static [u8]
    ensures bytes { result.now ≡ frame_10 Amqp [] }
    ensures len { length result.now ≡ 8 }
{
    &[0, 0, 0, 8, 2, 0, 0, 0]
}

/// The name by which a container knows a pair.
fn container_id(alloc: Global, setup: &Setup, number: u32) -> Result<ByteText, Memory>
    ensures { IfOk result (λ id. id ≡ container_id setup.now.name number) }
{
    let mut id = setup.name().copy(alloc)?;
    id.append(b"-")?;
    let mut digits = Buffer::new();
    id.append(digits.format(number).as_bytes())?;
    Ok(id)
}

/// A copy of a text, if there is one.
fn copied(alloc: Global, text: &Option<ByteText>) -> Result<Option<ByteText>, Memory>
    ensures { IfOk result (λ copy. copy ≡ text.now) }
{
    match text {
        None => Ok(None),
        Some(text) => Ok(Some(text.copy(alloc)?)),
    }
}

/// The open of a pair.
fn open_of(alloc: Global, setup: &Setup, number: u32) -> Result<Perf, Memory>
    ensures value { IfOk result (λ perf. perf ≡ open_of setup.now number) }
    ensures form { OnOk result (IsInForm setup.now) }
{
    Ok(Perf::Open(Open {
        container_id: container_id(alloc, setup, number)?,
        hostname: copied(alloc, setup.host())?,
        max_frame_size: FRAME_MAX,
        channel_max: CHANNEL_MAX,
        idle_time_out: Some(IDLE_STATED),
        outgoing_locales: None,
        incoming_locales: None,
        offered_capabilities: None,
        desired_capabilities: None,
        properties: None,
    }))
}

/// The sasl-init for the login that a container is asked for.
fn init_of(alloc: Global, container: &Conn10) -> Result<Perf, Memory>
    ensures { IfOk result (λ perf. perf ≡ init_of container.now) }
{
    Ok(Perf::SaslInit(SaslInit {
        mechanism: container.mechanism().copy(alloc)?,
        initial_response: Some(container.response().copy(alloc)?),
        hostname: None,
    }))
}

/// Writes the frame of a performative over the first bytes of a room, and answers their count.
#[tactic(auto, using(crate::proofs::Lengths::frame_len))]
fn write_perf(
    room: &mut [u8; ROOM],
    alloc: Global,
    kind: Kind10,
    channel: u16,
    perf: &Perf,
) -> Result<usize, Memory>
    requires spelled { HasSpelling (perf_tree perf.now) }
    requires short { length (perf_text perf.now) ≤ 504 }
    ensures ok { IfOk result (IsWrittenOver
        (frame_text (record { kind = kind; channel = channel; body = perf_text perf.now }))
        room.old room.new) }
    ensures small { IfOk result (λ count. count ≤ ROOM) }
    ensures err { OnErr result (room.new ≡ room.old) }
{
    let mut body = ByteText::empty(alloc);
    put_perf(alloc, &mut body, perf)?;
    let mut text = ByteText::empty(alloc);
    put_frame10(
        &mut text,
        &Frame10 {
            kind,
            channel,
            body,
        },
    )?;
    Ok(write_over(room, text.as_slice()))
}

/// Writes a pair's open.
fn write_open(
    room: &mut [u8; ROOM],
    alloc: Global,
    setup: &Setup,
    number: u32,
) -> Result<usize, Memory>
    ensures ok { IfOk result (IsWrittenOver (frame_10 Amqp (perf_text (open_of setup.now number)))
        room.old room.new) }
    ensures small { IfOk result (λ count. count ≤ ROOM) }
    ensures err { OnErr result (room.new ≡ room.old) }
{
    let perf = open_of(alloc, setup, number)?;
    let written = write_perf(room, alloc, Kind10::Amqp, 0, &perf);
    drop(perf);
    written
}

/// Writes the sasl-init for the login that a container is asked for.
#[tactic(auto, using(crate::proofs::Spellings::init_spelled, crate::proofs::Spellings::init_short))]
fn write_init(room: &mut [u8; ROOM], alloc: Global, container: &Conn10) -> Result<usize, Memory>
    requires { is_login container.now.mechanism container.now.response ≡ true }
    ensures ok { IfOk result (IsWrittenOver (frame_10 Sasl (perf_text (init_of container.now)))
        room.old room.new) }
    ensures small { IfOk result (λ count. count ≤ ROOM) }
    ensures err { OnErr result (room.new ≡ room.old) }
{
    let perf = init_of(alloc, container)?;
    let written = write_perf(room, alloc, Kind10::Sasl, 0, &perf);
    drop(perf);
    written
}

/// The begin of a session.
fn begin() -> Perf
    ensures { result ≡ begin_perf }
{
    Perf::Begin(Begin {
        remote_channel: None,
        next_outgoing_id: 0,
        incoming_window: WINDOW,
        outgoing_window: WINDOW,
        handle_max: HANDLE_MAX,
        offered_capabilities: None,
        desired_capabilities: None,
        properties: None,
    })
}

/// Writes the begin of the session on a channel.
#[tactic(auto, using(crate::proofs::Spellings::begin_spelled, crate::proofs::Spellings::begin_short))]
fn write_begin(room: &mut [u8; ROOM], alloc: Global, channel: u16) -> Result<usize, Memory>
    ensures ok { IfOk result (IsWrittenOver (frame_on channel (perf_text begin_perf))
        room.old room.new) }
    ensures small { IfOk result (λ count. count ≤ ROOM) }
    ensures err { OnErr result (room.new ≡ room.old) }
{
    let perf = begin();
    let written = write_perf(room, alloc, Kind10::Amqp, channel, &perf);
    drop(perf);
    written
}

/// The flow of a session.
fn flow(incoming: u32, outgoing: u32) -> Perf
    ensures { result ≡ flow_perf incoming outgoing }
{
    Perf::Flow(Flow {
        next_incoming_id: Some(incoming),
        incoming_window: WINDOW,
        next_outgoing_id: outgoing,
        outgoing_window: WINDOW,
        handle: None,
        delivery_count: None,
        link_credit: None,
        available: None,
        drain: false,
        echo: false,
        properties: None,
    })
}

/// Writes the flow of the session on a channel.
#[tactic(auto, using(crate::proofs::Spellings::flow_spelled, crate::proofs::Spellings::flow_short))]
fn write_flow(
    room: &mut [u8; ROOM],
    alloc: Global,
    channel: u16,
    incoming: u32,
    outgoing: u32,
) -> Result<usize, Memory>
    ensures ok { IfOk result (IsWrittenOver
        (frame_on channel (perf_text (flow_perf incoming outgoing))) room.old room.new) }
    ensures small { IfOk result (λ count. count ≤ ROOM) }
    ensures err { OnErr result (room.new ≡ room.old) }
{
    let perf = flow(incoming, outgoing);
    let written = write_perf(room, alloc, Kind10::Amqp, channel, &perf);
    drop(perf);
    written
}

/// Writes the end of the session on a channel.
fn write_end(room: &mut [u8; ROOM], channel: u16, condition: Option<Condition>) -> usize
    ensures written { IsWrittenOver (end_text channel End condition) room.old room.new result }
    ensures small { result ≤ ROOM }
{
    put_end(room, channel, Ending::End, condition)
}

/// Writes a close.
fn write_close(room: &mut [u8; ROOM], condition: Option<Condition>) -> usize
    ensures written { IsWrittenOver (end_text 0 Close condition) room.old room.new result }
    ensures small { result ≤ ROOM }
{
    put_end(room, 0, Ending::Close, condition)
}

/// Writes the bytes of a unit to a container over the first ones of a room, and answers their
/// count. Those of a session's links are spelled with what they carry. Without memory the room is
/// as it was.
pub fn spell_up(
    room: &mut [u8; ROOM],
    alloc: Global,
    setup: &Setup,
    number: u32,
    container: &Option<Conn10>,
    unit: UpUnit,
) -> Result<usize, Memory>
    requires login { IsLoginOf container.now }
    requires alone { is_on_session unit ≡ false }
    ensures ok { IfOk result (IsWrittenOver (spell_up
        (record { setup = setup.now; number = number; container = container.now }) unit [])
        room.old room.new) }
    ensures small { IfOk result (λ count. count ≤ ROOM) }
    ensures err { OnErr result (room.new ≡ room.old) }
    ensures takes { OnErr result (takes_memory_up unit ≡ true) }
{
    match unit {
        UpUnit::SaslHeader => Ok(write_over(room, &SASL_HEADER)),
        UpUnit::SaslInit => match container {
            None => Ok(0),
            Some(container) => write_init(room, alloc, container),
        },
        UpUnit::AmqpHeader => Ok(write_over(room, &AMQP_HEADER)),
        UpUnit::Open => write_open(room, alloc, setup, number),
        UpUnit::Close(condition) => Ok(write_close(room, condition)),
        UpUnit::Empty => Ok(write_over(room, empty_frame())),
        UpUnit::Begin(channel) => write_begin(room, alloc, channel),
        UpUnit::Flow(channel, incoming, outgoing) => {
            write_flow(room, alloc, channel, incoming, outgoing)
        }
        UpUnit::End(channel, condition) => Ok(write_end(room, channel, condition)),
        UpUnit::OnSession(_, _) => unreachable!(),
    }
}
