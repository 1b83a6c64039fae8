//! The bytes of the units that the gateway writes to a client.

ghost use Rattle.std.specs.Prelude.{◌≡◌, ◌≤◌, length};
ghost use Rattle.frames_091.specs.Headers.{header_bytes};
ghost use Rattle.methods_091.specs.Closing.{IsWrittenOver};
ghost use Rattle.gate_model.specs.Spelling.{channel_text, confirm_method};
ghost use Rattle.gate_model.specs.Due.{takes_memory_back, takes_memory_told};
ghost use Rattle.std.specs.Prelude.{false, []};
ghost use Rattle.gate_model.specs.Spelling.{heartbeat_frame, open_ok_frame, spell_reply};
ghost use Rattle.gate_model.specs.Spelling.{start_frame, tune_frame};
ghost use Rattle.property_map.specs.Told.{told_text};
ghost use Rattle.gate_model.specs.declared.reply.Reply.TheVariants as reply;

use arrayvec::ArrayString;
use close_translate::{RESOURCE_ERROR, code_name};
use gate_model::{ChannelUnit, Reason, Reply};
use machine_091::Refusal;
use methods_091::{
    put_ack, put_channel_close, put_channel_close_ok, put_channel_open_ok, put_close, put_close_ok,
    put_declare_ok, put_flow_ok, put_nack, put_select_ok,
};
use property_map::{Told, fault_name, part_name};
use publish_path::Confirm;
use session_path::PathOk;

/// So many bytes at most have the units that carry nothing of the client's: they are written in a
/// room that is kept.
pub const ROOM: usize = 512;

/// What is told of a message that has no image has so many bytes at most.
const TOLD_MAX: usize = 40;

/// The protocol header of AMQP 0-9-1 (AMQP 0-9-1 4.2.2).
const HEADER: [u8; 8] = [b'A', b'M', b'Q', b'P', 0, 0, 9, 1];

/// The protocol header.
fn header() -> &'static [u8]
    ensures bytes { result.now ≡ header_bytes }
    ensures len { length result.now ≡ 8 }
{
    &HEADER
}

/// connection.start (AMQP 0-9-1 1.4.2.1): versions 0-9, the gateway's properties, mechanisms and
/// locales.
#[tactic(auto, unfolding(gate_model::specs::Spelling::start_frame, frames_091::specs::Frames::frame_text))]
fn start() -> &'static [u8]
    ensures bytes { result.now ≡ start_frame }
    ensures len { length result.now ≡ 153 }
{
    &[
        0x01, 0x00, 0x00, 0x00, 0x00, 0x00, 0x91, 0x00, 0x0A, 0x00, 0x0A, 0x00, 0x09, 0x00, 0x00,
        0x00, 0x6B, 0x07, 0x70, 0x72, 0x6F, 0x64, 0x75, 0x63, 0x74, 0x53, 0x00, 0x00, 0x00, 0x09,
        0x61, 0x6D, 0x71, 0x70, 0x2D, 0x67, 0x61, 0x74, 0x65, 0x07, 0x76, 0x65, 0x72, 0x73, 0x69,
        0x6F, 0x6E, 0x53, 0x00, 0x00, 0x00, 0x01, 0x31, 0x0C, 0x63, 0x61, 0x70, 0x61, 0x62, 0x69,
        0x6C, 0x69, 0x74, 0x69, 0x65, 0x73, 0x46, 0x00, 0x00, 0x00, 0x35, 0x12, 0x70, 0x75, 0x62,
        0x6C, 0x69, 0x73, 0x68, 0x65, 0x72, 0x5F, 0x63, 0x6F, 0x6E, 0x66, 0x69, 0x72, 0x6D, 0x73,
        0x74, 0x01, 0x0A, 0x62, 0x61, 0x73, 0x69, 0x63, 0x2E, 0x6E, 0x61, 0x63, 0x6B, 0x74, 0x01,
        0x10, 0x70, 0x65, 0x72, 0x5F, 0x63, 0x6F, 0x6E, 0x73, 0x75, 0x6D, 0x65, 0x72, 0x5F, 0x71,
        0x6F, 0x73, 0x74, 0x01, 0x00, 0x00, 0x00, 0x0F, 0x50, 0x4C, 0x41, 0x49, 0x4E, 0x20, 0x41,
        0x4E, 0x4F, 0x4E, 0x59, 0x4D, 0x4F, 0x55, 0x53, 0x00, 0x00, 0x00, 0x05, 0x65, 0x6E, 0x5F,
        0x55, 0x53, 0xCE,
    ]
}

/// connection.tune (AMQP 0-9-1 1.4.2.5): channels up to 255, frames up to 131,072 bytes, a
/// heartbeat each 60 seconds.
#[tactic(auto, unfolding(gate_model::specs::Spelling::tune_frame, frames_091::specs::Frames::frame_text))]
fn tune() -> &'static [u8]
    ensures bytes { result.now ≡ tune_frame }
    ensures len { length result.now ≡ 20 }
{
    &[
        0x01, 0x00, 0x00, 0x00, 0x00, 0x00, 0x0C, 0x00, 0x0A, 0x00, 0x1E, 0x00, 0xFF, 0x00, 0x02,
        0x00, 0x00, 0x00, 0x3C, 0xCE,
    ]
}

/// connection.open-ok (AMQP 0-9-1 1.4.2.8).
#[tactic(auto, unfolding(gate_model::specs::Spelling::open_ok_frame, frames_091::specs::Frames::frame_text))]
fn open_ok() -> &'static [u8]
    ensures bytes { result.now ≡ open_ok_frame }
    ensures len { length result.now ≡ 13 }
{
    &[
        0x01, 0x00, 0x00, 0x00, 0x00, 0x00, 0x05, 0x00, 0x0A, 0x00, 0x29, 0x00, 0xCE,
    ]
}

/// A heartbeat (AMQP 0-9-1 4.2.7).
#[tactic(auto, unfolding(frames_091::specs::Frames::frame_text))]
fn heartbeat() -> &'static [u8]
    ensures bytes { result.now ≡ heartbeat_frame }
    ensures len { length result.now ≡ 8 }
{
    &[0x08, 0x00, 0x00, 0x00, 0x00, 0x00, 0x00, 0xCE]
}

/// Writes bytes over the first ones of a room, and answers their count.
pub fn write_over(room: &mut [u8; ROOM], bytes: &[u8]) -> usize
    requires { length bytes.now ≤ ROOM }
    ensures { IsWrittenOver bytes.now room.old room.new result }
{
    let count = bytes.len();
    room[..count].copy_from_slice(bytes);
    count
}

/// Writes a connection.close for a refusal, with the name of its code as text.
fn write_close(room: &mut [u8; ROOM], refusal: Refusal) -> usize
    ensures { IsWrittenOver (spell_reply (reply.Close refusal) []) room.old room.new result }
{
    let name = code_name(refusal.code);
    put_close(room, refusal.code, name, refusal.class, refusal.method)
}

/// What is told of a message that has no image: the name of the fault, and of the part of the
/// message that it is in.
fn told_text(told: Told) -> ArrayString<TOLD_MAX>
    ensures text { result.bytes ≡ told_text told }
    ensures short { length result.bytes ≤ 255 }
{
    let mut text = ArrayString::new();
    text.push_str(fault_name(told.fault));
    text.push_str(" ");
    text.push_str(part_name(told.part));
    text
}

/// Writes a channel.close for a reason, with the name of its code as text, or what is told of a
/// message that has no image.
fn write_channel_close(room: &mut [u8; ROOM], channel: u16, reason: Reason) -> usize
    ensures { IsWrittenOver (spell_reply (reply.ChannelClose channel reason) []) room.old room.new
        result }
{
    let Refusal {
        code,
        class,
        method,
        ..
    } = reason.refusal;
    match reason.told {
        None => put_channel_close(room, channel, code, code_name(code), class, method),
        Some(told) => {
            let text = told_text(told);
            put_channel_close(room, channel, code, text.as_bytes(), class, method)
        }
    }
}

/// Writes an ack or a nack on a channel.
fn write_confirm(room: &mut [u8; ROOM], channel: u16, confirm: Confirm) -> usize
    ensures { IsWrittenOver (channel_text channel (confirm_method confirm)) room.old room.new
        result }
{
    if confirm.ack {
        put_ack(room, channel, confirm.number, confirm.multiple)
    } else {
        put_nack(room, channel, confirm.number, confirm.multiple)
    }
}

/// Writes an answer or a confirm on a channel.
fn write_on_channel(room: &mut [u8; ROOM], channel: u16, unit: ChannelUnit) -> usize
    requires { takes_memory_told unit ≡ false }
    ensures { IsWrittenOver (spell_reply (reply.OnChannel channel unit) []) room.old room.new
        result }
{
    match unit {
        ChannelUnit::Ok(PathOk::Flow) => put_flow_ok(room, channel),
        ChannelUnit::Ok(PathOk::Declare) => put_declare_ok(room, channel),
        ChannelUnit::Ok(PathOk::Select) => put_select_ok(room, channel),
        ChannelUnit::Confirm(confirm) => write_confirm(room, channel, confirm),
        ChannelUnit::Ok(
            PathOk::Consume(_)
            | PathOk::Qos { .. }
            | PathOk::Cancel
            | PathOk::Queue
            | PathOk::Get
            | PathOk::Empty(_)
            | PathOk::Recover,
        )
        | ChannelUnit::Deliver(_)
        | ChannelUnit::Content(_)
        | ChannelUnit::Return(_) => unreachable!(),
    }
}

/// Writes the bytes of a unit to the client that takes no memory over the first ones of a room, and
/// answers their count.
pub fn spell_reply(room: &mut [u8; ROOM], reply: Reply) -> usize
    requires { takes_memory_back reply ≡ false }
    ensures written { IsWrittenOver (spell_reply reply []) room.old room.new result }
    ensures small { result ≤ ROOM }
{
    match reply {
        Reply::Protocol => write_over(room, header()),
        Reply::Start => write_over(room, start()),
        Reply::Tune => write_over(room, tune()),
        Reply::OpenOk => write_over(room, open_ok()),
        Reply::CloseOk => put_close_ok(room),
        Reply::Close(refusal) => write_close(room, refusal),
        Reply::Heartbeat => write_over(room, heartbeat()),
        Reply::NoMemory => put_close(room, RESOURCE_ERROR, b"NO_MEMORY", 0, 0),
        Reply::ChannelOpenOk(channel) => put_channel_open_ok(room, channel),
        Reply::OnChannel(channel, unit) => write_on_channel(room, channel, unit),
        Reply::ChannelCloseOk(channel) | Reply::CrossedOk(channel) => {
            put_channel_close_ok(room, channel)
        }
        Reply::ChannelClose(channel, reason) => write_channel_close(room, channel, reason),
    }
}
