//! Calls about closes and other answers: what is written of them without memory, and their codes
//! and names.

ghost use Rattle.std.specs.Prelude.{◌≤◌, length};

use super::numbers::number_call;
use crate::call::{Answer, Call, short_of, told};
use crate::verbs::{CLOSES, CODES, CONFIRMS, NAMES, OK};
use close_translate::{Scope, code_name, code_of, condition_of};
use methods_091::{
    put_ack, put_channel_close, put_channel_close_ok, put_channel_open_ok, put_close, put_close_ok,
    put_declare_ok, put_flow_ok, put_nack, put_select_ok,
};
use performatives_10::condition_name;
use std::alloc::Global;

/// The length of an answer, and the bytes that it was written over.
type Put = (usize, [u8; 512]);

/// What an answer is written over.
const ROOM: [u8; 512] = [0x5A; 512];

/// The answers that take a channel at most.
fn put_ok(channel: u16) -> [Put; 6] {
    let (mut closed, mut channel_closed) = (ROOM, ROOM);
    let (mut opened, mut flow) = (ROOM, ROOM);
    let (mut declared, mut selected) = (ROOM, ROOM);
    [
        (put_close_ok(&mut closed), closed),
        (
            put_channel_close_ok(&mut channel_closed, channel),
            channel_closed,
        ),
        (put_channel_open_ok(&mut opened, channel), opened),
        (put_flow_ok(&mut flow, channel), flow),
        (put_declare_ok(&mut declared, channel), declared),
        (put_select_ok(&mut selected, channel), selected),
    ]
}

/// An ack and a nack.
fn put_confirms(channel: u16, tag: u64, multiple: bool) -> [Put; 2] {
    let (mut ack, mut nack) = (ROOM, ROOM);
    [
        (put_ack(&mut ack, channel, tag, multiple), ack),
        (put_nack(&mut nack, channel, tag, multiple), nack),
    ]
}

/// The first of bytes, as many as a text of a close may have.
fn text_of(bytes: &[u8]) -> &[u8]
    ensures { length result.now ≤ 255 }
{
    let (text, _) = bytes.split_at(bytes.len().min(255));
    text
}

/// A close of the connection and one of a channel.
fn put_closes(call: Call) -> [Put; 2] {
    let channel = short_of(call.numbers[0]);
    let code = short_of(call.numbers[1]);
    let class = short_of(call.numbers[2]);
    let method = short_of(call.numbers[3]);
    let text = text_of(call.bytes);
    let (mut close, mut channel_close) = (ROOM, ROOM);
    let size = put_close(&mut close, code, text, class, method);
    let of_channel = put_channel_close(&mut channel_close, channel, code, text, class, method);
    [(size, close), (of_channel, channel_close)]
}

/// The scope that a number tells.
pub fn scope_of(number: u64) -> Scope {
    match number {
        0 => Scope::Channel,
        _ => Scope::Connection,
    }
}

/// The reply codes for an error condition and for none.
fn codes(call: Call) -> (u16, u16) {
    let scope = scope_of(call.numbers[0]);
    (code_of(Some(call.bytes), scope), code_of(None, scope))
}

/// The name of a reply code, and that of the error condition for it.
fn tell_names(alloc: Global, code: u16) -> Answer {
    told(alloc, (code_name(code), condition_name(condition_of(code))))
}

/// A call about a close or another answer.
pub fn close_call(alloc: Global, call: Call) -> Answer {
    let [first, second, third, _] = call.numbers;
    match call.verb {
        OK => told(alloc, put_ok(short_of(first))),
        CONFIRMS => told(alloc, put_confirms(short_of(first), second, third == 1)),
        CLOSES => told(alloc, put_closes(call)),
        NAMES => tell_names(alloc, short_of(first)),
        CODES => told(alloc, codes(call)),
        _ => number_call(alloc, call),
    }
}
