//! Calls of the libraries of AMQP 1.0, and of those that carry messages of each protocol into the
//! other.
//!
//! | Line | Answer | Stands in |
//! |---|---|---|
//! | `value AT`, bytes | of `read_value` at an offset, of `skip_value`, and what is written of the value | `values.rt` |
//! | `message`, bytes | of `read_message`, and what is written of the message | `messages.rt` |
//! | `content`, bytes | of `read_header` of `content_091` | |
//! | `perf`, bytes | of `read_perf`, and what is written of the performative | `performatives.rt` |
//! | `properties`, bytes | those of an open or a flow, which are kept as they are spelled, read; `false` where there are none | |
//! | `settled CHANNEL FIRST 0`, `settled CHANNEL FIRST 1 LAST` | of `put_settled`, and the room behind the call | |
//! | `frame LIMIT`, bytes | of `scan_frame10` within a limit, or 512 where that is more, and what is written of the frame | `frames.rt` |
//! | `headers`, bytes | of `scan_header10` for AMQP and for SASL | |
//! | `to10 A B C`, bytes | what is written of the image that `to_10` gives, and what `to_091` gives for it | `mapping.rt` |
//! | `to091 A ROOM`, bytes | of `redelivered` and of `to_091` for what `read_message` gives | |
//! | `clear` | forgets the values that were built | `building.rt` |
//! | `push`, `string`, `symbol`, `char`, `list`, `array`, `map`, `described` | how many values there are behind it | |
//! | `built` | the last value, and what is written of it | |
//!
//! The bytes of `to10` are an exchange of A bytes, a key of B, the payload of a content header of C,
//! and a body. The image comes back for the queue `queue` and the room 131,064. The bytes of `to091`
//! are a queue of A bytes and a message.
//!
//! Before what is written stands whether something can be. It stands behind the text `before`, but
//! that of performatives and frames.

mod building;
mod frames;
mod mapping;
mod messages;
mod performatives;
mod values;

use crate::call::{Answer, Call, told};
use crate::verbs::{
    ARRAY, BUILT, CHAR, CLEAR, DESCRIBED, LIST, MAP, PUSH, STRING, SYMBOL, TO10, TO091,
};
use building::{build, tell_last};
use mapping::{image_call, mapped};
use std::alloc::Global;
use types_10::Value10;
use values::value_call;

/// A call, to which lines before may have built values.
pub fn call_10(alloc: Global, values: &mut Vec<Value10>, call: Call) -> Answer {
    match call.verb {
        CLEAR => told(alloc, values.clear()),
        BUILT => tell_last(alloc, values),
        PUSH | STRING | SYMBOL | CHAR | LIST | ARRAY | MAP | DESCRIBED => {
            build(alloc, values, call)
        }
        TO10 => image_call(alloc, call),
        TO091 => mapped(alloc, call),
        _ => value_call(alloc, call),
    }
}
