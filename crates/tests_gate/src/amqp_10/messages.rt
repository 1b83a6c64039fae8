//! Calls of `sections_10`, and the one that reads a content header.

use super::performatives::perf_call;
use super::values::{BEFORE, Written};
use crate::call::{Answer, Call, told};
use crate::verbs::{CONTENT, MESSAGE};
use content_091::read_header;
use sections_10::{Message10, SectionFault, can_be_written, put_message, read_message};
use std::alloc::Global;
use wire_base::{At, ByteText};

/// Writes a message.
pub fn put(alloc: Global, text: &mut ByteText, message: &Message10) -> Written {
    if !can_be_written(alloc, message)? {
        return Ok(false);
    }
    text.append(BEFORE)?;
    put_message(alloc, text, message)?;
    Ok(true)
}

/// Writes a message that was read.
fn put_read(
    alloc: Global,
    text: &mut ByteText,
    read: &Result<Message10, At<SectionFault>>,
) -> Written {
    match read {
        Ok(message) => put(alloc, text, message),
        Err(_) => Ok(false),
    }
}

/// The message that fills bytes, and what is written of it.
fn read(alloc: Global, bytes: &[u8]) -> Answer {
    let read = read_message(alloc, bytes)?;
    let mut text = ByteText::empty(alloc);
    let written = put_read(alloc, &mut text, &read);
    told(alloc, (read, written, text))
}

/// A call with bytes.
pub fn message_call(alloc: Global, call: Call) -> Answer {
    match call.verb {
        MESSAGE => read(alloc, call.bytes),
        CONTENT => told(alloc, read_header(alloc, call.bytes)),
        _ => perf_call(alloc, call),
    }
}
