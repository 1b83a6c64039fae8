//! Calls of `types_10`.

use super::messages::message_call;
use crate::call::{Answer, Call, told};
use crate::verbs::VALUE;
use std::alloc::Global;
use types_10::{TypeFault, Value10, has_spelling, put_value, read_value, skip_value};
use wire_base::{At, ByteText, Memory};

/// What stands before each value and each message that is written.
pub const BEFORE: &[u8] = b"before";

/// Whether something is written.
pub type Written = Result<bool, Memory>;

/// Writes a value.
pub fn put(text: &mut ByteText, value: &Value10) -> Written {
    if !has_spelling(value) {
        return Ok(false);
    }
    text.append(BEFORE)?;
    put_value(text, value)?;
    Ok(true)
}

/// Writes a value that was read.
fn put_read(text: &mut ByteText, read: &Result<(Value10, usize), At<TypeFault>>) -> Written {
    match read {
        Ok((value, _)) => put(text, value),
        Err(_) => Ok(false),
    }
}

/// What is read at an offset, how it is passed over, and what is written of it.
fn read_at(alloc: Global, bytes: &[u8], at: usize) -> Answer {
    let read = read_value(alloc, bytes, at)?;
    let mut text = ByteText::empty(alloc);
    let written = put_read(&mut text, &read);
    told(alloc, (read, skip_value(bytes, at), written, text))
}

/// A call with bytes, and with an offset.
pub fn value_call(alloc: Global, call: Call) -> Answer {
    match call.verb {
        VALUE => read_at(alloc, call.bytes, call.numbers[0] as usize),
        _ => message_call(alloc, call),
    }
}
