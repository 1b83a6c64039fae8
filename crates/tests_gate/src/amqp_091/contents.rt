//! Calls that put a content together.

use crate::call::{Answer, Call, told};
use crate::verbs::HEADER;
use content_091::Assembly;
use std::alloc::Global;
use wire_base::ByteText;

/// What the payload of a header or of a body frame comes to.
pub fn content_call(alloc: Global, content: &mut Assembly, call: Call) -> Answer {
    if !content.is_open() {
        return told(alloc, false);
    }
    if call.verb == HEADER {
        return told(alloc, content.header(alloc, call.bytes));
    }
    let payload = ByteText::copy_of(alloc, call.bytes)?;
    told(alloc, content.body(payload))
}
