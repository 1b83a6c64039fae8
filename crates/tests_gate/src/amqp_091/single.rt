//! Calls that are of nothing that was made before.

use super::closes::close_call;
use super::codecs::{content_header_call, method_call, table_call};
use super::frames::{parted_frame_call, parted_header_call, put_call};
use super::listings::list_call;
use crate::call::{Answer, Call, told, word_of};
use crate::verbs::{
    LIST_10, LIST_091, PUT_FRAME, READ_CONTENT, READ_METHOD, READ_TABLE, SCAN_FRAME,
    SCAN_FRAME_PARTS, SCAN_HEADER, SCAN_HEADER_PARTS,
};
use frames_091::{scan_frame, scan_header};
use gate_listing::Dialect;
use std::alloc::Global;

/// Makes a call of a codec, or one of those that stand in other files.
pub fn single_call(alloc: Global, call: Call) -> Answer {
    match call.verb {
        SCAN_HEADER => told(alloc, scan_header(call.bytes)),
        SCAN_HEADER_PARTS => parted_header_call(alloc, call),
        SCAN_FRAME => {
            let limit = word_of(call.numbers[0]).max(4096);
            told(alloc, scan_frame(alloc, call.bytes, limit))
        }
        SCAN_FRAME_PARTS => parted_frame_call(alloc, call),
        PUT_FRAME => put_call(alloc, call),
        READ_TABLE => table_call(alloc, call),
        READ_METHOD => method_call(alloc, call),
        READ_CONTENT => content_header_call(alloc, call),
        LIST_091 => list_call(alloc, Dialect::Amqp091, call.bytes),
        LIST_10 => list_call(alloc, Dialect::Amqp10, call.bytes),
        _ => close_call(alloc, call),
    }
}
