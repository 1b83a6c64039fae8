//! Calls that list byte streams of both protocols.

use crate::call::{Answer, told};
use gate_listing::{Dialect, Listed, fault_text, list_units};
use gate_outside::{CallList, MemorySink};
use std::alloc::Global;

/// The room for a listing.
const LISTING: usize = 1_048_576;

/// How the listing of a stream ends, the text of its fault, and what is listed.
pub fn list_call(alloc: Global, dialect: Dialect, bytes: &[u8]) -> Answer {
    let mut sink = MemorySink::new(alloc, LISTING, CallList::empty(alloc))?;
    let listed = list_units(alloc, dialect, bytes, &mut sink);
    let text: &[u8] = match &listed {
        Ok(Listed::Bad(found)) => fault_text(found.fault),
        _ => b"",
    };
    let answer = told(alloc, (&listed, text, sink.held()));
    drop(sink);
    answer
}
