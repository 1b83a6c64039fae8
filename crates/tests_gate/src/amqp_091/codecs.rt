//! Calls that read tables, methods and content headers, and write what was read.

use crate::call::{Answer, Call, told};
use content_091::{put_header, read_header};
use methods_091::{ids, put_method, read_method};
use std::alloc::Global;
use tables_091::{put_table, read_table};
use wire_base::ByteText;

/// The table at an offset.
pub fn table_call(alloc: Global, call: Call) -> Answer {
    let (table, end) = match read_table(alloc, call.bytes, call.numbers[0] as usize)? {
        Ok(found) => found,
        Err(found) => return told(alloc, found),
    };
    let mut written = ByteText::empty(alloc);
    let put = put_table(&mut written, &table);
    let answer = told(alloc, (&table, end, put, written.as_slice()));
    drop(written);
    drop(table);
    answer
}

/// The method that fills the bytes.
pub fn method_call(alloc: Global, call: Call) -> Answer {
    let method = match read_method(alloc, call.bytes)? {
        Ok(method) => method,
        Err(found) => return told(alloc, found),
    };
    let mut written = ByteText::empty(alloc);
    let put = put_method(&mut written, &method);
    let answer = told(alloc, (ids(&method), &method, put, written.as_slice()));
    drop(written);
    drop(method);
    answer
}

/// The content header that fills the bytes.
pub fn content_header_call(alloc: Global, call: Call) -> Answer {
    let header = match read_header(alloc, call.bytes)? {
        Ok(header) => header,
        Err(found) => return told(alloc, found),
    };
    let mut written = ByteText::empty(alloc);
    let put = put_header(&mut written, &header);
    let answer = told(alloc, (&header, put, written.as_slice()));
    drop(written);
    drop(header);
    answer
}
