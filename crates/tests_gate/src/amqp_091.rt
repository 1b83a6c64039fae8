//! Calls of the libraries of AMQP 0-9-1, and of the listings of both protocols.
//!
//! | Line | Answer |
//! |---|---|
//! | `scan-header`, bytes, `scan-frame LIMIT`, bytes | the unit with which the bytes begin, and its length; a limit is 4096 at least |
//! | `scan-header-parts COUNT`, bytes, `scan-frame-parts LIMIT COUNT`, bytes | the same where so many of the bytes came before the others, behind how it went to keep those |
//! | `put-frame KIND CHANNEL`, bytes | what is written of a frame with this payload behind the text `before`; kinds are 1, 2, 3 and 8 |
//! | `read-table AT`, bytes | the table at an offset, the offset after it, and what is written of it |
//! | `read-method`, bytes | the ids, the method that fills the bytes, and what is written of it |
//! | `read-content`, bytes | the content header that fills the bytes, and what is written of it |
//! | `assemble`, `header`, bytes, `body`, bytes | a new content, and what a frame of it comes to: `false` where it takes none |
//! | `closes CHANNEL CODE CLASS METHOD`, bytes | of a close of the connection and of one of the channel, which are written without memory, the length and the 512 bytes around it, which were 5A |
//! | `ok CHANNEL` | the same of the connection's close-ok, and of the channel's close-ok, open-ok, flow-ok, declare-ok and select-ok |
//! | `confirms CHANNEL TAG MULTIPLE` | the same of an ack and a nack |
//! | `names CODE` | the name of a reply code, and of the error condition for it |
//! | `codes SCOPE`, bytes | the reply code for an error condition, and for none; 0 is a channel, and 1 is the connection |
//! | `front END`, bytes | what the readers of numbers and texts take from the front of bytes that end at an offset, and the offset of the bytes |
//! | `set AT N`, bytes, `truncate N`, bytes, `discard N`, bytes | the bytes after that |
//! | `room N COUNT`, bytes | how many more fit into so much reserved room behind the bytes, if they fit, and the bytes without the first so many |
//! | `list-091`, bytes, `list-10`, bytes | how the listing of a stream ends, the text of its fault, and what is listed |
//! | `new`, bytes | a new connection to this virtual host |
//! | `swap` | the connection that is spoken of is the other one of two |
//! | `protocol`, `bad CODE`, `take KIND CHANNEL`, bytes | what a unit wants |
//! | `opened CHANNEL`, `ended`, `closing SCOPE CHANNEL`, `told CHANNEL`, `closed CHANNEL` | another event comes |
//! | `state`, `is-open CHANNEL` | what can be asked of the connection |

mod closes;
mod codecs;
mod contents;
mod frames;
mod listings;
mod machine;
mod numbers;
mod single;

use crate::call::{Answer, Call, told};
use crate::verbs::{ASSEMBLE, BODY, HEADER, NEW, SWAP};
use content_091::Assembly;
use contents::content_call;
use machine::connection_call;
use machine_091::Conn91;
use std::alloc::Global;
use std::mem;
use wire_base::ByteText;

/// What calls are made of one after another: a content, and two connections, of which one is spoken
/// of.
#[derive(Drop)]
pub struct Calls091 {
    content: Assembly,
    conn: Conn91,
    other: Conn91,
}

impl Calls091 {
    pub fn new(alloc: Global) -> Calls091 {
        Calls091 {
            content: Assembly::begin(),
            conn: Conn91::new(ByteText::empty(alloc)),
            other: Conn91::new(ByteText::empty(alloc)),
        }
    }

    /// Makes a call.
    pub fn call(&mut self, alloc: Global, call: Call) -> Answer {
        match call.verb {
            ASSEMBLE => drop(mem::replace(&mut self.content, Assembly::begin())),
            HEADER | BODY => return content_call(alloc, &mut self.content, call),
            NEW => {
                let vhost = ByteText::copy_of(alloc, call.bytes)?;
                drop(mem::replace(&mut self.conn, Conn91::new(vhost)));
            }
            SWAP => mem::swap(&mut self.conn, &mut self.other),
            _ => return connection_call(alloc, &mut self.conn, call),
        }
        told(alloc, true)
    }
}
