//! Calls of what is kept of a session's links, publishes and deliveries.
//!
//! A line has two numbers of 32 bits, a sum of marks (`words.rt`), and a text as its bytes.
//!
//! | Line | Answer |
//! |---|---|
//! | `sender new`, `begin`, `credit CREDIT`, `flow COUNT CREDIT`, `drain` | the delivery-count and the credit of a sending link after it |
//! | `receiver quota N`, `attached COUNT`, `granted CREDIT`, `arrived`, `recounted N`, `flow COUNT`, `cancel` | the delivery-count and the credit of a receiving link, what is left of its limit, and the credit that is due |
//! | `handles ask` | what is answered of the handles of two links, of which one goes |
//! | `publishes life N`, `deliveries life N` | a life begins, without links |
//! | `publishes` and a verb | what the call of that name answers (`publishes.rt`) |
//! | `deliveries` and a verb | the same (`deliveries.rt`) |

mod credits;
mod deliveries;
mod handles;
mod publishes;
mod words;

use crate::call::{Answer, Call, no_call, told};
use crate::verbs::{DELIVERIES, HANDLES, LIFE, PUBLISHES, RECEIVER, SENDER};
use consume_path::Deliveries;
use credits::{call_receiver, call_sender};
use deliveries::call_deliveries;
use handles::handle_two_links;
use links_10::{RecvLink, SendLink};
use publishes::Sends;
use std::alloc::Global;
use std::mem;
use words::{Words, words_of};

/// What the calls are about.
#[derive(Drop)]
pub struct Paths {
    sender: SendLink,
    receiver: RecvLink,
    sends: Sends,
    deliveries: Deliveries,
}

impl Paths {
    pub fn new(alloc: Global) -> Paths {
        Paths {
            sender: SendLink::new(),
            receiver: RecvLink::new(0),
            sends: Sends::new(alloc, 0),
            deliveries: Deliveries::new(alloc, 0),
        }
    }

    /// A call of the publishes.
    fn call_sends(&mut self, alloc: Global, words: Words) -> Answer {
        if words.verb == LIFE {
            let sends = Sends::new(alloc, u64::from(words.first));
            drop(mem::replace(&mut self.sends, sends));
            return told(alloc, ());
        }
        self.sends.call(alloc, words)
    }

    /// A call of the deliveries.
    fn call_deliveries(&mut self, alloc: Global, words: Words) -> Answer {
        if words.verb == LIFE {
            let deliveries = Deliveries::new(alloc, u64::from(words.first));
            drop(mem::replace(&mut self.deliveries, deliveries));
            return told(alloc, ());
        }
        call_deliveries(alloc, &mut self.deliveries, words)
    }

    /// Makes a call on a subject.
    pub fn call(&mut self, alloc: Global, subject: u64, call: Call) -> Answer {
        let words = words_of(call);
        match subject {
            SENDER => call_sender(alloc, &mut self.sender, words),
            RECEIVER => call_receiver(alloc, &mut self.receiver, words),
            HANDLES => told(alloc, handle_two_links(alloc)),
            PUBLISHES => self.call_sends(alloc, words),
            DELIVERIES => self.call_deliveries(alloc, words),
            _ => no_call(alloc),
        }
    }
}
