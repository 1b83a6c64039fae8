//! Calls of links, of which each answers the delivery-count and the credit behind it.

use super::words::Words;
use crate::call::{Answer, no_call, told};
use crate::verbs::{
    ARRIVED, ATTACHED, BEGIN, CANCEL, CREDIT, DRAIN, FLOW, GRANTED, NEW, QUOTA, RECOUNTED,
};
use links_10::{RecvLink, SendLink};
use std::alloc::Global;

/// The first frame of a transfer is sent, if there is credit.
fn begin(link: &mut SendLink) {
    if link.credit() >= 1 {
        link.begun();
    }
}

/// A call of a sending link: its delivery-count and its credit.
pub fn call_sender(alloc: Global, link: &mut SendLink, words: Words) -> Answer {
    match words.verb {
        NEW => *link = SendLink::new(),
        BEGIN => begin(link),
        CREDIT => link.flow(None, words.first),
        FLOW => link.flow(Some(words.first), words.second),
        DRAIN => link.drain(),
        _ => return no_call(alloc),
    }
    told(alloc, (link.count(), link.credit()))
}

/// A call of a receiving link: its delivery-count, its credit, what is left of its limit, and the
/// credit that is due.
pub fn call_receiver(alloc: Global, link: &mut RecvLink, words: Words) -> Answer {
    match words.verb {
        QUOTA => *link = RecvLink::new(words.first),
        ATTACHED => link.attached(words.first),
        GRANTED => link.granted(words.first),
        ARRIVED => link.arrived(),
        RECOUNTED => link.recounted(u64::from(words.first)),
        FLOW => link.flow(words.first),
        CANCEL => link.cancel(),
        _ => return no_call(alloc),
    }
    told(
        alloc,
        (
            link.count(),
            link.credit(),
            link.limit_left(),
            link.grant_due(),
        ),
    )
}
