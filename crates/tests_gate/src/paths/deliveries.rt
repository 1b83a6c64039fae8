//! Calls of the deliveries of a life.

ghost use Rattle.std.specs.Prelude.{◌≡◌, false};

use super::words::{AGAIN, MORE, MULTIPLE, NO_IMAGE, SETTLED, Words, has_mark};
use crate::call::{Answer, no_call, short_of, told};
use crate::verbs::{
    ACCEPT, ASK, CANCEL, CLOSE, CONSUMER, DELIVER, ECHO, EMPTY, FLOW, GETTER, GLOBAL, GRANT, LAST,
    LOSE, PREFETCH, REJECT, RELEASE, SETTLE, TELL, TRANSFER, WAIT, WRITTEN,
};
use consume_path::{
    Arrival, Content, Deliveries, Frames, NextGrant, NextSettle, Part, RecvKind, Settle,
    TransferFault,
};
use open_items::LostItem;
use std::alloc::Global;
use wire_base::{ByteText, Memory};

/// A link is attached.
fn attach(deliveries: &mut Deliveries, link: u32, kind: RecvKind) -> Result<(), Memory> {
    deliveries.add_link(link, kind)?;
    deliveries.link_attached(link, 0);
    Ok(())
}

/// The flow that is due is sent.
fn grant(deliveries: &mut Deliveries) -> Option<NextGrant> {
    let grant = deliveries.next_grant();
    if grant.is_some() {
        deliveries.granted();
    }
    grant
}

/// A get waits.
fn wait(deliveries: &mut Deliveries, link: u32) {
    if deliveries.takes_get(link) && deliveries.gets() < 1_000 {
        deliveries.get(link, false);
    }
}

/// The get-empty that is due is sent.
fn empty(deliveries: &mut Deliveries, link: u32) {
    if deliveries.drain_done(link) {
        deliveries.emptied(link);
    }
}

/// The transfer of a line, whose marks say what it is: `MORE`, `SETTLED`.
fn part_of(words: Words) -> Part
    ensures { result.aborted ≡ false }
{
    Part {
        id: Some(words.second),
        tag_length: Some(4),
        settled: has_mark(words, SETTLED),
        more: has_mark(words, MORE),
        aborted: false,
        resume: false,
    }
}

/// What goes to the client of a delivery, without bytes; nothing where its words have the mark `NO_IMAGE`.
fn content(alloc: Global, words: Words) -> Option<Content> {
    if has_mark(words, NO_IMAGE) {
        return None;
    }
    Some(Content {
        exchange: ByteText::empty(alloc),
        key: ByteText::empty(alloc),
        frames: Frames::empty(alloc),
    })
}

/// A transfer comes; a delivery that is whole is taken.
fn transfer(alloc: Global, deliveries: &mut Deliveries, words: Words) -> Result<Arrival, Memory> {
    let arrival = deliveries.transfer(words.first, part_of(words), b"bytes")?;
    if deliveries.is_whole(words.first) {
        deliveries.arrived(words.first, content(alloc, words), false)?;
    }
    Ok(arrival)
}

/// The transfer that ends its delivery comes, and the delivery is taken at once.
fn last(alloc: Global, deliveries: &mut Deliveries, words: Words) -> Result<(), Memory> {
    let again = has_mark(words, AGAIN);
    deliveries.last_transfer(words.first, part_of(words), content(alloc, words), again)
}

/// The deliver or get-ok that is due is begun: its tag and its delivery-id.
fn deliver(deliveries: &mut Deliveries) -> Option<(u64, u32)> {
    if deliveries.tags() >= 1_000 {
        return None;
    }
    match deliveries.next_deliver() {
        Some(next) => Some((deliveries.commit_deliver(next), next.id)),
        None => None,
    }
}

/// The disposition that is due is sent.
fn settle(deliveries: &mut Deliveries) -> Option<NextSettle> {
    let settle = deliveries.next_settle();
    if settle.is_some() {
        deliveries.settled();
    }
    settle
}

/// The line that is due of the delivery in this place.
fn line(deliveries: &Deliveries, place: usize) -> Option<LostItem> {
    let delivery = deliveries.items().get(place)?;
    Some(LostItem {
        life: deliveries.life(),
        number: u64::from(delivery.id),
        kind: delivery.line?,
    })
}

/// What is wrong with a transfer of one byte.
fn fault(deliveries: &Deliveries, words: Words) -> Option<TransferFault> {
    deliveries.fault(words.first, part_of(words), 1)
}

/// An answer of the client may name this tag.
fn knows(deliveries: &Deliveries, words: Words) -> bool {
    deliveries.knows(u64::from(words.first), has_mark(words, MULTIPLE))
}

/// What can be asked of the life, where a number stands for a tag, a delivery or a place; and of the link
/// with that number.
fn ask(alloc: Global, deliveries: &Deliveries, words: Words) -> Answer {
    let link = words.first;
    let of_life = (
        deliveries.tags(),
        knows(deliveries, words),
        deliveries.message(words.first).is_some(),
        line(deliveries, words.first as usize),
        deliveries.is_closed(),
        deliveries.links().len(),
        deliveries.has_tag(words.text),
    );
    let of_link = (
        fault(deliveries, words),
        deliveries.tag_of(link),
        deliveries.payload(link),
        deliveries.count_of(link),
        deliveries.covered(link),
        deliveries.drain_done(link),
    );
    told(alloc, (of_life, of_link))
}

/// The link of a consumer is attached, whose tag is the text of its words.
fn consume(alloc: Global, deliveries: &mut Deliveries, words: Words) -> Result<(), Memory> {
    let tag = ByteText::copy_of(alloc, words.text)?;
    let no_ack = false;
    attach(deliveries, words.first, RecvKind::Consumer { tag, no_ack })
}

/// What is done, and answers something; or what can be asked.
fn act(alloc: Global, deliveries: &mut Deliveries, words: Words) -> Answer {
    match words.verb {
        CONSUMER => told(alloc, consume(alloc, deliveries, words)),
        GETTER => told(alloc, attach(deliveries, words.first, RecvKind::Get)),
        LAST => told(alloc, last(alloc, deliveries, words)),
        GRANT => told(alloc, grant(deliveries)),
        TRANSFER => told(alloc, transfer(alloc, deliveries, words)),
        DELIVER => told(alloc, deliver(deliveries)),
        SETTLE => told(alloc, settle(deliveries)),
        ASK => ask(alloc, deliveries, words),
        _ => no_call(alloc),
    }
}

/// A call of a link, or of the life, that answers nothing; whether there is such a one.
fn change(deliveries: &mut Deliveries, words: Words) -> bool {
    match words.verb {
        WAIT => wait(deliveries, words.first),
        FLOW => deliveries.link_flow(words.first, words.second),
        ECHO => deliveries.link_echo(words.first),
        EMPTY => empty(deliveries, words.first),
        CANCEL => deliveries.cancel(words.first),
        PREFETCH => deliveries.set_prefetch(short_of(u64::from(words.first))),
        GLOBAL => deliveries.set_global(short_of(u64::from(words.first))),
        WRITTEN => deliveries.written(u64::from(words.first)),
        CLOSE => deliveries.release_all(),
        LOSE => deliveries.lost_all(),
        TELL => deliveries.lines_told(),
        _ => return false,
    }
    true
}

/// An answer of the client; whether it is one.
fn answer(deliveries: &mut Deliveries, words: Words) -> bool {
    let settle = match words.verb {
        ACCEPT => Settle::Accepted,
        REJECT => Settle::Rejected,
        RELEASE => Settle::Released,
        _ => return false,
    };
    let multiple = has_mark(words, MULTIPLE);
    deliveries.answered(u64::from(words.first), multiple, settle);
    true
}

/// A call of the deliveries.
pub fn call_deliveries(alloc: Global, deliveries: &mut Deliveries, words: Words) -> Answer {
    if change(deliveries, words) || answer(deliveries, words) {
        return told(alloc, ());
    }
    act(alloc, deliveries, words)
}
