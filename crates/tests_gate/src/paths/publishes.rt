//! Calls of the publishes of a life, and of the links that they go on.

ghost use Rattle.std.specs.Prelude.{◌≡◌, ◌<◌, IfOk, OnErr};

use super::words::{CONFIRMED, MANDATORY, Words, has_mark};
use crate::call::{Answer, no_call, told};
use crate::verbs::{
    ACCEPTED, ADD, ALL_LOST, ASK, ATTACHED, CONFIRM, DRAIN, FLOW, LOST, NEEDED, NOT_FOUND, REFUSED,
    RELEASED, REMOVE, RETURN, SEND, TOLD,
};
use open_items::{Frames, LostItem};
use publish_path::{Confirm, NextFrame, Outcome, Payload, Publishes, SendLinks};
use std::alloc::Global;
use wire_base::{ByteText, Memory};

/// The publishes of a life, and their links.
#[derive(Drop)]
pub struct Sends {
    links: SendLinks,
    publishes: Publishes,
    /// So many publishes were taken up.
    taken: u64,
    ghost counted: { taken ≡ publishes.numbers },
}

/// A link is needed, unless one has its number or its address.
fn need(alloc: Global, links: &mut SendLinks, link: u32, address: &[u8]) -> Result<(), Memory> {
    if links.find(address).is_some() || links.get(link).is_some() {
        return Ok(());
    }
    links.add(link, ByteText::copy_of(alloc, address)?)
}

/// A call of a link that is there; whether there is such a one.
fn call_link(links: &mut SendLinks, words: Words) -> bool {
    let link = words.first;
    if links.get(link).is_none() {
        return false;
    }
    match words.verb {
        ATTACHED => links.attached(link),
        FLOW => links.flow(link, None, words.second),
        DRAIN => links.drain(link),
        REMOVE => links.remove(link),
        _ => return false,
    }
    true
}

/// The payload with these bytes: half of them in front, and the others behind.
fn payload_of(alloc: Global, bytes: &[u8]) -> Result<Payload, Memory> {
    let (front, body) = bytes.split_at(bytes.len() / 2);
    Ok(Payload::new(
        ByteText::copy_of(alloc, front)?,
        ByteText::copy_of(alloc, body)?,
    ))
}

/// A publish is taken up, unless too much is held.
fn take_up(
    publishes: &mut Publishes,
    link: u32,
    confirm: bool,
    payload: Payload,
    back: Frames,
) -> Result<u64, Memory>
    requires { publishes.old.numbers < 100 }
    ensures number { IfOk result (λ number. publishes.new.numbers ≡ number) }
    ensures err { OnErr result (publishes.new.numbers ≡ publishes.old.numbers) }
{
    let (count, sum) = publishes.held();
    if count >= 100 || sum >= 1_000 || payload.len() >= 1_000 {
        return Err(Memory);
    }
    publishes.add(link, confirm, payload, back)
}

/// Adds the frames of a basic.return.
fn put_frames(alloc: Global, back: &mut Frames) -> Result<(), Memory> {
    back.push(ByteText::copy_of(alloc, b"method")?)?;
    back.push(ByteText::copy_of(alloc, b"header")?)
}

/// The frames of a basic.return: two, or none.
fn frames_back(alloc: Global, mandatory: bool) -> Result<Frames, Memory> {
    let mut back = Frames::empty(alloc);
    if mandatory {
        put_frames(alloc, &mut back)?;
    }
    Ok(back)
}

/// The frame that is due is sent, with so many bytes at most.
fn send(publishes: &mut Publishes, links: &mut SendLinks, most: usize) -> Option<NextFrame>
    ensures { publishes.new.numbers ≡ publishes.old.numbers }
{
    let frame = publishes.next_frame(links, 1)?;
    let left = match publishes.rest(frame.publish) {
        Some(rest) => rest.len(),
        None => 0,
    };
    let bytes = left.min(most);
    if bytes > 1_000 {
        return None;
    }
    publishes.commit_frame(links, frame, bytes as u32);
    Some(frame)
}

/// The frame that is returned next; `None` where none is.
fn frame_back(publishes: &Publishes) -> Option<&ByteText> {
    match publishes.next_return() {
        Some(next) => publishes.return_frame(next.publish),
        None => None,
    }
}

/// The frame that is returned next is sent: its publish, whether it is the first, and its bytes.
fn send_back(alloc: Global, publishes: &mut Publishes) -> Answer
    ensures { publishes.new.numbers ≡ publishes.old.numbers }
{
    let answer = told(alloc, (publishes.next_return(), frame_back(publishes)));
    if publishes.next_return().is_some() {
        publishes.returned();
    }
    answer
}

/// The confirm that is due is sent.
fn confirm(publishes: &mut Publishes) -> Option<Confirm>
    ensures { publishes.new.numbers ≡ publishes.old.numbers }
{
    let confirm = publishes.next_confirm();
    if confirm.is_some() {
        publishes.confirmed();
    }
    confirm
}

/// The line that is due of the publish in this place.
fn line(publishes: &Publishes, place: usize) -> Option<LostItem> {
    let publish = publishes.items().get(place)?;
    Some(LostItem {
        life: publishes.life(),
        number: publish.number,
        kind: publish.line?,
    })
}

/// An outcome comes of these deliveries; whether it told of any.
fn settle(publishes: &mut Publishes, words: Words) -> bool
    ensures { publishes.new.numbers ≡ publishes.old.numbers }
{
    let outcome = match words.verb {
        ACCEPTED => Outcome::Accepted,
        RELEASED => Outcome::Released,
        _ => Outcome::Refused,
    };
    publishes.outcome(words.first, words.second, outcome)
}

/// What is lost, or told; whether there is such a call.
fn lose(publishes: &mut Publishes, words: Words) -> bool
    ensures { publishes.new.numbers ≡ publishes.old.numbers }
{
    match words.verb {
        LOST => publishes.lost_link(words.first, false),
        NOT_FOUND => publishes.lost_link(words.first, true),
        ALL_LOST => publishes.lost_all(),
        TOLD => publishes.lines_told(),
        _ => return false,
    }
    true
}

/// What can be asked of the publishes, where a number stands for a link, a publish or a place; and of
/// their links.
fn ask(alloc: Global, sends: &Sends, words: Words) -> Answer {
    let publishes = &sends.publishes;
    let links = &sends.links;
    let of_publishes = (
        publishes.next_frame(links, words.first),
        publishes.next_id(),
        line(publishes, words.first as usize),
        publishes.rest(u64::from(words.first)).is_some(),
        publishes.held(),
        publishes.waits(words.first),
        publishes.unanswered(Some(words.first)),
    );
    let of_links = (links.find(words.text), links.can_send(words.first));
    told(alloc, (of_publishes, of_links))
}

impl Sends {
    /// No publishes and no links, in the life with this number.
    pub fn new(alloc: Global, life: u64) -> Sends {
        Sends {
            links: SendLinks::new(alloc),
            publishes: Publishes::new(alloc, life),
            taken: 0,
        }
    }

    /// A publish is taken up.
    fn add(&mut self, alloc: Global, words: Words) -> Answer {
        if self.taken >= 100 {
            return no_call(alloc);
        }
        let payload = payload_of(alloc, words.text)?;
        let back = frames_back(alloc, has_mark(words, MANDATORY))?;
        let confirmed = has_mark(words, CONFIRMED);
        self.taken = take_up(&mut self.publishes, words.first, confirmed, payload, back)?;
        told(alloc, self.taken)
    }

    /// A call that may change something, or a question.
    pub fn call(&mut self, alloc: Global, words: Words) -> Answer {
        let (links, publishes) = (&mut self.links, &mut self.publishes);
        match words.verb {
            ADD => self.add(alloc, words),
            NEEDED => told(alloc, need(alloc, links, words.first, words.text)),
            SEND => told(alloc, send(publishes, links, words.first as usize)),
            CONFIRM => told(alloc, confirm(publishes)),
            RETURN => send_back(alloc, publishes),
            ASK => ask(alloc, self, words),
            ACCEPTED | RELEASED | REFUSED => told(alloc, settle(publishes, words)),
            _ if lose(publishes, words) || call_link(links, words) => told(alloc, ()),
            _ => no_call(alloc),
        }
    }
}
