//! The publishes of a life of a channel: each call is one event, or a question on what is due.

ghost use Rattle.std.specs.Prelude.{◌≡◌, ◌+◌, ◌-◌, ◌%◌, ◌<◌, ◌≤◌, ◌^◌, ◌↔◌, ◌&&◌, ◌||◌, not};
ghost use Rattle.std.specs.Prelude.{[], filter, count_by, drop, nat_lt};
ghost use Rattle.std.specs.Prelude.{length, true, false, if◌then◌else◌, ◌==◌, OnOk, OnErr, IfOk};
ghost use Rattle.std.specs.Prelude.{IfSome, IsSome, IsNone, Some, None, option_copied, find};
ghost use Rattle.std.specs.List.{list_any};
ghost use Rattle.publish_path.specs.Links.{link_of, can_send};
ghost use Rattle.publish_path.specs.Publishes.{PublishState, TakenUp, OutcomeCame, LinkGone};
ghost use Rattle.publish_path.specs.Publishes.{ConfirmSent, LinesTold, ReturnSent, no_publishes};
ghost use Rattle.publish_path.specs.Publishes.{after_event, new_publish, is_open, is_told};
ghost use Rattle.publish_path.specs.Publishes.{takes, takes_return};
ghost use Rattle.publish_path.specs.Kept.{after_frame, end_at};
ghost use Rattle.publish_path.specs.Offers.{frame_of, next_frame_of, links_after, rest_of};
ghost use Rattle.publish_path.specs.Offers.{frame_sent, next_confirm_of, held_count};
ghost use Rattle.publish_path.specs.Offers.{held_bytes, waits_on, is_pending, next_return_of};
ghost use Rattle.publish_path.specs.Offers.{return_of, return_frame_of, lines_of};
ghost use Rattle.publish_path.specs.Payloads.{joined};

use crate::changes::{Change, compact};
use crate::counts::Counts;
use crate::payload::{Payload, Pieces};
use crate::publish::{Answer, Confirm, NextFrame, NextReturn, Outcome, Place, Publish};
use crate::searches::{
    any_waiting, confirm_from, count_pending, first_begun, first_returning, first_taking,
    first_taking_return, first_to_begin, first_to_return, past_from, returning_from, taking_from,
    told_from, unsent_from, unsettled_from,
};
use crate::send_links::SendLinks;
use crate::visits::change_between;
use open_items::Frames;
use std::alloc::Global;
use std::marker::Model;
use wire_base::{ByteText, Memory};

/// The publishes of a life of a channel. Contracts see those for which something is still to come,
/// and the numbers given. No call takes memory but `add`.
#[derive(Drop)]
pub struct Publishes {
    life: u64,
    /// By rising number; some may be closed.
    items: Vec<Publish>,
    numbers: u64,
    confirms: u64,
    next_id: u32,
    /// The delivery-ids began from 0 again.
    wrapped: bool,
    counts: Counts,
    /// Of each publish before this place the last frame was sent, or its link was lost.
    front: usize,
    /// Each publish before this place is settled.
    settled: usize,
    /// With so many items, the closed ones are left out.
    room: usize,
}

impl Model for Publishes {
    ghost use Rattle.std.specs.Prelude.{◌≡◌, filter, false};
    ghost use Rattle.publish_path.specs.Publishes.{PublishState, is_open};
    ghost use Rattle.publish_path.specs.Kept.{IsKept, HaveIds};

    ghost Value = { PublishState };

    ghost view = { λ a. record {
      life = a.life;
      list = filter is_open a.items.items;
      numbers = a.numbers;
      confirms = a.confirms;
      next_id = a.next_id;
    } };

    ghost invariant = { λ a. IsKept a.items.items a.numbers a.confirms a.counts a.front a.settled
        × (a.wrapped ≡ false → HaveIds a.next_id a.items.items) };
}

/// There is room for so many items at least.
const LEAST_ROOM: usize = 16;

fn new_one(number: u64, link: u32, confirm: Option<u64>, payload: Payload, back: Frames) -> Publish
    ensures { result ≡ new_publish number link confirm payload back }
{
    let size = payload.len();
    Publish {
        number,
        link,
        confirm,
        id: None,
        payload,
        gone: 0,
        size,
        place: Place::Waiting,
        answer: Answer::Open,
        back,
        returning: false,
        line: None,
    }
}

fn frame_of(p: &Publish, first: bool) -> NextFrame
    ensures { result ≡ frame_of first p.now }
{
    NextFrame {
        publish: p.number,
        link: p.link,
        first,
    }
}

fn return_of(p: &Publish, first: bool) -> NextReturn
    ensures { result ≡ return_of first p.now }
{
    NextReturn {
        publish: p.number,
        first,
    }
}

/// The delivery-id of the next transfer, after a frame; they count in 32 bits (AMQP 1.0 2.7.5).
fn id_after(id: u32, first: bool) -> u32
    ensures { result ≡ (if first then (id + 1) % 2 ^ 32 else id) }
{
    if first { id.wrapping_add(1) } else { id }
}

/// The delivery-ids began from 0 again, now or before.
fn has_wrapped(before: bool, first: bool, next_id: u32) -> bool
    ensures { result ≡ (before || first && next_id == 0) }
{
    before || first && next_id == 0
}

/// One delivery-id, which no two publishes have.
fn is_alone(first: u32, last: u32, wrapped: bool) -> bool
    ensures { result ≡ (first == last && not wrapped) }
{
    first == last && !wrapped
}

/// The end of what an outcome may tell, from the first place that it tells.
fn end_at(alone: bool, place: usize, end: usize) -> usize
    ensures { result ≡ end_at alone place end }
{
    if alone && place < end { place + 1 } else { end }
}

/// The bytes from a place on; `None` if there are none.
#[tactic(auto, using(crate::proofs::Steps::drop_past))]
fn part_from(payload: &Payload, from: usize) -> Option<Pieces<'_>>
    ensures none { IsNone result ↔ drop from payload.now ≡ [] }
    ensures part { IfSome result (λ part. joined part ≡ drop from payload.now) }
{
    if from < payload.len() {
        Some(payload.from(from))
    } else {
        None
    }
}

impl Publishes {
    /// No publishes, in the life with this number. It takes the allocator that later growth uses,
    /// and no memory.
    pub fn new(alloc: Global, life: u64) -> Publishes
        ensures { result ≡ no_publishes life }
    {
        Publishes {
            life,
            items: Vec::new(alloc),
            numbers: 0,
            confirms: 0,
            next_id: 0,
            wrapped: false,
            counts: Counts::none(),
            front: 0,
            settled: 0,
            room: LEAST_ROOM,
        }
    }

    /// Leaves out what is closed, once there are as many items as there is room for. There is room
    /// for twice as many as are left, so each item is looked at a few times in all.
    #[tactic(auto, using(crate::proofs::Steps::open_open))]
    fn make_room(&mut self)
        ensures { self.new ≡ self.old }
    {
        if self.items.len() < self.room {
            return;
        }
        compact(&mut self.items);
        self.front = unsent_from(self.items.as_slice(), 0);
        self.settled = unsettled_from(self.items.as_slice(), 0);
        self.room = self.items.len().saturating_mul(2).max(LEAST_ROOM);
    }

    /// A publish was taken up, for this link, with the payload of its transfer and the frames of
    /// its basic.return (AMQP 0-9-1 1.8.3.8), none unless it is mandatory; `confirm` says whether
    /// it is to be confirmed. The answer is its number.
    #[tactic(auto, using(crate::proofs::Steps::add_seen, crate::proofs::Steps::add_count, crate::proofs::Steps::add_bytes, crate::proofs::Steps::held_seen, crate::proofs::Steps::bytes_seen))]
    pub fn add(
        &mut self,
        link: u32,
        confirm: bool,
        payload: Payload,
        back: Frames,
    ) -> Result<u64, Memory>
        requires numbers { self.old.numbers < 2 ^ 62 }
        requires count { held_count self.old.list + 1 < 2 ^ 32 }
        requires bytes { held_bytes self.old.list + length payload < 2 ^ 64 }
        ensures ok { OnOk result (self.new ≡ after_event (TakenUp link confirm payload back)
            self.old) }
        ensures number { IfOk result (λ number. number ≡ self.old.numbers + 1) }
        ensures err { OnErr result (self.new ≡ self.old) }
    {
        self.make_room();
        let (held, bytes) = self.held();
        let number = self.numbers + 1;
        let size = payload.len() as u64;
        let confirms = if confirm {
            self.confirms + 1
        } else {
            self.confirms
        };
        let confirm = if confirm { Some(confirms) } else { None };
        self.items
            .push(new_one(number, link, confirm, payload, back))?;
        self.numbers = number;
        self.confirms = confirms;
        self.counts.held = held + 1;
        self.counts.bytes = bytes + size;
        Ok(number)
    }

    /// How many publishes are held, and the sum of the lengths of their whole payloads. One is held
    /// until its last frame was sent, or its link was lost; a mandatory one until it has an outcome
    /// too.
    #[tactic(auto, using(crate::proofs::Steps::held_seen, crate::proofs::Steps::bytes_seen))]
    pub fn held(&self) -> (u32, u64)
        ensures count { result.0 ≡ held_count self.now.list }
        ensures bytes { result.1 ≡ held_bytes self.now.list }
    {
        (self.counts.held, self.counts.bytes)
    }

    /// The transfer frame that goes next, where the container takes so many more frames (AMQP 1.0
    /// 2.5.6).
    #[tactic(auto, using(crate::proofs::Steps::begun_seen, crate::proofs::Steps::begins_seen))]
    pub fn next_frame(&self, links: &SendLinks, window: u32) -> Option<NextFrame>
        ensures frame { result ≡ (if window == 0 then None
            else next_frame_of links.now self.now.list) }
        ensures credit { IfSome result (λ frame. frame.first ≡ true
            → can_send (link_of links.now frame.link) ≡ true) }
    {
        if window == 0 {
            return None;
        }
        if let Some(p) = first_begun(self.items.as_slice(), self.front) {
            return Some(frame_of(p, false));
        }
        match first_to_begin(links, self.items.as_slice(), self.front) {
            Some(p) => Some(frame_of(p, true)),
            None => None,
        }
    }

    /// The bytes of a publish's payload that are still to be sent; `None` if there are none.
    #[tactic(auto, using(crate::proofs::Steps::taking_seen))]
    pub fn rest(&self, publish: u64) -> Option<Pieces<'_>>
        ensures none { IsNone result ↔ rest_of publish self.now.list ≡ [] }
        ensures rest { IfSome result (λ rest. joined rest ≡ rest_of publish self.now.list) }
    {
        match first_taking(self.items.as_slice(), self.front, publish) {
            Some(p) => part_from(&p.payload, p.gone),
            None => None,
        }
    }

    /// The delivery-id of the next transfer that begins.
    pub fn next_id(&self) -> u32
        ensures { result ≡ self.now.next_id }
    {
        self.next_id
    }

    /// A frame was sent, with so many bytes.
    #[tactic(auto, using(crate::proofs::Steps::changed_seen))]
    fn framed(&mut self, frame: NextFrame, count: usize)
        requires { IsSome (find (takes frame.publish) self.old.list) }
        ensures { self.new ≡ after_frame frame.publish frame.first count self.old }
    {
        let place = taking_from(self.items.as_slice(), self.front, frame.publish);
        let change = Change::Framed {
            number: frame.publish,
            first: frame.first,
            id: self.next_id,
            count,
        };
        self.counts = change_between(&mut self.items, self.counts, place, place + 1, change);
        self.front = unsent_from(self.items.as_slice(), self.front);
        self.next_id = id_after(self.next_id, frame.first);
        self.wrapped = has_wrapped(self.wrapped, frame.first, self.next_id);
    }

    /// This frame was sent, with so many bytes of its publish's payload.
    #[tactic(auto, using(crate::proofs::Steps::length_part, crate::proofs::Steps::first_can_send, crate::proofs::Ahead::frame_there))]
    pub fn commit_frame(&mut self, links: &mut SendLinks, frame: NextFrame, bytes: u32)
        requires frame { next_frame_of links.old self.old.list ≡ Some frame }
        requires bytes { bytes ≤ length (rest_of frame.publish self.old.list) }
        ensures publishes { self.new ≡ after_event (frame_sent frame bytes self.old.list) self.old }
        ensures links { links.new ≡ links_after frame links.old }
    {
        self.framed(frame, bytes as usize);
        if frame.first {
            links.begun(frame.link);
        }
    }

    /// Some publish waits on this link.
    #[tactic(auto, using(crate::proofs::Steps::waiting_seen))]
    pub fn waits(&self, link: u32) -> bool
        ensures { result ≡ list_any (waits_on link) self.now.list }
    {
        any_waiting(self.items.as_slice(), self.front, link)
    }

    /// How many publishes of this link, or of each, wait, are begun, or have no outcome.
    #[tactic(auto, using(crate::proofs::Steps::pending_seen))]
    pub fn unanswered(&self, link: Option<u32>) -> u64
        ensures { result ≡ count_by (is_pending link) self.now.list }
    {
        count_pending(self.items.as_slice(), link) as u64
    }

    /// An outcome came for the delivery-ids from `first` to `last`, which counts for those that had
    /// none. True if there are such.
    #[tactic(auto, using(crate::proofs::Steps::changed_seen))]
    pub fn outcome(&mut self, first: u32, last: u32, outcome: Outcome) -> bool
        ensures any { result ≡ list_any (is_told first last) self.old.list }
        ensures publishes { self.new ≡ after_event (OutcomeCame first last outcome) self.old }
    {
        let place = told_from(self.items.as_slice(), self.settled, first, last);
        let len = self.items.len();
        let end = end_at(is_alone(first, last, self.wrapped), place, len);
        let change = Change::Told {
            first,
            last,
            outcome,
        };
        self.counts = change_between(&mut self.items, self.counts, place, end, change);
        self.settled = unsettled_from(self.items.as_slice(), self.settled);
        place < len
    }

    #[tactic(auto, using(crate::proofs::Steps::changed_seen))]
    fn lose(&mut self, link: Option<u32>, not_found: bool)
        ensures { self.new ≡ after_event (LinkGone link not_found) self.old }
    {
        let end = self.items.len();
        let change = Change::LinkLost(link, not_found);
        self.counts = change_between(&mut self.items, self.counts, 0, end, change);
        self.front = unsent_from(self.items.as_slice(), self.front);
        self.settled = unsettled_from(self.items.as_slice(), self.settled);
    }

    /// This link was refused, detached or lost. Where its address wasn't found, its mandatory
    /// publishes without outcome are to be returned.
    pub fn lost_link(&mut self, link: u32, not_found: bool)
        ensures { self.new ≡ after_event (LinkGone (Some link) not_found) self.old }
    {
        self.lose(Some(link), not_found);
    }

    /// Each link was lost.
    pub fn lost_all(&mut self)
        ensures { self.new ≡ after_event (LinkGone None false) self.old }
    {
        self.lose(None, false);
    }

    /// The publish of which a frame is returned next.
    #[tactic(auto, using(crate::proofs::Steps::returning_seen, crate::proofs::Steps::to_return_seen, crate::proofs::Ahead::none_return))]
    pub fn next_return(&self) -> Option<NextReturn>
        ensures { result ≡ next_return_of self.now.list }
    {
        if self.counts.returns == 0 {
            return None;
        }
        if let Some(p) = first_returning(self.items.as_slice()) {
            return Some(return_of(p, false));
        }
        match first_to_return(self.items.as_slice()) {
            Some(p) => Some(return_of(p, true)),
            None => None,
        }
    }

    /// The next frame of this publish's basic.return; `None` where it isn't to be returned.
    #[tactic(auto, using(crate::proofs::Steps::return_seen))]
    pub fn return_frame(&self, number: u64) -> Option<&ByteText>
        ensures { option_copied result ≡ return_frame_of number self.now.list }
    {
        match first_taking_return(self.items.as_slice(), number) {
            Some(p) => p.back.first(),
            None => None,
        }
    }

    /// A frame of the return of this publish was sent.
    #[tactic(auto, using(crate::proofs::Steps::changed_seen))]
    fn return_sent(&mut self, number: u64)
        requires { IsSome (find (takes_return number) self.old.list) }
        ensures { self.new ≡ after_event (ReturnSent number) self.old }
    {
        let place = returning_from(self.items.as_slice(), 0, number);
        let change = Change::Returned(number);
        self.counts = change_between(&mut self.items, self.counts, place, place + 1, change);
    }

    /// The frame that is returned next was sent.
    #[tactic(auto, using(crate::proofs::Ahead::return_there))]
    pub fn returned(&mut self)
        requires { IsSome (next_return_of self.old.list) }
        ensures { IfSome (next_return_of self.old.list) (λ next. self.new
            ≡ after_event (ReturnSent next.publish) self.old) }
    {
        if let Some(next) = self.next_return() {
            self.return_sent(next.publish);
        }
    }

    /// The confirm that is due.
    #[tactic(auto, using(crate::proofs::Steps::confirm_seen, crate::proofs::Ahead::none_owed))]
    pub fn next_confirm(&self) -> Option<Confirm>
        ensures { result ≡ next_confirm_of self.now.list }
    {
        if self.counts.owed == 0 {
            return None;
        }
        confirm_from(self.items.as_slice(), self.settled)
    }

    #[tactic(auto, using(crate::proofs::Steps::changed_seen))]
    fn settle(&mut self, confirm: Confirm)
        ensures { self.new ≡ after_event (ConfirmSent confirm) self.old }
    {
        let end = past_from(self.items.as_slice(), self.settled, confirm);
        let change = Change::Confirmed(confirm);
        self.counts = change_between(&mut self.items, self.counts, self.settled, end, change);
        self.settled = unsettled_from(self.items.as_slice(), self.settled);
    }

    /// The confirm that is due was sent.
    pub fn confirmed(&mut self)
        requires { IsSome (next_confirm_of self.old.list) }
        ensures { IfSome (next_confirm_of self.old.list) (λ confirm. self.new
            ≡ after_event (ConfirmSent confirm) self.old) }
    {
        if let Some(confirm) = self.next_confirm() {
            self.settle(confirm);
        }
    }

    /// The number of the life.
    pub fn life(&self) -> u64
        ensures { result ≡ self.now.life }
    {
        self.life
    }

    /// The publishes, and among them such for which nothing is to come any more.
    pub fn items(&self) -> &[Publish]
        ensures { filter is_open result.now ≡ self.now.list }
    {
        self.items.as_slice()
    }

    /// The report is owed a line.
    pub fn owes_lines(&self) -> bool
        ensures { result ≡ nat_lt 0 (length (lines_of self.now.life self.now.list)) }
    {
        self.counts.lines > 0
    }

    /// The lines that the report was owed were reported.
    #[tactic(auto, using(crate::proofs::Steps::changed_seen, crate::proofs::Ahead::none_reported))]
    pub fn lines_told(&mut self)
        ensures { self.new ≡ after_event LinesTold self.old }
    {
        if self.counts.lines == 0 {
            return;
        }
        let end = self.items.len();
        self.counts = change_between(&mut self.items, self.counts, 0, end, Change::Reported);
    }
}
