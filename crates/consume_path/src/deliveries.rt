//! The deliveries of a life of a channel: each call is one event, or a question on what is due.

ghost use Rattle.std.specs.Prelude.{ℕ, List, ◌≡◌, ◌+◌, ◌<◌, ◌^◌, ◌==◌, ◌&&◌, [], filter, not, true};
ghost use Rattle.std.specs.Prelude.{false, length, is_some, nat_lt, OnOk, OnErr, IfOk, IfSome};
ghost use Rattle.std.specs.Prelude.{IsSome, IsNone, option_copied, None, Some, map};
ghost use Rattle.std.specs.List.{list_any};
ghost use Rattle.std.specs.Option.{option_map, option_or};
ghost use Rattle.consume_path.specs.declared.delivery.Delivery.{Delivery};
ghost use Rattle.consume_path.specs.declared.delivery.Settle.TheVariants.{Released};
ghost use Rattle.consume_path.specs.declared.receiving.Arrival.TheVariants.{Violation};
ghost use Rattle.consume_path.specs.declared.receiving.ReceivingLink.{ReceivingLink};
ghost use Rattle.consume_path.specs.Items.{is_open, is_covered, changed, first_place, new_delivery};
ghost use Rattle.consume_path.specs.Links.{link_of, in_link, is_whole, is_empty, taken_from};
ghost use Rattle.consume_path.specs.Links.{link_changed, tag_in, count_in, is_tag_used};
ghost use Rattle.consume_path.specs.Links.{consumer_link};
ghost use Rattle.consume_path.specs.Deliveries.{DeliveryState, LinkAdded, LinkAttached, LinkFlowed};
ghost use Rattle.consume_path.specs.Deliveries.{LinkEchoed, GetCame, TransferCame, Arrived};
ghost use Rattle.consume_path.specs.Deliveries.{LinkDropped, Delivered, Written, Answered};
ghost use Rattle.consume_path.specs.Deliveries.{Cancelled, Closed, EndLost, PrefetchSet, GlobalSet};
ghost use Rattle.consume_path.specs.Deliveries.{SettleSent, GrantSent, Emptied, LinesTold};
ghost use Rattle.consume_path.specs.Deliveries.{no_deliveries, after_event, with_list, each_link};
ghost use Rattle.consume_path.specs.Kept.{begins, counted_anew};
ghost use Rattle.consume_path.specs.Offers.{is_open_id, fault_in, fault_at, arrival_of};
ghost use Rattle.consume_path.specs.Offers.{arriving_in, payload_in, next_deliver_of, content_of};
ghost use Rattle.consume_path.specs.Offers.{ending_in, added, arrived_whole, ended_on};
ghost use Rattle.consume_path.specs.Offers.{is_known, next_settle_of, is_all_covered};
ghost use Rattle.consume_path.specs.Offers.{is_over, lines_of};
ghost use Rattle.consume_path.specs.Offers.{next_grant_of, is_drained, serves_gets, takes_get};
ghost use Rattle.consume_path.specs.Offers.{awaits_get, is_getting, holds, is_at_rest};

use crate::changes::{Change, compact, place_of_arrival, trim};
use crate::delivery::{Arriving, Content, Delivery, NextDeliver, NextSettle, Place, Settle, Taker};
use crate::link_changes::{
    LinkChange, asked_link, begin_on, change_links, close_links, id_with, is_get_empty,
    is_settled_with, leave_out, link_with, recount_one, take_on, taker_on, transfer_on,
};
use crate::places::{
    is_number_at, is_one_owed, is_one_tagged, is_one_written, place_by_number, place_by_tag,
    place_owing, visit_at,
};
use crate::receiving::{Arrival, NextGrant, Part, ReceivingLink, RecvKind, TransferFault};
use crate::searches::{
    any_tagged, any_uncovered, arrival_by, bytes_of, first_deliver, first_grant, first_owing,
    first_tagged, first_with_content, greater, has_covered, held_from, is_free_for_get, is_getting,
    is_id_open, is_kind_for_gets, is_partial_whole, is_probe, lesser, low_link, needing_from,
    only_settle, run_of, tag_by, top_id, transfer_fault,
};
use crate::tallies::{Counts, Tally, tally_links};
use crate::visits::change_between;
use open_items::LostKind;
use std::alloc::Global;
use std::marker::Model;
use wire_base::Memory;

/// The deliveries of a life of a channel. Contracts see its links, the deliveries for which
/// something is still to come, and what was counted. No call takes memory but `add_link`,
/// `transfer`, `join`, `arrived` and `last_transfer`.
#[derive(Drop)]
pub struct Deliveries {
    life: u64,
    links: Vec<ReceivingLink>,
    items: Vec<Delivery>,
    arrived: u64,
    tags: u64,
    gets: u64,
    prefetch: u16,
    global: u16,
    closed: bool,
    counts: Counts,
    /// No content of a delivery before this place is needed any more.
    front: usize,
    /// No delivery has a delivery-id above this one.
    top: u32,
    /// No delivery's link has a number below this one.
    low: u32,
    /// The deliver or get-ok of the delivery at this place was the last that was begun.
    begun: usize,
    /// The delivery at this place was the last that was answered.
    answered: usize,
    /// With so many items, the closed ones are left out.
    room: usize,
}

impl Model for Deliveries {
    ghost use Rattle.std.specs.Prelude.{filter};
    ghost use Rattle.consume_path.specs.Deliveries.{DeliveryState};
    ghost use Rattle.consume_path.specs.Items.{is_open};
    ghost use Rattle.consume_path.specs.Kept.{IsKept};

    ghost Value = { DeliveryState };

    ghost view = { λ a. record {
      life = a.life;
      links = a.links.items;
      list = filter is_open a.items.items;
      arrived = a.arrived;
      tags = a.tags;
      gets = a.gets;
      prefetch = a.prefetch;
      global = a.global;
      closed = a.closed;
    } };

    ghost invariant = { λ a. IsKept a.links.items a.items.items a.counts a.arrived a.tags
        a.front a.top a.low };
}

/// So many whole deliveries are taken in a life.
const MOST_DELIVERIES: u64 = 4_611_686_018_427_387_904;

/// There is room for so many items at least.
const LEAST_ROOM: usize = 16;

fn new_one(
    closed: bool,
    number: u64,
    arriving: Arriving,
    content: Option<Content>,
    again: bool,
) -> Delivery
    ensures { result ≡ new_delivery closed number arriving content again }
{
    let image = content.is_some();
    let mut d = Delivery {
        number,
        link: Some(arriving.link),
        id: arriving.id,
        settled: arriving.settled,
        again,
        content,
        taker: arriving.taker,
        tag: 0,
        place: place_of_arrival(closed, image, arriving.settled, arriving.taker),
        writing: false,
        at_risk: arriving.settled && !closed,
        line: if arriving.settled && closed {
            Some(LostKind::DeliveryLost)
        } else {
            None
        },
    };
    trim(&mut d);
    d
}

fn arriving_on(l: Option<&ReceivingLink>, link: u32) -> Arriving
    ensures { result ≡ arriving_in link (option_copied l.entry) }
{
    let mut arriving = Arriving {
        link,
        id: 0,
        settled: false,
        taker: Taker::Nobody,
    };
    if let Some(l) = l {
        arriving.taker = taker_on(l);
        if let Some(partial) = &l.partial {
            arriving.id = partial.id;
            arriving.settled = partial.settled;
        }
    }
    arriving
}

/// The whole delivery that this transfer ends.
fn ending_on(l: Option<&ReceivingLink>, link: u32, part: Part) -> Arriving
    ensures { result ≡ ending_in link part (option_copied l.entry) }
{
    let mut arriving = Arriving {
        link,
        id: 0,
        settled: false,
        taker: Taker::Nobody,
    };
    if let Some(l) = l {
        arriving.taker = taker_on(l);
        arriving.id = id_with(&l.partial, part.id);
        arriving.settled = is_settled_with(&l.partial, part.settled);
    }
    arriving
}

impl Deliveries {
    /// No deliveries, in the life with this number. It takes the allocator that later growth uses,
    /// and no memory.
    pub fn new(alloc: Global, life: u64) -> Deliveries
        ensures { result ≡ no_deliveries life }
    {
        Deliveries {
            life,
            links: Vec::new(alloc),
            items: Vec::new(alloc),
            arrived: 0,
            tags: 0,
            gets: 0,
            prefetch: 0,
            global: 0,
            closed: false,
            counts: Counts::none(),
            front: 0,
            top: 0,
            low: u32::MAX,
            begun: 0,
            answered: 0,
            room: LEAST_ROOM,
        }
    }

    // ---- links

    /// A link is needed, under this number; its attach isn't answered yet.
    pub fn add_link(&mut self, link: u32, kind: RecvKind) -> Result<(), Memory>
        ensures ok { OnOk result (self.new ≡ after_event (LinkAdded link kind) self.old) }
        ensures err { OnErr result (self.new ≡ self.old) }
    {
        let mut asked = asked_link(link, kind, self.prefetch);
        recount_one(self.items.as_slice(), &mut asked);
        self.links.push(asked)?;
        Ok(())
    }

    /// The link with this number.
    pub fn link(&self, link: u32) -> Option<&ReceivingLink>
        ensures { option_copied result ≡ link_of self.now.links link }
    {
        link_with(self.links.as_slice(), link)
    }

    /// The links, in the order in which they were needed.
    pub fn links(&self) -> &[ReceivingLink]
        ensures { result.now ≡ self.now.links }
    {
        self.links.as_slice()
    }

    /// A consumer that isn't cancelled has this tag.
    pub fn has_tag(&self, tag: &[u8]) -> bool
        ensures { result ≡ is_tag_used tag.now self.now.links }
    {
        any_tagged(self.links.as_slice(), tag)
    }

    /// The link of the consumer with this tag that isn't cancelled.
    pub fn consumer(&self, tag: &[u8]) -> Option<u32>
        ensures { result ≡ consumer_link tag.now self.now.links }
    {
        let l = first_tagged(self.links.as_slice(), tag)?;
        Some(l.link)
    }

    /// The tag of this link's consumer; it is empty where there is none.
    pub fn tag_of(&self, link: u32) -> &[u8]
        ensures { result.now ≡ tag_in (link_of self.now.links link) }
    {
        match link_with(self.links.as_slice(), link) {
            Some(l) => tag_by(&l.kind),
            None => &[],
        }
    }

    /// The delivery-count of this link; it is 0 where there is none.
    pub fn count_of(&self, link: u32) -> u32
        ensures { result ≡ count_in (link_of self.now.links link) }
    {
        match link_with(self.links.as_slice(), link) {
            Some(l) => l.state.count(),
            None => 0,
        }
    }

    /// The link with this number is changed.
    fn change_link(&mut self, link: u32, change: LinkChange)
        ensures { self.new ≡ each_link (link_changed link change) self.old }
    {
        change_links(&mut self.links, link, change);
    }

    /// The container's attach of this link was read, with this initial delivery-count (AMQP 1.0
    /// 2.7.3).
    pub fn link_attached(&mut self, link: u32, count: u32)
        ensures { self.new ≡ after_event (LinkAttached link count) self.old }
    {
        self.change_link(link, LinkChange::Attached { count });
    }

    /// A flow of the container came for this link, with this delivery-count (AMQP 1.0 2.7.4).
    pub fn link_flow(&mut self, link: u32, count: u32)
        ensures { self.new ≡ after_event (LinkFlowed link count) self.old }
    {
        self.change_link(link, LinkChange::Flowed { count });
    }

    /// A flow of the container with echo came for this link; `next_grant` answers it (AMQP 1.0
    /// 2.7.4).
    pub fn link_echo(&mut self, link: u32)
        ensures { self.new ≡ after_event (LinkEchoed link) self.old }
    {
        self.change_link(link, LinkChange::Echoed);
    }

    /// A basic.get waits on this link.
    pub fn get(&mut self, link: u32, no_ack: bool)
        requires { self.old.gets < 2 ^ 62 }
        ensures { self.new ≡ after_event (GetCame link no_ack) self.old }
    {
        let number = self.gets + 1;
        self.gets = number;
        self.change_link(link, LinkChange::Waits { number, no_ack });
    }

    /// How many gets there were.
    pub fn gets(&self) -> u64
        ensures { result ≡ self.now.gets }
    {
        self.gets
    }

    /// This link is for gets.
    pub fn serves_gets(&self, link: u32) -> bool
        ensures { result ≡ serves_gets link self.now.links }
    {
        match link_with(self.links.as_slice(), link) {
            Some(l) => is_kind_for_gets(&l.kind),
            None => false,
        }
    }

    /// This link is for gets, and none waits there.
    pub fn takes_get(&self, link: u32) -> bool
        ensures { result ≡ takes_get link self.now.links }
    {
        match link_with(self.links.as_slice(), link) {
            Some(l) => is_free_for_get(l),
            None => false,
        }
    }

    /// A get waits on this link that wasn't found empty.
    pub fn awaits_get(&self, link: u32) -> bool
        ensures { result ≡ awaits_get link self.now.links }
    {
        match link_with(self.links.as_slice(), link) {
            Some(l) => is_getting(l),
            None => false,
        }
    }

    /// One waits on some link.
    pub fn awaits_any(&self) -> bool
        ensures { result ≡ list_any is_getting self.now.links }
    {
        self.links.as_slice().iter().any(|l| is_getting(l))
    }

    /// A delivery of this link waits for its deliver or get-ok.
    #[tactic(auto, using(crate::proofs::Steps::holds_seen))]
    pub fn holds(&self, link: u32) -> bool
        ensures { result ≡ holds link self.now.list }
    {
        held_from(self.items.as_slice(), self.front, link)
    }

    /// No get waits on this link, which is for gets, and each whole delivery that didn't come
    /// settled had its disposition.
    pub fn is_at_rest(&self, link: u32) -> bool
        ensures { result ≡ is_at_rest link self.now }
    {
        self.takes_get(link) && self.covered(link)
    }

    /// Each whole delivery of this link that didn't come settled had its disposition.
    #[tactic(auto, using(crate::proofs::Steps::uncovered_seen))]
    pub fn covered(&self, link: u32) -> bool
        ensures { result ≡ is_all_covered link self.now.list }
    {
        !any_uncovered(self.items.as_slice(), link)
    }

    /// Nothing is to come of this link any more: its consumer was cancelled, or it is a probe, and
    /// each whole delivery that didn't come settled had its disposition.
    pub fn is_over(&self, link: u32) -> bool
        ensures { result ≡ is_over link self.now }
    {
        match link_with(self.links.as_slice(), link) {
            Some(l) => (l.cancelled || is_probe(&l.kind)) && self.covered(link),
            None => false,
        }
    }

    /// Changes each delivery, and counts anew.
    #[tactic(auto, using(crate::proofs::Steps::changed_seen, crate::proofs::Steps::recounts_seen))]
    fn change(&mut self, change: Change)
        requires { begins change ≡ false }
        ensures { self.new ≡ with_list
            (filter is_open (map (changed change) self.old.list)) self.old }
    {
        let end = self.items.len();
        self.counts = change_between(
            &mut self.links,
            &mut self.items,
            self.counts,
            0,
            end,
            change,
        );
        self.front = needing_from(self.items.as_slice(), self.front);
    }

    /// This link is no more.
    pub fn drop_link(&mut self, link: u32)
        ensures { self.new ≡ after_event (LinkDropped link) self.old }
    {
        leave_out(&mut self.links, link);
        self.change(Change::LinkDropped { link });
    }

    // ---- transfers

    /// A delivery with this delivery-id is begun, held, unsettled, or its content is being written.
    #[tactic(auto, using(crate::proofs::Steps::open_id_seen))]
    pub fn open_id(&self, id: u32) -> bool
        ensures { result ≡ is_open_id id self.now.links self.now.list }
    {
        is_id_open(self.links.as_slice(), self.items.as_slice(), self.top, id)
    }

    /// What is wrong with a transfer on this link, with so many bytes of payload.
    #[tactic(auto, using(crate::proofs::Steps::fault_seen))]
    pub fn fault(&self, link: u32, part: Part, size: usize) -> Option<TransferFault>
        ensures { result ≡ fault_at part size link self.now }
    {
        let links = self.links.as_slice();
        match link_with(links, link) {
            Some(l) => transfer_fault(part, size, l, links, self.items.as_slice(), self.top),
            None => None,
        }
    }

    /// A transfer came on this link, with this part of its delivery's payload (AMQP 1.0 2.6.14). It
    /// changes nothing where it is at fault.
    pub fn transfer(&mut self, link: u32, part: Part, payload: &[u8]) -> Result<Arrival, Memory>
        ensures fault { IfSome (fault_at part (length payload.now) link self.old) (λ fault.
            result ≡ Ok (Violation fault)) }
        ensures unchanged { IsSome (fault_at part (length payload.now) link self.old)
            → self.new ≡ self.old }
        ensures arrival { IsNone (fault_at part (length payload.now) link self.old)
            → IfOk result (λ arrival. arrival ≡ arrival_of part) }
        ensures ok { IsNone (fault_at part (length payload.now) link self.old)
            → OnOk result (self.new ≡ after_event
            (TransferCame link part payload.now) self.old) }
        ensures err { OnErr result (self.new ≡ self.old) }
    {
        if let Some(fault) = self.fault(link, part, payload.len()) {
            return Ok(Arrival::Violation(fault));
        }
        self.join(link, part, payload)?;
        Ok(arrival_by(part))
    }

    /// A transfer that isn't at fault came on this link: `fault` says before whether it is.
    pub fn join(&mut self, link: u32, part: Part, payload: &[u8]) -> Result<(), Memory>
        ensures ok { OnOk result (self.new
            ≡ after_event (TransferCame link part payload.now) self.old) }
        ensures err { OnErr result (self.new ≡ self.old) }
    {
        transfer_on(&mut self.links, link, part, payload)?;
        Ok(())
    }

    /// The payload of this link's delivery so far.
    pub fn payload(&self, link: u32) -> &[u8]
        ensures { result.now ≡ payload_in (link_of self.now.links link) }
    {
        match link_with(self.links.as_slice(), link) {
            Some(l) => bytes_of(&l.partial),
            None => &[],
        }
    }

    /// The delivery of this link is whole, and no `arrived` took it yet.
    pub fn is_whole(&self, link: u32) -> bool
        ensures { result ≡ in_link (λ l. is_whole l.partial) (link_of self.now.links link) }
    {
        match link_with(self.links.as_slice(), link) {
            Some(l) => is_partial_whole(&l.partial),
            None => false,
        }
    }

    /// Leaves out what is closed, once there are as many items as there is room for. There is room
    /// for twice as many as are left, so each item is looked at a few times in all.
    #[tactic(auto, using(crate::proofs::Steps::open_open))]
    fn make_room(&mut self)
        ensures { self.new ≡ self.old }
    {
        if self.items.len() >= self.room {
            compact(&mut self.items);
            self.front = needing_from(self.items.as_slice(), 0);
            self.top = top_id(self.items.as_slice());
            self.low = low_link(self.items.as_slice());
            self.room = self.items.len().saturating_mul(2).max(LEAST_ROOM);
        }
    }

    /// A whole delivery is added, and counts on its link. It answers `Memory` also once so many came
    /// that their numbers are used up.
    fn add(
        &mut self,
        arriving: Arriving,
        content: Option<Content>,
        again: bool,
    ) -> Result<(), Memory>
        ensures ok { OnOk result (self.new
            ≡ counted_anew (added arriving content again self.old)) }
        ensures err { OnErr result (self.new ≡ self.old) }
    {
        if self.arrived >= MOST_DELIVERIES {
            return Err(Memory);
        }
        self.make_room();
        let number = self.arrived + 1;
        let delivery = new_one(self.closed, number, arriving, content, again);
        let tally = Tally::of(&delivery);
        let top = greater(self.top, arriving.id);
        let low = lesser(self.low, arriving.link);
        self.items.push(delivery)?;
        tally_links(&mut self.links, Tally::none(), tally);
        self.counts = self.counts.exchange(Tally::none(), tally);
        self.arrived = number;
        self.top = top;
        self.low = low;
        Ok(())
    }

    /// The whole delivery of this link is taken of it.
    fn take(&mut self, link: u32, image: bool)
        ensures { self.new ≡ counted_anew (each_link (taken_from link image) self.old) }
    {
        take_on(&mut self.links, link, image);
    }

    /// The whole delivery of this link is taken, with what goes to the client of it; it has none
    /// where it has no image. `again` says whether it was delivered before.
    pub fn arrived(
        &mut self,
        link: u32,
        content: Option<Content>,
        again: bool,
    ) -> Result<(), Memory>
        requires whole { in_link (λ l. is_whole l.partial) (link_of self.old.links link) ≡ true }
        ensures ok { OnOk result (self.new ≡ after_event
            (Arrived (arriving_in link (link_of self.old.links link)) content again) self.old) }
        ensures err { OnErr result (self.new ≡ self.old) }
    {
        let arriving = arriving_on(link_with(self.links.as_slice(), link), link);
        let image = content.is_some();
        self.add(arriving, content, again)?;
        self.take(link, image);
        Ok(())
    }

    /// The transfer that ends its delivery came on this link, and the delivery is taken of it.
    fn end_delivery(&mut self, link: u32, image: bool)
        ensures { self.new ≡ ended_on link image self.old }
    {
        begin_on(&mut self.links, link);
        self.take(link, image);
    }

    /// The transfer that ends its delivery came on this link, and the whole delivery is taken at
    /// once, as by `transfer` and `arrived`. Its payload isn't copied.
    pub fn last_transfer(
        &mut self,
        link: u32,
        part: Part,
        content: Option<Content>,
        again: bool,
    ) -> Result<(), Memory>
        requires { part.aborted ≡ false }
        ensures ok { (payload : List ℕ) → OnOk result
            (self.new ≡ arrived_whole link part payload content again self.old) }
        ensures err { OnErr result (self.new ≡ self.old) }
    {
        let arriving = ending_on(link_with(self.links.as_slice(), link), link, part);
        let image = content.is_some();
        self.add(arriving, content, again)?;
        self.end_delivery(link, image);
        Ok(())
    }

    /// What goes to the client of the delivery with this delivery-id, while it is held or written.
    #[tactic(auto, using(crate::proofs::Steps::content_seen))]
    pub fn message(&self, id: u32) -> Option<&Content>
        ensures { option_copied result ≡ content_of id self.now.list }
    {
        match first_with_content(self.items.as_slice(), self.front, id) {
            Some(d) => d.content.as_ref(),
            None => None,
        }
    }

    // ---- delivers

    /// The deliver or get-ok that goes next.
    #[tactic(auto, using(crate::proofs::Steps::deliver_seen))]
    pub fn next_deliver(&self) -> Option<NextDeliver>
        ensures { result ≡ next_deliver_of self.now.global self.now.list }
    {
        first_deliver(
            self.global,
            self.counts,
            self.items.as_slice(),
            self.front,
            self.low,
        )
    }

    /// The first byte of this deliver or get-ok was taken. The answer is its delivery tag.
    #[tactic(auto, using(crate::proofs::Steps::changed_seen, crate::proofs::Steps::recounts_seen))]
    pub fn commit_deliver(&mut self, next: NextDeliver) -> u64
        requires tags { self.old.tags < 2 ^ 62 }
        requires next { next_deliver_of self.old.global self.old.list ≡ Some next }
        ensures tag { result ≡ self.old.tags + 1 }
        ensures deliveries { self.new ≡ after_event (Delivered next.number) self.old }
    {
        let tag = self.tags + 1;
        self.tags = tag;
        let number = next.number;
        let place = place_by_number(self.items.as_slice(), number);
        let here = is_number_at(self.items.as_slice(), place, number);
        let visit = visit_at(here, place, self.items.len());
        self.counts = change_between(
            &mut self.links,
            &mut self.items,
            self.counts,
            visit.from,
            visit.to,
            Change::Delivered { number, tag },
        );
        self.begun = place;
        tag
    }

    /// The last byte of the content with this tag was taken.
    #[tactic(auto, using(crate::proofs::Steps::changed_seen, crate::proofs::Steps::recounts_seen))]
    pub fn written(&mut self, tag: u64)
        ensures { self.new ≡ after_event (Written tag) self.old }
    {
        let place = self.begun;
        let here = is_one_written(self.counts.writing, self.items.as_slice(), place);
        let visit = visit_at(here, place, self.items.len());
        self.counts = change_between(
            &mut self.links,
            &mut self.items,
            self.counts,
            visit.from,
            visit.to,
            Change::Written { tag },
        );
        self.front = needing_from(self.items.as_slice(), self.front);
    }

    /// How many delivery tags were given.
    pub fn tags(&self) -> u64
        ensures { result ≡ self.now.tags }
    {
        self.tags
    }

    // ---- answers of the client

    /// An answer of the client may name this tag: it is outstanding, or all are meant.
    #[tactic(auto, using(crate::proofs::Steps::known_seen))]
    pub fn knows(&self, tag: u64, multiple: bool) -> bool
        ensures { result ≡ is_known tag multiple self.now.list }
    {
        if multiple && tag == 0 {
            return true;
        }
        let items = self.items.as_slice();
        has_covered(items, place_by_tag(items, self.answered, tag), tag)
    }

    /// The client acknowledged or rejected the deliveries with this tag, or had them go back (AMQP
    /// 0-9-1 1.8.3.13, 1.8.3.14). `knows` says before whether it may name the tag.
    pub fn answered(&mut self, tag: u64, multiple: bool, settle: Settle)
        ensures { self.new ≡ after_event (Answered tag multiple settle) self.old }
    {
        let place = place_by_tag(self.items.as_slice(), self.answered, tag);
        let here = is_one_tagged(multiple, tag, self.items.as_slice(), place);
        let visit = visit_at(here, place, self.items.len());
        let change = Change::Answered {
            tag,
            multiple,
            settle,
        };
        self.counts = change_between(
            &mut self.links,
            &mut self.items,
            self.counts,
            visit.from,
            visit.to,
            change,
        );
        self.answered = place;
    }

    /// The client had all outstanding deliveries go back (AMQP 0-9-1 1.8.3.16).
    pub fn recover(&mut self)
        ensures { self.new ≡ after_event (Answered 0 true Released) self.old }
    {
        self.answered(0, true, Settle::Released);
    }

    /// The consumer of this link was cancelled (AMQP 0-9-1 1.8.3.5).
    pub fn cancel(&mut self, link: u32)
        ensures { self.new ≡ after_event (Cancelled link) self.old }
    {
        self.change_link(link, LinkChange::Cancelled);
        self.change(Change::Cancelled { link });
    }

    /// The prefetch of the consumers to come (AMQP 0-9-1 1.8.3.1); 0 is no limit.
    pub fn set_prefetch(&mut self, count: u16)
        ensures { self.new ≡ after_event (PrefetchSet count) self.old }
    {
        self.prefetch = count;
    }

    /// The prefetch of all consumers together (AMQP 0-9-1 1.8.3.1); 0 is no limit.
    pub fn set_global(&mut self, count: u16)
        ensures { self.new ≡ after_event (GlobalSet count) self.old }
    {
        self.global = count;
    }

    // ---- ends

    /// The life closed: what the client didn't settle goes back, and so does what arrives later.
    pub fn release_all(&mut self)
        ensures { self.new ≡ after_event Closed self.old }
    {
        self.closed = true;
        close_links(&mut self.links);
        self.change(Change::Closed);
    }

    /// The container's end was lost or shut: no disposition goes any more.
    pub fn lost_all(&mut self)
        ensures { self.new ≡ after_event EndLost self.old }
    {
        self.change(Change::EndLost);
    }

    /// The life closed.
    pub fn is_closed(&self) -> bool
        ensures { result ≡ self.now.closed }
    {
        self.closed
    }

    // ---- dispositions

    /// The disposition that goes next (AMQP 1.0 2.7.6).
    #[tactic(auto, using(crate::proofs::Steps::settle_seen))]
    pub fn next_settle(&self) -> Option<NextSettle>
        ensures { result ≡ next_settle_of self.now.list }
    {
        if self.counts.owed == 0 {
            return None;
        }
        let items = self.items.as_slice();
        let place = place_owing(items, self.answered, self.begun);
        if let Some(only) = only_settle(self.counts.owed, items, place) {
            return Some(only);
        }
        match first_owing(items) {
            Some(d) => match d.place {
                Place::Owed(settle) => {
                    let place = place_by_number(items, d.number);
                    Some(run_of(items, settle, d.id, place))
                }
                _ => None,
            },
            None => None,
        }
    }

    /// This disposition was sent.
    #[tactic(auto, using(crate::proofs::Steps::changed_seen, crate::proofs::Steps::recounts_seen))]
    fn settle(&mut self, settle: NextSettle)
        ensures { self.new ≡ after_event (SettleSent settle) self.old }
    {
        let place = place_owing(self.items.as_slice(), self.answered, self.begun);
        let here = is_one_owed(self.counts.owed, self.items.as_slice(), place);
        let visit = visit_at(here, place, self.items.len());
        self.counts = change_between(
            &mut self.links,
            &mut self.items,
            self.counts,
            visit.from,
            visit.to,
            Change::SettleSent { settle },
        );
    }

    /// The disposition that is due was sent.
    pub fn settled(&mut self)
        requires { IsSome (next_settle_of self.old.list) }
        ensures { IfSome (next_settle_of self.old.list) (λ settle. self.new
            ≡ after_event (SettleSent settle) self.old) }
    {
        if let Some(settle) = self.next_settle() {
            self.settle(settle);
        }
    }

    // ---- flows

    /// The flow of a link that goes next (AMQP 1.0 2.7.4).
    pub fn next_grant(&self) -> Option<NextGrant>
        ensures { result ≡ next_grant_of self.now.closed self.now.links }
    {
        first_grant(self.closed, self.links.as_slice())
    }

    /// The flow that is due was sent.
    pub fn granted(&mut self)
        requires { IsSome (next_grant_of self.old.closed self.old.links) }
        ensures { IfSome (next_grant_of self.old.closed self.old.links) (λ grant. self.new
            ≡ after_event (GrantSent grant) self.old) }
    {
        if let Some(grant) = self.next_grant() {
            let change = LinkChange::FlowSent {
                credit: grant.credit,
                cause: grant.cause,
            };
            self.change_link(grant.link, change);
        }
    }

    /// The get that waits on this link is due a get-empty.
    pub fn drain_done(&self, link: u32) -> bool
        ensures { result ≡ is_drained link self.now.links }
    {
        match link_with(self.links.as_slice(), link) {
            Some(l) => is_get_empty(l.get),
            None => false,
        }
    }

    /// The get-empty of this link's get is noted.
    pub fn emptied(&mut self, link: u32)
        requires { is_drained link self.old.links ≡ true }
        ensures { self.new ≡ after_event (Emptied link) self.old }
    {
        self.change_link(link, LinkChange::Emptied);
    }

    // ---- lines of the report

    /// The number of the life.
    pub fn life(&self) -> u64
        ensures { result ≡ self.now.life }
    {
        self.life
    }

    /// The deliveries, and among them such for which nothing is to come any more.
    pub fn items(&self) -> &[Delivery]
        ensures { filter is_open result.now ≡ self.now.list }
    {
        self.items.as_slice()
    }

    /// The report is owed a line.
    pub fn owes_lines(&self) -> bool
        ensures { result ≡ nat_lt 0 (length (lines_of self.now.life self.now.list)) }
    {
        self.counts.lines > 0
    }

    /// The lines that the report was owed were reported.
    pub fn lines_told(&mut self)
        ensures { self.new ≡ after_event LinesTold self.old }
    {
        if self.counts.lines == 0 {
            return;
        }
        self.change(Change::Reported);
    }
}
