//! Searches and counts over the deliveries and the links of a life.

ghost use Rattle.std.specs.Prelude.{◌≡◌, ◌&&◌, ◌+◌, ◌^◌, ◌<◌, ◌==◌, find, count_by, option_copied};
ghost use Rattle.std.specs.Prelude.{if◌then◌else◌, Some, None, length, ◌≤◌, IfSome, false, ◌||◌};
ghost use Rattle.std.specs.Prelude.{nat_lt};
ghost use Rattle.std.specs.List.{AllByRecursion, list_any, position, slice_get};
ghost use Rattle.open_items.specs.Places.{AllFrom, place_at, place_from};
ghost use Rattle.consume_path.specs.Kept.{is_there, settle_alone, alone_of, only_settle, IsUpTo};
ghost use Rattle.consume_path.specs.Kept.{is_waiting, counts_of, IsLinkFrom, is_least};
ghost use Rattle.std.specs.Option.{option_map, option_or};
ghost use Rattle.consume_path.specs.Items.{owes, is_held, needs_content, is_covered};
ghost use Rattle.consume_path.specs.Links.{is_to_ask, bytes_in, is_whole, tag_by, is_tagged};
ghost use Rattle.consume_path.specs.Links.{has_tag, is_tag_used, consumer_with};
ghost use Rattle.consume_path.specs.Offers.{sooner, soonest, has_open_id, has_begun_id, is_open_id};
ghost use Rattle.consume_path.specs.Offers.{is_longer, most_tag, lacks_field, is_other};
ghost use Rattle.consume_path.specs.Offers.{names_wrongly, fault_of, arrival_of, consumes};
ghost use Rattle.consume_path.specs.Offers.{is_unsettled, unsettled_on, has_room, has_global_room};
ghost use Rattle.consume_path.specs.Offers.{is_within, deliver_of, getting, consuming, get_offer};
ghost use Rattle.consume_path.specs.Offers.{consumer_offer, rank_of, has_content, owes_of, owes_id};
ghost use Rattle.consume_path.specs.Offers.{next_deliver_of, run_to, run_from, settle_in};
ghost use Rattle.consume_path.specs.Offers.{is_uncovered, is_for_gets, echo_credit, grant_as};
ghost use Rattle.consume_path.specs.Offers.{holds, is_free_for_get, is_getting, is_held_on};
ghost use Rattle.consume_path.specs.Offers.{flow_if, flow_of, grant_link, is_partial, is_probe};

use crate::changes::{
    is_consumer, is_delivery_covered, is_delivery_left, is_on_link, is_owed_as, is_place_held,
    is_place_owed, is_taker_no_ack, is_unsettled_one, taker_limit,
};
use crate::delivery::{Delivery, NextDeliver, NextSettle, Place, Settle, Taker};
use crate::receiving::{
    Arrival, Cause, NextGrant, Part, Partial, ReceivingLink, RecvKind, TransferFault, WaitingGet,
};
use crate::tallies::Counts;

/// A delivery-tag has at most so many bytes (AMQP 1.0 2.8.7).
const MOST_TAG: usize = 32;

/// A delivery has at most so many bytes: the max-message-size of the gateway's attaches.
const MOST_BYTES: usize = 16_842_752;

/// A deliver or get-ok, by its place among those that could be due.
#[derive(Clone, Copy, Debug)]
pub struct Ranked {
    pub rank: u64,
    pub next: NextDeliver,
}

fn is_open_id_of(d: &Delivery, id: u32) -> bool
    ensures { result ≡ has_open_id id d.now }
{
    d.id == id && (is_place_held(d.place) || d.writing || is_delivery_left(d))
}

fn is_partial_of(partial: &Option<Partial>, id: u32) -> bool
    ensures { result ≡ is_partial id partial.now }
{
    match partial {
        Some(partial) => partial.id == id,
        None => false,
    }
}

fn is_begun_id_of(l: &ReceivingLink, id: u32) -> bool
    ensures { result ≡ has_begun_id id l.now }
{
    is_partial_of(&l.partial, id)
}

fn any_begun_id(links: &[ReceivingLink], id: u32) -> bool
    ensures { result ≡ list_any (has_begun_id id) links.now }
{
    links.iter().any(|l| is_begun_id_of(l, id))
}

fn any_open_id(items: &[Delivery], id: u32) -> bool
    ensures { result ≡ list_any (has_open_id id) items.now }
{
    items.iter().any(|d| is_open_id_of(d, id))
}

/// The greater of two delivery-ids.
pub fn greater(a: u32, b: u32) -> u32
    ensures first { a ≤ result }
    ensures second { b ≤ result }
{
    if a < b { b } else { a }
}

/// The greatest delivery-id.
pub fn top_id(items: &[Delivery]) -> u32
    ensures { AllByRecursion (IsUpTo result) items.now }
{
    let mut top = 0;
    for d in items {
        top = greater(top, d.id);
    }
    top
}

/// The lesser of two numbers of links.
pub fn lesser(a: u32, b: u32) -> u32
    ensures first { result ≤ a }
    ensures second { result ≤ b }
{
    if b < a { b } else { a }
}

fn lesser_of(low: u32, link: Option<u32>) -> u32
    ensures first { result ≤ low }
    ensures second { IfSome link (λ link. result ≤ link) }
{
    match link {
        Some(link) => lesser(low, link),
        None => low,
    }
}

/// The least number of a link.
pub fn low_link(items: &[Delivery]) -> u32
    ensures { AllByRecursion (IsLinkFrom result) items.now }
{
    let mut low = u32::MAX;
    for d in items {
        low = lesser_of(low, d.link);
    }
    low
}

/// A container's delivery-ids mostly rise: none above `top` is looked for.
fn any_open_id_up_to(items: &[Delivery], top: u32, id: u32) -> bool
    requires { AllByRecursion (IsUpTo top) items.now }
    ensures { result ≡ list_any (has_open_id id) items.now }
{
    id <= top && any_open_id(items, id)
}

/// A delivery that is open has this delivery-id; none has one above `top`.
pub fn is_id_open(links: &[ReceivingLink], items: &[Delivery], top: u32, id: u32) -> bool
    requires { AllByRecursion (IsUpTo top) items.now }
    ensures { result ≡ is_open_id id links.now items.now }
{
    any_begun_id(links, id) || any_open_id_up_to(items, top, id)
}

fn is_tag_long(tag_length: Option<usize>) -> bool
    ensures { result ≡ is_longer most_tag tag_length }
{
    match tag_length {
        Some(length) => length > MOST_TAG,
        None => false,
    }
}

fn is_field_lacking(first: bool, part: Part) -> bool
    ensures { result ≡ lacks_field first part }
{
    first && (part.id.is_none() || part.tag_length.is_none())
        || is_tag_long(part.tag_length)
        || part.resume
}

fn is_of_another(partial: &Option<Partial>, id: Option<u32>) -> bool
    ensures { result ≡ is_other partial.now id }
{
    match (partial, id) {
        (Some(partial), Some(id)) => partial.id != id,
        _ => false,
    }
}

fn is_wrongly_named(
    part: Part,
    l: &ReceivingLink,
    links: &[ReceivingLink],
    items: &[Delivery],
    top: u32,
) -> bool
    requires { AllByRecursion (IsUpTo top) items.now }
    ensures { result ≡ names_wrongly part l.now links.now items.now }
{
    let first = l.partial.is_none();
    is_field_lacking(first, part)
        || first && is_id_open(links, items, top, part.id.unwrap_or(0))
        || is_of_another(&l.partial, part.id)
}

/// The bytes of a delivery so far.
pub fn bytes_of(partial: &Option<Partial>) -> &[u8]
    ensures { result.now ≡ bytes_in partial.now }
{
    match partial {
        Some(partial) => partial.bytes.as_slice(),
        None => &[],
    }
}

/// The last transfer of a delivery came.
pub fn is_partial_whole(partial: &Option<Partial>) -> bool
    ensures { result ≡ is_whole partial.now }
{
    match partial {
        Some(partial) => partial.whole,
        None => false,
    }
}

/// What is wrong with a transfer of so many bytes. No delivery-id is above `top`.
pub fn transfer_fault(
    part: Part,
    size: usize,
    l: &ReceivingLink,
    links: &[ReceivingLink],
    items: &[Delivery],
    top: u32,
) -> Option<TransferFault>
    requires { AllByRecursion (IsUpTo top) items.now }
    ensures { result ≡ fault_of part size l.now links.now items.now }
{
    if is_wrongly_named(part, l, links, items, top) {
        return Some(TransferFault::InvalidField);
    }
    if l.partial.is_none() && l.state.limit_left() == 0 {
        return Some(TransferFault::LimitExceeded);
    }
    if bytes_of(&l.partial).len().saturating_add(size) > MOST_BYTES {
        return Some(TransferFault::SizeExceeded);
    }
    None
}

/// What a transfer that isn't at fault comes to.
pub fn arrival_by(part: Part) -> Arrival
    ensures { result ≡ arrival_of part }
{
    if part.aborted {
        Arrival::Dropped
    } else if part.more {
        Arrival::More
    } else {
        Arrival::Whole
    }
}

fn is_unsettled_on(d: &Delivery, link: u32) -> bool
    ensures { result ≡ unsettled_on link d.now }
{
    is_on_link(d.link, link) && is_unsettled_one(d)
}

fn has_room_for(limit: Option<u32>, count: u64) -> bool
    ensures { result ≡ has_room limit count }
{
    match limit {
        Some(limit) => count < limit as u64,
        None => true,
    }
}

/// One more unsettled delivery of a consumer is within the limit of all. So many are unsettled.
fn has_room_of_all(global: u16, unsettled: u64) -> bool
    ensures { result ≡ (global == 0 || nat_lt unsettled global) }
{
    global == 0 || unsettled < global as u64
}

fn count_unsettled_on(items: &[Delivery], link: u32) -> usize
    ensures { result ≡ count_by (unsettled_on link) items.now }
{
    items.iter().filter(|d| is_unsettled_on(d, link)).count()
}

/// One more is within the limit of its link. Of all links so many are unsettled: where that is
/// within the limit, those of one link aren't counted.
fn has_room_on(limit: Option<u32>, unsettled: u64, items: &[Delivery], link: u32) -> bool
    requires { unsettled ≡ count_by is_unsettled items.now }
    ensures { result ≡ has_room limit (count_by (unsettled_on link) items.now) }
{
    has_room_for(limit, unsettled) || has_room_for(limit, count_unsettled_on(items, link) as u64)
}

/// So many of all links are unsettled.
fn is_within_limits(free: bool, unsettled: u64, items: &[Delivery], link: u32, taker: Taker) -> bool
    requires { unsettled ≡ count_by is_unsettled items.now }
    ensures { result ≡ is_within free (count_by (unsettled_on link) items.now) taker }
{
    is_taker_no_ack(taker) || free && has_room_on(taker_limit(taker), unsettled, items, link)
}

fn deliver_of(link: u32, d: &Delivery) -> NextDeliver
    ensures { result ≡ deliver_of link d.now }
{
    NextDeliver {
        number: d.number,
        link,
        id: d.id,
        again: d.again,
    }
}

fn offer_to_get(d: &Delivery) -> Option<Ranked>
    ensures { result ≡ get_offer d.now }
{
    if !is_place_held(d.place) {
        return None;
    }
    match (d.link, d.taker) {
        (Some(link), Taker::Getter { number, .. }) => Some(Ranked {
            rank: number,
            next: deliver_of(link, d),
        }),
        _ => None,
    }
}

fn offer_to_consumer(free: bool, unsettled: u64, items: &[Delivery], d: &Delivery) -> Option<Ranked>
    requires { unsettled ≡ count_by is_unsettled items.now }
    ensures { result ≡ consumer_offer free items.now d.now }
{
    if !is_place_held(d.place) {
        return None;
    }
    match d.link {
        Some(link)
            if is_consumer(d.taker) && is_within_limits(free, unsettled, items, link, d.taker) => {
            Some(Ranked {
                rank: link as u64,
                next: deliver_of(link, d),
            })
        }
        _ => None,
    }
}

fn sooner_of(a: Option<Ranked>, b: Option<Ranked>) -> Option<Ranked>
    ensures { result ≡ sooner rank_of a b }
{
    match (a, b) {
        (Some(a), Some(b)) => Some(if b.rank < a.rank { b } else { a }),
        (None, b) => b,
        (a, None) => a,
    }
}

/// The best of two offers. A consumer that doesn't come before isn't looked at any closer.
fn sooner_consumer(
    best: Option<Ranked>,
    free: bool,
    unsettled: u64,
    items: &[Delivery],
    d: &Delivery,
) -> Option<Ranked>
    requires { unsettled ≡ count_by is_unsettled items.now }
    ensures { result ≡ sooner rank_of best (consumer_offer free items.now d.now) }
{
    match (best, d.link) {
        (Some(best), Some(link)) if best.rank <= link as u64 => Some(best),
        _ => sooner_of(best, offer_to_consumer(free, unsettled, items, d)),
    }
}

/// The get-ok that is due: of the first get.
#[tactic(auto, using(crate::proofs::Least::sooner_none, crate::proofs::Least::sooner_more))]
fn first_get(items: &[Delivery]) -> Option<Ranked>
    ensures { result ≡ soonest rank_of get_offer items.now }
{
    let mut best = None;
    for d in items {
        best = sooner_of(best, offer_to_get(d));
    }
    best
}

fn is_least(low: u32, best: Option<Ranked>) -> bool
    ensures { result ≡ is_least low best }
{
    match best {
        Some(best) => best.rank <= low as u64,
        None => false,
    }
}

/// The deliver of the rest that is due: of the consumer whose link has the least number.
/// None is below `low`.
#[tactic(auto, using(crate::proofs::Least::sooner_none, crate::proofs::Least::sooner_more))]
fn first_consumer(
    free: bool,
    unsettled: u64,
    items: &[Delivery],
    rest: &[Delivery],
    low: u32,
) -> Option<Ranked>
    requires count { unsettled ≡ count_by is_unsettled items.now }
    requires low { AllByRecursion (IsLinkFrom low) rest.now }
    ensures { result ≡ soonest rank_of (consumer_offer free items.now) rest.now }
{
    let mut best = None;
    for d in rest {
        best = sooner_consumer(best, free, unsettled, items, d);
        if is_least(low, best) {
            return best;
        }
    }
    best
}

/// No content of one before `from` is needed.
fn get_from(items: &[Delivery], from: usize) -> Option<Ranked>
    requires { AllFrom needs_content from items.now }
    ensures { result ≡ soonest rank_of get_offer items.now }
{
    first_get(&items[from..])
}

/// So many wait for their get-oks, and no content of one before `from` is needed.
fn get_of(waiting: u64, items: &[Delivery], from: usize) -> Option<Ranked>
    requires ahead { AllFrom needs_content from items.now }
    requires count { waiting ≡ count_by is_waiting items.now }
    ensures { result ≡ soonest rank_of get_offer items.now }
{
    if waiting == 0 {
        None
    } else {
        get_from(items, from)
    }
}

/// No content of one before `from` is needed.
fn consumer_from(
    free: bool,
    unsettled: u64,
    items: &[Delivery],
    from: usize,
    low: u32,
) -> Option<Ranked>
    requires ahead { AllFrom needs_content from items.now }
    requires low { AllByRecursion (IsLinkFrom low) items.now }
    requires count { unsettled ≡ count_by is_unsettled items.now }
    ensures { result ≡ soonest rank_of (consumer_offer free items.now) items.now }
{
    first_consumer(free, unsettled, items, &items[from..], low)
}

/// The deliver or get-ok that is due: a get's before a consumer's. No content of one before `from`
/// is needed, and no number of a link is below `low`.
pub fn first_deliver(
    global: u16,
    counts: Counts,
    items: &[Delivery],
    from: usize,
    low: u32,
) -> Option<NextDeliver>
    requires ahead { AllFrom needs_content from items.now }
    requires low { AllByRecursion (IsLinkFrom low) items.now }
    requires counts { counts ≡ counts_of items.now }
    ensures { result ≡ next_deliver_of global items.now }
{
    let unsettled = counts.unsettled;
    let first = match get_of(counts.waiting, items, from) {
        Some(first) => Some(first),
        None => consumer_from(
            has_room_of_all(global, unsettled),
            unsettled,
            items,
            from,
            low,
        ),
    };
    match first {
        Some(first) => Some(first.next),
        None => None,
    }
}

fn has_content_of(d: &Delivery, id: u32) -> bool
    ensures { result ≡ has_content id d.now }
{
    d.id == id && (is_place_held(d.place) || d.writing)
}

fn find_with_content(items: &[Delivery], id: u32) -> Option<&Delivery>
    ensures { option_copied result ≡ find (has_content id) items.now }
{
    items.iter().find(|d| has_content_of(d, id))
}

/// The delivery with this delivery-id whose content is needed; none stands before `from`.
pub fn first_with_content(items: &[Delivery], from: usize, id: u32) -> Option<&Delivery>
    requires { AllFrom needs_content from items.now }
    ensures { option_copied result ≡ find (has_content id) items.now }
{
    find_with_content(&items[from..], id)
}

fn is_content_needed(d: &Delivery) -> bool
    ensures { result ≡ needs_content d.now }
{
    is_place_held(d.place) || d.writing
}

fn first_needing(items: &[Delivery]) -> Option<usize>
    ensures { result ≡ position needs_content items.now }
{
    items.iter().position(is_content_needed)
}

/// The place of what was found so far behind `from`, or else the end.
fn place_at(from: usize, found: Option<usize>, end: usize) -> usize
    requires { IfSome found (λ ahead. from + ahead < end) }
    ensures { result ≡ place_at from end found }
{
    match found {
        Some(ahead) => from + ahead,
        None => end,
    }
}

/// The first place from `from` on whose delivery needs its content, or the end.
#[tactic(auto, using(open_items::proofs::Places::found_within))]
pub fn needing_from(items: &[Delivery], from: usize) -> usize
    requires { from ≤ length items.now }
    ensures { result ≡ place_from needs_content from items.now }
{
    place_at(from, first_needing(&items[from..]), items.len())
}

fn any_covered(items: &[Delivery], tag: u64) -> bool
    ensures { result ≡ list_any (is_covered tag false) items.now }
{
    items.iter().any(|d| is_delivery_covered(d, tag, false))
}

fn is_covered_at(items: &[Delivery], place: usize, tag: u64) -> bool
    ensures { result ≡ is_there (is_covered tag false) (slice_get items.now place) }
{
    match items.get(place) {
        Some(d) => is_delivery_covered(d, tag, false),
        None => false,
    }
}

/// A delivery has this tag, and the client hasn't settled it. It is looked for at `place` first.
pub fn has_covered(items: &[Delivery], place: usize, tag: u64) -> bool
    ensures { result ≡ list_any (is_covered tag false) items.now }
{
    is_covered_at(items, place, tag) || any_covered(items, tag)
}

fn is_owing(d: &Delivery) -> bool
    ensures { result ≡ owes d.now.place }
{
    is_place_owed(d.place)
}

fn is_owing_of(d: &Delivery, settle: Settle) -> bool
    ensures { result ≡ owes_of settle d.now }
{
    is_owed_as(d.place, settle)
}

fn is_owing_id(d: &Delivery, settle: Settle, id: u32) -> bool
    ensures { result ≡ owes_id settle id d.now }
{
    is_owed_as(d.place, settle) && d.id == id
}

/// The first delivery that is owed a disposition.
pub fn first_owing(items: &[Delivery]) -> Option<&Delivery>
    ensures { option_copied result ≡ find (λ d. owes d.place) items.now }
{
    items.iter().find(|d| is_owing(d))
}

fn any_owing_id(items: &[Delivery], settle: Settle, id: u32) -> bool
    ensures { result ≡ list_any (owes_id settle id) items.now }
{
    items.iter().any(|d| is_owing_id(d, settle, id))
}

fn is_owing_id_at(items: &[Delivery], place: usize, settle: Settle, id: u32) -> bool
    ensures { result ≡ is_there (owes_id settle id) (slice_get items.now place) }
{
    match items.get(place) {
        Some(d) => is_owing_id(d, settle, id),
        None => false,
    }
}

/// This id is owed this state. It is looked for at `place` first.
fn has_owing_id(items: &[Delivery], place: usize, settle: Settle, id: u32) -> bool
    ensures { result ≡ list_any (owes_id settle id) items.now }
{
    is_owing_id_at(items, place, settle, id) || any_owing_id(items, settle, id)
}

fn count_owing(items: &[Delivery], settle: Settle) -> usize
    ensures { result ≡ count_by (owes_of settle) items.now }
{
    items.iter().filter(|d| is_owing_of(d, settle)).count()
}

/// The last of the consecutive ids from here on that are owed this state. Its delivery stands at
/// `place`, and those of the next ids mostly stand behind it.
fn run_end(items: &[Delivery], settle: Settle, id: u32, most: usize, place: usize) -> u32
    ensures { result ≡ run_to most settle items.now id }
{
    let mut last = id;
    let mut place = place;
    for _ in 0..most {
        let next = last.wrapping_add(1);
        place = place.saturating_add(1);
        if !has_owing_id(items, place, settle, next) {
            return last;
        }
        last = next;
    }
    last
}

/// The disposition of the run of ids from here on; the delivery of the first stands at `place`.
pub fn run_of(items: &[Delivery], settle: Settle, id: u32, place: usize) -> NextSettle
    ensures { result ≡ run_from settle items.now id }
{
    NextSettle {
        first: id,
        last: run_end(items, settle, id, count_owing(items, settle), place),
        settle,
    }
}

fn settle_alone(settle: Settle, id: u32) -> NextSettle
    ensures { result ≡ settle_alone id settle }
{
    NextSettle {
        first: id,
        last: id,
        settle,
    }
}

fn alone_of(d: &Delivery) -> Option<NextSettle>
    ensures { result ≡ alone_of d.now }
{
    match d.place {
        Place::Owed(settle) => Some(settle_alone(settle, d.id)),
        _ => None,
    }
}

/// The disposition of the one delivery that is owed one, where it stands at `place`.
pub fn only_settle(owed: u64, items: &[Delivery], place: usize) -> Option<NextSettle>
    ensures { result ≡ only_settle owed (slice_get items.now place) }
{
    match items.get(place) {
        Some(d) if owed == 1 => alone_of(d),
        _ => None,
    }
}

fn is_uncovered_on(d: &Delivery, link: u32) -> bool
    ensures { result ≡ is_uncovered link d.now }
{
    is_on_link(d.link, link) && is_delivery_left(d)
}

/// A whole delivery of this link lacks its disposition.
pub fn any_uncovered(items: &[Delivery], link: u32) -> bool
    ensures { result ≡ list_any (is_uncovered link) items.now }
{
    items.iter().any(|d| is_uncovered_on(d, link))
}

fn is_held_on(d: &Delivery, link: u32) -> bool
    ensures { result ≡ is_held_on link d.now }
{
    is_on_link(d.link, link) && is_place_held(d.place)
}

fn any_held(items: &[Delivery], link: u32) -> bool
    ensures { result ≡ holds link items.now }
{
    items.iter().any(|d| is_held_on(d, link))
}

/// A delivery of this link is held. No content of one before `from` is needed.
pub fn held_from(items: &[Delivery], from: usize, link: u32) -> bool
    requires { AllFrom needs_content from items.now }
    ensures { result ≡ holds link items.now }
{
    any_held(&items[from..], link)
}

/// A link for gets on which none waits.
pub fn is_free_for_get(l: &ReceivingLink) -> bool
    ensures { result ≡ is_free_for_get l.now }
{
    is_kind_for_gets(&l.kind) && l.get.is_none()
}

/// A get waits there that wasn't found empty.
pub fn is_getting(l: &ReceivingLink) -> bool
    ensures { result ≡ is_getting l.now }
{
    match l.get {
        Some(get) => !get.empty,
        None => false,
    }
}

/// The tag of a consumer.
pub fn tag_by(kind: &RecvKind) -> &[u8]
    ensures { result.now ≡ tag_by kind.now }
{
    match kind {
        RecvKind::Consumer { tag, .. } => tag.as_slice(),
        _ => &[],
    }
}

fn is_kind_tagged(kind: &RecvKind, tag: &[u8]) -> bool
    ensures { result ≡ is_tagged tag.now kind.now }
{
    match kind {
        RecvKind::Consumer { tag: own, .. } => own.as_slice() == tag,
        _ => false,
    }
}

fn has_tag(l: &ReceivingLink, tag: &[u8]) -> bool
    ensures { result ≡ has_tag tag.now l.now }
{
    is_kind_tagged(&l.kind, tag) && !l.cancelled
}

/// A consumer that isn't cancelled has this tag.
pub fn any_tagged(links: &[ReceivingLink], tag: &[u8]) -> bool
    ensures { result ≡ is_tag_used tag.now links.now }
{
    links.iter().any(|l| has_tag(l, tag))
}

/// The first consumer with this tag that isn't cancelled.
pub fn first_tagged<'a>(links: &'a [ReceivingLink], tag: &[u8]) -> Option<&'a ReceivingLink>
    ensures { option_copied result ≡ consumer_with tag.now links.now }
{
    links.iter().find(|l| has_tag(l, tag))
}

/// A link of a probe.
pub fn is_probe(kind: &RecvKind) -> bool
    ensures { result ≡ is_probe kind.now }
{
    matches!(kind, RecvKind::Probe)
}

/// A link of gets.
pub fn is_kind_for_gets(kind: &RecvKind) -> bool
    ensures { result ≡ is_for_gets kind.now }
{
    matches!(kind, RecvKind::Get)
}

fn is_get_to_ask(get: Option<WaitingGet>) -> bool
    ensures { result ≡ is_to_ask get }
{
    match get {
        Some(get) => !get.asked && !get.empty,
        None => false,
    }
}

fn echoed_credit(closed: bool, l: &ReceivingLink) -> u32
    ensures { result ≡ echo_credit closed l.now }
{
    if l.cancelled || closed && is_kind_for_gets(&l.kind) {
        0
    } else {
        l.state.credit()
    }
}

fn grant_as(l: &ReceivingLink, cause: Cause, credit: u32) -> NextGrant
    ensures { result ≡ grant_as l.now cause credit }
{
    NextGrant {
        link: l.link,
        credit,
        cause,
    }
}

fn flow_due(closed: bool, l: &ReceivingLink) -> Option<NextGrant>
    ensures { result ≡ flow_of closed l.now }
{
    if !l.attached {
        return None;
    }
    if let Some(credit) = l.state.grant_due() {
        return Some(grant_as(l, Cause::Refill, credit));
    }
    if l.stopping {
        return Some(grant_as(l, Cause::Stop, 0));
    }
    if is_get_to_ask(l.get) && !closed {
        return Some(grant_as(l, Cause::Get, 1));
    }
    if l.echoes > 0 {
        return Some(grant_as(l, Cause::Echo, echoed_credit(closed, l)));
    }
    None
}

fn sooner_grant(a: Option<NextGrant>, b: Option<NextGrant>) -> Option<NextGrant>
    ensures { result ≡ sooner grant_link a b }
{
    match (a, b) {
        (Some(a), Some(b)) => Some(if b.link < a.link { b } else { a }),
        (None, b) => b,
        (a, None) => a,
    }
}

/// The flow that is due: of the link with the least number.
#[tactic(auto, using(crate::proofs::Least::sooner_none, crate::proofs::Least::sooner_more))]
pub fn first_grant(closed: bool, links: &[ReceivingLink]) -> Option<NextGrant>
    ensures { result ≡ soonest grant_link (flow_of closed) links.now }
{
    let mut best = None;
    for l in links {
        best = sooner_grant(best, flow_due(closed, l));
    }
    best
}
