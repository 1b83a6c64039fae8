//! What an event does to each delivery of a life.

ghost use Rattle.std.specs.Prelude.{◌≡◌, filter, true};
ghost use Rattle.consume_path.specs.Items.{is_held, is_out, owes, owes_as, is_no_ack, is_nobody};
ghost use Rattle.consume_path.specs.Items.{limit_of, is_on, is_outstanding, is_open, trimmed};
ghost use Rattle.consume_path.specs.Items.{owed_place, first_place, delivered, written, in_tag};
ghost use Rattle.consume_path.specs.Items.{is_covered, answered, cancelled, closed, is_left};
ghost use Rattle.consume_path.specs.Items.{end_lost, in_range, settles, settle_sent, without_link};
ghost use Rattle.consume_path.specs.Items.{link_dropped, reported, moved, changed, is_same};
ghost use Rattle.consume_path.specs.Offers.{consumes, is_unsettled};
ghost use Rattle.consume_path.specs.Kept.{is_getter, is_waiting};

use crate::delivery::{Delivery, NextSettle, Place, Settle, Taker};
use open_items::LostKind;

/// What happens to the deliveries of a life.
#[derive(Clone, Copy, Debug)]
pub enum Change {
    /// The deliver or get-ok of this delivery was begun, with this tag.
    Delivered {
        number: u64,
        tag: u64,
    },
    /// The last byte of the content with this tag was taken.
    Written {
        tag: u64,
    },
    /// The client settled the deliveries with this tag.
    Answered {
        tag: u64,
        multiple: bool,
        settle: Settle,
    },
    /// The consumer of this link was cancelled.
    Cancelled {
        link: u32,
    },
    /// The life closed.
    Closed,
    /// The container's end was lost.
    EndLost,
    /// This disposition was sent.
    SettleSent {
        settle: NextSettle,
    },
    /// This link is no more.
    LinkDropped {
        link: u32,
    },
    /// The lines that the report was owed were reported.
    Reported,
}

pub fn is_place_held(place: Place) -> bool
    ensures { result ≡ is_held place }
{
    place == Place::Held
}

pub fn is_place_out(place: Place) -> bool
    ensures { result ≡ is_out place }
{
    place == Place::Out
}

pub fn is_place_owed(place: Place) -> bool
    ensures { result ≡ owes place }
{
    matches!(place, Place::Owed(_))
}

fn is_settle(a: Settle, b: Settle) -> bool
    ensures { result ≡ is_same a b }
{
    a == b
}

pub fn is_owed_as(place: Place, settle: Settle) -> bool
    ensures { result ≡ owes_as settle place }
{
    match place {
        Place::Owed(owed) => is_settle(settle, owed),
        _ => false,
    }
}

pub fn is_taker_no_ack(taker: Taker) -> bool
    ensures { result ≡ is_no_ack taker }
{
    match taker {
        Taker::Nobody => false,
        Taker::Getter { no_ack, .. } => no_ack,
        Taker::Consumer { no_ack, .. } => no_ack,
    }
}

pub fn is_taker_nobody(taker: Taker) -> bool
    ensures { result ≡ is_nobody taker }
{
    taker == Taker::Nobody
}

/// How many unsettled deliveries the taker has at most.
pub fn taker_limit(taker: Taker) -> Option<u32>
    ensures { result ≡ limit_of taker }
{
    match taker {
        Taker::Consumer {
            no_ack: false,
            limit,
        } => limit,
        _ => None,
    }
}

pub fn is_on_link(own: Option<u32>, link: u32) -> bool
    ensures { result ≡ is_on link own }
{
    match own {
        Some(own) => own == link,
        None => false,
    }
}

pub fn is_unsettled(d: &Delivery) -> bool
    ensures { result ≡ is_outstanding d.now }
{
    is_place_out(d.place) && !is_taker_no_ack(d.taker)
}

pub fn is_consumer(taker: Taker) -> bool
    ensures { result ≡ consumes taker }
{
    matches!(taker, Taker::Consumer { .. })
}

/// A consumer has it, and hasn't settled it.
pub fn is_unsettled_one(d: &Delivery) -> bool
    ensures { result ≡ is_unsettled d.now }
{
    is_consumer(d.taker) && is_unsettled(d)
}

fn is_getter(taker: Taker) -> bool
    ensures { result ≡ is_getter taker }
{
    matches!(taker, Taker::Getter { .. })
}

/// It waits for its get-ok.
pub fn is_waiting(d: &Delivery) -> bool
    ensures { result ≡ is_waiting d.now }
{
    is_place_held(d.place) && is_getter(d.taker)
}

pub fn is_delivery_open(d: &Delivery) -> bool
    ensures { result ≡ is_open d.now }
{
    d.place != Place::Settled || d.writing || d.at_risk || d.line.is_some()
}

/// Where a disposition is due.
pub fn place_owed(settled: bool, settle: Settle) -> Place
    ensures { result ≡ owed_place settled settle }
{
    if settled {
        Place::Settled
    } else {
        Place::Owed(settle)
    }
}

/// Where an arrival is.
pub fn place_of_arrival(closed: bool, image: bool, settled: bool, taker: Taker) -> Place
    ensures { result ≡ first_place closed image settled taker }
{
    if !image {
        return place_owed(settled, Settle::Rejected);
    }
    if closed || is_taker_nobody(taker) {
        return place_owed(settled, Settle::Released);
    }
    Place::Held
}

/// Drops the content where it isn't needed any more.
pub fn trim(d: &mut Delivery)
    ensures { d.new ≡ trimmed d.old }
{
    if !is_place_held(d.place) && !d.writing {
        d.content = None;
    }
}

fn deliver_one(d: &mut Delivery, number: u64, tag: u64)
    ensures { d.new ≡ delivered number tag d.old }
{
    if d.number == number && is_place_held(d.place) {
        d.tag = tag;
        d.place = Place::Out;
        d.writing = true;
    }
}

fn write_one(d: &mut Delivery, tag: u64)
    ensures { d.new ≡ written tag d.old }
{
    if d.tag != tag || !d.writing {
        return;
    }
    if is_place_out(d.place) && is_taker_no_ack(d.taker) {
        d.place = place_owed(d.settled, Settle::Accepted);
    }
    d.writing = false;
    d.at_risk = false;
}

fn is_in_tag(t: u64, tag: u64, multiple: bool) -> bool
    ensures { result ≡ in_tag tag multiple t }
{
    t == tag || multiple && (tag == 0 || t <= tag)
}

pub fn is_delivery_covered(d: &Delivery, tag: u64, multiple: bool) -> bool
    ensures { result ≡ is_covered tag multiple d.now }
{
    is_unsettled(d) && is_in_tag(d.tag, tag, multiple)
}

fn answer_one(d: &mut Delivery, tag: u64, multiple: bool, settle: Settle)
    ensures { d.new ≡ answered tag multiple settle d.old }
{
    if is_delivery_covered(d, tag, multiple) {
        d.place = place_owed(d.settled, settle);
    }
}

fn cancel_one(d: &mut Delivery, link: u32)
    ensures { d.new ≡ cancelled link d.old }
{
    if is_place_held(d.place) && is_on_link(d.link, link) {
        d.place = place_owed(d.settled, Settle::Released);
    }
}

fn close_one(d: &mut Delivery)
    ensures { d.new ≡ closed d.old }
{
    if is_place_held(d.place) || is_place_out(d.place) {
        d.place = place_owed(d.settled, Settle::Released);
    }
    if d.at_risk {
        d.at_risk = false;
        d.line = Some(LostKind::DeliveryLost);
    }
}

pub fn is_delivery_left(d: &Delivery) -> bool
    ensures { result ≡ is_left d.now }
{
    !d.settled && d.place != Place::Settled
}

fn lose_one(d: &mut Delivery)
    ensures { d.new ≡ end_lost d.old }
{
    if is_delivery_left(d) {
        d.place = Place::Settled;
        d.line = Some(LostKind::DeliveryLeft);
    }
}

fn is_in_range(id: u32, first: u32, last: u32) -> bool
    ensures { result ≡ in_range first last id }
{
    id.wrapping_sub(first) <= last.wrapping_sub(first)
}

fn is_settled_by(d: &Delivery, settle: NextSettle) -> bool
    ensures { result ≡ settles settle d.now }
{
    is_owed_as(d.place, settle.settle) && is_in_range(d.id, settle.first, settle.last)
}

fn settle_one(d: &mut Delivery, settle: NextSettle)
    ensures { d.new ≡ settle_sent settle d.old }
{
    if is_settled_by(d, settle) {
        d.place = Place::Settled;
    }
}

fn drop_link_of(d: &mut Delivery, link: u32)
    ensures { d.new ≡ link_dropped link d.old }
{
    if is_on_link(d.link, link) {
        d.link = None;
    }
}

fn report_one(d: &mut Delivery)
    ensures { d.new ≡ reported d.old }
{
    d.line = None;
}

fn move_one(d: &mut Delivery, change: Change)
    ensures { d.new ≡ moved change d.old }
{
    match change {
        Change::Delivered { number, tag } => deliver_one(d, number, tag),
        Change::Written { tag } => write_one(d, tag),
        Change::Answered {
            tag,
            multiple,
            settle,
        } => answer_one(d, tag, multiple, settle),
        Change::Cancelled { link } => cancel_one(d, link),
        Change::Closed => close_one(d),
        Change::EndLost => lose_one(d),
        Change::SettleSent { settle } => settle_one(d, settle),
        Change::LinkDropped { link } => drop_link_of(d, link),
        Change::Reported => report_one(d),
    }
}

/// What happens does to one delivery what its definition says.
pub fn change_one(d: &mut Delivery, change: Change)
    ensures { d.new ≡ changed change d.old }
{
    move_one(d, change);
    trim(d);
}

fn is_trim(d: &Delivery) -> bool
    ensures { result ≡ true → trimmed d.now ≡ d.now }
{
    d.content.is_none() || is_place_held(d.place) || d.writing
}

fn stays_moved(d: &Delivery, change: Change) -> bool
    ensures { result ≡ true → moved change d.now ≡ d.now }
{
    match change {
        Change::Answered { tag, multiple, .. } => !is_delivery_covered(d, tag, multiple),
        Change::SettleSent { settle } => !is_settled_by(d, settle),
        _ => false,
    }
}

/// What happens leaves this delivery as it is. It may do so too where this says no.
pub fn stays(d: &Delivery, change: Change) -> bool
    ensures { result ≡ true → changed change d.now ≡ d.now }
{
    stays_moved(d, change) && is_trim(d)
}

/// Leaves out what is closed.
pub fn compact(items: &mut Vec<Delivery>)
    ensures { items.new.items ≡ filter is_open items.old.items }
{
    items.retain(is_delivery_open);
}
