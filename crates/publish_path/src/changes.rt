//! What an event does to each publish of a life.

ghost use Rattle.std.specs.Prelude.{◌≡◌, ◌-◌, filter};
ghost use Rattle.publish_path.specs.declared.publish.Publish.{Publish};
ghost use Rattle.publish_path.specs.Publishes.{is_sending, is_open, framed, in_range, due_for};
ghost use Rattle.publish_path.specs.Publishes.{is_told, told, is_on, link_lost, covers, confirmed};
ghost use Rattle.publish_path.specs.Publishes.{reported, changed, is_accepted, is_released};
ghost use Rattle.publish_path.specs.Publishes.{owes_return, returned};

use crate::payload::Payload;
use crate::publish::{Answer, Confirm, Outcome, Place, Publish};
use open_items::{Frames, LostKind};
use std::alloc::Global;

/// What happens to the publishes of a life.
#[derive(Clone, Copy, Debug)]
pub enum Change {
    /// So many bytes of this publish's payload were sent, in its first frame or a later one; the
    /// delivery-id is that of a transfer that begins.
    Framed {
        number: u64,
        first: bool,
        id: u32,
        count: usize,
    },
    /// An outcome came for the delivery-ids from `first` to `last`.
    Told {
        first: u32,
        last: u32,
        outcome: Outcome,
    },
    /// This link was lost, or each; and whether its address wasn't found.
    LinkLost(Option<u32>, bool),
    /// This confirm was sent.
    Confirmed(Confirm),
    /// The lines that the report was owed were reported.
    Reported,
    /// One more frame of the return of this publish was sent.
    Returned(u64),
}

pub fn is_publish_sending(p: &Publish) -> bool
    ensures { result ≡ is_sending p.now.place }
{
    matches!(p.place, Place::Waiting | Place::Begun)
}

fn is_publish_open(p: &Publish) -> bool
    ensures { result ≡ is_open p.now }
{
    is_publish_sending(p) || p.answer != Answer::Settled || p.line.is_some() || !p.back.is_empty()
}

fn frame_one(alloc: Global, p: &mut Publish, first: bool, id: u32, count: usize)
    ensures { p.new ≡ framed p.old.number first id count p.old }
{
    if first && p.id.is_none() {
        p.id = Some(id);
    }
    if !is_publish_sending(p) {
        return;
    }
    if count < p.payload.len().saturating_sub(p.gone) {
        p.gone += count;
        p.place = Place::Begun;
    } else {
        p.payload = Payload::empty(alloc);
        p.gone = 0;
        p.place = Place::Sent;
    }
}

fn is_in_range(id: Option<u32>, first: u32, last: u32) -> bool
    ensures { result ≡ in_range first last id }
{
    match id {
        Some(id) => id.wrapping_sub(first) <= last.wrapping_sub(first),
        None => false,
    }
}

fn due(confirm: Option<u64>, accepted: bool) -> Answer
    ensures { result ≡ due_for confirm accepted }
{
    match confirm {
        Some(_) => Answer::Owed(accepted),
        None => Answer::Settled,
    }
}

pub fn is_publish_told(p: &Publish, first: u32, last: u32) -> bool
    ensures { result ≡ is_told first last p.now }
{
    p.answer == Answer::Open && is_in_range(p.id, first, last)
}

fn is_outcome_accepted(outcome: Outcome) -> bool
    ensures { result ≡ is_accepted outcome }
{
    outcome == Outcome::Accepted
}

fn is_outcome_released(outcome: Outcome) -> bool
    ensures { result ≡ is_released outcome }
{
    outcome == Outcome::Released
}

fn tell_one(alloc: Global, p: &mut Publish, first: u32, last: u32, outcome: Outcome)
    ensures { p.new ≡ told first last outcome p.old }
{
    if !is_publish_told(p, first, last) {
        return;
    }
    p.answer = due(p.confirm, is_outcome_accepted(outcome));
    if !is_outcome_released(outcome) {
        p.back = Frames::empty(alloc);
    }
}

pub fn is_link(one: Option<u32>, link: u32) -> bool
    ensures { result ≡ is_on one link }
{
    match one {
        Some(one) => link == one,
        None => true,
    }
}

fn lose_one(alloc: Global, p: &mut Publish, link: Option<u32>, not_found: bool)
    ensures { p.new ≡ link_lost link not_found p.old }
{
    if !is_link(link, p.link) {
        return;
    }
    if p.answer == Answer::Open {
        p.answer = due(p.confirm, false);
        p.line = Some(if p.place == Place::Waiting {
            LostKind::PublishLost
        } else {
            LostKind::PublishUnknown
        });
        if !not_found {
            p.back = Frames::empty(alloc);
        }
    }
    p.payload = Payload::empty(alloc);
    p.gone = 0;
    if is_publish_sending(p) {
        p.place = Place::Lost;
    }
}

fn is_covered(confirm: Confirm, number: Option<u64>) -> bool
    ensures { result ≡ covers confirm number }
{
    match number {
        Some(number) => { number == confirm.number || confirm.multiple && number <= confirm.number }
        None => false,
    }
}

fn confirm_one(alloc: Global, p: &mut Publish, confirm: Confirm)
    ensures { p.new ≡ confirmed confirm p.old }
{
    if !is_covered(confirm, p.confirm) {
        return;
    }
    if p.answer == Answer::Open {
        p.back = Frames::empty(alloc);
    }
    p.answer = Answer::Settled;
}

fn report_one(p: &mut Publish)
    ensures { p.new ≡ reported p.old }
{
    p.line = None;
}

pub fn is_return_owed(p: &Publish) -> bool
    ensures { result ≡ owes_return p.now }
{
    p.answer != Answer::Open && !p.back.is_empty()
}

fn return_one(p: &mut Publish, number: u64)
    ensures { p.new ≡ returned number p.old }
{
    if p.number == number && is_return_owed(p) {
        p.back.drop_first();
        p.returning = !p.back.is_empty();
    }
}

fn frame_if(alloc: Global, p: &mut Publish, number: u64, first: bool, id: u32, count: usize)
    ensures { p.new ≡ framed number first id count p.old }
{
    if p.number == number {
        frame_one(alloc, p, first, id, count);
    }
}

/// What happens does to one publish what its definition says.
pub fn change_one(alloc: Global, p: &mut Publish, change: Change)
    ensures { p.new ≡ changed change p.old }
{
    match change {
        Change::Framed {
            number,
            first,
            id,
            count,
        } => frame_if(alloc, p, number, first, id, count),
        Change::Told {
            first,
            last,
            outcome,
        } => tell_one(alloc, p, first, last, outcome),
        Change::LinkLost(link, not_found) => lose_one(alloc, p, link, not_found),
        Change::Confirmed(confirm) => confirm_one(alloc, p, confirm),
        Change::Reported => report_one(p),
        Change::Returned(number) => return_one(p, number),
    }
}

/// Leaves out what is closed.
pub fn compact(items: &mut Vec<Publish>)
    ensures { items.new.items ≡ filter is_open items.old.items }
{
    items.retain(is_publish_open);
}
