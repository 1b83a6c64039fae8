//! The links of a session in the order of their numbers: searches, and the change of one.

ghost use Rattle.std.specs.Prelude.{◌≡◌, ◌+◌, ◌≤◌, length, find, IfSome, IfOk, option_copied};
ghost use Rattle.std.specs.Prelude.{filter, count_by, not, ◌&&◌};
ghost use Rattle.session_path.specs.Links.{handle_of, has_number, is_wanted, is_left, is_given};
ghost use Rattle.session_path.specs.Links.{is_failed, is_to_part, is_parting, is_stage_open};
ghost use Rattle.session_path.specs.Links.{is_stage_whole, is_wanted_receiver, is_at, is_other_end};
ghost use Rattle.session_path.specs.Links.{is_asked_as, put_for, put, free_number, one_if, told_by};
ghost use Rattle.session_path.specs.Links.{wanted_link, answered, left_by, given_by, failed_by};
ghost use Rattle.session_path.specs.Links.{asked_as, told_once, is_left_at, gone_from};
ghost use Rattle.session_path.specs.Links.{count_in, credit_in, detached_from};
ghost use Rattle.publish_path.specs.Links.{link_of};
ghost use Rattle.session_path.specs.Links.{is_below, is_stage_refused};
ghost use Rattle.session_path.specs.Path.{is_done_with, is_left_by, parts};

use crate::path::{PathLink, Stage};
use consume_path::{Deliveries, TransferFault};
use publish_path::SendLinks;
use wire_base::Memory;

/// The handle of a link; 0 where it has none.
pub fn handle(stage: Stage) -> u32
    ensures { result ≡ handle_of stage }
{
    match stage {
        Stage::Wanted => 0,
        Stage::Asked(handle) => handle,
        Stage::Open(handle) => handle,
        Stage::Refused(handle) => handle,
        Stage::Left(handle) => handle,
        Stage::Given(handle) => handle,
        Stage::Failed(handle, _) => handle,
    }
}

/// Its attach is due.
pub fn is_link_wanted(l: &PathLink) -> bool
    ensures { result ≡ is_wanted l.now }
{
    matches!(l.stage, Stage::Wanted)
}

/// The container detached it, and the gateway didn't.
pub fn is_link_left(l: &PathLink) -> bool
    ensures { result ≡ is_left l.now }
{
    matches!(l.stage, Stage::Left(_))
}

fn is_link_failed(l: &PathLink) -> bool
    ensures { result ≡ is_failed l.now }
{
    matches!(l.stage, Stage::Failed(_, _))
}

/// The gateway's detach is due.
fn is_link_to_part(l: &PathLink) -> bool
    ensures { result ≡ is_to_part l.now }
{
    is_link_left(l) || is_link_failed(l)
}

/// The gateway detached it, and the container didn't.
pub fn is_link_given(l: &PathLink) -> bool
    ensures { result ≡ is_given l.now }
{
    matches!(l.stage, Stage::Given(_))
}

/// One end detached it, or the gateway's detach is due.
pub fn is_link_parting(l: &PathLink) -> bool
    ensures { result ≡ is_parting l.now }
{
    is_link_to_part(l) || is_link_given(l)
}

/// Both ends attached it, and none detached.
pub fn is_link_open(l: &PathLink) -> bool
    ensures { result ≡ is_stage_open l.now.stage }
{
    matches!(l.stage, Stage::Open(_))
}

/// The container refused it.
pub fn is_link_refused(l: &PathLink) -> bool
    ensures { result ≡ is_stage_refused l.now.stage }
{
    matches!(l.stage, Stage::Refused(_))
}

fn is_link_whole(l: &PathLink) -> bool
    ensures { result ≡ is_stage_whole l.now.stage }
{
    matches!(l.stage, Stage::Open(_) | Stage::Refused(_))
}

/// The container sends transfers on it: both ends attached it, and none detached or is to.
pub fn is_link_taking(l: &PathLink) -> bool
    ensures { result ≡ (is_stage_whole l.now.stage && l.now.receives) }
{
    is_link_whole(l) && l.receives
}

fn is_link_wanted_receiver(l: &PathLink) -> bool
    ensures { result ≡ is_wanted_receiver l.now }
{
    is_link_wanted(l) && l.receives
}

/// Its handle is below that of the other, if there is one.
pub fn is_link_lower(l: &PathLink, other: Option<PathLink>) -> bool
    ensures { result ≡ is_below l.now other }
{
    match other {
        Some(other) => handle(l.stage) < handle(other.stage),
        None => true,
    }
}

fn is_link_at(l: &PathLink, handle: u32) -> bool
    ensures { result ≡ is_at handle l.now }
{
    match l.stage {
        Stage::Open(own) => own == handle,
        Stage::Refused(own) => own == handle,
        Stage::Given(own) => own == handle,
        Stage::Failed(own, _) => own == handle,
        _ => false,
    }
}

fn is_link_left_at(l: &PathLink, handle: u32) -> bool
    ensures { result ≡ is_left_at handle l.now.stage }
{
    match l.stage {
        Stage::Left(own) => own == handle,
        _ => false,
    }
}

fn is_link_other_end(l: &PathLink, role: bool) -> bool
    ensures { result ≡ is_other_end role l.now }
{
    role != l.receives
}

fn is_link_asked_as(l: &PathLink, name: u64, role: bool) -> bool
    ensures { result ≡ is_asked_as name role l.now }
{
    matches!(l.stage, Stage::Asked(_)) && l.name == name && is_link_other_end(l, role)
}

/// The first link whose attach is due.
pub fn first_wanted(links: &[PathLink]) -> Option<&PathLink>
    ensures { option_copied result ≡ find is_wanted links.now }
{
    links.iter().find(|l| is_link_wanted(l))
}

/// How many links are wanted.
pub fn count_wanted(links: &[PathLink]) -> usize
    ensures { result ≡ count_by is_wanted links.now }
{
    links.iter().filter(|l| is_link_wanted(l)).count()
}

/// How many links one end detached, or the gateway is to detach.
pub fn count_parting(links: &[PathLink]) -> usize
    ensures { result ≡ count_by is_parting links.now }
{
    links.iter().filter(|l| is_link_parting(l)).count()
}

/// Its deliveries are over: nothing is to come of the link any more.
fn is_link_done_with(l: &PathLink, deliveries: &Deliveries) -> bool
    ensures { result ≡ is_done_with deliveries.now l.now }
{
    l.receives && is_link_open(l) && deliveries.is_over(l.link)
}

/// The gateway's detach is due, and no get-ok of it is to go.
fn is_link_left_by(l: &PathLink, deliveries: &Deliveries) -> bool
    ensures { result ≡ is_left_by deliveries.now l.now }
{
    is_link_to_part(l) && !(l.receives && deliveries.holds(l.link))
}

fn is_link_going(l: &PathLink, deliveries: &Deliveries) -> bool
    ensures { result ≡ parts deliveries.now l.now }
{
    is_link_left_by(l, deliveries) || is_link_done_with(l, deliveries)
}

/// The first link whose detach is due.
pub fn first_to_part<'a>(links: &'a [PathLink], deliveries: &Deliveries) -> Option<&'a PathLink>
    ensures { option_copied result ≡ find (parts deliveries.now) links.now }
{
    links.iter().find(|l| is_link_going(l, deliveries))
}

/// The link that both attached with this handle of the gateway, and the container didn't detach.
pub fn first_at(links: &[PathLink], handle: u32) -> Option<&PathLink>
    ensures { option_copied result ≡ find (is_at handle) links.now }
{
    links.iter().find(|l| is_link_at(l, handle))
}

fn is_link_numbered(l: &PathLink, number: u32) -> bool
    ensures { result ≡ has_number number l.now }
{
    l.link == number
}

/// The link with this number.
pub fn first_numbered(links: &[PathLink], number: u32) -> Option<&PathLink>
    ensures { option_copied result ≡ find (has_number number) links.now }
{
    links.iter().find(|l| is_link_numbered(l, number))
}

/// The link whose attach under this name isn't answered, for an end of this role.
pub fn first_asked_as(links: &[PathLink], name: u64, role: bool) -> Option<&PathLink>
    ensures { option_copied result ≡ find (is_asked_as name role) links.now }
{
    links.iter().find(|l| is_link_asked_as(l, name, role))
}

fn put_one(this: &mut PathLink, link: PathLink)
    ensures { this.new ≡ put_for link this.old }
{
    if this.link == link.link {
        *this = link;
    }
}

/// A link takes the place of the one with its number.
pub fn put_link(links: &mut Vec<PathLink>, link: PathLink)
    ensures { links.new.items ≡ put link links.old.items }
{
    for this in links.iter_mut() {
        put_one(this, link);
    }
}

/// Leaves out what the container detached with this handle of the gateway.
pub fn drop_left(links: &mut Vec<PathLink>, handle: u32)
    ensures { links.new.items ≡ gone_from handle links.old.items }
{
    links.retain(|l| !is_link_left_at(l, handle));
}

/// Leaves out the links that are wanted.
pub fn drop_all_wanted(links: &mut Vec<PathLink>)
    ensures { links.new.items ≡ filter (λ l. not (is_wanted l)) links.old.items }
{
    links.retain(|l| !is_link_wanted(l));
}

/// Leaves out the receiving links that are wanted.
pub fn drop_wanted_receivers(links: &mut Vec<PathLink>)
    ensures { links.new.items ≡ filter (λ l. not (is_wanted_receiver l)) links.old.items }
{
    links.retain(|l| !is_link_wanted_receiver(l));
}

/// Leaves out the receiving link with this number, if it is wanted.
pub fn drop_wanted_receiver(links: &mut Vec<PathLink>, number: u32)
    ensures { links.new.items
        ≡ filter (λ l. not (is_wanted_receiver l && has_number number l)) links.old.items }
{
    links.retain(|l| !(is_link_wanted_receiver(l) && is_link_numbered(l, number)));
}

fn drop_numbered(links: &mut Vec<PathLink>, number: u32)
    ensures { links.new.items ≡ filter (λ l. not (has_number number l)) links.old.items }
{
    links.retain(|l| !is_link_numbered(l, number));
}

/// The container detached a link that both attached.
pub fn detach_link(links: &mut Vec<PathLink>, l: PathLink, sending: &SendLinks)
    ensures { links.new.items ≡ detached_from sending.now l links.old.items }
{
    if is_link_given(&l) {
        drop_numbered(links, l.link);
    } else {
        put_link(links, left(l, sending));
    }
}

/// The lowest number that no link has.
pub fn lowest_free(links: &[PathLink]) -> usize
    ensures number { result ≡ free_number links.now }
    ensures within { result ≤ length links.now }
{
    let mut n = 0;
    for this in links {
        if this.link as usize != n {
            return n;
        }
        n += 1;
    }
    n
}

/// A link whose attach is due.
pub fn wanted(link: u32, receives: bool) -> PathLink
    ensures { result ≡ wanted_link link receives }
{
    PathLink {
        link,
        receives,
        stage: Stage::Wanted,
        name: 0,
        echoes: 0,
        drains: 0,
        draining: false,
        count: 0,
        credit: 0,
    }
}

pub fn asked(l: PathLink, handle: u32, name: u64) -> PathLink
    ensures { result ≡ asked_as handle name l }
{
    PathLink {
        stage: Stage::Asked(handle),
        name,
        ..l
    }
}

pub fn answered(l: PathLink, there: bool) -> PathLink
    ensures { result ≡ answered there l }
{
    let own = handle(l.stage);
    let stage = if there {
        Stage::Open(own)
    } else {
        Stage::Refused(own)
    };
    PathLink { stage, ..l }
}

/// The credit of a sending link; 0 where it has none.
pub fn credit_of(sending: &SendLinks, link: u32) -> u32
    ensures { result ≡ credit_in (link_of sending.now link) }
{
    match sending.get(link) {
        Some(state) => state.credit(),
        None => 0,
    }
}

/// The delivery-count of a sending link.
pub fn count_of(sending: &SendLinks, link: u32) -> u32
    ensures { result ≡ count_in (link_of sending.now link) }
{
    match sending.get(link) {
        Some(state) => state.count(),
        None => 0,
    }
}

fn left(l: PathLink, sending: &SendLinks) -> PathLink
    ensures { result ≡ left_by sending.now l }
{
    PathLink {
        stage: Stage::Left(handle(l.stage)),
        echoes: 0,
        count: count_of(sending, l.link),
        credit: credit_of(sending, l.link),
        ..l
    }
}

pub fn given(l: PathLink) -> PathLink
    ensures { result ≡ given_by l }
{
    PathLink {
        stage: Stage::Given(handle(l.stage)),
        ..l
    }
}

pub fn failed(l: PathLink, fault: TransferFault) -> PathLink
    ensures { result ≡ failed_by fault l }
{
    PathLink {
        stage: Stage::Failed(handle(l.stage), fault),
        ..l
    }
}

fn one_more(count: u32, by: bool) -> Option<u32>
    ensures { IfSome result (λ n. n ≡ count + one_if by) }
{
    if by {
        count.checked_add(1)
    } else {
        Some(count)
    }
}

/// What a flow of the container asks of its link; `Memory` if a count is full.
pub fn told(l: PathLink, drain: bool, echo: bool) -> Result<PathLink, Memory>
    ensures { IfOk result (λ x. x ≡ told_by drain echo l) }
{
    match (one_more(l.echoes, echo), one_more(l.drains, drain)) {
        (Some(echoes), Some(drains)) => Ok(PathLink {
            echoes,
            drains,
            draining: drain,
            ..l
        }),
        _ => Err(Memory),
    }
}

pub fn told_once(l: PathLink) -> PathLink
    ensures { result ≡ told_once l }
{
    if l.echoes > 0 {
        return PathLink {
            echoes: l.echoes - 1,
            ..l
        };
    }
    PathLink {
        drains: l.drains.saturating_sub(1),
        count: l.count.wrapping_add(l.credit),
        credit: 0,
        ..l
    }
}
