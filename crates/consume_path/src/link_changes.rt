//! What an event does to each receiving link of a life.

ghost use Rattle.std.specs.Prelude.{◌≡◌, map, filter, true, false, OnOk, OnErr, count_by, not, ◌+◌};
ghost use Rattle.std.specs.Prelude.{option_copied, if◌then◌else◌, ◌||◌};
ghost use Rattle.consume_path.specs.Links.{has_number, link_of, or_free, first_state, limit_by};
ghost use Rattle.consume_path.specs.Links.{new_link, without, is_between, joined, was_asked};
ghost use Rattle.consume_path.specs.Links.{found_empty, is_asked, is_empty, taker_of};
ghost use Rattle.consume_path.specs.Links.{link_attached, leaves_empty, link_flowed, link_echoed};
ghost use Rattle.consume_path.specs.Links.{new_get, link_waits, change_first};
ghost use Rattle.consume_path.specs.Links.{link_cancelled, link_closed, flow_sent};
ghost use Rattle.consume_path.specs.Links.{get_emptied, link_changed, counts, counts_on};
ghost use Rattle.consume_path.specs.Links.{counted_on, recount, getter_of, taker_by, one_more};
ghost use Rattle.consume_path.specs.Links.{served, begun, id_in, settled_in};
ghost use Rattle.consume_path.specs.Kept.{taken_counted, came_counted};

use crate::changes::{is_on_link, is_place_held, is_place_out, taker_limit};
use crate::delivery::{Delivery, Taker};
use crate::receiving::{Cause, Part, Partial, ReceivingLink, RecvKind, WaitingGet};
use crate::tallies::exchange;
use links_10::RecvLink;
use std::alloc::Global;
use wire_base::{ByteText, Memory};

/// Without a limit, a consumer's link has so many deliveries on their way or held.
const FREE_QUOTA: u32 = 64;

/// What happens to a link.
#[derive(Clone, Copy, Debug)]
pub enum LinkChange {
    /// The container's attach was read.
    Attached { count: u32 },
    /// Its flow with this delivery-count.
    Flowed { count: u32 },
    /// Its flow with echo.
    Echoed,
    /// A get waits.
    Waits { number: u64, no_ack: bool },
    /// Its consumer was cancelled.
    Cancelled,
    /// A flow of it was sent.
    FlowSent { credit: u32, cause: Cause },
    /// The get-empty of its get is noted.
    Emptied,
}

pub fn has_link_number(l: &ReceivingLink, link: u32) -> bool
    ensures { result ≡ has_number link l.now }
{
    l.link == link
}

/// The link with this number.
pub fn link_with(links: &[ReceivingLink], link: u32) -> Option<&ReceivingLink>
    ensures { option_copied result ≡ link_of links.now link }
{
    links.iter().find(|l| has_link_number(l, link))
}

fn limit_by(kind: &RecvKind, prefetch: u16) -> Option<u32>
    ensures { result ≡ limit_by kind.now prefetch }
{
    match kind {
        RecvKind::Consumer { no_ack, .. } if !*no_ack && prefetch != 0 => Some(prefetch as u32),
        _ => None,
    }
}

fn first_state(kind: &RecvKind, limit: Option<u32>) -> RecvLink
    ensures { result ≡ first_state kind.now limit }
{
    match kind {
        RecvKind::Consumer { .. } => RecvLink::new(limit.unwrap_or(FREE_QUOTA)),
        _ => RecvLink::asked(),
    }
}

/// A link that was asked for.
pub fn asked_link(link: u32, kind: RecvKind, prefetch: u16) -> ReceivingLink
    ensures { result ≡ new_link link kind prefetch }
{
    let limit = limit_by(&kind, prefetch);
    let state = first_state(&kind, limit);
    ReceivingLink {
        link,
        kind,
        limit,
        attached: false,
        state,
        partial: None,
        cancelled: false,
        stopping: false,
        echoes: 0,
        get: None,
    }
}

fn getter_of(get: Option<WaitingGet>) -> Taker
    ensures { result ≡ getter_of get }
{
    match get {
        Some(get) if !get.empty => Taker::Getter {
            number: get.number,
            no_ack: get.no_ack,
        },
        _ => Taker::Nobody,
    }
}

/// Whom an arrival on the link goes to.
pub fn taker_on(l: &ReceivingLink) -> Taker
    ensures { result ≡ taker_of l.now }
{
    match &l.kind {
        RecvKind::Consumer { no_ack, .. } if !l.cancelled => Taker::Consumer {
            no_ack: *no_ack,
            limit: l.limit,
        },
        RecvKind::Get => getter_of(l.get),
        _ => Taker::Nobody,
    }
}

fn asked_get(get: Option<WaitingGet>) -> Option<WaitingGet>
    ensures { result ≡ was_asked get }
{
    match get {
        Some(get) => Some(WaitingGet { asked: true, ..get }),
        None => None,
    }
}

fn empty_get(get: Option<WaitingGet>) -> Option<WaitingGet>
    ensures { result ≡ found_empty get }
{
    match get {
        Some(get) => Some(WaitingGet { empty: true, ..get }),
        None => None,
    }
}

fn served_get(get: Option<WaitingGet>) -> Option<WaitingGet>
    ensures { result ≡ served get }
{
    match get {
        Some(get) if get.empty => Some(get),
        _ => None,
    }
}

fn is_get_asked(get: Option<WaitingGet>) -> bool
    ensures { result ≡ is_asked get }
{
    match get {
        Some(get) => get.asked,
        None => false,
    }
}

/// A get-empty is due.
pub fn is_get_empty(get: Option<WaitingGet>) -> bool
    ensures { result ≡ is_empty get }
{
    match get {
        Some(get) => get.empty,
        None => false,
    }
}

fn attach_one(l: &mut ReceivingLink, link: u32, count: u32)
    ensures { l.new ≡ link_attached link count l.old }
{
    if has_link_number(l, link) {
        l.attached = true;
        l.state.attached(count);
    }
}

fn flow_one(l: &mut ReceivingLink, link: u32, count: u32)
    ensures { l.new ≡ link_flowed link count l.old }
{
    if !has_link_number(l, link) {
        return;
    }
    l.state.flow(count);
    if is_get_asked(l.get) && l.partial.is_none() && l.state.credit() == 0 {
        l.get = empty_get(l.get);
    }
}

fn echo_one(l: &mut ReceivingLink, link: u32)
    ensures { l.new ≡ link_echoed link l.old }
{
    if has_link_number(l, link) {
        l.echoes = l.echoes.saturating_add(1);
    }
}

fn wait_one(l: &mut ReceivingLink, link: u32, number: u64, no_ack: bool)
    ensures { l.new ≡ link_waits link number no_ack l.old }
{
    if has_link_number(l, link) {
        l.get = Some(WaitingGet {
            number,
            no_ack,
            asked: false,
            empty: false,
        });
    }
}

fn take_one(l: &mut ReceivingLink, link: u32, image: bool)
    ensures { l.new ≡ taken_counted link image l.old }
{
    if has_link_number(l, link) {
        let counted = l.state.counted().saturating_sub(l.partial.is_some() as u64);
        l.state.recounted(counted);
        l.partial = None;
        l.get = if image {
            served_get(l.get)
        } else {
            empty_get(l.get)
        };
    }
}

/// The whole delivery of the link with this number was taken, and isn't counted as begun.
pub fn take_on(links: &mut Vec<ReceivingLink>, link: u32, image: bool)
    ensures { links.new.items ≡ map (taken_counted link image) links.old.items }
{
    for l in links.iter_mut() {
        take_one(l, link, image);
    }
}

fn cancel_one(l: &mut ReceivingLink, link: u32)
    ensures { l.new ≡ link_cancelled link l.old }
{
    if has_link_number(l, link) {
        l.state.cancel();
        l.cancelled = true;
        l.stopping = true;
    }
}

fn flow_sent_one(l: &mut ReceivingLink, link: u32, credit: u32, cause: Cause)
    ensures { l.new ≡ flow_sent link credit cause l.old }
{
    if !has_link_number(l, link) {
        return;
    }
    l.state.granted(credit);
    match cause {
        Cause::Refill => {}
        Cause::Stop => l.stopping = false,
        Cause::Get => l.get = asked_get(l.get),
        Cause::Echo => l.echoes = l.echoes.saturating_sub(1),
    }
}

fn empty_one(l: &mut ReceivingLink, link: u32)
    ensures { l.new ≡ get_emptied link l.old }
{
    if has_link_number(l, link) {
        l.get = None;
    }
}

fn change_link(l: &mut ReceivingLink, link: u32, change: LinkChange)
    ensures { l.new ≡ link_changed link change l.old }
{
    match change {
        LinkChange::Attached { count } => attach_one(l, link, count),
        LinkChange::Flowed { count } => flow_one(l, link, count),
        LinkChange::Echoed => echo_one(l, link),
        LinkChange::Waits { number, no_ack } => wait_one(l, link, number, no_ack),
        LinkChange::Cancelled => cancel_one(l, link),
        LinkChange::FlowSent { credit, cause } => flow_sent_one(l, link, credit, cause),
        LinkChange::Emptied => empty_one(l, link),
    }
}

/// Changes the link with this number.
pub fn change_links(links: &mut Vec<ReceivingLink>, link: u32, change: LinkChange)
    ensures { links.new.items ≡ map (link_changed link change) links.old.items }
{
    for l in links.iter_mut() {
        change_link(l, link, change);
    }
}

fn close_one(l: &mut ReceivingLink)
    ensures { l.new ≡ link_closed l.old }
{
    l.state.cancel();
}

/// No link is granted credit any more.
pub fn close_links(links: &mut Vec<ReceivingLink>)
    ensures { links.new.items ≡ map link_closed links.old.items }
{
    for l in links.iter_mut() {
        close_one(l);
    }
}

/// A transfer goes on with its delivery, or begins one.
fn join(
    alloc: Global,
    partial: &mut Option<Partial>,
    part: Part,
    payload: &[u8],
) -> Result<(), Memory>
    requires { part.aborted ≡ false }
    ensures ok { OnOk result (partial.new ≡ joined part payload.now partial.old) }
    ensures err { OnErr result (partial.new ≡ partial.old) }
{
    match partial {
        Some(before) => {
            before.bytes.append(payload)?;
            before.settled = before.settled || part.settled;
            before.whole = !part.more;
        }
        None => {
            *partial = Some(Partial {
                id: part.id.unwrap_or(0),
                settled: part.settled,
                bytes: ByteText::copy_of(alloc, payload)?,
                whole: !part.more,
            });
        }
    }
    Ok(())
}

fn transfer_one(
    alloc: Global,
    l: &mut ReceivingLink,
    part: Part,
    payload: &[u8],
) -> Result<(), Memory>
    ensures ok { OnOk result (l.new ≡ came_counted part payload.now l.old) }
    ensures err { OnErr result (l.new ≡ l.old) }
{
    let begun = l.partial.is_some();
    if part.aborted {
        l.partial = None;
        l.get = empty_get(l.get);
    } else {
        join(alloc, &mut l.partial, part, payload)?;
    }
    if !begun {
        l.state.arrived();
    }
    let counted = exchange(begun, l.partial.is_some(), l.state.counted());
    l.state.recounted(counted);
    Ok(())
}

/// A transfer came on the link with this number, which counts anew what is begun there.
pub fn transfer_on(
    links: &mut Vec<ReceivingLink>,
    link: u32,
    part: Part,
    payload: &[u8],
) -> Result<(), Memory>
    ensures ok { OnOk result (links.new.items ≡ change_first (has_number link)
        (came_counted part payload.now) links.old.items) }
    ensures err { OnErr result (links.new.items ≡ links.old.items) }
{
    let alloc = *links.allocator();
    for k in 0..links.len() {
        if has_link_number(&links[k], link) {
            return transfer_one(alloc, &mut links[k], part, payload);
        }
    }
    Ok(())
}

/// The delivery-id of the delivery that a transfer with this one goes on with.
pub fn id_with(partial: &Option<Partial>, id: Option<u32>) -> u32
    ensures { result ≡ id_in partial.now id }
{
    match partial {
        Some(partial) => partial.id,
        None => id.unwrap_or(0),
    }
}

/// A transfer of the delivery came settled, this one among them.
pub fn is_settled_with(partial: &Option<Partial>, settled: bool) -> bool
    ensures { result ≡ (settled_in partial.now || settled) }
{
    match partial {
        Some(partial) => partial.settled || settled,
        None => settled,
    }
}

fn begin_one(l: &mut ReceivingLink)
    ensures { l.new ≡ begun l.old }
{
    if l.partial.is_none() {
        l.state.arrived();
    }
}

/// A transfer that ends its delivery came on the link with this number.
pub fn begin_on(links: &mut Vec<ReceivingLink>, link: u32)
    ensures { links.new.items ≡ change_first (has_number link) begun links.old.items }
{
    for k in 0..links.len() {
        if has_link_number(&links[k], link) {
            begin_one(&mut links[k]);
            return;
        }
    }
}

/// It counts in the quota of its link.
pub fn is_delivery_counted(d: &Delivery) -> bool
    ensures { result ≡ counts d.now }
{
    is_place_held(d.place) || is_place_out(d.place) && taker_limit(d.taker).is_some()
}

fn is_counted_on(d: &Delivery, link: u32) -> bool
    ensures { result ≡ counts_on link d.now }
{
    is_on_link(d.link, link) && is_delivery_counted(d)
}

fn count_on(items: &[Delivery], link: u32) -> usize
    ensures { result ≡ count_by (counts_on link) items.now }
{
    items.iter().filter(|d| is_counted_on(d, link)).count()
}

/// Counts what counts on the link.
pub fn recount_one(items: &[Delivery], l: &mut ReceivingLink)
    ensures { l.new ≡ recount items.now l.old }
{
    let begun = if l.partial.is_some() { 1 } else { 0 };
    let counted = count_on(items, l.link) as u64 + begun;
    l.state.recounted(counted);
}

/// Leaves out the link with this number.
pub fn leave_out(links: &mut Vec<ReceivingLink>, link: u32)
    ensures { links.new.items ≡ without link links.old.items }
{
    links.retain(|l| !has_link_number(l, link));
}
