//! The links of a session: each call is one step of them.

ghost use Rattle.std.specs.Prelude.{◌≡◌, ◌≤◌, ◌<◌, ◌+◌, ◌^◌, ◌++◌, ◌∷◌, [], ◌==◌, if◌then◌else◌};
ghost use Rattle.std.specs.Prelude.{length, find, filter, map, option_copied, Some, None, OnOk};
ghost use Rattle.std.specs.Prelude.{OnErr, IfOk, IfSome, true, false, not, ◌||◌};
ghost use Rattle.publish_path.specs.Links.{address_of, asked_link, link_of, link_to, flowed};
ghost use Rattle.publish_path.specs.Links.{without};
ghost use Rattle.publish_path.specs.Offers.{held_bytes, held_count, next_frame_of, rest_of};
ghost use Rattle.publish_path.specs.Offers.{frame_sent, links_after};
ghost use Rattle.publish_path.specs.Publishes.{TakenUp, after_event};
ghost use Rattle.session_path.specs.Path.{flow_of, given_of, is_idle, number_of};
ghost use Rattle.std.specs.List.{list_any};
ghost use Rattle.session_path.specs.Path.{IsThere, detaching_in, is_resting, lower_of, owes_flow};
ghost use Rattle.session_path.specs.Path.{is_empty_of};
ghost use Rattle.link_table.specs.Table.{free_of};
ghost use Rattle.session_path.specs.Due.{attach_of, due_in, flow_due};
ghost use Rattle.session_path.specs.Links.{credit_in};
ghost use Rattle.session_path.specs.Links.{handle_at, attached_if, drained_if, free_number};
ghost use Rattle.session_path.specs.Links.{linked_to, with_link_to, with_wanted, told_on, no_links};
ghost use Rattle.session_path.specs.Links.{with_receiver, without_receivers, without_wanted};
ghost use Rattle.session_path.specs.Links.{all_lost, is_wanted_at, limited};
ghost use Rattle.session_path.specs.Links.{link_asked, attach_fault, fault_unasked, asked_by, attached, is_wanted};
ghost use Rattle.session_path.specs.Links.{has_number, is_left, is_stage_open, gone_on};
ghost use Rattle.session_path.specs.Links.{is_stage_failed};
ghost use Rattle.session_path.specs.Links.{named, link_flowed, link_detached, link_failed};
ghost use Rattle.session_path.specs.Links.{is_wanting, lower_if, lowest, given_on, parted};
ghost use Rattle.session_path.specs.Links.{LinksState};

use crate::links::{
    answered, asked, count_of, count_parting, count_wanted, credit_of, detach_link,
    drop_all_wanted, drop_left, drop_wanted_receiver, drop_wanted_receivers, failed,
    first_asked_as, first_at, first_numbered, first_to_part, first_wanted, given, handle,
    is_link_given, is_link_left, is_link_lower, is_link_open, is_link_taking, is_link_wanted,
    lowest_free, put_link, told, told_once, wanted,
};
use crate::path::{AttachDue, AttachFault, AttachHeard, FlowDue, PathLink, PathOk};
use consume_path::{Deliveries, TransferFault};
use link_table::Handles;
use open_items::Frames;
use publish_path::{NextFrame, Payload, Publishes, SendLinks};
use std::alloc::Global;
use std::collections::VecDeque;
use std::marker::Model;
use wire_base::{ByteText, Memory};

/// The greatest handle that the gateway takes.
const GREATEST_HANDLE: u32 = 255;

/// The numbers of links have 32 bits.
const MOST_LINKS: usize = 4_294_967_295;

/// A flow of the container on a link (AMQP 1.0 2.7.4).
#[derive(Clone, Copy, Debug)]
pub struct LinkFlow {
    /// Its delivery-count, if it was set.
    pub count: Option<u32>,
    pub credit: u32,
    pub drain: bool,
    pub echo: bool,
}

/// The links of a session. Contracts see the credit of the sending ones, how far each is, and their
/// handles.
#[derive(Drop)]
pub struct PathLinks {
    sending: SendLinks,
    links: Vec<PathLink>,
    handles: Handles,
}

impl Model for PathLinks {
    ghost use Rattle.session_path.specs.Links.{LinksState, AreTied};

    ghost Value = { LinksState };

    ghost view = { λ a. record {
      sending = a.sending;
      links = a.links.items;
      handles = a.handles;
    } };

    ghost invariant = { λ a. AreTied a.sending a.links.items a.handles };
}

impl PathLinks {
    /// No links, and handles up to 255, all free. It takes the memory of the handles.
    pub fn new(alloc: Global) -> Result<PathLinks, Memory>
        ensures { IfOk result (λ links. links ≡ no_links) }
    {
        let handles = Handles::new(alloc, GREATEST_HANDLE)?;
        Ok(PathLinks {
            sending: SendLinks::new(alloc),
            links: Vec::new(alloc),
            handles,
        })
    }

    /// The container's begin came: no handle above its greatest is taken from now on.
    pub fn limit(&mut self, handle_max: u32)
        ensures { self.new ≡ limited handle_max self.old }
    {
        self.handles.limit(handle_max.min(GREATEST_HANDLE));
    }

    /// No link is left.
    pub fn lose_all(&mut self)
        ensures { self.new ≡ all_lost self.old }
    {
        let alloc = *self.links.allocator();
        self.sending = SendLinks::new(alloc);
        self.links.clear();
    }

    /// A publish with this payload and these frames of its return was taken up, for this address:
    /// on the link to it, or else on one that is wanted from now on.
    pub fn publish(
        &mut self,
        publishes: &mut Publishes,
        address: ByteText,
        confirm: bool,
        payload: Payload,
        back: Frames,
    ) -> Result<(), Memory>
        requires numbers { publishes.old.numbers < 2 ^ 62 }
        requires count { held_count publishes.old.list + 1 < 2 ^ 32 }
        requires bytes { held_bytes publishes.old.list + length payload < 2 ^ 64 }
        ensures ok_links { OnOk result (self.new ≡ linked_to address self.old) }
        ensures ok_publishes { OnOk result (publishes.new ≡ after_event (TakenUp (number_of
            (link_to
            (linked_to address self.old).sending address)) confirm payload back) publishes.old) }
        ensures err_links { OnErr result (self.new ≡ self.old) }
        ensures err_publishes { OnErr result (publishes.new ≡ publishes.old) }
    {
        match self.sending.find(address.as_slice()) {
            Some(link) => {
                publishes.add(link, confirm, payload, back)?;
                Ok(())
            }
            None => self.publish_on_new(publishes, address, confirm, payload, back),
        }
    }

    fn publish_on_new(
        &mut self,
        publishes: &mut Publishes,
        address: ByteText,
        confirm: bool,
        payload: Payload,
        back: Frames,
    ) -> Result<(), Memory>
        requires address { link_to self.old.sending address ≡ None }
        requires numbers { publishes.old.numbers < 2 ^ 62 }
        requires count { held_count publishes.old.list + 1 < 2 ^ 32 }
        requires bytes { held_bytes publishes.old.list + length payload < 2 ^ 64 }
        ensures ok_links { OnOk result (self.new ≡ with_link_to address self.old) }
        ensures ok_publishes { OnOk result (publishes.new
            ≡ after_event (TakenUp (free_number self.old.links) confirm payload back)
            publishes.old) }
        ensures err_links { OnErr result (self.new ≡ self.old) }
        ensures err_publishes { OnErr result (publishes.new ≡ publishes.old) }
    {
        let link = add_link(&mut self.links, &mut self.sending, address)?;
        match publishes.add(link, confirm, payload, back) {
            Ok(_) => Ok(()),
            Err(memory) => {
                remove_one(&mut self.sending, link);
                self.links.remove(link as usize);
                Err(memory)
            }
        }
    }

    /// A receiving link is wanted from now on: its number.
    pub fn want_receiver(&mut self) -> Result<u32, Memory>
        ensures number { IfOk result (λ n. n ≡ free_number self.old.links) }
        ensures ok { OnOk result (self.new ≡ with_receiver self.old) }
        ensures err { OnErr result (self.new ≡ self.old) }
    {
        insert_wanted(&mut self.links, true)
    }

    /// The receiving link that was wanted last, with this number, isn't wanted any more.
    pub fn unwant(&mut self, link: u32)
        ensures { (old : LinksState) → self.old ≡ with_receiver old
            → link ≡ free_number old.links → self.new ≡ old }
    {
        drop_wanted_receiver(&mut self.links, link);
    }

    /// Receiving links that are wanted aren't any more.
    pub fn drop_receivers(&mut self)
        ensures { self.new ≡ without_receivers self.old }
    {
        drop_wanted_receivers(&mut self.links);
    }

    /// No link is wanted any more.
    pub fn drop_wanted(&mut self)
        ensures { self.new ≡ without_wanted self.old }
    {
        drop_wanted_senders(&mut self.sending, self.links.as_slice());
        drop_all_wanted(&mut self.links);
    }

    /// The first attach that is due was sent, under this name. Nothing changes where none is.
    pub fn ask(&mut self, name: u64)
        ensures { self.new ≡ link_asked name self.old }
    {
        let Some(l) = first_wanted(self.links.as_slice()) else {
            return;
        };
        let l = *l;
        let Some(own) = self.handles.free() else {
            return;
        };
        self.handles.attach(own);
        put_link(&mut self.links, asked(l, own, name));
    }

    /// The container's attach came: the link that it answers. Nothing changes where it is at fault.
    pub fn attach(&mut self, a: AttachHeard) -> Option<PathLink>
        ensures link { result ≡ asked_by a self.old }
        ensures links { self.new ≡ attached a self.old }
    {
        let Some(l) = first_asked_as(self.links.as_slice(), a.name, a.role) else {
            return None;
        };
        let l = *l;
        if !self.handles.attached(handle(l.stage), a.peer) {
            return None;
        }
        attach_if(&mut self.sending, l.link, a.there);
        put_link(&mut self.links, answered(l, a.there));
        Some(l)
    }

    /// The link that this handle of the container names: both ends attached it.
    pub fn named(&self, peer: u32) -> Option<PathLink>
        ensures { result ≡ named peer self.now }
    {
        let own = self.handles.of_peer(peer)?;
        match first_at(self.links.as_slice(), own) {
            Some(l) => Some(*l),
            None => None,
        }
    }

    /// The links, in the order of their numbers.
    pub fn all(&self) -> &[PathLink]
        ensures { result.now ≡ self.now.links }
    {
        self.links.as_slice()
    }

    /// The link with this number.
    pub fn numbered(&self, link: u32) -> Option<PathLink>
        ensures { result ≡ find (has_number link) self.now.links }
    {
        first_numbered(self.links.as_slice(), link).copied()
    }

    /// A flow came on the link that this handle of the container names; nothing changes where it
    /// names none. `Memory` if a count of the link is full.
    pub fn flow(&mut self, peer: u32, flow: LinkFlow) -> Result<(), Memory>
        ensures ok { OnOk result (self.new
            ≡ link_flowed peer flow.count flow.credit flow.drain flow.echo self.old) }
        ensures err { OnErr result (self.new ≡ self.old) }
    {
        let Some(own) = self.handles.of_peer(peer) else {
            return Ok(());
        };
        let Some(l) = first_at(self.links.as_slice(), own) else {
            return Ok(());
        };
        let l = *l;
        let link = told(l, flow.drain, flow.echo)?;
        flow_one(&mut self.sending, l.link, flow);
        put_link(&mut self.links, link);
        Ok(())
    }

    /// The container detached the link that this handle of it names; nothing changes where it names
    /// none.
    pub fn detach(&mut self, peer: u32)
        ensures { self.new ≡ link_detached peer self.old }
    {
        let Some(own) = self.handles.of_peer(peer) else {
            return;
        };
        let Some(l) = first_at(self.links.as_slice(), own) else {
            return;
        };
        let l = *l;
        self.handles.detach_read(handle(l.stage));
        detach_link(&mut self.links, l, &self.sending);
        remove_one(&mut self.sending, l.link);
    }

    /// A transfer passed a limit of the receiving link that this handle of the container names.
    /// Nothing changes where it names no such link that both ends attached.
    pub fn fail(&mut self, peer: u32, fault: TransferFault)
        ensures { self.new ≡ link_failed peer fault self.old }
    {
        let Some(own) = self.handles.of_peer(peer) else {
            return;
        };
        let Some(l) = first_at(self.links.as_slice(), own) else {
            return;
        };
        let l = *l;
        if is_link_taking(&l) {
            put_link(&mut self.links, failed(l, fault));
        }
    }

    /// The address of this link's target; empty where there is no such link, or it is lost.
    pub fn address(&self, link: u32) -> &[u8]
        ensures { result.now ≡ address_of self.now.sending link }
    {
        self.sending.address(link)
    }

    /// Why an attach under this name, for this role and handle of the container can't be taken.
    pub fn attach_fault(&self, name: u64, role: bool, peer: u32) -> Option<AttachFault>
        ensures { result ≡ attach_fault name role peer self.now }
    {
        if self.handles.of_peer(peer).is_some() {
            Some(AttachFault::HandleInUse)
        } else if first_asked_as(self.links.as_slice(), name, role).is_some() {
            None
        } else {
            Some(AttachFault::NotAsked)
        }
    }

    /// Why an attach that no attach of the gateway asks for can't be taken.
    pub fn fault_unasked(&self, peer: u32) -> AttachFault
        ensures { result ≡ fault_unasked peer self.now }
    {
        if self.handles.of_peer(peer).is_some() {
            AttachFault::HandleInUse
        } else {
            AttachFault::NotAsked
        }
    }

    /// The handle of a link, by its number; 0 where it has none.
    pub fn handle_of(&self, link: u32) -> u32
        ensures { result ≡ handle_at link self.now.links }
    {
        match first_numbered(self.links.as_slice(), link) {
            None => 0,
            Some(this) => handle(this.stage),
        }
    }

    /// The attach that is due.
    pub fn next_attach(&self) -> Option<AttachDue>
        ensures { result ≡ attach_of (find is_wanted self.now.links) (free_of self.now.handles) }
    {
        let Some(l) = first_wanted(self.links.as_slice()) else {
            return None;
        };
        let l = *l;
        match self.handles.free() {
            Some(handle) => Some(AttachDue {
                link: l.link,
                handle,
                receives: l.receives,
            }),
            None => None,
        }
    }

    /// No handle is free, and more links are wanted than are on their way to give theirs back.
    fn is_wanting(&self) -> bool
        ensures { result ≡ is_wanting self.now }
    {
        let wanted = count_wanted(self.links.as_slice());
        wanted > 0 && self.handles.free().is_none() && count_parting(self.links.as_slice()) < wanted
    }

    /// The link that is given up for its handle: on it no publish or get is under way.
    fn given_up(
        &self,
        publishes: &Publishes,
        deliveries: &Deliveries,
        oks: &VecDeque<PathOk>,
    ) -> Option<PathLink>
        ensures { result ≡ given_of publishes.now.list deliveries.now oks.now.items self.now }
    {
        if self.is_wanting() {
            lowest_idle(self.links.as_slice(), publishes, deliveries, oks)
        } else {
            None
        }
    }

    /// The link whose detach is due.
    #[tactic(auto, using(crate::proofs::Idle::detaching_there))]
    pub fn next_detach(
        &self,
        publishes: &Publishes,
        deliveries: &Deliveries,
        oks: &VecDeque<PathOk>,
    ) -> Option<PathLink>
        ensures link { result
            ≡ detaching_in publishes.now.list deliveries.now oks.now.items self.now }
        ensures there { IfSome result (IsThere self.now) }
    {
        let parting = first_to_part(self.links.as_slice(), deliveries).copied();
        lower_of(parting, self.given_up(publishes, deliveries, oks))
    }

    /// The detach that is due was sent. Nothing changes where none is.
    pub fn part(&mut self, publishes: &Publishes, deliveries: &Deliveries, oks: &VecDeque<PathOk>)
        ensures { self.new
            ≡ parted (detaching_in publishes.now.list deliveries.now oks.now.items self.old)
            self.old }
    {
        let Some(l) = self.next_detach(publishes, deliveries, oks) else {
            return;
        };
        if is_link_left(&l) {
            self.forget(l);
        } else {
            self.give(l);
        }
    }

    /// The detach of a link that the container detached was sent.
    fn forget(&mut self, l: PathLink)
        requires left { is_left l ≡ true }
        requires there { find (has_number l.link) self.old.links ≡ Some l }
        ensures { self.new ≡ gone_on (Some l) self.old }
    {
        let own = handle(l.stage);
        self.handles.detach_sent(own);
        drop_left(&mut self.links, own);
    }

    /// The detach of a link that both ends attached was sent, and the container's is awaited.
    fn give(&mut self, l: PathLink)
        requires stage { (is_stage_open l.stage || is_stage_failed l.stage) ≡ true }
        requires there { find (has_number l.link) self.old.links ≡ Some l }
        ensures { self.new ≡ given_on (Some l) self.old }
    {
        self.handles.detach_sent(handle(l.stage));
        remove_one(&mut self.sending, l.link);
        put_link(&mut self.links, given(l));
    }

    /// The sending link whose flow is due.
    pub fn owing(&self, publishes: &Publishes) -> Option<PathLink>
        ensures { result ≡ flow_of publishes.now.list self.now }
    {
        first_owing(self.links.as_slice(), publishes, &self.sending).copied()
    }

    /// The flow that is due.
    pub fn next_flow(&self, publishes: &Publishes) -> Option<FlowDue>
        ensures { result ≡ due_in self.now.sending (flow_of publishes.now.list self.now) }
    {
        match first_owing(self.links.as_slice(), publishes, &self.sending) {
            Some(l) => Some(flow_due(&self.sending, *l)),
            None => None,
        }
    }

    /// The flow that is due was sent. Nothing changes where none is.
    pub fn flow_sent(&mut self, publishes: &Publishes)
        ensures { self.new ≡ told_on (flow_of publishes.now.list self.old) self.old }
    {
        let Some(l) = first_owing(self.links.as_slice(), publishes, &self.sending) else {
            return;
        };
        let l = *l;
        drain_if(&mut self.sending, l.link, l.echoes == 0);
        put_link(&mut self.links, told_once(l));
    }

    /// The frame of a transfer that is due.
    pub fn next_frame(&self, publishes: &Publishes, window: u32) -> Option<NextFrame>
        ensures { result ≡ (if window == 0 then None
            else next_frame_of self.now.sending publishes.now.list) }
    {
        publishes.next_frame(&self.sending, window)
    }

    /// This frame was sent, with so many bytes of its publish's payload.
    pub fn commit_frame(&mut self, publishes: &mut Publishes, frame: NextFrame, bytes: u32)
        requires frame { next_frame_of self.old.sending publishes.old.list ≡ Some frame }
        requires bytes { bytes ≤ length (rest_of frame.publish publishes.old.list) }
        ensures publishes { publishes.new ≡ after_event
            (frame_sent frame bytes publishes.old.list) publishes.old }
        ensures links { self.new
            ≡ record self.old { sending = links_after frame self.old.sending } }
    {
        publishes.commit_frame(&mut self.sending, frame, bytes);
    }
}

fn flow_due(sending: &SendLinks, l: PathLink) -> FlowDue
    ensures { result ≡ flow_due sending.now l }
{
    let (count, credit) = if is_link_left(&l) {
        (l.count, l.credit)
    } else {
        (count_of(sending, l.link), credit_of(sending, l.link))
    };
    FlowDue {
        link: l.link,
        handle: handle(l.stage),
        count,
        credit,
        drains: l.echoes == 0,
        draining: l.draining,
    }
}

fn is_owing(l: &PathLink, publishes: &Publishes, sending: &SendLinks) -> bool
    ensures { result ≡ owes_flow publishes.now.list sending.now l.now }
{
    if is_link_given(l) {
        return false;
    }
    l.echoes > 0 || l.drains > 0 && (!publishes.waits(l.link) || credit_of(sending, l.link) == 0)
}

fn first_owing<'a>(
    links: &'a [PathLink],
    publishes: &Publishes,
    sending: &SendLinks,
) -> Option<&'a PathLink>
    ensures { option_copied result ≡ find (owes_flow publishes.now.list sending.now) links.now }
{
    links.iter().find(|l| is_owing(l, publishes, sending))
}

/// Of two links the one with the lower number.
fn lower_of(l: Option<PathLink>, k: Option<PathLink>) -> Option<PathLink>
    ensures { result ≡ lower_of l k }
{
    match (l, k) {
        (None, k) => k,
        (Some(l), None) => Some(l),
        (Some(l), Some(k)) => Some(if k.link < l.link { k } else { l }),
    }
}

/// It is the basic.get-empty of a get of this link.
fn is_empty_of(ok: &PathOk, link: u32) -> bool
    ensures { result ≡ is_empty_of link ok.now }
{
    match ok {
        PathOk::Empty(own) => *own == link,
        _ => false,
    }
}

/// A basic.get-empty of it is still to go.
fn owes_empty(oks: &VecDeque<PathOk>, link: u32) -> bool
    ensures { result ≡ list_any (is_empty_of link) oks.now.items }
{
    oks.iter().any(|ok| is_empty_of(ok, link))
}

/// No get waits on it or is still to be answered, and each delivery had its disposition. A life
/// that is closed answers none.
fn is_resting(deliveries: &Deliveries, oks: &VecDeque<PathOk>, link: u32) -> bool
    ensures { result ≡ is_resting deliveries.now oks.now.items link }
{
    let is_owed = !deliveries.is_closed() && owes_empty(oks, link);
    deliveries.is_at_rest(link) && !(deliveries.holds(link) || is_owed)
}

/// No publish waits on it, is begun, or lacks an outcome, and no get is under way.
fn is_idle(
    l: &PathLink,
    publishes: &Publishes,
    deliveries: &Deliveries,
    oks: &VecDeque<PathOk>,
) -> bool
    ensures { result ≡ is_idle publishes.now.list deliveries.now oks.now.items l.now }
{
    if !is_link_open(l) {
        return false;
    }
    if l.receives {
        is_resting(deliveries, oks, l.link)
    } else {
        publishes.unanswered(Some(l.link)) == 0
    }
}

/// The link with the lower handle, of the lowest so far and of one that counts.
fn lower_if(lowest: Option<PathLink>, l: PathLink, counts: bool) -> Option<PathLink>
    ensures { result ≡ lower_if counts lowest l }
{
    if counts && is_link_lower(&l, lowest) {
        Some(l)
    } else {
        lowest
    }
}

/// The link with the lowest handle among those on which nothing is under way.
#[tactic(auto, using(crate::proofs::Idle::lowest_none, crate::proofs::Idle::lowest_more))]
fn lowest_idle(
    links: &[PathLink],
    publishes: &Publishes,
    deliveries: &Deliveries,
    oks: &VecDeque<PathOk>,
) -> Option<PathLink>
    ensures { result
        ≡ lowest (filter (is_idle publishes.now.list deliveries.now oks.now.items) links.now) }
{
    let mut lowest = None;
    for l in links {
        lowest = lower_if(lowest, *l, is_idle(l, publishes, deliveries, oks));
    }
    lowest
}

#[tactic(auto, using(crate::proofs::Credit::attach_none))]
fn attach_if(sending: &mut SendLinks, link: u32, there: bool)
    ensures { sending.new ≡ attached_if there link sending.old }
{
    if there && sending.get(link).is_some() {
        sending.attached(link);
    }
}

#[tactic(auto, using(crate::proofs::Credit::flow_none))]
fn flow_one(sending: &mut SendLinks, link: u32, flow: LinkFlow)
    ensures { sending.new ≡ map (flowed link flow.count flow.credit) sending.old }
{
    if sending.get(link).is_some() {
        sending.flow(link, flow.count, flow.credit);
    }
}

#[tactic(auto, using(crate::proofs::Credit::remove_none))]
fn remove_one(sending: &mut SendLinks, link: u32)
    ensures { sending.new ≡ without link sending.old }
{
    if sending.get(link).is_some() {
        sending.remove(link);
    }
}

/// Leaves out the credit of the links that are wanted.
#[tactic(auto, using(crate::proofs::Unwanted::left_one, crate::proofs::Unwanted::left_other))]
fn drop_wanted_senders(sending: &mut SendLinks, links: &[PathLink])
    ensures { sending.new ≡ filter (λ x. not (is_wanted_at links.now x)) sending.old }
{
    for l in links {
        if is_link_wanted(l) {
            remove_one(sending, l.link);
        }
    }
}

#[tactic(auto, using(crate::proofs::Credit::drain_none))]
fn drain_if(sending: &mut SendLinks, link: u32, drain: bool)
    ensures { sending.new ≡ drained_if drain link sending.old }
{
    if drain && sending.get(link).is_some() {
        sending.drain(link);
    }
}

/// A link is wanted: its number.
fn insert_wanted(links: &mut Vec<PathLink>, receives: bool) -> Result<u32, Memory>
    ensures number { IfOk result (λ n. n ≡ free_number links.old.items) }
    ensures within { OnOk result (free_number links.old.items ≤ length links.old.items) }
    ensures links { OnOk result (links.new.items
        ≡ with_wanted (free_number links.old.items) receives links.old.items) }
    ensures links_kept { OnErr result (links.new.items ≡ links.old.items) }
{
    let n = lowest_free(links.as_slice());
    if n >= MOST_LINKS {
        return Err(Memory);
    }
    let link = n as u32;
    links.insert(n, wanted(link, receives))?;
    Ok(link)
}

/// A link to an address that has none is wanted.
#[tactic(auto, using(crate::proofs::Wanted::remove_insert))]
fn add_link(
    links: &mut Vec<PathLink>,
    sending: &mut SendLinks,
    address: ByteText,
) -> Result<u32, Memory>
    requires number { link_of sending.old (free_number links.old.items) ≡ None }
    requires address { link_to sending.old address ≡ None }
    ensures number { IfOk result (λ n. n ≡ free_number links.old.items) }
    ensures within { OnOk result (free_number links.old.items ≤ length links.old.items) }
    ensures links { OnOk result (links.new.items
        ≡ with_wanted (free_number links.old.items) false links.old.items) }
    ensures sending { OnOk result (sending.new
        ≡ sending.old ++ asked_link (free_number links.old.items) address ∷ []) }
    ensures links_kept { OnErr result (links.new.items ≡ links.old.items) }
    ensures sending_kept { OnErr result (sending.new ≡ sending.old) }
{
    let link = insert_wanted(links, false)?;
    if let Err(memory) = sending.add(link, address) {
        links.remove(link as usize);
        return Err(memory);
    }
    Ok(link)
}
