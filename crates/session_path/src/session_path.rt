//! A session with what it carries: each call is one event, or a question on what is due.

ghost use Rattle.std.specs.Prelude.{◌≡◌, ◌≤◌, ◌+◌, ◌<◌, ◌↔◌, [], length, filter, find, Some, None};
ghost use Rattle.std.specs.Prelude.{IsSome, IsNone, IfSome, OnOk, OnErr, IfOk, option_copied};
ghost use Rattle.std.specs.Prelude.{nat_lt};
ghost use Rattle.consume_path.specs.Offers.{is_drained};
ghost use Rattle.publish_path.specs.Offers.{next_frame_of, rest_of};
ghost use Rattle.publish_path.specs.Payloads.{joined};
ghost use Rattle.publish_path.specs.Publishes.{is_open};
ghost use Rattle.session_path.specs.Links.{handle_at, attach_fault, fault_unasked, named};
ghost use Rattle.session_path.specs.Path.{PathState, opened, began, closed, cut_off, lost, ended};
ghost use Rattle.session_path.specs.Path.{end_lost, owed};
ghost use Rattle.session_path.specs.Path.{published, selected, attach_came, flow_came, detach_came};
ghost use Rattle.session_path.specs.Path.{outcome_came, last_or, attach_sent, link_flow_sent};
ghost use Rattle.session_path.specs.Path.{transfer_sent, settle_sent, detach_sent, confirm_sent};
ghost use Rattle.session_path.specs.Path.{ok_sent, lines_told, return_sent, receiver_in};
ghost use Rattle.session_path.specs.Path.{receiver_flowed, grant_in, granting, is_grant_next};
ghost use Rattle.session_path.specs.Path.{answer_on, declares_in, is_answered, name_in, still_awaited};
ghost use Rattle.session_path.specs.Path.{without_source};
ghost use Rattle.session_path.specs.Path.{address_in, emptied_in, flow_in, is_source_of, source_of};
ghost use Rattle.session_path.specs.Due.{next_attach, next_name, next_flow, next_frame};
ghost use Rattle.session_path.specs.Due.{next_settle};
ghost use Rattle.session_path.specs.Path.{first_of};
ghost use Rattle.session_path.specs.Due.{next_detach, next_confirm, next_ok, is_done, grant_due};
ghost use Rattle.session_path.specs.Due.{next_return, return_frame};
ghost use Rattle.session_path.specs.Due.{address_at, held, held_size_of, lines};

mod consuming;

use crate::links::handle;
use crate::path::{
    AttachDue, AttachFault, AttachHeard, Awaited, FlowDue, PathLink, PathOk, Settling, Source,
    Writing,
};
use crate::path_links::{LinkFlow, PathLinks};
use consume_path::Deliveries;
use open_items::Frames;
use publish_path::{Confirm, NextFrame, NextReturn, Outcome, Payload, Pieces, Publish, Publishes};
use std::alloc::Global;
use std::collections::VecDeque;
use std::marker::Model;
use wire_base::{ByteText, Memory};

/// So many publishes are taken up in a life.
const MOST_PUBLISHES: u64 = 4_611_686_018_427_387_904;

/// One session and the channel that it carries: publishes, deliveries, and the links of both.
/// Contracts see its state.
#[derive(Drop)]
pub struct SessionPath {
    publishes: Publishes,
    deliveries: Deliveries,
    links: PathLinks,
    /// The addresses of the receiving links.
    sources: Vec<Source>,
    /// The request that waits for the container.
    awaited: Option<Awaited>,
    /// The content of a delivery of which frames are to go.
    writing: Option<Writing>,
    settles: VecDeque<Settling>,
    confirms: bool,
    oks: VecDeque<PathOk>,
    /// The names that some of them give back.
    names: VecDeque<ByteText>,
    /// The queue that was declared last; empty where none was.
    queue: ByteText,
    /// The session is lost: what it transfers is passed over.
    lost: bool,
    /// How many publishes were taken up.
    taken: u64,
}

impl Model for SessionPath {
    ghost use Rattle.std.specs.Prelude.{◌≡◌};
    ghost use Rattle.session_path.specs.Path.{PathState};

    ghost Value = { PathState };

    ghost view = { λ a. record {
      publishes = a.publishes;
      deliveries = a.deliveries;
      links = a.links;
      sources = a.sources.items;
      awaited = a.awaited;
      writing = a.writing;
      settles = a.settles.items;
      confirms = a.confirms;
      oks = a.oks.items;
      names = a.names.items;
      queue = a.queue;
      lost = a.lost;
    } };

    ghost invariant = { λ a. a.taken ≡ a.publishes.numbers };
}

fn last_of(first: u32, last: Option<u32>) -> u32
    ensures { result ≡ last_or first last }
{
    match last {
        Some(last) => last,
        None => first,
    }
}

fn first_in<T: Copy>(items: &VecDeque<T>) -> Option<T>
    ensures { result ≡ first_of items.now.items }
{
    items.front().copied()
}

/// The request that waits for this link is to be answered.
fn is_answered(awaited: Option<Awaited>, link: u32) -> bool
    ensures { result ≡ is_answered link awaited }
{
    match awaited {
        Some(awaited) => awaited.link == link && !awaited.no_wait,
        None => false,
    }
}

/// It is a queue.declare.
fn declares_in(awaited: Option<Awaited>) -> bool
    ensures { result ≡ declares_in awaited }
{
    match awaited {
        Some(awaited) => awaited.declares,
        None => false,
    }
}

/// The answer to the request that waits for this link.
fn answer_on(awaited: Option<Awaited>, link: u32) -> PathOk
    ensures { result ≡ answer_on link (declares_in awaited) }
{
    if declares_in(awaited) {
        PathOk::Queue
    } else {
        PathOk::Consume(link)
    }
}

/// What waits once this link is attached.
fn still_awaited(awaited: Option<Awaited>, link: u32) -> Option<Awaited>
    ensures { result ≡ still_awaited link awaited }
{
    match awaited {
        Some(awaited) if awaited.link != link => Some(awaited),
        _ => None,
    }
}

fn is_source_of(x: &Source, link: u32) -> bool
    ensures { result ≡ is_source_of link x.now }
{
    x.link == link
}

fn first_source(sources: &[Source], link: u32) -> Option<&Source>
    ensures { option_copied result ≡ find (is_source_of link) sources.now }
{
    sources.iter().find(|x| is_source_of(x, link))
}

/// The address of the receiving link with this number; empty where there is none.
fn address_in(sources: &[Source], link: u32) -> &[u8]
    ensures { result.now ≡ address_in link sources.now }
{
    match first_source(sources, link) {
        Some(x) => x.address.as_slice(),
        None => &[],
    }
}

fn drop_source(sources: &mut Vec<Source>, link: u32)
    ensures { sources.new.items ≡ without_source link sources.old.items }
{
    sources.retain(|x| !is_source_of(x, link));
}

/// A flow with this delivery-count and echo came for this receiving link.
fn flow_in(deliveries: &mut Deliveries, link: u32, count: Option<u32>, echo: bool)
    ensures { deliveries.new ≡ flow_in link count echo deliveries.old }
{
    if let Some(count) = count {
        deliveries.link_flow(link, count);
    }
    if echo {
        deliveries.link_echo(link);
    }
}

/// The get that waits on this link was found empty: it waits no more.
fn empty_out(deliveries: &mut Deliveries, link: u32) -> bool
    ensures empty { result ≡ is_drained link deliveries.old.links }
    ensures deliveries { deliveries.new ≡ emptied_in link deliveries.old }
{
    let empty = deliveries.drain_done(link);
    if empty {
        deliveries.emptied(link);
    }
    empty
}

impl SessionPath {
    /// The state of a life with this number, before any event. It takes the memory of the handles.
    pub fn new(alloc: Global, life: u64) -> Result<SessionPath, Memory>
        ensures { IfOk result (λ path. path ≡ opened life) }
    {
        let links = PathLinks::new(alloc)?;
        Ok(SessionPath {
            publishes: Publishes::new(alloc, life),
            deliveries: Deliveries::new(alloc, life),
            links,
            sources: Vec::new(alloc),
            awaited: None,
            writing: None,
            settles: VecDeque::new(alloc),
            confirms: false,
            oks: VecDeque::new(alloc),
            names: VecDeque::new(alloc),
            queue: ByteText::empty(alloc),
            lost: false,
            taken: 0,
        })
    }

    /// The container's begin came, with the greatest handle that it takes.
    pub fn began(&mut self, handle_max: u32)
        ensures { self.new ≡ began handle_max self.old }
    {
        self.links.limit(handle_max);
    }

    /// The closing event of the life: what no client settled goes back, no basic.consume waits any
    /// more, and a content that is begun is cut.
    pub fn closed(&mut self)
        ensures { self.new ≡ closed self.old }
    {
        self.deliveries.release_all();
        self.links.drop_receivers();
        self.awaited = None;
        self.writing = None;
    }

    /// Nothing crosses the session any more. That closes the life, where it isn't yet.
    fn cut_off(&mut self)
        ensures { self.new ≡ cut_off (closed self.old) }
    {
        self.closed();
        self.publishes.lost_all();
        self.lost = true;
    }

    /// The container ended the session, or is at fault on it. What is due on its links goes until
    /// the gateway's end.
    pub fn lost(&mut self)
        ensures { self.new ≡ lost self.old }
    {
        self.cut_off();
        self.links.drop_wanted();
    }

    /// The gateway's end of the session went, or the connection is lost: no link is left.
    pub fn ended(&mut self)
        ensures { self.new ≡ ended self.old }
    {
        self.cut_off();
        self.links.lose_all();
        self.settles.clear();
    }

    /// The upstream end is lost or was shut: no disposition goes any more.
    pub fn end_lost(&mut self)
        ensures { self.new ≡ end_lost self.old }
    {
        self.ended();
        self.deliveries.lost_all();
    }

    /// confirm.select was taken up.
    pub fn selected(&mut self)
        ensures { self.new ≡ selected self.old }
    {
        self.confirms = true;
    }

    /// An answer is due to the client. A basic.qos without `global` counts from now on.
    pub fn owed(&mut self, ok: PathOk) -> Result<(), Memory>
        ensures ok { OnOk result (self.new ≡ owed ok self.old) }
        ensures err { OnErr result (self.new ≡ self.old) }
    {
        self.oks.push_back(ok)?;
        if let PathOk::Qos {
            count,
            global: false,
        } = ok
        {
            self.deliveries.set_prefetch(count);
        }
        Ok(())
    }

    /// A whole content was taken up, for this address, with the payload of its transfer and the
    /// frames of its return; none where it isn't mandatory. `Memory` also if a count is full: of
    /// publishes, of those held, or of their bytes.
    pub fn published(
        &mut self,
        address: ByteText,
        payload: Payload,
        back: Frames,
    ) -> Result<(), Memory>
        ensures ok { OnOk result (self.new ≡ published address payload back self.old) }
        ensures err { OnErr result (self.new ≡ self.old) }
    {
        let (count, bytes) = self.publishes.held();
        let size = payload.len() as u64;
        if self.taken >= MOST_PUBLISHES || count == u32::MAX || size > u64::MAX - bytes {
            return Err(Memory);
        }
        self.links
            .publish(&mut self.publishes, address, self.confirms, payload, back)?;
        self.taken += 1;
        Ok(())
    }

    /// The name that the answer to the request that waits gives back: the queue that was declared
    /// last, or the consumer's tag; empty where none waits.
    fn awaited_name(&self) -> Result<ByteText, Memory>
        ensures { IfOk result (λ name. name
            ≡ name_in self.now.awaited self.now.queue self.now.deliveries) }
    {
        let alloc = *self.sources.allocator();
        match self.awaited {
            None => Ok(ByteText::empty(alloc)),
            Some(awaited) if awaited.declares => self.queue.copy(alloc),
            Some(awaited) => ByteText::copy_of(alloc, self.deliveries.tag_of(awaited.link)),
        }
    }

    /// The container's attach came. One at fault changes nothing. That of a receiving link with a
    /// source begins its deliveries, and an answer to the request that waits for it is due.
    pub fn attach_came(&mut self, attach: AttachHeard) -> Result<(), Memory>
        ensures ok { OnOk result (self.new ≡ attach_came attach self.old) }
        ensures err { OnErr result (self.new ≡ self.old) }
    {
        let name = self.awaited_name()?;
        self.oks.try_reserve(1)?;
        self.names.try_reserve(1)?;
        let Some(l) = self.links.attach(attach) else {
            return Ok(());
        };
        if !l.receives || !attach.there {
            return Ok(());
        }
        self.deliveries.link_attached(l.link, attach.count);
        if is_answered(self.awaited, l.link) {
            self.oks.push_back(answer_on(self.awaited, l.link))?;
            self.names.push_back(name)?;
        }
        self.awaited = still_awaited(self.awaited, l.link);
        Ok(())
    }

    /// The link that this handle of the container names: both ends attached it. A flow, a transfer
    /// or a detach under a handle that names none is a fault (AMQP 1.0 2.8.17).
    pub fn named(&self, peer: u32) -> Option<PathLink>
        ensures { result ≡ named peer self.now.links }
    {
        self.links.named(peer)
    }

    /// Why an attach under this name and handle of the container, with this role of it, can't be
    /// taken.
    pub fn attach_fault(&self, name: u64, role: bool, peer: u32) -> Option<AttachFault>
        ensures { result ≡ attach_fault name role peer self.now.links }
    {
        self.links.attach_fault(name, role, peer)
    }

    /// Why an attach with this handle of the container can't be taken, whose name is that of no
    /// link.
    pub fn fault_unasked(&self, peer: u32) -> AttachFault
        ensures { result ≡ fault_unasked peer self.now.links }
    {
        self.links.fault_unasked(peer)
    }

    /// The handle of a link, by its number; 0 where it has none.
    pub fn handle_of(&self, link: u32) -> u32
        ensures { result ≡ handle_at link self.now.links.links }
    {
        self.links.handle_of(link)
    }

    /// The receiving link that this handle of the container names.
    fn receiver(&self, peer: u32) -> Option<PathLink>
        ensures { result ≡ receiver_in (named peer self.now.links) }
    {
        let l = self.links.named(peer)?;
        if l.receives { Some(l) } else { None }
    }

    /// A flow came on this receiving link. A get that it finds empty is answered.
    fn receiver_flow(&mut self, l: PathLink, count: Option<u32>, echo: bool) -> Result<(), Memory>
        ensures ok { OnOk result (self.new ≡ receiver_flowed l count echo self.old) }
        ensures err { OnErr result (self.new ≡ self.old) }
    {
        self.oks.try_reserve(1)?;
        flow_in(&mut self.deliveries, l.link, count, echo);
        if empty_out(&mut self.deliveries, l.link) {
            self.oks.push_back(PathOk::Empty(l.link))?;
        }
        Ok(())
    }

    /// A flow came under this handle of the container. Nothing changes where it names no link.
    /// `Memory` also if a count of the link is full.
    pub fn flow_came(&mut self, peer: u32, flow: LinkFlow) -> Result<(), Memory>
        ensures ok { OnOk result (self.new
            ≡ flow_came peer flow.count flow.credit flow.drain flow.echo self.old) }
        ensures err { OnErr result (self.new ≡ self.old) }
    {
        match self.receiver(peer) {
            Some(l) => self.receiver_flow(l, flow.count, flow.echo),
            None => self.links.flow(peer, flow),
        }
    }

    /// A detach came under this handle of the container; its error says that there is no such node,
    /// or not. Nothing changes where the handle names no link.
    pub fn detach_came(&mut self, peer: u32, not_found: bool)
        ensures { self.new ≡ detach_came peer not_found self.old }
    {
        if let Some(l) = self.links.named(peer) {
            if !l.receives {
                self.publishes.lost_link(l.link, not_found);
            }
            self.links.detach(peer);
        }
    }

    /// An outcome came for these delivery-ids; `settled` says whether the container settled with
    /// it.
    pub fn outcome_came(
        &mut self,
        ids: Settling,
        outcome: Outcome,
        settled: bool,
    ) -> Result<(), Memory>
        ensures ok { OnOk result (self.new
            ≡ outcome_came ids.first ids.last outcome settled self.old) }
        ensures err { OnErr result (self.new ≡ self.old) }
    {
        self.settles.try_reserve(1)?;
        let told = self
            .publishes
            .outcome(ids.first, last_of(ids.first, ids.last), outcome);
        if !settled && told {
            self.settles.push_back(ids)?;
        }
        Ok(())
    }

    /// The attach that is due was sent, under the name with this number.
    pub fn attach_sent(&mut self, name: u64)
        ensures { self.new ≡ attach_sent name self.old }
    {
        self.links.ask(name);
    }

    /// The flow on a link that is due was sent.
    pub fn link_flow_sent(&mut self)
        ensures { self.new ≡ link_flow_sent self.old }
    {
        if !self.is_grant_next() {
            self.links.flow_sent(&self.publishes);
        } else if self.deliveries.next_grant().is_some() {
            self.deliveries.granted();
        }
    }

    /// This frame of a transfer was sent, with so many bytes of its publish's payload.
    pub fn transfer_sent(&mut self, frame: NextFrame, bytes: u32)
        requires frame { next_frame_of self.old.links.sending self.old.publishes.list ≡ Some frame }
        requires bytes { bytes ≤ length (rest_of frame.publish self.old.publishes.list) }
        ensures { self.new ≡ transfer_sent frame bytes self.old }
    {
        self.links.commit_frame(&mut self.publishes, frame, bytes);
    }

    /// The disposition that is due was sent.
    pub fn settle_sent(&mut self)
        ensures { self.new ≡ settle_sent self.old }
    {
        self.settles.pop_front();
    }

    /// The detach that is due was sent. A receiving link has no deliveries any more.
    pub fn detach_sent(&mut self)
        ensures { self.new ≡ detach_sent self.old }
    {
        let detaching = self.next_detach();
        self.links
            .part(&self.publishes, &self.deliveries, &self.oks);
        if let Some(l) = detaching
            && l.receives
        {
            self.deliveries.drop_link(l.link);
            drop_source(&mut self.sources, l.link);
        }
    }

    /// The confirm that is due was sent.
    pub fn confirm_sent(&mut self)
        requires { IsSome (next_confirm self.old) }
        ensures { IfSome (next_confirm self.old) (λ confirm. self.new
            ≡ confirm_sent confirm self.old) }
    {
        self.publishes.confirmed();
    }

    /// The frame of a return that is due was sent.
    pub fn return_sent(&mut self)
        requires { IsSome (next_return self.old) }
        ensures { IfSome (next_return self.old) (λ due. self.new
            ≡ return_sent due.publish self.old) }
    {
        self.publishes.returned();
    }

    /// The answer that is due was sent. A basic.qos with `global` counts from now on.
    pub fn ok_sent(&mut self)
        ensures { self.new ≡ ok_sent self.old }
    {
        match self.next_ok() {
            Some(
                PathOk::Qos {
                    count,
                    global: true,
                },
            ) => self.deliveries.set_global(count),
            Some(PathOk::Consume(_) | PathOk::Cancel | PathOk::Queue) => {
                self.names.pop_front();
            }
            _ => {}
        }
        self.oks.pop_front();
    }

    /// The number of the life.
    pub fn life(&self) -> u64
        ensures { result ≡ self.now.publishes.life }
    {
        self.publishes.life()
    }

    /// The publishes, of which some have a line that the report is owed; and among them such for
    /// which nothing is to come any more.
    pub fn publishes(&self) -> &[Publish]
        ensures { filter is_open result.now ≡ self.now.publishes.list }
    {
        self.publishes.items()
    }

    /// The report is owed a line.
    pub fn owes_lines(&self) -> bool
        ensures { result ≡ nat_lt 0 (length (lines self.now)) }
    {
        self.publishes.owes_lines() || self.deliveries.owes_lines()
    }

    /// The lines that the report was owed were reported.
    pub fn lines_told(&mut self)
        ensures { self.new ≡ lines_told self.old }
    {
        self.publishes.lines_told();
        self.deliveries.lines_told();
    }

    /// The attach that is due.
    pub fn next_attach(&self) -> Option<AttachDue>
        ensures { result ≡ next_attach self.now }
    {
        self.links.next_attach()
    }

    /// The address of this receiving link's source; empty where there is none.
    fn source(&self, link: u32) -> &[u8]
        ensures { result.now ≡ source_of link self.now }
    {
        address_in(self.sources.as_slice(), link)
    }

    /// The address of the source or target that this attach states (AMQP 1.0 3.5.3, 3.5.4); empty
    /// where there is no such link, or one end detached it.
    pub fn address(&self, attach: AttachDue) -> &[u8]
        ensures { result.now ≡ address_at attach self.now }
    {
        if attach.receives {
            self.source(attach.link)
        } else {
            self.links.address(attach.link)
        }
    }

    /// The receiving link whose flow is due.
    fn granting(&self) -> Option<PathLink>
        ensures { result ≡ granting self.now }
    {
        let grant = self.deliveries.next_grant()?;
        self.links.numbered(grant.link)
    }

    /// The flow that is due is of a receiving link: no sending link of a lower number owes one.
    fn is_grant_next(&self) -> bool
        ensures { result ≡ is_grant_next self.now }
    {
        let Some(l) = self.granting() else {
            return false;
        };
        match self.links.owing(&self.publishes) {
            Some(sending) => l.link < sending.link,
            None => true,
        }
    }

    fn grant_due(&self) -> Option<FlowDue>
        ensures { result ≡ grant_due (granting self.now) (grant_in self.now) self.now.deliveries }
    {
        let l = self.granting()?;
        let grant = self.deliveries.next_grant()?;
        Some(FlowDue {
            link: l.link,
            handle: handle(l.stage),
            count: self.deliveries.count_of(grant.link),
            credit: grant.credit,
            drains: false,
            draining: self.deliveries.serves_gets(grant.link),
        })
    }

    /// The flow on a link that is due.
    pub fn next_flow(&self) -> Option<FlowDue>
        ensures { result ≡ next_flow self.now }
    {
        if self.is_grant_next() {
            self.grant_due()
        } else {
            self.links.next_flow(&self.publishes)
        }
    }

    /// The frame of a transfer that is due, where the container takes so many more frames.
    pub fn next_frame(&self, window: u32) -> Option<NextFrame>
        ensures { result ≡ next_frame window self.now }
    {
        self.links.next_frame(&self.publishes, window)
    }

    /// The disposition that is due.
    pub fn next_settle(&self) -> Option<Settling>
        ensures { result ≡ next_settle self.now }
    {
        first_in(&self.settles)
    }

    /// The link whose detach is due.
    pub fn next_detach(&self) -> Option<PathLink>
        ensures { result ≡ next_detach self.now }
    {
        self.links
            .next_detach(&self.publishes, &self.deliveries, &self.oks)
    }

    /// The confirm that is due.
    pub fn next_confirm(&self) -> Option<Confirm>
        ensures { result ≡ next_confirm self.now }
    {
        self.publishes.next_confirm()
    }

    /// The frame of a return that is due.
    pub fn next_return(&self) -> Option<NextReturn>
        ensures { result ≡ next_return self.now }
    {
        self.publishes.next_return()
    }

    /// The bytes of the next frame of a publish's return; `None` if none is due of it.
    pub fn return_frame(&self, publish: u64) -> Option<&ByteText>
        ensures { option_copied result ≡ return_frame publish self.now }
    {
        self.publishes.return_frame(publish)
    }

    /// The answer that is due.
    pub fn next_ok(&self) -> Option<PathOk>
        ensures { result ≡ next_ok self.now }
    {
        first_in(&self.oks)
    }

    /// The name that the next answer gives back that gives one; empty where none is due.
    pub fn next_name(&self) -> &[u8]
        ensures { result.now ≡ next_name self.now }
    {
        match self.names.front() {
            Some(name) => name.as_slice(),
            None => &[],
        }
    }

    /// No publish waits, is begun, or lacks an outcome.
    pub fn is_done(&self) -> bool
        ensures { result ≡ is_done self.now }
    {
        self.publishes.unanswered(None) == 0
    }

    /// How many publishes are held, and the bytes of their payloads.
    pub fn held(&self) -> (u32, u64)
        ensures count { result.0 ≡ held self.now }
        ensures bytes { result.1 ≡ held_size_of self.now }
    {
        self.publishes.held()
    }

    /// The bytes of a publish's payload that are still to be sent; `None` if there are none.
    pub fn rest(&self, publish: u64) -> Option<Pieces<'_>>
        ensures none { IsNone result ↔ rest_of publish self.now.publishes.list ≡ [] }
        ensures rest { IfSome result (λ rest. joined rest
            ≡ rest_of publish self.now.publishes.list) }
    {
        self.publishes.rest(publish)
    }

    /// The delivery-id of the next transfer that begins.
    pub fn next_id(&self) -> u32
        ensures { result ≡ self.now.publishes.next_id }
    {
        self.publishes.next_id()
    }
}
