//! The consumers of the channel: requests, transfers, delivers and dispositions.

ghost use Rattle.std.specs.Prelude.{◌≡◌, ℕ, Bool, List, true, false, length, filter, is_some, Some};
ghost use Rattle.std.specs.Prelude.{Option, OnOk, OnErr, IfOk, None, option_copied, ◌<◌, ◌^◌};
ghost use Rattle.std.specs.Prelude.{find, if◌then◌else◌};
ghost use Rattle.consume_path.specs.declared.delivery.Content.{Content};
ghost use Rattle.consume_path.specs.Items.{is_open};
ghost use Rattle.consume_path.specs.Links.{is_tag_used};
ghost use Rattle.consume_path.specs.Offers.{content_of, is_known};
ghost use Rattle.session_path.specs.Links.{free_number, is_stage_whole, named};
ghost use Rattle.session_path.specs.Path.{numbered_tag, free_from, tag_for, consumed, answer_came};
ghost use Rattle.session_path.specs.Path.{asked_from, cancelled, closes_at, declare_came};
ghost use Rattle.session_path.specs.Path.{first_of, get_link, got, got_on, is_awaited_on};
ghost use Rattle.session_path.specs.Path.{is_get_link, is_needed, is_serving, queue_or};
ghost use Rattle.session_path.specs.Path.{transferred_on};
ghost use Rattle.session_path.specs.Path.{wanted_from};
ghost use Rattle.session_path.specs.Path.{receiver_in, taking, transfer_fault, is_last};
ghost use Rattle.session_path.specs.Path.{transfer_came, failed, dispose_sent, deliver_sent};
ghost use Rattle.session_path.specs.Path.{frames_of, content_sent, content_whole};
ghost use Rattle.session_path.specs.Due.{next_dispose, next_deliver, next_content, content_frame};
ghost use Rattle.session_path.specs.Due.{content_due, tag_of, queue_at, partial_on, is_waiting};
ghost use Rattle.session_path.specs.Due.{deliver_if, is_get_awaited, is_get_ok};
ghost use Rattle.session_path.specs.declared.path.PathOk.TheVariants as ok;

use super::{SessionPath, address_in, empty_out};
use crate::links::{is_link_given, is_link_parting, is_link_refused};
use crate::path::{Awaited, ContentDue, DeliverDue, PathLink, PathOk, Source, Stage, Writing};
use consume_path::{
    Content, Deliveries, Delivery, NextDeliver, NextSettle, Part, RecvKind, Settle, TransferFault,
};
use itoa::Buffer;
use std::alloc::Global;
use wire_base::{ByteText, Memory};

/// So many delivery tags are given in a life.
const MOST_TAGS: u64 = 4_611_686_018_427_387_904;

/// So many gets wait in a life, one after another.
const MOST_GETS: u64 = 4_611_686_018_427_387_904;

/// The consumer tag with this number.
fn numbered_tag(alloc: Global, number: u64) -> Result<ByteText, Memory>
    ensures { IfOk result (λ tag. tag ≡ numbered_tag number) }
{
    let mut tag = ByteText::copy_of(alloc, b"ctag-")?;
    let mut digits = Buffer::new();
    tag.append(digits.format(number).as_bytes())?;
    Ok(tag)
}

/// A consumer tag that isn't in use on the channel: that with the least number from 1.
fn free_tag(alloc: Global, deliveries: &Deliveries) -> Result<ByteText, Memory>
    ensures { IfOk result (λ tag. tag
        ≡ numbered_tag (free_from (length deliveries.now.links) 1 deliveries.now.links)) }
{
    let mut number = 1;
    for _ in 0..deliveries.links().len() {
        let tag = numbered_tag(alloc, number)?;
        if !deliveries.has_tag(tag.as_slice()) {
            return Ok(tag);
        }
        number += 1;
    }
    numbered_tag(alloc, number)
}

/// The consumer tag that was asked for, or one that is free where that is empty.
fn tag_for(alloc: Global, tag: ByteText, deliveries: &Deliveries) -> Result<ByteText, Memory>
    ensures { IfOk result (λ own. own ≡ tag_for tag deliveries.now.links) }
{
    if tag.as_slice().is_empty() {
        free_tag(alloc, deliveries)
    } else {
        Ok(tag)
    }
}

/// Both ends attached it, and none detached or is to.
fn is_stage_whole(stage: Stage) -> bool
    ensures { result ≡ is_stage_whole stage }
{
    matches!(stage, Stage::Open(_) | Stage::Refused(_))
}

/// The frame that is due of so many.
fn content_due(count: usize, content: Writing) -> Option<ContentDue>
    ensures { result ≡ content_due count content }
{
    if content.gone < count {
        Some(ContentDue {
            tag: content.tag,
            last: content.gone + 1 == count,
        })
    } else {
        None
    }
}

/// A receiving link that neither end detached or refused.
fn is_serving(l: &PathLink) -> bool
    ensures { result ≡ is_serving l.now }
{
    l.receives && !(is_link_parting(l) || is_link_refused(l))
}

/// It is the link for gets from this address, and serves.
fn is_get_link(l: &PathLink, address: &[u8], deliveries: &Deliveries, sources: &[Source]) -> bool
    ensures { result ≡ is_get_link address.now deliveries.now sources.now l.now }
{
    is_serving(l) && deliveries.takes_get(l.link) && address_in(sources, l.link) == address
}

/// The first such link.
fn first_get_link<'a>(
    links: &'a [PathLink],
    address: &[u8],
    deliveries: &Deliveries,
    sources: &[Source],
) -> Option<&'a PathLink>
    ensures { option_copied result
        ≡ find (is_get_link address.now deliveries.now sources.now) links.now }
{
    links
        .iter()
        .find(|l| is_get_link(l, address, deliveries, sources))
}

/// The answer to the get of this link: whether it has its delivery.
fn get_answer(served: bool, link: u32) -> PathOk
    ensures { result ≡ (if served then ok.Get else ok.Empty link) }
{
    if served {
        PathOk::Get
    } else {
        PathOk::Empty(link)
    }
}

/// A deliver with the tag behind so many; a get-ok only where it may go.
fn deliver_if(get: bool, may: bool, tags: u64, next: NextDeliver) -> Option<DeliverDue>
    requires { tags < 2 ^ 62 }
    ensures { result ≡ deliver_if get may tags next }
{
    if get && !may {
        return None;
    }
    Some(DeliverDue {
        next,
        tag: tags + 1,
        get,
    })
}

/// A request waits for this link.
fn is_awaited_on(awaited: Option<Awaited>, link: u32) -> bool
    ensures { result ≡ is_awaited_on link awaited }
{
    match awaited {
        Some(awaited) => awaited.link == link,
        None => false,
    }
}

impl SessionPath {
    // ---- requests of the client

    /// A receiving link is wanted, of this kind and from this address: its number.
    fn want_from(&mut self, address: ByteText, kind: RecvKind) -> Result<u32, Memory>
        ensures number { IfOk result (λ n. n ≡ free_number self.old.links.links) }
        ensures ok { OnOk result (self.new ≡ wanted_from address kind self.old) }
        ensures err { OnErr result (self.new ≡ self.old) }
    {
        self.sources.try_reserve(1)?;
        let link = self.links.want_receiver()?;
        if let Err(memory) = self.deliveries.add_link(link, kind) {
            self.links.unwant(link);
            return Err(memory);
        }
        self.sources.push(Source { link, address })?;
        Ok(link)
    }

    /// The same, for a request that waits for the container's attach.
    fn ask_from(
        &mut self,
        address: ByteText,
        kind: RecvKind,
        declares: bool,
        no_wait: bool,
    ) -> Result<(), Memory>
        ensures ok { OnOk result (self.new ≡ asked_from address kind declares no_wait self.old) }
        ensures err { OnErr result (self.new ≡ self.old) }
    {
        let link = self.want_from(address, kind)?;
        self.awaited = Some(Awaited {
            link,
            declares,
            no_wait,
        });
        Ok(())
    }

    /// The queue of this name; an empty one stands for the queue that was declared last.
    fn queue_or(&self, queue: ByteText) -> Result<ByteText, Memory>
        ensures { IfOk result (λ own. own ≡ queue_or self.now.queue queue) }
    {
        if queue.as_slice().is_empty() {
            self.queue.copy(*self.sources.allocator())
        } else {
            Ok(queue)
        }
    }

    /// basic.consume of this queue was taken up; it waits for the container's attach. An empty tag
    /// stands for one that isn't in use, and an empty name for the queue that was declared last.
    pub fn consume(
        &mut self,
        queue: ByteText,
        tag: ByteText,
        no_ack: bool,
        no_wait: bool,
    ) -> Result<(), Memory>
        ensures ok { OnOk result (self.new ≡ consumed queue tag no_ack no_wait self.old) }
        ensures err { OnErr result (self.new ≡ self.old) }
    {
        let address = self.queue_or(queue)?;
        let tag = tag_for(*self.sources.allocator(), tag, &self.deliveries)?;
        self.ask_from(address, RecvKind::Consumer { tag, no_ack }, false, no_wait)
    }

    /// queue.declare of this queue was taken up; it waits for the container's attach.
    pub fn declare(&mut self, queue: ByteText, no_wait: bool) -> Result<(), Memory>
        ensures ok { OnOk result (self.new ≡ declare_came queue no_wait self.old) }
        ensures err { OnErr result (self.new ≡ self.old) }
    {
        let address = queue.copy(*self.sources.allocator())?;
        self.ask_from(address, RecvKind::Probe, true, no_wait)?;
        self.queue = queue;
        Ok(())
    }

    /// The link on which a get from this address can wait.
    fn get_link(&self, address: &[u8]) -> Option<PathLink>
        ensures { result ≡ get_link address.now self.now }
    {
        let sources = self.sources.as_slice();
        first_get_link(self.links.all(), address, &self.deliveries, sources).copied()
    }

    /// A get waits on a link from this address that is wanted from now on.
    fn get_on_new(&mut self, address: ByteText, no_ack: bool) -> Result<(), Memory>
        requires { self.old.deliveries.gets < 2 ^ 62 }
        ensures ok { OnOk result (self.new ≡ got_on None address no_ack self.old) }
        ensures err { OnErr result (self.new ≡ self.old) }
    {
        let link = self.want_from(address, RecvKind::Get)?;
        self.deliveries.get(link, no_ack);
        Ok(())
    }

    /// basic.get of this queue was taken up; it waits for a delivery, or for a flow that finds
    /// none. An empty name stands for the queue that was declared last. `Memory` also once so many
    /// gets came that their numbers are used up.
    pub fn get(&mut self, queue: ByteText, no_ack: bool) -> Result<(), Memory>
        ensures ok { OnOk result (self.new ≡ got queue no_ack self.old) }
        ensures err { OnErr result (self.new ≡ self.old) }
    {
        if self.deliveries.gets() >= MOST_GETS {
            return Err(Memory);
        }
        let address = self.queue_or(queue)?;
        match self.get_link(address.as_slice()) {
            Some(l) => {
                self.deliveries.get(l.link, no_ack);
                Ok(())
            }
            None => self.get_on_new(address, no_ack),
        }
    }

    /// The queue that was declared last, for which an empty name stands; empty where none was.
    pub fn last_queue(&self) -> &[u8]
        ensures { result.now ≡ self.now.queue }
    {
        self.queue.as_slice()
    }

    /// A consumer of the channel has this tag (AMQP 0-9-1 1.8.3.3).
    pub fn has_tag(&self, tag: &[u8]) -> bool
        ensures { result ≡ is_tag_used tag.now self.now.deliveries.links }
    {
        self.deliveries.has_tag(tag)
    }

    /// basic.cancel of the consumer with this tag was taken up: no more comes to it, where there is
    /// such a consumer. Its answer gives the tag back.
    pub fn cancel(&mut self, tag: ByteText, no_wait: bool) -> Result<(), Memory>
        ensures ok { OnOk result (self.new ≡ cancelled tag no_wait self.old) }
        ensures err { OnErr result (self.new ≡ self.old) }
    {
        self.oks.try_reserve(1)?;
        self.names.try_reserve(1)?;
        if let Some(link) = self.deliveries.consumer(tag.as_slice()) {
            self.deliveries.cancel(link);
        }
        if !no_wait {
            self.oks.push_back(PathOk::Cancel)?;
            self.names.push_back(tag)?;
        }
        Ok(())
    }

    /// A consumer or a get has this link, or deliveries of it aren't settled.
    fn needs(&self, link: u32) -> bool
        ensures { result ≡ is_needed self.now.deliveries link }
    {
        !(self.deliveries.is_over(link) || self.deliveries.is_at_rest(link))
    }

    /// A detach under this handle of the container closes the channel: a consumer has the link, a
    /// request waits for it, or deliveries of it aren't settled.
    pub fn closes_at(&self, peer: u32) -> bool
        ensures { result ≡ closes_at peer self.now }
    {
        match self.receiver(peer) {
            Some(l) => {
                !is_link_given(&l) && (is_awaited_on(self.awaited, l.link) || self.needs(l.link))
            }
            None => false,
        }
    }

    /// A get waits, and the life isn't closed.
    fn awaits_get(&self) -> bool
        ensures { result ≡ is_get_awaited self.now.deliveries }
    {
        !self.deliveries.is_closed() && self.deliveries.awaits_any()
    }

    /// A request waits for the container.
    pub fn waits(&self) -> bool
        ensures { result ≡ is_waiting self.now }
    {
        self.awaited.is_some() || self.awaits_get()
    }

    /// A basic.ack, nack or reject may name this tag: it is outstanding, or all are meant.
    pub fn knows(&self, tag: u64, multiple: bool) -> bool
        ensures { result ≡ is_known tag multiple self.now.deliveries.list }
    {
        self.deliveries.knows(tag, multiple)
    }

    /// A basic.ack, nack, reject or recover was taken up. `knows` says before whether it may name
    /// the tag.
    pub fn answer_came(&mut self, tag: u64, multiple: bool, settle: Settle)
        ensures { self.new ≡ answer_came tag multiple settle self.old }
    {
        self.deliveries.answered(tag, multiple, settle);
    }

    // ---- transfers of the container

    /// This handle of the container names a receiving link.
    pub fn is_receiver(&self, peer: u32) -> bool
        ensures { result ≡ is_some (receiver_in (named peer self.now.links)) }
    {
        self.receiver(peer).is_some()
    }

    /// The link on which a transfer under this handle counts.
    fn taking(&self, peer: u32) -> Option<PathLink>
        ensures { result ≡ taking peer self.now }
    {
        if self.lost {
            return None;
        }
        let l = self.links.named(peer)?;
        if l.receives && is_stage_whole(l.stage) {
            Some(l)
        } else {
            None
        }
    }

    /// What is wrong with a transfer under this handle of the container, with so many bytes of
    /// payload.
    pub fn transfer_fault(&self, peer: u32, part: Part, size: usize) -> Option<TransferFault>
        ensures { result ≡ transfer_fault peer part size self.now }
    {
        match self.taking(peer) {
            Some(l) => self.deliveries.fault(l.link, part, size),
            None => None,
        }
    }

    /// A transfer came that doesn't end its delivery, on this link.
    fn join_on(&mut self, l: PathLink, part: Part, payload: &[u8]) -> Result<(), Memory>
        requires { is_last part ≡ false }
        ensures ok { (image : Option Content) (again : Bool) → OnOk result
            (self.new ≡ transferred_on (Some l) part payload.now image again self.old) }
        ensures err { OnErr result (self.new ≡ self.old) }
    {
        self.oks.try_reserve(1)?;
        self.deliveries.join(l.link, part, payload)?;
        if empty_out(&mut self.deliveries, l.link) {
            self.oks.push_back(PathOk::Empty(l.link))?;
        }
        Ok(())
    }

    /// A transfer came that doesn't end its delivery, with this part of the payload. A get whose
    /// delivery is aborted is answered. `transfer_fault` says before whether it is at fault.
    pub fn transfer(&mut self, peer: u32, part: Part, payload: &[u8]) -> Result<(), Memory>
        requires { is_last part ≡ false }
        ensures ok { (image : Option Content) (again : Bool) → OnOk result
            (self.new ≡ transfer_came peer part payload.now image again self.old) }
        ensures err { OnErr result (self.new ≡ self.old) }
    {
        match self.taking(peer) {
            Some(l) => self.join_on(l, part, payload),
            None => Ok(()),
        }
    }

    /// A transfer came that ends its delivery, on this link.
    fn arrive_on(
        &mut self,
        l: PathLink,
        part: Part,
        image: Option<Content>,
        again: bool,
    ) -> Result<(), Memory>
        requires { is_last part ≡ true }
        ensures ok { (payload : List ℕ) → OnOk result
            (self.new ≡ transferred_on (Some l) part payload image again self.old) }
        ensures err { OnErr result (self.new ≡ self.old) }
    {
        self.oks.try_reserve(1)?;
        let served = image.is_some() && self.deliveries.awaits_get(l.link);
        self.deliveries.last_transfer(l.link, part, image, again)?;
        let empty = empty_out(&mut self.deliveries, l.link);
        if served || empty {
            self.oks.push_back(get_answer(served, l.link))?;
        }
        Ok(())
    }

    /// A transfer came that ends its delivery, with what goes to the client of that. It has none
    /// where it has no image. `again` says whether it was delivered before. It answers the get that
    /// waits on its link.
    pub fn arrive(
        &mut self,
        peer: u32,
        part: Part,
        image: Option<Content>,
        again: bool,
    ) -> Result<(), Memory>
        requires { is_last part ≡ true }
        ensures ok { (payload : List ℕ) → OnOk result
            (self.new ≡ transfer_came peer part payload image again self.old) }
        ensures err { OnErr result (self.new ≡ self.old) }
    {
        match self.taking(peer) {
            Some(l) => self.arrive_on(l, part, image, again),
            None => Ok(()),
        }
    }

    /// The payload, up to now, of the delivery that goes on under this handle of the container.
    pub fn partial(&self, peer: u32) -> &[u8]
        ensures { result.now ≡ partial_on (taking peer self.now) self.now.deliveries }
    {
        match self.taking(peer) {
            Some(l) => self.deliveries.payload(l.link),
            None => &[],
        }
    }

    /// The queue that it comes from.
    pub fn queue(&self, peer: u32) -> &[u8]
        ensures { result.now ≡ queue_at peer self.now }
    {
        match self.taking(peer) {
            Some(l) => self.source(l.link),
            None => &[],
        }
    }

    /// A transfer under this handle of the container passed a limit of its link.
    pub fn failed(&mut self, peer: u32, fault: TransferFault)
        ensures { self.new ≡ failed peer fault self.old }
    {
        self.links.fail(peer, fault);
    }

    // ---- dispositions of role receiver

    /// The disposition of role receiver that is due (AMQP 1.0 2.7.6).
    pub fn next_dispose(&self) -> Option<NextSettle>
        ensures { result ≡ next_dispose self.now }
    {
        self.deliveries.next_settle()
    }

    /// It was sent. Nothing changes where none is due.
    pub fn dispose_sent(&mut self)
        ensures { self.new ≡ dispose_sent self.old }
    {
        if self.deliveries.next_settle().is_some() {
            self.deliveries.settled();
        }
    }

    // ---- delivers

    /// The next answer is a get-ok.
    fn is_get_next(&self) -> bool
        ensures { result ≡ is_get_ok (first_of self.now.oks) }
    {
        matches!(self.next_ok(), Some(PathOk::Get))
    }

    /// The deliver or get-ok that is due.
    pub fn next_deliver(&self) -> Option<DeliverDue>
        ensures { result ≡ next_deliver self.now }
    {
        let tags = self.deliveries.tags();
        if tags >= MOST_TAGS {
            return None;
        }
        let next = self.deliveries.next_deliver()?;
        deliver_if(
            self.deliveries.serves_gets(next.link),
            self.is_get_next(),
            tags,
            next,
        )
    }

    /// This deliver or get-ok was sent. Its content goes behind it.
    pub fn deliver_sent(&mut self, due: DeliverDue)
        requires { next_deliver self.old ≡ Some due }
        ensures { self.new ≡ deliver_sent due self.old }
    {
        self.deliveries.commit_deliver(due.next);
        if due.get {
            self.oks.pop_front();
        }
        self.writing = Some(Writing {
            id: due.next.id,
            tag: due.tag,
            gone: 0,
        });
    }

    /// How many frames the content of this delivery has.
    fn frame_count(&self, id: u32) -> usize
        ensures { result ≡ length (frames_of id self.now) }
    {
        match self.deliveries.message(id) {
            Some(content) => content.frames.len(),
            None => 0,
        }
    }

    /// The frame of a content that is due.
    pub fn next_content(&self) -> Option<ContentDue>
        ensures { result ≡ next_content self.now }
    {
        let content = self.writing?;
        content_due(self.frame_count(content.id), content)
    }

    /// Its bytes.
    pub fn content_frame(&self) -> Option<&ByteText>
        ensures { option_copied result ≡ content_frame self.now }
    {
        let content = self.writing?;
        match self.deliveries.message(content.id) {
            Some(whole) => whole.frames.get(content.gone),
            None => None,
        }
    }

    /// It was sent. Nothing changes where none is due.
    pub fn content_sent(&mut self)
        ensures { self.new ≡ content_sent self.old }
    {
        let Some(content) = self.writing else {
            return;
        };
        let count = self.frame_count(content.id);
        self.writing = if content.gone < count && content.gone + 1 < count {
            Some(Writing {
                gone: content.gone + 1,
                ..content
            })
        } else {
            None
        };
    }

    /// The last byte of the content with this delivery tag was taken.
    pub fn content_whole(&mut self, tag: u64)
        ensures { self.new ≡ content_whole tag self.old }
    {
        self.deliveries.written(tag);
    }

    /// The tag of the consumer of this link; empty where there is none.
    pub fn consumer_tag(&self, link: u32) -> &[u8]
        ensures { result.now ≡ tag_of link self.now }
    {
        self.deliveries.tag_of(link)
    }

    /// What goes to the client of the delivery with this delivery-id.
    pub fn content(&self, id: u32) -> Option<&Content>
        ensures { option_copied result ≡ content_of id self.now.deliveries.list }
    {
        self.deliveries.message(id)
    }

    /// The number of the life, as its deliveries have it.
    pub fn delivery_life(&self) -> u64
        ensures { result ≡ self.now.deliveries.life }
    {
        self.deliveries.life()
    }

    /// The deliveries, of which some have a line that the report is owed; and among them such for
    /// which nothing is to come any more.
    pub fn deliveries(&self) -> &[Delivery]
        ensures { filter is_open result.now ≡ self.now.deliveries.list }
    {
        self.deliveries.items()
    }
}
