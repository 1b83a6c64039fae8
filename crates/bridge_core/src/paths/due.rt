//! What the path of a channel says is due, and what is asked of it.

ghost use Rattle.std.specs.Prelude.{◌≡◌, Some, None};
ghost use Rattle.std.specs.Prelude.{is_some, option_copied, true};
ghost use Rattle.std.specs.Prelude.{◌||◌};
ghost use Rattle.std.specs.Option.{option_map};
ghost use Rattle.session_path.specs.Due.{is_done, next_attach, next_confirm, next_detach};
ghost use Rattle.session_path.specs.Due.{next_flow};
ghost use Rattle.session_path.specs.Due.{is_waiting, next_content, next_deliver, next_dispose};
ghost use Rattle.session_path.specs.Due.{next_frame, next_ok, next_return, next_settle, queue_at};
ghost use Rattle.session_path.specs.Path.{transfer_fault};
ghost use Rattle.session_path.specs.Links.{error_of};
ghost use Rattle.std.specs.Prelude.{Option, IfOk, false, length, nat_le};
ghost use Rattle.consume_path.specs.Links.{is_tag_used};
ghost use Rattle.methods_091.specs.Writing.{CanPut};
ghost use Rattle.consume_path.specs.declared.delivery.Content.{Content};
ghost use Rattle.gate_model.specs.Due.{deliver_as, deliver_method, detach_out, or_no_bytes};
ghost use Rattle.gate_model.specs.Paths.{error_for, has_left};
ghost use Rattle.gate_model.specs.Paths.{is_attached, is_receiver};
ghost use Rattle.gate_model.specs.Requests.{answer_fault, cancel_fault, consume_fault};
ghost use Rattle.gate_model.specs.Requests.{declare_fault};
ghost use Rattle.gate_model.specs.Requests.{get_fault, is_queue_name};
ghost use Rattle.bridge_core.specs.PathChanges.{is_deliver, partial_in};
ghost use Rattle.session_path.specs.Links.{attach_fault, fault_unasked, handle_of, named};
ghost use Rattle.session_path.specs.Path.{closes_at};
ghost use Rattle.session_path.specs.Path.{queue_or};
ghost use Rattle.session_path.specs.declared.path.AttachFault.TheVariants.{NotAsked};
ghost use Rattle.gate_model.specs.Due.{carries_of, carries_told};
ghost use Rattle.gate_model.specs.Paths.{path_at};
ghost use Rattle.gate_model.specs.Paths.{transfer_of};
ghost use Rattle.publish_path.specs.Payloads.{joined};

use super::Paths;
use crate::link_frames::is_utf8;
use crate::transfers::transfer_of;
use close_translate::{NOT_ALLOWED, NOT_FOUND, PRECONDITION_FAILED};
use consume_path::{Content, NextSettle, Part, TransferFault};
use gate_model::{ChannelUnit, SessionUnit, TransferOut};
use methods_091::Method91;
use performatives_10::Condition;
use publish_path::{Confirm, NextReturn, Pieces};
use session_path::{
    AttachDue, AttachFault, ContentDue, DeliverDue, FlowDue, PathOk, Settling, Stage,
};
use std::alloc::Global;
use wire_base::{ByteText, Memory};

/// The bytes of a short string, at most.
const SHORT_MAX: usize = 255;

/// Why a queue.declare is refused: its name is longer than a short string, as none is, or is no
/// queue's.
pub fn declare_fault(queue: &[u8]) -> Option<u16>
    ensures { result ≡ declare_fault queue.now }
{
    if queue.len() > SHORT_MAX {
        Some(NOT_ALLOWED)
    } else if is_queue_name(queue) {
        None
    } else {
        Some(NOT_FOUND)
    }
}

/// Why a basic.cancel is refused: its tag is longer than a short string, as none is.
pub fn cancel_fault(tag: &[u8]) -> Option<u16>
    ensures { result ≡ cancel_fault tag.now }
{
    if tag.len() > SHORT_MAX {
        Some(NOT_ALLOWED)
    } else {
        None
    }
}

impl Paths {
    /// The answer that is due.
    pub fn next_ok(&self, channel: u16) -> Option<PathOk>
        ensures { result ≡ next_ok (path_at self.now channel) }
    {
        self.at(channel)?.next_ok()
    }

    /// The frame of a return that is due.
    pub fn next_return(&self, channel: u16) -> Option<NextReturn>
        ensures { result ≡ next_return (path_at self.now channel) }
    {
        self.at(channel)?.next_return()
    }

    /// What a unit to the client on a channel carries, but for a deliver: a name that it gives
    /// back, or a frame.
    pub fn carried_back(&self, channel: u16, unit: ChannelUnit) -> &[u8]
        requires { is_deliver unit ≡ false }
        ensures { result.now ≡ carries_told (path_at self.now channel) unit }
    {
        let Some(path) = self.at(channel) else {
            return &[];
        };
        match unit {
            ChannelUnit::Ok(PathOk::Consume(_) | PathOk::Cancel | PathOk::Queue) => {
                path.next_name()
            }
            ChannelUnit::Content(_) => bytes_of(path.content_frame()),
            ChannelUnit::Return(due) => bytes_of(path.return_frame(due.publish)),
            _ => &[],
        }
    }

    /// The method of a deliver or get-ok on a channel. `Memory` also if a name in it is longer than
    /// a short string, as none is.
    pub fn deliver(&self, alloc: Global, channel: u16, due: DeliverDue) -> Result<Method91, Memory>
        ensures method { IfOk result (λ m. m ≡ deliver_method (path_at self.now channel) due) }
        ensures short { IfOk result CanPut }
    {
        match self.at(channel) {
            None => deliver_with(alloc, due, &[], None),
            Some(path) => deliver_with(
                alloc,
                due,
                path.consumer_tag(due.next.link),
                path.content(due.next.id),
            ),
        }
    }

    /// The deliver that is due.
    pub fn next_deliver(&self, channel: u16) -> Option<DeliverDue>
        ensures { result ≡ next_deliver (path_at self.now channel) }
    {
        self.at(channel)?.next_deliver()
    }

    /// The frame of a content that is due.
    pub fn next_content(&self, channel: u16) -> Option<ContentDue>
        ensures { result ≡ next_content (path_at self.now channel) }
    {
        self.at(channel)?.next_content()
    }

    /// A basic.consume, a queue.declare or a basic.get waits for the container.
    pub fn waits(&self, channel: u16) -> bool
        ensures { result ≡ is_waiting (path_at self.now channel) }
    {
        match self.at(channel) {
            None => false,
            Some(path) => path.waits(),
        }
    }

    /// A consumer of a channel has this tag.
    fn has_tag(&self, channel: u16, tag: &[u8]) -> bool
        ensures { result ≡ is_tag_used tag.now (path_at self.now channel).deliveries.links }
    {
        match self.at(channel) {
            None => false,
            Some(path) => path.has_tag(tag),
        }
    }

    /// The queue of this name; an empty one stands for the queue that was declared last.
    fn queue_or<'a>(&'a self, channel: u16, queue: &'a [u8]) -> &'a [u8]
        ensures { result.now ≡ queue_or (path_at self.now channel).queue queue.now }
    {
        if !queue.is_empty() {
            return queue;
        }
        match self.at(channel) {
            None => &[],
            Some(path) => path.last_queue(),
        }
    }

    /// Why a basic.consume is refused on a channel.
    pub fn consume_fault(&self, channel: u16, queue: &[u8], tag: &[u8]) -> Option<u16>
        ensures { result ≡ consume_fault queue.now tag.now (path_at self.now channel) }
    {
        if tag.len() > SHORT_MAX || self.has_tag(channel, tag) {
            Some(NOT_ALLOWED)
        } else if is_queue_name(self.queue_or(channel, queue)) {
            None
        } else {
            Some(NOT_FOUND)
        }
    }

    /// Why a basic.get is.
    pub fn get_fault(&self, channel: u16, queue: &[u8]) -> Option<u16>
        ensures { result ≡ get_fault queue.now (path_at self.now channel) }
    {
        if is_queue_name(self.queue_or(channel, queue)) {
            None
        } else {
            Some(NOT_FOUND)
        }
    }

    /// Whether a detach of the container under this handle closes its channel.
    pub fn closes_at(&self, channel: u16, peer: u32) -> bool
        ensures { result ≡ closes_at peer (path_at self.now channel) }
    {
        match self.at(channel) {
            None => false,
            Some(path) => path.closes_at(peer),
        }
    }

    /// Why an answer to deliveries is.
    pub fn answer_fault(&self, channel: u16, tag: u64, multiple: bool) -> Option<u16>
        ensures { result ≡ answer_fault tag multiple (path_at self.now channel) }
    {
        let is_known = match self.at(channel) {
            None => multiple && tag == 0,
            Some(path) => path.knows(tag, multiple),
        };
        if is_known {
            None
        } else {
            Some(PRECONDITION_FAILED)
        }
    }

    /// The confirm that is due.
    pub fn next_confirm(&self, channel: u16) -> Option<Confirm>
        ensures { result ≡ next_confirm (path_at self.now channel) }
    {
        self.at(channel)?.next_confirm()
    }

    /// The attach that is due.
    pub fn next_attach(&self, channel: u16) -> Option<AttachDue>
        ensures { result ≡ next_attach (path_at self.now channel) }
    {
        self.at(channel)?.next_attach()
    }

    /// The flow of a link that is due.
    pub fn next_flow(&self, channel: u16) -> Option<FlowDue>
        ensures { result ≡ next_flow (path_at self.now channel) }
    {
        self.at(channel)?.next_flow()
    }

    /// The disposition that is due.
    pub fn next_settle(&self, channel: u16) -> Option<Settling>
        ensures { result ≡ next_settle (path_at self.now channel) }
    {
        self.at(channel)?.next_settle()
    }

    /// The disposition of deliveries that is due.
    pub fn next_dispose(&self, channel: u16) -> Option<NextSettle>
        ensures { result ≡ next_dispose (path_at self.now channel) }
    {
        self.at(channel)?.next_dispose()
    }

    /// The detach that is due.
    pub fn next_detach(&self, channel: u16) -> Option<SessionUnit>
        ensures { result ≡ option_map detach_out (next_detach (path_at self.now channel)) }
    {
        let link = self.at(channel)?.next_detach()?;
        Some(SessionUnit::Detach(link.link, handle_of(link.stage), error_of(link.stage)))
    }

    /// The frame of a transfer that is due, where the container takes so many more frames, of so
    /// many bytes at most.
    pub fn next_transfer(&self, channel: u16, window: u32, most: u32) -> Option<TransferOut>
        ensures { result ≡ option_map (transfer_of most (path_at self.now channel))
            (next_frame window (path_at self.now channel)) }
    {
        let path = self.at(channel)?;
        let frame = path.next_frame(window)?;
        Some(transfer_of(path, frame, most))
    }

    /// Why an attach of the container can't be taken.
    pub fn attach_fault(
        &self,
        channel: u16,
        name: u64,
        role: bool,
        peer: u32,
    ) -> Option<AttachFault>
        ensures { result ≡ attach_fault name role peer (path_at self.now channel).links }
    {
        match self.at(channel) {
            None => Some(AttachFault::NotAsked),
            Some(path) => path.attach_fault(name, role, peer),
        }
    }

    /// Why an attach of the container whose name is that of no link can't be taken.
    pub fn fault_unasked(&self, channel: u16, peer: u32) -> AttachFault
        ensures { result ≡ fault_unasked peer (path_at self.now channel).links }
    {
        match self.at(channel) {
            None => AttachFault::NotAsked,
            Some(path) => path.fault_unasked(peer),
        }
    }

    /// Whether this handle of the container names a receiving link.
    pub fn is_receiver(&self, channel: u16, peer: u32) -> bool
        ensures { result ≡ is_receiver peer (path_at self.now channel) }
    {
        match self.at(channel) {
            None => false,
            Some(path) => path.is_receiver(peer),
        }
    }

    /// What is wrong with a transfer of so many bytes under this handle.
    pub fn transfer_fault(
        &self,
        channel: u16,
        peer: u32,
        part: Part,
        size: usize,
    ) -> Option<TransferFault>
        ensures { result ≡ transfer_fault peer part size (path_at self.now channel) }
    {
        self.at(channel)?.transfer_fault(peer, part, size)
    }

    /// The queue of the delivery that ends with a transfer under this handle.
    pub fn queue(&self, channel: u16, peer: u32) -> &[u8]
        ensures { result.now ≡ queue_at peer (path_at self.now channel) }
    {
        match self.at(channel) {
            None => &[],
            Some(path) => path.queue(peer),
        }
    }

    /// The payload of a delivery under this handle, so far.
    pub fn partial(&self, channel: u16, peer: u32) -> &[u8]
        ensures { result.now ≡ partial_in peer (path_at self.now channel) }
    {
        match self.at(channel) {
            None => &[],
            Some(path) => path.partial(peer),
        }
    }

    /// Whether this handle of the container is attached: not both detaches went.
    pub fn is_attached(&self, channel: u16, peer: u32) -> bool
        ensures { result ≡ is_attached peer (path_at self.now channel) }
    {
        match self.fault_unasked(channel, peer) {
            AttachFault::HandleInUse => true,
            AttachFault::NotAsked => false,
        }
    }

    /// Whether it is, and names no link any more, since the container detached that.
    pub fn has_left(&self, channel: u16, peer: u32) -> bool
        ensures { result ≡ has_left peer (path_at self.now channel) }
    {
        self.is_attached(channel, peer) && !self.is_named(channel, peer)
    }

    /// Whether this handle of the container names a link.
    fn is_named(&self, channel: u16, peer: u32) -> bool
        ensures { result ≡ is_some (named peer (path_at self.now channel).links) }
    {
        match self.at(channel) {
            None => false,
            Some(path) => path.named(peer).is_some(),
        }
    }

    /// What a unit of a session's links carries of the client's.
    pub fn carried(&self, channel: u16, unit: SessionUnit) -> Pieces<'_>
        ensures { joined result ≡ carries_of (path_at self.now channel) unit }
    {
        let Some(path) = self.at(channel) else {
            return Pieces::none();
        };
        match unit {
            SessionUnit::Attach(attach) => Pieces::one(path.address(AttachDue {
                link: attach.link,
                handle: attach.handle,
                receives: attach.receives,
            })),
            SessionUnit::Transfer(transfer) => match path.rest(transfer.frame.publish) {
                None => Pieces::none(),
                Some(rest) => rest.first(transfer.bytes as usize),
            },
            _ => Pieces::none(),
        }
    }

    /// No publish waits, is begun, or lacks an outcome.
    pub fn is_done(&self, channel: u16) -> bool
        ensures { result ≡ is_done (path_at self.now channel) }
    {
        match self.at(channel) {
            None => true,
            Some(path) => path.is_done(),
        }
    }
}

/// The handle of a link, 0 where it has none.
fn handle_of(stage: Stage) -> u32
    ensures { result ≡ handle_of stage }
{
    match stage {
        Stage::Wanted => 0,
        Stage::Asked(handle)
        | Stage::Open(handle)
        | Stage::Refused(handle)
        | Stage::Left(handle)
        | Stage::Given(handle)
        | Stage::Failed(handle, _) => handle,
    }
}

/// The error of the detach of a link.
fn error_of(stage: Stage) -> Option<Condition>
    ensures { result ≡ error_for (error_of stage) }
{
    match stage {
        Stage::Failed(_, TransferFault::InvalidField) => Some(Condition::InvalidField),
        Stage::Failed(_, TransferFault::LimitExceeded) => Some(Condition::TransferLimitExceeded),
        Stage::Failed(_, TransferFault::SizeExceeded) => Some(Condition::MessageSizeExceeded),
        _ => None,
    }
}

/// The bytes of a frame, if there is one.
fn bytes_of(frame: Option<&ByteText>) -> &[u8]
    ensures { result.now ≡ or_no_bytes (option_copied frame.entry) }
{
    match frame {
        None => &[],
        Some(frame) => frame.as_slice(),
    }
}

/// A name is a short string (AMQP 0-9-1 4.2.5.3).
fn is_short(name: &[u8]) -> bool
    ensures { result ≡ nat_le (length name.now) 255 }
{
    name.len() <= SHORT_MAX
}

/// The deliver of a content to the consumer with this tag, or its get-ok. `Memory` also if a name
/// in it is longer than a short string.
fn deliver_with(
    alloc: Global,
    due: DeliverDue,
    tag: &[u8],
    content: Option<&Content>,
) -> Result<Method91, Memory>
    ensures method { IfOk result (λ m. m ≡ deliver_as tag.now due (option_copied content.entry)) }
    ensures short { IfOk result CanPut }
{
    let consumer_tag = ByteText::copy_of(alloc, tag)?;
    let (exchange, routing_key) = match content {
        None => (ByteText::empty(alloc), ByteText::empty(alloc)),
        Some(content) => (content.exchange.copy(alloc)?, content.key.copy(alloc)?),
    };
    if !is_short(tag) || !is_short(exchange.as_slice()) || !is_short(routing_key.as_slice()) {
        return Err(Memory);
    }
    if due.get {
        return Ok(Method91::BasicGetOk {
            delivery_tag: due.tag,
            redelivered: due.next.again,
            exchange,
            routing_key,
            message_count: 0,
        });
    }
    Ok(Method91::BasicDeliver {
        consumer_tag,
        delivery_tag: due.tag,
        redelivered: due.next.again,
        exchange,
        routing_key,
    })
}

/// A name that may be a queue's.
fn is_queue_name(queue: &[u8]) -> bool
    ensures { result ≡ is_queue_name queue.now }
{
    !queue.is_empty() && is_utf8(queue)
}
