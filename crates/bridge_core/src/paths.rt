//! The paths of channels, by their numbers: the links, the publishes and the answers of each.

ghost use Rattle.std.specs.Prelude.{◌≡◌, ◌-◌, ◌^◌, IfSome, OnErr, OnOk, Some, None};
ghost use Rattle.std.specs.Prelude.{box_value, map, min, option_copied, true};
ghost use Rattle.std.specs.Prelude.{◌≤◌, ◌||◌, drop};
ghost use Rattle.std.specs.Option.{option_map};
ghost use Rattle.session_path.specs.Path.{end_lost, is_last, transfer_came};
ghost use Rattle.std.specs.Prelude.{ℕ, Bool, List, Option, false, length};
ghost use Rattle.consume_path.specs.declared.delivery.Content.{Content};
ghost use Rattle.gate_model.specs.Paths.{closed_path, closed_paths};
ghost use Rattle.gate_model.specs.State.{path_wrote};
ghost use Rattle.bridge_core.specs.PathChanges.{consumed_by};
ghost use Rattle.session_path.specs.Path.{cancelled, declare_came, got, published};
ghost use Rattle.gate_model.specs.Paths.{bytes_in, bytes_on, held_in, held_on, is_laden};
ghost use Rattle.gate_model.specs.Paths.{lines_of_life};
ghost use Rattle.gate_model.specs.Paths.{ended_path, lost_path, no_paths, set_path, slot_at};
ghost use Rattle.gate_model.specs.Paths.{told_paths, with_path};
ghost use Rattle.session_path.specs.Path.{lines_told};
ghost use Rattle.gate_model.specs.State.{path_given, path_told};
ghost use Rattle.bridge_core.specs.PathChanges.{MayGive, MayTell, path_changed, takes_memory_to};
ghost use Rattle.bridge_core.specs.declared.lives.TheConstants.{CHANNELS};
ghost use Rattle.bridge_core.specs.declared.paths.PathChange.TheVariants as change;
ghost use Rattle.bridge_core.specs.Reports.{IsNextOwing, is_before, owing_on, sooner};

mod due;

use crate::lives::CHANNELS;
use consume_path::{Content, Part, Settle, TransferFault};
pub use due::{cancel_fault, declare_fault};
use gate_model::{ChannelUnit, HELD_BYTES, HELD_PUBLISHES, SessionUnit};
use open_items::Frames;
use publish_path::{Confirm, Outcome, Payload};
use session_path::{AttachHeard, LinkFlow, PathOk, SessionPath, Settling};
use std::marker::Model;
use wire_base::{ByteText, Memory};

/// The path of one channel, or none where the channel wasn't opened.
#[derive(Drop)]
pub struct PathSlot {
    path: Option<Box<SessionPath>>,
}

impl Model for PathSlot {
    ghost use Rattle.std.specs.Prelude.{Option, option_map, box_value};
    ghost use Rattle.session_path.specs.Path.{PathState};

    ghost Value = { Option PathState };

    ghost view = { λ a. option_map box_value a.path };
}

impl Default for PathSlot {
    ghost is_default = { λ slot. slot ≡ None };

    fn default() -> PathSlot {
        PathSlot { path: None }
    }
}

/// What a basic.consume asks for.
#[derive(Drop)]
pub struct Consume {
    pub queue: ByteText,
    pub tag: ByteText,
    pub no_ack: bool,
    pub no_wait: bool,
}

/// What a unit of the client or of the container changes of a path.
#[derive(Clone, Copy, Debug)]
pub enum PathChange {
    /// An answer is due to the client.
    Owed(PathOk),
    /// confirm.select was taken up, which asks for no answer or for one.
    Selected(bool),
    /// The container's begin came, with the greatest handle that it takes.
    Began(u32),
    /// A client answered deliveries: their tag, that it covers those before it, and what they get.
    Answered(u64, bool, Settle),
    /// basic.recover: all that is outstanding goes back, and an answer is due.
    Recovered,
    /// The container's attach came.
    Attached(AttachHeard),
    /// Its flow on the link of this handle came.
    Flowed(u32, LinkFlow),
    /// Its detach of the link of this handle did, whose error says that there is no such node, or
    /// not.
    Detached(u32, bool),
    /// An outcome did: which, and that it came settled.
    Outcome(Settling, Outcome, bool),
    /// A transfer on the link of this handle passed a limit.
    Failed(u32, TransferFault),
    /// The life closes.
    Closed,
    /// The session is lost.
    Lost,
}

/// confirm.select was taken up, which asks for an answer where `no_wait` is false. Without memory
/// for it all is as it was.
fn select(path: &mut SessionPath, no_wait: bool) -> Result<(), Memory>
    ensures ok { OnOk result (path.new ≡ path_changed (change.Selected no_wait) path.old) }
    ensures err { OnErr result (path.new ≡ path.old) }
{
    if !no_wait {
        path.owed(PathOk::Select)?;
    }
    path.selected();
    Ok(())
}

/// basic.recover was taken up. Without memory for its answer all is as it was.
fn recover(path: &mut SessionPath) -> Result<(), Memory>
    ensures ok { OnOk result (path.new ≡ path_changed change.Recovered path.old) }
    ensures err { OnErr result (path.new ≡ path.old) }
{
    path.owed(PathOk::Recover)?;
    path.answer_came(0, true, Settle::Released);
    Ok(())
}

impl PathSlot {
    /// The gateway's end of its session went, or the connection is lost.
    fn end(&mut self)
        ensures { self.new ≡ option_map ended_path self.old }
    {
        if let Some(path) = &mut self.path {
            path.ended();
        }
    }

    /// Its session is lost.
    fn lose(&mut self)
        ensures { self.new ≡ option_map lost_path self.old }
    {
        if let Some(path) = &mut self.path {
            path.lost();
        }
    }

    /// Its life closes.
    fn close(&mut self)
        ensures { self.new ≡ option_map closed_path self.old }
    {
        if let Some(path) = &mut self.path {
            path.closed();
        }
    }

    /// The upstream end is lost.
    fn lose_end(&mut self)
        ensures { self.new ≡ option_map end_lost self.old }
    {
        if let Some(path) = &mut self.path {
            path.end_lost();
        }
    }

    /// The lines that the report was owed were reported.
    fn lines_told(&mut self)
        ensures { self.new ≡ option_map lines_told self.old }
    {
        if let Some(path) = &mut self.path {
            path.lines_told();
        }
    }

    /// The path.
    pub fn path(&self) -> Option<&SessionPath>
        ensures { option_copied result ≡ self.now }
    {
        match &self.path {
            None => None,
            Some(path) => Some(path),
        }
    }

    /// The life whose publishes or deliveries owe lines to the report, if some do.
    fn owing(&self) -> Option<u64>
        ensures { result ≡ owing_on self.now }
    {
        let path = self.path()?;
        if path.owes_lines() {
            Some(path.life())
        } else {
            None
        }
    }

    /// How many publishes are held, and the bytes of their payloads.
    fn held(&self) -> (u32, u64)
        ensures count { result.0 ≡ held_on self.now }
        ensures bytes { result.1 ≡ bytes_on self.now }
    {
        match &self.path {
            None => (0, 0),
            Some(path) => path.held(),
        }
    }

    /// What a unit that was taken up or heard changes. Without memory for it all is as it was.
    fn change(&mut self, change: PathChange) -> Result<(), Memory>
        ensures ok { OnOk result (self.new ≡ option_map (path_changed change) self.old) }
        ensures err { OnErr result (self.new ≡ self.old) }
        ensures takes { OnErr result (takes_memory_to change ≡ true) }
    {
        let Some(path) = &mut self.path else {
            return Ok(());
        };
        match change {
            PathChange::Owed(ok) => path.owed(ok),
            PathChange::Selected(no_wait) => select(path, no_wait),
            PathChange::Began(handle_max) => {
                path.began(handle_max);
                Ok(())
            }
            PathChange::Answered(tag, multiple, settle) => {
                path.answer_came(tag, multiple, settle);
                Ok(())
            }
            PathChange::Recovered => recover(path),
            PathChange::Attached(attach) => path.attach_came(attach),
            PathChange::Flowed(peer, flow) => path.flow_came(peer, flow),
            PathChange::Detached(peer, not_found) => {
                path.detach_came(peer, not_found);
                Ok(())
            }
            PathChange::Outcome(ids, outcome, settled) => path.outcome_came(ids, outcome, settled),
            PathChange::Failed(peer, fault) => {
                path.failed(peer, fault);
                Ok(())
            }
            PathChange::Closed => {
                path.closed();
                Ok(())
            }
            PathChange::Lost => {
                path.lost();
                Ok(())
            }
        }
    }

    /// A content was taken up, for this address, with the payload of its transfer and the frames of
    /// its return. Without memory for it all is as it was.
    fn publish(&mut self, address: ByteText, payload: Payload, back: Frames) -> Result<(), Memory>
        ensures ok { OnOk result (self.new ≡ option_map (published address payload back) self.old) }
        ensures err { OnErr result (self.new ≡ self.old) }
    {
        match &mut self.path {
            None => Ok(()),
            Some(path) => path.published(address, payload, back),
        }
    }

    /// A basic.consume of this queue was taken up. Without memory for it all is as it was.
    fn consume(&mut self, consume: Consume) -> Result<(), Memory>
        ensures ok { OnOk result (self.new ≡ option_map (consumed_by consume) self.old) }
        ensures err { OnErr result (self.new ≡ self.old) }
    {
        match &mut self.path {
            None => Ok(()),
            Some(path) => {
                path.consume(consume.queue, consume.tag, consume.no_ack, consume.no_wait)
            }
        }
    }

    /// A queue.declare of this queue was taken up. Without memory for it all is as it was.
    fn declare(&mut self, queue: ByteText, no_wait: bool) -> Result<(), Memory>
        ensures ok { OnOk result (self.new ≡ option_map (declare_came queue no_wait) self.old) }
        ensures err { OnErr result (self.new ≡ self.old) }
    {
        match &mut self.path {
            None => Ok(()),
            Some(path) => path.declare(queue, no_wait),
        }
    }

    /// A basic.get of this queue was taken up. Without memory for it all is as it was.
    fn get(&mut self, queue: ByteText, no_ack: bool) -> Result<(), Memory>
        ensures ok { OnOk result (self.new ≡ option_map (got queue no_ack) self.old) }
        ensures err { OnErr result (self.new ≡ self.old) }
    {
        match &mut self.path {
            None => Ok(()),
            Some(path) => path.get(queue, no_ack),
        }
    }

    /// A basic.cancel of the consumer with this tag was taken up. Without memory for it all is as
    /// it was.
    fn cancel(&mut self, tag: ByteText, no_wait: bool) -> Result<(), Memory>
        ensures ok { OnOk result (self.new ≡ option_map (cancelled tag no_wait) self.old) }
        ensures err { OnErr result (self.new ≡ self.old) }
    {
        match &mut self.path {
            None => Ok(()),
            Some(path) => path.cancel(tag, no_wait),
        }
    }

    /// A transfer under this handle came, behind which its delivery goes on, or is none any more.
    /// Without memory for it all is as it was.
    fn transfer(&mut self, peer: u32, part: Part, payload: &[u8]) -> Result<(), Memory>
        requires { is_last part ≡ false }
        ensures ok { (image : Option Content) (again : Bool) → OnOk result (self.new
            ≡ option_map (transfer_came peer part payload.now image again) self.old) }
        ensures err { OnErr result (self.new ≡ self.old) }
    {
        match &mut self.path {
            None => Ok(()),
            Some(path) => path.transfer(peer, part, payload),
        }
    }

    /// A transfer came that ends its delivery, of which this goes to the client. Without memory for
    /// it all is as it was.
    fn arrive(
        &mut self,
        peer: u32,
        part: Part,
        image: Option<Content>,
        again: bool,
    ) -> Result<(), Memory>
        requires { is_last part ≡ true }
        ensures ok { (payload : List ℕ) → OnOk result (self.new
            ≡ option_map (transfer_came peer part payload image again) self.old) }
        ensures err { OnErr result (self.new ≡ self.old) }
    {
        match &mut self.path {
            None => Ok(()),
            Some(path) => path.arrive(peer, part, image, again),
        }
    }

    /// The last byte of a unit on the channel was sent.
    fn wrote(&mut self, unit: ChannelUnit)
        ensures { self.new ≡ option_map (path_wrote unit) self.old }
    {
        let Some(path) = &mut self.path else {
            return;
        };
        match unit {
            ChannelUnit::Content(due) if due.last => path.content_whole(due.tag),
            _ => {}
        }
    }

    /// The first byte of a unit of the session's links was sent.
    fn give(&mut self, unit: SessionUnit)
        requires { IfSome self.old (MayGive unit) }
        ensures { self.new ≡ option_map (path_given unit) self.old }
    {
        let Some(path) = &mut self.path else {
            return;
        };
        match unit {
            SessionUnit::Attach(attach) => path.attach_sent(attach.name),
            SessionUnit::Flow(_) => path.link_flow_sent(),
            SessionUnit::Transfer(transfer) => path.transfer_sent(transfer.frame, transfer.bytes),
            SessionUnit::Dispose(_) => path.dispose_sent(),
            SessionUnit::Settle(_) => path.settle_sent(),
            SessionUnit::Detach(_, _, _) => path.detach_sent(),
        }
    }

    /// The first byte of a unit on the channel was sent.
    fn tell(&mut self, unit: ChannelUnit)
        requires { IfSome self.old (MayTell unit) }
        ensures { self.new ≡ option_map (path_told unit) self.old }
    {
        let Some(path) = &mut self.path else {
            return;
        };
        match unit {
            ChannelUnit::Ok(_) => path.ok_sent(),
            ChannelUnit::Deliver(due) => path.deliver_sent(due),
            ChannelUnit::Content(_) => path.content_sent(),
            ChannelUnit::Confirm(_) => path.confirm_sent(),
            ChannelUnit::Return(_) => path.return_sent(),
        }
    }
}

/// A life comes before the next one, if there is one.
fn is_before(life: u64, next: Option<u64>) -> bool
    ensures { result ≡ is_before life next }
{
    match next {
        None => true,
        Some(next) => life < next,
    }
}

/// Of two lives the first, where the second counts only above one number and not past another.
fn sooner(next: Option<u64>, life: Option<u64>, above: u64, last: u64) -> Option<u64>
    ensures { result ≡ sooner above last next life }
{
    match life {
        Some(life) if above < life && life <= last && is_before(life, next) => Some(life),
        _ => next,
    }
}

/// The first life above one, and not past the last, that owes lines to the report.
fn next_owing(slots: &[PathSlot], above: u64, last: u64) -> Option<u64>
    ensures { IsNextOwing above last slots.now result }
{
    let mut next = None;
    for slot in slots {
        next = sooner(next, slot.owing(), above, last);
    }
    next
}

/// How many publishes all hold, and the bytes of their payloads; 2^64 - 1 of more.
fn held_in(slots: &[PathSlot]) -> (u64, u64)
    ensures count { result.0 ≡ min (held_in slots.now) (2 ^ 64 - 1) }
    ensures bytes { result.1 ≡ min (bytes_in slots.now) (2 ^ 64 - 1) }
{
    let mut publishes: u64 = 0;
    let mut bytes: u64 = 0;
    for slot in slots {
        let (count, size) = slot.held();
        publishes = publishes.saturating_add(u64::from(count));
        bytes = bytes.saturating_add(size);
    }
    (publishes, bytes)
}

/// The lines that the report was owed were reported.
fn tell_each(slots: &mut [PathSlot])
    ensures { slots.new ≡ told_paths slots.old }
{
    for slot in slots.iter_mut() {
        slot.lines_told();
    }
}

/// The connection is lost: no link of a session is left.
fn lose_each(paths: &mut [PathSlot; CHANNELS])
    ensures { paths.new ≡ map (option_map ended_path) paths.old }
{
    for slot in paths.iter_mut() {
        slot.end();
    }
}

/// The upstream end is lost.
fn lose_ends(paths: &mut [PathSlot; CHANNELS])
    ensures { paths.new ≡ map (option_map end_lost) paths.old }
{
    for slot in paths.iter_mut() {
        slot.lose_end();
    }
}

/// All lives close.
fn close_each(paths: &mut [PathSlot; CHANNELS])
    ensures { paths.new ≡ closed_paths paths.old }
{
    for slot in paths.iter_mut() {
        slot.close();
    }
}

/// The paths of all channels.
#[derive(Drop)]
pub struct Paths {
    paths: [PathSlot; CHANNELS],
    /// No channel was opened from this number on: looks for what goes next end there.
    top: u16,
}

impl Model for Paths {
    ghost use Rattle.bridge_core.specs.declared.lives.TheConstants.{CHANNELS};
    ghost use Rattle.std.specs.Prelude.{◌≡◌, ◌≤◌, List, Option, drop, length};
    ghost use Rattle.session_path.specs.Path.{PathState};
    ghost use Rattle.gate_model.specs.Paths.{no_paths};

    ghost Value = { List (Option PathState) };

    ghost view = { λ a. a.paths };

    ghost invariant = { λ a. (length a.paths ≡ CHANNELS)
        × ((a.top ≤ CHANNELS) × (drop a.top a.paths ≡ drop a.top no_paths)) };
}

impl Paths {
    /// No channel was opened.
    #[tactic(auto, unfolding(gate_model::specs::Paths::no_paths))]
    pub fn new() -> Paths
        ensures { result ≡ no_paths }
    {
        Paths {
            paths: Default::default(),
            top: 0,
        }
    }

    /// The path of a channel.
    pub fn at(&self, channel: u16) -> Option<&SessionPath>
        ensures { option_copied result ≡ slot_at self.now channel }
    {
        match self.paths.get(usize::from(channel)) {
            None => None,
            Some(slot) => match &slot.path {
                None => None,
                Some(path) => Some(path),
            },
        }
    }

    /// A channel begins anew.
    pub fn set(&mut self, channel: u16, path: Box<SessionPath>)
        ensures { self.new ≡ set_path channel (box_value path) self.old }
    {
        let at = usize::from(channel);
        if at < self.paths.len() {
            self.paths[at] = PathSlot { path: Some(path) };
            self.top = self.top.max(channel + 1);
        }
    }

    /// No channel was opened from this number on.
    pub fn top(&self) -> u16
        ensures within { result ≤ CHANNELS }
        ensures beyond { drop result self.now ≡ drop result no_paths }
    {
        self.top
    }

    /// The slots of the channels that may have a path.
    fn used(&self) -> &[PathSlot]
        ensures count { held_in result.now ≡ held_in self.now }
        ensures bytes { bytes_in result.now ≡ bytes_in self.now }
        ensures lines { (life : ℕ)
            → lines_of_life life result.now ≡ lines_of_life life self.now }
    {
        &self.paths[..usize::from(self.top)]
    }

    /// The life of a channel closes.
    #[tactic(auto, using(crate::proofs::PathSlots::none_beyond))]
    pub fn close(&mut self, channel: u16)
        ensures { self.new ≡ with_path channel closed_path self.old }
    {
        let at = usize::from(channel);
        if at < self.paths.len() {
            self.paths[at].close();
        }
    }

    /// All lives close.
    pub fn close_all(&mut self)
        ensures { self.new ≡ closed_paths self.old }
    {
        close_each(&mut self.paths);
    }

    /// The session of a channel is lost.
    #[tactic(auto, using(crate::proofs::PathSlots::none_beyond))]
    pub fn lose(&mut self, channel: u16)
        ensures { self.new ≡ with_path channel lost_path self.old }
    {
        let at = usize::from(channel);
        if at < self.paths.len() {
            self.paths[at].lose();
        }
    }

    /// The gateway's end of the session of a channel went.
    #[tactic(auto, using(crate::proofs::PathSlots::none_beyond))]
    pub fn end(&mut self, channel: u16)
        ensures { self.new ≡ with_path channel ended_path self.old }
    {
        let at = usize::from(channel);
        if at < self.paths.len() {
            self.paths[at].end();
        }
    }

    /// What the report was owed was reported.
    pub fn lines_told(&mut self)
        ensures { self.new ≡ told_paths self.old }
    {
        tell_each(&mut self.paths[..usize::from(self.top)]);
    }

    /// The paths of the channels, by their numbers.
    pub fn slots(&self) -> &[PathSlot]
        ensures { result.now ≡ self.now }
    {
        &self.paths
    }

    /// The first life above one, and not past the last, that owes lines to the report.
    pub fn next_owing(&self, above: u64, last: u64) -> Option<u64>
        ensures { IsNextOwing above last self.now result }
    {
        next_owing(self.used(), above, last)
    }

    /// So many publishes are held, or so many bytes of them, that nothing more is taken up.
    pub fn is_laden(&self) -> bool
        ensures { result ≡ is_laden self.now }
    {
        let (publishes, bytes) = held_in(self.used());
        publishes >= HELD_PUBLISHES || bytes >= HELD_BYTES
    }

    /// The upstream end is lost.
    pub fn lose_end(&mut self)
        ensures { self.new ≡ map (option_map end_lost) self.old }
    {
        lose_ends(&mut self.paths);
    }

    /// The connection is lost: no link of a session is left.
    pub fn lose_all(&mut self)
        ensures { self.new ≡ map (option_map ended_path) self.old }
    {
        lose_each(&mut self.paths);
    }

    /// What a unit that was taken up or heard changes on a channel. Without memory for it all is as
    /// it was.
    #[tactic(auto, using(crate::proofs::PathSlots::none_beyond))]
    pub fn change(&mut self, channel: u16, change: PathChange) -> Result<(), Memory>
        ensures ok { OnOk result (self.new ≡ with_path channel (path_changed change) self.old) }
        ensures err { OnErr result (self.new ≡ self.old) }
        ensures takes { OnErr result (takes_memory_to change ≡ true) }
    {
        let at = usize::from(channel);
        if at < self.paths.len() {
            self.paths[at].change(change)
        } else {
            Ok(())
        }
    }

    /// A content was taken up on a channel, for this address, with the payload of its transfer and
    /// the frames of its return. Without memory for it all is as it was.
    #[tactic(auto, using(crate::proofs::PathSlots::none_beyond))]
    pub fn publish(
        &mut self,
        channel: u16,
        address: ByteText,
        payload: Payload,
        back: Frames,
    ) -> Result<(), Memory>
        ensures ok { OnOk result (self.new ≡ with_path channel
            (published address payload back) self.old) }
        ensures err { OnErr result (self.new ≡ self.old) }
    {
        let at = usize::from(channel);
        if at < self.paths.len() {
            self.paths[at].publish(address, payload, back)
        } else {
            Ok(())
        }
    }

    /// A basic.consume was taken up on a channel. Without memory for it all is as it was.
    #[tactic(auto, using(crate::proofs::PathSlots::none_beyond))]
    pub fn consume(&mut self, channel: u16, consume: Consume) -> Result<(), Memory>
        ensures ok { OnOk result (self.new ≡ with_path channel (consumed_by consume) self.old) }
        ensures err { OnErr result (self.new ≡ self.old) }
    {
        let at = usize::from(channel);
        if at < self.paths.len() {
            self.paths[at].consume(consume)
        } else {
            Ok(())
        }
    }

    /// A queue.declare was taken up on a channel. Without memory for it all is as it was.
    #[tactic(auto, using(crate::proofs::PathSlots::none_beyond))]
    pub fn declare(&mut self, channel: u16, queue: ByteText, no_wait: bool) -> Result<(), Memory>
        ensures ok { OnOk result (self.new
            ≡ with_path channel (declare_came queue no_wait) self.old) }
        ensures err { OnErr result (self.new ≡ self.old) }
    {
        let at = usize::from(channel);
        if at < self.paths.len() {
            self.paths[at].declare(queue, no_wait)
        } else {
            Ok(())
        }
    }

    /// A basic.get was taken up on a channel. Without memory for it all is as it was.
    #[tactic(auto, using(crate::proofs::PathSlots::none_beyond))]
    pub fn get(&mut self, channel: u16, queue: ByteText, no_ack: bool) -> Result<(), Memory>
        ensures ok { OnOk result (self.new ≡ with_path channel (got queue no_ack) self.old) }
        ensures err { OnErr result (self.new ≡ self.old) }
    {
        let at = usize::from(channel);
        if at < self.paths.len() {
            self.paths[at].get(queue, no_ack)
        } else {
            Ok(())
        }
    }

    /// A basic.cancel was taken up on a channel. Without memory for it all is as it was.
    #[tactic(auto, using(crate::proofs::PathSlots::none_beyond))]
    pub fn cancel(&mut self, channel: u16, tag: ByteText, no_wait: bool) -> Result<(), Memory>
        ensures ok { OnOk result (self.new
            ≡ with_path channel (cancelled tag no_wait) self.old) }
        ensures err { OnErr result (self.new ≡ self.old) }
    {
        let at = usize::from(channel);
        if at < self.paths.len() {
            self.paths[at].cancel(tag, no_wait)
        } else {
            Ok(())
        }
    }

    /// A transfer came on a channel, under this handle, behind which its delivery goes on, or is
    /// none any more. Without memory for it all is as it was.
    #[tactic(auto, using(crate::proofs::PathSlots::none_beyond))]
    pub fn transfer(
        &mut self,
        channel: u16,
        peer: u32,
        part: Part,
        payload: &[u8],
    ) -> Result<(), Memory>
        requires { is_last part ≡ false }
        ensures ok { (image : Option Content) (again : Bool) → OnOk result (self.new
            ≡ with_path channel (transfer_came peer part payload.now image again) self.old) }
        ensures err { OnErr result (self.new ≡ self.old) }
    {
        let at = usize::from(channel);
        if at < self.paths.len() {
            self.paths[at].transfer(peer, part, payload)
        } else {
            Ok(())
        }
    }

    /// A transfer came on a channel that ends its delivery, of which this goes to the client.
    /// Without memory for it all is as it was.
    #[tactic(auto, using(crate::proofs::PathSlots::none_beyond))]
    pub fn arrive(
        &mut self,
        channel: u16,
        peer: u32,
        part: Part,
        image: Option<Content>,
        again: bool,
    ) -> Result<(), Memory>
        requires { is_last part ≡ true }
        ensures ok { (payload : List ℕ) → OnOk result (self.new
            ≡ with_path channel (transfer_came peer part payload image again) self.old) }
        ensures err { OnErr result (self.new ≡ self.old) }
    {
        let at = usize::from(channel);
        if at < self.paths.len() {
            self.paths[at].arrive(peer, part, image, again)
        } else {
            Ok(())
        }
    }

    /// The last byte of a unit on a channel was sent.
    #[tactic(auto, using(crate::proofs::PathSlots::none_beyond))]
    pub fn wrote(&mut self, channel: u16, unit: ChannelUnit)
        ensures { self.new ≡ with_path channel (path_wrote unit) self.old }
    {
        let at = usize::from(channel);
        if at < self.paths.len() {
            self.paths[at].wrote(unit);
        }
    }

    /// The first byte of a unit of the links of a channel's session was sent.
    #[tactic(auto, using(crate::proofs::PathSlots::none_beyond))]
    pub fn give(&mut self, channel: u16, unit: SessionUnit)
        requires { IfSome (slot_at self.old channel) (MayGive unit) }
        ensures { self.new ≡ with_path channel (path_given unit) self.old }
    {
        let at = usize::from(channel);
        if at < self.paths.len() {
            self.paths[at].give(unit);
        }
    }

    /// The first byte of a unit on a channel was sent.
    #[tactic(auto, using(crate::proofs::PathSlots::none_beyond))]
    pub fn tell(&mut self, channel: u16, unit: ChannelUnit)
        requires { IfSome (slot_at self.old channel) (MayTell unit) }
        ensures { self.new ≡ with_path channel (path_told unit) self.old }
    {
        let at = usize::from(channel);
        if at < self.paths.len() {
            self.paths[at].tell(unit);
        }
    }
}
