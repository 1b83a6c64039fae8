//! Each end numbers a session's links by handles of its own (AMQP 1.0 2.6.2). The container's
//! attach names a link of the gateway, and its handle stands for this link in its later frames.

ghost use Rattle.std.specs.Prelude.{◌≡◌, ◌≤◌, ◌<◌, IfOk, true, Some, is_none, position};
ghost use Rattle.std.specs.Bool.{OnTrue, OnFalse};
ghost use Rattle.link_table.specs.Table.{new_table, state_of, free_of, named_by, is_free, is_named};
ghost use Rattle.link_table.specs.Table.{is_asked, is_unsent, is_unread, after_limit, after_attach};
ghost use Rattle.link_table.specs.Table.{after_attached, detached, with_sent, with_read};
ghost use Rattle.link_table.specs.Table.{after_detach_sent, after_detach_read};

use std::alloc::Global;
use std::marker::Model;
use wire_base::Memory;

/// What a handle of the gateway stands for.
#[derive(Clone, Copy, Debug, PartialEq, Eq)]
pub enum HandleState {
    /// No link.
    Free,
    /// A link whose attach was sent; the container's didn't come yet.
    Asked,
    /// A link that both ends attached.
    Attached(Attachment),
}

/// A link that both ends attached.
#[derive(Clone, Copy, Debug, PartialEq, Eq)]
pub struct Attachment {
    /// The container's handle for it.
    pub peer: u32,
    /// The gateway's detach was sent.
    pub detach_sent: bool,
    /// The container's detach was read.
    pub detach_read: bool,
}

/// The handles of a session. Contracts see the state of each, and the greatest that may be
/// attached. No call takes memory but `new`.
#[derive(Drop)]
pub struct Handles {
    states: Vec<HandleState>,
    most: u32,
}

impl Model for Handles {
    ghost use Rattle.std.specs.Prelude.{◌≤◌, length};
    ghost use Rattle.link_table.specs.Table.{HandleTable};

    ghost Value = { HandleTable };

    ghost view = { λ a. record { states = a.states.items; most = a.most } };

    ghost invariant = { λ a. length a.states.items ≤ 256 };
}

fn is_free_handle(state: &HandleState) -> bool
    ensures { result ≡ is_free state.now }
{
    *state == HandleState::Free
}

fn is_named_by(state: &HandleState, peer: u32) -> bool
    ensures { result ≡ is_named peer state.now }
{
    match state {
        HandleState::Attached(attachment) => attachment.peer == peer,
        _ => false,
    }
}

fn first_free(states: &[HandleState]) -> Option<usize>
    ensures { result ≡ position is_free states.now }
{
    states.iter().position(is_free_handle)
}

fn first_named(states: &[HandleState], peer: u32) -> Option<usize>
    ensures { result ≡ position (is_named peer) states.now }
{
    states.iter().position(|state| is_named_by(state, peer))
}

fn state_after(attachment: Attachment) -> HandleState
    ensures { result ≡ detached attachment }
{
    if attachment.detach_sent && attachment.detach_read {
        HandleState::Free
    } else {
        HandleState::Attached(attachment)
    }
}

fn sent_state(state: HandleState) -> HandleState
    ensures { result ≡ with_sent state }
{
    match state {
        HandleState::Attached(attachment) => state_after(Attachment {
            detach_sent: true,
            ..attachment
        }),
        other => other,
    }
}

fn read_state(state: HandleState) -> HandleState
    ensures { result ≡ with_read state }
{
    match state {
        HandleState::Attached(attachment) => state_after(Attachment {
            detach_read: true,
            ..attachment
        }),
        other => other,
    }
}

impl Handles {
    /// Handles 0 to `most`, all free.
    pub fn new(alloc: Global, most: u32) -> Result<Handles, Memory>
        requires { most ≤ 255 }
        ensures { IfOk result (λ handles. handles ≡ new_table most) }
    {
        let states = vec![in alloc; HandleState::Free; most as usize + 1]?;
        Ok(Handles { states, most })
    }

    /// From now on no handle above `most` is free. Those that stand for a link stay.
    pub fn limit(&mut self, most: u32)
        ensures { self.new ≡ after_limit most self.old }
    {
        self.most = most;
    }

    /// The lowest handle that is free.
    pub fn free(&self) -> Option<u32>
        ensures { result ≡ free_of self.now }
    {
        match first_free(self.states.as_slice()) {
            Some(handle) if handle <= self.most as usize => Some(handle as u32),
            _ => None,
        }
    }

    /// The gateway's attach with this handle was sent.
    pub fn attach(&mut self, handle: u32)
        requires { free_of self.old ≡ Some handle }
        ensures { self.new ≡ after_attach handle self.old }
    {
        self.states[handle as usize] = HandleState::Asked;
    }

    /// The container's attach of the link with this handle was read, and `peer` is its own handle.
    /// False if `peer` names a link already; then nothing changes.
    pub fn attached(&mut self, handle: u32, peer: u32) -> bool
        requires { is_asked (state_of self.old handle) ≡ true }
        ensures answer { result ≡ is_none (named_by self.old peer) }
        ensures attached { OnTrue result (self.new ≡ after_attached handle peer self.old) }
        ensures refused { OnFalse result (self.new ≡ self.old) }
    {
        if self.of_peer(peer).is_some() {
            return false;
        }
        self.states[handle as usize] = HandleState::Attached(Attachment {
            peer,
            detach_sent: false,
            detach_read: false,
        });
        true
    }

    /// The handle of the link that this handle of the container stands for.
    pub fn of_peer(&self, peer: u32) -> Option<u32>
        ensures { result ≡ named_by self.now peer }
    {
        match first_named(self.states.as_slice(), peer) {
            Some(handle) => Some(handle as u32),
            None => None,
        }
    }

    /// The gateway's detach of this link was sent.
    pub fn detach_sent(&mut self, handle: u32)
        requires { is_unsent (state_of self.old handle) ≡ true }
        ensures { self.new ≡ after_detach_sent handle self.old }
    {
        let at = handle as usize;
        self.states[at] = sent_state(self.states[at]);
    }

    /// The container's detach of this link was read.
    pub fn detach_read(&mut self, handle: u32)
        requires { is_unread (state_of self.old handle) ≡ true }
        ensures { self.new ≡ after_detach_read handle self.old }
    {
        let at = handle as usize;
        self.states[at] = read_state(self.states[at]);
    }
}
