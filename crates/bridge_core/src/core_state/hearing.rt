//! The units of the container.

ghost use Rattle.std.specs.Prelude.{◌≡◌, ◌<◌, ◌||◌, true, false, OnOk, OnErr};
ghost use Rattle.std.specs.Prelude.{Some, None};
ghost use Rattle.gate_model.specs.State.{Heard};
ghost use Rattle.gate_model.specs.State.{step};
ghost use Rattle.gate_model.specs.State.{fail, fail_life, met, session_lost};
ghost use Rattle.gate_model.specs.State.{begun_session, came, met_session};
ghost use Rattle.gate_model.specs.State.{opened, waits, with_meaning, with_session};
ghost use Rattle.gate_model.specs.Lives.{life_at, refusal_on};
ghost use Rattle.gate_model.specs.Upstream.{condition_in};
ghost use Rattle.close_translate.specs.Conditions.{code_by};
ghost use Rattle.machine_091.specs.declared.unit.Want91.TheVariants as want;
ghost use Rattle.machine_10.specs.Parts.{parts_of};
ghost use Rattle.machine_10.specs.Transitions.{meaning_of};
ghost use Rattle.types_10.specs.Fields.{maybe};
ghost use Rattle.performatives_10.specs.View.{error_tree};
ghost use Rattle.bridge_core.specs.Flows.{FlowsFit};
ghost use Rattle.bridge_core.specs.Going.{KeepsGoing};
ghost use Rattle.std.specs.Prelude.{ℕ, List, length, if◌then◌else◌};
ghost use Rattle.gate_model.specs.Paths.{attach_fault_by, closed_path, is_attached, path_at};
ghost use Rattle.gate_model.specs.Paths.{transfer_error, transferred, with_path};
ghost use Rattle.gate_model.specs.State.{closing_code, path_heard, windowed};
ghost use Rattle.performatives_10.specs.declared.performative.Perf.TheVariants as perf;
ghost use Rattle.bridge_core.specs.LinkFaults.{link_fault, takes_memory_by, takes_memory_of};
ghost use Rattle.bridge_core.specs.LinkFaults.{ended_by, ended_unless};

use super::Core;
use crate::contents::image_of;
use crate::lives::{begun_life, failed_life};
use crate::path_changes::{LinkFault, link_number, part_of, path_change};
use crate::paths::PathChange;
use crate::replies::{reason_of, refusal_on};
use crate::sessions::{carried_by, has_room};
use close_translate::{INTERNAL_ERROR, NOT_ALLOWED, PRECONDITION_FAILED, Scope, code_of};
use consume_path::TransferFault;
use gate_outside::End;
use machine_10::{Unit10, Want10, connection_laws};
use performatives_10::{Attach, Condition, Error10, Perf, Transfer};
use session_path::AttachFault;
use std::alloc::Global;
use wire_base::Memory;

/// Lets go of what a unit of the container meant, once it is met.
fn release(want: Want10) {
    match want {
        Want10::Session(_, perf, payload) => {
            drop(payload);
            drop(perf);
        }
        Want10::Closed(error) => drop(error),
        _ => {}
    }
}

/// The reply code for the error of a container's close, or of its end.
#[tactic(auto, using(crate::proofs::Errors::condition_is))]
fn code_by(error: &Option<Error10>, scope: Scope) -> u16
    ensures { result ≡ code_by (condition_in (maybe error_tree error.now)) scope }
{
    let condition = match error {
        None => None,
        Some(error) => Some(error.condition.as_slice()),
    };
    code_of(condition, scope)
}

impl Core {
    /// The container opened.
    fn open(&mut self)
        ensures step { self.new ≡ opened self.old }
        ensures kept { KeepsGoing self.old self.new }
    {
        if self.conn.is_opening() {
            self.conn.opened(self.up.channel_max());
            self.pending.open_ok = true;
        }
    }

    /// The session of a channel is lost, whether the channel is closing or not.
    fn lose_session(&mut self, channel: u16)
        ensures step { self.new ≡ session_lost channel self.old }
        ensures kept { KeepsGoing self.old self.new }
    {
        self.paths.lose(channel);
    }

    /// The container is the cause that a channel closes, unless that is closing already.
    fn fail_life(&mut self, channel: u16, code: u16, why: Option<Condition>)
        ensures step { self.new ≡ fail_life channel code why closed_path self.old }
        ensures kept { KeepsGoing self.old self.new }
    {
        if self.conn.is_open(channel) {
            self.conn.closing(Scope::Channel, channel);
            let reason = reason_of(refusal_on(channel, code), None);
            let life = failed_life(self.lives.at(channel), true, self.moment, reason, why);
            self.lives.set(channel, life);
            self.paths.close(channel);
        }
    }

    /// The container's begin came.
    fn begin_session(&mut self, channel: u16)
        ensures step { self.new ≡ begun_session channel self.old }
        ensures kept { KeepsGoing self.old self.new }
    {
        let life = begun_life(self.lives.at(channel));
        self.lives.set(channel, life);
    }

    /// What a performative makes of the windows of the session of a channel.
    #[tactic(auto, using(crate::proofs::Flows::echoes_fit))]
    fn carry(&mut self, channel: u16, perf: &Perf)
        requires { FlowsFit self.old.lives }
        ensures step { self.new ≡ windowed channel (parts_of perf.now) self.old }
        ensures kept { KeepsGoing self.old self.new }
    {
        let session = carried_by(self.lives.at(channel).session, perf);
        self.lives.set_session(channel, session);
    }

    /// What is wrong with a performative that names a link, if something is.
    #[tactic(auto, using(crate::proofs::LinkFaults::attach_link, crate::proofs::LinkFaults::flow_link, crate::proofs::LinkFaults::detach_link, crate::proofs::LinkFaults::transfer_link), unfolding(machine_10::specs::Parts::parts_of))]
    fn link_fault(&self, channel: u16, perf: &Perf, payload: &[u8]) -> Option<LinkFault>
        ensures { result ≡ link_fault (parts_of perf.now) payload.now
            (life_at self.now.lives channel).session (path_at self.now.paths channel) }
    {
        match perf {
            Perf::Attach(attach) => self.attach_fault(channel, attach),
            Perf::Flow(flow) => match flow.handle {
                None => None,
                Some(handle) => self.unattached(channel, handle),
            },
            Perf::Transfer(transfer) => self.transfer_fault(channel, transfer, payload.len()),
            Perf::Detach(detach) => self.unattached(channel, detach.handle),
            _ => None,
        }
    }

    /// Why a transfer of so many bytes ends its session, if it does.
    #[tactic(auto, unfolding(machine_10::specs::Parts::parts_of))]
    fn transfer_fault(&self, channel: u16, transfer: &Transfer, size: usize) -> Option<LinkFault>
        ensures { (payload : List ℕ) → length payload ≡ size → result
            ≡ ended_by (transfer_error (parts_of (perf.Transfer transfer.now)).1 payload
            (life_at self.now.lives channel).session (path_at self.now.paths channel)) }
    {
        if !has_room(self.lives.at(channel).session) {
            return Some(LinkFault::Ends(Condition::WindowViolation));
        }
        let handle = transfer.handle;
        if !self.paths.is_receiver(channel, handle) && !self.paths.has_left(channel, handle) {
            return Some(LinkFault::Ends(Condition::UnattachedHandle));
        }
        match self
            .paths
            .transfer_fault(channel, handle, part_of(transfer), size)
        {
            Some(TransferFault::InvalidField) => Some(LinkFault::Ends(Condition::InvalidField)),
            _ => None,
        }
    }

    /// A handle of the container that isn't attached.
    fn unattached(&self, channel: u16, handle: u32) -> Option<LinkFault>
        ensures { result ≡ ended_unless (is_attached handle (path_at self.now.paths channel)) }
    {
        if self.paths.is_attached(channel, handle) {
            None
        } else {
            Some(LinkFault::Ends(Condition::UnattachedHandle))
        }
    }

    /// Why an attach answers none of the gateway's.
    #[tactic(auto, unfolding(machine_10::specs::Parts::parts_of))]
    fn answer_fault(&self, channel: u16, attach: &Attach) -> Option<AttachFault>
        ensures { result ≡ attach_fault_by (parts_of (perf.Attach attach.now)).1
            (path_at self.now.paths channel) }
    {
        match link_number(attach.name.as_slice()) {
            None => Some(self.paths.fault_unasked(channel, attach.handle)),
            Some(name) => self
                .paths
                .attach_fault(channel, name, attach.role, attach.handle),
        }
    }

    /// What is wrong with an attach: one under a name that isn't asked for with the other role
    /// isn't allowed.
    #[tactic(auto, unfolding(machine_10::specs::Parts::parts_of))]
    fn attach_fault(&self, channel: u16, attach: &Attach) -> Option<LinkFault>
        ensures { (payload : List ℕ) → result
            ≡ link_fault (parts_of (perf.Attach attach.now)) payload
            (life_at self.now.lives channel).session (path_at self.now.paths channel) }
    {
        match self.answer_fault(channel, attach) {
            None => None,
            Some(AttachFault::NotAsked) => Some(LinkFault::Closes(Condition::NotAllowed)),
            Some(AttachFault::HandleInUse) => Some(LinkFault::Closes(Condition::HandleInUse)),
        }
    }

    /// A performative of a session came. Without memory for it all is as it was.
    #[tactic(auto, using(crate::proofs::LinkFaults::closes_all, crate::proofs::LinkFaults::ends_session, crate::proofs::LinkFaults::ends_none))]
    fn hear_session(
        &mut self,
        alloc: Global,
        channel: u16,
        perf: &Perf,
        payload: &[u8],
    ) -> Result<(), Memory>
        requires { FlowsFit self.old.lives }
        ensures ok { OnOk result (self.new
            ≡ with_session channel (parts_of perf.now) payload.now self.old) }
        ensures err { OnErr result (self.new ≡ self.old) }
        ensures takes { OnErr result (takes_memory_of (parts_of perf.now) ≡ true) }
        ensures kept { KeepsGoing self.old self.new }
    {
        match self.link_fault(channel, perf, payload) {
            Some(LinkFault::Closes(condition)) => {
                self.carry(channel, perf);
                self.fail(INTERNAL_ERROR, Some(condition));
            }
            Some(LinkFault::Ends(condition)) => {
                self.carry(channel, perf);
                self.lose_session(channel);
                self.fail_life(channel, PRECONDITION_FAILED, Some(condition));
            }
            None => {
                let code = self.closing_code(channel, perf, payload.len());
                self.hear_path(alloc, channel, perf, payload)?;
                self.carry(channel, perf);
                self.meet_session(channel, perf, code);
            }
        }
        Ok(())
    }

    /// What a performative makes of the path of a channel. Without memory for it all is as it was.
    #[tactic(auto, using(crate::proofs::LinkFaults::heard_none, crate::proofs::LinkFaults::heard_change), unfolding(machine_10::specs::Parts::parts_of))]
    fn hear_path(
        &mut self,
        alloc: Global,
        channel: u16,
        perf: &Perf,
        payload: &[u8],
    ) -> Result<(), Memory>
        ensures ok { OnOk result (self.new ≡ record self.old {
          paths = with_path channel (path_heard self.old.conn.limits.frame_max channel
              (parts_of perf.now) payload.now) self.old.paths;
        }) }
        ensures err { OnErr result (self.new ≡ self.old) }
        ensures takes { OnErr result (takes_memory_of (parts_of perf.now) ≡ true) }
    {
        if let Perf::Transfer(transfer) = perf {
            return self.hear_transfer(alloc, channel, transfer, payload);
        }
        match path_change(perf) {
            None => Ok(()),
            Some(change) => self.paths.change(channel, change),
        }
    }

    /// A transfer came: it passes a limit of its link, or it is a part of a delivery, which it may
    /// end. Without memory for it all is as it was.
    #[tactic(auto, unfolding(machine_10::specs::Parts::parts_of))]
    fn hear_transfer(
        &mut self,
        alloc: Global,
        channel: u16,
        transfer: &Transfer,
        payload: &[u8],
    ) -> Result<(), Memory>
        ensures ok { OnOk result (self.new ≡ record self.old {
          paths = with_path channel (transferred self.old.conn.limits.frame_max channel
              (parts_of (perf.Transfer transfer.now)).1 payload.now) self.old.paths;
        }) }
        ensures err { OnErr result (self.new ≡ self.old) }
    {
        let part = part_of(transfer);
        let handle = transfer.handle;
        let fault = self
            .paths
            .transfer_fault(channel, handle, part, payload.len());
        if let Some(fault) = fault {
            return self
                .paths
                .change(channel, PathChange::Failed(handle, fault));
        }
        if part.more || part.aborted {
            return self.paths.transfer(channel, handle, part, payload);
        }
        let limit = self.conn.frame_max();
        let queue = self.paths.queue(channel, handle);
        let before = self.paths.partial(channel, handle);
        let (image, again) = image_of(alloc, limit, channel, queue, before, payload)?;
        self.paths.arrive(channel, handle, part, image, again)
    }

    /// The code that closes the channel of a performative that isn't at fault, if it does.
    #[tactic(auto, unfolding(machine_10::specs::Parts::parts_of))]
    fn closing_code(&self, channel: u16, perf: &Perf, size: usize) -> Option<u16>
        ensures { (payload : List ℕ) → length payload ≡ size → result
            ≡ closing_code (parts_of perf.now) payload (path_at self.now.paths channel) }
    {
        match perf {
            Perf::End(end) => Some(code_by(&end.error, Scope::Channel)),
            Perf::Detach(detach) => {
                if self.paths.closes_at(channel, detach.handle) {
                    Some(code_by(&detach.error, Scope::Channel))
                } else {
                    None
                }
            }
            Perf::Transfer(transfer) => {
                let part = part_of(transfer);
                match self
                    .paths
                    .transfer_fault(channel, transfer.handle, part, size)
                {
                    None => None,
                    Some(_) => Some(PRECONDITION_FAILED),
                }
            }
            _ => None,
        }
    }

    /// What a performative of a session asks for, but for its windows and its links.
    #[tactic(auto, unfolding(machine_10::specs::Parts::parts_of))]
    fn meet_session(&mut self, channel: u16, perf: &Perf, code: Option<u16>)
        ensures step { self.new ≡ met_session channel (parts_of perf.now) code self.old }
        ensures kept { KeepsGoing self.old self.new }
    {
        match (perf, code) {
            (Perf::Begin(_), _) => self.begin_session(channel),
            (_, Some(code)) => self.fail_life(channel, code, None),
            (_, None) => {}
        }
    }

    /// What a unit of the container means.
    #[tactic(auto, unfolding(machine_10::specs::Transitions::meaning_of))]
    fn mean(&mut self, alloc: Global, want: &Want10) -> Result<(), Memory>
        requires { FlowsFit self.old.lives }
        ensures ok { OnOk result (self.new ≡ with_meaning (meaning_of want.now) self.old) }
        ensures err { OnErr result (self.new ≡ self.old) }
        ensures takes { OnErr result (takes_memory_by (meaning_of want.now) ≡ true) }
        ensures kept { KeepsGoing self.old self.new }
    {
        match want {
            Want10::Nothing => Ok(()),
            Want10::Session(channel, perf, payload) => {
                self.hear_session(alloc, *channel, perf, payload.as_slice())
            }
            Want10::Init => {
                self.up.ask_init();
                Ok(())
            }
            Want10::AmqpHeader => {
                self.up.ask_amqp_header();
                Ok(())
            }
            Want10::Opened => {
                self.open();
                Ok(())
            }
            Want10::Closed(error) => {
                self.fail(code_by(error, Scope::Connection), None);
                Ok(())
            }
            Want10::Refused => {
                self.fail(NOT_ALLOWED, None);
                Ok(())
            }
            Want10::Violation(condition) => {
                self.fail(INTERNAL_ERROR, Some(*condition));
                Ok(())
            }
        }
    }

    /// A unit of the container came. Where there is no memory for it all is as it was.
    pub fn up_unit(&mut self, alloc: Global, unit: &Unit10) -> Result<(), Memory>
        requires { self.old.out_of_memory ≡ false }
        ensures ok { OnOk result (self.new ≡ step self.old (Heard unit.now)) }
        ensures err { OnErr result (self.new ≡ self.old) }
        ensures kept { KeepsGoing self.old self.new }
    {
        connection_laws();
        if self.lives.is_crowded() {
            return Err(Memory);
        }
        match self.up.hear(alloc, unit) {
            Ok(want) => {
                let met = self.mean(alloc, &want);
                release(want);
                met
            }
            Err(error) => Err(error),
        }
    }
}
