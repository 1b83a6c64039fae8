//! The bytes of a unit to the container, in a room that is kept for them.

ghost use Rattle.std.specs.Prelude.{◌≡◌, ◌≤◌, length, [], None, Some, OnOk, OnErr, true, false};
ghost use Rattle.gate_model.specs.Due.{takes_memory_on, takes_memory_up};
ghost use Rattle.gate_model.specs.Spelling.{settle_of, spell_on, spell_up};
ghost use Rattle.gate_model.specs.declared.outgoing.UpUnit.TheVariants as up;
ghost use Rattle.gate_model.specs.declared.channel.SessionUnit.TheVariants as on_session;
ghost use Rattle.bridge_core.specs.Logins.{IsLoginOf};
ghost use Rattle.bridge_core.specs.Offers.{UpSlotState, is_on_session};
ghost use Rattle.publish_path.specs.Payloads.{joined};

use crate::frames::ROOM;
use crate::link_frames::{attach_frame, flow_frame, transfer_frame};
use crate::up_frames;
use consume_path::NextSettle;
use gate_model::{SessionUnit, Setup, UpUnit};
use machine_10::{Conn10, FRAME_MAX};
use performatives_10::{Condition, Ending, Settle, put_end, put_settle, put_settled};
use publish_path::Pieces;
use session_path::Settling;
use std::alloc::Global;
use std::marker::Model;
use wire_base::{ByteText, Memory};

/// What is offered to the container, and the bytes of it or of the unit in progress. Those of an
/// attach, of a flow of a link and of a transfer stand in `long`, all others in `room`.
#[derive(Drop)]
pub struct UpSlot {
    room: [u8; ROOM],
    used: usize,
    long: Option<ByteText>,
    chosen: Option<UpUnit>,
}

impl Model for UpSlot {
    ghost use Rattle.bridge_core.specs.declared.frames.TheConstants.{ROOM};
    ghost use Rattle.machine_10.specs.declared.limits.TheConstants.{FRAME_MAX};
    ghost use Rattle.std.specs.Prelude.{◌≡◌, ◌≤◌, IfSome, length, take};
    ghost use Rattle.bridge_core.specs.Offers.{UpSlotState, slot_bytes};

    ghost Value = { UpSlotState };

    ghost view = { λ a. record {
      chosen = a.chosen;
      bytes = slot_bytes a.long (take a.used a.room);
    } };

    // the room's length is said here, since a slot that is only read doesn't show it
    ghost invariant = { λ a. (a.used ≤ ROOM) × (length a.room ≡ ROOM)
        × IfSome a.long (λ text. length text ≤ FRAME_MAX) };
}

/// The outcome that a settled disposition tells.
fn settle_of(settle: consume_path::Settle) -> Settle
    ensures { result ≡ settle_of settle }
{
    match settle {
        consume_path::Settle::Accepted => Settle::Accepted,
        consume_path::Settle::Rejected => Settle::Rejected,
        consume_path::Settle::Released => Settle::Released,
    }
}

impl UpSlot {
    /// Nothing is offered, and no unit is in progress.
    pub fn new() -> UpSlot
        ensures { result ≡ record { chosen = None; bytes = [] } }
    {
        UpSlot {
            chosen: None,
            room: [0; ROOM],
            used: 0,
            long: None,
        }
    }

    /// The unit that is offered.
    pub fn chosen(&self) -> Option<UpUnit>
        ensures { result ≡ self.now.chosen }
    {
        self.chosen
    }

    /// The bytes of what is offered or in progress.
    #[tactic(auto, using(std::proofs::lemmas::List::take_at))]
    pub fn bytes(&self) -> &[u8]
        ensures bytes { result.now ≡ self.now.bytes }
        ensures small { length result.now ≤ FRAME_MAX }
    {
        let (bytes, _) = self.room.as_slice().split_at(self.used);
        match &self.long {
            Some(text) => text.as_slice(),
            None => bytes,
        }
    }

    /// Nothing is offered any more.
    pub fn take_back(&mut self)
        ensures { self.new ≡ record self.old { chosen = None } }
    {
        self.chosen = None;
    }

    /// A unit of this pair is offered. Only those that open a connection or a session, and flows,
    /// take memory; without it all is as it was.
    #[tactic(auto, using(crate::proofs::Rooms::written))]
    pub fn choose(
        &mut self,
        alloc: Global,
        setup: &Setup,
        number: u32,
        container: &Option<Conn10>,
        unit: UpUnit,
    ) -> Result<(), Memory>
        requires login { IsLoginOf container.now }
        requires alone { is_on_session unit ≡ false }
        ensures ok { OnOk result (self.new ≡ record {
          chosen = Some unit;
          bytes = spell_up
              (record { setup = setup.now; number = number; container = container.now }) unit [];
        }) }
        ensures err { OnErr result (self.new ≡ self.old) }
        ensures takes { OnErr result (takes_memory_up unit ≡ true) }
    {
        let used = up_frames::spell_up(&mut self.room, alloc, setup, number, container, unit)?;
        self.used = used;
        self.long = None;
        self.chosen = Some(unit);
        Ok(())
    }

    /// A unit is offered whose bytes are these.
    fn hold(&mut self, unit: UpUnit, text: ByteText)
        requires { length text ≤ FRAME_MAX }
        ensures { self.new ≡ record { chosen = Some unit; bytes = text } }
    {
        self.long = Some(text);
        self.chosen = Some(unit);
    }

    /// A disposition of deliveries is offered.
    #[tactic(auto, using(crate::proofs::Rooms::written))]
    fn dispose(&mut self, channel: u16, next: NextSettle)
        ensures { self.new ≡ record {
          chosen = Some (up.OnSession channel (on_session.Dispose next));
          bytes = spell_on channel (on_session.Dispose next) [];
        } }
    {
        self.used = put_settle(
            &mut self.room,
            channel,
            next.first,
            next.last,
            settle_of(next.settle),
        );
        self.long = None;
        self.chosen = Some(UpUnit::OnSession(channel, SessionUnit::Dispose(next)));
    }

    /// A disposition is offered.
    #[tactic(auto, using(crate::proofs::Rooms::written))]
    fn settle(&mut self, channel: u16, settling: Settling)
        ensures { self.new ≡ record {
          chosen = Some (up.OnSession channel (on_session.Settle settling));
          bytes = spell_on channel (on_session.Settle settling) [];
        } }
    {
        self.used = put_settled(&mut self.room, channel, settling.first, settling.last);
        self.long = None;
        self.chosen = Some(UpUnit::OnSession(channel, SessionUnit::Settle(settling)));
    }

    /// A detach is offered.
    #[tactic(auto, using(crate::proofs::Rooms::written))]
    fn detach(&mut self, channel: u16, link: u32, handle: u32, why: Option<Condition>)
        ensures { self.new ≡ record {
          chosen = Some (up.OnSession channel (on_session.Detach link handle why));
          bytes = spell_on channel (on_session.Detach link handle why) [];
        } }
    {
        self.used = put_end(&mut self.room, channel, Ending::Detach(handle), why);
        self.long = None;
        let unit = SessionUnit::Detach(link, handle, why);
        self.chosen = Some(UpUnit::OnSession(channel, unit));
    }

    /// A unit of a session's links is offered, which carries this of the client's. Settled
    /// dispositions and detaches take no memory; without it for others all is as it was.
    pub fn choose_on(
        &mut self,
        alloc: Global,
        channel: u16,
        unit: SessionUnit,
        carried: Pieces<'_>,
    ) -> Result<(), Memory>
        ensures ok { OnOk result (self.new ≡ record {
          chosen = Some (up.OnSession channel unit);
          bytes = spell_on channel unit (joined carried.entry);
        }) }
        ensures err { OnErr result (self.new ≡ self.old) }
        ensures takes { OnErr result (takes_memory_on unit ≡ true) }
    {
        let chosen = UpUnit::OnSession(channel, unit);
        match unit {
            SessionUnit::Attach(attach) => {
                self.hold(chosen, attach_frame(alloc, channel, attach, carried)?);
            }
            SessionUnit::Flow(flow) => self.hold(chosen, flow_frame(alloc, channel, flow)?),
            SessionUnit::Transfer(transfer) => {
                self.hold(chosen, transfer_frame(alloc, channel, transfer, carried)?);
            }
            SessionUnit::Dispose(next) => self.dispose(channel, next),
            SessionUnit::Settle(settling) => self.settle(channel, settling),
            SessionUnit::Detach(link, handle, why) => self.detach(channel, link, handle, why),
        }
        Ok(())
    }
}
