//! A pair's bridge: its state, and the unit that is offered to each end.

ghost use Rattle.std.specs.Prelude.{◌≡◌, ◌<◌, ◌≤◌, true, false, length, OnOk, OnErr, IfOk};
ghost use Rattle.std.specs.Prelude.{IfSome, IsSome, Some, is_some};
ghost use Rattle.gate_outside.specs.declared.ports.End.TheVariants.{Client, Up};
ghost use Rattle.gate_model.specs.State.{Moment, Fed, Silent, Queued, TakenUp, Heard, Joined};
ghost use Rattle.gate_model.specs.State.{LinesTold, Lost, Gave};
ghost use Rattle.gate_model.specs.State.{Whole, OutOfMemory, new_state, next_unit, waits};
ghost use Rattle.gate_model.specs.Due.{can_leave, can_take_up, is_awaiting, is_busy};
ghost use Rattle.gate_model.specs.Due.{is_connect_due, is_end_out, is_shut_due, is_silent, pick};
ghost use Rattle.gate_model.specs.Due.{carries, carries_back, carries_up, takes_memory};
ghost use Rattle.gate_model.specs.Due.{takes_memory_back, takes_memory_up};
ghost use Rattle.gate_model.specs.Spelling.{context_of, lines_text, spell_reply, spell_up};
ghost use Rattle.gate_model.specs.State.{owed_lines};
ghost use Rattle.gate_outside.specs.Counts.{Rose};
ghost use Rattle.gate_outside.specs.Streams.{Appends, AppendsFront};
ghost use Rattle.gate_relay.specs.Entries.{is_empty};
ghost use Rattle.std.specs.Bool.{OnFalse, OnTrue};
ghost use Rattle.gate_model.specs.Upstream.{awaited_of};
ghost use Rattle.machine_091.specs.Limits.{AreWithin};
ghost use Rattle.machine_091.specs.State.{awaits};
ghost use Rattle.bridge_core.specs.Offers.{BridgeState, FindsBytes, IsOffer, IsUpOffer, Keeps};
ghost use Rattle.bridge_core.specs.Offers.{advanced};
ghost use Rattle.bridge_core.specs.Offers.{bytes_of, moved};
ghost use Rattle.bridge_core.specs.Offers.{client_bytes, offer_of, peeked, stale};
ghost use Rattle.bridge_core.specs.PathChanges.{MayGo};

use crate::core_state::Core;
use crate::slot::Slot;
use crate::up_slot::UpSlot;
use gate_model::{ChannelUnit, Outgoing, Reply, Setup, Site, UpUnit};
use gate_outside::{End, Linked, Sink};
use gate_relay::Loss;
use machine_10::{Awaited10, Unit10};
use machine_091::{Awaited91, Unit91};
use std::alloc::Global;
use std::marker::Model;
use wire_base::Memory;

/// The bridge of a pair. Each call that changes its state is a step, and takes back what was
/// offered.
#[derive(Drop)]
pub struct Bridge {
    client: Slot,
    up: UpSlot,
    state: Core,
}

impl Model for Bridge {
    ghost use Rattle.std.specs.Prelude.{is_some};
    ghost use Rattle.bridge_core.specs.Offers.{BridgeState, IsOffer, IsUpOffer};

    ghost Value = { BridgeState };

    ghost use Rattle.tables_091.specs.TreeCode.{tree_code};
    ghost use Rattle.std.specs.Coded.{codes};

    ghost coded = { Prim.hlevel (codes, tree_code) };

    ghost view = { λ a. record {
      state = a.state;
      client = record { ready = is_some a.client.chosen; bytes = a.client.bytes };
      up = record { ready = is_some a.up.chosen; bytes = a.up.bytes };
    } };

    ghost invariant = { λ a. IsOffer a.state a.client × IsUpOffer a.state a.up };
}

/// Looks for what goes next to the client. Where nothing does, the bytes stay; without memory all is
/// as it was.
fn look(state: &Core, slot: &mut Slot, alloc: Global) -> Result<bool, Memory>
    ensures some { IfOk result (λ yes. yes ≡ is_some (pick state.now Client)) }
    ensures offer { OnOk result (IsOffer state.now slot.new) }
    ensures chosen { OnOk result (is_some slot.new.chosen ≡ is_some (pick state.now Client)) }
    ensures bytes { OnOk result (slot.new.bytes
        ≡ client_bytes state.now (pick state.now Client) slot.old.bytes) }
    ensures long { IfOk result (λ yes. yes ≡ true → 0 < length slot.new.bytes) }
    ensures err { OnErr result (slot.new ≡ slot.old) }
    ensures takes { OnErr result (takes_memory (pick state.now Client) ≡ true) }
{
    match state.next_client() {
        None => {
            slot.take_back();
            Ok(false)
        }
        Some(unit) => {
            choose(state, slot, alloc, unit)?;
            Ok(true)
        }
    }
}

/// Offers a unit to the client; without memory all is as it was.
fn choose(state: &Core, slot: &mut Slot, alloc: Global, unit: Reply) -> Result<(), Memory>
    ensures ok { OnOk result (slot.new ≡ record {
      chosen = Some unit;
      bytes = spell_reply unit (carries_back state.now unit);
    }) }
    ensures long { OnOk result (0 < length slot.new.bytes) }
    ensures err { OnErr result (slot.new ≡ slot.old) }
    ensures takes { OnErr result (takes_memory_back unit ≡ true) }
{
    match unit {
        Reply::OnChannel(channel, ChannelUnit::Deliver(due)) => {
            let method = state.deliver(alloc, channel, due)?;
            slot.say(alloc, channel, ChannelUnit::Deliver(due), method)
        }
        unit => slot.choose(alloc, unit, state.carried_back(unit)),
    }
}

/// Offers a unit to the container; without memory all is as it was.
fn choose_up(
    state: &Core,
    slot: &mut UpSlot,
    alloc: Global,
    setup: &Setup,
    unit: UpUnit,
) -> Result<(), Memory>
    ensures ok { OnOk result (slot.new ≡ record {
      chosen = Some unit;
      bytes = spell_up (context_of setup.now state.now) unit (carries_up state.now unit);
    }) }
    ensures err { OnErr result (slot.new ≡ slot.old) }
    ensures takes { OnErr result (takes_memory_up unit ≡ true) }
{
    match unit {
        UpUnit::OnSession(channel, unit) => {
            slot.choose_on(alloc, channel, unit, state.carried(channel, unit))
        }
        unit => slot.choose(alloc, setup, state.number(), state.container(), unit),
    }
}

/// Looks for what goes next to the container. Where nothing does, the bytes stay; without memory
/// all is as it was.
fn look_up(state: &Core, slot: &mut UpSlot, alloc: Global, setup: &Setup) -> Result<bool, Memory>
    ensures some { IfOk result (λ yes. yes ≡ is_some (pick state.now Up)) }
    ensures offer { OnOk result (IsUpOffer state.now slot.new) }
    ensures chosen { OnOk result (is_some slot.new.chosen ≡ is_some (pick state.now Up)) }
    ensures bytes { OnOk result (slot.new.bytes ≡ bytes_of (context_of setup.now state.now)
        state.now (pick state.now Up) slot.old.bytes) }
    ensures err { OnErr result (slot.new ≡ slot.old) }
    ensures takes { OnErr result (takes_memory (pick state.now Up) ≡ true) }
{
    match state.next_up() {
        None => {
            slot.take_back();
            Ok(false)
        }
        Some(unit) => {
            choose_up(state, slot, alloc, setup, unit)?;
            Ok(true)
        }
    }
}

impl Bridge {
    /// The pair with this number, accepted at this moment in milliseconds. Its client may open and
    /// publish to this.
    pub fn new(alloc: Global, site: Site, number: u32, moment: u64) -> Bridge
        ensures state { result.state ≡ new_state site number moment }
        ensures client { result.client.ready ≡ false }
        ensures up { result.up.ready ≡ false }
    {
        Bridge {
            state: Core::new(alloc, site, number, moment),
            client: Slot::new(),
            up: UpSlot::new(),
        }
    }

    /// What was offered isn't any more.
    fn take_back(&mut self)
        ensures { self.new
            ≡ record self.old { client = stale self.old.client; up = stale self.old.up } }
    {
        self.client.take_back();
        self.up.take_back();
    }

    /// A moment was given.
    pub fn tell(&mut self, moment: u64)
        ensures step { self.new ≡ moved (Moment moment) self.old }
        ensures memory { self.new.state.out_of_memory ≡ self.old.state.out_of_memory }
        ensures kept { Keeps self.old self.new }
    {
        self.take_back();
        self.state.tell(moment);
    }

    /// Bytes of an end came.
    pub fn feed(&mut self, end: End)
        ensures step { self.new ≡ moved (Fed end) self.old }
        ensures memory { self.new.state.out_of_memory ≡ self.old.state.out_of_memory }
        ensures kept { Keeps self.old self.new }
    {
        self.take_back();
        self.state.feed(end);
    }

    /// An end is to be given up.
    pub fn is_silent(&self, end: End) -> bool
        ensures { result ≡ is_silent self.now.state end }
    {
        self.state.is_silent(end)
    }

    /// An end is given up.
    pub fn silence(&mut self, end: End)
        ensures step { self.new ≡ moved (Silent end) self.old }
        ensures memory { self.new.state.out_of_memory ≡ self.old.state.out_of_memory }
        ensures kept { Keeps self.old self.new }
    {
        self.take_back();
        self.state.silence(end);
    }

    /// A unit of the client waits to be taken up. If there is no memory for it, the pair ran out of
    /// memory before it.
    pub fn client_unit(&mut self, unit: Unit91) -> Result<(), Memory>
        requires { self.old.state.out_of_memory ≡ false }
        ensures ok { OnOk result (self.new ≡ moved (Queued unit) self.old) }
        ensures err { OnErr result (self.new ≡ moved OutOfMemory self.old) }
        ensures calm { OnOk result (self.new.state.out_of_memory ≡ false) }
        ensures met { OnErr result (self.new.state.out_of_memory ≡ true) }
        ensures kept { Keeps self.old self.new }
    {
        self.take_back();
        match self.state.client_unit(unit) {
            Ok(()) => Ok(()),
            Err(error) => {
                self.state.run_out();
                Err(error)
            }
        }
    }

    /// The first unit of the client that can be taken up is, if there is one. If there is no memory
    /// for it, the pair ran out of memory before it.
    pub fn take_next(&mut self, alloc: Global) -> Result<bool, Memory>
        requires { self.old.state.out_of_memory ≡ false }
        ensures some { IfOk result (λ yes. yes ≡ is_some (next_unit self.old.state)) }
        ensures ok { OnOk result (self.new ≡ advanced self.old) }
        ensures err { OnErr result (self.new ≡ moved OutOfMemory self.old) }
        ensures calm { OnOk result (self.new.state.out_of_memory ≡ false) }
        ensures met { OnErr result (self.new.state.out_of_memory ≡ true) }
        ensures kept { Keeps self.old self.new }
    {
        self.take_back();
        match self.state.take_next(alloc) {
            Ok(yes) => Ok(yes),
            Err(error) => {
                self.state.run_out();
                Err(error)
            }
        }
    }

    /// That the client's end ended or failed is taken up.
    pub fn take_up(&mut self)
        requires { self.old.state.out_of_memory ≡ false }
        ensures step { self.new ≡ moved TakenUp self.old }
        ensures calm { self.new.state.out_of_memory ≡ false }
        ensures kept { Keeps self.old self.new }
    {
        self.take_back();
        self.state.take_up();
    }

    /// A unit of the container came. If there is no memory for it, the pair ran out of memory
    /// before it.
    #[tactic(auto, using(crate::proofs::Calm::heard_calm))]
    pub fn up_unit(&mut self, alloc: Global, unit: &Unit10) -> Result<(), Memory>
        requires { self.old.state.out_of_memory ≡ false }
        ensures ok { OnOk result (self.new ≡ moved (Heard unit.now) self.old) }
        ensures err { OnErr result (self.new ≡ moved OutOfMemory self.old) }
        ensures calm { OnOk result (self.new.state.out_of_memory ≡ false) }
        ensures met { OnErr result (self.new.state.out_of_memory ≡ true) }
        ensures kept { Keeps self.old self.new }
    {
        self.take_back();
        match self.state.up_unit(alloc, unit) {
            Ok(()) => Ok(()),
            Err(error) => {
                self.state.run_out();
                Err(error)
            }
        }
    }

    /// The connection upstream was asked for.
    pub fn link(&mut self, answer: Linked)
        ensures step { self.new ≡ moved (Joined answer) self.old }
        ensures memory { self.new.state.out_of_memory ≡ self.old.state.out_of_memory }
        ensures kept { Keeps self.old self.new }
    {
        self.take_back();
        self.state.link(answer);
    }

    /// An end was lost.
    pub fn lose(&mut self, end: End, how: Loss)
        ensures step { self.new ≡ moved (Lost end how) self.old }
        ensures memory { self.new.state.out_of_memory ≡ self.old.state.out_of_memory }
        ensures kept { Keeps self.old self.new }
    {
        self.take_back();
        self.state.lose(end, how);
    }

    /// The lines that the report was owed were reported.
    pub fn lines_told(&mut self)
        ensures step { self.new ≡ moved LinesTold self.old }
        ensures memory { self.new.state.out_of_memory ≡ self.old.state.out_of_memory }
        ensures kept { Keeps self.old self.new }
    {
        self.take_back();
        self.state.lines_told();
    }

    /// The pair ran out of memory.
    pub fn run_out(&mut self)
        ensures step { self.new ≡ moved OutOfMemory self.old }
        ensures kept { Keeps self.old self.new }
    {
        self.take_back();
        self.state.run_out();
    }

    // ---- questions

    /// Whether the pair ran out of memory.
    pub fn is_out_of_memory(&self) -> bool
        ensures { result ≡ self.now.state.out_of_memory }
    {
        self.state.is_out_of_memory()
    }

    /// As what the client's next bytes are cut. A frame that is awaited has room for 4,096 bytes at
    /// least.
    pub fn awaits(&self) -> Awaited91
        ensures value { result ≡ awaits self.now.state.conn }
        ensures range { AreWithin self.now.state.conn.limits }
    {
        self.state.awaits()
    }

    /// As what the container's next bytes are cut.
    pub fn awaits_up(&self) -> Awaited10
        ensures { result ≡ awaited_of self.now.state.up.container }
    {
        self.state.awaits_up()
    }

    /// Bytes of an end are awaited.
    pub fn is_awaiting(&self, end: End) -> bool
        ensures { result ≡ is_awaiting self.now.state end }
    {
        self.state.is_awaiting(end)
    }

    /// A request of the client waits for the upstream end.
    pub fn waits(&self) -> bool
        ensures { result ≡ (waits self.now.state).some }
    {
        self.state.waits()
    }

    /// How many units of the client aren't taken up yet.
    pub fn queued(&self) -> usize
        ensures { result ≡ length self.now.state.queue }
    {
        self.state.queued()
    }

    /// The client's end ended or failed, and that isn't taken up yet.
    pub fn is_leaving(&self) -> bool
        ensures { result ≡ self.now.state.leaving }
    {
        self.state.is_leaving()
    }

    /// What the client sent can be taken up.
    pub fn can_take_up(&self) -> bool
        ensures { result ≡ can_take_up self.now.state }
    {
        self.state.can_take_up()
    }

    /// That the client's end ended or failed can be taken up.
    pub fn can_leave(&self) -> bool
        ensures { result ≡ can_leave self.now.state }
    {
        self.state.can_leave()
    }

    /// The connection upstream is to be asked for.
    pub fn is_connect_due(&self) -> bool
        ensures { result ≡ is_connect_due self.now.state }
    {
        self.state.is_connect_due()
    }

    /// An end is to be shut.
    pub fn is_shut_due(&self, end: End) -> bool
        ensures { result ≡ is_shut_due self.now.state end }
    {
        self.state.is_shut_due(end)
    }

    /// A unit to an end is between its first byte and its last.
    pub fn is_busy(&self, end: End) -> bool
        ensures { result ≡ is_busy self.now.state end }
    {
        self.state.is_busy(end)
    }

    /// Writes the lines that the report is owed. `false` comes only if the report's count of faults
    /// rose; a front part of the lines was then taken.
    pub fn tell_lines<K: Sink>(&self, report: &mut K) -> bool
        ensures later { K.faults report.old ≤ K.faults report.new }
        ensures cause { OnFalse result (Rose (K.faults report.old) (K.faults report.new)) }
        ensures whole { OnTrue result (Appends (K.held report.old) (K.held report.new)
            (lines_text self.now.state.number (owed_lines self.now.state))) }
        ensures some { OnFalse result (is_empty (lines_text self.now.state.number
            (owed_lines self.now.state)) ≡ false) }
        ensures part { OnFalse result (AppendsFront (K.held report.old) (K.held report.new)
            (lines_text self.now.state.number (owed_lines self.now.state))) }
    {
        self.state.tell_lines(report)
    }

    // ---- what goes

    /// Looks for what goes next to an end. What is found is offered, and its bytes are `bytes`.
    /// Without memory for them the pair ran out of memory, after the lines that the report was owed
    /// were reported. After that, and for what ends a connection, a look takes none.
    #[tactic(auto, using(crate::proofs::Calm::calm_pick, crate::proofs::Calm::calm_client))]
    pub fn peek(&mut self, alloc: Global, setup: &Setup, end: End) -> Result<bool, Memory>
        requires free { is_busy self.old.state end ≡ false }
        ensures some { IfOk result (λ yes. yes ≡ is_some (pick self.old.state end)) }
        ensures ok { OnOk result (self.new ≡ peeked setup.now end self.old) }
        ensures long { IfOk result (λ yes. FindsBytes end yes self.new) }
        ensures err { OnErr result (self.new ≡ moved OutOfMemory (moved LinesTold self.old)) }
        ensures calm { OnErr result (self.old.state.out_of_memory ≡ false) }
        ensures takes { OnErr result (takes_memory (pick self.old.state end) ≡ true) }
        ensures kept { OnErr result (Keeps self.old self.new) }
    {
        match end {
            End::Client => match look(&self.state, &mut self.client, alloc) {
                Ok(yes) => Ok(yes),
                Err(error) => {
                    self.lines_told();
                    self.run_out();
                    Err(error)
                }
            },
            End::Up => match look_up(&self.state, &mut self.up, alloc, setup) {
                Ok(yes) => Ok(yes),
                Err(error) => {
                    self.lines_told();
                    self.run_out();
                    Err(error)
                }
            },
        }
    }

    /// The bytes of the unit to an end that is offered or in progress.
    pub fn bytes(&self, end: End) -> &[u8]
        ensures bytes { result.now ≡ (offer_of end self.now).bytes }
        ensures small { length result.now ≤ 131072 }
    {
        match end {
            End::Client => self.client.bytes(),
            End::Up => self.up.bytes(),
        }
    }

    /// What is offered to the container is an end of a session.
    pub fn ends_session(&self) -> bool
        requires { self.now.up.ready ≡ true }
        ensures { result ≡ is_end_out (pick self.now.state Up) }
    {
        matches!(self.up.chosen(), Some(UpUnit::End(_, _)))
    }

    /// The first byte of the unit that is offered was sent.
    pub fn commit(&mut self, end: End)
        requires offered { (offer_of end self.old).ready ≡ true }
        ensures picked { IsSome (pick self.old.state end) }
        ensures step { IfSome (pick self.old.state end) (λ u. self.new
            ≡ moved (Gave u (carries self.old.state u)) self.old) }
    {
        match end {
            End::Client => match self.client.chosen() {
                Some(unit) => self.go(Outgoing::ToClient(unit)),
                None => unreachable!(),
            },
            End::Up => match self.up.chosen() {
                Some(unit) => self.go(Outgoing::ToUp(unit)),
                None => unreachable!(),
            },
        }
    }

    /// The first byte of this unit was sent.
    fn go(&mut self, unit: Outgoing)
        requires { MayGo self.old.state unit }
        ensures { self.new ≡ moved (Gave unit (carries self.old.state unit)) self.old }
    {
        self.take_back();
        self.state.begin(unit);
    }

    /// The last byte of the unit in progress was sent.
    pub fn wrote_all(&mut self, end: End)
        ensures { self.new ≡ moved (Whole end) self.old }
    {
        self.take_back();
        self.state.whole(end);
    }
}
