//! The bytes of a unit to the client, in a room that is kept for them.

ghost use Rattle.std.specs.Prelude.{◌≡◌, ◌<◌, ◌≤◌, length, [], Some, None, OnOk, OnErr, true};
ghost use Rattle.std.specs.Prelude.{false, IfOk};
ghost use Rattle.gate_model.specs.Due.{is_long_ok, takes_memory_back};
ghost use Rattle.gate_model.specs.Spelling.{ok_method, spell_reply};
ghost use Rattle.gate_model.specs.declared.channel.ChannelUnit.TheVariants as unit;
ghost use Rattle.gate_model.specs.declared.reply.Reply.TheVariants as reply;
ghost use Rattle.frames_091.specs.declared.frame.Kind91.TheVariants.{Method};
ghost use Rattle.gate_model.specs.Returns.{frame_with};
ghost use Rattle.methods_091.specs.Writing.{CanPut, method_text};
ghost use Rattle.bridge_core.specs.PathChanges.{is_deliver_reply};
ghost use Rattle.bridge_core.specs.Offers.{SlotState};

use crate::frames::{self, ROOM};
use crate::returns::frame_with;
use frames_091::Kind91;
use gate_model::{ChannelUnit, Reply, units_are_short};
use machine_091::FRAME_MAX;
use methods_091::{Method91, put_method};
use session_path::PathOk;
use std::alloc::Global;
use std::marker::Model;
use wire_base::{ByteText, Memory};

/// The bytes of a short string, at most (AMQP 0-9-1 4.2.5.3).
const SHORT_MAX: usize = 255;

/// An answer that takes memory: one of the classes basic and queue.
fn is_long_ok(ok: PathOk) -> bool
    ensures { result ≡ is_long_ok ok }
{
    match ok {
        PathOk::Flow | PathOk::Declare | PathOk::Select => false,
        PathOk::Consume(_)
        | PathOk::Qos { .. }
        | PathOk::Cancel
        | PathOk::Queue
        | PathOk::Get
        | PathOk::Empty(_)
        | PathOk::Recover => true,
    }
}

/// A name. `Memory` also if it is longer than a short string.
fn short_name(alloc: Global, name: &[u8]) -> Result<ByteText, Memory>
    ensures name { IfOk result (λ own. own ≡ name.now) }
    ensures short { IfOk result (λ own. length own ≤ 255) }
{
    if name.len() > SHORT_MAX {
        return Err(Memory);
    }
    ByteText::copy_of(alloc, name)
}

/// The method of such an answer, with the name that it gives, where it gives one. `Memory` also if
/// that is longer than a short string.
fn long_ok(alloc: Global, ok: PathOk, name: &[u8]) -> Result<Method91, Memory>
    requires { is_long_ok ok ≡ true }
    ensures method { IfOk result (λ method. method ≡ ok_method ok name.now) }
    ensures short { IfOk result CanPut }
{
    Ok(match ok {
        PathOk::Consume(_) => Method91::BasicConsumeOk {
            consumer_tag: short_name(alloc, name)?,
        },
        PathOk::Cancel => Method91::BasicCancelOk {
            consumer_tag: short_name(alloc, name)?,
        },
        PathOk::Queue => Method91::QueueDeclareOk {
            queue: short_name(alloc, name)?,
            message_count: 0,
            consumer_count: 0,
        },
        PathOk::Get => Method91::BasicGetOk {
            delivery_tag: 0,
            redelivered: false,
            exchange: ByteText::empty(alloc),
            routing_key: ByteText::empty(alloc),
            message_count: 0,
        },
        PathOk::Empty(_) => Method91::BasicGetEmpty,
        PathOk::Qos { .. } => Method91::BasicQosOk,
        PathOk::Recover => Method91::BasicRecoverOk,
        PathOk::Flow | PathOk::Declare | PathOk::Select => unreachable!(),
    })
}

/// What is offered to the client, and the bytes of it or of the unit in progress. Those of a frame
/// of a return or of a content, of a deliver and of an answer of the classes basic and queue stand
/// in `long`, all others in `room`.
#[derive(Drop)]
pub struct Slot {
    chosen: Option<Reply>,
    room: [u8; ROOM],
    used: usize,
    long: Option<ByteText>,
}

impl Model for Slot {
    ghost use Rattle.bridge_core.specs.declared.frames.TheConstants.{ROOM};
    ghost use Rattle.machine_091.specs.declared.limits.TheConstants.{FRAME_MAX};
    ghost use Rattle.std.specs.Prelude.{◌≡◌, ◌≤◌, IfSome, length, take};
    ghost use Rattle.bridge_core.specs.Offers.{SlotState, slot_bytes};

    ghost Value = { SlotState };

    ghost view = { λ a. record {
      chosen = a.chosen;
      bytes = slot_bytes a.long (take a.used a.room);
    } };

    // the room's length is said here, since a slot that is only read doesn't show it
    ghost invariant = { λ a. (a.used ≤ ROOM) × (length a.room ≡ ROOM)
        × IfSome a.long (λ text. length text ≤ FRAME_MAX) };
}

impl Slot {
    /// Nothing is offered, and no unit is in progress.
    pub fn new() -> Slot
        ensures { result ≡ record { chosen = None; bytes = [] } }
    {
        Slot {
            chosen: None,
            room: [0; ROOM],
            used: 0,
            long: None,
        }
    }

    /// The unit that is offered.
    pub fn chosen(&self) -> Option<Reply>
        ensures { result ≡ self.now.chosen }
    {
        self.chosen
    }

    /// The bytes of what is offered or in progress.
    #[tactic(auto, using(std::proofs::lemmas::List::take_at))]
    pub fn bytes(&self) -> &[u8]
        ensures bytes { result.now ≡ self.now.bytes }
        ensures small { length result.now ≤ FRAME_MAX }
    {
        let (bytes, _) = self.room.as_slice().split_at(self.used);
        match &self.long {
            Some(text) => text.as_slice(),
            None => bytes,
        }
    }

    /// Nothing is offered any more.
    pub fn take_back(&mut self)
        ensures { self.new ≡ record self.old { chosen = None } }
    {
        self.chosen = None;
    }

    /// A unit is offered that takes no memory.
    #[tactic(auto, using(crate::proofs::Rooms::written))]
    fn write(&mut self, unit: Reply)
        requires { takes_memory_back unit ≡ false }
        ensures slot { self.new ≡ record { chosen = Some unit; bytes = spell_reply unit [] } }
        ensures long { 0 < length self.new.bytes }
    {
        units_are_short();
        self.used = frames::spell_reply(&mut self.room, unit);
        self.long = None;
        self.chosen = Some(unit);
    }

    /// A unit is offered whose bytes are these. `Memory` if they are none, or longer than any
    /// client's frames are, as none of the gateway's is.
    fn hold(&mut self, unit: Reply, text: ByteText) -> Result<(), Memory>
        ensures ok { OnOk result (self.new ≡ record { chosen = Some unit; bytes = text }) }
        ensures long { OnOk result (0 < length self.new.bytes) }
        ensures err { OnErr result (self.new ≡ self.old) }
    {
        let len = text.as_slice().len();
        if len == 0 || len > FRAME_MAX as usize {
            return Err(Memory);
        }
        self.long = Some(text);
        self.chosen = Some(unit);
        Ok(())
    }

    /// A method on a channel is offered as this unit. `Memory` also if it is longer than any
    /// client's frames are, as none of the gateway's is; then all is as it was.
    pub fn say(
        &mut self,
        alloc: Global,
        channel: u16,
        unit: ChannelUnit,
        method: Method91,
    ) -> Result<(), Memory>
        requires { CanPut method }
        ensures ok { OnOk result (self.new ≡ record {
          chosen = Some (reply.OnChannel channel unit);
          bytes = frame_with Method channel (method_text method);
        }) }
        ensures long { OnOk result (0 < length self.new.bytes) }
        ensures err { OnErr result (self.new ≡ self.old) }
    {
        let mut payload = ByteText::empty(alloc);
        put_method(&mut payload, &method)?;
        drop(method);
        if payload.as_slice().len() > FRAME_MAX as usize {
            return Err(Memory);
        }
        let frame = frame_with(alloc, Kind91::Method, channel, payload)?;
        self.hold(Reply::OnChannel(channel, unit), frame)
    }

    /// An answer of the class basic or queue is offered, with this name, where it gives one.
    /// `Memory` also if that is longer than a short string, as none of a client's is.
    fn say_ok(&mut self, alloc: Global, channel: u16, ok: PathOk, name: &[u8]) -> Result<(), Memory>
        requires { is_long_ok ok ≡ true }
        ensures ok { OnOk result (self.new ≡ record {
          chosen = Some (reply.OnChannel channel (unit.Ok ok));
          bytes = frame_with Method channel (method_text (ok_method ok name.now));
        }) }
        ensures long { OnOk result (0 < length self.new.bytes) }
        ensures err { OnErr result (self.new ≡ self.old) }
    {
        let method = long_ok(alloc, ok, name)?;
        self.say(alloc, channel, ChannelUnit::Ok(ok), method)
    }

    /// A unit is offered that is no deliver, which carries this. Only frames of returns and of
    /// contents and answers of the classes basic and queue take memory; without it all is as it
    /// was.
    pub fn choose(&mut self, alloc: Global, unit: Reply, carried: &[u8]) -> Result<(), Memory>
        requires { is_deliver_reply unit ≡ false }
        ensures ok { OnOk result (self.new ≡ record {
          chosen = Some unit;
          bytes = spell_reply unit carried.now;
        }) }
        ensures long { OnOk result (0 < length self.new.bytes) }
        ensures err { OnErr result (self.new ≡ self.old) }
        ensures takes { OnErr result (takes_memory_back unit ≡ true) }
    {
        match unit {
            Reply::OnChannel(_, ChannelUnit::Return(_))
            | Reply::OnChannel(_, ChannelUnit::Content(_)) => {
                self.hold(unit, ByteText::copy_of(alloc, carried)?)
            }
            Reply::OnChannel(channel, ChannelUnit::Ok(ok)) if is_long_ok(ok) => {
                self.say_ok(alloc, channel, ok, carried)
            }
            unit => {
                self.write(unit);
                Ok(())
            }
        }
    }
}
