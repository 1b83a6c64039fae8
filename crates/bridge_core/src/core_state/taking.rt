//! The units of the client that are taken up.

ghost use Rattle.std.specs.Prelude.{◌≡◌, ◌<◌, ◌+◌, ◌-◌, ◌^◌, true, false, OnOk, OnErr, IfOk};
ghost use Rattle.std.specs.Prelude.{◌&&◌, ◌||◌, not};
ghost use Rattle.std.specs.Prelude.{None, box_value, is_some, Err, IfErr, Ok};
ghost use Rattle.machine_091.specs.declared.unit.Want91.TheVariants as want;
ghost use Rattle.session_path.specs.Path as session;
ghost use Rattle.session_path.specs.Path.{published};
ghost use Rattle.gate_model.specs.Lives.{freed_life, life_at, lives_by, with_life};
ghost use Rattle.gate_model.specs.Paths.{set_path, with_path};
ghost use Rattle.gate_model.specs.State.{OutOfMemory, came, condition_by, is_close_want};
ghost use Rattle.gate_model.specs.State.{keep_login, lives_opened, met, next_unit, path_by, paths_by, step};
ghost use Rattle.gate_model.specs.State.{with_want};
ghost use Rattle.gate_model.specs.Upstream.{closing_with};
ghost use Rattle.bridge_core.specs.Going.{KeepsGoing};
ghost use Rattle.bridge_core.specs.Logins.{IsLoginWant};
ghost use Rattle.bridge_core.specs.Met.{IsLoginMet, applied, counted, is_answered, is_publish};
ghost use Rattle.bridge_core.specs.Met.{is_naming};
ghost use Rattle.bridge_core.specs.Met.{is_unmet, takes_memory_for, takes_memory_met};
ghost use Rattle.bridge_core.specs.Offers.{with_next};
ghost use Rattle.bridge_core.specs.PathChanges.{takes_memory_to, with_change};
ghost use Rattle.gate_model.specs.State.{refused_paths, settle_by};
ghost use Rattle.session_path.specs.Path.{PathState};
ghost use Rattle.std.specs.Prelude.{IfSome};

use super::{Core, is_foreign};
use crate::lives::{asked_life, closed_life, failed_life, freed_life};
use crate::moments::{closes_at, fed_by};
use crate::paths::{Consume, PathChange};
use crate::replies::reason_of;
use crate::requests::{Met, meet};
use close_translate::{Scope, condition_of};
use consume_path::Settle;
use machine_091::{Refusal, Unit91, Want91, connection_laws};
use methods_091::Method91;
use open_items::Frames;
use performatives_10::Condition;
use property_map::Told;
use publish_path::Payload;
use session_path::{PathOk, SessionPath};
use std::alloc::Global;
use wire_base::{ByteText, Memory};

/// Lets go of a method, once it is met.
fn release_method(method: Method91) {
    drop(method);
}

/// A value and what a step gave. Where that failed the value is dropped by one call: dropped in
/// place, its fields would each be a branch of the caller's proof.
fn both<A: Drop, B, E>(first: A, second: Result<B, E>) -> Result<(A, B), E>
    ensures ok { IfOk result (λ x. (x.0 ≡ first) × (second ≡ Ok x.1)) }
    ensures err { IfErr result (λ e. second ≡ Err e) }
{
    match second {
        Ok(second) => Ok((first, second)),
        Err(error) => Err(error),
    }
}

/// What a reject or a nack makes of deliveries.
fn settle_by(requeue: bool) -> Settle
    ensures { result ≡ settle_by requeue }
{
    if requeue {
        Settle::Released
    } else {
        Settle::Rejected
    }
}

/// The error of the gateway's close to the container, where what a unit wants is the closing event.
fn condition_by(want: &Want91) -> Option<Condition>
    ensures { result ≡ condition_by want.now }
{
    match want {
        Want91::Refuse(refusal) => match refusal.scope {
            Scope::Connection => Some(condition_of(refusal.code)),
            Scope::Channel => None,
        },
        _ => None,
    }
}

/// A method whose names are kept.
fn is_naming(method: &Method91) -> bool
    ensures { result ≡ is_naming method.now }
{
    matches!(
        method,
        Method91::QueueDeclare { .. }
            | Method91::BasicConsume { .. }
            | Method91::BasicGet { .. }
            | Method91::BasicCancel { .. }
    )
}

/// What a method of a channel changes of its path, of which no name is kept.
fn change_by(method: &Method91) -> Option<PathChange>
    requires { is_naming method.now ≡ false }
    ensures path { (s : PathState) → with_change result s ≡ path_by method.now s }
    ensures takes { IfSome result (λ c. takes_memory_to c ≡ is_answered method.now) }
{
    match method {
        Method91::ChannelFlow { .. } => Some(PathChange::Owed(PathOk::Flow)),
        Method91::ExchangeDeclare { no_wait, .. } => {
            if *no_wait {
                None
            } else {
                Some(PathChange::Owed(PathOk::Declare))
            }
        }
        Method91::ConfirmSelect { no_wait } => Some(PathChange::Selected(*no_wait)),
        Method91::BasicQos {
            prefetch_count,
            global,
            ..
        } => Some(PathChange::Owed(PathOk::Qos {
            count: *prefetch_count,
            global: *global,
        })),
        Method91::BasicAck {
            delivery_tag,
            multiple,
        } => Some(PathChange::Answered(*delivery_tag, *multiple, Settle::Accepted)),
        Method91::BasicReject {
            delivery_tag,
            requeue,
        } => Some(PathChange::Answered(*delivery_tag, false, settle_by(*requeue))),
        Method91::BasicNack {
            delivery_tag,
            multiple,
            requeue,
        } => Some(PathChange::Answered(*delivery_tag, *multiple, settle_by(*requeue))),
        Method91::BasicRecover { .. } => Some(PathChange::Recovered),
        Method91::BasicRecoverAsync { .. } => {
            Some(PathChange::Answered(0, true, Settle::Released))
        }
        Method91::ChannelClose { .. } => Some(PathChange::Closed),
        _ => None,
    }
}

impl Core {
    /// A channel is opened, with this path.
    fn open_path(&mut self, channel: u16, path: Box<SessionPath>)
        requires path { box_value path ≡ session.opened (self.old.opened + 1) }
        requires room { self.old.opened < 2 ^ 64 - 1 }
        ensures { self.new ≡ record self.old {
          paths = set_path channel (session.opened (self.old.opened + 1)) self.old.paths;
          opened = self.old.opened + 1;
        } }
    {
        self.paths.set(channel, path);
        self.opened += 1;
        self.spare = None;
    }

    /// What a method of a channel makes of its path, which is no channel.open. Without memory for
    /// it all is as it was.
    fn change_path(&mut self, alloc: Global, channel: u16, method: &Method91) -> Result<(), Memory>
        ensures ok { OnOk result (self.new ≡ record self.old {
          paths = with_path channel (path_by method.now) self.old.paths;
        }) }
        ensures err { OnErr result (self.new ≡ self.old) }
        ensures takes { OnErr result (is_answered method.now ≡ true) }
    {
        if is_naming(method) {
            return self.name_path(alloc, channel, method);
        }
        match change_by(method) {
            None => Ok(()),
            Some(change) => self.paths.change(channel, change),
        }
    }

    /// What a method whose names are kept makes of the path of its channel. Without memory for it
    /// all is as it was.
    fn name_path(&mut self, alloc: Global, channel: u16, method: &Method91) -> Result<(), Memory>
        requires { is_naming method.now ≡ true }
        ensures ok { OnOk result (self.new ≡ record self.old {
          paths = with_path channel (path_by method.now) self.old.paths;
        }) }
        ensures err { OnErr result (self.new ≡ self.old) }
    {
        match method {
            Method91::QueueDeclare { queue, no_wait, .. } => {
                let queue = queue.copy(alloc)?;
                self.paths.declare(channel, queue, *no_wait)
            }
            Method91::BasicConsume {
                queue,
                consumer_tag,
                no_ack,
                no_wait,
                ..
            } => {
                let consume = Consume {
                    queue: queue.copy(alloc)?,
                    tag: consumer_tag.copy(alloc)?,
                    no_ack: *no_ack,
                    no_wait: *no_wait,
                };
                self.paths.consume(channel, consume)
            }
            Method91::BasicGet { queue, no_ack } => {
                let queue = queue.copy(alloc)?;
                self.paths.get(channel, queue, *no_ack)
            }
            Method91::BasicCancel {
                consumer_tag,
                no_wait,
            } => {
                let tag = consumer_tag.copy(alloc)?;
                self.paths.cancel(channel, tag, *no_wait)
            }
            _ => Ok(()),
        }
    }

    /// A refusal is the closing event of its channel, or of all.
    fn close_refused(&mut self, refusal: Refusal)
        ensures { self.new ≡ record self.old { paths = refused_paths refusal self.old.paths } }
    {
        match refusal.scope {
            Scope::Channel => self.paths.close(refusal.channel),
            Scope::Connection => self.paths.close_all(),
        }
    }

    /// What a unit that is no publish makes of the paths of channels. Without memory for it all is
    /// as it was.
    fn meet_path(
        &mut self,
        alloc: Global,
        want: &Want91,
        spare: Box<SessionPath>,
    ) -> Result<(), Memory>
        requires spare { box_value spare ≡ session.opened (self.old.opened + 1) }
        requires room { self.old.opened < 2 ^ 64 - 1 }
        requires want { is_publish want.now ≡ false }
        ensures ok { OnOk result (self.new ≡ record self.old {
          paths = paths_by self.old.routes self.old.conn.limits.frame_max self.old.opened want.now
              self.old.paths;
          opened = self.old.opened + lives_opened want.now;
        }) }
        ensures err { OnErr result (self.new ≡ self.old) }
        ensures takes { OnErr result (takes_memory_for want.now ≡ true) }
    {
        match want {
            Want91::Method(channel, Method91::ChannelOpen) => {
                self.open_path(*channel, spare);
                Ok(())
            }
            Want91::Method(channel, method) => {
                self.change_path(alloc, *channel, method)?;
                self.spare = Some(spare);
                Ok(())
            }
            Want91::Close => {
                self.paths.close_all();
                self.spare = Some(spare);
                Ok(())
            }
            Want91::Refuse(refusal) => {
                self.close_refused(*refusal);
                self.spare = Some(spare);
                Ok(())
            }
            _ => {
                self.spare = Some(spare);
                Ok(())
            }
        }
    }

    /// A method of a channel changes what is due there.
    #[tactic(auto, using(crate::proofs::Flows::same_life))]
    fn meet_method(&mut self, channel: u16, method: &Method91)
        ensures { self.new ≡ record self.old {
          lives = lives_by self.old.moment None (want.Method channel method.now) self.old.lives;
        } }
    {
        let life = self.lives.at(channel);
        match method {
            Method91::ChannelOpen => self.lives.set(channel, asked_life(life)),
            Method91::ChannelClose { .. } => {
                self.lives.set(channel, closed_life(life, self.moment));
            }
            _ => {}
        }
    }

    /// The client answered the gateway's channel.close.
    fn free(&mut self, channel: u16)
        ensures { self.new ≡ record self.old {
          lives = with_life channel (freed_life (life_at self.old.lives channel)) self.old.lives;
        } }
    {
        let life = self.lives.at(channel);
        self.lives.set(channel, freed_life(life));
    }

    /// A refusal closes the connection or a channel, and that is told, of a publish with this.
    fn meet_refusal(&mut self, told: Option<Told>, refusal: Refusal)
        ensures { self.new ≡ record self.old {
          pending = with_want (want.Refuse refusal) self.old.pending;
          lives = lives_by self.old.moment told (want.Refuse refusal) self.old.lives;
        } }
    {
        match refusal.scope {
            Scope::Connection => self.pending.close = Some(refusal),
            Scope::Channel => {
                let channel = refusal.channel;
                let reason = reason_of(refusal, told);
                let why = Some(condition_of(refusal.code));
                let life = failed_life(self.lives.at(channel), false, self.moment, reason, why);
                self.lives.set(channel, life);
            }
        }
    }

    /// What a unit of the client wants is met, but for the error of the gateway's close to the
    /// container, and this is told of a publish that is refused. `closing` says that the connection
    /// closed before it.
    fn meet_want(&mut self, alloc: Global, closing: bool, told: Option<Told>, want: Want91)
        requires login { IsLoginWant want }
        ensures { self.new ≡ record self.old {
          pending = with_want want self.old.pending;
          lives = lives_by self.old.moment told want self.old.lives;
          up = keep_login want self.old.up;
          client_closed = self.old.client_closed || (not closing && is_close_want want);
        } }
    {
        match want {
            Want91::Nothing | Want91::Tuned | Want91::OpenUp | Want91::CloseOk => {}
            Want91::Start => self.pending.start = true,
            Want91::Login(mechanism, response) => {
                self.pending.tune = true;
                self.up.log_in(alloc, mechanism, response);
            }
            Want91::Method(channel, method) => {
                self.meet_method(channel, &method);
                release_method(method);
            }
            Want91::ChannelCloseOk(channel) => self.free(channel),
            Want91::Close => {
                self.pending.close_ok = true;
                self.pending.close = None;
                self.client_closed |= !closing;
            }
            // a publish is met apart
            Want91::Publish(_, method, content) => {
                drop(content);
                release_method(method);
            }
            Want91::Refuse(refusal) => self.meet_refusal(told, refusal),
        }
    }

    /// What a unit of the client wants is met, all of it.
    fn meet(&mut self, alloc: Global, closing: bool, told: Option<Told>, want: Want91)
        requires login { IsLoginWant want }
        ensures { self.new ≡ record (met closing told want self.old) {
          paths = self.old.paths;
          opened = self.old.opened;
        } }
    {
        let condition = condition_by(&want);
        self.meet_want(alloc, closing, told, want);
        self.up.set_condition(closing, condition);
    }

    /// A publish was taken up. Without memory for it all is as it was.
    fn publish(
        &mut self,
        closing: bool,
        channel: u16,
        address: ByteText,
        payload: Payload,
        back: Frames,
    ) -> Result<(), Memory>
        ensures ok { OnOk result (self.new ≡ record self.old {
          paths = with_path channel (published address payload back) self.old.paths;
          up = closing_with closing None self.old.up;
        }) }
        ensures err { OnErr result (self.new ≡ self.old) }
    {
        self.paths.publish(channel, address, payload, back)?;
        self.up.set_condition(closing, None);
        Ok(())
    }

    /// What becomes of what a unit wants. `closing` says that the connection closed before it.
    /// Without memory for it only the connection may have changed.
    fn apply(
        &mut self,
        alloc: Global,
        closing: bool,
        met: Met,
        spare: Box<SessionPath>,
    ) -> Result<(), Memory>
        requires spare { box_value spare ≡ session.opened (self.old.opened + 1) }
        requires room { self.old.opened < 2 ^ 64 - 1 }
        requires login { IsLoginMet met }
        requires publish { is_unmet met ≡ false }
        ensures ok { OnOk result (self.new ≡ applied closing met self.old) }
        ensures err { OnErr result (self.new ≡ self.old) }
        ensures takes { OnErr result (takes_memory_met met ≡ true) }
    {
        match met {
            Met::Publish(channel, address, payload, back) => {
                self.publish(closing, channel, address, payload, back)?;
                self.spare = Some(spare);
                Ok(())
            }
            Met::Want(want, told) => {
                let met = self.meet_path(alloc, &want, spare);
                let (want, _) = both(want, met)?;
                self.meet(alloc, closing, told, want);
                Ok(())
            }
        }
    }

    /// What is due once a unit was met, and the moments that count. `foreign` says that the first
    /// bytes had turned out to be no protocol header before it.
    fn count(&mut self, foreign: bool)
        ensures { self.new ≡ counted foreign self.old }
    {
        let turns = is_foreign(&self.conn) && !foreign;
        self.pending.protocol |= turns;
        self.fed_at = fed_by(self.is_held(), self.moment, self.fed_at);
        self.closed_at = closes_at(self.closed_at, self.conn.is_closing(), self.moment);
    }

    /// A unit that wants nothing, as a heartbeat or a part of a content, changes what counts of each.
    fn pass(&mut self, closing: bool, foreign: bool, spare: Box<SessionPath>)
        requires spare { box_value spare ≡ session.opened (self.old.opened + 1) }
        requires room { self.old.opened < 2 ^ 64 - 1 }
        ensures { self.new ≡ counted foreign (record self.old {
          up = closing_with closing None self.old.up;
        }) }
    {
        self.up.set_condition(closing, None);
        self.spare = Some(spare);
        self.count(foreign);
    }

    /// This unit, which waits no more, is taken up. Where there is no memory for it the pair is to
    /// run out of memory.
    fn come(&mut self, alloc: Global, unit: Unit91, spare: Box<SessionPath>) -> Result<(), Memory>
        requires spare { box_value spare ≡ session.opened (self.old.opened + 1) }
        requires room { self.old.opened < 2 ^ 64 - 1 }
        ensures ok { OnOk result (self.new ≡ came self.old unit) }
        ensures err { OnErr result (step self.new OutOfMemory ≡ step self.old OutOfMemory) }
        ensures calm { self.new.out_of_memory ≡ self.old.out_of_memory }
        ensures kept { KeepsGoing self.old self.new }
    {
        connection_laws();
        let foreign = is_foreign(&self.conn);
        let closing = self.conn.is_closing();
        match self.conn.take(alloc, unit) {
            // what is wanted is large, so it isn't handed on where it is nothing
            Ok(Want91::Nothing) => {
                self.pass(closing, foreign, spare);
                Ok(())
            }
            Ok(want) => {
                let met = meet(alloc, &self.routes, &self.paths, &mut self.conn, want)?;
                self.apply(alloc, closing, met, spare)?;
                self.count(foreign);
                Ok(())
            }
            Err(error) => Err(error),
        }
    }

    /// The path of the channel that is opened next. `Memory` also once 2^64 - 1 channels were
    /// opened.
    fn spare_path(&mut self, alloc: Global) -> Result<Box<SessionPath>, Memory>
        ensures path { IfOk result (λ path. box_value path ≡ session.opened (self.old.opened + 1)) }
        ensures room { OnOk result (self.old.opened < 2 ^ 64 - 1) }
        ensures kept { self.new ≡ self.old }
    {
        if let Some(path) = self.spare.take() {
            return Ok(path);
        }
        if self.opened == u64::MAX {
            return Err(Memory);
        }
        let path = SessionPath::new(alloc, self.opened + 1)?;
        match Box::new(alloc, path) {
            Ok(path) => Ok(path),
            Err(_) => Err(Memory),
        }
    }

    /// The first unit that can be taken up is taken up, if there is one. Without memory for it the
    /// pair is to run out of memory.
    pub fn take_next(&mut self, alloc: Global) -> Result<bool, Memory>
        requires { self.old.out_of_memory ≡ false }
        ensures some { IfOk result (λ yes. yes ≡ is_some (next_unit self.old)) }
        ensures ok { OnOk result (self.new ≡ with_next (next_unit self.old) self.old) }
        ensures err { OnErr result (step self.new OutOfMemory ≡ step self.old OutOfMemory) }
        ensures calm { self.new.out_of_memory ≡ false }
        ensures kept { KeepsGoing self.old self.new }
    {
        self.look_on();
        match self.place() {
            None => Ok(false),
            Some(place) => {
                let spare = self.spare_path(alloc)?;
                let unit = self.queue.remove(place);
                self.come(alloc, unit, spare)?;
                Ok(true)
            }
        }
    }
}
