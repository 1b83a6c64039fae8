//! The state of a pair: its client's connection, its upstream end, what is due to the client, and
//! the moments that count.

ghost use Rattle.std.specs.Prelude.{◌≡◌, ◌<◌, ◌≤◌, ◌||◌, true, false, OnOk, OnErr};
ghost use Rattle.std.specs.Bool.{OnFalse, OnTrue};
ghost use Rattle.std.specs.Prelude.{IfSome, Some, None, [], is_some, length, slice_get, take};
ghost use Rattle.std.specs.List.{position_or_len};
ghost use Rattle.gate_outside.specs.declared.ports.End.TheVariants.{Client, Up};
ghost use Rattle.gate_model.specs.State.{Moment, Fed, Silent, Queued, TakenUp, Joined};
ghost use Rattle.gate_model.specs.State.{LinesTold, Lost, Whole, OutOfMemory, new_state, step};
ghost use Rattle.gate_model.specs.Lives.{life_at};
ghost use Rattle.gate_model.specs.State.{none_pending, is_foreign, closes_at, close_if};
ghost use Rattle.gate_model.specs.State.{is_limit_reached, has_left, last_pending};
ghost use Rattle.gate_model.specs.State.{with_last, fail, is_settled, lost_up};
ghost use Rattle.gate_model.specs.State.{close_waits, leaves_end, paths_lost};
ghost use Rattle.gate_model.specs.State.{opened, place, waits};
ghost use Rattle.gate_model.specs.State.{fed_by, is_held, left, owed_lines};
ghost use Rattle.gate_model.specs.Spelling.{lines_text};
ghost use Rattle.gate_outside.specs.Counts.{Rose};
ghost use Rattle.gate_outside.specs.Streams.{Appends, AppendsFront};
ghost use Rattle.gate_relay.specs.Entries.{is_empty};
ghost use Rattle.gate_model.specs.Due.{is_awaiting, is_busy, is_connect_due};
ghost use Rattle.gate_model.specs.Due.{can_leave};
ghost use Rattle.gate_model.specs.Due.{can_take_up};
ghost use Rattle.gate_model.specs.Due.{is_silent};
ghost use Rattle.gate_model.specs.Queue.{can_take, place_in};
ghost use Rattle.gate_model.specs.Upstream.{awaited_of, first};
ghost use Rattle.machine_091.specs.Limits.{AreWithin};
ghost use Rattle.machine_091.specs.Refusals.{refusal_with};
ghost use Rattle.machine_091.specs.State.{awaits, is_opening};
ghost use Rattle.bridge_core.specs.Going.{KeepsGoing};
ghost use Rattle.bridge_core.specs.Held.{AreHeld, FrontWaits, IsFree, NoneBefore, NoneOn};
ghost use Rattle.bridge_core.specs.Held.{is_counted_at};
ghost use Rattle.bridge_core.specs.declared.lives.TheConstants.{CHANNELS};
ghost use Rattle.bridge_core.specs.Logins.{IsLoginOf};

mod due;
mod going;
mod hearing;
mod shutting;
mod taking;

use crate::channel_rows::{any_waits, is_ended, is_waiting_on};
use crate::lives::{CHANNELS, Lives, is_clear};
use crate::moments::{closes_at, fed_by};
use crate::paths::Paths;
use crate::queue::{Queue, channel_of, waits_for_all};
use crate::replies::{last_pending, none_pending, refusal_with, with_last};
use crate::report::tell_lines;
use crate::up_core::UpCore;
use close_translate::{CONNECTION_FORCED, RESOURCE_ERROR, Scope, condition_of};
use gate_model::{HANDSHAKE_LIMIT, Pending, Reply, Routes, SILENCE_PER_SECOND, SentLast, Site};
use gate_outside::{End, Linked, Sink};
use gate_relay::{Loss, Side};
use machine_10::{Awaited10, Conn10};
use machine_091::{Awaited91, Conn91, Stream91, Unit91};
use performatives_10::Condition;
use session_path::SessionPath;
use std::alloc::Global;
use std::marker::Model;
use wire_base::Memory;

/// The state of a pair.
#[derive(Drop)]
pub struct Core {
    // A turn of an idle pair reads a little of most fields, and what it reads is seldom in the
    // processor's caches. So what it reads stands together, as far as the arrays allow.
    moment: u64,
    fed_at: u64,
    last_sent_at: u64,
    accepted_at: u64,
    closed_at: Option<u64>,
    client_closed: bool,
    late: bool,
    leaving: bool,
    failed: bool,
    given_up: bool,
    gone: bool,
    out_of_memory: bool,
    by_peer: bool,
    sent_last: SentLast,
    pending: Pending,
    in_progress: Option<Reply>,
    number: u32,
    routes: Routes,
    opened: u64,
    attached: u64,
    /// The path of the channel that is opened next.
    spare: Option<Box<SessionPath>>,
    queue: Queue,
    up: UpCore,
    conn: Conn91,
    paths: Paths,
    lives: Lives,
}

impl Model for Core {
    ghost use Rattle.std.specs.Prelude.{◌≡◌, ◌<◌, ◌+◌, ◌-◌, ◌^◌, IfSome, box_value};
    ghost use Rattle.gate_model.specs.State.{State};
    ghost use Rattle.session_path.specs.Path as session;

    ghost Value = { State };

    ghost use Rattle.tables_091.specs.TreeCode.{tree_code};
    ghost use Rattle.std.specs.Coded.{codes};

    ghost coded = { Prim.hlevel (codes, tree_code) };

    ghost view = { λ a. record {
      number = a.number;
      routes = a.routes;
      conn = a.conn;
      pending = a.pending;
      in_progress = a.in_progress;
      sent_last = a.sent_last;
      lives = a.lives;
      paths = a.paths;
      opened = a.opened;
      attached = a.attached;
      by_peer = a.by_peer;
      up = a.up;
      queue = a.queue;
      accepted_at = a.accepted_at;
      moment = a.moment;
      last_sent_at = a.last_sent_at;
      fed_at = a.fed_at;
      closed_at = a.closed_at;
      client_closed = a.client_closed;
      late = a.late;
      leaving = a.leaving;
      failed = a.failed;
      given_up = a.given_up;
      gone = a.gone;
      out_of_memory = a.out_of_memory;
    } };

    // it is that of the next life, which 64 bits count
    ghost invariant = { λ a. IfSome a.spare (λ p. (box_value p
        ≡ session.opened (a.opened + 1)) × (a.opened < 2 ^ 64 - 1)) };
}

/// The client's first bytes were no protocol header.
fn is_foreign(conn: &Conn91) -> bool
    ensures { result ≡ is_foreign conn.now.stream }
{
    matches!(conn.stream(), Stream91::Foreign)
}

/// The client's end ended, and that was taken up.
fn has_left(conn: &Conn91) -> bool
    ensures { result ≡ has_left conn.now.stream }
{
    matches!(conn.stream(), Stream91::Ended)
}

/// No connection.open came within the handshake limit.
fn is_limit_reached(conn: &Conn91, accepted_at: u64, moment: u64) -> bool
    ensures { result ≡ is_limit_reached conn.now accepted_at moment }
{
    !conn.is_asked() && HANDSHAKE_LIMIT <= moment.saturating_sub(accepted_at)
}

/// Closes the connection where this is so.
fn close_if(conn: &mut Conn91, closes: bool)
    ensures { conn.new ≡ close_if closes conn.old }
{
    if closes {
        conn.closing(Scope::Connection, 0);
    }
}

impl Core {
    /// The pair with this number was accepted at this moment, and its client may open and publish
    /// to this.
    pub fn new(alloc: Global, site: Site, number: u32, moment: u64) -> Core
        ensures { result ≡ new_state site number moment }
    {
        Core {
            number,
            routes: site.routes,
            conn: Conn91::new(site.vhost),
            pending: none_pending(),
            in_progress: None,
            sent_last: SentLast {
                protocol: false,
                close_ok: false,
                close: false,
            },
            lives: Lives::new(),
            paths: Paths::new(),
            opened: 0,
            attached: 0,
            by_peer: false,
            spare: None,
            up: UpCore::new(),
            queue: Queue::new(alloc),
            accepted_at: moment,
            moment,
            last_sent_at: moment,
            fed_at: moment,
            closed_at: None,
            client_closed: false,
            late: false,
            leaving: false,
            failed: false,
            given_up: false,
            gone: false,
            out_of_memory: false,
        }
    }

    /// A moment was given.
    pub fn tell(&mut self, moment: u64)
        ensures step { self.new ≡ step self.old (Moment moment) }
        ensures kept { KeepsGoing self.old self.new }
    {
        self.fed_at = fed_by(self.is_held(), moment, self.fed_at);
        let late = is_limit_reached(&self.conn, self.accepted_at, moment);
        close_if(&mut self.conn, late);
        self.paths.lines_told();
        self.moment = moment;
        self.closed_at = closes_at(self.closed_at, late, moment);
        self.late |= late;
    }

    /// A unit of the client waits to be taken up. Where there is no memory for it all is as it was.
    pub fn client_unit(&mut self, unit: Unit91) -> Result<(), Memory>
        requires { self.old.out_of_memory ≡ false }
        ensures ok { OnOk result (self.new ≡ step self.old (Queued unit)) }
        ensures err { OnErr result (self.new ≡ self.old) }
        ensures kept { KeepsGoing self.old self.new }
    {
        self.queue.push(unit)
    }

    /// The unit at this place can be taken up, while no connection.open waits; `held` says which
    /// channels the units before it hold.
    fn can_take(&self, place: usize, held: &[bool; CHANNELS]) -> bool
        requires running { is_opening self.now.conn ≡ false }
        requires within { place < length self.now.queue }
        requires held { AreHeld (take place self.now.queue) held.now }
        ensures { IfSome (slice_get self.now.queue place) (λ u. result
            ≡ can_take (waits self.now) (take place self.now.queue) u) }
    {
        match self.queue.get(place) {
            None => false,
            Some(unit) => {
                if waits_for_all(unit) {
                    place == 0 && !self.waits()
                } else {
                    let channel = channel_of(unit);
                    !self.waits_on(channel) && !self.queue.is_held(place, channel, held)
                }
            }
        }
    }

    /// The first unit can be taken up, while no connection.open waits.
    fn can_take_first(&self) -> bool
        requires { is_opening self.now.conn ≡ false }
        ensures { IfSome (slice_get self.now.queue 0) (λ u. result
            ≡ can_take (waits self.now) [] u) }
    {
        match self.queue.get(0) {
            None => false,
            Some(unit) => {
                if waits_for_all(unit) {
                    !self.waits()
                } else {
                    !self.waits_on(channel_of(unit))
                }
            }
        }
    }

    /// The place of a channel's first unit, where that waits neither for all before it nor for a
    /// request of the channel.
    fn first_on(&self, channel: u16) -> Option<usize>
        requires { channel < CHANNELS }
        ensures none { FrontWaits (waits self.now) self.now.queue → result ≡ None
            → NoneOn (waits self.now) self.now.queue channel (length self.now.queue) }
        ensures free { IfSome result (λ i. IfSome (slice_get self.now.queue i)
            (IsFree (waits self.now) self.now.queue channel i)) }
        ensures within { IfSome result (λ i. i < length self.now.queue) }
    {
        if !self.queue.has(channel) || self.waits_on(channel) {
            return None;
        }
        let place = self.queue.first(channel);
        match self.queue.get(place) {
            Some(unit) if !waits_for_all(unit) => Some(place),
            _ => None,
        }
    }

    /// The place of the first unit that can be taken up, while no connection.open waits and the
    /// first of all can't be: it is the first of its channel, and none of channel 0 stands before.
    fn first_of_channels(&self) -> Option<usize>
        requires running { is_opening self.now.conn ≡ false }
        requires front { FrontWaits (waits self.now) self.now.queue }
        ensures place { result ≡ place_in (waits self.now) self.now.queue }
        ensures within { IfSome result (λ i. i < length self.now.queue) }
    {
        let end = self.queue.first(0);
        let mut first = end;
        for i in 1..CHANNELS as u16 {
            if let Some(place) = self.first_on(i) {
                first = first.min(place);
            }
        }
        let passed = self.passed();
        if passed < first {
            self.first_above(passed)
        } else if first < end {
            Some(first)
        } else {
            None
        }
    }

    /// How many units at the front were passed: where the first of all can't be taken up, none of
    /// these on a channel above those of a client can be.
    fn passed(&self) -> usize
        ensures { FrontWaits (waits self.now) self.now.queue
            → NoneOn (waits self.now) self.now.queue CHANNELS result }
    {
        self.queue.passed()
    }

    /// The same, where none before this place can be, and none of channel 0 stands there. If one of
    /// a channel above those of a client is there, it can be taken up.
    fn first_above(&self, place: usize) -> Option<usize>
        requires running { is_opening self.now.conn ≡ false }
        requires all { place ≤ position_or_len (is_counted_at 0) self.now.queue }
        requires none { NoneBefore (waits self.now) self.now.queue 257 place }
        ensures place { result ≡ place_in (waits self.now) self.now.queue }
        ensures within { IfSome result (λ i. i < length self.now.queue) }
    {
        match self.queue.get(place) {
            Some(unit) if self.queue.is_free_above(place) && !self.waits_on(channel_of(unit)) => {
                Some(place)
            }
            _ => self.look_through(),
        }
    }

    /// The place of the first unit that can be taken up, while no connection.open waits: in one
    /// pass, in which each unit that can't be holds its channel.
    fn look_through(&self) -> Option<usize>
        requires { is_opening self.now.conn ≡ false }
        ensures place { result ≡ place_in (waits self.now) self.now.queue }
        ensures within { IfSome result (λ i. i < length self.now.queue) }
    {
        let mut held = [false; CHANNELS];
        for i in 0..self.queue.len() {
            if self.can_take(i, &held) {
                return Some(i);
            }
            if !self.queue.hold(i, &mut held) {
                return None;
            }
        }
        None
    }

    /// The same, with a look at the first unit before, and in a long queue, or where units of
    /// channels above those of a client wait, at the channels' first ones instead of all units.
    fn first_to_take(&self) -> Option<usize>
        requires { is_opening self.now.conn ≡ false }
        ensures place { result ≡ place_in (waits self.now) self.now.queue }
        ensures within { IfSome result (λ i. i < length self.now.queue) }
    {
        if self.queue.is_empty() {
            None
        } else if self.can_take_first() {
            Some(0)
        } else if CHANNELS < self.queue.len() || self.queue.has(CHANNELS as u16) {
            self.first_of_channels()
        } else {
            self.look_through()
        }
    }

    /// Units are passed, where none was and the first of all can't be taken up.
    fn look_on(&mut self)
        ensures { self.new ≡ self.old }
    {
        if self.queue.passed() == 0
            && !self.queue.is_empty()
            && !self.conn.is_opening()
            && !self.can_take_first()
        {
            self.queue.pass();
        }
    }

    /// The place of the unit that is taken up next.
    fn place(&self) -> Option<usize>
        ensures place { result ≡ place self.now }
        ensures within { IfSome result (λ i. i < length self.now.queue) }
    {
        if self.queue.is_empty() {
            return None;
        }
        if self.conn.is_opening() || self.paths.is_laden() {
            None
        } else {
            self.first_to_take()
        }
    }

    /// The upstream end fails: its sessions are lost, and the client is told so, unless its
    /// connection closes already.
    fn fail(&mut self, code: u16, why: Option<Condition>)
        ensures step { self.new ≡ fail code why self.old }
        ensures kept { KeepsGoing self.old self.new }
    {
        self.paths.lose_all();
        if !self.conn.is_closing() {
            self.by_peer = true;
            self.conn.closing(Scope::Connection, 0);
            self.pending.close = Some(refusal_with(code, 0, 0));
            self.up.set_condition(false, why);
            self.closed_at = closes_at(self.closed_at, true, self.moment);
        }
    }

    /// The connection upstream was asked for.
    pub fn link(&mut self, answer: Linked)
        ensures step { self.new ≡ step self.old (Joined answer) }
        ensures kept { KeepsGoing self.old self.new }
    {
        self.paths.lines_told();
        match answer {
            Linked::Ok => self.up.link(self.moment),
            Linked::Failed => {
                self.up.shut();
                self.fail(CONNECTION_FORCED, None);
            }
        }
    }

    /// That the client's end ended or failed is taken up.
    pub fn take_up(&mut self)
        requires { self.old.out_of_memory ≡ false }
        ensures step { self.new ≡ step self.old TakenUp }
        ensures kept { KeepsGoing self.old self.new }
    {
        if self.leaving {
            self.leave();
        }
    }

    /// The client's end is taken up as a connection.close that wants no answer.
    fn leave(&mut self)
        ensures step { self.new ≡ left self.old }
        ensures kept { KeepsGoing self.old self.new }
    {
        self.up.set_condition(self.conn.is_closing(), None);
        self.conn.ended();
        self.paths.close_all();
        self.pending.close = None;
        self.closed_at = closes_at(self.closed_at, true, self.moment);
        self.leaving = false;
    }

    /// Bytes of an end came.
    pub fn feed(&mut self, end: End)
        ensures step { self.new ≡ step self.old (Fed end) }
        ensures kept { KeepsGoing self.old self.new }
    {
        self.paths.lines_told();
        match end {
            End::Client => self.fed_at = self.moment,
            End::Up => self.up.feed(self.moment),
        }
    }

    /// The lines that the report was owed were reported.
    pub fn lines_told(&mut self)
        ensures step { self.new ≡ step self.old LinesTold }
        ensures kept { KeepsGoing self.old self.new }
    {
        self.paths.lines_told();
    }

    /// An end is to be given up.
    pub fn is_silent(&self, end: End) -> bool
        ensures { result ≡ is_silent self.now end }
    {
        match end {
            End::Client => {
                let agreed = u64::from(self.conn.heartbeat());
                self.is_awaiting(End::Client)
                    && !(self.given_up || self.gone || self.leaving || self.out_of_memory)
                    && agreed != 0
                    && SILENCE_PER_SECOND * agreed <= self.moment.saturating_sub(self.fed_at)
            }
            End::Up => self.up.is_silent(self.moment),
        }
    }

    /// An end is given up.
    pub fn silence(&mut self, end: End)
        ensures step { self.new ≡ step self.old (Silent end) }
        ensures kept { KeepsGoing self.old self.new }
    {
        match end {
            End::Client => {
                self.leave();
                self.queue.clear();
                self.given_up = true;
            }
            End::Up => {
                self.up.give_up();
                self.fail(CONNECTION_FORCED, Some(Condition::ResourceLimitExceeded));
            }
        }
    }

    /// An end was lost.
    pub fn lose(&mut self, end: End, how: Loss)
        ensures step { self.new ≡ step self.old (Lost end how) }
        ensures kept { KeepsGoing self.old self.new }
    {
        match (end, how) {
            (End::Client, Loss::Shut) => self.gone = true,
            (End::Client, Loss::Ended) => self.leaving |= !has_left(&self.conn),
            (End::Client, Loss::Failed) => {
                self.leaving |= !has_left(&self.conn);
                self.failed = true;
            }
            (End::Up, Loss::Shut) => {
                self.up.shut();
                self.lose_paths();
            }
            (End::Up, Loss::Ended) => self.lose_up(Side::Ended),
            (End::Up, Loss::Failed) => self.lose_up(Side::Failed),
        }
    }

    /// The upstream end ended or failed.
    fn lose_up(&mut self, side: Side)
        ensures step { self.new ≡ lost_up side self.old }
        ensures kept { KeepsGoing self.old self.new }
    {
        self.up.lose(side);
        self.lose_paths();
        self.fail(CONNECTION_FORCED, None);
    }

    /// All sessions are lost; what the report was owed before was reported.
    fn lose_paths(&mut self)
        ensures { self.new ≡ record self.old { paths = paths_lost self.old.paths } }
    {
        self.paths.lines_told();
        self.paths.lose_end();
    }

    /// The pair ran out of memory.
    pub fn run_out(&mut self)
        ensures step { self.new ≡ step self.old OutOfMemory }
        ensures kept { KeepsGoing self.old self.new }
    {
        self.pending = last_pending(self.conn.phase(), self.pending);
        let condition = condition_of(RESOURCE_ERROR);
        self.up
            .set_condition(self.conn.is_closing(), Some(condition));
        self.conn.closing(Scope::Connection, 0);
        self.paths.close_all();
        self.queue.clear();
        self.closed_at = closes_at(self.closed_at, true, self.moment);
        self.out_of_memory = true;
    }

    /// The last byte of the unit to an end was.
    pub fn whole(&mut self, end: End)
        ensures { self.new ≡ step self.old (Whole end) }
    {
        match end {
            End::Client => {
                self.sent_last = with_last(self.sent_last, self.in_progress);
                if let Some(Reply::OnChannel(channel, unit)) = self.in_progress {
                    self.paths.wrote(channel, unit);
                }
                self.in_progress = None;
                self.last_sent_at = self.moment;
            }
            End::Up => self.up.whole(self.moment),
        }
    }

    /// Nothing of the upstream end is waited for.
    fn is_settled(&self) -> bool
        ensures { result ≡ is_settled self.now }
    {
        self.out_of_memory || !self.up.is_live() || self.up.has_closed() || self.up.is_given_up()
    }

    /// How many units of the client aren't taken up yet.
    pub fn queued(&self) -> usize
        ensures { result ≡ length self.now.queue }
    {
        self.queue.len()
    }

    /// The client's end ended or failed, and that isn't taken up yet.
    pub fn is_leaving(&self) -> bool
        ensures { result ≡ self.now.leaving }
    {
        self.leaving
    }

    /// The client's connection.close waits for the container's close.
    fn close_waits(&self) -> bool
        ensures { result ≡ close_waits self.now }
    {
        self.client_closed && !self.is_settled()
    }

    /// A request of the client waits for the upstream end.
    #[tactic(auto, using(crate::proofs::Waits::some_waits))]
    pub fn waits(&self) -> bool
        ensures { result ≡ (waits self.now).some }
    {
        self.conn.is_opening()
            || self.close_waits()
            || any_waits(
                &self.lives,
                &self.paths,
                self.conn.is_closing(),
                self.is_settled(),
                self.up.container(),
            )
    }

    /// The container ended the session of a channel that may be opened again, and the gateway's end
    /// is still to go.
    fn leaves_end(&self, channel: u16) -> bool
        ensures { result ≡ leaves_end self.now channel (life_at self.now.lives channel) }
    {
        !self.conn.is_closing()
            && is_clear(self.lives.at(channel))
            && is_ended(self.up.container(), channel)
    }

    /// A request of a channel does, or the gateway's end of its session.
    fn waits_on(&self, channel: u16) -> bool
        ensures { result ≡ (waits self.now).channel channel }
    {
        is_waiting_on(
            self.conn.is_closing(),
            self.is_settled(),
            self.up.container(),
            &self.paths,
            channel,
            self.lives.at(channel),
        ) || self.leaves_end(channel)
    }

    /// Whether a unit to an end is between its first byte and its last.
    pub fn is_busy(&self, end: End) -> bool
        ensures { result ≡ is_busy self.now end }
    {
        match end {
            End::Client => self.in_progress.is_some(),
            End::Up => self.up.in_progress().is_some(),
        }
    }

    /// The pair's number.
    pub fn number(&self) -> u32
        ensures { result ≡ self.now.number }
    {
        self.number
    }

    /// The container's connection.
    pub fn container(&self) -> &Option<Conn10>
        ensures value { result.now ≡ self.now.up.container }
        ensures login { IsLoginOf self.now.up.container }
    {
        self.up.container()
    }

    /// As what the container's next bytes are cut.
    pub fn awaits_up(&self) -> Awaited10
        ensures { result ≡ awaited_of self.now.up.container }
    {
        self.up.awaits()
    }

    /// As what the client's next bytes are cut.
    pub fn awaits(&self) -> Awaited91
        ensures value { result ≡ awaits self.now.conn }
        ensures range { AreWithin self.now.conn.limits }
    {
        self.conn.awaits()
    }

    /// The client isn't read.
    fn is_held(&self) -> bool
        ensures { result ≡ is_held self.now }
    {
        self.conn.is_opening()
            || self.close_waits()
            || self.queue.has_bad()
            || self.queue.is_full()
            || self.paths.is_laden()
    }

    /// Bytes of an end are awaited.
    pub fn is_awaiting(&self, end: End) -> bool
        ensures { result ≡ is_awaiting self.now end }
    {
        match end {
            End::Client => {
                (!matches!(self.conn.awaits(), Awaited91::Nothing) || self.given_up)
                    && !self.is_held()
            }
            End::Up => self.up.is_live() && !matches!(self.up.awaits(), Awaited10::Nothing),
        }
    }

    /// The connection upstream is to be asked for.
    pub fn is_connect_due(&self) -> bool
        ensures { result ≡ is_connect_due self.now }
    {
        self.conn.is_opening() && self.up.is_absent()
    }

    /// Something of the client can be taken up.
    pub fn can_take_up(&self) -> bool
        ensures { result ≡ can_take_up self.now }
    {
        (!self.out_of_memory && self.place().is_some()) || self.can_leave()
    }

    /// That its end ended or failed can be taken up, behind all else.
    pub fn can_leave(&self) -> bool
        ensures { result ≡ can_leave self.now }
    {
        self.leaving
            && !self.out_of_memory
            && self.queue.is_empty()
            && !self.waits()
            && !self.paths.is_laden()
    }

    /// Writes the lines that the report is owed. `false` comes only if the report's count of faults
    /// rose; a front part of the lines was then taken.
    pub fn tell_lines<K: Sink>(&self, report: &mut K) -> bool
        ensures later { K.faults report.old ≤ K.faults report.new }
        ensures cause { OnFalse result (Rose (K.faults report.old) (K.faults report.new)) }
        ensures whole { OnTrue result (Appends (K.held report.old) (K.held report.new)
            (lines_text self.now.number (owed_lines self.now))) }
        ensures some { OnFalse result (is_empty (lines_text self.now.number (owed_lines self.now))
            ≡ false) }
        ensures part { OnFalse result (AppendsFront (K.held report.old) (K.held report.new)
            (lines_text self.now.number (owed_lines self.now))) }
    {
        tell_lines(report, self.number, &self.paths, self.opened)
    }

    /// The pair ran out of memory.
    pub fn is_out_of_memory(&self) -> bool
        ensures { result ≡ self.now.out_of_memory }
    {
        self.out_of_memory
    }
}
