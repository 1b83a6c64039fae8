//! The channels of a client: what is due on each.

ghost use Rattle.std.specs.Prelude.{◌≡◌, ◌<◌, ◌≤◌, None, drop, false, length, true};
ghost use Rattle.gate_model.specs.Lives.{asked_life, begun_life, closed_life, failed_life};
ghost use Rattle.gate_model.specs.Lives.{freed_life, is_clear, life_at, no_life, no_lives};
ghost use Rattle.gate_model.specs.Lives.{old_life, with_life, with_state};
ghost use Rattle.bridge_core.specs.Flows.{FlowsFit};
ghost use Rattle.bridge_core.specs.declared.lives.TheConstants.{CHANNELS};

use crate::sessions::no_session;
use gate_model::{Life, Reason, SessionState};
use performatives_10::Condition;
use std::marker::Model;

/// The channels of a client are numbered below this (AMQP 0-9-1 1.4.2.5).
pub const CHANNELS: usize = 256;

/// Nothing is due.
pub fn no_life() -> Life
    ensures { result ≡ no_life }
{
    Life {
        waits: false,
        begin: false,
        open_ok: false,
        awaits_end: false,
        over: false,
        closed_at: None,
        by_peer: false,
        close_ok: false,
        crossed_ok: false,
        close: None,
        told: false,
        why: None,
        session: no_session(),
    }
}

/// What stays due for the life before.
pub fn old_life(life: Life) -> Life
    ensures { result ≡ old_life life }
{
    Life {
        crossed_ok: life.crossed_ok,
        why: life.why,
        session: life.session,
        ..no_life()
    }
}

/// What is due once channel.open was taken up.
pub fn asked_life(life: Life) -> Life
    ensures { result ≡ asked_life life }
{
    Life {
        waits: true,
        begin: true,
        ..old_life(life)
    }
}

/// Once the container's begin came.
pub fn begun_life(life: Life) -> Life
    ensures { result ≡ begun_life life }
{
    Life {
        waits: false,
        open_ok: life.open_ok || life.waits,
        ..life
    }
}

/// Once its client closed it.
pub fn closed_life(life: Life, moment: u64) -> Life
    ensures { result ≡ closed_life moment life }
{
    let closed_at = life.closed_at.or(Some(moment));
    let by_peer = life.by_peer;
    let told = life.told;
    Life {
        awaits_end: !life.over,
        over: true,
        closed_at,
        by_peer,
        close_ok: true,
        told,
        ..old_life(life)
    }
}

/// Once it is at fault, or its container: this is told to the client, and this to the container.
pub fn failed_life(
    life: Life,
    by_peer: bool,
    moment: u64,
    reason: Reason,
    why: Option<Condition>,
) -> Life
    ensures { result ≡ failed_life by_peer moment reason why life }
{
    Life {
        over: true,
        closed_at: Some(moment),
        by_peer,
        close: Some(reason),
        why,
        ..old_life(life)
    }
}

/// Once its client answered the gateway's channel.close.
pub fn freed_life(life: Life) -> Life
    ensures { result ≡ freed_life life }
{
    let crossed_ok = life.crossed_ok || life.close_ok;
    Life {
        over: true,
        crossed_ok,
        ..old_life(life)
    }
}

/// Nothing that ends it is due to the client or awaited of it.
pub fn is_clear(life: Life) -> bool
    ensures { result ≡ is_clear life }
{
    !life.told && !life.close_ok && life.close.is_none()
}

/// What is due on each channel.
#[derive(Drop)]
pub struct Lives {
    /// Nothing was ever due on a channel from this number on: looks for what goes next end there.
    top: u16,
    crowded: bool,
    lives: [Life; CHANNELS],
}

impl Model for Lives {
    ghost use Rattle.std.specs.Prelude.{◌≡◌, ◌≤◌, List, drop, false, length};
    ghost use Rattle.gate_model.specs.declared.life.Life.{Life};
    ghost use Rattle.gate_model.specs.Lives.{no_lives};
    ghost use Rattle.bridge_core.specs.Flows.{FlowsFit};
    ghost use Rattle.bridge_core.specs.declared.lives.TheConstants.{CHANNELS};

    ghost Value = { List Life };

    ghost view = { λ a. a.lives };

    ghost invariant = { λ a. (a.crowded ≡ false → FlowsFit a.lives)
        × ((length a.lives ≡ CHANNELS)
        × ((a.top ≤ CHANNELS) × (drop a.top a.lives ≡ drop a.top no_lives))) };
}

impl Lives {
    /// Nothing is due on any channel.
    #[tactic(auto, unfolding(gate_model::specs::Lives::no_lives))]
    pub fn new() -> Lives
        ensures { result ≡ no_lives }
    {
        Lives {
            lives: [no_life(); CHANNELS],
            crowded: false,
            top: 0,
        }
    }

    /// What is due on each channel, by its number.
    pub fn all(&self) -> &[Life; CHANNELS]
        ensures { result.now ≡ self.now }
    {
        &self.lives
    }

    /// What is due on a channel.
    pub fn at(&self, channel: u16) -> Life
        ensures { result ≡ life_at self.now channel }
    {
        match self.lives.as_slice().get(channel as usize) {
            None => no_life(),
            Some(life) => *life,
        }
    }

    /// The same, of a channel that a client may open.
    #[tactic(auto, using(crate::proofs::ChannelRows::read_any))]
    pub fn get(&self, channel: u16) -> &Life
        requires { channel < CHANNELS }
        ensures { result.now ≡ life_at self.now channel }
    {
        &self.lives[channel as usize]
    }

    /// What is due on a channel is this.
    #[tactic(auto, using(crate::proofs::Flows::set_beyond))]
    pub fn set(&mut self, channel: u16, life: Life)
        ensures { self.new ≡ with_life channel life self.old }
    {
        if (channel as usize) < CHANNELS {
            let session = life.session;
            let full = session.echoes == u32::MAX;
            self.lives[channel as usize] = life;
            self.crowded = self.crowded || full;
            self.top = self.top.max(channel + 1);
        }
    }

    /// The session of a channel changes to this.
    pub fn set_session(&mut self, channel: u16, session: SessionState)
        ensures { self.new ≡ with_state channel session self.old }
    {
        let life = self.at(channel);
        self.set(channel, Life { session, ..life });
    }

    /// The first byte of a channel.open-ok was sent.
    pub fn open_ok_sent(&mut self, channel: u16)
        ensures { self.new
            ≡ with_life channel (record (life_at self.old channel) { open_ok = false }) self.old }
    {
        let open_ok = false;
        let life = self.at(channel);
        self.set(channel, Life { open_ok, ..life });
    }

    /// That of a channel.close-ok was.
    pub fn close_ok_sent(&mut self, channel: u16)
        ensures { self.new
            ≡ with_life channel (record (life_at self.old channel) { close_ok = false }) self.old }
    {
        let close_ok = false;
        let life = self.at(channel);
        self.set(channel, Life { close_ok, ..life });
    }

    /// That of one to a channel.close that crossed the gateway's was.
    pub fn crossed_ok_sent(&mut self, channel: u16)
        ensures { self.new ≡ with_life channel
            (record (life_at self.old channel) { crossed_ok = false }) self.old }
    {
        let crossed_ok = false;
        let life = self.at(channel);
        self.set(channel, Life { crossed_ok, ..life });
    }

    /// That of a channel.close was.
    pub fn close_sent(&mut self, channel: u16)
        ensures { self.new
            ≡ with_life channel (record (life_at self.old channel) { close = None; told = true })
            self.old }
    {
        let life = self.at(channel);
        self.set(
            channel,
            Life {
                close: None,
                told: true,
                ..life
            },
        );
    }

    /// That of the begin of its session was.
    pub fn begin_sent(&mut self, channel: u16)
        ensures { self.new
            ≡ with_life channel (record (life_at self.old channel) { begin = false }) self.old }
    {
        let begin = false;
        let life = self.at(channel);
        self.set(channel, Life { begin, ..life });
    }

    /// That of the end of its session was.
    pub fn end_sent(&mut self, channel: u16)
        ensures { self.new
            ≡ with_life channel (record (life_at self.old channel) { why = None }) self.old }
    {
        let why = None;
        let life = self.at(channel);
        self.set(channel, Life { why, ..life });
    }

    /// Nothing was ever due on a channel from this number on.
    pub fn top(&self) -> u16
        ensures count { length self.now ≡ CHANNELS }
        ensures within { result ≤ length self.now }
        ensures beyond { drop result self.now ≡ drop result no_lives }
    {
        self.top
    }

    /// Whether as many flows of some channel's session may be asked for as can be counted.
    pub fn is_crowded(&self) -> bool
        ensures { result ≡ false → FlowsFit self.now }
    {
        self.crowded
    }
}
