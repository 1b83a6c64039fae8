//! A container's connection: the calls on it.

ghost use Rattle.std.specs.Prelude.{◌≡◌, ◌≤◌, ◌<◌, Ok, IfOk, OnOk, OnErr};
ghost use Rattle.machine_10.specs.Calls.{after_begin_sent, after_end_sent, after_ended};
ghost use Rattle.machine_10.specs.State.{new_upstream, awaits, is_running, is_closing, session_at};
ghost use Rattle.machine_10.specs.State.{AreFreeFrom};
ghost use Rattle.machine_10.specs.declared.state.TheConstants.{CHANNELS};
ghost use Rattle.machine_10.specs.Transitions.{meaning_of, unit_step};

use crate::state::{Awaited10, CHANNELS, Phase10, Session, Stream10, Upstream};
use crate::unit::{Unit10, Want10};
use std::alloc::Global;
use std::marker::Model;
use wire_base::{ByteText, Memory};

/// The gateway's connection to one container. Contracts see its state.
#[derive(Debug, Drop)]
pub struct Conn10 {
    state: Upstream,
    /// No session ever began on a channel from this number on: looks at all sessions end there.
    top: u16,
}

impl Model for Conn10 {
    ghost use Rattle.std.specs.Prelude.{◌≤◌};
    ghost use Rattle.machine_10.specs.State.{AreFreeFrom};
    ghost use Rattle.machine_10.specs.declared.state.TheConstants.{CHANNELS};
    ghost use Rattle.machine_10.specs.declared.state.Upstream.{Upstream};

    ghost Value = { Upstream };

    ghost view = { λ c. c.state };

    ghost invariant = { λ c. (c.top ≤ CHANNELS) × AreFreeFrom c.top c.state };
}

/// A number above a channel, if there is one, and not below this.
fn top_with(top: u16, channel: u16) -> u16
    requires { top ≤ CHANNELS }
    ensures within { result ≤ CHANNELS }
    ensures above { top ≤ result }
    ensures channel { channel < CHANNELS → channel < result }
{
    if usize::from(channel) < CHANNELS {
        top.max(channel + 1)
    } else {
        top
    }
}

impl Conn10 {
    /// A connection of which nothing was read yet, and whose login is by this mechanism with this
    /// response.
    ///
    /// # Errors
    ///
    /// None today: the clause says so.
    pub fn new(_alloc: Global, mechanism: ByteText, response: ByteText) -> Result<Conn10, Memory>
        ensures { result ≡ Ok (new_upstream mechanism response) }
    {
        Ok(Conn10 {
            state: Upstream::new(mechanism, response),
            top: 0,
        })
    }

    /// Takes the container's next unit, and answers what it wants, or that the connection is to be
    /// closed: by the first place of the order of refusals that applies. A contract sees a
    /// performative as its kind and its fields.
    ///
    /// # Errors
    ///
    /// `Memory` when out of memory; the connection is then as it was.
    pub fn take(&mut self, alloc: Global, unit: &Unit10) -> Result<Want10, Memory>
        ensures state { OnOk result (self.new ≡ (unit_step self.old unit.now).0) }
        ensures want { IfOk result (λ want. meaning_of want ≡ (unit_step self.old unit.now).1) }
        ensures err { OnErr result (self.new ≡ self.old) }
    {
        self.state.take(alloc, unit)
    }

    /// The gateway's begin on this channel was sent. It counts where the connection runs, the
    /// container takes the channel, and no session is there.
    pub fn begin_sent(&mut self, channel: u16)
        ensures { self.new ≡ after_begin_sent channel self.old }
    {
        self.state.begin_sent(channel);
        self.top = top_with(self.top, channel);
    }

    /// The gateway's end of the session on this channel was sent. The channel is free once the
    /// container's came too.
    pub fn end_sent(&mut self, channel: u16)
        ensures { self.new ≡ after_end_sent channel self.old }
    {
        self.state.end_sent(channel);
    }

    /// The container's end ended, or was given up.
    pub fn ended(&mut self)
        ensures { self.new ≡ after_ended self.old }
    {
        self.state.end();
    }

    /// What is awaited of the container's bytes.
    pub fn awaits(&self) -> Awaited10
        ensures { result ≡ awaits self.now }
    {
        self.state.awaits()
    }

    /// How far the connection has come.
    pub fn phase(&self) -> Phase10
        ensures { result ≡ self.now.phase }
    {
        self.state.phase
    }

    /// What the container's bytes are, or why none is awaited any more.
    pub fn stream(&self) -> Stream10
        ensures { result ≡ self.now.stream }
    {
        self.state.stream
    }

    /// Sessions may begin.
    pub fn is_running(&self) -> bool
        ensures { result ≡ is_running self.now.phase }
    {
        self.state.is_running()
    }

    /// A unit was out of order, the login was refused, or the container closed or ended.
    pub fn is_closing(&self) -> bool
        ensures { result ≡ is_closing self.now.phase }
    {
        self.state.is_closing()
    }

    /// The session on one of the gateway's channels.
    pub fn session(&self, channel: u16) -> Session
        ensures { result ≡ session_at self.now channel }
    {
        self.state.session(channel)
    }

    /// No session is on a channel from this number on.
    pub fn top(&self) -> u16
        ensures within { result ≤ CHANNELS }
        ensures free { AreFreeFrom result self.now }
    {
        self.top
    }

    /// The mechanism of the login.
    pub fn mechanism(&self) -> &ByteText
        ensures { result.now ≡ self.now.mechanism }
    {
        &self.state.mechanism
    }

    /// The response of the login.
    pub fn response(&self) -> &ByteText
        ensures { result.now ≡ self.now.response }
    {
        &self.state.response
    }

    /// The greatest size of a frame that the container takes, in bytes; 512 until its open.
    pub fn max_frame(&self) -> u32
        ensures { result ≡ self.now.stated.max_frame }
    {
        self.state.stated.max_frame
    }

    /// The greatest number of a channel that the container takes; 0 until its open.
    pub fn channel_max(&self) -> u16
        ensures { result ≡ self.now.stated.channel_max }
    {
        self.state.stated.channel_max
    }

    /// After how many milliseconds without a frame the container gives the connection up; `None`
    /// where it doesn't, and until its open.
    pub fn idle(&self) -> Option<u32>
        ensures { result ≡ self.now.stated.idle }
    {
        self.state.stated.idle
    }
}
