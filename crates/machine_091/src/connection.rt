//! A client's connection: the calls on it.

ghost use Rattle.std.specs.Prelude.{◌≡◌, IfOk, OnOk, OnErr};
ghost use Rattle.machine_091.specs.Calls.{after_opened, after_closing, after_told, after_closed};
ghost use Rattle.machine_091.specs.Calls.{after_ended};
ghost use Rattle.machine_091.specs.Limits.{AreWithin};
ghost use Rattle.machine_091.specs.State.{new_connection, awaits, is_opening, is_closing, is_over};
ghost use Rattle.machine_091.specs.State.{is_open};
ghost use Rattle.machine_091.specs.Transitions.{unit_step};
ghost use Rattle.machine_091.specs.Writable.{CanPutBack};

use crate::state::{Awaited91, Connection, Phase91, Stream91};
use crate::unit::{Unit91, Want91};
use close_translate::Scope;
use std::alloc::Global;
use std::marker::Model;
use wire_base::{ByteText, Memory};

/// The connection of one client. Contracts see its state.
#[derive(Debug, Drop)]
pub struct Conn91 {
    state: Connection,
}

impl Model for Conn91 {
    ghost use Rattle.machine_091.specs.declared.state.Connection.{Connection};
    ghost use Rattle.machine_091.specs.Limits.{AreWithin};
    ghost use Rattle.machine_091.specs.Writable.{CanPutContents};

    ghost Value = { Connection };

    ghost use Rattle.tables_091.specs.TreeCode.{tree_code};
    ghost use Rattle.std.specs.Coded.{codes};

    ghost coded = { Prim.hlevel (codes, tree_code) };

    ghost view = { λ c. c.state };

    ghost invariant = { λ c. AreWithin c.state.limits × CanPutContents c.state };
}

impl Conn91 {
    /// A connection of which nothing was read yet, whose client may open this virtual host.
    pub fn new(vhost: ByteText) -> Conn91
        ensures { result ≡ new_connection vhost }
    {
        Conn91 {
            state: Connection::new(vhost),
        }
    }

    /// Takes the client's next unit, and answers what it wants, or that it is refused: by the first
    /// place of the order of refusals that applies.
    ///
    /// # Errors
    ///
    /// `Memory` when out of memory; the connection is then as it was.
    #[tactic(auto, using(crate::proofs::StepLaws::limits_stay))]
    pub fn take(&mut self, alloc: Global, unit: Unit91) -> Result<Want91, Memory>
        ensures state { OnOk result (self.new ≡ (unit_step self.old unit).0) }
        ensures want { IfOk result (λ want. want ≡ (unit_step self.old unit).1) }
        // What a publish or a basic.consume hands out can be written again, as a basic.return or a
        // basic.consume-ok does.
        ensures put { IfOk result CanPutBack }
        ensures err { OnErr result (self.new ≡ self.old) }
    {
        unit.tell_bytes();
        self.state.take(alloc, unit)
    }

    /// The container upstream opened, and takes channels up to this number. If the client asked for
    /// that by connection.open, channels may be opened from now on.
    pub fn opened(&mut self, channel_max: u16)
        ensures { self.new ≡ after_opened channel_max self.old }
    {
        self.state.open(channel_max);
    }

    /// A closing event came that no unit told: of the connection, or of this channel if it is open.
    /// Units but those that close are passed over from now on, and a content in progress is
    /// dropped.
    pub fn closing(&mut self, scope: Scope, channel: u16)
        ensures { self.new ≡ after_closing scope channel self.old }
    {
        self.state.begin_close(scope, channel);
    }

    /// The gateway's channel.close of a closing channel was sent: the client's channel.close-ok
    /// counts from now on, and frees the channel.
    pub fn told(&mut self, channel: u16)
        ensures { self.new ≡ after_told channel self.old }
    {
        self.state.tell_channel(channel);
    }

    /// The gateway's channel.close-ok was sent. The channel's number is free again, unless the
    /// gateway's own channel.close was sent: then the client's channel.close-ok frees it.
    pub fn closed(&mut self, channel: u16)
        ensures { self.new ≡ after_closed channel self.old }
    {
        self.state.free_channel(channel);
    }

    /// The client's end ended, or the client was given up: this is its connection.close, without an
    /// answer.
    pub fn ended(&mut self)
        ensures { self.new ≡ after_ended self.old }
    {
        self.state.end();
    }

    /// What is awaited of the client's bytes.
    pub fn awaits(&self) -> Awaited91
        ensures value { result ≡ awaits self.now }
        ensures range { AreWithin self.now.limits }
    {
        self.state.awaits()
    }

    /// How far the connection has come.
    pub fn phase(&self) -> Phase91
        ensures { result ≡ self.now.phase }
    {
        self.state.phase
    }

    /// What the client's bytes are, or why none is awaited any more.
    pub fn stream(&self) -> Stream91
        ensures { result ≡ self.now.stream }
    {
        self.state.stream
    }

    /// connection.open came where it was expected, to whichever virtual host. This stays so for
    /// ever.
    pub fn is_asked(&self) -> bool
        ensures { result ≡ self.now.asked }
    {
        self.state.asked
    }

    /// connection.open came, and `opened` is awaited.
    pub fn is_opening(&self) -> bool
        ensures { result ≡ is_opening self.now }
    {
        self.state.is_opening()
    }

    /// The closing event of the connection came.
    pub fn is_closing(&self) -> bool
        ensures { result ≡ is_closing self.now }
    {
        self.state.is_closing()
    }

    /// The client's end is to be shut, whatever is due to it: its connection.close-ok came, or it
    /// ended.
    pub fn is_over(&self) -> bool
        ensures { result ≡ is_over self.now }
    {
        self.state.is_over()
    }

    /// Whether this channel is open, and neither it nor the connection is closing.
    pub fn is_open(&self, channel: u16) -> bool
        ensures { result ≡ is_open self.now channel }
    {
        self.state.is_open(channel)
    }

    /// The greatest size of a frame of this connection, in bytes.
    pub fn frame_max(&self) -> u32
        ensures value { result ≡ self.now.limits.frame_max }
        ensures range { AreWithin self.now.limits }
    {
        self.state.limits.frame_max
    }

    /// The greatest number of a channel.
    pub fn channel_max(&self) -> u16
        ensures value { result ≡ self.now.limits.channel_max }
        ensures range { AreWithin self.now.limits }
    {
        self.state.limits.channel_max
    }

    /// The interval of heartbeats in seconds, 0 for none.
    pub fn heartbeat(&self) -> u16
        ensures { result ≡ self.now.limits.heartbeat }
    {
        self.state.limits.heartbeat
    }
}
