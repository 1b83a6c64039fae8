//! The state of a client's connection, as a value that contracts see.

ghost use Rattle.std.specs.Prelude.{◌≡◌, is_some, None, Some, Err, IfOk, IfErr, OnOk, OnErr};
ghost use Rattle.machine_091.specs.State.{new_connection, channel_at, with_channel, content_at};
ghost use Rattle.machine_091.specs.State.{with_content, is_running, awaits, is_opening, is_closing};
ghost use Rattle.machine_091.specs.State.{is_over, is_open};
ghost use Rattle.machine_091.specs.Checked.{IsFedAt};
ghost use Rattle.machine_091.specs.Contents.{begun, no_contents};
ghost use Rattle.machine_091.specs.Refusals.{taken_by};

use crate::contents::{ContentSlot, Fed};
use crate::limits::{Limits, own_limits};
use content_091::ContentFault;
use frames_091::Frame91;
use methods_091::Method91;
use std::alloc::Global;
use wire_base::{ByteText, Memory};

/// How far a connection has come (AMQP 0-9-1 2.2.4): which units count.
#[derive(Clone, Copy, Debug, PartialEq, Eq)]
pub enum Phase91 {
    /// The protocol header is awaited.
    Header,
    /// connection.start-ok is awaited.
    Start,
    /// connection.tune-ok is awaited.
    Tune,
    /// connection.open is awaited, or it came, and the container upstream is to open.
    Open,
    /// Channels may be opened.
    Running,
    /// A closing event came. connection.close and connection.close-ok alone still count.
    Closing,
    /// The client closed, or answered the gateway's close, or its end ended, or its first bytes
    /// were no protocol header. connection.close-ok alone still counts.
    Closed,
}

/// What the client's bytes are, or why none is awaited any more.
#[derive(Clone, Copy, Debug, PartialEq, Eq)]
pub enum Stream91 {
    /// The protocol header is awaited.
    Header,
    /// Frames are awaited.
    Frames,
    /// The first bytes were no protocol header: the gateway's own is due.
    Foreign,
    /// Bytes came with which no unit begins.
    Bad,
    /// The client's connection.close-ok came.
    Answered,
    /// The client's end ended, or the client was given up.
    Ended,
}

/// The state of a channel (AMQP 0-9-1 1.5).
#[derive(Clone, Copy, Debug, PartialEq, Eq)]
pub enum Channel91 {
    /// It isn't open.
    Free,
    Open,
    /// A closing event of it came. channel.close alone still counts.
    Closing,
    /// The gateway's channel.close of it was sent. channel.close and channel.close-ok alone still
    /// count.
    Told,
}

/// What is awaited of the client's bytes.
#[derive(Clone, Copy, Debug, PartialEq, Eq)]
pub enum Awaited91 {
    /// The protocol header.
    Header,
    /// A frame of at most so many bytes.
    Frame(u32),
    /// Nothing: the client isn't read any more.
    Nothing,
}

/// The state of a client's connection, as contracts see a `Conn91`.
#[derive(Debug, Drop)]
pub struct Connection {
    /// The one virtual host that a client may open.
    pub(crate) vhost: ByteText,
    pub(crate) phase: Phase91,
    pub(crate) stream: Stream91,
    /// connection.open came where it was expected, to whichever virtual host.
    pub(crate) asked: bool,
    pub(crate) limits: Limits,
    /// The greatest number of a channel that the container upstream takes; 0 until it opened.
    pub(crate) carried_max: u16,
    /// By their numbers. Nothing is ever on channel 0.
    pub(crate) channels: [Channel91; 256],
    /// The contents in progress, by their channels.
    pub(crate) contents: [ContentSlot; 256],
}

/// No content is in progress.
fn no_contents() -> [ContentSlot; 256]
    ensures { result ≡ no_contents }
{
    Default::default()
}

impl Connection {
    /// A connection of which nothing was read yet, to this virtual host.
    #[tactic(auto, unfolding(crate::specs::State::no_channels))]
    pub(crate) fn new(vhost: ByteText) -> Connection
        ensures { result ≡ new_connection vhost }
    {
        Connection {
            vhost,
            phase: Phase91::Header,
            stream: Stream91::Header,
            asked: false,
            limits: own_limits(),
            carried_max: 0,
            channels: [Channel91::Free; 256],
            contents: no_contents(),
        }
    }

    /// Channels may be opened.
    pub(crate) fn is_running(&self) -> bool
        ensures { result ≡ is_running self.now.phase }
    {
        self.phase == Phase91::Running
    }

    /// The state of a channel. One above the last is never open.
    pub(crate) fn channel(&self, number: u16) -> Channel91
        ensures { result ≡ channel_at self.now number }
    {
        match self.channels.get(usize::from(number)) {
            Some(state) => *state,
            None => Channel91::Free,
        }
    }

    /// Sets the state of a channel.
    #[tactic(auto, using(std::proofs::lemmas::List::set_past))]
    pub(crate) fn set_channel(&mut self, number: u16, state: Channel91)
        ensures { self.new ≡ with_channel self.old number state }
    {
        let at = usize::from(number);
        if at < self.channels.len() {
            self.channels[at] = state;
        }
    }

    /// Whether a content is in progress on a channel.
    pub(crate) fn has_content(&self, number: u16) -> bool
        ensures { result ≡ is_some (content_at self.now number) }
    {
        match self.contents.get(usize::from(number)) {
            Some(slot) => slot.is_some(),
            None => false,
        }
    }

    /// A method of a channel begins a content.
    #[tactic(auto, using(std::proofs::lemmas::List::set_past))]
    pub(crate) fn begin_content(
        &mut self,
        alloc: Global,
        number: u16,
        method: Method91,
    ) -> Result<(), Memory>
        ensures ok { OnOk result (self.new ≡ with_content self.old number (Some (begun method))) }
        ensures err { OnErr result (self.new ≡ self.old) }
    {
        let slot = ContentSlot::begin(alloc, method)?;
        let at = usize::from(number);
        if at < self.contents.len() {
            self.contents[at] = slot;
        }
        Ok(())
    }

    /// The content in progress on a channel, if there is one, is dropped.
    #[tactic(auto, using(std::proofs::lemmas::List::set_past))]
    pub(crate) fn drop_content(&mut self, number: u16)
        ensures { self.new ≡ with_content self.old number None }
    {
        let at = usize::from(number);
        if at < self.contents.len() {
            self.contents[at] = ContentSlot::empty();
        }
    }

    /// All contents in progress are dropped.
    pub(crate) fn drop_contents(&mut self)
        ensures { self.new ≡ record self.old { contents = no_contents } }
    {
        self.contents = no_contents();
    }

    /// Gives a frame to the content in progress on its channel.
    pub(crate) fn feed(
        &mut self,
        alloc: Global,
        frame: Frame91,
    ) -> Result<Result<Fed, ContentFault>, Memory>
        ensures taken { IfOk result (λ read. IfOk read (IsFedAt self.old self.new frame)) }
        ensures refused { IfOk result (λ read.
            IfErr read (λ fault. taken_by self.old frame frame.kind ≡ Err fault)) }
        ensures kept { IfOk result (λ read. IfErr read (λ fault. self.new ≡ self.old)) }
        ensures err { OnErr result (self.new ≡ self.old) }
    {
        let at = usize::from(frame.channel);
        if at >= self.contents.len() {
            return Ok(Err(ContentFault::Unexpected));
        }
        self.contents[at].take(alloc, frame.kind, frame.payload)
    }

    /// What is awaited of the client's bytes.
    pub(crate) fn awaits(&self) -> Awaited91
        ensures { result ≡ awaits self.now }
    {
        match self.stream {
            Stream91::Header => Awaited91::Header,
            Stream91::Frames => Awaited91::Frame(self.limits.frame_max),
            Stream91::Foreign | Stream91::Bad | Stream91::Answered | Stream91::Ended => {
                Awaited91::Nothing
            }
        }
    }

    /// connection.open came, and the container upstream is to open.
    pub(crate) fn is_opening(&self) -> bool
        ensures { result ≡ is_opening self.now }
    {
        self.phase == Phase91::Open && self.asked
    }

    /// The closing event of the connection came.
    pub(crate) fn is_closing(&self) -> bool
        ensures { result ≡ is_closing self.now }
    {
        matches!(self.phase, Phase91::Closing | Phase91::Closed)
    }

    /// The client's end is to be shut, whatever is due to it.
    pub(crate) fn is_over(&self) -> bool
        ensures { result ≡ is_over self.now }
    {
        matches!(self.stream, Stream91::Answered | Stream91::Ended)
    }

    /// Whether a channel is open, and neither it nor the connection is closing.
    pub(crate) fn is_open(&self, number: u16) -> bool
        ensures { result ≡ is_open self.now number }
    {
        self.is_running() && self.channel(number) == Channel91::Open
    }
}
