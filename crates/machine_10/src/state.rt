//! The state of a container's connection, as a value that contracts see.

ghost use Rattle.std.specs.Prelude.{◌≡◌, ◌≤◌, ◌<◌, length, IfSome};
ghost use Rattle.std.specs.List.{position};
ghost use Rattle.machine_10.specs.State.{new_upstream, carries, session_at, session_of};
ghost use Rattle.machine_10.specs.State.{with_session, awaits, is_running, is_closing};
ghost use Rattle.machine_10.specs.declared.state.TheConstants.{CHANNELS};

use crate::limits::{Stated10, unstated};
use frames_10::Kind10;
use wire_base::ByteText;

/// The gateway's channels are numbered below this.
pub const CHANNELS: usize = 256;

/// How far a connection has come (AMQP 1.0 2.4, 5.3.2): which units count.
#[derive(Clone, Copy, Debug, PartialEq, Eq)]
pub enum Phase10 {
    /// The container's SASL header is awaited.
    SaslHeader,
    /// sasl-mechanisms is awaited.
    Mechanisms,
    /// sasl-outcome is awaited.
    Outcome,
    /// The container's AMQP header is awaited.
    AmqpHeader,
    /// The container's open is awaited.
    Open,
    /// Sessions may begin.
    Running,
    /// A unit was out of order. The container's close alone still counts.
    Closing,
    /// The container closed, its end ended, or the login was refused. Nothing counts any more.
    Closed,
}

/// What the container's bytes are, or why none is awaited any more.
#[derive(Clone, Copy, Debug, PartialEq, Eq)]
pub enum Stream10 {
    /// A protocol header of this kind is awaited.
    Header(Kind10),
    /// Frames are awaited.
    Frames,
    /// Bytes came with which no unit begins, or another header than the awaited one.
    Bad,
    /// The container's close came. Frames are awaited, and passed over.
    Closed,
    /// After its close bytes came with which no unit begins.
    Spent,
    /// The container's end ended, or was given up.
    Ended,
}

/// What is awaited of the container's bytes.
#[derive(Clone, Copy, Debug, PartialEq, Eq)]
pub enum Awaited10 {
    /// A protocol header of this kind.
    Header(Kind10),
    /// A frame.
    Frame,
    /// Nothing: the container isn't read any more.
    Nothing,
}

/// The session on one of the gateway's channels (AMQP 1.0 2.5). A number is that of the container's
/// channel.
#[derive(Clone, Copy, Debug, PartialEq, Eq)]
pub enum Session {
    /// There is none.
    Free,
    /// The gateway's begin was sent, and the container's is awaited.
    Asked,
    /// The gateway's begin and end were sent, and the container's begin is still awaited.
    Left,
    /// Both begins went.
    Open(u16),
    /// The gateway's end was sent, and the container's is awaited.
    Leaving(u16),
    /// The container's end came, and the gateway's is due.
    Ended(u16),
}

/// The state of a container's connection, as contracts see a `Conn10`.
#[derive(Debug, Drop)]
pub struct Upstream {
    pub(crate) phase: Phase10,
    pub(crate) stream: Stream10,
    /// The mechanism of the login.
    pub(crate) mechanism: ByteText,
    /// Its response.
    pub(crate) response: ByteText,
    pub(crate) stated: Stated10,
    /// By the gateway's numbers of their channels.
    pub(crate) sessions: [Session; CHANNELS],
}

/// Whether the container's frames of a session stand on this channel.
fn carries(session: &Session, number: u16) -> bool
    ensures { result ≡ carries number session.now }
{
    match session {
        Session::Free | Session::Asked | Session::Left => false,
        Session::Open(own) | Session::Leaving(own) | Session::Ended(own) => *own == number,
    }
}

/// The place of the session whose frames stand on this channel of the container.
fn carrying(sessions: &[Session], number: u16) -> Option<usize>
    ensures place { result ≡ position (carries number) sessions.now }
    ensures bound { IfSome result (λ at. at < length sessions.now) }
{
    sessions.iter().position(|session| carries(session, number))
}

impl Upstream {
    /// A connection of which nothing was read yet.
    #[tactic(auto, unfolding(crate::specs::State::no_sessions))]
    pub(crate) fn new(mechanism: ByteText, response: ByteText) -> Upstream
        ensures { result ≡ new_upstream mechanism response }
    {
        Upstream {
            phase: Phase10::SaslHeader,
            stream: Stream10::Header(Kind10::Sasl),
            mechanism,
            response,
            stated: unstated(),
            sessions: [Session::Free; CHANNELS],
        }
    }

    /// The session on one of the gateway's channels. There is none above the last.
    pub(crate) fn session(&self, number: u16) -> Session
        ensures { result ≡ session_at self.now number }
    {
        match self.sessions.get(usize::from(number)) {
            Some(session) => *session,
            None => Session::Free,
        }
    }

    /// Sets the session on a channel. There is none above the last.
    #[tactic(auto, using(std::proofs::lemmas::List::set_past))]
    pub(crate) fn set_session(&mut self, number: u16, session: Session)
        ensures session { self.new ≡ with_session self.old number session }
        ensures beyond { CHANNELS ≤ number → self.new ≡ self.old }
    {
        let at = usize::from(number);
        if at < self.sessions.len() {
            self.sessions[at] = session;
        }
    }

    /// The gateway's number of the channel whose session the container has on this one.
    pub(crate) fn session_of(&self, number: u16) -> Option<u16>
        ensures { result ≡ session_of self.now number }
    {
        match carrying(&self.sessions, number) {
            Some(at) => Some(at as u16),
            None => None,
        }
    }

    /// What is awaited of the container's bytes.
    pub(crate) fn awaits(&self) -> Awaited10
        ensures { result ≡ awaits self.now }
    {
        match self.stream {
            Stream10::Header(kind) => Awaited10::Header(kind),
            Stream10::Frames | Stream10::Closed => Awaited10::Frame,
            Stream10::Bad | Stream10::Spent | Stream10::Ended => Awaited10::Nothing,
        }
    }

    /// Sessions may begin.
    pub(crate) fn is_running(&self) -> bool
        ensures { result ≡ is_running self.now.phase }
    {
        self.phase == Phase10::Running
    }

    /// Sessions may not begin any more.
    pub(crate) fn is_closing(&self) -> bool
        ensures { result ≡ is_closing self.now.phase }
    {
        matches!(self.phase, Phase10::Closing | Phase10::Closed)
    }
}
