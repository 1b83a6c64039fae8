//! Waiting until the system says that a socket may be ready.

use gate_outside::End;
use mio::event::Event;
use mio::net::{TcpListener, TcpStream};
use mio::{Events, Interest, Poll, Token};
use std::alloc::Global;
use std::io;
use std::net::Net;
use std::time::Duration;
use wire_base::Memory;

/// The most that the system says at once: more than there are sockets.
const EVENTS: usize = 1_024;

/// The name of the listener. An end's name is less.
const LISTENER: usize = usize::MAX;

/// The name of the stream by which the container is tried.
const TRY: usize = usize::MAX - 1;

/// The sockets that the system watches, and what it said of them last. It says each change once.
#[derive(Drop)]
pub(crate) struct Watch {
    poll: Poll,
    pub(crate) events: Events<Global>,
}

/// What the system said of a socket.
#[derive(Clone, Copy, Debug)]
pub(crate) enum Said {
    /// A client may wait.
    Listener,
    /// The stream by which the container is tried may be connected, or have failed.
    Try,
    /// An end may be read, or written.
    End {
        pair: u32,
        end: End,
        readable: bool,
        writable: bool,
    },
}

impl Watch {
    /// No socket is watched yet.
    pub(crate) fn new(net: &impl Net, alloc: Global) -> Result<io::Result<Watch>, Memory> {
        let events = Events::with_capacity(alloc, EVENTS)?;
        match Poll::new(net) {
            Ok(poll) => Ok(Ok(Watch { poll, events })),
            Err(error) => Ok(Err(error)),
        }
    }

    pub(crate) fn add_listener(&self, listener: &mut TcpListener) -> io::Result<()> {
        let registry = self.poll.registry();
        registry.register(listener, Token(LISTENER), Interest::READABLE)
    }

    pub(crate) fn add_end(&self, stream: &mut TcpStream, pair: u32, end: End) -> io::Result<()> {
        self.add(stream, name_of(pair, end))
    }

    /// Watches the stream by which the container is tried.
    pub(crate) fn add_try(&self, stream: &mut TcpStream) -> io::Result<()> {
        self.add(stream, Token(TRY))
    }

    fn add(&self, stream: &mut TcpStream, name: Token) -> io::Result<()> {
        let both = Interest::READABLE | Interest::WRITABLE;
        self.poll.registry().register(stream, name, both)
    }

    /// Watches a stream by which the container was tried as the upstream end of a pair.
    pub(crate) fn rename(&self, stream: &mut TcpStream, pair: u32) -> io::Result<()> {
        let both = Interest::READABLE | Interest::WRITABLE;
        let name = name_of(pair, End::Up);
        self.poll.registry().reregister(stream, name, both)
    }

    /// Waits until the system says something, for so long at most.
    pub(crate) fn wait(&mut self, most: Duration) -> io::Result<()> {
        self.poll.poll(&mut self.events, Some(most))
    }
}

/// The name of an end.
fn name_of(pair: u32, end: End) -> Token {
    let side = if end == End::Client { 0 } else { 1 };
    Token(pair as usize * 2 + side)
}

/// What an event says. A socket that failed may be read and written, to learn of it.
pub(crate) fn said_by(event: &Event) -> Option<Said> {
    let Token(name) = event.token();
    if name == LISTENER {
        return Some(Said::Listener);
    }
    if name == TRY {
        return Some(Said::Try);
    }
    Some(Said::End {
        pair: u32::try_from(name / 2).ok()?,
        end: if name % 2 == 0 { End::Client } else { End::Up },
        readable: event.is_readable() || event.is_read_closed() || event.is_error(),
        writable: event.is_writable() || event.is_write_closed() || event.is_error(),
    })
}
