//! The ports over sockets and the system's clock.

ghost use Rattle.std.specs.Prelude.{◌≡◌, ◌<◌, ◌≤◌, ◌↔◌, [], IfOk, IsSome, None, vec_len};
ghost use Rattle.gate_outside.specs.Counts.{Rose};
ghost use Rattle.gate_outside.specs.Ends.{IsNumbered, pairs_after, ends_accepted};
ghost use Rattle.gate_ends.specs.OpenEnds.{HasRoom};
ghost use Rattle.gate_ends.specs.declared.pieces.TheConstants.{PIECE};

use crate::clock::{elapsed, is_lively};
use crate::door::Door;
use crate::faults::raise;
use crate::outbox::Outbox;
use crate::waiting::{Said, said_by};
use gate_ends::{
    ENDS, Link, OpenEnds, PIECE, Parting, Unsent, accepted_of, is_used_up, is_waiting,
    is_waiting_to_accept,
};
use gate_outside::{Accepted, End, Got, Linked, Next, Ports, Put};
use mio::net::TcpStream;
use std::alloc::Global;
use std::io;
use std::io::{Eprint, ErrorKind, Write};
use std::net::{Net, Shutdown};
use std::rt::Clock;
use std::time::{Duration, Instant};
use wire_base::Memory;

/// How long `idle` waits at most, in milliseconds. Heartbeats and limits of time are in seconds.
const IDLE_WAIT: u64 = 40;

/// Where clients are awaited, and where the container is: an address or a name, with a port.
#[derive(Clone, Copy, Debug)]
pub struct Addresses<'a> {
    pub listen: &'a str,
    pub upstream: &'a str,
}

/// The turns that `finish` makes at most. What it waits for is over before.
const LAST_TURNS: u32 = 10_000;

/// Ports over non-blocking sockets. They tell no log.
///
/// Room for 256 pairs is taken when the ports are made, or for as many as the system has
/// descriptors left for, two for each. Accept answers NotYet while there is no room for a client
/// and for the upstream end of its pair; so a client that was accepted isn't refused for want of
/// it. Where the addresses are not given, the one cannot be bound or the other not be found when
/// the ports are made, each accept fails. No error of one accept is a fault: it is answered NotYet.
/// It is told on the standard error, once a second at most, and so is a connection to the container
/// that fails. That a client waits for room is told once for each time.
///
/// Where a connection to the container fails or ends, a connect of the ports' own tells whether it
/// is there still, and accept answers NotYet until that is known. While it cannot be reached the
/// listener is closed, and each second a connect is tried to each address that the system finds for
/// it then. That too is told, and that it is reached again. A stream that connected so is that of
/// the next pair, for 5,000 ms.
///
/// A call on an end asks the system only where it may do something: `now` learns what is ready, and
/// `idle` waits for it, for 40 ms at most. What a write takes is buffered, 65,536 bytes an end, and
/// goes out at the next `now`, `idle` or `shut`, or when the buffer is full. 32,768 bytes and more
/// in one write go past it where nothing waits. What the outbox holds goes out at `now` and `idle`.
/// An end that was shut is kept aside until its bytes are sent, for 1,000 ms at most.
#[derive(Drop)]
pub struct RealPorts<'a, R: Net + Clock + Eprint, W: Write> {
    runtime: &'a R,
    outbox: &'a Outbox<W>,
    door: Option<Door<'a>>,
    start: Option<Instant>,
    held: OpenEnds<TcpStream>,
    partings: Vec<Parting<TcpStream>>,
    piece: Vec<u8>,
    faults: u64,
    last: u64,
    // Whether `idle` has sent what waits and asked the system since the last `now`.
    asked: bool,
    // When the system said something last.
    said_at: Option<Instant>,
    // A read into no room would look like the end of the stream.
    ghost has_piece: { vec_len piece ≡ PIECE },
}

impl<'a, R: Net + Clock + Eprint, W: Write + Drop> RealPorts<'a, R, W> {
    /// Looks both addresses up, that to listen at and the container's, which may wait for the
    /// system, and binds the first. The standard error is told where it listens, or why it does
    /// not.
    pub fn new(
        runtime: &'a R,
        alloc: Global,
        outbox: &'a Outbox<W>,
        addresses: Option<Addresses<'a>>,
    ) -> Result<RealPorts<'a, R, W>, Memory>
        ensures faults { IfOk result (λ ports. ⟦<RealPorts<'a, R, W> as Ports>⟧.faults ports ≡ 0) }
        ensures pairs { IfOk result (λ ports. ⟦<RealPorts<'a, R, W> as Ports>⟧.pairs ports ≡ 0) }
        ensures ends { IfOk result (λ ports. ⟦<RealPorts<'a, R, W> as Ports>⟧.ends ports ≡ []) }
        ensures last { IfOk result (λ ports. ⟦<RealPorts<'a, R, W> as Ports>⟧.last ports ≡ 0) }
        ensures log { IfOk result (λ ports. ⟦<RealPorts<'a, R, W> as Ports>⟧.log ports ≡ None) }
    {
        let door = match addresses {
            Some(addresses) => Door::open(runtime, alloc, addresses)?,
            None => None,
        };
        let buffers = match &door {
            Some(door) => door.descriptors,
            None => 0,
        };
        Ok(RealPorts {
            runtime,
            outbox,
            door,
            start: Instant::now(runtime).ok(),
            held: OpenEnds::new(alloc, buffers)?,
            partings: Vec::with_capacity(alloc, ENDS)?,
            piece: vec![in alloc; 0; PIECE]?,
            faults: 0,
            last: 0,
            asked: false,
            said_at: None,
        })
    }

    /// Waits until the bytes of ends that were shut are sent, for 1,000 ms at most. To be called
    /// when the service has ended. The standard error is told why the outbox failed, if it did.
    pub fn finish(&mut self) {
        self.outbox.tell(self.runtime);
        for _ in 0..LAST_TURNS {
            if self.partings.is_empty() {
                return;
            }
            self.idle();
            self.now();
        }
    }
}

/// Ends a stream, and gives its buffer. `Err` where the system did not take the end.
fn end_stream(link: Link<TcpStream>) -> (Unsent, io::Result<()>) {
    let ended = link.out.writer.shutdown(Shutdown::Both);
    (link.out.unsent, ended)
}

/// Sends what waits, at open ends and at those that were shut, and lets go of the latter that are
/// over.
fn send(held: &mut OpenEnds<TcpStream>, partings: &mut Vec<Parting<TcpStream>>, moment: u64)
    ensures pairs { held.new.pairs ≡ held.old.pairs }
    ensures ends { held.new.ends.items ≡ held.old.ends.items }
{
    held.flush();
    for parting in partings.iter_mut() {
        parting.link.out.flush();
    }
    for _ in 0..partings.len() {
        let Some(at) = partings.iter().position(|this| this.is_over(moment)) else {
            return;
        };
        let (unsent, _) = end_stream(partings.swap_remove(at).link);
        held.give_back(unsent);
    }
}

/// Asks the system what is ready, and waits for it so long at most; whether it said something.
/// Where it cannot say, all may be ready.
fn ask(
    door: &mut Door<'_>,
    held: &mut OpenEnds<TcpStream>,
    partings: &mut [Parting<TcpStream>],
    most: u64,
) -> bool
    ensures pairs { held.new.pairs ≡ held.old.pairs }
    ensures ends { held.new.ends.items ≡ held.old.ends.items }
{
    if door.watch.wait(Duration::from_millis(most)).is_err() {
        door.knocked = true;
        door.upstream.spoke = true;
        held.note_all();
        return false;
    }
    for event in door.watch.events.iter() {
        match said_by(event) {
            Some(Said::Listener) => door.knocked = true,
            Some(Said::Try) => door.upstream.spoke = true,
            Some(
                Said::End {
                    pair,
                    end,
                    readable,
                    writable,
                },
            ) => {
                if end == End::Up {
                    door.upstream.asked = None;
                }
                held.note(pair, end, readable, writable);
                note_parting(partings, pair, end, writable);
            }
            None => {}
        }
    }
    !door.watch.events.is_empty()
}

/// The system said that an end may be written, which may have been shut.
fn note_parting(partings: &mut [Parting<TcpStream>], pair: u32, end: End, writable: bool) {
    for parting in partings.iter_mut() {
        parting.note(pair, end, writable);
    }
}

impl<'a, R: Net + Clock + Eprint, W: Write + Drop> Ports for RealPorts<'a, R, W> {
    ghost faults = { λ ports. ports.faults };

    ghost pairs = { λ ports. ports.held.pairs };

    ghost ends = { λ ports. ports.held.ends.items };

    ghost last = { λ ports. ports.last };

    ghost log = { λ _. None };

    fn accept(&mut self) -> Accepted
        requires { self.old.held.pairs < 4294967295 }
        ensures later { self.old.faults ≤ self.new.faults }
        ensures cause { result ≡ Accepted.Failed → Rose self.old.faults self.new.faults }
        ensures number { IsNumbered result self.old.held.pairs }
        ensures pairs { self.new.held.pairs ≡ pairs_after result self.old.held.pairs }
        ensures ends { self.new.held.ends.items ≡ ends_accepted result self.old.held.ends.items }
        ensures last { self.new.last ≡ self.old.last }
        ensures failed { result ≡ Accepted.Failed ↔ self.old.door ≡ None }
        ensures full { IsSome self.old.door
            → (HasRoom (vec_len self.old.held.spare) self.old.held.ends.items → ⊥)
            → result ≡ Accepted.NotYet }
    {
        let Some(door) = &mut self.door else {
            raise(&mut self.faults);
            return Accepted::Failed;
        };
        if !door.is_open() || !self.held.has_room() {
            return Accepted::NotYet;
        }
        let client = door.client(self.held.pairs);
        door.knocked = !is_used_up(&client);
        let answer = accepted_of(&client, self.held.pairs);
        match client {
            Ok(stream) => self.held.accept(stream),
            Err(error) if is_waiting_to_accept(&error) => {}
            Err(error) => door.tell(self.runtime, &error, self.last),
        }
        answer
    }

    fn connect(&mut self, pair: u32) -> Linked {
        if let Some(door) = &mut self.door {
            match door.link(self.runtime, pair, self.last) {
                Ok(stream) => {
                    if self.held.has_space()
                        && let Some(unsent) = self.held.buffer_for(pair)
                    {
                        self.held.connect(pair, stream, unsent);
                        return Linked::Ok;
                    }
                }
                Err(error) => door.doubt(self.runtime, Some(error), self.last),
            }
        }
        raise(&mut self.faults);
        Linked::Failed
    }

    fn read(&mut self, pair: u32, end: End, buf: &mut [u8]) -> Got {
        let Some(at) = self.held.find(pair, end) else {
            unreachable!()
        };
        let got = self.held.links[at].read(&mut self.piece, buf);
        if got == Got::Failed {
            raise(&mut self.faults);
        }
        if end == End::Up
            && let Some(door) = &mut self.door
        {
            match got {
                Got::Failed => {
                    let why = self.held.links[at].out.why.take();
                    door.doubt(self.runtime, why, self.last);
                }
                // The gateway ends an upstream stream itself, unless the container fails.
                Got::Ended => {
                    let why = ErrorKind::UnexpectedEof.into();
                    door.doubt(self.runtime, Some(why), self.last);
                }
                Got::Bytes(_) | Got::NotYet => {}
            }
        }
        got
    }

    fn write(&mut self, pair: u32, end: End, bytes: &[u8]) -> Put {
        let Some(at) = self.held.find(pair, end) else {
            unreachable!()
        };
        let put = self.held.links[at].out.write(bytes);
        if put == Put::Failed {
            raise(&mut self.faults);
            if end == End::Up
                && let Some(door) = &mut self.door
            {
                let why = self.held.links[at].out.why.take();
                door.doubt(self.runtime, why, self.last);
            }
        }
        put
    }

    fn shut(&mut self, pair: u32, end: End) {
        let Some(mut link) = self.held.close(pair, end) else {
            return;
        };
        link.out.flush();
        if !link.out.is_settled() {
            let parting = Parting::new(pair, end, link, self.last);
            if self.partings.push(parting).is_err() {
                raise(&mut self.faults);
            }
            return;
        }
        let (unsent, ended) = end_stream(link);
        self.held.give_back(unsent);
        // An end whose peer is gone already is not connected any more, which is no error here.
        if let Err(error) = ended
            && !is_waiting(&error)
        {
            raise(&mut self.faults);
        }
    }

    fn idle(&mut self) -> Next {
        self.outbox.send();
        send(&mut self.held, &mut self.partings, self.last);
        if let Some(door) = &mut self.door {
            let lively = is_lively(self.runtime, self.said_at);
            let most = if lively { 0 } else { IDLE_WAIT };
            if ask(door, &mut self.held, &mut self.partings, most) {
                self.said_at = Instant::now(self.runtime).ok();
            }
            self.asked = true;
        }
        Next::Go
    }

    fn now(&mut self) -> u64 {
        if !self.asked {
            self.outbox.send();
            send(&mut self.held, &mut self.partings, self.last);
            if let Some(door) = &mut self.door
                && ask(door, &mut self.held, &mut self.partings, 0)
            {
                self.said_at = Instant::now(self.runtime).ok();
            }
        }
        self.asked = false;
        match elapsed(self.runtime, self.start) {
            Some(moment) => self.last = self.last.max(moment),
            None => raise(&mut self.faults),
        }
        if let Some(door) = &mut self.door {
            door.go_on(self.runtime, self.last);
            door.tell_full(self.runtime, &self.held, self.last);
        }
        self.last
    }
}
