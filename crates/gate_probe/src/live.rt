//! A play of a client and a container, with the running program between them.

use crate::frames;
use crate::peer::{Peer, TURNS, is_waiting};
use crate::script::{HEADER, LOGIN, PLAY, Step};
use std::alloc::Global;
use std::io::{Read, Write};
use std::net::{Net, OpenListener, OpenStream, TcpListener, TcpStream};
use std::process::{Child, Command, OpenProcess, Processes, Stdio};
use std::rt::Clock;
use std::time::Duration;
use std::{io, thread};

/// How often a client tries to connect while the program begins to listen.
const ATTEMPTS: u32 = 10_000;

/// The time between two tries, in milliseconds.
const PAUSE: u64 = 1;

/// Where a play takes place.
#[derive(Clone, Copy)]
pub struct Venue<'a> {
    pub program: &'a str,
    /// The address at which it listens, and that at which it expects the container.
    pub listen: &'a str,
    pub upstream: &'a str,
    /// How many clients stand beside that are greeted and do nothing more.
    pub idle: u32,
}

/// The peers of a play.
#[derive(Drop)]
struct Peers<L: OpenListener + Drop> {
    alloc: Global,
    client: Peer<L::Stream>,
    /// Where the program connects to.
    listener: L,
    container: Option<Peer<L::Stream>>,
}

impl<L: OpenListener + Drop> Peers<L>
where
    L::Stream: Read + Write + OpenStream,
{
    /// The container's end, once the program has connected; None where it doesn't.
    fn container(&mut self) -> io::Result<Option<&mut Peer<L::Stream>>> {
        if self.container.is_none() {
            self.container = accepted(self.alloc, &self.listener)?;
        }
        Ok(self.container.as_mut())
    }

    /// Does a step; whether it came about.
    fn act(&mut self, step: &Step) -> io::Result<bool> {
        match step {
            Step::ClientSends(digits) => self.client.send(digits),
            Step::ClientMeets(digits) => self.client.meet(digits),
            Step::ContainerSends(digits) => match self.container()? {
                Some(peer) => peer.send(digits),
                None => Ok(false),
            },
            Step::ContainerIsGreeted(digits) | Step::ContainerMeets(digits) => {
                match self.container()? {
                    Some(peer) => peer.meet(digits),
                    None => Ok(false),
                }
            }
        }
    }

    /// Does steps, and counts the frames that are met; whether all came about.
    fn play(&mut self, steps: &[Step], met: &mut u32) -> io::Result<bool> {
        for step in steps {
            if !self.act(step)? {
                return Ok(false);
            }
            if matches!(step, Step::ClientMeets(_) | Step::ContainerMeets(_)) {
                *met = met.saturating_add(1);
            }
        }
        Ok(true)
    }
}

/// The next connection on which anything comes, of a listener that doesn't wait; None where none is.
/// The program may connect only to learn whether the container is there.
fn accepted<L: OpenListener>(alloc: Global, listener: &L) -> io::Result<Option<Peer<L::Stream>>>
where
    L::Stream: Read + Write + OpenStream,
{
    for _ in 0..TURNS {
        match listener.accept() {
            Ok((stream, _)) => {
                let mut peer = Peer::new(alloc, stream)?;
                if peer.begins().unwrap_or(false) {
                    return Ok(Some(peer));
                }
            }
            Err(error) if is_waiting(&error) => {}
            Err(error) => return Err(error),
        }
    }
    Ok(None)
}

/// Starts the program. Its report goes nowhere.
fn started<R: Processes>(alloc: Global, rt: &R, venue: Venue<'_>) -> io::Result<Child<R::Started>> {
    let pairs = u64::from(venue.idle) + 1;
    let pairs = format!(in alloc; "{pairs}")?;
    let mut command = Command::new(alloc, venue.program)?;
    command.arg("serve")?;
    command.arg("--pairs")?.arg(pairs.as_str())?;
    command.arg("--listen")?.arg(venue.listen)?;
    command.arg("--upstream")?.arg(venue.upstream)?;
    command.stdout(Stdio::null()).spawn(rt)
}

/// A client that is connected, once the program listens; None where it ends before, or never does.
fn connected<R: Net + Clock, P: OpenProcess>(
    rt: &R,
    alloc: Global,
    program: &mut Child<P>,
    address: &str,
) -> io::Result<Option<Peer<R::Stream>>> {
    for _ in 0..ATTEMPTS {
        if let Ok(stream) = TcpStream::connect(rt, address) {
            return Ok(Some(Peer::new(alloc, stream)?));
        }
        if program.try_wait()?.is_some() {
            return Ok(None);
        }
        thread::sleep(rt, Duration::from_millis(PAUSE));
    }
    Ok(None)
}

/// Whether the program ends by itself, with success.
fn ends_well<P: OpenProcess>(clock: &impl Clock, program: &mut Child<P>) -> io::Result<bool> {
    for _ in 0..ATTEMPTS {
        if let Some(status) = program.try_wait()? {
            return Ok(status.success());
        }
        thread::sleep(clock, Duration::from_millis(PAUSE));
    }
    Ok(false)
}

/// Clients that are greeted, and do nothing more; None where one can't connect or isn't greeted.
fn idle_clients<R: Net + Clock, P: OpenProcess>(
    rt: &R,
    alloc: Global,
    program: &mut Child<P>,
    venue: Venue<'_>,
) -> io::Result<Option<Vec<Peer<R::Stream>>>> {
    let mut idle = Vec::new(alloc);
    for _ in 0..venue.idle {
        let Some(mut peer) = connected(rt, alloc, program, venue.listen)? else {
            return Ok(None);
        };
        peer.send(HEADER)?;
        idle.push(peer)?;
    }
    for peer in &mut idle {
        if !peer.meet(frames::START)? {
            return Ok(None);
        }
    }
    Ok(Some(idle))
}

/// Plays with a program that runs, and counts the frames that are met; whether all came about, and
/// the program ended well.
fn played<R: Net + Clock + AllocGlobal, P: OpenProcess>(
    rt: &R,
    listener: R::Listener,
    program: &mut Child<P>,
    venue: Venue<'_>,
    met: &mut u32,
) -> io::Result<bool> {
    let alloc = rt.alloc();
    let Some(client) = connected(rt, alloc, program, venue.listen)? else {
        return Ok(false);
    };
    let mut peers = Peers {
        alloc,
        client,
        listener,
        container: None,
    };
    if !peers.play(&LOGIN, met)? {
        return Ok(false);
    }
    let Some(idle) = idle_clients(rt, alloc, program, venue)? else {
        return Ok(false);
    };
    let is_played = peers.play(&PLAY, met)?;
    drop(idle);
    drop(peers);
    Ok(is_played && ends_well(rt, program)?)
}

/// Starts the program and plays with it; whether all came about. `met` is how many frames were met.
/// The program is ended in any case.
///
/// # Errors
///
/// Where an address can't be used, the program can't be started, or a stream fails.
pub fn live<R: Net + Processes + Clock + AllocGlobal>(
    rt: &R,
    venue: Venue<'_>,
    met: &mut u32,
) -> io::Result<bool> {
    let listener = TcpListener::bind(rt, venue.upstream)?;
    listener.set_nonblocking(true)?;
    let mut program = started(rt.alloc(), rt, venue)?;
    let outcome = played(rt, listener, &mut program, venue, met);
    // (it may have ended)
    let _ = program.kill();
    let _ = program.wait();
    outcome
}
