//! Where clients come in: the listener, the container behind it, and the sockets that the system
//! watches.

use crate::real_ports::Addresses;
use crate::sockets::{address_of, next_client, spare_descriptors};
use crate::standard_error::{may_read, tell_accept, tell_full, tell_listening, tell_room};
use crate::upstream::Upstream;
use crate::waiting::Watch;
use gate_ends::{ENDS, OpenEnds, PAIRS, Pace};
use gate_outside::End;
use mio::net::{TcpListener, TcpStream};
use std::alloc::Global;
use std::io;
use std::io::{Eprint, ErrorKind};
use std::net::{Net, SocketAddr};
use std::os::fd::AsRawFd;
use std::rt::Clock;
use wire_base::Memory;

/// The descriptors that are left for what the program opens beside ends: a file, and the stream by
/// which the container is tried.
const OTHERS: usize = 2;

/// The listener, the container, and what is watched.
#[derive(Drop)]
pub(crate) struct Door<'a> {
    pub(crate) watch: Watch,
    pub(crate) upstream: Upstream<'a>,
    /// None while the container is lost.
    listener: Option<TcpListener>,
    // The address that was bound, to which it is bound again.
    address: SocketAddr,
    /// Whether a client may wait.
    pub(crate) knocked: bool,
    /// The descriptors that the system had left for ends, as many as 256 pairs have at most.
    pub(crate) descriptors: usize,
    // When a client that isn't accepted may be told, when the room is looked at, and whether that
    // there is none was told.
    pace: Pace,
    looks: Pace,
    is_full_told: bool,
    // When the listener may be bound again.
    binds: Pace,
}

impl<'a> Door<'a> {
    /// Looks the container's addresses up, and binds a listener, if the system lets it be bound and
    /// watched. The standard error is told of both.
    pub(crate) fn open<R: Net + Clock + Eprint>(
        runtime: &R,
        alloc: Global,
        addresses: Addresses<'a>,
    ) -> Result<Option<Door<'a>>, Memory> {
        let Some(upstream) = Upstream::look_up(runtime, alloc, addresses.upstream)? else {
            return Ok(None);
        };
        let Some((watch, listener)) = listen_at(runtime, alloc, addresses.listen)? else {
            return Ok(None);
        };
        let Ok(address) = listener.local_addr() else {
            return Ok(None);
        };
        let spare = spare_descriptors(alloc, &listener, ENDS + OTHERS)?;
        let descriptors = spare.saturating_sub(OTHERS);
        if descriptors < ENDS {
            tell_room(runtime, descriptors / 2, PAIRS);
        }
        let mut door = Door {
            watch,
            upstream,
            listener: Some(listener),
            address,
            knocked: true,
            descriptors,
            pace: Pace::new(),
            looks: Pace::new(),
            is_full_told: false,
            binds: Pace::new(),
        };
        door.go_on(runtime, 0);
        Ok(Some(door))
    }

    /// Whether clients may come in now: others wait, or are refused.
    pub(crate) fn is_open(&self) -> bool {
        self.knocked && self.upstream.tries.is_reached()
    }

    /// The next client's stream, watched under the pair's number.
    pub(crate) fn client(&self, pair: u32) -> io::Result<TcpStream> {
        let Some(listener) = &self.listener else {
            return Err(ErrorKind::WouldBlock.into());
        };
        let mut stream = next_client(listener)?;
        self.watch.add_end(&mut stream, pair, End::Client)?;
        Ok(stream)
    }

    /// The stream of a pair's upstream end, watched under its number.
    pub(crate) fn link(&mut self, net: &impl Net, pair: u32, moment: u64) -> io::Result<TcpStream> {
        self.upstream.stream(net, &self.watch, pair, moment)
    }

    /// Tells of a client that could not be accepted, unless that was told just before.
    pub(crate) fn tell(&mut self, runtime: &impl Eprint, error: &io::Error, moment: u64) {
        if self.pace.is_due(moment) {
            tell_accept(runtime, error);
        }
    }

    /// Something failed at the container: tells why, and tries whether it is lost.
    pub(crate) fn doubt<R: Net + Clock + Eprint>(
        &mut self,
        runtime: &R,
        error: Option<io::Error>,
        moment: u64,
    ) {
        self.upstream.doubt(runtime, error, moment);
        self.go_on(runtime, moment);
    }

    /// Goes on with the tries of the container. The listener is closed once that is lost, and bound
    /// again, once a second at most, once it was reached.
    pub(crate) fn go_on<R: Net + Clock + Eprint>(&mut self, runtime: &R, moment: u64) {
        self.upstream.go_on(runtime, &self.watch, moment);
        if self.upstream.tries.is_lost() {
            self.listener = None;
            self.knocked = false;
        }
        if self.upstream.tries.is_reached()
            && self.listener.is_none()
            && self.binds.is_due(moment)
        {
            self.bind_again(runtime);
        }
    }

    fn bind_again<R: Net + Eprint>(&mut self, runtime: &R) {
        let bound = bind(runtime, &self.watch, self.address);
        tell_listening(runtime, &self.address, &bound);
        self.listener = bound.ok();
        self.knocked = true;
    }

    /// Tells of a client that waits while as many are open as there is room for, once for each time
    /// that it happens. Once a second that is looked at.
    pub(crate) fn tell_full(
        &mut self,
        runtime: &impl Eprint,
        held: &OpenEnds<TcpStream>,
        moment: u64,
    ) {
        let Some(listener) = &self.listener else {
            return;
        };
        if !self.looks.is_due(moment) {
            return;
        }
        let clients = held.pairs_open();
        if held.has_room() && clients < PAIRS {
            self.is_full_told = false;
        } else if !self.is_full_told && may_read(listener.as_raw_fd()) {
            self.is_full_told = true;
            tell_full(runtime, clients);
        }
    }
}

/// Binds a listener, and watches it. The standard error is told where, or why not.
fn listen_at<R: Net + Eprint>(
    runtime: &R,
    alloc: Global,
    text: &str,
) -> Result<Option<(Watch, TcpListener)>, Memory> {
    let watch = match Watch::new(runtime, alloc)? {
        Ok(watch) => watch,
        Err(error) => {
            tell_listening(runtime, &text, &Err(error));
            return Ok(None);
        }
    };
    let bound = address_of(runtime, text).and_then(|address| bind(runtime, &watch, address));
    tell_listening(runtime, &text, &bound);
    Ok(bound.ok().map(|listener| (watch, listener)))
}

fn bind(net: &impl Net, watch: &Watch, address: SocketAddr) -> io::Result<TcpListener> {
    let mut listener = TcpListener::bind(net, address)?;
    watch.add_listener(&mut listener)?;
    Ok(listener)
}
