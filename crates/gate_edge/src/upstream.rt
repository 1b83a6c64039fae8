//! Where the container is, and whether it can be reached.

use crate::clock::elapsed;
use crate::sockets::{addresses_of, is_connected, link_to};
use crate::standard_error::{may_read, tell_container, tell_lost, tell_reached, tell_unknown};
use crate::waiting::Watch;
use gate_ends::{Pace, Tries};
use gate_outside::End;
use mio::net::TcpStream;
use std::alloc::Global;
use std::io;
use std::io::{Eprint, ErrorKind};
use std::net::{Net, SocketAddr};
use std::os::fd::AsRawFd;
use std::rt::Clock;
use std::time::Instant;
use wire_base::Memory;

/// How long a connect may take, in milliseconds. A stream that connected by a try waits as long for
/// a pair.
const PATIENCE: u64 = 5_000;

/// The most tries that are made at once: one of the address in use, and one of each that std finds
/// for a name.
const TRIES: u32 = 33;

/// The container's addresses, whether one of them can be reached, and when a failure there may be
/// told.
///
/// Where something fails there, a connect of the edge's own tells whether the container is lost. Its
/// stream is that of the next pair, if one comes soon.
#[derive(Drop)]
pub(crate) struct Upstream<'a> {
    text: &'a str,
    addresses: Vec<SocketAddr>,
    pub(crate) tries: Tries,
    // The stream of a try, and until when it may take to connect, or waits for a pair.
    stream: Option<TcpStream>,
    until: u64,
    /// The system said something of that stream.
    pub(crate) spoke: bool,
    /// When a pair began to connect, if no end upstream was ready since.
    pub(crate) asked: Option<u64>,
    // How long the last look-up took, in milliseconds.
    took: u64,
    pace: Pace,
}

impl<'a> Upstream<'a> {
    /// Looks the addresses up, which may wait for the system. `None` where there are none; the
    /// standard error is told why.
    pub(crate) fn look_up<R: Net + Eprint>(
        runtime: &R,
        alloc: Global,
        text: &'a str,
    ) -> Result<Option<Upstream<'a>>, Memory> {
        let mut addresses = Vec::new(alloc);
        match addresses_of(runtime, text, &mut addresses) {
            Ok(()) => {}
            Err(error) if error.kind() == ErrorKind::OutOfMemory => return Err(Memory),
            Err(error) => {
                tell_unknown(runtime, text, &error);
                return Ok(None);
            }
        }
        let count = addresses.len();
        if count == 0 {
            tell_unknown(runtime, text, &ErrorKind::AddrNotAvailable.into());
            return Ok(None);
        }
        Ok(Some(Upstream {
            text,
            addresses,
            tries: Tries::new(count),
            stream: None,
            until: 0,
            spoke: false,
            asked: None,
            took: 0,
            pace: Pace::new(),
        }))
    }

    /// The address that is in use.
    fn address(&self) -> Option<SocketAddr> {
        self.addresses.get(self.tries.place).copied()
    }

    /// The stream of a pair's end, watched under its number: one that connected by a try, or one
    /// that begins to connect.
    pub(crate) fn stream(
        &mut self,
        net: &impl Net,
        watch: &Watch,
        pair: u32,
        moment: u64,
    ) -> io::Result<TcpStream> {
        if self.tries.is_reached()
            && let Some(mut stream) = self.stream.take()
            && !may_read(stream.as_raw_fd())
        {
            watch.rename(&mut stream, pair)?;
            return Ok(stream);
        }
        let Some(address) = self.address() else {
            return Err(ErrorKind::AddrNotAvailable.into());
        };
        let mut stream = link_to(net, address)?;
        watch.add_end(&mut stream, pair, End::Up)?;
        if self.asked.is_none() {
            self.asked = Some(moment);
        }
        Ok(stream)
    }

    /// Something failed there: the standard error is told why, unless that was told just before.
    /// Without an error the system took no byte.
    pub(crate) fn doubt(&mut self, runtime: &impl Eprint, error: Option<io::Error>, moment: u64) {
        if self.pace.is_due(moment) {
            tell_container(runtime, self.address(), &error);
        }
        self.suspect();
    }

    /// It may be lost: that is tried. A stream that waited for a pair says nothing of it any more.
    fn suspect(&mut self) {
        if self.tries.is_reached() {
            self.stream = None;
        }
        self.tries.doubt();
    }

    /// Goes on with the tries, as many as are decided at once.
    pub(crate) fn go_on<R: Net + Clock + Eprint>(
        &mut self,
        runtime: &R,
        watch: &Watch,
        moment: u64,
    ) {
        if self
            .asked
            .is_some_and(|at| at.saturating_add(PATIENCE) <= moment)
        {
            self.asked = None;
            self.suspect();
        }
        self.look_at_stream(runtime, moment);
        for _ in 0..TRIES {
            if self.stream.is_some() || !self.tries.is_due(moment) {
                return;
            }
            self.begin(runtime, watch, moment);
            self.look_at_stream(runtime, moment);
        }
    }

    /// Decides on the stream of a try, once the system spoke of it or its time is over.
    fn look_at_stream(&mut self, runtime: &impl Eprint, moment: u64) {
        let is_over = self.until <= moment;
        if !self.spoke && !is_over {
            return;
        }
        self.spoke = false;
        let Some(stream) = &self.stream else {
            return;
        };
        if self.tries.is_reached() {
            // A container says nothing first, so where there is something to read it closed it.
            if is_over || may_read(stream.as_raw_fd()) {
                self.stream = None;
            }
            return;
        }
        match is_connected(stream) {
            Ok(true) => self.succeed(runtime, moment),
            Ok(false) if !is_over => {}
            Ok(false) => self.fail(runtime, &ErrorKind::TimedOut.into(), moment),
            Err(error) => self.fail(runtime, &error, moment),
        }
    }

    fn succeed(&mut self, runtime: &impl Eprint, moment: u64) {
        self.until = moment.saturating_add(PATIENCE);
        if self.tries.succeed() {
            tell_reached(runtime, self.address());
        }
    }

    fn fail(&mut self, runtime: &impl Eprint, error: &io::Error, moment: u64) {
        self.stream = None;
        if self.tries.fail(moment, self.took) {
            tell_lost(runtime, self.text, error);
        }
    }

    /// Begins a try, in a round of its own where none is under way.
    fn begin<R: Net + Clock + Eprint>(&mut self, runtime: &R, watch: &Watch, moment: u64) {
        if self.tries.left == 0 {
            self.look_up_again(runtime);
        }
        match self.next(runtime, watch) {
            Ok(stream) => {
                self.stream = Some(stream);
                self.until = moment.saturating_add(PATIENCE);
                self.spoke = true;
            }
            Err(error) => self.fail(runtime, &error, moment),
        }
    }

    /// A stream that begins to connect to the address in use.
    fn next(&self, net: &impl Net, watch: &Watch) -> io::Result<TcpStream> {
        let Some(address) = self.address() else {
            return Err(ErrorKind::AddrNotAvailable.into());
        };
        let mut stream = link_to(net, address)?;
        watch.add_try(&mut stream)?;
        Ok(stream)
    }

    /// Begins a round over the addresses that the system finds now, or over those before where it
    /// finds none.
    fn look_up_again<R: Net + Clock>(&mut self, runtime: &R) {
        let begun = Instant::now(runtime).ok();
        let _ = addresses_of(runtime, self.text, &mut self.addresses);
        self.took = elapsed(runtime, begun).unwrap_or(0);
        let count = self.addresses.len();
        if count > 0 {
            self.tries.begin(count);
        }
    }
}
