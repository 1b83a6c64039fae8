//! Sockets: how they are made, and what is asked of the system for each.

ghost use Rattle.std.specs.Prelude.{◌≤◌, IfOk};

use libc::net as c;
use mio::net::{TcpListener, TcpStream};
use std::alloc::Global;
use std::io;
use std::io::ErrorKind;
use std::net::{Net, SocketAddr, ToSocketAddrs};
use std::os::fd::{AsFd, AsRawFd};
use wire_base::Memory;

/// The next client's stream.
pub(crate) fn next_client(listener: &TcpListener) -> io::Result<TcpStream> {
    let (stream, _) = listener.accept()?;
    prepare(&stream)?;
    Ok(stream)
}

/// A stream that begins to connect.
pub(crate) fn link_to(net: &impl Net, address: SocketAddr) -> io::Result<TcpStream> {
    let stream = TcpStream::connect(net, address)?;
    prepare(&stream)?;
    Ok(stream)
}

/// Small frames are not held back, and a peer that is gone without a word is found by the system's
/// probes.
fn prepare(stream: &TcpStream) -> io::Result<()> {
    stream.set_nodelay(true)?;
    keep_alive(stream)
}

/// Has the system probe a peer that is silent for long.
fn keep_alive(stream: &TcpStream) -> io::Result<()> {
    let mut on = [0u8; 16];
    on[..4].copy_from_slice(&1i32.to_ne_bytes());
    let fd = stream.as_raw_fd();
    let status = unsafe { c::setsockopt(fd, c::SOL_SOCKET, c::SO_KEEPALIVE, &on, 4) };
    if status < 0 {
        return Err(io::Error::from_raw_os_error(os::errno()));
    }
    Ok(())
}

/// How many descriptors the system still gives, so many at most. They are all given back.
pub(crate) fn spare_descriptors<F: AsFd>(
    alloc: Global,
    of: &F,
    most: usize,
) -> Result<usize, Memory>
    ensures { IfOk result (λ n. n ≤ most) }
{
    let mut copies = Vec::with_capacity(alloc, most)?;
    for _k in 0..most {
        match of.as_fd().try_clone_to_owned() {
            Ok(copy) => copies.push(copy)?,
            Err(_) => break,
        }
    }
    Ok(copies.len())
}

/// Whether a stream that began to connect is connected. `Err` where it can't be.
pub(crate) fn is_connected(stream: &TcpStream) -> io::Result<bool> {
    if let Some(error) = stream.take_error()? {
        return Err(error);
    }
    let Ok(peer) = stream.peer_addr() else {
        return Ok(false);
    };
    // Where nobody listens at a port of this machine, the system may have given it to the stream.
    if stream.local_addr()? == peer {
        return Err(ErrorKind::ConnectionRefused.into());
    }
    Ok(true)
}

/// The first address of a name or of numbers, with a port. It may wait for the system.
pub(crate) fn address_of(net: &impl Net, text: &str) -> io::Result<SocketAddr> {
    match text.to_socket_addrs(net)?.next() {
        Some(address) => Ok(address),
        None => Err(ErrorKind::AddrNotAvailable.into()),
    }
}

/// All of them, in the order in which the system gives them, in place of those that were found
/// before. Where it gives none those stay.
pub(crate) fn addresses_of(
    net: &impl Net,
    text: &str,
    addresses: &mut Vec<SocketAddr>,
) -> io::Result<()> {
    let mut found = text.to_socket_addrs(net)?;
    let Some(first) = found.next() else {
        return Err(ErrorKind::AddrNotAvailable.into());
    };
    addresses.clear();
    addresses.push(first)?;
    for address in found {
        addresses.push(address)?;
    }
    Ok(())
}
