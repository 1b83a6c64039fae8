//! What a user is told on the standard error. A line that would have to wait is left out.

use libc::net as c;
use libc::types::pollfd;
use mio::net::TcpListener;
use std::fmt::Display;
use std::io;
use std::io::Eprint;
use std::net::SocketAddr;

/// Whether a write to a descriptor would not wait, as far as the system knows.
pub(crate) fn may_write(fd: i32) -> bool {
    is_ready(fd, c::POLLOUT)
}

/// The same of a read, or of an accept.
pub(crate) fn may_read(fd: i32) -> bool {
    is_ready(fd, c::POLLIN)
}

fn is_ready(fd: i32, events: i16) -> bool {
    let mut asked = [pollfd {
        fd,
        events,
        revents: 0,
    }];
    c::poll(&mut asked, 0) != 0
}

/// Tells at which address clients are awaited, or why at none.
pub(crate) fn tell_listening<A: Display>(
    runtime: &impl Eprint,
    wanted: &A,
    bound: &io::Result<TcpListener>,
) {
    if !may_write(libc::STDERR_FILENO) {
        return;
    }
    let _ = match bound {
        Ok(listener) => match listener.local_addr() {
            Ok(address) => eprintln!(runtime; "listening on {address}"),
            Err(_) => eprintln!(runtime; "listening on {wanted}"),
        },
        Err(error) => eprintln!(runtime; "cannot listen on {wanted}: {error}"),
    };
}

/// Tells why a client could not be accepted.
pub(crate) fn tell_accept(runtime: &impl Eprint, error: &io::Error) {
    if may_write(libc::STDERR_FILENO) {
        let _ = eprintln!(runtime; "a client waits, and cannot be accepted: {error}");
    }
}

/// Tells for how many clients there is room, of how many.
pub(crate) fn tell_room(runtime: &impl Eprint, clients: usize, of: usize) {
    if may_write(libc::STDERR_FILENO) {
        let _ = eprintln!(runtime; "descriptors for {clients} clients at once, of {of}");
    }
}

/// Tells that a client waits since so many are open.
pub(crate) fn tell_full(runtime: &impl Eprint, clients: usize) {
    if may_write(libc::STDERR_FILENO) {
        let _ = eprintln!(runtime; "a client waits, and cannot be accepted: {clients} are open");
    }
}

/// Tells why the container's address can't be used.
pub(crate) fn tell_unknown(runtime: &impl Eprint, text: &str, error: &io::Error) {
    if may_write(libc::STDERR_FILENO) {
        let _ = eprintln!(runtime; "cannot use {text} as the container's address: {error}");
    }
}

/// Tells why a connection to the container failed.
pub(crate) fn tell_container(
    runtime: &impl Eprint,
    address: Option<SocketAddr>,
    error: &Option<io::Error>,
) {
    if !may_write(libc::STDERR_FILENO) {
        return;
    }
    let _ = match (address, error) {
        (Some(address), Some(error)) => {
            eprintln!(runtime; "the container at {address} failed: {error}")
        }
        (Some(address), None) => {
            eprintln!(runtime; "the container at {address} failed: no byte was taken")
        }
        (None, _) => eprintln!(runtime; "the container's address is not known"),
    };
}

/// Tells that no address of the container can be reached, and why not the last one.
pub(crate) fn tell_lost(runtime: &impl Eprint, text: &str, error: &io::Error) {
    if may_write(libc::STDERR_FILENO) {
        let _ = eprintln!(runtime;
            "the container at {text} cannot be reached, clients are refused: {error}"
        );
    }
}

/// Tells that the container can be reached after all.
pub(crate) fn tell_reached(runtime: &impl Eprint, address: Option<SocketAddr>) {
    if may_write(libc::STDERR_FILENO)
        && let Some(address) = address
    {
        let _ = eprintln!(runtime; "the container at {address} is reached");
    }
}

/// Tells why the standard output failed: what the system said, or else that it took nothing.
pub(crate) fn tell_output(runtime: &impl Eprint, error: &Option<io::Error>) {
    if !may_write(libc::STDERR_FILENO) {
        return;
    }
    let _ = match error {
        Some(error) => eprintln!(runtime; "the standard output failed: {error}"),
        None => eprintln!(runtime; "the standard output failed: no byte was taken"),
    };
}

/// Tells a line.
pub fn tell(runtime: &impl Eprint, line: &str) {
    if may_write(libc::STDERR_FILENO) {
        let _ = eprintln!(runtime; "{line}");
    }
}
