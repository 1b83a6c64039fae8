//! What the result of a call on a socket says.

ghost use Rattle.std.specs.Prelude.{◌≡◌};
ghost use Rattle.std.specs.IoError.{error_kind};
ghost use Rattle.gate_ends.specs.Answers.{is_waiting, is_waiting_to_accept, is_used_up};
ghost use Rattle.gate_ends.specs.Answers.{got_of, put_of, accepted_of};

use gate_outside::{Accepted, Got, Put};
use std::io;
use std::io::ErrorKind;

/// Whether a read or a write failed only since nothing could be done yet, so that it may be asked
/// again.
pub fn is_waiting(error: &io::Error) -> bool
    ensures { result ≡ is_waiting (error_kind error.now) }
{
    matches!(
        error.kind(),
        ErrorKind::WouldBlock | ErrorKind::NotConnected | ErrorKind::Interrupted
    )
}

/// The same of an accept, which a client that gave up while it waited ends too.
pub fn is_waiting_to_accept(error: &io::Error) -> bool
    ensures { result ≡ is_waiting_to_accept (error_kind error.now) }
{
    is_waiting(error) || matches!(error.kind(), ErrorKind::ConnectionAborted)
}

/// Whether nothing more can be done before the system says so: an interrupted call may be made
/// again at once.
pub fn is_used_up<T>(outcome: &io::Result<T>) -> bool
    ensures { result ≡ is_used_up outcome.now }
{
    match outcome {
        Ok(_) => false,
        Err(error) => matches!(
            error.kind(),
            ErrorKind::WouldBlock | ErrorKind::NotConnected
        ),
    }
}

/// What a read says.
pub fn got_of(read: &io::Result<usize>) -> Got
    ensures { result ≡ got_of read.now }
{
    match read {
        Ok(0) => Got::Ended,
        Ok(n) => Got::Bytes(*n),
        Err(error) if is_waiting(error) => Got::NotYet,
        Err(_) => Got::Failed,
    }
}

/// What a write says. One that took nothing has failed.
pub fn put_of(write: &io::Result<usize>) -> Put
    ensures { result ≡ put_of write.now }
{
    match write {
        Ok(0) => Put::Failed,
        Ok(n) => Put::Took(*n),
        Err(error) if is_waiting(error) => Put::NotYet,
        Err(_) => Put::Failed,
    }
}

/// What an accept says, where this is the number of the next pair. No error of one accept ends the
/// service.
pub fn accepted_of<T>(accept: &io::Result<T>, pair: u32) -> Accepted
    ensures { result ≡ accepted_of pair accept.now }
{
    match accept {
        Ok(_) => Accepted::Pair(pair),
        Err(_) => Accepted::NotYet,
    }
}
