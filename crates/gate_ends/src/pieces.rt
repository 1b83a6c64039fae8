//! Reads through a buffer of the reader's owner, since a reader promises little of the buffer that
//! it is lent.

ghost use Rattle.std.specs.Prelude.{◌≡◌, ◌<◌, ◌≤◌, length, take, drop, IfOk, OnErr};
ghost use Rattle.std.specs.Io.KnownBytes.{ReadConsumes};

use std::io;
use std::io::Read;

/// The most bytes of one read.
pub const PIECE: usize = 65_536;

/// Reads into the front of a buffer, and leaves the rest of it as it was. The bytes there are those
/// that the reader gave.
pub fn read_into<R: Read>(reader: &mut R, piece: &mut [u8], buf: &mut [u8]) -> io::Result<usize>
    requires piece { 0 < length piece.old }
    ensures bytes { ReadConsumes (R.remaining reader.old) (R.remaining reader.new) result buf.new }
    ensures room { IfOk result (λ n. n ≤ length buf.old) }
    ensures rest { IfOk result (λ n. drop n buf.new ≡ drop n buf.old) }
    ensures err { OnErr result (buf.new ≡ buf.old) }
{
    let room = buf.len().min(piece.len());
    let count = reader.read(&mut piece[..room])?;
    copy_front(piece, buf, count);
    Ok(count)
}

/// Copies the first bytes of a piece over those of a buffer, and leaves the rest of the buffer as
/// it was.
fn copy_front(piece: &[u8], buf: &mut [u8], count: usize)
    requires given { count ≤ length piece.now }
    requires room { count ≤ length buf.old }
    ensures front { take count buf.new ≡ take count piece.now }
    ensures rest { drop count buf.new ≡ drop count buf.old }
{
    buf[..count].copy_from_slice(&piece[..count]);
}
