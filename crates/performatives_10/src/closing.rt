//! Frames that are written without memory: what settles deliveries, and what ends a link, a session
//! or a connection.

ghost use Rattle.std.specs.Prelude.{◌≡◌, ℕ, ◌+◌, ◌≤◌, ◌<◌, ◌^◌, List, [], ◌∷◌, ◌++◌, length, drop};
ghost use Rattle.std.specs.Prelude.{Option, Some};
ghost use Rattle.std.specs.Int.{w16, w32, to_be_bytes};
ghost use Rattle.types_10.specs.Writing.{value_text};
ghost use Rattle.types_10.specs.Fields.{a_uint, maybe};
ghost use Rattle.performatives_10.specs.Closing.{
  last_of,
  head_text,
  settle_code,
  settle_text,
  settled_text,
  disposition_len,
  disposition_text,
  error_text,
  detach_count,
  bare_text,
  failed_text,
  ended_text,
  end_text,
  IsWrittenOver,
};

use crate::condition::{Condition, condition_name};

/// What a receiver settles deliveries with (AMQP 1.0 3.4).
#[derive(Clone, Copy, Debug, PartialEq, Eq)]
pub enum Settle {
    Accepted,
    /// Without an error
    Rejected,
    Released,
}

/// What ends (AMQP 1.0 2.7.7 to 2.7.9).
#[derive(Clone, Copy, Debug, PartialEq, Eq)]
pub enum Ending {
    /// The link with this handle, which is closed
    Detach(u32),
    End,
    Close,
}

/// Writes bytes from a place on, and answers the place behind them.
fn write_at(out: &mut [u8; 512], at: usize, bytes: &[u8]) -> usize
    requires { at + length bytes.now ≤ 512 }
    ensures place { result ≡ at + length bytes.now }
    ensures bytes { (front old : List ℕ) → IsWrittenOver front old out.old at
        → IsWrittenOver (front ++ bytes.now) old out.new result }
{
    let end = at + bytes.len();
    out[at..end].copy_from_slice(bytes);
    end
}

/// The length of a uint: at most 5 bytes.
fn uint_len(n: u32) -> usize
    ensures length { result ≡ length (value_text (a_uint n)) }
    ensures short { result ≤ 5 }
{
    if n == 0 {
        1
    } else if n < 256 {
        2
    } else {
        5
    }
}

/// Writes a uint in its shortest encoding.
fn write_uint(out: &mut [u8; 512], at: usize, n: u32) -> usize
    requires { at + 5 ≤ 512 }
    ensures place { result ≡ at + length (value_text (a_uint n)) }
    ensures bytes { (front old : List ℕ) → IsWrittenOver front old out.old at
        → IsWrittenOver (front ++ value_text (a_uint n)) old out.new result }
{
    if n == 0 {
        write_at(out, at, &[0x43])
    } else if n < 256 {
        write_at(out, at, &[0x52, n as u8])
    } else {
        let at = write_at(out, at, &[0x70]);
        write_at(out, at, &n.to_be_bytes())
    }
}

/// The length of a uint, or of null: at most 5 bytes.
fn optional_len(n: Option<u32>) -> usize
    ensures length { result ≡ length (value_text (maybe a_uint n)) }
    ensures short { result ≤ 5 }
{
    match n {
        None => 1,
        Some(n) => uint_len(n),
    }
}

/// Writes a uint in its shortest encoding, or null.
fn write_optional(out: &mut [u8; 512], at: usize, n: Option<u32>) -> usize
    requires { at + 5 ≤ 512 }
    ensures place { result ≡ at + length (value_text (maybe a_uint n)) }
    ensures bytes { (front old : List ℕ) → IsWrittenOver front old out.old at
        → IsWrittenOver (front ++ value_text (maybe a_uint n)) old out.new result }
{
    match n {
        None => write_at(out, at, &[0x40]),
        Some(n) => write_uint(out, at, n),
    }
}

/// Writes the header of a frame of this size in bytes (AMQP 1.0 2.3) at the front.
fn write_head(out: &mut [u8; 512], channel: u16, size: u32) -> usize
    ensures place { result ≡ 8 }
    ensures bytes { IsWrittenOver (head_text channel size) out.old out.new result }
{
    let at = write_at(out, 0, &size.to_be_bytes());
    let at = write_at(out, at, &[2, 0]);
    write_at(out, at, &channel.to_be_bytes())
}

/// Writes the frame of a disposition of so many fields: the byte of its role, the first and the
/// last delivery, and the bytes of the fields behind them.
fn put_disposition(
    out: &mut [u8; 512],
    channel: u16,
    count: u8,
    role: u8,
    first: u32,
    last: Option<u32>,
    rest: &[u8],
) -> usize
    requires { length rest.now ≤ 5 }
    ensures frame { IsWrittenOver (disposition_text channel count role first last rest.now) out.old
        out.new result }
    ensures short { disposition_len first last rest.now < 255 }
{
    let items = 1 + uint_len(first) + optional_len(last) + rest.len();
    let at = write_head(out, channel, 14 + items as u32);
    let at = write_at(
        out,
        at,
        &[0, 0x53, 0x15, 0xC0, items as u8 + 1, count, role],
    );
    let at = write_uint(out, at, first);
    let at = write_optional(out, at, last);
    write_at(out, at, rest)
}

/// The code of a state's descriptor.
fn settle_code(state: Settle) -> u8
    ensures { result ≡ settle_code state }
{
    match state {
        Settle::Accepted => 0x24,
        Settle::Rejected => 0x25,
        Settle::Released => 0x26,
    }
}

/// The last delivery, which is absent where it is the first one.
fn last_of(first: u32, last: u32) -> Option<u32>
    ensures { result ≡ last_of first last }
{
    if first == last { None } else { Some(last) }
}

/// Writes the frame of a settled disposition of the receiver (AMQP 1.0 2.7.6) over the first bytes
/// of `out`, and answers its length, at most 30 bytes. The last delivery is null where it is the
/// first one. The bytes are those that `put_perf` and `put_frame10` give; it takes no memory.
pub fn put_settle(out: &mut [u8; 512], channel: u16, first: u32, last: u32, state: Settle) -> usize
    ensures { IsWrittenOver (settle_text channel first last state) out.old out.new result }
{
    let rest = [0x41, 0, 0x53, settle_code(state), 0x45];
    put_disposition(out, channel, 5, 0x41, first, last_of(first, last), &rest)
}

/// Writes the frame of a settled disposition of the sender, without a state (AMQP 1.0 2.7.6), over
/// the first bytes of `out`, and answers its length, at most 26 bytes. The bytes are those that
/// `put_perf` and `put_frame10` give; it takes no memory.
pub fn put_settled(out: &mut [u8; 512], channel: u16, first: u32, last: Option<u32>) -> usize
    ensures { IsWrittenOver (settled_text channel first last) out.old out.new result }
{
    put_disposition(out, channel, 4, 0x42, first, last, &[0x41])
}

/// The length of an error with this condition: at most 41 bytes.
fn error_len(condition: Option<Condition>) -> usize
    ensures length { result ≡ length (error_text condition) }
    ensures short { result ≤ 41 }
{
    match condition {
        None => 0,
        Some(condition) => 8 + condition_name(condition).len(),
    }
}

/// Writes an error with this condition, or nothing.
fn write_error(out: &mut [u8; 512], at: usize, condition: Option<Condition>) -> usize
    requires { at + 41 ≤ 512 }
    ensures place { result ≡ at + length (error_text condition) }
    ensures bytes { (front old : List ℕ) → IsWrittenOver front old out.old at
        → IsWrittenOver (front ++ error_text condition) old out.new result }
{
    match condition {
        None => at,
        Some(condition) => {
            let name = condition_name(condition);
            let count = name.len() as u8;
            let at = write_at(out, at, &[0, 0x53, 0x1D, 0xC0, count + 3, 1, 0xA3, count]);
            write_at(out, at, name)
        }
    }
}

/// How many fields a detach has.
fn detach_count(condition: Option<Condition>) -> u8
    ensures { result ≡ detach_count condition }
{
    match condition {
        None => 2,
        Some(_) => 3,
    }
}

/// Writes the frame of a detach that closes its link.
fn put_detach(out: &mut [u8; 512], channel: u16, handle: u32, condition: Option<Condition>) -> usize
    ensures { IsWrittenOver (end_text channel
        (Ending.Detach handle) condition) out.old out.new result }
{
    let items = 1 + uint_len(handle) + error_len(condition);
    let at = write_head(out, channel, 14 + items as u32);
    let count = detach_count(condition);
    let at = write_at(out, at, &[0, 0x53, 0x16, 0xC0, items as u8 + 1, count]);
    let at = write_uint(out, at, handle);
    let at = write_at(out, at, &[0x41]);
    write_error(out, at, condition)
}

/// Writes the frame of an end or a close without an error, whose descriptor has this code.
fn put_bare(out: &mut [u8; 512], channel: u16, code: u8) -> usize
    ensures { IsWrittenOver (bare_text channel code) out.old out.new result }
{
    let at = write_head(out, channel, 12);
    write_at(out, at, &[0, 0x53, code, 0x45])
}

/// Writes the frame of an end or a close with an error, whose descriptor has this code.
fn put_failed(out: &mut [u8; 512], channel: u16, code: u8, condition: Condition) -> usize
    ensures frame { IsWrittenOver (failed_text channel code condition) out.old out.new result }
    ensures short { length (error_text (Some condition)) < 255 }
{
    let size = error_len(Some(condition));
    let at = write_head(out, channel, 14 + size as u32);
    let at = write_at(out, at, &[0, 0x53, code, 0xC0, size as u8 + 1, 1]);
    write_error(out, at, Some(condition))
}

/// Writes the frame of an end or a close, whose descriptor has this code.
fn put_ending(out: &mut [u8; 512], channel: u16, code: u8, condition: Option<Condition>) -> usize
    ensures frame { IsWrittenOver (ended_text channel code condition) out.old out.new result }
    ensures short { length (error_text condition) < 255 }
{
    match condition {
        None => put_bare(out, channel, code),
        Some(condition) => put_failed(out, channel, code, condition),
    }
}

/// Writes the frame of a detach, an end or a close (AMQP 1.0 2.7.7 to 2.7.9) over the first bytes
/// of `out`, and answers its length, at most 61 bytes. A detach closes its link. An error has the
/// condition alone. The bytes are those that `put_perf` and
/// `put_frame10` give; it takes no memory.
pub fn put_end(
    out: &mut [u8; 512],
    channel: u16,
    kind: Ending,
    condition: Option<Condition>,
) -> usize
    ensures { IsWrittenOver (end_text channel kind condition) out.old out.new result }
{
    match kind {
        Ending::Detach(handle) => put_detach(out, channel, handle, condition),
        Ending::End => put_ending(out, channel, 0x17, condition),
        Ending::Close => put_ending(out, channel, 0x18, condition),
    }
}
