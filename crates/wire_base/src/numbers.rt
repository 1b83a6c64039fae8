//! Numbers on the wire, most significant byte first (AMQP 0-9-1 4.2.5.1; AMQP 1.0 1.6).
//!
//! `take_` reads at an offset and answers `None` exactly where fewer bytes than the number needs
//! stand from there;
//! `put_` appends, and leaves the output as it was where it answers `Memory`.

ghost use Rattle.std.specs.Prelude.{◌≡◌, ℕ, ◌+◌, ◌≤◌, List, [], ◌∷◌, ◌++◌, length, OnOk, OnErr};
ghost use Rattle.std.specs.Int.{w8, w16, w32, w64, to_be_bytes};
ghost use Rattle.wire_base.specs.Numbers.{ReadsNumber};

use crate::byte_text::ByteText;
use crate::memory::Memory;

pub fn take_u8(bytes: &[u8], at: usize) -> Option<u8>
    ensures { ReadsNumber w8 bytes.now at result }
{
    bytes.get(at).copied()
}

pub fn take_u16(bytes: &[u8], at: usize) -> Option<u16>
    ensures { ReadsNumber w16 bytes.now at result }
{
    let rest = bytes.get(at..)?;
    let number = rest.first_chunk::<2>()?;
    Some(u16::from_be_bytes(*number))
}

pub fn take_u32(bytes: &[u8], at: usize) -> Option<u32>
    ensures { ReadsNumber w32 bytes.now at result }
{
    let rest = bytes.get(at..)?;
    let number = rest.first_chunk::<4>()?;
    Some(u32::from_be_bytes(*number))
}

pub fn take_u64(bytes: &[u8], at: usize) -> Option<u64>
    ensures { ReadsNumber w64 bytes.now at result }
{
    let rest = bytes.get(at..)?;
    let number = rest.first_chunk::<8>()?;
    Some(u64::from_be_bytes(*number))
}

pub fn put_u8(out: &mut ByteText, n: u8) -> Result<(), Memory>
    ensures ok { OnOk result (out.new ≡ out.old ++ to_be_bytes w8 n) }
    ensures err { OnErr result (out.new ≡ out.old) }
{
    out.append(&u8::to_be_bytes(n))
}

pub fn put_u16(out: &mut ByteText, n: u16) -> Result<(), Memory>
    ensures ok { OnOk result (out.new ≡ out.old ++ to_be_bytes w16 n) }
    ensures err { OnErr result (out.new ≡ out.old) }
{
    out.append(&u16::to_be_bytes(n))
}

pub fn put_u32(out: &mut ByteText, n: u32) -> Result<(), Memory>
    ensures ok { OnOk result (out.new ≡ out.old ++ to_be_bytes w32 n) }
    ensures err { OnErr result (out.new ≡ out.old) }
{
    out.append(&u32::to_be_bytes(n))
}

pub fn put_u64(out: &mut ByteText, n: u64) -> Result<(), Memory>
    ensures ok { OnOk result (out.new ≡ out.old ++ to_be_bytes w64 n) }
    ensures err { OnErr result (out.new ≡ out.old) }
{
    out.append(&u64::to_be_bytes(n))
}
