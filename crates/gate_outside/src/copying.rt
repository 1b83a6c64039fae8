//! Copies between buffers.

ghost use Rattle.std.specs.Prelude.{◌≡◌, length, take, drop, min};

/// Copies as many bytes as fit into the front of a buffer, and says how many.
pub(crate) fn copy_front(buf: &mut [u8], bytes: &[u8]) -> usize
    ensures count { result ≡ min (length buf.old) (length bytes.now) }
    ensures came { take result buf.new ≡ take result bytes.now }
    ensures rest { drop result buf.new ≡ drop result buf.old }
{
    let count = buf.len().min(bytes.len());
    let (part, _) = bytes.split_at(count);
    buf[..count].copy_from_slice(part);
    count
}
