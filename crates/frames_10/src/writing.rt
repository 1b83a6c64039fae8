//! Writing a frame.

ghost use Rattle.std.specs.Prelude.{◌≡◌, ℕ, ◌+◌, ◌^◌, ◌<◌, ◌≤◌, List, ◌++◌, length, take, OnOk};
ghost use Rattle.std.specs.Prelude.{OnErr};
ghost use Rattle.frames_10.specs.Frames.{IsFrame, frame_text, kind_byte};

use crate::frame::{Frame10, Kind10};
use wire_base::{ByteText, Memory, put_u8, put_u16, put_u32};

fn byte_of(kind: Kind10) -> u8
    ensures { result ≡ kind_byte kind }
{
    match kind {
        Kind10::Amqp => 0,
        Kind10::Sasl => 1,
    }
}

/// Adds the bytes of a frame, of which a front part may stay if memory runs out.
#[tactic(auto, unfolding(crate::specs::Frames::text_behind))]
fn append_frame(out: &mut ByteText, frame: &Frame10) -> Result<(), Memory>
    requires { length frame.now.body + 8 < 2 ^ 32 }
    ensures ok { OnOk result (out.new ≡ out.old ++ frame_text frame.now) }
    ensures err { OnErr result (take (length out.old) out.new ≡ out.old) }
    ensures channel { frame.now.channel < 65536 }
{
    let channel = frame.channel;
    let body = frame.body.as_slice();
    put_u32(out, 8 + body.len() as u32)?;
    put_u8(out, 2)?;
    put_u8(out, byte_of(frame.kind))?;
    put_u16(out, channel)?;
    out.append(body)
}

/// Writes a frame at the end of the output (AMQP 1.0 2.3), a header of 8 bytes and the body, or
/// answers `Memory` and leaves the output as it was.
#[tactic(auto, using(crate::proofs::FrameLaws::is_spelled))]
pub fn put_frame10(out: &mut ByteText, frame: &Frame10) -> Result<(), Memory>
    requires { length frame.now.body + 8 < 2 ^ 32 }
    ensures ok { OnOk result (out.new ≡ out.old ++ frame_text frame.now) }
    ensures err { OnErr result (out.new ≡ out.old) }

    // What is written is the frame's spelling, so that a scan within any limit that it fits reads
    // it back.
    ensures spelled { (limit : ℕ) → length frame.now.body + 8 ≤ limit
        → IsFrame limit frame.now (frame_text frame.now) }
{
    let start = out.as_slice().len();
    let written = append_frame(out, frame);
    if written.is_err() {
        out.truncate(start);
    }
    written
}
