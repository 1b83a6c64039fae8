//! Writing a frame.

ghost use Rattle.std.specs.Prelude.{◌≡◌, ℕ, ◌+◌, ◌^◌, ◌<◌, ◌≤◌, List, ◌++◌, length, take, OnOk};
ghost use Rattle.std.specs.Prelude.{OnErr};
ghost use Rattle.frames_091.specs.Frames.{IsFrame, frame_text, kind_byte};

use crate::frame::{Frame91, Kind91};
use crate::scanning::FRAME_END;
use wire_base::{ByteText, Memory, put_u8, put_u16, put_u32};

fn byte_of(kind: Kind91) -> u8
    ensures { result ≡ kind_byte kind }
{
    match kind {
        Kind91::Method => 1,
        Kind91::Header => 2,
        Kind91::Body => 3,
        Kind91::Heartbeat => 8,
    }
}

/// Adds the bytes of a frame, of which a front part may stay where memory is wanting.
#[tactic(auto, unfolding(crate::specs::Frames::frame_text))]
fn append_frame(out: &mut ByteText, frame: &Frame91) -> Result<(), Memory>
    requires { length frame.now.payload + 8 < 2 ^ 32 }
    ensures ok { OnOk result (out.new ≡ out.old ++ frame_text frame.now) }
    ensures err { OnErr result (take (length out.old) out.new ≡ out.old) }
    ensures channel { frame.now.channel < 65536 }
{
    let channel = frame.channel;
    let payload = frame.payload.as_slice();
    put_u8(out, byte_of(frame.kind))?;
    put_u16(out, channel)?;
    put_u32(out, payload.len() as u32)?;
    out.append(payload)?;
    put_u8(out, FRAME_END)
}

/// Writes a frame at the end of the output (AMQP 0-9-1 4.2.3), 8 bytes and the payload, or answers
/// `Memory` and leaves the output as it was.
pub fn put_frame(out: &mut ByteText, frame: &Frame91) -> Result<(), Memory>
    requires { length frame.now.payload + 8 < 2 ^ 32 }
    ensures ok { OnOk result (out.new ≡ out.old ++ frame_text frame.now) }
    ensures err { OnErr result (out.new ≡ out.old) }

    // What is written is the frame's spelling, so that a scan within any limit that it fits reads
    // it back.
    ensures spelled { (limit : ℕ) → length frame.now.payload + 8 ≤ limit
        → IsFrame limit frame.now (frame_text frame.now) }
{
    let start = out.as_slice().len();
    let written = append_frame(out, frame);
    if written.is_err() {
        out.truncate(start);
    }
    written
}
