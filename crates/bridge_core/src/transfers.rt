//! The frame of a transfer that goes next: how much of a payload it carries (AMQP 1.0 2.6.14,
//! 2.7.5).

ghost use Rattle.std.specs.Prelude.{◌≡◌, ◌≤◌, length, true, false};
ghost use Rattle.gate_model.specs.Paths.{transfer_of, transfer_perf};
ghost use Rattle.performatives_10.specs.Writing.{perf_text};
ghost use Rattle.types_10.specs.Tree.{scalar, uint};
ghost use Rattle.types_10.specs.Writing.{value_text};

use gate_model::TransferOut;
use publish_path::NextFrame;
use session_path::SessionPath;

/// The bytes of a frame's header, and of an unsigned int in the longest spelling (AMQP 1.0 1.6.6,
/// 2.3.1).
const HEADER: u32 = 8;

const UINT_LEN: u32 = 5;

/// The bytes of an unsigned int in the shortest spelling (AMQP 1.0 1.6.6).
fn uint_len(n: u32) -> u32
    ensures len { result ≡ length (value_text (scalar (uint n))) }
    ensures small { result ≤ 5 }
{
    if n == 0 {
        1
    } else if n < 256 {
        2
    } else {
        UINT_LEN
    }
}

/// The bytes of a transfer's performative, where more frames follow: that of a first frame has a
/// delivery-id, a tag of 8 bytes and a message format too.
#[tactic(auto, using(crate::proofs::LinkSpellings::transfer_len))]
fn performative_len(frame: NextFrame, handle: u32, id: u32) -> u32
    ensures len { result ≡ length (perf_text (transfer_perf
        (record { frame = frame; handle = handle; id = id; bytes = 0; more = false }) true)) }
    ensures small { result ≤ 29 }
{
    let fields = if frame.first {
        uint_len(handle) + uint_len(id) + 10 + 1 + 1 + 1
    } else {
        uint_len(handle) + 5
    };
    6 + fields
}

/// The frame of a publish that goes next on a path, where a frame has so many bytes at most.
pub fn transfer_of(path: &SessionPath, frame: NextFrame, most: u32) -> TransferOut
    ensures { result ≡ transfer_of most path.now frame }
{
    let handle = path.handle_of(frame.link);
    let id = path.next_id();
    let room = most.saturating_sub(HEADER + performative_len(frame, handle, id)) as usize;
    let left = match path.rest(frame.publish) {
        None => 0,
        Some(rest) => rest.len(),
    };
    TransferOut {
        frame,
        handle,
        id,
        bytes: room.min(left) as u32,
        more: room < left,
    }
}
