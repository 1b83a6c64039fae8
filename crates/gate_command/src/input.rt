//! The whole input.

ghost use Rattle.std.specs.Prelude.{◌≡◌, ◌<◌, ◌≤◌, IfOk, Ok, length};
ghost use Rattle.std.specs.Vec.{vec_len};
ghost use Rattle.gate_outside.specs.Counts.{Rose};
ghost use Rattle.gate_command.specs.Input.{AddsDrawn, IsInput};

use gate_outside::{Drawn, Source};
use std::alloc::Global;
use wire_base::{ByteText, Memory};

/// An input has fewer bytes than this, 2^28.
pub const TOO_MANY: usize = 268_435_456;

/// The bytes that a read may give at once.
const READ_ROOM: usize = 65_536;

/// What the reading of an input to its end gave.
#[derive(Debug, Drop)]
pub enum Input {
    /// Its bytes, fewer than 268,435,456.
    Whole(ByteText),
    /// It has at least so many.
    TooLong,
    /// A read failed.
    Failed,
}

/// Room for one read.
fn read_buffer(alloc: Global) -> Result<Vec<u8>, Memory>
    ensures { IfOk result (λ v. 0 < vec_len v) }
{
    let room = vec![in alloc; 0u8; READ_ROOM]?;
    Ok(room)
}

/// Reads once, and adds what came.
fn draw<S: Source>(input: &mut S, room: &mut [u8], bytes: &mut ByteText) -> Result<Drawn, Memory>
    requires { 0 < length room.old }
    ensures later { S.faults input.old ≤ S.faults input.new }
    ensures cause { result ≡ Ok Drawn.Failed → Rose (S.faults input.old) (S.faults input.new) }
    ensures drawn { IfOk result (λ answer. AddsDrawn answer (S.left input.old)
        (S.left input.new) bytes.old bytes.new) }
{
    let answer = input.read(room);
    if let Drawn::Bytes(n) = answer {
        let (front, _) = room.split_at(n);
        bytes.append(front)?;
    }
    Ok(answer)
}

/// Reads the input to its end. `Failed` comes only where its count of faults rose.
pub fn read_input<S: Source>(alloc: Global, input: &mut S) -> Result<Input, Memory>
    ensures later { S.faults input.old ≤ S.faults input.new }
    ensures cause { result ≡ Ok Input.Failed → Rose (S.faults input.old) (S.faults input.new) }
    ensures whole { IfOk result (IsInput (S.left input.old) (S.left input.new)) }
{
    let mut room = read_buffer(alloc)?;
    let mut bytes = ByteText::empty(alloc);
    while bytes.as_slice().len() < TOO_MANY {
        match draw(input, &mut room, &mut bytes)? {
            Drawn::Bytes(_) => {}
            Drawn::Ended => return Ok(Input::Whole(bytes)),
            Drawn::Failed => return Ok(Input::Failed),
        }
    }
    Ok(Input::TooLong)
}
