//! The messages of a rehearsal. Message `i`, from 0, has a body of `37 * i mod 4096` bytes, whose
//! byte `k` is `(i + k) mod 251`.

ghost use Rattle.std.specs.Prelude.{◌≡◌, ◌+◌, ◌%◌, ◌<◌, ◌^◌};
ghost use Rattle.gate_rehearsal.specs.Messages.{body_length};

/// The messages of a rehearsal are at most so many.
pub const MOST_MESSAGES: u16 = 10_000;

/// No body is as long as this.
pub const MOST_BODY: usize = 4_096;

/// How much longer each next body is, until it would be `MOST_BODY`.
const GROWTH: usize = 37;

/// The bytes of a body are below this.
const BYTES: usize = 251;

/// How many bytes the body of a message has.
pub fn body_len(message: usize) -> usize
    requires { message < 2 ^ 32 }
    ensures len { result ≡ body_length message }
    ensures few { result < 4096 }
{
    GROWTH * message % MOST_BODY
}

/// One byte of it.
pub fn body_byte(message: usize, k: usize) -> u8
    requires message { message < 2 ^ 32 }
    requires place { k < 2 ^ 32 }
    ensures { result ≡ (message + k) % 251 }
{
    ((message + k) % BYTES) as u8
}
