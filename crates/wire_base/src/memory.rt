//! Want of memory, the one answer that no clause ties to a cause.

ghost use Rattle.std.specs.Prelude.{◌≡◌, ⊤};

use std::alloc::{AllocError, AllocFailed};

/// The allocator had no room. A call that answers it leaves what it was lent as it was.
#[derive(Clone, Copy, Debug, PartialEq, Eq)]
pub struct Memory;

impl From<AllocError> for Memory {
    fn from(_error: AllocError) -> Memory {
        Memory
    }
}

impl<T: Drop> From<AllocFailed<T>> for Memory {
    fn from(_error: AllocFailed<T>) -> Memory {
        Memory
    }
}
