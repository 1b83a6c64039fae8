//! Why a reader of bytes stopped.

ghost use Rattle.std.specs.Prelude.{◌≡◌};
ghost use Rattle.wire_base.specs.declared.stop.Stop.TheVariants.{Memory as NoMemory};

use crate::memory::Memory;
use std::alloc::{AllocError, AllocFailed};

/// Why a reader stopped: want of memory, or the first fault of the bytes.
#[derive(Clone, Copy, Debug, PartialEq, Eq)]
pub enum Stop<F> {
    /// The allocator had no room.
    Memory,
    /// The bytes are at fault.
    Fault(F),
}

impl<F> From<Memory> for Stop<F> {
    ghost from_gives = { λ _ e. e ≡ NoMemory };

    fn from(_error: Memory) -> Stop<F> {
        Stop::Memory
    }
}

impl<F> From<AllocError> for Stop<F> {
    ghost from_gives = { λ _ e. e ≡ NoMemory };

    fn from(_error: AllocError) -> Stop<F> {
        Stop::Memory
    }
}

impl<F, T: Drop> From<AllocFailed<T>> for Stop<F> {
    ghost from_gives = { λ _ e. e ≡ NoMemory };

    fn from(_error: AllocFailed<T>) -> Stop<F> {
        Stop::Memory
    }
}
