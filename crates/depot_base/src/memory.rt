//! What a call returns where memory runs out, or where bytes have the wrong length.
ghost use Rattle.std.specs.Prelude.{◌≡◌};
ghost use Rattle.depot_base.specs.declared.memory.LengthError.TheVariants as length_error;

use std::alloc::{AllocError, AllocFailed};

/// Memory ran out. Any call that allocates may return it in place of any other answer.
#[derive(Clone, Copy, Debug, PartialEq, Eq)]
pub struct Memory;

impl From<AllocError> for Memory {
    fn from(_e: AllocError) -> Memory {
        Memory
    }
}

impl<T: Drop> From<AllocFailed<T>> for Memory {
    fn from(_e: AllocFailed<T>) -> Memory {
        Memory
    }
}

/// Why bytes make no key or value.
#[derive(Clone, Copy, Debug, PartialEq, Eq)]
pub enum LengthError {
    /// Memory ran out.
    Memory,
    /// The number of bytes that were given, which is outside the type's range.
    Length(usize),
}

impl From<Memory> for LengthError {
    ghost from_gives = { λ _ e. e ≡ length_error.Memory };

    fn from(_e: Memory) -> LengthError {
        LengthError::Memory
    }
}
