//! Why a text could not be read.
ghost use Rattle.std.specs.Prelude.{◌≡◌};
ghost use Rattle.depot_base.specs.declared.fault.Fault.TheVariants as fault;
ghost use Rattle.depot_base.specs.Reading.{decoded, IsEarly};

use crate::Memory;
use std::alloc::{AllocError, AllocFailed};

/// Why a decoder gives no value for a text.
#[derive(Clone, Copy, Debug, PartialEq, Eq)]
pub enum DecodeError {
    /// Memory ran out.
    Memory,
    /// The text isn't well formed. The number is the offset in bytes, from 0, of the first field that is cut short or
    /// out of its range, or of the first byte after the last field.
    IllFormed(u32),
}

/// The same inside a reader, with an offset that isn't cast yet.
#[derive(Clone, Copy, Debug, PartialEq, Eq)]
pub enum Fault {
    /// Memory ran out.
    Memory,
    /// The first faulty field starts at this offset.
    At(usize),
}

impl From<Memory> for Fault {
    ghost from_gives = { λ _ e. e ≡ fault.Memory };

    fn from(_e: Memory) -> Fault {
        Fault::Memory
    }
}

impl From<AllocError> for Fault {
    ghost from_gives = { λ _ e. e ≡ fault.Memory };

    fn from(_e: AllocError) -> Fault {
        Fault::Memory
    }
}

impl<T: Drop> From<AllocFailed<T>> for Fault {
    ghost from_gives = { λ _ e. e ≡ fault.Memory };

    fn from(_e: AllocFailed<T>) -> Fault {
        Fault::Memory
    }
}

/// A reader's answer as its caller gets it.
pub fn answer<V: Drop>(read: Result<V, Fault>) -> Result<V, DecodeError>
    requires { IsEarly read }
    ensures { result ≡ decoded read }
{
    match read {
        Ok(value) => Ok(value),
        Err(Fault::Memory) => Err(DecodeError::Memory),
        Err(Fault::At(at)) => Err(DecodeError::IllFormed(at as u32)),
    }
}
