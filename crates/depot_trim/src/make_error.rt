//! Why a node makes no checkpoint.
ghost use Rattle.std.specs.Prelude.{◌≡◌};
ghost use Rattle.depot_trim.specs.declared.make_error.MakeError.TheVariants as make_error;

use depot_base::Memory;

/// Why a node makes no checkpoint. The node is unchanged.
#[derive(Clone, Copy, Debug, PartialEq, Eq)]
pub enum MakeError {
    /// No memory was found.
    Memory,
    /// It accepted no update.
    Empty,
    /// It has so many leaves, more than 1,024.
    Many(u32),
}

impl From<Memory> for MakeError {
    ghost from_gives = { λ _ e. e ≡ make_error.Memory };

    fn from(_e: Memory) -> MakeError {
        MakeError::Memory
    }
}
