//! Why no reader is made, and why a reader takes nothing.
ghost use Rattle.std.specs.Prelude.{◌≡◌};
ghost use Rattle.depot_trim.specs.declared.trim_error.TrimError.TheVariants as trim_error;
ghost use Rattle.depot_trim.specs.declared.trim_error.TrimTake.TheVariants as trim_take;

use depot_base::{Check, Full, Hash32, Memory, NodeId};

/// Why no reader is made of a node.
#[derive(Clone, Copy, Debug, PartialEq, Eq)]
pub enum TrimError {
    /// No memory was found.
    Memory,
    /// The text is no checkpoint's: its first fault is at this offset in bytes.
    IllFormed(u32),
    /// The checkpoint is of another roster.
    OtherRoster {
        /// SHA-256 of the checkpoint's roster.
        given: Hash32,
        /// SHA-256 of the node's.
        mine: Hash32,
    },
    /// The first leaf that isn't an accepted update of its writer, by its id.
    Unknown(Hash32),
    /// The first node of the roster that didn't sign the checkpoint.
    Unsigned(NodeId),
}

impl From<Memory> for TrimError {
    ghost from_gives = { λ _ e. e ≡ trim_error.Memory };

    fn from(_e: Memory) -> TrimError {
        TrimError::Memory
    }
}

/// Why a reader doesn't take what it is given.
#[derive(Clone, Copy, Debug, PartialEq, Eq)]
pub enum TrimTake {
    /// No memory was found; the reader is unchanged.
    Memory,
    /// The statement names a trimmed update: the id of the first one in the journal's order. The reader is unchanged.
    BelowCheckpoint(Hash32),
    /// There is no room for what the journal would grow by. The reader is unchanged.
    Full(Full),
    /// The first check that fails. The reader is unchanged, except that a fork or a step backward convicts its writer.
    Refused(Check),
}

impl From<Memory> for TrimTake {
    ghost from_gives = { λ _ e. e ≡ trim_take.Memory };

    fn from(_e: Memory) -> TrimTake {
        TrimTake::Memory
    }
}
