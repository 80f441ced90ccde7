//! What a node returns for what it is given.
ghost use Rattle.std.specs.Prelude.{◌≡◌};
ghost use Rattle.depot_model.specs.declared.taken.TakeError.TheVariants as refused;

use depot_base::{Check, Full, Memory};

/// What was given is new, or was known.
#[derive(Clone, Copy, Debug, PartialEq, Eq)]
pub enum Taken {
    /// It is new, and is kept.
    New,
    /// It was known; nothing changed.
    Known,
}

/// Why a node doesn't take what it is given.
#[derive(Clone, Copy, Debug, PartialEq, Eq)]
pub enum TakeError {
    /// Memory ran out; the node is unchanged.
    Memory,
    /// The disk failed; the node is stopped.
    Disk,
    /// The disk failed in an earlier call.
    Stopped,
    /// There is no room for what would be kept; the node is unchanged.
    Full(Full),
    /// The first check that fails. The node is unchanged, except where a fork or a step back convicts the writer.
    Refused(Check),
}

impl From<Memory> for TakeError {
    ghost from_gives = { λ _ e. e ≡ refused.Memory };

    fn from(_e: Memory) -> TakeError {
        TakeError::Memory
    }
}
