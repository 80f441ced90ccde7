//! Why a node gives no receipts.
ghost use Rattle.std.specs.Prelude.{◌≡◌};
ghost use Rattle.depot_queries.specs.declared.give_error.GiveError.TheVariants as give_error;

use depot_base::{Full, Hash32, Memory};

/// Why a node gives no receipts. The node is unchanged, except after `Disk`.
#[derive(Clone, Copy, Debug, PartialEq, Eq)]
pub enum GiveError {
    /// No memory was found.
    Memory,
    /// The disk failed; the node is stopped.
    Disk,
    /// The disk failed in an earlier call.
    Stopped,
    /// No accepted update has this id.
    Unknown(Hash32),
    /// The update with this id names a value that isn't held.
    NoValue(Hash32),
    /// The node has made so many statements and has no unused leaf to sign another.
    Spent(u32),
    /// The update would have so many entries, more than 1,024.
    Tips(u32),
    /// The update's id is 32 zero bytes or that of an accepted update.
    Collides(Hash32),
    /// There is no room for its record.
    Full(Full),
}

impl From<Memory> for GiveError {
    ghost from_gives = { λ _ e. e ≡ give_error.Memory };

    fn from(_e: Memory) -> GiveError {
        GiveError::Memory
    }
}
