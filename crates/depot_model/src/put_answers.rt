//! What a put returns.
ghost use Rattle.std.specs.Prelude.{◌≡◌};
ghost use Rattle.depot_model.specs.declared.put_answers.PutError.TheVariants as put_error;

use depot_base::{Full, Hash32, Memory};

/// The update that a put made.
#[derive(Clone, Copy, Debug, PartialEq, Eq)]
pub struct PutDone {
    /// Its id.
    pub id: Hash32,
    /// Which of the node's statements it is, from 0.
    pub seq: u32,
    /// Its clock.
    pub clock: u64,
}

/// Why a put fails. The node is unchanged, except on `Disk`.
#[derive(Clone, Copy, Debug, PartialEq, Eq)]
pub enum PutError {
    /// Memory ran out.
    Memory,
    /// The disk failed; the node is stopped.
    Disk,
    /// The disk failed in an earlier call.
    Stopped,
    /// The node has made this many statements, and no leaf is left to sign another.
    Spent(u32),
    /// The update would have this many entries, more than 1,024.
    Tips(u32),
    /// The update's id is 32 zero bytes or that of an accepted update.
    Collides(Hash32),
    /// There is no room for its record.
    Full(Full),
}

impl From<Memory> for PutError {
    ghost from_gives = { λ _ e. e ≡ put_error.Memory };

    fn from(_e: Memory) -> PutError {
        PutError::Memory
    }
}
