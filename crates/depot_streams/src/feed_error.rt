//! Why a piece of a stream isn't taken.

ghost use Rattle.std.specs.Prelude.{◌≡◌};
ghost use Rattle.depot_streams.specs.declared.feed_error.FeedError.TheVariants as error;

use depot_base::Full;
use std::alloc::AllocError;
use thiserror::Error;

/// Why a feed takes no more. Each error closes it: the frames before it stay taken, the current one isn't.
#[derive(Clone, Copy, Debug, Drop, PartialEq, Eq, Error)]
pub enum FeedError {
    /// No memory was found.
    #[error("no memory was found")]
    Memory,
    /// The disk failed; the node is stopped.
    #[error("the disk failed")]
    Disk,
    /// The disk failed in an earlier call.
    #[error("an earlier call failed on the disk")]
    Stopped,
    /// There is no room for what the current frame would add.
    #[error("the journal is full")]
    Full(Full),
    /// The stream has no frame at this offset in bytes, from its beginning.
    #[error("no frame stands at offset {0}")]
    IllFormed(u64),
}

impl From<AllocError> for FeedError {
    ghost from_gives = { λ _ e. e ≡ error.Memory };

    fn from(_e: AllocError) -> FeedError {
        FeedError::Memory
    }
}
