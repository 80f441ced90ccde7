//! Why a node signs no checkpoint.

use depot_base::{Full, Hash32};

/// Why a node signs no checkpoint. The node is unchanged, except after `Disk`.
#[derive(Clone, Copy, Debug, PartialEq, Eq)]
pub enum CheckpointError {
    /// No memory was found.
    Memory,
    /// The disk failed; the node is stopped.
    Disk,
    /// The disk failed in an earlier call.
    Stopped,
    /// The text is no checkpoint's: its first fault is at this offset in bytes.
    IllFormed(u32),
    /// The checkpoint is of another roster.
    OtherRoster {
        /// SHA-256 of the checkpoint's roster.
        given: Hash32,
        /// SHA-256 of the node's.
        mine: Hash32,
    },
    /// The first leaf that isn't an accepted update of its writer, by its id.
    Unknown(Hash32),
    /// The node has made so many statements and has no unused leaf to sign another.
    Spent(u32),
    /// The update would have so many entries, more than 1,024.
    Tips(u32),
    /// The update's id is 32 zero bytes or that of an accepted update.
    Collides(Hash32),
    /// There is no room for its record.
    Full(Full),
}
