//! Why a node isn't started.
ghost use Rattle.std.specs.Prelude.{◌≡◌};
ghost use Rattle.depot_node.specs.declared.start_error.StartError.TheVariants as start_error;

use depot_base::{Hash32, Memory, NodeId, PublicKey};
use depot_model::RecordFault;

/// Why a node isn't started. On each error but `Memory` and `Disk` the file of the disk reads as before.
#[derive(Clone, Copy, Debug, PartialEq, Eq)]
pub enum StartError {
    /// Memory ran out.
    Memory,
    /// The disk failed.
    Disk,
    /// The file of the disk is damaged: at this offset in bytes is an open gate, followed by no whole record, or by one
    /// with which the journal would pass its limits.
    Damaged(u64),
    /// The record of this place, from 0, isn't lawful after those before it.
    NotLawful {
        place: u32,
        fault: RecordFault,
    },
    /// The roster doesn't have the node.
    UnknownMe,
    /// The roster has another key for the node than the signer's.
    OtherKey {
        roster: PublicKey,
        signer: PublicKey,
    },
    /// The journal is that of this other node.
    OtherNode(NodeId),
    /// The journal was begun under another roster. Both are SHA-256 of a roster's text.
    OtherRoster {
        kept: Hash32,
        given: Hash32,
    },
}

impl From<Memory> for StartError {
    ghost from_gives = { λ _ e. e ≡ start_error.Memory };

    fn from(_e: Memory) -> StartError {
        StartError::Memory
    }
}
