//! The marks that contradicting statements share.
use depot_base::{Hash32, NodeId};

/// What a kept statement is listed under.
#[derive(Clone, Copy, Debug, PartialEq, Eq)]
pub(crate) enum StatementMark {
    /// The writer of a statement, and its seq.
    Number(NodeId, u32),
    /// The writer of an update, and its prev.
    Prev(NodeId, Hash32),
    /// The id of an update.
    Id(Hash32),
}
