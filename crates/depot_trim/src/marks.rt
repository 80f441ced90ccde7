//! The updates that were trimmed, by what names them.

use depot_base::{Hash32, NodeId};

/// An update that was trimmed, by what names it.
#[derive(Clone, Copy, Debug, PartialEq, Eq)]
pub struct UpdateMark {
    pub(crate) writer: NodeId,
    pub(crate) seq: u32,
    pub(crate) prev: Hash32,
    pub(crate) id: Hash32,
}

/// What a statement names an update by.
#[derive(Clone, Copy, Debug, PartialEq, Eq, PartialOrd, Ord)]
pub(crate) enum Name {
    /// Its writer and its seq.
    Number(NodeId, u32),
    /// Its writer and its prev.
    Prev(NodeId, Hash32),
    /// Its id.
    Id(Hash32),
}
