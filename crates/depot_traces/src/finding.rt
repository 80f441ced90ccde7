//! What an audit finds.

use depot_base::NodeId;
use depot_model::RecordFault;

/// An operation, by its node and its place, from 0.
#[derive(Clone, Copy, Debug, PartialEq, Eq)]
pub enum Op {
    /// A write: the first node, in rising order, that has it, and the place of its record there.
    Write { node: NodeId, place: u32 },
    /// A read: its node, and its place among the node's reads.
    Read { node: NodeId, place: u32 },
}

/// What an audit of traces finds: that they keep the headline, which is fork-join causality, or the first part of it
/// that fails. Places are from 0.
#[derive(Clone, Copy, Debug, PartialEq, Eq)]
pub enum Finding {
    /// The journals and reads are a world in which the headline holds, and no conviction names a node.
    Yes,
    /// A node's records aren't lawful: the first bad place, and the fault there.
    Unlawful {
        node: NodeId,
        place: u32,
        fault: RecordFault,
    },
    /// A read isn't what the node's journal showed at the time: the first such.
    Answer {
        node: NodeId,
        place: u32,
    },
    /// An operation is observed before itself.
    Circle(Op),
    /// A node made the first before the second, and it isn't observed before it.
    Unordered {
        first: Op,
        second: Op,
    },
    /// A node accepted the first before it put the second, and it isn't observed before it.
    Unseen {
        first: Op,
        second: Op,
    },
    /// A read isn't exact.
    Wrong {
        node: NodeId,
        place: u32,
    },
    /// Up to this record the journal's updates and statements aren't separate branches.
    Split {
        node: NodeId,
        place: u32,
    },
    /// A conviction names one of the nodes: the node that keeps its record, and the record's place.
    Named {
        node: NodeId,
        place: u32,
    },
}
