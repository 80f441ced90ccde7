//! Traces of nodes.

use depot_base::{Hash32, Key, NodeId, Sequence, Texts, Value};

/// The most reads of a trace.
pub const MOST_READS: u32 = 1_000_000;

/// The most traces of an audit; the least is 1.
pub const MOST_TRACES: u32 = 32;

/// What a read shows of a write of its key.
#[derive(Debug, Drop)]
pub enum Shown {
    /// Its value wasn't held.
    NotHeld,
    /// Its value.
    Held(Value),
    /// It is a deletion.
    Gone,
}

/// A write that a read listed.
#[derive(Debug, Drop)]
pub struct Answered {
    /// The id of its update.
    pub id: Hash32,
    /// What was shown of it.
    pub shown: Shown,
}

/// The answer of a read, in its order.
pub type Listing = Sequence<Answered>;

/// A read of a key.
#[derive(Debug, Drop)]
pub struct ReadTrace {
    /// How many records the node's journal had then.
    pub length: u32,
    /// The key.
    pub key: Key,
    /// What it listed, at most 4,097 writes.
    pub answer: Listing,
}

/// Reads, in the order in which they were made.
pub type Reads = Sequence<ReadTrace>;

/// What a node hands in for an audit.
#[derive(Debug, Drop)]
pub struct Trace {
    /// The node.
    pub node: NodeId,
    /// The texts of its journal's records, 1 to 131,072, each of fewer than 4,294,967,296 bytes.
    pub texts: Texts,
    /// Its reads, at most 1,000,000.
    pub reads: Reads,
}

/// The traces of an audit.
pub type Traces = Sequence<Trace>;
