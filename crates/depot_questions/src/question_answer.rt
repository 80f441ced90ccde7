//! What a node answers.

use depot_base::{Bytes, Hash32, NamedValue, NodeId, Nodes, Sequence, Texts, Writes};

/// Who a node is, and how much it has.
#[derive(Drop)]
pub struct NodeStatus {
    /// Its number.
    pub node: NodeId,
    /// The hash of its roster.
    pub roster: Hash32,
    /// How many statements it has made.
    pub statements: u32,
    /// How many its key signs.
    pub signable: u32,
    /// How many records its journal has.
    pub records: u32,
    /// How many bytes its journal has.
    pub bytes: u32,
    /// How many updates it accepted.
    pub updates: u32,
    /// How many leaves of other writers there are among these.
    pub leaves: u32,
    /// The nodes that it convicted, rising.
    pub convicted: Nodes,
}

/// A node that was convicted.
#[derive(Drop)]
pub struct ConvictionAt {
    /// The place of the record, from 0.
    pub place: u32,
    /// The node.
    pub node: NodeId,
    /// The text of the proof.
    pub text: Bytes,
}

/// Convictions in the order of their records.
#[derive(Drop)]
pub struct ConvictionPage {
    pub convictions: Sequence<ConvictionAt>,
    /// Whether there are more after them.
    pub more: bool,
}

/// Keys in rising order.
#[derive(Drop)]
pub struct KeyPage {
    pub keys: Texts,
    /// Whether there are more above them.
    pub more: bool,
}

/// What a latest write says of its key.
#[derive(Drop)]
pub enum WriteSays {
    /// It was deleted.
    Deleted,
    /// It has this value.
    Value(Bytes),
    /// It has a value of this hash and length, which isn't held.
    NotHeld(NamedValue),
}

/// One of the latest writes of a key.
#[derive(Drop)]
pub struct LatestWrite {
    /// The id of its update.
    pub id: Hash32,
    pub writer: NodeId,
    pub seq: u32,
    pub clock: u64,
    pub says: WriteSays,
}

/// An accepted update.
#[derive(Drop)]
pub struct UpdateFacts {
    /// Its number among the accepted updates, from 0.
    pub item: u32,
    pub writer: NodeId,
    pub seq: u32,
    pub clock: u64,
    /// What it writes.
    pub writes: Writes,
}

/// An accepted update, and which keys it writes.
#[derive(Drop)]
pub struct UpdateKeys {
    pub id: Hash32,
    pub writer: NodeId,
    pub seq: u32,
    pub clock: u64,
    pub keys: Texts,
}

/// Accepted updates in the order in which they were accepted.
#[derive(Drop)]
pub struct UpdatePage {
    pub updates: Sequence<UpdateKeys>,
    /// Whether there are more after them.
    pub more: bool,
}

/// What a node answers.
#[derive(Drop)]
pub enum QuestionAnswer {
    /// Who it is, and how much it has.
    Status(NodeStatus),
    /// Convictions from a place on.
    Convictions(ConvictionPage),
    /// Keys from one on.
    Keys(KeyPage),
    /// The latest writes of a key, in the order in which a read lists them.
    Latest(Sequence<LatestWrite>),
    /// The accepted update with an id, if there is one.
    Update(Option<UpdateFacts>),
    /// Of each id whether an accepted update has it.
    Accepted(Sequence<bool>),
    /// Accepted updates from a number on.
    Updates(UpdatePage),
}
