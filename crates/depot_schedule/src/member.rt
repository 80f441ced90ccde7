//! The nodes that a schedule declares.

use depot_base::{NodeId, Sequence};

/// A declared node.
#[derive(Clone, Copy, Debug, PartialEq, Eq)]
pub struct Member {
    /// Its number.
    pub node: NodeId,
    /// Whether it is correct; else the schedule says what it signs and sends.
    pub correct: bool,
}

/// Declared nodes, in the order of their lines: 1 to 256, each number once, and 1 to 32 of them correct.
pub type Members = Sequence<Member>;
