//! A node that takes part in an event.

use depot_traces::Reads;

/// Where a node returns to: its place among the others, from 0, and how many updates it had accepted when it left.
#[derive(Clone, Copy)]
pub struct Seat {
    pub place: usize,
    pub count: u32,
}

/// A node with its reads, away from its place among the others.
#[derive(Drop)]
pub struct ActingNode<A> {
    pub seat: Seat,
    pub actor: A,
    pub reads: Reads,
}
