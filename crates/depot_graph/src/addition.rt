//! What an update adds to a graph.

use depot_order::Spot;

/// What an update adds, computed before the first write.
#[derive(Drop)]
pub struct Addition {
    /// The item of its prev, if it has one.
    pub prev: Option<u32>,
    /// Its place in the forest by prev.
    pub spot: Spot,
    /// The items of its parents.
    pub parents: Vec<u32>,
    /// The leaves after it.
    pub leaves: Vec<u32>,
    /// The children of the prev after it.
    pub siblings: Vec<u32>,
    /// Its own children, of which there are none.
    pub none: Vec<u32>,
}
