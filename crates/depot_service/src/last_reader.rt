//! The last reader that was made of a node.

use depot_model::Scheme;
use depot_sign::Roster;
use depot_trim::Trimmed;

/// What readers of a node are made with, and the last one that was made, if any.
#[derive(Drop)]
pub struct LastReader<'a, S: Scheme + Copy> {
    /// The node's roster.
    pub roster: &'a Roster,
    /// The node's scheme.
    pub scheme: S,
    /// The last reader.
    pub made: Option<Trimmed<S>>,
}
