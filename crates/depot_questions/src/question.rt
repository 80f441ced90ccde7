//! Questions about what a node knows.

use depot_base::{Hash32, Ids, Key};

/// A question of a program to the node beside it. No answer changes the node.
#[derive(Drop)]
pub enum Question {
    /// Who it is, and how much it has.
    Status,
    /// Whom it convicted, by records from this place on.
    Convictions(u32),
    /// Which keys there are above this one, or from the first on.
    Keys(Option<Key>),
    /// The latest writes of a key.
    Latest(Key),
    /// The update with an id.
    Update(Hash32),
    /// Which of these ids are those of accepted updates.
    Accepted(Ids),
    /// The accepted updates from this number on, and which keys they write.
    Updates(u32),
}
