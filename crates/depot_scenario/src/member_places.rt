//! The place of the member with a number.
ghost use Rattle.std.specs.Prelude.{◌≡◌, ◌==◌, ℕ, position};

use depot_base::NodeId;
use depot_schedule::Member;

/// What has a node's number.
pub trait Numbered {
    /// The number.
    ghost number_of: { Self → ℕ };

    /// Its node's number. It takes no memory.
    fn number(&self) -> NodeId
        ensures { result ≡ number_of self.now };
}

impl Numbered for Member {
    ghost number_of = { λ m. m.node };

    fn number(&self) -> NodeId {
        self.node
    }
}

/// The place of the first of these that has a node's number, from 0. `None` exactly when none has it. It takes no
/// memory.
pub fn place_of<A: Numbered>(members: &[A], node: NodeId) -> Option<usize>
    ensures { result ≡ position (λ a. A.number_of a == node) members.now }
{
    members.iter().position(|member| member.number() == node)
}
