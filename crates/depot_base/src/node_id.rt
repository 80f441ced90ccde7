//! The number of a node.
ghost use Rattle.std.specs.Prelude.{◌≡◌, ℕ, ◌<◌, ◌↔◌, IsNone, IfSome};

use std::marker::Model;

/// The number of a node, 1 to 65535.
#[derive(Clone, Copy, Debug, PartialEq, Eq, PartialOrd, Ord, Hash)]
pub struct NodeId(u16);

impl Model for NodeId {
    ghost Value = { ℕ };

    ghost view = { λ n. n.0 };

    ghost invariant = { λ n. 0 < n.0 };

    ghost inverse = { λ n. record { 0 = n } };
}

impl NodeId {
    /// The node of that number. There is none of number 0.
    pub fn new(number: u16) -> Option<NodeId>
        ensures none { IsNone result ↔ (number ≡ 0) }
        ensures some { IfSome result (λ node. node ≡ number) }
    {
        if number == 0 {
            None
        } else {
            Some(NodeId(number))
        }
    }

    /// The node's number.
    pub fn number(&self) -> u16
        ensures same { result ≡ self.now }
        ensures positive { 0 < result }
    {
        self.0
    }
}
