//! A node of a handle, as contracts see it.
ghost use Rattle.depot_c.specs.NodeViews.{NodeView};
ghost use Rattle.depot_outside.specs.Stopping.{state_of};

use crate::shared_signer::SharedSigner;
use depot_model::NodeState;
use depot_node::Node;
use depot_outside::MemDisk;
use depot_winter::WinterScheme;

/// A node over a disk in memory, whose signatures are those of Winternitz.
pub type Over = Node<MemDisk, WinterScheme, SharedSigner>;

/// What is seen of a node.
pub trait HasNodeView {
    /// Where it stands, its key, its signer, its records, whether it is stopped, and what its disk is to fail in.
    ghost node_view: { Self → NodeView };
}

impl HasNodeView for Node<MemDisk, WinterScheme, SharedSigner> {
    ghost node_view = { λ n. record {
      here = ⟦<Over as NodeState>⟧.stands n;
      key = ⟦<Over as NodeState>⟧.key n;
      sign = ⟦<Over as NodeState>⟧.signature_of n;
      records = ⟦<Over as NodeState>⟧.records n;
      stopped = ⟦<Over as NodeState>⟧.stopped n;
      fails = (state_of n.store.disk).fails;
      stop = (state_of n.store.disk).next;
    } };
}
