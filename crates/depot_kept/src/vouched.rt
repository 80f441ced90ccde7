//! Which updates others vouched for, as the article names it, and who is convicted.
ghost use Rattle.std.specs.Prelude.{◌≡◌, ◌<◌, ◌≤◌, ◌+◌, ◌⊎◌, [], ◌∷◌, ◌++◌, length, true, false, OnOk, OnErr, IfOk};
ghost use Rattle.indexmap.specs.IndexSet.{spare};
ghost use Rattle.depot_model.specs.lists.Lists.{is_among, is_one_of, AreTogether};
ghost use Rattle.depot_kept.specs.VouchedView.{with_node};

use crate::ids::VouchedIds;
use depot_base::{Hash32, Ids, Memory, NodeId};
use indexmap::IndexSet;
use std::alloc::Global;
use std::marker::Model;

/// The ids that others vouched for, and the convicted nodes of a roster.
#[derive(Drop)]
pub struct Vouched {
    ids: VouchedIds,
    convicted: IndexSet<NodeId>,
    nodes: u32,
}

impl Model for Vouched {
    ghost use Rattle.std.specs.Prelude.{length};
    ghost use Rattle.indexmap.specs.IndexSet.{spare};
    ghost use Rattle.depot_kept.specs.VouchedView.{Vouching, HasNodeRoom};

    ghost Value = { Vouching };

    ghost view = { λ v. record { ids = v.ids.ids; convicted = v.convicted.keys; nodes = v.nodes } };

    ghost invariant = { λ v. HasNodeRoom v.nodes (length v.convicted.keys) (spare v.convicted) };
}

impl Vouched {
    /// Empty sets, with memory for the convictions of `nodes` nodes: at most 256, as many as a roster has.
    pub fn new(alloc: Global, nodes: u32) -> Result<Vouched, Memory>
        ensures ids { IfOk result (λ v. v.ids ≡ []) }
        ensures convicted { IfOk result (λ v. v.convicted ≡ []) }
        ensures nodes { IfOk result (λ v. v.nodes ≡ nodes) }
    {
        Ok(Vouched {
            ids: VouchedIds::new(alloc),
            convicted: IndexSet::with_capacity(alloc, nodes as usize)?,
            nodes,
        })
    }

    /// Adds ids that were vouched for: all of them, or none where memory runs out.
    pub fn add(&mut self, ids: &Ids) -> Result<(), Memory>
        ensures ids { OnOk result (AreTogether self.old.ids ids.now self.new.ids) }
        ensures err { OnErr result (self.new.ids ≡ self.old.ids) }
        ensures convicted { self.new.convicted ≡ self.old.convicted }
        ensures nodes { self.new.nodes ≡ self.old.nodes }
    {
        self.ids.add(ids)
    }

    /// Whether someone vouched for the update with this id. It takes no memory.
    pub fn is_vouched(&self, id: &Hash32) -> bool
        ensures { result ≡ is_among id.now self.now.ids }
    {
        self.ids.contains(id)
    }

    /// Convicts a node. It takes no memory.
    pub fn convict(&mut self, node: NodeId)
        requires { (length self.old.convicted < self.old.nodes) ⊎ (is_one_of node self.old.convicted ≡ true) }
        ensures convicted { self.new.convicted ≡ with_node self.old.convicted node }
        ensures ids { self.new.ids ≡ self.old.ids }
        ensures nodes { self.new.nodes ≡ self.old.nodes }
    {
        if self.is_convicted(node) {
            return;
        }
        insert_node(&mut self.convicted, node);
    }

    /// Whether a node is convicted. It takes no memory.
    pub fn is_convicted(&self, node: NodeId) -> bool
        ensures { result ≡ is_one_of node self.now.convicted }
    {
        self.convicted.contains(&node)
    }
}

/// Adds a node to a set that has room for it, and hasn't got it.
fn insert_node(known: &mut IndexSet<NodeId>, node: NodeId)
    requires room { 0 < spare known.old }
    requires new { is_one_of node known.old.keys ≡ false }
    ensures last { known.new.keys ≡ known.old.keys ++ node ∷ [] }
    ensures room { spare known.old ≤ spare known.new + 1 }
{
    let _ = known.insert(node);
}
