//! The holders of each id.
ghost use Rattle.std.specs.Prelude.{◌≡◌, ℕ, List, [], true, false, OnOk, if◌then◌else◌};
ghost use Rattle.std.specs.List.{AllByRecursion};
ghost use Rattle.std.specs.Str.{bytes_eq};
ghost use Rattle.depot_model.specs.lists.Lists.{is_among};
ghost use Rattle.depot_model.specs.worlds.Receipts.{put_number};

use crate::rising::{put_among, stands_in};
use depot_base::{Hash32, Memory, NodeId};
use std::alloc::Global;
use std::collections::BTreeMap;

/// The holders of each id, in an ordered map. Whoever signs a receipt picks its id, so ids aren't hashed: a look-up
/// takes logarithmic time, whatever they are.
#[derive(Drop)]
pub(crate) struct Holders {
    lists: BTreeMap<Hash32, Vec<NodeId>>,
    alloc: Global,
}

impl Holders {
    ghost use Rattle.depot_queries.specs.HolderLists.{holders_of, has_place};

    /// No holders. It takes no memory.
    #[tactic(auto, unfolding(crate::specs::HolderLists::holders_of))]
    pub(crate) fn new(alloc: Global) -> Holders
        ensures { (id : List ℕ) → holders_of result id ≡ [] }
    {
        Holders {
            lists: BTreeMap::new(alloc),
            alloc,
        }
    }

    /// The holders of an id. It takes no memory.
    #[tactic(auto, unfolding(crate::specs::HolderLists::holders_of))]
    pub(crate) fn of(&self, id: &Hash32) -> &[NodeId]
        ensures { result.now ≡ holders_of self.now id.now }
    {
        match self.lists.get(id) {
            Some(list) => list.as_slice(),
            None => &[],
        }
    }

    /// Whether a node is a holder of an id, or there is memory for it.
    #[tactic(auto, unfolding(crate::specs::HolderLists::has_place))]
    fn has_place(&self, id: &Hash32, node: NodeId) -> bool
        ensures { result ≡ has_place self.now id.now node }
    {
        match self.lists.get(id) {
            Some(list) => stands_in(list.as_slice(), node) || list.len() < list.capacity(),
            None => false,
        }
    }

    /// Reserves room for a node among the holders of an id. The holders are unchanged.
    #[tactic(auto, unfolding(crate::specs::HolderLists::holders_of, crate::specs::HolderLists::has_place))]
    fn reserve(&mut self, id: Hash32, node: NodeId) -> Result<(), Memory>
        ensures same { (other : List ℕ) → holders_of self.new other ≡ holders_of self.old other }
        ensures place { OnOk result (has_place self.new id node ≡ true) }
        ensures places { (other : List ℕ) → has_place self.old other node ≡ true → has_place self.new other node ≡ true }
    {
        if self.has_place(&id, node) {
            return Ok(());
        }
        let mut list = Vec::from_slice(self.alloc, self.of(&id))?;
        list.reserve(1)?;
        self.lists.insert(id, list)?;
        Ok(())
    }

    /// Reserves room for a node among the holders of each of these ids. The holders are unchanged, also on `Memory`.
    pub(crate) fn reserve_each(&mut self, ids: &[Hash32], node: NodeId) -> Result<(), Memory>
        ensures same { (other : List ℕ) → holders_of self.new other ≡ holders_of self.old other }
        ensures place { OnOk result (AllByRecursion (λ id. has_place self.new id node ≡ true) ids.now) }
    {
        for id in ids {
            self.reserve(*id, node)?;
        }
        Ok(())
    }

    /// Adds a node to the holders of an id, for which there is room. It takes no memory.
    #[tactic(auto, unfolding(crate::specs::HolderLists::holders_of, crate::specs::HolderLists::has_place))]
    fn note(&mut self, id: &Hash32, node: NodeId)
        requires place { has_place self.old id.now node ≡ true }
        ensures noted { (other : List ℕ) → holders_of self.new other ≡ (if bytes_eq other id.now then put_number node (holders_of self.old other) else holders_of self.old other) }
        ensures places { (other : List ℕ) → has_place self.old other node ≡ true → has_place self.new other node ≡ true }
    {
        match self.lists.get_mut(id) {
            Some(list) => put_among(list, node),
            None => unreachable!(),
        }
    }

    /// Adds a node to the holders of each of these ids, for which there is room. It takes no memory.
    pub(crate) fn note_each(&mut self, ids: &[Hash32], node: NodeId)
        requires place { AllByRecursion (λ id. has_place self.old id node ≡ true) ids.now }
        ensures noted { (other : List ℕ) → holders_of self.new other ≡ (if is_among other ids.now then put_number node (holders_of self.old other) else holders_of self.old other) }
    {
        for id in ids {
            self.note(id, node);
        }
    }
}
