//! An index of items by their keys.
ghost use Rattle.std.specs.Prelude.{◌≡◌, ◌<◌, ◌≤◌, ◌+◌, ℕ, List, [], length, All, IsOk, OnOk, OnErr, IsTrue, ◌↔◌};
ghost use Rattle.depot_order.specs.LatestItems.{IsLatestWith, IsMended};
ghost use Rattle.depot_order.specs.KeyLists.{latest_of, room_of};

use crate::latest::mend;
use depot_base::{Key, Memory, Precedes, Steps};
use std::alloc::Global;
use std::collections::BTreeMap;
use std::marker::Model;
use std::sync::ledger::Ledger;

/// The latest items of each key, in a map ordered by key. A stranger picks the keys, so none is hashed: a look-up takes
/// logarithmic time for any keys.
#[derive(Drop)]
pub struct KeyIndex {
    lists: BTreeMap<Vec<u8>, Vec<u32>>,
    alloc: Global,
}

impl Model for KeyIndex {
    ghost use Rattle.std.specs.Prelude.{List};
    ghost use Rattle.depot_order.specs.KeyLists.{KeyList, key_lists};

    ghost Value = { List KeyList };

    ghost view = { λ i. key_lists i.lists.entries };
}

impl KeyIndex {
    /// No items. It takes no memory.
    pub fn new(alloc: Global) -> KeyIndex
        ensures { result ≡ [] }
    {
        KeyIndex {
            lists: BTreeMap::new(alloc),
            alloc,
        }
    }

    /// Reserves memory for one more item of this key, whatever other keys are reserved or added to before it. The
    /// latest items stay.
    pub fn reserve(&mut self, key: &Key) -> Result<(), Memory>
        ensures same { (other : List ℕ) → latest_of other self.new ≡ latest_of other self.old }
        ensures room { OnOk result (0 < room_of key.now self.new) }
        ensures known { 0 < room_of key.now self.old → IsOk result }
        ensures rooms { (other : List ℕ) → 0 < room_of other self.old → 0 < room_of other self.new }
    {
        if self.has_room(key) {
            return Ok(());
        }
        let mut list = Vec::from_slice(self.alloc, self.latest(key))?;
        list.reserve(1)?;
        let key = Vec::from_slice(self.alloc, key.bytes())?;
        self.lists.insert(key, list)?;
        Ok(())
    }

    /// Adds an item of this key, in an order in which it precedes no item here. On `Memory` the latest items are
    /// unchanged. It takes a step for each latest item that the key had.
    ///
    /// The order has the item and the key's latest items in use. Where these are the latest of some items in this
    /// order, not counting the new item, the call makes them the latest of those and the item.
    pub fn add<P: Precedes, L: Ledger>(
        &mut self,
        order: &P,
        key: &Key,
        item: u32,
        steps: &mut Steps<L>,
    ) -> Result<(), Memory>
        requires item { P.has order.now item }
        requires items { All (P.has order.now) (latest_of key.now self.old) }
        ensures latest { OnOk result (IsLatestWith (P.precedes order.now) (P.listed order.now) item (latest_of key.now self.old) (latest_of key.now self.new)) }
        ensures others { (other : List ℕ) → (other ≡ key.now → ⊥) → latest_of other self.new ≡ latest_of other self.old }
        ensures err { OnErr result (latest_of key.now self.new ≡ latest_of key.now self.old) }
        ensures cost { steps.new ≤ steps.old + length (latest_of key.now self.old) }
        ensures room { 0 < room_of key.now self.old → IsOk result }
        ensures rooms { (other : List ℕ) → (other ≡ key.now → ⊥) → 0 < room_of other self.old → 0 < room_of other self.new }
    {
        self.reserve(key)?;
        self.mend_list(order, key, item, steps);
        Ok(())
    }

    /// Updates the list of a key, for which memory is reserved.
    fn mend_list<P: Precedes, L: Ledger>(
        &mut self,
        order: &P,
        key: &Key,
        item: u32,
        steps: &mut Steps<L>,
    )
        requires room { 0 < room_of key.now self.old }
        requires item { P.has order.now item }
        requires items { All (P.has order.now) (latest_of key.now self.old) }
        ensures mended { IsMended (P.precedes order.now) (P.listed order.now) item (latest_of key.now self.old) (latest_of key.now self.new) }
        ensures others { (other : List ℕ) → (other ≡ key.now → ⊥) → latest_of other self.new ≡ latest_of other self.old }
        ensures rooms { (other : List ℕ) → (other ≡ key.now → ⊥) → room_of other self.new ≡ room_of other self.old }
        ensures cost { steps.new ≡ steps.old + length (latest_of key.now self.old) }
    {
        match self.lists.get_mut(key.bytes()) {
            Some(list) => mend(list, order, item, steps),
            None => unreachable!(),
        }
    }

    /// Whether there is memory for one more item of a key.
    fn has_room(&self, key: &Key) -> bool
        ensures { IsTrue result ↔ (0 < room_of key.now self.now) }
    {
        match self.lists.get(key.bytes()) {
            Some(list) => list.len() < list.capacity(),
            None => false,
        }
    }

    /// The latest items of a key, as they are listed, and none for a key that no item has. It takes no memory.
    pub fn latest(&self, key: &Key) -> &[u32]
        ensures { result.now ≡ latest_of key.now self.now }
    {
        match self.lists.get(key.bytes()) {
            Some(list) => list.as_slice(),
            None => &[],
        }
    }
}
