//! The map.
ghost use Rattle.std.specs.Prelude.{◌≡◌, ◌≢◌, ◌↔◌, ℕ, List, Option, Some, None, Ok, IsTrue, IsSome, IsOk, IfSome, OnOk, OnErr, option_copied};
ghost use Rattle.std.specs.HashMap.{IsUnchanged};
ghost use Rattle.sha2.specs.Sha256.{sha256};
ghost use Rattle.depot_base.specs.Sized.{IsValue};
ghost use Rattle.depot_model.specs.declared.taken.Taken.TheVariants as taken;
ghost use Rattle.depot_kept.specs.ValueSlots.{AreSlotsHashed, PutsSlot, has_slot};

use depot_base::{Hash32, Memory, Value};
use depot_model::Taken;
use indexmap::IndexMap;
use sha2::{Digest, Sha256};
use std::alloc::Global;

type Slots = IndexMap<Hash32, Option<Value>>;

/// Fills a slot that is absent or empty. Only a hash without a slot takes memory.
fn put_slot(slots: &mut Slots, hash: Hash32, slot: Option<Value>) -> Result<(), Memory>
    ensures ok { OnOk result (PutsSlot slots.old slots.new hash slot) }
    ensures err { OnErr result (IsUnchanged slots.old slots.new) }
    ensures succeeds { IsTrue (has_slot slots.old hash) → IsOk result }
{
    match slots.insert(hash, slot) {
        Ok(_) => Ok(()),
        Err(_) => Err(Memory),
    }
}

/// A map from SHA-256 to the first value that was added with it.
#[derive(Drop)]
pub struct Values {
    // A hash whose slot is empty is one for which memory was reserved.
    slots: Slots,
    ghost hashed: { AreSlotsHashed slots },
}

impl Values {
    ghost use Rattle.depot_kept.specs.Values.{held_in, has_value_room};

    /// No values. It takes no memory.
    #[tactic(auto, using(crate::proofs::ValueSlotLaws::slot_laws), unfolding(crate::specs::Values::held_in, crate::specs::Values::has_value_room))]
    pub fn new(alloc: Global) -> Values
        ensures { (hash : List ℕ) → held_in result hash ≡ None }
    {
        Values {
            slots: IndexMap::new(alloc),
        }
    }

    /// Reserves memory for a value of this hash: the next `add` of one can't fail, whatever other hashes are reserved
    /// or added before. On `Memory` all is unchanged.
    #[tactic(auto, using(crate::proofs::ValueSlotLaws::slot_laws), unfolding(crate::specs::Values::held_in, crate::specs::Values::has_value_room))]
    pub fn reserve(&mut self, hash: &Hash32) -> Result<(), Memory>
        ensures room { OnOk result (IsTrue (has_value_room self.new hash.now)) }
        ensures room_stays { (other : List ℕ) → IsTrue (has_value_room self.old other) → IsTrue (has_value_room self.new other) }
        ensures values_stay { (other : List ℕ) → held_in self.new other ≡ held_in self.old other }
    {
        if self.slots.contains_key(hash) {
            return Ok(());
        }
        put_slot(&mut self.slots, *hash, None)
    }

    /// Adds a value under its SHA-256. Known comes exactly where a value of that hash is there, and then nothing
    /// changes. On `Memory` all is unchanged.
    pub fn add(&mut self, value: Value) -> Result<Taken, Memory>
        ensures known { (result ≡ Ok taken.Known) ↔ IsSome (held_in self.old (sha256 value)) }
        ensures new { result ≡ Ok taken.New → held_in self.new (sha256 value) ≡ Some value }
        ensures else_stays { result ≢ Ok taken.New → (other : List ℕ) → held_in self.new other ≡ held_in self.old other }
        ensures others_stay { (other : List ℕ) → other ≢ sha256 value → held_in self.new other ≡ held_in self.old other }
        ensures succeeds { IsTrue (has_value_room self.old (sha256 value)) → IsOk result }
        ensures room_stays { (other : List ℕ) → IsTrue (has_value_room self.old other) → IsTrue (has_value_room self.new other) }
    {
        let hash = Hash32::new(Sha256::digest(value.bytes()));
        self.add_hashed(hash, value)
    }

    /// The same for a value whose SHA-256 is known, so that it isn't hashed once more.
    #[tactic(auto, using(crate::proofs::ValueSlotLaws::slot_laws), unfolding(crate::specs::Values::held_in, crate::specs::Values::has_value_room))]
    pub fn add_hashed(&mut self, hash: Hash32, value: Value) -> Result<Taken, Memory>
        requires { hash ≡ sha256 value }
        ensures known { (result ≡ Ok taken.Known) ↔ IsSome (held_in self.old hash) }
        ensures new { result ≡ Ok taken.New → held_in self.new hash ≡ Some value }
        ensures else_stays { result ≢ Ok taken.New → (other : List ℕ) → held_in self.new other ≡ held_in self.old other }
        ensures others_stay { (other : List ℕ) → other ≢ hash → held_in self.new other ≡ held_in self.old other }
        ensures succeeds { IsTrue (has_value_room self.old hash) → IsOk result }
        ensures room_stays { (other : List ℕ) → IsTrue (has_value_room self.old other) → IsTrue (has_value_room self.new other) }
    {
        if self.get(&hash).is_some() {
            return Ok(Taken::Known);
        }
        put_slot(&mut self.slots, hash, Some(value))?;
        Ok(Taken::New)
    }

    /// The value with this hash. None exactly where there is none. It takes no memory.
    #[tactic(auto, using(crate::proofs::ValueSlotLaws::slot_laws), unfolding(crate::specs::Values::held_in, crate::specs::Values::has_value_room))]
    pub fn get(&self, hash: &Hash32) -> Option<&[u8]>
        ensures value { option_copied result ≡ held_in self.now hash.now }
        ensures hashed { IfSome (held_in self.now hash.now) (λ value. sha256 value ≡ hash.now) }
        ensures sized { IfSome (held_in self.now hash.now) IsValue }
    {
        match self.slots.get(hash) {
            Some(Some(value)) => Some(value.bytes()),
            _ => None,
        }
    }
}
