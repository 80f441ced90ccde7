//! Ids that vouchers name.
ghost use Rattle.std.specs.Prelude.{◌≡◌, [], ◌∷◌, true, IsOk, OnOk, OnErr};
ghost use Rattle.std.specs.Map.{keys_of};
ghost use Rattle.depot_model.specs.lists.Lists.{is_among, AreTogether};
ghost use Rattle.depot_kept.specs.VouchedView.{AreWithin};
ghost use Rattle.depot_kept.specs.IdSlots.{vouched_in, DoAscend};

use depot_base::{Hash32, Ids, Memory};
use std::alloc::Global;
use std::collections::BTreeMap;
use std::marker::Model;

/// A set of ids that vouchers name, which only grows: those that others vouched for, or those that a node itself
/// vouched for.
///
/// It is seen as the list of the ids, and the list of those for which there is room: these, and the reserved ones. The
/// signer of a voucher picks its ids, so none is hashed: a look-up takes logarithmic time for any ids.
#[derive(Drop)]
pub struct VouchedIds {
    // Whether each is vouched. One that isn't is one for which memory was reserved.
    slots: VoucherSlots,
}

type VoucherSlots = BTreeMap<Hash32, bool>;

impl Model for VouchedIds {
    ghost use Rattle.std.specs.Map.{keys_of};
    ghost use Rattle.depot_kept.specs.VouchedView.{IdsWithRoom};
    ghost use Rattle.depot_kept.specs.IdSlots.{vouched_in, DoAscend};

    ghost Value = { IdsWithRoom };

    ghost view = { λ v. record { ids = vouched_in v.slots.entries; room = keys_of v.slots.entries } };

    ghost invariant = { λ v. DoAscend (keys_of v.slots.entries) };
}

impl VouchedIds {
    /// No ids. It takes no memory.
    pub fn new(alloc: Global) -> VouchedIds
        ensures ids { result.ids ≡ [] }
        ensures room { result.room ≡ [] }
    {
        VouchedIds {
            slots: BTreeMap::new(alloc),
        }
    }

    /// Reserves memory for these ids: an `add` of them, or of some of them, can't fail, whatever comes between. The ids
    /// in the set stay, also on `Memory`.
    pub fn reserve(&mut self, ids: &Ids) -> Result<(), Memory>
        ensures ok { OnOk result (AreTogether self.old.room ids.now self.new.room) }
        ensures ids { self.new.ids ≡ self.old.ids }
        ensures stays { AreWithin self.old.room self.new.room }
        ensures known { AreWithin ids.now self.old.room → IsOk result }
    {
        reserve_all(&mut self.slots, ids.as_slice())
    }

    /// Adds ids: all of them, or none where memory runs out. It can't fail where there is room for them.
    pub fn add(&mut self, ids: &Ids) -> Result<(), Memory>
        ensures ok { OnOk result (AreTogether self.old.ids ids.now self.new.ids) }
        ensures err { OnErr result (self.new.ids ≡ self.old.ids) }
        ensures stays { AreWithin self.old.room self.new.room }
        ensures known { AreWithin ids.now self.old.room → IsOk result }
    {
        reserve_all(&mut self.slots, ids.as_slice())?;
        vouch_for_all(&mut self.slots, ids.as_slice());
        Ok(())
    }

    /// Whether the set has this id. It takes no memory.
    pub fn contains(&self, id: &Hash32) -> bool
        ensures { result ≡ is_among id.now self.now.ids }
    {
        match self.slots.get(id) {
            Some(is_vouched) => *is_vouched,
            None => false,
        }
    }
}

/// Reserves a place for each of these ids. Which ids are vouched stays.
fn reserve_all(slots: &mut VoucherSlots, ids: &[Hash32]) -> Result<(), Memory>
    ensures ok { OnOk result (AreTogether (keys_of slots.old.entries) ids.now (keys_of slots.new.entries)) }
    ensures ids { vouched_in slots.new.entries ≡ vouched_in slots.old.entries }
    ensures stays { AreWithin (keys_of slots.old.entries) (keys_of slots.new.entries) }
    ensures known { AreWithin ids.now (keys_of slots.old.entries) → IsOk result }
    ensures ascending { DoAscend (keys_of slots.old.entries) → DoAscend (keys_of slots.new.entries) }
{
    for id in ids {
        reserve_one(slots, *id)?;
    }
    Ok(())
}

/// Reserves a place for an id, if it has none.
fn reserve_one(slots: &mut VoucherSlots, id: Hash32) -> Result<(), Memory>
    ensures ok { OnOk result (AreTogether (keys_of slots.old.entries) (id ∷ []) (keys_of slots.new.entries)) }
    ensures ids { vouched_in slots.new.entries ≡ vouched_in slots.old.entries }
    ensures stays { AreWithin (keys_of slots.old.entries) (keys_of slots.new.entries) }
    ensures known { is_among id (keys_of slots.old.entries) ≡ true → IsOk result }
    ensures ascending { DoAscend (keys_of slots.old.entries) → DoAscend (keys_of slots.new.entries) }
{
    if slots.contains_key(&id) {
        return Ok(());
    }
    slots.insert(id, false)?;
    Ok(())
}

/// Marks these ids, each of which has a place, as vouched.
fn vouch_for_all(slots: &mut VoucherSlots, ids: &[Hash32])
    requires { AreWithin ids.now (keys_of slots.old.entries) }
    ensures together { AreTogether (vouched_in slots.old.entries) ids.now (vouched_in slots.new.entries) }
    ensures places { keys_of slots.new.entries ≡ keys_of slots.old.entries }
{
    for id in ids {
        vouch_for(slots, *id);
    }
}

/// Marks an id that has a place as vouched.
fn vouch_for(slots: &mut VoucherSlots, id: Hash32)
    requires { is_among id (keys_of slots.old.entries) ≡ true }
    ensures together { AreTogether (vouched_in slots.old.entries) (id ∷ []) (vouched_in slots.new.entries) }
    ensures places { keys_of slots.new.entries ≡ keys_of slots.old.entries }
{
    let _ = slots.insert(id, true);
}
