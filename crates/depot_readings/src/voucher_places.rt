//! The ids that own vouchers name, each with the places of these vouchers.
ghost use Rattle.std.specs.Prelude.{◌≡◌, ◌<◌, ◌^◌, ◌||◌, ◌⊎◌, ℕ, List, true, false, OnOk};
ghost use Rattle.depot_model.specs.lists.Lists.{IsIn};
ghost use Rattle.depot_readings.specs.VoucherPlaces.{HasPlaceRooms, has_voucher_place, is_among_places, place_name};

use crate::named::NamedValues;
use depot_base::{Hash32, Memory, NamedValue};
use std::alloc::Global;

/// An id that an own voucher names, and the place, from 0, of the voucher's record.
#[derive(Clone, Copy)]
pub(crate) struct VoucherPlace {
    pub(crate) id: Hash32,
    pub(crate) place: u32,
}

impl VoucherPlace {
    /// Its key in the ordered set.
    fn name(&self) -> NamedValue
        ensures { result ≡ place_name self.now }
    {
        NamedValue {
            hash: self.id,
            size: self.place,
        }
    }
}

/// The ids that own vouchers name, each with the places of these vouchers. The signer of a voucher picks its ids, so
/// the set is ordered and not hashed.
#[derive(Drop)]
pub struct VoucherPlaces {
    // The set of values' names, with an id for the hash, and a place for the length.
    pub(crate) names: NamedValues,
}

impl VoucherPlaces {
    /// Those of no vouchers. It takes no memory.
    pub(crate) fn new(alloc: Global) -> VoucherPlaces
        ensures { (id : List ℕ) (place : ℕ) → has_voucher_place result id place ≡ false }
    {
        VoucherPlaces {
            names: NamedValues::new(alloc),
        }
    }

    /// Reserves memory for these: the `add` of them needs none. On `Memory` all is unchanged.
    pub(crate) fn reserve(&mut self, given: &[VoucherPlace]) -> Result<(), Memory>
        ensures room { OnOk result (HasPlaceRooms self.new given.now) }
        ensures same { (id : List ℕ) (place : ℕ) → has_voucher_place self.new id place ≡ has_voucher_place self.old id place }
    {
        for voucher in given {
            self.names.reserve_one(voucher.name())?;
        }
        Ok(())
    }

    /// Adds these, for which memory was reserved. It takes none.
    pub(crate) fn add(&mut self, given: &[VoucherPlace])
        requires { HasPlaceRooms self.old given.now }
        ensures { (id : List ℕ) (place : ℕ) → has_voucher_place self.new id place ≡ (has_voucher_place self.old id place || is_among_places given.now id place) }
    {
        for voucher in given {
            self.names.add_one(voucher.name());
        }
    }

    /// Adds the places of the own vouchers that name this id.
    pub(crate) fn push_places(&self, id: &Hash32, found: &mut Vec<u32>) -> Result<(), Memory>
        ensures kept { OnOk result ((place : ℕ) → IsIn place found.old.items → IsIn place found.new.items) }
        ensures all { OnOk result ((place : ℕ) → place < 2 ^ 32 → has_voucher_place self.now id.now place ≡ true → IsIn place found.new.items) }
        ensures only { OnOk result ((place : ℕ) → IsIn place found.new.items → IsIn place found.old.items ⊎ (has_voucher_place self.now id.now place ≡ true)) }
    {
        self.names.push_sizes(id, found)
    }
}
