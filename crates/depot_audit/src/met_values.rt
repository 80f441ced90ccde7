//! The values that records brought, by their hashes.
ghost use Rattle.std.specs.Prelude.{◌≡◌, ℕ, List, [], ◌∷◌, ◌++◌, OnOk};
ghost use Rattle.std.specs.Option.{option_map};
ghost use Rattle.std.specs.HashMap.{get};
ghost use Rattle.std.specs.Str.{bytes_eq};
ghost use Rattle.depot_audit.specs.Tables.{PutsValue, AreMetValues};

use depot_base::{Hash32, Memory, Value, ValueList};
use depot_model::hash_of;
use indexmap::IndexMap;
use std::alloc::Global;

type ValueMap = IndexMap<Hash32, Value>;

/// Whether a table has this value under a hash, or has another; None where it has none.
fn has_same(table: &ValueMap, hash: &Hash32, value: &[u8]) -> Option<bool>
    ensures { result ≡ option_map (λ met. bytes_eq met value.now) (get bytes_eq table.now hash.now) }
{
    match table.get(hash) {
        None => None,
        Some(met) => Some(met.bytes() == value),
    }
}

/// Puts a value under its hash.
fn put_value(table: &mut ValueMap, hash: Hash32, value: Value) -> Result<(), Memory>
    ensures { OnOk result (PutsValue table.old table.new hash value) }
{
    match table.insert(hash, value) {
        Ok(_) => Ok(()),
        Err(_) => Err(Memory),
    }
}

/// The first value of each hash, and whether each hash had one value.
#[derive(Drop)]
pub struct MetValues {
    table: ValueMap,
    apart: bool,
}

impl MetValues {
    /// None yet. It takes no memory.
    pub fn new(alloc: Global) -> MetValues
        ensures { AreMetValues [] result.table result.apart }
    {
        MetValues {
            table: IndexMap::new(alloc),
            apart: true,
        }
    }

    /// Adds a value.
    pub fn add(&mut self, value: Value) -> Result<(), Memory>
        ensures { OnOk result ((vs : List (List ℕ)) → AreMetValues vs self.old.table self.old.apart → AreMetValues (vs ++ value ∷ []) self.new.table self.new.apart) }
    {
        let hash = hash_of(value.bytes());
        match has_same(&self.table, &hash, value.bytes()) {
            None => put_value(&mut self.table, hash, value),
            Some(true) => Ok(()),
            Some(false) => {
                self.apart = false;
                Ok(())
            }
        }
    }

    /// Adds values.
    pub fn add_all(&mut self, values: ValueList) -> Result<(), Memory>
        ensures { OnOk result ((vs : List (List ℕ)) → AreMetValues vs self.old.table self.old.apart → AreMetValues (vs ++ values) self.new.table self.new.apart) }
    {
        for value in values.into_vec() {
            self.add(value)?;
        }
        Ok(())
    }

    /// Whether no two different values had one hash.
    pub fn is_apart(&self) -> bool
        ensures { result ≡ self.now.apart }
    {
        self.apart
    }
}
