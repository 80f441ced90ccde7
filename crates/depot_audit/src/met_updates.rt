//! The updates that records brought, by their ids.
ghost use Rattle.std.specs.Prelude.{◌≡◌, List, [], ◌∷◌, ◌++◌, OnOk, option_copied};
ghost use Rattle.std.specs.HashMap.{get};
ghost use Rattle.std.specs.Str.{bytes_eq};
ghost use Rattle.depot_base.specs.declared.update.Update.{Update};
ghost use Rattle.depot_model.specs.texts.Texts.{id_of_update};
ghost use Rattle.depot_audit.specs.Tables.{IsUnder, PutsUpdate, AreMetUpdates, update_where};

use depot_base::{Hash32, Memory, Update};
use indexmap::IndexMap;
use std::alloc::Global;

/// An update, and whether a record of its own node puts it.
#[derive(Debug, Drop)]
pub struct MetUpdate {
    /// The update.
    pub update: Update,
    /// Whether a node put it.
    pub put: bool,
}

type UpdateMap = IndexMap<Hash32, MetUpdate>;

/// What a table has under the id of an update.
#[derive(Clone, Copy)]
enum Under {
    /// No update.
    Nothing,
    /// This update, and whether a node put it.
    Same { put: bool },
    /// Another one.
    Other,
}

/// What a table has under the id of an update.
fn found_under(table: &UpdateMap, id: &Hash32, update: &Update) -> Under
    ensures { IsUnder (get bytes_eq table.now id.now) update.now result }
{
    match table.get(id) {
        None => Under::Nothing,
        Some(met) => {
            if !met.update.is_same(update) {
                return Under::Other;
            }
            Under::Same { put: met.put }
        }
    }
}

/// Puts an update under its id.
fn put_update(table: &mut UpdateMap, id: Hash32, met: MetUpdate) -> Result<(), Memory>
    ensures { OnOk result (PutsUpdate table.old table.new id met) }
{
    match table.insert(id, met) {
        Ok(_) => Ok(()),
        Err(_) => Err(Memory),
    }
}

/// The first update of each id, and whether each id had one update.
#[derive(Drop)]
pub struct MetUpdates {
    table: UpdateMap,
    apart: bool,
}

impl MetUpdates {
    /// None yet. It takes no memory.
    pub fn new(alloc: Global) -> MetUpdates
        ensures { AreMetUpdates [] [] result.table result.apart }
    {
        MetUpdates {
            table: IndexMap::new(alloc),
            apart: true,
        }
    }

    /// Adds an update, and whether a node put it.
    pub fn add(&mut self, id: Hash32, update: Update, put: bool) -> Result<(), Memory>
        requires { id ≡ id_of_update update }
        ensures { OnOk result ((us ps : List Update) → AreMetUpdates us ps self.old.table self.old.apart → AreMetUpdates (us ++ update ∷ []) (ps ++ update_where put update) self.new.table self.new.apart) }
    {
        match found_under(&self.table, &id, &update) {
            Under::Nothing => put_update(&mut self.table, id, MetUpdate { update, put }),
            Under::Same { put: before } => {
                if before {
                    return Ok(());
                }
                if !put {
                    return Ok(());
                }
                put_update(&mut self.table, id, MetUpdate { update, put })
            }
            Under::Other => {
                self.apart = false;
                Ok(())
            }
        }
    }

    /// Whether no two different updates had one id.
    pub fn is_apart(&self) -> bool
        ensures { result ≡ self.now.apart }
    {
        self.apart
    }

    /// The update of this id.
    pub fn get(&self, id: &Hash32) -> Option<&MetUpdate>
        ensures { option_copied result ≡ get bytes_eq self.now.table id.now }
    {
        self.table.get(id)
    }
}
