//! A shelf in memory.
ghost use Rattle.std.specs.Prelude.{◌≡◌, ◌≢◌, ℕ, List, [], Some, None, true, IsTrue, OnOk, OnErr};
ghost use Rattle.std.specs.BTreeMap.{get_by_text};

use crate::calls::Calls;
use crate::name_list::NameList;
use crate::{Failed, OutError, Shelf};
use depot_base::{Bytes, Items, Memory};
use std::alloc::Global;
use std::collections::BTreeMap;

/// A shelf in memory.
#[derive(Debug, Drop)]
pub struct MemShelf {
    alloc: Global,
    files: BTreeMap<String, Bytes>,
    calls: Calls,
    loads: NameList,
    stores: NameList,
    failed: NameList,
}

impl MemShelf {
    /// A shelf with no file. Of its loads and stores, counted together from 1, those with these numbers fail. Tests
    /// show that; a clause says only that none fails where there is no number. It takes no memory.
    pub fn new(alloc: Global, fails: Items) -> MemShelf
        ensures tells { IsTrue (⟦<MemShelf as Shelf>⟧.tells result) }
        ensures empty { (name : List ℕ) → ⟦<MemShelf as Shelf>⟧.file result name ≡ None }
        ensures loads { ⟦<MemShelf as Shelf>⟧.loads result ≡ [] }
        ensures stores { ⟦<MemShelf as Shelf>⟧.stores result ≡ [] }
        ensures failed { ⟦<MemShelf as Shelf>⟧.failed result ≡ [] }
        ensures faults { ⟦<MemShelf as Shelf>⟧.faults result ≡ 0 }
        ensures faultless { fails ≡ [] → ⟦<MemShelf as Shelf>⟧.is_faultless result }
    {
        MemShelf {
            alloc,
            files: BTreeMap::new(alloc),
            calls: Calls::new(fails),
            loads: NameList::new(),
            stores: NameList::new(),
            failed: NameList::new(),
        }
    }

    /// Stores bytes under a name, in place of any that were there. It isn't counted among the calls, so it never fails.
    /// On `Memory` nothing has changed.
    #[tactic(auto, using(std::proofs::lemmas::Map::Text::text_keys))]
    pub fn put(&mut self, name: &str, bytes: &[u8]) -> Result<(), Memory>
        ensures stored { OnOk result (⟦<MemShelf as Shelf>⟧.file self.new name.now ≡ Some bytes.now) }
        ensures others { (other : List ℕ) → other ≢ name.now →
            ⟦<MemShelf as Shelf>⟧.file self.new other ≡ ⟦<MemShelf as Shelf>⟧.file self.old other }
        ensures memory { OnErr result (⟦<MemShelf as Shelf>⟧.file self.new ≡ ⟦<MemShelf as Shelf>⟧.file self.old) }
        ensures loads { ⟦<MemShelf as Shelf>⟧.loads self.new ≡ ⟦<MemShelf as Shelf>⟧.loads self.old }
        ensures stores { ⟦<MemShelf as Shelf>⟧.stores self.new ≡ ⟦<MemShelf as Shelf>⟧.stores self.old }
        ensures failed { ⟦<MemShelf as Shelf>⟧.failed self.new ≡ ⟦<MemShelf as Shelf>⟧.failed self.old }
        ensures faults { ⟦<MemShelf as Shelf>⟧.faults self.new ≡ ⟦<MemShelf as Shelf>⟧.faults self.old }
        ensures faultless { ⟦<MemShelf as Shelf>⟧.is_faultless self.old → ⟦<MemShelf as Shelf>⟧.is_faultless self.new }
    {
        let key = String::from_str(self.alloc, name)?;
        let file = Bytes::from_slice(self.alloc, bytes)?;
        self.files.insert(key, file)?;
        Ok(())
    }
}

impl Shelf for MemShelf {
    ghost tells = { λ _. true };

    ghost file = { λ s name. get_by_text s.files name };

    ghost loads = { λ s. s.loads.names };

    ghost stores = { λ s. s.stores.names };

    ghost failed = { λ s. s.failed.names };

    ghost faults = { λ s. s.calls.faults.number };

    ghost is_faultless = { λ s. s.calls.fails ≡ [] };

    fn load(&mut self, name: &str) -> Result<Option<Bytes>, OutError> {
        self.loads.note(name.as_bytes());
        if let Err(Failed) = self.calls.begin() {
            self.failed.note(name.as_bytes());
            return Err(OutError::Failed);
        }
        match self.files.get(name) {
            Some(file) => Ok(Some(file.copy()?)),
            None => Ok(None),
        }
    }

    fn store(&mut self, name: &str, bytes: &[u8]) -> Result<(), OutError> {
        self.stores.note(name.as_bytes());
        if let Err(Failed) = self.calls.begin() {
            self.failed.note(name.as_bytes());
            return Err(OutError::Failed);
        }
        Ok(self.put(name, bytes)?)
    }
}
