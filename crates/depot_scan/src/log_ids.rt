//! The ids of a log, each once, and which of them are covered.
ghost use Rattle.std.specs.Prelude.{◌≡◌, [], ◌∷◌, not, map, IfOk, OnOk};
ghost use Rattle.std.specs.List.{list_all};
ghost use Rattle.depot_model.specs.updates.Order.{prevs, parents};
ghost use Rattle.depot_scan.specs.Ids.{PutsIdMark, is_id_marked, knows, is_id_covered, HasMore, IsBlank, IsUncovered};

use depot_base::{Dep, Hash32, Memory, Update};
use indexmap::IndexMap;
use std::alloc::Global;

/// Each id, and whether it is covered.
type IdMarks = IndexMap<Hash32, bool>;

/// Replaces the mark of an id.
fn put_mark(marks: &mut IdMarks, id: Hash32, mark: bool) -> Result<bool, Memory>
    ensures new { IfOk result (λ is_new. is_new ≡ not (is_id_marked marks.old id)) }
    ensures ok { OnOk result (PutsIdMark marks.old marks.new id mark) }
{
    match marks.insert(id, mark) {
        Ok(old) => Ok(old.is_none()),
        Err(_) => Err(Memory),
    }
}

/// A table of ids by hash. Each id in it is the SHA-256 of a body, so nobody can choose ids that collide in the table.
#[derive(Drop)]
pub struct LogIds {
    marks: IdMarks,
}

impl LogIds {
    /// No ids, and room for so many.
    pub fn with_capacity(alloc: Global, count: usize) -> Result<LogIds, Memory>
        ensures { IfOk result IsBlank }
    {
        Ok(LogIds {
            marks: IndexMap::with_capacity(alloc, count)?,
        })
    }

    /// Whether the table has the id.
    fn contains(&self, id: &Hash32) -> bool
        ensures { result ≡ knows self.now id.now }
    {
        self.marks.contains_key(id)
    }

    /// Whether the id is covered.
    pub fn is_covered(&self, id: &Hash32) -> bool
        ensures { result ≡ is_id_covered self.now id.now }
    {
        match self.marks.get(id) {
            Some(mark) => *mark,
            None => false,
        }
    }

    /// Adds an id as not covered, and returns whether it is new.
    pub fn insert(&mut self, id: Hash32) -> Result<bool, Memory>
        requires { IsUncovered self.old }
        ensures new { IfOk result (λ is_new. is_new ≡ not (knows self.old id)) }
        ensures more { OnOk result (HasMore (id ∷ []) (knows self.old) (knows self.new)) }
        ensures uncovered { OnOk result (IsUncovered self.new) }
    {
        put_mark(&mut self.marks, id, false)
    }

    /// Covers the id.
    fn cover(&mut self, id: Hash32) -> Result<(), Memory>
        ensures { OnOk result (HasMore (id ∷ []) (is_id_covered self.old) (is_id_covered self.new)) }
    {
        put_mark(&mut self.marks, id, true)?;
        Ok(())
    }

    /// Whether the table has the update's prev, where that names an update.
    fn has_prev(&self, update: &Update) -> bool
        ensures { result ≡ list_all (λ h. knows self.now h) (prevs update.now) }
    {
        update.prev.is_zeros() || self.contains(&update.prev)
    }

    /// Whether the table has the id of each entry.
    fn has_entries(&self, deps: &[Dep]) -> bool
        ensures { result ≡ list_all (λ d. knows self.now d.id) deps.now }
    {
        deps.iter().all(|dep| self.contains(&dep.id))
    }

    /// Whether the table has each parent of the update.
    pub fn has_parents(&self, update: &Update) -> bool
        ensures { result ≡ list_all (λ h. knows self.now h) (parents update.now) }
    {
        self.has_prev(update) && self.has_entries(update.deps.as_slice())
    }

    /// Covers the update's prev, where that names an update.
    fn cover_prev(&mut self, update: &Update) -> Result<(), Memory>
        ensures { OnOk result (HasMore (prevs update.now) (is_id_covered self.old) (is_id_covered self.new)) }
    {
        if !update.prev.is_zeros() {
            self.cover(update.prev)?;
        }
        Ok(())
    }

    /// Covers the id of each entry.
    fn cover_entries(&mut self, deps: &[Dep]) -> Result<(), Memory>
        ensures { OnOk result (HasMore (map (λ d. d.id) deps.now) (is_id_covered self.old) (is_id_covered self.new)) }
    {
        for dep in deps {
            self.cover(dep.id)?;
        }
        Ok(())
    }

    /// Covers each parent of the update.
    pub fn cover_parents(&mut self, update: &Update) -> Result<(), Memory>
        ensures { OnOk result (HasMore (parents update.now) (is_id_covered self.old) (is_id_covered self.new)) }
    {
        self.cover_prev(update)?;
        self.cover_entries(update.deps.as_slice())
    }
}
