//! Contradictions among the signed statements that a node took from others: equivocation, and steps back.
ghost use Rattle.std.specs.Prelude.{◌≡◌, ◌<◌, ◌≤◌, ◌+◌, ◌^◌, [], ◌∷◌, ◌++◌, length, Some, slice_get, position, OnOk, OnErr, IsOk, if◌then◌else◌};
ghost use Rattle.std.specs.List.{list_any};
ghost use Rattle.depot_model.specs.texts.Texts.{IsSigned, IsStatement, id_of_statement};
ghost use Rattle.depot_model.specs.updates.Contradictions.{kind_of};
ghost use Rattle.depot_model.specs.checks.Checks.{is_update_with};
ghost use Rattle.depot_base.specs.declared.limits.TheConstants.{MOST_RECORDS};
ghost use Rattle.depot_base.specs.declared.statement.Signed.{Signed};
ghost use Rattle.depot_kept.specs.declared.marks.StatementMark.{StatementMark};
ghost use Rattle.depot_kept.specs.Entries.{kept_signed};
ghost use Rattle.depot_kept.specs.StatementMarks.{has_mark};
ghost use Rattle.depot_kept.specs.Table.{link_count, places_with_mark, spare_places};
ghost use Rattle.depot_kept.specs.Opponents.{IsContradiction, has_body_of};

use crate::firsts::{earlier, first_under};
use crate::kept_statement::KeptStatement;
use crate::marks::StatementMark;
use crate::table::PlaceTable;
use depot_base::{Hash32, Kind, Memory, Signed, Statement};
use std::alloc::Global;
use std::marker::Model;

/// A kept statement that another one contradicts.
#[derive(Clone, Copy, Debug, PartialEq, Eq)]
pub struct Found {
    /// How the two contradict each other.
    pub kind: Kind,
    /// The kept statement, numbered from 0 in the order in which they were kept.
    pub index: u32,
}

/// The signed statements that were kept.
#[derive(Drop)]
pub struct SeenStatements {
    entries: Vec<KeptStatement>,
    table: PlaceTable,
}

impl Model for SeenStatements {
    ghost use Rattle.std.specs.Prelude.{map, min, ◌-◌, ◌/◌, vec_len};
    ghost use Rattle.std.specs.Vec.{vec_capacity};
    ghost use Rattle.depot_kept.specs.Opponents.{KeptSigned};
    ghost use Rattle.depot_kept.specs.Entries.{kept_signed};
    ghost use Rattle.depot_kept.specs.Keeping.{IsKeeping};
    ghost use Rattle.depot_kept.specs.Table.{spare_places};

    ghost Value = { KeptSigned };

    ghost view = { λ s. record { kept = map kept_signed s.entries.items; room = min (vec_capacity s.entries - vec_len s.entries) (spare_places s.table / 3) } };

    ghost invariant = { λ s. IsKeeping s.entries.items s.table };
}

impl SeenStatements {
    /// Nothing. It takes no memory.
    pub fn new(alloc: Global) -> SeenStatements
        ensures { result.kept ≡ [] }
    {
        SeenStatements {
            entries: Vec::new(alloc),
            table: PlaceTable::new(alloc),
        }
    }

    /// Reserves memory to keep this signed statement: the next `add` can't fail. On `Memory` the kept statements are
    /// unchanged.
    pub fn reserve(&mut self, _signed: &Signed) -> Result<(), Memory>
        ensures same { self.new.kept ≡ self.old.kept }
        ensures room { OnOk result (0 < self.new.room) }
        ensures known { 0 < self.old.room → IsOk result }
    {
        self.entries.reserve(1)?;
        self.table.reserve(MARKS)
    }

    /// Appends a signed statement. `id` is SHA-256 of its body. Where memory was reserved, it can't fail; on `Memory`
    /// the kept statements are unchanged.
    pub fn add(&mut self, signed: Signed, id: Hash32) -> Result<(), Memory>
        requires text { IsSigned signed }
        requires id { id ≡ id_of_statement signed.statement }
        requires few { length self.old.kept ≤ MOST_RECORDS }
        ensures ok { OnOk result (self.new.kept ≡ self.old.kept ++ signed ∷ []) }
        ensures err { OnErr result (self.new.kept ≡ self.old.kept) }
        ensures room { 0 < self.old.room → IsOk result }
    {
        self.entries.reserve(1)?;
        self.table.reserve(MARKS)?;
        let place = self.entries.len() as u32;
        list_marks(&mut self.table, &signed.statement, &id, place);
        let Signed {
            statement,
            body,
            signature,
        } = signed;
        drop(body);
        self.entries.push_reserved(KeptStatement {
            statement,
            signature,
            id,
        });
        Ok(())
    }

    /// The first kept statement that this one contradicts, and how. None exactly where it contradicts none. `id` is
    /// SHA-256 of its body. It takes no memory.
    pub fn contradiction(&self, statement: &Statement, id: &Hash32) -> Option<Found>
        requires text { IsStatement statement.now }
        requires id { id.now ≡ id_of_statement statement.now }
        ensures { IsContradiction self.now.kept statement.now result }
    {
        let entries = self.entries.as_slice();
        let number = StatementMark::Number(statement.writer(), statement.seq());
        let same_number = first_under(&number, entries, &self.table, statement, id);
        let Statement::Update(update) = statement else {
            return same_number;
        };
        let prev = StatementMark::Prev(update.writer, update.prev);
        let same_prev = first_under(&prev, entries, &self.table, statement, id);
        let parent = StatementMark::Id(update.prev);
        let named = first_under(&parent, entries, &self.table, statement, id);
        let child = StatementMark::Prev(update.writer, *id);
        let naming = first_under(&child, entries, &self.table, statement, id);
        earlier(earlier(same_number, same_prev), earlier(named, naming))
    }

    /// The kept statement of an index. It takes no memory.
    pub fn at(&self, index: u32) -> &KeptStatement
        requires { index < length self.now.kept }
        ensures kept { slice_get self.now.kept index ≡ Some (kept_signed result.now) }
        ensures text { IsSigned (kept_signed result.now) }
        ensures id { result.now.id ≡ id_of_statement result.now.statement }
    {
        &self.entries[index as usize]
    }

    /// Whether a kept statement has the same body as this one. `id` is SHA-256 of its body. It takes no memory.
    pub fn holds(&self, statement: &Statement, id: &Hash32) -> bool
        requires text { IsStatement statement.now }
        requires id { id.now ≡ id_of_statement statement.now }
        ensures { result ≡ list_any (has_body_of statement.now) self.now.kept }
    {
        let number = StatementMark::Number(statement.writer(), statement.seq());
        for place in self.table.places(&number) {
            if self.entries[place as usize].has_body_of(statement, id) {
                return true;
            }
        }
        false
    }

    /// The index of the first kept update with this id. It takes no memory.
    pub fn find(&self, id: &Hash32) -> Option<u32>
        ensures { result ≡ position (λ s. is_update_with id.now s.statement) self.now.kept }
    {
        self.table.places(&StatementMark::Id(*id)).last()
    }

    /// How this statement contradicts the kept one of an index. None exactly where it doesn't. `id` is SHA-256 of its
    /// body. It takes no memory.
    pub fn kind_with(&self, index: u32, statement: &Statement, id: &Hash32) -> Option<Kind>
        requires index { index < length self.now.kept }
        requires text { IsStatement statement.now }
        requires id { id.now ≡ id_of_statement statement.now }
        ensures { (s : Signed) → slice_get self.now.kept index ≡ Some s → result ≡ kind_of s.statement statement.now }
    {
        self.entries[index as usize].kind_with(statement, id)
    }
}

/// The most marks of a statement.
const MARKS: usize = 3;

/// Lists the place of a statement under each of its marks.
fn list_marks(table: &mut PlaceTable, statement: &Statement, id: &Hash32, place: u32)
    requires room { MARKS ≤ spare_places table.old }
    requires few { link_count table.old + MARKS ≤ 2 ^ 32 }
    ensures listed { (mark : StatementMark) → places_with_mark table.new mark ≡ (if has_mark statement.now id.now mark then place ∷ places_with_mark table.old mark else places_with_mark table.old mark) }
    ensures count { link_count table.new ≤ link_count table.old + MARKS }
{
    table.add(
        StatementMark::Number(statement.writer(), statement.seq()),
        place,
    );
    let Statement::Update(update) = statement else {
        return;
    };
    table.add(StatementMark::Prev(update.writer, update.prev), place);
    table.add(StatementMark::Id(*id), place);
}
