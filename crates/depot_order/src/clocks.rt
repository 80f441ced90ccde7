//! The clocks, and what they keep of each item: its spot and its row, which is the join of its parents' rows with its
//! own entry.
//!
//! A row of up to 16 chains is kept whole, and at every 32nd place of a chain each row is. Elsewhere only the entries
//! are kept in which a row differs from that of the item before it in its chain. `specs/KeptRows.antt` says what is
//! kept, and `proofs/` why it stays so.
ghost use Rattle.std.specs.Prelude.{◌≡◌, ◌<◌, ◌≤◌, ◌+◌, ◌↔◌, [], ◌∷◌, ◌++◌, length, IsTrue, IfOk, OnOk, OnErr, All, EachIndex, Contains, IfSome, ◌-◌, slice_index};
ghost use Rattle.depot_order.specs.KeptRows.{AreChained, IsNext, IsNextRow, IsChangedFrom, IsJoinedCount, KeepsRow};
ghost use Rattle.depot_order.specs.ChainItems.{ItemPrecedes, IsChainItemAt, chain_length, number_of_chains, IsLinked, IsOfPast, IsTrueOf, IsCount, CountsAll, IsWithin, IsRowJoined};

use crate::added::Added;
use crate::all_leq;
use crate::row::{
    KeptRow, Row, are_within, count_among, entries_above, entry_at, join_row, put_entries, put_own,
    put_row, raise_entries,
};
use depot_base::{Memory, Steps};
use std::alloc::Global;
use std::marker::Model;
use std::sync::ledger::Ledger;

/// Each place of a chain that this number divides keeps a whole row. A query on an item looks at no more items than
/// this.
const WHOLE: u32 = 32;

/// Up to how many chains a row is kept whole at each place: it takes hardly more memory than a list of differences.
const SHORT: usize = 16;

/// Items in chains, numbered from 0 in the order in which they were added, and which of them precedes which. A chain is
/// a virtual writer, the article's virtual node.
#[derive(Debug, Drop)]
pub struct Clocks {
    kept: Vec<KeptRow>,
    chains: u32,
    /// The joined row that was kept last, unless an item was added since.
    joined: Option<Joined>,
    added: Added,
}

/// A joined row, and the items whose rows it joins.
#[derive(Debug, Drop)]
struct Joined {
    items: Vec<u32>,
    row: Vec<u32>,
}

impl Model for Clocks {
    ghost use Rattle.std.specs.Prelude.{List, IfSome};
    ghost use Rattle.depot_order.specs.ChainItems.{ChainItem, IsRowJoined};
    ghost use Rattle.depot_order.specs.KeptRows.{KeepsItems};

    ghost Value = { List ChainItem };

    ghost view = { λ c. c.added.items };

    ghost invariant = { λ c. KeepsItems c.added.items c.kept.items c.chains × IfSome c.joined (λ j. IsRowJoined c.added.items j.items.items j.row.items) };
}

impl Clocks {
    /// No items. It takes no memory.
    pub fn new(alloc: Global) -> Clocks
        ensures { result ≡ [] }
    {
        Clocks {
            kept: Vec::new(alloc),
            chains: 0,
            joined: None,
            added: Added::new(),
        }
    }

    /// Appends an item. On `Memory` the items are unchanged.
    ///
    /// Its parents are among the items. It follows the last item of its chain, which is one of its parents; or it is
    /// the first of the next chain. There are fewer than 4,294,967,295 items.
    pub fn add(&mut self, chain: u32, place: u32, parents: &[u32]) -> Result<(), Memory>
        requires few { length self.old < 4294967295 }
        requires parents { All (λ p. p < length self.old) parents.now }
        requires chain { chain ≤ number_of_chains self.old }
        requires place { place ≡ chain_length self.old chain }
        requires linked { IsLinked self.old chain place parents.now }
        ensures added { OnOk result (self.new ≡ self.old ++ record { chain = chain; place = place; parents = parents.now } ∷ []) }
        ensures err { OnErr result (self.new ≡ self.old) }
    {
        let row = self.next_row(chain, place, parents)?;
        let row = self.kept_row(chain, place, parents, row)?;
        self.keep(KeptRow { chain, place, row }, parents)
    }

    /// Whether the item `a` precedes the item `b`: a path of parents leads from `b` to `a`. It takes one step and no memory.
    pub fn before<L: Ledger>(&self, a: u32, b: u32, steps: &mut Steps<L>) -> bool
        requires a { a < length self.now }
        requires b { b < length self.now }
        ensures answer { IsTrue result ↔ ItemPrecedes self.now a b }
        ensures cost { steps.new ≡ steps.old + 1 }
    {
        steps.tick();
        let kept = &self.kept[a as usize];
        if a == b {
            return false;
        }
        kept.place < self.count_of(b, kept.chain)
    }

    /// Writes the row of an item: for each chain, how many of its items are the item or precede it. The given row has
    /// one entry for each chain. It takes no memory.
    pub fn row_into(&self, item: u32, row: &mut [u32])
        requires item { item < length self.now }
        requires row { length row.old ≡ number_of_chains self.now }
        ensures many { EachIndex row.new (λ chain. IsTrueOf (IsOfPast self.now chain item) (slice_index row.new chain)) }
        ensures counts { EachIndex row.new (λ chain. IsCount self.now chain item (slice_index row.new chain)) }
    {
        // The clauses rest on the invariant of the fields, which this opens.
        let _ = &self.kept;
        self.fill_row(item, row);
    }

    /// Writes the row of an item over another.
    fn fill_row(&self, item: u32, row: &mut [u32])
        requires item { item < length self.now }
        requires row { length row.old ≡ number_of_chains self.now }
        ensures { EachIndex row.new (λ chain. IsCount self.now chain item (slice_index row.new chain)) }
    {
        match &self.kept[item as usize].row {
            Row::Whole(entries) => put_row(row, entries.as_slice()),
            Row::Changed { behind, entries } => {
                self.fill_row(*behind, row);
                put_entries(row, entries.as_slice());
            }
        }
    }

    /// Whether no entry of an item's row is above that of the given one, which has one entry for each chain: that is,
    /// whether the given row counts the item and all that precede it. It takes no memory.
    pub fn within(&self, item: u32, row: &[u32]) -> bool
        requires item { item < length self.now }
        requires row { length row.now ≡ number_of_chains self.now }
        ensures rows { IsTrue result ↔ IsWithin self.now item row.now }
        ensures counts { IsTrue result ↔ CountsAll self.now item row.now }
    {
        // The clauses rest on the invariant of the fields, which this opens.
        let _ = &self.kept;
        self.is_counted(item, row)
    }

    /// Whether a row counts an item and all that precede it.
    fn is_counted(&self, item: u32, row: &[u32]) -> bool
        requires item { item < length self.now }
        requires row { length row.now ≡ number_of_chains self.now }
        ensures { IsTrue result ↔ CountsAll self.now item row.now }
    {
        match &self.kept[item as usize].row {
            Row::Whole(entries) => all_leq(entries.as_slice(), &row[..entries.len()]),
            Row::Changed { behind, entries } => {
                are_within(entries.as_slice(), row) && self.is_counted(*behind, row)
            }
        }
    }

    /// The joined rows of these items: for each chain, how many of its items are one of these or precede one.
    pub fn joined(&self, items: &[u32]) -> Result<Vec<u32>, Memory>
        requires { All (λ p. p < length self.now) items.now }
        ensures joined { IfOk result (λ row. IsRowJoined self.now items.now row.items) }
    {
        let mut row = vec![in *self.kept.allocator(); 0u32; self.chains as usize]?;
        for item in items {
            self.join_with(*item, &mut row);
        }
        Ok(row)
    }

    /// Keeps the joined row of these items until an item is added. If that item has these as its parents, their rows
    /// aren't joined again. It takes no memory.
    pub fn keep_joined(&mut self, items: Vec<u32>, row: Vec<u32>)
        requires { IsRowJoined self.old items.items row.items }
        ensures { self.new ≡ self.old }
    {
        self.joined = Some(Joined { items, row });
    }

    /// The joined rows of these items: what was kept, if it is theirs. No joined row is kept after the call. The
    /// invariant of the items is returned with it.
    fn take_joined(&mut self, items: &[u32]) -> Result<Vec<u32>, Memory>
        requires { All (λ p. p < length self.old) items.now }
        ensures joined { IfOk result (λ row. IsRowJoined self.old items.now row.items) }
        ensures chained { AreChained self.old }
        ensures same { self.new ≡ self.old }
    {
        match self.joined.take() {
            Some(joined) if joined.items.as_slice() == items => Ok(joined.row),
            _ => self.joined(items),
        }
    }

    /// Joins the row of an item into another. What is kept of it is read once, and no entry past its end.
    fn join_with(&self, item: u32, row: &mut [u32])
        requires item { item < length self.now }
        requires row { length row.old ≡ number_of_chains self.now }
        ensures { EachIndex row.new (λ chain. IsJoinedCount self.now item chain (slice_index row.old chain) (slice_index row.new chain)) }
    {
        match &self.kept[item as usize].row {
            Row::Whole(entries) => join_row(row, entries.as_slice()),
            Row::Changed { behind, entries } => {
                self.join_with(*behind, row);
                raise_entries(row, entries.as_slice());
            }
        }
    }

    /// How many items of a chain are the item or precede it.
    fn count_of(&self, item: u32, chain: u32) -> u32
        requires { item < length self.now }
        ensures { IsCount self.now chain item result }
    {
        match &self.kept[item as usize].row {
            Row::Whole(entries) => entry_at(entries.as_slice(), chain),
            Row::Changed { behind, entries } => match count_among(entries.as_slice(), chain) {
                Some(count) => count,
                None => self.count_of(*behind, chain),
            },
        }
    }

    /// The whole row of the next item.
    fn next_row(&mut self, chain: u32, place: u32, parents: &[u32]) -> Result<Vec<u32>, Memory>
        requires few { length self.old < 4294967295 }
        requires next { IsNext self.old (record { chain = chain; place = place; parents = parents.now }) }
        ensures row { IfOk result (λ row. IsNextRow self.old (record { chain = chain; place = place; parents = parents.now }) row.items) }
        ensures same { self.new ≡ self.old }
    {
        let mut row = self.take_joined(parents)?;
        put_own(&mut row, chain, place)?;
        Ok(row)
    }

    /// The parent that is the item before this place in its chain, if there is one.
    fn behind(&self, chain: u32, place: u32, parents: &[u32]) -> Option<u32>
        requires { All (λ p. p < length self.now) parents.now }
        ensures parent { IfSome result (Contains parents.now) }
        ensures place { IfSome result (λ item. IsChainItemAt self.now item chain (place - 1)) }
    {
        let before = place.checked_sub(1)?;
        for parent in parents {
            let kept = &self.kept[*parent as usize];
            if kept.chain == chain && kept.place == before {
                return Some(*parent);
            }
        }
        None
    }

    /// What is kept of the next item's row: the whole row where it is short, and at each place that `WHOLE` divides; else
    /// the entries in which it differs from the row of the item before it in its chain.
    fn kept_row(
        &self,
        chain: u32,
        place: u32,
        parents: &[u32],
        row: Vec<u32>,
    ) -> Result<Row, Memory>
        requires next { IsNext self.now (record { chain = chain; place = place; parents = parents.now }) }
        requires row { IsNextRow self.now (record { chain = chain; place = place; parents = parents.now }) row.items }
        ensures { IfOk result (KeepsRow (self.now ++ record { chain = chain; place = place; parents = parents.now } ∷ []) (length self.now)) }
    {
        match self.behind(chain, place, parents) {
            Some(behind) if SHORT < row.len() && place % WHOLE != 0 => {
                self.changed_row(behind, row.as_slice())
            }
            _ => Ok(Row::Whole(row)),
        }
    }

    /// A row as the difference from an item's row: the entries that are above.
    fn changed_row(&self, behind: u32, row: &[u32]) -> Result<Row, Memory>
        requires item { behind < length self.now }
        requires row { length row.now ≡ number_of_chains self.now }
        ensures changed { IfOk result (IsChangedFrom self.now behind row.now) }
        ensures chained { AreChained self.now }
    {
        let alloc = *self.kept.allocator();
        let mut before = vec![in alloc; 0u32; row.len()]?;
        self.fill_row(behind, &mut before);
        let entries = entries_above(alloc, row, &before)?;
        Ok(Row::Changed { behind, entries })
    }

    /// Keeps the next item, which has these parents.
    fn keep(&mut self, kept: KeptRow, parents: &[u32]) -> Result<(), Memory>
        requires few { length self.old < 4294967295 }
        requires next { IsNext self.old (record { chain = kept.chain; place = kept.place; parents = parents.now }) }
        requires row { KeepsRow (self.old ++ record { chain = kept.chain; place = kept.place; parents = parents.now } ∷ []) (length self.old) kept.row }
        ensures added { OnOk result (self.new ≡ self.old ++ record { chain = kept.chain; place = kept.place; parents = parents.now } ∷ []) }
        ensures err { OnErr result (self.new ≡ self.old) }
    {
        let chain = kept.chain;
        let place = kept.place;
        self.kept.push(kept)?;
        self.joined = None;
        self.chains += u32::from(place == 0);
        self.added.note(parents, chain, place);
        Ok(())
    }
}
