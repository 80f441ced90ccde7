//! What is kept of an item, and the operations on its row.
ghost use Rattle.std.specs.Prelude.{◌≡◌, ◌≤◌, ◌<◌, ◌↔◌, ℕ, length, max, slice_index, IsTrue, IfOk, IfSome, IfNone, OnOk, vec_len};
ghost use Rattle.depot_order.specs.KeptRows.{HasEntry, HasCount, AreOfChainsBelow, ArePut, AreRaised, AreEntriesWithin, AreAbove, own_entry, NoneAbove, IsFirstFrom};

use crate::{first_above, max_into};
use depot_base::Memory;
use std::alloc::Global;

/// An entry of a row.
#[derive(Clone, Copy, Debug)]
pub struct RowEntry {
    /// The chain.
    pub chain: u32,
    /// How many of its items are the row's item or precede it.
    pub count: u32,
}

/// The row of an item: for each chain, how many of its items are the item or precede it. Entries past the end count as
/// 0.
#[derive(Debug, Drop)]
pub enum Row {
    /// Each entry, up to the chains that there were.
    Whole(Vec<u32>),
    /// The row of the item before it in its chain, except for some entries.
    Changed {
        /// The item before it in its chain.
        behind: u32,
        /// The entries that differ, in rising order of the chains.
        entries: Vec<RowEntry>,
    },
}

/// What is kept of an item.
#[derive(Debug, Drop)]
pub struct KeptRow {
    /// Its chain.
    pub chain: u32,
    /// How many items of the chain come before it.
    pub place: u32,
    /// Its row.
    pub row: Row,
}

/// The count for a chain, if the entries have one.
pub fn count_among(entries: &[RowEntry], chain: u32) -> Option<u32>
    ensures some { IfSome result (HasCount entries.now chain) }
    ensures none { IfNone result (HasEntry entries.now chain → ⊥) }
{
    for entry in entries {
        if entry.chain == chain {
            return Some(entry.count);
        }
    }
    None
}

/// Whether no entry is above that of a row that has their chains.
pub fn are_within(entries: &[RowEntry], row: &[u32]) -> bool
    requires { AreOfChainsBelow entries.now (length row.now) }
    ensures { IsTrue result ↔ AreEntriesWithin entries.now row.now }
{
    for entry in entries {
        if row[entry.chain as usize] < entry.count {
            return false;
        }
    }
    true
}

/// Puts the entries into a row that has their chains.
pub fn put_entries(row: &mut [u32], entries: &[RowEntry])
    requires { AreOfChainsBelow entries.now (length row.old) }
    ensures { ArePut entries.now row.old row.new }
{
    for entry in entries {
        row[entry.chain as usize] = entry.count;
    }
}

/// Puts a row in place of another. Where it is shorter, the rest becomes 0; where it is longer, its rest is left out.
pub fn put_row(row: &mut [u32], with: &[u32])
    ensures { (k : ℕ) → k < length row.new → slice_index row.new k ≡ slice_index with.now k }
{
    for (i, entry) in row.iter_mut().enumerate() {
        *entry = with.get(i).copied().unwrap_or(0);
    }
}

/// Replaces each entry of a row by the greater of it and that of another, which isn't longer. Past its end the other's
/// entries count as 0.
pub fn join_row(row: &mut [u32], with: &[u32])
    requires { length with.now ≤ length row.old }
    ensures { (k : ℕ) → k < length row.new → slice_index row.new k ≡ max (slice_index row.old k) (slice_index with.now k) }
{
    max_into(&mut row[..with.len()], with);
}

/// Replaces each entry of a row that one of these is above.
pub fn raise_entries(row: &mut [u32], entries: &[RowEntry])
    requires { AreOfChainsBelow entries.now (length row.old) }
    ensures { AreRaised entries.now row.old row.new }
{
    for entry in entries {
        let chain = entry.chain as usize;
        row[chain] = row[chain].max(entry.count);
    }
}

/// The entry of a chain in a row, past whose end the entries count as 0.
pub fn entry_at(row: &[u32], chain: u32) -> u32
    ensures { result ≡ slice_index row.now chain }
{
    row.get(chain as usize).copied().unwrap_or(0)
}

/// Writes an item's own entry into a row: it counts the items of its chain up to itself. An item that starts a chain
/// starts the next one, so its entry is appended.
pub fn put_own(row: &mut Vec<u32>, chain: u32, place: u32) -> Result<(), Memory>
    requires chain { (place ≡ 0 → ⊥) → chain < vec_len row.old }
    requires few { place < 4294967295 }
    ensures { OnOk result (row.new.items ≡ own_entry row.old.items chain place) }
{
    if place == 0 {
        row.push(1)?;
    } else {
        row[chain as usize] = place + 1;
    }
    Ok(())
}

/// The entries of a row that are above those of another of its length, in rising order of the chains.
pub fn entries_above(alloc: Global, row: &[u32], before: &[u32]) -> Result<Vec<RowEntry>, Memory>
    requires len { length row.now ≡ length before.now }
    requires few { length row.now < 4294967296 }
    ensures { IfOk result (λ v. AreAbove row.now before.now (length row.now) v.items) }
{
    let mut entries = Vec::new(alloc);
    let mut at = 0;
    while let Some(chain) = above_from(row, before, at) {
        entries.push(RowEntry {
            chain: chain as u32,
            count: row[chain],
        })?;
        at = chain + 1;
    }
    Ok(entries)
}

/// The first place from `at` on at which a row is above another of its length.
fn above_from(row: &[u32], before: &[u32], at: usize) -> Option<usize>
    requires len { length row.now ≡ length before.now }
    requires inside { at ≤ length row.now }
    ensures some { IfSome result (IsFirstFrom row.now before.now at) }
    ensures none { IfNone result (NoneAbove row.now before.now at (length row.now)) }
{
    let step = first_above(&row[at..], &before[at..])?;
    Some(at + step)
}
