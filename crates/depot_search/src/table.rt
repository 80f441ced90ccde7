//! Which write is observed before which: tables of rows, one row for each write.
ghost use Rattle.std.specs.Prelude.{◌≡◌, ◌<◌, length, map, IfOk};
ghost use Rattle.std.specs.List.{list_any};
ghost use Rattle.std.specs.Str.{bytes_eq};
ghost use Rattle.depot_model.specs.worlds.Audit.{is_parent};
ghost use Rattle.depot_model.specs.lists.Lists.{is_among};
ghost use Rattle.depot_model.specs.updates.Order.{parents, prevs};
ghost use Rattle.depot_search.specs.Rows.{over, over_all, over_each};

use crate::accepted::Accepted;
use crate::rows::{MemberRow, either, has, or};
use depot_base::{Dep, Hash32, Memory, Update};
use std::alloc::{AllocError, Global};

/// Whether an update names an id as that of its prev.
fn is_prev(update: &Update, id: &Hash32) -> bool
    ensures { result ≡ is_among id.now (prevs update.now) }
{
    if update.prev.is_zeros() {
        return false;
    }
    *id == update.prev
}

/// Whether one of these entries names an id.
fn has_entry(deps: &[Dep], id: &Hash32) -> bool
    ensures { result ≡ list_any (λ d. bytes_eq id.now d.id) deps.now }
{
    deps.iter().any(|dep| *id == dep.id)
}

/// Whether an update names an id as that of a parent.
fn names(update: &Update, id: &Hash32) -> bool
    ensures { result ≡ is_among id.now (parents update.now) }
{
    let prev = is_prev(update, id);
    let entry = has_entry(update.deps.as_slice(), id);
    or(prev, entry)
}

/// The writes that name an id as that of a parent.
fn children(alloc: Global, id: &Hash32, writes: &[Accepted]) -> Result<MemberRow, AllocError>
    ensures { IfOk result (λ row. row.items ≡ map (λ u. is_among id.now (parents u)) writes.now) }
{
    writes
        .iter()
        .map(|write| names(write.update(), id))
        .collect(alloc)
}

/// For each write, the writes whose parent it is.
pub fn parent_table(alloc: Global, writes: &[Accepted]) -> Result<Vec<MemberRow>, Memory>
    ensures { IfOk result (λ table. map (λ r. r.items) table.items ≡ map (λ t. map (λ u. is_parent t u) writes.now) writes.now) }
{
    let mut table = Vec::new(alloc);
    for write in writes {
        let id = write.id(alloc)?;
        table.push(children(alloc, &id, writes)?)?;
    }
    Ok(table)
}

/// A row; where the write of this place is in it, joined with that write's row, `by`.
fn over_one(alloc: Global, row: &[bool], by: &[bool], at: usize) -> Result<MemberRow, AllocError>
    ensures { IfOk result (λ made. made.items ≡ over row.now by.now at) }
{
    if has(row, at) {
        either(alloc, row, by)
    } else {
        row.to_vec(alloc)
    }
}

/// Each row joined so, in a new table.
fn over_write(alloc: Global, table: &[MemberRow], at: usize) -> Result<Vec<MemberRow>, Memory>
    requires { at < length table.now }
    ensures { IfOk result (λ made. map (λ r. r.items) made.items ≡ over_all (map (λ r. r.items) table.now) at) }
{
    let by = &table[at];
    let mut made = Vec::new(alloc);
    for row in table {
        made.push(over_one(alloc, row, by, at)?)?;
    }
    Ok(made)
}

/// Adds one write after another as an intermediate stop, from the last to the first.
pub fn close(alloc: Global, mut table: Vec<MemberRow>) -> Result<Vec<MemberRow>, Memory>
    ensures { IfOk result (λ made. map (λ r. r.items) made.items ≡ over_each (map (λ r. r.items) table.items) (length table.items)) }
{
    let mut at = table.len();
    while at > 0 {
        at -= 1;
        table = over_write(alloc, &table, at)?;
    }
    Ok(table)
}
