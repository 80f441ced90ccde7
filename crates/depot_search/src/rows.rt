//! Sets of the members of a list, as rows.
ghost use Rattle.std.specs.Prelude.{◌≡◌, ◌&&◌, ◌||◌, not, map, IfOk};
ghost use Rattle.depot_search.specs.Rows.{either_of, both_of, without_of, is_met, is_set, reached_by};

use std::alloc::{AllocError, Global};

/// Whether each member of a list, in their order, is in a set.
pub type MemberRow = Vec<bool>;

/// Whether one of two tests passes.
pub fn or(a: bool, b: bool) -> bool
    ensures { result ≡ a || b }
{
    a || b
}

fn and(a: bool, b: bool) -> bool
    ensures { result ≡ a && b }
{
    a && b
}

fn and_not(a: bool, b: bool) -> bool
    ensures { result ≡ a && not b }
{
    a && !b
}

/// What is in either set.
pub fn either(alloc: Global, a: &[bool], b: &[bool]) -> Result<MemberRow, AllocError>
    ensures { IfOk result (λ row. row.items ≡ either_of a.now b.now) }
{
    a.iter().zip(b).map(|(x, y)| or(*x, *y)).collect(alloc)
}

/// What is in both.
pub fn both(alloc: Global, a: &[bool], b: &[bool]) -> Result<MemberRow, AllocError>
    ensures { IfOk result (λ row. row.items ≡ both_of a.now b.now) }
{
    a.iter().zip(b).map(|(x, y)| and(*x, *y)).collect(alloc)
}

/// What is in the first alone.
pub fn without(alloc: Global, a: &[bool], b: &[bool]) -> Result<MemberRow, AllocError>
    ensures { IfOk result (λ row. row.items ≡ without_of a.now b.now) }
{
    a.iter().zip(b).map(|(x, y)| and_not(*x, *y)).collect(alloc)
}

/// Whether one is in both.
pub fn meets(a: &[bool], b: &[bool]) -> bool
    ensures { result ≡ is_met a.now b.now }
{
    a.iter().zip(b).any(|(x, y)| and(*x, *y))
}

/// Whether the member of a place is in a set.
pub fn has(row: &[bool], at: usize) -> bool
    ensures { result ≡ is_set row.now at }
{
    at < row.len() && row[at]
}

/// The members whose rows have one in a set.
pub fn reached(alloc: Global, table: &[MemberRow], set: &[bool]) -> Result<MemberRow, AllocError>
    ensures { IfOk result (λ row. row.items ≡ reached_by (map (λ r. r.items) table.now) set.now) }
{
    let mut row = Vec::new(alloc);
    for r in table {
        row.push(meets(r, set))?;
    }
    Ok(row)
}
