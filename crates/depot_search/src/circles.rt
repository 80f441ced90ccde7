//! The first write that is observed before itself.
ghost use Rattle.std.specs.Prelude.{◌≡◌, map};
ghost use Rattle.std.specs.List.{AllByRecursion};
ghost use Rattle.depot_search.specs.Rows.{first_own};
ghost use Rattle.depot_search.specs.Search.{HasFewRecords, op_among, circle_among};

use crate::accepted::Accepted;
use crate::journal::{TracedJournal, place_of};
use crate::rows::{MemberRow, has};
use depot_traces::{Finding, Op};

/// The first place whose member is in its own row.
fn first_own(table: &[MemberRow]) -> Option<usize>
    ensures { result ≡ first_own 0 (map (λ r. r.items) table.now) }
{
    for (at, row) in table.iter().enumerate() {
        if has(row, at) {
            return Some(at);
        }
    }
    None
}

/// The first journal that has a write, and its record's place there.
fn op_of(journals: &[TracedJournal<'_>], write: &Accepted) -> Option<Op>
    requires { AllByRecursion HasFewRecords journals.now }
    ensures { result ≡ op_among journals.now write.now }
{
    for journal in journals {
        if let Some(place) = place_of(journal.entries.as_slice(), write) {
            return Some(Op::Write {
                node: journal.node,
                place: place as u32,
            });
        }
    }
    None
}

/// The first write that is observed before itself, by the first journal that has it.
pub fn circle(
    journals: &[TracedJournal<'_>],
    writes: &[Accepted],
    table: &[MemberRow],
) -> Option<Finding>
    requires { AllByRecursion HasFewRecords journals.now }
    ensures { result ≡ circle_among journals.now writes.now (map (λ r. r.items) table.now) }
{
    let at = first_own(table)?;
    let write = writes.get(at)?;
    let op = op_of(journals, write)?;
    Some(Finding::Circle(op))
}
