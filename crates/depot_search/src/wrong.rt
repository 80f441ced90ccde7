//! The first read that isn't exact.
ghost use Rattle.std.specs.Prelude.{◌≡◌, ◌<◌, length, map, IfOk, IfSome};
ghost use Rattle.std.specs.List.{AllByRecursion};
ghost use Rattle.depot_search.specs.Read.{first_inexact, wrong_among};
ghost use Rattle.depot_search.specs.Search.{HasFewReads};

use crate::accepted::Accepted;
use crate::exact::is_exact;
use crate::journal::{TracedJournal, front};
use crate::rows::MemberRow;
use depot_base::Memory;
use depot_traces::Finding;
use std::alloc::Global;

/// The place of the first read of a journal that isn't exact.
fn first_inexact(
    alloc: Global,
    journals: &[TracedJournal<'_>],
    writes: &[Accepted],
    table: &[MemberRow],
    journal: &TracedJournal<'_>,
) -> Result<Option<usize>, Memory>
    ensures found { IfOk result (λ found. found ≡ first_inexact journals.now writes.now (map (λ r. r.items) table.now) journal.now.entries 0 journal.now.reads.now) }
    ensures within { IfOk result (λ found. IfSome found (λ place. place < length journal.now.reads.now)) }
{
    let reads = journal.reads;
    let entries = journal.entries.as_slice();
    for place in 0..reads.len() {
        let read = &reads[place];
        let saw = front(entries, read.length as usize);
        if !is_exact(alloc, journals, writes, table, saw, read)? {
            return Ok(Some(place));
        }
    }
    Ok(None)
}

/// The first read that isn't exact, by node and place.
pub fn wrong(
    alloc: Global,
    journals: &[TracedJournal<'_>],
    writes: &[Accepted],
    table: &[MemberRow],
) -> Result<Option<Finding>, Memory>
    requires { AllByRecursion HasFewReads journals.now }
    ensures { IfOk result (λ found. found ≡ wrong_among journals.now writes.now (map (λ r. r.items) table.now) journals.now) }
{
    for journal in journals {
        if let Some(place) = first_inexact(alloc, journals, writes, table, journal)? {
            return Ok(Some(Finding::Wrong {
                node: journal.node,
                place: place as u32,
            }));
        }
    }
    Ok(None)
}
