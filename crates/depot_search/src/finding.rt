//! The search.
ghost use Rattle.std.specs.Prelude.{◌≡◌, ◌≤◌, [], ◌∷◌, length, map, option_map, IfOk};
ghost use Rattle.std.specs.List.{AllByRecursion};
ghost use Rattle.depot_model.specs.worlds.Audit.{circle, wrong};
ghost use Rattle.depot_model.specs.lists.Lists.{first};
ghost use Rattle.depot_model.specs.worlds.World.{World};
ghost use Rattle.depot_model.specs.worlds.Traces.{IsWorldOf};
ghost use Rattle.depot_search.specs.Search.{HasFewRecords, HasFewReads, found_among};
ghost use Rattle.depot_traces.specs.SeenTraces.{trace_of, finding_of};
ghost use Rattle.depot_traces.specs.declared.trace.TheConstants.{MOST_READS};

use crate::accepted::Accepted;
use crate::circles::circle;
use crate::journal::{TracedJournal, journals_of};
use crate::rows::MemberRow;
use crate::table::{close, parent_table};
use crate::writes::writes_of;
use crate::wrong::wrong;
use depot_base::Memory;
use depot_traces::{Finding, Trace};
use std::alloc::Global;

/// The first write that is observed before itself, else the first read that isn't exact, by a table of all writes.
fn first_found(
    alloc: Global,
    journals: &[TracedJournal<'_>],
    writes: &[Accepted],
    table: &[MemberRow],
) -> Result<Option<Finding>, Memory>
    requires records { AllByRecursion HasFewRecords journals.now }
    requires reads { AllByRecursion HasFewReads journals.now }
    ensures { IfOk result (λ found. found ≡ found_among journals.now writes.now (map (λ r. r.items) table.now)) }
{
    match circle(journals, writes, table) {
        Some(found) => Ok(Some(found)),
        None => wrong(alloc, journals, writes, table),
    }
}

/// The first operation that is observed before itself, else the first read that isn't exact, in the world of traces,
/// which are in rising order of their nodes. None where there is neither. `Memory` may come in place of each answer:
/// the table has a byte for each pair of writes, and is made anew for each write.
pub fn search(alloc: Global, traces: &[&Trace]) -> Result<Option<Finding>, Memory>
    requires few { AllByRecursion (λ t. length t.now.reads ≤ MOST_READS) traces.now }
    requires world { (W : World) × IsWorldOf (map (λ t. trace_of t.now) traces.now) W }
    ensures { IfOk result (λ found. (W : World) → IsWorldOf (map (λ t. trace_of t.now) traces.now) W → option_map finding_of found ≡ first (circle W ∷ wrong W ∷ [])) }
{
    let journals = journals_of(alloc, traces)?;
    let writes = writes_of(alloc, &journals)?;
    let parents = parent_table(alloc, &writes)?;
    let table = close(alloc, parents)?;
    first_found(alloc, &journals, &writes, &table)
}
