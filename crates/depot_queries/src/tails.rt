//! The items of each virtual writer that are past a row.
ghost use Rattle.std.specs.Prelude.{◌≡◌, ◌<◌, length, IfOk, OnOk};
ghost use Rattle.std.specs.List.{AllByRecursion};
ghost use Rattle.depot_order.specs.Spots.{chain_count};
ghost use Rattle.depot_graph.specs.Kept.{prev_places};
ghost use Rattle.depot_queries.specs.Tails.{HasTail, HoldsBehind};

use depot_base::Memory;
use depot_graph::Graph;
use depot_model::Past;
use std::alloc::Global;

/// Items are searched chain by chain, and sorted, where at most one of this many is past the row: else a scan of all is
/// quicker.
const ONE_OF: u32 = 16;

/// Whether few of the items are past a row, which has an entry for each chain: at most one of 16. It decides how
/// candidates are found, and nothing else. It looks at each chain once at most, and takes no memory.
pub(crate) fn are_few_behind(graph: &Graph, row: &[u32]) -> bool
    requires { length row.now ≡ chain_count (prev_places (⟦<Graph as Past>⟧.updates graph.now)) }
{
    let mut left = graph.count() / ONE_OF;
    for chain in 0..graph.chain_count() {
        let last = graph.spot(graph.tip(chain)).place;
        let counted = row[chain as usize];
        if counted > last {
            continue;
        }
        if last - counted >= left {
            return false;
        }
        left -= last - counted + 1;
    }
    true
}

/// The items that a row doesn't count, chain by chain, each chain from its last item back. No other item is looked at.
pub(crate) fn behind(alloc: Global, graph: &Graph, row: &[u32]) -> Result<Vec<u32>, Memory>
    requires { length row.now ≡ chain_count (prev_places (⟦<Graph as Past>⟧.updates graph.now)) }
    ensures all { IfOk result (λ items. HoldsBehind (⟦<Graph as Past>⟧.updates graph.now) row.now items.items) }
    ensures inside { IfOk result (λ items. AllByRecursion (λ item. item < length (⟦<Graph as Past>⟧.updates graph.now)) items.items) }
{
    let mut found = Vec::new(alloc);
    for chain in 0..graph.chain_count() {
        push_tail(&mut found, graph, chain, row[chain as usize])?;
    }
    Ok(found)
}

/// Adds the items of a chain from this place on, the last first.
fn push_tail(found: &mut Vec<u32>, graph: &Graph, chain: u32, from: u32) -> Result<(), Memory>
    requires { chain < chain_count (prev_places (⟦<Graph as Past>⟧.updates graph.now)) }
    ensures { OnOk result (HasTail (⟦<Graph as Past>⟧.updates graph.now) chain from found.old.items found.new.items) }
{
    let mut item = graph.tip(chain);
    if graph.spot(item).place < from {
        return Ok(());
    }
    while graph.spot(item).place > from {
        found.push(item)?;
        // Past the first place of a chain each item's prev is the one before it.
        item = graph.prev(item).unwrap_or(item);
    }
    found.push(item)?;
    Ok(())
}
