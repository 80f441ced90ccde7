//! The leaves of a past, by the chains of the forest by prev.
ghost use Rattle.std.specs.Prelude.{◌≡◌, ◌<◌, ℕ, List, length, IfOk, IfSome, IfNone};
ghost use Rattle.std.specs.List.{AllByRecursion};
ghost use Rattle.depot_order.specs.Spots.{chain_count};
ghost use Rattle.depot_graph.specs.Kept.{prev_places};
ghost use Rattle.depot_graph.specs.UpdateRows.{IsJoinedRow};
ghost use Rattle.depot_graph.specs.PastChains.{AreLast, IsLastCounted};

use crate::covered::has_covered_child;
use crate::graph::Graph;
use depot_base::Memory;
use depot_model::Past;
use std::alloc::Global;

/// The last item of a chain before this place, if there is one.
fn last_before(graph: &Graph, chain: u32, place: u32) -> Option<u32>
    requires { chain < chain_count (prev_places (⟦<Graph as Past>⟧.updates graph.now)) }
    ensures some { IfSome result (IsLastCounted (⟦<Graph as Past>⟧.updates graph.now) chain place) }
    ensures none { IfNone result (place ≡ 0) }
{
    if place == 0 {
        return None;
    }
    let mut item = graph.tip(chain);
    while graph.spot(item).place >= place {
        item = graph.prev(item)?;
    }
    Some(item)
}

/// The leaves of some items with all that precede them, by the joined row of these items: at most one of each chain,
/// the last item that the row counts.
pub fn leaves_of_past(alloc: Global, graph: &Graph, row: &[u32]) -> Result<Vec<u32>, Memory>
    requires { length row.now ≡ chain_count (prev_places (⟦<Graph as Past>⟧.updates graph.now)) }
    ensures leaves { (items : List ℕ) → IsJoinedRow (⟦<Graph as Past>⟧.updates graph.now) items row.now → IfOk result (λ found. AreLast (⟦<Graph as Past>⟧.updates graph.now) items found.items) }
    ensures inside { IfOk result (λ found. AllByRecursion (λ item. item < length (⟦<Graph as Past>⟧.updates graph.now)) found.items) }
{
    let mut found = Vec::new(alloc);
    for chain in 0..graph.chain_count() {
        let Some(item) = last_before(graph, chain, row[chain as usize]) else {
            continue;
        };
        if !has_covered_child(graph, row, item) {
            found.push(item)?;
        }
    }
    Ok(found)
}
