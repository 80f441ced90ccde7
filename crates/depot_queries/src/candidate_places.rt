//! The updates that a reader seems to lack, by its leaves: the candidates for a bundle.
ghost use Rattle.std.specs.Prelude.{◌≡◌, ◌<◌, length, IfOk};
ghost use Rattle.std.specs.List.{AllByRecursion};
ghost use Rattle.std.specs.List.Sorted.{IsNonDecreasing};
ghost use Rattle.depot_model.specs.lists.Items.{places_of};
ghost use Rattle.depot_model.specs.exchange.Bundle.{candidate_places};
ghost use Rattle.depot_order.specs.Spots.{chain_count};
ghost use Rattle.depot_graph.specs.Kept.{prev_places};
ghost use Rattle.depot_queries.specs.Tails.{ArePlacesLacked, HoldsBehind, IsLackedAt};

use crate::tails::{are_few_behind, behind};
use depot_base::{Hash32, Ids, Items, Memory, NodeId};
use depot_graph::Graph;
use depot_model::{Past, Scheme};
use depot_readings::Readings;
use std::alloc::Global;

/// The places of the records whose updates a reader with these leaves lacks, rising: those of other writers that
/// neither are one of the leaves nor precede one. The rows of the leaves are joined once. Where few items are past that
/// row, only these are looked at; else all are.
pub fn candidates<S: Scheme>(
    alloc: Global,
    readings: &Readings<S>,
    leaves: &Ids,
    reader: NodeId,
) -> Result<Items, Memory>
    ensures { IfOk result (λ places. places ≡ candidate_places readings.now.records leaves.now reader) }
{
    let graph = readings.state().graph();
    let covering = items_named(alloc, graph, leaves.as_slice())?;
    let row = graph.joined_row(covering.as_slice())?;
    lacked(alloc, graph, readings.places(), row.as_slice(), reader)
}

/// The items with these ids. An id that no update has is left out.
pub fn items_named(alloc: Global, graph: &Graph, ids: &[Hash32]) -> Result<Vec<u32>, Memory>
    ensures items { IfOk result (λ items. items.items ≡ places_of (⟦<Graph as Past>⟧.updates graph.now) ids.now) }
    ensures inside { IfOk result (λ items. AllByRecursion (λ item. item < length (⟦<Graph as Past>⟧.updates graph.now)) items.items) }
{
    let mut items = Vec::new(alloc);
    for id in ids {
        let Some(item) = graph.find(id) else {
            continue;
        };
        items.push(item)?;
    }
    Ok(items)
}

/// The record places of the items that a reader lacks, where this row counts what it has.
fn lacked(
    alloc: Global,
    graph: &Graph,
    places: &[u32],
    row: &[u32],
    reader: NodeId,
) -> Result<Items, Memory>
    requires beside { length places.now ≡ length (⟦<Graph as Past>⟧.updates graph.now) }
    requires row { length row.now ≡ chain_count (prev_places (⟦<Graph as Past>⟧.updates graph.now)) }
    ensures { IfOk result (ArePlacesLacked (⟦<Graph as Past>⟧.updates graph.now) row.now places.now reader) }
{
    if !are_few_behind(graph, row) {
        return lacked_of_all(alloc, graph, places, row, reader);
    }
    let mut items = behind(alloc, graph, row)?;
    items.sort_unstable();
    lacked_among(alloc, graph, places, items.as_slice(), row, reader)
}

/// The same, by looking at all items.
fn lacked_of_all(
    alloc: Global,
    graph: &Graph,
    places: &[u32],
    row: &[u32],
    reader: NodeId,
) -> Result<Items, Memory>
    requires beside { length places.now ≡ length (⟦<Graph as Past>⟧.updates graph.now) }
    requires row { length row.now ≡ chain_count (prev_places (⟦<Graph as Past>⟧.updates graph.now)) }
    ensures { IfOk result (ArePlacesLacked (⟦<Graph as Past>⟧.updates graph.now) row.now places.now reader) }
{
    let mut found = Items::new(alloc);
    for item in 0..graph.count() {
        if is_lacked(graph, row, reader, item) {
            found.push(places[item as usize])?;
        }
    }
    Ok(found)
}

/// The same, by looking at these items alone: they are in order, and all that the row doesn't count are among them.
/// Repeated ones are skipped.
fn lacked_among(
    alloc: Global,
    graph: &Graph,
    places: &[u32],
    items: &[u32],
    row: &[u32],
    reader: NodeId,
) -> Result<Items, Memory>
    requires beside { length places.now ≡ length (⟦<Graph as Past>⟧.updates graph.now) }
    requires row { length row.now ≡ chain_count (prev_places (⟦<Graph as Past>⟧.updates graph.now)) }
    requires sorted { IsNonDecreasing items.now }
    requires inside { AllByRecursion (λ item. item < length (⟦<Graph as Past>⟧.updates graph.now)) items.now }
    requires behind { HoldsBehind (⟦<Graph as Past>⟧.updates graph.now) row.now items.now }
    ensures { IfOk result (ArePlacesLacked (⟦<Graph as Past>⟧.updates graph.now) row.now places.now reader) }
{
    let mut found = Items::new(alloc);
    let mut next = 0;
    for item in items {
        let at = *item as usize;
        if at < next {
            continue;
        }
        if is_lacked(graph, row, reader, *item) {
            found.push(places[at])?;
        }
        next = at + 1;
    }
    Ok(found)
}

/// Whether an item is of another writer than the reader, and this row, which counts what the reader has, doesn't count
/// it.
fn is_lacked(graph: &Graph, row: &[u32], reader: NodeId, item: u32) -> bool
    requires item { item < length (⟦<Graph as Past>⟧.updates graph.now) }
    requires row { length row.now ≡ chain_count (prev_places (⟦<Graph as Past>⟧.updates graph.now)) }
    ensures { IsLackedAt (⟦<Graph as Past>⟧.updates graph.now) row.now reader item result }
{
    let spot = graph.spot(item);
    if spot.place < row[spot.chain as usize] {
        return false;
    }
    graph.update(item).writer != reader
}
