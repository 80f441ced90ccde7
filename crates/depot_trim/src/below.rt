//! What is below a checkpoint.
ghost use Rattle.std.specs.Prelude.{◌≡◌, ◌<◌, List, [], ◌∷◌, ◌++◌, length, map, filter, IfOk, OnOk, Some, slice_get};
ghost use Rattle.depot_base.specs.declared.record.Record.{Record};
ghost use Rattle.depot_base.specs.declared.update.Update.{Update};
ghost use Rattle.depot_model.specs.exchange.Bundle.{is_covered};
ghost use Rattle.depot_model.specs.checks.Checks.{Setting};
ghost use Rattle.depot_model.specs.journals.Journal.{accepted};
ghost use Rattle.depot_model.specs.journals.Lawful.{IsLawful};
ghost use Rattle.depot_model.specs.updates.Order.{IsCausal};
ghost use Rattle.depot_model.specs.texts.Texts.{IsUpdate, id_of_update};
ghost use Rattle.depot_trim.specs.Trimmings.{IsAnswerAt, ids_in, is_given_up_below, is_latest_of};

use crate::leaf_items::leaf_items;
use depot_base::{Hash32, Memory, Update, Write};
use depot_graph::Graph;
use depot_model::{HelloLeaf, Past};
use std::alloc::Global;

/// Returns the updates that are, or precede, one of these leaves, in the order of the journal. The parents of an update
/// below are below too, so each fits after those before it.
pub(crate) fn graph_below(
    alloc: Global,
    graph: &Graph,
    leaves: &[HelloLeaf],
) -> Result<Graph, Memory>
    requires { (here : Setting) × ((J : List Record) × (IsLawful here J × (accepted J ≡ ⟦<Graph as Past>⟧.updates graph.now))) }
    ensures { IfOk result (λ below. ⟦<Graph as Past>⟧.updates below ≡ filter (is_covered (⟦<Graph as Past>⟧.updates graph.now) (ids_in leaves.now)) (⟦<Graph as Past>⟧.updates graph.now)) }
{
    let items = leaf_items(alloc, graph, leaves)?;
    let row = graph.joined_row(items.as_slice())?;
    let mut below = Graph::new(alloc);
    for item in 0..graph.count() {
        if graph.within(item, row.as_slice()) {
            add_item(&mut below, graph, item)?;
        }
    }
    Ok(below)
}

/// Adds the update of a graph's item to another graph, if it fits.
fn add_item(below: &mut Graph, graph: &Graph, item: u32) -> Result<(), Memory>
    requires item { item < length (⟦<Graph as Past>⟧.updates graph.now) }
    requires text { (u : Update) → slice_get (⟦<Graph as Past>⟧.updates graph.now) item ≡ Some u → IsUpdate u }
    requires fits { (u : Update) → slice_get (⟦<Graph as Past>⟧.updates graph.now) item ≡ Some u → IsCausal [] (⟦<Graph as Past>⟧.updates below.old ++ u ∷ []) }
    requires room { length (⟦<Graph as Past>⟧.updates below.old) < 4294967295 }
    ensures { OnOk result ((u : Update) → slice_get (⟦<Graph as Past>⟧.updates graph.now) item ≡ Some u → ⟦<Graph as Past>⟧.updates below.new ≡ ⟦<Graph as Past>⟧.updates below.old ++ u ∷ []) }
{
    let update = graph.update(item).copy()?;
    below.add_uncounted(update, &[], *graph.id(item))?;
    Ok(())
}

/// For each item of a graph, whether it is trimmed: it is below, and a latest write of none of its keys there.
pub(crate) fn trimmed_items(
    alloc: Global,
    graph: &Graph,
    below: &Graph,
) -> Result<Vec<bool>, Memory>
    ensures { IfOk result (λ trimmed. trimmed.items ≡ map (is_given_up_below (⟦<Graph as Past>⟧.updates below.now)) (⟦<Graph as Past>⟧.updates graph.now)) }
{
    let mut trimmed = Vec::new(alloc);
    for item in 0..graph.count() {
        trimmed.push(is_given_up(below, graph.id(item), graph.update(item)))?;
    }
    Ok(trimmed)
}

/// Whether an update with this id is below, and a latest write of none of its keys there.
fn is_given_up(below: &Graph, id: &Hash32, update: &Update) -> bool
    requires { id.now ≡ id_of_update update.now }
    ensures { result ≡ is_given_up_below (⟦<Graph as Past>⟧.updates below.now) update.now }
{
    match below.find(id) {
        Some(item) => !is_latest(below, item, update.writes.as_slice()),
        None => false,
    }
}

/// Whether an item is a latest write of one of these writes' keys.
fn is_latest(graph: &Graph, item: u32, writes: &[Write]) -> bool
    requires { item < length (⟦<Graph as Past>⟧.updates graph.now) }
    ensures { IsAnswerAt (⟦<Graph as Past>⟧.updates graph.now) item (is_latest_of (⟦<Graph as Past>⟧.updates graph.now) (map (λ w. w.key) writes.now)) result }
{
    for write in writes {
        if graph.latest(&write.key).contains(&item) {
            return true;
        }
    }
    false
}
