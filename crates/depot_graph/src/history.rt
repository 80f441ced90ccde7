//! The history hash, as the article names it, and what the next own update names.
ghost use Rattle.std.specs.Prelude.{◌≡◌, ◌<◌, ◌↔◌, ℕ, List, Option, length, map, IfOk, IsTrue};
ghost use Rattle.std.specs.Option.{ForSome};
ghost use Rattle.std.specs.List.{AllByRecursion};
ghost use Rattle.depot_model.specs.updates.History.{by_id, history_hash as hash_of_history};
ghost use Rattle.depot_model.specs.lists.Items.{at};
ghost use Rattle.depot_model.specs.lists.Lists.{IsIn};
ghost use Rattle.depot_order.specs.Spots.{chain_count};
ghost use Rattle.depot_graph.specs.Closure.{closure_of};
ghost use Rattle.depot_graph.specs.Kept.{prev_places};
ghost use Rattle.depot_graph.specs.PastLeaves.{leaf_in, updates_at_places, AreNextEntries, IsUnseen};
ghost use Rattle.depot_graph.specs.UpdateRows.{IsJoinedRow};

use crate::covered::precedes;
use crate::graph::Graph;
use crate::leaf::{Leaf, Leaves, hash_of_rows, items_of};
use crate::past_chain::leaves_of_past;
use depot_base::{Hash32, Items, Memory, NodeId};
use depot_model::Past;
use std::alloc::Global;

/// The row of an item.
fn leaf_at(graph: &Graph, item: u32) -> Leaf
    requires { item < length (⟦<Graph as Past>⟧.updates graph.now) }
    ensures { at (⟦<Graph as Past>⟧.updates graph.now) item (λ t. result ≡ leaf_in (⟦<Graph as Past>⟧.updates graph.now) t) }
{
    let update = graph.update(item);
    Leaf {
        writer: update.writer,
        id: *graph.id(item),
        clock: update.clock,
        item,
    }
}

/// These items, each once, in rising order of (writer, id).
fn sorted(alloc: Global, graph: &Graph, items: &[u32]) -> Result<Leaves, Memory>
    requires { AllByRecursion (λ item. item < length (⟦<Graph as Past>⟧.updates graph.now)) items.now }
    ensures { IfOk result (λ leaves. leaves.keys ≡ map (leaf_in (⟦<Graph as Past>⟧.updates graph.now)) (by_id (updates_at_places (⟦<Graph as Past>⟧.updates graph.now) items.now))) }
{
    let mut leaves = Leaves::new(alloc);
    for item in items {
        leaves.insert(leaf_at(graph, *item))?;
    }
    Ok(leaves)
}

/// The history hash of these items and all that precedes one of them: SHA-256 of a row of 42 bytes for each leaf of
/// theirs, its writer, clock and id, in rising order of (writer, id).
pub fn history_hash(alloc: Global, graph: &Graph, parents: &[u32]) -> Result<Hash32, Memory>
    requires { AllByRecursion (λ item. item < length (⟦<Graph as Past>⟧.updates graph.now)) parents.now }
    ensures { IfOk result (λ hash. hash ≡ hash_of_history (closure_of parents.now (⟦<Graph as Past>⟧.updates graph.now))) }
{
    let row = graph.joined_row(parents)?;
    history_of_row(alloc, graph, row.as_slice())
}

/// The same, for the items with this joined row.
pub fn history_of_row(alloc: Global, graph: &Graph, row: &[u32]) -> Result<Hash32, Memory>
    requires { length row.now ≡ chain_count (prev_places (⟦<Graph as Past>⟧.updates graph.now)) }
    ensures { (items : List ℕ) → IsJoinedRow (⟦<Graph as Past>⟧.updates graph.now) items row.now → IfOk result (λ hash. hash ≡ hash_of_history (closure_of items (⟦<Graph as Past>⟧.updates graph.now))) }
{
    let items = leaves_of_past(alloc, graph, row)?;
    let leaves = sorted(alloc, graph, items.as_slice())?;
    Ok(hash_of_rows(&leaves))
}

/// The history hash of all items.
pub fn summary(alloc: Global, graph: &Graph) -> Result<Hash32, Memory>
    ensures { IfOk result (λ hash. hash ≡ hash_of_history (⟦<Graph as Past>⟧.updates graph.now)) }
{
    let leaves = sorted(alloc, graph, graph.leaves())?;
    Ok(hash_of_rows(&leaves))
}

/// What the next update of the node `me` names as its entries, where `prev` is the item of its last update: the leaves
/// of other writers that don't precede that item, in rising order of (writer, id).
pub fn changed_leaves(
    alloc: Global,
    graph: &Graph,
    me: NodeId,
    prev: Option<u32>,
) -> Result<Items, Memory>
    requires { ForSome prev (λ item. item < length (⟦<Graph as Past>⟧.updates graph.now)) }
    ensures entries { IfOk result (λ items. AreNextEntries me (⟦<Graph as Past>⟧.updates graph.now) prev items) }
    ensures items { IfOk result (λ items. AllByRecursion (λ item. item < length (⟦<Graph as Past>⟧.updates graph.now)) items) }
{
    let unseen = unseen_of(alloc, graph, graph.leaves(), me, prev)?;
    let leaves = sorted(alloc, graph, unseen.as_slice())?;
    items_of(alloc, &leaves)
}

/// The items of other writers that don't precede the node's last one.
fn unseen_of(
    alloc: Global,
    graph: &Graph,
    items: &[u32],
    me: NodeId,
    last: Option<u32>,
) -> Result<Vec<u32>, Memory>
    requires items { AllByRecursion (λ item. item < length (⟦<Graph as Past>⟧.updates graph.now)) items.now }
    requires last { ForSome last (λ item. item < length (⟦<Graph as Past>⟧.updates graph.now)) }
    ensures unseen { IfOk result (λ unseen. (n : ℕ) → (IsIn n unseen.items ↔ (IsIn n items.now × IsUnseen (⟦<Graph as Past>⟧.updates graph.now) me last n))) }
    ensures inside { IfOk result (λ unseen. AllByRecursion (λ item. item < length (⟦<Graph as Past>⟧.updates graph.now)) unseen.items) }
{
    let mut unseen = Vec::new(alloc);
    for item in items {
        if is_unseen(graph, *item, me, last) {
            unseen.push(*item)?;
        }
    }
    Ok(unseen)
}

/// Whether an item is of another writer than this node, and doesn't precede its last one.
fn is_unseen(graph: &Graph, item: u32, me: NodeId, last: Option<u32>) -> bool
    requires item { item < length (⟦<Graph as Past>⟧.updates graph.now) }
    requires last { ForSome last (λ item. item < length (⟦<Graph as Past>⟧.updates graph.now)) }
    ensures { IsTrue result ↔ IsUnseen (⟦<Graph as Past>⟧.updates graph.now) me last item }
{
    if graph.update(item).writer == me {
        return false;
    }
    match last {
        None => true,
        Some(last) => !precedes(graph, item, last),
    }
}
