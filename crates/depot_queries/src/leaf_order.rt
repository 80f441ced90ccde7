//! The leaves of what a node accepted.
ghost use Rattle.std.specs.Prelude.{◌≡◌, ◌<◌, length, map, IfOk};
ghost use Rattle.depot_model.specs.exchange.Hello.{leaves_named};
ghost use Rattle.depot_model.specs.updates.History.{by_id, leaves_of};
ghost use Rattle.depot_model.specs.lists.Items.{at};
ghost use Rattle.depot_model.specs.texts.Texts.{id_of_update};
ghost use Rattle.depot_model.specs.journals.Journal.{accepted};
ghost use Rattle.depot_queries.specs.ItemPlaces.{leaf_with_place, name_of};

use depot_base::{Hash32, Memory, NodeId};
use depot_graph::Graph;
use depot_model::{HelloLeaf, HelloLeaves, Past, Scheme};
use depot_readings::Readings;
use std::alloc::Global;
use std::collections::BTreeSet;

/// A leaf, and the place of the record that accepted it. Leaves are in order by writer and then by id, which no two share.
#[derive(Clone, Copy, Debug, PartialEq, Eq, PartialOrd, Ord)]
struct OrderedLeaf {
    writer: NodeId,
    id: Hash32,
    place: u32,
}

/// The leaves, in rising order of (writer, id), as a hello names them.
pub fn leaves<S: Scheme>(alloc: Global, readings: &Readings<S>) -> Result<HelloLeaves, Memory>
    ensures { IfOk result (λ leaves. leaves ≡ leaves_named readings.now.records) }
{
    let leaves = leaves_in_order(alloc, readings)?;
    names_of(alloc, &leaves)
}

/// The leaves in their order. No other item is looked at.
fn leaves_in_order<S: Scheme>(
    alloc: Global,
    readings: &Readings<S>,
) -> Result<BTreeSet<OrderedLeaf>, Memory>
    ensures { IfOk result (λ leaves. leaves.keys ≡ map (leaf_with_place readings.now.records) (by_id (leaves_of (accepted readings.now.records)))) }
{
    let graph = readings.state().graph();
    let places = readings.places();
    let items = graph.leaves();
    let mut leaves = BTreeSet::new(alloc);
    for item in items {
        leaves.insert(leaf_at(graph, *item, places[*item as usize]))?;
    }
    Ok(leaves)
}

/// Their names.
fn names_of(alloc: Global, leaves: &BTreeSet<OrderedLeaf>) -> Result<HelloLeaves, Memory>
    ensures { IfOk result (λ names. names ≡ map name_of leaves.now.keys) }
{
    let names: Vec<HelloLeaf> = leaves
        .iter()
        .map(|leaf| HelloLeaf {
            writer: leaf.writer,
            id: leaf.id,
        })
        .collect(alloc)?;
    Ok(HelloLeaves::from_vec(names))
}

/// The leaf of an item whose record is at this place.
fn leaf_at(graph: &Graph, item: u32, place: u32) -> OrderedLeaf
    requires { item < length (⟦<Graph as Past>⟧.updates graph.now) }
    ensures { at (⟦<Graph as Past>⟧.updates graph.now) item (λ t. result ≡ record { writer = t.writer; id = id_of_update t; place = place }) }
{
    OrderedLeaf {
        writer: graph.update(item).writer,
        id: *graph.id(item),
        place,
    }
}
