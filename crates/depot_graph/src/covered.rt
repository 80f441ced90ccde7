//! Whether an item is one of some others, or precedes one.
ghost use Rattle.std.specs.Prelude.{◌≡◌, ◌<◌, ◌↔◌, ℕ, List, length, IsTrue};
ghost use Rattle.depot_model.specs.lists.Items.{PrecedesAt};
ghost use Rattle.depot_order.specs.Spots.{chain_count};
ghost use Rattle.depot_graph.specs.Kept.{prev_places};
ghost use Rattle.depot_graph.specs.UpdateRows.{IsJoinedRow};
ghost use Rattle.depot_graph.specs.PastChains.{HasCoveredChild, IsCovered};

use crate::graph::Graph;
use depot_base::Steps;
use depot_model::Past;
use std::marker::Brand;
use std::sync::ledger::{Blank, Ledger};

/// Whether the item `a` precedes the item `b`. Nobody counts the step.
pub fn precedes(graph: &Graph, a: u32, b: u32) -> bool
    requires a { a < length (⟦<Graph as Past>⟧.updates graph.now) }
    requires b { b < length (⟦<Graph as Past>⟧.updates graph.now) }
    ensures { IsTrue result ↔ PrecedesAt (⟦<Graph as Past>⟧.updates graph.now) a b }
{
    precedes_with::<Brand>(graph, a, b, Blank::new(1))
}

/// The same, with the step in a ledger that is still blank.
fn precedes_with<L: Ledger>(graph: &Graph, a: u32, b: u32, blank: Blank) -> bool
    requires name { blank.name ≡ L.name }
    requires parts { blank.parts ≡ L.parts }
    requires some { 0 < blank.parts }
    requires a { a < length (⟦<Graph as Past>⟧.updates graph.now) }
    requires b { b < length (⟦<Graph as Past>⟧.updates graph.now) }
    ensures { IsTrue result ↔ PrecedesAt (⟦<Graph as Past>⟧.updates graph.now) a b }
{
    let mut steps = Steps::<L>::new(blank);
    graph.before(a, b, &mut steps)
}

/// Whether a row that joins those of some items counts this one: whether it is one of them, or precedes one.
pub fn is_covered(graph: &Graph, row: &[u32], item: u32) -> bool
    requires item { item < length (⟦<Graph as Past>⟧.updates graph.now) }
    requires row { length row.now ≡ chain_count (prev_places (⟦<Graph as Past>⟧.updates graph.now)) }
    ensures { (items : List ℕ) → IsJoinedRow (⟦<Graph as Past>⟧.updates graph.now) items row.now → (IsTrue result ↔ IsCovered (⟦<Graph as Past>⟧.updates graph.now) items item) }
{
    let spot = graph.spot(item);
    spot.place < row[spot.chain as usize]
}

/// Whether such a row counts one of the items whose prev is this one.
pub fn has_covered_child(graph: &Graph, row: &[u32], item: u32) -> bool
    requires item { item < length (⟦<Graph as Past>⟧.updates graph.now) }
    requires row { length row.now ≡ chain_count (prev_places (⟦<Graph as Past>⟧.updates graph.now)) }
    ensures { (items : List ℕ) → IsJoinedRow (⟦<Graph as Past>⟧.updates graph.now) items row.now → (IsTrue result ↔ HasCoveredChild (⟦<Graph as Past>⟧.updates graph.now) items item) }
{
    for child in graph.children(item) {
        if is_covered(graph, row, *child) {
            return true;
        }
    }
    false
}
