//! How many leaves of other writers there are once a growth is taken.
ghost use Rattle.std.specs.Prelude.{◌≡◌, ◌≤◌};
ghost use Rattle.depot_base.specs.declared.limits.TheConstants.{MOST_RECORDS};
ghost use Rattle.depot_laws.specs.Leaves.{follows_leaf};
ghost use Rattle.depot_readings.specs.LeavesWith.{leaves_then, leaves_with};

use crate::growth::Growth;
use crate::news::News;
use depot_base::{Statement, Update};
use depot_graph::Graph;
use depot_model::Past;

/// How many leaves of other writers there are with a growth added to the updates of a graph, where it takes an update
/// of another: as many as before, and one more unless the update follows a leaf. None where it takes none. The growth's
/// items are hints for the update's parents. It takes no memory.
#[tactic(auto, using(crate::proofs::VoucherRecords::no_leaves))]
pub fn leaves_with(graph: &Graph, leaves: u32, growth: &Growth) -> Option<u32>
    requires { leaves ≤ MOST_RECORDS }
    ensures { result ≡ leaves_with (⟦<Graph as Past>⟧.updates graph.now) leaves growth.now }
{
    match &growth.news {
        News::Foreign {
            signed,
            parents,
            ..
        } => leaves_then(graph, leaves, &signed.statement, parents),
        News::Convicting {
            signed,
            parents,
            ..
        } => leaves_then(graph, leaves, &signed.statement, parents),
        _ => None,
    }
}

/// The same for a statement.
fn leaves_then(graph: &Graph, leaves: u32, statement: &Statement, parents: &[u32]) -> Option<u32>
    requires { leaves ≤ MOST_RECORDS }
    ensures { result ≡ leaves_then (⟦<Graph as Past>⟧.updates graph.now) leaves statement.now }
{
    let Statement::Update(update) = statement else {
        return None;
    };
    if follows_leaf(graph, update, parents) {
        Some(leaves)
    } else {
        Some(leaves + 1)
    }
}

/// Whether the prev of an update, whose parents were found at these items, is a leaf.
fn follows_leaf(graph: &Graph, update: &Update, parents: &[u32]) -> bool
    ensures { result ≡ follows_leaf (⟦<Graph as Past>⟧.updates graph.now) update.now }
{
    if update.prev.is_zeros() {
        return false;
    }
    match graph.find_at(&update.prev, parents.first().copied()) {
        Some(item) => graph.children(item).is_empty(),
        None => false,
    }
}
