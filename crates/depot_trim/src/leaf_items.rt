//! The leaves of a checkpoint, by their items.
ghost use Rattle.std.specs.Prelude.{◌≡◌, ◌<◌, length, IfOk};
ghost use Rattle.std.specs.List.{AllByRecursion};
ghost use Rattle.depot_model.specs.lists.Items.{places_of};
ghost use Rattle.depot_trim.specs.Trimmings.{ids_in};

use depot_base::Memory;
use depot_graph::Graph;
use depot_model::{HelloLeaf, Past};
use std::alloc::Global;

/// The items of leaves. One that no update has is left out.
pub(crate) fn leaf_items(
    alloc: Global,
    graph: &Graph,
    leaves: &[HelloLeaf],
) -> Result<Vec<u32>, Memory>
    ensures items { IfOk result (λ items. items.items ≡ places_of (⟦<Graph as Past>⟧.updates graph.now) (ids_in leaves.now)) }
    ensures inside { IfOk result (λ items. AllByRecursion (λ item. item < length (⟦<Graph as Past>⟧.updates graph.now)) items.items) }
{
    let mut items = Vec::new(alloc);
    for leaf in leaves {
        let Some(item) = graph.find(&leaf.id) else {
            continue;
        };
        items.push(item)?;
    }
    Ok(items)
}
