//! The marks of what is trimmed.
ghost use Rattle.std.specs.Prelude.{◌≡◌, ◌<◌, Bool, map, filter, length, IfOk, Some, slice_get};
ghost use Rattle.depot_base.specs.declared.update.Update.{Update};
ghost use Rattle.depot_trim.specs.ReaderView.{mark_of};

use crate::flags::flag_at;
use crate::marks::UpdateMark;
use depot_base::Memory;
use depot_graph::Graph;
use depot_model::Past;
use std::alloc::Global;

/// The marks of a graph's trimmed items, in their order: one flag for each item says whether it is trimmed.
pub(crate) fn marks_of(
    alloc: Global,
    graph: &Graph,
    trimmed: &[bool],
) -> Result<Vec<UpdateMark>, Memory>
    requires { length trimmed.now ≡ length (⟦<Graph as Past>⟧.updates graph.now) }
    ensures { IfOk result (λ marks. (test : Update → Bool) → trimmed.now ≡ map test (⟦<Graph as Past>⟧.updates graph.now) → marks.items ≡ map mark_of (filter test (⟦<Graph as Past>⟧.updates graph.now))) }
{
    let mut marks = Vec::new(alloc);
    for item in 0..graph.count() {
        if flag_at(trimmed, item) {
            marks.push(mark(graph, item))?;
        }
    }
    Ok(marks)
}

/// The mark of an item.
fn mark(graph: &Graph, item: u32) -> UpdateMark
    requires { item < length (⟦<Graph as Past>⟧.updates graph.now) }
    ensures { (u : Update) → slice_get (⟦<Graph as Past>⟧.updates graph.now) item ≡ Some u → result ≡ mark_of u }
{
    let update = graph.update(item);
    UpdateMark {
        writer: update.writer,
        seq: update.seq,
        prev: update.prev,
        id: *graph.id(item),
    }
}
