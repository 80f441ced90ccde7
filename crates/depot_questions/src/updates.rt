//! Accepted updates.
ghost use Rattle.std.specs.Prelude.{◌≡◌, map, IfOk};
ghost use Rattle.depot_model.specs.journals.Journal.{has_id};
ghost use Rattle.depot_model.specs.texts.Texts.{id_of_update};
ghost use Rattle.depot_questions.specs.Answers.{update_keys, update_page, update_told};

use crate::limits::MOST_UPDATES_TOLD;
use crate::question_answer::{UpdateFacts, UpdateKeys, UpdatePage};
use depot_base::{Bytes, Hash32, Memory, Sequence, Texts, Update, Write};
use depot_graph::Graph;
use depot_model::Past;
use std::alloc::Global;

/// The update with an id.
pub(crate) fn update_facts(graph: &Graph, id: &Hash32) -> Result<Option<UpdateFacts>, Memory>
    ensures { IfOk result (λ facts. facts ≡ update_told (⟦<Graph as Past>⟧.updates graph.now) id.now) }
{
    let Some(item) = graph.find(id) else {
        return Ok(None);
    };
    let update = graph.update(item);
    Ok(Some(UpdateFacts {
        item,
        writer: update.writer,
        seq: update.seq,
        clock: update.clock,
        writes: update.writes.copy()?,
    }))
}

/// Whether an update has an id.
fn is_accepted(graph: &Graph, id: &Hash32) -> bool
    ensures { result ≡ has_id (⟦<Graph as Past>⟧.updates graph.now) id.now }
{
    graph.find(id).is_some()
}

/// Of each id whether an update has it.
pub(crate) fn accepted_among(
    alloc: Global,
    graph: &Graph,
    ids: &[Hash32],
) -> Result<Sequence<bool>, Memory>
    ensures { IfOk result (λ flags. flags ≡ map (has_id (⟦<Graph as Past>⟧.updates graph.now)) ids.now) }
{
    let mut flags = Sequence::new(alloc);
    for id in ids {
        flags.push(is_accepted(graph, id))?;
    }
    Ok(flags)
}

/// The keys of writes, in their order.
fn keys_of(alloc: Global, writes: &[Write]) -> Result<Texts, Memory>
    ensures { IfOk result (λ keys. keys ≡ map (λ w. w.key) writes.now) }
{
    let mut keys = Texts::new(alloc);
    for write in writes {
        keys.push(Bytes::from_slice(alloc, write.key.bytes())?)?;
    }
    Ok(keys)
}

/// An update, and which keys it writes.
fn update_keys(alloc: Global, id: &Hash32, update: &Update) -> Result<UpdateKeys, Memory>
    requires { id.now ≡ id_of_update update.now }
    ensures { IfOk result (λ keys. keys ≡ update_keys update.now) }
{
    Ok(UpdateKeys {
        id: *id,
        writer: update.writer,
        seq: update.seq,
        clock: update.clock,
        keys: keys_of(alloc, update.writes.as_slice())?,
    })
}

/// The updates from a number on, at most `MOST_UPDATES_TOLD`.
pub(crate) fn updates_from(alloc: Global, graph: &Graph, from: u32) -> Result<UpdatePage, Memory>
    ensures { IfOk result (λ page. page ≡ update_page (⟦<Graph as Past>⟧.updates graph.now) from) }
{
    let count = graph.count();
    let end = from.saturating_add(MOST_UPDATES_TOLD).min(count);
    let mut updates = Sequence::new(alloc);
    for item in from..end {
        updates.push(update_keys(alloc, graph.id(item), graph.update(item))?)?;
    }
    Ok(UpdatePage {
        updates,
        more: end < count,
    })
}
