//! The latest writes of a key.
ghost use Rattle.std.specs.Prelude.{◌≡◌, ◌++◌, false, IfOk, OnOk};
ghost use Rattle.depot_model.specs.journals.Journal.{held_as};
ghost use Rattle.depot_model.specs.texts.Texts.{id_of_update};
ghost use Rattle.depot_questions.specs.Answers.{latest_told, said_of, value_said, write_told};

use crate::question_answer::{LatestWrite, WriteSays};
use depot_base::{Bytes, Hash32, Key, Memory, NamedValue, Sequence, Update, Wrote};
use depot_model::Past;
use depot_queries::LocalNode;
use std::alloc::Global;

/// A value that a write names: it is held, or it isn't.
fn value_said<N: LocalNode>(alloc: Global, node: &N, name: NamedValue) -> Result<WriteSays, Memory>
    requires { N.stopped node.now ≡ false }
    ensures { IfOk result (λ says. says ≡ value_said name (held_as (N.records node.now) name)) }
{
    match node.held_as(&name) {
        Some(value) => Ok(WriteSays::Value(Bytes::from_slice(alloc, value)?)),
        None => Ok(WriteSays::NotHeld(name)),
    }
}

/// What a write says of its key.
fn said<N: LocalNode>(alloc: Global, node: &N, what: Wrote) -> Result<WriteSays, Memory>
    requires { N.stopped node.now ≡ false }
    ensures { IfOk result (λ says. says ≡ said_of (N.records node.now) what) }
{
    match what {
        Wrote::Gone => Ok(WriteSays::Deleted),
        Wrote::Put { hash, length } => value_said(alloc, node, NamedValue { hash, size: length }),
    }
}

/// Adds an update's write of a key, if it writes it.
fn add_write<N: LocalNode>(
    alloc: Global,
    node: &N,
    key: &Key,
    id: &Hash32,
    update: &Update,
    list: &mut Sequence<LatestWrite>,
) -> Result<(), Memory>
    requires runs { N.stopped node.now ≡ false }
    requires id { id.now ≡ id_of_update update.now }
    ensures { OnOk result (list.new ≡ list.old ++ write_told (N.records node.now) key.now update.now) }
{
    let Some(what) = update.wrote(key.bytes()) else {
        return Ok(());
    };
    let says = said(alloc, node, what)?;
    list.push(LatestWrite {
        id: *id,
        writer: update.writer,
        seq: update.seq,
        clock: update.clock,
        says,
    })
}

/// The latest writes of a key, in the order in which a read lists them.
pub(crate) fn latest_writes<N: LocalNode>(
    alloc: Global,
    node: &N,
    key: &Key,
) -> Result<Sequence<LatestWrite>, Memory>
    requires { N.stopped node.now ≡ false }
    ensures { IfOk result (λ list. list ≡ latest_told (N.records node.now) key.now) }
{
    let graph = node.graph();
    let mut list = Sequence::new(alloc);
    for item in graph.latest(key) {
        add_write(
            alloc,
            node,
            key,
            graph.id(*item),
            graph.update(*item),
            &mut list,
        )?;
    }
    Ok(list)
}
