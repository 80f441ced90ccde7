//! Which nodes of the roster signed a checkpoint.
ghost use Rattle.std.specs.Prelude.{◌≡◌, ◌<◌, ◌↔◌, length, not, IfOk, IsTrue};
ghost use Rattle.sha2.specs.Sha256.{sha256};
ghost use Rattle.depot_model.specs.readers.Checkpoints.{checkpoint_key};
ghost use Rattle.depot_model.specs.lists.Items.{PrecedesAt};
ghost use Rattle.depot_model.specs.journals.Journal.{has_id};
ghost use Rattle.depot_model.specs.updates.Order.{past};
ghost use Rattle.depot_model.specs.worlds.ReadTests.{is_value_of};
ghost use Rattle.depot_trim.specs.Trimmings.{IsAnswerAt, first_unsigned, has_all_in_past, has_signed, ids_in, signs_as};

use crate::keys::checkpoint_key;
use depot_base::{Hash32, Key, Memory, NodeId, RosterEntry, Steps, Update};
use depot_graph::Graph;
use depot_model::{HelloLeaf, Past, hash_of};
use std::alloc::Global;
use std::marker::Brand;
use std::sync::ledger::{Blank, Ledger};

/// The first of these nodes that didn't sign the checkpoint of a text with these leaves.
pub(crate) fn first_unsigned(
    alloc: Global,
    graph: &Graph,
    nodes: &[RosterEntry],
    text: &[u8],
    leaves: &[HelloLeaf],
) -> Result<Option<NodeId>, Memory>
    ensures { IfOk result (λ node. node ≡ first_unsigned (⟦<Graph as Past>⟧.updates graph.now) text.now (ids_in leaves.now) nodes.now) }
{
    let sought = Signature {
        key: checkpoint_key(alloc, text)?,
        hash: hash_of(text),
        text,
        leaves,
    };
    match nodes
        .iter()
        .find(|entry| is_unsigned(graph, *entry, &sought))
    {
        Some(entry) => Ok(Some(entry.node)),
        None => Ok(None),
    }
}

/// What a node's signature of a checkpoint is: an update that puts a text of this hash under this key and has the
/// leaves in its past.
#[derive(Drop)]
pub struct Signature<'a> {
    pub(crate) key: Key,
    pub(crate) hash: Hash32,
    pub(crate) text: &'a [u8],
    pub(crate) leaves: &'a [HelloLeaf],
    ghost keyed: { key ≡ checkpoint_key text.now },
    ghost hashed: { hash ≡ sha256 text.now },
}

/// Whether no update of a node is its signature.
fn is_unsigned(graph: &Graph, entry: &RosterEntry, sought: &Signature<'_>) -> bool
    ensures { result ≡ not (has_signed (⟦<Graph as Past>⟧.updates graph.now) sought.now.text.now (ids_in sought.now.leaves.now) entry.now.node) }
{
    for item in 0..graph.count() {
        if signs(graph, item, entry.node, sought) {
            return false;
        }
    }
    true
}

/// Whether the update of an item is a node's signature.
fn signs(graph: &Graph, item: u32, node: NodeId, sought: &Signature<'_>) -> bool
    requires { item < length (⟦<Graph as Past>⟧.updates graph.now) }
    ensures { IsAnswerAt (⟦<Graph as Past>⟧.updates graph.now) item (signs_as (⟦<Graph as Past>⟧.updates graph.now) sought.now.text.now (ids_in sought.now.leaves.now) node) result }
{
    let update = graph.update(item);
    if update.writer != node || !puts(update, sought) {
        return false;
    }
    follows_all(graph, item, sought.leaves)
}

/// Whether an update puts the text under the key.
fn puts(update: &Update, sought: &Signature<'_>) -> bool
    ensures { result ≡ is_value_of (checkpoint_key sought.now.text.now) update.now sought.now.text.now }
{
    let Some(wrote) = update.wrote(sought.key.bytes()) else {
        return false;
    };
    let Some(name) = wrote.named() else {
        return false;
    };
    name.hash == sought.hash && name.size as usize == sought.text.len()
}

/// Whether all these leaves are in the past of an item.
fn follows_all(graph: &Graph, item: u32, leaves: &[HelloLeaf]) -> bool
    requires { item < length (⟦<Graph as Past>⟧.updates graph.now) }
    ensures { IsAnswerAt (⟦<Graph as Past>⟧.updates graph.now) item (has_all_in_past (⟦<Graph as Past>⟧.updates graph.now) (ids_in leaves.now)) result }
{
    for leaf in leaves {
        if !follows(graph, item, &leaf.id) {
            return false;
        }
    }
    true
}

/// Whether an id is that of an update in the past of an item.
fn follows(graph: &Graph, item: u32, id: &Hash32) -> bool
    requires { item < length (⟦<Graph as Past>⟧.updates graph.now) }
    ensures { IsAnswerAt (⟦<Graph as Past>⟧.updates graph.now) item (λ u. has_id (past u (⟦<Graph as Past>⟧.updates graph.now)) id.now) result }
{
    match graph.find(id) {
        Some(other) => precedes::<Brand>(graph, other, item, Blank::new(1)),
        None => false,
    }
}

/// Whether the item `a` precedes the item `b`. The step is counted in a fresh ledger that nobody reads.
fn precedes<L: Ledger>(graph: &Graph, a: u32, b: u32, blank: Blank) -> bool
    requires name { blank.name ≡ L.name }
    requires parts { blank.parts ≡ L.parts }
    requires some { 0 < blank.parts }
    requires a { a < length (⟦<Graph as Past>⟧.updates graph.now) }
    requires b { b < length (⟦<Graph as Past>⟧.updates graph.now) }
    ensures { IsTrue result ↔ PrecedesAt (⟦<Graph as Past>⟧.updates graph.now) a b }
{
    let mut steps = Steps::<L>::new(blank);
    graph.before(a, b, &mut steps)
}
