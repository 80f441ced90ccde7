//! A hello that names, beside the leaves, ids further back.
ghost use Rattle.std.specs.Prelude.{◌≡◌, ◌<◌, ◌++◌, [], ◌∷◌, false, length, map, take, OnOk, IfOk};
ghost use Rattle.std.specs.List.{AllByRecursion};
ghost use Rattle.depot_graph.specs.Kept.{prev_places};
ghost use Rattle.depot_model.specs.exchange.Hello.{hello_leaf_rises, named_leaf};
ghost use Rattle.depot_model.specs.lists.Items.{updates_at};
ghost use Rattle.depot_model.specs.journals.JournalCalls.{IsStable};
ghost use Rattle.depot_model.specs.journals.Replicas.{journal_of};
ghost use Rattle.depot_gossip.specs.FarHellos.{back, far_behind, far_hello, far_leaves, far_places, put_leaf, put_leaves};
ghost use Rattle.depot_gossip.specs.LeafPlaces.{is_new_at, leaf_place};
ghost use Rattle.depot_gossip.specs.SendCalls.{IsSendCall, Sends};

use crate::node_hello;
use crate::send_request::SendRequest;
use depot_base::Memory;
use depot_base::entry::Entry;
use depot_base::limits::MOST_LEAVES;
use depot_graph::Graph;
use depot_model::{Hello, HelloLeaf, HelloLeaves, Past};
use depot_queries::LocalNode;
use depot_requests::{Halt, Reply};
use depot_streams::encode_hello;
use std::alloc::Global;

/// How many ids further back a chain can have: the last is 131,071 back, as far as a journal's records go.
pub const MOST_FAR: u32 = 17;

/// The item so many prevs back from an item. `None` exactly when its chain is shorter.
fn back(graph: &Graph, item: u32, steps: u32) -> Option<u32>
    requires { item < length (⟦<Graph as Past>⟧.updates graph.now) }
    ensures { result ≡ back (prev_places (⟦<Graph as Past>⟧.updates graph.now)) steps item }
{
    let mut at = item;
    for _ in 0..steps {
        at = graph.prev(at)?;
    }
    Some(at)
}

/// Adds the items 1, 3, 7, 15 .. back from an item.
fn add_far(items: &mut Vec<u32>, graph: &Graph, item: u32) -> Result<(), Memory>
    requires { item < length (⟦<Graph as Past>⟧.updates graph.now) }
    ensures { OnOk result (items.new.items ≡ items.old.items ++ far_behind (prev_places (⟦<Graph as Past>⟧.updates graph.now)) MOST_FAR 1 item) }
{
    let mut at = item;
    let mut steps = 1;
    for _ in 0..MOST_FAR {
        let Some(far) = back(graph, at, steps) else {
            return Ok(());
        };
        items.push(far)?;
        at = far;
        steps += steps;
    }
    Ok(())
}

/// Adds those of the item with an id, if there is one, unless the list is full.
fn add_far_of(
    items: &mut Vec<u32>,
    graph: &Graph,
    leaf: &HelloLeaf,
    most: usize,
) -> Result<(), Memory>
    ensures { OnOk result (take most items.new.items ≡ take most (items.old.items ++ far_places (⟦<Graph as Past>⟧.updates graph.now) (leaf.now.id ∷ []))) }
{
    if items.len() >= most {
        return Ok(());
    }
    match graph.find(&leaf.id) {
        Some(item) => add_far(items, graph, item),
        None => Ok(()),
    }
}

/// The items further back from leaves, at most so many, leaf after leaf.
fn far_items(
    alloc: Global,
    graph: &Graph,
    leaves: &[HelloLeaf],
    most: usize,
) -> Result<Vec<u32>, Memory>
    ensures { IfOk result (λ items. items.items ≡ take most (far_places (⟦<Graph as Past>⟧.updates graph.now) (map (λ l. l.id) leaves.now))) }
{
    let mut items = Vec::new(alloc);
    for leaf in leaves {
        add_far_of(&mut items, graph, leaf, most)?;
    }
    items.truncate(most);
    Ok(items)
}

/// Whether a leaf precedes another.
fn rises(before: &HelloLeaf, leaf: &HelloLeaf) -> bool
    ensures { result ≡ hello_leaf_rises (Some before.now) leaf.now }
{
    leaf.may_follow(Some(before), 0)
}

/// The first place with a leaf that isn't lower, or the end of the list.
fn leaf_place(leaves: &[HelloLeaf], leaf: &HelloLeaf) -> usize
    ensures { result ≡ leaf_place leaf.now leaves.now }
{
    leaves.iter().take_while(|other| rises(other, leaf)).count()
}

/// Whether a place of a list has a higher leaf, or none.
fn is_new_at(leaves: &[HelloLeaf], leaf: &HelloLeaf, place: usize) -> bool
    ensures { result ≡ is_new_at leaf.now leaves.now place }
{
    match leaves.get(place) {
        Some(other) => rises(leaf, other),
        None => true,
    }
}

/// Inserts a leaf in its place among rising ones, unless it is there.
#[tactic(auto, using(crate::proofs::LeafPuts::leaf_laws))]
fn put_leaf(leaves: &mut Vec<HelloLeaf>, leaf: HelloLeaf) -> Result<(), Memory>
    ensures { OnOk result (leaves.new.items ≡ put_leaf leaf leaves.old.items) }
{
    let place = leaf_place(leaves.as_slice(), &leaf);
    if !is_new_at(leaves.as_slice(), &leaf, place) {
        return Ok(());
    }
    leaves.insert(place, leaf)?;
    Ok(())
}

/// Puts the updates of items among leaves.
fn put_items(leaves: &mut Vec<HelloLeaf>, graph: &Graph, items: &[u32]) -> Result<(), Memory>
    requires { AllByRecursion (λ item. item < length (⟦<Graph as Past>⟧.updates graph.now)) items.now }
    ensures { OnOk result (leaves.new.items ≡ put_leaves (map named_leaf (updates_at (⟦<Graph as Past>⟧.updates graph.now) items.now)) leaves.old.items) }
{
    for item in items {
        let leaf = HelloLeaf {
            writer: graph.update(*item).writer,
            id: *graph.id(*item),
        };
        put_leaf(leaves, leaf)?;
    }
    Ok(())
}

/// The leaves of a hello, with the ids further back for which there is room.
fn with_far(alloc: Global, graph: &Graph, leaves: HelloLeaves) -> Result<HelloLeaves, Memory>
    ensures { IfOk result (λ far. far ≡ far_leaves (⟦<Graph as Past>⟧.updates graph.now) leaves) }
{
    let most = (MOST_LEAVES as usize).saturating_sub(leaves.as_slice().len());
    let items = far_items(alloc, graph, leaves.as_slice(), most)?;
    let mut named = leaves.into_vec();
    put_items(&mut named, graph, items.as_slice())?;
    Ok(HelloLeaves::from_vec(named))
}

/// The node's hello that also names the ids 1, 3, 7, 15 .. back in each leaf's chain, as long as a hello has room.
fn node_far_hello<N: LocalNode>(alloc: Global, node: &N) -> Result<Hello, Memory>
    requires { N.stopped node.now ≡ false }
    ensures { IfOk result (λ hello. hello ≡ far_hello (N.stands node.now) (N.records node.now)) }
{
    let Hello {
        node: me,
        roster,
        convicted,
        leaves,
        wanted,
    } = node_hello(node)?;
    let leaves = with_far(alloc, node.graph(), leaves)?;
    Ok(Hello {
        node: me,
        roster,
        convicted,
        leaves,
        wanted,
    })
}

/// The far hello of a node that runs.
fn say_far_hello<N: LocalNode>(alloc: Global, node: &N) -> Result<Reply, Halt>
    requires runs { N.stopped node.now ≡ false }
    requires stable { IsStable (journal_of N.NodeState) node.now }
    ensures sends { Sends (N.stands node.now) (N.signature_of node.now) (N.records node.now) SendRequest.FarHello result (N.records node.now) }
    ensures call { IsSendCall N.NodeState node.now node.now SendRequest.FarHello result }
{
    let hello = node_far_hello(alloc, node)?;
    let text = encode_hello(alloc, &hello)?;
    Ok(Reply::Hello { hello, text })
}

/// Returns a node's hello that names, beside its leaves, the ids 1, 3, 7, 15 .. back in each leaf's chain. Its answer
/// has nothing that it names, or that precedes what it names (`named_updates_are_spared`). `Stopped` is returned
/// exactly when the disk failed in an earlier call; else `Memory` is the only error.
pub fn far_hello<N: LocalNode>(alloc: Global, node: &N) -> Result<Reply, Halt>
    ensures sends { Sends (N.stands node.now) (N.signature_of node.now) (N.records node.now) SendRequest.FarHello result (N.records node.now) }
    ensures call { IsSendCall N.NodeState node.now node.now SendRequest.FarHello result }
{
    if node.is_stopped() {
        return Err(Halt::Stopped);
    }
    say_far_hello(alloc, node)
}
