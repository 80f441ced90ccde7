//! Whether receipts are due.
ghost use Rattle.std.specs.Prelude.{◌≡◌, IfOk, false, not, find};
ghost use Rattle.std.specs.List.{list_all};
ghost use Rattle.depot_base.specs.Writes.{value_in, values_in};
ghost use Rattle.depot_model.specs.journals.Journal.{accepted, has_id, holds};
ghost use Rattle.depot_model.specs.worlds.Receipts.{lacks_one, receipt_changes};
ghost use Rattle.depot_queries.specs.Giving.{AreReceiptsDue};

use crate::give_error::GiveError;
use crate::keys::receipt_key;
use depot_base::{Bytes, Change, Changes, Hash32, Memory, NamedValue, Value, Write, Wrote};
use depot_graph::Graph;
use depot_model::{Past, Peer};
use std::alloc::Global;

/// Returns the changes that give receipts for these ids. `Unknown` is returned exactly when an id isn't that of an
/// accepted update, with the first such id; else `NoValue` exactly when a value of an update isn't held, with the first
/// such id.
pub(crate) fn changes_due<P: Peer>(
    alloc: Global,
    node: &P,
    graph: &Graph,
    ids: &[Hash32],
) -> Result<Changes, GiveError>
    requires runs { P.stopped node.now ≡ false }
    requires graph { ⟦<Graph as Past>⟧.updates graph.now ≡ accepted (P.records node.now) }
    ensures { AreReceiptsDue (P.records node.now) ids.now result }
{
    if let Some(id) = first_unknown(graph, ids) {
        return Err(GiveError::Unknown(id));
    }
    if let Some(id) = first_lacking(node, graph, ids) {
        return Err(GiveError::NoValue(id));
    }
    Ok(changes_of(alloc, ids)?)
}

/// The first of these ids that no update of the graph has.
fn first_unknown(graph: &Graph, ids: &[Hash32]) -> Option<Hash32>
    ensures { result ≡ find (λ h. not (has_id (⟦<Graph as Past>⟧.updates graph.now) h)) ids.now }
{
    for id in ids {
        if is_unknown(graph, id) {
            return Some(*id);
        }
    }
    None
}

/// Whether no update of the graph has an id.
fn is_unknown(graph: &Graph, id: &Hash32) -> bool
    ensures { result ≡ not (has_id (⟦<Graph as Past>⟧.updates graph.now) id.now) }
{
    graph.find(id).is_none()
}

/// The first of these ids whose update names a value that isn't held.
fn first_lacking<P: Peer>(node: &P, graph: &Graph, ids: &[Hash32]) -> Option<Hash32>
    requires runs { P.stopped node.now ≡ false }
    requires graph { ⟦<Graph as Past>⟧.updates graph.now ≡ accepted (P.records node.now) }
    ensures { result ≡ find (lacks_one (P.records node.now)) ids.now }
{
    for id in ids {
        if is_lacking(node, graph, id) {
            return Some(*id);
        }
    }
    None
}

/// Whether the update with an id names a value that isn't held.
fn is_lacking<P: Peer>(node: &P, graph: &Graph, id: &Hash32) -> bool
    requires runs { P.stopped node.now ≡ false }
    requires graph { ⟦<Graph as Past>⟧.updates graph.now ≡ accepted (P.records node.now) }
    ensures { result ≡ lacks_one (P.records node.now) id.now }
{
    let Some(item) = graph.find(id) else {
        return false;
    };
    !holds_all(node, graph.update(item).writes.as_slice())
}

/// Whether all values that writes name are held.
fn holds_all<P: Peer>(node: &P, writes: &[Write]) -> bool
    requires { P.stopped node.now ≡ false }
    ensures { result ≡ list_all (λ n. holds (P.records node.now) n.hash n.size) (values_in writes.now) }
{
    for write in writes {
        if !holds_value(node, write.what) {
            return false;
        }
    }
    true
}

/// Whether the value that a write names is held; a deletion names none.
fn holds_value<P: Peer>(node: &P, what: Wrote) -> bool
    requires { P.stopped node.now ≡ false }
    ensures { result ≡ list_all (λ n. holds (P.records node.now) n.hash n.size) (value_in what) }
{
    match what.named() {
        Some(name) => holds(node, &name),
        None => true,
    }
}

/// Whether the value of a name is held.
fn holds<P: Peer>(node: &P, name: &NamedValue) -> bool
    requires { P.stopped node.now ≡ false }
    ensures { result ≡ holds (P.records node.now) name.now.hash name.now.size }
{
    match node.held(&name.hash) {
        Some(value) => value.len() == name.size as usize,
        None => false,
    }
}

/// The changes that give receipts for these ids: the empty value under the key of each.
fn changes_of(alloc: Global, ids: &[Hash32]) -> Result<Changes, Memory>
    ensures { IfOk result (λ changes. changes ≡ receipt_changes ids.now) }
{
    let mut changes = Changes::new(alloc);
    for id in ids {
        changes.push(Change {
            key: receipt_key(alloc, id)?,
            value: Some(Value::from_bytes(Bytes::new(alloc))),
        })?;
    }
    Ok(changes)
}
