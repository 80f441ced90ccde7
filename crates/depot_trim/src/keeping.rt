//! The values that a reader keeps of a node.
ghost use Rattle.std.specs.Prelude.{◌≡◌, ◌++◌, [], ◌∷◌, ℕ, List, false, Some, IfOk, OnOk};
ghost use Rattle.depot_base.specs.Sized.{IsValue};
ghost use Rattle.depot_base.specs.declared.update.Update.{Update};
ghost use Rattle.depot_model.specs.texts.Contents.{names_value};
ghost use Rattle.depot_model.specs.journals.Journal.{accepted, held};
ghost use Rattle.depot_model.specs.readers.Readers.{left_of};
ghost use Rattle.depot_readings.specs.Named.{is_value_named, AreNamed};
ghost use Rattle.depot_trim.specs.Trimmings.{given_up, held_of};
ghost use Rattle.depot_trim.specs.ValuesLeft.{AreValuesLeft, KeepsMore};

use crate::flags::flag_at;
use depot_base::{Bytes, Memory, NamedValue, Update, Value};
use depot_graph::Graph;
use depot_kept::Values;
use depot_model::{NodeState, Past};
use depot_queries::LocalNode;
use depot_readings::{NamedValues, names_in_update};
use std::alloc::Global;

/// The names of the values that the remaining updates of a graph name: one flag for each item says whether it is given
/// up.
pub(crate) fn names_left(
    alloc: Global,
    graph: &Graph,
    trimmed: &[bool],
) -> Result<NamedValues, Memory>
    requires { (ts : List Update) × (trimmed.now ≡ given_up ts (⟦<Graph as Past>⟧.updates graph.now)) }
    ensures { IfOk result (λ named. (ts : List Update) → trimmed.now ≡ given_up ts (⟦<Graph as Past>⟧.updates graph.now) → AreNamed (left_of ts (⟦<Graph as Past>⟧.updates graph.now)) named) }
{
    let mut named = NamedValues::new(alloc);
    for item in 0..graph.count() {
        if !flag_at(trimmed, item) {
            add_names(alloc, &mut named, graph.update(item))?;
        }
    }
    Ok(named)
}

/// Adds the names of the values that an update names.
fn add_names(alloc: Global, named: &mut NamedValues, update: &Update) -> Result<(), Memory>
    ensures { OnOk result ((us : List Update) → AreNamed us named.old → AreNamed (us ++ update.now ∷ []) named.new) }
{
    let names = names_in_update(alloc, update)?;
    named.reserve(names.as_slice())?;
    named.add(names.as_slice());
    Ok(())
}

/// The held values that the remaining updates of a running node name.
pub(crate) fn values_left<N: LocalNode>(
    alloc: Global,
    node: &N,
    trimmed: &[bool],
) -> Result<Values, Memory>
    requires runs { N.stopped node.now ≡ false }
    requires flags { (ts : List Update) × (trimmed.now ≡ given_up ts (accepted (N.records node.now))) }
    ensures { IfOk result (AreValuesLeft (N.records node.now) trimmed.now) }
{
    let graph = node.graph();
    let mut values = Values::new(alloc);
    for item in 0..graph.count() {
        if !flag_at(trimmed, item) {
            add_values(alloc, &mut values, node, graph.update(item))?;
        }
    }
    Ok(values)
}

/// Adds the values that an update names and that the node holds.
fn add_values<N: LocalNode>(
    alloc: Global,
    values: &mut Values,
    node: &N,
    update: &Update,
) -> Result<(), Memory>
    requires { N.stopped node.now ≡ false }
    ensures { OnOk result (KeepsMore (held (N.records node.now)) (names_value update.now) values.old values.new) }
{
    let names = names_in_update(alloc, update)?;
    for name in names.as_slice() {
        add_name(alloc, values, node, name)?;
    }
    Ok(())
}

/// Adds the value of a name, if the node holds it.
fn add_name<N: LocalNode>(
    alloc: Global,
    values: &mut Values,
    node: &N,
    name: &NamedValue,
) -> Result<(), Memory>
    requires { N.stopped node.now ≡ false }
    ensures { OnOk result (KeepsMore (held (N.records node.now)) (is_value_named name.now) values.old values.new) }
{
    match node.held_as(name) {
        Some(value) => add_value(alloc, values, name, value),
        None => Ok(()),
    }
}

/// Adds the value of a name.
fn add_value(
    alloc: Global,
    values: &mut Values,
    name: &NamedValue,
    value: &[u8],
) -> Result<(), Memory>
    requires sized { IsValue value.now }
    requires held { (held : List (List ℕ)) × (held_of held name.now ≡ Some value.now) }
    ensures { OnOk result ((held : List (List ℕ)) → held_of held name.now ≡ Some value.now → KeepsMore held (is_value_named name.now) values.old values.new) }
{
    let value = Value::from_bytes(Bytes::from_slice(alloc, value)?);
    values.add_hashed(name.hash, value)?;
    Ok(())
}
