//! Decides on a put.
ghost use Rattle.std.specs.Prelude.{◌≡◌, ◌<◌, ◌≤◌, ◌↔◌, ◌∷◌, ◌++◌, [], List, length, map, IfOk, IfErr, IsTrue, true, false, nat_lt};
ghost use Rattle.std.specs.Option.{ForSome, option_to_list};
ghost use Rattle.std.specs.List.{AllByRecursion};
ghost use Rattle.depot_base.specs.Pairs.{AllPairsByRecursion};
ghost use Rattle.depot_base.specs.Parts.{is_below};
ghost use Rattle.depot_base.specs.declared.limits.TheConstants.{MOST_ENTRIES, MOST_WRITES};
ghost use Rattle.depot_base.specs.declared.record.Record.{Record};
ghost use Rattle.depot_model.specs.lists.Items.{place_of_prev, updates_at};
ghost use Rattle.depot_model.specs.journals.Journal.{accepted};
ghost use Rattle.depot_model.specs.journals.Lawful.{is_empty};
ghost use Rattle.depot_model.specs.checks.Own.{entry_of, next_with, IsFresh, leaf_count};
ghost use Rattle.depot_readings.specs.ReadingsView.{standing};
ghost use Rattle.depot_decide.specs.PlannedPuts.{IsPlanned, IsRefused, IsTooWide};

use crate::plan_errors::{NextError, PlanError};
use crate::put_writes::{Written, writes_of};
use depot_base::limits::MOST_ENTRIES;
use depot_base::{Changes, Dep, Deps, Hash32, Memory, Update, Writes};
use depot_graph::{Graph, changed_leaves, summary};
use depot_model::{Past, PutDone, Scheme};
use depot_readings::{Growth, Readings};
use depot_update::encode_own_put;
use std::alloc::Global;

/// What a put is to append, and what it then reports.
#[derive(Drop)]
pub struct Plan {
    /// What to report of the update once its record is appended.
    pub done: PutDone,
    /// The record to append, where there is room for it.
    pub growth: Growth,
}

/// Decides on a put of 1 to 16 changes, whose keys rise strictly: the next own update, unless no leaf is left to sign
/// it (`Spent`), it has more than 1,024 entries (`Tips`), or its id isn't fresh (`Collides`), checked in this order.
/// Whether there is room for its record isn't checked. `Memory` may come in place of each answer.
pub fn decide_put<S: Scheme>(
    alloc: Global,
    readings: &Readings<S>,
    changes: Changes,
) -> Result<Plan, PlanError>
    requires some { is_empty readings.now.records ≡ false }
    requires few { (1 ≤ length changes) × (length changes ≤ MOST_WRITES) }
    requires rising { AllPairsByRecursion (λ c d. is_below c.key d.key ≡ true) changes }
    ensures planned { IfOk result (λ p. IsPlanned (standing S.verifies readings.now) readings.now.records changes p.done p.growth) }
    ensures refused { IfErr result (IsRefused (standing S.verifies readings.now) readings.now.records changes) }
{
    let state = readings.state();
    let own = readings.totals().own;
    if !has_leaf(readings, own) {
        return Err(PlanError::Spent(own));
    }
    let Written { writes, values } = writes_of(alloc, changes)?;
    let next = next_own(alloc, readings, writes)?;
    let made = encode_own_put(alloc, &next.update, &values)?;
    if !is_fresh(state.graph(), &made.id) {
        return Err(PlanError::Collides(made.id));
    }
    let done = PutDone {
        id: made.id,
        seq: next.update.seq,
        clock: next.update.clock,
    };
    let Next { update, parents } = next;
    let growth = Growth::put(alloc, update, values, made.id, parents, made.text)?;
    Ok(Plan { done, growth })
}

/// Whether the node has a leaf of this number to sign with.
#[tactic(auto, unfolding(depot_model::specs::checks::Own::leaf_count))]
pub fn has_leaf<S: Scheme>(readings: &Readings<S>, leaf: u32) -> bool
    ensures { result ≡ nat_lt leaf (leaf_count readings.now.listed readings.now.me) }
{
    match readings.roster().key_of(readings.me()) {
        Some(key) => key.has_leaf(leaf),
        None => false,
    }
}

/// What a put makes, before it is encoded.
#[derive(Drop)]
pub struct Next {
    /// The next own update.
    pub update: Update,
    /// The items of its parents, that of its prev first, as hints for `Growth::put`. No clause speaks of them, since
    /// none depends on them.
    pub parents: Vec<u32>,
}

/// The next own update, with these writes. `Tips` comes exactly where it would have more than 1,024 entries, with their number.
pub fn next_own<S: Scheme>(
    alloc: Global,
    readings: &Readings<S>,
    writes: Writes,
) -> Result<Next, NextError>
    ensures next { IfOk result (λ n. n.update ≡ next_with readings.now.me readings.now.records writes) }
    ensures narrow { IfOk result (λ n. length n.update.deps ≤ MOST_ENTRIES) }
    ensures wide { IfErr result (IsTooWide (next_with readings.now.me readings.now.records writes)) }
{
    let state = readings.state();
    let graph = state.graph();
    let totals = readings.totals();
    let last = item_of(graph, &totals.last);
    let items = changed_leaves(alloc, graph, state.me(), last)?;
    let items = items.as_slice();
    if items.len() > MOST_ENTRIES as usize {
        return Err(NextError::Tips(items.len() as u32));
    }
    let parents = with_prev(alloc, last, items)?;
    let history = summary(alloc, graph)?;
    let deps = entries_of(alloc, graph, items)?;
    Ok(Next {
        update: Update {
            writer: state.me(),
            seq: totals.own,
            clock: totals.clock + 1,
            prev: totals.last,
            writes,
            deps,
            history,
        },
        parents,
    })
}

/// The item of a prev, if there is one, followed by those of the entries.
fn with_prev(alloc: Global, prev: Option<u32>, entries: &[u32]) -> Result<Vec<u32>, Memory>
    ensures { IfOk result (λ items. items.items ≡ option_to_list prev ++ entries.now) }
{
    let mut items = Vec::new(alloc);
    if let Some(item) = prev {
        items.push(item)?;
    }
    items.extend_from_slice(entries)?;
    Ok(items)
}

/// The item of the update that a prev names, if it names one.
fn item_of(graph: &Graph, prev: &Hash32) -> Option<u32>
    ensures item { result ≡ place_of_prev prev.now (⟦<Graph as Past>⟧.updates graph.now) }
    ensures inside { ForSome result (λ item. item < length (⟦<Graph as Past>⟧.updates graph.now)) }
{
    if prev.is_zeros() {
        return None;
    }
    graph.find(prev)
}

/// The entries that name these items.
fn entries_of(alloc: Global, graph: &Graph, items: &[u32]) -> Result<Deps, Memory>
    requires { AllByRecursion (λ item. item < length (⟦<Graph as Past>⟧.updates graph.now)) items.now }
    ensures { IfOk result (λ deps. deps ≡ map entry_of (updates_at (⟦<Graph as Past>⟧.updates graph.now) items.now)) }
{
    let mut deps = Deps::new(alloc);
    for item in items {
        deps.push(entry_of(graph, *item))?;
    }
    Ok(deps)
}

/// The entry that names an item.
fn entry_of(graph: &Graph, item: u32) -> Dep
    requires { item < length (⟦<Graph as Past>⟧.updates graph.now) }
    ensures { map entry_of (updates_at (⟦<Graph as Past>⟧.updates graph.now) (item ∷ [])) ≡ result ∷ [] }
{
    let update = graph.update(item);
    Dep {
        writer: update.writer,
        clock: update.clock,
        id: *graph.id(item),
    }
}

/// Whether an id is neither 32 zero bytes nor that of an accepted update.
pub fn is_fresh(graph: &Graph, id: &Hash32) -> bool
    ensures { (J : List Record) → accepted J ≡ ⟦<Graph as Past>⟧.updates graph.now → (IsTrue result ↔ IsFresh J id.now) }
{
    !id.is_zeros() && graph.find(id).is_none()
}
