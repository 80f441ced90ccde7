//! The audit of traces: what is found of each node, and then in the world that they make.
ghost use Rattle.std.specs.Prelude.{◌≡◌, ◌≤◌, ◌∷◌, [], length, map, option_map, true, IfOk};
ghost use Rattle.std.specs.List.{AllByRecursion};
ghost use Rattle.depot_model.specs.worlds.Audit.{circle, wrong, finding_in};
ghost use Rattle.depot_model.specs.lists.Items.{AreDistinct};
ghost use Rattle.depot_model.specs.lists.Lists.{first};
ghost use Rattle.depot_model.specs.texts.Roster.{has_node};
ghost use Rattle.depot_model.specs.worlds.Traces.{IsFindingOf, IsWorldOf};
ghost use Rattle.depot_model.specs.worlds.World.{World};
ghost use Rattle.depot_traces.specs.SeenTraces.{finding_of, trace_of};
ghost use Rattle.depot_traces.specs.TraceTexts.{IsTrace};
ghost use Rattle.depot_traces.specs.declared.trace.TheConstants.{MOST_READS, MOST_TRACES};

use crate::by_node::sorted;
use crate::in_turn::look_at_all;
use crate::{Met, first_named, first_wrong};
use depot_base::Memory;
use depot_model::Scheme;
use depot_search::search;
use depot_sign::Roster;
use depot_traces::{Finding, Trace, Traces};
use std::alloc::Global;

/// Audits traces: whether what many nodes did keeps the headline. Returns the first node whose records aren't lawful,
/// else the first read that isn't what its journal showed at the time, else what is found in the world that the traces
/// make (`Finding`). Nodes are taken in rising order, whatever the order of their traces.
///
/// There are 1 to 32 traces, of distinct nodes of the roster, each in the ranges of its text.
pub fn audit<S: Scheme>(
    alloc: Global,
    roster: &Roster,
    scheme: &S,
    traces: &Traces,
) -> Result<Finding, Memory>
    requires some { 1 ≤ length traces.now }
    requires few { length traces.now ≤ MOST_TRACES }
    requires fit { AllByRecursion IsTrace traces.now }
    requires distinct { AreDistinct (map (λ t. t.node) traces.now) }
    requires members { AllByRecursion (λ t. has_node roster.now t.node ≡ true) traces.now }
    ensures { IfOk result (λ found. IsFindingOf S.verifies roster.now (map trace_of traces.now) (finding_of found)) }
{
    let list = sorted(alloc, traces.as_slice())?;
    match look_at_all(alloc, roster, scheme, &list)? {
        Some(found) => Ok(found),
        None => found_in_world(alloc, &list),
    }
}

/// What is found in the world that traces make, whose records are lawful and whose reads are right.
fn found_in_world(alloc: Global, traces: &[&Trace]) -> Result<Finding, Memory>
    requires world { (W : World) × IsWorldOf (map (λ t. trace_of t.now) traces.now) W }
    requires few { AllByRecursion (λ t. length t.now.reads ≤ MOST_READS) traces.now }
    ensures { IfOk result (λ found. (W : World) → IsWorldOf (map (λ t. trace_of t.now) traces.now) W → finding_of found ≡ finding_in W) }
{
    match first_broken(alloc, traces)? {
        Some(found) => Ok(found),
        None => match first_named(alloc, traces)? {
            Some(found) => Ok(found),
            None => Ok(Finding::Yes),
        },
    }
}

/// The first operation there that is observed before itself, else the first read that isn't exact: by a table of hashes where no two
/// different texts have one hash, and else by search.
fn first_broken(alloc: Global, traces: &[&Trace]) -> Result<Option<Finding>, Memory>
    requires world { (W : World) × IsWorldOf (map (λ t. trace_of t.now) traces.now) W }
    requires few { AllByRecursion (λ t. length t.now.reads ≤ MOST_READS) traces.now }
    ensures { IfOk result (λ found. (W : World) → IsWorldOf (map (λ t. trace_of t.now) traces.now) W → option_map finding_of found ≡ first (circle W ∷ wrong W ∷ [])) }
{
    let met = Met::of_traces(alloc, traces)?;
    if met.is_apart() {
        return Ok(first_wrong(&met, traces));
    }
    drop(met);
    search(alloc, traces)
}
