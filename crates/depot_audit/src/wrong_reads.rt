//! The first read that isn't exact, where no two different texts have one hash.
ghost use Rattle.std.specs.Prelude.{◌≡◌, ◌≤◌, length, map, None, option_map, position};
ghost use Rattle.std.specs.List.{AllByRecursion};
ghost use Rattle.depot_laws.specs.OneText.{HaveOneText};
ghost use Rattle.depot_model.specs.worlds.Audit.{circle, wrong};
ghost use Rattle.depot_model.specs.worlds.World.{World, IsWorld};
ghost use Rattle.depot_model.specs.worlds.Traces.{IsWorldOf};
ghost use Rattle.depot_traces.specs.SeenTraces.{finding_of, trace_of};
ghost use Rattle.depot_traces.specs.declared.trace.TheConstants.{MOST_READS};
ghost use Rattle.depot_audit.specs.Lookups.{nodes_in, is_unput_in, lists_unput, first_unput};
ghost use Rattle.depot_audit.specs.TracedWorlds.{IsMetIn};

use crate::met::Met;
use crate::traced_nodes::has_node;
use depot_base::Hash32;
use depot_traces::{Finding, ReadTrace, Trace};

/// The first read, with nodes in the order of their traces, that lists a write of a node of the traces which that node
/// didn't put. Where no two different texts have one hash, only such reads are wrong, and nothing is observed before
/// itself. It takes no memory.
pub fn first_wrong(met: &Met, traces: &[&Trace]) -> Option<Finding>
    requires { AllByRecursion (λ t. length t.now.reads ≤ MOST_READS) traces.now }
    ensures wrong { (W : World) → IsWorldOf (map (λ t. trace_of t.now) traces.now) W → IsMetIn W met.now → HaveOneText W → option_map finding_of result ≡ wrong W }
    ensures circle { (W : World) → IsWorld W → HaveOneText W → circle W ≡ None }
{
    first_listing(met, traces)
}

/// The first read that lists a write of a node of the traces which isn't known as put.
fn first_listing(met: &Met, traces: &[&Trace]) -> Option<Finding>
    requires { AllByRecursion (λ t. length t.now.reads ≤ MOST_READS) traces.now }
    ensures { option_map finding_of result ≡ first_unput met.now.updates.table (nodes_in (map (λ t. t.now) traces.now)) (map (λ t. t.now) traces.now) }
{
    for trace in traces {
        match first_place(met, traces, trace.reads.as_slice()) {
            Some(place) => {
                return Some(Finding::Wrong {
                    node: trace.node,
                    place,
                });
            }
            None => {}
        }
    }
    None
}

/// The place of the first of these reads that lists such a write.
fn first_place(met: &Met, traces: &[&Trace], reads: &[ReadTrace]) -> Option<u32>
    requires { length reads.now ≤ MOST_READS }
    ensures { result ≡ position (lists_unput met.now.updates.table (nodes_in (map (λ t. t.now) traces.now))) reads.now }
{
    for place in 0..reads.len() {
        if lists_unput(met, traces, &reads[place]) {
            return Some(place as u32);
        }
    }
    None
}

/// Whether a read lists such a write.
fn lists_unput(met: &Met, traces: &[&Trace], read: &ReadTrace) -> bool
    ensures { result ≡ lists_unput met.now.updates.table (nodes_in (map (λ t. t.now) traces.now)) read.now }
{
    read.answer
        .as_slice()
        .iter()
        .any(|listed| is_unput(met, traces, &listed.id))
}

/// Whether an update of this id is one of a node of the traces and isn't known as put.
fn is_unput(met: &Met, traces: &[&Trace], id: &Hash32) -> bool
    ensures { result ≡ is_unput_in met.now.updates.table (nodes_in (map (λ t. t.now) traces.now)) id.now }
{
    match met.updates.get(id) {
        Some(found) => has_node(traces, found.update.writer) && !found.put,
        None => false,
    }
}
