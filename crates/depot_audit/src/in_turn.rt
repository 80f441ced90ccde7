//! Nodes in turn: whether the records of all are lawful, and then whether the reads of all are right.
ghost use Rattle.std.specs.Prelude.{◌≡◌, ◌≤◌, length, map, IfOk, Some, None};
ghost use Rattle.std.specs.List.{AllByRecursion};
ghost use Rattle.depot_traces.specs.SeenTraces.{trace_of};
ghost use Rattle.depot_traces.specs.declared.trace.TheConstants.{MOST_READS};
ghost use Rattle.depot_traces.specs.declared.finding.Finding.{Finding};
ghost use Rattle.depot_traces.specs.declared.finding.Finding.TheVariants.{Answer};
ghost use Rattle.depot_audit.specs.InTurn.{IsTurnOf};

use crate::one_node::{NodeAnswer, look_at};
use depot_base::{Memory, NodeId};
use depot_model::Scheme;
use depot_sign::Roster;
use depot_traces::{Finding, Trace};
use std::alloc::Global;

/// The first node whose records aren't lawful, else the first read that isn't what its journal showed; None where there is neither.
pub fn look_at_all<S: Scheme>(
    alloc: Global,
    roster: &Roster,
    scheme: &S,
    traces: &[&Trace],
) -> Result<Option<Finding>, Memory>
    requires { AllByRecursion (λ t. length t.now.reads ≤ MOST_READS) traces.now }
    ensures { IfOk result (IsTurnOf S.verifies roster.now (map (λ t. trace_of t.now) traces.now)) }
{
    let mut wrong = None;
    for trace in traces {
        match look_at(alloc, roster, scheme, trace)? {
            NodeAnswer::Unlawful(found) => {
                return Ok(Some(Finding::Unlawful {
                    node: trace.node,
                    place: found.place,
                    fault: found.fault,
                }));
            }
            NodeAnswer::WrongRead(place) => wrong = or_answer(wrong, trace.node, place),
            NodeAnswer::Right => {}
        }
    }
    Ok(wrong)
}

/// The read that was found before, or this one of a node.
fn or_answer(wrong: Option<Finding>, node: NodeId, place: u32) -> Option<Finding>
    ensures some { (found : Finding) → wrong ≡ Some found → result ≡ Some found }
    ensures none { wrong ≡ None → result ≡ Some (Answer node place) }
{
    match wrong {
        Some(found) => Some(found),
        None => Some(Finding::Answer { node, place }),
    }
}
