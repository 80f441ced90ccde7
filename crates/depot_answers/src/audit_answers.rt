//! What an audit finds, and how much a trace has.
ghost use Rattle.std.specs.Prelude.{◌≡◌, ◌++◌, OnOk};
ghost use Rattle.depot_answers.specs.AnswerTexts.{text_of_finding, text_of_op, text_of_spot, text_of_traced};
ghost use Rattle.depot_traces.specs.SeenTraces.{finding_of, op_of_trace};

use crate::record_faults::record_fault;
use crate::words::{numbered, spaced_number, text};
use depot_base::{Bytes, Memory, NodeId};
use depot_traces::{Finding, Op};
use std::alloc::Global;

/// Appends how many records and reads a trace has. On `Memory` a prefix of it may have been appended.
#[tactic(auto, using(depot_base::proofs::Writing::texts))]
pub fn traced(alloc: Global, out: &mut Bytes, records: u32, reads: u32) -> Result<(), Memory>
    ensures { OnOk result (out.new ≡ out.old ++ text_of_traced records reads) }
{
    numbered(alloc, out, "records", records as u64)?;
    spaced_number(alloc, out, "reads", reads as u64)
}

/// The place of a node's record or read, after a space: `NODE PLACE`.
#[tactic(auto, using(depot_base::proofs::Writing::texts))]
fn spot(alloc: Global, out: &mut Bytes, node: NodeId, place: u32) -> Result<(), Memory>
    ensures { OnOk result (out.new ≡ out.old ++ text_of_spot node place) }
{
    let node = node.number();
    let words = format!(in alloc; " {node} {place}")?;
    text(out, words.as_str())
}

/// An operation after a space: `wNODE.PLACE` of a write, `rNODE.PLACE` of a read.
#[tactic(auto, using(depot_base::proofs::Writing::texts))]
fn operation(alloc: Global, out: &mut Bytes, op: Op) -> Result<(), Memory>
    ensures { OnOk result (out.new ≡ out.old ++ text_of_op (op_of_trace op)) }
{
    match op {
        Op::Write { node, place } => {
            let node = node.number();
            let words = format!(in alloc; " w{node}.{place}")?;
            text(out, words.as_str())
        }
        Op::Read { node, place } => {
            let node = node.number();
            let words = format!(in alloc; " r{node}.{place}")?;
            text(out, words.as_str())
        }
    }
}

/// What an audit finds, after a name: one operation.
#[tactic(auto, using(depot_base::proofs::Writing::texts))]
fn one_op(alloc: Global, out: &mut Bytes, name: &str, op: Op) -> Result<(), Memory>
    ensures { OnOk result (out.new ≡ out.old ++ (name.now ++ text_of_op (op_of_trace op))) }
{
    text(out, name)?;
    operation(alloc, out, op)
}

/// The same of two operations.
#[tactic(auto, using(depot_base::proofs::Writing::texts))]
fn two_ops(alloc: Global, out: &mut Bytes, name: &str, first: Op, second: Op) -> Result<(), Memory>
    ensures { OnOk result (out.new ≡ out.old ++ (name.now ++ text_of_op (op_of_trace first) ++ text_of_op (op_of_trace second))) }
{
    text(out, name)?;
    operation(alloc, out, first)?;
    operation(alloc, out, second)
}

/// The same of the place of a node's record or read.
#[tactic(auto, using(depot_base::proofs::Writing::texts))]
fn one_spot(
    alloc: Global,
    out: &mut Bytes,
    name: &str,
    node: NodeId,
    place: u32,
) -> Result<(), Memory>
    ensures { OnOk result (out.new ≡ out.old ++ (name.now ++ text_of_spot node place)) }
{
    text(out, name)?;
    spot(alloc, out, node, place)
}

/// Appends what an audit finds: `yes`, or what fails first and where. On `Memory` a prefix of it may have been
/// appended.
#[tactic(auto, using(depot_base::proofs::Writing::texts), unfolding(crate::specs::AnswerTexts::text_of_finding))]
pub fn finding(alloc: Global, out: &mut Bytes, found: Finding) -> Result<(), Memory>
    ensures { OnOk result (out.new ≡ out.old ++ text_of_finding (finding_of found)) }
{
    match found {
        Finding::Yes => text(out, "yes"),
        Finding::Unlawful { node, place, fault } => {
            one_spot(alloc, out, "no record", node, place)?;
            text(out, " ")?;
            record_fault(alloc, out, &fault)
        }
        Finding::Answer { node, place } => one_spot(alloc, out, "no answer", node, place),
        Finding::Circle(op) => one_op(alloc, out, "no fjc 1", op),
        Finding::Unordered { first, second } => two_ops(alloc, out, "no fjc 2", first, second),
        Finding::Unseen { first, second } => two_ops(alloc, out, "no fjc 3", first, second),
        Finding::Wrong { node, place } => {
            one_op(alloc, out, "no fjc 4", Op::Read { node, place })
        }
        Finding::Split { node, place } => one_spot(alloc, out, "no fjc 5", node, place),
        Finding::Named { node, place } => one_spot(alloc, out, "no named", node, place),
    }
}
