//! What a judge answers, and where a roster goes wrong.
ghost use Rattle.std.specs.Prelude.{◌≡◌, ◌++◌, OnOk};
ghost use Rattle.depot_model.specs.texts.Lines.{name_of_half, text_of_point, text_of_roster_error, text_of_verdict};

use crate::words::{numbered, numbered_node, text, two_words};
use depot_base::{Bytes, Memory, NodeId};
use depot_lines::spelling::name_of_kind;
use depot_model::{Half, JudgeError, RosterError, Verdict};
use std::alloc::Global;

/// The name of a half.
fn name_of_half(half: Half) -> &'static str
    ensures { result.now ≡ name_of_half half }
{
    match half {
        Half::First => "first",
        Half::Second => "second",
    }
}

/// Appends the node and the kind of a verdict. On `Memory` a prefix of it may have been appended.
#[tactic(auto, using(depot_base::proofs::Writing::texts))]
pub fn verdict(alloc: Global, out: &mut Bytes, verdict: &Verdict) -> Result<(), Memory>
    ensures { OnOk result (out.new ≡ out.old ++ text_of_verdict verdict.now) }
{
    let node = verdict.node.number();
    let kind = name_of_kind(verdict.kind);
    let words = format!(in alloc; "{node} {kind}")?;
    text(out, words.as_str())
}

/// The point that two halves have these writers.
#[tactic(auto, using(depot_base::proofs::Writing::texts))]
fn two_writers(alloc: Global, out: &mut Bytes, first: NodeId, second: NodeId) -> Result<(), Memory>
    ensures { OnOk result (out.new ≡ out.old ++ text_of_point (JudgeError.TwoWriters first second)) }
{
    let first = first.number();
    let second = second.number();
    let words = format!(in alloc; "TwoWriters {first} {second}")?;
    text(out, words.as_str())
}

/// Appends a failed point, and what it carries; nothing for `Memory`. On `Memory` a prefix of it may have been
/// appended.
pub fn point(alloc: Global, out: &mut Bytes, point: &JudgeError) -> Result<(), Memory>
    ensures { OnOk result (out.new ≡ out.old ++ text_of_point point.now) }
{
    match point {
        JudgeError::Memory => Ok(()),
        JudgeError::IllFormed(at) => numbered(alloc, out, "IllFormed", *at as u64),
        JudgeError::UnknownWriter(node) => numbered_node(alloc, out, "UnknownWriter", *node),
        JudgeError::BadSignature(half) => two_words(out, "BadSignature", name_of_half(*half)),
        JudgeError::TwoWriters(first, second) => two_writers(alloc, out, *first, *second),
        JudgeError::Same => text(out, "Same"),
        JudgeError::WrongOrder => text(out, "WrongOrder"),
        JudgeError::NotContradictory(kind) => two_words(
            out,
            "NotContradictory",
            name_of_kind(*kind),
        ),
    }
}

/// Appends where a roster goes wrong; nothing for `Memory`. On `Memory` a prefix of it may have been appended.
pub fn roster_error(alloc: Global, out: &mut Bytes, error: &RosterError) -> Result<(), Memory>
    ensures { OnOk result (out.new ≡ out.old ++ text_of_roster_error error.now) }
{
    match error {
        RosterError::Memory => Ok(()),
        RosterError::IllFormed(at) => numbered(alloc, out, "at", *at as u64),
        RosterError::TwiceNode(node) => numbered_node(alloc, out, "twice", *node),
        RosterError::TooMany(count) => numbered(alloc, out, "many", *count as u64),
    }
}
