//! Failed checks, and frames that were refused.
ghost use Rattle.std.specs.Prelude.{◌≡◌, ◌++◌, OnOk};
ghost use Rattle.depot_answers.specs.AnswerTexts.{text_of_check, text_of_refused};

use crate::words::{numbered, numbered_node, spaced_number, text, two_words};
use depot_base::{Bytes, Check, Memory};
use depot_lines::spelling::name_of_kind;
use depot_model::Refusal;
use std::alloc::Global;

/// Appends a failed check: its number, its name, and what it carries where that is a number or a kind. On `Memory` a
/// prefix of it may have been appended.
#[tactic(auto, unfolding(crate::specs::AnswerTexts::text_of_check))]
pub fn check(alloc: Global, out: &mut Bytes, check: &Check) -> Result<(), Memory>
    ensures { OnOk result (out.new ≡ out.old ++ text_of_check check.now) }
{
    match check {
        Check::IllFormed(at) => numbered(alloc, out, "1 IllFormed", *at as u64),
        Check::UnknownWriter(node) => numbered_node(alloc, out, "2 UnknownWriter", *node),
        Check::NotMine(_) => text(out, "3 NotMine"),
        Check::BadSignature(node) => numbered_node(alloc, out, "4 BadSignature", *node),
        Check::Missing(_) => text(out, "5 Missing"),
        Check::WrongDep(place) => numbered(alloc, out, "6 WrongDep", *place as u64),
        Check::Backward(_) => text(out, "7 Backward"),
        Check::ClockLow(_) => text(out, "8 ClockLow"),
        Check::ClockFar(greatest) => numbered(alloc, out, "9 ClockFar", *greatest),
        Check::BadHistory { .. } => text(out, "10 BadHistory"),
        Check::Forked { kind, .. } => two_words(out, "11 Forked", name_of_kind(*kind)),
        Check::Convicted(node) => numbered_node(alloc, out, "12 Convicted", *node),
        Check::VoucherConvicted(node) => numbered_node(alloc, out, "13 VoucherConvicted", *node),
        Check::Unwanted(_) => text(out, "14 Unwanted"),
        Check::NotContradictory => text(out, "15 NotContradictory"),
        Check::AgainstMe => text(out, "16 AgainstMe"),
    }
}

/// Appends a refused frame, for a line of its own: a space, the frame's number and the check. On `Memory` a prefix of
/// it may have been appended.
#[tactic(auto, using(depot_base::proofs::Writing::texts))]
pub fn refusal(alloc: Global, out: &mut Bytes, refusal: &Refusal) -> Result<(), Memory>
    ensures { OnOk result (out.new ≡ out.old ++ text_of_refused refusal.now) }
{
    spaced_number(alloc, out, "refused", refusal.frame as u64)?;
    text(out, " ")?;
    check(alloc, out, &refusal.check)
}
