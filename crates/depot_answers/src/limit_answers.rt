//! The limits that what a node writes may meet.
ghost use Rattle.std.specs.Prelude.{◌≡◌, ℕ, List, ◌++◌, OnOk};
ghost use Rattle.depot_model.specs.checks.Limits.{spent, tips, collides};
ghost use Rattle.depot_answers.specs.AnswerTexts.{name_of_full, text_of_full, text_of_limit};

use crate::words::{numbered, text};
use depot_base::{Bytes, Full, FullOf, Memory};
use std::alloc::Global;

/// The name of what is full.
fn name_of_full(what: FullOf) -> &'static str
    ensures { result.now ≡ name_of_full what }
{
    match what {
        FullOf::Records => "full records",
        FullOf::Bytes => "full bytes",
        FullOf::Writers => "full writers",
    }
}

/// Appends what is full, and the number now. On `Memory` a prefix of it may have been appended.
pub fn full(alloc: Global, out: &mut Bytes, full: &Full) -> Result<(), Memory>
    ensures { OnOk result (out.new ≡ out.old ++ text_of_full full.now) }
{
    numbered(alloc, out, name_of_full(full.what), full.number as u64)
}

/// Appends that so many own statements were made, and too few leaves are left. On `Memory` a prefix of it may have been
/// appended.
#[tactic(auto, unfolding(crate::specs::AnswerTexts::text_of_limit))]
pub fn spent(alloc: Global, out: &mut Bytes, count: u32) -> Result<(), Memory>
    ensures { OnOk result (out.new ≡ out.old ++ text_of_limit (spent count)) }
{
    numbered(alloc, out, "Spent", count as u64)
}

/// Appends that an update would have so many entries, more than 1,024. On `Memory` a prefix of it may have been
/// appended.
#[tactic(auto, unfolding(crate::specs::AnswerTexts::text_of_limit))]
pub fn tips(alloc: Global, out: &mut Bytes, count: u32) -> Result<(), Memory>
    ensures { OnOk result (out.new ≡ out.old ++ text_of_limit (tips count)) }
{
    numbered(alloc, out, "Tips", count as u64)
}

/// Appends that an update's id isn't fresh, whatever the id. On `Memory` a prefix of it may have been appended.
#[tactic(auto, unfolding(crate::specs::AnswerTexts::text_of_limit))]
pub fn collides(out: &mut Bytes) -> Result<(), Memory>
    ensures { OnOk result ((id : List ℕ) → out.new ≡ out.old ++ text_of_limit (collides id)) }
{
    text(out, "Collides")
}
