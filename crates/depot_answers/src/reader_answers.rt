//! Checkpoints that are made or not, and readers that are made by them.
ghost use Rattle.std.specs.Prelude.{◌≡◌, ◌++◌, OnOk};
ghost use Rattle.depot_answers.specs.AnswerTexts.{text_of_empty, text_of_kept, text_of_many, text_of_reader_feed, text_of_unsigned, text_where_full};

use crate::limit_answers::full;
use crate::words::{numbered, numbered_node, spaced_number, text};
use depot_base::{Bytes, Full, Memory, NodeId};
use std::alloc::Global;

/// Appends that no checkpoint is made, since nothing was accepted. On `Memory` a prefix of it may have been appended.
pub fn empty(out: &mut Bytes) -> Result<(), Memory>
    ensures { OnOk result (out.new ≡ out.old ++ text_of_empty) }
{
    text(out, "Empty")
}

/// Appends that no checkpoint is made, since there are so many leaves, more than 1,024. On `Memory` a prefix of it may
/// have been appended.
pub fn many(alloc: Global, out: &mut Bytes, count: u32) -> Result<(), Memory>
    ensures { OnOk result (out.new ≡ out.old ++ text_of_many count) }
{
    numbered(alloc, out, "Many", count as u64)
}

/// Appends the first node of the roster that didn't sign a checkpoint. On `Memory` a prefix of it may have been
/// appended.
pub fn unsigned(alloc: Global, out: &mut Bytes, node: NodeId) -> Result<(), Memory>
    ensures { OnOk result (out.new ≡ out.old ++ text_of_unsigned node) }
{
    numbered_node(alloc, out, "Unsigned", node)
}

/// Appends how many updates a reader keeps of how many that were accepted. On `Memory` a prefix of it may have been
/// appended.
#[tactic(auto, using(depot_base::proofs::Writing::texts))]
pub fn kept(alloc: Global, out: &mut Bytes, left: u32, all: u32) -> Result<(), Memory>
    ensures { OnOk result (out.new ≡ out.old ++ text_of_kept left all) }
{
    numbered(alloc, out, "kept", left as u64)?;
    spaced_number(alloc, out, "of", all as u64)
}

/// How many frames that a reader was given had the same outcome.
#[derive(Clone, Copy, Debug)]
pub struct ReaderCounts {
    /// Answered New.
    pub accepted: u32,
    /// Answered Known.
    pub known: u32,
    /// Refused.
    pub refused: u32,
    /// Below the checkpoint.
    pub below: u32,
}

/// What is full, where something is.
#[tactic(auto, using(depot_base::proofs::Writing::texts))]
fn full_behind(alloc: Global, out: &mut Bytes, met: Option<Full>) -> Result<(), Memory>
    ensures { OnOk result (out.new ≡ out.old ++ text_where_full met) }
{
    match met {
        None => Ok(()),
        Some(what) => {
            text(out, " ")?;
            full(alloc, out, &what)
        }
    }
}

/// Appends how many frames of a stream a reader found new, known, to be refused and below, and what was full where one
/// found no room. On `Memory` a prefix of it may have been appended.
#[tactic(auto, using(depot_base::proofs::Writing::texts), unfolding(crate::specs::AnswerTexts::text_of_reader_feed))]
pub fn reader_feed(
    alloc: Global,
    out: &mut Bytes,
    counts: ReaderCounts,
    met: Option<Full>,
) -> Result<(), Memory>
    ensures { OnOk result (out.new ≡ out.old ++ text_of_reader_feed counts met) }
{
    numbered(alloc, out, "accepted", counts.accepted as u64)?;
    spaced_number(alloc, out, "known", counts.known as u64)?;
    spaced_number(alloc, out, "refused", counts.refused as u64)?;
    spaced_number(alloc, out, "below", counts.below as u64)?;
    full_behind(alloc, out, met)
}
