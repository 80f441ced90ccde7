//! Hellos, bundles, and what became of a stream.
ghost use Rattle.std.specs.Prelude.{◌≡◌, ◌++◌, OnOk};
ghost use Rattle.depot_answers.specs.AnswerTexts.{name_of_more, report_text, spaced, text_of_counts, text_of_end, text_of_ending, text_of_named};
ghost use Rattle.depot_answers.specs.Closings.{closing_of};

use crate::limit_answers::full;
use crate::words::{numbered, spaced_number, text};
use depot_base::{Bytes, Full, Memory};
use depot_lines::word_writers::word;
use depot_model::{Counts, Ending, Hello, Report};
use std::alloc::Global;

/// Why a feed was closed.
#[derive(Clone, Copy, Debug, PartialEq, Eq)]
pub enum Closing {
    /// The stream has no frame at this offset in bytes.
    IllFormed(u64),
    /// There was no room for what a frame would add.
    Full(Full),
}

/// Appends how many nodes a hello lists as convicted, and how many leaves and wanted values it names. On `Memory` a
/// prefix of it may have been appended.
#[tactic(auto, using(depot_base::proofs::Writing::texts))]
pub fn named(alloc: Global, out: &mut Bytes, hello: &Hello) -> Result<(), Memory>
    ensures { OnOk result (out.new ≡ out.old ++ text_of_named hello.now) }
{
    let convicted = hello.convicted.as_slice().len();
    let leaves = hello.leaves.as_slice().len();
    let wanted = hello.wanted.as_slice().len();
    numbered(alloc, out, "convicted", convicted as u64)?;
    spaced_number(alloc, out, "leaves", leaves as u64)?;
    spaced_number(alloc, out, "wanted", wanted as u64)
}

/// Whether a bundle leaves something out.
fn name_of_more(more: bool) -> &'static str
    ensures { result.now ≡ name_of_more more }
{
    if more { "more" } else { "whole" }
}

/// Appends how many frames of each sort a bundle has, and whether there is more. On `Memory` a prefix of it may have
/// been appended.
#[tactic(auto, using(depot_base::proofs::Writing::texts))]
pub fn counts(alloc: Global, out: &mut Bytes, counts: &Counts, more: bool) -> Result<(), Memory>
    ensures { OnOk result (out.new ≡ out.old ++ (text_of_counts counts.now ++ spaced (name_of_more more))) }
{
    numbered(alloc, out, "proofs", counts.proofs as u64)?;
    spaced_number(alloc, out, "vouchers", counts.vouchers as u64)?;
    spaced_number(alloc, out, "updates", counts.updates as u64)?;
    spaced_number(alloc, out, "values", counts.values as u64)?;
    word(out, name_of_more(more).as_bytes())
}

/// How a stream ended.
fn ending(alloc: Global, out: &mut Bytes, ending: Ending) -> Result<(), Memory>
    ensures { OnOk result (out.new ≡ out.old ++ text_of_ending ending) }
{
    match ending {
        Ending::Closed => text(out, "closed"),
        Ending::Whole => text(out, "whole"),
        Ending::More => text(out, "more"),
        Ending::Bare => text(out, "bare"),
        Ending::Cut(bytes) => numbered(alloc, out, "cut", bytes as u64),
    }
}

/// Why a feed was closed, or else how its stream ended.
fn end(alloc: Global, out: &mut Bytes, closing: Option<Closing>, how: Ending) -> Result<(), Memory>
    ensures { OnOk result (out.new ≡ out.old ++ text_of_end (closing_of closing) how) }
{
    match closing {
        Some(Closing::IllFormed(at)) => numbered(alloc, out, "ill-formed", at),
        Some(Closing::Full(what)) => full(alloc, out, &what),
        None => ending(alloc, out, how),
    }
}

/// Appends what became of the frames of a stream: how many were new, known and refused, and how the stream ended.
/// `closing` is why the last piece closed its feed: `FeedError::IllFormed` or `Full`. For other errors it is None, and
/// the line ends in `closed`. On `Memory` a prefix of it may have been appended.
#[tactic(auto, using(depot_base::proofs::Writing::texts))]
pub fn report(
    alloc: Global,
    out: &mut Bytes,
    report: &Report,
    closing: Option<Closing>,
) -> Result<(), Memory>
    ensures { OnOk result (out.new ≡ out.old ++ report_text report.now (closing_of closing)) }
{
    let refused = report.refused.as_slice().len();
    numbered(alloc, out, "accepted", report.accepted as u64)?;
    spaced_number(alloc, out, "known", report.known as u64)?;
    spaced_number(alloc, out, "refused", refused as u64)?;
    text(out, " ")?;
    end(alloc, out, closing, report.ending)
}
