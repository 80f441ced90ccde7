//! The journals of traces.
ghost use Rattle.std.specs.Prelude.{◌≡◌, map, take, IfOk};
ghost use Rattle.std.specs.List.{AllByRecursion};
ghost use Rattle.depot_model.specs.worlds.Audit.{place_in};
ghost use Rattle.depot_model.specs.texts.Records.{IsRecord, text_of_record};
ghost use Rattle.depot_search.specs.Writes.{IsRecordText, is_accepted_in};

use crate::accepted::Accepted;
use crate::entry::JournalEntry;
use depot_base::{Bytes, Memory, NodeId, Sequence};
use depot_traces::{ReadTrace, Trace};
use std::alloc::Global;

/// Records, in their order.
pub type Entries = Sequence<JournalEntry>;

/// A node with its records and its reads.
#[derive(Drop)]
pub struct TracedJournal<'a> {
    /// The node.
    pub node: NodeId,
    /// Its records.
    pub entries: Entries,
    /// Its reads, in the order in which they were made.
    pub reads: &'a [ReadTrace],
}

/// The records of texts.
fn entries_of(alloc: Global, texts: &[Bytes]) -> Result<Entries, Memory>
    requires { AllByRecursion IsRecordText texts.now }
    ensures fit { IfOk result (λ made. AllByRecursion IsRecord made) }
    ensures texts { IfOk result (λ made. map text_of_record made ≡ texts.now) }
{
    let mut entries = Entries::new(alloc);
    for text in texts {
        entries.push(JournalEntry::of_text(alloc, text.as_slice())?)?;
    }
    Ok(entries)
}

/// The journals of traces, in their order.
pub fn journals_of<'a>(
    alloc: Global,
    traces: &[&'a Trace],
) -> Result<Vec<TracedJournal<'a>>, Memory>
    requires { AllByRecursion (λ t. AllByRecursion IsRecordText t.now.texts) traces.now }
    ensures fit { IfOk result (λ made. AllByRecursion (λ j. AllByRecursion IsRecord j.entries) made.items) }
    ensures nodes { IfOk result (λ made. map (λ j. j.node) made.items ≡ map (λ t. t.now.node) traces.now) }
    ensures texts { IfOk result (λ made. map (λ j. map text_of_record j.entries) made.items ≡ map (λ t. t.now.texts) traces.now) }
    ensures reads { IfOk result (λ made. map (λ j. j.reads.now) made.items ≡ map (λ t. t.now.reads) traces.now) }
{
    let mut journals = Vec::new(alloc);
    for trace in traces {
        journals.push(TracedJournal {
            node: trace.node,
            entries: entries_of(alloc, trace.texts.as_slice())?,
            reads: trace.reads.as_slice(),
        })?;
    }
    Ok(journals)
}

/// The first record that accepted an update with a write's body.
pub fn place_of(entries: &[JournalEntry], write: &Accepted) -> Option<usize>
    ensures { result ≡ place_in entries.now write.now }
{
    entries.iter().position(|entry| entry.accepts(write))
}

/// Whether records accepted an update with a write's body.
pub fn is_accepted(entries: &[JournalEntry], write: &Accepted) -> bool
    ensures { result ≡ is_accepted_in entries.now write.now }
{
    entries.iter().any(|entry| entry.accepts(write))
}

/// The first records.
#[tactic(auto, using(crate::proofs::Fronts::take_min))]
pub fn front(entries: &[JournalEntry], count: usize) -> &[JournalEntry]
    ensures { result.now ≡ take count entries.now }
{
    &entries[..count.min(entries.len())]
}
