//! What a node hands in for an audit: its record texts, and its reads as a trace records them.
ghost use Rattle.std.specs.Prelude.{◌≡◌, ◌<◌, ◌≤◌, length, map, false, Some, IfOk, slice_get};
ghost use Rattle.std.specs.List.{AllByRecursion};
ghost use Rattle.depot_answers.specs.AnswerTexts.{spaced, text_of_traced};
ghost use Rattle.depot_answers.specs.Sightings as sightings;
ghost use Rattle.depot_base.specs.Sized.{IsValue};
ghost use Rattle.depot_base.specs.declared.update.Update.{Update};
ghost use Rattle.depot_model.specs.texts.Contents.{IfHeld, Writes};
ghost use Rattle.depot_model.specs.journals.Journal.{accepted};
ghost use Rattle.depot_model.specs.texts.Records.{text_of_record};
ghost use Rattle.depot_traces.specs.SeenTraces as seen_traces;
ghost use Rattle.depot_traces.specs.TraceTexts.{read_text};
ghost use Rattle.depot_traces.specs.declared.trace.TheConstants.{MOST_READS};
ghost use Rattle.depot_world.specs.Audits.{traced_read};
ghost use Rattle.depot_requests.specs.Effects.{read_at_end, ended};
ghost use Rattle.depot_service.specs.TracePrinting.{IsTraceOf, IsTracedWrite, export_of};

use crate::reads::seen;
use depot_answers::{Seen, traced};
use depot_base::{Bytes, Key, Memory, Texts, Value};
use depot_model::{Past, Replica};
use depot_queries::LocalNode;
use depot_traces::{Answered, Listing, ReadTrace, Reads, Shown, Trace, encode_trace};
use std::alloc::Global;

/// What a read shows of a write, as a trace records it: a value is copied.
fn shown(alloc: Global, seen: Seen<'_>) -> Result<Shown, Memory>
    requires { IfHeld (sightings.sighting_of_seen seen) IsValue }
    ensures { IfOk result (λ shown. seen_traces.sighting_of shown ≡ sightings.sighting_of_seen seen.entry) }
{
    match seen {
        Seen::NotHeld => Ok(Shown::NotHeld),
        Seen::Held(value) => Ok(Shown::Held(Value::from_bytes(Bytes::from_slice(alloc, value)?))),
        Seen::Gone => Ok(Shown::Gone),
    }
}

/// A write of a key that a read lists, the one of an item, as a trace records it.
fn answered<N: LocalNode>(alloc: Global, node: &N, item: u32, key: &Key) -> Result<Answered, Memory>
    requires runs { N.stopped node.now ≡ false }
    requires item { item < length (accepted (N.records node.now)) }
    requires writes { (u : Update) → slice_get (accepted (N.records node.now)) item ≡ Some u → Writes key.now u }
    ensures { IfOk result (λ a. IsTracedWrite (N.records node.now) item key.now a) }
{
    let graph = node.graph();
    let seen = seen(graph.update(item), key, node.value_of(item, key));
    Ok(Answered {
        id: *graph.id(item),
        shown: shown(alloc, seen)?,
    })
}

/// A read of a key, as a trace records it: how many records the node has, the key, and the latest writes, each with
/// what is shown of it. Key and values are copied.
pub fn read_traced<N: LocalNode>(alloc: Global, node: &N, key: &Key) -> Result<ReadTrace, Memory>
    requires { N.stopped node.now ≡ false }
    ensures { IfOk result (λ r. read_text.fits r × (seen_traces.read_of r ≡ traced_read (read_at_end (N.records node.now) key.now))) }
{
    let mut answer = Listing::new(alloc);
    for item in node.graph().latest(key) {
        answer.push(answered(alloc, node, *item, key)?)?;
    }
    Ok(ReadTrace {
        length: node.record_count(),
        key: Key::from_bytes(Bytes::from_slice(alloc, key.bytes())?),
        answer,
    })
}

/// What is shown of a write, once more.
fn shown_again(shown: &Shown) -> Result<Shown, Memory>
    ensures { IfOk result (λ again. again ≡ shown.now) }
{
    match shown {
        Shown::NotHeld => Ok(Shown::NotHeld),
        Shown::Held(value) => Ok(Shown::Held(value.copy()?)),
        Shown::Gone => Ok(Shown::Gone),
    }
}

/// The writes that a read lists, once more.
fn answer_again(alloc: Global, answer: &[Answered]) -> Result<Listing, Memory>
    ensures { IfOk result (λ again. again ≡ answer.now) }
{
    let mut again = Listing::new(alloc);
    for listed in answer {
        again.push(Answered {
            id: listed.id,
            shown: shown_again(&listed.shown)?,
        })?;
    }
    Ok(again)
}

/// Reads, once more.
fn reads_again(alloc: Global, reads: &[ReadTrace]) -> Result<Reads, Memory>
    ensures { IfOk result (λ again. again ≡ reads.now) }
{
    let mut again = Reads::new(alloc);
    for read in reads {
        again.push(ReadTrace {
            length: read.length,
            key: read.key.copy()?,
            answer: answer_again(alloc, read.answer.as_slice())?,
        })?;
    }
    Ok(again)
}

/// The texts of a node's records.
fn record_texts<R: Replica>(alloc: Global, node: &R) -> Result<Texts, Memory>
    ensures { IfOk result (λ texts. texts ≡ map text_of_record (R.records node.now)) }
{
    let mut texts = Texts::new(alloc);
    for place in 0..node.record_count() {
        texts.push(Bytes::from_slice(alloc, node.record_text(place))?)?;
    }
    Ok(texts)
}

/// The trace of a node with these reads, which are copied. It works for a stopped node too.
pub fn node_trace<R: Replica>(alloc: Global, node: &R, reads: &[ReadTrace]) -> Result<Trace, Memory>
    requires few { length reads.now ≤ MOST_READS }
    requires fit { AllByRecursion read_text.fits reads.now }
    ensures { IfOk result (λ t. IsTraceOf (R.stands node.now).me (R.records node.now) reads.now t) }
{
    Ok(Trace {
        node: node.me(),
        texts: record_texts(alloc, node)?,
        reads: reads_again(alloc, reads)?,
    })
}

/// The bytes of the trace that a node hands in for an audit, with these reads. It doesn't matter whether the node is stopped.
pub fn export<R: Replica>(alloc: Global, node: &R, reads: &[ReadTrace]) -> Result<Bytes, Memory>
    requires few { length reads.now ≤ MOST_READS }
    requires fit { AllByRecursion read_text.fits reads.now }
    ensures { IfOk result (λ text. text ≡ export_of (R.stands node.now).me (R.records node.now) (map seen_traces.read_of reads.now)) }
{
    let trace = node_trace(alloc, node, reads)?;
    encode_trace(alloc, &trace)
}

/// The line of a trace that was handed in: how many records and reads it has.
#[tactic(auto, using(depot_base::proofs::Writing::texts))]
pub fn traced_line(alloc: Global, records: u32, reads: u32) -> Result<Bytes, Memory>
    ensures { IfOk result (λ line. line ≡ ended (spaced (text_of_traced records reads))) }
{
    let mut line = Bytes::from_slice(alloc, b" ")?;
    traced(alloc, &mut line, records, reads)?;
    line.push_all(b"\n")?;
    Ok(line)
}
