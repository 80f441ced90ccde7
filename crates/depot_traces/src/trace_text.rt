//! Texts of traces.
ghost use Rattle.std.specs.Prelude.{◌≡◌, ◌++◌, OnOk, IfOk};
ghost use Rattle.depot_base.specs.Format.{list_of, whole};
ghost use Rattle.depot_base.specs.Reading.{Reads, Gives, Decodes, decoded};
ghost use Rattle.depot_traces.specs.TraceAnswers.{as_decoded};
ghost use Rattle.depot_traces.specs.TraceTexts.{any_follows, read_text, record_piece, trace_text, IsTrace, text_of_trace};

use crate::items::{items_in, put_items};
use crate::trace::{MOST_READS, Reads, Trace};
use depot_base::fault::Fault;
use depot_base::limits::MOST_RECORDS;
use depot_base::reading::{at_end, node_in, u8_in, u32_in};
use depot_base::{Bytes, Fields, Memory, Texts};
use std::alloc::Global;

/// Why a decoder gives no trace for a text.
#[derive(Clone, Copy, Debug, PartialEq, Eq)]
pub enum TraceError {
    /// Memory ran out.
    Memory,
    /// The text is no trace's. The number is the offset in bytes, from 0, of the first field that is cut short or out of its
    /// range, or of the first byte after the last field.
    IllFormed(u64),
}

/// Decodes a trace (docs/FORMATS.md). `IllFormed` comes exactly where this is no trace's text, with the offset in bytes
/// of the first fault. Whether a record text is a record's isn't checked.
pub fn decode_trace(alloc: Global, text: &[u8]) -> Result<Trace, TraceError>
    ensures { Decodes trace_text text.now (as_decoded result) }
{
    answer(whole_trace(alloc, &mut Fields::new(text)))
}

/// Encodes a trace (docs/FORMATS.md).
pub fn encode_trace(alloc: Global, trace: &Trace) -> Result<Bytes, Memory>
    requires { IsTrace trace.now }
    ensures { IfOk result (λ text. text ≡ text_of_trace trace.now) }
{
    let mut out = Bytes::new(alloc);
    put_trace(&mut out, trace)?;
    Ok(out)
}

/// A reader's answer as its caller gets it.
fn answer(read: Result<Trace, Fault>) -> Result<Trace, TraceError>
    ensures { as_decoded result ≡ decoded read }
{
    match read {
        Ok(trace) => Ok(trace),
        Err(Fault::Memory) => Err(TraceError::Memory),
        Err(Fault::At(at)) => Err(TraceError::IllFormed(at as u64)),
    }
}

/// Reads a trace from all the bytes that are left.
fn whole_trace(alloc: Global, fields: &mut Fields<'_>) -> Result<Trace, Fault>
    ensures { Gives result (whole trace_text fields.old) }
{
    let found = trace_in(alloc, fields)?;
    at_end(fields, found)
}

/// Reads a trace.
#[tactic(auto, unfolding(crate::specs::TraceTexts::trace_text))]
fn trace_in(alloc: Global, fields: &mut Fields<'_>) -> Result<Trace, Fault>
    ensures { Reads result fields.new (trace_text.read fields.old) }
{
    u8_in(fields, 1, 1)?;
    u8_in(fields, 5, 5)?;
    let node = node_in(fields)?;
    let count = u32_in(fields, 1, MOST_RECORDS)?;
    let texts = texts_in(alloc, fields, count)?;
    let count = u32_in(fields, 0, MOST_READS)?;
    let reads = reads_in(alloc, fields, count)?;
    Ok(Trace { node, texts, reads })
}

/// Reads `count` record texts.
#[tactic(auto, unfolding(depot_base::specs::Format::list_of))]
fn texts_in(alloc: Global, fields: &mut Fields<'_>, count: u32) -> Result<Texts, Fault>
    ensures { Reads result fields.new ((list_of count record_piece any_follows).read fields.old) }
{
    let list = items_in(alloc, fields, count)?;
    Ok(Texts::from_vec(list))
}

/// Reads `count` reads.
#[tactic(auto, unfolding(depot_base::specs::Format::list_of))]
fn reads_in(alloc: Global, fields: &mut Fields<'_>, count: u32) -> Result<Reads, Fault>
    ensures { Reads result fields.new ((list_of count read_text any_follows).read fields.old) }
{
    let list = items_in(alloc, fields, count)?;
    Ok(Reads::from_vec(list))
}

/// Writes a trace. On `Memory` a prefix of it may be there.
#[tactic(auto, using(depot_base::proofs::Writing::texts), unfolding(crate::specs::TraceTexts::trace_text, depot_base::specs::Format::number, depot_base::specs::Format::list_of))]
fn put_trace(out: &mut Bytes, trace: &Trace) -> Result<(), Memory>
    requires { IsTrace trace.now }
    ensures { OnOk result (out.new ≡ out.old ++ text_of_trace trace.now) }
{
    let texts = trace.texts.as_slice();
    let reads = trace.reads.as_slice();
    out.push_u8(1)?;
    out.push_u8(5)?;
    out.push_u16(trace.node.number())?;
    out.push_u32(texts.len() as u32)?;
    put_items(out, texts)?;
    out.push_u32(reads.len() as u32)?;
    put_items(out, reads)
}
