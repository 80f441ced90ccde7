//! Reads that a trace is asked for, and writes the message that hands it in.
ghost use Rattle.std.specs.Prelude.{◌≡◌, ◌++◌, length, IfOk, IfSome, OnOk};
ghost use Rattle.depot_base.specs.Reading.{DecodesClosed, Gives, IsClosedReadInOneWay};
ghost use Rattle.depot_requests.specs.ExportTexts.{FindsExport, export_text, exported_text, text_of_export};

use depot_base::fault::{Fault, answer};
use depot_base::reading::{at_end, u8_in};
use depot_base::{Bytes, DecodeError, Fields, Memory};
use std::alloc::Global;

/// The kind of the message that asks for a trace, and of the one that hands it in.
pub const EXPORT_KIND: u8 = 48;

/// The kind alone, of all the bytes that are left.
#[tactic(auto, unfolding(crate::specs::ExportTexts::export_text))]
fn export_in(fields: &mut Fields<'_>) -> Result<(), Fault>
    ensures { Gives result (export_text.read fields.old) }
{
    u8_in(fields, EXPORT_KIND, EXPORT_KIND)?;
    at_end(fields, ())
}

/// Whether a text asks for a trace. `IllFormed` comes exactly where it doesn't, with the offset of the first fault: 0 of no bytes and of another kind, and 1
/// where something stands behind the kind.
pub fn decode_export(body: &[u8]) -> Result<(), DecodeError>
    ensures decodes { DecodesClosed export_text body.now result }
    ensures finds { FindsExport body.now result }
{
    answer(export_in(&mut Fields::new(body)))
}

/// How many bytes the text has that hands a trace in, if that is a number of four bytes.
#[tactic(auto, using(crate::proofs::ExportLaws::exported_size))]
fn exported_length(trace: &[u8]) -> Option<u32>
    ensures { IfSome result (λ n. n ≡ length (exported_text.text trace.now)) }
{
    match u32::try_from(trace.len()) {
        Ok(size) => size.checked_add(1),
        Err(_) => None,
    }
}

/// The text that hands a trace in.
#[tactic(auto, using(depot_base::proofs::Writing::texts), unfolding(crate::specs::ExportTexts::exported_text, depot_base::specs::Closed::rest_of, depot_base::specs::Format::number))]
fn put_exported(out: &mut Bytes, trace: &[u8]) -> Result<(), Memory>
    ensures { OnOk result (out.new ≡ out.old ++ exported_text.text trace.now) }
{
    out.push_u8(EXPORT_KIND)?;
    out.push_all(trace)
}

/// The message that hands a trace in: the length of its text in four bytes, and its text. Where that has more than 4,294,967,295 bytes, memory is said
/// to lack.
pub fn encode_exported(alloc: Global, trace: &[u8]) -> Result<Bytes, Memory>
    ensures { IfOk result (λ message. message ≡ text_of_export trace.now) }
{
    let Some(length) = exported_length(trace) else {
        return Err(Memory);
    };
    let mut message = Bytes::new(alloc);
    message.push_u32(length)?;
    put_exported(&mut message, trace)?;
    Ok(message)
}

/// A text asks for a trace, or its first fault is at one place. Called for its clause alone.
pub fn exports_are_read_in_one_way()
    ensures { IsClosedReadInOneWay export_text }
{}

/// A text hands one trace in, or its first fault is at one place. Called for its clause alone.
pub fn exported_are_read_in_one_way()
    ensures { IsClosedReadInOneWay exported_text }
{}
