//! What a put made, a write that a read shows, and how many records a journal has.
ghost use Rattle.std.specs.Prelude.{◌≡◌, ◌++◌, List, length, OnOk};
ghost use Rattle.depot_base.specs.declared.record.Record.{Record};
ghost use Rattle.depot_base.specs.declared.update.Update.{Update};
ghost use Rattle.depot_answers.specs.AnswerTexts.{text_of_put, text_of_records, text_of_sighting, text_of_write};
ghost use Rattle.depot_answers.specs.Sightings.{sighting_of_seen};

use crate::words::{numbered, text};
use depot_base::{Bytes, Memory, Update};
use std::alloc::Global;

/// Appends the seq and the clock of the update that a put made, `SEQ/CLOCK`. On `Memory` a prefix of it may have been
/// appended.
pub fn put(alloc: Global, out: &mut Bytes, seq: u32, clock: u64) -> Result<(), Memory>
    ensures { OnOk result ((u : Update) → u.seq ≡ seq → u.clock ≡ clock → out.new ≡ out.old ++ text_of_put u) }
{
    let words = format!(in alloc; "{seq}/{clock}")?;
    text(out, words.as_str())
}

/// What a read shows of a write of its key.
#[derive(Clone, Copy, Debug)]
pub enum Seen<'a> {
    /// The value that the write names.
    Held(&'a [u8]),
    /// That the value that it names isn't held.
    NotHeld,
    /// That the key was deleted.
    Gone,
}

/// What follows a write: `=` and the value in lower-case hexadecimal, `=?` where it isn't held, or `!` of a deletion.
#[tactic(auto, using(depot_base::proofs::Writing::texts))]
fn sighting(alloc: Global, out: &mut Bytes, seen: Seen<'_>) -> Result<(), Memory>
    ensures { OnOk result (out.new ≡ out.old ++ text_of_sighting (sighting_of_seen seen.entry)) }
{
    match seen {
        Seen::Held(value) => {
            let digits = hex::encode(alloc, value)?;
            text(out, "=")?;
            text(out, digits.as_str())
        }
        Seen::NotHeld => text(out, "=?"),
        Seen::Gone => text(out, "!"),
    }
}

/// Appends a write that a read shows, and what it shows of it: `WRITER/SEQ/CLOCK=VALUE`, or `WRITER/SEQ/CLOCK!` of a
/// deletion. On `Memory` a prefix of it may have been appended.
#[tactic(auto, using(depot_base::proofs::Writing::texts))]
pub fn write(alloc: Global, out: &mut Bytes, update: &Update, seen: Seen<'_>) -> Result<(), Memory>
    ensures { OnOk result (out.new ≡ out.old ++ text_of_write (record { update = update.now; seen = sighting_of_seen seen.entry })) }
{
    let writer = update.writer.number();
    let seq = update.seq;
    let clock = update.clock;
    let front = format!(in alloc; "{writer}/{seq}/{clock}")?;
    text(out, front.as_str())?;
    sighting(alloc, out, seen)
}

/// Appends how many records a journal has. On `Memory` a prefix of it may have been appended.
pub fn records(alloc: Global, out: &mut Bytes, count: u32) -> Result<(), Memory>
    ensures { OnOk result ((J : List Record) → length J ≡ count → out.new ≡ out.old ++ text_of_records J) }
{
    numbered(alloc, out, "records", count as u64)
}
