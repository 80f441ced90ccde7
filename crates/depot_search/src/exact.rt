//! Whether a read lists just the last of the writes that are observed before it, each as its writer put it.
ghost use Rattle.std.specs.Prelude.{◌≡◌, ◌&&◌, ◌||◌, ◌==◌, not, map, IfOk};
ghost use Rattle.std.specs.Str.{bytes_eq};
ghost use Rattle.std.specs.List.{list_any};
ghost use Rattle.depot_model.specs.texts.Contents.{writes};
ghost use Rattle.depot_model.specs.worlds.ReadTests.{is_put_of};
ghost use Rattle.depot_traces.specs.SeenTraces.{sighting_of};
ghost use Rattle.depot_search.specs.Read.{is_answered, is_put_in_each, is_unput, held_row, key_row, observed_row, last_row, listed_row, is_alike, are_alike, is_exact_by};

use crate::accepted::Accepted;
use crate::entry::JournalEntry;
use crate::journal::{TracedJournal, is_accepted};
use crate::rows::{MemberRow, both, either, meets, reached, without};
use depot_base::{Hash32, Memory, Update, Write};
use depot_traces::{Answered, ReadTrace, Shown};
use std::alloc::{AllocError, Global};

/// Whether one of these writes is of a key.
fn has_key(writes: &[Write], key: &[u8]) -> bool
    ensures { result ≡ list_any (λ w. bytes_eq key.now w.key) writes.now }
{
    writes.iter().any(|write| key == write.key.bytes())
}

/// Whether an update writes a key.
fn writes_key(update: &Update, key: &[u8]) -> bool
    ensures { result ≡ writes key.now update.now }
{
    has_key(update.writes.as_slice(), key)
}

/// The writes that records accepted.
fn held(
    alloc: Global,
    writes: &[Accepted],
    entries: &[JournalEntry],
) -> Result<MemberRow, AllocError>
    ensures { IfOk result (λ row. row.items ≡ held_row writes.now entries.now) }
{
    writes
        .iter()
        .map(|write| is_accepted(entries, write))
        .collect(alloc)
}

/// The writes of a key.
fn of_key(alloc: Global, writes: &[Accepted], key: &[u8]) -> Result<MemberRow, AllocError>
    ensures { IfOk result (λ row. row.items ≡ key_row writes.now key.now) }
{
    writes
        .iter()
        .map(|write| writes_key(write.update(), key))
        .collect(alloc)
}

/// The writes of a key that are held, or observed before one that is.
fn observed(
    alloc: Global,
    writes: &[Accepted],
    table: &[MemberRow],
    key: &[u8],
    held: &[bool],
) -> Result<MemberRow, AllocError>
    ensures { IfOk result (λ row. row.items ≡ observed_row writes.now (map (λ r. r.items) table.now) key.now held.now) }
{
    let before = reached(alloc, table, held)?;
    let seen = either(alloc, held, &before)?;
    let of_key = of_key(alloc, writes, key)?;
    both(alloc, &seen, &of_key)
}

/// Those of some writes that are observed before none of them.
fn last(alloc: Global, table: &[MemberRow], among: &[bool]) -> Result<MemberRow, AllocError>
    ensures { IfOk result (λ row. row.items ≡ last_row (map (λ r. r.items) table.now) among.now) }
{
    let before = reached(alloc, table, among)?;
    without(alloc, among, &before)
}

/// Whether one of these answers is of an id.
fn has_answer(answer: &[Answered], id: &Hash32) -> bool
    ensures { result ≡ list_any (λ a. bytes_eq a.id id.now) answer.now }
{
    answer.iter().any(|a| a.id == *id)
}

/// The writes that are held and that a read lists.
fn listed(
    alloc: Global,
    writes: &[Accepted],
    answer: &[Answered],
    held: &[bool],
) -> Result<MemberRow, Memory>
    ensures { IfOk result (λ row. row.items ≡ listed_row writes.now answer.now held.now) }
{
    let answered = answered(alloc, writes, answer)?;
    Ok(both(alloc, held, &answered)?)
}

/// The writes that a read lists.
fn answered(alloc: Global, writes: &[Accepted], answer: &[Answered]) -> Result<MemberRow, Memory>
    ensures { IfOk result (λ row. row.items ≡ map (is_answered answer.now) writes.now) }
{
    let mut row = Vec::new(alloc);
    for write in writes {
        let id = write.id(alloc)?;
        row.push(has_answer(answer, &id))?;
    }
    Ok(row)
}

/// Whether one of these records puts a write as it is shown.
fn has_put(entries: &[JournalEntry], key: &[u8], write: &Accepted, shown: &Shown) -> bool
    ensures { result ≡ list_any (is_put_of key.now write.now (sighting_of shown.now)) entries.now }
{
    entries.iter().any(|entry| entry.puts(key, write, shown))
}

/// Whether a journal is of another node than the write's, or has it as it is shown.
fn is_put_there(journal: &TracedJournal<'_>, key: &[u8], write: &Accepted, shown: &Shown) -> bool
    ensures { result ≡ not (write.now.writer == journal.now.node) || list_any (is_put_of key.now write.now (sighting_of shown.now)) journal.now.entries }
{
    if write.update().writer != journal.node {
        return true;
    }
    has_put(journal.entries.as_slice(), key, write, shown)
}

/// Whether each journal of its writer puts a write as it is shown.
fn is_put(journals: &[TracedJournal<'_>], key: &[u8], write: &Accepted, shown: &Shown) -> bool
    ensures { result ≡ is_put_in_each journals.now key.now write.now (sighting_of shown.now) }
{
    journals
        .iter()
        .all(|journal| is_put_there(journal, key, write, shown))
}

/// Whether an answer is of a write of this id that its writer didn't put as it is shown.
fn lacks_put(
    journals: &[TracedJournal<'_>],
    key: &[u8],
    write: &Accepted,
    id: &Hash32,
    a: &Answered,
) -> bool
    ensures { result ≡ bytes_eq a.now.id id.now && not (is_put_in_each journals.now key.now write.now (sighting_of a.now.shown)) }
{
    a.id == *id && !is_put(journals, key, write, &a.shown)
}

/// The writes that a read lists and that their writers didn't put as they are shown.
fn unput(
    alloc: Global,
    journals: &[TracedJournal<'_>],
    writes: &[Accepted],
    key: &[u8],
    answer: &[Answered],
) -> Result<MemberRow, Memory>
    ensures { IfOk result (λ row. row.items ≡ map (is_unput journals.now key.now answer.now) writes.now) }
{
    let mut row = Vec::new(alloc);
    for write in writes {
        let id = write.id(alloc)?;
        row.push(is_lacking(journals, key, write, &id, answer))?;
    }
    Ok(row)
}

/// Whether one of these answers is of such a write.
fn is_lacking(
    journals: &[TracedJournal<'_>],
    key: &[u8],
    write: &Accepted,
    id: &Hash32,
    answer: &[Answered],
) -> bool
    ensures { result ≡ list_any (λ a. bytes_eq a.id id.now && not (is_put_in_each journals.now key.now write.now (sighting_of a.shown))) answer.now }
{
    answer
        .iter()
        .any(|a| lacks_put(journals, key, write, id, a))
}

fn is_alike(a: bool, b: bool) -> bool
    ensures { result ≡ is_alike a b }
{
    if a { b } else { !b }
}

/// Whether two rows are equal.
fn are_alike(a: &[bool], b: &[bool]) -> bool
    ensures { result ≡ are_alike a.now b.now }
{
    a.iter().zip(b).all(|(x, y)| is_alike(*x, *y))
}

/// Whether a read that saw these records lists just the last of the writes of its key that are observed before it, each as its
/// writer put it.
#[tactic(auto, unfolding(crate::specs::Read::is_exact_by))]
pub fn is_exact(
    alloc: Global,
    journals: &[TracedJournal<'_>],
    writes: &[Accepted],
    table: &[MemberRow],
    entries: &[JournalEntry],
    read: &ReadTrace,
) -> Result<bool, Memory>
    ensures { IfOk result (λ told. told ≡ is_exact_by journals.now writes.now (map (λ r. r.items) table.now) entries.now read.now) }
{
    let key = read.key.bytes();
    let answer = read.answer.as_slice();
    let held = held(alloc, writes, entries)?;
    let observed = observed(alloc, writes, table, key, &held)?;
    let last = last(alloc, table, &observed)?;
    let listed = listed(alloc, writes, answer, &held)?;
    let unput = unput(alloc, journals, writes, key, answer)?;
    Ok(are_alike(&last, &listed) && !meets(&listed, &unput))
}
