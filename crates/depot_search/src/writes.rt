//! The writes of journals, each body once.
ghost use Rattle.std.specs.Prelude.{◌≡◌, IfOk, OnOk, []};
ghost use Rattle.depot_model.specs.worlds.Audit.{is_body_in};
ghost use Rattle.depot_model.specs.journals.Journal.{accepted, accepted_by};
ghost use Rattle.depot_model.specs.texts.Texts.{IsUpdate};
ghost use Rattle.depot_search.specs.Writes.{with_bodies, with_journals};

use crate::accepted::{Accepted, is_one_body};
use crate::entry::JournalEntry;
use crate::journal::TracedJournal;
use depot_base::{Memory, Update};
use std::alloc::Global;

/// Whether one of these has the body of an update.
fn is_known(writes: &[Accepted], update: &Update) -> bool
    requires { IsUpdate update.now }
    ensures { result ≡ is_body_in update.now writes.now }
{
    writes
        .iter()
        .any(|write| is_one_body(write.update(), update))
}

/// Appends what a record accepted, unless one of the others has its body.
fn put_accepted(writes: &mut Vec<Accepted>, entry: &JournalEntry) -> Result<(), Memory>
    ensures { OnOk result (writes.new.items ≡ with_bodies writes.old.items (accepted_by entry.now)) }
{
    let Some(update) = entry.accepted() else {
        return Ok(());
    };
    if is_known(writes, update) {
        return Ok(());
    }
    writes.push(Accepted::new(update)?)?;
    Ok(())
}

/// The same for records, one after another.
fn put_all(writes: &mut Vec<Accepted>, entries: &[JournalEntry]) -> Result<(), Memory>
    ensures { OnOk result (writes.new.items ≡ with_bodies writes.old.items (accepted entries.now)) }
{
    for entry in entries {
        put_accepted(writes, entry)?;
    }
    Ok(())
}

/// What the records of journals accepted, each body once, where it comes first.
pub fn writes_of(alloc: Global, journals: &[TracedJournal<'_>]) -> Result<Vec<Accepted>, Memory>
    ensures { IfOk result (λ made. made.items ≡ with_journals [] journals.now) }
{
    let mut writes = Vec::new(alloc);
    for journal in journals {
        put_all(&mut writes, journal.entries.as_slice())?;
    }
    Ok(writes)
}
