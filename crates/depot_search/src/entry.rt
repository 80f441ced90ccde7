//! A record of a journal.
ghost use Rattle.std.specs.Prelude.{◌≡◌, ◌&&◌, IfOk, IfSome, option_copied};
ghost use Rattle.std.specs.Option.{option_to_list};
ghost use Rattle.depot_model.specs.worlds.Audit.{is_body_in};
ghost use Rattle.depot_model.specs.journals.Journal.{accepted_by};
ghost use Rattle.depot_model.specs.worlds.ReadTests.{is_put_of};
ghost use Rattle.depot_model.specs.texts.Records.{IsRecord, text_of_record};
ghost use Rattle.depot_model.specs.texts.Texts.{IsUpdate};
ghost use Rattle.depot_search.specs.Writes.{IsRecordText};
ghost use Rattle.depot_traces.specs.SeenTraces.{sighting_of};

use crate::accepted::{Accepted, is_one_body};
use crate::puts::shows;
use depot_base::{DecodeError, Memory, Record, Statement, Update};
use depot_traces::Shown;
use depot_update::decode_record;
use std::alloc::Global;
use std::marker::Model;

/// A record that has a text.
#[derive(Debug, Drop)]
pub struct JournalEntry(Record);

impl Model for JournalEntry {
    ghost use Rattle.depot_base.specs.declared.record.Record.{Record};
    ghost use Rattle.depot_model.specs.texts.Records.{IsRecord};

    ghost Value = { Record };

    ghost view = { λ e. e.0 };

    ghost invariant = { λ e. IsRecord e.0 };
}

impl JournalEntry {
    /// The record of a text.
    pub fn of_text(alloc: Global, text: &[u8]) -> Result<JournalEntry, Memory>
        requires { IsRecordText text.now }
        ensures { IfOk result (λ e. IsRecord e × (text_of_record e ≡ text.now)) }
    {
        match decode_record(alloc, text) {
            Ok(record) => Ok(JournalEntry(record)),
            Err(DecodeError::Memory) => Err(Memory),
            Err(DecodeError::IllFormed(_)) => unreachable!(),
        }
    }

    /// The update that it accepted, if it accepted one.
    pub fn accepted(&self) -> Option<&Update>
        ensures update { option_to_list (option_copied result) ≡ accepted_by self.now }
        ensures fits { IfSome (option_copied result) IsUpdate }
    {
        match &self.0 {
            Record::OwnPut { update, .. } => Some(update),
            Record::Foreign { signed } => match &signed.statement {
                Statement::Update(update) => Some(update),
                Statement::Voucher(_) => None,
            },
            _ => None,
        }
    }

    /// Whether it accepted an update with the body of this one.
    pub fn accepts(&self, write: &Accepted) -> bool
        ensures { result ≡ is_body_in write.now (accepted_by self.now) }
    {
        match self.accepted() {
            Some(update) => is_one_body(update, write.update()),
            None => false,
        }
    }

    /// Whether it puts this update, where a value that is shown is the one that it holds for the write of the key.
    pub fn puts(&self, key: &[u8], write: &Accepted, shown: &Shown) -> bool
        ensures { result ≡ is_put_of key.now write.now (sighting_of shown.now) self.now }
    {
        let writes = write.update().writes.as_slice();
        match &self.0 {
            Record::OwnPut { update, values } => {
                is_one_body(update, write.update()) && shows(shown, key, writes, values.as_slice())
            }
            _ => false,
        }
    }
}
