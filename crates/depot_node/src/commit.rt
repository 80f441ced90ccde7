//! The one write path: here the journal grows.
ghost use Rattle.std.specs.Prelude.{◌≡◌, ◌++◌, [], false, Some};
ghost use Rattle.depot_base.specs.declared.check.Full.{Full};
ghost use Rattle.depot_model.specs.journals.Journal.{accepted};
ghost use Rattle.depot_model.specs.journals.Lawful.{IsLawful};
ghost use Rattle.depot_model.specs.checks.Room.{full_by};
ghost use Rattle.depot_readings.specs.NewRecords.{MayGrow};
ghost use Rattle.depot_readings.specs.RecordTexts.{IsGiven};
ghost use Rattle.depot_decide.specs.Deciding.{AreJoined};
ghost use Rattle.depot_node.specs.Commits.{AppendsRecords, Commits};
ghost use Rattle.depot_node.specs.Holdings.{IsWhole, node_setting};
ghost use Rattle.depot_node.specs.StoreCalls.{IsCommitCall, IsKept, IsWriteCall};
ghost use Rattle.depot_node.specs.declared.commit.WriteError.TheVariants as write_error;

use crate::store::Store;
use depot_accept::Parents;
use depot_base::{Full, Memory};
use depot_decide::keep_parents;
use depot_journal::AppendError;
use depot_model::Scheme;
use depot_outside::Disk;
use depot_readings::{Growth, RECORD_OVERHEAD};
use std::alloc::Global;

/// Why records were not appended, where there is room for them.
#[derive(Clone, Copy, Debug, PartialEq, Eq)]
pub enum WriteError {
    /// Memory ran out.
    Memory,
    /// The disk failed. The records before the failing one were appended, and the store is stopped.
    Disk,
}

impl From<Memory> for WriteError {
    ghost from_gives = { λ _ e. e ≡ write_error.Memory };

    fn from(_e: Memory) -> WriteError {
        WriteError::Memory
    }
}

/// Why nothing was appended.
#[derive(Clone, Copy, Debug, PartialEq, Eq)]
pub enum CommitError {
    /// Memory ran out.
    Memory,
    /// The disk failed.
    Disk,
    /// There is no room for what was to be appended.
    Full(Full),
}

impl<D: Disk, S: Scheme> Store<D, S> {
    /// Appends a growth where there is room for it, and else changes nothing. Where the growth ends with a statement of
    /// another, `given` is that statement's text; `parents` are those of its update, if it has them. `Full` comes
    /// exactly where a limit would be passed, the first of records, bytes and leaves of other writers, with the number
    /// now. On `Disk` the records before the failing one were appended, and the store is stopped. Every crash image of
    /// the call has the records from before, and a prefix of the new ones; on `Memory` and `Full` none of these.
    pub fn commit(
        &mut self,
        alloc: Global,
        new: Growth,
        parents: Option<Parents>,
        given: &[u8],
    ) -> Result<(), CommitError>
        requires runs { self.old.stopped ≡ false }
        requires kept { IsKept S.verifies self.old }
        requires may { MayGrow (node_setting S.verifies self.old) self.old.records new }
        requires joined { AreJoined (accepted self.old.records) parents }
        requires given { IsGiven new given.now }
        ensures commits { Commits self.old.me self.old.records new result self.new.records }
        ensures stands { node_setting S.verifies self.new ≡ node_setting S.verifies self.old }
        ensures kept { IsKept S.verifies self.new }
        ensures full { (what : Full) → full_by self.old.me self.old.records new ≡ Some what → self.new ≡ self.old }
        ensures call { IsCommitCall D.Disk self.old self.new new result }
    {
        // Called for its clause alone: the crash images have the records.
        let _runs = self.is_stopped();
        if let Some(full) = self.readings.limit(&new) {
            drop(new);
            drop(parents);
            return Err(CommitError::Full(full));
        }
        match self.append(alloc, new, parents, given) {
            Ok(()) => Ok(()),
            Err(WriteError::Memory) => Err(CommitError::Memory),
            Err(WriteError::Disk) => Err(CommitError::Disk),
        }
    }

    /// Appends the records of a growth: all; or none, and then memory ran out, and no crash image has any; or those
    /// before the one on which the disk failed. No limit is checked: there is room, since the journal stays lawful.
    pub(crate) fn append(
        &mut self,
        alloc: Global,
        new: Growth,
        parents: Option<Parents>,
        given: &[u8],
    ) -> Result<(), WriteError>
        requires whole { IsWhole self.old }
        requires lawful { IsLawful (node_setting S.verifies self.old) (self.old.records ++ new) }
        requires joined { AreJoined (accepted self.old.records) parents }
        requires given { IsGiven new given.now }
        ensures appends { AppendsRecords self.old.records new result self.new.records }
        ensures stands { node_setting S.verifies self.new ≡ node_setting S.verifies self.old }
        ensures read { self.new.unread ≡ [] }
        ensures call { IsWriteCall D.Disk self.old self.new new result }
    {
        // Called for its clause alone: the crash images have the records.
        let _runs = self.journal.is_stopped();
        let mut new = new;
        let count = new.count() as u32;
        let size = new.bytes() as u32 - RECORD_OVERHEAD * count;
        let Ok(()) = self.journal.reserve(count, size) else {
            drop(new);
            drop(parents);
            return Err(WriteError::Memory);
        };
        let Ok(texts) = new.take_texts(alloc) else {
            drop(new);
            drop(parents);
            return Err(WriteError::Memory);
        };
        let rest = new.given(given);
        keep_parents(&mut self.readings, parents);
        self.readings.read(new)?;
        let written = self.journal.append_all(texts.as_slice(), rest);
        self.read = self.journal.count();
        match written {
            Ok(()) => Ok(()),
            Err(AppendError::Disk) => Err(WriteError::Disk),
            // Memory and room were found before, and the store isn't stopped.
            Err(_) => unreachable!(),
        }
    }
}
