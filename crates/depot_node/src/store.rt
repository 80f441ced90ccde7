//! A journal on a disk, with what was read off it.
ghost use Rattle.std.specs.Prelude.{◌≡◌, ◌<◌, ◌++◌, List, ℕ, [], ◌∷◌, false, IsTrue, Some, None, drop, length, option_copied, map, slice_get, OnOk, OnErr};
ghost use Rattle.depot_model.specs.journals.Journal.{accepted};
ghost use Rattle.depot_model.specs.journals.Lawful.{IsLawful};
ghost use Rattle.depot_model.specs.texts.Records.{text_of_record};
ghost use Rattle.depot_model.specs.journals.Stops.{LeavesAll};
ghost use Rattle.depot_base.specs.Disk.{Only};
ghost use Rattle.depot_base.specs.File.{blocks};
ghost use Rattle.depot_journal.specs.WriteSteps.{StandsTo};
ghost use Rattle.depot_accept.specs.StateView.{IsStateOf};
ghost use Rattle.depot_decide.specs.Deciding.{AreJoined};
ghost use Rattle.depot_node.specs.Holdings.{known, node_setting, with_records};

use depot_accept::{Parents, State};
use depot_base::{Memory, NodeId};
use depot_decide::keep_parents;
use depot_journal::{Detached, Journal, NullDisk};
use depot_model::Scheme;
use depot_outside::Disk;
use depot_readings::{Growth, Readings};
use depot_sign::Roster;
use std::alloc::Global;
use std::marker::Model;

/// The journal of a node on its disk, and what was read off it. A journal that was started is read record by record
/// (`read`); from then on it grows by what is committed. Once the disk failed the store is stopped: it still gives the
/// texts of its records, and nothing more.
#[derive(Drop)]
pub struct Store<D: Disk, S: Scheme> {
    // Once the disk failed, these may be of more records than the journal has.
    pub(crate) readings: Readings<S>,
    pub(crate) journal: Journal<D>,
    // How many of the journal's records were read.
    pub(crate) read: u32,
}

/// A store in memory, the disk from which it was detached, and the offset of the closed gate in the disk's file.
#[derive(Drop)]
pub(crate) struct DetachedStore<D: Disk, S: Scheme> {
    pub(crate) store: Store<NullDisk, S>,
    pub(crate) disk: D,
    pub(crate) gate: u64,
}

impl<D: Disk, S: Scheme> Model for Store<D, S> {
    ghost use Rattle.std.specs.Prelude.{◌≡◌, ◌≤◌, take, drop, length, false};
    ghost use Rattle.depot_node.specs.Holdings.{Holding, holding_code};
    ghost use Rattle.depot_node.specs.JournalRecords.{AreRecordTexts, records_in_texts};

    ghost Value = { Holding D };

    ghost coded = { holding_code D.code };

    ghost view = { λ s. record {
      me = s.readings.me;
      listed = s.readings.listed;
      records = records_in_texts (take s.read s.journal.records);
      unread = drop s.read s.journal.records;
      stopped = s.journal.is_stopped;
      disk = s.journal.disk;
    } };

    ghost invariant = { λ s. AreRecordTexts (take s.read s.journal.records) × (s.read ≤ length s.journal.records)
        × (s.journal.is_stopped ≡ false → s.readings.records ≡ records_in_texts (take s.read s.journal.records)) };
}

impl<D: Disk, S: Scheme> Store<D, S> {
    /// The store of a journal with no record read yet. It takes no memory.
    pub fn new(alloc: Global, state: State<S>, journal: Journal<D>) -> Store<D, S>
        requires { IsStateOf [] state }
        ensures { result ≡ record { me = state.me; listed = state.listed; records = []; unread = journal.records; stopped = journal.is_stopped; disk = journal.disk } }
    {
        Store {
            readings: Readings::new(alloc, state),
            journal,
            read: 0,
        }
    }

    /// What was read off the records, for a store that runs. It takes no memory.
    pub fn readings(&self) -> &Readings<S>
        requires { self.now.stopped ≡ false }
        ensures { result.now ≡ known self.now }
    {
        &self.readings
    }

    /// Reads the first record that wasn't read yet; it is given decoded, with the parents of its update if it has them.
    /// Its text isn't encoded, and the disk isn't accessed. On `Memory` all is unchanged.
    pub(crate) fn read(&mut self, new: Growth, parents: Option<Parents>) -> Result<(), Memory>
        requires runs { self.old.stopped ≡ false }
        requires next { (rest : List (List ℕ)) × (self.old.unread ≡ map text_of_record new ++ rest) }
        requires lawful { IsLawful (node_setting S.verifies self.old) (self.old.records ++ new) }
        requires joined { AreJoined (accepted self.old.records) parents }
        ensures ok { OnOk result (self.new ≡ with_records self.old (self.old.records ++ new) (drop (length new) self.old.unread)) }
        ensures err { OnErr result (self.new ≡ self.old) }
    {
        let count = new.count() as u32;
        keep_parents(&mut self.readings, parents);
        self.readings.read(new)?;
        self.read += count;
        Ok(())
    }

    /// The text of the first record that wasn't read yet. It takes no memory.
    pub(crate) fn unread(&self) -> Option<&[u8]>
        ensures none { result ≡ None → self.now.unread ≡ [] }
        ensures some { (text : List ℕ) → option_copied result ≡ Some text → (rest : List (List ℕ)) × (self.now.unread ≡ text ∷ rest) }
    {
        if self.read < self.journal.count() {
            Some(self.journal.text(self.read))
        } else {
            None
        }
    }

    /// The journal's disk, of a stopped one too. It takes no memory.
    pub fn into_disk(self) -> D
        ensures { result ≡ self.disk }
    {
        let Store {
            journal,
            readings,
            ..
        } = self;
        drop(readings);
        journal.into_disk()
    }

    /// Detaches the store from its disk: it goes on in memory. It takes no memory.
    pub(crate) fn detach(self) -> DetachedStore<D, S>
        ensures me { result.store.me ≡ self.me }
        ensures listed { result.store.listed ≡ self.listed }
        ensures records { result.store.records ≡ self.records }
        ensures unread { result.store.unread ≡ self.unread }
        ensures stopped { result.store.stopped ≡ self.stopped }
        ensures disk { result.disk ≡ self.disk }
        ensures gate { self.unread ≡ [] → result.gate ≡ length (blocks (map text_of_record self.records)) }
        ensures stands { self.unread ≡ [] → self.stopped ≡ false → IsTrue (D.tells self.disk) → StandsTo (D.seen self.disk) (map text_of_record self.records) result.gate }
        ensures stable { self.stopped ≡ false → IsTrue (D.tells self.disk) → Only (D.seen self.disk) (D.may_leave self.disk) }
    {
        let Store {
            readings,
            journal,
            read,
        } = self;
        let Detached {
            journal,
            disk,
            gate,
        } = journal.detach();
        DetachedStore {
            store: Store {
                readings,
                journal,
                read,
            },
            disk,
            gate,
        }
    }

    /// Whether the disk has failed. The records are in each crash image. It takes no memory.
    pub fn is_stopped(&self) -> bool
        ensures stopped { result ≡ self.now.stopped }
        ensures stable { self.now.unread ≡ [] → IsTrue (D.tells self.now.disk) → LeavesAll self.now.records self.now.stopped (D.may_leave self.now.disk) }
    {
        self.journal.is_stopped()
    }

    /// The node's own number. It takes no memory.
    pub fn me(&self) -> NodeId
        ensures { result ≡ self.now.me }
    {
        self.readings.me()
    }

    /// The roster. It takes no memory.
    pub fn roster(&self) -> &Roster
        ensures { result.now ≡ self.now.listed }
    {
        self.readings.roster()
    }

    /// How many records were read. It takes no memory.
    pub fn count(&self) -> u32
        ensures { result ≡ length self.now.records }
    {
        self.read
    }

    /// The text of the record of a place, from 0. It takes no memory.
    pub fn text(&self, place: u32) -> &[u8]
        requires { place < length self.now.records }
        ensures { slice_get (map text_of_record self.now.records) place ≡ Some result.now }
    {
        self.journal.text(place)
    }
}
