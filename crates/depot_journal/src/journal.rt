//! The calls of a journal.
ghost use Rattle.std.specs.Prelude.{◌≡◌, ◌≢◌, ◌++◌, ◌<◌, ◌≤◌, [], false, IsTrue, IsOk, OnOk, IfOk, IfErr, IsErrOf, Some, length, slice_get};
ghost use Rattle.depot_base.specs.Calls.{calls_to_start};
ghost use Rattle.depot_base.specs.Disk.{LeavesOnly, Only};
ghost use Rattle.depot_base.specs.File.{AreWithinLimits, HasBodyFront, AreBodiesCutShort, FitsFile, IsFileOf, PassesLimit, StartLeavesFile, blocks};
ghost use Rattle.depot_journal.specs.JournalView.{HasMemoryFor};
ghost use Rattle.depot_journal.specs.JournalAnswers.{HasRoomLeft, IsDamage, IsDiskFailure, IsJournalUnchanged, KeepsLimits, LeavesRunning, MakesCalls, StopsByAnswer, UnlessDisk, disk_of};
ghost use Rattle.depot_journal.specs.Stable.{IsStarted, LeavesAllBodies};
ghost use Rattle.depot_journal.specs.WriteSteps.{StandsTo};
ghost use Rattle.depot_base.specs.WithRest.{with_rest};
ghost use Rattle.depot_journal.specs.DiskCalls.{IsDiskCall, MakesOnDisk, OnlyReserves};

use crate::journal_error::{AppendError, JournalError};
use crate::journal_room::{Room, bytes_of, find_room, room_for};
use crate::journal_start::{FoundFile, start_on};
use crate::mirror::{Mirror, append_each};
use crate::null_disk::NullDisk;
use depot_base::{Bytes, Full, Memory};
use depot_outside::{Back, Disk};
use std::alloc::Global;
use std::marker::Model;

/// A list of records on a disk. Contracts see the records, the disk, whether the journal is stopped, and for how many
/// more records and bytes of bodies memory is reserved.
///
/// While it isn't stopped, the file has these records, and it is the only crash image. Once it is stopped, each crash
/// image has them, followed at most by the one on which the disk failed.
#[derive(Drop)]
pub struct Journal<D: Disk> {
    mirror: Mirror<D>,
    room: Room,
    stopped: bool,
}

/// A journal in memory, the disk from which it was detached, and the offset of the closed gate in the disk's file.
#[derive(Drop)]
pub struct Detached<D: Disk> {
    /// The records: what is appended to them reaches no disk.
    pub journal: Journal<NullDisk>,
    /// The disk, as the journal left it.
    pub disk: D,
    /// The offset of the closed gate, at which a group is appended.
    pub gate: u64,
}

impl<D: Disk> Model for Journal<D> {
    ghost use Rattle.std.specs.Prelude.{◌≡◌, IsTrue, false, vec_len};
    ghost use Rattle.depot_base.specs.Disk.{Only};
    ghost use Rattle.depot_journal.specs.JournalView.{IsReservedIn, JournalContents, view_code};
    ghost use Rattle.depot_base.specs.File.{AreWithinLimits};
    ghost use Rattle.depot_journal.specs.Mirrored.{IsMirror, mirror_records};
    ghost use Rattle.depot_journal.specs.Stable.{LeavesAllBodies};
    ghost use Rattle.depot_journal.specs.WriteSteps.{StandsTo};

    ghost Value = { JournalContents D };

    ghost coded = { view_code D.code };

    ghost view = { λ j. record { records = mirror_records j.mirror; disk = j.mirror.disk; is_stopped = j.stopped; room_records = j.room.records; room_bytes = j.room.bytes } };

    ghost invariant = { λ j. IsMirror j.mirror.bytes.items j.mirror.spans.items × AreWithinLimits (mirror_records j.mirror)
        × IsReservedIn D.Disk j.mirror j.room
        × (j.stopped ≡ false → IsTrue (D.tells j.mirror.disk) → StandsTo (D.seen j.mirror.disk) (mirror_records j.mirror) (vec_len j.mirror.bytes) × Only (D.seen j.mirror.disk) (D.may_leave j.mirror.disk))
        × (IsTrue (D.tells j.mirror.disk) → LeavesAllBodies (mirror_records j.mirror) j.stopped (D.may_leave j.mirror.disk)) };
}

impl<D: Disk> Journal<D> {
    /// How many records there are.
    pub fn count(&self) -> u32
        ensures { result ≡ length self.now.records }
    {
        self.mirror.spans.len() as u32
    }

    /// The text of the record at a place, counted from 0.
    pub fn text(&self, place: u32) -> &[u8]
        requires { place < length self.now.records }
        ensures { slice_get self.now.records place ≡ Some result.now }
    {
        let span = self.mirror.spans[place as usize];
        &self.mirror.bytes[span.start as usize..span.end as usize]
    }

    /// Whether an append failed on the disk. The journal then accesses the disk no more; start it again from the disk.
    /// Stopped or not, its records keep to the limits.
    pub fn is_stopped(&self) -> bool
        ensures stopped { result ≡ self.now.is_stopped }
        ensures stable { IsTrue (D.tells self.now.disk) → LeavesAllBodies self.now.records self.now.is_stopped (D.may_leave self.now.disk) }
        ensures within { AreWithinLimits self.now.records }
    {
        self.stopped
    }

    /// Returns the disk as it is, also of a stopped journal. It takes no memory.
    pub fn into_disk(self) -> D
        ensures { result ≡ self.disk }
    {
        self.mirror.disk
    }

    /// Detaches the journal from its disk: it goes on in memory. What is appended to it is to be appended to the
    /// disk's file, too, by [`append_group`](crate::append_group). It takes no memory.
    pub fn detach(self) -> Detached<D>
        ensures records { result.journal.records ≡ self.records }
        ensures stopped { result.journal.is_stopped ≡ self.is_stopped }
        ensures disk { result.disk ≡ self.disk }
        ensures gate { result.gate ≡ length (blocks self.records) }
        ensures stands { self.is_stopped ≡ false → IsTrue (D.tells self.disk) → StandsTo (D.seen self.disk) self.records result.gate }
        ensures stable { self.is_stopped ≡ false → IsTrue (D.tells self.disk) → Only (D.seen self.disk) (D.may_leave self.disk) }
    {
        let Mirror { disk, bytes, spans } = self.mirror;
        let gate = bytes.len() as u64;
        let journal = Journal {
            mirror: Mirror {
                disk: NullDisk,
                bytes,
                spans,
            },
            room: self.room,
            stopped: self.stopped,
        };
        Detached {
            journal,
            disk,
            gate,
        }
    }

    /// Reserves memory for `records` more records, with `bytes` bytes of bodies in all: appending them then never
    /// returns Memory. No record and no byte of the file changes, whatever is answered.
    pub fn reserve(&mut self, records: u32, bytes: u32) -> Result<(), Memory>
        ensures records { OnOk result (records ≤ self.new.room_records) }
        ensures bytes { OnOk result (bytes ≤ self.new.room_bytes) }
        ensures records_kept { self.old.room_records ≤ self.new.room_records }
        ensures bytes_kept { self.old.room_bytes ≤ self.new.room_bytes }
        ensures found { records ≤ self.old.room_records → bytes ≤ self.old.room_bytes → IsOk result }
        ensures same { self.new.records ≡ self.old.records }
        ensures running { self.new.is_stopped ≡ self.old.is_stopped }
        ensures disk { OnlyReserves D.Disk self.old.disk self.new.disk }
    {
        find_room(&mut self.mirror, &mut self.room, records, bytes)
    }
}

impl<D: Disk> Journal<D> {
    /// Whether `records` more records, which take `bytes` bytes in the file, keep to the limits of a journal. A record
    /// takes its text and five bytes. `Full` has the limit that they pass, and how many records or bytes the file has.
    pub fn room(&self, records: u32, bytes: u32) -> Result<(), Full>
        ensures room { OnOk result (FitsFile self.now.records records bytes) }
        ensures full { IfErr result (λ full. PassesLimit self.now.records records bytes full.what full.number) }
    {
        room_for(
            self.count(),
            self.mirror.bytes.len() as u64,
            records as u64,
            bytes as u64,
        )
    }
}

impl<D: Disk> Journal<D> {
    /// Appends the records of these texts and syncs them; `rest` is appended to the last text. Without texts it appends
    /// nothing. Memory and limits are checked for all of them before the first write; where memory was reserved for
    /// them, it doesn't run out.
    ///
    /// On `Memory` and `Full` the records, the file and the crash images are unchanged, and reserved memory stays
    /// reserved. On `Disk` the records before the failing one are stable, the failing one may be, and the journal is
    /// stopped. On `Stopped` nothing has changed.
    pub fn append_all(&mut self, texts: &[Bytes], rest: &[u8]) -> Result<(), AppendError>
        ensures ok { OnOk result (self.new.records ≡ self.old.records ++ with_rest texts.now rest.now) }
        ensures unchanged { UnlessDisk result (IsJournalUnchanged D.tells D.seen D.may_leave D.moment D.left_since self.old self.new) }
        ensures disk { IsErrOf result AppendError.Disk → AreBodiesCutShort self.old.records (with_rest texts.now rest.now) self.new.records (IsTrue (D.tells self.old.disk)) (D.may_leave self.new.disk) }
        ensures stops { StopsByAnswer self.old self.new result }
        ensures limits { KeepsLimits self.old.records (length (with_rest texts.now rest.now)) (length (blocks (with_rest texts.now rest.now))) result }
        ensures memory { HasMemoryFor self.old (with_rest texts.now rest.now) → IsErrOf result AppendError.Memory → ⊥ }
        ensures room { OnOk result (HasRoomLeft self.old self.new (with_rest texts.now rest.now)) }
        ensures calls { MakesCalls D.Disk self.old self.new (with_rest texts.now rest.now) result }
        ensures file { IsTrue (D.tells self.old.disk) → self.new.is_stopped ≡ false → IsFileOf (D.seen self.new.disk) self.new.records }
        ensures stable { IsTrue (D.tells self.old.disk) → self.new.is_stopped ≡ false → Only (D.seen self.new.disk) (D.may_leave self.new.disk) }
        // Whatever was answered, every crash image has all records of the journal.
        ensures stands { IsTrue (D.tells self.old.disk) → LeavesAllBodies self.new.records self.new.is_stopped (D.may_leave self.new.disk) }
        // Every crash image of the call has the records from before the call, and then a prefix of the new ones.
        ensures any_moment { LeavesRunning D.tells D.moment D.left_since self.old self.new (HasBodyFront self.old.records (with_rest texts.now rest.now)) }
    {
        if self.stopped {
            return Err(AppendError::Stopped);
        }
        let long = bytes_of(texts, rest);
        if let Err(full) = room_for(
            self.count(),
            self.mirror.bytes.len() as u64,
            texts.len() as u64,
            long,
        ) {
            return Err(AppendError::Full(full));
        }
        let records = texts.len() as u32;
        let bytes = long as u32 - 5 * records;
        if find_room(&mut self.mirror, &mut self.room, records, bytes).is_err() {
            return Err(AppendError::Memory);
        }
        self.stopped = true;
        if append_each(&mut self.mirror, texts, rest).is_err() {
            self.room = Room {
                records: 0,
                bytes: 0,
            };
            return Err(AppendError::Disk);
        }
        self.room.records -= records;
        self.room.bytes -= bytes;
        self.stopped = false;
        Ok(())
    }
}

impl<D: Disk> Journal<D> {
    /// Syncs a disk and reads its records. A file of at most one byte has none, and gets a closed gate.
    ///
    /// A longer file stays as it is. `Damaged` comes exactly where the file is damaged, with the offset. On `Damaged`
    /// and `Memory` the file reads as before, on `Disk` as a crash image of the call. If the file is longer than a
    /// journal may be, only its first bytes are read.
    pub fn start(alloc: Global, disk: D) -> Result<Journal<D>, Back<JournalError, D>>
        ensures running { IfOk result (λ j. j.is_stopped ≡ false) }
        // The records are those of the file, and the file now has them, synced.
        ensures read { IfOk result (λ j. IsTrue (D.tells disk) → IsFileOf (D.seen disk) j.records) }
        ensures file { IfOk result (λ j. IsTrue (D.tells disk) → IsFileOf (D.seen j.disk) j.records) }
        ensures within { IfOk result (λ j. AreWithinLimits j.records) }
        ensures stable { IfOk result (λ j. IsTrue (D.tells disk) → Only (D.seen j.disk) (D.may_leave j.disk)) }
        ensures started { IfOk result (λ j. IsTrue (D.tells disk) → IsStarted (D.seen disk) (D.seen j.disk)) }
        ensures same { IfOk result (λ j. j.records ≢ [] → D.seen j.disk ≡ D.seen disk) }

        ensures damaged { IfErr result (λ b. IsTrue (D.tells disk) → IsDamage (D.seen disk) b.error) }
        ensures kept { IfErr result (λ b. b.error ≢ JournalError.Disk → D.seen b.disk ≡ D.seen disk) }

        // The crash images of the call.
        ensures any_moment { IsTrue (D.tells disk) → LeavesOnly D.moment D.left_since disk (disk_of result) (StartLeavesFile (D.may_leave disk) (D.seen disk)) }

        ensures disk { IsDiskCall D.Disk disk (disk_of result) (IsDiskFailure result) }
        ensures made { IsTrue (D.tells disk) → MakesOnDisk D.Disk disk (disk_of result) (calls_to_start (D.seen disk)) (IsOk result) (IsDiskFailure result) }
    {
        let mut disk = disk;
        match start_on(alloc, &mut disk) {
            Ok(FoundFile { bytes, spans }) => Ok(Journal {
                mirror: Mirror { disk, bytes, spans },
                room: Room {
                    records: 0,
                    bytes: 0,
                },
                stopped: false,
            }),
            Err(error) => Err(Back { error, disk }),
        }
    }
}
