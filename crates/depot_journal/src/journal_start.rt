//! A journal that is read from its disk.
ghost use Rattle.std.specs.Prelude.{◌≡◌, ◌≢◌, ◌≤◌, ◌<◌, ◌∷◌, [], List, ℕ, min, IsTrue, IsErr, IsOk, is_err, IfErr, IfOk, IsErrOf, OnOk, length, slice_range, vec_len};
ghost use Rattle.depot_base.specs.Calls.{asks_length, calls_to_start, reads_at, syncs};
ghost use Rattle.depot_base.specs.Disk.{LeavesOnly, Only};
ghost use Rattle.depot_journal.specs.DiskCalls.{IsDiskCall, MakesOnDisk};
ghost use Rattle.depot_journal.specs.JournalAnswers.{IsDamage, SaysDamaged};
ghost use Rattle.depot_base.specs.File.{AreWithinLimits, IsFileOf, StartLeavesFile};
ghost use Rattle.depot_journal.specs.Mirrored.{IsMirror, bodies_at};
ghost use Rattle.depot_journal.specs.Stable.{IsStarted};
ghost use Rattle.depot_journal.specs.WriteSteps.{StandsTo};

use crate::file_parse::parse;
use crate::journal_error::JournalError;
use crate::span::Span;
use crate::write::write_synced;
use depot_base::Memory;
use depot_base::limits::MOST_JOURNAL;
use depot_outside::{Disk, Failed, spare_beside};
use std::alloc::Global;

/// The records of a disk: the bytes of their blocks, and where each body is in them.
#[derive(Drop)]
pub struct FoundFile {
    pub bytes: Vec<u8>,
    pub spans: Vec<Span>,
}

/// A list of `count` zeros, with the spare capacity of a growing list of this length, so that the first append moves
/// nothing.
fn zeros(alloc: Global, count: usize) -> Result<Vec<u8>, Memory>
    ensures { IfOk result (λ bytes. vec_len bytes ≡ count) }
{
    let mut bytes = Vec::with_capacity(alloc, count.saturating_add(spare_beside(count)))?;
    bytes.resize(count, 0)?;
    Ok(bytes)
}

/// Reserves the memory that a start may need, syncs the disk, and returns the length of its file.
fn settle<D: Disk>(disk: &mut D) -> Result<u64, JournalError>
    ensures length { IsTrue (D.tells disk.old) → IfOk result (λ n. n ≡ length (D.seen disk.old)) }
    ensures stable { OnOk result (IsTrue (D.tells disk.old) → Only (D.seen disk.old) (D.may_leave disk.new)) }
    ensures seen { OnOk result (D.seen disk.new ≡ D.seen disk.old) }
    ensures any_moment { LeavesOnly D.moment D.left_since disk.old disk.new (D.may_leave disk.old) }
    ensures disk { IsDiskCall D.Disk disk.old disk.new (IsErrOf result JournalError.Disk) }
    ensures made { MakesOnDisk D.Disk disk.old disk.new (syncs ∷ asks_length ∷ []) (IsOk result) (IsErrOf result JournalError.Disk) }
    ensures room { OnOk result (1 ≤ D.room_bytes disk.new) }
    ensures calls { OnOk result (2 ≤ D.room_calls disk.new) }
    ensures damaged { IfErr result (λ e. SaysDamaged e → ⊥) }
    ensures unchanged { IfErr result (λ e. e ≢ JournalError.Disk → D.seen disk.new ≡ D.seen disk.old) }
{
    disk.make_room(1, 3)?;
    disk.sync()?;
    Ok(disk.length()?)
}

/// Reads the first bytes of the file.
fn read_front<D: Disk>(disk: &mut D, bytes: &mut Vec<u8>) -> Result<(), Failed>
    requires { IsTrue (D.tells disk.old) → vec_len bytes.old ≤ length (D.seen disk.old) }
    ensures front { OnOk result (IsTrue (D.tells disk.old) → bytes.new.items ≡ slice_range (D.seen disk.old) 0 (vec_len bytes.old)) }
    ensures long { vec_len bytes.new ≡ vec_len bytes.old }
    ensures seen { OnOk result (D.seen disk.new ≡ D.seen disk.old) }
    ensures stable { (file : List ℕ) → Only file (D.may_leave disk.old) → Only file (D.may_leave disk.new) }
    ensures any_moment { LeavesOnly D.moment D.left_since disk.old disk.new (D.may_leave disk.old) }
    ensures made { D.after disk.old (record { call = reads_at 0 (vec_len bytes.old); failed = is_err result } ∷ []) disk.new }
    ensures disk { IsDiskCall D.Disk disk.old disk.new (IsErr result) }
{
    disk.read(0, bytes)
}

/// Reads the records of a file of `size` bytes, which is more than one.
fn read_records<D: Disk>(alloc: Global, disk: &mut D, size: u64) -> Result<FoundFile, JournalError>
    requires long { 2 ≤ size }
    requires file { IsTrue (D.tells disk.old) → size ≡ length (D.seen disk.old) }
    ensures mirror { IfOk result (λ f. IsMirror f.bytes.items f.spans.items) }
    ensures within { IfOk result (λ f. AreWithinLimits (bodies_at f.bytes.items f.spans.items)) }
    ensures stands { IfOk result (λ f. IsTrue (D.tells disk.old) → StandsTo (D.seen disk.old) (bodies_at f.bytes.items f.spans.items) (vec_len f.bytes)) }
    ensures seen { OnOk result (D.seen disk.new ≡ D.seen disk.old) }
    ensures damaged { IfErr result (λ e. IsTrue (D.tells disk.old) → IsDamage (D.seen disk.old) e) }
    ensures unchanged { IfErr result (λ e. e ≢ JournalError.Disk → D.seen disk.new ≡ D.seen disk.old) }
    ensures stable { (file : List ℕ) → Only file (D.may_leave disk.old) → Only file (D.may_leave disk.new) }
    ensures any_moment { LeavesOnly D.moment D.left_since disk.old disk.new (D.may_leave disk.old) }
    ensures disk { IsDiskCall D.Disk disk.old disk.new (IsErrOf result JournalError.Disk) }
    ensures made { MakesOnDisk D.Disk disk.old disk.new (reads_at 0 (min size MOST_JOURNAL) ∷ []) (IsOk result) (IsErrOf result JournalError.Disk) }
{
    let mut bytes = zeros(alloc, size.min(MOST_JOURNAL as u64) as usize)?;
    read_front(disk, &mut bytes)?;
    let parsed = match parse(alloc, &bytes) {
        Ok(parsed) => parsed,
        Err(error) => return Err(error),
    };
    bytes.truncate(parsed.end);
    Ok(FoundFile {
        bytes,
        spans: parsed.spans,
    })
}

/// Syncs the disk and reads its records. A file of at most one byte gets a closed gate.
pub fn start_on<D: Disk>(alloc: Global, disk: &mut D) -> Result<FoundFile, JournalError>
    ensures mirror { IfOk result (λ f. IsMirror f.bytes.items f.spans.items) }
    ensures within { IfOk result (λ f. AreWithinLimits (bodies_at f.bytes.items f.spans.items)) }
    ensures stands { IfOk result (λ f. IsTrue (D.tells disk.old) → StandsTo (D.seen disk.new) (bodies_at f.bytes.items f.spans.items) (vec_len f.bytes)) }
    ensures stable { OnOk result (IsTrue (D.tells disk.old) → Only (D.seen disk.new) (D.may_leave disk.new)) }
    ensures started { OnOk result (IsTrue (D.tells disk.old) → IsStarted (D.seen disk.old) (D.seen disk.new)) }
    ensures same { IfOk result (λ f. bodies_at f.bytes.items f.spans.items ≢ [] → D.seen disk.new ≡ D.seen disk.old) }
    ensures file { IfOk result (λ f. IsTrue (D.tells disk.old) → IsFileOf (D.seen disk.old) (bodies_at f.bytes.items f.spans.items)) }
    ensures damaged { IfErr result (λ e. IsTrue (D.tells disk.old) → IsDamage (D.seen disk.old) e) }
    ensures unchanged { IfErr result (λ e. e ≢ JournalError.Disk → D.seen disk.new ≡ D.seen disk.old) }
    ensures any_moment { IsTrue (D.tells disk.old) → LeavesOnly D.moment D.left_since disk.old disk.new (StartLeavesFile (D.may_leave disk.old) (D.seen disk.old)) }
    ensures disk { IsDiskCall D.Disk disk.old disk.new (IsErrOf result JournalError.Disk) }
    ensures made { IsTrue (D.tells disk.old) → MakesOnDisk D.Disk disk.old disk.new (calls_to_start (D.seen disk.old)) (IsOk result) (IsErrOf result JournalError.Disk) }
{
    let size = match settle(disk) {
        Ok(size) => size,
        Err(error) => return Err(error),
    };
    if size > 1 {
        return read_records(alloc, disk, size);
    }
    write_synced(disk, 0, &[0])?;
    Ok(FoundFile {
        bytes: Vec::new(alloc),
        spans: Vec::new(alloc),
    })
}
