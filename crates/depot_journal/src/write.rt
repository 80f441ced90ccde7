//! What an append does to the disk.
ghost use Rattle.std.specs.Prelude.{◌≡◌, ◌+◌, ◌<◌, ◌≤◌, ◌⊎◌, ◌^◌, ◌∷◌, [], List, ℕ, IsTrue, IsErr, IsOk, OnOk, length};
ghost use Rattle.depot_base.specs.Calls.{syncs, writes_at};
ghost use Rattle.depot_base.specs.Disk.{IsTorn, IsWritten, LeavesOnly, Only};
ghost use Rattle.depot_journal.specs.DiskCalls.{IsDiskCall, MakesOnDisk, SpendsRoom};
ghost use Rattle.depot_journal.specs.Groups.{calls_to_open};
ghost use Rattle.depot_journal.specs.WriteSteps.{HasAppended, LeavesBlockOrNot};

use depot_outside::{Disk, Failed};

/// Writes and syncs. Every crash image of the call has what was there, or that with some bytes of the write.
pub fn write_synced<D: Disk>(disk: &mut D, at: u64, bytes: &[u8]) -> Result<(), Failed>
    requires room { length bytes.now ≤ D.room_bytes disk.old }
    requires calls { 2 ≤ D.room_calls disk.old }
    requires inside { IsTrue (D.tells disk.old) → at ≤ length (D.seen disk.old) }
    ensures ok { OnOk result (IsTrue (D.tells disk.old) → IsWritten (D.seen disk.old) at bytes.now (D.seen disk.new)) }
    ensures stable { OnOk result (IsTrue (D.tells disk.old) → Only (D.seen disk.new) (D.may_leave disk.new)) }
    ensures any_moment { (base : List ℕ) → Only base (D.may_leave disk.old) → LeavesOnly D.moment D.left_since disk.old disk.new (λ c. (c ≡ base) ⊎ IsTorn at (length bytes.now) base c) }
    ensures disk { IsDiskCall D.Disk disk.old disk.new (IsErr result) }
    ensures made { MakesOnDisk D.Disk disk.old disk.new (writes_at at bytes.now ∷ syncs ∷ []) (IsOk result) (IsErr result) }
    ensures room { SpendsRoom D.Disk disk.old disk.new (length bytes.now) 2 }
{
    disk.write_at(at, bytes)?;
    disk.sync()
}

/// Writes the block of a group after the closed gate, and then opens the gate.
pub fn append_on<D: Disk>(disk: &mut D, gate: u64, block: &[u8]) -> Result<(), Failed>
    requires room { length block.now + 1 ≤ D.room_bytes disk.old }
    requires calls { 4 ≤ D.room_calls disk.old }
    requires gate { gate < 2 ^ 60 }
    requires inside { IsTrue (D.tells disk.old) → gate < length (D.seen disk.old) }
    ensures ok { OnOk result (HasAppended D.Disk disk.old disk.new gate block.now) }
    ensures stable { OnOk result (IsTrue (D.tells disk.old) → Only (D.seen disk.new) (D.may_leave disk.new)) }
    // Every crash image of the call has the records from before the call, with all of the group or none of it.
    ensures any_moment { LeavesBlockOrNot D.Disk disk.old disk.new gate block.now }
    ensures disk { IsDiskCall D.Disk disk.old disk.new (IsErr result) }
    ensures made { MakesOnDisk D.Disk disk.old disk.new (calls_to_open gate block.now) (IsOk result) (IsErr result) }
    ensures room { SpendsRoom D.Disk disk.old disk.new (length block.now + 1) 4 }
{
    write_synced(disk, gate + 1, block)?;
    write_synced(disk, gate, &[1])
}
