//! Records that are appended together.
ghost use Rattle.std.specs.Prelude.{◌≡◌, ◌≤◌, ◌<◌, ◌+◌, ◌++◌, ◌∷◌, ◌^◌, IsTrue, IsOk, OnOk, IsErrOf, length};
ghost use Rattle.depot_base.specs.Disk.{Only};
ghost use Rattle.depot_base.specs.File.{framed};
ghost use Rattle.depot_journal.specs.DiskCalls.{IsDiskCall, MakesOnDisk, OnlyReserves};
ghost use Rattle.depot_journal.specs.Groups.{calls_to_append_group};
ghost use Rattle.depot_journal.specs.WriteSteps.{AppendsGroup, LeavesGroupOrNot};

use crate::write::append_on;
use depot_base::{Bytes, Memory};
use depot_outside::{Disk, OutError};

/// Adds a record to the bytes of a group: an open gate, the length of its text, and its text.
#[tactic(auto, using(depot_base::proofs::Writing::texts), unfolding(depot_base::specs::File::framed, depot_base::specs::Cursor::numeral))]
pub fn put_in_group(group: &mut Bytes, text: &[u8]) -> Result<(), Memory>
    requires short { length text.now < 2 ^ 32 }
    ensures put { OnOk result (group.new ≡ group.old ++ (1 ∷ framed text.now)) }
{
    group.push_u8(1)?;
    group.push_u32(text.len() as u32)?;
    group.push_all(text)
}

/// Appends the records of a group at the closed gate of a file by two writes, each followed by a sync: one of all, and
/// one of a byte. The next gate is after them.
///
/// On `Memory` nothing was written. On `Failed` the file may have all of the group or none of it.
pub fn append_group<D: Disk>(disk: &mut D, gate: u64, group: Bytes) -> Result<(), OutError>
    requires gate { gate + length group < 2 ^ 60 }
    requires some { 1 ≤ length group }
    requires inside { IsTrue (D.tells disk.old) → gate < length (D.seen disk.old) }
    ensures disk { IsDiskCall D.Disk disk.old disk.new (IsErrOf result OutError.Failed) }
    ensures ok { OnOk result (AppendsGroup D.Disk disk.old disk.new gate group) }
    ensures stable { OnOk result (IsTrue (D.tells disk.old) → Only (D.seen disk.new) (D.may_leave disk.new)) }
    ensures memory { IsErrOf result OutError.Memory → OnlyReserves D.Disk disk.old disk.new }
    // Every crash image of the call has the records from before the call, with all of the group or none of it.
    ensures any_moment { LeavesGroupOrNot D.Disk disk.old disk.new gate group }
    ensures made { MakesOnDisk D.Disk disk.old disk.new (calls_to_append_group gate group) (IsOk result) (IsErrOf result OutError.Failed) }
{
    let mut bytes = group;
    if bytes.push_u8(0).is_err() {
        return Err(OutError::Memory);
    }
    let block = &bytes.as_slice()[1..];
    if disk.make_room(block.len() as u64 + 1, 4).is_err() {
        return Err(OutError::Memory);
    }
    match append_on(disk, gate, block) {
        Ok(()) => Ok(()),
        Err(_) => Err(OutError::Failed),
    }
}
