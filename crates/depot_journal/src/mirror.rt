//! A disk, and a mirror of its records in memory.
ghost use Rattle.std.specs.Prelude.{◌≡◌, ◌++◌, ◌+◌, ◌<◌, ◌≤◌, ◌^◌, ◌∷◌, [], IsTrue, IsErr, IsOk, OnOk, OnErr, length, vec_len, vec_capacity};
ghost use Rattle.depot_base.specs.Calls.{calls_to_append, calls_to_append_all};
ghost use Rattle.depot_base.specs.Disk.{LeavesOnly};
ghost use Rattle.depot_base.specs.File.{blocks, closed_block};
ghost use Rattle.depot_base.specs.WithRest.{with_rest};
ghost use Rattle.depot_journal.specs.DiskCalls.{IsDiskCall, MakesOnDisk};
ghost use Rattle.depot_journal.specs.Mirrored.{HasSpaceFor, IsMirror, StandsOnDisk, TakesSpace, mirror_records};
ghost use Rattle.depot_journal.specs.WriteSteps.{FailsAt, IsBeforeOrAfter, StandsBetween};

use crate::span::Span;
use crate::write::append_on;
use depot_base::Bytes;
use depot_outside::{Disk, Failed};

/// A disk, and in memory the bytes of its file up to the closed gate, with the span of each record's body in them.
#[derive(Drop)]
pub struct Mirror<D: Disk> {
    pub disk: D,
    pub bytes: Vec<u8>,
    pub spans: Vec<Span>,
}

/// Appends a record's block in memory, with its gate open and a closed gate after it; its text comes in two parts.
/// Memory for it is reserved.
#[tactic(auto, unfolding(depot_base::specs::File::framed, depot_base::specs::Cursor::numeral))]
fn put_block(bytes: &mut Vec<u8>, head: &[u8], rest: &[u8])
    requires room { vec_len bytes.old + (6 + length (head.now ++ rest.now)) ≤ vec_capacity bytes.old }
    requires short { length (head.now ++ rest.now) < 2 ^ 32 }
    ensures block { bytes.new.items ≡ bytes.old.items ++ (1 ∷ closed_block (head.now ++ rest.now)) }
    ensures capacity { vec_capacity bytes.old ≤ vec_capacity bytes.new }
{
    let size = (head.len() + rest.len()) as u32;
    let _ = bytes.push(1);
    let _ = bytes.extend_from_slice(&size.to_be_bytes());
    let _ = bytes.extend_from_slice(head);
    let _ = bytes.extend_from_slice(rest);
    let _ = bytes.push(0);
}

/// Appends one record to the disk and the mirror; its text comes in two parts, and memory for it is reserved. On
/// `Failed` it may be on the disk, and the mirror is unchanged.
fn append_one<D: Disk>(mirror: &mut Mirror<D>, head: &[u8], rest: &[u8]) -> Result<(), Failed>
    requires mirror { IsMirror mirror.old.bytes.items mirror.old.spans.items }
    requires space { HasSpaceFor D.Disk mirror.old 1 (5 + length (head.now ++ rest.now)) }
    requires short { vec_len mirror.old.bytes + (6 + length (head.now ++ rest.now)) ≤ 2 ^ 30 }
    requires rests { StandsOnDisk D.Disk mirror.old }
    ensures mirror { IsMirror mirror.new.bytes.items mirror.new.spans.items }
    ensures bodies { OnOk result (mirror_records mirror.new ≡ mirror_records mirror.old ++ (head.now ++ rest.now) ∷ []) }
    ensures kept { OnErr result (mirror_records mirror.new ≡ mirror_records mirror.old) }
    ensures rests { OnOk result (StandsOnDisk D.Disk mirror.new) }
    ensures any_moment { IsTrue (D.tells mirror.old.disk) → LeavesOnly D.moment D.left_since mirror.old.disk mirror.new.disk (IsBeforeOrAfter (mirror_records mirror.old) ((head.now ++ rest.now) ∷ [])) }
    ensures disk { IsDiskCall D.Disk mirror.old.disk mirror.new.disk (IsErr result) }
    ensures made { MakesOnDisk D.Disk mirror.old.disk mirror.new.disk (calls_to_append (vec_len mirror.old.bytes) (head.now ++ rest.now)) (IsOk result) (IsErr result) }
    ensures space { TakesSpace D.Disk mirror.old mirror.new 1 (5 + length (head.now ++ rest.now)) }
{
    let gate = mirror.bytes.len();
    put_block(&mut mirror.bytes, head, rest);
    let end = mirror.bytes.len() - 1;
    let outcome = append_on(&mut mirror.disk, gate as u64, &mirror.bytes[gate + 1..]);
    if outcome.is_err() {
        mirror.bytes.truncate(gate);
        return Err(Failed);
    }
    mirror.bytes.truncate(end);
    let _ = mirror.spans.push(Span {
        start: gate as u32 + 5,
        end: end as u32,
    });
    Ok(())
}

/// What follows the text of this place in its record: `rest` after the last of `count`, and nothing after another.
fn rest_behind(place: usize, count: usize, rest: &[u8]) -> &[u8]
    requires { place < count }
    ensures last { place + 1 ≡ count → result.now ≡ rest.now }
    ensures other { place + 1 < count → result.now ≡ [] }
{
    if place + 1 == count { rest } else { &[] }
}

/// Appends records, for which memory is reserved; `rest` follows the last text. On `Failed` the mirror has those before
/// the failing one.
pub fn append_each<D: Disk>(
    mirror: &mut Mirror<D>,
    texts: &[Bytes],
    rest: &[u8],
) -> Result<(), Failed>
    requires mirror { IsMirror mirror.old.bytes.items mirror.old.spans.items }
    requires space { HasSpaceFor D.Disk mirror.old (length (with_rest texts.now rest.now)) (length (blocks (with_rest texts.now rest.now))) }
    requires short { vec_len mirror.old.bytes + length (blocks (with_rest texts.now rest.now)) + 1 ≤ 2 ^ 30 }
    requires rests { StandsOnDisk D.Disk mirror.old }
    ensures mirror { IsMirror mirror.new.bytes.items mirror.new.spans.items }
    ensures bodies { OnOk result (mirror_records mirror.new ≡ mirror_records mirror.old ++ with_rest texts.now rest.now) }
    ensures fails { OnErr result (FailsAt (mirror_records mirror.old) (with_rest texts.now rest.now) (mirror_records mirror.new) (IsTrue (D.tells mirror.old.disk)) (D.may_leave mirror.new.disk)) }
    ensures rests { OnOk result (StandsOnDisk D.Disk mirror.new) }
    ensures any_moment { IsTrue (D.tells mirror.old.disk) → LeavesOnly D.moment D.left_since mirror.old.disk mirror.new.disk (StandsBetween (mirror_records mirror.old) (with_rest texts.now rest.now)) }
    ensures disk { IsDiskCall D.Disk mirror.old.disk mirror.new.disk (IsErr result) }
    ensures made { MakesOnDisk D.Disk mirror.old.disk mirror.new.disk (calls_to_append_all (vec_len mirror.old.bytes) (with_rest texts.now rest.now)) (IsOk result) (IsErr result) }
    ensures space { TakesSpace D.Disk mirror.old mirror.new (length (with_rest texts.now rest.now)) (length (blocks (with_rest texts.now rest.now))) }
{
    for (place, text) in texts.iter().enumerate() {
        let behind = rest_behind(place, texts.len(), rest);
        append_one(mirror, text.as_slice(), behind)?;
    }
    Ok(())
}
