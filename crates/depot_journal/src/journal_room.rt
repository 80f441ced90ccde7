//! The limits of a journal, and the memory that is reserved before an append.
ghost use Rattle.std.specs.Prelude.{◌≡◌, ◌+◌, ◌-◌, ◌*◌, ◌^◌, ◌≤◌, List, ℕ, OnOk, IfErr, IsOk, length, min, vec_len};
ghost use Rattle.depot_base.specs.File.{FitsFile, PassesLimit, blocks};
ghost use Rattle.depot_journal.specs.JournalView.{IsReservedIn};
ghost use Rattle.depot_base.specs.WithRest.{with_rest};
ghost use Rattle.depot_journal.specs.DiskCalls.{OnlyReserves};

use crate::mirror::Mirror;
use depot_base::limits::{MOST_JOURNAL, MOST_RECORDS};
use depot_base::{Bytes, Full, FullOf, Memory};
use depot_outside::{Disk, reserve_tightly};

/// The records and bytes of bodies for which memory is reserved.
#[derive(Clone, Copy, Debug, PartialEq, Eq)]
pub struct Room {
    pub records: u32,
    pub bytes: u32,
}

/// How many bytes the records of these texts take in the file, with their gates and lengths, where `rest` follows the
/// last text; the greatest number where it is more.
#[tactic(auto, using(crate::proofs::Walk::blocks_next, depot_base::proofs::WithRestLaws::rest_longer, std::proofs::lemmas::List::take_all))]
pub fn bytes_of(texts: &[Bytes], rest: &[u8]) -> u64
    ensures { result ≡ min (length (blocks (with_rest texts.now rest.now))) (2 ^ 64 - 1) }
{
    if texts.is_empty() {
        return 0;
    }
    let mut bytes = rest.len() as u64;
    for text in texts {
        bytes = bytes.saturating_add(text.as_slice().len() as u64 + 5);
    }
    bytes
}

/// Whether `records` records and `bytes` bytes more keep to the limits, where there are `held` records, of `long` bytes
/// without the last gate.
pub fn room_for(held: u32, long: u64, records: u64, bytes: u64) -> Result<(), Full>
    requires held { held ≤ MOST_RECORDS }
    requires long { 1 + long ≤ MOST_JOURNAL }
    ensures room { OnOk result ((bodies : List (List ℕ)) → held ≡ length bodies → long ≡ length (blocks bodies) → FitsFile bodies records bytes) }
    ensures full { IfErr result (λ full. (bodies : List (List ℕ)) → held ≡ length bodies → long ≡ length (blocks bodies) → PassesLimit bodies records bytes full.what full.number) }
{
    if records > (MOST_RECORDS - held) as u64 {
        return Err(Full {
            what: FullOf::Records,
            number: held,
        });
    }
    if bytes > MOST_JOURNAL as u64 - 1 - long {
        return Err(Full {
            what: FullOf::Bytes,
            number: long as u32 + 1,
        });
    }
    Ok(())
}

/// Reserves memory for `records` more records and `bytes` more bytes, beyond what was reserved before.
pub fn find_room<D: Disk>(
    mirror: &mut Mirror<D>,
    room: &mut Room,
    records: u32,
    bytes: u32,
) -> Result<(), Memory>
    requires held { vec_len mirror.old.spans ≤ MOST_RECORDS }
    requires long { vec_len mirror.old.bytes ≤ MOST_JOURNAL }
    requires reserved { IsReservedIn D.Disk mirror.old room.old }
    ensures reserved { IsReservedIn D.Disk mirror.new room.new }
    ensures records { OnOk result (records ≤ room.new.records) }
    ensures bytes { OnOk result (bytes ≤ room.new.bytes) }
    ensures records_kept { room.old.records ≤ room.new.records }
    ensures bytes_kept { room.old.bytes ≤ room.new.bytes }
    ensures found { records ≤ room.old.records → bytes ≤ room.old.bytes → IsOk result }
    ensures spans_same { mirror.new.spans.items ≡ mirror.old.spans.items }
    ensures bytes_same { mirror.new.bytes.items ≡ mirror.old.bytes.items }
    ensures disk { OnlyReserves D.Disk mirror.old.disk mirror.new.disk }
{
    if records <= room.records && bytes <= room.bytes {
        return Ok(());
    }
    let records = records.max(room.records);
    let bytes = bytes.max(room.bytes);
    let most = records.min(MOST_RECORDS - mirror.spans.len() as u32);
    // A record takes its body, a length of 4 bytes and a gate, and the next gate is written with it.
    let written = 6 * most as u64 + bytes as u64;
    reserve_tightly(&mut mirror.spans, most as usize)?;
    reserve_tightly(&mut mirror.bytes, written as usize)?;
    mirror.disk.make_room(written, 4 * most)?;
    *room = Room { records, bytes };
    Ok(())
}
