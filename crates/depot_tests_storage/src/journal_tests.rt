//! A journal on a disk in memory, whose calls fail one by one; files that are good, cut and damaged.

use depot_base::{Bytes, Full, FullOf, Items, Memory};
use depot_journal::*;
use depot_outside::MemDisk;
use std::alloc::Global;
use std::process::Abort;
use std::test::Fail;

/// Three records, and the file that has them: each preceded by an open gate and its length, and a closed gate after
/// all.
const TEXTS: [&[u8]; 3] = [b"a", b"", b"bcd"];

const FILE: &[u8] = b"\x01\0\0\0\x01a\x01\0\0\0\0\x01\0\0\0\x03bcd\0";

/// Files, the call that fails, and how many records a start finds, or why it gives no journal.
static FOUND: [(&[u8], u32, Result<u32, JournalError>); 12] = [
    (b"", 0, Ok(0)),
    (b"\x01", 0, Ok(0)),
    (b"\x02\x01", 0, Ok(0)),
    (b"\x01\0\0\0\x01a\x07rest", 0, Ok(1)),
    (b"\x01\0\0\0\x01a\x01\0\0\0\x02bc\0", 0, Ok(2)),
    (b"\x01\0", 0, Err(JournalError::Damaged(0))),
    (b"\x01\0\0\0\x01a", 0, Err(JournalError::Damaged(0))),
    (
        b"\x01\0\0\0\x01a\x01\0\0\0\x02b\0",
        0,
        Err(JournalError::Damaged(6)),
    ),
    (b"", 1, Err(JournalError::Disk)),
    (b"", 2, Err(JournalError::Disk)),
    (b"", 3, Err(JournalError::Disk)),
    (b"", 4, Err(JournalError::Disk)),
];

/// Four calls belong to a start, and four to each record. By the number of the one that fails: how many of two records
/// the journal has then, and how many are found on the disk.
static FAILING: [(u32, u32, u32); 8] = [
    (5, 0, 0),
    (6, 0, 0),
    (7, 0, 0),
    (8, 0, 1),
    (9, 1, 1),
    (10, 1, 1),
    (11, 1, 1),
    (12, 1, 2),
];

/// A disk with this file, whose call of this number fails, or none for 0.
fn disk_of(alloc: Global, file: &[u8], failing: u32) -> Result<MemDisk, Memory> {
    let mut fails = Items::new(alloc);
    if failing > 0 {
        fails.push(failing)?;
    }
    Ok(MemDisk::new(Bytes::from_slice(alloc, file)?, fails))
}

/// A journal on this disk.
fn start(alloc: Global, disk: MemDisk) -> Result<Journal<MemDisk>, JournalError> {
    match Journal::start(alloc, disk) {
        Ok(journal) => Ok(journal),
        Err(back) => Err(back.error),
    }
}

/// How many records a start finds on this disk, or why it gives no journal.
fn found_on(alloc: Global, disk: MemDisk) -> Result<u32, JournalError> {
    let journal = start(alloc, disk)?;
    Ok(journal.count())
}

/// How many records a start finds in this file, or why it gives no journal.
fn found(alloc: Global, file: &[u8], failing: u32) -> Result<u32, JournalError> {
    let disk = disk_of(alloc, file, failing)?;
    found_on(alloc, disk)
}

#[test]
fn a_start_finds_the_records_or_what_is_wrong(rt: HostRuntime) {
    for (file, failing, right) in FOUND.iter() {
        assert!(rt;
            found(rt.alloc(), file, *failing) == *right,
            "{file:?} {failing}"
        );
    }
}

/// Of so many records more, which take so many bytes in a file with the three: the limit that they pass, and how many the file has.
static ROOM: [(u32, u32, Result<(), Full>); 5] = [
    (0, 0, Ok(())),
    (131_069, 0, Ok(())),
    (
        131_070,
        u32::MAX,
        Err(Full {
            what: FullOf::Records,
            number: 3,
        }),
    ),
    (1, 1_073_741_824 - 20, Ok(())),
    (
        1,
        1_073_741_824 - 19,
        Err(Full {
            what: FullOf::Bytes,
            number: 20,
        }),
    ),
];

/// Whether a journal of the three records has room for so many more.
fn room_in_file(alloc: Global, records: u32, bytes: u32) -> Result<Result<(), Full>, JournalError> {
    let journal = start(alloc, disk_of(alloc, FILE, 0)?)?;
    Ok(journal.room(records, bytes))
}

#[test]
fn a_journal_says_whether_it_has_room(rt: HostRuntime) {
    for (records, bytes, right) in ROOM.iter() {
        assert!(rt;
            room_in_file(rt.alloc(), *records, *bytes) == Ok(*right),
            "{records} {bytes}"
        );
    }
}

/// These texts as byte strings.
fn texts_of(alloc: Global, texts: &[&[u8]]) -> Result<Vec<Bytes>, Memory> {
    let mut made = Vec::new(alloc);
    for text in texts {
        made.push(Bytes::from_slice(alloc, text)?)?;
    }
    Ok(made)
}

/// Appends the three records, the last in two parts; memory is found for them before.
fn fill(alloc: Global, journal: &mut Journal<MemDisk>) -> Result<(), Fail> {
    journal.reserve(3, 4)?;
    let texts = texts_of(alloc, &[b"a", b"", b"bc"])?;
    Ok(journal.append_all(&texts, b"d")?)
}

/// The text of the record at a place.
fn text_at(journal: &Journal<MemDisk>, place: u32) -> Option<&[u8]> {
    if place < journal.count() {
        Some(journal.text(place))
    } else {
        None
    }
}

/// Whether a journal has the three records and no more.
fn has_three(journal: &Journal<MemDisk>) -> bool {
    let [first, second, third] = TEXTS;
    text_at(journal, 0) == Some(first)
        && text_at(journal, 1) == Some(second)
        && text_at(journal, 2) == Some(third)
        && journal.count() == 3
}

/// Whether an append of no records, except a rest, leaves a journal unchanged.
fn takes_nothing(journal: &mut Journal<MemDisk>) -> bool {
    journal.append_all(&[], b"a") == Ok(()) && has_three(journal) && !journal.is_stopped()
}

/// Whether the disk has the file of the three records, and a start finds them.
fn is_read_again(alloc: Global, disk: MemDisk) -> bool {
    if disk.bytes() != FILE {
        return false;
    }
    match start(alloc, disk) {
        Ok(journal) => has_three(&journal),
        Err(_) => false,
    }
}

/// Appends the three records to a journal, and then none.
fn fill_and_add_none(
    rt: &impl Abort,
    alloc: Global,
    journal: &mut Journal<MemDisk>,
) -> Result<(), Fail> {
    fill(alloc, journal)?;
    assert!(rt; takes_nothing(journal));
    Ok(())
}

#[test]
fn records_are_written_and_read_again(rt: HostRuntime) -> Result<(), Fail> {
    let disk = disk_of(rt.alloc(), b"", 0)?;
    let mut journal = start(rt.alloc(), disk)?;
    fill_and_add_none(&rt, rt.alloc(), &mut journal)?;
    assert!(rt; is_read_again(rt.alloc(), journal.into_disk()));
    Ok(())
}

/// Whether an append fails on the disk, and stops the journal.
fn stops(journal: &mut Journal<MemDisk>, texts: &[Bytes]) -> bool {
    journal.append_all(texts, b"") == Err(AppendError::Disk) && journal.is_stopped()
}

/// Whether the journal is stopped, and answers so.
fn is_stopped(journal: &mut Journal<MemDisk>, texts: &[Bytes]) -> bool {
    journal.append_all(texts, b"") == Err(AppendError::Stopped) && journal.is_stopped()
}

/// Whether an append stops the journal, and the next one is answered by that.
fn stays_stopped(journal: &mut Journal<MemDisk>, texts: &[Bytes]) -> bool {
    stops(journal, texts) && is_stopped(journal, texts)
}

/// Of how many records a journal knows whose disk fails in this call, and how many are found again. None where it isn't stopped.
fn stopped(alloc: Global, texts: &[Bytes], failing: u32) -> Result<Option<(u32, u32)>, Fail> {
    let disk = disk_of(alloc, b"", failing)?;
    let mut journal = start(alloc, disk)?;
    if !stays_stopped(&mut journal, texts) {
        return Ok(None);
    }
    let kept = journal.count();
    let found = found_on(alloc, journal.into_disk())?;
    Ok(Some((kept, found)))
}

/// Stops a journal by each call that fails.
fn each_failing(rt: &impl Abort, alloc: Global, texts: &[Bytes]) -> Result<(), Fail> {
    for (failing, kept, found) in FAILING.iter() {
        let told = stopped(alloc, texts, *failing)?;
        assert!(rt; told == Some((*kept, *found)), "{failing}");
    }
    Ok(())
}

#[test]
fn a_failed_call_stops_the_journal(rt: HostRuntime) -> Result<(), Fail> {
    let texts = texts_of(rt.alloc(), &[b"a", b"bc"])?;
    each_failing(&rt, rt.alloc(), &texts)
}
