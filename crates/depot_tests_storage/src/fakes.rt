//! Which calls of a fake fail, what a stopped disk in memory has, and what fakes keep.

ghost use Rattle.std.specs.Prelude.{◌≡◌, length};

use depot_base::{Bytes, Items, Memory};
use depot_outside::{Disk, Failed, MemDisk, MemShelf, MemSink, OutError, Shelf, Sink};
use std::alloc::Global;
use std::test::Fail;

/// The number of this one call, or no number for 0.
fn only(alloc: Global, call: u32) -> Result<Items, Memory> {
    let mut calls = Items::new(alloc);
    if call > 0 {
        calls.push(call)?;
    }
    Ok(calls)
}

/// Whether the file of that name is there, and has these bytes.
fn holds(shelf: &mut MemShelf, name: &str, bytes: &[u8]) -> bool {
    match shelf.load(name) {
        Ok(Some(file)) => file.as_slice() == bytes,
        _ => false,
    }
}

/// Which of a load, a store and a load fail.
fn failed_calls(shelf: &mut MemShelf) -> [bool; 3] {
    let first = shelf.load("a").is_err();
    let second = shelf.store("a", b"second").is_err();
    [first, second, shelf.load("a").is_err()]
}

/// Whether the calls of a shelf whose call of this number fails, or none for 0, go as they should.
fn shelf_fails_at(alloc: Global, failing: u32) -> Result<bool, Memory> {
    let mut shelf = MemShelf::new(alloc, only(alloc, failing)?);
    shelf.put("a", b"first")?;
    let failed = failed_calls(&mut shelf);
    let kept: &[u8] = if failing == 2 { b"first" } else { b"second" };
    Ok(failed == [failing == 1, failing == 2, failing == 3] && holds(&mut shelf, "a", kept))
}

/// The same of a sink, to which a piece is written three times.
fn sink_fails_at(alloc: Global, failing: u32) -> Result<bool, Memory> {
    let mut sink = MemSink::new(alloc, only(alloc, failing)?);
    let first = sink.write(b"piece").is_err();
    let second = sink.write(b"piece").is_err();
    let failed = [first, second, sink.write(b"piece").is_err()];
    let written = if failing == 0 { 15 } else { 10 };
    Ok(failed == [failing == 1, failing == 2, failing == 3] && sink.bytes().len() == written)
}

/// Makes the five calls on a disk whose file has four bytes, up to the first that fails.
fn make_calls(disk: &mut MemDisk) -> Result<u64, Failed>
    requires { length (⟦<MemDisk as Disk>⟧.seen disk.old) ≡ 4 }
{
    let mut piece = [0u8; 2];
    if disk.make_room(2, 2).is_err() {
        return Ok(0);
    }
    (&mut *disk).length()?;
    disk.read(1, &mut piece)?;
    disk.write_at(2, b"te")?;
    disk.sync()?;
    disk.length()
}

/// Whether the calls of a disk whose call of this number fails, or none for 0, go as they should.
fn disk_fails_at(alloc: Global, failing: u32) -> Result<bool, Memory> {
    let fails = only(alloc, failing)?;
    let mut disk = MemDisk::new(Bytes::from_slice(alloc, b"file")?, fails);
    let outcome = make_calls(&mut disk);
    let right = if failing == 0 { Ok(4) } else { Err(Failed) };
    let is_written = failing == 0 || failing > 3;
    let file: &[u8] = if is_written { b"fite" } else { b"file" };
    Ok(outcome == right && disk.bytes() == file)
}

#[test]
fn fakes_fail_at_the_given_call(rt: HostRuntime) -> Result<(), Fail> {
    for failing in 0..4 {
        assert!(rt;
            shelf_fails_at(rt.alloc(), failing)?,
            "a shelf at {failing}"
        );
        assert!(rt; sink_fails_at(rt.alloc(), failing)?, "a sink at {failing}");
    }
    for failing in 0..6 {
        assert!(rt; disk_fails_at(rt.alloc(), failing)?, "a disk at {failing}");
    }
    Ok(())
}

/// Writes and syncs, writes twice and syncs, up to the first call that fails, on a disk whose file has four bytes.
fn write_and_sync(disk: &mut MemDisk) -> Result<(), Failed>
    requires { length (⟦<MemDisk as Disk>⟧.seen disk.old) ≡ 4 }
{
    if disk.make_room(6, 5).is_err() {
        return Ok(());
    }
    disk.write_at(2, b"te")?;
    disk.sync()?;
    disk.write_at(0, b"b")?;
    disk.write_at(3, b"nds")?;
    disk.sync()
}

/// The call and the image of a stop, and the file then. The last one stops in no call that is made.
static STOPS: [(u32, u8, &[u8]); 13] = [
    (2, 0, b"file"),
    (2, 1, b"fite"),
    (2, 2, b"fi\xff\xff"),
    (3, 0, b"fite"),
    (3, 1, b"bite"),
    (3, 2, b"\xffite"),
    (4, 0, b"fite"),
    (4, 1, b"bitnds"),
    (4, 2, b"\xffit\xff\xff\xff"),
    (5, 0, b"fite"),
    (5, 1, b"bitnds"),
    (5, 2, b"\xffit\xff\xff\xff"),
    (7, 0, b"bitnds"),
];

/// Whether a disk set to stop in this call, which replaces another one, fails there and then has this file.
fn stops_at(alloc: Global, call: u32, image: u8, file: &[u8]) -> Result<bool, Memory> {
    if call == 0 || image > 2 {
        return Ok(false);
    }
    let mut disk = MemDisk::new(Bytes::from_slice(alloc, b"file")?, Items::new(alloc));
    disk.stop_at(1, 0);
    disk.stop_at(call, image);
    let right = if call < 6 { Err(Failed) } else { Ok(()) };
    let ended = write_and_sync(&mut disk) == right;
    Ok(ended && disk.bytes() == file && disk.length() == Ok(file.len() as u64))
}

#[test]
fn a_disk_in_memory_stops_in_the_given_call(rt: HostRuntime) -> Result<(), Fail> {
    for (call, image, file) in STOPS.iter() {
        assert!(rt;
            stops_at(rt.alloc(), *call, *image, file)?,
            "{call} {image}"
        );
    }
    Ok(())
}

/// Puts and stores files, one of them twice.
fn fill_shelf(shelf: &mut MemShelf) -> Result<(), OutError> {
    shelf.put("a", b"first")?;
    shelf.store("b", b"second")?;
    shelf.put("a", b"third")?;
    shelf.put("empty", b"")?;
    Ok(())
}

/// Whether a shelf keeps the files, and has no other.
fn shelf_keeps(alloc: Global) -> Result<bool, OutError> {
    let mut shelf = MemShelf::new(alloc, Items::new(alloc));
    fill_shelf(&mut shelf)?;
    let has_other = !matches!(shelf.load("c"), Ok(None));
    Ok(
        holds(&mut shelf, "empty", b"")
            && holds(&mut shelf, "a", b"third")
            && holds(&mut shelf, "b", b"second")
            && !has_other,
    )
}

/// Whether a sink keeps the pieces that were written.
fn sink_keeps(alloc: Global) -> Result<bool, OutError> {
    let mut sink = MemSink::new(alloc, Items::new(alloc));
    sink.write(b"wri")?;
    sink.write(b"tten")?;
    Ok(sink.bytes() == b"written".as_slice())
}

#[test]
fn fakes_keep_what_they_are_given(rt: HostRuntime) {
    assert!(rt; shelf_keeps(rt.alloc()) == Ok(true));
    assert!(rt; sink_keeps(rt.alloc()) == Ok(true));
}
