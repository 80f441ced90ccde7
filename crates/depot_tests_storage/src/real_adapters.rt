//! The real shelf, disk and sink, each once on files of the current folder and on the output.

use depot_outside::{Disk, OutError, RealDisk, RealShelf, RealSink, Shelf, Sink};
use std::fs;
use std::os::unix::fs::symlink;
use std::test::Fail;

/// The name of a file that is made and removed.
const NAME: &str = "depot_outside.test";

/// Whether a shelf gives the bytes back that are stored.
fn gives_back(shelf: &mut RealShelf<HostRuntime>, bytes: &[u8]) -> Result<bool, OutError> {
    shelf.store(NAME, bytes)?;
    match shelf.load(NAME)? {
        Some(file) => Ok(file.as_slice() == bytes),
        None => Ok(false),
    }
}

/// Whether a shelf that has no such file keeps what is stored, the last time a file that takes many reads.
fn keeps_files(shelf: &mut RealShelf<HostRuntime>, long: &[u8]) -> Result<bool, OutError> {
    let is_absent = shelf.load(NAME)?.is_none();
    Ok(
        is_absent
            && gives_back(shelf, b"longer")?
            && gives_back(shelf, b"short")?
            && gives_back(shelf, b"")?
            && gives_back(shelf, long)?,
    )
}

#[test]
fn a_real_shelf_keeps_files(rt: HostRuntime) -> Result<(), Fail> {
    let _ = fs::remove_file(&rt, NAME);
    let long = vec![in rt.alloc(); 7u8; 1_048_577]?;
    let mut shelf = RealShelf::new(rt.clone()?);
    assert!(rt; keeps_files(&mut shelf, &long)?);
    assert!(rt; shelf.load(".").is_err());
    assert!(rt; shelf.store("absent/file", b"").is_err());
    fs::remove_file(&rt, NAME)?;
    Ok(())
}

/// Names of the journal of the current folder, the last two by links.
const NAMES: [&str; 4] = [
    "depot.journal",
    "./depot.journal",
    "depot.journal.twin",
    "depot.journal.link",
];

/// Whether no store under one of these names changes the journal.
fn spares_the_journal(rt: &HostRuntime) -> Result<bool, Fail> {
    fs::hard_link(rt, "depot.journal", "depot.journal.twin")?;
    symlink(rt, "depot.journal", "depot.journal.link")?;
    let mut shelf = RealShelf::new(rt.clone()?);
    let mut is_spared = true;
    for name in NAMES {
        is_spared = is_spared && shelf.store(name, b"stored").is_err();
    }
    fs::remove_file(rt, "depot.journal.twin")?;
    fs::remove_file(rt, "depot.journal.link")?;
    Ok(is_spared)
}

#[test]
fn a_real_disk_is_the_journal(rt: HostRuntime) -> Result<(), Fail> {
    fs::write(&rt, "depot.journal", "four")?;
    assert!(rt; spares_the_journal(&rt)?);
    let mut disk = RealDisk::new(rt.clone()?);
    let mut piece = [0u8; 4];
    disk.make_room(5, 2)?;
    assert_eq!(rt; disk.length(), Ok(4));
    assert_eq!(rt; disk.write_at(2, b"lders"), Ok(()));
    assert_eq!(rt; disk.sync(), Ok(()));
    assert_eq!(rt; disk.length(), Ok(7));
    assert_eq!(rt; disk.read(3, &mut piece), Ok(()));
    assert_eq!(rt; piece.as_slice(), b"ders".as_slice());
    // A read past the end is a fault of a disk whose bytes aren't visible, and so is each call while another has the
    // file.
    assert!(rt; disk.read(4, &mut piece).is_err());
    assert!(rt; RealDisk::new(rt.clone()?).length().is_err());
    fs::remove_file(&rt, "depot.journal")?;
    assert_eq!(rt; RealDisk::new(rt.clone()?).length(), Ok(0));
    fs::remove_file(&rt, "depot.journal")?;
    Ok(())
}

#[test]
fn a_real_sink_prints(rt: HostRuntime) -> Result<(), Fail> {
    let mut sink = RealSink::new(rt.clone()?);
    assert_eq!(rt; sink.write(b"written to a real sink\n"), Ok(()));
    Ok(())
}
