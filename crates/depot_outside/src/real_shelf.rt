//! The files of the system.
ghost use Rattle.std.specs.Prelude.{◌≡◌, [], None, false, IsErrOf};
ghost use Rattle.depot_base.specs.Faults.{HasCause};
ghost use Rattle.depot_outside.specs.Outside.{FailsOn};

use crate::faults::Faults;
use crate::name_list::NameList;
use crate::real_disk::JOURNAL;
use crate::transfer::{read_whole, write_whole};
use crate::{OutError, Shelf};
use depot_base::Bytes;
use std::fs::{self, File, Metadata, OpenOptions, TryLockError};
use std::io::{self, ErrorKind};
use std::os::unix::fs::MetadataExt;
use std::rt::Files;

/// The most bytes of a file, 1 GiB.
const MOST_BYTES: usize = 1_073_741_824;

/// The files of the system, by path. Contracts don't see them. Loading a file of more than 1 GiB is a fault. So is
/// storing over the journal of the current folder, by whatever path or link it is named, or over a file that another
/// has locked, as a run has its journal. A file is overwritten in place, so a failed store may leave a prefix of the
/// bytes.
#[derive(Drop)]
pub struct RealShelf<R> {
    rt: R,
    faults: Faults,
    loads: NameList,
    stores: NameList,
    failed: NameList,
}

impl<R: Files<File = File> + AllocGlobal + Drop> RealShelf<R> {
    /// The shelf of a runtime. Nothing is touched before the first call.
    pub fn new(rt: R) -> RealShelf<R>
        ensures loads { ⟦<RealShelf<R> as Shelf>⟧.loads result ≡ [] }
        ensures stores { ⟦<RealShelf<R> as Shelf>⟧.stores result ≡ [] }
        ensures failed { ⟦<RealShelf<R> as Shelf>⟧.failed result ≡ [] }
        ensures faults { ⟦<RealShelf<R> as Shelf>⟧.faults result ≡ 0 }
    {
        RealShelf {
            rt,
            faults: Faults::new(),
            loads: NameList::new(),
            stores: NameList::new(),
            failed: NameList::new(),
        }
    }

    /// Passes on the outcome of a call on a name. A failure is counted, and its name is recorded.
    fn settle<T: Drop>(&mut self, name: &str, outcome: Result<T, OutError>) -> Result<T, OutError>
        ensures outcome { result ≡ outcome }
        ensures cause { HasCause self.old.faults.number self.new.faults.number (IsErrOf result OutError.Failed) }
        ensures failed { FailsOn self.old.failed.names self.new.failed.names name.now result }
        ensures loads { self.new.loads.names ≡ self.old.loads.names }
        ensures stores { self.new.stores.names ≡ self.old.stores.names }
    {
        if let Err(OutError::Failed) = &outcome {
            self.faults.raise();
            self.failed.note(name.as_bytes());
        }
        outcome
    }
}

/// The bytes of the file, or None where there is none.
fn read_file<R: Files + AllocGlobal>(rt: &R, name: &str) -> Result<Option<Bytes>, OutError> {
    match fs::open(rt, name) {
        Ok(mut file) => Ok(Some(read_whole(rt.alloc(), MOST_BYTES, &mut file)?)),
        Err(error) if error.kind() == ErrorKind::NotFound => Ok(None),
        Err(_) => Err(OutError::Failed),
    }
}

/// Whether an open file is the journal of the current folder: both have the same inode on the same device.
fn is_journal<R: Files>(rt: &R, file: &Metadata) -> io::Result<bool> {
    match fs::metadata(rt, JOURNAL) {
        Ok(journal) => Ok(journal.dev() == file.dev() && journal.ino() == file.ino()),
        Err(error) if error.kind() == ErrorKind::NotFound => Ok(false),
        Err(error) => Err(error),
    }
}

/// Truncates a file to nothing. It is an error where another has it locked.
fn clear(file: &File) -> io::Result<()> {
    if let Err(TryLockError::WouldBlock) = file.try_lock() {
        return Err(ErrorKind::WouldBlock.into());
    }
    file.set_len(0)
}

/// Opens a file to be written from its start, and creates it where it is absent. The file is examined once it is open,
/// before anything in it changes: the journal is an error, and anything but a device or a pipe is truncated.
fn open_anew<R: Files<File = File>>(rt: &R, name: &str) -> io::Result<File> {
    let file = OpenOptions::new().write(true).create(true).open(rt, name)?;
    let found = file.metadata()?;
    if is_journal(rt, &found)? {
        return Err(ErrorKind::PermissionDenied.into());
    }
    if found.is_file() {
        clear(&file)?;
    }
    Ok(file)
}

/// Writes the bytes to a file, in place of what it had.
fn write_file<R: Files<File = File>>(rt: &R, name: &str, bytes: &[u8]) -> Result<(), OutError> {
    match open_anew(rt, name) {
        Ok(mut file) => Ok(write_whole(&mut file, bytes)?),
        Err(_) => Err(OutError::Failed),
    }
}

impl<R: Files<File = File> + AllocGlobal + Drop> Shelf for RealShelf<R> {
    ghost tells = { λ _. false };

    ghost file = { λ _ _. None };

    ghost loads = { λ s. s.loads.names };

    ghost stores = { λ s. s.stores.names };

    ghost failed = { λ s. s.failed.names };

    ghost faults = { λ s. s.faults.number };

    fn load(&mut self, name: &str) -> Result<Option<Bytes>, OutError> {
        self.loads.note(name.as_bytes());
        let outcome = read_file(&self.rt, name);
        self.settle(name, outcome)
    }

    fn store(&mut self, name: &str, bytes: &[u8]) -> Result<(), OutError> {
        self.stores.note(name.as_bytes());
        let outcome = write_file(&self.rt, name, bytes);
        self.settle(name, outcome)
    }
}
