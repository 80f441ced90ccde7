//! The journal's file.
ghost use Rattle.std.specs.Prelude.{◌≡◌, ◌^◌, [], false, IsErr};
ghost use Rattle.std.proofs.Common.{rules};
ghost use Rattle.depot_base.specs.Faults.{HasCause};

use crate::faults::Faults;
use crate::transfer::{read_piece_at, write_whole_at};
use crate::{Disk, Failed};
use depot_base::Memory;
use std::fs::{File, OpenOptions};
use std::io;
use std::rt::Files;

/// The name of the journal's file in the current folder.
pub(crate) const JOURNAL: &str = "depot.journal";

/// The file `depot.journal` of the current folder. Contracts see neither its bytes nor its crash images, and it takes
/// no memory of the run. From its first call on it holds a lock on the file, which no other disk can hold meanwhile, in
/// this process or in another. The lock ends with the disk, or with its process, however that ends.
#[derive(Drop)]
pub struct RealDisk<R: Files<File = File> + Drop> {
    rt: R,
    file: Option<File>,
    faults: Faults,
}

impl<R: Files<File = File> + Drop> RealDisk<R> {
    /// The disk of a runtime. The file is reached at the first call, and made where it is absent.
    pub fn new(rt: R) -> RealDisk<R>
        ensures { ⟦<RealDisk<R> as Disk>⟧.faults result ≡ 0 }
    {
        RealDisk {
            rt,
            file: None,
            faults: Faults::new(),
        }
    }
}

/// The file, once it is open.
fn reach<'a, R: Files<File = File>>(
    rt: &R,
    file: &'a mut Option<File>,
) -> io::Result<&'a mut File> {
    match file {
        Some(file) => Ok(file),
        None => Ok(file.insert(open_journal(rt)?)),
    }
}

/// Opens the file, and creates it where it is absent. It is an error where another disk has locked it. The folder is
/// synced then, so that no stop loses a created file.
fn open_journal<R: Files<File = File>>(rt: &R) -> io::Result<File> {
    let file = OpenOptions::new()
        .read(true)
        .write(true)
        .create(true)
        .open(rt, JOURNAL)?;
    file.try_lock()?;
    sync_folder(rt)?;
    Ok(file)
}

/// Syncs the current folder, with the names that the system holds back.
fn sync_folder<R: Files<File = File>>(rt: &R) -> io::Result<()> {
    OpenOptions::new().read(true).open(rt, ".")?.sync_all()
}

/// How many bytes the file has.
fn measure<R: Files<File = File>>(rt: &R, file: &mut Option<File>) -> io::Result<u64> {
    Ok(reach(rt, file)?.metadata()?.len())
}

/// Reads from an offset on until the piece is full.
fn read_piece<R: Files<File = File>>(
    rt: &R,
    file: &mut Option<File>,
    at: u64,
    into: &mut [u8],
) -> io::Result<()> {
    read_piece_at(reach(rt, file)?, at, into)
}

/// Writes all of the bytes at an offset.
fn write_piece<R: Files<File = File>>(
    rt: &R,
    file: &mut Option<File>,
    at: u64,
    bytes: &[u8],
) -> io::Result<()> {
    write_whole_at(reach(rt, file)?, at, bytes)
}

/// Syncs the file.
fn flush<R: Files<File = File>>(rt: &R, file: &mut Option<File>) -> io::Result<()> {
    reach(rt, file)?.sync_data()
}

impl<R: Files<File = File> + Drop> RealDisk<R> {
    /// Passes an outcome on. An error of the system is a fault.
    fn settle<T: Drop>(&mut self, outcome: io::Result<T>) -> Result<T, Failed>
        ensures cause { HasCause self.old.faults.number self.new.faults.number (IsErr result) }
    {
        match outcome {
            Ok(value) => Ok(value),
            Err(_) => {
                self.faults.raise();
                Err(Failed)
            }
        }
    }
}

impl<R: Files<File = File> + Drop> Disk for RealDisk<R> {
    ghost handle = { λ _. 0 };

    ghost tells = { λ _. false };

    ghost seen = { λ _. [] };

    ghost may_leave = { λ _ _. ⊥ };

    ghost moment = { λ _. 0 };

    ghost left_since = { λ _ _ _. ⊥ };

    ghost faults = { λ d. d.faults.number };

    ghost after = { λ _ _ _. Unit {0} };

    ghost room_bytes = { λ _. 2 ^ 64 };

    ghost room_calls = { λ _. 2 ^ 64 };

    fn length(&mut self) -> Result<u64, Failed> {
        let outcome = measure(&self.rt, &mut self.file);
        self.settle(outcome)
    }

    fn read(&mut self, at: u64, into: &mut [u8]) -> Result<(), Failed> {
        let outcome = read_piece(&self.rt, &mut self.file, at, into);
        self.settle(outcome)
    }

    fn make_room(&mut self, _bytes: u64, _calls: u32) -> Result<(), Memory> {
        Ok(())
    }

    fn write_at(&mut self, at: u64, bytes: &[u8]) -> Result<(), Failed> {
        let outcome = write_piece(&self.rt, &mut self.file, at, bytes);
        self.settle(outcome)
    }

    fn sync(&mut self) -> Result<(), Failed> {
        let outcome = flush(&self.rt, &mut self.file);
        self.settle(outcome)
    }

    ghost reads_as_image = { λ d t. Prim.search rules };

    ghost counts_now = { λ d t image le now. now };

    ghost only_now = { λ d image left. left };

    ghost after_none = { λ _. tt };

    ghost after_more = { λ _ _ _ _ _ _ _. tt };
}
