//! A disk in memory.
ghost use Rattle.std.specs.Prelude.{◌≡◌, ◌≤◌, [], refl, true, Some, None, IsTrue, OnOk, IsErr, is_err, length};
ghost use Rattle.depot_base.specs.Calls.{asks_length};
ghost use Rattle.depot_base.specs.Disk.{Only, Within};
ghost use Rattle.depot_base.specs.Faults.{HasCause};
ghost use Rattle.depot_outside.specs.Images.{counts, images_at, left_from, only, reads_as};
ghost use Rattle.depot_outside.specs.Stopping.{IsOutcome, CallsLead, after_call, fresh, leads_more, state_of};
ghost use Rattle.depot_outside.specs.StopImages.{image_of_number};
ghost use Rattle.depot_outside.specs.Told.{TimePasses};
ghost use Rattle.depot_outside.specs.Undo.{spare_bytes, spare_writes};

use crate::mem_file::MemFile;
use crate::stops::{DiskCalls, Image, Stop, Turn};
use crate::{Disk, Failed};
use depot_base::{Bytes, Items, Memory};

/// A disk in memory. It can be made to stop in a call, and its file then becomes a crash image.
///
/// Its calls are those of `length`, `read`, `write_at` and `sync`.
#[derive(Debug, Drop)]
pub struct MemDisk {
    file: MemFile,
    calls: DiskCalls,
}

impl MemDisk {
    /// A disk with this file, with nothing unsynced. Of its calls, counted from 1, those with these numbers fail and
    /// change nothing. It takes no memory.
    pub fn new(file: Bytes, fails: Items) -> MemDisk
        ensures tells { IsTrue (⟦<MemDisk as Disk>⟧.tells result) }
        ensures state { state_of result ≡ fresh file fails }
        ensures stable { Only file (⟦<MemDisk as Disk>⟧.may_leave result) }
        ensures faults { ⟦<MemDisk as Disk>⟧.faults result ≡ 0 }
        ensures faultless { fails ≡ [] → ⟦<MemDisk as Disk>⟧.is_faultless result }
    {
        MemDisk {
            file: MemFile::new(file),
            calls: DiskCalls::new(fails),
        }
    }

    /// The bytes of its file.
    pub fn bytes(&self) -> &[u8]
        ensures { result.now ≡ ⟦<MemDisk as Disk>⟧.seen self.now }
    {
        &self.file.bytes
    }

    /// Sets a stop in a later call, the next one being 1, in place of any stop that was set before.
    ///
    /// That call returns `Failed`, and the file becomes a crash image: 0, the file after the last sync; 1, the file
    /// with all writes since, also one that this call makes; 2, the same with FF in place of each byte written since.
    /// Later calls work on that file, and don't stop. Until then nothing changes.
    pub fn stop_at(&mut self, call: u32, image: u8)
        requires call { 1 ≤ call }
        requires image { image ≤ 2 }
        ensures state { state_of self.new ≡ record (state_of self.old) { next = Some (record { call = call; image = image_of_number image }) } }
        ensures images { Within (⟦<MemDisk as Disk>⟧.may_leave self.old) (⟦<MemDisk as Disk>⟧.may_leave self.new) }
        ensures time { TimePasses ⟦<MemDisk as Disk>⟧ self.old self.new }
        ensures faults { ⟦<MemDisk as Disk>⟧.faults self.new ≡ ⟦<MemDisk as Disk>⟧.faults self.old }
        ensures faulty { ⟦<MemDisk as Disk>⟧.is_faultless self.new → ⊥ }
        ensures room { ⟦<MemDisk as Disk>⟧.room_bytes self.new ≡ ⟦<MemDisk as Disk>⟧.room_bytes self.old }
        ensures calls { ⟦<MemDisk as Disk>⟧.room_calls self.new ≡ ⟦<MemDisk as Disk>⟧.room_calls self.old }
    {
        self.calls.next = Some(Stop {
            call,
            image: Image::numbered(image),
        });
    }

    /// Begins a call that writes nothing. Where the disk stops in it, the file becomes the crash image.
    fn begin(&mut self) -> Result<(), Failed>
        ensures outcome { IsOutcome (state_of self.old) (is_err result) }
        ensures state { state_of self.new ≡ after_call (state_of self.old) (record { call = asks_length; failed = is_err result }) }
        ensures same { OnOk result (self.new.file ≡ self.old.file) }
        ensures images { Within (⟦<MemDisk as Disk>⟧.may_leave self.old) (⟦<MemDisk as Disk>⟧.may_leave self.new) }
        ensures time { TimePasses ⟦<MemDisk as Disk>⟧ self.old self.new }
        ensures cause { HasCause (⟦<MemDisk as Disk>⟧.faults self.old) (⟦<MemDisk as Disk>⟧.faults self.new) (IsErr result) }
        ensures faultless { ⟦<MemDisk as Disk>⟧.is_faultless self.old → ⟦<MemDisk as Disk>⟧.is_faultless self.new × (⟦<MemDisk as Disk>⟧.faults self.new ≡ ⟦<MemDisk as Disk>⟧.faults self.old) }
        ensures room { ⟦<MemDisk as Disk>⟧.room_bytes self.old ≤ ⟦<MemDisk as Disk>⟧.room_bytes self.new }
        ensures calls { ⟦<MemDisk as Disk>⟧.room_calls self.old ≤ ⟦<MemDisk as Disk>⟧.room_calls self.new }
    {
        match self.calls.begin() {
            Turn::Made => Ok(()),
            Turn::Fails => Err(Failed),
            Turn::Stops(image) => {
                self.file.stop(image);
                Err(Failed)
            }
        }
    }
}

impl Disk for MemDisk {
    ghost handle = { λ _. 0 };

    ghost tells = { λ _. true };

    ghost seen = { λ d. d.file.bytes.items };

    ghost may_leave = { λ d image. images_at d.file.history.moments.now image };

    ghost moment = { λ d. length d.file.history.moments.past };

    ghost left_since = { λ d t image. left_from d.file.history.moments.now d.file.history.moments.past t image };

    ghost faults = { λ d. d.calls.calls.faults.number };

    ghost is_faultless = { λ d. (d.calls.calls.fails ≡ []) × (d.calls.next ≡ None) };

    ghost after = { λ d calls e. CallsLead (state_of d) calls (state_of e) };

    ghost room_bytes = { λ d. spare_bytes d.file.bytes d.file.log };

    ghost room_calls = { λ d. spare_writes d.file.log };

    /// As for any disk. Where it stops, the file becomes the crash image.
    fn length(&mut self) -> Result<u64, Failed> {
        self.begin()?;
        Ok(self.file.bytes.len() as u64)
    }

    /// As for any disk. Where it stops, the file becomes the crash image.
    fn read(&mut self, at: u64, into: &mut [u8]) -> Result<(), Failed> {
        self.begin()?;
        let at = at as usize;
        into.copy_from_slice(&self.file.bytes[at..at + into.len()]);
        Ok(())
    }

    fn make_room(&mut self, bytes: u64, calls: u32) -> Result<(), Memory> {
        self.file.make_room(bytes as usize, calls as usize)
    }

    /// As for any disk. Where it stops, the file becomes the crash image of a stop right after the write.
    fn write_at(&mut self, at: u64, bytes: &[u8]) -> Result<(), Failed> {
        let at = at as usize;
        match self.calls.begin() {
            Turn::Made => {
                self.file.write(at, bytes);
                Ok(())
            }
            Turn::Fails => Err(Failed),
            Turn::Stops(image) => {
                self.file.stop_after_write(at, bytes, image);
                Err(Failed)
            }
        }
    }

    /// As for any disk. Where it stops, it syncs nothing, and the file becomes the crash image.
    fn sync(&mut self) -> Result<(), Failed> {
        self.begin()?;
        self.file.sync();
        Ok(())
    }

    ghost reads_as_image = { λ d _. reads_as d.file.history.moments.now.synced d.file.history.moments.now.writes d.file.bytes.items d.file.lead };

    ghost counts_now = { λ d t image le here. counts d.file.history.moments.now d.file.history.moments.past t image here };

    ghost only_now = { λ d image left. only d.file.history.moments.now d.file.history.moments.past image left };

    ghost after_none = { λ _. refl };

    ghost after_more = { λ old between new calls more first second. leads_more (state_of old) (state_of between) (state_of new) calls more first second };
}
