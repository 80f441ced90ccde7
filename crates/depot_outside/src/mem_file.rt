//! A file in memory, and its crash images.
ghost use Rattle.std.specs.Prelude.{◌≡◌, ◌+◌, ◌-◌, ◌≤◌, OnOk, length, reverse, vec_len, vec_capacity};
ghost use Rattle.depot_base.specs.Disk.{IsWritten};
ghost use Rattle.depot_outside.specs.Images.{LeadTo, LeadTo-prop, after_sync, after_write, synced_as, written_at};
ghost use Rattle.depot_outside.specs.StopImages.{left_by, overwritten};
ghost use Rattle.depot_outside.specs.Undo.{AreLogged, AreLogged-prop, spare_bytes, spare_writes};

use crate::disk_history::History;
use crate::spare_room::reserve_tightly;
use crate::stops::Image;
use crate::undo::UndoLog;
use depot_base::{Bytes, Memory};

/// The bytes of a file, what its writes since the last sync replaced, and its moments.
#[derive(Debug, Drop)]
pub struct MemFile {
    pub bytes: Vec<u8>,
    pub log: UndoLog,
    pub history: History,
    pub ghost lead: { LeadTo history.moments.now.synced history.moments.now.writes bytes.items } by { LeadTo-prop history.moments.now.synced history.moments.now.writes bytes.items },
    pub ghost logged: { AreLogged history.moments.now.writes (reverse log.writes.items) log.bytes.items bytes.items } by { AreLogged-prop history.moments.now.writes (reverse log.writes.items) log.bytes.items bytes.items },
}

/// Writes bytes at an offset.
fn overwrite(file: &mut Vec<u8>, at: usize, bytes: &[u8])
    requires inside { at ≤ vec_len file.old }
    requires room { vec_len file.old + length bytes.now ≤ vec_capacity file.old }
    ensures written { IsWritten file.old.items at bytes.now file.new.items }
    ensures room_left { vec_capacity file.old - vec_len file.old ≤ vec_capacity file.new - vec_len file.new + length bytes.now }
{
    let kept = bytes.len().min(file.len() - at);
    file[at..at + kept].copy_from_slice(&bytes[..kept]);
    let _ = file.extend_from_slice(&bytes[kept..]);
}

impl MemFile {
    /// A file with these bytes, with nothing unsynced. It takes no memory.
    pub fn new(bytes: Bytes) -> MemFile
        ensures bytes { result.bytes.items ≡ bytes }
        ensures now { result.history.moments.now ≡ synced_as bytes }
    {
        let bytes = bytes.into_vec();
        let log = UndoLog::new(*bytes.allocator());
        let mut history = History::new();
        history.note_sync(&bytes);
        MemFile {
            bytes,
            log,
            history,
        }
    }

    /// Reserves memory for `writes` more writes, of at most `bytes` bytes in all.
    pub fn make_room(&mut self, bytes: usize, writes: usize) -> Result<(), Memory>
        ensures room { OnOk result (bytes ≤ spare_bytes self.new.bytes self.new.log) }
        ensures calls { OnOk result (writes ≤ spare_writes self.new.log) }
        ensures room_kept { spare_bytes self.old.bytes self.old.log ≤ spare_bytes self.new.bytes self.new.log }
        ensures calls_kept { spare_writes self.old.log ≤ spare_writes self.new.log }
        ensures bytes { self.new.bytes.items ≡ self.old.bytes.items }
        ensures moments { self.new.history.moments ≡ self.old.history.moments }
    {
        reserve_tightly(&mut self.bytes, bytes)?;
        self.log.make_room(bytes, writes)
    }

    /// Writes bytes at an offset.
    pub fn write(&mut self, at: usize, bytes: &[u8])
        requires inside { at ≤ length self.old.bytes.items }
        requires room { length bytes.now ≤ spare_bytes self.old.bytes self.old.log }
        requires writes { 1 ≤ spare_writes self.old.log }
        ensures bytes { IsWritten self.old.bytes.items at bytes.now self.new.bytes.items }
        ensures moments { self.new.history.moments ≡ after_write self.old.history.moments self.old.bytes.items at (length bytes.now) }
        ensures room_left { spare_bytes self.old.bytes self.old.log ≤ spare_bytes self.new.bytes self.new.log + length bytes.now }
        ensures writes_left { spare_writes self.old.log ≤ spare_writes self.new.log + 1 }
    {
        self.log.note(&self.bytes, at, bytes.len());
        self.history.note_write(&self.bytes, at, bytes.len());
        overwrite(&mut self.bytes, at, bytes);
    }

    /// Syncs what was written.
    pub fn sync(&mut self)
        ensures bytes { self.new.bytes.items ≡ self.old.bytes.items }
        ensures moments { self.new.history.moments ≡ after_sync self.old.history.moments self.old.bytes.items }
        ensures room_left { spare_bytes self.old.bytes self.old.log ≤ spare_bytes self.new.bytes self.new.log }
        ensures writes_left { spare_writes self.old.log ≤ spare_writes self.new.log }
    {
        self.log.clear();
        self.history.note_sync(&self.bytes);
    }

    /// Becomes a crash image of this moment.
    pub fn stop(&mut self, image: Image)
        ensures bytes { self.new.bytes.items ≡ left_by image self.old.history.moments.now self.old.bytes.items }
        ensures moments { self.new.history.moments ≡ after_sync self.old.history.moments self.new.bytes.items }
        ensures room_left { spare_bytes self.old.bytes self.old.log ≤ spare_bytes self.new.bytes self.new.log }
        ensures writes_left { spare_writes self.old.log ≤ spare_writes self.new.log }
    {
        self.log.leave(image, &mut self.bytes);
        self.history.note_sync(&self.bytes);
    }

    /// Becomes a crash image of a stop right after a write.
    pub fn stop_after_write(&mut self, at: usize, bytes: &[u8], image: Image)
        requires inside { at ≤ length self.old.bytes.items }
        requires room { length bytes.now ≤ spare_bytes self.old.bytes self.old.log }
        requires writes { 1 ≤ spare_writes self.old.log }
        ensures bytes { self.new.bytes.items ≡ left_by image (written_at self.old.history.moments.now self.old.bytes.items at (length bytes.now)) (overwritten self.old.bytes.items at bytes.now) }
        ensures moments { self.new.history.moments ≡ after_sync self.old.history.moments self.new.bytes.items }
        ensures room_left { spare_bytes self.old.bytes self.old.log ≤ spare_bytes self.new.bytes self.new.log + length bytes.now }
        ensures writes_left { spare_writes self.old.log ≤ spare_writes self.new.log + 1 }
    {
        self.log.note(&self.bytes, at, bytes.len());
        overwrite(&mut self.bytes, at, bytes);
        self.log.leave(image, &mut self.bytes);
        self.history.note_sync(&self.bytes);
    }
}
