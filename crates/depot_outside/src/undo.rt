//! What the writes since the last sync replaced.
ghost use Rattle.std.specs.Prelude.{◌≡◌, ◌≤◌, ◌<◌, ◌++◌, ◌+◌, ◌-◌, ◌∷◌, [], OnOk, length, replicate, reverse, take, drop, vec_len, vec_capacity};
ghost use Rattle.depot_outside.specs.StopImages.{blank, blanked};
ghost use Rattle.depot_outside.specs.Undo.{AreInside, CanUndo, file_before, file_left, undone, written};

use crate::stops::Image;
use depot_base::Memory;
use std::alloc::Global;

/// A write to a file: its offset, how many bytes it has, how long the file was before, and how many bytes of the log
/// come before those that it replaced.
#[derive(Clone, Copy, Debug, PartialEq, Eq)]
pub struct Replaced {
    pub at: usize,
    pub count: usize,
    pub long: usize,
    pub start: usize,
}

/// The writes to a file since the last sync, the newest last, and the bytes that they replaced, end to end.
#[derive(Debug, Drop)]
pub struct UndoLog {
    pub writes: Vec<Replaced>,
    pub bytes: Vec<u8>,
}

/// Puts back what the newest write replaced, and cuts off what it added.
fn put_back(write: Replaced, bytes: &[u8], file: &mut Vec<u8>)
    requires start { write.start ≤ length bytes.now }
    requires long { write.long ≤ vec_len file.old }
    requires inside { write.at + (length bytes.now - write.start) ≤ write.long }
    ensures before { file.new.items ≡ file_before write bytes.now file.old.items }
    ensures shorter { vec_len file.new ≤ vec_len file.old }
    ensures capacity { vec_capacity file.new ≡ vec_capacity file.old }
{
    let replaced = &bytes[write.start..];
    file.truncate(write.long);
    file[write.at..write.at + replaced.len()].copy_from_slice(replaced);
}

/// Puts FF in place of each byte.
fn fill_blank(piece: &mut [u8])
    ensures { piece.new ≡ replicate (length piece.old) 255 }
{
    piece.fill(0xFF);
}

/// Puts FF in place of `count` bytes from an offset on.
fn put_blank(at: usize, count: usize, file: &mut Vec<u8>)
    requires reach { at + count ≤ vec_len file.old }
    ensures blank { file.new.items ≡ blank at count file.old.items }
    ensures long { vec_len file.new ≡ vec_len file.old }
    ensures capacity { vec_capacity file.new ≡ vec_capacity file.old }
{
    fill_blank(&mut file[at..at + count]);
}

impl UndoLog {
    /// No writes. It takes no memory.
    pub fn new(alloc: Global) -> UndoLog
        ensures writes { result.writes.items ≡ [] }
        ensures bytes { result.bytes.items ≡ [] }
    {
        UndoLog {
            writes: Vec::new(alloc),
            bytes: Vec::new(alloc),
        }
    }

    /// Reserves memory for `writes` more writes, which replace at most `bytes` bytes.
    pub fn make_room(&mut self, bytes: usize, writes: usize) -> Result<(), Memory>
        ensures bytes { OnOk result (vec_len self.new.bytes + bytes ≤ vec_capacity self.new.bytes) }
        ensures writes { OnOk result (vec_len self.new.writes + writes ≤ vec_capacity self.new.writes) }
        ensures bytes_same { self.new.bytes.items ≡ self.old.bytes.items }
        ensures writes_same { self.new.writes.items ≡ self.old.writes.items }
        ensures bytes_kept { vec_capacity self.old.bytes ≤ vec_capacity self.new.bytes }
        ensures writes_kept { vec_capacity self.old.writes ≤ vec_capacity self.new.writes }
    {
        self.writes.reserve(writes)?;
        self.bytes.reserve(bytes)?;
        Ok(())
    }

    /// Keeps what a write will replace.
    pub fn note(&mut self, file: &[u8], at: usize, count: usize)
        requires inside { at ≤ length file.now }
        requires bytes { vec_len self.old.bytes + count ≤ vec_capacity self.old.bytes }
        requires writes { vec_len self.old.writes < vec_capacity self.old.writes }
        ensures writes { self.new.writes.items ≡ self.old.writes.items ++ record { at = at; count = count; long = length file.now; start = length self.old.bytes.items } ∷ [] }
        ensures bytes { self.new.bytes.items ≡ self.old.bytes.items ++ take count (drop at file.now) }
        ensures bytes_left { vec_capacity self.old.bytes ≤ vec_capacity self.new.bytes }
        ensures writes_left { vec_capacity self.old.writes ≤ vec_capacity self.new.writes }
    {
        let kept = count.min(file.len() - at);
        let _ = self.writes.push(Replaced {
            at,
            count,
            long: file.len(),
            start: self.bytes.len(),
        });
        let _ = self.bytes.extend_from_slice(&file[at..at + kept]);
    }

    /// Forgets the writes.
    pub fn clear(&mut self)
        ensures writes { self.new.writes.items ≡ [] }
        ensures bytes { self.new.bytes.items ≡ [] }
        ensures bytes_left { vec_capacity self.new.bytes ≡ vec_capacity self.old.bytes }
        ensures writes_left { vec_capacity self.new.writes ≡ vec_capacity self.old.writes }
    {
        self.writes.clear();
        self.bytes.clear();
    }

    /// Takes the writes back, the newest first.
    fn take_back(&mut self, file: &mut Vec<u8>)
        requires { CanUndo (reverse self.old.writes.items) self.old.bytes.items file.old.items }
        ensures undone { file.new.items ≡ undone (reverse self.old.writes.items) self.old.bytes.items file.old.items }
        ensures shorter { vec_len file.new ≤ vec_len file.old }
        ensures capacity { vec_capacity file.new ≡ vec_capacity file.old }
        ensures bytes_left { vec_capacity self.new.bytes ≡ vec_capacity self.old.bytes }
        ensures writes_left { vec_capacity self.new.writes ≡ vec_capacity self.old.writes }
    {
        while let Some(write) = self.writes.pop() {
            put_back(write, &self.bytes, file);
            self.bytes.truncate(write.start);
        }
    }

    /// Puts FF in place of each byte that was written, the newest write first.
    fn blank_written(&mut self, file: &mut Vec<u8>)
        requires { AreInside (vec_len file.old) (written (reverse self.old.writes.items)) }
        ensures blanked { file.new.items ≡ blanked (written (reverse self.old.writes.items)) file.old.items }
        ensures long { vec_len file.new ≡ vec_len file.old }
        ensures capacity { vec_capacity file.new ≡ vec_capacity file.old }
        ensures bytes_left { vec_capacity self.new.bytes ≡ vec_capacity self.old.bytes }
        ensures writes_left { vec_capacity self.new.writes ≡ vec_capacity self.old.writes }
    {
        while let Some(write) = self.writes.pop() {
            put_blank(write.at, write.count, file);
        }
    }

    /// Makes the file a crash image of itself, and forgets the writes.
    #[tactic(auto, using(crate::proofs::Undone::all_inside))]
    pub fn leave(&mut self, image: Image, file: &mut Vec<u8>)
        requires { CanUndo (reverse self.old.writes.items) self.old.bytes.items file.old.items }
        ensures left { file.new.items ≡ file_left image (reverse self.old.writes.items) self.old.bytes.items file.old.items }
        ensures shorter { vec_len file.new ≤ vec_len file.old }
        ensures capacity { vec_capacity file.new ≡ vec_capacity file.old }
        ensures writes { self.new.writes.items ≡ [] }
        ensures bytes { self.new.bytes.items ≡ [] }
        ensures bytes_left { vec_capacity self.new.bytes ≡ vec_capacity self.old.bytes }
        ensures writes_left { vec_capacity self.new.writes ≡ vec_capacity self.old.writes }
    {
        match image {
            Image::Synced => self.take_back(file),
            Image::Written => {}
            Image::Blanked => self.blank_written(file),
        }
        self.clear();
    }
}
