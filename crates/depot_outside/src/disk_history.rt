//! The moments of a disk in memory.
ghost use Rattle.std.specs.Prelude.{◌≡◌};
ghost use Rattle.std.specs.Borrow.{ftrue};
ghost use Rattle.depot_outside.specs.Images.{Moments, after_sync, after_write, first_moment};

use std::fmt;
use std::marker::Model;

/// The moments of a disk so far, one after each write and each sync. Contracts alone see them, so they take no bytes.
///
/// No memory holds them: they are kept by the contracts of `new`, `note_write` and `note_sync`, which are proved by
/// hand.
#[derive(Drop)]
pub struct History {
    pub ghost moments: { Moments },
}

impl Model for History {
    ghost also_owns = { λ _. ftrue };
}

impl fmt::Debug for History {
    fn fmt<W: fmt::Write>(&self, f: &mut fmt::Formatter<W>) -> fmt::Result {
        f.write_str("History")
    }
}

impl History {
    /// An empty file, with nothing unsynced, and no moment before it.
    pub fn new() -> History
        ensures { result.moments ≡ first_moment }
    {
        History {}
    }

    /// Adds a moment: this file was synced, and so is the only crash image.
    pub fn note_sync(&mut self, file: &[u8])
        ensures { self.new.moments ≡ after_sync self.old.moments file.now }
    {}

    /// Adds a moment: `count` bytes were written at offset `at` of this file.
    pub fn note_write(&mut self, file: &[u8], at: usize, count: usize)
        ensures { self.new.moments ≡ after_write self.old.moments file.now at count }
    {}
}
