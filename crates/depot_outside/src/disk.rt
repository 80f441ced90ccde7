//! One file, as a journal sees it.
ghost use Rattle.std.specs.Prelude.{◌≡◌, ◌+◌, ◌++◌, ◌∷◌, [], ◌≤◌, ℕ, List, Bool, IsTrue, IfOk, OnOk, IsErr, is_err, length, slice_range};
ghost use Rattle.depot_base.specs.Calls.{Made, asks_length, reads_at, writes_at, syncs};
ghost use Rattle.depot_base.specs.Disk.{Elapses, ImagesFollow, IsTorn, IsWritten, Only, Within};
ghost use Rattle.depot_base.specs.Faults.{HasCause};

use crate::Failed;
use depot_base::Memory;

/// The error of a call that takes a disk by value: why it refused, and the disk.
#[derive(Debug, Drop)]
pub struct Back<E, D> {
    /// Why it refused.
    pub error: E,
    /// The disk, as the call left it.
    pub disk: D,
}

/// The bytes of one file, and its crash images.
///
/// A stop may come at any moment, also within a call. Between two syncs each written range, and the part past the old
/// end, may then hold any bytes; other bytes stay. After a sync that succeeded, the only crash image is what a read
/// returns. A disk whose bytes are visible keeps to this; for any other, no image is known.
///
/// A call that returns `Failed` may have been stopped itself: the file then reads as one of its crash images.
pub trait Disk {
    /// The disk's handle; a borrowed disk has the name of the borrow. No call changes it.
    ghost handle: { Self → ℕ };

    /// Whether contracts see its bytes. Where they don't, `seen` says nothing.
    ghost tells: { Self → Bool };

    /// The bytes of the file, as a read gives them.
    ghost seen: { Self → List ℕ };

    /// The crash images at this moment.
    ghost may_leave: { Self → List ℕ → Type 0 };

    /// This moment, as a number that never falls.
    ghost moment: { Self → ℕ };

    /// The crash images of all moments since this one.
    ghost left_since: { Self → ℕ → List ℕ → Type 0 };

    /// How often it has failed.
    ghost faults: { Self → ℕ };

    /// No call on it fails from now on. A disk that can't promise this keeps the default, which never holds.
    ghost is_faultless: { Self → Type 0 } = { λ _. ⊥ };

    /// The second is what the first became by these calls, each with whether it failed; no other was made on the file.
    ghost after: { Self → List Made → Self → Type 0 };

    /// How many more bytes can be written without memory.
    ghost room_bytes: { Self → ℕ };

    /// How many more writes and syncs can be made without memory.
    ghost room_calls: { Self → ℕ };

    /// How many bytes the file has. On `Failed` the crash images are those that were possible before.
    fn length(&mut self) -> Result<u64, Failed>
        ensures length { IsTrue (tells self.old) → IfOk result (λ n. n ≡ length (seen self.old)) }
        ensures seen { OnOk result (seen self.new ≡ seen self.old) }
        ensures images { Within (may_leave self.old) (may_leave self.new) }
        ensures time { Elapses (moment self.old) (moment self.new) (left_since self.old) (left_since self.new) (may_leave self.new) }
        ensures made { after self.old (record { call = asks_length; failed = is_err result } ∷ []) self.new }
        ensures handle { handle self.new ≡ handle self.old }
        ensures tells { tells self.new ≡ tells self.old }
        ensures cause { HasCause (faults self.old) (faults self.new) (IsErr result) }
        ensures faultless { is_faultless self.old → is_faultless self.new × (faults self.new ≡ faults self.old) }
        ensures room { room_bytes self.old ≤ room_bytes self.new }
        ensures calls { room_calls self.old ≤ room_calls self.new };

    /// Fills `into` with the bytes of the file from offset `at` on. The whole range must be in the file. On `Failed`
    /// `into` may hold anything, and the crash images are those that were possible before.
    fn read(&mut self, at: u64, into: &mut [u8]) -> Result<(), Failed>
        requires { IsTrue (tells self.old) → at + length into.old ≤ length (seen self.old) }
        ensures read { OnOk result (IsTrue (tells self.old) → into.new ≡ slice_range (seen self.old) at (at + length into.old)) }
        ensures seen { OnOk result (seen self.new ≡ seen self.old) }
        ensures images { Within (may_leave self.old) (may_leave self.new) }
        ensures time { Elapses (moment self.old) (moment self.new) (left_since self.old) (left_since self.new) (may_leave self.new) }
        ensures made { after self.old (record { call = reads_at at (length into.old); failed = is_err result } ∷ []) self.new }
        ensures handle { handle self.new ≡ handle self.old }
        ensures tells { tells self.new ≡ tells self.old }
        ensures cause { HasCause (faults self.old) (faults self.new) (IsErr result) }
        ensures faultless { is_faultless self.old → is_faultless self.new × (faults self.new ≡ faults self.old) }
        ensures room { room_bytes self.old ≤ room_bytes self.new }
        ensures calls { room_calls self.old ≤ room_calls self.new };

    /// Reserves memory for `calls` writes and syncs, which write at most `bytes` bytes in all. It doesn't access the
    /// file.
    fn make_room(&mut self, bytes: u64, calls: u32) -> Result<(), Memory>
        ensures room { OnOk result (bytes ≤ room_bytes self.new) }
        ensures calls { OnOk result (calls ≤ room_calls self.new) }
        ensures room_kept { room_bytes self.old ≤ room_bytes self.new }
        ensures calls_kept { room_calls self.old ≤ room_calls self.new }
        ensures seen { seen self.new ≡ seen self.old }
        ensures images { Within (may_leave self.old) (may_leave self.new) }
        ensures time { Elapses (moment self.old) (moment self.new) (left_since self.old) (left_since self.new) (may_leave self.new) }
        ensures made { after self.old [] self.new }
        ensures handle { handle self.new ≡ handle self.old }
        ensures tells { tells self.new ≡ tells self.old }
        ensures faults { faults self.new ≡ faults self.old }
        ensures faultless { is_faultless self.old → is_faultless self.new };

    /// Writes bytes at offset `at`, which isn't past the file's end. Memory for them, and for one call, must have been
    /// reserved. On `Failed` the crash images are those possible after a write that succeeded.
    fn write_at(&mut self, at: u64, bytes: &[u8]) -> Result<(), Failed>
        requires inside { IsTrue (tells self.old) → at ≤ length (seen self.old) }
        requires room { length bytes.now ≤ room_bytes self.old }
        requires calls { 1 ≤ room_calls self.old }
        ensures written { OnOk result (IsTrue (tells self.old) → IsWritten (seen self.old) at bytes.now (seen self.new)) }
        ensures images { ImagesFollow (IsTorn at (length bytes.now)) (may_leave self.old) (may_leave self.new) }
        ensures time { Elapses (moment self.old) (moment self.new) (left_since self.old) (left_since self.new) (may_leave self.new) }
        ensures made { after self.old (record { call = writes_at at bytes.now; failed = is_err result } ∷ []) self.new }
        ensures handle { handle self.new ≡ handle self.old }
        ensures tells { tells self.new ≡ tells self.old }
        ensures cause { HasCause (faults self.old) (faults self.new) (IsErr result) }
        ensures faultless { is_faultless self.old → is_faultless self.new × (faults self.new ≡ faults self.old) }
        ensures room_left { room_bytes self.old ≤ room_bytes self.new + length bytes.now }
        ensures calls_left { room_calls self.old ≤ room_calls self.new + 1 };

    /// Syncs (fsync): the only crash image is then what a read returns. Memory for one call must have been reserved. On
    /// `Failed` the crash images are those that were possible before.
    fn sync(&mut self) -> Result<(), Failed>
        requires { 1 ≤ room_calls self.old }
        ensures stable { OnOk result (IsTrue (tells self.old) → Only (seen self.old) (may_leave self.new)) }
        ensures seen { OnOk result (seen self.new ≡ seen self.old) }
        ensures images { Within (may_leave self.old) (may_leave self.new) }
        ensures time { Elapses (moment self.old) (moment self.new) (left_since self.old) (left_since self.new) (may_leave self.new) }
        ensures made { after self.old (record { call = syncs; failed = is_err result } ∷ []) self.new }
        ensures handle { handle self.new ≡ handle self.old }
        ensures tells { tells self.new ≡ tells self.old }
        ensures cause { HasCause (faults self.old) (faults self.new) (IsErr result) }
        ensures faultless { is_faultless self.old → is_faultless self.new × (faults self.new ≡ faults self.old) }
        ensures room { room_bytes self.old ≤ room_bytes self.new }
        ensures calls_left { room_calls self.old ≤ room_calls self.new + 1 };

    /// What a read returns is one of the crash images.
    ghost reads_as_image: { (d : Self) → IsTrue (tells d) → may_leave d (seen d) };

    /// This moment is one of those since an earlier one.
    ghost counts_now: { (d : Self) (t : ℕ) (image : List ℕ) → t ≤ moment d → may_leave d image → left_since d t image };

    /// Since this moment there is no other.
    ghost only_now: { (d : Self) (image : List ℕ) → left_since d (moment d) image → may_leave d image };

    /// By no call a disk becomes itself.
    ghost after_none: { (d : Self) → after d [] d };

    /// Calls may follow one another.
    ghost after_more: { (old between new : Self) (calls more : List Made) → after old calls between → after between more new → after old (calls ++ more) new };
}

/// A borrowed disk is a disk.
impl<D: Disk> Disk for &mut D {
    ghost handle = { λ d. d.ghost_name };

    ghost tells = { λ d. D.tells d.now };

    ghost seen = { λ d. D.seen d.now };

    ghost may_leave = { λ d image. D.may_leave d.now image };

    ghost moment = { λ d. D.moment d.now };

    ghost left_since = { λ d t image. D.left_since d.now t image };

    ghost faults = { λ d. D.faults d.now };

    ghost is_faultless = { λ d. D.is_faultless d.now };

    ghost after = { λ d calls e. D.after d.now calls e.now };

    ghost room_bytes = { λ d. D.room_bytes d.now };

    ghost room_calls = { λ d. D.room_calls d.now };

    fn length(&mut self) -> Result<u64, Failed> {
        (**self).length()
    }

    fn read(&mut self, at: u64, into: &mut [u8]) -> Result<(), Failed> {
        (**self).read(at, into)
    }

    fn make_room(&mut self, bytes: u64, calls: u32) -> Result<(), Memory> {
        (**self).make_room(bytes, calls)
    }

    fn write_at(&mut self, at: u64, bytes: &[u8]) -> Result<(), Failed> {
        (**self).write_at(at, bytes)
    }

    fn sync(&mut self) -> Result<(), Failed> {
        (**self).sync()
    }

    ghost reads_as_image = { λ d t. D.reads_as_image d.now t };

    ghost counts_now = { λ d t image le now. D.counts_now d.now t image le now };

    ghost only_now = { λ d image left. D.only_now d.now image left };

    ghost after_none = { λ d. D.after_none d.now };

    ghost after_more = { λ old between new calls more first second. D.after_more old.now between.now new.now calls more first second };
}
