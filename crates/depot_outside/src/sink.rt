//! Where a run writes.
ghost use Rattle.std.specs.Prelude.{◌≡◌, ℕ, List, Bool, IsTrue, IsErrOf};
ghost use Rattle.depot_base.specs.Faults.{HasCause};
ghost use Rattle.depot_outside.specs.Outside.{WritesPiece};

use crate::OutError;

/// The list of the bytes written to it.
pub trait Sink {
    /// Whether contracts see what was written. Where they don't, `written` says nothing.
    ghost tells: { Self → Bool };

    /// What was written.
    ghost written: { Self → List ℕ };

    /// How often it has failed.
    ghost faults: { Self → ℕ };

    /// No call on it fails from now on. A sink that can't promise this keeps the default, which never holds.
    ghost is_faultless: { Self → Type 0 } = { λ _. ⊥ };

    /// Appends bytes. On `Failed` a prefix of them is there, and on `Memory` none.
    fn write(&mut self, bytes: &[u8]) -> Result<(), OutError>
        ensures written { IsTrue (tells self.old) → WritesPiece (written self.old) (written self.new) bytes.now result }
        ensures tells { tells self.new ≡ tells self.old }
        ensures cause { HasCause (faults self.old) (faults self.new) (IsErrOf result OutError.Failed) }
        ensures faultless { is_faultless self.old → is_faultless self.new × (faults self.new ≡ faults self.old) };
}
