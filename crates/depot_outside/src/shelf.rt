//! Named files.
ghost use Rattle.std.specs.Prelude.{◌≡◌, ◌≢◌, ◌++◌, ◌∷◌, [], ℕ, List, Bool, IsTrue, Option, Some, OnOk, IfOk, IsErrOf};
ghost use Rattle.depot_base.specs.Faults.{HasCause};
ghost use Rattle.depot_outside.specs.Outside.{FailsOn};

use crate::OutError;
use depot_base::Bytes;

/// A map from names to bytes.
pub trait Shelf {
    /// Whether contracts see its files. Where they don't, `file` says nothing.
    ghost tells: { Self → Bool };

    /// The bytes under each name.
    ghost file: { Self → List ℕ → Option (List ℕ) };

    /// The names that it was asked to load, in their order, whatever was answered.
    ghost loads: { Self → List (List ℕ) };

    /// The names that it was asked to store under, in their order, whatever was answered.
    ghost stores: { Self → List (List ℕ) };

    /// The names on which it failed, in the order of these calls.
    ghost failed: { Self → List (List ℕ) };

    /// How often it has failed.
    ghost faults: { Self → ℕ };

    /// No call on it fails from now on. A shelf that can't promise this keeps the default, which never holds.
    ghost is_faultless: { Self → Type 0 } = { λ _. ⊥ };

    /// Loads the file of a name; returns None, which is no fault, where there is none. No file changes, whatever is
    /// answered.
    fn load(&mut self, name: &str) -> Result<Option<Bytes>, OutError>
        ensures found { IsTrue (tells self.old) → IfOk result (λ found. found ≡ file self.old name.now) }
        ensures same { file self.new ≡ file self.old }
        ensures loads { loads self.new ≡ loads self.old ++ name.now ∷ [] }
        ensures stores { stores self.new ≡ stores self.old }
        ensures failed { FailsOn (failed self.old) (failed self.new) name.now result }
        ensures tells { tells self.new ≡ tells self.old }
        ensures cause { HasCause (faults self.old) (faults self.new) (IsErrOf result OutError.Failed) }
        ensures faultless { is_faultless self.old → is_faultless self.new × (faults self.new ≡ faults self.old) };

    /// Stores bytes under a name, in place of any that were there. On `Failed` that name may hold anything, and on
    /// `Memory` nothing has changed.
    fn store(&mut self, name: &str, bytes: &[u8]) -> Result<(), OutError>
        ensures stored { IsTrue (tells self.old) → OnOk result (file self.new name.now ≡ Some bytes.now) }
        ensures others { (other : List ℕ) → other ≢ name.now → file self.new other ≡ file self.old other }
        ensures memory { IsErrOf result OutError.Memory → file self.new ≡ file self.old }
        ensures loads { loads self.new ≡ loads self.old }
        ensures stores { stores self.new ≡ stores self.old ++ name.now ∷ [] }
        ensures failed { FailsOn (failed self.old) (failed self.new) name.now result }
        ensures tells { tells self.new ≡ tells self.old }
        ensures cause { HasCause (faults self.old) (faults self.new) (IsErrOf result OutError.Failed) }
        ensures faultless { is_faultless self.old → is_faultless self.new × (faults self.new ≡ faults self.old) };
}
