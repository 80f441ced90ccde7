//! Names that a shelf was called with.
ghost use Rattle.std.specs.Prelude.{◌≡◌, ◌++◌, ◌∷◌, [], ℕ, List};
ghost use Rattle.std.specs.Borrow.{ftrue};

use std::fmt;
use std::marker::Model;

/// Names that a shelf was called with, in their order. Contracts alone see them, so they take no bytes.
///
/// No memory holds them: they are kept by the contracts of `new` and `note`, which are proved by hand.
#[derive(Drop)]
pub struct NameList {
    pub ghost names: { List (List ℕ) },
}

impl Model for NameList {
    ghost also_owns = { λ _. ftrue };
}

impl fmt::Debug for NameList {
    fn fmt<W: fmt::Write>(&self, f: &mut fmt::Formatter<W>) -> fmt::Result {
        f.write_str("NameList")
    }
}

impl NameList {
    /// No names.
    pub fn new() -> NameList
        ensures { result.names ≡ [] }
    {
        NameList {}
    }

    /// One name more.
    pub fn note(&mut self, name: &[u8])
        ensures { self.new.names ≡ self.old.names ++ name.now ∷ [] }
    {}
}
