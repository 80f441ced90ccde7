//! What a source gave, and how often it failed.
ghost use Rattle.std.specs.Prelude.{◌≡◌, ◌+◌, ◌++◌, [], ℕ, List};
ghost use Rattle.std.specs.Borrow.{ftrue};

use std::fmt;
use std::marker::Model;

/// The bytes that a source gave, in their order, and how often it failed. Contracts alone see both, so they take no bytes and have no end.
///
/// No memory holds them: they are kept by the contracts of the functions here, which are proved by hand.
#[derive(Drop)]
pub struct SourceHistory {
    pub ghost given: { List ℕ },
    pub ghost faults: { ℕ },
}

impl Model for SourceHistory {
    ghost also_owns = { λ _. ftrue };
}

impl fmt::Debug for SourceHistory {
    fn fmt<W: fmt::Write>(&self, f: &mut fmt::Formatter<W>) -> fmt::Result {
        f.write_str("SourceHistory")
    }
}

impl SourceHistory {
    /// Nothing was given, and nothing failed.
    pub fn new() -> SourceHistory
        ensures { result ≡ record { given = []; faults = 0 } }
    {
        SourceHistory {}
    }

    /// A piece was given.
    pub fn gave(&mut self, piece: &[u8])
        ensures { self.new ≡ record { given = self.old.given ++ piece.now; faults = self.old.faults } }
    {}

    /// The source failed once more.
    pub fn failed(&mut self)
        ensures { self.new ≡ record { given = self.old.given; faults = self.old.faults + 1 } }
    {}
}
