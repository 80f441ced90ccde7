//! The records that were read.
ghost use Rattle.std.specs.Prelude.{◌≡◌, List, [], ◌++◌};
ghost use Rattle.std.specs.Borrow.{ftrue};
ghost use Rattle.depot_base.specs.declared.record.Record.{Record};

use crate::growth::Growth;
use std::marker::Model;

/// The records that were read. Contracts alone see them, so they take no bytes: the readings answer what is asked of
/// them.
///
/// No memory holds them: they are kept by the contracts of `new` and `with`, which are proved by hand.
#[derive(Drop)]
pub struct Recorded {
    pub ghost items: { List Record },
}

impl Model for Recorded {
    ghost also_owns = { λ _. ftrue };
}

impl Recorded {
    /// No records.
    pub fn new() -> Recorded
        ensures { result.items ≡ [] }
    {
        Recorded {}
    }

    /// These records, followed by those of a growth.
    pub fn with(&self, new: &Growth) -> Recorded
        ensures { result.items ≡ self.now.items ++ new.now }
    {
        Recorded {}
    }
}
