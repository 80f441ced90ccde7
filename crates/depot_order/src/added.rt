//! The items that were added.
ghost use Rattle.std.specs.Prelude.{◌≡◌, List, [], ◌∷◌, ◌++◌};
ghost use Rattle.std.specs.Borrow.{ftrue};
ghost use Rattle.depot_order.specs.ChainItems.{ChainItem};

use std::fmt;
use std::marker::Model;

/// The items that were added, each with its chain, its place there and its parents. Contracts alone see them, so they
/// take no bytes: the rows answer what is asked of them.
///
/// No memory holds them: they are kept by the contracts of `new` and `note`, which are proved by hand.
#[derive(Drop)]
pub struct Added {
    pub ghost items: { List ChainItem },
}

impl Model for Added {
    ghost also_owns = { λ _. ftrue };
}

impl fmt::Debug for Added {
    fn fmt<W: fmt::Write>(&self, f: &mut fmt::Formatter<W>) -> fmt::Result {
        f.write_str("Added")
    }
}

impl Added {
    /// No items.
    pub fn new() -> Added
        ensures { result.items ≡ [] }
    {
        Added {}
    }

    /// One item more.
    pub fn note(&mut self, parents: &[u32], chain: u32, place: u32)
        ensures { self.new.items ≡ self.old.items ++ record { chain = chain; place = place; parents = parents.now } ∷ [] }
    {}
}
