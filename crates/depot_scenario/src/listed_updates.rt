//! The list of the updates that are known.
ghost use Rattle.std.specs.Prelude.{◌≡◌, [], ◌∷◌, List};
ghost use Rattle.std.specs.Borrow.{ftrue};
ghost use Rattle.depot_base.specs.declared.update.Update.{Update};
ghost use Rattle.depot_world.specs.Run.{seen_with};

use depot_base::Update;
use std::marker::Model;

/// Updates, each id once, in the order in which they came. Only contracts see them, so they take no bytes.
///
/// No memory holds them: the contracts of `new` and `note` keep them, and are proved by hand.
#[derive(Drop)]
pub struct ListedUpdates {
    pub ghost updates: { List Update },
}

impl Model for ListedUpdates {
    ghost also_owns = { λ _. ftrue };
}

impl ListedUpdates {
    /// No updates.
    pub fn new() -> ListedUpdates
        ensures { result.updates ≡ [] }
    {
        ListedUpdates {}
    }

    /// One update more, unless its id is there.
    pub fn note(&mut self, update: &Update)
        ensures { self.new.updates ≡ seen_with self.old.updates (update.now ∷ []) }
    {}
}
