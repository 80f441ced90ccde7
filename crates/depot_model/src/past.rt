//! A set of accepted updates.
ghost use Rattle.std.specs.Prelude.{◌≡◌, ◌<◌, ◌+◌, ◌↔◌, List, [], length, IsTrue, Some, slice_get};
ghost use Rattle.depot_base.specs.declared.update.Update.{Update};
ghost use Rattle.depot_model.specs.texts.Texts.{id_of_update};
ghost use Rattle.depot_model.specs.updates.Order.{IsCausal};
ghost use Rattle.depot_model.specs.lists.Items.{at, place_of_id, PrecedesAt, AreLeaves, children_of};

use depot_base::{Hash32, Steps, Update};
use std::sync::ledger::Ledger;

/// A set of accepted updates. Its items are numbered from 0 in the order in which they were accepted. No call takes memory.
pub trait Past {
    /// The updates, in the order in which they were accepted.
    ghost updates: { Self → List Update };

    /// How many there are.
    fn count(&self) -> u32
        ensures { result ≡ length (updates self.now) };

    /// The update of an item.
    fn update(&self, item: u32) -> &Update
        requires { item < length (updates self.now) }
        ensures { slice_get (updates self.now) item ≡ Some result.now };

    /// The id of an item.
    fn id(&self, item: u32) -> &Hash32
        requires { item < length (updates self.now) }
        ensures { at (updates self.now) item (λ u. id_of_update u ≡ result.now) };

    /// The item with an id. None exactly where no item has it.
    fn find(&self, id: &Hash32) -> Option<u32>
        ensures { result ≡ place_of_id id.now (updates self.now) };

    /// Whether the item `a` precedes the item `b`. It takes one step.
    fn before<L: Ledger>(&self, a: u32, b: u32, steps: &mut Steps<L>) -> bool
        requires a { a < length (updates self.now) }
        requires b { b < length (updates self.now) }
        ensures answer { IsTrue result ↔ PrecedesAt (updates self.now) a b }
        ensures cost { steps.new ≡ steps.old + 1 };

    /// The items whose id no item has as its prev, each once, in no promised order.
    fn leaves(&self) -> &[u32]
        ensures { AreLeaves (updates self.now) result.now };

    /// The items whose prev is this item, in rising order.
    fn children(&self, item: u32) -> &[u32]
        requires { item < length (updates self.now) }
        ensures { result.now ≡ children_of (updates self.now) item };

    /// Each parent of an item is an earlier item, and no two items have one id.
    ghost causal: { (p : Self) → IsCausal [] (updates p) };
}
