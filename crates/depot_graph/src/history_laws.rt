//! What holds of the sets that are hashed. Each law is a function with an empty body, whose contract is the law.
ghost use Rattle.std.specs.Prelude.{◌≡◌, ◌↔◌, ℕ, List, [], map};
ghost use Rattle.depot_base.specs.declared.update.Update.{Update};
ghost use Rattle.depot_model.specs.lists.Lists.{IsIn};
ghost use Rattle.depot_model.specs.texts.Texts.{id_of_update};
ghost use Rattle.depot_model.specs.updates.Order.{parents, past, IsCausal};
ghost use Rattle.depot_model.specs.lists.Items.{updates_at};
ghost use Rattle.depot_graph.specs.Closure.{closure_of, IsAtOrBefore};

/// The updates at an update's parents' places, with all that precede them, are its past.
pub fn closure_of_parents_is_past()
    ensures { (us : List Update) (u : Update) (places : List ℕ) → map id_of_update (updates_at us places) ≡ parents u → closure_of places us ≡ past u us }
{}

/// In a list in which each parent comes before its children and no id occurs twice, the closure of some places has
/// exactly the updates at these places and those that precede one of them.
pub fn closure_is_what_precedes()
    ensures { (us : List Update) (places : List ℕ) (t : Update) → IsCausal [] us → (IsIn t (closure_of places us) ↔ IsAtOrBefore us places t) }
{}
