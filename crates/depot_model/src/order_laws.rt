//! What holds of the order of updates and of their latest writes.
ghost use Rattle.std.specs.Prelude.{◌≡◌, ℕ, List, [], ◌∷◌, ◌++◌, ◌↔◌};
ghost use Rattle.depot_base.specs.declared.update.Update.{Update};
ghost use Rattle.depot_model.specs.lists.Lists.{IsIn};
ghost use Rattle.depot_model.specs.updates.Order.{Precedes, past, IsCausal, AreLatestIn};

/// In a list in which each parent comes before its children and no id occurs twice, the past of an update is what
/// precedes it. That holds of each update of the list, and of any that would follow the list.
pub fn past_is_what_precedes()
    ensures listed { (us : List Update) (u t : Update) → IsCausal [] us → IsIn u us → (IsIn t (past u us) ↔ Precedes us t u) }
    ensures next { (us : List Update) (u t : Update) → IsCausal [] us → (IsIn t (past u us) ↔ (IsIn t us × Precedes (us ++ u ∷ []) t u)) }
{}

/// A key has one list of latest writes: no two answers are right.
pub fn latest_writes_are_one_list()
    ensures { (wanted : List ℕ) (among us vs : List Update) → AreLatestIn wanted among us → AreLatestIn wanted among vs → us ≡ vs }
{}
