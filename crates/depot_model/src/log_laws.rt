//! What holds of logs.
ghost use Rattle.std.specs.Prelude.{◌≡◌, ℕ, List, [], None};
ghost use Rattle.depot_base.specs.declared.update.Update.{Update};
ghost use Rattle.depot_model.specs.texts.Log.{IsLog, IsLogFault, firsts, first_orphan};
ghost use Rattle.depot_model.specs.updates.Order.{IsCausal};

/// Bytes are read as a log in one way: they are the log of one list of updates, or have one first fault, and never both.
pub fn logs_are_read_in_one_way()
    ensures one_list { (bytes : List ℕ) (us vs : List Update) → IsLog bytes us → IsLog bytes vs → us ≡ vs }
    ensures no_fault { (bytes : List ℕ) (us : List Update) (at : ℕ) → IsLog bytes us → IsLogFault bytes at → ⊥ }
    ensures one_fault { (bytes : List ℕ) (i j : ℕ) → IsLogFault bytes i → IsLogFault bytes j → i ≡ j }
{}

/// Where each parent in a log comes before its children, the same holds without the repeats, and no id occurs twice.
pub fn firsts_keep_parents_before_children()
    ensures { (us : List Update) → first_orphan us ≡ None → IsCausal [] (firsts us) }
{}
