//! Facts that a test over a list states, and the same in words.
ghost use Rattle.std.specs.Prelude.{◌≡◌, ℕ, List, length, map};
ghost use Rattle.depot_base.specs.Writes.{values_in};
ghost use Rattle.depot_base.specs.declared.key.RosterEntry.{RosterEntry};
ghost use Rattle.depot_base.specs.declared.proof.Proof.{Proof};
ghost use Rattle.depot_base.specs.declared.write.Change.{Change};
ghost use Rattle.depot_base.specs.declared.write.Write.{Write};
ghost use Rattle.depot_examples.specs.LastPoint.{EndsContrary};
ghost use Rattle.depot_model.specs.checks.Own.{changes_of, values_of, write_of};
ghost use Rattle.depot_model.specs.texts.Roster.{Verifies};

/// The changes of an own update are those that its writes and its values make, in the order of the writes: they have
/// the keys of the writes and, if there is a value for each write that is no deletion, these values. Writes and values
/// of changes make these changes again.
pub fn writes_and_values_make_changes()
    ensures keys { (ws : List Write) (values : List (List ℕ)) → map (λ c. c.key) (changes_of ws values) ≡ map (λ w. w.key) ws }
    ensures values { (ws : List Write) (values : List (List ℕ)) → length values ≡ length (values_in ws) → values_of (changes_of ws values) ≡ values }
    ensures back { (changes : List Change) → changes_of (map write_of changes) (values_of changes) ≡ changes }
{}

/// A judge's last check of a proof is whether it is contrary: whether its statements contradict each other in its kind,
/// or its voucher names its text, which is no update's.
pub fn proofs_are_contrary_at_last()
    ensures { (verifies : Verifies) (r : List RosterEntry) (p : Proof) → EndsContrary verifies r p }
{}
