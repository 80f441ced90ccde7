//! What holds of the states of journals. Each law is a function with an empty body, whose contract is the law.
ghost use Rattle.std.specs.Prelude.{List, [], ◌∷◌, ◌++◌};
ghost use Rattle.depot_base.specs.declared.proof.Proof.{Proof};
ghost use Rattle.depot_base.specs.declared.record.Record.{Record};
ghost use Rattle.depot_base.specs.declared.record.Record.TheVariants.{Foreign, Conviction};
ghost use Rattle.depot_base.specs.declared.statement.Signed.{Signed};
ghost use Rattle.depot_accept.specs.StateView.{View, IsStateOf};

use depot_model::Scheme;

/// A state to which another's statement was added, and then the conviction of a node, is that of the journal in which
/// the conviction comes first.
pub fn convictions_may_come_late<S: Scheme>()
    ensures { (J : List Record) (s : Signed) (p : Proof) (v : View S) → IsStateOf (J ++ Foreign s ∷ [] ++ Conviction p ∷ []) v → IsStateOf (J ++ Conviction p ∷ [] ++ Foreign s ∷ []) v }
{}
