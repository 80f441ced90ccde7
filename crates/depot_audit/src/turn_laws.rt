//! What is found of nodes in turn, as the finding of their traces. Each law is a function with an empty body, whose
//! contract is the law.
ghost use Rattle.std.specs.Prelude.{List, Some, None};
ghost use Rattle.depot_base.specs.declared.key.RosterEntry.{RosterEntry};
ghost use Rattle.depot_model.specs.texts.Roster.{Verifies};
ghost use Rattle.depot_model.specs.worlds.Traces.{Trace, AreTraced, IsFindingOf, by_node};
ghost use Rattle.depot_model.specs.worlds.World.{World};
ghost use Rattle.depot_traces.specs.SeenTraces.{finding_of};
ghost use Rattle.depot_traces.specs.declared.finding.Finding.{Finding};
ghost use Rattle.depot_audit.specs.InTurn.{IsTurnOf};

/// What is found of nodes in turn, in rising order, is the finding of their traces. Where nothing is found, the traces
/// make a world.
pub fn turns_are_findings()
    ensures found { (v : Verifies) (listed : List RosterEntry) (ts : List Trace) (f : Finding) → IsTurnOf v listed (by_node ts) (Some f) → IsFindingOf v listed ts (finding_of f) }
    ensures world { (verifies : Verifies) (listed : List RosterEntry) (traces : List Trace) → IsTurnOf verifies listed (by_node traces) None → (W : World) × AreTraced verifies listed traces W }
{}
