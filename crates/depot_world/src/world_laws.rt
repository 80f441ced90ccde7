//! What holds of the worlds of schedules. Each law is a function that does nothing; its contract is the law.
ghost use Rattle.std.specs.Prelude.{◌≡◌, ℕ, List, [], ◌∷◌, take};
ghost use Rattle.depot_base.specs.declared.update.Update.{Update};
ghost use Rattle.depot_model.specs.worlds.Causality.{IsForkJoinCausal, ConvictsNoCorrectNode};
ghost use Rattle.depot_model.specs.lists.Lists.{IsIn};
ghost use Rattle.depot_model.specs.updates.Order.{IsCausal, AreLatestIn};
ghost use Rattle.depot_model.specs.worlds.Receipts.{AreReceiptsTrue};
ghost use Rattle.depot_model.specs.worlds.Audit.{Finding, finding_in};
ghost use Rattle.depot_model.specs.texts.Texts.{IsRoster};
ghost use Rattle.depot_model.specs.worlds.Traces.{IsFindingOf};
ghost use Rattle.depot_model.specs.worlds.World.{Correct, IsWorld, IsAuthentic, IsCollisionFree};
ghost use Rattle.depot_schedule.specs.Schedules.{IsSchedule};
ghost use Rattle.depot_schedule.specs.declared.event.Event.{Event};
ghost use Rattle.depot_schedule.specs.declared.schedule.Schedule.{Schedule};
ghost use Rattle.depot_model.specs.updates.LatestList.{latest_in};
ghost use Rattle.depot_laws.specs.WorldFacts.{PairsConvictNoCorrectNode};
ghost use Rattle.depot_world.specs.Audits.{IsSound, audited, traces_by};
ghost use Rattle.depot_world.specs.Forgetting.{IsAlikeFor, GoesAlike};
ghost use Rattle.depot_world.specs.Run.{Run, run_of, world_by};
ghost use Rattle.depot_world.specs.Setups.{Setup, setup_of};
ghost use Rattle.depot_world.specs.Transcript.{run_after, world_of};

/// In a list of updates in which each parent precedes its children, the list `latest_in` of a key has the latest writes
/// of that key, in the listed order.
pub fn latest_writes_are_listed()
    ensures { (key : List ℕ) (us : List Update) → IsCausal [] us → AreLatestIn key us (latest_in key us) }
{}

/// What a schedule makes happen is a world with one roster: its correct nodes are distinct and in the roster, each has
/// a lawful journal and reads of that journal, and each proof that was judged with a verdict has one. This holds
/// whatever faulty nodes sign and send, and wherever disks stop.
pub fn schedules_make_worlds()
    ensures world { (s : Schedule) → IsSchedule s → IsWorld (world_of s) }
    ensures roster { (s : Schedule) → IsSchedule s → IsRoster (world_of s).listed }
{}

/// So the laws of worlds hold of a schedule's. While no correct node's signature was forged and no two hashed texts
/// collide, it is fork-join causal, and no conviction and no judged proof names a correct node. For proofs of two
/// statements that holds whether hashes collide or not.
pub fn worlds_of_schedules_are_causal()
    ensures causal { (s : Schedule) → IsSchedule s → IsAuthentic (world_of s) → IsCollisionFree (world_of s) → IsForkJoinCausal (world_of s) }
    ensures convicts { (s : Schedule) → IsSchedule s → IsAuthentic (world_of s) → IsCollisionFree (world_of s) → ConvictsNoCorrectNode (world_of s) }
    ensures pairs { (s : Schedule) → IsSchedule s → IsAuthentic (world_of s) → PairsConvictNoCorrectNode (world_of s) }
{}

/// Each receipt that a correct node of a schedule's world gave is for an update that it had accepted, all of whose
/// values it held, wherever its disk stopped.
pub fn receipts_of_schedules_are_true()
    ensures { (s : Schedule) (c : Correct) → IsSchedule s → IsIn c (world_of s).nodes → AreReceiptsTrue c.journal }
{}

/// At each point of a schedule its correct nodes may be audited: they make a world, they are 1 to 32, and none has more
/// reads than a schedule has lines.
pub fn runs_of_schedules_are_sound()
    ensures { (s : Schedule) (n : ℕ) → IsSchedule s → IsSound (setup_of s) (run_after (setup_of s) (run_of (setup_of s) s.members) (take n s.events)) }
{}

/// If the correct nodes of a run make a world, an audit of their traces finds what it finds in that world.
pub fn audits_of_runs()
    ensures { (setup : Setup) (run : Run) (found : Finding) → IsWorld (world_by setup run) → IsFindingOf setup.suite.verifies setup.listed (traces_by run) found → found ≡ finding_in (audited setup run) }
{}

/// Dropping labels that no later event names changes nothing: the next event prints the same lines, and the runs after
/// it agree again.
pub fn runs_go_on_without_labels()
    ensures { (setup : Setup) (es : List Event) (e : Event) (whole few : Run) → IsAlikeFor (e ∷ es) whole few → GoesAlike setup es e whole few }
{}
