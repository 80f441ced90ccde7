//! Which reads and which judged proofs the world of a schedule has, and which reads a session.
ghost use Rattle.std.specs.Prelude.{◌≡◌, List, map};
ghost use Rattle.depot_model.specs.exchange.Bundle.{Signs};
ghost use Rattle.depot_model.specs.checks.Checks.{Setting};
ghost use Rattle.depot_model.specs.lists.Lists.{IsIn};
ghost use Rattle.depot_model.specs.worlds.World.{Correct};
ghost use Rattle.depot_schedule.specs.Schedules.{IsSchedule};
ghost use Rattle.depot_schedule.specs.declared.schedule.Schedule.{Schedule};
ghost use Rattle.depot_script.specs.declared.command.Command.{Command};
ghost use Rattle.depot_session.specs.Sessions.{Session, answers_of};
ghost use Rattle.depot_world.specs.Run.{run_of};
ghost use Rattle.depot_world.specs.Setups.{setup_of};
ghost use Rattle.depot_world.specs.Transcript.{world_of};
ghost use Rattle.depot_examples.specs.Asked.{keys_read, verdicts_on};
ghost use Rattle.depot_examples.specs.Commanded.{ReadsFurther, carried_out_of, keys_got};

/// A node's reads in the world of a schedule are those of its `get` events, each in its turn: none is lost when the
/// node stops or is started again. The judged proofs are those that `judge` events have a verdict on, each in its turn.
pub fn worlds_have_all_reads_and_verdicts()
    ensures reads { (s : Schedule) (c : Correct) → IsSchedule s → IsIn c (world_of s).nodes → map (λ r. r.key) c.reads ≡ keys_read c.node s.events }
    ensures judged { (s : Schedule) → (world_of s).judged ≡ verdicts_on (setup_of s) (run_of (setup_of s) s.members) s.events }
{}

/// A script adds to a node's reads those of its `get` commands, each in its turn, up to the command that ends the run.
/// So over several sessions they are those of all their `get` commands.
pub fn sessions_have_all_reads()
    ensures { (here : Setting) (sign : Signs) (s : Session) (commands : List Command) → ReadsFurther s (answers_of here sign s commands).session (keys_got (carried_out_of here sign s commands)) }
{}
