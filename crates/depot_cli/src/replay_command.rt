//! `replay SCHEDULE`: plays a schedule, and prints its transcript line by line.
ghost use Rattle.std.specs.Prelude.{◌≡◌, ◌<◌, ◌⊎◌, Some, IfOk};
ghost use Rattle.depot_lines.specs.LineReading.{Parses};
ghost use Rattle.depot_schedule.specs.Schedules.{IsSchedule, IsTextOfSchedule, schedule_of};
ghost use Rattle.depot_outside.specs.Told.{shelves, loads, sinks};
ghost use Rattle.depot_cli.specs.Runs.{Ends, CommandEnds, EndsAtFault, IsFrontOf, IsReplayed, ReplayOf, PlaysSchedule};

use crate::files::load;
use crate::invocation::Invocation;
use crate::outcome::{CommandOutcome, finish};
use crate::status::Status;
use depot_base::{Bytes, Memory};
use depot_lines::TextError;
use depot_outside::{Shelf, Sink};
use depot_replay::ReplayError;
use depot_schedule::Schedule;
use depot_schedule_parser::parse_schedule;
use depot_world::worlds_of_schedules_are_causal;
use std::alloc::Global;

/// Plays a schedule, writing its transcript line by line, and returns how the run ended.
fn play<S: Sink>(alloc: Global, schedule: Schedule, out: &mut S) -> Status
    requires { IsSchedule schedule }
    ensures plays { PlaysSchedule schedule (sinks S.Sink out.old out.new) result }
    ensures sink_fault { S.faults out.old < S.faults out.new → result ≡ Status.Sink }
{
    match depot_replay::replay(alloc, schedule, out) {
        Ok(()) => Status::Done,
        Err(ReplayError::Memory) => Status::Memory,
        Err(ReplayError::Sink) => Status::Sink,
    }
}

/// The schedule of these bytes, which are dropped, or the first fault in them.
fn parsed(alloc: Global, bytes: Bytes) -> Result<Schedule, TextError>
    ensures parses { Parses result (schedule_of bytes) }
    ensures found { IfOk result (IsTextOfSchedule bytes) }
{
    parse_schedule(alloc, bytes.as_slice())
}

/// Plays the schedule of these bytes, or prints that they are none; `name` is the file's. A law says what holds of the
/// world in a transcript.
fn replay_bytes<S: Sink>(alloc: Global, bytes: Bytes, name: &str, out: &mut S) -> Status
    ensures ends { Ends (ReplayOf name.now bytes) (IsFrontOf (λ text. IsReplayed text bytes)) (sinks S.Sink out.old out.new) result }
    ensures sink_fault { S.faults out.old < S.faults out.new → result ≡ Status.Sink }
{
    worlds_of_schedules_are_causal();
    match parsed(alloc, bytes) {
        Ok(schedule) => play(alloc, schedule, out),
        Err(TextError::Memory) => Status::Memory,
        Err(TextError::Line(number, fault)) => finish(
            CommandOutcome::faulty_line(alloc, name, number, fault),
            out,
        ),
    }
}

/// Plays the schedule of that name, and says how the run ended.
pub fn replay<F: Shelf, S: Sink>(alloc: Global, shelf: &mut F, name: &str, out: &mut S) -> Status
    ensures ends { CommandEnds (shelves F.Shelf shelf.old shelf.new) (loads F.Shelf shelf.old shelf.new) (Some (Invocation.Replay name.now)) (sinks S.Sink out.old out.new) result }
    ensures first_fault { (result ≡ Status.Sink) ⊎ ((result ≡ Status.Memory) ⊎ EndsAtFault (shelves F.Shelf shelf.old shelf.new) result) }
    ensures sink_fault { S.faults out.old < S.faults out.new → result ≡ Status.Sink }
    ensures files { F.file shelf.new ≡ F.file shelf.old }
    ensures stores { F.stores shelf.new ≡ F.stores shelf.old }
{
    match load(shelf, name) {
        Ok(Some(bytes)) => replay_bytes(alloc, bytes, name, out),
        Ok(None) => finish(CommandOutcome::no_file(alloc, name), out),
        Err(Memory) => Status::Memory,
    }
}
