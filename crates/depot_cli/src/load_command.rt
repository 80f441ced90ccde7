//! `load NUMBER`: sums up the replay of a long schedule, its nodes over disks in memory.
ghost use Rattle.std.specs.Prelude.{◌≡◌, IfOk};
ghost use Rattle.depot_cli.specs.Runs.{PrintsLoad};
ghost use Rattle.depot_world.specs.Loads.{load_of};
ghost use Rattle.depot_world.specs.Summaries.{summary_of};
ghost use Rattle.depot_world.specs.Transcript.{transcript_of};

use crate::outcome::CommandOutcome;
use crate::status::Status;
use depot_base::{Bytes, Items, Memory};
use depot_outside::{MemSink, Sink};
use depot_replay::{ReplayError, replay};
use depot_world::{loads_are_schedules, make_load, summary};
use std::alloc::Global;

/// The line that sums up the replay of the schedule that a number makes.
pub fn summed_up(alloc: Global, number: u32) -> Result<CommandOutcome, Memory>
    ensures { IfOk result (λ o. PrintsLoad number o.status o.text) }
{
    Ok(CommandOutcome {
        status: Status::Done,
        text: line(alloc, number)?,
    })
}

/// The line that sums up the load of this number (`summary`).
fn line(alloc: Global, number: u32) -> Result<Bytes, Memory>
    ensures { IfOk result (λ line. line ≡ summary_of number (transcript_of (load_of number))) }
{
    let sink = replayed(alloc, number)?;
    summary(alloc, number, sink.bytes())
}

/// A sink in memory with the transcript of the load of this number. None of its writes is set to fail.
fn replayed(alloc: Global, number: u32) -> Result<MemSink, Memory>
    ensures { IfOk result (λ sink. ⟦<MemSink as Sink>⟧.written sink ≡ transcript_of (load_of number)) }
{
    loads_are_schedules();
    let schedule = make_load(alloc, number)?;
    let mut sink = MemSink::new(alloc, Items::new(alloc));
    match replay(alloc, schedule, &mut sink) {
        Ok(()) => Ok(sink),
        Err(ReplayError::Memory) => Err(Memory),
        Err(ReplayError::Sink) => unreachable!(),
    }
}
