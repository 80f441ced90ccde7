//! A run from its beginning: plays events, and writes what they print.
ghost use Rattle.std.specs.Prelude.{◌≡◌, ◌++◌, true, IsTrue, OnOk, OnErr, IsErrOf, IfOk};
ghost use Rattle.depot_base.specs.Faults.{HasCause};
ghost use Rattle.depot_base.specs.Reading.{AddsFrontOf};
ghost use Rattle.depot_model.specs.lists.Lists.{IsIn};
ghost use Rattle.depot_schedule.specs.Schedules.{IsSchedule};
ghost use Rattle.depot_schedule.specs.declared.event.Event.{Event};
ghost use Rattle.depot_world.specs.Run.{run_of};
ghost use Rattle.depot_world.specs.Setups.{setup_of};
ghost use Rattle.depot_scenario.specs.Scenarios.{IsScenarioOf, MayHappen};
ghost use Rattle.depot_simulation.specs.Asking.{asks_right_history};
ghost use Rattle.depot_simulation.specs.Playing.{IsPlayedOn, IsSimulationAt, MayPlay};
ghost use Rattle.depot_simulation.specs.EachRun.{OfEachPrinted, PlaysEvent, WritesFront, WritesLines};
ghost use Rattle.depot_outside.specs.Told.{Wrote, WroteFront, sinks};

use crate::actor::Actor;
use crate::participant::Participant;
use crate::readers::Readers;
use crate::replay_error::ReplayError;
use crate::simulation::Simulation;
use crate::starts_fresh::StartsFresh;
use depot_base::Memory;
use depot_model::{Scheme, Signer};
use depot_outside::{OutError, Sink};
use depot_scenario::{KnownUpdates, LabelUses, Labels, Scenario};
use depot_schedule::{Event, Events, Schedule};
use depot_traces::Reads;
use std::alloc::Global;

/// The run before its first event. `asked` says whether its events need right histories of updates with parents.
pub fn begun<'a, A: StartsFresh<S, &'a G>, S: Scheme + Copy, G: Signer<Of = S>>(
    alloc: Global,
    schedule: &Schedule,
    scenario: &Scenario<'a, S, G>,
    asked: bool,
) -> Result<Simulation<A>, Memory>
    requires schedule { IsSchedule schedule.now }
    requires members { scenario.now.members.now ≡ schedule.now.members }
    requires scenario { IsScenarioOf S.verifies G.key_of G.signature_of (setup_of schedule.now) scenario.now }
    ensures at { IfOk result (λ simulation. IsSimulationAt A.view A.Reader.reads (setup_of schedule.now) (run_of (setup_of schedule.now) schedule.now.members) simulation) }
    ensures asked { IfOk result (λ simulation. simulation.seen.asked ≡ asked) }
{
    let mut participants = Vec::new(alloc);
    for place in 0..scenario.members.len() {
        let member = scenario.members[place];
        if !member.correct {
            continue;
        }
        let signer = &scenario.signers[place];
        let actor = A::fresh_host(alloc, scenario.roster, scenario.scheme, signer, member.node)?;
        participants.push(Participant {
            actor,
            reads: Reads::new(alloc),
        })?;
    }
    Ok(Simulation {
        alloc,
        participants,
        labels: Labels::new(alloc),
        seen: KnownUpdates::new(alloc, asked),
        readers: Readers::new(alloc),
    })
}

/// Plays events, one after the other, and writes the lines of each once it was done. After an error a prefix of all
/// lines went out. An event is dropped once it was played, and so are the labels that no later event names: the memory
/// of the schedule shrinks while its run grows.
pub fn play_all<A: Actor, S: Scheme, G: Signer, K: Sink>(
    simulation: &mut Simulation<A>,
    scenario: &Scenario<'_, S, G>,
    events: Events,
    out: &mut K,
) -> Result<(), ReplayError>
    requires may { (e : Event) → IsIn e events → MayHappen scenario.now.height scenario.now.members.now e }
    requires asked { (e : Event) → IsIn e events → asks_right_history e ≡ true → simulation.old.seen.asked ≡ true }
    requires played { MayPlay S.verifies G.key_of G.signature_of scenario.now events A.view A.Reader.reads simulation.old }
    ensures done { OfEachPrinted S.verifies G.key_of G.signature_of scenario.now events A.view A.Reader.reads simulation.old (λ text. OnOk result (Wrote (sinks K.Sink out.old out.new) text)) }
    ensures front { OfEachPrinted S.verifies G.key_of G.signature_of scenario.now events A.view A.Reader.reads simulation.old (λ text. OnErr result (WroteFront (sinks K.Sink out.old out.new) text)) }
    ensures tells { K.tells out.new ≡ K.tells out.old }
    ensures cause { HasCause (K.faults out.old) (K.faults out.new) (IsErrOf result ReplayError.Sink) }
    ensures faultless { K.is_faultless out.old → K.is_faultless out.new × (K.faults out.new ≡ K.faults out.old) }
{
    let mut to_come = events.into_vec();
    to_come.reverse();
    let mut uses = LabelUses::of(simulation.alloc, to_come.as_slice())?;
    while let Some(event) = to_come.pop() {
        give_back(&mut to_come);
        let played = play_one(simulation, scenario, &event, out);
        // The labels are borrowed from the event: they are forgotten before it is dropped, whatever playing it
        // returned.
        let forgotten = simulation.forget_labels(&event, &mut uses, to_come.len());
        drop(event);
        played?;
        forgotten?;
    }
    Ok(())
}

/// Plays an event and writes its lines. After an error a prefix of them went out, and none if no memory was found for
/// them.
fn play_one<A: Actor, S: Scheme, G: Signer, K: Sink>(
    simulation: &mut Simulation<A>,
    scenario: &Scenario<'_, S, G>,
    event: &Event,
    out: &mut K,
) -> Result<(), ReplayError>
    requires may { MayHappen scenario.now.height scenario.now.members.now event.now }
    requires asked { asks_right_history event.now ≡ true → simulation.old.seen.asked ≡ true }
    requires played { IsPlayedOn S.verifies G.key_of G.signature_of scenario.now A.view A.Reader.reads simulation.old }
    ensures done { OnOk result (WritesLines (PlaysEvent S.verifies G.key_of G.signature_of scenario.now A.view A.Reader.reads simulation.old event.now) (sinks K.Sink out.old out.new) simulation.new) }
    ensures front { OnErr result (WritesFront (PlaysEvent S.verifies G.key_of G.signature_of scenario.now A.view A.Reader.reads simulation.old event.now) (sinks K.Sink out.old out.new) simulation.new) }
    ensures asked { simulation.new.seen.asked ≡ simulation.old.seen.asked }
    ensures tells { K.tells out.new ≡ K.tells out.old }
    ensures cause { HasCause (K.faults out.old) (K.faults out.new) (IsErrOf result ReplayError.Sink) }
    ensures faultless { K.is_faultless out.old → K.is_faultless out.new × (K.faults out.new ≡ K.faults out.old) }
{
    let lines = simulation.event(scenario, event)?;
    write(out, lines.as_slice())
}

/// Frees the memory of played events, as soon as they are half of those that it was allocated for.
fn give_back(events: &mut Vec<Event>)
    ensures { events.new.items ≡ events.old.items }
{
    if events.len() <= events.capacity() / 2 {
        events.shrink_to_fit();
    }
}

/// Writes bytes to a sink. After an error a prefix of them went out; `Sink` is caused by a call that failed.
pub fn write<K: Sink>(out: &mut K, bytes: &[u8]) -> Result<(), ReplayError>
    ensures done { IsTrue (K.tells out.old) → OnOk result (K.written out.new ≡ K.written out.old ++ bytes.now) }
    ensures front { IsTrue (K.tells out.old) → OnErr result (AddsFrontOf (K.written out.old) bytes.now (K.written out.new)) }
    ensures tells { K.tells out.new ≡ K.tells out.old }
    ensures cause { HasCause (K.faults out.old) (K.faults out.new) (IsErrOf result ReplayError.Sink) }
    ensures faultless { K.is_faultless out.old → K.is_faultless out.new × (K.faults out.new ≡ K.faults out.old) }
{
    match out.write(bytes) {
        Ok(()) => Ok(()),
        Err(OutError::Memory) => Err(ReplayError::Memory),
        Err(OutError::Failed) => Err(ReplayError::Sink),
    }
}
