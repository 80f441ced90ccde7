//! Plays a schedule over nodes on disks in memory, and writes its transcript.
ghost use Rattle.std.specs.Prelude.{◌≡◌, ◌++◌, ℕ, take, IsTrue, OnOk, OnErr, IsErrOf};
ghost use Rattle.depot_base.specs.Faults.{HasCause};
ghost use Rattle.depot_base.specs.Reading.{AddsFrontOf};
ghost use Rattle.depot_schedule.specs.Schedules.{IsSchedule};
ghost use Rattle.depot_world.specs.Setups.{setup_of, suite_of};
ghost use Rattle.depot_world.specs.Transcript.{transcript_of};
ghost use Rattle.depot_scenario.specs.MemberSigners.{AreSigners, member_signers_of};
ghost use Rattle.depot_replay.specs.BegunSchedules.{with_events};

use crate::mem_host::MemHost;
use depot_model::{Scheme, Signer};
use depot_outside::Sink;
use depot_scenario::{Scenario, plain_signers, roster_of, winter_signers};
use depot_schedule::{Events, Schedule};
use depot_sign::{PlainScheme, Roster};
use depot_simulation::{ReplayError, any_asks_right_history, begun, play_all};
use depot_winter::WinterScheme;
use std::alloc::Global;

/// Plays a schedule, each correct node over a disk in memory, and writes its transcript: the lines of each event once
/// it was done. After an error a prefix of the transcript went out. An event is dropped once it was played.
pub fn replay<K: Sink>(alloc: Global, schedule: Schedule, out: &mut K) -> Result<(), ReplayError>
    requires { IsSchedule schedule }
    ensures done { IsTrue (K.tells out.old) → OnOk result (K.written out.new ≡ K.written out.old ++ transcript_of schedule) }
    ensures front { IsTrue (K.tells out.old) → OnErr result ((n : ℕ) × (K.written out.new ≡ K.written out.old ++ take n (transcript_of schedule))) }
    ensures tells { K.tells out.new ≡ K.tells out.old }
    ensures cause { HasCause (K.faults out.old) (K.faults out.new) (IsErrOf result ReplayError.Sink) }
    ensures faultless { K.is_faultless out.old → K.is_faultless out.new × (K.faults out.new ≡ K.faults out.old) }
{
    let members = schedule.members.as_slice();
    if schedule.winter {
        let signers = winter_signers(alloc, members, schedule.height)?;
        return replay_with(alloc, schedule, WinterScheme, signers.as_slice(), out);
    }
    let signers = plain_signers(alloc, members, schedule.height)?;
    replay_with(alloc, schedule, PlainScheme, signers.as_slice(), out)
}

/// The same, with the signers of the members.
fn replay_with<S: Scheme + Copy, G: Signer<Of = S>, K: Sink>(
    alloc: Global,
    schedule: Schedule,
    scheme: S,
    signers: &[G],
    out: &mut K,
) -> Result<(), ReplayError>
    requires schedule { IsSchedule schedule }
    requires scheme { (suite_of schedule.winter).verifies ≡ S.verifies }
    requires signers { AreSigners (suite_of schedule.winter) schedule.height schedule.members (member_signers_of G.key_of G.signature_of signers.now) }
    ensures done { IsTrue (K.tells out.old) → OnOk result (K.written out.new ≡ K.written out.old ++ transcript_of schedule) }
    ensures front { IsTrue (K.tells out.old) → OnErr result (AddsFrontOf (K.written out.old) (transcript_of schedule) (K.written out.new)) }
    ensures tells { K.tells out.new ≡ K.tells out.old }
    ensures cause { HasCause (K.faults out.old) (K.faults out.new) (IsErrOf result ReplayError.Sink) }
    ensures faultless { K.is_faultless out.old → K.is_faultless out.new × (K.faults out.new ≡ K.faults out.old) }
{
    let roster = roster_of(alloc, &schedule, signers)?;
    // The events are moved out, and the members stay, so that each event can be dropped once it was played.
    let Schedule {
        winter,
        height,
        members,
        events,
    } = schedule;
    let begin = Schedule {
        winter,
        height,
        members,
        events: Events::new(alloc),
    };
    play_from(alloc, &begin, events, &roster, scheme, signers, out)
}

/// Plays events from the begin of a schedule on, over nodes of this roster.
fn play_from<S: Scheme + Copy, G: Signer<Of = S>, K: Sink>(
    alloc: Global,
    begin: &Schedule,
    events: Events,
    roster: &Roster,
    scheme: S,
    signers: &[G],
    out: &mut K,
) -> Result<(), ReplayError>
    requires begin { IsSchedule begin.now }
    requires schedule { IsSchedule (with_events begin.now events) }
    requires scheme { (suite_of begin.now.winter).verifies ≡ S.verifies }
    requires signers { AreSigners (suite_of begin.now.winter) begin.now.height begin.now.members (member_signers_of G.key_of G.signature_of signers.now) }
    requires roster { roster.now ≡ (setup_of begin.now).listed }
    ensures done { IsTrue (K.tells out.old) → OnOk result (K.written out.new ≡ K.written out.old ++ transcript_of (with_events begin.now events)) }
    ensures front { IsTrue (K.tells out.old) → OnErr result (AddsFrontOf (K.written out.old) (transcript_of (with_events begin.now events)) (K.written out.new)) }
    ensures tells { K.tells out.new ≡ K.tells out.old }
    ensures cause { HasCause (K.faults out.old) (K.faults out.new) (IsErrOf result ReplayError.Sink) }
    ensures faultless { K.is_faultless out.old → K.is_faultless out.new × (K.faults out.new ≡ K.faults out.old) }
{
    let scenario = Scenario {
        roster,
        scheme,
        height: begin.height,
        members: begin.members.as_slice(),
        signers,
    };
    let asked = any_asks_right_history(events.as_slice());
    let mut play = begun::<MemHost<S, &G>, S, G>(alloc, begin, &scenario, asked)?;
    play_all(&mut play, &scenario, events, out)
}
