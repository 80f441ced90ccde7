//! A whole load.
ghost use Rattle.std.specs.Prelude.{◌≡◌, ◌<◌, ◌++◌, ◌∷◌, [], OnOk, IfOk};
ghost use Rattle.depot_world.specs.Loads.{begun, whole_draft, exchange, greet, load_of, member, members, read, round, steps};

use crate::closing::{exchange, greet, read};
use crate::event_parts::node;
use crate::load_draft::LoadDraft;
use crate::rounds::{FAULTY, round};
use depot_base::{Memory, Sequence};
use depot_schedule::{Member, Members, Schedule};
use std::alloc::Global;

/// How many rounds a load has.
const ROUNDS: u32 = 2000;

/// Its rounds.
#[tactic(auto, using(crate::proofs::of_loads::DrawSteps::counting, crate::proofs::of_loads::Updates::updates_round))]
fn all_rounds(alloc: Global, number: u32) -> Result<LoadDraft, Memory>
    ensures { IfOk result (λ draft. draft ≡ steps round 2000 (begun number)) }
{
    let mut draft = LoadDraft::new(alloc, number);
    for t in 0..ROUNDS {
        round(alloc, &mut draft, t)?;
    }
    Ok(draft)
}

/// Each node takes a bundle of each other, twice over.
#[tactic(auto, using(crate::proofs::of_loads::DrawSteps::counting))]
fn all_exchanges(alloc: Global, draft: &mut LoadDraft) -> Result<(), Memory>
    ensures { OnOk result (draft.new ≡ steps exchange 40 draft.old) }
{
    for j in 0..40 {
        exchange(alloc, draft, j)?;
    }
    Ok(())
}

/// Each key is read by each node.
#[tactic(auto, using(crate::proofs::of_loads::DrawSteps::counting))]
fn all_reads(alloc: Global, draft: &mut LoadDraft) -> Result<(), Memory>
    ensures { OnOk result (draft.new ≡ steps read 200 draft.old) }
{
    for i in 0..200 {
        read(alloc, draft, i)?;
    }
    Ok(())
}

/// Each node says hello.
#[tactic(auto, using(crate::proofs::of_loads::DrawSteps::counting))]
fn all_hellos(alloc: Global, draft: &mut LoadDraft) -> Result<(), Memory>
    ensures { OnOk result (draft.new ≡ steps greet 5 draft.old) }
{
    for i in 0..5 {
        greet(alloc, draft, i)?;
    }
    Ok(())
}

/// All events.
#[tactic(auto, unfolding(crate::specs::Loads::whole_draft))]
fn drafted(alloc: Global, number: u32) -> Result<LoadDraft, Memory>
    ensures { IfOk result (λ draft. draft ≡ whole_draft number) }
{
    let mut draft = all_rounds(alloc, number)?;
    all_exchanges(alloc, &mut draft)?;
    all_reads(alloc, &mut draft)?;
    all_hellos(alloc, &mut draft)?;
    Ok(draft)
}

/// Adds a member.
fn join(members: &mut Members, number: u16, correct: bool) -> Result<(), Memory>
    requires { 0 < number }
    ensures { OnOk result (members.new ≡ members.old ++ member number correct ∷ []) }
{
    let node = node(number);
    members.push(Member { node, correct })
}

/// The nodes 1 to 5, and the faulty one.
fn members(alloc: Global) -> Result<Members, Memory>
    ensures { IfOk result (λ list. list ≡ members) }
{
    let mut list = Sequence::new(alloc);
    join(&mut list, 1, true)?;
    join(&mut list, 2, true)?;
    join(&mut list, 3, true)?;
    join(&mut list, 4, true)?;
    join(&mut list, 5, true)?;
    join(&mut list, FAULTY, false)?;
    Ok(list)
}

/// The schedule that this number makes (docs/FORMATS.md). It has a text (`loads_are_schedules`).
#[tactic(auto, unfolding(crate::specs::Loads::load_of))]
pub fn make_load(alloc: Global, number: u32) -> Result<Schedule, Memory>
    ensures { IfOk result (λ s. s ≡ load_of number) }
{
    let draft = drafted(alloc, number)?;
    let members = members(alloc)?;
    Ok(Schedule {
        winter: false,
        height: 12,
        members,
        events: draft.events,
    })
}
