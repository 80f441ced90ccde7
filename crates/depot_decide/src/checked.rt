//! Decides on a statement that was checked.
//!
//! All of it depends on what a state keeps, whatever journal it is the state of: a node asks it of its readings, and a
//! reader of what it kept of a node.
ghost use Rattle.std.specs.Prelude.{◌≡◌, List, [], ◌∷◌, Ok, Err, IfOk, Some};
ghost use Rattle.depot_base.specs.declared.record.Record.{Record};
ghost use Rattle.depot_base.specs.declared.record.Record.TheVariants.{Conviction};
ghost use Rattle.depot_base.specs.declared.statement.Statement.TheVariants as statements;
ghost use Rattle.depot_base.specs.declared.update.Update.{Update};
ghost use Rattle.depot_model.specs.declared.taken.Taken.TheVariants.{New};
ghost use Rattle.depot_model.specs.texts.Texts.{IsSigned, IsProof, id_of_statement, text_of_signed};
ghost use Rattle.depot_accept.specs.CheckResults.{IsNew, IsChecked, AreDue};
ghost use Rattle.depot_accept.specs.StateView.{IsStateOf, setting};
ghost use Rattle.depot_accept.specs.declared.answer.CheckError.TheVariants as failed;
ghost use Rattle.depot_decide.specs.Deciding.{AreJoined, ComeWithRow, ComesWithRow, DecidesChecked, DecidesNew, IsDueBy};

use crate::decision::Decision;
use depot_accept::{CheckError, Found, Parents, Pass, State};
use depot_base::{Check, Hash32, Memory, Proof, Signed};
use depot_judge::make_proof;
use depot_model::{Scheme, Taken};
use depot_readings::Growth;
use std::alloc::Global;

/// Decides on a signed statement of this text, given the result of its checks over the state.
pub fn decide_checked<S: Scheme>(
    alloc: Global,
    state: &State<S>,
    signed: Signed,
    id: Hash32,
    text: &[u8],
    checked: Result<Pass, CheckError>,
) -> Result<Decision, Memory>
    requires signed { IsSigned signed }
    requires text { text.now ≡ text_of_signed signed }
    requires id { id ≡ id_of_statement signed.statement }
    requires checked { (J : List Record) × (IsStateOf J state.now × IsChecked (setting S.verifies state.now) J signed checked) }
    ensures decided { IfOk result (λ d. DecidesChecked S.verifies state.now signed checked d.answer d.growth) }
    ensures joined { IfOk result (λ d. AreJoined state.now.accepted d.parents) }
    ensures row { IfOk result (λ d. ComeWithRow state.now.accepted d.growth d.parents) }
{
    match checked {
        Ok(Pass::Known) => Ok(Decision::of(Ok(Taken::Known))),
        Ok(Pass::Voucher) => accept(alloc, state, signed, id, text, None, None),
        Ok(Pass::Update { against, parents }) => {
            accept(alloc, state, signed, id, text, Some(parents), against)
        }
        Err(CheckError::Memory) => Err(Memory),
        Err(CheckError::Refused { check, against }) => {
            refuse(alloc, state, &signed, check, against)
        }
    }
}

/// Keeps a new statement of this text, after the conviction of its writer if one is due, with the places of an update's
/// parents.
fn accept<S: Scheme>(
    alloc: Global,
    state: &State<S>,
    signed: Signed,
    id: Hash32,
    text: &[u8],
    parents: Option<Parents>,
    found: Option<Found>,
) -> Result<Decision, Memory>
    requires signed { IsSigned signed }
    requires text { text.now ≡ text_of_signed signed }
    requires id { id ≡ id_of_statement signed.statement }
    requires joined { AreJoined state.now.accepted parents }
    requires row { (u : Update) → signed.statement ≡ statements.Update u → ComesWithRow state.now.accepted u parents }
    requires new { (J : List Record) × (IsStateOf J state.now × IsNew (setting S.verifies state.now) J signed found) }
    ensures decided { IfOk result (λ d. DecidesNew S.verifies state.now signed found d.answer d.growth) }
    ensures joined { IfOk result (λ d. AreJoined state.now.accepted d.parents) }
    ensures row { IfOk result (λ d. ComeWithRow state.now.accepted d.growth d.parents) }
{
    let items = items_of(alloc, &parents)?;
    let growth = growth_of_new(alloc, state, signed, id, text, items, found)?;
    Ok(Decision {
        answer: Ok(Taken::New),
        growth,
        parents,
    })
}

/// The items of the parents, or none.
fn items_of(alloc: Global, parents: &Option<Parents>) -> Result<Vec<u32>, Memory> {
    let mut items = Vec::new(alloc);
    if let Some(parents) = parents {
        items.extend_from_slice(parents.items.as_slice())?;
    }
    Ok(items)
}

/// The growth by a new statement of this text, after the conviction of its writer if one is due.
fn growth_of_new<S: Scheme>(
    alloc: Global,
    state: &State<S>,
    signed: Signed,
    id: Hash32,
    text: &[u8],
    parents: Vec<u32>,
    found: Option<Found>,
) -> Result<Growth, Memory>
    requires signed { IsSigned signed }
    requires text { text.now ≡ text_of_signed signed }
    requires id { id ≡ id_of_statement signed.statement }
    requires new { (J : List Record) × (IsStateOf J state.now × IsNew (setting S.verifies state.now) J signed found) }
    ensures { IfOk result (λ growth. DecidesNew S.verifies state.now signed found (Ok New) growth) }
{
    match found {
        None => Ok(Growth::foreign(signed, id, parents, text)),
        Some(found) => {
            let proof = proof_by(state, found, &signed)?;
            Growth::convicting(alloc, proof, signed, id, parents, text)
        }
    }
}

/// Refuses a statement by the first check that fails, and keeps the conviction of its writer if one is due.
fn refuse<S: Scheme>(
    alloc: Global,
    state: &State<S>,
    signed: &Signed,
    check: Check,
    against: Option<Found>,
) -> Result<Decision, Memory>
    requires text { IsSigned signed.now }
    requires failed { (J : List Record) × (IsStateOf J state.now × IsChecked (setting S.verifies state.now) J signed.now (Err (failed.Refused check against))) }
    ensures decided { IfOk result (λ d. DecidesChecked S.verifies state.now signed.now (Err (failed.Refused check against)) d.answer d.growth) }
    ensures joined { IfOk result (λ d. AreJoined state.now.accepted d.parents) }
    ensures row { IfOk result (λ d. ComeWithRow state.now.accepted d.growth d.parents) }
{
    match against {
        None => Ok(Decision::of(Err(check))),
        Some(found) => {
            let proof = proof_by(state, found, signed)?;
            let growth = Growth::conviction(alloc, proof)?;
            Ok(Decision {
                answer: Err(check),
                growth,
                parents: None,
            })
        }
    }
}

/// The proof made of a kept statement and the one that contradicts it.
fn proof_by<S: Scheme>(state: &State<S>, found: Found, signed: &Signed) -> Result<Proof, Memory>
    requires text { IsSigned signed.now }
    requires due { (J : List Record) × (IsStateOf J state.now × IsDueBy (setting S.verifies state.now) J signed.now found) }
    ensures made { IfOk result (λ p. (J : List Record) → IsStateOf J state.now → AreDue J signed.now (Some found) (Conviction p ∷ [])) }
    ensures proof { IfOk result IsProof }
{
    let kept = state.kept(found.index)?;
    make_proof(found.kind, &kept, signed)
}
