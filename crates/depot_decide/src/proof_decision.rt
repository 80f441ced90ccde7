//! Decides on a proof.
ghost use Rattle.std.specs.Prelude.{◌≡◌, List, IfOk};
ghost use Rattle.depot_base.specs.declared.record.Record.{Record};
ghost use Rattle.depot_model.specs.checks.Checks.{check_of_point, given_proof, proof_checks};
ghost use Rattle.depot_model.specs.lists.Lists.{first};
ghost use Rattle.depot_model.specs.texts.Texts.{IsProof, text_of_proof};
ghost use Rattle.depot_accept.specs.StateView.{IsStateOf, setting};
ghost use Rattle.depot_model.specs.journals.Journal.{accepted};
ghost use Rattle.depot_readings.specs.ReadingsView.{standing};
ghost use Rattle.depot_decide.specs.Deciding.{AreJoined, DecidesByState, DecidesProof, IsDecided, IsSettled};

use crate::decision::Decision;
use depot_accept::State;
use depot_base::{Check, DecodeError, Memory, Proof};
use depot_judge::first_failed_point;
use depot_model::{JudgeError, Scheme, Taken};
use depot_readings::{Growth, Readings};
use depot_update::decode_proof;
use std::alloc::Global;

/// Decides on the text of a proof: a good one is kept, unless its node is convicted already.
pub fn decide_proof<S: Scheme>(
    alloc: Global,
    readings: &Readings<S>,
    text: &[u8],
) -> Result<Decision, Memory>
    ensures decided { IfOk result (λ d. DecidesProof (standing S.verifies readings.now) readings.now.records text.now d.answer d.growth) }
    ensures joined { IfOk result (λ d. AreJoined (accepted readings.now.records) d.parents) }
{
    match decode_proof(alloc, text) {
        Ok(proof) => decide_decoded(alloc, readings, proof, text),
        Err(DecodeError::Memory) => Err(Memory),
        Err(DecodeError::IllFormed(at)) => Ok(Decision::of(Err(Check::IllFormed(at)))),
    }
}

/// Decides on a proof of this text.
pub fn decide_decoded<S: Scheme>(
    alloc: Global,
    readings: &Readings<S>,
    proof: Proof,
    text: &[u8],
) -> Result<Decision, Memory>
    requires proof { IsProof proof }
    requires text { text.now ≡ text_of_proof proof }
    ensures decided { IfOk result (λ d. IsDecided (standing S.verifies readings.now) readings.now.records (given_proof proof) d.answer d.growth) }
    ensures joined { IfOk result (λ d. AreJoined (accepted readings.now.records) d.parents) }
{
    decide_judged(alloc, readings.state(), proof, text)
}

/// Decides on a proof of this text by what a state keeps, whatever journal it is the state of.
pub fn decide_judged<S: Scheme>(
    alloc: Global,
    state: &State<S>,
    proof: Proof,
    text: &[u8],
) -> Result<Decision, Memory>
    requires proof { IsProof proof }
    requires text { text.now ≡ text_of_proof proof }
    ensures decided { IfOk result (λ d. DecidesByState S.verifies state.now (given_proof proof) d.answer d.growth) }
    ensures joined { IfOk result (λ d. AreJoined state.now.accepted d.parents) }
{
    let Ok(answer) = settled(alloc, state, &proof) else {
        drop(proof);
        return Err(Memory);
    };
    if let Some(answer) = answer {
        drop(proof);
        return Ok(Decision::of(answer));
    }
    Ok(Decision {
        answer: Ok(Taken::New),
        growth: Growth::given_conviction(proof, text),
        parents: None,
    })
}

/// The answer to a proof that won't be kept: the check that fails first, or that its node is convicted already. None
/// where it is to be kept.
fn settled<S: Scheme>(
    alloc: Global,
    state: &State<S>,
    proof: &Proof,
) -> Result<Option<Result<Taken, Check>>, Memory>
    requires proof { IsProof proof.now }
    ensures { IfOk result (λ o. (J : List Record) → IsStateOf J state.now → IsSettled (setting S.verifies state.now) J proof.now o) }
{
    let failed = failed_check(alloc, state, proof)?;
    if let Some(check) = failed {
        return Ok(Some(Err(check)));
    }
    if state.is_convicted(proof.accused()) {
        return Ok(Some(Ok(Taken::Known)));
    }
    Ok(None)
}

/// The first check of a proof that fails: the judge's points, and then that it isn't against the node itself. It takes
/// memory only where the judge does.
#[tactic(auto, unfolding(depot_model::specs::checks::Checks::proof_checks))]
fn failed_check<S: Scheme>(
    alloc: Global,
    state: &State<S>,
    proof: &Proof,
) -> Result<Option<Check>, Memory>
    requires { IsProof proof.now }
    ensures { IfOk result (λ failed. failed ≡ first (proof_checks (setting S.verifies state.now) proof.now)) }
{
    let failed = first_failed_point(alloc, state.roster(), state.scheme(), proof)?;
    if let Some(point) = failed {
        return Ok(Some(check_of_point(proof, &point)));
    }
    if proof.accused() == state.me() {
        return Ok(Some(Check::AgainstMe));
    }
    Ok(None)
}

/// The check that a proof fails where it fails a point of the judge.
fn check_of_point(proof: &Proof, point: &JudgeError) -> Check
    ensures { result ≡ check_of_point proof.now point.now }
{
    match point {
        JudgeError::UnknownWriter(node) => Check::UnknownWriter(*node),
        JudgeError::BadSignature(half) => Check::BadSignature(half.of(proof).statement.writer()),
        _ => Check::NotContradictory,
    }
}
