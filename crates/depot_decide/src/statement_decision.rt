//! Decides on a statement.
ghost use Rattle.std.specs.Prelude.{◌≡◌, IfOk};
ghost use Rattle.depot_model.specs.checks.Checks.{given_statement};
ghost use Rattle.depot_model.specs.journals.Journal.{accepted};
ghost use Rattle.depot_model.specs.texts.Texts.{IsSigned, text_of_signed};
ghost use Rattle.depot_readings.specs.ReadingsView.{standing};
ghost use Rattle.depot_decide.specs.Deciding.{AreJoined, ComeWithRow, DecidesStatement, IsDecided};

use crate::checked::decide_checked;
use crate::decision::Decision;
use depot_base::{Check, DecodeError, Memory, Signed};
use depot_model::{Scheme, hash_of};
use depot_readings::Readings;
use depot_update::decode_signed;
use std::alloc::Global;

/// Decides on the text of a signed statement, by the checks.
pub fn decide_statement<S: Scheme>(
    alloc: Global,
    readings: &Readings<S>,
    text: &[u8],
) -> Result<Decision, Memory>
    ensures decided { IfOk result (λ d. DecidesStatement (standing S.verifies readings.now) readings.now.records text.now d.answer d.growth) }
    ensures joined { IfOk result (λ d. AreJoined (accepted readings.now.records) d.parents) }
    ensures row { IfOk result (λ d. ComeWithRow (accepted readings.now.records) d.growth d.parents) }
{
    match decode_signed(alloc, text) {
        Ok(signed) => decide_signed(alloc, readings, signed, text),
        Err(DecodeError::Memory) => Err(Memory),
        Err(DecodeError::IllFormed(at)) => Ok(Decision::of(Err(Check::IllFormed(at)))),
    }
}

/// Decides on a signed statement of this text. Its body is hashed once.
pub fn decide_signed<S: Scheme>(
    alloc: Global,
    readings: &Readings<S>,
    signed: Signed,
    text: &[u8],
) -> Result<Decision, Memory>
    requires signed { IsSigned signed }
    requires text { text.now ≡ text_of_signed signed }
    ensures decided { IfOk result (λ d. IsDecided (standing S.verifies readings.now) readings.now.records (given_statement signed) d.answer d.growth) }
    ensures joined { IfOk result (λ d. AreJoined (accepted readings.now.records) d.parents) }
    ensures row { IfOk result (λ d. ComeWithRow (accepted readings.now.records) d.growth d.parents) }
{
    let id = hash_of(signed.body.as_slice());
    let state = readings.state();
    let checked = state.check(&signed, &id);
    decide_checked(alloc, state, signed, id, text, checked)
}
