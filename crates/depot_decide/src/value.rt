//! Decides on a value.
ghost use Rattle.std.specs.Prelude.{IfOk};
ghost use Rattle.depot_base.specs.Sized.{IsValue};
ghost use Rattle.depot_model.specs.checks.Checks.{given_value};
ghost use Rattle.depot_model.specs.journals.Journal.{accepted};
ghost use Rattle.depot_readings.specs.ReadingsView.{standing};
ghost use Rattle.depot_decide.specs.Deciding.{AreJoined, DecidesValue, IsDecided};

use crate::decision::Decision;
use depot_base::limits::MOST_VALUE;
use depot_base::{Bytes, Check, Memory, Value};
use depot_model::{Scheme, Taken, hash_of};
use depot_readings::{Growth, Readings};
use std::alloc::Global;

/// Decides on a value: it is kept where an accepted update names its hash and its length, unless one of its hash is
/// held.
pub fn decide_value<S: Scheme>(
    alloc: Global,
    readings: &Readings<S>,
    text: &[u8],
) -> Result<Decision, Memory>
    ensures decided { IfOk result (λ d. DecidesValue (standing S.verifies readings.now) readings.now.records text.now d.answer d.growth) }
    ensures joined { IfOk result (λ d. AreJoined (accepted readings.now.records) d.parents) }
{
    if text.len() > MOST_VALUE {
        return Ok(Decision::of(Err(Check::IllFormed(MOST_VALUE as u32))));
    }
    decide_short(alloc, readings, text)
}

/// Decides on a value of at most 65,536 bytes. It is hashed once.
pub fn decide_short<S: Scheme>(
    alloc: Global,
    readings: &Readings<S>,
    bytes: &[u8],
) -> Result<Decision, Memory>
    requires value { IsValue bytes.now }
    ensures decided { IfOk result (λ d. IsDecided (standing S.verifies readings.now) readings.now.records (given_value bytes.now) d.answer d.growth) }
    ensures joined { IfOk result (λ d. AreJoined (accepted readings.now.records) d.parents) }
{
    let hash = hash_of(bytes);
    if readings.value(&hash).is_some() {
        return Ok(Decision::of(Ok(Taken::Known)));
    }
    if !readings.is_wanted(&hash, bytes.len() as u32) {
        return Ok(Decision::of(Err(Check::Unwanted(hash))));
    }
    let value = Value::from_bytes(Bytes::from_slice(alloc, bytes)?);
    Ok(Decision {
        answer: Ok(Taken::New),
        growth: Growth::held(value, hash),
        parents: None,
    })
}
