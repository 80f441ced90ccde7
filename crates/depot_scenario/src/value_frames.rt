//! The frames of the values of an update.
ghost use Rattle.std.specs.Prelude.{◌≡◌, ◌∷◌, ◌++◌, [], OnOk};
ghost use Rattle.std.specs.List.{list_any};
ghost use Rattle.depot_base.specs.Writes.{value_in_change};
ghost use Rattle.depot_model.specs.lists.Lists.{is_among};
ghost use Rattle.depot_model.specs.checks.Own.{values_of};
ghost use Rattle.depot_world.specs.FaultySigning.{text_of_values};
ghost use Rattle.depot_scenario.specs.ScenarioTexts.{frames_behind};

use depot_base::{Bytes, Change, FrameTag, Memory, Value};
use depot_streams::put_frame;

/// Writes the frames of the values of changes, in their order, each different value once. On `Memory` a prefix of them
/// may have been written.
pub fn put_values(out: &mut Bytes, changes: &[Change]) -> Result<(), Memory>
    ensures { OnOk result (out.new ≡ out.old ++ text_of_values (values_of changes.now)) }
{
    for place in 0..changes.len() {
        put_change(out, &changes[..place], &changes[place])?;
    }
    Ok(())
}

/// Writes the frame of the value of a change, if it has one that none before it has.
fn put_change(out: &mut Bytes, before: &[Change], change: &Change) -> Result<(), Memory>
    ensures { OnOk result (out.new ≡ out.old ++ frames_behind (values_of before.now) (value_in_change change.now)) }
{
    match &change.value {
        Some(value) => put_new(out, before, value),
        None => Ok(()),
    }
}

/// Writes the frame of a value, if no change before it has the value.
#[tactic(auto, using(crate::proofs::ValueFrames::known_adds_none, crate::proofs::ValueFrames::new_adds_frame))]
fn put_new(out: &mut Bytes, before: &[Change], value: &Value) -> Result<(), Memory>
    ensures { OnOk result (out.new ≡ out.old ++ frames_behind (values_of before.now) (value.now ∷ [])) }
{
    if has_value(before, value) {
        return Ok(());
    }
    put_frame(out, FrameTag::Value, value.bytes())
}

/// Whether one of these changes has this value.
fn has_value(changes: &[Change], value: &Value) -> bool
    ensures { result ≡ list_any (λ change. is_among value.now (value_in_change change)) changes.now }
{
    changes.iter().any(|change| is_value(change, value))
}

/// Whether a change has this value.
fn is_value(change: &Change, value: &Value) -> bool
    ensures { result ≡ is_among value.now (value_in_change change.now) }
{
    match &change.value {
        Some(other) => other.bytes() == value.bytes(),
        None => false,
    }
}
