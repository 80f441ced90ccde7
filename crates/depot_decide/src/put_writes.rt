//! What changes write.
ghost use Rattle.std.specs.Prelude.{◌≡◌, ◌++◌, length, map, OnOk, IfOk};
ghost use Rattle.std.specs.List.{AllByRecursion};
ghost use Rattle.std.specs.Option.{option_map_or, option_to_list};
ghost use Rattle.sha2.specs.Sha256.{sha256};
ghost use Rattle.depot_base.specs.Sized.{IsKey, IsValue};
ghost use Rattle.depot_base.specs.declared.write.Wrote.TheVariants.{Put, Gone};
ghost use Rattle.depot_model.specs.checks.Own.{write_of, values_of};
ghost use Rattle.depot_model.specs.checks.Putting.{HasSizes};

use depot_base::{Change, Changes, Key, Memory, Value, ValueList, Write, Writes, Wrote};
use depot_model::hash_of;
use std::alloc::Global;

/// What changes write.
#[derive(Drop)]
pub struct Written {
    /// The write of each change: one with a value names its hash and its length, one without is a deletion.
    pub writes: Writes,
    /// The values, in the order of the changes that have one.
    pub values: ValueList,
}

/// What these changes write. Each value is hashed once, and none is copied.
pub fn writes_of(alloc: Global, changes: Changes) -> Result<Written, Memory>
    ensures writes { IfOk result (λ w. w.writes ≡ map write_of changes) }
    ensures values { IfOk result (λ w. w.values ≡ values_of changes) }
    ensures sizes { IfOk result (λ _. AllByRecursion HasSizes changes) }
{
    let mut writes = Writes::new(alloc);
    let mut values = ValueList::new(alloc);
    for change in changes.into_vec() {
        let Change { key, value } = change;
        writes.push(write_of(key, &value))?;
        push_value(&mut values, value)?;
    }
    Ok(Written { writes, values })
}

/// The write of a change.
fn write_of(key: Key, value: &Option<Value>) -> Write
    ensures write { result ≡ write_of (record { key = key; value = value.now }) }
    ensures key { IsKey key }
    ensures value { AllByRecursion IsValue (option_to_list value.now) }
{
    Write {
        key,
        what: wrote_by(value),
    }
}

/// What is written of a key that is given this value, or is deleted.
fn wrote_by(value: &Option<Value>) -> Wrote
    ensures what { result ≡ option_map_or (λ v. Put (sha256 v) (length v)) value.now Gone }
    ensures value { AllByRecursion IsValue (option_to_list value.now) }
{
    match value {
        Some(value) => Wrote::Put {
            hash: hash_of(value.bytes()),
            length: value.bytes().len() as u32,
        },
        None => Wrote::Gone,
    }
}

/// Adds the value of a change that has one.
fn push_value(values: &mut ValueList, value: Option<Value>) -> Result<(), Memory>
    ensures { OnOk result (values.new ≡ values.old ++ option_to_list value) }
{
    match value {
        Some(value) => values.push(value),
        None => Ok(()),
    }
}
