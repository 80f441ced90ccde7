//! Writes changes, which make up one word.
ghost use Rattle.std.specs.Prelude.{◌≡◌, ◌++◌, ◌∷◌, map, OnOk};
ghost use Rattle.std.specs.List.{flat_map};
ghost use Rattle.hex.specs.Hex.{encode_lower};
ghost use Rattle.depot_lines.specs.Language.{join};
ghost use Rattle.depot_lines.specs.Vocabulary.{text_behind_key, text_of_change};

use depot_base::{Bytes, Change, Memory, Value};
use std::alloc::Global;

/// Bytes in lower-case hexadecimal, with nothing before them.
fn bare_hex(alloc: Global, out: &mut Bytes, bytes: &[u8]) -> Result<(), Memory>
    ensures { OnOk result (out.new ≡ out.old ++ encode_lower bytes.now) }
{
    let text = hex::encode(alloc, bytes)?;
    out.push_all(text.as_bytes())
}

/// An equals sign and a value.
#[tactic(auto, using(depot_base::proofs::Writing::texts))]
fn behind_equals(alloc: Global, out: &mut Bytes, value: &Value) -> Result<(), Memory>
    ensures { OnOk result (out.new ≡ out.old ++ text_behind_key (Some value.now)) }
{
    match value.bytes() {
        [] => out.push_all(b"=-"),
        bytes => {
            out.push_all(b"=")?;
            bare_hex(alloc, out, bytes)
        }
    }
}

/// What follows the key of a change.
fn behind_key(alloc: Global, out: &mut Bytes, value: &Option<Value>) -> Result<(), Memory>
    ensures { OnOk result (out.new ≡ out.old ++ text_behind_key value.now) }
{
    match value {
        None => out.push_all(b"!"),
        Some(value) => behind_equals(alloc, out, value),
    }
}

/// A change, with nothing before it.
#[tactic(auto, using(depot_base::proofs::Writing::texts))]
fn bare_change(alloc: Global, out: &mut Bytes, change: &Change) -> Result<(), Memory>
    ensures { OnOk result (out.new ≡ out.old ++ text_of_change change.now) }
{
    bare_hex(alloc, out, change.key.bytes())?;
    behind_key(alloc, out, &change.value)
}

/// Changes, each preceded by a comma.
#[tactic(auto, using(depot_base::proofs::Writing::texts))]
fn behind_commas(alloc: Global, out: &mut Bytes, changes: &[Change]) -> Result<(), Memory>
    ensures { OnOk result (out.new ≡ out.old ++ flat_map (λ c. 44 ∷ text_of_change c) changes.now) }
{
    for change in changes {
        out.push_all(b",")?;
        bare_change(alloc, out, change)?;
    }
    Ok(())
}

/// Changes with commas between them.
#[tactic(auto, using(depot_base::proofs::Writing::texts))]
pub fn joined_changes(alloc: Global, out: &mut Bytes, changes: &[Change]) -> Result<(), Memory>
    ensures { OnOk result (out.new ≡ out.old ++ join 44 (map text_of_change changes.now)) }
{
    match changes {
        [] => Ok(()),
        [first, rest @ ..] => {
            bare_change(alloc, out, first)?;
            behind_commas(alloc, out, rest)
        }
    }
}
