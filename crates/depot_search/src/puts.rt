//! What a put holds for a write of a key.
ghost use Rattle.std.specs.Prelude.{◌≡◌, drop, false, option_copied, if◌then◌else◌};
ghost use Rattle.std.specs.Option.{option_map_or};
ghost use Rattle.std.specs.Str.{bytes_eq};
ghost use Rattle.depot_base.specs.Writes.{is_put};
ghost use Rattle.depot_model.specs.texts.Contents.{value_for};
ghost use Rattle.depot_model.specs.worlds.ReadTests.{if_held};
ghost use Rattle.depot_traces.specs.SeenTraces.{sighting_of};

use depot_base::{Value, Write, Wrote};
use depot_traces::Shown;

/// Whether a write gives its key a value.
fn is_put(what: &Wrote) -> bool
    ensures { result ≡ is_put what.now }
{
    match what {
        Wrote::Put { .. } => true,
        Wrote::Gone => false,
    }
}

/// The value of the write of a key. The values go with the writes that are no deletions, in their order.
fn value_for<'a>(key: &[u8], writes: &[Write], values: &'a [Value]) -> Option<&'a Value>
    ensures { option_copied result ≡ value_for key.now writes.now values.now }
{
    let mut rest = values;
    for write in writes {
        if write.key.bytes() == key {
            return if is_put(&write.what) {
                rest.first()
            } else {
                None
            };
        }
        rest = behind(&write.what, rest);
    }
    None
}

/// The values after that of a write, if it has one.
fn behind<'a>(what: &Wrote, values: &'a [Value]) -> &'a [Value]
    ensures { result.now ≡ if is_put what.now then drop 1 values.now else values.now }
{
    if is_put(what) {
        values.get(1..).unwrap_or(&[])
    } else {
        values
    }
}

/// Whether a value that is shown is the one that these writes and values have for a key.
pub fn shows(shown: &Shown, key: &[u8], writes: &[Write], values: &[Value]) -> bool
    ensures { result ≡ if_held (sighting_of shown.now) (λ v. option_map_or (bytes_eq v) (value_for key.now writes.now values.now) false) }
{
    match shown {
        Shown::Held(value) => match value_for(key, writes, values) {
            Some(held) => value.bytes() == held.bytes(),
            None => false,
        },
        _ => true,
    }
}
