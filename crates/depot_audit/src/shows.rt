//! Whether a read is what the records show.
ghost use Rattle.std.specs.Prelude.{◌≡◌, ◌↔◌, ◌<◌, length, map, IsTrue, Some, slice_get};
ghost use Rattle.std.specs.Option.{option_map_or};
ghost use Rattle.depot_base.specs.declared.update.Update.{Update};
ghost use Rattle.depot_model.specs.texts.Contents.{gone, held_value, not_held};
ghost use Rattle.depot_model.specs.journals.Journal.{accepted, held_as, seen_under};
ghost use Rattle.depot_model.specs.journals.ShownWrites.{shown_of};
ghost use Rattle.depot_model.specs.worlds.Traces.{answered};
ghost use Rattle.depot_audit.specs.Shows.{expected_answer};
ghost use Rattle.depot_traces.specs.SeenTraces.{answered_of, sighting_of};

use depot_base::{Key, NamedValue, Update};
use depot_model::{Past, Scheme};
use depot_queries::held_as;
use depot_readings::Readings;
use depot_traces::{Answered, ReadTrace, Shown};

/// Whether a read lists just the latest writes of its key among what the records accepted, each as they show it. It takes no memory.
pub fn shows<S: Scheme>(readings: &Readings<S>, read: &ReadTrace) -> bool
    ensures { IsTrue result ↔ (map answered_of read.now.answer ≡ map answered (shown_of readings.now.records read.now.key)) }
{
    let items = readings.state().graph().latest(&read.key);
    let answer = read.answer.as_slice();
    for place in 0..answer.len() {
        let Some(item) = items.get(place) else {
            return false;
        };
        if !is_told(readings, &read.key, *item, &answer[place]) {
            return false;
        }
    }
    answer.len() == items.len()
}

/// Whether a write that a read listed is that of an item, and shown as the records show it.
fn is_told<S: Scheme>(readings: &Readings<S>, key: &Key, item: u32, told: &Answered) -> bool
    requires item { item < length (accepted readings.now.records) }
    ensures { (u : Update) → slice_get (accepted readings.now.records) item ≡ Some u → IsTrue result ↔ (answered_of told.now ≡ expected_answer readings.now.records key.now u) }
{
    let graph = readings.state().graph();
    *graph.id(item) == told.id && is_seen(readings, key, graph.update(item), &told.shown)
}

/// Whether a read shows of an update's write of a key what the records show.
fn is_seen<S: Scheme>(readings: &Readings<S>, key: &Key, update: &Update, shown: &Shown) -> bool
    ensures { IsTrue result ↔ (sighting_of shown.now ≡ seen_under readings.now.records key.now update.now) }
{
    let Some(wrote) = update.wrote(key.bytes()) else {
        return is_not_held(shown);
    };
    let Some(name) = wrote.named() else {
        return is_gone(shown);
    };
    is_held(readings, &name, shown)
}

/// Whether a read shows the held value of a name, or, where none is held, that it isn't.
fn is_held<S: Scheme>(readings: &Readings<S>, name: &NamedValue, shown: &Shown) -> bool
    ensures { IsTrue result ↔ (sighting_of shown.now ≡ option_map_or held_value (held_as readings.now.records name.now) not_held) }
{
    match held_as(readings, name) {
        Some(value) => is_value(shown, value),
        None => is_not_held(shown),
    }
}

/// Whether this value is shown.
fn is_value(shown: &Shown, value: &[u8]) -> bool
    ensures { IsTrue result ↔ (sighting_of shown.now ≡ held_value value.now) }
{
    match shown {
        Shown::Held(shown) => shown.bytes() == value,
        Shown::NotHeld => false,
        Shown::Gone => false,
    }
}

/// Whether a value that isn't held is shown.
fn is_not_held(shown: &Shown) -> bool
    ensures { IsTrue result ↔ (sighting_of shown.now ≡ not_held) }
{
    match shown {
        Shown::NotHeld => true,
        Shown::Held(_) => false,
        Shown::Gone => false,
    }
}

/// Whether a deletion is shown.
fn is_gone(shown: &Shown) -> bool
    ensures { IsTrue result ↔ (sighting_of shown.now ≡ gone) }
{
    match shown {
        Shown::Gone => true,
        Shown::NotHeld => false,
        Shown::Held(_) => false,
    }
}
