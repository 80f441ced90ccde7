//! The update that the record of a place accepts.
ghost use Rattle.std.specs.Prelude.{◌≡◌, map, option_copied, option_to_list};
ghost use Rattle.depot_model.specs.journals.Journal.{accepted_at};
ghost use Rattle.depot_model.specs.texts.Texts.{id_of_update};
ghost use Rattle.depot_queries.specs.ItemPlaces.{IsItemAt};

use depot_base::{Hash32, Update};
use depot_model::{Past, Scheme};
use depot_readings::Readings;

/// The update that the record of a place, from 0, accepts. None exactly where it accepts none. It takes no memory.
pub fn update_at<S: Scheme>(readings: &Readings<S>, place: u32) -> Option<&Update>
    ensures { option_to_list (option_copied result) ≡ accepted_at readings.now.records place }
{
    match item_at(readings, place) {
        Some(item) => Some(readings.state().graph().update(item)),
        None => None,
    }
}

/// The id of the update that the record of a place, from 0, accepts. None exactly where it accepts none. It takes no memory.
pub fn id_at<S: Scheme>(readings: &Readings<S>, place: u32) -> Option<&Hash32>
    ensures { option_to_list (option_copied result) ≡ map id_of_update (accepted_at readings.now.records place) }
{
    match item_at(readings, place) {
        Some(item) => Some(readings.state().graph().id(item)),
        None => None,
    }
}

/// The item of the update that the record of a place accepts. None exactly where it accepts none. The places of the
/// items rise, so it is a binary search.
fn item_at<S: Scheme>(readings: &Readings<S>, place: u32) -> Option<u32>
    ensures { IsItemAt readings.now.records place result }
{
    match readings.places().binary_search(&place) {
        Ok(item) => Some(item as u32),
        Err(_) => None,
    }
}
