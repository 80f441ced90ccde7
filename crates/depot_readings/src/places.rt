//! The places of the records that accepted the updates.
ghost use Rattle.std.specs.Prelude.{◌≡◌, ◌≤◌, ◌++◌, [], ◌∷◌, length, nat_lt, OnOk, if◌then◌else◌};
ghost use Rattle.std.specs.Option.{option_to_list};
ghost use Rattle.depot_base.specs.declared.limits.TheConstants.{MOST_RECORDS};
ghost use Rattle.depot_model.specs.exchange.Bundle.{records_where};
ghost use Rattle.depot_model.specs.journals.Journal.{update_in};
ghost use Rattle.depot_readings.specs.NewRecords.{records_in};
ghost use Rattle.depot_readings.specs.Places.{accepts};

use crate::news::News;
use depot_base::{Memory, Statement};
use std::alloc::Global;
use std::marker::Model;

/// The places, from 0, of the records that accepted the updates, in the order of the updates. They are seen as the list
/// of the places, and the number of places for which memory is reserved.
#[derive(Drop)]
pub struct AcceptPlaces {
    places: Vec<u32>,
}

impl Model for AcceptPlaces {
    ghost use Rattle.std.specs.Prelude.{◌-◌, vec_len};
    ghost use Rattle.std.specs.Vec.{vec_capacity};
    ghost use Rattle.depot_readings.specs.Places.{PlacesWithRoom};

    ghost Value = { PlacesWithRoom };

    ghost view = { λ p. record { places = p.places.items; room = vec_capacity p.places - vec_len p.places } };
}

impl AcceptPlaces {
    /// No places. It takes no memory.
    pub(crate) fn new(alloc: Global) -> AcceptPlaces
        ensures { result.places ≡ [] }
    {
        AcceptPlaces {
            places: Vec::new(alloc),
        }
    }

    /// The places. It takes no memory.
    pub(crate) fn as_slice(&self) -> &[u32]
        ensures { result.now ≡ self.now.places }
    {
        self.places.as_slice()
    }

    /// Reserves memory for a place, if there is one: the `add` of it needs none. The places are unchanged.
    pub(crate) fn reserve(&mut self, place: Option<u32>) -> Result<(), Memory>
        ensures room { OnOk result (length (option_to_list place) ≤ self.new.room) }
        ensures same { self.new.places ≡ self.old.places }
    {
        if place.is_none() {
            return Ok(());
        }
        self.places.reserve(1)?;
        Ok(())
    }

    /// Adds a place for which memory was reserved. It takes none.
    pub(crate) fn add(&mut self, place: Option<u32>)
        requires { length (option_to_list place) ≤ self.old.room }
        ensures { self.new.places ≡ self.old.places ++ option_to_list place }
    {
        if let Some(place) = place {
            self.places.push_reserved(place);
        }
    }
}

/// The place of the record by which a growth after `count` records accepts an update. It accepts one at most, by its
/// last record.
#[tactic(auto, using(crate::proofs::VoucherRecords::none_accepting), unfolding(depot_model::specs::exchange::Bundle::records_where))]
pub(crate) fn accept_place(news: &News, count: u32) -> Option<u32>
    requires { count ≤ MOST_RECORDS }
    ensures { option_to_list result ≡ records_where accepts count (records_in news.now) }
{
    match news {
        News::Put { .. } => Some(count),
        News::Foreign { signed, .. } => place_if(is_update(&signed.statement), count),
        News::Convicting { signed, .. } => place_if(is_update(&signed.statement), count + 1),
        _ => None,
    }
}

fn place_if(accepts: bool, place: u32) -> Option<u32>
    ensures { option_to_list result ≡ (if accepts then place ∷ [] else []) }
{
    if accepts { Some(place) } else { None }
}

/// Whether a statement is an update.
fn is_update(statement: &Statement) -> bool
    ensures { result ≡ nat_lt 0 (length (update_in statement.now)) }
{
    matches!(statement, Statement::Update(_))
}
