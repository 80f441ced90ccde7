//! What readings keep, of any records.
ghost use Rattle.std.specs.Prelude.{◌≡◌, [], OnOk, OnErr};
ghost use Rattle.depot_accept.specs.StateView.{IsStateOf, setting};
ghost use Rattle.depot_readings.specs.NewRecords.{records_in, AreHashed};
ghost use Rattle.depot_readings.specs.LeavesWith.{leaves_with};
ghost use Rattle.depot_readings.specs.ReadingsParts.{AreParts, MayRead, ReadsMore, ReadsStill};

use crate::front_places::{FrontPlaces, new_places};
use crate::kept::Kept;
use crate::lacking::{name_brought, reserve_both};
use crate::named::NamedValues;
use crate::news::News;
use crate::places::{AcceptPlaces, accept_place};
use crate::totals::Totals;
use depot_accept::State;
use depot_base::Memory;
use depot_kept::{Values, VouchedIds};
use depot_model::Scheme;
use std::alloc::Global;

/// All that is read off the records of a journal: what is kept, the values that accepted updates name, those of them
/// that aren't held, the places of the records that accepted the updates, the ids that own vouchers name, and the
/// places of the records that bundles begin with. It isn't tied to one journal: each call says what it does to whatever
/// is read off any.
#[derive(Drop)]
pub(crate) struct ReadingsParts<S: Scheme> {
    pub(crate) kept: Kept<S>,
    pub(crate) named: NamedValues,
    pub(crate) lacking: NamedValues,
    pub(crate) places: AcceptPlaces,
    pub(crate) mine: VouchedIds,
    pub(crate) front: FrontPlaces,
}

impl<S: Scheme> ReadingsParts<S> {
    /// What is read off no records. It takes no memory.
    pub(crate) fn new(alloc: Global, state: State<S>) -> ReadingsParts<S>
        requires { IsStateOf [] state }
        ensures readings { AreParts [] result }
        ensures state { result.kept.state ≡ state }
    {
        let kept = Kept {
            state,
            values: Values::new(alloc),
            totals: Totals::new(),
        };
        ReadingsParts {
            kept,
            named: NamedValues::new(alloc),
            lacking: NamedValues::new(alloc),
            places: AcceptPlaces::new(alloc),
            mine: VouchedIds::new(alloc),
            front: FrontPlaces::new(alloc),
        }
    }

    /// Reads the records of a growth after `count` others: all, or on `Memory` none. `leaves` is the number of leaves
    /// of other writers with them, where they bring an update of another.
    pub(crate) fn read(&mut self, news: News, count: u32, leaves: Option<u32>) -> Result<(), Memory>
        requires hashed { AreHashed news }
        requires leaves { leaves ≡ leaves_with self.old.kept.state.accepted self.old.kept.totals.leaves (records_in news) }
        requires may { MayRead S.verifies self.old count (records_in news) }
        ensures ok { OnOk result (ReadsMore S.verifies self.old count (records_in news) self.new) }
        ensures err { OnErr result (ReadsStill self.old self.new) }
        ensures stays { setting S.verifies self.new.kept.state ≡ setting S.verifies self.old.kept.state }
    {
        let Ok(names) = self.named.named_in(&news) else {
            drop(news);
            return Err(Memory);
        };
        let Ok(fronts) = new_places(self.named.alloc, &news, count) else {
            drop(news);
            return Err(Memory);
        };
        let place = accept_place(&news, count);
        let brought = name_brought(&news);
        if reserve_both(&mut self.named, &mut self.lacking, &names).is_err()
            || self.places.reserve(place).is_err()
        {
            drop(news);
            return Err(Memory);
        }
        if self.front.reserve(&fronts).is_err() {
            drop(news);
            return Err(Memory);
        }
        self.kept.keep(news, leaves, &mut self.mine)?;
        self.named.add(&names);
        self.lacking.settle(&self.kept.values, &names);
        self.lacking.let_go(&self.kept.values, brought);
        self.places.add(place);
        self.front.add(&fronts);
        Ok(())
    }
}
