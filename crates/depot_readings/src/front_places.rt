//! The places of the records that a bundle begins with: convictions, and own vouchers by the ids that they name.
ghost use Rattle.std.specs.Prelude.{◌≡◌, ◌≤◌, ◌+◌, ◌++◌, ◌||◌, ℕ, List, [], length, OnOk, IfOk};
ghost use Rattle.std.specs.Option.{option_to_list};
ghost use Rattle.depot_base.specs.declared.limits.TheConstants.{MOST_RECORDS};
ghost use Rattle.depot_base.specs.declared.record.Record.{Record};
ghost use Rattle.depot_model.specs.journals.Journal.{accused};
ghost use Rattle.depot_model.specs.checks.Vouching.{records_of};
ghost use Rattle.depot_readings.specs.FrontPlaces.{AreFrontPlaces, AreNewPlaces, HasRoomFor, convictions_from, voucher_places_from, with_place};
ghost use Rattle.depot_readings.specs.NewRecords.{records_in, vouchers_of};
ghost use Rattle.depot_readings.specs.VoucherPlaces.{has_voucher_place, is_among_places};

use crate::news::{NewVoucher, News};
use crate::voucher_places::{VoucherPlace, VoucherPlaces};
use depot_base::{Hash32, Memory, NodeId, Proof};
use std::alloc::Global;

/// A convicted node, and the place, from 0, of the record that convicts it.
#[derive(Clone, Copy, Debug, PartialEq, Eq)]
pub struct ConvictedAt {
    /// The node.
    pub node: NodeId,
    /// The place.
    pub place: u32,
}

/// The convictions of a journal, in its order, and the ids that its own vouchers name, each with the places of these
/// vouchers.
#[derive(Drop)]
pub struct FrontPlaces {
    pub(crate) convictions: Vec<ConvictedAt>,
    pub(crate) vouchers: VoucherPlaces,
}

/// What a growth adds to it.
#[derive(Drop)]
pub(crate) struct NewPlaces {
    pub(crate) conviction: Option<ConvictedAt>,
    pub(crate) vouchers: Vec<VoucherPlace>,
}

impl FrontPlaces {
    /// Those of no records. It takes no memory.
    pub(crate) fn new(alloc: Global) -> FrontPlaces
        ensures { AreFrontPlaces [] result }
    {
        FrontPlaces {
            convictions: Vec::new(alloc),
            vouchers: VoucherPlaces::new(alloc),
        }
    }

    /// Reserves memory for what a growth adds: the `add` of it needs none. On `Memory` all is unchanged.
    pub(crate) fn reserve(&mut self, new: &NewPlaces) -> Result<(), Memory>
        ensures room { OnOk result (HasRoomFor self.new new.now) }
        ensures same { (J : List Record) → AreFrontPlaces J self.old → AreFrontPlaces J self.new }
    {
        self.vouchers.reserve(&new.vouchers)?;
        if new.conviction.is_some() {
            self.convictions.reserve(1)?;
        }
        Ok(())
    }

    /// Adds what a growth brings, for which memory was reserved. It takes none.
    pub(crate) fn add(&mut self, new: &NewPlaces)
        requires { HasRoomFor self.old new.now }
        ensures convictions { self.new.convictions.items ≡ self.old.convictions.items ++ option_to_list new.now.conviction }
        ensures vouchers { (id : List ℕ) (place : ℕ) → has_voucher_place self.new.vouchers id place ≡ (has_voucher_place self.old.vouchers id place || is_among_places new.now.vouchers.items id place) }
    {
        if let Some(conviction) = new.conviction {
            self.convictions.push_reserved(conviction);
        }
        self.vouchers.add(&new.vouchers);
    }
}

/// What a growth after `count` records adds.
pub(crate) fn new_places(alloc: Global, news: &News, count: u32) -> Result<NewPlaces, Memory>
    requires { count + length (records_in news.now) ≤ MOST_RECORDS }
    ensures { IfOk result (AreNewPlaces count news.now) }
{
    let vouchers = voucher_places_in(alloc, news, count)?;
    Ok(NewPlaces {
        conviction: conviction_in(news, count),
        vouchers,
    })
}

/// The conviction that a growth brings. There is one at most: its first record.
#[tactic(auto, using(crate::proofs::FrontPlaceLaws::none_convicting), unfolding(crate::specs::FrontPlaces::convictions_from))]
fn conviction_in(news: &News, count: u32) -> Option<ConvictedAt>
    ensures { option_to_list result ≡ convictions_from count (records_in news.now) }
{
    match news {
        News::Convicting { proof, .. } => Some(convicted_at(proof, count)),
        News::Conviction(proof) => Some(convicted_at(proof, count)),
        _ => None,
    }
}

/// The node that a proof convicts at a place.
fn convicted_at(proof: &Proof, place: u32) -> ConvictedAt
    ensures { result ≡ record { node = accused proof.now; place = place } }
{
    ConvictedAt {
        node: proof.accused(),
        place,
    }
}

/// The ids that a growth's own vouchers name, each with its place.
#[tactic(auto, unfolding(crate::specs::FrontPlaces::voucher_places_from))]
fn voucher_places_in(alloc: Global, news: &News, count: u32) -> Result<Vec<VoucherPlace>, Memory>
    requires { count + length (records_in news.now) ≤ MOST_RECORDS }
    ensures { IfOk result (λ places. places.items ≡ voucher_places_from count (records_in news.now)) }
{
    match news {
        News::Vouchers(vouchers) => places_of_vouchers(alloc, vouchers.as_slice(), count),
        _ => Ok(Vec::new(alloc)),
    }
}

/// The same for own vouchers after `count` records.
fn places_of_vouchers(
    alloc: Global,
    vouchers: &[NewVoucher],
    count: u32,
) -> Result<Vec<VoucherPlace>, Memory>
    requires { count + length vouchers.now ≤ MOST_RECORDS }
    ensures { IfOk result (λ places. places.items ≡ voucher_places_from count (records_of (vouchers_of vouchers.now))) }
{
    let mut places = Vec::new(alloc);
    let mut place = count;
    for item in vouchers {
        push_with_place(&mut places, item.voucher.ids.as_slice(), place)?;
        place += 1;
    }
    Ok(places)
}

/// Adds ids with a place.
fn push_with_place(places: &mut Vec<VoucherPlace>, ids: &[Hash32], place: u32) -> Result<(), Memory>
    ensures { OnOk result (places.new.items ≡ places.old.items ++ with_place place ids.now) }
{
    for id in ids {
        places.push(VoucherPlace { id: *id, place })?;
    }
    Ok(())
}
