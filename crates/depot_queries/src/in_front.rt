//! The records that a bundle begins with: proofs, and own vouchers for what it sends.
ghost use Rattle.std.specs.Prelude.{◌≡◌, ◌==◌, IfOk};
ghost use Rattle.std.specs.List.{list_any};
ghost use Rattle.depot_model.specs.exchange.Bundle.{proof_places, voucher_places};
ghost use Rattle.depot_queries.specs.InFront.{AreVoucherPlaces};

use depot_base::{Hash32, Ids, Items, Memory, NodeId, Nodes};
use depot_model::Scheme;
use depot_readings::Readings;
use std::alloc::Global;

/// Whether a node is one of these.
fn is_one_of(nodes: &[NodeId], node: NodeId) -> bool
    ensures { result ≡ list_any (λ n. n == node) nodes.now }
{
    nodes.iter().any(|listed| *listed == node)
}

/// The places of the records that convict a node which isn't one of these, rising. No other record is looked at.
pub fn proof_places<S: Scheme>(
    alloc: Global,
    readings: &Readings<S>,
    listed: &Nodes,
) -> Result<Items, Memory>
    ensures { IfOk result (λ places. places ≡ proof_places readings.now.records listed.now) }
{
    let mut places = Items::new(alloc);
    for conviction in readings.convictions() {
        if is_one_of(listed.as_slice(), conviction.node) {
            continue;
        }
        places.push(conviction.place)?;
    }
    Ok(places)
}

/// The places of the own vouchers that name one of these ids, rising, each once. No other record is looked at.
pub fn voucher_places<S: Scheme>(
    alloc: Global,
    readings: &Readings<S>,
    ids: &Ids,
) -> Result<Items, Memory>
    ensures { IfOk result (λ places. places ≡ voucher_places readings.now.records ids.now) }
{
    let mut found = places_found(alloc, readings, ids.as_slice())?;
    found.sort_unstable();
    found.dedup();
    Ok(Items::from_vec(found))
}

/// The same in the order of the ids. A voucher that names two of them is repeated.
fn places_found<S: Scheme>(
    alloc: Global,
    readings: &Readings<S>,
    ids: &[Hash32],
) -> Result<Vec<u32>, Memory>
    ensures { IfOk result (λ found. AreVoucherPlaces readings.now.records ids.now found.items) }
{
    let mut found = Vec::new(alloc);
    for id in ids {
        readings.push_voucher_places(id, &mut found)?;
    }
    Ok(found)
}
