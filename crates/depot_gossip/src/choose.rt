//! What a bundle sends for a hello.
ghost use Rattle.std.specs.Prelude.{◌≡◌, ◌++◌, ◌≤◌, List, [], ◌∷◌, false, length, map, OnOk, IfOk, option_to_list, option_copied};
ghost use Rattle.std.specs.List.{AllByRecursion, flat_map};
ghost use Rattle.sha2.specs.Sha256.{sha256};
ghost use Rattle.depot_base.specs.declared.limits.TheConstants.{MOST_PAYLOAD, MOST_WRITES};
ghost use Rattle.depot_model.specs.exchange.Bundle.{Parcel, wanted_parcel, sent_for};
ghost use Rattle.depot_streams.specs.Sendings.{Holds, IsShort, ArePayloads, payloads_of};
ghost use Rattle.depot_gossip.specs.Choosing.{AddsBehind, AddsFound, AddsHashes, AddsTo, AreHashesOf, ForParcelAt, HasUpdateAt, leaves_out, parcels_at, parcels_with, value_parcels};

use crate::candidate::{foreign_id, values_behind};
use crate::hashes::{Hashes, has_hash};
use depot_base::{Hash32, Ids, Memory};
use depot_model::{Hello, HelloLeaves, Peer};
use depot_streams::Sending;
use std::alloc::Global;

/// The ids of leaves, in their order.
pub fn ids_of(alloc: Global, leaves: &HelloLeaves) -> Result<Ids, Memory>
    ensures { IfOk result (λ ids. ids ≡ map (λ l. l.id) leaves.now) }
{
    let mut ids = Ids::new(alloc);
    for leaf in leaves.as_slice() {
        ids.push(leaf.id)?;
    }
    Ok(ids)
}

/// Adds an id, if there is one.
fn push_id(ids: &mut Ids, id: Option<Hash32>) -> Result<(), Memory>
    ensures { OnOk result (ids.new ≡ ids.old ++ option_to_list id) }
{
    match id {
        Some(id) => ids.push(id),
        None => Ok(()),
    }
}

/// Chooses a candidate: its signed statement with this text, its values, and its id if a voucher is needed. Returns
/// whether it fits.
fn add_found(
    sending: &mut Sending,
    statement: &[u8],
    found: &[&[u8]],
    foreign: Option<Hash32>,
) -> Result<bool, Memory>
    requires short { IsShort sending.old }
    requires few { length found.now ≤ MOST_WRITES }
    requires told { length statement.now ≤ MOST_PAYLOAD }
    requires found { ArePayloads (payloads_of found.now) }
    ensures { AddsFound sending.old (statement.now ∷ []) (payloads_of found.now) (option_to_list foreign) result sending.new }
{
    if !sending.add(&[statement], found)? {
        return Ok(false);
    }
    push_id(&mut sending.ids, foreign)?;
    Ok(true)
}

/// Chooses the candidate of a place with the held values that it names, except those whose hashes are in the set.
/// Returns whether it fits.
pub fn add_candidate<R: Peer>(
    alloc: Global,
    sending: &mut Sending,
    hashes: &mut Hashes,
    node: &R,
    place: u32,
) -> Result<bool, Memory>
    requires running { R.stopped node.now ≡ false }
    requires tells { HasUpdateAt (R.records node.now) place }
    requires short { IsShort sending.old }
    ensures adds { ForParcelAt R.NodeState node.now place hashes.old.keys (λ x. AddsBehind (R.stands node.now).me sending.old (x ∷ []) sending.new result) }
    ensures hashes { ForParcelAt R.NodeState node.now place hashes.old.keys (λ x. AddsHashes hashes.old.keys (map sha256 x.values) result hashes.new.keys) }
{
    let Some(update) = node.update_at(place) else {
        unreachable!()
    };
    let Some(id) = node.id_at(place) else {
        unreachable!()
    };
    let statement = node.signed_text(place)?;
    let found = values_behind(alloc, node, hashes, update.writes.as_slice())?;
    let foreign = foreign_id(update, id, node.me());
    add_found(sending, statement.as_slice(), found.as_slice(), foreign)
}

/// Chooses the candidates of these places, as long as they fit. Returns whether all fit.
fn add_candidates<R: Peer>(
    alloc: Global,
    sending: &mut Sending,
    hashes: &mut Hashes,
    node: &R,
    places: &[u32],
) -> Result<bool, Memory>
    requires running { R.stopped node.now ≡ false }
    requires tell { AllByRecursion (HasUpdateAt (R.records node.now)) places.now }
    requires none { Holds (R.stands node.now).me [] sending.old }
    requires new { hashes.old.keys ≡ [] }
    ensures adds { AddsTo (R.stands node.now).me (parcels_at R.NodeState node.now places.now) sending.new result }
    ensures hashes { AreHashesOf (parcels_at R.NodeState node.now places.now) result hashes.new.keys }
{
    for place in places {
        if !add_candidate(alloc, sending, hashes, node, *place)? {
            return Ok(false);
        }
    }
    Ok(true)
}

/// The held value of a hash, unless it is among these.
fn wanted_value<'n, R: Peer>(node: &'n R, hashes: &Hashes, hash: &Hash32) -> Option<&'n [u8]>
    requires { R.stopped node.now ≡ false }
    ensures { wanted_parcel (R.records node.now) hashes.now.keys hash.now ≡ value_parcels (option_copied result) }
{
    if has_hash(hashes, hash) {
        return None;
    }
    node.held(hash)
}

/// Chooses the value of a wanted hash, if it is held and its hash isn't in the set. Returns whether it fits.
pub fn add_wanted_value<R: Peer>(
    sending: &mut Sending,
    hashes: &Hashes,
    node: &R,
    hash: &Hash32,
) -> Result<bool, Memory>
    requires running { R.stopped node.now ≡ false }
    requires short { IsShort sending.old }
    ensures { AddsBehind (R.stands node.now).me sending.old (wanted_parcel (R.records node.now) hashes.now.keys hash.now) sending.new result }
{
    match wanted_value(node, hashes, hash) {
        Some(value) => sending.add(&[], &[value]),
        None => Ok(true),
    }
}

/// Chooses the wanted values that are held and whose hashes aren't in the set, as long as they fit. Returns whether all
/// fit.
fn add_wanted<R: Peer>(
    sending: &mut Sending,
    hashes: &Hashes,
    node: &R,
    wanted: &[Hash32],
) -> Result<bool, Memory>
    requires running { R.stopped node.now ≡ false }
    requires some { (xs : List Parcel) × Holds (R.stands node.now).me xs sending.old }
    ensures { AddsBehind (R.stands node.now).me sending.old (flat_map (wanted_parcel (R.records node.now) hashes.now.keys) wanted.now) sending.new result }
{
    for hash in wanted {
        if !add_wanted_value(sending, hashes, node, hash)? {
            return Ok(false);
        }
    }
    Ok(true)
}

/// Chooses the candidates of these places, then the wanted values. Returns whether all fit.
fn add_all<R: Peer>(
    alloc: Global,
    sending: &mut Sending,
    node: &R,
    places: &[u32],
    wanted: &[Hash32],
) -> Result<bool, Memory>
    requires running { R.stopped node.now ≡ false }
    requires tell { AllByRecursion (HasUpdateAt (R.records node.now)) places.now }
    requires none { Holds (R.stands node.now).me [] sending.old }
    ensures { AddsTo (R.stands node.now).me (parcels_with R.NodeState node.now places.now wanted.now) sending.new result }
{
    let mut hashes = Hashes::new(alloc);
    if !add_candidates(alloc, sending, &mut hashes, node, places)? {
        return Ok(false);
    }
    add_wanted(sending, &hashes, node, wanted)
}

/// What a bundle sends for a hello, and whether something is left out.
pub(crate) fn chosen<R: Peer>(alloc: Global, node: &R, hello: &Hello) -> Result<Sending, Memory>
    requires { R.stopped node.now ≡ false }
    ensures holds { IfOk result (λ s. Holds (R.stands node.now).me (sent_for (R.signature_of node.now) (R.records node.now) hello.now) s) }
    ensures more { IfOk result (λ s. s.more ≡ leaves_out (R.signature_of node.now) (R.records node.now) hello.now) }
{
    let ids = ids_of(alloc, &hello.leaves)?;
    let places = node.candidates(&ids, hello.node)?;
    let mut sending = Sending::new(alloc);
    let all = add_all(
        alloc,
        &mut sending,
        node,
        places.as_slice(),
        hello.wanted.as_slice(),
    )?;
    sending.more = !all;
    Ok(sending)
}
