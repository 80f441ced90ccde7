//! What a bounded bundle sends for a hello.
ghost use Rattle.std.specs.Prelude.{◌≡◌, [], ◌∷◌, false, map, IfOk};
ghost use Rattle.std.specs.List.{AllByRecursion, filter, flat_map};
ghost use Rattle.sha2.specs.Sha256.{sha256};
ghost use Rattle.depot_model.specs.exchange.Bundle.{wanted_parcel};
ghost use Rattle.depot_gossip.specs.Choosing.{AddsHashes, AreHashesOf, ForParcelAt, HasUpdateAt, parcels_at, parcels_with};
ghost use Rattle.depot_gossip.specs.Bounding.{parcels_of};
ghost use Rattle.depot_gossip.specs.Choices.{ChoosesBehind, ChoosesTo, IsChosenFrom, IsChosenWithin, is_of_at};

use crate::bounds::Bounds;
use crate::choice::{Choice, Space};
use crate::{Hashes, add_candidate, add_wanted_value, ids_of, unvouched_of};
use depot_base::{Hash32, Ids, Items, Memory};
use depot_model::{Hello, Peer};
use depot_queries::LocalNode;
use depot_streams::Sending;
use std::alloc::Global;

/// Chooses the candidate of a place with its values, except those whose hashes are in the set, if there is room.
/// Returns whether there is.
fn choose_candidate<R: Peer>(
    alloc: Global,
    choice: &mut Choice,
    hashes: &mut Hashes,
    node: &R,
    place: u32,
    room: &Space,
) -> Result<bool, Memory>
    requires runs { R.stopped node.now ≡ false }
    requires tells { HasUpdateAt (R.records node.now) place }
    ensures chooses { ForParcelAt R.NodeState node.now place hashes.old.keys (λ x. ChoosesBehind (R.stands node.now).me (R.records node.now) room.now choice.old (x ∷ []) choice.new result) }
    ensures hashes { ForParcelAt R.NodeState node.now place hashes.old.keys (λ x. AddsHashes hashes.old.keys (map sha256 x.values) result hashes.new.keys) }
{
    let mut parcel = Sending::new(alloc);
    if !add_candidate(alloc, &mut parcel, hashes, node, place)? {
        return Ok(false);
    }
    let fresh = unvouched_of(alloc, node, &parcel.ids)?;
    choice.add(&parcel, &fresh, room)
}

/// Chooses the candidates of these places, as long as there is room. Returns whether all have room.
fn choose_candidates<R: Peer>(
    alloc: Global,
    choice: &mut Choice,
    hashes: &mut Hashes,
    node: &R,
    places: &[u32],
    room: &Space,
) -> Result<bool, Memory>
    requires runs { R.stopped node.now ≡ false }
    requires tell { AllByRecursion (HasUpdateAt (R.records node.now)) places.now }
    requires none { IsChosenFrom (R.stands node.now).me (R.records node.now) room.now [] choice.old }
    requires new { hashes.old.keys ≡ [] }
    ensures chooses { ChoosesTo (R.stands node.now).me (R.records node.now) room.now (parcels_at R.NodeState node.now places.now) choice.new result }
    ensures hashes { AreHashesOf (parcels_at R.NodeState node.now places.now) result hashes.new.keys }
{
    for place in places {
        if !choose_candidate(alloc, choice, hashes, node, *place, room)? {
            return Ok(false);
        }
    }
    Ok(true)
}

/// Chooses the value of a wanted hash, if it is held, its hash isn't in the set, and there is room. Returns whether
/// there is.
fn choose_wanted_value<R: Peer>(
    alloc: Global,
    choice: &mut Choice,
    hashes: &Hashes,
    node: &R,
    hash: &Hash32,
    room: &Space,
) -> Result<bool, Memory>
    requires runs { R.stopped node.now ≡ false }
    ensures { ChoosesBehind (R.stands node.now).me (R.records node.now) room.now choice.old (wanted_parcel (R.records node.now) hashes.now.keys hash.now) choice.new result }
{
    let mut parcel = Sending::new(alloc);
    if !add_wanted_value(&mut parcel, hashes, node, hash)? {
        return Ok(false);
    }
    // The value isn't held, or goes already.
    if parcel.values == 0 {
        return Ok(true);
    }
    choice.add(&parcel, &Ids::new(alloc), room)
}

/// Chooses the wanted values that are held and whose hashes aren't in the set, as long as there is room. Returns
/// whether all have room.
fn choose_wanted<R: Peer>(
    alloc: Global,
    choice: &mut Choice,
    hashes: &Hashes,
    node: &R,
    wanted: &[Hash32],
    room: &Space,
) -> Result<bool, Memory>
    requires runs { R.stopped node.now ≡ false }
    ensures { ChoosesBehind (R.stands node.now).me (R.records node.now) room.now choice.old (flat_map (wanted_parcel (R.records node.now) hashes.now.keys) wanted.now) choice.new result }
{
    for hash in wanted {
        if !choose_wanted_value(alloc, choice, hashes, node, hash, room)? {
            return Ok(false);
        }
    }
    Ok(true)
}

/// Whether the update of a place is the node's own.
fn is_own<R: Peer>(node: &R, place: u32) -> bool
    requires { R.stopped node.now ≡ false }
    ensures { result ≡ is_of_at (R.stands node.now).me (R.records node.now) place }
{
    match node.update_at(place) {
        Some(update) => update.writer == node.me(),
        None => false,
    }
}

/// The places of the node's own updates among these.
fn own_places<R: Peer>(alloc: Global, node: &R, places: &[u32]) -> Result<Items, Memory>
    requires { R.stopped node.now ≡ false }
    ensures { IfOk result (λ own. own ≡ filter (is_of_at (R.stands node.now).me (R.records node.now)) places.now) }
{
    let mut own = Items::new(alloc);
    for place in places {
        if is_own(node, *place) {
            own.push(*place)?;
        }
    }
    Ok(own)
}

/// Chooses the candidates of these places, then the wanted values. Returns whether all have room.
fn choose_all<R: Peer>(
    alloc: Global,
    choice: &mut Choice,
    node: &R,
    places: &[u32],
    wanted: &[Hash32],
    room: &Space,
) -> Result<bool, Memory>
    requires runs { R.stopped node.now ≡ false }
    requires tell { AllByRecursion (HasUpdateAt (R.records node.now)) places.now }
    requires none { IsChosenFrom (R.stands node.now).me (R.records node.now) room.now [] choice.old }
    ensures { ChoosesTo (R.stands node.now).me (R.records node.now) room.now (parcels_with R.NodeState node.now places.now wanted.now) choice.new result }
{
    let mut hashes = Hashes::new(alloc);
    if !choose_candidates(alloc, choice, &mut hashes, node, places, room)? {
        return Ok(false);
    }
    choose_wanted(alloc, choice, &hashes, node, wanted, room)
}

/// Chooses what there is to send for a hello, or only the node's own updates of it. Returns whether all have room.
fn choose_for<R: Peer>(
    alloc: Global,
    choice: &mut Choice,
    node: &R,
    hello: &Hello,
    own: bool,
    room: &Space,
) -> Result<bool, Memory>
    requires runs { R.stopped node.now ≡ false }
    requires none { IsChosenFrom (R.stands node.now).me (R.records node.now) room.now [] choice.old }
    ensures { ChoosesTo (R.stands node.now).me (R.records node.now) room.now (parcels_of (R.stands node.now).me (R.signature_of node.now) (R.records node.now) hello.now own) choice.new result }
{
    let ids = ids_of(alloc, &hello.leaves)?;
    let places = node.candidates(&ids, hello.node)?;
    if own {
        let mine = own_places(alloc, node, places.as_slice())?;
        return choose_all(alloc, choice, node, mine.as_slice(), &[], room);
    }
    choose_all(
        alloc,
        choice,
        node,
        places.as_slice(),
        hello.wanted.as_slice(),
        room,
    )
}

/// What a bounded bundle sends for a hello, and whether something is left out.
pub(crate) fn chosen_within<N: LocalNode>(
    alloc: Global,
    node: &N,
    hello: &Hello,
    bounds: &Bounds,
) -> Result<Choice, Memory>
    requires { N.stopped node.now ≡ false }
    ensures { IfOk result (IsChosenWithin (N.stands node.now) (N.signature_of node.now) (N.records node.now) hello.now bounds.now) }
{
    let room = Space::of(node, bounds);
    let mut choice = Choice::new(alloc);
    let all = choose_for(alloc, &mut choice, node, hello, bounds.own, &room)?;
    choice.sending.more = !all;
    Ok(choice)
}
