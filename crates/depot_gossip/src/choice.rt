//! What is chosen within bounds.
ghost use Rattle.std.specs.Prelude.{◌≡◌, ◌+◌, ◌<◌, ◌≤◌, ◌^◌, ◌++◌, ℕ, List, [], false, IsTrue, OnOk, nat_le, ◌&&◌, ◌||◌, ◌==◌};
ghost use Rattle.depot_base.specs.declared.record.Record.{Record};
ghost use Rattle.depot_base.specs.declared.limits.TheConstants.{MOST_BUNDLE, MOST_BUNDLE_FRAMES};
ghost use Rattle.depot_gossip.specs.Bounding.{leaves_left};
ghost use Rattle.depot_gossip.specs.Choices.{AddsParcel, IsChosenFrom, TellsRoom, has_ids, room_within};

use crate::bounds::Bounds;
use depot_base::limits::{MOST_BUNDLE, MOST_BUNDLE_FRAMES, MOST_IDS};
use depot_base::{Ids, Memory};
use depot_queries::LocalNode;
use depot_streams::Sending;
use std::alloc::Global;

/// How much is left to choose.
#[derive(Clone, Copy)]
pub(crate) struct Space {
    /// The most bytes.
    bytes: u32,
    /// The most ids that are to be vouched for. None: any number.
    ids: Option<u64>,
}

/// How many leaves of its tree a node has left.
fn leaves_left<N: LocalNode>(node: &N) -> u32
    requires { N.stopped node.now ≡ false }
    ensures { result ≡ leaves_left (N.stands node.now) (N.records node.now) }
{
    node.leaf_count().saturating_sub(node.statement_count())
}

impl Space {
    /// The room that bounds leave at a node: a voucher names 256 ids, and takes an unused leaf.
    pub(crate) fn of<N: LocalNode>(node: &N, bounds: &Bounds) -> Space
        requires { N.stopped node.now ≡ false }
        ensures { result ≡ room_within (N.stands node.now) (N.records node.now) bounds.now }
    {
        let ids = match bounds.vouchers {
            None => None,
            Some(most) => Some(u64::from(MOST_IDS) * u64::from(most.min(leaves_left(node)))),
        };
        Space {
            bytes: bounds.bytes,
            ids,
        }
    }

    /// Whether there is room for so many ids.
    fn has_ids(&self, count: usize) -> bool
        ensures { result ≡ has_ids self.now.ids count }
    {
        match self.ids {
            None => true,
            Some(most) => count as u64 <= most,
        }
    }

    /// Whether there is room for so many bytes, of which so many precede the last parcel.
    fn has_bytes(&self, before: usize, bytes: usize) -> bool
        ensures { result ≡ (before == 0 || nat_le bytes self.now.bytes) }
    {
        before == 0 || bytes <= self.bytes as usize
    }

    /// Whether there is room for so many bytes, frames and ids.
    fn has(&self, before: usize, bytes: usize, frames: u64, ids: usize) -> bool
        ensures has { result ≡ ((nat_le bytes MOST_BUNDLE && nat_le frames MOST_BUNDLE_FRAMES) && (before == 0 || nat_le bytes self.now.bytes) && has_ids self.now.ids ids) }
        ensures few { IsTrue result → frames ≤ MOST_BUNDLE_FRAMES }
    {
        fits_a_bundle(bytes, frames) && self.has_bytes(before, bytes) && self.has_ids(ids)
    }
}

/// Whether so many bytes and frames fit into a bundle.
fn fits_a_bundle(bytes: usize, frames: u64) -> bool
    ensures fits { result ≡ (nat_le bytes MOST_BUNDLE && nat_le frames MOST_BUNDLE_FRAMES) }
    ensures few { IsTrue result → frames ≤ MOST_BUNDLE_FRAMES }
{
    bytes <= MOST_BUNDLE as usize && frames <= u64::from(MOST_BUNDLE_FRAMES)
}

/// The chosen updates and values, and what is to be vouched for.
#[derive(Drop)]
pub(crate) struct Choice {
    /// The updates and values.
    pub sending: Sending,
    /// The ids of chosen updates of others that no own voucher names.
    pub unvouched: Ids,
}

/// How many frames there are.
fn frame_count(sending: &Sending) -> u64
    ensures count { result ≡ sending.now.updates + sending.now.values }
    ensures few { result < 2 ^ 33 }
{
    u64::from(sending.updates) + u64::from(sending.values)
}

/// Puts ids after others.
fn push_ids(ids: &mut Ids, more: &Ids) -> Result<(), Memory>
    ensures { OnOk result (ids.new ≡ ids.old ++ more.now) }
{
    for id in more.as_slice() {
        ids.push(*id)?;
    }
    Ok(())
}

impl Choice {
    /// Nothing yet. It takes no memory.
    pub(crate) fn new(alloc: Global) -> Choice
        ensures { (me : ℕ) (J : List Record) (room : Space) → IsChosenFrom me J room [] result }
    {
        Choice {
            sending: Sending::new(alloc),
            unvouched: Ids::new(alloc),
        }
    }

    /// Whether there is room for a parcel after what is chosen.
    fn admits(&self, parcel: &Sending, fresh: &Ids, room: &Space) -> bool
        ensures room { TellsRoom self.now parcel.now fresh.now room.now result }
        ensures few { IsTrue result → (self.now.sending.updates + self.now.sending.values) + (parcel.now.updates + parcel.now.values) ≤ MOST_BUNDLE_FRAMES }
    {
        let before = self.sending.frames.as_slice().len();
        let bytes = before + parcel.frames.as_slice().len();
        let frames = frame_count(&self.sending) + frame_count(parcel);
        let ids = self.unvouched.as_slice().len() + fresh.as_slice().len();
        room.has(before, bytes, frames, ids)
    }

    /// Chooses a parcel, with the ids in it to vouch for, if there is room. Returns whether there is.
    pub(crate) fn add(
        &mut self,
        parcel: &Sending,
        fresh: &Ids,
        room: &Space,
    ) -> Result<bool, Memory>
        ensures { AddsParcel self.old parcel.now fresh.now room.now self.new result }
    {
        if !self.admits(parcel, fresh, room) {
            return Ok(false);
        }
        self.sending.frames.push_all(parcel.frames.as_slice())?;
        push_ids(&mut self.sending.ids, &parcel.ids)?;
        push_ids(&mut self.unvouched, fresh)?;
        self.sending.updates += parcel.updates;
        self.sending.values += parcel.values;
        Ok(true)
    }
}
