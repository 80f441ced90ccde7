//! Decides on the vouchers that a node makes for what it took from others, and which ids it may vouch for.
ghost use Rattle.std.specs.Prelude.{◌≡◌, ◌<◌, ◌+◌, ◌^◌, length, true, false, not, nat_lt, IfOk, IfErr};
ghost use Rattle.std.specs.List.{AllByRecursion};
ghost use Rattle.depot_base.specs.declared.limits.TheConstants.{MOST_IDS};
ghost use Rattle.depot_model.specs.journals.Journal.{accepted, is_foreign};
ghost use Rattle.depot_model.specs.journals.Lawful.{is_empty};
ghost use Rattle.depot_model.specs.lists.Lists.{AreApart};
ghost use Rattle.depot_model.specs.checks.Own.{leaf_count};
ghost use Rattle.depot_model.specs.checks.Vouching.{groups_of, numbered, rising};
ghost use Rattle.depot_readings.specs.ReadingsView.{standing};
ghost use Rattle.depot_decide.specs.PlannedVouchers.{ArePlanned, AreRefused};

use crate::plan_errors::VoucherPlanError;
use crate::put_decision::has_leaf;
use depot_base::limits::MOST_IDS;
use depot_base::{Hash32, Ids, Memory, NodeId, Voucher};
use depot_model::{Past, Scheme};
use depot_readings::{Growth, Readings};
use std::alloc::Global;
use std::collections::BTreeSet;

/// Whether an accepted update of another node has this id. It takes no memory.
pub fn is_foreign<S: Scheme>(readings: &Readings<S>, id: &Hash32) -> bool
    ensures { result ≡ is_foreign readings.now.me (accepted readings.now.records) id.now }
{
    let state = readings.state();
    let graph = state.graph();
    match graph.find(id) {
        Some(item) => graph.update(item).writer != state.me(),
        None => false,
    }
}

/// Decides on ids that the node should vouch for, which are distinct and of accepted updates of others: own vouchers,
/// one for each 256 ids in the order given, unless too few leaves are left to sign them (`Spent`, with the number of
/// the node's statements). Whether there is room for their records isn't checked. `Memory` may come in place of each
/// answer.
pub fn decide_vouchers<S: Scheme>(
    alloc: Global,
    readings: &Readings<S>,
    ids: &[Hash32],
) -> Result<Growth, VoucherPlanError>
    requires some { is_empty readings.now.records ≡ false }
    requires apart { AreApart ids.now }
    requires foreign { AllByRecursion (λ h. is_foreign readings.now.me (accepted readings.now.records) h ≡ true) ids.now }
    ensures planned { IfOk result (ArePlanned (standing S.verifies readings.now) readings.now.records ids.now) }
    ensures refused { IfErr result (AreRefused (standing S.verifies readings.now) readings.now.records ids.now) }
{
    let state = readings.state();
    let own = readings.totals().own;
    let count = ids.len().div_ceil(MOST_IDS as usize) as u32;
    if !has_leaves(readings, own + count) {
        return Err(VoucherPlanError::Spent(own));
    }
    let vouchers = vouchers_for(alloc, state.me(), own, ids)?;
    let growth = Growth::vouchers(alloc, vouchers)?;
    Ok(growth)
}

/// Whether the node's tree has at least `count` leaves.
fn has_leaves<S: Scheme>(readings: &Readings<S>, count: u32) -> bool
    ensures { result ≡ not (nat_lt (leaf_count readings.now.listed readings.now.me) count) }
{
    count == 0 || has_leaf(readings, count - 1)
}

/// The vouchers of a node for these ids, one for each 256 in the order given, with the seqs from `seq` on.
fn vouchers_for(
    alloc: Global,
    node: NodeId,
    seq: u32,
    ids: &[Hash32],
) -> Result<Vec<Voucher>, Memory>
    requires { seq + length ids.now < 2 ^ 32 }
    ensures { IfOk result (λ vouchers. vouchers.items ≡ numbered node seq (groups_of MOST_IDS ids.now)) }
{
    let mut vouchers = Vec::new(alloc);
    let mut seq = seq;
    for group in ids.chunks(MOST_IDS as usize) {
        let ids = rising(alloc, group)?;
        vouchers.push(Voucher { node, seq, ids })?;
        seq += 1;
    }
    Ok(vouchers)
}

/// These ids in rising order, each once.
fn rising(alloc: Global, ids: &[Hash32]) -> Result<Ids, Memory>
    ensures { IfOk result (λ sorted. sorted ≡ rising ids.now) }
{
    let mut sorted = BTreeSet::new(alloc);
    for place in (0..ids.len()).rev() {
        sorted.insert(ids[place])?;
    }
    let sorted: Vec<Hash32> = sorted.iter().copied().collect(alloc)?;
    Ok(Ids::from_vec(sorted))
}
