//! Puts: decides on one, and carries the decision out.
ghost use Rattle.std.specs.Prelude.{◌≡◌, ◌≤◌, length, true};
ghost use Rattle.depot_base.specs.Pairs.{AllPairsByRecursion};
ghost use Rattle.depot_base.specs.Parts.{is_below};
ghost use Rattle.depot_base.specs.Writes.{one_change};
ghost use Rattle.depot_base.specs.declared.limits.TheConstants.{MOST_WRITES};
ghost use Rattle.depot_model.specs.checks.Putting.{Puts};
ghost use Rattle.depot_node.specs.Holdings.{node_setting};
ghost use Rattle.depot_node.specs.StoreCalls.{IsKept, IsStorePut};

use crate::commit::CommitError;
use crate::store::Store;
use depot_base::{Changes, Key, Value};
use depot_decide::decide_put;
use depot_model::{PutDone, PutError, Scheme};
use depot_outside::Disk;
use std::alloc::Global;

/// Puts a value under a key: `put_all` with this one change. A stopped store takes no memory for it.
pub fn put<D: Disk, S: Scheme>(
    alloc: Global,
    store: &mut Store<D, S>,
    key: Key,
    value: Value,
) -> Result<PutDone, PutError>
    requires kept { IsKept S.verifies store.old }
    ensures puts { Puts (node_setting S.verifies store.old) store.old.records (one_change key value) result store.new.records }
    ensures stands { node_setting S.verifies store.new ≡ node_setting S.verifies store.old }
    ensures kept { IsKept S.verifies store.new }
    ensures call { IsStorePut D.Disk S.verifies store.old store.new (one_change key value) result }
{
    if store.is_stopped() {
        return Err(PutError::Stopped);
    }
    let changes = Changes::one(alloc, key, value)?;
    put_all(alloc, store, changes)
}

/// Puts 1 to 16 changes, whose keys rise strictly: the journal grows by the next own update, and stays lawful. A
/// refusal changes nothing, except that on `Disk` the store is stopped. A stopped store puts nothing.
pub fn put_all<D: Disk, S: Scheme>(
    alloc: Global,
    store: &mut Store<D, S>,
    changes: Changes,
) -> Result<PutDone, PutError>
    requires kept { IsKept S.verifies store.old }
    requires few { (1 ≤ length changes) × (length changes ≤ MOST_WRITES) }
    requires rising { AllPairsByRecursion (λ c d. is_below c.key d.key ≡ true) changes }
    ensures puts { Puts (node_setting S.verifies store.old) store.old.records changes result store.new.records }
    ensures stands { node_setting S.verifies store.new ≡ node_setting S.verifies store.old }
    ensures kept { IsKept S.verifies store.new }
    ensures call { IsStorePut D.Disk S.verifies store.old store.new changes result }
{
    if store.is_stopped() {
        return Err(PutError::Stopped);
    }
    let plan = decide_put(alloc, store.readings(), changes)?;
    match store.commit(alloc, plan.growth, None, &[]) {
        Ok(()) => Ok(plan.done),
        Err(CommitError::Memory) => Err(PutError::Memory),
        Err(CommitError::Disk) => Err(PutError::Disk),
        Err(CommitError::Full(full)) => Err(PutError::Full(full)),
    }
}
