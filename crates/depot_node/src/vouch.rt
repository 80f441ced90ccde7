//! The vouchers that a node makes for what it took from others: decides on them, and carries the decision out.
ghost use Rattle.std.specs.Prelude.{◌≡◌, true, false};
ghost use Rattle.std.specs.List.{AllByRecursion};
ghost use Rattle.depot_model.specs.journals.Journal.{accepted, is_foreign};
ghost use Rattle.depot_model.specs.lists.Lists.{AreApart};
ghost use Rattle.depot_model.specs.checks.Vouching.{Vouches, is_mine_vouched};
ghost use Rattle.depot_node.specs.Holdings.{node_setting};
ghost use Rattle.depot_node.specs.StoreCalls.{IsKept, IsStoreVouch};

use crate::commit::CommitError;
use crate::store::Store;
use depot_base::Ids;
use depot_decide::decide_vouchers;
use depot_model::{Scheme, VoucherError};
use depot_outside::Disk;
use std::alloc::Global;

/// Vouches for accepted updates of others that the node hasn't vouched for, and keeps the journal lawful: one own
/// voucher for each 256 ids in the order given. Appends all of them or none. `Spent` comes exactly where the vouchers
/// would pass the leaves of the node's tree, with the number of its statements, and else `Full` exactly where there is
/// no room for them. `Memory` may come in place of each answer. On an error the journal is unchanged, except that on
/// `Disk` those before the failing one are appended, and the store is stopped. A stopped store vouches for nothing.
pub fn own_vouchers<D: Disk, S: Scheme>(
    alloc: Global,
    store: &mut Store<D, S>,
    ids: &Ids,
) -> Result<(), VoucherError>
    requires kept { IsKept S.verifies store.old }
    requires apart { AreApart ids.now }
    requires foreign { AllByRecursion (λ h. is_foreign store.old.me (accepted store.old.records) h ≡ true) ids.now }
    requires fresh { AllByRecursion (λ h. is_mine_vouched store.old.records h ≡ false) ids.now }
    ensures vouches { Vouches (node_setting S.verifies store.old) store.old.records ids.now result store.new.records }
    ensures stands { node_setting S.verifies store.new ≡ node_setting S.verifies store.old }
    ensures kept { IsKept S.verifies store.new }
    ensures call { IsStoreVouch D.Disk S.verifies store.old store.new ids.now result }
{
    if store.is_stopped() {
        return Err(VoucherError::Stopped);
    }
    let growth = decide_vouchers(alloc, store.readings(), ids.as_slice())?;
    match store.commit(alloc, growth, None, &[]) {
        Ok(()) => Ok(()),
        Err(CommitError::Memory) => Err(VoucherError::Memory),
        Err(CommitError::Disk) => Err(VoucherError::Disk),
        Err(CommitError::Full(full)) => Err(VoucherError::Full(full)),
    }
}
