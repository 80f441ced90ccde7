//! A node gives receipts.
ghost use Rattle.std.specs.Prelude.{◌≡◌, ◌≤◌, length, true};
ghost use Rattle.depot_base.specs.Pairs.{AllPairsByRecursion};
ghost use Rattle.depot_base.specs.Parts.{is_below};
ghost use Rattle.depot_base.specs.declared.limits.TheConstants.{MOST_WRITES};
ghost use Rattle.depot_model.specs.worlds.Receipts.{AreReceiptsTrue};
ghost use Rattle.depot_queries.specs.Giving.{GivesReceipts, IsReceiptCall, as_give, as_give_error};

use crate::LocalNode;
use crate::due::changes_due;
use crate::give_error::GiveError;
use depot_base::Ids;
use depot_model::{PutDone, PutError, Replica};
use std::alloc::Global;

/// Gives receipts for 1 to 16 ids, strictly rising, by one put of the empty value under the key of each. By this
/// signature the node says that it holds the values of these updates.
///
/// `Stopped` is returned exactly when the disk failed in an earlier call. `Unknown` is returned exactly when an id
/// isn't that of an accepted update, with the first such id; else `NoValue` exactly when a value that an update names
/// isn't held, with the first such id. Then come the errors of [`put_all`](LocalNode::put_all), with the same effects:
/// after `Disk` the node is stopped, after any other error its journal is unchanged. If each receipt that the node gave
/// before was true, each one still is.
pub fn give<N: LocalNode>(alloc: Global, node: &mut N, ids: &Ids) -> Result<PutDone, GiveError>
    requires few { (1 ≤ length ids.now) × (length ids.now ≤ MOST_WRITES) }
    requires rising { AllPairsByRecursion (λ g h. is_below g h ≡ true) ids.now }
    ensures gives { GivesReceipts (N.stands node.old) (N.records node.old) ids.now result (N.records node.new) }
    ensures receipts { AreReceiptsTrue (N.records node.old) → AreReceiptsTrue (N.records node.new) }
    ensures call { IsReceiptCall N.NodeState node.old node.new ids.now result }
{
    if node.is_stopped() {
        return Err(GiveError::Stopped);
    }
    match changes_due(alloc, node, node.graph(), ids.as_slice()) {
        Ok(changes) => as_give(node.put_all(changes)),
        Err(refusal) => Err(refusal),
    }
}

/// The answer of a put as that of giving receipts.
fn as_give(answer: Result<PutDone, PutError>) -> Result<PutDone, GiveError>
    ensures { result ≡ as_give answer }
{
    match answer {
        Ok(done) => Ok(done),
        Err(refusal) => Err(as_refusal(refusal)),
    }
}

/// The refusal of a put as that of giving receipts.
fn as_refusal(refusal: PutError) -> GiveError
    ensures { result ≡ as_give_error refusal }
{
    match refusal {
        PutError::Memory => GiveError::Memory,
        PutError::Disk => GiveError::Disk,
        PutError::Stopped => GiveError::Stopped,
        PutError::Spent(count) => GiveError::Spent(count),
        PutError::Tips(count) => GiveError::Tips(count),
        PutError::Collides(id) => GiveError::Collides(id),
        PutError::Full(full) => GiveError::Full(full),
    }
}
