//! What a node sends for a hello.
ghost use Rattle.std.specs.Prelude.{◌≡◌, false};
ghost use Rattle.depot_gossip.specs.Bundling.{Bundles, HasReady, IsBundleCall, IsReadySent};

use crate::bundle_error::BundleError;
use crate::bundle_stream::{Bundled, bundle_for};
use crate::preparing::{Prepared, prepare};
use depot_model::Peer;
use std::alloc::Global;

/// Makes the bundle that a node sends for the text of a hello: the proofs that the reader lacks, the node's vouchers
/// for the updates of others that it sends, these updates and its own with their values, the values that the reader
/// wants, and End (docs/FORMATS.md). Missing vouchers are journaled before a byte is handed out.
///
/// The errors come in this order: `Stopped` if the node was stopped; `IllFormed` if the text is no hello's, with the
/// offset of its first fault; `OtherRoster`; `IllFormed(2)` if the roster lacks the hello's node; `Spent` and `Full` if
/// the vouchers meet that limit. After these the node is unchanged. On `Memory` it is unchanged or has all the
/// vouchers; after `Disk` it is stopped and has the vouchers before the failing one. Every crash image has the records
/// from before and a prefix of the vouchers. It makes only the disk calls that append the vouchers; one that fails is
/// the last.
pub fn bundle<R: Peer>(alloc: Global, node: &mut R, hello: &[u8]) -> Result<Bundled, BundleError>
    ensures bundles { Bundles (R.stands node.old) (R.signature_of node.old) (R.records node.old) (R.stopped node.old) hello.now result (R.records node.new) }
    ensures call { IsBundleCall R.NodeState node.old node.new hello.now result }
{
    let chosen = prepare(alloc, node, hello)?;
    send_prepared(alloc, node, chosen)
}

/// Makes the bundle of what was prepared, once its vouchers are journaled. The errors, and their effects, are those of
/// `bundle` for its vouchers.
pub fn send_prepared<R: Peer>(
    alloc: Global,
    node: &mut R,
    chosen: Prepared,
) -> Result<Bundled, BundleError>
    requires runs { R.stopped node.old ≡ false }
    requires ready { HasReady R.NodeState node.old chosen }
    ensures { IsReadySent R.NodeState node.old node.new chosen result }
{
    node.own_vouchers(&chosen.unvouched)?;
    let Prepared { hello, sending, .. } = chosen;
    Ok(bundle_for(alloc, node, &hello, sending)?)
}
