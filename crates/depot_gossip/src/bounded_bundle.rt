//! A bundle with bounds.
ghost use Rattle.std.specs.Prelude.{◌≡◌, false, Err};
ghost use Rattle.depot_gossip.specs.Bundling.{IsAnswerCall};
ghost use Rattle.depot_model.specs.journals.JournalCalls.{IsStable};
ghost use Rattle.depot_model.specs.journals.Replicas.{journal_of};
ghost use Rattle.depot_gossip.specs.Bounding.{bounded_answer};
ghost use Rattle.depot_gossip.specs.SendCalls.{IsSendCall, Sends};
ghost use Rattle.depot_gossip.specs.Within.{BundlesWithin, PreparesWithin, replied};

use crate::bounds::Bounds;
use crate::choice::Choice;
use crate::choosing::chosen_within;
use crate::send_request::SendRequest;
use crate::{BundleError, Bundled, Prepared, heard, send_prepared};
use depot_queries::LocalNode;
use depot_requests::{Halt, NodeLimit, Reason, Reply};
use std::alloc::Global;

/// Chooses what is sent within bounds for the hello of a text, and the ids to vouch for first.
fn prepare_within<N: LocalNode>(
    alloc: Global,
    node: &N,
    text: &[u8],
    bounds: &Bounds,
) -> Result<Prepared, BundleError>
    requires { N.stopped node.now ≡ false }
    ensures { PreparesWithin (N.stands node.now) (N.signature_of node.now) (N.records node.now) text.now bounds.now result }
{
    let hello = heard(alloc, node, text)?;
    let Choice { sending, unvouched } = chosen_within(alloc, node, &hello, bounds)?;
    Ok(Prepared {
        hello,
        sending,
        unvouched,
    })
}

/// Makes the bundle within bounds for the text of a hello. Missing vouchers are journaled before a byte is handed out.
fn bundle_within<N: LocalNode>(
    alloc: Global,
    node: &mut N,
    hello: &[u8],
    bounds: &Bounds,
) -> Result<Bundled, BundleError>
    requires runs { N.stopped node.old ≡ false }
    requires stable { IsStable (journal_of N.NodeState) node.old }
    ensures bundles { BundlesWithin N.NodeState node.old node.new hello.now bounds.now result }
    ensures call { IsAnswerCall N.NodeState node.old node.new (bounded_answer (N.stands node.old) (N.signature_of node.old) (N.records node.old) hello.now bounds.now) result }
{
    let chosen = prepare_within(alloc, node, hello, bounds)?;
    send_prepared(alloc, node, chosen)
}

/// What is replied where no bundle was made.
fn reply_to_unsent(error: BundleError) -> Result<Reply, Halt>
    ensures { result ≡ replied (Err error) }
{
    let why = match error {
        BundleError::Memory => return Err(Halt::Memory),
        BundleError::Disk => return Err(Halt::Disk),
        BundleError::Stopped => return Err(Halt::Stopped),
        BundleError::IllFormed(at) => Reason::IllFormed(at),
        BundleError::OtherRoster { given, .. } => Reason::OtherRoster(given),
        BundleError::Spent(count) => Reason::Limit(NodeLimit::Spent(count)),
        BundleError::Full(what) => Reason::Limit(NodeLimit::Full(what)),
    };
    Ok(Reply::Refused(why))
}

/// What is replied where this was made.
fn reply_of(made: Result<Bundled, BundleError>) -> Result<Reply, Halt>
    ensures { result ≡ replied made }
{
    match made {
        Ok(made) => Ok(Reply::Bundle {
            bytes: made.bytes,
            counts: made.counts,
            more: made.more,
        }),
        Err(error) => reply_to_unsent(error),
    }
}

/// Makes the bundle that a node sends within bounds for the text of a hello: a prefix of what its bundle without bounds
/// sends, or of its own updates, in parcels by themselves (`bounded_bundles_are_fronts`), preceded by the proofs and
/// vouchers that go with it. `more` says that something is left out. A refusal is that of a bundle: the text is no
/// hello, or is of another roster, or its vouchers meet a limit. `Stopped` is returned exactly when the disk failed in
/// an earlier call. On `Memory` the node is unchanged or has all the vouchers; after `Disk` it is stopped. Every crash
/// image has the records from before and a prefix of the vouchers.
pub fn bounded<N: LocalNode>(
    alloc: Global,
    node: &mut N,
    hello: &[u8],
    bounds: &Bounds,
) -> Result<Reply, Halt>
    ensures sends { Sends (N.stands node.old) (N.signature_of node.old) (N.records node.old) (SendRequest.Bounded hello.now bounds.now) result (N.records node.new) }
    ensures call { IsSendCall N.NodeState node.old node.new (SendRequest.Bounded hello.now bounds.now) result }
{
    if node.is_stopped() {
        return Err(Halt::Stopped);
    }
    reply_of(bundle_within(alloc, node, hello, bounds))
}
