//! What a node replies, by what its calls answer.
ghost use Rattle.std.specs.Prelude.{◌≡◌, IfErr};
ghost use Rattle.depot_service.specs.Printing.{IsMemoryOrDisk};
ghost use Rattle.depot_service.specs.Replying.{handing_over, reason_of_bundle, reason_of_give, reason_of_put, reason_of_signing, reply_of_bundle, reply_of_feed, reply_of_give, reply_of_put, reply_of_reason, reply_of_signing, reply_of_unmade};

use crate::FeedResult;
use depot_base::Bytes;
use depot_gossip::{BundleError, Bundled, FeedError};
use depot_model::{PutDone, PutError};
use depot_queries::GiveError;
use depot_requests::{Halt, NodeLimit, Reason, Reply};
use depot_trim::{CheckpointError, MakeError};

/// The reply where something isn't done for a reason.
fn reply_of_reason(why: Result<Reason, Halt>) -> Result<Reply, Halt>
    ensures { result ≡ reply_of_reason why }
{
    match why {
        Ok(reason) => Ok(Reply::Refused(reason)),
        Err(halt) => Err(halt),
    }
}

/// Why nothing is put.
fn reason_of_put(error: PutError) -> Result<Reason, Halt>
    ensures { result ≡ reason_of_put error }
{
    match error {
        PutError::Memory => Err(Halt::Memory),
        PutError::Disk => Err(Halt::Disk),
        PutError::Stopped => Err(Halt::Stopped),
        PutError::Spent(count) => Ok(Reason::Limit(NodeLimit::Spent(count))),
        PutError::Tips(count) => Ok(Reason::Limit(NodeLimit::Tips(count))),
        PutError::Collides(id) => Ok(Reason::Limit(NodeLimit::Collides(id))),
        PutError::Full(what) => Ok(Reason::Limit(NodeLimit::Full(what))),
    }
}

/// The reply for a put.
pub fn reply_of_put(done: Result<PutDone, PutError>) -> Result<Reply, Halt>
    ensures { result ≡ reply_of_put done }
{
    match done {
        Ok(done) => Ok(Reply::Put(done)),
        Err(error) => reply_of_reason(reason_of_put(error)),
    }
}

/// Why no bundle is made.
fn reason_of_bundle(error: BundleError) -> Result<Reason, Halt>
    ensures { result ≡ reason_of_bundle error }
{
    match error {
        BundleError::Memory => Err(Halt::Memory),
        BundleError::Disk => Err(Halt::Disk),
        BundleError::Stopped => Err(Halt::Stopped),
        BundleError::IllFormed(at) => Ok(Reason::IllFormed(at)),
        BundleError::OtherRoster { given, .. } => Ok(Reason::OtherRoster(given)),
        BundleError::Spent(count) => Ok(Reason::Limit(NodeLimit::Spent(count))),
        BundleError::Full(what) => Ok(Reason::Limit(NodeLimit::Full(what))),
    }
}

/// The reply for the bytes of a hello.
pub fn reply_of_bundle(made: Result<Bundled, BundleError>) -> Result<Reply, Halt>
    ensures { result ≡ reply_of_bundle made }
{
    match made {
        Ok(
            Bundled {
                bytes,
                counts,
                more,
            },
        ) => Ok(Reply::Bundle {
            bytes,
            counts,
            more,
        }),
        Err(error) => reply_of_reason(reason_of_bundle(error)),
    }
}

/// The reply for a stream.
pub fn reply_of_feed(fed: Result<FeedResult, FeedError>) -> Result<Reply, Halt>
    requires { IfErr fed (λ e. IsMemoryOrDisk e) }
    ensures { result ≡ reply_of_feed fed }
{
    match fed {
        Ok(FeedResult { report, closing }) => Ok(Reply::Stream { report, closing }),
        Err(FeedError::Memory) => Err(Halt::Memory),
        Err(FeedError::Disk) => Err(Halt::Disk),
        Err(FeedError::Stopped | FeedError::IllFormed(_) | FeedError::Full(_)) => unreachable!(),
    }
}

/// Why no receipts are given.
fn reason_of_give(error: GiveError) -> Result<Reason, Halt>
    ensures { result ≡ reason_of_give error }
{
    match error {
        GiveError::Memory => Err(Halt::Memory),
        GiveError::Disk => Err(Halt::Disk),
        GiveError::Stopped => Err(Halt::Stopped),
        GiveError::Unknown(id) => Ok(Reason::Unknown(id)),
        GiveError::NoValue(id) => Ok(Reason::NoValue(id)),
        GiveError::Spent(count) => Ok(Reason::Limit(NodeLimit::Spent(count))),
        GiveError::Tips(count) => Ok(Reason::Limit(NodeLimit::Tips(count))),
        GiveError::Collides(id) => Ok(Reason::Limit(NodeLimit::Collides(id))),
        GiveError::Full(what) => Ok(Reason::Limit(NodeLimit::Full(what))),
    }
}

/// The reply where receipts are asked for.
pub fn reply_of_give(done: Result<PutDone, GiveError>) -> Result<Reply, Halt>
    ensures { result ≡ reply_of_give done }
{
    match done {
        Ok(done) => Ok(Reply::Put(done)),
        Err(error) => reply_of_reason(reason_of_give(error)),
    }
}

/// Why a checkpoint isn't signed.
fn reason_of_signing(error: CheckpointError) -> Result<Reason, Halt>
    ensures { result ≡ reason_of_signing error }
{
    match error {
        CheckpointError::Memory => Err(Halt::Memory),
        CheckpointError::Disk => Err(Halt::Disk),
        CheckpointError::Stopped => Err(Halt::Stopped),
        CheckpointError::IllFormed(at) => Ok(Reason::IllFormed(at)),
        CheckpointError::OtherRoster { given, .. } => Ok(Reason::OtherRoster(given)),
        CheckpointError::Unknown(id) => Ok(Reason::Unknown(id)),
        CheckpointError::Spent(count) => Ok(Reason::Limit(NodeLimit::Spent(count))),
        CheckpointError::Tips(count) => Ok(Reason::Limit(NodeLimit::Tips(count))),
        CheckpointError::Collides(id) => Ok(Reason::Limit(NodeLimit::Collides(id))),
        CheckpointError::Full(what) => Ok(Reason::Limit(NodeLimit::Full(what))),
    }
}

/// The reply where a checkpoint is to be signed.
pub fn reply_of_signing(done: Result<PutDone, CheckpointError>) -> Result<Reply, Halt>
    ensures { result ≡ reply_of_signing done }
{
    match done {
        Ok(done) => Ok(Reply::Put(done)),
        Err(error) => reply_of_reason(reason_of_signing(error)),
    }
}

/// The reply where no checkpoint is made.
pub fn reply_of_unmade(error: MakeError) -> Result<Reply, Halt>
    ensures { result ≡ reply_of_unmade error }
{
    match error {
        MakeError::Memory => Err(Halt::Memory),
        MakeError::Empty => Ok(Reply::Refused(Reason::Empty)),
        MakeError::Many(count) => Ok(Reply::Refused(Reason::Many(count))),
    }
}

/// The reply to the put of a checkpoint, which hands its text out.
pub fn reply_of_checkpoint(text: Bytes, done: Result<PutDone, PutError>) -> Result<Reply, Halt>
    ensures { result ≡ handing_over text (reply_of_put done) }
{
    match done {
        Ok(done) => Ok(Reply::Checkpoint { done, text }),
        Err(error) => reply_of_reason(reason_of_put(error)),
    }
}
