//! A stream that a node takes.
ghost use Rattle.std.specs.Prelude.{◌≡◌, ◌≢◌, ◌≤◌, false, None, IfOk, IfErr};
ghost use Rattle.depot_model.specs.exchange.Feeding.{feed_of, feeding_from};
ghost use Rattle.depot_streams.specs.NodeCalls.{IsFeedCall};
ghost use Rattle.depot_service.specs.Printing.{IsMemoryOrDisk, IsToldClosed, IsToldOf};

use depot_answers::Closing;
use depot_gossip::{Feed, FeedError};
use depot_model::{Replica, Report};
use std::alloc::Global;

/// What became of a stream, and why its feed was closed, if it was.
#[derive(Drop)]
pub struct FeedResult {
    pub report: Report,
    pub closing: Option<Closing>,
}

/// A feed that an error of the stream, or lack of room, closed.
fn closed(feed: Feed, error: FeedError) -> Result<FeedResult, FeedError>
    requires { error ≢ FeedError.Stopped }
    ensures told { IfOk result (λ told. IsToldClosed feed error told) }
    ensures ran { IfOk result (λ _. error ≢ FeedError.Disk) }
    ensures same { IfErr result (λ e. e ≡ error) }
    ensures only { IfErr result (λ e. IsMemoryOrDisk e) }
{
    let closing = match error {
        FeedError::IllFormed(at) => Closing::IllFormed(at),
        FeedError::Full(what) => Closing::Full(what),
        FeedError::Memory | FeedError::Disk => return Err(error),
        FeedError::Stopped => unreachable!(),
    };
    Ok(FeedResult {
        report: feed.end(),
        closing: Some(closing),
    })
}

/// Feeds a stream to a node in pieces of so many bytes, until an error closes the feed. Only `Memory` and `Disk` are
/// returned.
pub fn feed_all<R: Replica>(
    alloc: Global,
    node: &mut R,
    stream: &[u8],
    size: usize,
) -> Result<FeedResult, FeedError>
    requires size { 1 ≤ size }
    requires runs { R.stopped node.old ≡ false }
    ensures only { IfErr result (λ e. IsMemoryOrDisk e) }
    ensures told { IfOk result (λ told. IsToldOf (feed_of (R.stands node.old) (R.records node.old) stream.now) told) }
    ensures grown { IfOk result (λ _. R.records node.new ≡ (feed_of (R.stands node.old) (R.records node.old) stream.now).journal) }
    ensures runs { IfOk result (λ _. R.stopped node.new ≡ false) }
    ensures call { IsFeedCall R.NodeState (feeding_from (R.records node.old)) stream.now node.old node.new result }
{
    // This call gives the clause that each crash image has the node's records.
    node.is_stopped();
    let Ok(mut feed) = Feed::new(alloc) else {
        return Err(FeedError::Memory);
    };
    let mut rest = stream;
    while !rest.is_empty() {
        let (piece, behind) = rest.split_at(size.min(rest.len()));
        if let Err(error) = feed.piece(node, piece) {
            return closed(feed, error);
        }
        rest = behind;
    }
    Ok(FeedResult {
        report: feed.end(),
        closing: None,
    })
}
