//! A stream of frames, in pieces.
ghost use Rattle.std.specs.Prelude.{◌≡◌, ◌<◌, ◌≤◌, ◌+◌, false, length, OnOk, IfOk};
ghost use Rattle.depot_base.specs.declared.limits.TheConstants.{MOST_PAYLOAD};
ghost use Rattle.depot_model.specs.texts.Frames.{frame_at, open_frame};
ghost use Rattle.depot_model.specs.journals.JournalCalls.{IsStable};
ghost use Rattle.depot_model.specs.journals.Replicas.{journal_of};
ghost use Rattle.depot_streams.specs.FrameHeads.{bytes_missing};
ghost use Rattle.depot_streams.specs.Pieces.{Feeds, at_work, no_stream, report_of_stream};
ghost use Rattle.depot_streams.specs.NodeCalls.{feeding_by, stream_by, stream_after, IsTally, IsFeedCall};

use crate::feed_error::FeedError;
use crate::tally::Tally;
use crate::{FrameStart, frame_start, missing};
use depot_base::Memory;
use depot_base::limits::MOST_PAYLOAD;
use depot_model::{Ending, Refusals, Replica, Report};
use std::alloc::Global;
use std::marker::Model;

/// The most bytes of a frame: its tag, its length and its payload.
const MOST_FRAME: usize = 5 + MOST_PAYLOAD as usize;

/// A stream of frames that is fed to a node in pieces of any length. Each frame is taken with its last byte. Until then
/// the feed keeps the frame's bytes, and no others.
#[derive(Drop)]
pub struct Feed {
    tally: Tally,
    begun: Vec<u8>,
    closed: bool,
}

impl Model for Feed {
    ghost use Rattle.std.specs.Prelude.{◌≡◌};
    ghost use Rattle.depot_model.specs.texts.Frames.{frame_at, open_frame};
    ghost use Rattle.depot_streams.specs.Pieces.{Stream};
    ghost use Rattle.depot_streams.specs.NodeCalls.{stream_by, IsTally};

    ghost Value = { Stream };

    ghost view = { λ f. stream_by f.tally f.begun.items f.closed };

    ghost invariant = { λ f. IsTally f.tally × (frame_at f.begun.items ≡ open_frame) };
}

/// Feeds bytes of which only the last may complete a frame, or show that there is none.
fn feed_chunk<R: Replica>(
    tally: &mut Tally,
    begun: &mut Vec<u8>,
    node: &mut R,
    chunk: &[u8],
) -> Result<(), FeedError>
    requires tally { IsTally tally.old }
    requires begun { frame_at begun.old.items ≡ open_frame }
    requires some { 0 < length chunk.now }
    requires short { length chunk.now ≤ bytes_missing begun.old.items }
    requires running { R.stopped node.old ≡ false }
    requires stable { IsStable (journal_of R.NodeState) node.old }
    ensures feeds { Feeds (R.stands node.old) (feeding_by tally.old begun.old.items (R.records node.old)) chunk.now result (stream_after result tally.new begun.new.items) (R.records node.new) }
    ensures tally { IsTally tally.new }
    ensures begun { OnOk result (frame_at begun.new.items ≡ open_frame) }
    ensures call { IsFeedCall R.NodeState (feeding_by tally.old begun.old.items (R.records node.old)) chunk.now node.old node.new result }
{
    if tally.is_over() {
        return Err(FeedError::IllFormed(tally.start));
    }
    begun.extend_from_slice(chunk)?;
    let frame = begun.as_slice();
    match frame_start(frame) {
        FrameStart::Open => return Ok(()),
        FrameStart::Nothing => return Err(FeedError::IllFormed(tally.start)),
        FrameStart::Whole { tag, payload } => tally.take(node, tag, payload, frame.len())?,
    }
    begun.clear();
    Ok(())
}

/// Feeds a piece, chunk by chunk.
fn feed_piece<R: Replica>(
    tally: &mut Tally,
    begun: &mut Vec<u8>,
    node: &mut R,
    bytes: &[u8],
) -> Result<(), FeedError>
    requires tally { IsTally tally.old }
    requires begun { frame_at begun.old.items ≡ open_frame }
    requires running { R.stopped node.old ≡ false }
    requires stable { IsStable (journal_of R.NodeState) node.old }
    ensures feeds { Feeds (R.stands node.old) (feeding_by tally.old begun.old.items (R.records node.old)) bytes.now result (stream_after result tally.new begun.new.items) (R.records node.new) }
    ensures tally { IsTally tally.new }
    ensures begun { OnOk result (frame_at begun.new.items ≡ open_frame) }
    ensures call { IsFeedCall R.NodeState (feeding_by tally.old begun.old.items (R.records node.old)) bytes.now node.old node.new result }
{
    let mut rest = bytes;
    while !rest.is_empty() {
        let count = missing(begun.as_slice()).min(rest.len());
        let (chunk, behind) = rest.split_at(count);
        feed_chunk(tally, begun, node, chunk)?;
        rest = behind;
    }
    Ok(())
}

impl Feed {
    /// Makes a feed for a new stream. It reserves at once the memory of the longest frame.
    pub fn new(alloc: Global) -> Result<Feed, Memory>
        ensures { IfOk result (λ feed. feed ≡ no_stream) }
    {
        Ok(Feed {
            tally: Tally::new(alloc),
            begun: Vec::with_capacity(alloc, MOST_FRAME)?,
            closed: false,
        })
    }

    /// Whether a piece was answered with an error. It takes no memory.
    pub fn is_closed(&self) -> bool
        ensures { result ≡ self.now.closed }
    {
        self.closed
    }

    /// How many bytes of an incomplete frame are kept, at most 131,076. It takes no memory.
    pub fn open_bytes(&self) -> u32
        ensures count { result ≡ length self.now.begun }
        ensures most { result < 5 + MOST_PAYLOAD }
    {
        self.begun.len() as u32
    }

    /// Feeds the next bytes of the stream, any number, to a node. It gives the node each frame with its last byte, and
    /// counts it. Every error closes the feed: the frames before it stay taken, the current one isn't. `IllFormed` is
    /// returned exactly when the stream so far has no frame at that offset, and `Full` exactly when there is no room
    /// for what a frame would add, unless `Memory` or `Disk` come first. `Stopped` is returned exactly when the node
    /// was stopped, whatever the bytes are. Every crash image has the records from before and a prefix of those that
    /// the frames bring. The piece makes only the disk calls that append what the journal grows by; one that fails is
    /// the last.
    pub fn piece<R: Replica>(&mut self, node: &mut R, bytes: &[u8]) -> Result<(), FeedError>
        requires { self.old.closed ≡ false }
        ensures feeds { Feeds (R.stands node.old) (at_work self.old (R.records node.old)) bytes.now result self.new (R.records node.new) }
        ensures call { IsFeedCall R.NodeState (at_work self.old (R.records node.old)) bytes.now node.old node.new result }
    {
        if node.is_stopped() {
            self.begun.clear();
            self.closed = true;
            return Err(FeedError::Stopped);
        }
        let fed = feed_piece(&mut self.tally, &mut self.begun, node, bytes);
        self.closed = fed.is_err();
        if fed.is_err() {
            self.begun.clear();
        }
        fed
    }

    /// What became of the frames of the stream. It takes no memory.
    pub fn end(self) -> Report
        ensures { result ≡ report_of_stream self }
    {
        let ending = if self.closed {
            Ending::Closed
        } else {
            match self.tally.ended {
                Some(true) => Ending::More,
                Some(false) => Ending::Whole,
                None if self.begun.is_empty() => Ending::Bare,
                None => Ending::Cut(self.begun.len() as u32),
            }
        };
        Report {
            accepted: self.tally.accepted,
            known: self.tally.known,
            refused: Refusals::from_vec(self.tally.refused),
            ending,
        }
    }
}
