//! What a feed counts, and how a frame is given to a node.
ghost use Rattle.std.specs.Prelude.{◌≡◌, ◌≢◌, ◌<◌, ◌≤◌, ◌==◌, ◌||◌, ◌+◌, ◌*◌, List, [], ◌++◌, false, Some, is_some, vec_len};
ghost use Rattle.std.specs.Vec.{vec_capacity};
ghost use Rattle.depot_base.specs.declared.limits.TheConstants.{MOST_FRAMES};
ghost use Rattle.depot_base.specs.declared.record.Record.{Record};
ghost use Rattle.depot_model.specs.exchange.Feeding.{take_frame, says_more, passed, counted};
ghost use Rattle.depot_model.specs.journals.JournalCalls.{IsStable};
ghost use Rattle.depot_model.specs.journals.Replicas.{journal_of};
ghost use Rattle.depot_streams.specs.FrameHeads.{most_frame};
ghost use Rattle.depot_streams.specs.Pieces.{at_work, no_stream};
ghost use Rattle.depot_streams.specs.NodeCalls.{stream_by, IsTally, as_feed_answer, frame_of, AnswersForOutcome, TakesFrame, IsFrameCall};

use crate::feed_error::FeedError;
use depot_base::limits::MOST_FRAMES;
use depot_base::{Check, FrameTag};
use depot_model::{Refusal, Replica, TakeError, Taken};
use std::alloc::Global;

/// What became of the frames of a stream so far.
#[derive(Drop)]
pub(crate) struct Tally {
    /// How many frames were taken, End among them.
    pub frames: u32,
    /// The offset of the open frame in the stream.
    pub start: u64,
    /// What the End frame said, once it came: whether there is more.
    pub ended: Option<bool>,
    /// How many frames were new.
    pub accepted: u32,
    /// How many were here before.
    pub known: u32,
    /// Those that were refused.
    pub refused: Vec<Refusal>,
}

/// What a feed makes of a node's answer.
fn as_feed_answer(answer: Result<Taken, TakeError>) -> Result<Result<Taken, Check>, FeedError>
    ensures { result ≡ as_feed_answer answer }
{
    match answer {
        Ok(taken) => Ok(Ok(taken)),
        Err(TakeError::Refused(check)) => Ok(Err(check)),
        Err(TakeError::Memory) => Err(FeedError::Memory),
        Err(TakeError::Disk) => Err(FeedError::Disk),
        Err(TakeError::Stopped) => Err(FeedError::Stopped),
        Err(TakeError::Full(full)) => Err(FeedError::Full(full)),
    }
}

/// Gives a node the payload of a frame other than End.
fn give<R: Replica>(
    node: &mut R,
    tag: FrameTag,
    payload: &[u8],
) -> Result<Result<Taken, Check>, FeedError>
    requires tag { tag ≢ FrameTag.End }
    requires running { R.stopped node.old ≡ false }
    requires stable { IsStable (journal_of R.NodeState) node.old }
    ensures answers { AnswersForOutcome (take_frame (R.stands node.old) (R.records node.old) (frame_of tag payload.now)) (R.records node.old) result (R.records node.new) }
    ensures call { IsFrameCall R.NodeState (frame_of tag payload.now) node.old node.new result }
{
    match tag {
        FrameTag::Proof => as_feed_answer(node.take_proof(payload)),
        FrameTag::Statement => as_feed_answer(node.take_statement(payload)),
        FrameTag::Value => as_feed_answer(node.take_value(payload)),
        FrameTag::End => unreachable!(),
    }
}

/// What the payload of an End frame says.
fn says_more(payload: &[u8]) -> bool
    ensures { result ≡ says_more payload.now }
{
    match payload {
        [flag, ..] => *flag == 1,
        [] => false,
    }
}

impl Tally {
    /// Nothing yet. It takes no memory.
    pub(crate) fn new(alloc: Global) -> Tally
        ensures tally { IsTally result }
        ensures stream { stream_by result [] false ≡ no_stream }
    {
        Tally {
            frames: 0,
            start: 0,
            ended: None,
            accepted: 0,
            known: 0,
            refused: Vec::new(alloc),
        }
    }

    /// Whether no frame may begin any more.
    pub(crate) fn is_over(&self) -> bool
        ensures { result ≡ (is_some self.now.ended || (self.now.frames == MOST_FRAMES)) }
    {
        self.ended.is_some() || self.frames == MOST_FRAMES
    }

    /// Counts an answer to the current frame.
    fn count(&mut self, answer: Result<Taken, Check>)
        requires tally { IsTally self.old }
        requires room { vec_len self.old.refused < vec_capacity self.old.refused }
        ensures counts { (J new : List Record) → at_work (stream_by self.new [] false) (J ++ new) ≡ counted answer new (at_work (stream_by self.old [] false) J) }
        ensures numbers { self.new.accepted + self.new.known ≤ self.old.frames + 1 }
        ensures same { (self.new.frames ≡ self.old.frames) × (self.new.start ≡ self.old.start) }
    {
        match answer {
            Ok(Taken::New) => self.accepted += 1,
            Ok(Taken::Known) => self.known += 1,
            Err(check) => self.refused.push_reserved(Refusal {
                frame: self.frames,
                check,
            }),
        }
    }

    /// Moves past a frame of so many bytes.
    fn pass(&mut self, count: usize)
        requires few { self.old.frames < MOST_FRAMES }
        requires short { count ≤ most_frame }
        requires behind { self.old.start ≤ self.old.frames * most_frame }
        requires numbers { self.old.accepted + self.old.known ≤ self.old.frames + 1 }
        ensures passes { (J : List Record) → at_work (stream_by self.new [] false) J ≡ passed count (at_work (stream_by self.old [] false) J) }
        ensures tally { IsTally self.new }
    {
        self.frames += 1;
        self.start += count as u64;
    }

    /// Takes the End frame, which has this payload.
    fn take_end(&mut self, payload: &[u8], count: usize)
        requires tally { IsTally self.old }
        requires few { self.old.frames < MOST_FRAMES }
        requires short { count ≤ most_frame }
        ensures takes { (J : List Record) → at_work (stream_by self.new [] false) J ≡ passed count (record (at_work (stream_by self.old [] false) J) { ended = Some (says_more payload.now) }) }
        ensures tally { IsTally self.new }
    {
        self.ended = Some(says_more(payload));
        self.pass(count);
    }

    /// Takes a complete frame of so many bytes: End by itself, any other by giving it to the node. On an error the
    /// tally is unchanged.
    pub(crate) fn take<R: Replica>(
        &mut self,
        node: &mut R,
        tag: FrameTag,
        payload: &[u8],
        count: usize,
    ) -> Result<(), FeedError>
        requires tally { IsTally self.old }
        requires few { self.old.frames < MOST_FRAMES }
        requires short { count ≤ most_frame }
        requires running { R.stopped node.old ≡ false }
        requires stable { IsStable (journal_of R.NodeState) node.old }
        ensures takes { TakesFrame (R.stands node.old) count (frame_of tag payload.now) self.old (R.records node.old) result self.new (R.records node.new) }
        ensures call { IsFrameCall R.NodeState (frame_of tag payload.now) node.old node.new result }
        ensures tally { IsTally self.new }
    {
        if let FrameTag::End = tag {
            self.take_end(payload, count);
            return Ok(());
        }
        self.refused.reserve(1)?;
        let answer = give(node, tag, payload)?;
        self.count(answer);
        self.pass(count);
        Ok(())
    }
}
