//! What readers take of streams, and what they show of keys.
ghost use Rattle.std.specs.Prelude.{◌≡◌, ◌≢◌, ◌≤◌, ◌+◌, ◌-◌, length, take, drop, None, Err, IfOk, IfErr, option_copied};
ghost use Rattle.depot_base.specs.Tags.{frame_byte};
ghost use Rattle.depot_base.specs.declared.limits.TheConstants.{MOST_FRAMES};
ghost use Rattle.depot_model.specs.exchange.Feeding.{form_of};
ghost use Rattle.depot_model.specs.readers.Readers.{Reader, seen_by_reader};
ghost use Rattle.depot_answers.specs.Sightings.{sighting_of_seen};
ghost use Rattle.depot_queries.specs.ShownValues.{value_seen};
ghost use Rattle.depot_trim.specs.ReaderView.{IsReaderOf};
ghost use Rattle.depot_trim.specs.ReaderAnswers.{ReaderTakes};
ghost use Rattle.depot_trim.specs.declared.trim_error.TrimTake.TheVariants as failed;
ghost use Rattle.depot_requests.specs.ReaderRequests.{words_shown};
ghost use Rattle.depot_service.specs.ReaderFeeding.{AreCountedWithin, IsReaderFed, after_frame, goes_on};

use crate::reads::{add_write, held};
use depot_answers::{ReaderCounts, Seen};
use depot_base::limits::MOST_FRAMES;
use depot_base::{Bytes, FrameTag, Full, Key, Memory, Update, Wrote};
use depot_gossip::{FrameAt, frame_at};
use depot_model::{Scheme, Taken};
use depot_trim::{TrimTake, Trimmed};
use std::alloc::Global;

// ---- taking

/// What a reader made of a stream: how many frames had each outcome, and the limit that one met.
#[derive(Clone, Copy, Debug)]
pub(crate) struct ReaderFeedResult {
    /// The frames, by what came of them.
    pub counts: ReaderCounts,
    /// What was full, where a frame found no room.
    pub full: Option<Full>,
}

impl ReaderFeedResult {
    /// Of no frame.
    fn none() -> ReaderFeedResult
        ensures { result ≡ record { counts = record { accepted = 0; known = 0; refused = 0; below = 0 }; full = None } }
    {
        ReaderFeedResult {
            counts: ReaderCounts {
                accepted: 0,
                known: 0,
                refused: 0,
                below: 0,
            },
            full: None,
        }
    }

    /// Counts a frame by its answer. Returns whether those after it are taken too.
    fn count(&mut self, answer: Result<Taken, TrimTake>) -> Result<bool, Memory>
        requires few { AreCountedWithin MOST_FRAMES self.old }
        ensures counted { IfOk result (λ on. (self.new ≡ after_frame answer self.old) × (on ≡ goes_on answer)) }
        ensures settled { IfOk result (λ _. answer ≢ Err failed.Memory) }
        ensures short { IfErr result (λ _. answer ≡ Err failed.Memory) }
    {
        match answer {
            Ok(Taken::New) => {
                self.counts.accepted += 1;
                Ok(true)
            }
            Ok(Taken::Known) => {
                self.counts.known += 1;
                Ok(true)
            }
            Err(TrimTake::Refused(_)) => {
                self.counts.refused += 1;
                Ok(true)
            }
            Err(TrimTake::BelowCheckpoint(_)) => {
                self.counts.below += 1;
                Ok(true)
            }
            Err(TrimTake::Full(what)) => {
                self.full = Some(what);
                Ok(false)
            }
            Err(TrimTake::Memory) => Err(Memory),
        }
    }
}

/// The payload of the frame that is at a place of a stream and ends at another.
fn payload_at(stream: &[u8], at: usize, end: usize) -> &[u8]
    requires begins { at + 5 ≤ end }
    requires ends { end ≤ length stream.now }
    ensures { result.now ≡ take (end - (at + 5)) (drop (at + 5) stream.now) }
{
    &stream[at + 5..end]
}

/// Gives a reader the payload of a frame that isn't End: a proof, a signed statement or a value.
fn take_frame<S: Scheme>(
    reader: &mut Trimmed<S>,
    tag: FrameTag,
    payload: &[u8],
) -> Result<Taken, TrimTake>
    requires reader { (R : Reader) × IsReaderOf S.verifies R reader.old }
    requires tag { tag ≢ FrameTag.End }
    ensures { (R : Reader) → IsReaderOf S.verifies R reader.old → ReaderTakes S.verifies R (form_of (frame_byte tag)) payload.now result reader.new }
{
    match tag {
        FrameTag::Proof => reader.take_proof(payload),
        FrameTag::Statement => reader.take_statement(payload),
        FrameTag::Value => reader.take_value(payload),
        FrameTag::End => unreachable!(),
    }
}

/// Gives a reader the frames of a stream one by one, up to the first that is incomplete or finds no room, at most
/// 524,288, and none after an End frame. On `Memory` the reader has taken the frames before the one for which there was
/// none.
pub(crate) fn feed_reader<S: Scheme>(
    reader: &mut Trimmed<S>,
    stream: &[u8],
) -> Result<ReaderFeedResult, Memory>
    requires { (R : Reader) × IsReaderOf S.verifies R reader.old }
    ensures { (R : Reader) → IsReaderOf S.verifies R reader.old → IsReaderFed S.verifies R stream.now result reader.new }
{
    let mut told = ReaderFeedResult::none();
    let mut at = 0;
    for _ in 0..MOST_FRAMES {
        let FrameAt::Frame { tag, end } = frame_at(stream, at) else {
            return Ok(told);
        };
        if tag == FrameTag::End {
            return Ok(told);
        }
        let answer = take_frame(reader, tag, payload_at(stream, at, end));
        if !told.count(answer)? {
            return Ok(told);
        }
        at = end;
    }
    Ok(told)
}

// ---- reading

/// What a reader shows of an update's write of a key, given the held value, if any.
fn seen_by_reader<'a>(update: &Update, key: &Key, value: Option<&'a [u8]>) -> Seen<'a>
    ensures { (R : Reader) → option_copied value.entry ≡ value_seen (seen_by_reader R key.now update.now) → sighting_of_seen result ≡ seen_by_reader R key.now update.now }
{
    match update.wrote(key.bytes()) {
        Some(Wrote::Put { .. }) => held(value),
        Some(Wrote::Gone) => Seen::Gone,
        None => Seen::NotHeld,
    }
}

/// The words of what a reader shows of a key: the latest writes, each preceded by a space.
pub(crate) fn reader_words<S: Scheme>(
    alloc: Global,
    reader: &Trimmed<S>,
    key: &Key,
) -> Result<Bytes, Memory>
    requires { (R : Reader) × IsReaderOf S.verifies R reader.now }
    ensures { IfOk result (λ words. (R : Reader) → IsReaderOf S.verifies R reader.now → words ≡ words_shown R key.now) }
{
    let mut words = Bytes::new(alloc);
    for item in reader.latest(key) {
        let update = reader.update(*item);
        let shown = seen_by_reader(update, key, reader.value_of(*item, key));
        add_write(alloc, &mut words, update, shown)?;
    }
    Ok(words)
}
