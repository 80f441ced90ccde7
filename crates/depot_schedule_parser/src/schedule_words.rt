//! Reads the words that only lines of events have, most of them by the schedule so far.
ghost use Rattle.std.specs.Prelude.{◌≡◌, ◌≤◌, ◌^◌};
ghost use Rattle.depot_base.specs.declared.limits.TheConstants.{GREATEST_HEIGHT};
ghost use Rattle.depot_lines.specs.Language.{nothing, next};
ghost use Rattle.depot_schedule.specs.EventWords.{correct, faulty, seq, stop_call, image, new_label, label_for, history};
ghost use Rattle.depot_lines.specs.LineReading.{AnswersReading, TakesReading};

use crate::draft::Draft;
use depot_base::NodeId;
use depot_base::limits::MOST_STOP_CALL;
use depot_lines::spelling::{is, number_word};
use depot_lines::word_readers::{digest_of, id_of, label_of, number_of};
use depot_lines::{Label, LineError, LineFault, Parts};
use depot_schedule::{HistoryWord, Wanted};
use std::alloc::Global;

/// How many leaves a tree of this height has.
fn leaves(height: u8) -> u32
    requires { height ≤ GREATEST_HEIGHT }
    ensures { result ≡ 2 ^ height }
{
    2u32.pow(height as u32)
}

/// The number of a statement that a word is.
pub fn seq_of(word: &[u8], behind: &Draft) -> Result<u32, LineError>
    ensures { AnswersReading result (seq.read behind.now word.now) }
{
    let n = number_of(word, 0, 4_294_967_295)?;
    if (n as u32) < leaves(behind.height()) {
        Ok(n as u32)
    } else {
        Err(LineError::In(LineFault::Number))
    }
}

/// A correct node.
pub fn correct(words: &mut Parts<'_>, behind: &Draft) -> Result<NodeId, LineError>
    ensures { TakesReading result words.new (next (correct.read behind.now) words.old) }
{
    let word = words.word()?;
    let node = id_of(word)?;
    if behind.is_correct(node) {
        Ok(node)
    } else {
        Err(LineError::In(LineFault::Node))
    }
}

/// A faulty node.
pub fn faulty(words: &mut Parts<'_>, behind: &Draft) -> Result<NodeId, LineError>
    ensures { TakesReading result words.new (next (faulty.read behind.now) words.old) }
{
    let word = words.word()?;
    let node = id_of(word)?;
    if behind.is_faulty(node) {
        Ok(node)
    } else {
        Err(LineError::In(LineFault::Node))
    }
}

/// The number of a statement, below the number of leaves.
pub fn seq(words: &mut Parts<'_>, behind: &Draft) -> Result<u32, LineError>
    ensures { TakesReading result words.new (next (seq.read behind.now) words.old) }
{
    let word = words.word()?;
    seq_of(word, behind)
}

/// The call on a disk in which a stop comes, from 1 to 1,000,000.
pub fn stop_call(words: &mut Parts<'_>) -> Result<u32, LineError>
    ensures { TakesReading result words.new (next (stop_call.read nothing) words.old) }
{
    let word = words.word()?;
    let n = number_of(word, 1, MOST_STOP_CALL as u64)?;
    Ok(n as u32)
}

/// The number of an image, 0, 1 or 2.
pub fn image(words: &mut Parts<'_>) -> Result<u8, LineError>
    ensures { TakesReading result words.new (next (image.read nothing) words.old) }
{
    let word = words.word()?;
    match number_word(word, 0, 2) {
        Some(n) => Ok(n as u8),
        None => Err(LineError::In(LineFault::Label)),
    }
}

/// `right`, or a digest.
pub fn history(alloc: Global, words: &mut Parts<'_>) -> Result<HistoryWord, LineError>
    ensures { TakesReading result words.new (next (history.read nothing) words.old) }
{
    let word = words.word()?;
    if is(word, "right") {
        return Ok(HistoryWord::Right);
    }
    Ok(HistoryWord::Given(digest_of(alloc, word)?))
}

/// The label that a word is: of the needed kind, made by an earlier event.
pub fn label_for_of(
    alloc: Global,
    word: &[u8],
    behind: &Draft,
    wanted: Wanted,
) -> Result<Label, LineError>
    ensures { AnswersReading result ((label_for wanted).read behind.now word.now) }
{
    let label = label_of(alloc, word)?;
    if wanted.meets(behind.named(label.bytes())) {
        Ok(label)
    } else {
        Err(LineError::In(LineFault::Label))
    }
}

/// A label that no event before made.
pub fn new_label(alloc: Global, words: &mut Parts<'_>, behind: &Draft) -> Result<Label, LineError>
    ensures { TakesReading result words.new (next (new_label.read behind.now) words.old) }
{
    let word = words.word()?;
    let label = label_of(alloc, word)?;
    if behind.named(label.bytes()).is_none() {
        Ok(label)
    } else {
        Err(LineError::In(LineFault::Label))
    }
}

/// A label of the needed kind that an earlier event made.
pub fn label_for(
    alloc: Global,
    words: &mut Parts<'_>,
    behind: &Draft,
    wanted: Wanted,
) -> Result<Label, LineError>
    ensures { TakesReading result words.new (next ((label_for wanted).read behind.now) words.old) }
{
    let word = words.word()?;
    label_for_of(alloc, word, behind, wanted)
}
