//! What the lines of a transcript say of a load.
ghost use Rattle.std.specs.Prelude.{◌≡◌, None, Some, IfOk, MatchOption, option_copied};
ghost use Rattle.depot_lines.specs.Language.{split};
ghost use Rattle.depot_lines.specs.LineReading.{behind_spaces};
ghost use Rattle.depot_world.specs.Summaries.{convicted_in, counted_in, is_put_line, writes_under};
ghost use Rattle.depot_world.specs.TranscriptLines.{hello_in, is_pair, named_number, report_in, line_of_event, line_of_put, line_of_words, lines_of_transcript};

use depot_base::{Bytes, Memory};
use depot_lines::Parts;
use depot_lines::spelling::{is, number_word};
use depot_lines::word_writers::word;
use std::alloc::Global;

/// The greatest number of a transcript.
const MOST: u64 = 9_223_372_036_854_775_807;

/// What a line of a transcript says of a load.
#[derive(Debug, Drop)]
pub enum TranscriptLine {
    /// A put was done.
    Put,
    /// A key was read.
    Read {
        /// The key, as it was written.
        key: Bytes,
        /// What follows the arrow.
        writes: Bytes,
    },
    /// A stream was taken.
    Report {
        /// How many of its frames were new.
        accepted: u64,
        /// How many were known.
        known: u64,
        /// How many were refused.
        refused: u64,
    },
    /// A hello was made.
    Hello {
        /// How many nodes it names as convicted.
        convicted: u64,
    },
    /// Nothing that is summed up.
    Other,
}

/// One of the numbers of a report.
#[derive(Clone, Copy, Debug, PartialEq, Eq)]
pub enum Count {
    /// How many frames were new.
    Accepted,
    /// How many were known.
    Known,
    /// How many were refused.
    Refused,
}

impl TranscriptLine {
    /// Whether a put was done.
    pub fn is_put(&self) -> bool
        ensures { result ≡ is_put_line self.now }
    {
        matches!(self, TranscriptLine::Put)
    }

    /// A number of a report, and 0 of another line.
    pub fn counted(&self, which: Count) -> u64
        ensures { result ≡ counted_in which self.now }
    {
        match self {
            TranscriptLine::Report {
                accepted,
                known,
                refused,
            } => match which {
                Count::Accepted => *accepted,
                Count::Known => *known,
                Count::Refused => *refused,
            },
            _ => 0,
        }
    }

    /// How many nodes a hello names as convicted. None of another line.
    pub fn convicted(&self) -> Option<u64>
        ensures { result ≡ convicted_in self.now }
    {
        match self {
            TranscriptLine::Hello { convicted } => Some(*convicted),
            _ => None,
        }
    }

    /// The writes that a read of this key shows. None of another line.
    pub fn writes_under(&self, key: &[u8]) -> Option<&[u8]>
        ensures { option_copied result ≡ writes_under key.now self.now }
    {
        match self {
            TranscriptLine::Read { key: of, writes } => {
                if of.as_slice() == key {
                    Some(writes.as_slice())
                } else {
                    None
                }
            }
            _ => None,
        }
    }
}

/// Whether a word is two numbers with a slash between them.
fn is_pair(word: &[u8]) -> bool
    ensures { result ≡ is_pair word.now }
{
    let mut parts = Parts::new(word, b'/');
    let Some(seq) = parts.next() else {
        return false;
    };
    let Some(clock) = parts.next() else {
        return false;
    };
    parts.is_done() && number_word(seq, 0, MOST).is_some() && number_word(clock, 0, MOST).is_some()
}

/// Takes a name and the number after it.
fn named_number(words: &mut Parts<'_>, name: &str) -> Option<u64>
    ensures { MatchOption result (named_number name.now words.old ≡ None) (λ n. named_number name.now words.old ≡ Some (n, words.new)) }
{
    let Some(first) = words.next() else {
        return None;
    };
    let Some(number) = words.next() else {
        return None;
    };
    if !is(first, name) {
        return None;
    }
    number_word(number, 0, MOST)
}

/// The line of a put, by its answer.
fn line_of_put(answer: &mut Parts<'_>) -> TranscriptLine
    ensures { result ≡ line_of_put answer.old }
{
    let Some(word) = answer.next() else {
        return TranscriptLine::Other;
    };
    if answer.is_done() && is_pair(word) {
        TranscriptLine::Put
    } else {
        TranscriptLine::Other
    }
}

/// The numbers of a report.
fn report_in(answer: &mut Parts<'_>) -> Option<TranscriptLine>
    ensures { result ≡ report_in answer.old }
{
    let accepted = named_number(answer, "accepted")?;
    let known = named_number(answer, "known")?;
    let refused = named_number(answer, "refused")?;
    Some(TranscriptLine::Report {
        accepted,
        known,
        refused,
    })
}

/// The number of a hello's line that is summed up.
fn hello_in(answer: &mut Parts<'_>) -> Option<TranscriptLine>
    ensures { result ≡ hello_in answer.old }
{
    let convicted = named_number(answer, "convicted")?;
    Some(TranscriptLine::Hello { convicted })
}

/// The words that are left, each preceded by a space.
#[tactic(auto, using(depot_base::proofs::Writing::texts))]
fn behind_spaces(alloc: Global, words: &mut Parts<'_>) -> Result<Bytes, Memory>
    ensures { IfOk result (λ text. text ≡ behind_spaces words.old) }
{
    let mut text = Bytes::new(alloc);
    while let Some(next) = words.next() {
        word(&mut text, next)?;
    }
    Ok(text)
}

/// What a line says, by the name of its event, the second word after that, and its answer.
fn line_of_event(
    alloc: Global,
    name: &[u8],
    word: &[u8],
    answer: &mut Parts<'_>,
) -> Result<TranscriptLine, Memory>
    ensures { IfOk result (λ line. line ≡ line_of_event name.now word.now answer.old) }
{
    if is(name, "put") {
        return Ok(line_of_put(answer));
    }
    if is(name, "get") {
        return Ok(TranscriptLine::Read {
            key: Bytes::from_slice(alloc, word)?,
            writes: behind_spaces(alloc, answer)?,
        });
    }
    if is(name, "give") {
        return Ok(report_in(answer).unwrap_or(TranscriptLine::Other));
    }
    if is(name, "hello") {
        return Ok(hello_in(answer).unwrap_or(TranscriptLine::Other));
    }
    Ok(TranscriptLine::Other)
}

/// What a line says.
fn line_of_words(alloc: Global, line: &[u8]) -> Result<TranscriptLine, Memory>
    ensures { IfOk result (λ found. found ≡ line_of_words (split 32 line.now)) }
{
    let mut words = Parts::new(line, b' ');
    let Some(name) = words.next() else {
        return Ok(TranscriptLine::Other);
    };
    let Some(_) = words.next() else {
        return Ok(TranscriptLine::Other);
    };
    let Some(word) = words.next() else {
        return Ok(TranscriptLine::Other);
    };
    let Some(arrow) = words.next() else {
        return Ok(TranscriptLine::Other);
    };
    if is(arrow, "->") {
        line_of_event(alloc, name, word, &mut words)
    } else {
        Ok(TranscriptLine::Other)
    }
}

/// What the lines of a text say, one by one.
#[tactic(auto, unfolding(crate::specs::TranscriptLines::lines_of_transcript), using(depot_base::proofs::Writing::texts))]
pub fn lines_of_transcript(alloc: Global, text: &[u8]) -> Result<Vec<TranscriptLine>, Memory>
    ensures { IfOk result (λ list. list.items ≡ lines_of_transcript text.now) }
{
    let mut list = Vec::new(alloc);
    let mut lines = Parts::new(text, b'\n');
    while let Some(line) = lines.next() {
        list.push(line_of_words(alloc, line)?)?;
    }
    Ok(list)
}
