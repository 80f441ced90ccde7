//! The lines of a text, and their words.
ghost use Rattle.std.specs.Prelude.{◌≡◌, Ok, Err, length, ◌==◌, if◌then◌else◌};
ghost use Rattle.depot_lines.specs.Language.{split};
ghost use Rattle.depot_lines.specs.LineTexts.{first_word, are_words, is_empty_word};
ghost use Rattle.depot_lines.specs.LineReading.{AnswersReading, Allows, InLine, TakesLine, Counts};
ghost use Rattle.depot_lines.specs.declared.line_fault.LineFault.TheVariants as is;

use crate::line_fault::{LineError, LineFault, TextError};
use crate::parts::Parts;
use depot_base::limits::MOST_LINES;

/// Takes the next line, and says whether an LF ends it.
pub fn next_line<'a>(parts: &mut Parts<'a>) -> Option<(&'a [u8], bool)>
    ensures { TakesLine parts.old result parts.new }
{
    let Some(part) = parts.next() else {
        return None;
    };
    if !parts.is_done() {
        Some((part, true))
    } else if !part.is_empty() {
        Some((part, false))
    } else {
        None
    }
}

/// Whether the line of this number may be read.
pub fn allowed(number: u32, ended: bool) -> Result<(), TextError>
    ensures { Allows number ended result }
{
    if !ended {
        Err(TextError::Line(number, LineFault::End))
    } else if MOST_LINES < number {
        Err(TextError::Line(number, LineFault::Long))
    } else {
        Ok(())
    }
}

/// A fault in the line of this number.
pub fn in_line<T: Drop>(number: u32, read: Result<T, LineError>) -> Result<T, TextError>
    ensures { InLine number read result }
{
    match read {
        Ok(value) => Ok(value),
        Err(LineError::Memory) => Err(TextError::Memory),
        Err(LineError::In(fault)) => Err(TextError::Line(number, fault)),
    }
}

/// Whether a word has no bytes.
pub fn is_empty_word(word: &[u8]) -> bool
    ensures { result ≡ is_empty_word word.now }
{
    match word {
        [] => true,
        [_, ..] => false,
    }
}

/// Whether single spaces separate the words of a line, with none first or last.
pub fn are_words(line: &[u8]) -> bool
    ensures { result ≡ are_words (split 32 line.now) }
{
    let mut words = Parts::new(line, b' ');
    while let Some(word) = words.next() {
        if is_empty_word(word) {
            return false;
        }
    }
    true
}

/// What precedes the first space of a line.
pub fn first_word(line: &[u8]) -> &[u8]
    ensures { result.now ≡ first_word (split 32 line.now) }
{
    let mut words = Parts::new(line, b' ');
    match words.next() {
        Some(word) => word,
        None => &[],
    }
}

/// Whether low to high words are left.
pub fn counted(words: &Parts<'_>, low: usize, high: usize) -> Result<(), LineError>
    ensures { Counts low high words.now result }
{
    let count = words.count();
    if low <= count && count <= high {
        Ok(())
    } else {
        Err(LineError::In(LineFault::Fields))
    }
}

/// The value that the words made, where none is left.
pub fn made<E: Drop>(words: &Parts<'_>, value: E) -> Result<E, LineError>
    ensures { AnswersReading result (if length words.now == 0 then Ok value else Err is.Fields) }
{
    if words.is_done() {
        Ok(value)
    } else {
        Err(LineError::In(LineFault::Fields))
    }
}
