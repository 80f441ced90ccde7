//! What is wrong with a line, and why a text of lines is refused.
ghost use Rattle.std.specs.Prelude.{◌≡◌};
ghost use Rattle.depot_lines.specs.Language.{rank_of, earlier};
ghost use Rattle.depot_lines.specs.declared.line_fault.LineError.TheVariants as error;
ghost use Rattle.depot_lines.specs.declared.line_fault.TextError.TheVariants as text_error;

use depot_base::Memory;
use std::alloc::{AllocError, AllocFailed};

/// What is wrong with a line, in the order of the checks.
#[derive(Clone, Copy, Debug, PartialEq, Eq)]
pub enum LineFault {
    /// It is the last line and has no LF.
    End,
    /// Its number is over 100,000.
    Long,
    /// A line of the header isn't in its form or place, declares a node twice or one too many, or is missing.
    Header,
    /// Its words aren't separated by single spaces, or its first word names no event or command.
    Word,
    /// It has too few or too many words.
    Fields,
    /// A number isn't in its form or range.
    Number,
    /// A hexadecimal text isn't in its form, or of a wrong length; or writes aren't in their form, are too many, or their keys don't
    /// rise.
    Hex,
    /// A number is that of no declared node of the kind that the event needs.
    Node,
    /// A label isn't in its form, is made twice, isn't made before or is of the wrong kind; a name is no kind of
    /// contradiction of two statements; an image isn't 0, 1 or 2; or there are too many references. In a script: the
    /// name of a file isn't in its form.
    Label,
}

/// The rank of a fault, in the order in which faults are looked for.
fn rank_of(fault: LineFault) -> u8
    ensures { result ≡ rank_of fault }
{
    match fault {
        LineFault::End => 0,
        LineFault::Long => 1,
        LineFault::Header => 2,
        LineFault::Word => 3,
        LineFault::Fields => 4,
        LineFault::Number => 5,
        LineFault::Hex => 6,
        LineFault::Node => 7,
        LineFault::Label => 8,
    }
}

/// The one that is looked for first.
pub fn earlier(first: LineFault, second: LineFault) -> LineFault
    ensures { result ≡ earlier first second }
{
    if rank_of(first) <= rank_of(second) {
        first
    } else {
        second
    }
}

/// What a reader of words answers for those that it gives no value for.
#[derive(Clone, Copy, Debug, PartialEq, Eq)]
pub enum LineError {
    /// No memory was found.
    Memory,
    /// What is first wrong with the words.
    In(LineFault),
}

impl From<Memory> for LineError {
    ghost from_gives = { λ _ e. e ≡ error.Memory };

    fn from(_e: Memory) -> LineError {
        LineError::Memory
    }
}

impl From<AllocError> for LineError {
    ghost from_gives = { λ _ e. e ≡ error.Memory };

    fn from(_e: AllocError) -> LineError {
        LineError::Memory
    }
}

impl<T: Drop> From<AllocFailed<T>> for LineError {
    ghost from_gives = { λ _ e. e ≡ error.Memory };

    fn from(_e: AllocFailed<T>) -> LineError {
        LineError::Memory
    }
}

/// What a reader of a text of lines answers if it returns no value.
#[derive(Clone, Copy, Debug, PartialEq, Eq)]
pub enum TextError {
    /// No memory was found.
    Memory,
    /// The number of the first faulty line, from 1 to 100,001, and that line's first fault.
    Line(u32, LineFault),
}

impl From<Memory> for TextError {
    ghost from_gives = { λ _ e. e ≡ text_error.Memory };

    fn from(_e: Memory) -> TextError {
        TextError::Memory
    }
}
