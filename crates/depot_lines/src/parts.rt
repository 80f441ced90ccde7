//! The parts of a text between separators.
ghost use Rattle.std.specs.Prelude.{◌≡◌, ◌==◌, ◌<◌, ◌∷◌, length, count_by, IfSome};
ghost use Rattle.std.specs.List.{position};
ghost use Rattle.std.specs.Option.{option_copied};
ghost use Rattle.depot_lines.specs.Language.{split};
ghost use Rattle.depot_lines.specs.LineReading.{parts_left, TakesNextPart, TakesWord};

use crate::line_fault::{LineError, LineFault};
use std::marker::Model;

/// The remaining parts of a text, as the words of a line. No call takes memory.
#[derive(Debug, Drop)]
pub struct Parts<'a> {
    rest: Option<&'a [u8]>,
    separator: u8,
}

impl<'a> Model for Parts<'a> {
    ghost use Rattle.std.specs.Prelude.{ℕ, List};
    ghost use Rattle.depot_lines.specs.LineReading.{parts_left};

    ghost Value = { List (List ℕ) };

    ghost view = { λ p. parts_left p.separator p.rest };
}

/// The place of the first such byte.
fn place_of(text: &[u8], byte: u8) -> Option<usize>
    ensures place { result ≡ position (λ b. b == byte) text.now }
    ensures within { IfSome result (λ i. i < length text.now) }
{
    text.iter().position(|b| *b == byte)
}

/// How many such bytes there are.
fn count_of(text: &[u8], byte: u8) -> usize
    ensures { result ≡ count_by (λ b. b == byte) text.now }
{
    text.iter().filter(|b| **b == byte).count()
}

/// The first part of a text, and what follows its separator.
fn cut(text: &[u8], separator: u8) -> (&[u8], Option<&[u8]>)
    ensures { split separator text.now ≡ result.0.now ∷ parts_left separator result.1 }
{
    match place_of(text, separator) {
        Some(place) => {
            let (part, _) = text.split_at(place);
            let (_, rest) = text.split_at(place + 1);
            (part, Some(rest))
        }
        None => (text, None),
    }
}

/// How many parts a text has.
fn count_parts(text: &[u8], separator: u8) -> usize
    ensures { result ≡ length (split separator text.now) }
{
    count_of(text, separator) + 1
}

impl<'a> Parts<'a> {
    /// All parts of a text.
    pub fn new(text: &'a [u8], separator: u8) -> Parts<'a>
        ensures { result ≡ split separator text.now }
    {
        Parts {
            rest: Some(text),
            separator,
        }
    }

    /// Takes the next part, borrowed from the text. `None` exactly when none is left.
    pub fn next(&mut self) -> Option<&'a [u8]>
        ensures { TakesNextPart self.old (option_copied result) self.new }
    {
        let Some(text) = self.rest else {
            return None;
        };
        let (part, rest) = cut(text, self.separator);
        self.rest = rest;
        Some(part)
    }

    /// Whether no part is left. A remaining text has a part, which may be empty, so nothing has to be counted.
    #[tactic(auto, using(crate::proofs::PartSteps::some_left))]
    pub fn is_done(&self) -> bool
        ensures { result ≡ (length self.now == 0) }
    {
        match self.rest {
            None => true,
            Some(_) => false,
        }
    }

    /// How many parts are left.
    pub fn count(&self) -> usize
        ensures { result ≡ length self.now }
    {
        match self.rest {
            None => 0,
            Some(text) => count_parts(text, self.separator),
        }
    }

    /// Takes the next word of a line. Fails if the line has too few.
    pub fn word(&mut self) -> Result<&'a [u8], LineError>
        ensures { TakesWord self.old result self.new }
    {
        match self.next() {
            Some(word) => Ok(word),
            None => Err(LineError::In(LineFault::Fields)),
        }
    }
}
