//! The records of a file.
ghost use Rattle.std.specs.Prelude.{◌≡◌, ◌≢◌, ◌++◌, ◌≤◌, ◌∷◌, [], List, ℕ, false, IsTrue, IfOk, IfErr, IfSome, IfNone, IsErrOf, length};
ghost use Rattle.depot_journal.specs.JournalAnswers.{IsDamage};
ghost use Rattle.depot_base.specs.File.{AreWithinLimits, framed};
ghost use Rattle.depot_journal.specs.Mirrored.{EndWithin, bodies_at};
ghost use Rattle.depot_journal.specs.WriteSteps.{HoldsNoRecord, StandsTo};

use crate::journal_error::JournalError;
use crate::span::Span;
use depot_base::limits::{MOST_JOURNAL, MOST_RECORDS};
use std::alloc::Global;

/// The records found in a file: where their bodies are, and the offset of the closed gate after them.
#[derive(Drop)]
pub struct Parsed {
    pub spans: Vec<Span>,
    pub end: usize,
}

/// The body of the next record, and what follows it, where a whole record follows an open gate.
#[tactic(auto, unfolding(depot_base::specs::File::framed, depot_base::specs::Cursor::numeral))]
fn split_record(rest: &[u8]) -> Option<(&[u8], &[u8])>
    ensures record { IfSome result (λ p. rest.now ≡ 1 ∷ (framed p.0.now ++ p.1.now)) }
    ensures gate { IfSome result (λ p. 1 ≤ length p.1.now) }
    ensures none { IfNone result (HoldsNoRecord rest.now) }
{
    let [1, a, b, c, d, after @ ..] = rest else {
        return None;
    };
    let count = u32::from_be_bytes([*a, *b, *c, *d]) as usize;
    if after.len() <= count {
        return None;
    }
    Some(after.split_at(count))
}

/// Whether the next gate is closed.
fn is_closed(rest: &[u8]) -> bool
    ensures closed { IsTrue result → (gate : ℕ) × (more : List ℕ) × (gate ≢ 1) × (rest.now ≡ gate ∷ more) }
    ensures open { result ≡ false → 1 ≤ length rest.now → (more : List ℕ) × (rest.now ≡ 1 ∷ more) }
{
    match rest {
        [1, ..] => false,
        [_gate, _more @ ..] => true,
        [] => false,
    }
}

/// Finds the records of a file of more than one byte, at most as many as a journal may have.
pub fn parse(alloc: Global, file: &[u8]) -> Result<Parsed, JournalError>
    requires long { 2 ≤ length file.now }
    requires short { length file.now ≤ MOST_JOURNAL }
    ensures stands { IfOk result (λ p. StandsTo file.now (bodies_at file.now p.spans.items) p.end) }
    ensures within { IfOk result (λ p. AreWithinLimits (bodies_at file.now p.spans.items)) }
    ensures spans { IfOk result (λ p. EndWithin p.end p.spans.items) }
    ensures damaged { IfErr result (IsDamage file.now) }
    ensures disk { IsErrOf result JournalError.Disk → ⊥ }
{
    let mut spans = Vec::new(alloc);
    let mut rest = file;
    let mut end = 0;
    while let Some((text, after)) = split_record(rest) {
        if spans.len() >= MOST_RECORDS as usize {
            return Err(JournalError::Damaged(end as u64));
        }
        let start = end + 5;
        end = start + text.len();
        spans.push(Span {
            start: start as u32,
            end: end as u32,
        })?;
        rest = after;
    }
    if is_closed(rest) {
        return Ok(Parsed { spans, end });
    }
    Err(JournalError::Damaged(end as u64))
}
