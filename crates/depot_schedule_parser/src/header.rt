//! Reads the lines of the header.
ghost use Rattle.std.specs.Prelude.{◌≡◌, ℕ, List, [], ◌∷◌, length};
ghost use Rattle.std.specs.Option.{MatchOption};
ghost use Rattle.depot_lines.specs.Language.{split};
ghost use Rattle.depot_schedule.specs.Schedules.{read_first, scheme_named, read_scheme, read_member};
ghost use Rattle.depot_lines.specs.LineReading.{AnswersReading};

use crate::draft::Draft;
use depot_base::limits::{GREATEST_HEIGHT, LEAST_HEIGHT};
use depot_lines::spelling::is;
use depot_lines::word_readers::{id_of, number_of};
use depot_lines::{LineError, LineFault, Parts, is_empty_word};
use depot_schedule::Member;
use std::alloc::Global;

/// The two words of a line. `None` exactly when they are more or fewer.
fn two(line: &[u8]) -> Option<(&[u8], &[u8])>
    ensures { MatchOption result (¬ (length (split 32 line.now) ≡ 2)) (λ w. split 32 line.now ≡ w.0.now ∷ w.1.now ∷ []) }
{
    let mut words = Parts::new(line, b' ');
    if words.count() != 2 {
        return None;
    }
    let Some(first) = words.next() else {
        return None;
    };
    let Some(second) = words.next() else {
        return None;
    };
    Some((first, second))
}

/// The three words of a line. `None` exactly when they are more or fewer.
fn three(line: &[u8]) -> Option<(&[u8], &[u8], &[u8])>
    ensures { MatchOption result (¬ (length (split 32 line.now) ≡ 3)) (λ w. split 32 line.now ≡ w.0.now ∷ w.1.now ∷ w.2.now ∷ []) }
{
    let mut words = Parts::new(line, b' ');
    if words.count() != 3 {
        return None;
    }
    let Some(first) = words.next() else {
        return None;
    };
    let Some(second) = words.next() else {
        return None;
    };
    let Some(third) = words.next() else {
        return None;
    };
    Some((first, second, third))
}

/// The first line, from its words.
fn first_by(depot: &[u8], schedule: &[u8], version: &[u8]) -> Result<(), LineError>
    ensures { AnswersReading result (read_first (depot.now ∷ schedule.now ∷ version.now ∷ [])) }
{
    if is(depot, "depot") && is(schedule, "schedule") && !is_empty_word(version) {
        if is(version, "1") {
            Ok(())
        } else {
            Err(LineError::In(LineFault::Number))
        }
    } else {
        Err(LineError::In(LineFault::Header))
    }
}

/// The first line, `depot schedule 1`.
pub fn read_first(line: &[u8]) -> Result<(), LineError>
    ensures { AnswersReading result (read_first (split 32 line.now)) }
{
    match three(line) {
        Some((depot, schedule, version)) => first_by(depot, schedule, version),
        None => Err(LineError::In(LineFault::Header)),
    }
}

/// Whether signatures are Winternitz's, by the name of a scheme. None where no scheme has the name.
fn scheme_named(word: &[u8]) -> Option<bool>
    ensures { result ≡ scheme_named word.now }
{
    if is(word, "plain") {
        Some(false)
    } else if is(word, "winter") {
        Some(true)
    } else {
        None
    }
}

/// The second line, from its words.
fn scheme_by(alloc: Global, scheme: &[u8], name: &[u8], height: &[u8]) -> Result<Draft, LineError>
    ensures { AnswersReading result (read_scheme (scheme.now ∷ name.now ∷ height.now ∷ [])) }
{
    if !(is(scheme, "scheme") && !is_empty_word(height)) {
        return Err(LineError::In(LineFault::Header));
    }
    let Some(winter) = scheme_named(name) else {
        return Err(LineError::In(LineFault::Header));
    };
    let height = number_of(height, LEAST_HEIGHT as u64, GREATEST_HEIGHT as u64)?;
    Ok(Draft::new(alloc, winter, height as u8))
}

/// The second line, `scheme plain H` or `scheme winter H`, as the schedule before its first member.
pub fn read_scheme(alloc: Global, line: &[u8]) -> Result<Draft, LineError>
    ensures { AnswersReading result (read_scheme (split 32 line.now)) }
{
    match three(line) {
        Some((scheme, name, height)) => scheme_by(alloc, scheme, name, height),
        None => Err(LineError::In(LineFault::Header)),
    }
}

/// The line of a member, from its second word.
fn member_by(draft: Draft, correct: bool, word: &[u8]) -> Result<Draft, LineError>
    ensures { (name : List ℕ) → AnswersReading result (read_member draft correct (name ∷ word.now ∷ [])) }
{
    if draft.has_events() || is_empty_word(word) {
        return Err(LineError::In(LineFault::Header));
    }
    let node = id_of(word)?;
    let member = Member { node, correct };
    if draft.may_join(member) {
        Ok(draft.with_member(member)?)
    } else {
        Err(LineError::In(LineFault::Header))
    }
}

/// The line of a member, `node ID` or `faulty ID`: the schedule with that member.
pub fn read_member(draft: Draft, correct: bool, line: &[u8]) -> Result<Draft, LineError>
    ensures { AnswersReading result (read_member draft correct (split 32 line.now)) }
{
    match two(line) {
        Some((_, word)) => member_by(draft, correct, word),
        None => Err(LineError::In(LineFault::Header)),
    }
}
