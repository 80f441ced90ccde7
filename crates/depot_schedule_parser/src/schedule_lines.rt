//! Reads any line after the second.
ghost use Rattle.depot_lines.specs.Language.{split};
ghost use Rattle.depot_schedule.specs.Schedules.{read_event, read_other, read_line};
ghost use Rattle.depot_lines.specs.LineReading.{AnswersReading};

use crate::draft::Draft;
use crate::event_lines::event_of;
use crate::header::read_member;
use depot_lines::spelling::is;
use depot_lines::{LineError, LineFault, Parts, are_words, first_word};
use depot_schedule::Verb;
use std::alloc::Global;

/// The line of an event: the schedule with that event.
fn read_event(alloc: Global, draft: Draft, line: &[u8]) -> Result<Draft, LineError>
    ensures { AnswersReading result (read_event draft (split 32 line.now)) }
{
    let mut words = Parts::new(line, b' ');
    let Some(name) = words.next() else {
        return Err(LineError::In(LineFault::Word));
    };
    if !are_words(line) {
        return Err(LineError::In(LineFault::Word));
    }
    let Some(verb) = Verb::named(name) else {
        return Err(LineError::In(LineFault::Word));
    };
    let event = event_of(alloc, verb, &mut words, &draft)?;
    Ok(draft.with_event(alloc, event)?)
}

/// A line that isn't the header's.
fn read_other(alloc: Global, draft: Draft, line: &[u8]) -> Result<Draft, LineError>
    ensures { AnswersReading result (read_other draft (split 32 line.now)) }
{
    if draft.has_correct() {
        read_event(alloc, draft, line)
    } else if Verb::named(first_word(line)).is_some() {
        Err(LineError::In(LineFault::Header))
    } else {
        Err(LineError::In(LineFault::Word))
    }
}

/// A line after the second: the schedule with what it adds.
#[tactic(auto, unfolding(depot_schedule::specs::Schedules::read_line))]
pub fn read_line(alloc: Global, draft: Draft, line: &[u8]) -> Result<Draft, LineError>
    ensures { AnswersReading result (read_line draft (split 32 line.now)) }
{
    let first = first_word(line);
    if is(first, "node") {
        read_member(draft, true, line)
    } else if is(first, "faulty") {
        read_member(draft, false, line)
    } else if is(first, "depot") || is(first, "scheme") {
        Err(LineError::In(LineFault::Header))
    } else {
        read_other(alloc, draft, line)
    }
}
