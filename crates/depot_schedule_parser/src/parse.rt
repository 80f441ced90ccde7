//! Reads whole schedules.
ghost use Rattle.std.specs.Prelude.{◌≡◌, ◌≤◌, ◌⊎◌, Ok, Err, IfOk};
ghost use Rattle.depot_base.specs.declared.limits.TheConstants.{MOST_LINES};
ghost use Rattle.depot_schedule.specs.declared.schedule.Schedule.{Schedule};
ghost use Rattle.depot_lines.specs.declared.line_fault.TextError.TheVariants as error;
ghost use Rattle.depot_schedule.specs.Schedules.{schedule_of, read_line, read_rest, IsTextOfSchedule};
ghost use Rattle.depot_lines.specs.LineTexts.{checked, lines_of_parts};
ghost use Rattle.depot_lines.specs.LineReading.{Parses};
ghost use Rattle.depot_schedule_parser.specs.ScheduleReading.{TakesFirst, TakesSecond};

use crate::draft::Draft;
use crate::{header, schedule_lines};
use depot_lines::{LineFault, Parts, TextError, allowed, in_line, next_line};
use depot_schedule::Schedule;
use std::alloc::Global;

/// The first line.
fn first(parts: &mut Parts<'_>) -> Result<(), TextError>
    ensures { TakesFirst parts.old result parts.new }
{
    let Some((text, ended)) = next_line(parts) else {
        return Err(TextError::Line(1, LineFault::Header));
    };
    allowed(1, ended)?;
    in_line(1, header::read_first(text))
}

/// The second line.
fn second(alloc: Global, parts: &mut Parts<'_>) -> Result<Draft, TextError>
    ensures { TakesSecond parts.old result parts.new }
{
    let Some((text, ended)) = next_line(parts) else {
        return Err(TextError::Line(2, LineFault::Header));
    };
    allowed(2, ended)?;
    in_line(2, header::read_scheme(alloc, text))
}

/// The line of this number, from 3.
fn one_line(
    alloc: Global,
    draft: Draft,
    number: u32,
    text: &[u8],
    ended: bool,
) -> Result<Draft, TextError>
    ensures parses { Parses result (checked number (record { text = text.now; ended = ended }) (read_line draft)) }
    ensures few { IfOk result (λ _. number ≤ MOST_LINES) }
{
    allowed(number, ended)?;
    in_line(number, schedule_lines::read_line(alloc, draft, text))
}

/// The lines after the second.
fn rest(alloc: Global, parts: Parts<'_>, draft: Draft) -> Result<Draft, TextError>
    ensures { Parses result (read_rest 3 draft (lines_of_parts parts.entry)) }
{
    let mut parts = parts;
    let mut draft = draft;
    let mut number: u32 = 3;
    while let Some((text, ended)) = next_line(&mut parts) {
        draft = one_line(alloc, draft, number, text, ended)?;
        number += 1;
    }
    if draft.has_correct() {
        Ok(draft)
    } else {
        Err(TextError::Line(number, LineFault::Header))
    }
}

/// All lines of a text.
#[tactic(auto, unfolding(depot_schedule::specs::Schedules::schedule_of))]
fn all(alloc: Global, text: &[u8]) -> Result<Schedule, TextError>
    ensures { Parses result (schedule_of text.now) }
{
    let mut parts = Parts::new(text, b'\n');
    first(&mut parts)?;
    let draft = second(alloc, &mut parts)?;
    let draft = rest(alloc, parts, draft)?;
    Ok(draft.into_schedule())
}

/// Parses the text of a schedule (docs/FORMATS.md). `Line` is returned exactly when it is no schedule's text, with the
/// number of the first faulty line, from 1, and that line's first fault. Each line is read a fixed number of times, and
/// a label is looked up in logarithmic time.
pub fn parse_schedule(alloc: Global, text: &[u8]) -> Result<Schedule, TextError>
    ensures parses { Parses result (schedule_of text.now) }
    ensures found { IfOk result (IsTextOfSchedule text.now) }
    ensures only { (s : Schedule) → IsTextOfSchedule text.now s → (result ≡ Ok s) ⊎ (result ≡ Err error.Memory) }
{
    all(alloc, text)
}
