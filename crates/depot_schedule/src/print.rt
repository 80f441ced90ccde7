//! Prints schedules, and heads of their lines.
ghost use Rattle.std.specs.Prelude.{◌≡◌, ◌+◌, ◌++◌, OnOk, IfOk, take};
ghost use Rattle.std.specs.List.{flat_map};
ghost use Rattle.depot_schedule.specs.Schedules.{IsSchedule, text_of_schedule, scheme_name, member_name};
ghost use Rattle.depot_schedule.specs.Schedules.{first_words, scheme_words, member_words, event_words};
ghost use Rattle.depot_lines.specs.Language.{join};
ghost use Rattle.depot_lines.specs.LineTexts.{text_of_line};

use crate::event_writers::words_of_event;
use crate::{Event, Member, Schedule};
use depot_base::{Bytes, Memory};
use depot_lines::LineWriter;
use std::alloc::Global;

/// The name of a scheme.
fn scheme_name(winter: bool) -> &'static str
    ensures { result.now ≡ scheme_name winter }
{
    if winter { "winter" } else { "plain" }
}

/// The first word of the line of a member.
fn member_name(correct: bool) -> &'static str
    ensures { result.now ≡ member_name correct }
{
    if correct { "node" } else { "faulty" }
}

/// The first line.
#[tactic(auto, using(depot_base::proofs::Writing::texts), unfolding(depot_lines::specs::LineReading::with_word))]
fn first_line(out: &mut LineWriter) -> Result<(), Memory>
    ensures { OnOk result (out.new.text ≡ out.old.text ++ text_of_line first_words) }
{
    out.begin(b"depot")?;
    out.word(b"schedule")?;
    out.word(b"1")?;
    out.end()
}

/// The second line.
#[tactic(auto, using(depot_base::proofs::Writing::texts), unfolding(depot_lines::specs::LineReading::with_word))]
fn scheme_line(out: &mut LineWriter, schedule: &Schedule) -> Result<(), Memory>
    ensures { OnOk result (out.new.text ≡ out.old.text ++ text_of_line (scheme_words schedule.now)) }
{
    out.begin(b"scheme")?;
    out.word(scheme_name(schedule.winter).as_bytes())?;
    out.number(schedule.height as u64)?;
    out.end()
}

/// The line of a member.
#[tactic(auto, using(depot_base::proofs::Writing::texts), unfolding(depot_lines::specs::LineReading::with_word))]
fn member_line(out: &mut LineWriter, member: &Member) -> Result<(), Memory>
    ensures { OnOk result (out.new.text ≡ out.old.text ++ text_of_line (member_words member.now)) }
{
    out.begin(member_name(member.correct).as_bytes())?;
    out.node(member.node)?;
    out.end()
}

/// The line of an event.
#[tactic(auto, using(depot_base::proofs::Writing::texts, depot_lines::proofs::WrittenSteps::lines))]
fn event_line(out: &mut LineWriter, event: &Event) -> Result<(), Memory>
    ensures { OnOk result (out.new.text ≡ out.old.text ++ text_of_line (event_words event.now)) }
{
    out.begin(event.verb().name().as_bytes())?;
    words_of_event(out, event)?;
    out.end()
}

/// The head of an event's line: the event's name, and `more` of the words behind it, or all where there are fewer.
#[tactic(auto, using(depot_base::proofs::Writing::texts, depot_lines::proofs::WrittenSteps::lines))]
pub fn event_head(alloc: Global, event: &Event, more: usize) -> Result<Bytes, Memory>
    ensures { IfOk result (λ head. head ≡ join 32 (take (1 + more) (event_words event.now))) }
{
    let mut out = LineWriter::new(alloc);
    out.begin_head(event.verb().name().as_bytes(), more)?;
    words_of_event(&mut out, event)?;
    Ok(out.into_text())
}

/// The lines of members.
#[tactic(auto, using(depot_base::proofs::Writing::texts))]
fn member_lines(out: &mut LineWriter, members: &[Member]) -> Result<(), Memory>
    ensures { OnOk result (out.new.text ≡ out.old.text ++ flat_map (λ m. text_of_line (member_words m)) members.now) }
{
    for member in members {
        member_line(out, member)?;
    }
    Ok(())
}

/// The lines of events.
#[tactic(auto, using(depot_base::proofs::Writing::texts))]
fn event_lines(out: &mut LineWriter, events: &[Event]) -> Result<(), Memory>
    ensures { OnOk result (out.new.text ≡ out.old.text ++ flat_map (λ e. text_of_line (event_words e)) events.now) }
{
    for event in events {
        event_line(out, event)?;
    }
    Ok(())
}

/// The schedule's one text (docs/FORMATS.md).
pub fn print_schedule(alloc: Global, schedule: &Schedule) -> Result<Bytes, Memory>
    requires { IsSchedule schedule.now }
    ensures { IfOk result (λ text. text ≡ text_of_schedule schedule.now) }
{
    let mut out = LineWriter::new(alloc);
    first_line(&mut out)?;
    scheme_line(&mut out, schedule)?;
    member_lines(&mut out, schedule.members.as_slice())?;
    event_lines(&mut out, schedule.events.as_slice())?;
    Ok(out.into_text())
}
