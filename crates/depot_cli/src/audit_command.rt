//! `audit ROSTER TRACE..`: whether what nodes did keeps the headline.
ghost use Rattle.std.specs.Prelude.{◌≡◌, ◌≤◌, ◌++◌, length, IfOk, IsOk, codes};
ghost use Rattle.std.specs.Fmt.{decimal};
ghost use Rattle.depot_answers.specs.AnswerTexts.{text_of_finding};
ghost use Rattle.depot_outside.specs.Told.{shelves, loads};
ghost use Rattle.depot_traces.specs.SeenTraces.{finding_of};
ghost use Rattle.depot_traces.specs.declared.trace.TheConstants.{MOST_TRACES};
ghost use Rattle.depot_cli.specs.Handing.{AreForAudit, GathersTraces};
ghost use Rattle.depot_cli.specs.Runs.{AnswersFiles, Audits, EndsAtFault, IsAudited, LoadsTracesBehindRoster, status_of_finding, status_of_refusal, text_of_refusal};

use crate::files::load;
use crate::judge_command::{line, refused_roster};
use crate::outcome::CommandOutcome;
use crate::status::Status;
use crate::trace_names::TraceNames;
use crate::{GatheredTraces, TraceRefusal, gather};
use depot_answers::finding;
use depot_audit::audit as audit_traces;
use depot_base::{Bytes, Memory, NodeId};
use depot_lines::FileName;
use depot_outside::Shelf;
use depot_sign::Roster;
use depot_traces::{Finding, Traces};
use depot_winter::WinterScheme;
use std::alloc::Global;

/// The status of what an audit finds.
fn status_of(found: &Finding) -> Status
    ensures { result ≡ status_of_finding (finding_of found.now) }
{
    match found {
        Finding::Yes => Status::Done,
        _ => Status::Broken,
    }
}

/// What an audit finds, printed.
fn found_line(alloc: Global, found: Finding) -> Result<CommandOutcome, Memory>
    ensures { IfOk result (λ o. o ≡ record { status = status_of_finding (finding_of found); text = text_of_finding (finding_of found) ++ codes "\n" }) }
{
    let mut text = Bytes::new(alloc);
    finding(alloc, &mut text, found)?;
    line(status_of(&found), text)
}

/// What an audit finds, printed, where memory was found for it.
fn found_or_none(alloc: Global, found: Result<Finding, Memory>) -> Result<CommandOutcome, Memory>
    ensures printed { IfOk result (λ o. IfOk found (λ f. o ≡ record { status = status_of_finding (finding_of f); text = text_of_finding (finding_of f) ++ codes "\n" })) }
    ensures some { IfOk result (λ _. IsOk found) }
{
    match found {
        Ok(found) => found_line(alloc, found),
        Err(Memory) => Err(Memory),
    }
}

/// What an audit of traces finds, printed.
fn audited(alloc: Global, roster: &Roster, traces: &Traces) -> Result<CommandOutcome, Memory>
    requires some { 1 ≤ length traces.now }
    requires few { length traces.now ≤ MOST_TRACES }
    requires traces { AreForAudit roster.now traces.now }
    ensures { IfOk result (λ o. IsAudited roster.now traces.now o.status o.text) }
{
    found_or_none(alloc, audit_traces(alloc, roster, &WinterScheme, traces))
}

/// The line of the file of that name, which isn't in its grammar from this offset on.
fn ill_formed(alloc: Global, name: &str, at: u64) -> Result<CommandOutcome, Memory>
    ensures { IfOk result (λ o. o ≡ record { status = Status.Input; text = codes "input " ++ name.now ++ codes " at " ++ decimal at ++ codes "\n" }) }
{
    let line = format!(in alloc; "input {name} at {at}\n")?;
    CommandOutcome::of_line(alloc, Status::Input, line.as_str())
}

/// The line of the file of that name, which has the trace of a node of which an earlier file has one.
fn twice(alloc: Global, name: &str, node: NodeId) -> Result<CommandOutcome, Memory>
    ensures { IfOk result (λ o. o ≡ record { status = Status.Input; text = codes "input " ++ name.now ++ codes " twice " ++ decimal node ++ codes "\n" }) }
{
    let node = node.number();
    let line = format!(in alloc; "input {name} twice {node}\n")?;
    CommandOutcome::of_line(alloc, Status::Input, line.as_str())
}

/// Why the file of that name is no trace for the audit, printed.
fn refused(alloc: Global, name: &str, why: TraceRefusal) -> Result<CommandOutcome, Memory>
    ensures { IfOk result (λ o. o ≡ record { status = status_of_refusal why; text = text_of_refusal name.now why }) }
{
    match why {
        TraceRefusal::Missing => CommandOutcome::no_file(alloc, name),
        TraceRefusal::IllFormed(at) => ill_formed(alloc, name, at),
        TraceRefusal::Twice(node) => twice(alloc, name, node),
        TraceRefusal::Stranger => ill_formed(alloc, name, 2),
    }
}

/// Loads the trace files of these names one by one, up to the first that is refused, and audits them under a roster.
fn audit_files<F: Shelf>(
    alloc: Global,
    shelf: &mut F,
    roster: &Roster,
    names: &[FileName],
) -> Result<CommandOutcome, Memory>
    requires some { 1 ≤ length names.now }
    requires few { length names.now ≤ MOST_TRACES }
    ensures answers { IfOk result (λ o. AnswersFiles (shelves F.Shelf shelf.old shelf.new) (loads F.Shelf shelf.old shelf.new) roster.now names.now o.status o.text) }
    ensures first_fault { IfOk result (λ o. EndsAtFault (shelves F.Shelf shelf.old shelf.new) o.status) }
    ensures loads { GathersTraces F.Shelf shelf.old shelf.new roster.now names.now }
    ensures files { F.file shelf.new ≡ F.file shelf.old }
    ensures stores { F.stores shelf.new ≡ F.stores shelf.old }
{
    match gather(alloc, shelf, roster, names)? {
        GatheredTraces::Traces(traces) => audited(alloc, roster, &traces),
        GatheredTraces::Refused { place, why } => refused(alloc, names[place as usize].text(), why),
    }
}

/// Audits the traces of these names under the roster of another. The roster is loaded and parsed first.
pub fn audit<F: Shelf>(
    alloc: Global,
    shelf: &mut F,
    roster: &str,
    traces: &TraceNames,
) -> Result<CommandOutcome, Memory>
    ensures audits { IfOk result (λ o. Audits (shelves F.Shelf shelf.old shelf.new) (loads F.Shelf shelf.old shelf.new) roster.now traces.now o.status o.text) }
    ensures first_fault { IfOk result (λ o. EndsAtFault (shelves F.Shelf shelf.old shelf.new) o.status) }
    ensures loads { LoadsTracesBehindRoster (shelves F.Shelf shelf.old shelf.new) (loads F.Shelf shelf.old shelf.new) roster.now traces.now }
    ensures files { F.file shelf.new ≡ F.file shelf.old }
    ensures stores { F.stores shelf.new ≡ F.stores shelf.old }
{
    let Some(text) = load(shelf, roster)? else {
        return CommandOutcome::no_file(alloc, roster);
    };
    match Roster::parse(alloc, text.as_slice()) {
        Ok(listed) => audit_files(alloc, shelf, &listed, traces.as_slice()),
        Err(error) => refused_roster(alloc, roster, error),
    }
}
