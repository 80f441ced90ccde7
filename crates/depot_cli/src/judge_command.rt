//! `judge ROSTER PROOF`: whether a text convicts a node: by two statements that contradict each other, or as a hollow proof.
ghost use Rattle.std.specs.Prelude.{◌≡◌, ◌≢◌, ◌++◌, ◌∷◌, [], IfOk, codes, Ok, Err};
ghost use Rattle.depot_model.specs.texts.Lines.{text_of_verdict, text_of_point, text_of_roster_error};
ghost use Rattle.depot_outside.specs.Told.{shelves, loads, HasLoaded};
ghost use Rattle.depot_cli.specs.Runs.{EndsAtFault, Judges, JudgesProof, JudgementOf, LoadsBehindRoster};

use crate::files::load;
use crate::outcome::CommandOutcome;
use crate::status::Status;
use depot_base::{Bytes, Memory};
use depot_judge::{JudgeError, Verdict};
use depot_outside::Shelf;
use depot_sign::{Roster, RosterError};
use depot_winter::WinterScheme;
use std::alloc::Global;

/// A text as a line.
pub fn line(status: Status, mut text: Bytes) -> Result<CommandOutcome, Memory>
    ensures { IfOk result (λ o. o ≡ record { status = status; text = text ++ codes "\n" }) }
{
    text.push_all(b"\n")?;
    Ok(CommandOutcome { status, text })
}

/// A verdict, printed.
fn verdict(alloc: Global, verdict: Verdict) -> Result<CommandOutcome, Memory>
    ensures { IfOk result (λ o. o ≡ record { status = Status.Done; text = text_of_verdict verdict ++ codes "\n" }) }
{
    let mut text = Bytes::new(alloc);
    depot_answers::verdict(alloc, &mut text, &verdict)?;
    line(Status::Done, text)
}

/// A failed point, printed.
fn no_proof(alloc: Global, point: &JudgeError) -> Result<CommandOutcome, Memory>
    ensures { IfOk result (λ o. o ≡ record { status = Status.NoProof; text = text_of_point point.now ++ codes "\n" }) }
{
    let mut text = Bytes::new(alloc);
    depot_answers::point(alloc, &mut text, point)?;
    line(Status::NoProof, text)
}

/// The file of that name is no roster, printed.
#[tactic(auto, using(depot_base::proofs::Writing::texts))]
fn no_roster(alloc: Global, name: &str, error: RosterError) -> Result<CommandOutcome, Memory>
    ensures { IfOk result (λ o. o ≡ record { status = Status.Input; text = codes "input " ++ name.now ++ codes " " ++ text_of_roster_error error ++ codes "\n" }) }
{
    let front = format!(in alloc; "input {name} ")?;
    let mut text = Bytes::from_slice(alloc, front.as_bytes())?;
    depot_answers::roster_error(alloc, &mut text, &error)?;
    line(Status::Input, text)
}

/// The file of that name is no roster, printed, unless memory ran out.
pub fn refused_roster(
    alloc: Global,
    name: &str,
    error: RosterError,
) -> Result<CommandOutcome, Memory>
    ensures { IfOk result (λ o. (error ≢ RosterError.Memory) × (o ≡ record { status = Status.Input; text = codes "input " ++ name.now ++ codes " " ++ text_of_roster_error error ++ codes "\n" })) }
{
    match error {
        RosterError::Memory => Err(Memory),
        error => no_roster(alloc, name, error),
    }
}

/// The judgement of the bytes of a proof, printed.
fn judge_bytes(alloc: Global, roster: &Roster, proof: &[u8]) -> Result<CommandOutcome, Memory>
    ensures { IfOk result (λ o. JudgementOf roster.now proof.now o.status o.text) }
{
    match depot_judge::judge(alloc, roster, &WinterScheme, proof) {
        Ok(found) => verdict(alloc, found),
        Err(JudgeError::Memory) => Err(Memory),
        Err(point) => no_proof(alloc, &point),
    }
}

/// The outcome of judging the proof of that name.
fn judge_proof<F: Shelf>(
    alloc: Global,
    shelf: &mut F,
    roster: &Roster,
    name: &str,
) -> Result<CommandOutcome, Memory>
    ensures judges { IfOk result (λ o. JudgesProof (shelves F.Shelf shelf.old shelf.new) roster.now name.now o.status o.text) }
    ensures first_fault { IfOk result (λ o. EndsAtFault (shelves F.Shelf shelf.old shelf.new) o.status) }
    ensures loads { HasLoaded (loads F.Shelf shelf.old shelf.new) (name.now ∷ []) }
    ensures files { F.file shelf.new ≡ F.file shelf.old }
    ensures stores { F.stores shelf.new ≡ F.stores shelf.old }
{
    match load(shelf, name)? {
        Some(proof) => judge_bytes(alloc, roster, proof.as_slice()),
        None => CommandOutcome::no_file(alloc, name),
    }
}

/// Judges the proof of one name under the roster of another. The roster is loaded and parsed first.
pub fn judge<F: Shelf>(
    alloc: Global,
    shelf: &mut F,
    roster: &str,
    proof: &str,
) -> Result<CommandOutcome, Memory>
    ensures judges { IfOk result (λ o. Judges (shelves F.Shelf shelf.old shelf.new) (loads F.Shelf shelf.old shelf.new) roster.now proof.now o.status o.text) }
    ensures first_fault { IfOk result (λ o. EndsAtFault (shelves F.Shelf shelf.old shelf.new) o.status) }
    ensures loads { LoadsBehindRoster (shelves F.Shelf shelf.old shelf.new) (loads F.Shelf shelf.old shelf.new) roster.now proof.now }
    ensures files { F.file shelf.new ≡ F.file shelf.old }
    ensures stores { F.stores shelf.new ≡ F.stores shelf.old }
{
    let Some(text) = load(shelf, roster)? else {
        return CommandOutcome::no_file(alloc, roster);
    };
    match Roster::parse(alloc, text.as_slice()) {
        Ok(listed) => judge_proof(alloc, shelf, &listed, proof),
        Err(RosterError::Memory) => Err(Memory),
        Err(error) => no_roster(alloc, roster, error),
    }
}
