//! Why a call is refused.
ghost use Rattle.std.specs.Prelude.{◌≡◌, ◌++◌, OnOk, codes};
ghost use Rattle.depot_answers.specs.AnswerTexts.{text_of_number, spaced, text_of_record_fault};
ghost use Rattle.depot_c.specs.Refusals.{IsTold, outcome_of_halt, outcome_of_roster, outcome_of_start, refusal_outcome, words_of, words_of_start};

use crate::outcome::CallOutcome;
use depot_answers::{numbered, record_fault, roster_error};
use depot_base::{Bytes, Memory};
use depot_model::{RecordFault, RosterError};
use depot_node::StartError;
use depot_requests::Halt;
use std::alloc::Global;

/// Why a call is refused.
#[derive(Clone, Copy, Debug, PartialEq, Eq)]
pub enum Refused {
    /// The input isn't in its form.
    Input,
    /// No memory was found.
    Memory,
    /// The handle isn't where this can be asked.
    Order,
    /// The text is no roster's.
    Roster(RosterError),
    /// No node is started.
    Start(StartError),
    /// The body of a message first goes wrong at this offset.
    IllFormed(u32),
    /// The node was kept from answering.
    Halted(Halt),
}

/// How a call ends that a roster's text refuses.
fn of_roster(error: RosterError) -> CallOutcome
    ensures { result ≡ outcome_of_roster error }
{
    match error {
        RosterError::Memory => CallOutcome::Memory,
        _ => CallOutcome::Input,
    }
}

/// How a call ends that starts no node.
fn of_start(error: StartError) -> CallOutcome
    ensures { result ≡ outcome_of_start error }
{
    match error {
        StartError::Memory => CallOutcome::Memory,
        StartError::Disk => CallOutcome::Disk,
        StartError::Damaged(_) | StartError::NotLawful { .. } => CallOutcome::NotLawful,
        StartError::UnknownMe
        | StartError::OtherKey { .. }
        | StartError::OtherNode(_)
        | StartError::OtherRoster { .. } => CallOutcome::Identity,
    }
}

/// How a call ends to which the node doesn't answer.
fn of_halt(halt: Halt) -> CallOutcome
    ensures { result ≡ outcome_of_halt halt }
{
    match halt {
        Halt::Memory => CallOutcome::Memory,
        Halt::Disk => CallOutcome::Disk,
        Halt::Stopped => CallOutcome::Stopped,
    }
}

/// Adds which record isn't lawful, and why.
#[tactic(auto, using(depot_base::proofs::Writing::texts))]
fn say_unlawful(
    alloc: Global,
    out: &mut Bytes,
    place: u32,
    fault: &RecordFault,
) -> Result<(), Memory>
    ensures { OnOk result (out.new ≡ out.old ++ (text_of_number (codes "not lawful") place ++ spaced (text_of_record_fault fault.now))) }
{
    numbered(alloc, out, "not lawful", place as u64)?;
    out.push_all(b" ")?;
    record_fault(alloc, out, fault)
}

/// Adds why no node is started.
fn say_start(alloc: Global, out: &mut Bytes, error: &StartError) -> Result<(), Memory>
    ensures { OnOk result (out.new ≡ out.old ++ words_of_start error.now) }
{
    match error {
        StartError::Memory | StartError::Disk => Ok(()),
        StartError::UnknownMe => out.push_all(b"identity UnknownMe"),
        StartError::OtherKey { .. } => out.push_all(b"identity OtherKey"),
        StartError::OtherNode(_) => out.push_all(b"identity OtherNode"),
        StartError::OtherRoster { .. } => out.push_all(b"identity OtherRoster"),
        StartError::Damaged(at) => numbered(alloc, out, "damaged", *at),
        StartError::NotLawful { place, fault } => say_unlawful(alloc, out, *place, fault),
    }
}

impl Refused {
    /// How the call ends.
    pub fn outcome(&self) -> CallOutcome
        ensures { result ≡ refusal_outcome self.now }
    {
        match *self {
            Refused::Input => CallOutcome::Input,
            Refused::Memory => CallOutcome::Memory,
            Refused::Order => CallOutcome::Order,
            Refused::Roster(error) => of_roster(error),
            Refused::Start(error) => of_start(error),
            Refused::IllFormed(_) => CallOutcome::Input,
            Refused::Halted(halt) => of_halt(halt),
        }
    }

    /// Adds the words.
    fn say(&self, alloc: Global, out: &mut Bytes) -> Result<(), Memory>
        ensures { OnOk result (out.new ≡ out.old ++ words_of self.now) }
    {
        match *self {
            Refused::Roster(error) => roster_error(alloc, out, &error),
            Refused::Start(error) => say_start(alloc, out, &error),
            Refused::IllFormed(at) => numbered(alloc, out, "IllFormed", u64::from(at)),
            Refused::Input | Refused::Memory | Refused::Order | Refused::Halted(_) => Ok(()),
        }
    }

    /// In the words of the program's lines why, or no words where no memory is found for them.
    pub fn words(&self, alloc: Global) -> Bytes
        ensures { IsTold (words_of self.now) result }
    {
        let mut out = Bytes::new(alloc);
        match self.say(alloc, &mut out) {
            Ok(()) => out,
            Err(_) => Bytes::new(alloc),
        }
    }
}
