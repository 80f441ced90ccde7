//! The outcome of a command, and how it is written.
ghost use Rattle.std.specs.Prelude.{◌≡◌, ◌<◌, ◌++◌, IfOk, codes};
ghost use Rattle.depot_outside.specs.Told.{sinks};
ghost use Rattle.depot_answers.specs.AnswerTexts.{text_of_faulty_line};
ghost use Rattle.depot_cli.specs.Runs.{Finishes};

use crate::status::Status;
use depot_base::{Bytes, Memory};
use depot_lines::LineFault;
use depot_outside::{OutError, Sink};
use std::alloc::Global;

/// The outcome of a command: the status, and the whole text that it prints.
#[derive(Debug, Drop)]
pub struct CommandOutcome {
    pub status: Status,
    pub text: Bytes,
}

impl CommandOutcome {
    /// This status and the text of a line.
    pub fn of_line(alloc: Global, status: Status, line: &str) -> Result<CommandOutcome, Memory>
        ensures { IfOk result (λ o. o ≡ record { status = status; text = line.now }) }
    {
        Ok(CommandOutcome {
            status,
            text: Bytes::from_slice(alloc, line.as_bytes())?,
        })
    }

    /// The words are no command.
    pub fn words(alloc: Global) -> Result<CommandOutcome, Memory>
        ensures { IfOk result (λ o. o ≡ record { status = Status.Words; text = codes "words\n" }) }
    {
        CommandOutcome::of_line(alloc, Status::Words, "words\n")
    }

    /// The line of a text of that name with a faulty line, the first of this number from 1, and its first fault.
    #[tactic(auto, using(depot_base::proofs::Writing::texts))]
    pub fn faulty_line(
        alloc: Global,
        name: &str,
        number: u32,
        fault: LineFault,
    ) -> Result<CommandOutcome, Memory>
        ensures { IfOk result (λ o. o ≡ record { status = Status.Input; text = codes "input " ++ name.now ++ codes " " ++ text_of_faulty_line number fault ++ codes "\n" }) }
    {
        let front = format!(in alloc; "input {name} ")?;
        let mut text = Bytes::from_slice(alloc, front.as_bytes())?;
        depot_answers::faulty_line(alloc, &mut text, number, fault)?;
        text.push_all(b"\n")?;
        Ok(CommandOutcome {
            status: Status::Input,
            text,
        })
    }

    /// The file of that name can't be had.
    pub fn no_file(alloc: Global, name: &str) -> Result<CommandOutcome, Memory>
        ensures { IfOk result (λ o. o ≡ record { status = Status.Shelf; text = codes "shelf " ++ name.now ++ codes "\n" }) }
    {
        let line = format!(in alloc; "shelf {name}\n")?;
        CommandOutcome::of_line(alloc, Status::Shelf, line.as_str())
    }
}

/// Writes the text of a command, if memory was found for it, and returns how the run ended.
pub fn finish<S: Sink>(found: Result<CommandOutcome, Memory>, out: &mut S) -> Status
    ensures finishes { Finishes found (sinks S.Sink out.old out.new) result }
    ensures sink_fault { S.faults out.old < S.faults out.new → result ≡ Status.Sink }
{
    let Ok(outcome) = found else {
        return Status::Memory;
    };
    match out.write(outcome.text.as_slice()) {
        Ok(()) => outcome.status,
        Err(OutError::Memory) => Status::Memory,
        Err(OutError::Failed) => Status::Sink,
    }
}
