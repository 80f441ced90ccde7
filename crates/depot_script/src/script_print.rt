//! Prints scripts, and heads of their lines.
ghost use Rattle.std.specs.Prelude.{◌≡◌, ◌+◌, ◌++◌, OnOk, IfOk, take};
ghost use Rattle.std.specs.List.{flat_map};
ghost use Rattle.depot_lines.specs.Language.{join};
ghost use Rattle.depot_lines.specs.LineTexts.{text_of_line};
ghost use Rattle.depot_script.specs.Scripts.{text_of_script, command_words};

use crate::command_writers::words_of_command;
use crate::{Command, Script};
use depot_base::{Bytes, Memory};
use depot_lines::LineWriter;
use std::alloc::Global;

/// The line of a command.
#[tactic(auto, using(depot_base::proofs::Writing::texts, depot_lines::proofs::WrittenSteps::lines))]
fn command_line(out: &mut LineWriter, command: &Command) -> Result<(), Memory>
    ensures { OnOk result (out.new.text ≡ out.old.text ++ text_of_line (command_words command.now)) }
{
    out.begin(command.verb().name().as_bytes())?;
    words_of_command(out, command)?;
    out.end()
}

/// The head of a command's line: the command's name, and `more` of the words behind it, or all where there are fewer.
#[tactic(auto, using(depot_base::proofs::Writing::texts, depot_lines::proofs::WrittenSteps::lines))]
pub fn command_head(alloc: Global, command: &Command, more: usize) -> Result<Bytes, Memory>
    ensures { IfOk result (λ head. head ≡ join 32 (take (1 + more) (command_words command.now))) }
{
    let mut out = LineWriter::new(alloc);
    out.begin_head(command.verb().name().as_bytes(), more)?;
    words_of_command(&mut out, command)?;
    Ok(out.into_text())
}

/// The lines of commands.
#[tactic(auto, using(depot_base::proofs::Writing::texts))]
fn command_lines(out: &mut LineWriter, commands: &[Command]) -> Result<(), Memory>
    ensures { OnOk result (out.new.text ≡ out.old.text ++ flat_map (λ c. text_of_line (command_words c)) commands.now) }
{
    for command in commands {
        command_line(out, command)?;
    }
    Ok(())
}

/// Prints the script's text (docs/FORMATS.md), a line for each command. With more than 100,000 commands it is too long
/// to be read back.
#[tactic(auto, unfolding(crate::specs::Scripts::text_of_script))]
pub fn print_script(alloc: Global, script: &Script) -> Result<Bytes, Memory>
    ensures { IfOk result (λ text. text ≡ text_of_script script.now) }
{
    let mut out = LineWriter::new(alloc);
    command_lines(&mut out, script.as_slice())?;
    Ok(out.into_text())
}
