//! Reads whole scripts.
ghost use Rattle.std.specs.Prelude.{◌≡◌, ◌≤◌, ◌⊎◌, List, Ok, Err, IfOk};
ghost use Rattle.depot_base.specs.declared.limits.TheConstants.{MOST_LINES};
ghost use Rattle.depot_lines.specs.Language.{split};
ghost use Rattle.depot_lines.specs.LineReading.{AnswersReading, Parses};
ghost use Rattle.depot_lines.specs.LineTexts.{checked};
ghost use Rattle.depot_script.specs.declared.command.Command.{Command};
ghost use Rattle.depot_lines.specs.declared.line_fault.TextError.TheVariants as error;
ghost use Rattle.depot_script.specs.Scripts.{read_command, script_of, IsTextOfScript};

use crate::command_lines::command_of;
use crate::command_verb::CommandVerb;
use crate::{Command, Script};
use depot_base::Sequence;
use depot_lines::{LineError, LineFault, Parts, TextError, allowed, are_words, in_line, next_line};
use std::alloc::Global;

/// The command of a line.
fn read_command(alloc: Global, line: &[u8]) -> Result<Command, LineError>
    ensures { AnswersReading result (read_command (split 32 line.now)) }
{
    let mut words = Parts::new(line, b' ');
    let Some(name) = words.next() else {
        return Err(LineError::In(LineFault::Word));
    };
    if !are_words(line) {
        return Err(LineError::In(LineFault::Word));
    }
    let Some(verb) = CommandVerb::named(name) else {
        return Err(LineError::In(LineFault::Word));
    };
    command_of(alloc, verb, &mut words)
}

/// The command of the line of this number, from 1.
fn one_line(alloc: Global, number: u32, text: &[u8], ended: bool) -> Result<Command, TextError>
    ensures parses { Parses result (checked number (record { text = text.now; ended = ended }) read_command) }
    ensures few { IfOk result (λ _. number ≤ MOST_LINES) }
{
    allowed(number, ended)?;
    in_line(number, read_command(alloc, text))
}

/// All lines of a text. The list of the commands gives back unused room.
#[tactic(auto, unfolding(crate::specs::Scripts::script_of))]
fn all(alloc: Global, text: &[u8]) -> Result<Script, TextError>
    ensures { Parses result (script_of text.now) }
{
    let mut parts = Parts::new(text, b'\n');
    let mut script = Sequence::new(alloc);
    let mut number: u32 = 1;
    while let Some((text, ended)) = next_line(&mut parts) {
        let command = one_line(alloc, number, text, ended)?;
        script.push(command)?;
        number += 1;
    }
    let mut commands = script.into_vec();
    commands.shrink_to_fit();
    Ok(Sequence::from_vec(commands))
}

/// Parses the text of a script (docs/FORMATS.md). `Line` is returned exactly when it is no script's text, with the
/// number of the first faulty line, from 1, and that line's first fault. Each line is read a fixed number of times.
pub fn parse_script(alloc: Global, text: &[u8]) -> Result<Script, TextError>
    ensures parses { Parses result (script_of text.now) }
    ensures found { IfOk result (IsTextOfScript text.now) }
    ensures only { (s : List Command) → IsTextOfScript text.now s → (result ≡ Ok s) ⊎ (result ≡ Err error.Memory) }
{
    all(alloc, text)
}
