//! Reads the words after the name of a command: one function a line of the table.
ghost use Rattle.depot_lines.specs.Language.{nothing};
ghost use Rattle.depot_lines.specs.LineReading.{AnswersReading};
ghost use Rattle.depot_script.specs.Commands.{put_form, puts_form, get_form, hello_form, bundle_form, take_form, receipt_form, settled_form, export_form, checkpoint_form, sign_form, trim_form, tgive_form, tget_form, command_form};

use crate::Command;
use crate::command_verb::CommandVerb;
use depot_lines::word_readers::{changes, digest, file_name, key, node_count, put_key, value};
use depot_lines::{Keys, LineError, Parts, counted, made};
use std::alloc::Global;

/// `put KEY VALUE`
#[tactic(auto, unfolding(crate::specs::Commands::put_form))]
fn put(alloc: Global, words: &mut Parts<'_>) -> Result<Command, LineError>
    ensures { AnswersReading result (put_form.read nothing words.old) }
{
    counted(words, 2, 2)?;
    let key = put_key(alloc, words)?;
    let value = value(alloc, words)?;
    made(words, Command::Put { key, value })
}

/// `puts WRITES`
#[tactic(auto, unfolding(crate::specs::Commands::puts_form))]
fn puts(alloc: Global, words: &mut Parts<'_>) -> Result<Command, LineError>
    ensures { AnswersReading result (puts_form.read nothing words.old) }
{
    counted(words, 1, 1)?;
    let changes = changes(alloc, words, Keys::Put)?;
    made(words, Command::Puts { changes })
}

/// `get KEY`
#[tactic(auto, unfolding(crate::specs::Commands::get_form))]
fn get(alloc: Global, words: &mut Parts<'_>) -> Result<Command, LineError>
    ensures { AnswersReading result (get_form.read nothing words.old) }
{
    counted(words, 1, 1)?;
    let key = key(alloc, words)?;
    made(words, Command::Get { key })
}

/// `hello FILE`
#[tactic(auto, unfolding(crate::specs::Commands::hello_form))]
fn hello(alloc: Global, words: &mut Parts<'_>) -> Result<Command, LineError>
    ensures { AnswersReading result (hello_form.read nothing words.old) }
{
    counted(words, 1, 1)?;
    let file = file_name(alloc, words)?;
    made(words, Command::Hello { file })
}

/// `bundle HELLO FILE`
#[tactic(auto, unfolding(crate::specs::Commands::bundle_form))]
fn bundle(alloc: Global, words: &mut Parts<'_>) -> Result<Command, LineError>
    ensures { AnswersReading result (bundle_form.read nothing words.old) }
{
    counted(words, 2, 2)?;
    let hello = file_name(alloc, words)?;
    let file = file_name(alloc, words)?;
    made(words, Command::Bundle { hello, file })
}

/// `take FILE`
#[tactic(auto, unfolding(crate::specs::Commands::take_form))]
fn take(alloc: Global, words: &mut Parts<'_>) -> Result<Command, LineError>
    ensures { AnswersReading result (take_form.read nothing words.old) }
{
    counted(words, 1, 1)?;
    let file = file_name(alloc, words)?;
    made(words, Command::Take { file })
}

/// `receipt ID`
#[tactic(auto, unfolding(crate::specs::Commands::receipt_form))]
fn receipt(alloc: Global, words: &mut Parts<'_>) -> Result<Command, LineError>
    ensures { AnswersReading result (receipt_form.read nothing words.old) }
{
    counted(words, 1, 1)?;
    let id = digest(alloc, words)?;
    made(words, Command::Receipt { id })
}

/// `settled ID K`
#[tactic(auto, unfolding(crate::specs::Commands::settled_form))]
fn settled(alloc: Global, words: &mut Parts<'_>) -> Result<Command, LineError>
    ensures { AnswersReading result (settled_form.read nothing words.old) }
{
    counted(words, 2, 2)?;
    let id = digest(alloc, words)?;
    let k = node_count(words)?;
    made(words, Command::Settled { id, k })
}

/// `export FILE`
#[tactic(auto, unfolding(crate::specs::Commands::export_form))]
fn export(alloc: Global, words: &mut Parts<'_>) -> Result<Command, LineError>
    ensures { AnswersReading result (export_form.read nothing words.old) }
{
    counted(words, 1, 1)?;
    let file = file_name(alloc, words)?;
    made(words, Command::Export { file })
}

/// `checkpoint FILE`
#[tactic(auto, unfolding(crate::specs::Commands::checkpoint_form))]
fn checkpoint(alloc: Global, words: &mut Parts<'_>) -> Result<Command, LineError>
    ensures { AnswersReading result (checkpoint_form.read nothing words.old) }
{
    counted(words, 1, 1)?;
    let file = file_name(alloc, words)?;
    made(words, Command::Checkpoint { file })
}

/// `sign FILE`
#[tactic(auto, unfolding(crate::specs::Commands::sign_form))]
fn sign(alloc: Global, words: &mut Parts<'_>) -> Result<Command, LineError>
    ensures { AnswersReading result (sign_form.read nothing words.old) }
{
    counted(words, 1, 1)?;
    let file = file_name(alloc, words)?;
    made(words, Command::Sign { file })
}

/// `trim FILE`
#[tactic(auto, unfolding(crate::specs::Commands::trim_form))]
fn trim(alloc: Global, words: &mut Parts<'_>) -> Result<Command, LineError>
    ensures { AnswersReading result (trim_form.read nothing words.old) }
{
    counted(words, 1, 1)?;
    let file = file_name(alloc, words)?;
    made(words, Command::Trim { file })
}

/// `tgive FILE`
#[tactic(auto, unfolding(crate::specs::Commands::tgive_form))]
fn tgive(alloc: Global, words: &mut Parts<'_>) -> Result<Command, LineError>
    ensures { AnswersReading result (tgive_form.read nothing words.old) }
{
    counted(words, 1, 1)?;
    let file = file_name(alloc, words)?;
    made(words, Command::Tgive { file })
}

/// `tget KEY`
#[tactic(auto, unfolding(crate::specs::Commands::tget_form))]
fn tget(alloc: Global, words: &mut Parts<'_>) -> Result<Command, LineError>
    ensures { AnswersReading result (tget_form.read nothing words.old) }
{
    counted(words, 1, 1)?;
    let key = key(alloc, words)?;
    made(words, Command::Tget { key })
}

/// The command of the words after its name.
pub fn command_of(
    alloc: Global,
    verb: CommandVerb,
    words: &mut Parts<'_>,
) -> Result<Command, LineError>
    ensures { AnswersReading result ((command_form verb).read nothing words.old) }
{
    match verb {
        CommandVerb::Put => put(alloc, words),
        CommandVerb::Puts => puts(alloc, words),
        CommandVerb::Get => get(alloc, words),
        CommandVerb::Hello => hello(alloc, words),
        CommandVerb::Bundle => bundle(alloc, words),
        CommandVerb::Take => take(alloc, words),
        CommandVerb::Receipt => receipt(alloc, words),
        CommandVerb::Settled => settled(alloc, words),
        CommandVerb::Export => export(alloc, words),
        CommandVerb::Checkpoint => checkpoint(alloc, words),
        CommandVerb::Sign => sign(alloc, words),
        CommandVerb::Trim => trim(alloc, words),
        CommandVerb::Tgive => tgive(alloc, words),
        CommandVerb::Tget => tget(alloc, words),
    }
}
