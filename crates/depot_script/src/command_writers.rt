//! Writes the words after the name of a command: one function a line of the table.
ghost use Rattle.std.specs.Prelude.{◌≡◌, OnOk};
ghost use Rattle.depot_lines.specs.LineReading.{with_words};
ghost use Rattle.depot_script.specs.Commands.{behind_command_name};

use crate::Command;
use depot_base::{Change, Hash32, Key, Memory, Value};
use depot_lines::{FileName, LineWriter};

/// `put KEY VALUE`
#[tactic(auto, unfolding(crate::specs::Commands::put_form))]
fn put(out: &mut LineWriter, key: &Key, value: &Value) -> Result<(), Memory>
    ensures { OnOk result (out.new ≡ with_words out.old (behind_command_name (Command.Put key.now value.now))) }
{
    out.key_and_value(key, value)
}

/// `puts WRITES`
#[tactic(auto, unfolding(crate::specs::Commands::puts_form))]
fn puts(out: &mut LineWriter, changes: &[Change]) -> Result<(), Memory>
    ensures { OnOk result (out.new ≡ with_words out.old (behind_command_name (Command.Puts changes.now))) }
{
    out.changes(changes)
}

/// `get KEY`
#[tactic(auto, unfolding(crate::specs::Commands::get_form))]
fn get(out: &mut LineWriter, key: &Key) -> Result<(), Memory>
    ensures { OnOk result (out.new ≡ with_words out.old (behind_command_name (Command.Get key.now))) }
{
    out.hex(key.bytes())
}

/// `hello FILE`
#[tactic(auto, unfolding(crate::specs::Commands::hello_form))]
fn hello(out: &mut LineWriter, file: &FileName) -> Result<(), Memory>
    ensures { OnOk result (out.new ≡ with_words out.old (behind_command_name (Command.Hello file.now))) }
{
    out.file_name(file)
}

/// `bundle HELLO FILE`
#[tactic(auto, unfolding(crate::specs::Commands::bundle_form))]
fn bundle(out: &mut LineWriter, hello: &FileName, file: &FileName) -> Result<(), Memory>
    ensures { OnOk result (out.new ≡ with_words out.old (behind_command_name (Command.Bundle hello.now file.now))) }
{
    out.file_name(hello)?;
    out.file_name(file)
}

/// `take FILE`
#[tactic(auto, unfolding(crate::specs::Commands::take_form))]
fn take(out: &mut LineWriter, file: &FileName) -> Result<(), Memory>
    ensures { OnOk result (out.new ≡ with_words out.old (behind_command_name (Command.Take file.now))) }
{
    out.file_name(file)
}

/// `receipt ID`
#[tactic(auto, unfolding(crate::specs::Commands::receipt_form))]
fn receipt(out: &mut LineWriter, id: &Hash32) -> Result<(), Memory>
    ensures { OnOk result (out.new ≡ with_words out.old (behind_command_name (Command.Receipt id.now))) }
{
    out.hex(id.bytes())
}

/// `settled ID K`
#[tactic(auto, unfolding(crate::specs::Commands::settled_form))]
fn settled(out: &mut LineWriter, id: &Hash32, k: u32) -> Result<(), Memory>
    ensures { OnOk result (out.new ≡ with_words out.old (behind_command_name (Command.Settled id.now k))) }
{
    out.hex(id.bytes())?;
    out.number(k as u64)
}

/// `export FILE`
#[tactic(auto, unfolding(crate::specs::Commands::export_form))]
fn export(out: &mut LineWriter, file: &FileName) -> Result<(), Memory>
    ensures { OnOk result (out.new ≡ with_words out.old (behind_command_name (Command.Export file.now))) }
{
    out.file_name(file)
}

/// `checkpoint FILE`
#[tactic(auto, unfolding(crate::specs::Commands::checkpoint_form))]
fn checkpoint(out: &mut LineWriter, file: &FileName) -> Result<(), Memory>
    ensures { OnOk result (out.new ≡ with_words out.old (behind_command_name (Command.Checkpoint file.now))) }
{
    out.file_name(file)
}

/// `sign FILE`
#[tactic(auto, unfolding(crate::specs::Commands::sign_form))]
fn sign(out: &mut LineWriter, file: &FileName) -> Result<(), Memory>
    ensures { OnOk result (out.new ≡ with_words out.old (behind_command_name (Command.Sign file.now))) }
{
    out.file_name(file)
}

/// `trim FILE`
#[tactic(auto, unfolding(crate::specs::Commands::trim_form))]
fn trim(out: &mut LineWriter, file: &FileName) -> Result<(), Memory>
    ensures { OnOk result (out.new ≡ with_words out.old (behind_command_name (Command.Trim file.now))) }
{
    out.file_name(file)
}

/// `tgive FILE`
#[tactic(auto, unfolding(crate::specs::Commands::tgive_form))]
fn tgive(out: &mut LineWriter, file: &FileName) -> Result<(), Memory>
    ensures { OnOk result (out.new ≡ with_words out.old (behind_command_name (Command.Tgive file.now))) }
{
    out.file_name(file)
}

/// `tget KEY`
#[tactic(auto, unfolding(crate::specs::Commands::tget_form))]
fn tget(out: &mut LineWriter, key: &Key) -> Result<(), Memory>
    ensures { OnOk result (out.new ≡ with_words out.old (behind_command_name (Command.Tget key.now))) }
{
    out.hex(key.bytes())
}

/// The words after the name of a command.
pub fn words_of_command(out: &mut LineWriter, command: &Command) -> Result<(), Memory>
    ensures { OnOk result (out.new ≡ with_words out.old (behind_command_name command.now)) }
{
    match command {
        Command::Put { key, value } => put(out, key, value),
        Command::Puts { changes } => puts(out, changes.as_slice()),
        Command::Get { key } => get(out, key),
        Command::Hello { file } => hello(out, file),
        Command::Bundle { hello, file } => bundle(out, hello, file),
        Command::Take { file } => take(out, file),
        Command::Receipt { id } => receipt(out, id),
        Command::Settled { id, k } => settled(out, id, *k),
        Command::Export { file } => export(out, file),
        Command::Checkpoint { file } => checkpoint(out, file),
        Command::Sign { file } => sign(out, file),
        Command::Trim { file } => trim(out, file),
        Command::Tgive { file } => tgive(out, file),
        Command::Tget { key } => tget(out, key),
    }
}
