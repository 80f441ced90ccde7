//! `node ROSTER SEED HEIGHT ID SCRIPT`: runs a script on a node over the disk.
ghost use Rattle.std.specs.Prelude.{◌≡◌, ◌<◌, ◌⊎◌, Some};
ghost use Rattle.depot_outside.specs.Told.{shelves};
ghost use Rattle.depot_cli.specs.Nodes.{Between, Results, RunsBytes, RunsFile};
ghost use Rattle.depot_cli.specs.Runs.{EndsAtFault};

use crate::files::load;
use crate::invocation::{Invocation, NodeWords};
use crate::judge_command::refused_roster;
use crate::outcome::{CommandOutcome, finish};
use crate::status::Status;
use depot_base::Memory;
use depot_lines::TextError;
use depot_outside::{Disk, Shelf, Sink};
use depot_script::parse_script;
use depot_session::run;
use depot_sign::Roster;
use depot_winter::{WinterScheme, WinterSigner};
use std::alloc::Global;

/// Runs the script of these bytes on a node of a roster, or prints that they are none, and returns how the run ended.
fn run_bytes<F: Shelf, D: Disk, S: Sink>(
    alloc: Global,
    words: &NodeWords,
    roster: Roster,
    bytes: &[u8],
    shelf: &mut F,
    disk: &mut D,
    out: &mut S,
) -> Status
    ensures runs { Between (RunsBytes roster words.now bytes.now) F.Shelf shelf.old shelf.new D.Disk disk.old disk.new S.Sink out.old out.new result }
    ensures first_fault { (result ≡ Status.Sink) ⊎ ((result ≡ Status.Memory) ⊎ EndsAtFault (shelves F.Shelf shelf.old shelf.new) result) }
    ensures sink_fault { S.faults out.old < S.faults out.new → result ≡ Status.Sink }
    ensures disk_fault { D.faults disk.old < D.faults disk.new → (result ≡ Status.Disk) ⊎ ((result ≡ Status.Sink) ⊎ (result ≡ Status.Memory)) }
{
    let script = match parse_script(alloc, bytes) {
        Ok(script) => script,
        Err(TextError::Memory) => return Status::Memory,
        Err(TextError::Line(number, fault)) => {
            let told = CommandOutcome::faulty_line(alloc, words.script.text(), number, fault);
            return finish(told, out);
        }
    };
    let Ok(signer) = WinterSigner::from_seed(alloc, &words.seed, words.height.number()) else {
        return Status::Memory;
    };
    Status::of(run(
        alloc,
        disk,
        roster,
        WinterScheme,
        signer,
        words.id,
        &script,
        shelf,
        out,
    ))
}

/// Runs the script of the words on a node of a roster, and returns how the run ended.
fn run_file<F: Shelf, D: Disk, S: Sink>(
    alloc: Global,
    words: &NodeWords,
    roster: Roster,
    shelf: &mut F,
    disk: &mut D,
    out: &mut S,
) -> Status
    ensures runs { Between (RunsFile roster words.now) F.Shelf shelf.old shelf.new D.Disk disk.old disk.new S.Sink out.old out.new result }
    ensures first_fault { (result ≡ Status.Sink) ⊎ ((result ≡ Status.Memory) ⊎ EndsAtFault (shelves F.Shelf shelf.old shelf.new) result) }
    ensures sink_fault { S.faults out.old < S.faults out.new → result ≡ Status.Sink }
    ensures disk_fault { D.faults disk.old < D.faults disk.new → (result ≡ Status.Disk) ⊎ ((result ≡ Status.Sink) ⊎ (result ≡ Status.Memory)) }
{
    match load(shelf, words.script.text()) {
        Ok(Some(bytes)) => run_bytes(alloc, words, roster, bytes.as_slice(), shelf, disk, out),
        Ok(None) => finish(CommandOutcome::no_file(alloc, words.script.text()), out),
        Err(Memory) => Status::Memory,
    }
}

/// Runs the node of the words, and returns how the run ended. The roster is loaded and parsed first, then the script;
/// the disk is touched after that.
pub fn node<F: Shelf, D: Disk, S: Sink>(
    alloc: Global,
    words: &NodeWords,
    shelf: &mut F,
    disk: &mut D,
    out: &mut S,
) -> Status
    ensures results { Between (Results (Some (Invocation.Node words.now))) F.Shelf shelf.old shelf.new D.Disk disk.old disk.new S.Sink out.old out.new result }
    ensures first_fault { (result ≡ Status.Sink) ⊎ ((result ≡ Status.Memory) ⊎ EndsAtFault (shelves F.Shelf shelf.old shelf.new) result) }
    ensures sink_fault { S.faults out.old < S.faults out.new → result ≡ Status.Sink }
    ensures disk_fault { D.faults disk.old < D.faults disk.new → (result ≡ Status.Disk) ⊎ ((result ≡ Status.Sink) ⊎ (result ≡ Status.Memory)) }
{
    let text = match load(shelf, words.roster.text()) {
        Ok(Some(text)) => text,
        Ok(None) => return finish(CommandOutcome::no_file(alloc, words.roster.text()), out),
        Err(Memory) => return Status::Memory,
    };
    match Roster::parse(alloc, text.as_slice()) {
        Ok(roster) => run_file(alloc, words, roster, shelf, disk, out),
        Err(error) => finish(refused_roster(alloc, words.roster.text(), error), out),
    }
}
