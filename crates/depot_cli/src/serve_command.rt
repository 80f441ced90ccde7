//! `serve ROSTER SEED HEIGHT ID`: a node stays, and requests come over the source.
ghost use Rattle.std.specs.Prelude.{◌≡◌, ◌<◌, ◌⊎◌, Some, None};
ghost use Rattle.depot_outside.specs.Told.{disks, shelves, sinks};
ghost use Rattle.depot_source.specs.Inputs.{inputs};
ghost use Rattle.depot_cli.specs.Runs.{EndsAtFault};
ghost use Rattle.depot_cli.specs.Servers.{BetweenAll, AllResults, ServesRoster};

use crate::files::load;
use crate::invocation::ServerWords;
use crate::judge_command::refused_roster;
use crate::outcome::{CommandOutcome, finish};
use crate::status::Status;
use depot_base::Memory;
use depot_outside::{Disk, Shelf, Sink};
use depot_session::run_server;
use depot_sign::Roster;
use depot_source::Waiting;
use depot_winter::{WinterScheme, WinterSigner};
use std::alloc::Global;

/// Serves the node of the words in a roster, and returns how the run ended.
fn serve_of<D: Disk, I: Waiting, S: Sink>(
    alloc: Global,
    words: &ServerWords,
    roster: Roster,
    disk: &mut D,
    input: &mut I,
    out: &mut S,
) -> Status
    ensures runs { ServesRoster roster words.now (disks D.Disk disk.old disk.new) (inputs I.Source input.old input.new) (sinks S.Sink out.old out.new) (disk.new ≡ disk.old) (input.new ≡ input.old) result }
    ensures sink_fault { S.faults out.old < S.faults out.new → result ≡ Status.Sink }
    ensures disk_fault { D.faults disk.old < D.faults disk.new → (result ≡ Status.Disk) ⊎ ((result ≡ Status.Sink) ⊎ (result ≡ Status.Memory)) }
    ensures source_fault { I.faults input.old < I.faults input.new → result ≡ Status.Source }
{
    let Ok(signer) = WinterSigner::from_seed(alloc, &words.seed, words.height.number()) else {
        return Status::Memory;
    };
    Status::of_server(run_server(
        alloc,
        disk,
        roster,
        WinterScheme,
        signer,
        words.id,
        input,
        out,
    ))
}

/// Serves the node of the words, and returns how the run ended. The roster is loaded and parsed first; the disk and the
/// source are touched after that.
pub fn serve<F: Shelf, D: Disk, I: Waiting, S: Sink>(
    alloc: Global,
    words: &ServerWords,
    shelf: &mut F,
    disk: &mut D,
    input: &mut I,
    out: &mut S,
) -> Status
    ensures results { BetweenAll (AllResults (Some words.now) None) F.Shelf shelf.old shelf.new D.Disk disk.old disk.new I.Source input.old input.new S.Sink out.old out.new result }
    ensures first_fault { (result ≡ Status.Sink) ⊎ ((result ≡ Status.Memory) ⊎ EndsAtFault (shelves F.Shelf shelf.old shelf.new) result) }
    ensures sink_fault { S.faults out.old < S.faults out.new → result ≡ Status.Sink }
    ensures disk_fault { D.faults disk.old < D.faults disk.new → (result ≡ Status.Disk) ⊎ ((result ≡ Status.Sink) ⊎ (result ≡ Status.Memory)) }
    ensures source_fault { I.faults input.old < I.faults input.new → result ≡ Status.Source }
{
    let text = match load(shelf, words.roster.text()) {
        Ok(Some(text)) => text,
        Ok(None) => return finish(CommandOutcome::no_file(alloc, words.roster.text()), out),
        Err(Memory) => return Status::Memory,
    };
    match Roster::parse(alloc, text.as_slice()) {
        Ok(roster) => serve_of(alloc, words, roster, disk, input, out),
        Err(error) => finish(refused_roster(alloc, words.roster.text(), error), out),
    }
}
