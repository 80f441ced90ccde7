//! The top call.
ghost use Rattle.std.specs.Prelude.{◌≡◌, ◌<◌, ◌⊎◌, Some};
ghost use Rattle.depot_cli.specs.Words.{command_of, served_words};
ghost use Rattle.depot_outside.specs.Told.{disks, shelves, sinks};
ghost use Rattle.depot_cli.specs.Nodes.{Between, NodeCompletes, Results};
ghost use Rattle.depot_cli.specs.Runs.{EndsAtFault, IsWell, CommandCompletes};
ghost use Rattle.depot_cli.specs.Servers.{AllResults, BetweenAll, CompletesOffline, ServeCompletes};
ghost use Rattle.depot_source.specs.Inputs.{inputs};

use crate::audit_command::audit;
use crate::invocation::{Invocation, parse, parse_served};
use crate::judge_command::judge;
use crate::key_command::key;
use crate::load_command::summed_up;
use crate::node_command::node;
use crate::outcome::{CommandOutcome, finish};
use crate::replay_command::replay;
use crate::scan_command::scan;
use crate::serve_command::serve;
use crate::status::Status;
use crate::word::Word;
use depot_base::Memory;
use depot_outside::{Disk, Shelf, Sink};
use depot_source::Waiting;
use std::alloc::Global;

/// Does what a command asks for, and says how the run ended.
fn run<F: Shelf, D: Disk, S: Sink>(
    alloc: Global,
    command: &Invocation,
    shelf: &mut F,
    disk: &mut D,
    out: &mut S,
) -> Status
    ensures results { Between (Results (Some command.now)) F.Shelf shelf.old shelf.new D.Disk disk.old disk.new S.Sink out.old out.new result }
    ensures first_fault { (result ≡ Status.Sink) ⊎ ((result ≡ Status.Memory) ⊎ EndsAtFault (shelves F.Shelf shelf.old shelf.new) result) }
    ensures sink_fault { S.faults out.old < S.faults out.new → result ≡ Status.Sink }
    ensures disk_fault { D.faults disk.old < D.faults disk.new → (result ≡ Status.Disk) ⊎ ((result ≡ Status.Sink) ⊎ (result ≡ Status.Memory)) }
{
    match command {
        Invocation::Scan(log, key) => finish(scan(alloc, shelf, log.text(), key), out),
        Invocation::Key(seed, height) => finish(key(alloc, seed, *height), out),
        Invocation::Judge(roster, proof) => finish(
            judge(alloc, shelf, roster.text(), proof.text()),
            out,
        ),
        Invocation::Replay(schedule) => replay(alloc, shelf, schedule.text(), out),
        Invocation::Load(number) => finish(summed_up(alloc, *number), out),
        Invocation::Node(words) => node(alloc, words, shelf, disk, out),
        Invocation::Audit(roster, traces) => {
            finish(audit(alloc, shelf, roster.text(), traces), out)
        }
    }
}

/// Does what words ask for that aren't `serve`: any other command, or none.
fn offline<F: Shelf, D: Disk, S: Sink>(
    alloc: Global,
    words: &[Word],
    shelf: &mut F,
    disk: &mut D,
    out: &mut S,
) -> Status
    ensures results { Between (Results (command_of words.now)) F.Shelf shelf.old shelf.new D.Disk disk.old disk.new S.Sink out.old out.new result }
    ensures complete { IsWell (shelves F.Shelf shelf.old shelf.new) (sinks S.Sink out.old out.new) → CommandCompletes (shelves F.Shelf shelf.old shelf.new) (command_of words.now) result }
    ensures complete_node { NodeCompletes (disks D.Disk disk.old disk.new) (shelves F.Shelf shelf.old shelf.new) (sinks S.Sink out.old out.new) (command_of words.now) result }
    ensures first_fault { (result ≡ Status.Sink) ⊎ ((result ≡ Status.Memory) ⊎ EndsAtFault (shelves F.Shelf shelf.old shelf.new) result) }
    ensures sink_fault { S.faults out.old < S.faults out.new → result ≡ Status.Sink }
    ensures disk_fault { D.faults disk.old < D.faults disk.new → (result ≡ Status.Disk) ⊎ ((result ≡ Status.Sink) ⊎ (result ≡ Status.Memory)) }
{
    match parse(alloc, words) {
        Ok(Some(command)) => run(alloc, &command, shelf, disk, out),
        Ok(None) => finish(CommandOutcome::words(alloc), out),
        Err(Memory) => Status::Memory,
    }
}

/// Runs the program: does what the words ask for, writes its text to `out`, and returns how the run ended. The first
/// fault ends the run.
///
/// The commands are `scan LOG KEY`, `key SEED HEIGHT`, `judge ROSTER PROOF`, `replay SCHEDULE`, `load NUMBER`, `node
/// ROSTER SEED HEIGHT ID SCRIPT`, `audit ROSTER TRACE..` and `serve ROSTER SEED HEIGHT ID`; other words are refused as
/// Words. `docs/FORMATS.md` has each text that is printed, and `docs/PROMISES.md` explains the clauses.
pub fn depot<F: Shelf, D: Disk, I: Waiting, S: Sink>(
    alloc: Global,
    words: &[Word],
    shelf: &mut F,
    disk: &mut D,
    input: &mut I,
    out: &mut S,
) -> Status
    // The run ends as its command answers, with the whole text written; or on `Memory`, with nothing written, or with a
    // prefix of the transcript that `replay` writes, and with no more loaded than the first of the files that its words
    // name, further ones only after a roster; or because the sink failed in this run, with a prefix of the text
    // written. `node` runs its script over the disk, as its record says: images, lines and journal, what the shelf is
    // asked for, runs cut short. `serve` serves its node over disk, source and sink, as its record says: images,
    // requests, replies and journal, runs cut short; of the shelf it loads its roster alone. Every other command leaves
    // the disk and the shelf's files as they were, and stores nothing; each but `serve` leaves the source as it was.
    ensures results { BetweenAll (AllResults (served_words words.now) (command_of words.now)) F.Shelf shelf.old shelf.new D.Disk disk.old disk.new I.Source input.old input.new S.Sink out.old out.new result }

    // If no count of faults rises, each file is there and each is in its grammar, the command does what it says, and
    // `serve` does if the input is requests.
    ensures complete { IsWell (shelves F.Shelf shelf.old shelf.new) (sinks S.Sink out.old out.new) → CompletesOffline (served_words words.now) (shelves F.Shelf shelf.old shelf.new) (command_of words.now) result }
    ensures complete_node { NodeCompletes (disks D.Disk disk.old disk.new) (shelves F.Shelf shelf.old shelf.new) (sinks S.Sink out.old out.new) (command_of words.now) result }
    ensures complete_serve { ServeCompletes (disks D.Disk disk.old disk.new) (shelves F.Shelf shelf.old shelf.new) (inputs I.Source input.old input.new) (sinks S.Sink out.old out.new) (served_words words.now) result }

    // Where the shelf failed, nothing else is answered.
    ensures first_fault { (result ≡ Status.Sink) ⊎ ((result ≡ Status.Memory) ⊎ EndsAtFault (shelves F.Shelf shelf.old shelf.new) result) }

    // If the sink failed, only Sink is answered; if the source failed, only Source; if the disk failed, only Disk, Sink
    // or Memory.
    ensures sink_fault { S.faults out.old < S.faults out.new → result ≡ Status.Sink }
    ensures source_fault { I.faults input.old < I.faults input.new → result ≡ Status.Source }
    ensures disk_fault { D.faults disk.old < D.faults disk.new → (result ≡ Status.Disk) ⊎ ((result ≡ Status.Sink) ⊎ (result ≡ Status.Memory)) }
{
    match parse_served(alloc, words) {
        Ok(Some(served)) => serve(alloc, &served, shelf, disk, input, out),
        Ok(None) => offline(alloc, words, shelf, disk, out),
        Err(Memory) => Status::Memory,
    }
}
