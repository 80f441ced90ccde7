//! What a command asks of readers, and how the reply is reported.
ghost use Rattle.std.specs.Prelude.{◌≡◌, ◌++◌, OnOk, Some, is_some};
ghost use Rattle.depot_outside.specs.Told.{shelves, sinks};
ghost use Rattle.depot_service.specs.ReaderCalls.{IsSomebodys};
ghost use Rattle.depot_session.specs.Sessions.{AsksOfReaders, loads_of};
ghost use Rattle.depot_session.specs.Sessions as sessions;
ghost use Rattle.depot_session.specs.ScriptTelling.{TellsShelf};
ghost use Rattle.depot_session.specs.Turns.{IsRunning, Keeps, KeepsLast, KeepsLastAsked, TurnsReading, TurnsReadingAsked};

use crate::ending::ScriptEnding;
use crate::requesting::{reader_file, reader_request_alone, reader_request_with};
use crate::telling::{load, no_file, tell};
use depot_lines::FileName;
use depot_model::Scheme;
use depot_outside::{Shelf, Sink};
use depot_queries::LocalNode;
use depot_requests::{ReaderReply, ReaderRequest, Reason, print_reader};
use depot_script::Command;
use depot_service::{LastReader, serve_reader};
use std::alloc::Global;

/// How a reader's reply ends the run.
fn ending_of_reader_reply(reply: &ReaderReply) -> Option<ScriptEnding>
    ensures { result ≡ sessions.ending_of_reader_reply reply.now }
{
    match reply {
        ReaderReply::Refused(Reason::IllFormed(_)) => Some(ScriptEnding::Input),
        ReaderReply::Refused(Reason::OtherRoster(_)) => Some(ScriptEnding::Identity),
        ReaderReply::Took { full: Some(_), .. } => Some(ScriptEnding::Limit),
        _ => None,
    }
}

/// Asks this of readers, and prints the reply.
fn ask<S: Scheme + Copy, R: LocalNode<Of = S>, K: Sink>(
    alloc: Global,
    node: &R,
    command: &Command,
    request: &ReaderRequest,
    last: &mut LastReader<'_, S>,
    out: &mut K,
) -> Result<(), ScriptEnding>
    requires running { IsRunning R.NodeState node.now }
    requires reader { IsSomebodys S.verifies last.old.made }
    requires roster { last.old.roster.now ≡ (R.stands node.now).listed }
    ensures keeps { Keeps R.NodeState node.now node.now (sinks K.Sink out.old out.new) result }
    ensures turns { TurnsReadingAsked S.verifies last.old.made R.NodeState node.now node.now command.now request.now (sinks K.Sink out.old out.new) result }
    ensures same { K.tells out.new ≡ K.tells out.old }
    ensures reader { OnOk result (KeepsLastAsked S.verifies R.NodeState node.now command.now request.now last.old.made last.new.made) }
    ensures somebodys { OnOk result (IsSomebodys S.verifies last.new.made) }
    ensures means { (last.new.roster.now ≡ last.old.roster.now) × (last.new.scheme ≡ last.old.scheme) }
{
    let reply = serve_reader(alloc, node, last, request)?;
    let ends = ending_of_reader_reply(&reply);
    let line = print_reader(alloc, reply)?;
    tell(alloc, command, &line, ends, out)
}

/// Carries out a command that asks something of readers, given the bytes of a file.
fn ask_with_file<S: Scheme + Copy, R: LocalNode<Of = S>, F: Shelf, K: Sink>(
    alloc: Global,
    node: &R,
    command: &Command,
    file: &FileName,
    last: &mut LastReader<'_, S>,
    shelf: &mut F,
    out: &mut K,
) -> Result<(), ScriptEnding>
    requires command { sessions.reader_file (is_some last.old.made) command.now ≡ Some file.now }
    requires running { IsRunning R.NodeState node.now }
    requires reader { IsSomebodys S.verifies last.old.made }
    requires roster { last.old.roster.now ≡ (R.stands node.now).listed }
    ensures keeps { Keeps R.NodeState node.now node.now (sinks K.Sink out.old out.new) result }
    ensures turns { TurnsReading S.verifies last.old.made R.NodeState node.now node.now command.now (shelves F.Shelf shelf.old shelf.new) (sinks K.Sink out.old out.new) result }
    ensures same { K.tells out.new ≡ K.tells out.old }
    ensures reader { OnOk result (KeepsLast S.verifies R.NodeState node.now command.now (shelves F.Shelf shelf.old shelf.new) last.old.made last.new.made) }
    ensures somebodys { OnOk result (IsSomebodys S.verifies last.new.made) }
    ensures means { (last.new.roster.now ≡ last.old.roster.now) × (last.new.scheme ≡ last.old.scheme) }
    ensures loads { F.loads shelf.new ≡ F.loads shelf.old ++ loads_of (is_some last.old.made) command.now }
    ensures stores { F.stores shelf.new ≡ F.stores shelf.old }
    ensures same_shelf { F.tells shelf.new ≡ F.tells shelf.old }
    ensures shelf { TellsShelf (F.faults shelf.old) (F.faults shelf.new) (F.failed shelf.old) (F.failed shelf.new) result }
{
    let Some(bytes) = load(shelf, file)? else {
        return Err(no_file(alloc, file, out));
    };
    let request = reader_request_with(command, bytes);
    ask(alloc, node, command, &request, last, out)
}

/// Carries out a command that asks something of readers: of the node, to make one, or of the last one that was made.
/// If none was made, no stream is loaded.
pub fn ask_readers<S: Scheme + Copy, R: LocalNode<Of = S>, F: Shelf, K: Sink>(
    alloc: Global,
    node: &R,
    command: &Command,
    last: &mut LastReader<'_, S>,
    shelf: &mut F,
    out: &mut K,
) -> Result<(), ScriptEnding>
    requires asks { AsksOfReaders command.now }
    requires running { IsRunning R.NodeState node.now }
    requires reader { IsSomebodys S.verifies last.old.made }
    requires roster { last.old.roster.now ≡ (R.stands node.now).listed }
    ensures keeps { Keeps R.NodeState node.now node.now (sinks K.Sink out.old out.new) result }
    ensures turns { TurnsReading S.verifies last.old.made R.NodeState node.now node.now command.now (shelves F.Shelf shelf.old shelf.new) (sinks K.Sink out.old out.new) result }
    ensures same { K.tells out.new ≡ K.tells out.old }
    ensures reader { OnOk result (KeepsLast S.verifies R.NodeState node.now command.now (shelves F.Shelf shelf.old shelf.new) last.old.made last.new.made) }
    ensures somebodys { OnOk result (IsSomebodys S.verifies last.new.made) }
    ensures means { (last.new.roster.now ≡ last.old.roster.now) × (last.new.scheme ≡ last.old.scheme) }
    ensures loads { F.loads shelf.new ≡ F.loads shelf.old ++ loads_of (is_some last.old.made) command.now }
    ensures stores { F.stores shelf.new ≡ F.stores shelf.old }
    ensures same_shelf { F.tells shelf.new ≡ F.tells shelf.old }
    ensures shelf { TellsShelf (F.faults shelf.old) (F.faults shelf.new) (F.failed shelf.old) (F.failed shelf.new) result }
{
    match reader_file(command, last.made.is_some()) {
        Some(file) => ask_with_file(alloc, node, command, file, last, shelf, out),
        None => {
            let request = reader_request_alone(alloc, command)?;
            ask(alloc, node, command, &request, last, out)
        }
    }
}
