//! What a command asks the node, and how the reply is reported.
ghost use Rattle.std.specs.Prelude.{◌≡◌, ◌<◌, ◌≤◌, ◌++◌, Bool, [], ◌∷◌, IfSome, IsErrOf, None, OnOk, Some, option_copied};
ghost use Rattle.depot_outside.specs.Told.{shelves, sinks};
ghost use Rattle.depot_requests.specs.Replies.{bytes_of_reply};
ghost use Rattle.depot_requests.specs.Requests.{IsRequest};
ghost use Rattle.depot_script.specs.Scripts.{FitsCommand};
ghost use Rattle.depot_session.specs.KeptReads.{KeepsReads};
ghost use Rattle.depot_session.specs.ReplyTelling.{TellsReply};
ghost use Rattle.depot_session.specs.ScriptTelling.{StoresUnder, TellsShelf};
ghost use Rattle.depot_session.specs.Sessions.{AsksTheNode, handed_over, loads_of, name_stored, names_after};
ghost use Rattle.depot_session.specs.Sessions as sessions;
ghost use Rattle.depot_session.specs.Turns.{EndsUnstored, IsRunning, Keeps, StoresAsked, StoresAt, TurnsAsked, TurnsOn, UnstoredAsked};

use crate::ending::ScriptEnding;
use crate::kept_reads::keep_read;
use crate::requesting::{file_asked, request_alone, request_with};
use crate::telling::{disk_failed, load, no_file, store_and_tell, tell};
use depot_answers::Closing;
use depot_lines::FileName;
use depot_outside::{Shelf, Sink};
use depot_queries::LocalNode;
use depot_requests::{Halt, Reason, Reply, Request, print};
use depot_script::Command;
use depot_service::serve;
use depot_traces::Reads;
use std::alloc::Global;

/// How a reply ends the run.
fn ending_of_reply(reply: &Reply) -> Option<ScriptEnding>
    ensures { result ≡ sessions.ending_of_reply reply.now }
{
    match reply {
        Reply::Refused(Reason::Limit(_)) => Some(ScriptEnding::Limit),
        Reply::Refused(Reason::IllFormed(_)) => Some(ScriptEnding::Input),
        Reply::Refused(Reason::OtherRoster(_)) => Some(ScriptEnding::Identity),
        Reply::Stream { closing, .. } => ending_of_closing(closing),
        _ => None,
    }
}

/// How a stream whose feed was closed for this reason, if any, ends the run.
fn ending_of_closing(closing: &Option<Closing>) -> Option<ScriptEnding>
    ensures { result ≡ sessions.ending_of_closing closing.now }
{
    match closing {
        None => None,
        Some(Closing::IllFormed(_)) => Some(ScriptEnding::Input),
        Some(Closing::Full(_)) => Some(ScriptEnding::Limit),
    }
}

/// The name under which a command stores what is handed out to it, if any.
fn name_stored(command: &Command) -> Option<&FileName>
    ensures { option_copied result ≡ name_stored command.now }
{
    match command {
        Command::Hello { file }
        | Command::Bundle { file, .. }
        | Command::Export { file }
        | Command::Checkpoint { file } => Some(file),
        _ => None,
    }
}

/// The name under which what a reply hands out is stored, if it hands something out.
fn name_for<'c>(command: &'c Command, reply: &Reply) -> Option<&'c FileName>
    ensures some { IfSome result (λ file. (name_stored command.now ≡ Some file.now) × (handed_over reply.now ≡ Some (bytes_of_reply reply.now))) }
    ensures none { result ≡ None → names_after (handed_over reply.now) (name_stored command.now) ≡ [] }
{
    match reply {
        Reply::Hello { .. } | Reply::Bundle { .. } | Reply::Checkpoint { .. } => {
            name_stored(command)
        }
        _ => None,
    }
}

/// Stores what a reply to a command hands out, if anything, and prints its lines.
fn tell_reply<F: Shelf, K: Sink>(
    alloc: Global,
    command: &Command,
    reply: Reply,
    shelf: &mut F,
    out: &mut K,
) -> Result<(), ScriptEnding>
    ensures tells { TellsReply (shelves F.Shelf shelf.old shelf.new) (sinks K.Sink out.old out.new) command.now reply result }
    ensures loads { F.loads shelf.new ≡ F.loads shelf.old }
    ensures stores { StoresUnder (F.stores shelf.old) (F.stores shelf.new) (names_after (handed_over reply) (name_stored command.now)) result }
    ensures unstored { IfSome (sessions.ending_of_reply reply) (λ _. F.stores shelf.new ≡ F.stores shelf.old) }
    ensures same_shelf { F.tells shelf.new ≡ F.tells shelf.old }
    ensures shelf { TellsShelf (F.faults shelf.old) (F.faults shelf.new) (F.failed shelf.old) (F.failed shelf.new) result }
    ensures same { K.tells out.new ≡ K.tells out.old }
    ensures later { K.faults out.old ≤ K.faults out.new }
    ensures only { K.faults out.old < K.faults out.new → IsErrOf result ScriptEnding.Sink }
{
    let ends = ending_of_reply(&reply);
    let file = name_for(command, &reply);
    let printed = print(alloc, reply)?;
    match file {
        Some(file) => {
            store_and_tell(
                alloc,
                command,
                &printed.lines,
                file,
                &printed.bytes,
                shelf,
                out,
            )
        }
        None => tell(alloc, command, &printed.lines, ends, out),
    }
}

/// Asks the node for what a command asks for, stores what it hands out, and prints the reply.
fn ask<R: LocalNode, F: Shelf, K: Sink>(
    alloc: Global,
    node: &mut R,
    command: &Command,
    request: Request,
    shelf: &mut F,
    out: &mut K,
) -> Result<(), ScriptEnding>
    requires request { IsRequest request }
    requires running { IsRunning R.NodeState node.old }
    ensures keeps { Keeps R.NodeState node.old node.new (sinks K.Sink out.old out.new) result }
    ensures turns { TurnsAsked R.NodeState node.old node.new command.now request (shelves F.Shelf shelf.old shelf.new) (sinks K.Sink out.old out.new) result }
    ensures same { K.tells out.new ≡ K.tells out.old }
    ensures loads { F.loads shelf.new ≡ F.loads shelf.old }
    ensures stores { StoresAsked R.NodeState node.old command.now request (shelves F.Shelf shelf.old shelf.new) (F.stores shelf.old) (F.stores shelf.new) result }
    ensures unstored { UnstoredAsked R.NodeState node.old command.now request (shelves F.Shelf shelf.old shelf.new) (F.stores shelf.old) (F.stores shelf.new) }
    ensures same_shelf { F.tells shelf.new ≡ F.tells shelf.old }
    ensures shelf { TellsShelf (F.faults shelf.old) (F.faults shelf.new) (F.failed shelf.old) (F.failed shelf.new) result }
{
    match serve(alloc, node, request) {
        Ok(reply) => tell_reply(alloc, command, reply, shelf, out),
        Err(Halt::Memory) => Err(ScriptEnding::Memory),
        Err(Halt::Disk) => Err(disk_failed(out)),
        Err(Halt::Stopped) => unreachable!(),
    }
}

/// Carries out a command that asks the node with no file.
fn ask_alone<R: LocalNode, F: Shelf, K: Sink>(
    alloc: Global,
    node: &mut R,
    command: &Command,
    shelf: &mut F,
    out: &mut K,
) -> Result<(), ScriptEnding>
    requires asks { AsksTheNode command.now }
    requires alone { sessions.file_asked command.now ≡ None }
    requires fits { FitsCommand command.now }
    requires running { IsRunning R.NodeState node.old }
    ensures keeps { Keeps R.NodeState node.old node.new (sinks K.Sink out.old out.new) result }
    ensures turns { TurnsOn R.NodeState node.old node.new command.now (shelves F.Shelf shelf.old shelf.new) (sinks K.Sink out.old out.new) result }
    ensures same { K.tells out.new ≡ K.tells out.old }
    ensures loads { F.loads shelf.new ≡ F.loads shelf.old }
    ensures stores { StoresAt R.NodeState node.old command.now (shelves F.Shelf shelf.old shelf.new) (F.stores shelf.old) (F.stores shelf.new) result }
    ensures unstored { EndsUnstored R.NodeState node.old command.now (shelves F.Shelf shelf.old shelf.new) (F.stores shelf.old) (F.stores shelf.new) }
    ensures same_shelf { F.tells shelf.new ≡ F.tells shelf.old }
    ensures shelf { TellsShelf (F.faults shelf.old) (F.faults shelf.new) (F.failed shelf.old) (F.failed shelf.new) result }
{
    let request = request_alone(alloc, command)?;
    ask(alloc, node, command, request, shelf, out)
}

/// Carries out a command that asks the node, given the bytes of a file.
fn ask_with_file<R: LocalNode, F: Shelf, K: Sink>(
    alloc: Global,
    node: &mut R,
    command: &Command,
    file: &FileName,
    shelf: &mut F,
    out: &mut K,
) -> Result<(), ScriptEnding>
    requires command { sessions.file_asked command.now ≡ Some file.now }
    requires running { IsRunning R.NodeState node.old }
    ensures keeps { Keeps R.NodeState node.old node.new (sinks K.Sink out.old out.new) result }
    ensures turns { TurnsOn R.NodeState node.old node.new command.now (shelves F.Shelf shelf.old shelf.new) (sinks K.Sink out.old out.new) result }
    ensures same { K.tells out.new ≡ K.tells out.old }
    ensures loads { F.loads shelf.new ≡ F.loads shelf.old ++ file.now ∷ [] }
    ensures stores { StoresAt R.NodeState node.old command.now (shelves F.Shelf shelf.old shelf.new) (F.stores shelf.old) (F.stores shelf.new) result }
    ensures unstored { EndsUnstored R.NodeState node.old command.now (shelves F.Shelf shelf.old shelf.new) (F.stores shelf.old) (F.stores shelf.new) }
    ensures same_shelf { F.tells shelf.new ≡ F.tells shelf.old }
    ensures shelf { TellsShelf (F.faults shelf.old) (F.faults shelf.new) (F.failed shelf.old) (F.failed shelf.new) result }
{
    let Some(bytes) = load(shelf, file)? else {
        return Err(no_file(alloc, file, out));
    };
    ask(
        alloc,
        node,
        command,
        request_with(command, bytes),
        shelf,
        out,
    )
}

/// Carries out a command that asks the node. Keeps the read of one that reads, if reads are kept.
pub fn ask_node<R: LocalNode, F: Shelf, K: Sink>(
    alloc: Global,
    node: &mut R,
    command: &Command,
    reads: &mut Option<Reads>,
    shelf: &mut F,
    out: &mut K,
) -> Result<(), ScriptEnding>
    requires asks { AsksTheNode command.now }
    requires fits { FitsCommand command.now }
    requires running { IsRunning R.NodeState node.old }
    ensures keeps { Keeps R.NodeState node.old node.new (sinks K.Sink out.old out.new) result }
    ensures turns { TurnsOn R.NodeState node.old node.new command.now (shelves F.Shelf shelf.old shelf.new) (sinks K.Sink out.old out.new) result }
    ensures reads { OnOk result (KeepsReads (R.stands node.old) (R.signature_of node.old) (R.records node.old) command.now reads.old reads.new) }
    ensures same { K.tells out.new ≡ K.tells out.old }
    ensures loads { (made : Bool) → F.loads shelf.new ≡ F.loads shelf.old ++ loads_of made command.now }
    ensures stores { StoresAt R.NodeState node.old command.now (shelves F.Shelf shelf.old shelf.new) (F.stores shelf.old) (F.stores shelf.new) result }
    ensures unstored { EndsUnstored R.NodeState node.old command.now (shelves F.Shelf shelf.old shelf.new) (F.stores shelf.old) (F.stores shelf.new) }
    ensures same_shelf { F.tells shelf.new ≡ F.tells shelf.old }
    ensures shelf { TellsShelf (F.faults shelf.old) (F.faults shelf.new) (F.failed shelf.old) (F.failed shelf.new) result }
{
    keep_read(alloc, node, command, reads)?;
    match file_asked(command) {
        None => ask_alone(alloc, node, command, shelf, out),
        Some(file) => ask_with_file(alloc, node, command, file, shelf, out),
    }
}
