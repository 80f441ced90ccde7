//! Carrying out a command.
ghost use Rattle.std.specs.Prelude.{◌≡◌, ◌++◌, IsSome, IsTrue, OnOk, is_some};
ghost use Rattle.depot_base.specs.declared.limits.TheConstants.{MOST_LINES};
ghost use Rattle.depot_outside.specs.Told.{shelves, sinks};
ghost use Rattle.depot_script.specs.Scripts.{FitsCommand};
ghost use Rattle.depot_service.specs.ReaderCalls.{IsSomebodys};
ghost use Rattle.depot_session.specs.KeptReads.{FitWithin, KeepsReads, is_export};
ghost use Rattle.depot_session.specs.Sessions.{loads_of};
ghost use Rattle.depot_session.specs.ScriptTelling.{TellsShelf};
ghost use Rattle.depot_session.specs.Turns.{EndsUnstored, IsRunning, Keeps, KeepsLast, StoresAt, TurnsInRun};

use crate::asking::ask_node;
use crate::ending::ScriptEnding;
use crate::exporting::export;
use crate::kept_reads::kept;
use crate::reader_commands::ask_readers;
use depot_model::Scheme;
use depot_outside::{Shelf, Sink};
use depot_queries::LocalNode;
use depot_script::Command;
use depot_service::LastReader;
use depot_traces::Reads;
use std::alloc::Global;

/// Carries out a command of a script. Returns `Ok` if the run goes on, else how it ends. The reads of the run are kept
/// if they were before; a command that hands in a trace needs them.
pub fn carry_out<S: Scheme + Copy, R: LocalNode<Of = S>, F: Shelf, K: Sink>(
    alloc: Global,
    node: &mut R,
    command: &Command,
    reads: &mut Option<Reads>,
    last: &mut LastReader<'_, S>,
    shelf: &mut F,
    out: &mut K,
) -> Result<(), ScriptEnding>
    requires fits { FitsCommand command.now }
    requires running { IsRunning R.NodeState node.old }
    requires reader { IsSomebodys S.verifies last.old.made }
    requires roster { last.old.roster.now ≡ (R.stands node.old).listed }
    requires kept { IsTrue (is_export command.now) → IsSome reads.old }
    requires few { FitWithin MOST_LINES reads.old }
    ensures keeps { Keeps R.NodeState node.old node.new (sinks K.Sink out.old out.new) result }
    ensures turns { TurnsInRun S.verifies last.old.made reads.old R.NodeState node.old node.new command.now (shelves F.Shelf shelf.old shelf.new) (sinks K.Sink out.old out.new) result }
    ensures reads { OnOk result (KeepsReads (R.stands node.old) (R.signature_of node.old) (R.records node.old) command.now reads.old reads.new) }
    ensures reader { OnOk result (KeepsLast S.verifies R.NodeState node.old command.now (shelves F.Shelf shelf.old shelf.new) last.old.made last.new.made) }
    ensures somebodys { OnOk result (IsSomebodys S.verifies last.new.made) }
    ensures means { (last.new.roster.now ≡ last.old.roster.now) × (last.new.scheme ≡ last.old.scheme) }
    ensures same { K.tells out.new ≡ K.tells out.old }
    ensures loads { F.loads shelf.new ≡ F.loads shelf.old ++ loads_of (is_some last.old.made) command.now }
    ensures stores { StoresAt R.NodeState node.old command.now (shelves F.Shelf shelf.old shelf.new) (F.stores shelf.old) (F.stores shelf.new) result }
    ensures unstored { EndsUnstored R.NodeState node.old command.now (shelves F.Shelf shelf.old shelf.new) (F.stores shelf.old) (F.stores shelf.new) }
    ensures same_shelf { F.tells shelf.new ≡ F.tells shelf.old }
    ensures shelf { TellsShelf (F.faults shelf.old) (F.faults shelf.new) (F.failed shelf.old) (F.failed shelf.new) result }
{
    match command {
        Command::Export { file } => export(alloc, node, command, file, kept(reads), shelf, out),
        Command::Trim { .. } | Command::Tgive { .. } | Command::Tget { .. } => {
            ask_readers(alloc, node, command, last, shelf, out)
        }
        _ => ask_node(alloc, node, command, reads, shelf, out),
    }
}
