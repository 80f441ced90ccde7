//! The command by which a node hands in its trace.
ghost use Rattle.std.specs.Prelude.{◌≡◌, ◌≤◌, ◌∷◌, [], length};
ghost use Rattle.std.specs.List.{AllByRecursion};
ghost use Rattle.depot_outside.specs.Told.{shelves, sinks};
ghost use Rattle.depot_traces.specs.TraceTexts.{read_text};
ghost use Rattle.depot_traces.specs.declared.trace.TheConstants.{MOST_READS};
ghost use Rattle.depot_session.specs.ScriptTelling.{StoresUnder, TellsShelf};
ghost use Rattle.depot_session.specs.Turns.{IsRunning, Keeps, TurnsTracing};

use crate::ending::ScriptEnding;
use crate::telling::store_and_tell;
use depot_lines::FileName;
use depot_outside::{Shelf, Sink};
use depot_queries::LocalNode;
use depot_script::Command;
use depot_service::traced_line;
use depot_traces::ReadTrace;
use std::alloc::Global;

/// Stores the node's trace with these reads, and reports it.
pub fn export<R: LocalNode, F: Shelf, K: Sink>(
    alloc: Global,
    node: &R,
    command: &Command,
    file: &FileName,
    reads: &[ReadTrace],
    shelf: &mut F,
    out: &mut K,
) -> Result<(), ScriptEnding>
    requires command { command.now ≡ Command.Export file.now }
    requires running { IsRunning R.NodeState node.now }
    requires few { length reads.now ≤ MOST_READS }
    requires fit { AllByRecursion read_text.fits reads.now }
    ensures keeps { Keeps R.NodeState node.now node.now (sinks K.Sink out.old out.new) result }
    ensures turns { TurnsTracing reads.now R.NodeState node.now node.now command.now (shelves F.Shelf shelf.old shelf.new) (sinks K.Sink out.old out.new) result }
    ensures same { K.tells out.new ≡ K.tells out.old }
    ensures loads { F.loads shelf.new ≡ F.loads shelf.old }
    ensures stores { StoresUnder (F.stores shelf.old) (F.stores shelf.new) (file.now ∷ []) result }
    ensures same_shelf { F.tells shelf.new ≡ F.tells shelf.old }
    ensures shelf { TellsShelf (F.faults shelf.old) (F.faults shelf.new) (F.failed shelf.old) (F.failed shelf.new) result }
{
    let text = depot_service::export(alloc, node, reads)?;
    let lines = traced_line(alloc, node.record_count(), reads.len() as u32)?;
    store_and_tell(alloc, command, &lines, file, &text, shelf, out)
}
