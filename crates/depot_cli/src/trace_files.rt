//! Loads trace files one by one.
ghost use Rattle.std.specs.Prelude.{◌≡◌, ◌<◌, ◌≤◌, ◌∷◌, ℕ, [], length, take, IfOk};
ghost use Rattle.depot_outside.specs.Told.{loads, HasLoaded};
ghost use Rattle.depot_cli.specs.Handing.{GathersTraces, HasGathered, IsCalm, IsTakenTrace, IsToldTrace, has_trace_of};

use depot_base::{Memory, NodeId};
use depot_lines::FileName;
use depot_outside::{OutError, Shelf};
use depot_sign::Roster;
use depot_traces::{Trace, TraceError, Traces, decode_trace};
use std::alloc::Global;

/// Why a file is no trace for an audit.
#[derive(Clone, Copy, Debug, PartialEq, Eq)]
pub enum TraceRefusal {
    /// It isn't on the shelf, or the shelf failed.
    Missing,
    /// It is no trace's text: the offset in bytes, from 0, of its first fault.
    IllFormed(u64),
    /// A file before it has this node's trace.
    Twice(NodeId),
    /// Its node isn't in the roster.
    Stranger,
}

/// What came of some trace files.
#[derive(Debug, Drop)]
pub enum GatheredTraces {
    /// Their traces, in the order of the files, of distinct nodes of the roster.
    Traces(Traces),
    /// The first file that is refused: its place among the names, from 0, and why.
    Refused { place: u32, why: TraceRefusal },
}

/// What came of one trace file.
#[derive(Debug, Drop)]
pub enum TakenTrace {
    /// Its trace.
    Trace(Trace),
    /// It is refused.
    Refused(TraceRefusal),
}

/// Whether one of these traces is a node's.
fn is_handed(traces: &[Trace], node: NodeId) -> bool
    ensures { result ≡ has_trace_of node traces.now }
{
    traces.iter().any(|trace| trace.node == node)
}

/// The trace of these bytes, checked against the roster and the traces before it.
pub fn take_bytes(
    alloc: Global,
    roster: &Roster,
    earlier: &[Trace],
    bytes: &[u8],
) -> Result<TakenTrace, Memory>
    ensures { IfOk result (IsTakenTrace roster.now earlier.now bytes.now) }
{
    let trace = match decode_trace(alloc, bytes) {
        Ok(trace) => trace,
        Err(TraceError::Memory) => return Err(Memory),
        Err(TraceError::IllFormed(at)) => return Ok(TakenTrace::Refused(TraceRefusal::IllFormed(
            at,
        ))),
    };
    if is_handed(earlier, trace.node) {
        return Ok(TakenTrace::Refused(TraceRefusal::Twice(trace.node)));
    }
    if !roster.has_node(trace.node) {
        return Ok(TakenTrace::Refused(TraceRefusal::Stranger));
    }
    Ok(TakenTrace::Trace(trace))
}

/// The same of the file of a name, which is loaded.
pub fn take_file<F: Shelf>(
    alloc: Global,
    shelf: &mut F,
    roster: &Roster,
    earlier: &[Trace],
    name: &FileName,
) -> Result<TakenTrace, Memory>
    ensures taken { IfOk result (IsToldTrace (F.tells shelf.old) (F.file shelf.old) (F.faults shelf.old < F.faults shelf.new) roster.now earlier.now name.now) }
    ensures calm { IfOk result (IsCalm (F.faults shelf.new ≡ F.faults shelf.old)) }
    ensures loads { HasLoaded (loads F.Shelf shelf.old shelf.new) (name.now ∷ []) }
    ensures files { F.file shelf.new ≡ F.file shelf.old }
    ensures stores { F.stores shelf.new ≡ F.stores shelf.old }
    ensures tells { F.tells shelf.new ≡ F.tells shelf.old }
{
    match shelf.load(name.text()) {
        Ok(Some(bytes)) => take_bytes(alloc, roster, earlier, bytes.as_slice()),
        Ok(None) => Ok(TakenTrace::Refused(TraceRefusal::Missing)),
        Err(OutError::Failed) => Ok(TakenTrace::Refused(TraceRefusal::Missing)),
        Err(OutError::Memory) => Err(Memory),
    }
}

/// The traces of these files, loaded one after the other up to the first that is refused. On `Memory`, too, no file is
/// loaded after one that isn't a trace for this audit.
pub fn gather<F: Shelf>(
    alloc: Global,
    shelf: &mut F,
    roster: &Roster,
    names: &[FileName],
) -> Result<GatheredTraces, Memory>
    requires { length names.now ≤ 4294967295 }
    ensures gathered { IfOk result (HasGathered F.Shelf shelf.old shelf.new roster.now names.now) }
    ensures loads { (n : ℕ) × HasLoaded (loads F.Shelf shelf.old shelf.new) (take n names.now) }
    ensures traces { GathersTraces F.Shelf shelf.old shelf.new roster.now names.now }
    ensures files { F.file shelf.new ≡ F.file shelf.old }
    ensures stores { F.stores shelf.new ≡ F.stores shelf.old }
{
    let mut traces = Traces::new(alloc);
    for place in 0..names.len() {
        match take_file(alloc, shelf, roster, traces.as_slice(), &names[place])? {
            TakenTrace::Trace(trace) => traces.push(trace)?,
            TakenTrace::Refused(why) => {
                return Ok(GatheredTraces::Refused {
                    place: place as u32,
                    why,
                });
            }
        }
    }
    Ok(GatheredTraces::Traces(traces))
}
