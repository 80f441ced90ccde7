//! One node: reads its records one after another, and compares its reads with them as they come.
ghost use Rattle.std.specs.Prelude.{◌≡◌, ◌+◌, ◌<◌, ◌≤◌, ◌↔◌, [], length, map, IfOk, IsTrue};
ghost use Rattle.depot_traces.specs.SeenTraces.{read_of, trace_of};
ghost use Rattle.depot_traces.specs.declared.trace.TheConstants.{MOST_READS};
ghost use Rattle.depot_audit.specs.OneNode.{AreRightUpTo, IsNodeAnswer};
ghost use Rattle.depot_audit.specs.Shows.{IsShown};

use crate::shows::shows;
use depot_base::{Bytes, Memory};
use depot_decide::{PlaceFault, ReadError, no_records, take_text};
use depot_model::Scheme;
use depot_readings::Readings;
use depot_sign::Roster;
use depot_traces::{ReadTrace, Trace};
use std::alloc::Global;

/// What is found of one node. Places are from 0.
#[derive(Clone, Copy, Debug, PartialEq, Eq)]
pub enum NodeAnswer {
    /// Its records aren't those of a lawful journal: the first fault.
    Unlawful(PlaceFault),
    /// Its records are lawful, and this is its first read that isn't what they showed at the time.
    WrongRead(u32),
    /// Its records are lawful, and its reads are what they showed.
    Right,
}

/// Checks a node of a roster: all its records, and its reads, none of which saw fewer records than the one before it.
pub fn look_at<S: Scheme>(
    alloc: Global,
    roster: &Roster,
    scheme: &S,
    trace: &Trace,
) -> Result<NodeAnswer, Memory>
    requires { length trace.now.reads ≤ MOST_READS }
    ensures { IfOk result (IsNodeAnswer S.verifies roster.now (trace_of trace.now)) }
{
    let mut readings = no_records(alloc, trace.node, roster, scheme)?;
    let found = take_trace(
        alloc,
        &mut readings,
        trace.texts.as_slice(),
        trace.reads.as_slice(),
    );
    drop(readings);
    found
}

/// Reads the records of texts, up to the first that has a fault, and compares reads with them as they come.
fn take_trace<S: Scheme>(
    alloc: Global,
    readings: &mut Readings<S>,
    texts: &[Bytes],
    reads: &[ReadTrace],
) -> Result<NodeAnswer, Memory>
    requires none { readings.old.records ≡ [] }
    requires few { length reads.now ≤ MOST_READS }
    ensures { IfOk result (IsNodeAnswer S.verifies readings.old.listed (record { node = readings.old.me; texts = texts.now; reads = map read_of reads.now })) }
{
    let mut right = 0;
    for text in texts {
        match take_text(alloc, readings, text.as_slice()) {
            Ok(()) => {}
            Err(ReadError::Memory) => return Err(Memory),
            Err(ReadError::Fault(fault)) => {
                return Ok(NodeAnswer::Unlawful(PlaceFault {
                    place: readings.count(),
                    fault,
                }));
            }
        }
        right = right_reads(readings, reads, right);
    }
    if right < reads.len() {
        return Ok(NodeAnswer::WrongRead(right as u32));
    }
    Ok(NodeAnswer::Right)
}

/// How many first reads are right, among those made at no more records than were read. The first `right` were made at
/// fewer, and are right.
fn right_reads<S: Scheme>(readings: &Readings<S>, reads: &[ReadTrace], right: usize) -> usize
    requires some { 0 < length readings.now.records }
    requires right { AreRightUpTo (length readings.now.records) readings.now.records (map read_of reads.now) right }
    ensures { AreRightUpTo (length readings.now.records + 1) readings.now.records (map read_of reads.now) result }
{
    for place in right..reads.len() {
        if !is_shown(readings, &reads[place]) {
            return place;
        }
    }
    reads.len()
}

/// Whether a read was made at all records that were read, and lists what they show.
fn is_shown<S: Scheme>(readings: &Readings<S>, read: &ReadTrace) -> bool
    ensures { IsTrue result ↔ IsShown readings.now.records (read_of read.now) }
{
    read.length == readings.count() && shows(readings, read)
}
