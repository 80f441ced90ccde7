//! The first conviction of a node of the traces.
ghost use Rattle.std.specs.Prelude.{◌≡◌, ◌≤◌, List, length, map, option_map, position, IfOk};
ghost use Rattle.depot_base.specs.declared.limits.TheConstants.{MOST_RECORDS};
ghost use Rattle.depot_base.specs.declared.record.Record.{Record};
ghost use Rattle.depot_model.specs.worlds.Audit.{named_node};
ghost use Rattle.depot_model.specs.worlds.World.{Correct, World};
ghost use Rattle.depot_model.specs.texts.Records.{IsTextOf};
ghost use Rattle.depot_model.specs.worlds.Traces.{IsWorldOf};
ghost use Rattle.depot_traces.specs.SeenTraces.{finding_of, trace_of};
ghost use Rattle.depot_audit.specs.Lookups.{nodes_in, accuses_one, first_accusing};
ghost use Rattle.depot_audit.specs.MetTexts.{AreTexts, AreToldBy};

use crate::record_text::record_of;
use crate::traced_nodes::has_node;
use depot_base::{Bytes, Memory, Record, RecordTag};
use depot_traces::{Finding, Trace};
use std::alloc::Global;

/// The first conviction, with nodes in the order of their traces, whose accused is one of the nodes: the node that
/// keeps it, and the place of its record. It doesn't matter whether different texts have one hash.
pub fn first_named(alloc: Global, traces: &[&Trace]) -> Result<Option<Finding>, Memory>
    requires { (W : World) × IsWorldOf (map (λ t. trace_of t.now) traces.now) W }
    ensures { IfOk result (λ found. (W : World) → IsWorldOf (map (λ t. trace_of t.now) traces.now) W → option_map finding_of found ≡ named_node W) }
{
    first_keeping(alloc, traces)
}

/// The first record of traces that convicts one of their nodes.
fn first_keeping(alloc: Global, traces: &[&Trace]) -> Result<Option<Finding>, Memory>
    requires { (cs : List Correct) × AreToldBy cs (map (λ t. t.now) traces.now) }
    ensures { IfOk result (λ found. (cs : List Correct) → AreToldBy cs (map (λ t. t.now) traces.now) → option_map finding_of found ≡ first_accusing (nodes_in (map (λ t. t.now) traces.now)) cs) }
{
    for trace in traces {
        match first_place(alloc, traces, trace.texts.as_slice())? {
            Some(place) => {
                return Ok(Some(Finding::Named {
                    node: trace.node,
                    place,
                }));
            }
            None => {}
        }
    }
    Ok(None)
}

/// The place of the first of these texts whose record convicts one of the nodes.
fn first_place(alloc: Global, traces: &[&Trace], texts: &[Bytes]) -> Result<Option<u32>, Memory>
    requires texts { (J : List Record) × AreTexts J texts.now }
    requires few { length texts.now ≤ MOST_RECORDS }
    ensures { IfOk result (λ found. (J : List Record) → AreTexts J texts.now → found ≡ position (accuses_one (nodes_in (map (λ t. t.now) traces.now))) J) }
{
    for place in 0..texts.len() {
        if is_against_one(alloc, traces, texts[place].as_slice())? {
            return Ok(Some(place as u32));
        }
    }
    Ok(None)
}

/// Whether the record of a text convicts one of the nodes. Only the text of a conviction is decoded.
fn is_against_one(alloc: Global, traces: &[&Trace], text: &[u8]) -> Result<bool, Memory>
    requires { (r : Record) × IsTextOf r text.now }
    ensures { IfOk result (λ found. (r : Record) → IsTextOf r text.now → found ≡ accuses_one (nodes_in (map (λ t. t.now) traces.now)) r) }
{
    let [tag, ..] = text else {
        return Ok(false);
    };
    if *tag != RecordTag::Conviction.byte() {
        return Ok(false);
    }
    let item = record_of(alloc, text)?;
    Ok(accuses(traces, &item))
}

/// Whether a record convicts one of the nodes.
fn accuses(traces: &[&Trace], item: &Record) -> bool
    ensures { result ≡ accuses_one (nodes_in (map (λ t. t.now) traces.now)) item.now }
{
    match item {
        Record::Conviction { proof } => has_node(traces, proof.accused()),
        _ => false,
    }
}
