//! Two long chains, of which the second follows no more than the first item of the first.
ghost use Rattle.std.specs.Prelude.{◌≡◌, ◌<◌, ◌≤◌, ◌+◌, length};

use crate::graphs::{node, one_entry, reads, write};
use depot_base::{Deps, Hash32, NodeId, Steps};
use depot_graph::Graph;
use depot_model::Past;
use std::alloc::Global;
use std::marker::Brand;
use std::process::Abort;
use std::sync::ledger::{Blank, Ledger};
use std::test::Fail;

/// How many updates each chain has.
const LONG: u32 = 50_000;

/// How many questions are asked.
const QUESTIONS: u32 = 4_000_000;

/// Adds a chain of a writer after the others, with clocks from the given one on. Its first update has these entries,
/// and no other has one. It gives the id of the first.
fn grow(
    alloc: Global,
    graph: &mut Graph,
    writer: NodeId,
    clock: u64,
    deps: Deps,
) -> Result<Hash32, Fail>
    requires { clock < 1000000 }
{
    let first = write(alloc, graph, writer, 0, clock, &Hash32::zeros(), deps)?;
    let mut prev = first;
    for seq in 1..LONG {
        let clock = clock + u64::from(seq);
        prev = write(alloc, graph, writer, seq, clock, &prev, Deps::new(alloc))?;
    }
    Ok(first)
}

/// Adds the first chain whole, and then the second, whose clocks are all greater.
fn grow_both(alloc: Global, graph: &mut Graph) -> Result<(), Fail> {
    let one = node(1)?;
    let first = grow(alloc, graph, one, 1, Deps::new(alloc))?;
    grow(
        alloc,
        graph,
        node(2)?,
        100_000,
        one_entry(alloc, one, first)?,
    )?;
    Ok(())
}

/// Asks whether an item of the first chain precedes the last of the second: so many times, of its items but the first in turn.
/// It takes a step each time.
fn ask<L: Ledger>(rt: &impl Abort, graph: &Graph, count: u32, steps: &mut Steps<L>)
    requires { 100000 ≤ length (⟦<Graph as Past>⟧.updates graph.now) }
    ensures { steps.new ≡ steps.old + count }
{
    for asked in 0..count {
        let item = asked % (LONG - 1) + 1;
        let is_before = graph.before(item, LONG + LONG - 1, steps);
        assert!(rt; !is_before, "{item} is before the last");
    }
}

/// Adds both chains to a graph, whose latest writes are the last of each then.
fn grow_and_read(rt: &impl Abort, alloc: Global, graph: &mut Graph) -> Result<(), Fail> {
    grow_both(alloc, graph)?;
    assert!(rt; reads(alloc, graph, [LONG - 1, LONG + LONG - 1].as_slice())?);
    Ok(())
}

/// Adds them, and asks.
fn asked_often<L: Ledger>(
    rt: &impl Abort,
    alloc: Global,
    graph: &mut Graph,
    blank: Blank,
) -> Result<(), Fail>
    requires name { blank.name ≡ L.name }
    requires parts { blank.parts ≡ L.parts }
    requires some { 0 < blank.parts }
{
    let mut steps = Steps::<L>::new(blank);
    grow_and_read(rt, alloc, graph)?;
    assert!(rt; graph.count() == LONG + LONG);
    assert!(rt; graph.chain_count() == 2);
    assert!(rt; graph.before(0, LONG + LONG - 1, &mut steps));
    ask(rt, graph, QUESTIONS, &mut steps);
    Ok(())
}

#[test]
fn long_chains_are_not_walked(rt: HostRuntime) -> Result<(), Fail> {
    let mut graph = Graph::new(rt.alloc());
    asked_often::<Brand>(&rt, rt.alloc(), &mut graph, Blank::new(1))
}
