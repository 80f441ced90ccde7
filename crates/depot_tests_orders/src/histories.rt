//! The history hash of three updates whose rows were hashed elsewhere.

use crate::graphs::{node, write};
use depot_base::{Deps, Hash32};
use depot_graph::{Graph, summary};
use std::alloc::Global;
use std::process::Abort;
use std::test::Fail;

/// SHA-256 of the rows of the three writes below, by Python's hashlib: that of node 1, and of node 2 that with clock 258, whose id
/// is the lesser one, before that with clock 3.
const OF_ROWS: [u8; 32] = [
    0x23, 0x65, 0xba, 0x11, 0x3b, 0xbd, 0xbb, 0xc5, 0xf6, 0x62, 0x01, 0xe0, 0xbc, 0x59, 0xba, 0x61,
    0xc4, 0xe1, 0x26, 0x2e, 0x9c, 0xa1, 0x5e, 0x1e, 0xe6, 0xab, 0xd8, 0xb6, 0xf6, 0x42, 0x8e, 0xad,
];

/// Adds three writes without parents.
fn write_three(alloc: Global, graph: &mut Graph) -> Result<(), Fail> {
    for (writer, clock) in [(2, 3), (1, 5), (2, 258)] {
        let writer = node(writer)?;
        write(
            alloc,
            graph,
            writer,
            0,
            clock,
            &Hash32::zeros(),
            Deps::new(alloc),
        )?;
    }
    Ok(())
}

/// Adds them to a graph that has no others, whose history hash is that of their rows then.
fn write_and_hash(rt: &impl Abort, alloc: Global, graph: &mut Graph) -> Result<(), Fail> {
    write_three(alloc, graph)?;
    assert!(rt; *summary(alloc, graph)?.bytes() == OF_ROWS);
    Ok(())
}

#[test]
fn rows_stand_by_writer_and_then_by_id(rt: HostRuntime) -> Result<(), Fail> {
    let mut graph = Graph::new(rt.alloc());
    write_and_hash(&rt, rt.alloc(), &mut graph)
}
