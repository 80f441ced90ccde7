//! Reads that show what the records then had, and reads that don't.

use crate::faults::{Told, bare};
use crate::journals::{A, B, C, FOREIGN, HELD, ONE, PUT, TWO, hash, node, push_texts, roster};
use depot_audit::{
    Answered, Finding, Listing, MOST_READS, NodeAnswer, PlaceFault, ReadTrace, Reads, Shown, Trace,
    look_at, look_at_all,
};
use depot_base::{Key, Texts, Value};
use depot_sign::PlainScheme;
use std::alloc::Global;
use std::test::Fail;

/// What a read shows of a write.
#[derive(Clone, Copy, Debug)]
enum Sight {
    NotHeld,
    Held(&'static [u8]),
    Gone,
}

/// A read: at how many records, of which key, and the writes that it lists, each by the id of its update.
type Read = (u32, &'static [u8], &'static [(&'static str, Sight)]);

/// Node 1 before and after its put.
static OF_ONE: [Read; 2] = [(1, b"k", &[]), (2, b"k", &[(A, Sight::Held(b"a"))])];

/// Node 2 after each of its records.
static OF_TWO: [Read; 7] = [
    (1, b"k", &[]),
    (2, b"k", &[(B, Sight::Held(b"b"))]),
    (3, b"k", &[(A, Sight::NotHeld), (B, Sight::Held(b"b"))]),
    (4, b"k", &[(A, Sight::Held(b"a")), (B, Sight::Held(b"b"))]),
    (4, b"l", &[]),
    (5, b"k", &[(C, Sight::Gone)]),
    (5, b"k", &[(C, Sight::Gone)]),
];

/// Reads of node 2, and the place of the first that isn't what its records showed.
static WRONG: [(&str, &[Read], u32); 15] = [
    ("lost a write", &[(4, b"k", &[(B, Sight::Held(b"b"))])], 0),
    (
        "lists what is superseded",
        &[(5, b"k", &[(A, Sight::Held(b"a")), (B, Sight::Held(b"b"))])],
        0,
    ),
    (
        "lacks a value that is held",
        &[(4, b"k", &[(A, Sight::NotHeld), (B, Sight::Held(b"b"))])],
        0,
    ),
    (
        "shows a value that isn't held yet",
        &[(3, b"k", &[(A, Sight::Held(b"a")), (B, Sight::Held(b"b"))])],
        0,
    ),
    (
        "shows another value",
        &[(4, b"k", &[(A, Sight::Held(b"b")), (B, Sight::Held(b"b"))])],
        0,
    ),
    (
        "lists a write that came later",
        &[(2, b"k", &[(A, Sight::NotHeld), (B, Sight::Held(b"b"))])],
        0,
    ),
    (
        "lists a write twice",
        &[(2, b"k", &[(B, Sight::Held(b"b")), (B, Sight::Held(b"b"))])],
        0,
    ),
    (
        "lists in another order",
        &[(4, b"k", &[(B, Sight::Held(b"b")), (A, Sight::Held(b"a"))])],
        0,
    ),
    (
        "takes a deletion for a put",
        &[(5, b"k", &[(C, Sight::NotHeld)])],
        0,
    ),
    (
        "takes a put for a deletion",
        &[(2, b"k", &[(B, Sight::Gone)])],
        0,
    ),
    (
        "has another key",
        &[(2, b"l", &[(B, Sight::Held(b"b"))])],
        0,
    ),
    (
        "goes back",
        &[(2, b"k", &[(B, Sight::Held(b"b"))]), (1, b"k", &[])],
        1,
    ),
    ("was made before the birth", &[(0, b"k", &[])], 0),
    (
        "was made at more records",
        &[
            (5, b"k", &[(C, Sight::Gone)]),
            (6, b"k", &[(C, Sight::Gone)]),
        ],
        1,
    ),
    (
        "the second, before a right one",
        &[
            (1, b"k", &[]),
            (2, b"k", &[]),
            (5, b"k", &[(C, Sight::Gone)]),
        ],
        1,
    ),
];

/// What is shown, as a trace has it.
fn shown(alloc: Global, sight: Sight) -> Result<Shown, Fail> {
    match sight {
        Sight::NotHeld => Ok(Shown::NotHeld),
        Sight::Held(value) => Ok(Shown::Held(Value::new(alloc, value)?)),
        Sight::Gone => Ok(Shown::Gone),
    }
}

/// The answer that lists these.
fn listing(alloc: Global, listed: &[(&'static str, Sight)]) -> Result<Listing, Fail> {
    let mut answer = Listing::new(alloc);
    for (id, sight) in listed {
        answer.push(Answered {
            id: hash(*id)?,
            shown: shown(alloc, *sight)?,
        })?;
    }
    Ok(answer)
}

/// A read as a trace has it.
fn read_trace(alloc: Global, told: &Read) -> Result<ReadTrace, Fail> {
    let (length, key, listed) = told;
    Ok(ReadTrace {
        length: *length,
        key: Key::new(alloc, *key)?,
        answer: listing(alloc, *listed)?,
    })
}

/// Adds records and reads to a trace.
fn fill(alloc: Global, trace: &mut Trace, journal: &[&str], told: &[Read]) -> Result<(), Fail> {
    push_texts(alloc, &mut trace.texts, journal)?;
    for read in told {
        trace.reads.push(read_trace(alloc, read)?)?;
    }
    Ok(())
}

/// A trace of a node with these records and reads.
fn trace(alloc: Global, number: u16, journal: &[&str], told: &[Read]) -> Result<Trace, Fail> {
    let mut trace = Trace {
        node: node(number)?,
        texts: Texts::new(alloc),
        reads: Reads::new(alloc),
    };
    match fill(alloc, &mut trace, journal, told) {
        Ok(()) => Ok(trace),
        Err(fault) => {
            drop(trace);
            Err(fault)
        }
    }
}

/// What is found of nodes.
#[derive(Clone, Copy, Debug, PartialEq, Eq)]
enum FoundReads {
    Right,
    /// The record of a node at a place isn't lawful.
    Record(u16, u32, Told),
    /// The read of a node at a place isn't right.
    Read(u16, u32),
    Other,
}

/// What is found in the traces of two nodes of the roster, the lower one first.
fn found_of(alloc: Global, one: &Trace, two: &Trace) -> Result<FoundReads, Fail> {
    if one.reads.as_slice().len() > MOST_READS as usize {
        return Err(Fail::from("too many reads"));
    }
    if two.reads.as_slice().len() > MOST_READS as usize {
        return Err(Fail::from("too many reads"));
    }
    let found = look_at_all(alloc, &roster(alloc)?, &PlainScheme, &[one, two])?;
    match &found {
        None => Ok(FoundReads::Right),
        Some(Finding::Unlawful { node, place, fault }) => {
            Ok(FoundReads::Record(node.number(), *place, bare(fault)))
        }
        Some(Finding::Answer { node, place }) => Ok(FoundReads::Read(node.number(), *place)),
        Some(_) => Ok(FoundReads::Other),
    }
}

/// What is found if the second node has these records and reads, beside the trace of the first.
fn found_beside(
    alloc: Global,
    one: &Trace,
    journal: &[&str],
    told: &[Read],
) -> Result<FoundReads, Fail> {
    let two = trace(alloc, 2, journal, told)?;
    let found = found_of(alloc, one, &two);
    drop(two);
    found
}

/// What is found if the second node has these reads, and all else is right.
fn found_with(alloc: Global, told: &[Read]) -> Result<FoundReads, Fail> {
    let one = trace(alloc, 1, &ONE, &OF_ONE)?;
    let found = found_beside(alloc, &one, &TWO, told);
    drop(one);
    found
}

/// What is found in the trace of node 2 alone, with these reads.
fn found_alone(alloc: Global, told: &[Read]) -> Result<FoundReads, Fail> {
    let two = trace(alloc, 2, &TWO, told)?;
    let found = answer_of(alloc, &two);
    drop(two);
    found
}

/// What is found in a trace of node 2.
fn answer_of(alloc: Global, two: &Trace) -> Result<FoundReads, Fail> {
    if two.reads.as_slice().len() > MOST_READS as usize {
        return Err(Fail::from("too many reads"));
    }
    match look_at(alloc, &roster(alloc)?, &PlainScheme, two)? {
        NodeAnswer::Unlawful(PlaceFault { place, fault }) => {
            Ok(FoundReads::Record(2, place, bare(&fault)))
        }
        NodeAnswer::WrongRead(place) => Ok(FoundReads::Read(2, place)),
        NodeAnswer::Right => Ok(FoundReads::Right),
    }
}

#[test]
fn right_reads_are_found_right(rt: HostRuntime) -> Result<(), Fail> {
    assert!(rt; found_with(rt.alloc(), &OF_TWO)? == FoundReads::Right);
    assert!(rt; found_with(rt.alloc(), &[])? == FoundReads::Right);
    assert!(rt; found_alone(rt.alloc(), &OF_TWO)? == FoundReads::Right);
    Ok(())
}

#[test]
fn the_first_wrong_read_is_found(rt: HostRuntime) -> Result<(), Fail> {
    for (name, told, place) in WRONG.iter() {
        let right = FoundReads::Read(2, *place);
        assert!(rt; found_with(rt.alloc(), *told)? == right, "{name}");
        assert!(rt; found_alone(rt.alloc(), *told)? == right, "{name}");
    }
    Ok(())
}

/// What is found if both nodes have a wrong read, and the second has these records.
fn found_behind(alloc: Global, journal: &[&str]) -> Result<FoundReads, Fail> {
    let one = trace(alloc, 1, &ONE, &[(2, b"k", &[])])?;
    let found = found_beside(alloc, &one, journal, &[(2, b"k", &[])]);
    drop(one);
    found
}

#[test]
fn records_are_looked_at_before_reads(rt: HostRuntime) -> Result<(), Fail> {
    assert!(rt; found_behind(rt.alloc(), &TWO)? == FoundReads::Read(1, 0));
    assert!(rt;
        found_behind(rt.alloc(), &[PUT, FOREIGN, HELD])? == FoundReads::Record(2, 0, Told::Birth)
    );
    Ok(())
}
