//! Texts of traces from outside: one worked, and a table of its faults.

use crate::hex::bytes;
use crate::text_tests::{changed, cut_field, is_text};
use depot_base::Memory;
use depot_traces::{Shown, Trace, TraceError, decode_trace, encode_trace};
use std::alloc::Global;
use std::test::Fail;

/// The trace of node 7: two records, of which the second has no bytes, and two reads. The first was made at one record, and lists a
/// write whose value wasn't held, one with its value, and a deletion; the second lists none.
const TRACE: &str = "0105 0007 \
    00000002 00000003 aabbcc 00000000 \
    00000002 \
    00000001 01 6b 0003 \
    1111111111111111111111111111111111111111111111111111111111111111 00 \
    2222222222222222222222222222222222222222222222222222222222222222 01 00000002 6162 \
    3333333333333333333333333333333333333333333333333333333333333333 02 \
    00000005 02 6b6b 0000";

/// Where its fields start.
static STARTS: [u32; 24] = [
    0, 1, 2, 4, 8, 12, 15, 19, 23, 27, 28, 29, 31, 63, 64, 96, 97, 101, 103, 135, 136, 140, 141,
    143,
];

/// Another byte at one place, and the offset at which the trace then goes wrong.
static FAULTS: [(usize, u8, u64); 13] = [
    (0, 2, 0),
    (1, 4, 1),
    (3, 0, 2),
    (5, 2, 4),
    (7, 0, 4),
    (18, 200, 19),
    (20, 16, 19),
    (27, 0, 27),
    (29, 16, 29),
    (63, 3, 63),
    (98, 1, 97),
    (135, 3, 135),
    (140, 0, 140),
];

/// Whether the second write of the first read shows the value `ab`.
fn shows_value(trace: &Trace) -> bool {
    let Some(read) = trace.reads.as_slice().first() else {
        return false;
    };
    match read.answer.as_slice().get(1) {
        Some(told) => match &told.shown {
            Shown::Held(value) => value.bytes() == b"ab".as_slice(),
            Shown::NotHeld => false,
            Shown::Gone => false,
        },
        None => false,
    }
}

/// Whether the trace is read, and written with the same bytes.
fn is_kept(alloc: Global, text: &[u8]) -> bool {
    match decode_trace(alloc, text) {
        Ok(trace) => {
            trace.node.number() == 7
                && trace.texts.as_slice().len() == 2
                && trace.reads.as_slice().len() == 2
                && shows_value(&trace)
                && is_text(encode_trace(alloc, &trace), text)
        }
        Err(_) => false,
    }
}

/// The offset of a text's first fault as a trace.
fn told(alloc: Global, text: &[u8]) -> Option<u64> {
    match decode_trace(alloc, text) {
        Ok(_) => None,
        Err(TraceError::Memory) => None,
        Err(TraceError::IllFormed(at)) => Some(at),
    }
}

/// Whether the trace cut to so many bytes has its fault at the cut field.
fn tells_cut(alloc: Global, text: &[u8], length: u32) -> bool {
    match text.get(..length as usize) {
        Some(cut) => told(alloc, cut) == Some(cut_field(&STARTS, length) as u64),
        None => false,
    }
}

#[test]
fn a_trace_is_read_and_written_whole(rt: HostRuntime) -> Result<(), Fail> {
    let mut text = bytes(rt.alloc(), TRACE)?;
    assert!(rt; text.len() == 145);
    assert!(rt; is_kept(rt.alloc(), &text));
    for n in 0..145 {
        assert!(rt; tells_cut(rt.alloc(), &text, n), "{n} bytes");
    }
    text.push(0)?;
    assert!(rt; told(rt.alloc(), &text) == Some(145));
    Ok(())
}

/// The offset of the trace's first fault with this byte at this place.
fn fault_at(alloc: Global, place: usize, byte: u8) -> Result<Option<u64>, Memory> {
    let text = changed(alloc, TRACE, place, byte)?;
    Ok(told(alloc, &text))
}

#[test]
fn a_faulty_field_of_a_trace_is_told(rt: HostRuntime) -> Result<(), Fail> {
    for (place, byte, at) in FAULTS.iter() {
        let told = fault_at(rt.alloc(), *place, *byte)?;
        assert!(rt; told == Some(*at), "{byte} at {place}");
    }
    Ok(())
}
