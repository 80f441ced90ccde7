//! Messages that a source gives in pieces, what is no message, and a source that fails.

use depot_base::{Bytes, Items, Memory};
use depot_source::{HearError, MemSource, hear};
use std::alloc::Global;
use std::test::Fail;

/// Two messages.
static TWO: [u8; 11] = [0, 0, 0, 2, b'a', b'b', 0, 0, 0, 1, b'c'];

/// The sizes of pieces.
static SIZES: [&[u32]; 4] = [&[], &[1, 1, 1, 1, 1, 1, 1, 1, 1, 1, 1], &[3, 5], &[4, 2, 5]];

/// Bytes that begin no message, or end within one.
static BAD: [&[u8]; 5] = [
    &[0, 0],
    &[0, 0, 0, 0],
    &[0, 0, 0, 3, 7, 7],
    &[8, 0, 0, 1],
    &[255, 255, 255, 255, 1],
];

/// Numbers as a list.
fn items(alloc: Global, numbers: &[u32]) -> Result<Items, Memory> {
    let mut list = Items::new(alloc);
    for number in numbers {
        list.push(*number)?;
    }
    Ok(list)
}

/// A source of bytes.
fn source(alloc: Global, bytes: &[u8], sizes: &[u32], fails: &[u32]) -> Result<MemSource, Memory> {
    Ok(MemSource::new(
        Bytes::from_slice(alloc, bytes)?,
        items(alloc, sizes)?,
        items(alloc, fails)?,
    ))
}

/// The bodies of up to three messages, each followed by a bar.
fn heard(alloc: Global, input: &mut MemSource) -> Result<Bytes, HearError> {
    let mut bodies = Bytes::new(alloc);
    for _ in 0..3 {
        let Some(body) = hear(alloc, input)? else {
            return Ok(bodies);
        };
        if bodies.push_all(body.as_slice()).is_err() || bodies.push_all(b"|").is_err() {
            return Err(HearError::Memory);
        }
    }
    Ok(bodies)
}

/// Why none is heard, if so.
fn fault(alloc: Global, input: &mut MemSource) -> Option<HearError> {
    heard(alloc, input).err()
}

/// Whether these bodies are heard.
fn hears(alloc: Global, input: &mut MemSource, bodies: &[u8]) -> bool {
    match heard(alloc, input) {
        Ok(found) => found.as_slice() == bodies,
        Err(_) => false,
    }
}

#[test]
fn messages_come_whole_in_any_pieces(rt: HostRuntime) -> Result<(), Fail> {
    for sizes in SIZES.iter() {
        let mut input = source(rt.alloc(), &TWO, sizes, &[])?;
        assert!(rt; hears(rt.alloc(), &mut input, b"ab|c|"));
    }
    Ok(())
}

#[test]
fn what_is_no_message_is_told(rt: HostRuntime) -> Result<(), Fail> {
    for bytes in BAD.iter() {
        let mut input = source(rt.alloc(), bytes, &[], &[])?;
        assert!(rt; fault(rt.alloc(), &mut input) == Some(HearError::Bad));
    }
    Ok(())
}

#[test]
fn a_source_that_fails_is_told(rt: HostRuntime) -> Result<(), Fail> {
    for call in 1..=4u32 {
        let mut input = source(rt.alloc(), &TWO, &[], &[call])?;
        assert!(rt;
            fault(rt.alloc(), &mut input) == Some(HearError::Failed),
            "{call}"
        );
    }
    Ok(())
}
