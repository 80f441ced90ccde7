//! Texts of hellos from outside: a worked one, and a table of its faults. What a feed makes of bytes and what a node's
//! hello is need a node: those tests are where there is one.

use crate::hex::bytes;
use crate::text_tests::{changed, cut_field, fault, is_text};
use depot_base::Memory;
use depot_model::Ending;
use depot_streams::{Feed, decode_hello, encode_hello};
use std::alloc::Global;
use std::test::Fail;

/// The hello of node 1: it convicted nodes 3 and 5, has a leaf of writer 1 and one of writer 2, and wants two values.
pub const HELLO: &str = "0103 0001 \
    5555555555555555555555555555555555555555555555555555555555555555 \
    0002 0003 0005 \
    0002 0001 1111111111111111111111111111111111111111111111111111111111111111 \
    0002 1111111111111111111111111111111111111111111111111111111111111110 \
    0002 2222222222222222222222222222222222222222222222222222222222222222 \
    2222222222222222222222222222222222222222222222222222222222222223";

/// Where its fields start.
static STARTS: [u32; 15] = [0, 1, 2, 4, 36, 38, 40, 42, 44, 46, 78, 80, 112, 114, 146];

/// Another byte at one place, and the offset at which the hello then goes wrong.
static FAULTS: [(usize, u8, u32); 17] = [
    (0, 2, 0),
    (1, 1, 1),
    (3, 0, 2),
    (36, 1, 36),
    (36, 2, 36),
    (39, 0, 38),
    (41, 3, 40),
    (41, 2, 40),
    (42, 0x10, 42),
    (42, 0x11, 42),
    (45, 0, 44),
    (45, 2, 78),
    (45, 3, 78),
    (112, 4, 112),
    (112, 5, 112),
    (177, 0x22, 146),
    (177, 0x21, 146),
];

/// Whether a hello of node 1 with two leaves is read, and written with the same bytes.
fn is_kept(alloc: Global, text: &[u8]) -> bool {
    match decode_hello(alloc, text) {
        Ok(hello) => {
            hello.node.number() == 1
                && hello.leaves.as_slice().len() == 2
                && is_text(encode_hello(alloc, &hello), text)
        }
        Err(_) => false,
    }
}

/// The offset of a text's first fault as a hello.
fn told(alloc: Global, text: &[u8]) -> Option<u32> {
    fault(decode_hello(alloc, text))
}

/// Whether a hello cut to so many bytes has its fault at the cut field.
fn tells_cut(alloc: Global, text: &[u8], length: u32) -> bool {
    match text.get(..length as usize) {
        Some(cut) => told(alloc, cut) == Some(cut_field(&STARTS, length)),
        None => false,
    }
}

#[test]
fn a_hello_is_read_and_written_whole(rt: HostRuntime) -> Result<(), Fail> {
    let mut text = bytes(rt.alloc(), HELLO)?;
    assert!(rt; text.len() == 178);
    assert!(rt; is_kept(rt.alloc(), &text));
    for n in 0..178 {
        assert!(rt; tells_cut(rt.alloc(), &text, n), "{n} bytes");
    }
    text.push(0)?;
    assert!(rt; told(rt.alloc(), &text) == Some(178));
    Ok(())
}

/// The offset of the hello's first fault with this byte at this place.
fn fault_at(alloc: Global, place: usize, byte: u8) -> Result<Option<u32>, Memory> {
    let text = changed(alloc, HELLO, place, byte)?;
    Ok(told(alloc, &text))
}

#[test]
fn a_faulty_field_of_a_hello_is_told(rt: HostRuntime) -> Result<(), Fail> {
    for (place, byte, at) in FAULTS.iter() {
        let told = fault_at(rt.alloc(), *place, *byte)?;
        assert!(rt; told == Some(*at), "{byte} at {place}");
    }
    Ok(())
}

/// Whether a feed is open, and holds no bytes.
fn is_fresh(feed: &Feed) -> bool {
    !feed.is_closed() && feed.open_bytes() == 0
}

#[test]
fn a_feed_that_nothing_came_to_ends_bare(rt: HostRuntime) -> Result<(), Fail> {
    let feed = Feed::new(rt.alloc())?;
    assert!(rt; is_fresh(&feed));
    let report = feed.end();
    assert!(rt; report.ending == Ending::Bare);
    assert!(rt; report.accepted == 0);
    Ok(())
}
