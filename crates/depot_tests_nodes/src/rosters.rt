//! Rosters from outside: a worked one, the largest, and a table of texts that are refused.

use depot_base::{Bytes, Hash32, Memory, NodeId, PublicKey};
use depot_sign::*;
use std::alloc::Global;
use std::test::Fail;

/// The text of a roster of three nodes: each has its node, its height, and its root, which repeats a byte.
const GOOD: &[u8] = b"\x01\x04\0\x03\
    \0\x01\x02\
    \x11\x11\x11\x11\x11\x11\x11\x11\x11\x11\x11\x11\x11\x11\x11\x11\
    \x11\x11\x11\x11\x11\x11\x11\x11\x11\x11\x11\x11\x11\x11\x11\x11\
    \0\x07\x0c\
    \x22\x22\x22\x22\x22\x22\x22\x22\x22\x22\x22\x22\x22\x22\x22\x22\
    \x22\x22\x22\x22\x22\x22\x22\x22\x22\x22\x22\x22\x22\x22\x22\x22\
    \xff\xff\x11\
    \x33\x33\x33\x33\x33\x33\x33\x33\x33\x33\x33\x33\x33\x33\x33\x33\
    \x33\x33\x33\x33\x33\x33\x33\x33\x33\x33\x33\x33\x33\x33\x33\x33";

/// SHA-256 of it, by Python's hashlib.
const HASH: [u8; 32] = [
    0xe4, 0x6d, 0xaa, 0xe5, 0xa2, 0x28, 0xc2, 0x64, 0x8f, 0x6a, 0xea, 0xfc, 0xa7, 0xba, 0xc4, 0x59,
    0x99, 0x81, 0x93, 0xb0, 0x1e, 0x7a, 0xec, 0x3e, 0xb3, 0xc0, 0xa1, 0xd9, 0x66, 0x67, 0xb0, 0xdb,
];

/// Nodes, and the height and the byte of the root of the key that the roster has for each.
static KEYS: [(u16, Option<(u8, u8)>); 5] = [
    (1, Some((2, 0x11))),
    (2, None),
    (7, Some((12, 0x22))),
    (8, None),
    (65535, Some((17, 0x33))),
];

/// Texts that no roster has, and the offset of the first fault of each.
static ILL_FORMED: [(&[u8], u32); 18] = [
    (b"", 0),
    (b"\x02\x04\0\x01", 0),
    (b"\x01", 1),
    (b"\x01\x03\0\x01", 1),
    (b"\x01\x04", 2),
    (b"\x01\x04\x01", 2),
    (b"\x01\x04\0\0", 2),
    (b"\x01\x04\0\x01", 4),
    (b"\x01\x04\0\x01\0\0\x02aaaaaaaaaaaaaaaaaaaaaaaaaaaaaaaa", 4),
    (
        b"\x01\x04\0\x01\0\x07\x01aaaaaaaaaaaaaaaaaaaaaaaaaaaaaaaa",
        6,
    ),
    (
        b"\x01\x04\0\x01\0\x07\x12aaaaaaaaaaaaaaaaaaaaaaaaaaaaaaaa",
        6,
    ),
    (
        b"\x01\x04\0\x02\0\x07\x02aaaaaaaaaaaaaaaaaaaaaaaaaaaaaaaa\0\x07\x63bbbbbbbbbbbbbbbbbbbbbbbbbbbbbbbb",
        41,
    ),
    (
        b"\x01\x04\0\x02\0\x07\x02aaaaaaaaaaaaaaaaaaaaaaaaaaaaaaaa\0\x06\x02bbbbbbbbbbbbbbbbbbbbbbbbbbbbbbbb",
        39,
    ),
    // The second entry has the node, and a part of the root.
    (
        b"\x01\x04\0\x02\0\x07\x02aaaaaaaaaaaaaaaaaaaaaaaaaaaaaaaa\0\x07",
        41,
    ),
    (
        b"\x01\x04\0\x02\0\x07\x02aaaaaaaaaaaaaaaaaaaaaaaaaaaaaaaa\0\x07\x02\x09",
        42,
    ),
    // The one entry is the last, whatever follows it.
    (
        b"\x01\x04\0\x01\0\x07\x02aaaaaaaaaaaaaaaaaaaaaaaaaaaaaaaa\0",
        39,
    ),
    (
        b"\x01\x04\0\x01\0\x07\x02aaaaaaaaaaaaaaaaaaaaaaaaaaaaaaaa\0\x07",
        39,
    ),
    (
        b"\x01\x04\0\x01\0\x07\x02aaaaaaaaaaaaaaaaaaaaaaaaaaaaaaaa\0\x07\x02aaaaaaaaaaaaaaaaaaaaaaaaaaaaaaaa",
        39,
    ),
];

/// Texts that have too many entries, and how many.
static TOO_MANY: [(&[u8], u32); 3] = [
    (b"\x01\x04\x01\x01", 257),
    (b"\x01\x04\x01\x01\0", 257),
    (b"\x01\x04\xff\xff", 65535),
];

/// Texts in which node 7 occurs twice.
static TWICE: [&[u8]; 2] = [
    b"\x01\x04\0\x02\0\x07\x02aaaaaaaaaaaaaaaaaaaaaaaaaaaaaaaa\0\x07\x0cbbbbbbbbbbbbbbbbbbbbbbbbbbbbbbbb",
    b"\x01\x04\0\x03\0\x07\x02aaaaaaaaaaaaaaaaaaaaaaaaaaaaaaaa\0\x07\x0cbbbbbbbbbbbbbbbbbbbbbbbbbbbbbbbb",
];

/// Why a text is refused.
fn refusal(alloc: Global, text: &[u8]) -> Option<RosterError> {
    Roster::parse(alloc, text).err()
}

#[test]
fn the_first_fault_is_told(rt: HostRuntime) -> Result<(), Fail> {
    let node = NodeId::new(7).ok_or("a node")?;
    for (text, at) in ILL_FORMED.iter() {
        let right = RosterError::IllFormed(*at);
        assert!(rt; refusal(rt.alloc(), text) == Some(right), "{text:?}");
    }
    for (text, count) in TOO_MANY.iter() {
        let right = RosterError::TooMany(*count);
        assert!(rt; refusal(rt.alloc(), text) == Some(right), "{text:?}");
    }
    for text in TWICE.iter() {
        assert!(rt;
            refusal(rt.alloc(), text) == Some(RosterError::TwiceNode(node)),
            "{text:?}"
        );
    }
    Ok(())
}

/// Whether a roster has the node with a key of this height and this byte of the root, or hasn't it, for None.
fn tells(roster: &Roster, number: u16, want: Option<(u8, u8)>) -> bool {
    let Some(node) = NodeId::new(number) else {
        return false;
    };
    let key = want.map(|(height, byte)| PublicKey {
        root: Hash32::new([byte; 32]),
        height,
    });
    roster.key_of(node) == key && roster.has_node(node) == want.is_some()
}

/// The text of a roster of the nodes 1 to 256.
fn largest(alloc: Global) -> Result<Bytes, Memory> {
    let mut text = Bytes::from_slice(alloc, &[1, 4, 1, 0])?;
    for n in 1..257 {
        text.push_u16(n)?;
        text.push_all(&[2; 33])?;
    }
    Ok(text)
}

/// Whether a text is that of a roster with 256 entries.
fn has_256(alloc: Global, text: &[u8]) -> bool {
    match Roster::parse(alloc, text) {
        Ok(roster) => roster.count() == 256,
        Err(_) => false,
    }
}

/// Whether a roster is the good one.
fn is_good(roster: &Roster) -> bool {
    let is_text = match roster.text() {
        Ok(text) => text.as_slice() == GOOD,
        Err(_) => false,
    };
    is_text && roster.entries().len() == 3 && *roster.hash() == Hash32::new(HASH)
}

/// Whether a copy of a roster is the good one.
fn copy_is_good(roster: &Roster) -> bool {
    match roster.copy() {
        Ok(copy) => is_good(&copy),
        Err(_) => false,
    }
}

/// Whether the roster of its entries is the good one.
fn entries_are_good(alloc: Global, roster: &Roster) -> bool {
    match Roster::of(alloc, roster.entries()) {
        Ok(made) => is_good(&made),
        Err(_) => false,
    }
}

#[test]
fn a_roster_has_its_keys_and_one_text(rt: HostRuntime) -> Result<(), Fail> {
    let roster = Roster::parse(rt.alloc(), GOOD)?;
    assert!(rt; roster.count() == 3);
    for (number, want) in KEYS.iter() {
        assert!(rt; tells(&roster, *number, *want), "node {number}");
    }
    assert!(rt; is_good(&roster));
    assert!(rt; copy_is_good(&roster));
    assert!(rt; entries_are_good(rt.alloc(), &roster));
    Ok(())
}

#[test]
fn the_largest_roster_is_read(rt: HostRuntime) -> Result<(), Fail> {
    let text = largest(rt.alloc())?;
    assert!(rt; has_256(rt.alloc(), text.as_slice()));
    Ok(())
}

#[test]
fn the_laws_are_there() {
    rosters_are_prefix_free();
    rosters_are_read_in_one_way();
}
