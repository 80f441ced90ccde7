//! Texts and offsets from outside: a worked body, and a table of faults for each format.

use crate::hex::bytes;
use depot_base::{Bytes, Hash32, Memory};
use depot_update::*;
use std::alloc::Global;
use std::test::Fail;

/// The first update of node 1: key `k`, and the hash and length of the value `abc`.
pub const UPDATE: &str = "0101 0001 00000000 0000000000000001 \
    0000000000000000000000000000000000000000000000000000000000000000 016b \
    ba7816bf8f01cfea414140de5dae2223b00361a396177a9cb410ff61f20015ad 00000003 0000 \
    e3b0c44298fc1c149afbf4c8996fb92427ae41e4649b934ca495991b7852b855";

/// SHA-256 of it, by another program.
const UPDATE_ID: &str = "b1b71fe559a0af9d8cd799bec43413803425cbf3ce164fded47cc3300867a6ba";

/// The same with two entries of writer 2, at offset 88 and at 130.
pub const JOINING: &str = "0101 0001 00000000 0000000000000001 \
    0000000000000000000000000000000000000000000000000000000000000000 016b \
    ba7816bf8f01cfea414140de5dae2223b00361a396177a9cb410ff61f20015ad 00000003 0002 \
    0002 0000000000000005 1111111111111111111111111111111111111111111111111111111111111111 \
    0002 0000000000000005 1111111111111111111111111111111111111111111111111111111111111112 \
    e3b0c44298fc1c149afbf4c8996fb92427ae41e4649b934ca495991b7852b855";

/// SHA-256 of it, by another program.
const JOINING_ID: &str = "f7c26c5ccec6a769f1b2cb8c2f3730baf44c3ed1f0d42a32235ab57325cf6563";

/// Two writes of node 1: `k` gets the value `abc`, and `l` is deleted. They start at offset 49 and at 88.
pub const SEVERAL: &str = "0201 0001 00000000 0000000000000001 \
    0000000000000000000000000000000000000000000000000000000000000000 02 \
    016b 01 ba7816bf8f01cfea414140de5dae2223b00361a396177a9cb410ff61f20015ad 00000003 \
    016c 00 0000 e3b0c44298fc1c149afbf4c8996fb92427ae41e4649b934ca495991b7852b855";

/// SHA-256 of it, by another program.
const SEVERAL_ID: &str = "df912840030be019d117991b6fab9fdcb5d1c99192572cae2d76bf3952c5a431";

/// The same, but that `l` gets the value `d`.
pub const TWO_VALUES: &str = "0201 0001 00000000 0000000000000001 \
    0000000000000000000000000000000000000000000000000000000000000000 02 \
    016b 01 ba7816bf8f01cfea414140de5dae2223b00361a396177a9cb410ff61f20015ad 00000003 \
    016c 01 18ac3e7343f016890c510e93f935261169d9e3f565436429830faf0934f4f8e4 00000001 \
    0000 e3b0c44298fc1c149afbf4c8996fb92427ae41e4649b934ca495991b7852b855";

/// The first update of node 1, which deletes `k`: the shortest body.
pub const DELETION: &str = "0201 0001 00000000 0000000000000001 \
    0000000000000000000000000000000000000000000000000000000000000000 01 016b 00 0000 \
    e3b0c44298fc1c149afbf4c8996fb92427ae41e4649b934ca495991b7852b855";

/// SHA-256 of it, by another program.
const DELETION_ID: &str = "d609511b6422ba44285efd0222fd11e8f03de76b7d231653680886b5a16a0f0a";

/// A voucher of node 7 for two updates, whose ids start at offset 10 and at 42.
pub const VOUCHER: &str = "0102 0007 00000005 0002 \
    3333333333333333333333333333333333333333333333333333333333333333 \
    3333333333333333333333333333333333333333333333333333333333333334";

/// A signed voucher: its body starts at offset 4, its signature at 50.
pub const SIGNED: &str = "0000002a 0102 0007 00000005 0001 \
    3333333333333333333333333333333333333333333333333333333333333333 00000002 aabb";

/// A proof of two signed vouchers, which start at offset 2 and at 54.
pub const PROOF: &str = "0102 0000002a 0102 0007 00000005 0001 \
    3333333333333333333333333333333333333333333333333333333333333333 00000002 aabb \
    0000002a 0102 0007 00000005 0001 \
    4444444444444444444444444444444444444444444444444444444444444444 00000002 ccdd";

/// A hollow proof of that signed voucher and the text `abc`, whose length starts at offset 54.
pub const HOLLOW: &str = "0104 0000002a 0102 0007 00000005 0001 \
    3333333333333333333333333333333333333333333333333333333333333333 00000002 aabb \
    00000003 616263";

/// The same with another byte at one place. Past its end nothing is changed.
pub fn changed(alloc: Global, hex: &str, place: usize, byte: u8) -> Result<Vec<u8>, Memory> {
    let mut out = bytes(alloc, hex)?;
    if let Some(at) = out.get_mut(place) {
        *at = byte;
    }
    Ok(out)
}

/// The offset that a decoder tells.
pub fn fault<V: Drop>(decoded: Result<V, DecodeError>) -> Option<u32> {
    match decoded {
        Err(DecodeError::IllFormed(at)) => Some(at),
        _ => None,
    }
}

/// What a text is read as.
#[derive(Clone, Copy, Debug)]
enum TextKind {
    Statement,
    Update,
    Signed,
    Proof,
}

/// The offset at which a text goes wrong.
fn fault_of(alloc: Global, kind: TextKind, text: &[u8]) -> Option<u32> {
    match kind {
        TextKind::Statement => fault(decode_statement(alloc, text)),
        TextKind::Update => fault(decode_update(alloc, text)),
        TextKind::Signed => fault(decode_signed(alloc, text)),
        TextKind::Proof => fault(decode_proof(alloc, text)),
    }
}

/// Where the fields of the worked body start.
static STARTS: [u32; 12] = [0, 1, 2, 4, 8, 16, 48, 49, 50, 82, 86, 88];

/// Where those of the body of two writes start.
static STARTS_OF_TWO: [u32; 17] = [
    0, 1, 2, 4, 8, 16, 48, 49, 50, 51, 52, 84, 88, 89, 90, 91, 93,
];

/// The start of the field in which a text cut to so many bytes has its fault.
pub fn cut_field(starts: &[u32], length: u32) -> u32 {
    let mut last = 0;
    for start in starts {
        if *start <= length {
            last = *start;
        }
    }
    last
}

/// Whether a text whose fields start at these offsets, cut to so many bytes, has its fault at the cut field.
fn tells_cut(alloc: Global, kind: TextKind, text: &[u8], starts: &[u32], length: u32) -> bool {
    match text.get(..length as usize) {
        Some(cut) => fault_of(alloc, kind, cut) == Some(cut_field(starts, length)),
        None => false,
    }
}

#[test]
fn a_body_goes_wrong_where_it_is_cut_or_goes_on(rt: HostRuntime) -> Result<(), Fail> {
    let mut body = bytes(rt.alloc(), UPDATE)?;
    assert!(rt; body.len() == 120);
    for n in 0..120 {
        for kind in [TextKind::Statement, TextKind::Update] {
            assert!(rt;
                tells_cut(rt.alloc(), kind, &body, &STARTS, n),
                "{n} bytes of a {kind:?}"
            );
        }
    }
    body.push(0)?;
    assert!(rt; fault_of(rt.alloc(), TextKind::Statement, &body) == Some(120));
    Ok(())
}

#[test]
fn a_body_of_two_writes_goes_wrong_where_it_is_cut(rt: HostRuntime) -> Result<(), Fail> {
    let body = bytes(rt.alloc(), SEVERAL)?;
    assert!(rt; body.len() == 125);
    for n in 0..125 {
        assert!(rt;
            tells_cut(rt.alloc(), TextKind::Statement, &body, &STARTS_OF_TWO, n),
            "{n} bytes"
        );
    }
    Ok(())
}

/// Texts with another byte at one place, and the offset at which each goes wrong.
static FAULTS: [(TextKind, &str, usize, u8, u32); 127] = [
    (TextKind::Statement, JOINING, 0, 3, 0),
    (TextKind::Statement, JOINING, 0, 2, 157),
    (TextKind::Statement, UPDATE, 0, 2, 50),
    (TextKind::Statement, JOINING, 1, 0, 1),
    (TextKind::Statement, JOINING, 1, 3, 1),
    (TextKind::Statement, JOINING, 3, 0, 2),
    (TextKind::Statement, JOINING, 15, 0, 8),
    (TextKind::Statement, JOINING, 48, 0, 48),
    (TextKind::Statement, JOINING, 83, 1, 82),
    (TextKind::Statement, JOINING, 86, 5, 86),
    (TextKind::Statement, JOINING, 89, 0, 88),
    (TextKind::Statement, JOINING, 89, 1, 88),
    (TextKind::Statement, JOINING, 89, 3, 130),
    (TextKind::Statement, JOINING, 131, 1, 130),
    (TextKind::Statement, JOINING, 171, 0x11, 130),
    (TextKind::Statement, JOINING, 171, 0x10, 130),
    (TextKind::Statement, JOINING, 87, 3, 182),
    (TextKind::Update, JOINING, 0, 0, 0),
    (TextKind::Update, JOINING, 0, 3, 0),
    (TextKind::Update, JOINING, 0, 2, 157),
    (TextKind::Update, UPDATE, 0, 2, 50),
    (TextKind::Update, JOINING, 1, 0, 1),
    (TextKind::Update, JOINING, 1, 3, 1),
    (TextKind::Update, JOINING, 3, 0, 2),
    (TextKind::Update, JOINING, 15, 0, 8),
    (TextKind::Update, JOINING, 48, 0, 48),
    (TextKind::Update, JOINING, 83, 1, 82),
    (TextKind::Update, JOINING, 86, 5, 86),
    (TextKind::Update, JOINING, 89, 0, 88),
    (TextKind::Update, JOINING, 89, 1, 88),
    (TextKind::Update, JOINING, 89, 3, 130),
    (TextKind::Update, JOINING, 131, 1, 130),
    (TextKind::Update, JOINING, 171, 0x11, 130),
    (TextKind::Update, JOINING, 171, 0x10, 130),
    (TextKind::Update, JOINING, 87, 3, 182),
    (TextKind::Update, JOINING, 87, 1, 162),
    (TextKind::Update, VOUCHER, 0, 1, 1),
    (TextKind::Update, VOUCHER, 0, 2, 1),
    (TextKind::Statement, JOINING, 87, 1, 162),
    (TextKind::Statement, VOUCHER, 0, 0, 0),
    (TextKind::Statement, VOUCHER, 0, 2, 1),
    (TextKind::Statement, VOUCHER, 0, 3, 0),
    (TextKind::Statement, VOUCHER, 1, 3, 1),
    (TextKind::Statement, VOUCHER, 3, 0, 2),
    (TextKind::Statement, VOUCHER, 9, 0, 8),
    (TextKind::Statement, VOUCHER, 8, 1, 8),
    (TextKind::Statement, VOUCHER, 9, 1, 42),
    (TextKind::Statement, VOUCHER, 9, 3, 74),
    (TextKind::Statement, VOUCHER, 73, 0x33, 42),
    (TextKind::Statement, VOUCHER, 73, 0x32, 42),
    (TextKind::Signed, SIGNED, 1, 1, 0),
    (TextKind::Signed, SIGNED, 2, 1, 4),
    (TextKind::Signed, SIGNED, 3, 43, 46),
    (TextKind::Signed, SIGNED, 3, 41, 14),
    (TextKind::Signed, SIGNED, 4, 2, 5),
    (TextKind::Signed, SIGNED, 4, 3, 4),
    (TextKind::Signed, SIGNED, 5, 3, 5),
    (TextKind::Signed, SIGNED, 7, 0, 6),
    (TextKind::Signed, SIGNED, 13, 0, 12),
    (TextKind::Signed, SIGNED, 47, 1, 46),
    (TextKind::Signed, SIGNED, 49, 3, 50),
    (TextKind::Signed, SIGNED, 49, 1, 51),
    (TextKind::Proof, PROOF, 0, 2, 0),
    (TextKind::Proof, PROOF, 1, 0, 1),
    (TextKind::Proof, PROOF, 1, 4, 100),
    (TextKind::Proof, PROOF, 1, 5, 1),
    (TextKind::Proof, PROOF, 6, 2, 7),
    (TextKind::Proof, PROOF, 3, 1, 2),
    (TextKind::Proof, PROOF, 4, 1, 6),
    (TextKind::Proof, PROOF, 9, 0, 8),
    (TextKind::Proof, PROOF, 49, 1, 48),
    (TextKind::Proof, PROOF, 55, 1, 54),
    (TextKind::Proof, PROOF, 56, 1, 58),
    (TextKind::Proof, PROOF, 59, 3, 59),
    (TextKind::Proof, PROOF, 103, 3, 104),
    (TextKind::Proof, PROOF, 103, 1, 105),
    (TextKind::Statement, SEVERAL, 0, 3, 0),
    (TextKind::Statement, SEVERAL, 1, 2, 1),
    (TextKind::Statement, SEVERAL, 48, 0, 48),
    (TextKind::Statement, SEVERAL, 48, 1, 51),
    (TextKind::Statement, SEVERAL, 48, 3, 91),
    (TextKind::Statement, SEVERAL, 48, 17, 48),
    (TextKind::Statement, SEVERAL, 49, 0, 49),
    (TextKind::Statement, SEVERAL, 49, 2, 52),
    (TextKind::Statement, SEVERAL, 51, 0, 53),
    (TextKind::Statement, SEVERAL, 51, 2, 51),
    (TextKind::Statement, SEVERAL, 85, 1, 84),
    (TextKind::Statement, SEVERAL, 88, 0, 88),
    (TextKind::Statement, SEVERAL, 89, 0x6b, 88),
    (TextKind::Statement, SEVERAL, 89, 0x6a, 88),
    (TextKind::Statement, SEVERAL, 90, 1, 123),
    (TextKind::Statement, SEVERAL, 90, 2, 90),
    (TextKind::Statement, SEVERAL, 91, 5, 91),
    (TextKind::Statement, DELETION, 0, 1, 82),
    (TextKind::Statement, DELETION, 48, 2, 52),
    (TextKind::Statement, DELETION, 51, 1, 51),
    (TextKind::Statement, DELETION, 51, 2, 51),
    (TextKind::Update, SEVERAL, 0, 3, 0),
    (TextKind::Update, SEVERAL, 1, 2, 1),
    (TextKind::Update, SEVERAL, 48, 0, 48),
    (TextKind::Update, SEVERAL, 48, 1, 51),
    (TextKind::Update, SEVERAL, 48, 3, 91),
    (TextKind::Update, SEVERAL, 48, 17, 48),
    (TextKind::Update, SEVERAL, 49, 0, 49),
    (TextKind::Update, SEVERAL, 49, 2, 52),
    (TextKind::Update, SEVERAL, 51, 0, 53),
    (TextKind::Update, SEVERAL, 51, 2, 51),
    (TextKind::Update, SEVERAL, 85, 1, 84),
    (TextKind::Update, SEVERAL, 88, 0, 88),
    (TextKind::Update, SEVERAL, 89, 0x6b, 88),
    (TextKind::Update, SEVERAL, 89, 0x6a, 88),
    (TextKind::Update, SEVERAL, 90, 1, 123),
    (TextKind::Update, SEVERAL, 90, 2, 90),
    (TextKind::Update, SEVERAL, 91, 5, 91),
    (TextKind::Update, DELETION, 0, 1, 82),
    (TextKind::Update, DELETION, 48, 2, 52),
    (TextKind::Update, DELETION, 51, 1, 51),
    (TextKind::Update, DELETION, 51, 2, 51),
    (TextKind::Proof, HOLLOW, 0, 2, 0),
    (TextKind::Proof, HOLLOW, 1, 0, 1),
    (TextKind::Proof, HOLLOW, 1, 2, 58),
    (TextKind::Proof, HOLLOW, 1, 5, 1),
    (TextKind::Proof, HOLLOW, 4, 1, 6),
    (TextKind::Proof, HOLLOW, 7, 3, 7),
    (TextKind::Proof, HOLLOW, 55, 1, 54),
    (TextKind::Proof, HOLLOW, 57, 2, 60),
    (TextKind::Proof, HOLLOW, 57, 4, 58),
];

/// The offset of the first fault of a text with this byte at this place.
fn fault_at(
    alloc: Global,
    kind: TextKind,
    hex: &str,
    place: usize,
    byte: u8,
) -> Result<Option<u32>, Memory> {
    let text = changed(alloc, hex, place, byte)?;
    Ok(fault_of(alloc, kind, &text))
}

#[test]
fn a_faulty_field_is_told(rt: HostRuntime) -> Result<(), Fail> {
    for (kind, hex, place, byte, at) in FAULTS.iter() {
        let told = fault_at(rt.alloc(), *kind, hex, *place, *byte)?;
        assert!(rt; told == Some(*at), "{byte} at {place} of a {kind:?}");
    }
    Ok(())
}

/// Whether this text was written.
pub fn is_text(written: Result<Bytes, Memory>, text: &[u8]) -> bool {
    match written {
        Ok(bytes) => bytes.as_slice() == text,
        Err(_) => false,
    }
}

/// Whether a text is read, and written with the same bytes.
fn is_kept(alloc: Global, kind: TextKind, text: &[u8]) -> bool {
    match kind {
        TextKind::Statement => match decode_statement(alloc, text) {
            Ok(statement) => is_text(encode_statement(alloc, &statement), text),
            Err(_) => false,
        },
        TextKind::Update => match decode_update(alloc, text) {
            Ok(update) => is_text(encode_update(alloc, &update), text),
            Err(_) => false,
        },
        TextKind::Signed => match decode_signed(alloc, text) {
            Ok(signed) => is_text(encode_signed(alloc, &signed), text),
            Err(_) => false,
        },
        TextKind::Proof => match decode_proof(alloc, text) {
            Ok(proof) => {
                let is_same = is_text(encode_proof(alloc, &proof), text);
                drop(proof);
                is_same
            }
            Err(_) => false,
        },
    }
}

/// Texts that are read and written.
static KEPT: [(TextKind, &str); 14] = [
    (TextKind::Statement, UPDATE),
    (TextKind::Statement, JOINING),
    (TextKind::Statement, VOUCHER),
    (TextKind::Statement, SEVERAL),
    (TextKind::Statement, TWO_VALUES),
    (TextKind::Statement, DELETION),
    (TextKind::Update, UPDATE),
    (TextKind::Update, JOINING),
    (TextKind::Update, SEVERAL),
    (TextKind::Update, TWO_VALUES),
    (TextKind::Update, DELETION),
    (TextKind::Signed, SIGNED),
    (TextKind::Proof, PROOF),
    (TextKind::Proof, HOLLOW),
];

#[test]
fn a_text_is_read_and_written(rt: HostRuntime) -> Result<(), Fail> {
    for (kind, hex) in KEPT.iter() {
        let text = bytes(rt.alloc(), hex)?;
        assert!(rt; is_kept(rt.alloc(), *kind, &text), "a {kind:?} {hex}");
    }
    Ok(())
}

/// Adds what precedes the writes of the longest body of a version.
fn put_front(text: &mut Bytes, version: u8) -> Result<(), Memory> {
    text.push_all(&[version, 1, 0, 1, 0, 0, 0, 0, 0, 0, 0, 0, 0, 0, 0, 1])?;
    text.push_all(&[0; 32])
}

/// Adds the hash and the length of a value of 65,536 bytes.
fn put_named(text: &mut Bytes) -> Result<(), Memory> {
    text.push_all(&[7; 32])?;
    text.push_all(&[0, 1, 0, 0])
}

/// Adds the one write of the longest body of version 1: it has a key of 255 bytes.
fn put_single(text: &mut Bytes) -> Result<(), Memory> {
    text.push_all(&[255; 256])?;
    put_named(text)
}

/// Adds the 16 writes of the longest body: their keys have 255 bytes, and the last byte rises.
fn put_several(text: &mut Bytes) -> Result<(), Memory> {
    text.push_u8(16)?;
    for n in 0u8..16 {
        text.push_all(&[255; 255])?;
        text.push_all(&[n, 1])?;
        put_named(text)?;
    }
    Ok(())
}

/// Adds its entries: 1,024 of writer 2, whose ids rise.
fn put_entries(text: &mut Bytes) -> Result<(), Memory> {
    text.push_u16(1024)?;
    for n in 0..1024 {
        text.push_all(&[0, 2, 255, 255, 255, 255, 255, 255, 255, 255])?;
        text.push_u16(n)?;
        text.push_all(&[0; 30])?;
    }
    Ok(())
}

/// The longest body of an update, by its version.
pub fn longest(alloc: Global, version: u8) -> Result<Bytes, Memory> {
    let mut text = Bytes::new(alloc);
    put_front(&mut text, version)?;
    if version == 1 {
        put_single(&mut text)?;
    } else {
        put_several(&mut text)?;
    }
    put_entries(&mut text)?;
    text.push_all(&[9; 32])?;
    Ok(text)
}

#[test]
fn the_longest_bodies_are_read_and_written(rt: HostRuntime) -> Result<(), Fail> {
    for (version, length) in [(1, 43_382), (2, 47_779)] {
        let text = longest(rt.alloc(), version)?;
        assert!(rt; text.as_slice().len() == length);
        assert!(rt; is_kept(rt.alloc(), TextKind::Update, text.as_slice()));
    }
    Ok(())
}

/// Bodies, and the ids of the updates.
static IDS: [(&str, &str); 4] = [
    (UPDATE, UPDATE_ID),
    (JOINING, JOINING_ID),
    (SEVERAL, SEVERAL_ID),
    (DELETION, DELETION_ID),
];

/// The id of the update that is read from a text.
fn id_in(alloc: Global, text: &[u8]) -> Option<Hash32> {
    match decode_update(alloc, text) {
        Ok(update) => id_of(alloc, &update).ok(),
        Err(_) => None,
    }
}

#[test]
fn an_id_is_the_hash_of_the_body(rt: HostRuntime) -> Result<(), Fail> {
    for (hex, right) in IDS.iter() {
        let text = bytes(rt.alloc(), hex)?;
        let right = bytes(rt.alloc(), right)?;
        assert!(rt;
            id_in(rt.alloc(), &text) == Hash32::from_slice(&right),
            "{hex}"
        );
    }
    Ok(())
}

/// Texts, and whether each is the body of an update.
static BODIES: [(&str, bool); 7] = [
    (UPDATE, true),
    (JOINING, true),
    (SEVERAL, true),
    (DELETION, true),
    (VOUCHER, false),
    (SIGNED, false),
    ("", false),
];

/// Whether it is said rightly of a text whether it is the body of an update.
fn is_told(alloc: Global, hex: &str, right: bool) -> Result<bool, Memory> {
    let text = bytes(alloc, hex)?;
    Ok(is_update(alloc, &text)? == right)
}

#[test]
fn a_text_is_an_update_or_not(rt: HostRuntime) -> Result<(), Fail> {
    for (hex, right) in BODIES.iter() {
        assert!(rt; is_told(rt.alloc(), hex, *right)?, "{hex}");
    }
    Ok(())
}
