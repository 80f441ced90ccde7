//! Texts of records from outside: one of each kind, and a table of faults.
ghost use Rattle.depot_model.specs.texts.Records.{IsRecord};

use crate::hex::bytes;
use crate::text_tests::{
    DELETION, HOLLOW, PROOF, SEVERAL, SIGNED, TWO_VALUES, UPDATE, VOUCHER, changed, fault, is_text,
    longest,
};
use depot_base::{Bytes, Memory, Record};
use depot_update::*;
use std::alloc::Global;
use std::test::Fail;

/// Records: the tag of each, what follows it, and the values after that. A birth, an own update, an own voucher, a
/// foreign statement, a proof and a value; then own updates of several keys and of a deletion alone, and a hollow
/// proof.
static RECORDS: [(&str, &str, &str); 10] = [
    (
        "01 0007",
        "5555555555555555555555555555555555555555555555555555555555555555",
        "",
    ),
    ("02 00000078", UPDATE, "616263"),
    ("03", VOUCHER, ""),
    ("04", SIGNED, ""),
    ("05", PROOF, ""),
    ("06", "", "616263"),
    ("02 0000007d", SEVERAL, "616263"),
    ("02 000000a1", TWO_VALUES, "616263 64"),
    ("02 00000056", DELETION, ""),
    ("05", HOLLOW, ""),
];

/// SHA-256 of the voucher's body, by Python's hashlib.
const VOUCHER_ID: &str = "bcc1d46936765fa898808ba360b0729dd6b8c68b9dd51807126b2f673057eae8";

/// Records with another byte at one place, and the offset at which each goes wrong.
static FAULTS: [(usize, usize, u8, u32); 32] = [
    (0, 0, 0, 0),
    (0, 0, 7, 0),
    (0, 0, 2, 5),
    (0, 2, 0, 1),
    (1, 0, 3, 1),
    (1, 5, 2, 55),
    (1, 5, 3, 5),
    (1, 1, 1, 5),
    (1, 4, 0x77, 93),
    (1, 4, 0x79, 125),
    (1, 53, 0, 53),
    (1, 90, 2, 127),
    (1, 90, 4, 125),
    (2, 1, 2, 1),
    (2, 2, 1, 2),
    (3, 0, 5, 1),
    (4, 2, 0, 2),
    (6, 4, 0x7c, 98),
    (6, 4, 0x7e, 130),
    (6, 5, 1, 88),
    (6, 6, 2, 6),
    (6, 56, 2, 56),
    (6, 92, 2, 132),
    (6, 92, 4, 130),
    (7, 92, 2, 169),
    (7, 92, 4, 170),
    (7, 92, 5, 166),
    (7, 131, 0, 169),
    (7, 131, 2, 169),
    (8, 0, 3, 1),
    (8, 56, 1, 56),
    (9, 58, 4, 59),
];

/// The text of a record, in hexadecimal digits.
fn digits(alloc: Global, kind: usize) -> Result<String, Memory> {
    match RECORDS.get(kind) {
        Some((tag, body, value)) => Ok(format!(in alloc; "{tag}{body}{value}")?),
        None => Ok(String::new(alloc)),
    }
}

/// The text of a record.
fn record(alloc: Global, kind: usize) -> Result<Vec<u8>, Memory> {
    let text = digits(alloc, kind)?;
    bytes(alloc, text.as_str())
}

/// Whether a record is written so, also by the encoder of its kind, where there is one.
fn is_written(alloc: Global, item: &Record, text: &[u8]) -> bool
    requires { IsRecord item.now }
{
    if !is_text(encode_record(alloc, item), text) {
        return false;
    }
    match item {
        Record::OwnPut { update, values } => match encode_own_put(alloc, update, values) {
            Ok(own) => own.text.as_slice() == text,
            Err(_) => false,
        },
        Record::OwnVoucher { voucher } => is_text(encode_own_voucher(alloc, voucher), text),
        Record::Conviction { proof } => is_text(encode_conviction(alloc, proof), text),
        Record::Held { value } => is_text(encode_held(alloc, value), text),
        _ => true,
    }
}

/// Whether a record is read, and written with the same bytes, also by the encoder of its kind.
fn is_kept(alloc: Global, text: &[u8]) -> bool {
    match decode_record(alloc, text) {
        Ok(item) => {
            let is_same = is_written(alloc, &item, text);
            drop(item);
            is_same
        }
        Err(_) => false,
    }
}

#[test]
fn a_record_is_read_and_written(rt: HostRuntime) -> Result<(), Fail> {
    for kind in 0..RECORDS.len() {
        let text = record(rt.alloc(), kind)?;
        assert!(rt; is_kept(rt.alloc(), &text), "{kind}");
    }
    Ok(())
}

/// Whether a foreign statement's record is its text after the tag.
fn is_foreign(alloc: Global) -> Result<bool, Memory> {
    let mut made = foreign_tag(alloc)?;
    made.push_all(&bytes(alloc, SIGNED)?)?;
    Ok(made.as_slice() == record(alloc, 3)?.as_slice())
}

/// Whether the id is read off an own voucher.
fn has_voucher_id(alloc: Global) -> Result<bool, Memory> {
    let voucher = record(alloc, 2)?;
    let id = bytes(alloc, VOUCHER_ID)?;
    Ok(id_in_own_voucher(&voucher).bytes().as_slice() == id.as_slice())
}

#[test]
fn a_record_is_written_from_a_text_and_has_its_id(rt: HostRuntime) -> Result<(), Fail> {
    assert!(rt; is_foreign(rt.alloc())?);
    assert!(rt; has_voucher_id(rt.alloc())?);
    Ok(())
}

/// The offset of a text's first fault as a record.
fn told(alloc: Global, text: &[u8]) -> Option<u32> {
    fault(decode_record(alloc, text))
}

/// The offset of a record's first fault with this byte at this place.
fn fault_at(alloc: Global, kind: usize, place: usize, byte: u8) -> Result<Option<u32>, Memory> {
    let hex = digits(alloc, kind)?;
    let text = changed(alloc, hex.as_str(), place, byte)?;
    Ok(told(alloc, &text))
}

#[test]
fn a_faulty_field_of_a_record_is_told(rt: HostRuntime) -> Result<(), Fail> {
    for (kind, place, byte, at) in FAULTS.iter() {
        let told = fault_at(rt.alloc(), *kind, *place, *byte)?;
        assert!(rt; told == Some(*at), "{byte} at {place} of {kind}");
    }
    let long = vec![in rt.alloc(); 6; 65_538]?;
    assert!(rt; told(rt.alloc(), &long) == Some(65_537));
    assert!(rt; told(rt.alloc(), &[]) == Some(0));
    Ok(())
}

/// Adds values of 65,536 bytes. Each repeats its place.
fn put_values(text: &mut Bytes, count: u8) -> Result<(), Memory> {
    for n in 0..count {
        for _ in 0..1024 {
            text.push_all(&[n; 64])?;
        }
    }
    Ok(())
}

/// The record of an own put of the longest body of a version, which has this length, and of so many values.
fn own_put(alloc: Global, version: u8, length: u32, values: u8) -> Result<Bytes, Memory> {
    let body = longest(alloc, version)?;
    let mut text = Bytes::from_slice(alloc, &[2])?;
    text.push_u32(length)?;
    text.push_all(body.as_slice())?;
    put_values(&mut text, values)?;
    Ok(text)
}

/// The offset of the first fault of a record that lacks its last byte.
fn told_cut(alloc: Global, text: &[u8]) -> Option<u32> {
    match text.split_last() {
        Some((_, front)) => told(alloc, front),
        None => None,
    }
}

/// The longest own puts: the version of the update, the length of its body, how many values it names, and the record's length.
static LONGEST: [(u8, u32, u8, u32); 2] = [(1, 43_382, 1, 108_923), (2, 47_779, 16, 1_096_360)];

#[test]
fn the_longest_own_puts_are_read_and_written(rt: HostRuntime) -> Result<(), Fail> {
    for (version, body, values, length) in LONGEST.iter() {
        let mut text = own_put(rt.alloc(), *version, *body, *values)?;
        assert!(rt; is_kept(rt.alloc(), text.as_slice()), "{length} bytes");
        assert!(rt; told_cut(rt.alloc(), text.as_slice()) == Some(*length - 65_536));
        text.push_u8(0)?;
        assert!(rt; told(rt.alloc(), text.as_slice()) == Some(*length));
    }
    Ok(())
}
