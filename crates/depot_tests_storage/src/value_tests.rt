//! Values under their hashes.

use depot_base::{Hash32, LengthError, Value};
use depot_kept::*;
use depot_model::Taken;
use sha2::Digest;
use std::alloc::Global;

/// SHA-256 of no bytes, and of `abc` (FIPS 180-4, its examples).
const EMPTY: [u8; 32] = [
    0xe3, 0xb0, 0xc4, 0x42, 0x98, 0xfc, 0x1c, 0x14, 0x9a, 0xfb, 0xf4, 0xc8, 0x99, 0x6f, 0xb9, 0x24,
    0x27, 0xae, 0x41, 0xe4, 0x64, 0x9b, 0x93, 0x4c, 0xa4, 0x95, 0x99, 0x1b, 0x78, 0x52, 0xb8, 0x55,
];

const ABC: [u8; 32] = [
    0xba, 0x78, 0x16, 0xbf, 0x8f, 0x01, 0xcf, 0xea, 0x41, 0x41, 0x40, 0xde, 0x5d, 0xae, 0x22, 0x23,
    0xb0, 0x03, 0x61, 0xa3, 0x96, 0x17, 0x7a, 0x9c, 0xb4, 0x10, 0xff, 0x61, 0xf2, 0x00, 0x15, 0xad,
];

/// Adds a value, which is hashed.
fn add(alloc: Global, values: &mut Values, bytes: &[u8]) -> Result<Taken, LengthError> {
    let value = Value::new(alloc, bytes)?;
    Ok(values.add(value)?)
}

/// Adds a value whose hash is computed before.
fn add_hashed(alloc: Global, values: &mut Values, bytes: &[u8]) -> Result<Taken, LengthError> {
    let value = Value::new(alloc, bytes)?;
    let hash = Hash32::new(sha2::Sha256::digest(value.bytes()));
    Ok(values.add_hashed(hash, value)?)
}

/// Whether a value is taken once, is kept under its hash, and isn't there while only room was found for it.
fn takes_once(alloc: Global, values: &mut Values) -> Result<bool, LengthError> {
    let hash = Hash32::new(ABC);
    values.reserve(&hash)?;
    let is_absent = values.get(&hash).is_none();
    let first = add(alloc, values, b"abc")?;
    let second = add(alloc, values, b"abc")?;
    Ok(
        is_absent
            && first == Taken::New
            && second == Taken::Known
            && values.get(&hash) == Some(b"abc".as_slice()),
    )
}

/// Whether a value that comes with its hash is kept under it, and wasn't there before.
fn takes_hashed(alloc: Global, values: &mut Values) -> Result<bool, LengthError> {
    let hash = Hash32::new(EMPTY);
    let is_absent = values.get(&hash).is_none();
    let taken = add_hashed(alloc, values, b"")?;
    Ok(is_absent && taken == Taken::New && values.get(&hash) == Some(b"".as_slice()))
}

#[test]
fn a_value_is_kept_under_its_hash(rt: HostRuntime) {
    let mut values = Values::new(rt.alloc());
    assert!(rt; takes_once(rt.alloc(), &mut values) == Ok(true));
    assert!(rt; takes_hashed(rt.alloc(), &mut values) == Ok(true));
}
