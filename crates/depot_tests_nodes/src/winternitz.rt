//! What no clause covers: the digits of the extremes, and that no signature verifies once a part is changed.

use crate::signing_tests::signs_and_verifies;
use crate::worked_keys::ZEROS;
use depot_base::{Bytes, Hash32, Memory, PublicKey};
use depot_model::{Scheme, Signer};
use depot_winter::{WinterScheme, WinterSigner, digits, smaller_digit};
use std::alloc::{AllocError, Global};
use std::test::Fail;

// 64 equal digits, and those of their checksum.
fn equal_digits(digit: u8, checksum: [u8; 3]) -> [u8; 67] {
    let mut digits = [digit; 67];
    digits[64..].copy_from_slice(&checksum);
    digits
}

#[test]
fn digits_of_the_extremes(rt: HostRuntime) {
    let zeros = Hash32::new([0; 32]);
    let ones = Hash32::new([0xff; 32]);
    assert!(rt; digits(&zeros) == equal_digits(0, [3, 12, 0]));
    assert!(rt; digits(&ones) == equal_digits(15, [0, 0, 0]));
    assert!(rt; smaller_digit(&zeros, &ones) == Some(64));
    assert!(rt; smaller_digit(&ones, &zeros) == Some(0));
    assert!(rt; smaller_digit(&ones, &ones).is_none());
}

#[test]
fn each_leaf_signs(rt: HostRuntime) -> Result<(), Fail> {
    let signer = WinterSigner::from_seed(rt.alloc(), &Hash32::new(ZEROS), 2)?;
    for seq in 0..4 {
        assert!(rt; signs_and_verifies(&WinterScheme, &signer, seq, b"depot")?);
    }
    Ok(())
}

// A copy of bytes in which the lowest bit of one is changed.
fn flipped(alloc: Global, bytes: &[u8], place: usize) -> Result<Vec<u8>, AllocError> {
    let mut changed = Vec::from_slice(alloc, bytes)?;
    if let Some(byte) = changed.get_mut(place) {
        *byte ^= 1;
    }
    Ok(changed)
}

// The key of the seed of zeros at height 2, and its signature of `depot` by the leaf 1.
fn key_and_signature(alloc: Global) -> Result<(PublicKey, Bytes), Memory> {
    let signer = WinterSigner::from_seed(alloc, &Hash32::new(ZEROS), 2)?;
    Ok((signer.key(), signer.sign(1, b"depot")?))
}

// Whether a signature verifies that is changed at one place.
fn verifies_flipped(alloc: Global, key: &PublicKey, signature: &[u8], place: usize) -> bool {
    match flipped(alloc, signature, place) {
        Ok(changed) => WinterScheme.verify(key, 1, b"depot", &changed),
        Err(_) => true,
    }
}

// Whether a signature verifies that lacks its last byte.
fn verifies_cut(key: &PublicKey, signature: &[u8]) -> bool {
    match signature.split_last() {
        Some((_, shorter)) => WinterScheme.verify(key, 1, b"depot", shorter),
        None => true,
    }
}

#[test]
fn no_changed_signature_verifies(rt: HostRuntime) -> Result<(), Fail> {
    let (key, mut signature) = key_and_signature(rt.alloc())?;
    assert!(rt; signature.as_slice().len() == 2212);
    assert!(rt; WinterScheme.verify(&key, 1, b"depot", signature.as_slice()));
    // the number, the first and the last value, the first and the last sibling
    for place in [0, 3, 4, 2147, 2148, 2211] {
        assert!(rt;
            !verifies_flipped(rt.alloc(), &key, signature.as_slice(), place),
            "byte {place}"
        );
    }
    assert!(rt; !verifies_cut(&key, signature.as_slice()));
    signature.push_u8(0)?;
    assert!(rt; !WinterScheme.verify(&key, 1, b"depot", signature.as_slice()));
    Ok(())
}

#[test]
fn no_other_key_seq_or_body_verifies(rt: HostRuntime) -> Result<(), Fail> {
    let (key, signature) = key_and_signature(rt.alloc())?;
    let PublicKey { root, .. } = key;
    let cases: [(Hash32, u8, u32, &[u8]); 9] = [
        (root, 2, 0, b"depot"),
        (root, 2, 2, b"depot"),
        (root, 2, 3, b"depot"),
        (root, 2, 5, b"depot"),
        (root, 1, 1, b"depot"),
        (root, 3, 1, b"depot"),
        (root, 255, 1, b"depot"),
        (Hash32::zeros(), 2, 1, b"depot"),
        (root, 2, 1, b"depots"),
    ];
    for (root, height, seq, body) in cases {
        let other = PublicKey { root, height };
        assert!(rt;
            !WinterScheme.verify(&other, seq, body, signature.as_slice()),
            "height {height} seq {seq}"
        );
    }
    Ok(())
}
