//! Keys of two layers: a signature with another's part, and under keys of other heights.

use crate::worked_keys::ZEROS;
use depot_base::{Bytes, Hash32, Memory, PublicKey};
use depot_model::{Scheme, Signer};
use depot_winter::{WinterScheme, WinterSigner};
use std::alloc::Global;
use std::test::Fail;

/// The key of the seed of zeros at height 13, and its signatures of `depot` by the last leaf of a bottom tree and the first of
/// the next.
fn key_and_signatures(alloc: Global) -> Result<(PublicKey, Bytes, Bytes), Memory> {
    let signer = WinterSigner::from_seed(alloc, &Hash32::new(ZEROS), 13)?;
    let last = signer.sign(255, b"depot")?;
    let first = signer.sign(256, b"depot")?;
    Ok((signer.key(), last, first))
}

/// A signature with the bottom part of one and the top part of another.
fn mixed(alloc: Global, bottom: &[u8], top: &[u8]) -> Result<Bytes, Memory> {
    let mut mixed = Bytes::new(alloc);
    if let Some(front) = bottom.get(..2404) {
        mixed.push_all(front)?;
    }
    if let Some(back) = top.get(2404..) {
        mixed.push_all(back)?;
    }
    Ok(mixed)
}

#[test]
fn a_top_part_of_another_bottom_tree_signs_nothing(rt: HostRuntime) -> Result<(), Fail> {
    let (key, last, first) = key_and_signatures(rt.alloc())?;
    let own = mixed(rt.alloc(), last.as_slice(), last.as_slice())?;
    let other = mixed(rt.alloc(), last.as_slice(), first.as_slice())?;
    assert!(rt; other.as_slice().len() == 4708);
    assert!(rt; WinterScheme.verify(&key, 255, b"depot", own.as_slice()));
    assert!(rt; !WinterScheme.verify(&key, 255, b"depot", other.as_slice()));
    Ok(())
}

/// Whether a signature verifies under the key of a root and a height.
fn verifies_at(root: Hash32, height: u8, signature: &[u8]) -> bool {
    let key = PublicKey { root, height };
    WinterScheme.verify(&key, 255, b"depot", signature)
}

#[test]
fn no_key_of_another_height_verifies(rt: HostRuntime) -> Result<(), Fail> {
    let signer = WinterSigner::from_seed(rt.alloc(), &Hash32::new(ZEROS), 13)?;
    let root = signer.key().root;
    let signature = signer.sign(255, b"depot")?;
    assert!(rt; verifies_at(root, 13, signature.as_slice()));
    for height in [1, 5, 8, 12, 14, 17, 18, 255] {
        assert!(rt;
            !verifies_at(root, height, signature.as_slice()),
            "height {height}"
        );
    }
    Ok(())
}
