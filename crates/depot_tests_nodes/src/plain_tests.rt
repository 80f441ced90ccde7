//! Plain signatures from outside, computed by Python's hashlib, and statements under the keys of a roster.

use crate::hex_digits::is_hex;
use crate::signing_tests::signs_and_verifies;
use depot_base::{Bytes, Hash32, Ids, NodeId, PublicKey, Signed, Statement, Voucher};
use depot_sign::*;
use std::alloc::Global;
use std::test::Fail;

const SEED: [u8; 32] = [0xa5; 32];

/// The root of the key of the seed.
const ROOT: &str = "fc8b64001c5fdd0f2f40fb67dae4a865a2c5bd17836676d6d5b58b7917e33717";

/// The signature of `hello` by the key of the seed and leaf 3.
const SIGNATURE: &str = "649d1751e0dfe330a1cb0dac75766adca29b8cc27ccc09f42ebae6231dee2c6e";

/// A roster's text up to the root of its second key: node 3, with height 2, and node 7, with height 2.
const HEAD: &str =
    "010400020003020909090909090909090909090909090909090909090909090909090909090909000702";

/// Leaves, bodies and signatures, and whether each verifies under the key of the seed.
static CASES: [(u32, &str, &str, bool); 7] = [
    (3, "hello", SIGNATURE, true),
    // another leaf, another body
    (2, "hello", SIGNATURE, false),
    (3, "hullo", SIGNATURE, false),
    // cut short, the last bit changed, a byte more
    (
        3,
        "hello",
        "649d1751e0dfe330a1cb0dac75766adca29b8cc27ccc09f42ebae6231dee2c",
        false,
    ),
    (
        3,
        "hello",
        "649d1751e0dfe330a1cb0dac75766adca29b8cc27ccc09f42ebae6231dee2c6f",
        false,
    ),
    (
        3,
        "hello",
        "649d1751e0dfe330a1cb0dac75766adca29b8cc27ccc09f42ebae6231dee2c6e00",
        false,
    ),
    // the fifth leaf, which a higher tree of the same root has
    (
        4,
        "hello",
        "a0f235a9c53dbc02261bc2726204ffb0f04be425c1fcbfd4ee96441c1dc62f92",
        false,
    ),
];

#[test]
fn a_plain_signer_has_its_key_and_signs(rt: HostRuntime) -> Result<(), Fail> {
    let signer = PlainSigner::from_seed(rt.alloc(), &Hash32::new(SEED), 4);
    let PublicKey { root, height } = signer.key();
    let signature = signer.sign(3, b"hello")?;
    assert!(rt; height == 4);
    assert!(rt; is_hex(rt.alloc(), root.bytes(), ROOT));
    assert!(rt; is_hex(rt.alloc(), signature.as_slice(), SIGNATURE));
    assert!(rt; signs_and_verifies(&PlainScheme, &signer, 15, b"hello") == Ok(true));
    Ok(())
}

/// A roster in which node 7 has the key of the seed, with 4 leaves.
fn roster(alloc: Global) -> Result<Roster, Fail> {
    let text = format!(in alloc; "{HEAD}{ROOT}")?;
    let text = hex::decode(alloc, text.as_str())?;
    Ok(Roster::parse(alloc, text.as_slice())?)
}

/// A statement of a node with this seq, body and signature.
fn statement(
    alloc: Global,
    node: NodeId,
    seq: u32,
    body: &str,
    signature: &str,
) -> Result<Signed, Fail> {
    let signature = Bytes::from_vec(hex::decode(alloc, signature)?);
    let body = Bytes::from_slice(alloc, body.as_bytes())?;
    let voucher = Voucher {
        node,
        seq,
        ids: Ids::new(alloc),
    };
    Ok(Signed {
        statement: Statement::Voucher(voucher),
        body,
        signature,
    })
}

/// Whether the roster has the writer of a statement, and its signature verifies.
fn verifies<S: Scheme>(roster: &Roster, scheme: &S, signed: &Signed) -> bool {
    roster.has_node(signed.statement.writer()) && verify_signed(roster, scheme, signed)
}

/// Whether a statement of node 7 with this seq, body and signature verifies, by the scheme and by one that is lent.
fn both(
    alloc: Global,
    roster: &Roster,
    seq: u32,
    body: &str,
    signature: &str,
) -> Result<[bool; 2], Fail> {
    let node = NodeId::new(7).ok_or("a node")?;
    let signed = statement(alloc, node, seq, body, signature)?;
    let holds = verifies(roster, &PlainScheme, &signed);
    Ok([holds, verifies(roster, &&PlainScheme, &signed)])
}

#[test]
fn signatures_are_verified(rt: HostRuntime) -> Result<(), Fail> {
    let roster = roster(rt.alloc())?;
    for (seq, body, signature, holds) in CASES.iter() {
        assert!(rt;
            both(rt.alloc(), &roster, *seq, body, signature)? == [*holds; 2],
            "{signature} of {body} by {seq}"
        );
    }
    Ok(())
}
