//! The journals of two nodes in hexadecimal digits, made in Python from `docs/FORMATS.md`, independently of the program
//! (`acceptance/makers/make_cases.py`). They sign by the plain scheme, with keys of 4 leaves.
//!
//! Node 1 puts `a` under `k`. Node 2 puts `b` there, takes the update of node 1, takes its value, and deletes `k`.

use depot_base::{Bytes, Hash32, NodeId, Texts};
use depot_sign::Roster;
use std::alloc::Global;
use std::test::Fail;

/// The roster, which has the two nodes. The seed of node 1 is 32 bytes 01, that of node 2 is 32 bytes 02.
const ROSTER: &str = "010400020001\
    0272cd6e8422c407fb6d098690f1130b7ded7ec2f7f5e1d30bd9d521f015363793\
    00020275877bb41d393b5fb8455ce60ecd8dda001d06316496b14dfa7f895656eeca4a";

/// The id of the put of node 1.
pub const A: &str = "df4be50b7bd1dc07fc67b2d1e8967be7e022e474f81cb5102039c1a6ecc0666b";

/// The id of the put of node 2.
pub const B: &str = "84e25768462c40a5e16e13b5ca2dd8b87a31651dc57726e6f119e38ec1f69e64";

/// The id of its deletion.
pub const C: &str = "2f253713b02bfcfced2030800d332af9d59d55fbc5e7d3b0be46d079ed6038f1";

/// The records of node 1.
pub static ONE: [&str; 2] = [BIRTH_ONE, PUT_ONE];

/// The records of node 2.
pub static TWO: [&str; 5] = [BIRTH, PUT, FOREIGN, HELD, DELETION];

/// The birth of node 1.
pub const BIRTH_ONE: &str =
    "0100012b47b28be695d9c91e5978ee1b3cf8a0d1af3acf84bca42144c28e45a3679ac6";

/// Its put, and the value.
pub const PUT_ONE: &str = "0200000078010100010000000000000000000000010000000000000000000000000000\
    000000000000000000000000000000000000016b\
    ca978112ca1bbdcafac231b39a23dc4da786eff8147c4e72b9807785afee48bb000000010000\
    e3b0c44298fc1c149afbf4c8996fb92427ae41e4649b934ca495991b7852b85561";

/// The birth of node 2.
pub const BIRTH: &str = "0100022b47b28be695d9c91e5978ee1b3cf8a0d1af3acf84bca42144c28e45a3679ac6";

/// Its put, and the value.
pub const PUT: &str = "0200000078010100020000000000000000000000010000000000000000000000000000\
    000000000000000000000000000000000000016b\
    3e23e8160039594a33894f6564e1b1348bbd7a0088d42c4acb73eeaed59c009d000000010000\
    e3b0c44298fc1c149afbf4c8996fb92427ae41e4649b934ca495991b7852b85562";

/// The signed update of node 1.
pub const FOREIGN: &str = "0400000078010100010000000000000000000000010000000000000000000000000000\
    000000000000000000000000000000000000016b\
    ca978112ca1bbdcafac231b39a23dc4da786eff8147c4e72b9807785afee48bb000000010000\
    e3b0c44298fc1c149afbf4c8996fb92427ae41e4649b934ca495991b7852b855\
    0000002097499ba9850cabae4546d6119f9a108138bdc80243560ee8fd3662a2b4a7b2d3";

/// Its value.
pub const HELD: &str = "0661";

/// The deletion.
pub const DELETION: &str = "0200000080020100020000000100000000000000028\
    4e25768462c40a5e16e13b5ca2dd8b87a31651dc57726e6f119e38ec1f69e6401016b0000010001\
    0000000000000001df4be50b7bd1dc07fc67b2d1e8967be7e022e474f81cb5102039c1a6ecc0666b\
    a13c6c8143ca6fb1c68df5aa8507c91916623b5a36cc527274d0f0e085f976c4";

/// The node of this number.
pub fn node(number: u16) -> Result<NodeId, Fail> {
    Ok(NodeId::new(number).ok_or("0 is no node")?)
}

/// The roster.
pub fn roster(alloc: Global) -> Result<Roster, Fail> {
    let text = hex::decode(alloc, ROSTER)?;
    Ok(Roster::parse(alloc, text.as_slice())?)
}

/// The hash of these digits.
pub fn hash(digits: &str) -> Result<Hash32, Fail> {
    let mut bytes = [0; 32];
    hex::decode_to_slice(digits, &mut bytes)?;
    Ok(Hash32::new(bytes))
}

/// Adds the texts of these digits.
pub fn push_texts(alloc: Global, texts: &mut Texts, journal: &[&str]) -> Result<(), Fail> {
    for text in journal {
        texts.push(Bytes::from_vec(hex::decode(alloc, *text)?))?;
    }
    Ok(())
}
