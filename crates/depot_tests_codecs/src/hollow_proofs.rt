//! Vouchers of node 9 for texts before a judge, by the plain scheme. The texts are made by Python's hashlib,
//! independently of the program.

use crate::hellos::HELLO;
use crate::hex::bytes;
use crate::judgements::{ROSTER, X, judged};
use crate::text_tests::{
    DELETION, HOLLOW, JOINING, PROOF, SEVERAL, SIGNED, TWO_VALUES, UPDATE, VOUCHER,
};
use depot_base::Memory;
use depot_judge::is_hollow;
use depot_update::decode_signed;
use std::alloc::Global;
use std::test::Fail;

/// A voucher of node 9 that names 15 texts: no bytes, one and 65,536 that are zero, five updates and one with a byte more, a voucher,
/// a signed statement, a proof of two statements and a hollow one, a hello, and the roster of nodes 1 and 9.
const NAMES_ALL: &str =
    "000001ea0102000900000003000f065c806ee334cc786b82147081ddeab9cab0130e693ec71e4f48a8bad1dd346b1c39 \
    3183ff3be9662e9f8e67aa9291d59a68503abc9da272bf5cc36437ad7e1a374749edcb1774141735de277e618947196f \
    2c158bae258767e0ccda3633edc74832c581abd4ce2dd710c5b9f23a1f0c5dc7876305ec5302cece12888b86940369f0 \
    b68f4573118910e12e1e101fba028b09df6935b4a51a41e1b7af7d5b33ee6e340b9cffb37a989ca544e6bb780a2c7890 \
    1d3fb33738768511a30617afa01d6fcbd2d1fb4254fdc04bee82740699fc74f9cd5fc60426bc0108be63b447f81e96b4 \
    cb7c8b7bfaae4a04b1ad05bdb2d6364141cac2f8c88ed4c43e4c953f2ba7b1b71fe559a0af9d8cd799bec43413803425 \
    cbf3ce164fded47cc3300867a6babcc1d46936765fa898808ba360b0729dd6b8c68b9dd51807126b2f673057eae8d609 \
    511b6422ba44285efd0222fd11e8f03de76b7d231653680886b5a16a0f0ade2f256064a0af797747c2b97505dc0b9f3d \
    f0de4f489eac731c23ae9ca9cc31df912840030be019d117991b6fab9fdcb5d1c99192572cae2d76bf3952c5a431e3b0 \
    c44298fc1c149afbf4c8996fb92427ae41e4649b934ca495991b7852b855f7c26c5ccec6a769f1b2cb8c2f3730baf44c \
    3ed1f0d42a32235ab57325cf656300000020c76d48cb25f76dbb08802ca56b68142b22858b4a76f177b674ca97ab578c \
    0425";

/// One that names a byte alone, signed by the key of node 1.
const FORGED: &str =
    "0000002a010200090000000300016e340b9cffb37a989ca544e6bb780a2c78901d3fb33738768511a30617afa01d0000 \
    0020211b9f97da464d402cd87d89f4623612f921ee48f8b6007553e2be361a32a2af";

/// The same of node 5, which the roster doesn't have.
const UNKNOWN: &str =
    "0000002a010200050000000300016e340b9cffb37a989ca544e6bb780a2c78901d3fb33738768511a30617afa01d0000 \
    0020b8e8ed61088079e808bb5e3ff02482a7f17dbd1c00a2510140425e4ea3fb930d";

const VERDICT: &str = "Ok(Verdict { node: NodeId(9), kind: NotUpdate })";

const NOT_HOLLOW: &str = "Err(NotContradictory(NotUpdate))";

/// Signed statements, texts and how many zero bytes follow each, and what the judge says of a hollow proof of the
/// statement and those bytes.
static CASES: [(&str, &str, usize, &str); 23] = [
    (NAMES_ALL, "", 0, VERDICT),
    (NAMES_ALL, "", 1, VERDICT),
    (NAMES_ALL, "", 65_536, VERDICT),
    (NAMES_ALL, UPDATE, 1, VERDICT),
    (NAMES_ALL, VOUCHER, 0, VERDICT),
    (NAMES_ALL, SIGNED, 0, VERDICT),
    (NAMES_ALL, PROOF, 0, VERDICT),
    (NAMES_ALL, HOLLOW, 0, VERDICT),
    (NAMES_ALL, HELLO, 0, VERDICT),
    (NAMES_ALL, ROSTER, 0, VERDICT),
    (NAMES_ALL, UPDATE, 0, NOT_HOLLOW),
    (NAMES_ALL, JOINING, 0, NOT_HOLLOW),
    (NAMES_ALL, SEVERAL, 0, NOT_HOLLOW),
    (NAMES_ALL, TWO_VALUES, 0, NOT_HOLLOW),
    (NAMES_ALL, DELETION, 0, NOT_HOLLOW),
    (NAMES_ALL, "01", 0, NOT_HOLLOW),
    (NAMES_ALL, "", 2, NOT_HOLLOW),
    (NAMES_ALL, SEVERAL, 1, NOT_HOLLOW),
    (NAMES_ALL, "", 65_537, "Err(IllFormed(532))"),
    (X, "", 1, NOT_HOLLOW),
    (X, UPDATE, 0, NOT_HOLLOW),
    (FORGED, "", 1, "Err(BadSignature(First))"),
    (UNKNOWN, "", 1, "Err(UnknownWriter(NodeId(5)))"),
];

/// A text, and so many zero bytes after it.
fn text_of(alloc: Global, hex: &str, zeros: usize) -> Result<Vec<u8>, Memory> {
    let mut text = bytes(alloc, hex)?;
    for _ in 0..zeros {
        text.push(0)?;
    }
    Ok(text)
}

/// The text of a hollow proof of a signed statement and these bytes.
fn hollow(alloc: Global, statement: &str, text: &[u8]) -> Result<Vec<u8>, Memory> {
    let length = text.len();
    let head = format!(in alloc; "01 04 {statement} {length:08x}")?;
    let mut proof = bytes(alloc, head.as_str())?;
    proof.extend_from_slice(text)?;
    Ok(proof)
}

/// Whether the judge says that of a hollow proof.
fn is_said(
    alloc: Global,
    statement: &str,
    hex: &str,
    zeros: usize,
    right: &str,
) -> Result<bool, Fail> {
    let text = text_of(alloc, hex, zeros)?;
    let proof = hollow(alloc, statement, &text)?;
    let told = judged(alloc, &proof)?;
    let said = format!(in alloc; "{told:?}")?;
    Ok(said.as_str() == right)
}

#[test]
fn a_voucher_for_no_update_convicts(rt: HostRuntime) -> Result<(), Fail> {
    for (statement, hex, zeros, right) in CASES.iter() {
        assert!(rt;
            is_said(rt.alloc(), statement, hex, *zeros, right)?,
            "{zeros} behind {hex}: {right}"
        );
    }
    Ok(())
}

/// Whether a signed statement is hollow by a text, whoever signed it. `None` if it has no statement.
fn is_told(alloc: Global, statement: &str, hex: &str) -> Result<Option<bool>, Memory> {
    let statement = bytes(alloc, statement)?;
    let text = bytes(alloc, hex)?;
    match decode_signed(alloc, &statement) {
        Ok(signed) => Ok(Some(is_hollow(alloc, &signed.statement, &text)?)),
        Err(_) => Ok(None),
    }
}

#[test]
fn a_statement_is_hollow_by_a_text(rt: HostRuntime) -> Result<(), Fail> {
    for (statement, hex, right) in [
        (FORGED, "00", true),
        (FORGED, "01", false),
        (NAMES_ALL, DELETION, false),
        (X, "00", false),
    ] {
        assert!(rt;
            is_told(rt.alloc(), statement, hex)? == Some(right),
            "{hex}"
        );
    }
    Ok(())
}
