//! A fork of node 9 before a judge, by the plain scheme. The texts are made by Python's hashlib, independently of the
//! program.
ghost use Rattle.std.specs.Prelude.{IfOk};
ghost use Rattle.depot_model.specs.texts.Texts.{IsProof, IsSigned};

use crate::hex::bytes;
use crate::text_tests::is_text;
use depot_base::{Kind, Memory, Proof, Signed};
use depot_judge::*;
use depot_sign::{PlainScheme, Roster};
use depot_update::{DecodeError, decode_signed, encode_proof};
use std::alloc::Global;
use std::process::Abort;
use std::test::Fail;

/// The roster of nodes 1 and 9, whose seeds are 31 zero bytes and the node's number.
pub const ROSTER: &str =
    "01040002000104ec4916dd28fc4c10d78e287ca5d9cc51ee1ae73cbfde08c6b37324cbfaac8bc5000904887bf140ce0b \
    6a497ed8db5c7498a45454f0b2bd644b0313f7a82acc084d0027";

/// The first write of node 9: key `k`, value `a`, no entries.
pub const X: &str =
    "000000780101000900000000000000000000000100000000000000000000000000000000000000000000000000000000 \
    00000000016bca978112ca1bbdcafac231b39a23dc4da786eff8147c4e72b9807785afee48bb000000010000e3b0c442 \
    98fc1c149afbf4c8996fb92427ae41e4649b934ca495991b7852b85500000020814b6a17b7c7b435aa3bd8ecdb6f5dcc \
    636673e28273464d42e3a55d81dabc17";

/// Another first write of it: a fork.
const Y: &str =
    "000000780101000900000001000000000000000200000000000000000000000000000000000000000000000000000000 \
    00000000016b3e23e8160039594a33894f6564e1b1348bbd7a0088d42c4acb73eeaed59c009d000000010000e3b0c442 \
    98fc1c149afbf4c8996fb92427ae41e4649b934ca495991b7852b85500000020a931f9245d0e9f9abed98a536803de61 \
    12fc3efcdb6b4b76bc019afe1acc31fb";

/// A write of it that comes after the first, as it should.
const Z: &str =
    "00000078010100090000000200000000000000036987d4efd8ae6788ff84ffb9e6078bbf49b79e3f7fdd8a0cb7b7f942 \
    ed78d984016b2e7d2c03a9507ae265ecf5b5356885a53393a2029d241394997265a1a25aefc6000000010000e3b0c442 \
    98fc1c149afbf4c8996fb92427ae41e4649b934ca495991b7852b8550000002027057de46ce0ffddd57407987fe0e150 \
    bb9ca8d94b5430a9902d045cfacee1eb";

/// A write of it that names the first as its prev, and goes back to its clock.
const BACK: &str =
    "00000078010100090000000300000000000000016987d4efd8ae6788ff84ffb9e6078bbf49b79e3f7fdd8a0cb7b7f942 \
    ed78d984016b18ac3e7343f016890c510e93f935261169d9e3f565436429830faf0934f4f8e4000000010000e3b0c442 \
    98fc1c149afbf4c8996fb92427ae41e4649b934ca495991b7852b85500000020540cf691421f8acd252b05f928ae182b \
    1bcb6ea6a5567496021a6c5c0d1abab5";

/// The fork once more, signed by the key of node 1.
const FORGED: &str =
    "000000780101000900000001000000000000000200000000000000000000000000000000000000000000000000000000 \
    00000000016b3e23e8160039594a33894f6564e1b1348bbd7a0088d42c4acb73eeaed59c009d000000010000e3b0c442 \
    98fc1c149afbf4c8996fb92427ae41e4649b934ca495991b7852b85500000020f2caeb9ab18765be6d1f723e30c38008 \
    d21cc150d1269cbd8b21c0a5ca1edcea";

/// A write of node 1.
const OTHER: &str =
    "000000780101000100000000000000000000000100000000000000000000000000000000000000000000000000000000 \
    00000000016bca978112ca1bbdcafac231b39a23dc4da786eff8147c4e72b9807785afee48bb000000010000e3b0c442 \
    98fc1c149afbf4c8996fb92427ae41e4649b934ca495991b7852b855000000204ddf3c553e082aa4a05f72c9600d6306 \
    6da9b0c8b43c731e6e4ea98845bd2caa";

/// A write of node 5, which the roster doesn't have.
const UNKNOWN: &str =
    "000000780101000500000000000000000000000100000000000000000000000000000000000000000000000000000000 \
    00000000016bca978112ca1bbdcafac231b39a23dc4da786eff8147c4e72b9807785afee48bb000000010000e3b0c442 \
    98fc1c149afbf4c8996fb92427ae41e4649b934ca495991b7852b85500000020741ab73e713352516e8e69a2ca56aa03 \
    c184fa3078e517bf31451e72f0548d2c";

/// The same of node 6.
const STRANGER: &str =
    "000000780101000600000000000000000000000100000000000000000000000000000000000000000000000000000000 \
    00000000016bca978112ca1bbdcafac231b39a23dc4da786eff8147c4e72b9807785afee48bb000000010000e3b0c442 \
    98fc1c149afbf4c8996fb92427ae41e4649b934ca495991b7852b855000000201699900b13326457c6202de90a537cc6 \
    ae8e75538afc775ff48e6f0def21c5f4";

/// The write of node 9 with seq 5 and clock 5.
const FIVE: &str =
    "000000780101000900000005000000000000000500000000000000000000000000000000000000000000000000000000 \
    00000000016bca978112ca1bbdcafac231b39a23dc4da786eff8147c4e72b9807785afee48bb000000010000e3b0c442 \
    98fc1c149afbf4c8996fb92427ae41e4649b934ca495991b7852b85500000020ef9a5b8ecd67e579f2ac1fe62d414876 \
    4cdfbd2c71240a68d972928981dc3880";

/// One with its seq.
const SAME_NUMBER: &str =
    "000000780101000900000005000000000000000600000000000000000000000000000000000000000000000000000000 \
    00000000016b3e23e8160039594a33894f6564e1b1348bbd7a0088d42c4acb73eeaed59c009d000000010000e3b0c442 \
    98fc1c149afbf4c8996fb92427ae41e4649b934ca495991b7852b855000000201ccfbc19b933290cbb24c3897c3cae05 \
    5fb0deea20ccc727346cd4e2552059fe";

/// One with its prev, which is none.
const SAME_PREV: &str =
    "000000780101000900000006000000000000000600000000000000000000000000000000000000000000000000000000 \
    00000000016b3e23e8160039594a33894f6564e1b1348bbd7a0088d42c4acb73eeaed59c009d000000010000e3b0c442 \
    98fc1c149afbf4c8996fb92427ae41e4649b934ca495991b7852b85500000020971c928d894e8fafc023af6b75b65030 \
    e1fb4c07283551a3626f1a36cf9fe523";

/// One that comes after it.
const AFTER_FIVE: &str =
    "0000007801010009000000060000000000000006902706e79eb08153a1f69102c5e3b94b4124133ce4cdc6c75a4018d2 \
    119d9f23016b3e23e8160039594a33894f6564e1b1348bbd7a0088d42c4acb73eeaed59c009d000000010000e3b0c442 \
    98fc1c149afbf4c8996fb92427ae41e4649b934ca495991b7852b85500000020250c05c90962acf36fd5c883052ef0ba \
    f714e1f5ccf260ffd7c1593cbe0b6da7";

/// One that comes after it, with a lower seq.
const LOWER_SEQ: &str =
    "0000007801010009000000040000000000000006902706e79eb08153a1f69102c5e3b94b4124133ce4cdc6c75a4018d2 \
    119d9f23016b3e23e8160039594a33894f6564e1b1348bbd7a0088d42c4acb73eeaed59c009d000000010000e3b0c442 \
    98fc1c149afbf4c8996fb92427ae41e4649b934ca495991b7852b85500000020365efc396f75051f1f3cd12f72cbfddd \
    1fec3a4d218ecdef6d96d4eba787901f";

/// One that comes after it, with its clock.
const SAME_CLOCK: &str =
    "0000007801010009000000060000000000000005902706e79eb08153a1f69102c5e3b94b4124133ce4cdc6c75a4018d2 \
    119d9f23016b3e23e8160039594a33894f6564e1b1348bbd7a0088d42c4acb73eeaed59c009d000000010000e3b0c442 \
    98fc1c149afbf4c8996fb92427ae41e4649b934ca495991b7852b8550000002009c42ccbadba21e0319b8d1596090ba3 \
    2be8ce79a18eb5d0f2b847b87f8a91de";

/// One of node 1 with its seq.
const FIVE_OF_ONE: &str =
    "000000780101000100000005000000000000000500000000000000000000000000000000000000000000000000000000 \
    00000000016b3e23e8160039594a33894f6564e1b1348bbd7a0088d42c4acb73eeaed59c009d000000010000e3b0c442 \
    98fc1c149afbf4c8996fb92427ae41e4649b934ca495991b7852b85500000020cae8f1c02cb81061a674a4f5a6362a1f \
    d6626502079e72ac973451d0b6dedb62";

/// A voucher of node 9 with its seq.
const VOUCHER: &str =
    "0000002a0102000900000005000107070707070707070707070707070707070707070707070707070707070707070000 \
    0020b5bd667c0db3f54e6fd8849c64a5b8e45c013df782a5a0e57b34d3db93d5cb38";

/// Proofs by their kind byte and their halves, and what the judge says of each.
static CASES: [(u8, &str, &str, &str); 16] = [
    (2, X, Y, "Ok(Verdict { node: NodeId(9), kind: SamePrev })"),
    (
        3,
        X,
        BACK,
        "Ok(Verdict { node: NodeId(9), kind: Backward })",
    ),
    (2, UNKNOWN, STRANGER, "Err(UnknownWriter(NodeId(5)))"),
    (2, FORGED, STRANGER, "Err(UnknownWriter(NodeId(6)))"),
    (2, FORGED, FORGED, "Err(BadSignature(First))"),
    (2, FORGED, OTHER, "Err(BadSignature(First))"),
    (2, OTHER, FORGED, "Err(BadSignature(Second))"),
    (2, X, FORGED, "Err(BadSignature(Second))"),
    (2, X, OTHER, "Err(TwoWriters(NodeId(9), NodeId(1)))"),
    (2, X, X, "Err(Same)"),
    (1, Y, X, "Err(WrongOrder)"),
    (2, Y, X, "Err(WrongOrder)"),
    (1, X, Y, "Err(NotContradictory(SameNumber))"),
    (3, X, Y, "Err(NotContradictory(Backward))"),
    (2, X, Z, "Err(NotContradictory(SamePrev))"),
    (3, X, Z, "Err(NotContradictory(Backward))"),
];

/// Statements, and the first kind in which each contradicts the write with seq 5, and that write it.
static KINDS: [(&str, Option<Kind>); 8] = [
    (FIVE, None),
    (SAME_NUMBER, Some(Kind::SameNumber)),
    (SAME_PREV, Some(Kind::SamePrev)),
    (AFTER_FIVE, None),
    (LOWER_SEQ, Some(Kind::Backward)),
    (SAME_CLOCK, Some(Kind::Backward)),
    (FIVE_OF_ONE, None),
    (VOUCHER, Some(Kind::SameNumber)),
];

/// The text of a proof with this kind byte and these halves.
fn proof(alloc: Global, kind: u8, first: &str, second: &str) -> Result<Vec<u8>, Memory> {
    let text = format!(in alloc; "01 {kind:02x} {first} {second}")?;
    bytes(alloc, text.as_str())
}

/// The roster of nodes 1 and 9.
fn roster(alloc: Global) -> Result<Roster, Fail> {
    let text = bytes(alloc, ROSTER)?;
    Ok(Roster::parse(alloc, text.as_slice())?)
}

/// What the judge says of a text.
pub fn judged(alloc: Global, text: &[u8]) -> Result<Result<Verdict, JudgeError>, Fail> {
    let roster = roster(alloc)?;
    Ok(judge(alloc, &roster, &PlainScheme, text))
}

/// What the judge says of a proof with this kind byte and these halves, in words.
fn said(alloc: Global, kind: u8, first: &str, second: &str) -> Result<String, Fail> {
    let text = proof(alloc, kind, first, second)?;
    let told = judged(alloc, text.as_slice())?;
    Ok(format!(in alloc; "{told:?}")?)
}

/// Whether it says that.
fn is_said(alloc: Global, kind: u8, first: &str, second: &str, right: &str) -> Result<bool, Fail> {
    let said = said(alloc, kind, first, second)?;
    Ok(said.as_str() == right)
}

#[test]
fn the_first_point_that_fails_is_told(rt: HostRuntime) -> Result<(), Fail> {
    for (kind, first, second, right) in CASES.iter() {
        assert!(rt;
            is_said(rt.alloc(), *kind, first, second, right)?,
            "{right}"
        );
    }
    Ok(())
}

/// Whether the judge says of a text that is cut to so many bytes that it is no proof's.
fn is_ill_formed(alloc: Global, text: &[u8], length: usize) -> Result<bool, Fail> {
    let cut = text.get(..length).ok_or("a shorter text")?;
    Ok(matches!(judged(alloc, cut)?, Err(JudgeError::IllFormed(_))))
}

/// Cuts a text of 322 bytes to each length.
fn each_cut_is_ill_formed(rt: &impl Abort, alloc: Global, text: &[u8]) -> Result<(), Fail> {
    assert!(rt; text.len() == 322);
    for n in 0..322 {
        assert!(rt; is_ill_formed(alloc, text, n)?, "{n} bytes");
    }
    Ok(())
}

#[test]
fn a_cut_proof_is_ill_formed(rt: HostRuntime) -> Result<(), Fail> {
    let text = proof(rt.alloc(), 2, X, Y)?;
    each_cut_is_ill_formed(&rt, rt.alloc(), &text)
}

/// The signed statement of a text.
fn signed_of(alloc: Global, text: &[u8]) -> Result<Signed, DecodeError>
    ensures { IfOk result IsSigned }
{
    match decode_signed(alloc, text) {
        Ok(signed) => Ok(signed),
        Err(error) => Err(error),
    }
}

/// A signed statement.
fn signed(alloc: Global, hex: &str) -> Result<Signed, Fail>
    ensures { IfOk result IsSigned }
{
    let text = bytes(alloc, hex)?;
    Ok(signed_of(alloc, text.as_slice())?)
}

/// The proof that is made of two statements, if they name the same prev.
fn made(a: &Signed, b: &Signed) -> Result<Proof, Fail>
    requires first { IsSigned a.now }
    requires second { IsSigned b.now }
    ensures { IfOk result IsProof }
{
    if !contradicts(Kind::SamePrev, a, b) {
        return Err("no contradiction".into());
    }
    Ok(make_proof(Kind::SamePrev, a, b)?)
}

/// Whether that proof has this text.
fn is_made(alloc: Global, a: &Signed, b: &Signed, text: &[u8]) -> Result<bool, Fail>
    requires first { IsSigned a.now }
    requires second { IsSigned b.now }
{
    let proof = made(a, b)?;
    let is_same = is_text(encode_proof(alloc, &proof), text);
    drop(proof);
    Ok(is_same)
}

/// The same of a statement and the text of another one.
fn is_made_with(alloc: Global, first: &Signed, second: &str, text: &[u8]) -> Result<bool, Fail>
    requires { IsSigned first.now }
{
    let second = signed(alloc, second)?;
    is_made(alloc, first, &second, text)
}

/// The same of the texts of two statements.
fn is_made_of(alloc: Global, first: &str, second: &str, text: &[u8]) -> Result<bool, Fail> {
    let first = signed(alloc, first)?;
    is_made_with(alloc, &first, second, text)
}

/// Whether the proof of two statements is that of X and Y in this order.
fn is_made_in_order(alloc: Global, first: &str, second: &str) -> Result<bool, Fail> {
    let right = proof(alloc, 2, X, Y)?;
    is_made_of(alloc, first, second, &right)
}

#[test]
fn a_proof_is_made_in_order(rt: HostRuntime) -> Result<(), Fail> {
    for (first, second) in [(X, Y), (Y, X)] {
        assert!(rt; is_made_in_order(rt.alloc(), first, second)?);
    }
    Ok(())
}

/// The first kind in which a statement contradicts another one, and that one it.
fn kinds_with(alloc: Global, five: &Signed, hex: &str) -> Result<[Option<Kind>; 2], Fail>
    requires { IsSigned five.now }
{
    let other = signed(alloc, hex)?;
    Ok([kind_of(five, &other), kind_of(&other, five)])
}

/// The same of the write with seq 5.
fn kinds(alloc: Global, hex: &str) -> Result<[Option<Kind>; 2], Fail> {
    let five = signed(alloc, FIVE)?;
    kinds_with(alloc, &five, hex)
}

#[test]
fn the_first_kind_is_told(rt: HostRuntime) -> Result<(), Fail> {
    for (hex, kind) in KINDS.iter() {
        assert!(rt; kinds(rt.alloc(), hex)? == [*kind; 2], "{hex}");
    }
    Ok(())
}
