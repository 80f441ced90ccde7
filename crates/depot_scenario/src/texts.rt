//! What events that no node takes part in give their labels.
ghost use Rattle.std.specs.Prelude.{◌≡◌, ◌^◌, ◌<◌, ◌≤◌, ◌++◌, length, IfOk, IfSome, codes, take, drop};
ghost use Rattle.std.specs.Fmt.{decimal};
ghost use Rattle.depot_base.specs.Shown.{IsPairKind};
ghost use Rattle.depot_base.specs.declared.limits.TheConstants.{MOST_VALUE};
ghost use Rattle.depot_base.specs.declared.proof.Kind.TheVariants.{NotUpdate};
ghost use Rattle.depot_base.specs.declared.proof.Proof.TheVariants.{Hollow};
ghost use Rattle.depot_base.specs.declared.statement.Statement.TheVariants as statement;
ghost use Rattle.depot_model.specs.checks.Own.{values_of};
ghost use Rattle.depot_model.specs.texts.Texts.{IsProof, IsSigned, IsStatement, IsUpdate};
ghost use Rattle.depot_answers.specs.AnswerTexts.{text_of_number, spaced};
ghost use Rattle.depot_world.specs.FaultySigning.{counted_bytes, flip_at, no_reference, proof_of_halves, proof_with, update_text, voucher_text};
ghost use Rattle.depot_scenario.specs.ScenarioTexts.{IsText};

use crate::signing::{hollow_of, proof_of, put_proof, put_signed, signed};
use crate::value_frames::put_values;
use depot_base::{
    Bytes, Change, Ids, Kind, Memory, NodeId, Proof, Signed, Statement, Update, Voucher,
};
use depot_lines::spelling::name_of_kind;
use depot_model::Signer;
use std::alloc::Global;

/// What an event without a node gives its label, whether that is plain bytes, and what is printed after the arrow,
/// without the space.
#[derive(Drop)]
pub struct Text {
    pub bytes: Bytes,
    pub signed: Option<Signed>,
    pub plain: bool,
    pub answer: Bytes,
}

/// An update as its writer signs it: the frame of the signed statement, then those of the values of these changes, each
/// different value once.
pub fn update<G: Signer>(
    alloc: Global,
    signer: &G,
    update: Update,
    changes: &[Change],
) -> Result<Text, Memory>
    requires fits { IsUpdate update }
    requires leaf { update.seq < 2 ^ (G.key_of signer.now).height }
    ensures text { IfOk result (λ t. IsText t (update_text (G.signature_of signer.now) update (values_of changes.now))) }
    ensures fits { IfOk result (λ t. IfSome t.signed IsSigned) }
    ensures update { IfOk result (λ t. IfSome t.signed (λ s. s.statement ≡ statement.Update update)) }
{
    let answer = numbers_of(alloc, &update)?;
    let signed = signed(alloc, signer, Statement::Update(update))?;
    let mut bytes = Bytes::new(alloc);
    put_signed(alloc, &mut bytes, &signed)?;
    put_values(&mut bytes, changes)?;
    Ok(Text {
        bytes,
        signed: Some(signed),
        plain: false,
        answer,
    })
}

/// Writer, seq and clock of an update: `WRITER/SEQ/CLOCK`.
fn numbers_of(alloc: Global, update: &Update) -> Result<Bytes, Memory>
    ensures { IfOk result (λ text. text ≡ decimal update.now.writer ++ codes "/" ++ decimal update.now.seq ++ codes "/" ++ decimal update.now.clock) }
{
    let writer = update.writer.number();
    let seq = update.seq;
    let clock = update.clock;
    let text = format!(in alloc; "{writer}/{seq}/{clock}")?;
    Ok(Bytes::from_vec(text.into_bytes()))
}

/// A voucher as its node signs it, for these ids: the frame of the signed statement.
pub fn voucher<G: Signer>(
    alloc: Global,
    signer: &G,
    node: NodeId,
    seq: u32,
    ids: Ids,
) -> Result<Text, Memory>
    requires fits { IsStatement (statement.Voucher (record { node = node; seq = seq; ids = ids })) }
    requires leaf { seq < 2 ^ (G.key_of signer.now).height }
    ensures text { IfOk result (λ t. IsText t (voucher_text (G.signature_of signer.now) node seq ids)) }
    ensures fits { IfOk result (λ t. IfSome t.signed IsSigned) }
    ensures voucher { IfOk result (λ t. IfSome t.signed (λ s. s.statement ≡ statement.Voucher (record { node = node; seq = seq; ids = ids }))) }
{
    let answer = numbers_and_count(alloc, node, seq, ids.as_slice().len())?;
    let voucher = Voucher { node, seq, ids };
    let signed = signed(alloc, signer, Statement::Voucher(voucher))?;
    let mut bytes = Bytes::new(alloc);
    put_signed(alloc, &mut bytes, &signed)?;
    Ok(Text {
        bytes,
        signed: Some(signed),
        plain: false,
        answer,
    })
}

/// The node and seq of a voucher, and how many ids it has: `NODE/SEQ ids COUNT`.
fn numbers_and_count(alloc: Global, node: NodeId, seq: u32, count: usize) -> Result<Bytes, Memory>
    ensures { IfOk result (λ text. text ≡ decimal node ++ codes "/" ++ decimal seq ++ spaced (text_of_number (codes "ids") count)) }
{
    let node = node.number();
    let text = format!(in alloc; "{node}/{seq} ids {count}")?;
    Ok(Bytes::from_vec(text.into_bytes()))
}

/// The frame of the proof that two signed statements make, the one with the smaller body first. It doesn't check that
/// they contradict each other.
pub fn proof(alloc: Global, kind: Kind, a: &Signed, b: &Signed) -> Result<Text, Memory>
    requires kind { IsPairKind kind }
    requires first { IsSigned a.now }
    requires second { IsSigned b.now }
    ensures { IfOk result (λ t. IsText t (proof_with kind (proof_of_halves kind a.now b.now))) }
{
    let proof = proof_of(kind, a, b)?;
    framed(alloc, kind, &proof)
}

/// The frame of the proof that a voucher is hollow, for a text. It doesn't check that it is.
pub fn hollow(alloc: Global, voucher: &Signed, text: &[u8]) -> Result<Text, Memory>
    requires voucher { IsSigned voucher.now }
    requires short { length text.now ≤ MOST_VALUE }
    ensures { IfOk result (λ t. IsText t (proof_with NotUpdate (Hollow voucher.now text.now))) }
{
    let proof = hollow_of(alloc, voucher, text)?;
    framed(alloc, Kind::NotUpdate, &proof)
}

/// The frame of a proof, and the name of its kind.
fn framed(alloc: Global, kind: Kind, proof: &Proof) -> Result<Text, Memory>
    requires { IsProof proof.now }
    ensures { IfOk result (λ t. IsText t (proof_with kind proof.now)) }
{
    let mut bytes = Bytes::new(alloc);
    put_proof(alloc, &mut bytes, proof)?;
    let answer = Bytes::from_slice(alloc, name_of_kind(kind).as_bytes())?;
    Ok(Text {
        bytes,
        signed: None,
        plain: false,
        answer,
    })
}

/// A reference names nothing: the label holds no bytes.
pub fn no_reference(alloc: Global) -> Result<Text, Memory>
    ensures { IfOk result (λ t. IsText t no_reference) }
{
    Ok(Text {
        bytes: Bytes::new(alloc),
        signed: None,
        plain: false,
        answer: Bytes::from_slice(alloc, b"NoRef")?,
    })
}

/// Bytes, and how many they are.
fn counted(alloc: Global, bytes: Bytes) -> Result<Text, Memory>
    ensures { IfOk result (λ t. IsText t (counted_bytes bytes)) }
{
    let count = bytes.as_slice().len();
    let answer = format!(in alloc; "{count} bytes")?;
    Ok(Text {
        bytes,
        signed: None,
        plain: true,
        answer: Bytes::from_vec(answer.into_bytes()),
    })
}

/// Bytes as they are.
pub fn raw(alloc: Global, bytes: &[u8]) -> Result<Text, Memory>
    ensures { IfOk result (λ t. IsText t (counted_bytes bytes.now)) }
{
    counted(alloc, Bytes::from_slice(alloc, bytes)?)
}

/// `count` bytes from the place `start` on, from 0, or as many as there are.
pub fn cut(alloc: Global, source: &[u8], start: u32, count: u32) -> Result<Text, Memory>
    ensures { IfOk result (λ t. IsText t (counted_bytes (take count (drop start source.now)))) }
{
    let rest = source.get(start as usize..).unwrap_or(&[]);
    let part = rest.get(..count as usize).unwrap_or(rest);
    raw(alloc, part)
}

/// Changes the lowest bit of the byte at a place, if there is one.
#[tactic(auto, using(crate::proofs::FlipLaws::flip_within, crate::proofs::FlipLaws::flip_past))]
fn flip_bit(bytes: &mut [u8], place: usize)
    ensures { bytes.new ≡ flip_at place bytes.old }
{
    if place < bytes.len() {
        bytes[place] ^= 1;
    }
}

/// The bytes with the lowest bit of the one at `place`, from 0, changed; unchanged if there is none.
pub fn flip(alloc: Global, source: &[u8], place: u32) -> Result<Text, Memory>
    ensures { IfOk result (λ t. IsText t (counted_bytes (flip_at place source.now))) }
{
    let mut bytes = Vec::from_slice(alloc, source)?;
    flip_bit(&mut bytes, place as usize);
    counted(alloc, Bytes::from_vec(bytes))
}

/// The bytes of `first` and after them those of `second`.
pub fn join(alloc: Global, first: &[u8], second: &[u8]) -> Result<Text, Memory>
    ensures { IfOk result (λ t. IsText t (counted_bytes (first.now ++ second.now))) }
{
    let mut bytes = Bytes::from_slice(alloc, first)?;
    bytes.push_all(second)?;
    counted(alloc, bytes)
}
