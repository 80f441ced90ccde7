//! Statements that are signed for faulty nodes, and the halves of a proof.
ghost use Rattle.std.specs.Prelude.{◌≡◌, ◌++◌, ◌^◌, ◌<◌, ◌≤◌, length, IfOk, OnOk};
ghost use Rattle.depot_base.specs.Shown.{IsPairKind};
ghost use Rattle.depot_base.specs.Statement.{seq_of};
ghost use Rattle.depot_base.specs.declared.limits.TheConstants.{MOST_VALUE};
ghost use Rattle.depot_base.specs.declared.proof.Proof.TheVariants.{Hollow, Pair};
ghost use Rattle.depot_model.specs.exchange.Bundle.{proof_frame, signed_with, statement_frame};
ghost use Rattle.depot_model.specs.texts.Frames.{text_of_frame};
ghost use Rattle.depot_model.specs.texts.Texts.{IsProof, IsSigned, IsStatement};
ghost use Rattle.depot_world.specs.FaultySigning.{proof_of_halves};

use depot_base::{Bytes, FrameTag, Kind, Memory, Proof, Signed, Statement};
use depot_model::Signer;
use depot_streams::put_frame;
use depot_update::{encode_proof, encode_signed, encode_statement};
use std::alloc::Global;

/// The statement with its text, and its signature by the leaf of its number.
#[tactic(auto, using(crate::proofs::SignedLaws::signed_by_parts))]
pub fn signed<G: Signer>(alloc: Global, signer: &G, statement: Statement) -> Result<Signed, Memory>
    requires fits { IsStatement statement }
    requires leaf { seq_of statement < 2 ^ (G.key_of signer.now).height }
    ensures made { IfOk result (λ s. s ≡ signed_with (G.signature_of signer.now) statement) }
    ensures fits { IfOk result IsSigned }
    ensures statement { IfOk result (λ s. s.statement ≡ statement) }
{
    let body = encode_statement(alloc, &statement)?;
    let signature = signer.sign(statement.seq(), body.as_slice())?;
    Ok(Signed {
        statement,
        body,
        signature,
    })
}

/// Writes the frame of a signed statement. On `Memory` a prefix of it may have been written.
pub fn put_signed(alloc: Global, out: &mut Bytes, signed: &Signed) -> Result<(), Memory>
    requires { IsSigned signed.now }
    ensures { OnOk result (out.new ≡ out.old ++ text_of_frame (statement_frame signed.now)) }
{
    let text = encode_signed(alloc, signed)?;
    put_frame(out, FrameTag::Statement, text.as_slice())
}

/// Writes the frame of a proof. On `Memory` a prefix of it may have been written.
pub fn put_proof(alloc: Global, out: &mut Bytes, proof: &Proof) -> Result<(), Memory>
    requires { IsProof proof.now }
    ensures { OnOk result (out.new ≡ out.old ++ text_of_frame (proof_frame proof.now)) }
{
    let text = encode_proof(alloc, proof)?;
    put_frame(out, FrameTag::Proof, text.as_slice())
}

/// Two signed statements as the halves of a proof of this kind.
#[tactic(auto, using(crate::proofs::SignedLaws::halves_have_text))]
fn proof_from(kind: Kind, first: &Signed, second: &Signed) -> Result<Proof, Memory>
    requires kind { IsPairKind kind }
    requires first { IsSigned first.now }
    requires second { IsSigned second.now }
    ensures made { IfOk result (λ p. p ≡ Pair kind first.now second.now) }
    ensures fits { IfOk result IsProof }
{
    let first = first.copy()?;
    let second = second.copy()?;
    Ok(Proof::Pair {
        kind,
        first,
        second,
    })
}

/// The same, the one with the smaller body first. It doesn't check that they contradict each other.
pub fn proof_of(kind: Kind, a: &Signed, b: &Signed) -> Result<Proof, Memory>
    requires kind { IsPairKind kind }
    requires first { IsSigned a.now }
    requires second { IsSigned b.now }
    ensures made { IfOk result (λ p. p ≡ proof_of_halves kind a.now b.now) }
    ensures fits { IfOk result IsProof }
{
    if b.body.as_slice().cmp(a.body.as_slice()).is_lt() {
        proof_from(kind, b, a)
    } else {
        proof_from(kind, a, b)
    }
}

/// A voucher and a text as a proof that the voucher is hollow. It doesn't check that it is.
#[tactic(auto, using(crate::proofs::SignedLaws::hollow_has_text))]
pub fn hollow_of(alloc: Global, voucher: &Signed, text: &[u8]) -> Result<Proof, Memory>
    requires voucher { IsSigned voucher.now }
    requires short { length text.now ≤ MOST_VALUE }
    ensures made { IfOk result (λ p. p ≡ Hollow voucher.now text.now) }
    ensures fits { IfOk result IsProof }
{
    let voucher = voucher.copy()?;
    let text = Bytes::from_slice(alloc, text)?;
    Ok(Proof::Hollow { voucher, text })
}
