//! The signed statement of a record.
ghost use Rattle.std.specs.Prelude.{◌≡◌, ◌∷◌, ◌+◌, ◌≤◌, ℕ, List, length, take, drop, map, IfOk, option_copied, option_to_list};
ghost use Rattle.std.specs.Int.{w32, from_be_bytes};
ghost use Rattle.depot_base.specs.declared.limits.TheConstants.{MOST_BODY, MOST_SIGNATURE};
ghost use Rattle.depot_base.specs.declared.record.Record.{Record};
ghost use Rattle.depot_base.specs.declared.statement.Statement.{Statement};
ghost use Rattle.depot_model.specs.exchange.Bundle.{signed_with};
ghost use Rattle.depot_model.specs.journals.Journal.{own_by};
ghost use Rattle.depot_model.specs.texts.Texts.{IsStatement, text_of_statement, text_of_signed};
ghost use Rattle.depot_model.specs.texts.Records.{IsTextOf};
ghost use Rattle.depot_queries.specs.SignedRecords.{IsLeafText, IsSignable, IsSignedTextOf};

use depot_base::{Bytes, Memory, RecordTag};
use depot_model::Signer;
use std::alloc::Global;

/// The text of the signed statement that a record holds: another's as it came, an own one signed now. `text` is the record's.
pub fn signed_text<G: Signer>(alloc: Global, signer: &G, text: &[u8]) -> Result<Bytes, Memory>
    requires { (r : Record) × IsSignable (G.key_of signer.now) (G.signature_of signer.now) r text.now }
    ensures { IfOk result (IsSignedTextOf (G.key_of signer.now) (G.signature_of signer.now) text.now) }
{
    match own_body(text) {
        Some(body) => own_text(alloc, signer, body),
        // After the tag comes the signed statement's text: nothing is decoded or encoded.
        None => without_tag(alloc, text),
    }
}

/// The body of the own statement that a record holds, if it holds one. `text` is the record's.
fn own_body(text: &[u8]) -> Option<&[u8]>
    requires { (r : Record) × IsTextOf r text.now }
    ensures { (r : Record) → IsTextOf r text.now → option_to_list (option_copied result) ≡ map text_of_statement (own_by r) }
{
    let [tag, body @ ..] = text else {
        unreachable!();
    };
    if *tag == RecordTag::OwnPut.byte() {
        return Some(body_in_own_put(text));
    }
    if *tag == RecordTag::OwnVoucher.byte() {
        return Some(body);
    }
    None
}

/// The body of the update in the text of an own update's record.
fn body_in_own_put(text: &[u8]) -> &[u8]
    requires long { 5 ≤ length text.now }
    requires whole { 5 + from_be_bytes w32 (take 4 (drop 1 text.now)) ≤ length text.now }
    ensures { result.now ≡ take (from_be_bytes w32 (take 4 (drop 1 text.now))) (drop 5 text.now) }
{
    let length = u32::from_be_bytes([text[1], text[2], text[3], text[4]]);
    &text[5..5 + length as usize]
}

/// The text of a statement of the signer's own, signed now. `body` is the statement's: it is signed and copied
/// unchanged.
fn own_text<G: Signer>(alloc: Global, signer: &G, body: &[u8]) -> Result<Bytes, Memory>
    requires { (s : Statement) × IsLeafText (G.key_of signer.now) s body.now }
    ensures { IfOk result (λ text. (s : Statement) → IsStatement s → body.now ≡ text_of_statement s → text ≡ text_of_signed (signed_with (G.signature_of signer.now) s)) }
{
    let signature = signer.sign(seq_in(body), body)?;
    write_signed(alloc, body, signature.as_slice())
}

/// The seq of the statement with this body. An update and a voucher have it at the same offset: after version, kind and
/// node.
fn seq_in(body: &[u8]) -> u32
    requires { 8 ≤ length body.now }
    ensures { result ≡ from_be_bytes w32 (take 4 (drop 4 body.now)) }
{
    u32::from_be_bytes([body[4], body[5], body[6], body[7]])
}

/// The text of the signed statement with this body and this signature, each after its length. Its memory is reserved
/// first.
#[tactic(auto, using(depot_base::proofs::Writing::texts), unfolding(depot_model::specs::texts::Texts::signed, depot_base::specs::Format::number, depot_base::specs::Format::bytes_of))]
fn write_signed(alloc: Global, body: &[u8], signature: &[u8]) -> Result<Bytes, Memory>
    requires body { length body.now ≤ MOST_BODY }
    requires signature { length signature.now ≤ MOST_SIGNATURE }
    ensures { IfOk result (λ text. (s : Statement) → body.now ≡ text_of_statement s → text ≡ text_of_signed (record { statement = s; body = body.now; signature = signature.now })) }
{
    let room = Vec::with_capacity(alloc, 8 + body.len() + signature.len())?;
    let mut text = Bytes::from_vec(room);
    text.push_u32(body.len() as u32)?;
    text.push_all(body)?;
    text.push_u32(signature.len() as u32)?;
    text.push_all(signature)?;
    Ok(text)
}

/// The text without its first byte.
fn without_tag(alloc: Global, text: &[u8]) -> Result<Bytes, Memory>
    ensures { IfOk result (λ made. (tag : ℕ) (rest : List ℕ) → text.now ≡ tag ∷ rest → made ≡ rest) }
{
    Bytes::from_slice(alloc, text.get(1..).unwrap_or(&[]))
}
