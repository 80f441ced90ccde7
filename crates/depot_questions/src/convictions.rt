//! Whom a node convicted, and by which proofs.
ghost use Rattle.std.specs.Prelude.{◌≡◌, ◌∷◌, [], drop, true, false, Some, slice_get, IfOk};
ghost use Rattle.std.specs.List.{AllByRecursion};
ghost use Rattle.depot_base.specs.declared.proof.Proof.{Proof};
ghost use Rattle.depot_base.specs.declared.record.Record.{Record};
ghost use Rattle.depot_model.specs.exchange.Bundle.{convicts_other};
ghost use Rattle.depot_model.specs.texts.Contents.{accused};
ghost use Rattle.depot_model.specs.texts.Texts.{IsProof, text_of_proof};
ghost use Rattle.depot_questions.specs.AddedConvictions.{AddsConviction, convictions_of};
ghost use Rattle.depot_questions.specs.Answers.{conviction_page, conviction_told, convictions_onward};

use crate::limits::MOST_PROOFS_TOLD;
use crate::question_answer::{ConvictionAt, ConvictionPage};
use depot_base::{Bytes, DecodeError, Memory, NodeId, Nodes, Sequence};
use depot_queries::LocalNode;
use depot_update::decode_proof;
use std::alloc::Global;

/// The node that the text of a proof accuses.
fn accused(alloc: Global, text: &[u8]) -> Result<NodeId, Memory>
    requires { (p : Proof) × (IsProof p × (text.now ≡ text_of_proof p)) }
    ensures { IfOk result (λ node. (p : Proof) → IsProof p → text.now ≡ text_of_proof p → node ≡ accused p) }
{
    match decode_proof(alloc, text) {
        Ok(proof) => Ok(proof.accused()),
        Err(DecodeError::Memory) => Err(Memory),
        Err(DecodeError::IllFormed(_)) => unreachable!(),
    }
}

/// What follows the tag of a record's text.
fn behind_tag(text: &[u8]) -> &[u8]
    ensures { result.now ≡ drop 1 text.now }
{
    match text {
        [_, rest @ ..] => rest,
        [] => text,
    }
}

/// The conviction by the record of a place.
fn conviction_at<N: LocalNode>(alloc: Global, node: &N, place: u32) -> Result<ConvictionAt, Memory>
    requires { (r : Record) × ((slice_get (N.records node.now) place ≡ Some r) × (convicts_other [] r ≡ true)) }
    ensures { IfOk result (λ made. conviction_told (N.records node.now) place ≡ made ∷ []) }
{
    let text = behind_tag(node.record_text(place));
    let node = accused(alloc, text)?;
    Ok(ConvictionAt {
        place,
        node,
        text: Bytes::from_slice(alloc, text)?,
    })
}

/// Adds the conviction by the record of a place, if that is in range, and returns the room that is left, `None` if
/// there isn't enough.
fn add_conviction<N: LocalNode>(
    alloc: Global,
    node: &N,
    from: u32,
    place: u32,
    convictions: &mut Sequence<ConvictionAt>,
    room: usize,
) -> Result<Option<usize>, Memory>
    requires { (r : Record) × ((slice_get (N.records node.now) place ≡ Some r) × (convicts_other [] r ≡ true)) }
    ensures { AddsConviction (N.records node.now) from place convictions.old room result convictions.new }
{
    if place < from {
        return Ok(Some(room));
    }
    let conviction = conviction_at(alloc, node, place)?;
    let bytes = 10 + conviction.text.as_slice().len();
    if bytes > room {
        return Ok(None);
    }
    convictions.push(conviction)?;
    Ok(Some(room - bytes))
}

/// The page that begins with the convictions by the records of these places, from one on.
fn page_from<N: LocalNode>(
    alloc: Global,
    node: &N,
    places: &[u32],
    from: u32,
) -> Result<ConvictionPage, Memory>
    requires { AllByRecursion (λ place. (r : Record) × ((slice_get (N.records node.now) place ≡ Some r) × (convicts_other [] r ≡ true))) places.now }
    ensures { IfOk result (λ page. page ≡ conviction_page (convictions_of (N.records node.now) from places.now)) }
{
    let mut convictions = Sequence::new(alloc);
    let mut room = MOST_PROOFS_TOLD as usize;
    for place in places {
        match add_conviction(alloc, node, from, *place, &mut convictions, room)? {
            Some(left) => room = left,
            None => {
                return Ok(ConvictionPage {
                    convictions,
                    more: true,
                });
            }
        }
    }
    Ok(ConvictionPage {
        convictions,
        more: false,
    })
}

/// The convictions by records from a place on: as many as `MOST_PROOFS_TOLD` bytes have room for.
pub(crate) fn convictions_from<N: LocalNode>(
    alloc: Global,
    node: &N,
    from: u32,
) -> Result<ConvictionPage, Memory>
    requires { N.stopped node.now ≡ false }
    ensures { IfOk result (λ page. page ≡ conviction_page (convictions_onward (N.records node.now) from)) }
{
    let places = node.proof_places(&Nodes::new(alloc))?;
    page_from(alloc, node, places.as_slice(), from)
}
