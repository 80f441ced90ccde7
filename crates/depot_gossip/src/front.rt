//! What precedes the updates and values of a bundle: proofs, and own vouchers.
ghost use Rattle.std.specs.Prelude.{◌≡◌, ◌<◌, ◌≤◌, ◌+◌, [], false, length, map, Some, OnOk, IfOk, slice_get};
ghost use Rattle.depot_base.specs.Tags.{frame_byte};
ghost use Rattle.depot_base.specs.declared.limits.TheConstants.{MOST_PAYLOAD, MOST_RECORDS};
ghost use Rattle.depot_base.specs.declared.record.Record.TheVariants.{OwnVoucher, Conviction};
ghost use Rattle.depot_base.specs.declared.proof.Proof.{Proof};
ghost use Rattle.depot_base.specs.declared.voucher.Voucher.{Voucher};
ghost use Rattle.depot_model.specs.exchange.Bundle.{proof_frame, proofs_for, voucher_frame, vouchers_for};
ghost use Rattle.depot_model.specs.texts.Texts.{text_of_proof};
ghost use Rattle.depot_gossip.specs.Fronts.{AddsFrame, AreFrames, IsFront};

use depot_base::{Bytes, FrameTag, Ids, Memory};
use depot_model::{Hello, Peer};
use depot_streams::put_frame;
use std::alloc::Global;

/// The frames before the updates and values of a bundle.
#[derive(Drop)]
pub(crate) struct BundleFront {
    /// Those of the proofs.
    pub proofs: FrontFrames,
    /// Those of the own vouchers.
    pub vouchers: FrontFrames,
}

/// Frames one after the other, and how many there are.
#[derive(Drop)]
pub(crate) struct FrontFrames {
    /// Their bytes.
    pub bytes: Bytes,
    /// How many there are.
    pub count: u32,
}

impl FrontFrames {
    /// Nothing yet. It takes no memory.
    fn new(alloc: Global) -> FrontFrames
        ensures { AreFrames [] result }
    {
        FrontFrames {
            bytes: Bytes::new(alloc),
            count: 0,
        }
    }

    /// Adds a frame.
    fn put(&mut self, tag: FrameTag, payload: &[u8]) -> Result<(), Memory>
        requires short { length payload.now ≤ MOST_PAYLOAD }
        requires few { self.old.count < MOST_RECORDS }
        ensures added { AddsFrame self.old (record { tag = frame_byte tag; payload = payload.now }) self.new result }
        ensures count { OnOk result (self.new.count ≡ self.old.count + 1) }
    {
        put_frame(&mut self.bytes, tag, payload)?;
        self.count += 1;
        Ok(())
    }

    /// Adds the frame of the proof at a place. Its text follows the record's tag: nothing is decoded.
    fn put_proof<R: Peer>(&mut self, node: &R, place: u32) -> Result<(), Memory>
        requires at { (p : Proof) × (slice_get (R.records node.now) place ≡ Some (Conviction p)) }
        requires few { self.old.count < MOST_RECORDS }
        ensures added { (p : Proof) → slice_get (R.records node.now) place ≡ Some (Conviction p) → AddsFrame self.old (proof_frame p) self.new result }
        ensures count { OnOk result (self.new.count ≡ self.old.count + 1) }
    {
        self.put(FrameTag::Proof, proof_text(node, place))
    }

    /// Adds the frame of the own voucher of a place.
    fn put_voucher<R: Peer>(&mut self, node: &R, place: u32) -> Result<(), Memory>
        requires at { (v : Voucher) × (slice_get (R.records node.now) place ≡ Some (OwnVoucher v)) }
        requires few { self.old.count < MOST_RECORDS }
        ensures added { (v : Voucher) → slice_get (R.records node.now) place ≡ Some (OwnVoucher v) → AddsFrame self.old (voucher_frame (R.signature_of node.now) v) self.new result }
        ensures count { OnOk result (self.new.count ≡ self.old.count + 1) }
    {
        let text = node.signed_text(place)?;
        self.put(FrameTag::Statement, text.as_slice())
    }
}

/// The text of the proof of a place. It takes no memory.
fn proof_text<R: Peer>(node: &R, place: u32) -> &[u8]
    requires { (p : Proof) × (slice_get (R.records node.now) place ≡ Some (Conviction p)) }
    ensures { (p : Proof) → slice_get (R.records node.now) place ≡ Some (Conviction p) → result.now ≡ text_of_proof p }
{
    let text = node.record_text(place);
    // A record's text has a tag.
    let [_, proof @ ..] = text else {
        return text;
    };
    proof
}

/// The frames of the proofs against nodes that a hello doesn't list as convicted.
fn proof_frames<R: Peer>(alloc: Global, node: &R, hello: &Hello) -> Result<FrontFrames, Memory>
    requires { R.stopped node.now ≡ false }
    ensures { IfOk result (AreFrames (map proof_frame (proofs_for (R.records node.now) hello.now))) }
{
    let places = node.proof_places(&hello.convicted)?;
    let mut frames = FrontFrames::new(alloc);
    for place in places.as_slice() {
        frames.put_proof(node, *place)?;
    }
    Ok(frames)
}

/// The frames of the own vouchers that name one of these ids.
fn voucher_frames<R: Peer>(alloc: Global, node: &R, ids: &Ids) -> Result<FrontFrames, Memory>
    requires { R.stopped node.now ≡ false }
    ensures { IfOk result (AreFrames (map (voucher_frame (R.signature_of node.now)) (vouchers_for (R.records node.now) ids.now))) }
{
    let places = node.voucher_places(ids)?;
    let mut frames = FrontFrames::new(alloc);
    for place in places.as_slice() {
        frames.put_voucher(node, *place)?;
    }
    Ok(frames)
}

impl BundleFront {
    /// The frames of the proofs for a hello, and of the own vouchers that name one of these ids. It reads no other
    /// record.
    pub(crate) fn of<R: Peer>(
        alloc: Global,
        node: &R,
        hello: &Hello,
        ids: &Ids,
    ) -> Result<BundleFront, Memory>
        requires { R.stopped node.now ≡ false }
        ensures { IfOk result (λ f. IsFront (R.signature_of node.now) (R.records node.now) hello.now ids.now f) }
    {
        let proofs = proof_frames(alloc, node, hello)?;
        let vouchers = voucher_frames(alloc, node, ids)?;
        Ok(BundleFront { proofs, vouchers })
    }
}
