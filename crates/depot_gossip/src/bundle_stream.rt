//! The stream of a bundle. It reuses the buffer of the chosen frames: they are moved after the leading frames, not
//! copied.
ghost use Rattle.std.specs.Prelude.{◌≡◌, ◌++◌, false, OnOk, IfOk, if◌then◌else◌};
ghost use Rattle.depot_gossip.specs.BundleStreams.{IsJoined, IsStream};

use crate::front::BundleFront;
use depot_base::{Bytes, FrameTag, Memory};
use depot_model::{Counts, Hello, Peer};
use depot_streams::{Sending, put_frame};
use std::alloc::Global;

/// A bundle: the stream that a node sends for a hello.
#[derive(Debug, Drop)]
pub struct Bundled {
    /// Its bytes: the frames of proofs, own vouchers, updates with their values, wanted values, and End.
    pub bytes: Bytes,
    /// How many frames of each sort there are, beside End.
    pub counts: Counts,
    /// Whether something that the reader lacks didn't fit. The End frame says the same.
    pub more: bool,
}

/// What the End frame says: 1 where there is more, else 0.
fn flag_of(more: bool) -> u8
    ensures { result ≡ (if more then 1 else 0) }
{
    if more { 1 } else { 0 }
}

/// How many bytes the frame End has.
const END_BYTES: usize = 6;

/// Puts the leading frames before what is sent, in the same buffer. The buffer grows by them and by what End takes, and
/// no more.
fn put_in_front(sent: &mut Vec<u8>, front: &BundleFront) -> Result<(), Memory>
    ensures { OnOk result (sent.new.items ≡ front.now.proofs.bytes ++ (front.now.vouchers.bytes ++ sent.old.items)) }
{
    let behind = sent.len();
    let proofs = front.proofs.bytes.as_slice();
    let vouchers = front.vouchers.bytes.as_slice();
    let front_bytes = proofs.len().saturating_add(vouchers.len());
    sent.reserve_exact(front_bytes.saturating_add(END_BYTES))?;
    sent.extend_from_slice(proofs)?;
    sent.extend_from_slice(vouchers)?;
    sent.rotate_left(behind);
    Ok(())
}

/// The stream: the leading frames, what is sent, and End, in the buffer of what is sent.
#[tactic(auto, using(depot_base::proofs::Writing::texts))]
fn stream_of(front: &BundleFront, sending: Sending) -> Result<Bundled, Memory>
    ensures { IfOk result (λ b. IsJoined front.now sending b) }
{
    let mut sent = sending.frames.into_vec();
    put_in_front(&mut sent, front)?;
    let mut bytes = Bytes::from_vec(sent);
    put_frame(&mut bytes, FrameTag::End, &[flag_of(sending.more)])?;
    Ok(Bundled {
        bytes,
        counts: Counts {
            proofs: front.proofs.count,
            vouchers: front.vouchers.count,
            updates: sending.updates,
            values: sending.values,
        },
        more: sending.more,
    })
}

/// Makes the bundle of what was chosen for a hello, once its vouchers are in the journal. It takes over the buffer of
/// what was chosen, and copies none of it.
pub fn bundle_for<R: Peer>(
    alloc: Global,
    node: &R,
    hello: &Hello,
    sending: Sending,
) -> Result<Bundled, Memory>
    requires { R.stopped node.now ≡ false }
    ensures { IfOk result (λ b. IsStream (R.signature_of node.now) (R.records node.now) hello.now sending b) }
{
    let front = BundleFront::of(alloc, node, hello, &sending.ids)?;
    stream_of(&front, sending)
}
