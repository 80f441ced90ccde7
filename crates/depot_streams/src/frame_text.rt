//! The text of a frame.
ghost use Rattle.std.specs.Prelude.{◌≡◌, ◌++◌, ◌≤◌, length, OnOk};
ghost use Rattle.depot_base.specs.declared.limits.TheConstants.{MOST_PAYLOAD};
ghost use Rattle.depot_base.specs.Tags.{frame_byte};
ghost use Rattle.depot_model.specs.texts.Frames.{text_of_frame};

use depot_base::{Bytes, FrameTag, Memory};

/// Appends a frame: its tag, the length of its payload in four bytes, and the payload, of at most 131,072 bytes.
#[tactic(auto, using(depot_base::proofs::Writing::texts))]
pub fn put_frame(out: &mut Bytes, tag: FrameTag, payload: &[u8]) -> Result<(), Memory>
    requires { length payload.now ≤ MOST_PAYLOAD }
    ensures { OnOk result (out.new ≡ out.old ++ text_of_frame (record { tag = frame_byte tag; payload = payload.now })) }
{
    out.push_all(&[tag.byte()])?;
    out.push_u32(payload.len() as u32)?;
    out.push_all(payload)
}
