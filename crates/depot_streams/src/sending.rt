//! The updates and values that a bundle sends, as far as they are chosen.
ghost use Rattle.std.specs.Prelude.{◌≡◌, ◌++◌, ◌≤◌, ◌+◌, ◌*◌, ℕ, [], length, OnOk};
ghost use Rattle.std.specs.List.{flat_map};
ghost use Rattle.depot_base.specs.declared.limits.TheConstants.{MOST_PAYLOAD, MOST_WRITES};
ghost use Rattle.depot_base.specs.Tags.{frame_byte};
ghost use Rattle.depot_model.specs.texts.Frames.{text_of_frame};
ghost use Rattle.depot_model.specs.exchange.Bundle.{bytes_of_frames};
ghost use Rattle.depot_streams.specs.Sendings.{Holds, IsShort, Adds, ArePayloads, payloads_of, frames_under};

use crate::frame_text::put_frame;
use depot_base::limits::{MOST_BUNDLE, MOST_BUNDLE_FRAMES};
use depot_base::{Bytes, FrameTag, Ids, Memory};
use std::alloc::Global;

/// The updates and values that a bundle sends, as far as they are chosen.
#[derive(Drop)]
pub struct Sending {
    /// Their frames, one after another.
    pub frames: Bytes,
    /// How many updates there are.
    pub updates: u32,
    /// How many values there are.
    pub values: u32,
    /// The ids of the updates that the node didn't write, in their order.
    pub ids: Ids,
    /// Whether something that should be sent had no room.
    pub more: bool,
}

/// How many bytes the frames of payloads have.
fn frames_length(payloads: &[&[u8]]) -> usize
    requires few { length payloads.now ≤ 1 + MOST_WRITES }
    requires short { ArePayloads (payloads_of payloads.now) }
    ensures bytes { (tag : ℕ) → result ≡ bytes_of_frames (frames_under tag (payloads_of payloads.now)) }
    ensures short { result ≤ length payloads.now * (5 + MOST_PAYLOAD) }
{
    let mut bytes = 0;
    for payload in payloads {
        bytes += 5 + payload.len();
    }
    bytes
}

/// Writes the frames of payloads, all under one tag.
fn put_frames(out: &mut Bytes, tag: FrameTag, payloads: &[&[u8]]) -> Result<(), Memory>
    requires { ArePayloads (payloads_of payloads.now) }
    ensures { OnOk result (out.new ≡ out.old ++ flat_map text_of_frame (frames_under (frame_byte tag) (payloads_of payloads.now))) }
{
    for payload in payloads {
        put_frame(out, tag, payload)?;
    }
    Ok(())
}

impl Sending {
    /// Nothing yet. It takes no memory.
    pub fn new(alloc: Global) -> Sending
        ensures { (me : ℕ) → Holds me [] result }
    {
        Sending {
            frames: Bytes::new(alloc),
            updates: 0,
            values: 0,
            ids: Ids::new(alloc),
            more: false,
        }
    }

    /// Adds the frames of signed statements and of the values after them, at most 17 of them, where all fit into the
    /// bundle after what is chosen already. Returns whether they do. Where they don't, nothing is added.
    pub fn add(&mut self, statements: &[&[u8]], values: &[&[u8]]) -> Result<bool, Memory>
        requires short { IsShort self.old }
        requires few { length statements.now + length values.now ≤ 1 + MOST_WRITES }
        requires told { ArePayloads (payloads_of statements.now) }
        requires values { ArePayloads (payloads_of values.now) }
        ensures { Adds self.old (payloads_of statements.now) (payloads_of values.now) result self.new }
    {
        let bytes = self.frames.as_slice().len()
            + frames_length(statements)
            + frames_length(values);
        let count = (self.updates + self.values) as usize + statements.len() + values.len();
        if bytes > MOST_BUNDLE as usize || count > MOST_BUNDLE_FRAMES as usize {
            return Ok(false);
        }
        put_frames(&mut self.frames, FrameTag::Statement, statements)?;
        put_frames(&mut self.frames, FrameTag::Value, values)?;
        self.updates += statements.len() as u32;
        self.values += values.len() as u32;
        Ok(true)
    }
}
