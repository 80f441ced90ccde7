//! Checkpoints and their texts.
ghost use Rattle.std.specs.Prelude.{◌≡◌, ◌++◌, OnOk, IfOk};
ghost use Rattle.depot_base.specs.Format.{whole};
ghost use Rattle.depot_base.specs.Reading.{Reads, Gives, Decodes};
ghost use Rattle.depot_model.specs.readers.Checkpoints.{checkpoint, IsCheckpoint, text_of_checkpoint};

use depot_base::fault::{Fault, answer};
use depot_base::reading::{at_end, hash_in, u8_in, u16_in};
use depot_base::{Bytes, DecodeError, Fields, Hash32, Memory};
use depot_model::HelloLeaves;
use depot_streams::{leaves_in, put_list};
use std::alloc::Global;
use std::marker::Model;

/// The most leaves that a checkpoint names.
pub const MOST_NAMED: u16 = 1024;

/// A checkpoint: a roster, and the leaves of what a node accepted. Its signatures by all members show that each of them
/// has accepted all updates below.
#[derive(Drop)]
pub struct Checkpoint {
    /// SHA-256 of the roster.
    pub roster: Hash32,
    /// The leaves, 1 to 1,024, rising strictly by (writer, id).
    pub leaves: HelloLeaves,
}

impl Model for Checkpoint {
    ghost use Rattle.depot_model.specs.readers.Checkpoints.{Checkpoint as Named};

    ghost Value = { Named };

    ghost view = { λ c. record { roster = c.roster; leaves = c.leaves } };
}

/// A checkpoint.
#[tactic(auto, unfolding(depot_model::specs::readers::Checkpoints::checkpoint))]
fn checkpoint_in(alloc: Global, fields: &mut Fields<'_>) -> Result<Checkpoint, Fault>
    ensures { Reads result fields.new (checkpoint.read fields.old) }
{
    u8_in(fields, 1, 1)?;
    u8_in(fields, 6, 6)?;
    let roster = hash_in(fields)?;
    let count = u16_in(fields, 1, MOST_NAMED)?;
    let leaves = leaves_in(alloc, fields, count)?;
    Ok(Checkpoint { roster, leaves })
}

/// The same, of all the bytes that are left.
fn whole_checkpoint(alloc: Global, fields: &mut Fields<'_>) -> Result<Checkpoint, Fault>
    ensures { Gives result (whole checkpoint fields.old) }
{
    let found = checkpoint_in(alloc, fields)?;
    at_end(fields, found)
}

/// Decodes a checkpoint's text (docs/FORMATS.md). `IllFormed` is returned exactly when it is no checkpoint's text, with
/// the offset in bytes of its first fault. It doesn't check that a roster has the writers.
pub fn decode_checkpoint(alloc: Global, text: &[u8]) -> Result<Checkpoint, DecodeError>
    ensures { Decodes checkpoint text.now result }
{
    answer(whole_checkpoint(alloc, &mut Fields::new(text)))
}

/// Writes a checkpoint.
#[tactic(auto, using(depot_base::proofs::Writing::texts), unfolding(depot_model::specs::readers::Checkpoints::checkpoint, depot_base::specs::Format::number, depot_base::specs::Format::bytes_of, depot_base::specs::Format::list_of))]
fn put_checkpoint(out: &mut Bytes, checkpoint: &Checkpoint) -> Result<(), Memory>
    requires { IsCheckpoint checkpoint.now }
    ensures { OnOk result (out.new ≡ out.old ++ text_of_checkpoint checkpoint.now) }
{
    out.push_u8(1)?;
    out.push_u8(6)?;
    out.push_all(checkpoint.roster.bytes())?;
    put_list(out, checkpoint.leaves.as_slice())
}

/// The checkpoint's one text, of 70 to 34,852 bytes (docs/FORMATS.md).
pub fn encode_checkpoint(alloc: Global, checkpoint: &Checkpoint) -> Result<Bytes, Memory>
    requires { IsCheckpoint checkpoint.now }
    ensures { IfOk result (λ text. text ≡ text_of_checkpoint checkpoint.now) }
{
    let mut out = Bytes::new(alloc);
    put_checkpoint(&mut out, checkpoint)?;
    Ok(out)
}
