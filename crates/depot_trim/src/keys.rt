//! The keys of checkpoints.
ghost use Rattle.std.specs.Prelude.{◌≡◌, IfOk};
ghost use Rattle.depot_model.specs.readers.Checkpoints.{checkpoint_key};

use depot_base::{Bytes, Key, Memory};
use depot_model::hash_of;
use std::alloc::Global;

/// What precedes the hash.
const FRONT: &[u8; 11] = b"checkpoint:";

/// The key that a checkpoint's text is put under: the 11 bytes `checkpoint:` and then the 32 bytes of the text's SHA-256.
#[tactic(auto, unfolding(depot_model::specs::readers::Checkpoints::checkpoint_key))]
pub fn checkpoint_key(alloc: Global, text: &[u8]) -> Result<Key, Memory>
    ensures { IfOk result (λ key. key ≡ checkpoint_key text.now) }
{
    let mut bytes = Bytes::from_slice(alloc, FRONT)?;
    bytes.push_all(hash_of(text).bytes())?;
    Ok(Key::from_bytes(bytes))
}
