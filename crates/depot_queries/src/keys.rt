//! The keys of receipts.
ghost use Rattle.std.specs.Prelude.{◌≡◌, IfOk};
ghost use Rattle.depot_model.specs.worlds.Receipts.{receipt_key, receipt_of};

use depot_base::{Bytes, Hash32, Key, Memory};
use std::alloc::Global;

/// What precedes the id.
const FRONT: &[u8; 8] = b"receipt:";

/// Returns the key of a receipt for an id: the 8 bytes `receipt:`, then the 32 bytes of the id.
#[tactic(auto, unfolding(depot_model::specs::worlds::Receipts::receipt_key))]
pub fn receipt_key(alloc: Global, id: &Hash32) -> Result<Key, Memory>
    ensures { IfOk result (λ key. key ≡ receipt_key id.now) }
{
    let mut bytes = Bytes::from_slice(alloc, FRONT)?;
    bytes.push_all(id.bytes())?;
    Ok(Key::from_bytes(bytes))
}

/// Returns the id that a key is a receipt for, `None` exactly when the key has another form. It takes no memory.
#[tactic(auto, using(crate::proofs::KeyLaws::key_laws))]
pub fn receipt_of(key: &Key) -> Option<Hash32>
    ensures { result ≡ receipt_of key.now }
{
    Hash32::from_slice(key.bytes().strip_prefix(FRONT)?)
}
