//! Sets of digests.
ghost use Rattle.std.specs.Prelude.{◌≡◌, [], ◌∷◌, OnOk};
ghost use Rattle.depot_model.specs.lists.Lists.{is_among, AreTogether};

use depot_base::{Hash32, Memory};
use indexmap::IndexSet;

/// A set of digests. Each member is the SHA-256 of something, so nobody can choose members that collide in the table.
pub type Hashes = IndexSet<Hash32>;

/// Whether the set has a digest. It takes no memory.
pub(crate) fn has_hash(hashes: &Hashes, hash: &Hash32) -> bool
    ensures { result ≡ is_among hash.now hashes.now.keys }
{
    hashes.contains(hash)
}

/// Puts a digest in.
pub(crate) fn add_hash(hashes: &mut Hashes, hash: Hash32) -> Result<(), Memory>
    ensures { OnOk result (AreTogether hashes.old.keys (hash ∷ []) hashes.new.keys) }
{
    match hashes.insert(hash) {
        Ok(_) => Ok(()),
        Err(_) => Err(Memory),
    }
}
