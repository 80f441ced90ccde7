//! Digests, as this project's values.
ghost use Rattle.std.specs.Prelude.{◌≡◌};
ghost use Rattle.sha2.specs.Sha256.{sha256};

use depot_base::Hash32;
use sha2::{Digest, Sha256};

/// SHA-256 (FIPS 180-4) of these bytes. It takes no memory.
pub fn hash_of(bytes: &[u8]) -> Hash32
    ensures { result ≡ sha256 bytes.now }
{
    Hash32::new(Sha256::digest(bytes))
}
