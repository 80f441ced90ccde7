//! The plain scheme, which anyone can forge.
ghost use Rattle.std.specs.Prelude.{◌≡◌, ◌^◌, nat_lt};
ghost use Rattle.depot_model.specs.texts.Plain.{plain_root, plain_signature, plain_verifies};
ghost use Rattle.depot_sign.specs.PlainLaws.{signed_by_plain_verifies, length-plain_signature};

use depot_base::{Bytes, Hash32, Memory, PublicKey};
use depot_model::{Scheme, Signer, hash_of};
use sha2::{Digest, Sha256};
use std::alloc::Global;

/// The first byte of each text that is signed.
const TAG: u8 = 6;

/// A scheme whose signatures **anyone can forge**: a signature is a digest of the public key, the leaf and the body. Only
/// replays and tests use it. No call takes memory.
#[derive(Clone, Copy, Debug)]
pub struct PlainScheme;

impl Scheme for PlainScheme {
    ghost verifies = { plain_verifies };

    #[tactic(auto, unfolding(depot_model::specs::texts::Plain::plain_verifies))]
    fn verify(&self, key: &PublicKey, seq: u32, body: &[u8], signature: &[u8]) -> bool {
        is_leaf(key, seq) && signature == digest_of(key, seq, body).as_slice()
    }
}

/// A signer of the plain scheme. **Anyone can forge its signatures**: only replays and tests use it.
#[derive(Debug, Drop)]
pub struct PlainSigner {
    alloc: Global,
    key: PublicKey,
}

impl PlainSigner {
    /// The signer whose key has SHA-256 of this seed as its root, and this height: it has `2^height` leaves. It takes no
    /// memory.
    #[tactic(auto, unfolding(depot_model::specs::texts::Plain::plain_root))]
    pub fn from_seed(alloc: Global, seed: &Hash32, height: u8) -> PlainSigner
        ensures key { ⟦<PlainSigner as Signer>⟧.key_of result
            ≡ record { root = plain_root seed.now; height = height } }
        ensures signs { ⟦<PlainSigner as Signer>⟧.signature_of result ≡ plain_signature (plain_root seed.now) }
    {
        PlainSigner {
            alloc,
            key: PublicKey {
                root: hash_of(seed.bytes()),
                height,
            },
        }
    }
}

impl Signer for PlainSigner {
    type Of = PlainScheme;

    ghost key_of = { λ s. s.key };

    ghost signature_of = { λ s seq body. plain_signature s.key.root seq body };

    fn key(&self) -> PublicKey {
        self.key
    }

    fn sign(&self, seq: u32, body: &[u8]) -> Result<Bytes, Memory> {
        Bytes::from_slice(self.alloc, &digest_of(&self.key, seq, body))
    }

    ghost verifies_under_key = { λ s seq body lt. signed_by_plain_verifies s.key seq body lt };

    ghost is_short = { λ s seq body. length-plain_signature s.key.root seq body };
}

/// Whether the tree of the key has this leaf.
fn is_leaf(key: &PublicKey, seq: u32) -> bool
    ensures { result ≡ nat_lt seq (2 ^ key.now.height) }
{
    key.height >= 32 || seq >> key.height == 0
}

/// The signature of a body by a leaf under the key.
#[tactic(auto, unfolding(depot_model::specs::texts::Plain::plain_signature, depot_base::specs::Cursor::numeral))]
fn digest_of(key: &PublicKey, seq: u32, body: &[u8]) -> [u8; 32]
    ensures { result ≡ plain_signature key.now.root seq body.now }
{
    let mut hasher = Sha256::new();
    hasher.update([TAG]);
    hasher.update(key.root.bytes());
    hasher.update(seq.to_be_bytes());
    hasher.update(body);
    hasher.finalize()
}
