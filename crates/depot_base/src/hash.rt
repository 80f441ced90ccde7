//! A SHA-256 digest.
ghost use Rattle.std.specs.Prelude.{◌≡◌, ℕ, List, [], ◌∷◌, length};
ghost use Rattle.std.specs.Option.{SomeIff};
ghost use Rattle.std.specs.Str.{bytes_eq};
ghost use Rattle.std.proofs.Common.{rules};
ghost use Rattle.std.specs.Cmp.Rules.{hashing};
ghost use Rattle.depot_base.specs.Zeros.{zeros};

use std::hash::{Hash, Hasher};
use std::marker::Model;

/// 32 bytes: a digest, or an id, which is the digest of a body. They compare bytewise from the left.
#[derive(Clone, Copy, Debug, PartialEq, Eq, PartialOrd, Ord)]
pub struct Hash32([u8; 32]);

impl Model for Hash32 {
    ghost Value = { List ℕ };

    ghost view = { λ h. h.0 };

    ghost inverse = { λ bytes. record { 0 = bytes } };
}

impl Hash32 {
    /// The digest with these bytes.
    pub fn new(bytes: [u8; 32]) -> Hash32
        ensures { result ≡ bytes }
    {
        Hash32(bytes)
    }

    /// The digest with these bytes. None exactly where they aren't 32.
    pub fn from_slice(bytes: &[u8]) -> Option<Hash32>
        ensures { SomeIff result (length bytes.now ≡ 32) bytes.now }
    {
        if bytes.len() != 32 {
            return None;
        }
        let mut digest = [0u8; 32];
        digest.copy_from_slice(bytes);
        Some(Hash32(digest))
    }

    /// 32 zero bytes, which as a prev name no update.
    pub fn zeros() -> Hash32
        ensures { result ≡ zeros }
    {
        Hash32([0; 32])
    }

    /// Whether these are 32 zero bytes.
    pub fn is_zeros(&self) -> bool
        ensures { result ≡ bytes_eq self.now zeros }
    {
        *self == Hash32::zeros()
    }

    /// Its bytes.
    pub fn bytes(&self) -> &[u8; 32]
        ensures same { result.now ≡ self.now }
        ensures length { length self.now ≡ 32 }
    {
        &self.0
    }
}

/// A hash table hashes the 32 bytes at once: the derived body would hash them one by one.
impl Hash for Hash32 {
    ghost hash_input = { λ digest. digest ∷ [] };

    ghost respects_eq = { Prim.search (hashing, rules) };

    fn hash<H: Hasher>(&self, state: &mut H) {
        state.write(&self.0);
    }
}
