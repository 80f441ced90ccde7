//! Schemes of one-time signatures, and signers.
ghost use Rattle.std.specs.Prelude.{◌≡◌, ◌<◌, ◌≤◌, ◌^◌, ℕ, List, Bool, true, IfOk, length};
ghost use Rattle.depot_base.specs.declared.key.PublicKey.{PublicKey};
ghost use Rattle.depot_base.specs.declared.limits.TheConstants.{MOST_SIGNATURE};

use depot_base::{Bytes, Memory, PublicKey};

/// A scheme of one-time signatures. A leaf of the key's tree, the statement's seq, signs one body.
pub trait Scheme: Drop {
    /// What `verify` answers, of the key, the seq, the body and the signature. It is a function of the type alone.
    ghost verifies: { PublicKey → ℕ → List ℕ → List ℕ → Bool };

    /// Whether the signature of the body by the leaf `seq` verifies under the key. It takes no memory.
    fn verify(&self, key: &PublicKey, seq: u32, body: &[u8], signature: &[u8]) -> bool
        ensures { result ≡ verifies key.now seq body.now signature.now };
}

/// A borrowed scheme is a scheme with the same answers.
impl<S: Scheme> Scheme for &S {
    ghost verifies = { S.verifies };

    fn verify(&self, key: &PublicKey, seq: u32, body: &[u8], signature: &[u8]) -> bool {
        (**self).verify(key, seq, body, signature)
    }
}

/// A signer: it signs under one key. Equal arguments give equal signatures.
pub trait Signer: Drop {
    /// The scheme by which its signatures verify.
    type Of: Scheme;

    /// Its public key.
    ghost key_of: { Self → PublicKey };

    /// Its signature of a body by a leaf.
    ghost signature_of: { Self → ℕ → List ℕ → List ℕ };

    /// Its public key. It takes no memory.
    fn key(&self) -> PublicKey
        ensures { result ≡ key_of self.now };

    /// The signature of the body by the leaf `seq`, at most 8,192 bytes.
    fn sign(&self, seq: u32, body: &[u8]) -> Result<Bytes, Memory>
        requires { seq < 2 ^ (key_of self.now).height }
        ensures { IfOk result (λ signature. signature ≡ signature_of self.now seq body.now) };

    /// What it signs verifies under its key.
    ghost verifies_under_key: { (s : Self) (seq : ℕ) (body : List ℕ) → seq < 2 ^ (key_of s).height → Self.Of.verifies (key_of s) seq body (signature_of s seq body) ≡ true };

    /// A signature has at most 8,192 bytes.
    ghost is_short: { (s : Self) (seq : ℕ) (body : List ℕ) → length (signature_of s seq body) ≤ MOST_SIGNATURE };
}

/// A borrowed signer is a signer with the same key and signatures.
impl<G: Signer> Signer for &G {
    type Of = G::Of;

    ghost key_of = { λ s. G.key_of s.now };

    ghost signature_of = { λ s seq body. G.signature_of s.now seq body };

    fn key(&self) -> PublicKey {
        (**self).key()
    }

    fn sign(&self, seq: u32, body: &[u8]) -> Result<Bytes, Memory> {
        (**self).sign(seq, body)
    }

    ghost verifies_under_key = { λ s seq body leaf. G.verifies_under_key s.now seq body leaf };

    ghost is_short = { λ s seq body. G.is_short s.now seq body };
}
