//! A signer that several starts use, one after another.
ghost use Rattle.std.specs.Prelude.{◌≡◌, IfOk};

use depot_base::{Bytes, Memory, PublicKey};
use depot_model::Signer;
use depot_winter::{WinterScheme, WinterSigner};
use std::alloc::Global;
use std::rc::Rc;

/// A signer of Winternitz whose key was made once. Sharing it takes no memory.
#[derive(Drop)]
pub struct SharedSigner(Rc<WinterSigner>);

impl SharedSigner {
    /// This signer, to be shared.
    pub fn new(alloc: Global, signer: WinterSigner) -> Result<SharedSigner, Memory>
        ensures { IfOk result (λ s. s.0.value ≡ signer) }
    {
        Ok(SharedSigner(Rc::new(alloc, signer)?))
    }

    /// The same signer once more.
    pub fn share(&self) -> Result<SharedSigner, Memory>
        ensures { IfOk result (λ s. s.0.value ≡ self.now.0.value) }
    {
        Ok(SharedSigner(self.0.clone()?))
    }
}

impl Signer for SharedSigner {
    type Of = WinterScheme;

    ghost key_of = { λ s. ⟦<WinterSigner as Signer>⟧.key_of s.0.value };

    ghost signature_of = { λ s seq body. ⟦<WinterSigner as Signer>⟧.signature_of s.0.value seq body };

    fn key(&self) -> PublicKey {
        self.0.key()
    }

    fn sign(&self, seq: u32, body: &[u8]) -> Result<Bytes, Memory> {
        self.0.sign(seq, body)
    }

    ghost verifies_under_key = { λ s seq body leaf. s.0.value.signs_well.verifies seq body leaf };

    ghost is_short = { λ s seq body. s.0.value.signs_well.short seq body };
}
