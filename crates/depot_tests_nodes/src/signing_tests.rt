//! Any signer, and the scheme by which its signatures verify.
ghost use Rattle.std.specs.Prelude.{◌^◌, ◌<◌, IfOk, IsTrue};

use depot_base::Memory;
use depot_model::{Scheme, Signer};

/// Signs a body by the leaf `seq`, and verifies it under the signer's own key.
pub fn signs_and_verifies<S: Scheme, G: Signer<Of = S>>(
    scheme: &S,
    signer: &G,
    seq: u32,
    body: &[u8],
) -> Result<bool, Memory>
    requires { seq < 2 ^ (G.key_of signer.now).height }
    ensures { IfOk result IsTrue }
{
    let signature = signer.sign(seq, body)?;
    Ok(scheme.verify(&signer.key(), seq, body, signature.as_slice()))
}
