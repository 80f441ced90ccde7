//! Writes a word, preceded by a space.
ghost use Rattle.std.specs.Prelude.{◌≡◌, ◌++◌, ◌∷◌, OnOk};

use depot_base::{Bytes, Memory};

/// A word as it is.
pub fn word(out: &mut Bytes, text: &[u8]) -> Result<(), Memory>
    ensures { OnOk result (out.new ≡ out.old ++ (32 ∷ text.now)) }
{
    out.push_all(&[b' '])?;
    out.push_all(text)
}
