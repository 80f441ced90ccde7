//! What the leaves of a key of two layers sign.
ghost use Rattle.std.specs.Prelude.{◌≡◌, ◌<◌, ◌/◌, ℕ, List, drop};
ghost use Rattle.depot_model.specs.texts.Winternitz.{winternitz_signature};

/// A leaf of a key's top tree signs only one text, the root of its bottom tree, whatever the leaves of that tree sign:
/// after the leaf's number of 4 bytes and the bottom part of 2,400, two signatures by leaves of one bottom tree are
/// equal.
pub fn a_top_leaf_signs_one_text()
    ensures { (seed body other : List ℕ) (height i j : ℕ) → 12 < height → i / 256 ≡ j / 256 → drop 2404 (winternitz_signature seed height i body) ≡ drop 2404 (winternitz_signature seed height j other) }
{}
