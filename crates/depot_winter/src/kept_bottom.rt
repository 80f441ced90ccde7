//! A bottom tree that is kept from one signature to the next, with what the top tree signs of it.
ghost use Rattle.std.specs.Prelude.{◌≡◌, ◌+◌, ◌*◌, ◌<◌, ◌≤◌, ◌++◌, true, OnOk};
ghost use Rattle.depot_base.specs.declared.limits.TheConstants.{BOTTOM_HEIGHT};
ghost use Rattle.depot_model.specs.declared.layer.Layer.TheVariants.{Bottom};
ghost use Rattle.depot_model.specs.texts.Winternitz.{digest_of, layer_part};
ghost use Rattle.depot_winter.specs.KeptBottom.{top_part};

use crate::kept_tree::Tree;
use crate::scheme::digest_of;
use depot_base::{Bytes, Hash32, Memory};
use depot_model::Layer;

// A bottom tree of a key of two layers, and the part of the top layer that signs its root. It records its key and which
// of that key's trees it is, since no clause knows the content of a cell: whoever finds one there compares.
#[derive(Drop)]
pub(crate) struct KeptBottom {
    pub(crate) tree: Tree,
    // The key's height.
    pub(crate) height: u8,
    // The part of the top layer.
    pub(crate) top: Bytes,
    ghost layer: { tree.layer ≡ Bottom },
    ghost bottom_height: { tree.height ≡ BOTTOM_HEIGHT },
    ghost signed: { top ≡ top_part tree.seed height tree.number },
}

impl KeptBottom {
    // Whether it is the bottom tree of this number of the key of a seed and a height.
    pub(crate) fn is_of(&self, seed: &Hash32, height: u8, number: u32) -> bool
        ensures seed { result ≡ true → self.now.tree.seed ≡ seed.now }
        ensures height { result ≡ true → self.now.height ≡ height }
        ensures number { result ≡ true → self.now.tree.number ≡ number }
    {
        self.tree.number == number && self.height == height && self.tree.seed == *seed
    }

    // Adds the parts of both layers of a signature by a leaf of this tree, under the key with this root.
    #[tactic(auto, using(std::proofs::lemmas::List::append_assoc))]
    pub(crate) fn push_parts(
        &self,
        signature: &mut Bytes,
        root: &Hash32,
        leaf: u32,
        body: &[u8],
    ) -> Result<(), Memory>
        requires from { self.now.tree.number * 256 ≤ leaf }
        requires to { leaf < self.now.tree.number * 256 + 256 }
        ensures { OnOk result (signature.new ≡ signature.old
            ++ (layer_part Bottom self.now.tree.seed leaf (digest_of Bottom root.now leaf body.now) BOTTOM_HEIGHT ++ top_part self.now.tree.seed self.now.height self.now.tree.number)) }
    {
        let digest = digest_of(Layer::Bottom, root, leaf, body);
        self.tree.push_part(signature, leaf, &digest)?;
        signature.push_all(self.top.as_slice())
    }
}
