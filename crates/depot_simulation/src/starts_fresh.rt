//! How a correct node begins.
ghost use Rattle.std.specs.Prelude.{◌≡◌, Some, IfOk};
ghost use Rattle.depot_model.specs.texts.Roster.{key_of};
ghost use Rattle.depot_simulation.specs.Acting.{fresh_view};

use crate::actor::Actor;
use depot_base::{Memory, NodeId};
use depot_model::{Scheme, Signer};
use depot_sign::Roster;
use std::alloc::Global;

/// A correct node that can be started on an empty disk.
pub trait StartsFresh<S: Scheme, G: Signer>: Actor {
    /// The node of this number, with its key in the roster.
    fn fresh_host(
        alloc: Global,
        roster: &Roster,
        scheme: S,
        signer: G,
        node: NodeId,
    ) -> Result<Self, Memory>
        requires { key_of roster.now node ≡ Some (G.key_of signer) }
        ensures { IfOk result (λ a. Self.view a ≡ fresh_view S.verifies roster.now node (G.signature_of signer)) };
}
