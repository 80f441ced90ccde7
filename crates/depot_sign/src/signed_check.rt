//! Signed statements under the keys of a roster.
ghost use Rattle.std.specs.Prelude.{◌≡◌, IsTrue};
ghost use Rattle.depot_base.specs.Statement.{writer_of};
ghost use Rattle.depot_model.specs.texts.Roster.{has_node, is_signed};

use crate::Roster;
use depot_base::Signed;
use depot_model::Scheme;

/// Whether the signature of a statement's body verifies under the roster's key for its writer. It verifies once, and
/// takes no memory.
#[tactic(auto, unfolding(depot_model::specs::texts::Roster::is_signed))]
pub fn verify_signed<S: Scheme>(roster: &Roster, scheme: &S, signed: &Signed) -> bool
    requires { IsTrue (has_node roster.now (writer_of signed.now.statement)) }
    ensures { result ≡ is_signed S.verifies roster.now signed.now }
{
    let key = roster.key_of(signed.statement.writer()).unwrap();
    scheme.verify(
        &key,
        signed.statement.seq(),
        signed.body.as_slice(),
        signed.signature.as_slice(),
    )
}
