//! Whom a proof convicts.
ghost use Rattle.std.specs.Prelude.{IfOk, IfSome};
ghost use Rattle.depot_base.specs.declared.proof.Kind.{Kind};
ghost use Rattle.depot_model.specs.updates.Conviction.{Convicts};

use depot_base::{Memory, NodeId};
use depot_judge::judge;
use depot_model::{JudgeError, Scheme};
use depot_sign::Roster;
use std::alloc::Global;

/// The node that the text of a proof convicts under a roster. `None` if it convicts nobody.
pub fn convicted<S: Scheme>(
    alloc: Global,
    roster: &Roster,
    scheme: &S,
    proof: &[u8],
) -> Result<Option<NodeId>, Memory>
    ensures { IfOk result (λ found. IfSome found (λ node. (kind : Kind) × Convicts S.verifies roster.now proof.now (record { node = node; kind = kind }))) }
{
    match judge(alloc, roster, scheme, proof) {
        Ok(verdict) => Ok(Some(verdict.node)),
        Err(JudgeError::Memory) => Err(Memory),
        Err(_) => Ok(None),
    }
}
