//! A node is started for a caller.
ghost use Rattle.std.specs.Prelude.{IfOk, IfErr};
ghost use Rattle.depot_model.specs.texts.Winternitz.{winternitz_verifies};
ghost use Rattle.depot_node.specs.Starting.{placed};
ghost use Rattle.depot_c.specs.Starts.{IsRefusedOn, IsStartedBy, NodeGiven};

use crate::node_view::{HasNodeView, Over};
use crate::refused::Refused;
use crate::shared_signer::SharedSigner;
use depot_base::{Bytes, Items, NodeId};
use depot_model::Signer;
use depot_node::Node;
use depot_outside::MemDisk;
use depot_sign::Roster;
use depot_winter::WinterScheme;
use std::alloc::Global;

/// The node of a number.
pub fn node_of(number: u64) -> Result<NodeId, Refused>
    ensures { NodeGiven number result }
{
    if number > 65_535 {
        return Err(Refused::Input);
    }
    match NodeId::new(number as u16) {
        Some(node) => Ok(node),
        None => Err(Refused::Input),
    }
}

/// Starts a node in memory from the bytes of a journal's file, by a copy of the roster and with the signer that the handle keeps.
pub fn start(
    alloc: Global,
    file: &[u8],
    roster: &Roster,
    signer: &SharedSigner,
    me: NodeId,
) -> Result<Over, Refused>
    ensures started { IfOk result (λ n. IsStartedBy ⟦<SharedSigner as Signer>⟧ (placed winternitz_verifies me roster.now) signer.now file.now (⟦<Over as HasNodeView>⟧.node_view n)) }
    ensures refused { IfErr result (λ e. IsRefusedOn (placed winternitz_verifies me roster.now) (⟦<SharedSigner as Signer>⟧.key_of signer.now) file.now e) }
{
    let (Ok(file), Ok(roster)) = (Bytes::from_slice(alloc, file), roster.copy()) else {
        return Err(Refused::Memory);
    };
    let Ok(signer) = signer.share() else {
        return Err(Refused::Memory);
    };
    let disk = MemDisk::new(file, Items::new(alloc));
    match Node::start(alloc, disk, roster, WinterScheme, signer, me) {
        Ok(node) => Ok(node),
        Err(back) => Err(Refused::Start(back.error)),
    }
}
