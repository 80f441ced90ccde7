//! A note at a node over a disk in memory.
ghost use Rattle.std.specs.Prelude.{◌≡◌, false, OnOk};
ghost use Rattle.depot_uses.specs.Noting.{HasNoted};

use depot_base::{Key, Value};
use depot_model::NodeState;
use depot_node::{Node, PutError};
use depot_outside::MemDisk;
use depot_queries::LocalNode;
use depot_winter::{WinterScheme, WinterSigner};

/// A node with a key by Winternitz signatures, over a disk in memory.
pub type MemNode = Node<MemDisk, WinterScheme, WinterSigner>;

/// Puts a value under a key, and returns how many latest writes the key has then: one, unless others wrote it
/// concurrently. The journal has grown by the next own update.
pub fn note(node: &mut MemNode, key: Key, value: Value) -> Result<usize, PutError>
    ensures grown { OnOk result (HasNoted ⟦<MemNode as NodeState>⟧ node.old node.new key value) }
    ensures runs { OnOk result (⟦<MemNode as NodeState>⟧.stopped node.new ≡ false) }
{
    let wanted = key.copy()?;
    node.put(key, value)?;
    Ok(node.latest(&wanted).len())
}
