//! What a bundle goes by of a candidate's update.
ghost use Rattle.std.specs.Prelude.{◌≡◌, ◌∷◌, [], false, IfOk, option_copied, option_to_list};
ghost use Rattle.depot_base.specs.Writes.{values_in};
ghost use Rattle.depot_model.specs.journals.Journal.{held_as};
ghost use Rattle.depot_model.specs.texts.Texts.{id_of_update};
ghost use Rattle.depot_streams.specs.Sendings.{payloads_of};
ghost use Rattle.depot_gossip.specs.Choosing.{Finds, foreign_ids};

use crate::hashes::{Hashes, add_hash, has_hash};
use depot_base::{Hash32, Memory, NamedValue, NodeId, Update, Write};
use depot_model::Peer;
use std::alloc::Global;

/// The id of an update, if another node wrote it.
pub(crate) fn foreign_id(update: &Update, id: &Hash32, me: NodeId) -> Option<Hash32>
    requires { id.now ≡ id_of_update update.now }
    ensures { option_to_list result ≡ foreign_ids me (update.now ∷ []) }
{
    if update.writer == me { None } else { Some(*id) }
}

/// The held value of a name. `None` exactly when no value of its hash and its length is held.
fn held_as<'n, R: Peer>(node: &'n R, name: &NamedValue) -> Option<&'n [u8]>
    requires { R.stopped node.now ≡ false }
    ensures { option_copied result ≡ held_as (R.records node.now) name.now }
{
    let value = node.held(&name.hash)?;
    if value.len() == name.size as usize {
        Some(value)
    } else {
        None
    }
}

/// The held value of a name, unless its hash is in the set. Adds the hash of a value that it returns.
fn value_behind<'n, R: Peer>(
    node: &'n R,
    hashes: &mut Hashes,
    name: &NamedValue,
) -> Result<Option<&'n [u8]>, Memory>
    requires { R.stopped node.now ≡ false }
    ensures { IfOk result (λ found. Finds (R.records node.now) hashes.old.keys (name.now ∷ []) (option_to_list (option_copied found)) hashes.new.keys) }
{
    if has_hash(hashes, &name.hash) {
        return Ok(None);
    }
    let Some(value) = held_as(node, name) else {
        return Ok(None);
    };
    add_hash(hashes, name.hash)?;
    Ok(Some(value))
}

/// The held values that these writes name, in their order, without those whose hashes are in the set. Adds their
/// hashes, so that a value that two writes name comes once.
pub(crate) fn values_behind<'n, R: Peer>(
    alloc: Global,
    node: &'n R,
    hashes: &mut Hashes,
    writes: &[Write],
) -> Result<Vec<&'n [u8]>, Memory>
    requires { R.stopped node.now ≡ false }
    ensures { IfOk result (λ found. Finds (R.records node.now) hashes.old.keys (values_in writes.now) (payloads_of found.items) hashes.new.keys) }
{
    let mut found = Vec::new(alloc);
    for write in writes {
        let Some(name) = write.what.named() else {
            continue;
        };
        let Some(value) = value_behind(node, hashes, &name)? else {
            continue;
        };
        found.push(value)?;
    }
    Ok(found)
}
