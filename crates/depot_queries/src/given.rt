//! The receipts that an update gives.
ghost use Rattle.std.specs.Prelude.{◌≡◌, IfOk, true, is_some};
ghost use Rattle.depot_model.specs.worlds.ReadTests.{value_written};
ghost use Rattle.depot_queries.specs.GivenReceipts.{id_given, ids_given};

use crate::keys::receipt_of;
use depot_base::{Hash32, Key, Memory, Update, Wrote};
use std::alloc::Global;

/// The ids for which an update gives receipts, in the order of its writes. An update that gives none takes no memory.
pub fn ids_given(alloc: Global, update: &Update) -> Result<Vec<Hash32>, Memory>
    ensures { IfOk result (λ ids. ids.items ≡ ids_given update.now) }
{
    let mut ids = Vec::new(alloc);
    for write in update.writes.as_slice() {
        if let Some(id) = id_given(update, &write.key) {
            ids.push(id)?;
        }
    }
    Ok(ids)
}

/// The id for which an update gives a receipt under a key, where it does.
fn id_given(update: &Update, key: &Key) -> Option<Hash32>
    ensures { result ≡ id_given update.now key.now }
{
    let id = receipt_of(key)?;
    if has_value(update, key) {
        Some(id)
    } else {
        None
    }
}

/// Whether an update writes a key and doesn't delete it.
fn has_value(update: &Update, key: &Key) -> bool
    ensures { result ≡ is_some (value_written key.now update.now) }
{
    match update.wrote(key.bytes()) {
        Some(Wrote::Put { .. }) => true,
        _ => false,
    }
}
