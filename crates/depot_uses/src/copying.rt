//! A text that is read and written again.
ghost use Rattle.std.specs.Prelude.{◌≡◌, IfOk, IfSome};

use depot_base::{Bytes, DecodeError, Memory};
use depot_update::{decode_update, encode_update};
use std::alloc::Global;

/// The text of an update, written anew from the decoded update: the same bytes, since each update has one text. `None`
/// if it is no update's.
pub fn copied(alloc: Global, text: &[u8]) -> Result<Option<Bytes>, Memory>
    ensures { IfOk result (λ copy. IfSome copy (λ bytes. bytes ≡ text.now)) }
{
    match decode_update(alloc, text) {
        Ok(update) => Ok(Some(encode_update(alloc, &update)?)),
        Err(DecodeError::IllFormed(_)) => Ok(None),
        Err(DecodeError::Memory) => Err(Memory),
    }
}
