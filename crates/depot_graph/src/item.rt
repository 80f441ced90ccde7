//! The items of a graph by their numbers.
ghost use Rattle.std.specs.Prelude.{◌≡◌, ◌<◌, length, Some, slice_get};

use depot_base::{Hash32, Update};
use indexmap::IndexMap;

/// An item: its id and its update. It takes no memory.
pub fn item_at(items: &IndexMap<Hash32, Update>, number: u32) -> (&Hash32, &Update)
    requires { number < length items.now.entries }
    ensures { slice_get items.now.entries number ≡ Some (result.0.now, result.1.now) }
{
    match items.get_index(number as usize) {
        Some(pair) => pair,
        None => unreachable!(),
    }
}
