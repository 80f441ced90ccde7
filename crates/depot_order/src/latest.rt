//! How a new item changes the latest items of a key.
ghost use Rattle.std.specs.Prelude.{◌≡◌, ◌<◌, ◌≤◌, ◌+◌, length, All, vec_len};
ghost use Rattle.std.specs.Vec.{vec_capacity};
ghost use Rattle.depot_order.specs.LatestItems.{AreKept, HaveOneLatest, IsPlaceFor, IsMended};

use depot_base::{Precedes, Steps};
use std::sync::ledger::Ledger;

/// Removes the items that precede this one from a list, and inserts this one where it is listed. There is room for it.
/// It takes a step for each item of the list.
pub fn mend<P: Precedes, L: Ledger>(list: &mut Vec<u32>, order: &P, item: u32, steps: &mut Steps<L>)
    requires room { vec_len list.old < vec_capacity list.old }
    requires item { P.has order.now item }
    requires items { All (P.has order.now) list.old.items }
    ensures mended { IsMended (P.precedes order.now) (P.listed order.now) item list.old.items list.new.items }
    ensures cost { steps.new ≡ steps.old + length list.old.items }
{
    leave_out(list, order, item, steps);
    let place = place_among(list.as_slice(), order, item);
    let _ = list.insert(place, item);
}

/// Removes the items that precede this one from a list. It takes a step for each item of the list.
fn leave_out<P: Precedes, L: Ledger>(
    list: &mut Vec<u32>,
    order: &P,
    item: u32,
    steps: &mut Steps<L>,
)
    requires item { P.has order.now item }
    requires items { All (P.has order.now) list.old.items }
    ensures kept { AreKept (λ a. P.precedes order.now a item → ⊥) list.old.items list.new.items }
    ensures len { vec_len list.new ≤ vec_len list.old }
    ensures capacity { vec_capacity list.new ≡ vec_capacity list.old }
    ensures cost { steps.new ≡ steps.old + length list.old.items }
{
    let mut kept = 0;
    for i in 0..list.len() {
        let other = list[i];
        if order.before(other, item, steps) {
            continue;
        }
        list[kept] = other;
        kept += 1;
    }
    list.truncate(kept);
}

/// The first place of a list at which this item is listed before the one there, or its end.
fn place_among<P: Precedes>(list: &[u32], order: &P, item: u32) -> usize
    requires item { P.has order.now item }
    requires items { All (P.has order.now) list.now }
    ensures { IsPlaceFor (P.listed order.now) item list.now result }
{
    for (i, other) in list.iter().enumerate() {
        if order.lists_first(item, *other) {
            return i;
        }
    }
    list.len()
}

/// The latest of some items, in an order and as it lists them, are one list, for any order.
pub fn latest_items_are_one_list<P: Precedes>(order: &P)
    ensures { HaveOneLatest (P.has order.now) (P.precedes order.now) (P.listed order.now) }
{
    let _ = order;
}
