//! How a list that only grows reserves its memory.
ghost use Rattle.std.specs.Prelude.{◌≡◌, ◌≤◌, ◌+◌, ◌/◌, max, min, OnOk, IsOk, vec_len, vec_capacity};

use depot_base::Memory;

/// The spare capacity, in items, of a list of at least this length, unless an eighth of its length is more.
const SPARE: usize = 1048576;

/// The spare capacity, in items, of a list of `length` items that has to grow.
pub fn spare_beside(length: usize) -> usize
    ensures { result ≡ max (length / 8) (min length 1048576) }
{
    length.min(SPARE).max(length / 8)
}

/// Reserves memory for `more` items. A list that has to grow for them also gets spare capacity for as many items as it
/// has, up to 1,048,576, so that it moves seldom; a long one gets an eighth of its length, where that is more and
/// `reserve` would double it. So each added item costs some eight moves in all.
pub fn reserve_tightly<T>(list: &mut Vec<T>, more: usize) -> Result<(), Memory>
    ensures items { list.new.items ≡ list.old.items }
    ensures len { vec_len list.new ≡ vec_len list.old }
    ensures ok { OnOk result (vec_len list.new + more ≤ vec_capacity list.new) }
    ensures kept { vec_capacity list.old ≤ vec_capacity list.new }
    ensures found { vec_len list.old + more ≤ vec_capacity list.old → IsOk result }
    ensures spare { vec_capacity list.new ≤ max (vec_capacity list.old) (vec_len list.old + more + max (vec_len list.old / 8) (min (vec_len list.old) 1048576)) }
{
    if more <= list.capacity() - list.len() {
        return Ok(());
    }
    list.reserve_exact(more.saturating_add(spare_beside(list.len())))?;
    Ok(())
}
