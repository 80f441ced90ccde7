//! Lists of items that may follow one another in any order.
ghost use Rattle.std.specs.Prelude.{◌≡◌, ◌++◌, ℕ, List, Result, [], OnOk};
ghost use Rattle.std.specs.List.{flat_map, AllByRecursion};
ghost use Rattle.depot_base.specs.Cursor.{Cursor};
ghost use Rattle.depot_base.specs.Format.{read_entries};
ghost use Rattle.depot_base.specs.Reading.{Reads, ReadsBy, GoesOn};
ghost use Rattle.depot_traces.specs.TraceTexts.{any_follows};

use depot_base::fault::Fault;
use depot_base::{Bytes, Fields, Memory};
use std::alloc::Global;

/// An item of a list in a trace's text.
pub trait Item: Drop {
    /// Whether it has a text.
    ghost fits: { Self → Type 0 };

    /// That text.
    ghost text: { Self → List ℕ };

    /// What a reader gets from a cursor: the item and the cursor after it, or the offset of the fault.
    ghost read: { Cursor → Result (Self × Cursor) ℕ };

    /// Reads the next item, and copies its bytes.
    fn read(alloc: Global, fields: &mut Fields<'_>) -> Result<Self, Fault>
        ensures stays { GoesOn fields.old fields.new }
        ensures reads { Reads result fields.new (read fields.old) };

    /// Appends its text. On `Memory` a prefix of it may be there.
    fn put(&self, out: &mut Bytes) -> Result<(), Memory>
        requires { fits self.now }
        ensures { OnOk result (out.new ≡ out.old ++ text self.now) };
}

/// Reads `count` items.
pub fn items_in<I: Item>(
    alloc: Global,
    fields: &mut Fields<'_>,
    count: u32,
) -> Result<Vec<I>, Fault>
    ensures stays { GoesOn fields.old fields.new }
    ensures reads { ReadsBy (λ v. v.items) result fields.new (read_entries I.read any_follows count [] fields.old) }
{
    let mut list = Vec::new(alloc);
    for _ in 0..count {
        let item = I::read(alloc, fields)?;
        list.push(item)?;
    }
    Ok(list)
}

/// Appends the texts of the items, in order. On `Memory` a prefix of them may be there.
pub fn put_items<I: Item>(out: &mut Bytes, list: &[I]) -> Result<(), Memory>
    requires { AllByRecursion I.fits list.now }
    ensures { OnOk result (out.new ≡ out.old ++ flat_map I.text list.now) }
{
    for item in list {
        item.put(out)?;
    }
    Ok(())
}
