//! Numbers, of which each precedes the greater ones of its own parity.
ghost use Rattle.std.specs.Prelude.{◌≡◌, ◌<◌, ◌%◌};

use depot_base::{Key, Memory, Precedes, Steps};
use depot_order::KeyIndex;
use std::alloc::Global;
use std::marker::Brand;
use std::process::Abort;
use std::sync::ledger::{Blank, Ledger};
use std::test::Fail;

/// The order of numbers by parity, listed by size.
struct ByParity;

impl Precedes for ByParity {
    ghost has = { λ _ _. Unit {0} };

    ghost precedes = { λ _ a b. (a < b) × (a % 2 ≡ b % 2) };

    ghost listed = { λ _ a b. a < b };

    fn before<L: Ledger>(&self, a: u32, b: u32, steps: &mut Steps<L>) -> bool {
        steps.tick();
        a < b && a % 2 == b % 2
    }

    fn lists_first(&self, a: u32, b: u32) -> bool {
        a < b
    }

    ghost use Rattle.std.proofs.Common.{arith};
    ghost use Rattle.std.proofs.lemmas.Bool.{cases_order};

    ghost precedes_no_self = { λ p a has before. Prim.omega (arith, before.0) };

    ghost precedes_on = { λ p a b c has_a has_b has_c first second. (Prim.omega (arith, first.0, second.0), Prim.omega (arith, first.1, second.1)) };

    ghost lists_no_self = { λ p a has before. Prim.omega (arith, before) };

    ghost lists_on = { λ p a b c has_a has_b has_c first second. Prim.omega (arith, first, second) };

    ghost lists_all = { λ p a b has_a has_b. cases_order a b };
}

/// An item that is added, and the latest items of its key then.
type WrittenItem<'a> = (u32, &'a [u32]);

/// Adds an item of a key, and says whether these are its latest items then.
fn writes<L: Ledger>(
    index: &mut KeyIndex,
    key: &Key,
    item: u32,
    latest: &[u32],
    steps: &mut Steps<L>,
) -> Result<bool, Memory> {
    index.add(&ByParity, key, item, steps)?;
    Ok(index.latest(key) == latest)
}

/// Adds items of a key in turn, and looks at its latest items after each.
fn write_all<L: Ledger>(
    rt: &impl Abort,
    index: &mut KeyIndex,
    key: &Key,
    items: &[WrittenItem],
    steps: &mut Steps<L>,
) -> Result<(), Fail> {
    for (item, latest) in items {
        assert!(rt; writes(index, key, *item, latest, steps)?, "after {item}");
    }
    Ok(())
}

/// Writes to two keys in turn.
fn write_in_turn<L: Ledger>(
    rt: &impl Abort,
    index: &mut KeyIndex,
    key: &Key,
    other: &Key,
    steps: &mut Steps<L>,
) -> Result<(), Fail> {
    index.reserve(other)?;
    assert!(rt; index.latest(other).is_empty());
    write_all(rt, index, key, &[(9, &[9]), (4, &[4, 9])], steps)?;
    write_all(rt, index, other, &[(3, &[3]), (5, &[5])], steps)?;
    write_all(
        rt,
        index,
        key,
        &[(6, &[6, 9]), (11, &[6, 11]), (12, &[11, 12])],
        steps,
    )?;
    assert!(rt; index.latest(other) == [5].as_slice());
    Ok(())
}

/// Writes to two keys of an index that has no items yet.
fn two_keys<L: Ledger>(
    rt: &impl Abort,
    alloc: Global,
    key: &Key,
    other: &Key,
    blank: Blank,
) -> Result<(), Fail>
    requires name { blank.name ≡ L.name }
    requires parts { blank.parts ≡ L.parts }
    requires some { 0 < blank.parts }
{
    let mut index = KeyIndex::new(alloc);
    let mut steps = Steps::<L>::new(blank);
    write_in_turn(rt, &mut index, key, other, &mut steps)
}

#[test]
fn latest_items_are_mended(rt: HostRuntime) -> Result<(), Fail> {
    let key = Key::new(rt.alloc(), b"k")?;
    let other = Key::new(rt.alloc(), b"other")?;
    two_keys::<Brand>(&rt, rt.alloc(), &key, &other, Blank::new(1))
}
