//! A chain of 70 items that joins a chain of 24 at each third item; and one of 40 that joins twenty short ones so.
ghost use Rattle.std.specs.Prelude.{◌≡◌, ◌+◌, ◌<◌, ◌≤◌, ℕ, length, OnOk, IfOk};
ghost use Rattle.depot_order.specs.ChainItems.{chain_length, number_of_chains};

use depot_base::Steps;
use depot_order::Clocks;
use std::alloc::Global;
use std::marker::Brand;
use std::process::Abort;
use std::sync::ledger::{Blank, Ledger};
use std::test::Fail;

/// The items of the chain that is joined; those of the other one come after them.
const JOINED: u32 = 24;

/// Adds a chain after the others: `first` items are here. Where it joins the first chain, the third item of every three
/// has the next item of that chain as a parent too.
fn grow(clocks: &mut Clocks, first: u32, chain: u32, count: u32, joins: bool) -> Result<(), Fail>
    requires first { length clocks.old ≡ first }
    requires few { first + count < 1000 }
    requires some { 0 < count }
    requires chain { number_of_chains clocks.old ≡ chain }
    requires none { (c : ℕ) → chain ≤ c → chain_length clocks.old c ≡ 0 }
    ensures items { OnOk result (length clocks.new ≡ first + count) }
    ensures chains { OnOk result (number_of_chains clocks.new ≡ chain + 1) }
    ensures none { OnOk result ((c : ℕ) → chain < c → chain_length clocks.new c ≡ 0) }
{
    clocks.add(chain, 0, [].as_slice())?;
    for place in 1..count {
        let last = first + place - 1;
        let other = if joins && place % 3 == 2 {
            place / 3
        } else {
            last
        };
        clocks.add(chain, place, [last, other].as_slice())?;
    }
    Ok(())
}

/// Both chains.
fn joined(alloc: Global) -> Result<Clocks, Fail>
    ensures items { IfOk result (λ clocks. length clocks ≡ 94) }
    ensures chains { IfOk result (λ clocks. number_of_chains clocks ≡ 2) }
{
    let mut clocks = Clocks::new(alloc);
    grow(&mut clocks, 0, 0, JOINED, false)?;
    grow(&mut clocks, JOINED, 1, 70, true)?;
    Ok(clocks)
}

/// Places of the second chain, and the row of each: so many items of each chain.
static ROWS: [(u32, [u32; 2]); 7] = [
    (0, [0, 1]),
    (31, [10, 32]),
    (32, [11, 33]),
    (33, [11, 34]),
    (63, [21, 64]),
    (64, [21, 65]),
    (69, [23, 70]),
];

/// Whether this is the row of a place of the second chain.
fn has_row(clocks: &Clocks, place: u32, counts: &[u32; 2]) -> bool
    requires items { length clocks.now ≡ 94 }
    requires chains { number_of_chains clocks.now ≡ 2 }
{
    if place >= 70 {
        return false;
    }
    let mut row = [7u32; 2];
    clocks.row_into(JOINED + place, row.as_mut_slice());
    row == *counts
}

/// Places of the second chain have their rows.
fn rows(rt: &impl Abort, clocks: &Clocks)
    requires items { length clocks.now ≡ 94 }
    requires chains { number_of_chains clocks.now ≡ 2 }
{
    for (place, counts) in ROWS.iter() {
        assert!(rt; has_row(clocks, *place, counts), "the row of place {place}");
    }
}

/// Which items of the two chains precede which.
static ORDER: [(u32, u32, bool); 13] = [
    (0, 25, false),
    (0, 26, true),
    (9, 55, true),
    (10, 55, false),
    (10, 56, true),
    (22, 93, true),
    (23, 93, false),
    (24, 93, true),
    (93, 93, false),
    (93, 24, false),
    (0, 23, true),
    (23, 0, false),
    (26, 23, false),
];

/// Whether an item precedes another one, or no answer past the last item.
fn precedes<L: Ledger>(clocks: &Clocks, a: u32, b: u32, steps: &mut Steps<L>) -> Option<bool>
    requires { length clocks.now ≡ 94 }
{
    if a < 94 && b < 94 {
        Some(clocks.before(a, b, steps))
    } else {
        None
    }
}

/// Items precede others as they should.
fn order<L: Ledger>(rt: &impl Abort, clocks: &Clocks, steps: &mut Steps<L>)
    requires { length clocks.now ≡ 94 }
{
    for (a, b, is_before) in ORDER.iter() {
        assert!(rt;
            precedes(clocks, *a, *b, steps) == Some(*is_before),
            "{a} and {b}"
        );
    }
}

/// Which rows count which items.
static WITHIN: [(u32, [u32; 2], bool); 9] = [
    (55, [10, 32], true),
    (55, [10, 31], false),
    (55, [9, 70], false),
    (56, [11, 33], true),
    (56, [10, 70], false),
    (88, [21, 65], true),
    (88, [20, 65], false),
    (22, [23, 0], true),
    (23, [23, 70], false),
];

/// Whether a row counts an item, or no answer past the last item.
fn counts_item(clocks: &Clocks, item: u32, row: &[u32; 2]) -> Option<bool>
    requires items { length clocks.now ≡ 94 }
    requires chains { number_of_chains clocks.now ≡ 2 }
{
    if item < 94 {
        Some(clocks.within(item, row.as_slice()))
    } else {
        None
    }
}

/// Rows count the items that they should.
fn within(rt: &impl Abort, clocks: &Clocks)
    requires items { length clocks.now ≡ 94 }
    requires chains { number_of_chains clocks.now ≡ 2 }
{
    for (item, row, is_within) in WITHIN.iter() {
        assert!(rt;
            counts_item(clocks, *item, row) == Some(*is_within),
            "{item} in {row:?}"
        );
    }
}

fn joins<L: Ledger>(rt: &impl Abort, alloc: Global, blank: Blank) -> Result<(), Fail>
    requires name { blank.name ≡ L.name }
    requires parts { blank.parts ≡ L.parts }
    requires some { 0 < blank.parts }
{
    let clocks = joined(alloc)?;
    let mut steps = Steps::<L>::new(blank);
    rows(rt, &clocks);
    order(rt, &clocks, &mut steps);
    within(rt, &clocks);
    Ok(())
}

#[test]
fn a_chain_joins_another(rt: HostRuntime) -> Result<(), Fail> {
    joins::<Brand>(&rt, rt.alloc(), Blank::new(1))
}

/// Twenty chains of one item, and a chain of 40 items behind them. The third of every three joins the next of the twenty. Rows
/// of so many chains aren't kept whole at each place.
fn wide(alloc: Global) -> Result<Clocks, Fail>
    ensures items { IfOk result (λ clocks. length clocks ≡ 60) }
    ensures chains { IfOk result (λ clocks. number_of_chains clocks ≡ 21) }
{
    let mut clocks = Clocks::new(alloc);
    for chain in 0..20 {
        grow(&mut clocks, chain, chain, 1, false)?;
    }
    grow(&mut clocks, 20, 20, 40, true)?;
    Ok(clocks)
}

/// Places of the chain of 40, and how many of the twenty its item there comes behind.
static WIDE: [(u32, u32); 9] = [
    (0, 0),
    (1, 0),
    (2, 1),
    (4, 1),
    (5, 2),
    (31, 10),
    (32, 11),
    (33, 11),
    (39, 13),
];

/// Whether the row of a place of the chain of 40 counts so many of the twenty, and its own items.
fn has_wide_row(clocks: &Clocks, place: u32, joined: u32) -> bool
    requires items { length clocks.now ≡ 60 }
    requires chains { number_of_chains clocks.now ≡ 21 }
{
    if place >= 40 || joined > 20 {
        return false;
    }
    let mut right = [0u32; 21];
    for chain in 0..joined {
        right[chain as usize] = 1;
    }
    right[20] = place + 1;
    let mut row = [7u32; 21];
    clocks.row_into(20 + place, row.as_mut_slice());
    row == right && clocks.within(20 + place, right.as_slice())
}

/// Whether the item of a place comes behind the last of so many of the twenty, and not behind the next.
fn is_behind<L: Ledger>(clocks: &Clocks, place: u32, joined: u32, steps: &mut Steps<L>) -> bool
    requires { length clocks.now ≡ 60 }
{
    if place >= 40 || joined >= 20 {
        return false;
    }
    (joined == 0 || clocks.before(joined - 1, 20 + place, steps))
        && !clocks.before(joined, 20 + place, steps)
}

fn wide_rows<L: Ledger>(rt: &impl Abort, alloc: Global, blank: Blank) -> Result<(), Fail>
    requires name { blank.name ≡ L.name }
    requires parts { blank.parts ≡ L.parts }
    requires some { 0 < blank.parts }
{
    let clocks = wide(alloc)?;
    let mut steps = Steps::<L>::new(blank);
    for (place, joined) in WIDE.iter() {
        assert!(rt;
            has_wide_row(&clocks, *place, *joined),
            "the row of place {place}"
        );
        assert!(rt;
            is_behind(&clocks, *place, *joined, &mut steps),
            "what precedes place {place}"
        );
    }
    Ok(())
}

#[test]
fn a_chain_joins_many(rt: HostRuntime) -> Result<(), Fail> {
    wide_rows::<Brand>(&rt, rt.alloc(), Blank::new(1))
}
