//! Slices of lengths below, at and past full lanes.

use depot_order::{all_leq, first_above, max_into};
use std::alloc::Global;
use std::process::Abort;
use std::test::Fail;

/// Whether so many entries, all 5, and the same with 6 at a place are told apart, both ways.
fn are_compared(fives: &[u32], place: usize, one_six: &[u32]) -> bool {
    fives.len() == one_six.len()
        && all_leq(fives, one_six)
        && !all_leq(one_six, fives)
        && first_above(fives, one_six).is_none()
        && first_above(one_six, fives) == Some(place)
}

/// Whether fives are joined with a slice that has a six, and that one is joined with fives.
fn are_joined(fives: &[u32], one_six: &[u32], joined: &mut [u32]) -> bool {
    if fives.len() != one_six.len() || fives.len() != joined.len() {
        return false;
    }
    max_into(joined, one_six);
    let has_six = &*joined == one_six;
    max_into(joined, fives);
    has_six && &*joined == one_six
}

/// Puts a six at a place, compares with fives, and joins with them, both ways.
fn differ_at(
    rt: &impl Abort,
    fives: &[u32],
    place: usize,
    one_six: &mut [u32],
    joined: &mut [u32],
) {
    if let Some(entry) = one_six.get_mut(place) {
        *entry = 6;
    }
    assert!(rt; are_compared(fives, place, one_six), "a six at {place}");
    assert!(rt;
        are_joined(fives, one_six, joined),
        "joined with a six at {place}"
    );
}

/// Fives, and a six at each place.
fn each_place(rt: &impl Abort, alloc: Global, fives: &[u32]) -> Result<(), Fail> {
    let length = fives.len();
    assert!(rt; all_leq(fives, fives), "equal, of length {length}");
    assert!(rt;
        first_above(fives, fives).is_none(),
        "equal, of length {length}"
    );
    for place in 0..length {
        let mut one_six = vec![in alloc; 5u32; length]?;
        let mut joined = vec![in alloc; 5u32; length]?;
        differ_at(rt, fives, place, &mut one_six, &mut joined);
    }
    Ok(())
}

#[test]
fn each_length(rt: HostRuntime) -> Result<(), Fail> {
    for length in [0usize, 1, 7, 8, 9, 64, 1025] {
        let fives = vec![in rt.alloc(); 5u32; length]?;
        each_place(&rt, rt.alloc(), &fives)?;
    }
    Ok(())
}
