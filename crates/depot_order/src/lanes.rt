//! Two slices of one length, compared and joined entry by entry.
//!
//! The rows of clocks are long, and most questions on them scan whole rows. `first_above` and `all_leq` scan full
//! lanes of eight entries, each without a branch, so that its entries can be compared at once; they look for a place
//! only in the lane that has one. `max_into` has no branch in its loop either.
//!
//! What each computes is stated over lists, in `specs/Lanes.antt`, for every length; that the entries are scanned by
//! lanes is no part of it. No call takes memory.
ghost use Rattle.std.specs.Prelude.{◌≡◌, ◌≤◌, length, take, true};
ghost use Rattle.depot_order.specs.Lanes.{all_leq, first_above, greater_of_each};

/// How many entries a lane has.
const LANE: usize = 8;

/// Whether no entry of `a` is above that of `b`. The slices have one length.
pub fn all_leq(a: &[u32], b: &[u32]) -> bool
    requires { length a.now ≡ length b.now }
    ensures { result ≡ all_leq a.now b.now }
{
    first_above(a, b).is_none()
}

/// The first place at which the entry of `a` is above that of `b`, from 0, if there is one. The slices have one length.
pub fn first_above(a: &[u32], b: &[u32]) -> Option<usize>
    requires { length a.now ≡ length b.now }
    ensures { result ≡ first_above a.now b.now }
{
    let at = skip_lanes(a, b);
    let place = above_in(&a[at..], &b[at..])?;
    Some(at + place)
}

/// Replaces each entry of `a` by the greater of it and that of `b`. The slices have one length.
pub fn max_into(a: &mut [u32], b: &[u32])
    requires { length a.old ≡ length b.now }
    ensures { a.new ≡ greater_of_each a.old b.now }
{
    for (i, y) in b.iter().enumerate() {
        a[i] = a[i].max(*y);
    }
}

/// How many entries the full lanes have before the first lane with an entry of `a` that is above that of `b`.
fn skip_lanes(a: &[u32], b: &[u32]) -> usize
    requires { length a.now ≡ length b.now }
    ensures within { result ≤ length a.now }
    ensures leq { all_leq (take result a.now) (take result b.now) ≡ true }
{
    let lanes = a.len() / LANE;
    for lane in 0..lanes {
        let at = lane * LANE;
        if !is_leq(&a[at..at + LANE], &b[at..at + LANE]) {
            return at;
        }
    }
    lanes * LANE
}

/// Whether no entry of `a` is above that of `b`, without a branch on the way.
fn is_leq(a: &[u32], b: &[u32]) -> bool
    requires { length a.now ≡ length b.now }
    ensures { result ≡ all_leq a.now b.now }
{
    let mut all = true;
    for (i, y) in b.iter().enumerate() {
        all &= a[i] <= *y;
    }
    all
}

/// The first place at which the entry of `a` is above that of `b`, entry by entry.
fn above_in(a: &[u32], b: &[u32]) -> Option<usize>
    ensures { result ≡ first_above a.now b.now }
{
    a.iter().zip(b).position(|(x, y)| y < x)
}
