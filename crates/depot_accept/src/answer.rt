//! What a check returns.

use depot_base::Check;
use depot_kept::Found;

/// The places of an update's parents among the accepted updates.
#[derive(Debug, Drop)]
pub struct Parents {
    /// Their items, that of the prev first.
    pub items: Vec<u32>,
    /// The joined row of these items: for each chain of the forest by prev, how many of its items are one of these or
    /// precede one (`Graph::joined_row`).
    pub row: Vec<u32>,
}

/// A statement that passes the checks.
#[derive(Drop)]
pub enum Pass {
    /// An update that is new.
    Update {
        /// The kept statement that it contradicts, where its writer isn't convicted yet: the conviction by that
        /// statement is due first.
        against: Option<Found>,
        /// The items of its parents, and their joined row, for `State::keep_row`.
        parents: Parents,
    },
    /// A voucher that is new.
    Voucher,
    /// It was known.
    Known,
}

/// The result of the checks up to that of the signature.
#[derive(Clone, Copy, Debug, PartialEq, Eq)]
pub enum Front {
    /// It was known.
    Known,
    /// It is new, and this is the first of these checks that fails. No conviction is due by it.
    Refused(Check),
    /// It is new, and none of these checks fails: the checks after that of the signature are left.
    Passed,
}

/// Why a statement isn't taken.
#[derive(Clone, Copy, Debug, PartialEq, Eq)]
pub enum CheckError {
    /// Memory ran out.
    Memory,
    /// The first check that fails, and the kept statement by which the conviction of the writer is due, if one is.
    Refused {
        check: Check,
        against: Option<Found>,
    },
}
