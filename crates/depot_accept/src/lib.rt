//! The checks of a statement that a node is given, and what is kept of its journal for them.
//!
//! A `State` is seen as the node's number, its roster and scheme, and what the checks look at: the accepted updates,
//! the signed statements of others, the node's own vouchers, the ids that others vouched for, and the convicted nodes;
//! also the number of own vouchers for which memory is reserved. `IsStateOf` says whether it is the state of a journal,
//! by the readings of the journal's records; it doesn't speak of that memory. The journal itself isn't kept here.
//!
//! - `check` answers what the definition does for each journal with this state: the statement is new or known, or the
//!   first check that fails with what it carries, in the order of `depot_base::Check`; and the kept statement by which
//!   the conviction of its writer is due, if one is. `check_to_signature` and `check_after_signature` are its two
//!   halves, for a caller that asks something in between. `checking.rt` has the order, `content.rt` the checks of an
//!   update's content.
//! - For a new update it returns the items of the parents, which `add_foreign`, `add_own` and `add_accepted` take, so
//!   that they aren't searched again; and their joined row, which `keep_row` takes first, so that it isn't joined
//!   again.
//! - `add_foreign`, `add_own`, `add_accepted` and `convict` make it the state of the journal with one more record; a
//!   call that fails changes nothing. `keep_row` changes nothing visible. `reserve_vouchers` changes the reserved
//!   memory alone (`IsAsBefore`).
//! - A conviction may also be added after the statement that it was due before (`convictions_may_come_late`).
//!
//! Invariants: convicted nodes are nodes of the roster, memory for the convictions of all is reserved, and the own
//! vouchers name this node.
//!
//! No text is decoded here, and none encoded but the body of a kept statement (`kept`); nothing is signed, and room for
//! records isn't checked.
#![tactic(auto)]

mod accept_laws;
mod answer;
mod checking;
mod content;
mod state;

pub use accept_laws::convictions_may_come_late;
pub use answer::{CheckError, Front, Parents, Pass};
pub use depot_kept::Found;
pub use state::State;
