//! What is read off the records of a node's journal, wherever its texts are.
//!
//! `Readings` are seen as the node's number, its roster, and the list of the records that were read. They keep:
//!
//! - what the checks look at (`depot_accept::State`);
//! - the values by their hash, the names of values, and which of these aren't held;
//! - the places of the records that accepted updates, and of those that bundles begin with;
//! - counts of the node's own statements and of the leaves of other writers, the greatest clock, and how many records
//!   there are and how many bytes they take in a journal.
//!
//! The records themselves and their texts aren't kept: contracts alone see the list.
//!
//! Readings grow by one call alone, `read`. A `Growth` is up to two records, or own vouchers, decoded, with their
//! hashes and with the places of an update's parents. All memory is reserved before the first write; on `Memory` all is
//! unchanged. `limit` returns the limit that a growth would pass. `take_texts` and `given` of a growth are what a
//! journal appends.
//!
//! The records always make a lawful journal: `read` requires that, and this crate decides nothing.
#![tactic(auto)]

mod counts;
mod front_places;
mod growth;
mod kept;
mod lacking;
mod leaves;
mod named;
mod news;
mod parts;
mod places;
mod readings;
mod recorded;
mod taken;
mod totals;
mod voucher_places;

pub use counts::JournalCounts;
pub use front_places::ConvictedAt;
pub use growth::{Growth, RECORD_OVERHEAD};
pub use leaves::leaves_with;
pub use named::{NamedValues, names_in_update};
pub use readings::Readings;
pub use totals::Totals;
