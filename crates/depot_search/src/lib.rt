//! The exact search for what breaks fork-join causality in the world of lawful traces, with no assumption on hashes.
//!
//! Where no two different texts collide, only writes that a node never put can break the headline, and this search
//! isn't needed. Where two do, ids no longer identify updates. So the search compares updates by their bodies, tries
//! each path of parents to find which write is observed before which (`table`), and compares each read with all that is
//! observed before it (`exact`). It is as slow as the definition: it makes a table of all writes again for each of
//! them.
//!
//! Nothing is kept. The definitions are those of `depot_model`; `specs/` says what the parts compute.
#![tactic(auto)]

mod accepted;
mod circles;
mod entry;
mod exact;
mod finding;
mod journal;
mod puts;
mod rows;
mod table;
mod writes;
mod wrong;

pub use finding::search;
