//! Examples of orders: lanes of numbers, rows of clocks, the latest items of a key, graphs of updates, and their histories.
//!
//! Numbers, chains and updates whose order is known beforehand, and two chains that are too long to be walked, are
//! tried on the public calls of each of these crates. Their contracts are proved there; this crate promises nothing.
//! The tests are in a crate of their own because a crate with tests is proved a second time for them.
#![tactic(auto)]

#[cfg(test)]
mod graphs;
#[cfg(test)]
mod histories;
#[cfg(test)]
mod lanes;
#[cfg(test)]
mod latest_items;
#[cfg(test)]
mod long_chains;
#[cfg(test)]
mod rows;
