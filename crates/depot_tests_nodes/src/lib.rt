//! Examples of who signs, and of what an audit says of two nodes.
//!
//! - Rosters and signatures, by the plain scheme and by Winternitz's: roots, signatures and offsets that other
//!   programs computed (`depot_sign`, `depot_winter`).
//! - Record texts and reads of two nodes, right ones and wrong ones, before an audit (`depot_audit`).
//!
//! Public functions are called with ample memory. Their contracts are proved in their crates; this crate promises
//! nothing. The tests are in a crate of their own because a crate with tests is proved a second time for them. What
//! nodes do, and their receipts, checkpoints and readers, are tried on the program (`acceptance/`).
#![tactic(auto)]

#[cfg(test)]
mod faults;
#[cfg(test)]
mod hex_digits;
#[cfg(test)]
mod journals;
#[cfg(test)]
mod plain_tests;
#[cfg(test)]
mod read_tests;
#[cfg(test)]
mod record_tests;
#[cfg(test)]
mod rosters;
#[cfg(test)]
mod signing_tests;
#[cfg(test)]
mod two_layers;
#[cfg(test)]
mod winternitz;
#[cfg(test)]
mod worked_keys;
