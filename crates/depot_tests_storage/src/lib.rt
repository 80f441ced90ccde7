//! Examples of what is kept: journals on a disk, values, chains, vouched ids and kept statements; and of messages that come over a source.
//!
//! Files and hashes from outside are tried on each of these crates, and each of their public functions is called once
//! with ample memory. Their contracts are proved there; this crate promises nothing. The tests are in a crate of their
//! own because a crate with tests is proved a second time for them.
#![tactic(auto)]

#[cfg(test)]
mod chains;
#[cfg(test)]
mod contradictions;
#[cfg(test)]
mod fakes;
#[cfg(test)]
mod journal_tests;
#[cfg(test)]
mod real_adapters;
#[cfg(test)]
mod source_tests;
#[cfg(test)]
mod transfers;
#[cfg(test)]
mod value_tests;
#[cfg(test)]
mod vouching;
