//! Examples of texts: updates, vouchers, signed statements, proofs, records, hellos and traces, and proofs of both shapes before a judge.
//!
//! Texts and offsets made by hand or by other programs are tried on the codecs and on the judge, and each of their
//! public functions is called once with ample memory. Their contracts are proved in their crates; this crate promises
//! nothing. The tests are in a crate of their own because a crate with tests is proved a second time for them.
#![tactic(auto)]

#[cfg(test)]
mod base_values;
#[cfg(test)]
mod hellos;
#[cfg(test)]
mod hex;
#[cfg(test)]
mod hollow_proofs;
#[cfg(test)]
mod judgements;
#[cfg(test)]
mod numbers_and_fields;
#[cfg(test)]
mod records;
#[cfg(test)]
mod text_tests;
#[cfg(test)]
mod traces;
