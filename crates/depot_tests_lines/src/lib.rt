//! Examples of lines: schedules, scripts, the printed text of answers, and loads with their summaries.
//!
//! Lines from outside, and digests of texts that were made elsewhere, are tried on public calls. Their contracts are
//! proved in their crates; this crate promises nothing. The tests are in a crate of their own because a crate with
//! tests is proved a second time for them. Runs of commands are tried on the program (`acceptance/`).
#![tactic(auto)]

#[cfg(test)]
mod answers;
#[cfg(test)]
mod schedules;
#[cfg(test)]
mod scripts;
#[cfg(test)]
mod texts_of_loads;
