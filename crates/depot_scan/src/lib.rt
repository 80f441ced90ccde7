//! Scans of logs: the latest writes of a key.
//!
//! A log is bodies of updates, each preceded by its length. [`scan`] reads one from its bytes, looks for a body whose
//! parent doesn't precede it, leaves out bodies whose id occurs earlier, and prints the latest writes of the key among
//! the others. `specs/LogScans.antt` defines its outcome, in the words of `depot_model`.
//!
//! `log` reads bodies, `log_order` checks them against the ids before (`log_ids`), `writes` finds the latest ones in
//! one walk from the newest body to the oldest, and `write_lines` prints them.
//!
//! Nothing here loads a file, checks a signature or keeps anything.
#![tactic(auto)]

mod body;
mod log;
mod log_ids;
mod log_order;
mod log_scan;
mod write_lines;
mod writes;

pub use log_scan::{Scanned, scan};
