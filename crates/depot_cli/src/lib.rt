//! The commands of the program: [`depot`] reads words, does what they ask for over a shelf, a disk, a source and a
//! sink, and returns how the run ended. Nothing here decides what a log, a proof, a schedule, a script or a trace
//! means.
//!
//! The contract of `depot` in `top.rt` covers all that the program does, over any of these; `depot_tool` gives it the
//! real ones. `specs/Words.antt` says which words are a command, `Runs.antt`, `Nodes.antt` and `Servers.antt` what
//! each command answers and prints, and `Statuses.antt` the exit statuses.
//!
//! - `scan_command`, `key_command`, `judge_command`, `replay_command`, `load_command`, `node_command`, `serve_command`
//!   and `audit_command` do one command each.
//! - `word`, `given_words`, `trace_names`, `height` and `invocation` read words.
//! - `files` loads a file. `trace_files` loads the trace files of an audit, one by one: `gather` returns the traces of
//!   all files, each of another node of the roster, or names the first file that can't be had or is no such trace
//!   (`specs/Handing.antt`). No file is loaded after that one.
//! - `outcome` and `status` have how a run ends.
#![tactic(auto)]

mod audit_command;
mod files;
mod given_words;
mod height;
mod invocation;
mod judge_command;
mod key_command;
mod load_command;
mod node_command;
mod outcome;
mod replay_command;
mod scan_command;
mod serve_command;
mod status;
mod top;
mod trace_files;
mod trace_names;
mod word;

pub use status::Status;
pub use top::depot;
pub use trace_files::{GatheredTraces, TraceRefusal, gather};
pub use word::Word;
