//! The audit: whether what many nodes did keeps the headline, fork-join causality, from their journals and reads
//! alone. Each node hands in a `Trace`: its record texts and its reads. No disk and no seed is needed, and nothing is
//! kept.
//!
//! `audit` looks at two things in turn, and answers the traces' one finding:
//!
//! 1. Each node by itself (`look_at`): its records are checked one after another, as a start does, and each read is
//!    compared with the records that it saw. Nodes are taken in rising order (`look_at_all`): the records of all, and
//!    then the reads of all.
//! 2. The world that right traces make. Where the records of all nodes are lawful and their reads right, three parts
//!    of the headline are open (`lawful_worlds_are_in_line` of `depot_laws`): that nothing is observed before itself,
//!    that each read is exact, and that no conviction names a node.
//!    - `Met` is a table by hash, with each update under its id and each value under its hash; it says whether two
//!      different texts had one hash. Where none did, the first part holds, and a read is exact exactly where each
//!      write that it lists of a node of the traces is one that this node put: one look-up a listed write.
//!      `first_wrong` returns the first read that isn't exact.
//!    - Where two different texts have one hash, a slow search finds what fails (`depot_search`).
//!    - `first_named` returns the first conviction of a node, whatever texts there are.
//!
//! For the table each text of a record is decoded and hashed once more, and no signature is verified again. The only
//! error is Memory.
#![tactic(auto)]

mod by_node;
mod in_turn;
mod met;
mod met_updates;
mod met_values;
mod named_nodes;
mod one_node;
mod record_text;
mod shows;
mod traced_nodes;
mod traces_audit;
mod turn_laws;
mod wrong_reads;

pub use depot_decide::{PlaceFault, check_records};
pub use depot_traces::{
    Answered, Finding, Listing, MOST_READS, MOST_TRACES, Op, ReadTrace, Reads, Shown, Trace,
    TraceError, Traces, decode_trace, encode_trace,
};
pub use in_turn::look_at_all;
pub use met::Met;
pub use named_nodes::first_named;
pub use one_node::{NodeAnswer, look_at};
pub use traces_audit::audit;
pub use turn_laws::turns_are_findings;
pub use wrong_reads::first_wrong;
