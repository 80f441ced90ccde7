//! Traces: what nodes hand in for an audit, and what an audit finds.
//!
//! A `Trace` is a node's record texts and its reads, each with the number of records that it saw; it has one text,
//! which is how it travels. A `Finding` says that the traces of many nodes keep the headline, or names the first part
//! of it that fails, with the place.
//!
//! Nothing is judged here: whether the records of a trace are lawful and its reads right isn't checked. The definitions
//! are in `depot_model`; `specs/SeenTraces.antt` says how they see these types, and `specs/TraceTexts.antt` has the
//! format of a trace's text.
#![tactic(auto)]

mod finding;
mod items;
mod trace;
mod trace_items;
mod trace_laws;
mod trace_text;

pub use finding::{Finding, Op};
pub use trace::{
    Answered, Listing, MOST_READS, MOST_TRACES, ReadTrace, Reads, Shown, Trace, Traces,
};
pub use trace_laws::{traces_are_prefix_free, traces_are_read_in_one_way};
pub use trace_text::{TraceError, decode_trace, encode_trace};
