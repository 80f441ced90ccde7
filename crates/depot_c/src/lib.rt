//! Depot inside a process of another language: a static library, of functions that C can call (bindings/depot.h).
//!
//! A handle keeps a roster, the signer of a key, at most one node, the last answer, and the records that were lent last. The caller
//! finds the room for it. One export carries all operations of a handle, by a number that is an enum as soon as it is inside: an
//! export with a raw pointer is proved by hand, so there are two of them.
//!
//! - `judging` judges the text of a proof; it keeps nothing.
//! - `exports` has the handle's exports, `serving` a call, `handle` what a handle keeps and does, and `starting` its starts.
//! - `message_calls` has what a node answers to the body of a message: all that is asked of a node is asked so. `lent_records` has its
//!   records, as a caller appends them to a journal's file. Contracts see a handle as a `HandleView` and a node as a `NodeView` (specs/).
//! - `ask` has the operations, `refused` and `outcome` why something isn't done, in words and as a status.
//! - `shared_signer` is a key that serves more than one start.
//!
//! A node of a handle is in memory, and its caller keeps its records: after each message the new ones, before it uses the answer. The
//! kit's gate lets no crate call the system but by a runtime, and no runtime crosses to C.
//!
//! What a message asks and what answers it is defined in `depot_service`, for `depot serve` and callers alike. What the caller has to
//! uphold stands in bindings/depot.h: no proof reaches it.
#![tactic(auto)]

mod ask;
mod exports;
mod handle;
mod judging;
mod lent_records;
mod message_calls;
mod node_view;
mod outcome;
mod refused;
mod serving;
mod shared_signer;
mod starting;
