//! The graph of accepted updates, and the history hash.
//!
//! A `Graph` is the list of the updates that were added, each after its parents and each with an id of its own. Its
//! items are numbered from 0 in that order. It answers:
//!
//! - the item with an id, whether an item precedes another by a path of parents, and the leaves (heads), which are no
//!   item's prev;
//! - for each key its latest writes: those that precede no other write of the key;
//! - the forest by prev: the children of an item, its prev, and the chains. The first child continues the chain of its
//!   prev, and each other item starts one. A chain is also called a virtual writer, the article's virtual node. The
//!   graph has their number, the last item of each, and the place of an item;
//! - rows, with an entry for each chain. An item's row counts the items of the chain that are the item or precede it;
//!   the joined row of some items counts those that are one of them or precede one. These are always a prefix of the
//!   chain.
//!
//! Invariants: each parent of an item is an earlier item, and no two items have one id.
//!
//! For each item a graph keeps the update, its children, its place in the forest (`Chains`) and its row, which decides
//! what precedes it (`Clocks`); for each key the latest writes in the order in which a read lists them (`KeyIndex`).
//! Each `add` first computes what the update changes (`Addition`) and then writes it; the clocks, which alone may still
//! run out of memory then, come first. So an `add` that runs out of memory changes nothing.
//!
//! - `before` looks at no more than 32 items of one chain.
//! - `add` takes time in proportion to the update's parents times the chains, and to the leaves; it makes a test of
//!   precedence for each latest write of its key. Where the joined row of the parents is known, `keep_row` before `add`
//!   saves joining it again.
//! - Nothing is ever removed. An update is never checked here, beyond that it may be added: not its signature, its
//!   clock or its history hash.
//!
//! The history hash (`history`) is computed on demand: of all items (`summary`), or of some with all that precede them
//! (`history_hash`; `history_of_row`, where their joined row is known). `changed_leaves` lists the leaves that a node's
//! next update names. The hash goes over the leaves of these items. The joined row counts a prefix of each chain, and
//! only the last item of it can be a leaf (`past_chain`). So a hash looks at each chain once, and on each that the past
//! reaches walks back from the last item to that one. `history_laws` says which sets are hashed.
#![tactic(auto)]

mod addition;
mod covered;
mod graph;
mod history;
mod history_laws;
mod item;
mod leaf;
mod listed_order;
mod past_chain;

pub use graph::Graph;
pub use history::{changed_leaves, history_hash, history_of_row, summary};
pub use history_laws::{closure_is_what_precedes, closure_of_parents_is_past};
