//! Orders of numbered items: which item precedes which, the branches of a forest, and the latest items of each key.
//! Items come one after another. What they are, this crate doesn't know: its caller numbers them, their chains and
//! their keys.
//!
//! - `Clocks`: which item precedes which, by one number for each chain. The items of a chain that an item is or that
//!   precede it are a prefix of the chain, and a row of the lengths of these prefixes decides everything: `a` precedes
//!   `b` exactly where it isn't `b` and the row of `b` counts more items of `a`'s chain than come before `a`. The
//!   article's dependency version vectors are such rows; here they are computed, not sent.
//! - `Chains`: the branches of a forest, its virtual writers. Each item has an earlier item as its prev, or none. The
//!   first child of an item continues its chain; each later child, and each item without a prev, starts a new one. So
//!   the updates of a writer that never forks make one chain, and each further branch of a writer that forks is a
//!   chain of its own: the article's virtual node.
//! - `KeyIndex`: the latest items of each key: those that precede no other item of the key, in the order in which they
//!   are listed (`specs/LatestItems.antt`). A new item precedes none, so it removes the latest items that precede it.
//! - `all_leq`, `first_above` and `max_into`: whole rows of numbers, compared and joined.
//!
//! What callers have to know:
//!
//! - Contracts see clocks as the list of the items that were added, each with its chain, its place there and its
//!   parents, and speak of paths of parents over that list (`specs/ChainItems.antt`), not of rows. They see a forest
//!   as the list of the prevs that were added, and the number of items for which memory is reserved; an index as a
//!   list of keys, each with its latest items and that number.
//! - A question to clocks walks over at most 32 items of one chain. Only their calls `add` and `joined` take memory. A
//!   caller that has joined the rows of the next item's parents hands that row back (`keep_joined`), and `add` uses it
//!   in place of joining them again.
//! - Memory can be reserved first: after `reserve`, the next `add` to a forest doesn't run out of memory, and an `add`
//!   to an index under that key doesn't, whatever came between.
//! - The order of an index is given with each call (`Precedes`). An `add` makes at most one test of it for each latest
//!   item that the key had. That the orders of two calls agree, this crate doesn't know: the clause of `add` speaks of
//!   one order, and of what the list held in it.
#![tactic(auto)]

mod added;
mod chains;
mod clocks;
mod index;
mod lanes;
mod latest;
mod row;

pub use chains::{Chains, Spot, one_chain_is_one_path};
pub use clocks::Clocks;
pub use index::KeyIndex;
pub use lanes::{all_leq, first_above, max_into};
pub use latest::latest_items_are_one_list;
