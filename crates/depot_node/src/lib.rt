//! The node: a replica that puts, reads, and takes what others give it.
//!
//! A `Node` has a journal, a list of records, which is lawful: each record is allowed at its place. It grows by what
//! the node puts, which is the next own update, and by what the node takes, as the checks decide. A refusal changes
//! nothing, except where a fork or a step back convicts its writer. Reads look at the accepted updates of the journal,
//! and show the value of a write where it is held.
//!
//! - `Replica` is what others see of a node and give it, with its laws: the journal is lawful and has its birth record,
//!   and the roster has the node.
//! - `Peer` is what a node sends others, by `depot_queries`.
//! - `LocalNode` is what the program beside it puts and reads.
//!
//! All three rest on a `Store`: the journal on its disk, what was read off it (`depot_readings`), and the texts that
//! weren't read yet. `depot_decide` decides over what was read, before anything changes. One call, `Store::commit`,
//! carries a decision out, and the journal of a started node grows by it alone: it checks the room, reserves all
//! memory, reads the new records, and appends their texts. Puts (`put`), what others give (`take`), and the node's own
//! vouchers for what it took (`vouch`) all use it.
//!
//! A node is started from the journal on a disk: each record is checked as if it came now (`start`, `start_reading`).
//! It gives the disk back. Once the disk failed a node is stopped: it still gives the texts of its records, and nothing
//! more.
//!
//! No check and no limit is decided here, and nothing is sent.
#![tactic(auto)]

mod commit;
mod node;
mod node_laws;
mod node_peer;
mod put;
mod start;
mod start_error;
mod start_reading;
mod store;
mod take;
mod vouch;

pub use depot_model::{PutDone, PutError, RecordFault, TakeError, Taken};
pub use node::{DetachedNode, Node, OnDisk};
pub use node_laws::lawful_files_start;
pub use start_error::StartError;
