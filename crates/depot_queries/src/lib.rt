//! What a node answers, from what it has read off its journal: to others, to the program beside it, and by receipts.
//!
//! - Queries over readings (`depot_readings`), which are seen as the list of the records. Each answer is the
//!   definition's of that list, and leaves the readings as they are. They decide nothing and send nothing:
//!   `depot_gossip` chooses what goes into a bundle. They give:
//!   - the convicted nodes (`convicted`), and the leaves (`leaves`);
//!   - the places of the updates that a reader with given leaves lacks (`candidates`), and of the proofs and own
//!     vouchers that a bundle begins with (`proof_places`, `voucher_places`);
//!   - the update that the record of a place accepts (`update_at`, `id_at`), and the held value of a name (`held_as`);
//!   - the signed statement of a record, by the record's text alone (`signed_text`).
//! - `LocalNode`: a node as the program beside it uses it. Others see of a node what it sends and takes (`Replica`,
//!   `Peer`). The program that runs it also puts, reads, and looks at the graph of what it accepted: a `LocalNode` is
//!   that, as a contract alone. So the code that gives receipts, signs checkpoints, makes readers and prints answers
//!   depends on this contract, and not on the node, which is in `depot_node`.
//! - Receipts: signed updates by which a node says that it holds another update and its values.
//!   - The key of one is the eight bytes `receipt:` and an id (`receipt_key`). A write of this key that isn't a
//!     deletion is a receipt for the update with that id. The value is empty; another value counts as well.
//!   - `give` makes receipts, by one put, only for updates that the node accepted and whose values it all holds. So
//!     every receipt of a node that writes these keys by `give` alone is true (`specs/Giving.antt`).
//!   - A `Book` has read a prefix of a graph's updates. For each id it knows the holders: the writers of receipts
//!     among them, each once, in rising order (`specs/Books.antt`). It is caught up with any graph that begins with
//!     what it has read.
//!
//! A book believes whoever signed. It doesn't check that a holder holds anything, or that the id is that of an update.
//! What receipts mean in worlds of correct nodes is stated by laws of `depot_laws`, reexported here.
#![tactic(auto)]

mod book;
mod book_laws;
mod candidate_places;
mod convictions;
mod due;
mod give_error;
mod given;
mod giving;
mod held_values;
mod holders;
mod in_front;
mod keys;
mod leaf_order;
mod local_node;
mod record_items;
mod rising;
mod signed_texts;
mod tails;

pub use book::Book;
pub use book_laws::books_go_on;
pub use candidate_places::candidates;
pub use convictions::convicted;
pub use depot_laws::{
    receipt_keys, receipts_speak_of_held_values, receipts_stay_true, settled_law,
};
pub use give_error::GiveError;
pub use giving::give;
pub use held_values::held_as;
pub use in_front::{proof_places, voucher_places};
pub use keys::{receipt_key, receipt_of};
pub use leaf_order::leaves;
pub use local_node::LocalNode;
pub use record_items::{id_at, update_at};
pub use signed_texts::signed_text;
