//! Hellos and bundles: all that nodes send one another. A bundle goes out only once the vouchers that it needs are in
//! the journal.
//!
//! - A hello says what a node has; making one changes nothing (`hello`). A far hello also names ids further back in
//!   the chain of each leaf (`far_hello`).
//! - A bundle is the stream that a node sends in answer to a hello (`bundle`). It is made in four steps:
//!   1. `choose` and `candidate` choose what is sent, one candidate after another, as long as there is room. The
//!      result is a `Sending`, which holds the definition's parcels.
//!   2. `preparing` keeps it with the ids that the node has to vouch for before it sends. To vouch for updates, so
//!      that they are taken from a convicted writer too, is as in the article by Mahajan et al., "Depot: Cloud Storage
//!      with Minimal Trust".
//!   3. The vouchers are journaled.
//!   4. `front` makes the leading frames, proofs and own vouchers, from the journal, and `bundle_stream` the whole
//!      stream. `hashes` has the sets of ids that they use.
//! - A bundle within `Bounds`, of bytes, of vouchers, or of the node's own updates alone, is a prefix of what the
//!   bundle without bounds sends, or of its own updates (`bounded`; `choosing` and `choice` choose it).
//! - What a node is asked to send over its input, as a value and as bytes (`SendRequest`, `decode_sending`, `send`).
//!
//! Hellos and bundles know their node by the trait `Peer` alone, those with bounds and far ones by `LocalNode`. The
//! texts of hellos and frames are those of `depot_streams`, and a `Feed` of `depot_streams` takes a stream in pieces;
//! what a sender and receiver needs of that crate is reexported here.
#![tactic(auto)]

mod asking_laws;
mod bound_laws;
mod bounded_bundle;
mod bounds;
mod bundle_error;
mod bundle_stream;
mod candidate;
mod choice;
mod choose;
mod choosing;
mod far;
mod front;
mod gossip_laws;
mod hashes;
mod own_bundle;
mod own_hello;
mod preparing;
mod send_request;

pub use asking_laws::asking_again_law;
pub use bound_laws::{
    bounded_bundles_are_fronts, bounds_are_kept, far_hellos_have_a_text, named_updates_are_spared,
    no_bounds_law,
};
pub use bounded_bundle::bounded;
pub use bounds::Bounds;
pub use bundle_error::BundleError;
pub use bundle_stream::{Bundled, bundle_for};
pub use choose::{add_candidate, add_wanted_value, ids_of};
pub use depot_base::DecodeError;
pub use depot_model::{Counts, Ending, Refusal, Refusals, Report};
pub use depot_streams::{
    Feed, FeedError, FrameAt, decode_hello, encode_hello, frame_at, hellos_are_prefix_free,
    hellos_are_read_in_one_way, pieces_are_one, put_frame, streams_tell_all,
};
pub use far::far_hello;
pub use gossip_laws::bundles_tell_own_statements;
pub use hashes::Hashes;
pub use own_bundle::{bundle, send_prepared};
pub use own_hello::{hello, node_hello};
pub use preparing::{Prepared, heard, prepare, unvouched_of};
pub use send_request::{SendRequest, decode_sending, send, sendings_are_read_in_one_way};
