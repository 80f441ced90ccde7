//! Checkpoints, and readers that gave up what every member has accepted and superseded.
//!
//! A checkpoint names a roster and the leaves of what a node accepted. A node signs one, once it accepted all leaves,
//! by a put of the checkpoint's text under its key (`make_checkpoint`, `sign_checkpoint`). All its later updates follow
//! these leaves, so none names anything below as a parent. Once every member has signed, no correct node names what is
//! below and superseded.
//!
//! A reader (`Trimmed`) is then made of a node (`trim`):
//!
//! - It drops the texts of records, the signatures of updates that are below and superseded, and the values that only
//!   these named.
//! - It takes what others send, and answers reads as the node would with the whole journal.
//! - It writes nothing.
//!
//! `specs/Opens.antt` says when a text is opened as a checkpoint; `specs/Making.antt` and `specs/Signing.antt` what a
//! node answers when it makes or signs one; `specs/ReaderView.antt` which reader a `Trimmed` is, and
//! `specs/ReaderAnswers.antt` what it answers, by the definitions `Opening`, `Readers` and `ReaderFeeds` of
//! `depot_model`. That readers and nodes agree is `trim_law` of `depot_laws`, reexported here.
#![tactic(auto)]

mod below;
mod carrying;
mod checkpoint_laws;
mod checkpoint_text;
mod filling;
mod flags;
mod keeping;
mod keys;
mod leaf_items;
mod make_error;
mod making;
mod marked_names;
mod marking;
mod marks;
mod naming;
mod opening;
mod sign_error;
mod signing;
mod taking;
mod trim_error;
mod trimmed;
mod trimming;
mod unsigned;

pub use checkpoint_laws::{checkpoints_are_prefix_free, checkpoints_are_read_in_one_way};
pub use checkpoint_text::{Checkpoint, decode_checkpoint, encode_checkpoint};
pub use depot_laws::trim_law;
pub use keys::checkpoint_key;
pub use make_error::MakeError;
pub use making::make_checkpoint;
pub use sign_error::CheckpointError;
pub use signing::sign_checkpoint;
pub use trim_error::{TrimError, TrimTake};
pub use trimmed::Trimmed;
pub use trimming::trim;
