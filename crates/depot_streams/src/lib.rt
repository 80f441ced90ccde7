//! Streams between nodes: the texts of hellos and frames, the frames of a bundle while they are chosen, and streams
//! that are fed to a node in pieces. Nothing here says what is sent, checks what a frame gives, or keeps a record.
//!
//! - `decode_hello`, `encode_hello`: a hello has one text, and a text at most one hello.
//! - `frame_start`, `frame_at`, `put_frame`: a frame is a tag, the length of its payload, and the payload. What the
//!   next bytes are is reported at the first byte that decides it, and so is how many bytes may be read at once before
//!   a frame can end (`missing`).
//! - `Sending`: what a bundle sends, as far as it is chosen. It is seen as what it has: the frames of updates and
//!   values, one after another, their numbers, and the ids of the updates of others among them. A statement is added
//!   with its values, and only where all of them fit into a bundle.
//! - `Feed`: takes a stream in pieces of any length and gives each frame to the node with its last byte. It is seen as
//!   what it keeps: the bytes of the incomplete frame, and the counts of the frames before it. Feed and journal are
//!   then those of the definition, which goes byte by byte: how the stream was cut doesn't matter (`pieces_are_one`).
//!
//! All but a feed depends on bytes alone: no node is asked. A feed knows its node by the trait `Replica` alone. The
//! crash images of several calls on a node, one after another, are defined here too (`specs/Lasting.antt`).
#![tactic(auto)]

mod feed;
mod feed_error;
mod feed_laws;
mod frame;
mod frame_text;
mod hello_laws;
mod hello_text;
mod sending;
mod tally;

pub use depot_base::DecodeError;
pub use depot_model::{Ending, Refusal, Refusals, Report};
pub use feed::Feed;
pub use feed_error::FeedError;
pub use feed_laws::{pieces_are_one, streams_tell_all};
pub use frame::{FrameAt, FrameStart, frame_at, frame_start, missing};
pub use frame_text::put_frame;
pub use hello_laws::{hellos_are_prefix_free, hellos_are_read_in_one_way};
pub use hello_text::{decode_hello, encode_hello, leaves_in, put_list};
pub use sending::Sending;
