//! A node does what it is asked: any `LocalNode` carries out a request, or whatever else may be asked over its input.
//! Nothing is decided here, and nothing is kept.
//!
//! - `serve` carries out a `Request` and returns its `Reply`. The reply and the journal afterwards are defined in
//!   `depot_requests`, and the crash images of the call in one way for all requests (`specs/RequestCalls.antt`).
//!   `serving` has the one dispatch over requests, and `replying` makes replies of the results of the calls below;
//!   `feeds`, `reads` and `receipts` have what a stream, a read and a question for receipts need besides one call.
//! - `decode_asked` reads the body of a message: it asks to carry out a request, to answer what the node knows, to
//!   send within bounds, or to hand in its trace. Its first byte says of which sort it is, so it is read in one way.
//!   `answer` has a node carry it out or answer it, and returns the message that answers.
//! - `serve_reader` carries out a `ReaderRequest` over a `LocalNode` and the last reader that was made of it, and returns
//!   its `ReaderReply`. `make_reader` and `use_reader` do so for a caller that keeps readers itself. `reader_serving` has
//!   that dispatch, and `readers` what a reader makes of a stream and shows of a key.
//! - `traces` has what a node hands in for an audit.
#![tactic(auto)]

mod answering;
mod asked;
mod asked_reader;
mod feeds;
mod last_reader;
mod printed;
mod reader_serving;
mod readers;
mod reads;
mod receipts;
mod replying;
mod serving;
mod traces;

pub use answering::answer;
pub use asked::Asked;
pub use asked_reader::decode_asked;
pub use feeds::{FeedResult, feed_all};
pub use last_reader::LastReader;
pub use printed::counted_line;
pub use reader_serving::{MadeReader, make_reader, serve_reader, use_reader};
pub use reads::shown_words;
pub use receipts::has_receipts;
pub use serving::serve;
pub use traces::{export, node_trace, read_traced, traced_line};
