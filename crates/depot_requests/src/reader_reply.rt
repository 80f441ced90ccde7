//! What is replied where a reader is to be made or used.

use crate::reply::Reason;
use depot_answers::ReaderCounts;
use depot_base::{Bytes, Full, NodeId};

/// What is replied where a reader is to be made or used.
#[derive(Drop)]
pub enum ReaderReply {
    /// A reader was made: how many updates it keeps, and how many were accepted, the trimmed ones too.
    Made {
        kept: u32,
        accepted: u32,
    },
    /// None was made: this is the first node of the roster that didn't sign the checkpoint.
    Unsigned(NodeId),
    /// None was made: the text isn't a checkpoint's, or goes by another roster, or names an update that wasn't accepted.
    Refused(Reason),
    /// The reader took a stream: how many frames had each outcome, and what was full, if one found no room.
    Took {
        counts: ReaderCounts,
        full: Option<Full>,
    },
    /// The writes of a key that the reader shows, in words, each preceded by a space.
    Read(Bytes),
    /// There is no reader.
    NoReader,
}
