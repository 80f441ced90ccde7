//! What is asked of readers.

use depot_base::{Bytes, Key};

/// What a program asks of a node's readers.
#[derive(Drop)]
pub enum ReaderRequest {
    /// To make a reader of the node, below the checkpoint of this text. If none is made, the last one stays.
    Trim(Bytes),
    /// To use the last reader that was made.
    Use(ReaderUse),
}

/// What a reader is used for.
#[derive(Drop)]
pub enum ReaderUse {
    /// To give it a stream.
    Give(Bytes),
    /// To read a key of it.
    Get(Key),
}
