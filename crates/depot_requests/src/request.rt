//! What is asked of a node.
ghost use Rattle.depot_laws.specs.Streams.{AreBytes};
ghost use Rattle.depot_requests.specs.Requests.{CarriesBytes};

use depot_base::{Bytes, Changes, Hash32, Ids, Key};

/// What a program asks of a node beside it.
#[derive(Drop)]
pub enum Request {
    /// To give keys values or to delete them: 1 to 16 changes, rising strictly by key, none of a receipt's key.
    Put(Changes),
    /// To read a key.
    Get(Key),
    /// To say hello.
    Hello,
    /// To make a bundle for the bytes of a hello.
    Bundle(Bytes),
    /// To take a stream, handed to the feed in pieces of so many bytes, at least 1. The pieces don't matter to the
    /// outcome.
    Take { stream: Bytes, piece: u32 },
    /// To give receipts for 1 to 16 ids, rising strictly.
    Receipt(Ids),
    /// To tell whether at least so many nodes gave a receipt for an id.
    Settled(Hash32, u32),
    /// To make a checkpoint and to sign it.
    Checkpoint,
    /// To sign a checkpoint's text.
    Sign(Bytes),
}

impl Request {
    /// What it carries are bytes. Called for its clause alone.
    pub fn carries_bytes(&self)
        ensures { CarriesBytes self.now }
    {
        match self {
            Request::Take { stream, .. } => are_bytes(stream.as_slice()),
            Request::Sign(text) => are_bytes(text.as_slice()),
            _ => (),
        }
    }
}

/// A text has only bytes. Called for its clause alone.
fn are_bytes(text: &[u8])
    ensures { AreBytes text.now }
{
    text.len();
}
