//! What is printed of a reader's reply.
ghost use Rattle.std.specs.Prelude.{◌≡◌, IfOk};
ghost use Rattle.depot_requests.specs.ReaderRequests.{line_of_reader_reply};

use crate::printing::{reason_line, words_line};
use crate::reader_reply::ReaderReply;
use depot_answers::{ReaderCounts, kept, reader_feed, unsigned};
use depot_base::{Bytes, Full, Memory, NodeId};
use std::alloc::Global;

/// The line of a reader that was made.
#[tactic(auto, using(depot_base::proofs::Writing::texts))]
fn made_line(alloc: Global, left: u32, all: u32) -> Result<Bytes, Memory>
    ensures { IfOk result (λ line. line ≡ line_of_reader_reply (ReaderReply.Made left all)) }
{
    let mut line = Bytes::from_slice(alloc, b" ")?;
    kept(alloc, &mut line, left, all)?;
    line.push_all(b"\n")?;
    Ok(line)
}

/// The line of the first node of the roster that didn't sign a checkpoint.
#[tactic(auto, using(depot_base::proofs::Writing::texts))]
fn unsigned_line(alloc: Global, node: NodeId) -> Result<Bytes, Memory>
    ensures { IfOk result (λ line. line ≡ line_of_reader_reply (ReaderReply.Unsigned node)) }
{
    let mut line = Bytes::from_slice(alloc, b" ")?;
    unsigned(alloc, &mut line, node)?;
    line.push_all(b"\n")?;
    Ok(line)
}

/// The line of a stream that a reader took.
#[tactic(auto, using(depot_base::proofs::Writing::texts))]
fn took_line(alloc: Global, counts: ReaderCounts, full: Option<Full>) -> Result<Bytes, Memory>
    ensures { IfOk result (λ line. line ≡ line_of_reader_reply (ReaderReply.Took counts full)) }
{
    let mut line = Bytes::from_slice(alloc, b" ")?;
    reader_feed(alloc, &mut line, counts, full)?;
    line.push_all(b"\n")?;
    Ok(line)
}

/// What is printed of a reader's reply: a line with its LF, from after the arrow on.
pub fn print_reader(alloc: Global, reply: ReaderReply) -> Result<Bytes, Memory>
    ensures { IfOk result (λ line. line ≡ line_of_reader_reply reply) }
{
    match reply {
        ReaderReply::Made { kept, accepted } => made_line(alloc, kept, accepted),
        ReaderReply::Unsigned(node) => unsigned_line(alloc, node),
        ReaderReply::Refused(why) => reason_line(alloc, &why),
        ReaderReply::Took { counts, full } => took_line(alloc, counts, full),
        ReaderReply::Read(words) => words_line(words),
        ReaderReply::NoReader => words_line(Bytes::new(alloc)),
    }
}
