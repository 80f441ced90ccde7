//! Writes replies.
ghost use Rattle.std.specs.Prelude.{◌≡◌, ◌++◌, OnOk, IfOk};
ghost use Rattle.depot_requests.specs.ReplyTexts.{reply_text, text_of_reply};

use crate::Reply;
use crate::telling_writer::{put_closing, put_counts, put_done, put_flag, put_reason, put_report};
use depot_base::{Bytes, Memory};
use std::alloc::Global;

/// A reply's text.
#[tactic(auto, using(depot_base::proofs::Writing::texts), unfolding(crate::specs::ReplyTexts::reply_text, crate::specs::ReplyTexts::told_behind, crate::specs::ReplyTexts::handed_text, crate::specs::ReplyTexts::stream_text, crate::specs::ReplyTexts::checkpoint_text, depot_base::specs::Closed::rest_of, depot_base::specs::Format::number))]
fn put_reply(out: &mut Bytes, reply: &Reply) -> Result<(), Memory>
    ensures { OnOk result (out.new ≡ out.old ++ reply_text.text reply.now) }
{
    match reply {
        Reply::Put(done) => {
            out.push_u8(1)?;
            put_done(out, done)
        }
        Reply::Read(words) => {
            out.push_u8(2)?;
            out.push_all(words.as_slice())
        }
        Reply::Hello { hello: _, text } => {
            out.push_u8(3)?;
            out.push_all(text.as_slice())
        }
        Reply::Bundle {
            bytes,
            counts,
            more,
        } => {
            out.push_u8(4)?;
            put_counts(out, counts)?;
            put_flag(out, *more)?;
            out.push_all(bytes.as_slice())
        }
        Reply::Stream { report, closing } => {
            out.push_u8(5)?;
            put_report(out, report)?;
            put_closing(out, closing)
        }
        Reply::Settled(enough) => {
            out.push_u8(6)?;
            put_flag(out, *enough)
        }
        Reply::Checkpoint { done, text } => {
            out.push_u8(7)?;
            put_done(out, done)?;
            out.push_all(text.as_slice())
        }
        Reply::Refused(why) => {
            out.push_u8(8)?;
            put_reason(out, why)
        }
    }
}

/// Encodes the message of a reply: the length of its text in four bytes, and its text. If that has more than
/// 4,294,967,295 bytes, it returns `Memory`.
pub fn encode_reply(alloc: Global, reply: &Reply) -> Result<Bytes, Memory>
    ensures { IfOk result (λ text. text ≡ text_of_reply reply.now) }
{
    let mut text = Bytes::new(alloc);
    put_reply(&mut text, reply)?;
    let Ok(length) = u32::try_from(text.as_slice().len()) else {
        return Err(Memory);
    };
    let mut message = Bytes::new(alloc);
    message.push_u32(length)?;
    message.push_all(text.as_slice())?;
    Ok(message)
}
