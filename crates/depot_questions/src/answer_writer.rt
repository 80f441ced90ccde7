//! Writes answers.
ghost use Rattle.std.specs.Prelude.{◌≡◌, ◌++◌, OnOk, IfOk};
ghost use Rattle.depot_questions.specs.QuestionAnswers.{answer_text, text_of_answer};

use crate::QuestionAnswer;
use crate::answer_parts::{
    put_conviction_page, put_flags, put_key_page, put_latest_writes, put_status, put_update,
    put_update_page,
};
use depot_base::{Bytes, Memory};
use std::alloc::Global;

/// An answer's text.
#[tactic(auto, using(depot_base::proofs::Writing::texts), unfolding(crate::specs::QuestionAnswers::answer_text, crate::specs::QuestionAnswers::answer_behind, depot_base::specs::Format::number))]
fn put_answer(out: &mut Bytes, answer: &QuestionAnswer) -> Result<(), Memory>
    ensures { OnOk result (out.new ≡ out.old ++ answer_text.text answer.now) }
{
    match answer {
        QuestionAnswer::Status(status) => {
            out.push_u8(16)?;
            put_status(out, status)
        }
        QuestionAnswer::Convictions(page) => {
            out.push_u8(17)?;
            put_conviction_page(out, page)
        }
        QuestionAnswer::Keys(page) => {
            out.push_u8(18)?;
            put_key_page(out, page)
        }
        QuestionAnswer::Latest(writes) => {
            out.push_u8(19)?;
            put_latest_writes(out, writes.as_slice())
        }
        QuestionAnswer::Update(facts) => {
            out.push_u8(20)?;
            put_update(out, facts)
        }
        QuestionAnswer::Accepted(flags) => {
            out.push_u8(21)?;
            put_flags(out, flags.as_slice())
        }
        QuestionAnswer::Updates(page) => {
            out.push_u8(22)?;
            put_update_page(out, page)
        }
    }
}

/// Encodes the message of an answer: the length of its text in four bytes, and its text. If that has more than
/// 4,294,967,295 bytes, it returns `Memory`.
pub fn encode_answer(alloc: Global, answer: &QuestionAnswer) -> Result<Bytes, Memory>
    ensures { IfOk result (λ text. text ≡ text_of_answer answer.now) }
{
    let mut text = Bytes::new(alloc);
    put_answer(&mut text, answer)?;
    let Ok(length) = u32::try_from(text.as_slice().len()) else {
        return Err(Memory);
    };
    let mut message = Bytes::new(alloc);
    message.push_u32(length)?;
    message.push_all(text.as_slice())?;
    Ok(message)
}
