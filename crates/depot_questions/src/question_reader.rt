//! Reads questions.
ghost use Rattle.std.specs.Prelude.{◌≤◌};
ghost use Rattle.depot_base.specs.Format.{whole};
ghost use Rattle.depot_base.specs.Parts.{digest};
ghost use Rattle.depot_base.specs.Reading.{DecodesClosed, Gives};
ghost use Rattle.depot_questions.specs.QuestionTexts.{FindsQuestion, question_behind, question_text, start_text};
ghost use Rattle.depot_requests.specs.TellingTexts.{any_u32_text};

use crate::Question;
use depot_base::fault::{Fault, answer};
use depot_base::limits::MOST_KEY;
use depot_base::reading::{at_end, bytes_in, hash_in, u8_in, u32_in};
use depot_base::{DecodeError, Fields, Hash32, Key};
use depot_requests::{whole_ids, whole_key};
use std::alloc::Global;

/// A number of any size, and nothing after it.
fn whole_number(fields: &mut Fields<'_>) -> Result<u32, Fault>
    ensures { Gives result (whole any_u32_text fields.old) }
{
    let number = u32_in(fields, 0, u32::MAX)?;
    at_end(fields, number)
}

/// An id, and nothing after it.
fn whole_id(fields: &mut Fields<'_>) -> Result<Hash32, Fault>
    ensures { Gives result (whole digest fields.old) }
{
    let id = hash_in(fields)?;
    at_end(fields, id)
}

/// A key preceded by its length, or none if that is 0, and nothing after it.
#[tactic(auto, unfolding(crate::specs::QuestionTexts::start_text))]
fn whole_start(alloc: Global, fields: &mut Fields<'_>) -> Result<Option<Key>, Fault>
    ensures { Gives result (whole start_text fields.old) }
{
    let length = u8_in(fields, 0, MOST_KEY as u8)?;
    if length == 0 {
        return at_end(fields, None);
    }
    let key = Key::from_bytes(bytes_in(alloc, fields, length as usize)?);
    at_end(fields, Some(key))
}

/// What follows a kind.
#[tactic(auto, unfolding(crate::specs::QuestionTexts::question_behind))]
fn question_in(alloc: Global, fields: &mut Fields<'_>, kind: u8) -> Result<Question, Fault>
    requires least { 16 ≤ kind }
    requires most { kind ≤ 22 }
    ensures { Gives result ((question_behind kind).read fields.old) }
{
    match kind {
        16 => at_end(fields, Question::Status),
        17 => Ok(Question::Convictions(whole_number(fields)?)),
        18 => Ok(Question::Keys(whole_start(alloc, fields)?)),
        19 => Ok(Question::Latest(whole_key(alloc, fields)?)),
        20 => Ok(Question::Update(whole_id(fields)?)),
        21 => Ok(Question::Accepted(whole_ids(alloc, fields)?)),
        22 => Ok(Question::Updates(whole_number(fields)?)),
        _ => unreachable!(),
    }
}

/// A question, of all the bytes that are left.
#[tactic(auto, unfolding(crate::specs::QuestionTexts::question_text))]
fn question_of(alloc: Global, fields: &mut Fields<'_>) -> Result<Question, Fault>
    ensures { Gives result (question_text.read fields.old) }
{
    let kind = u8_in(fields, 16, 22)?;
    question_in(alloc, fields, kind)
}

/// Decodes the text of a question. `IllFormed` is returned exactly when it is no question's text, with the offset of
/// the first fault, 0 for no bytes and for an unknown kind.
pub fn decode_question(alloc: Global, body: &[u8]) -> Result<Question, DecodeError>
    ensures decodes { DecodesClosed question_text body.now result }
    ensures finds { FindsQuestion body.now result }
{
    answer(question_of(alloc, &mut Fields::new(body)))
}
