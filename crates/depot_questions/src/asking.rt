//! Asks a node.
ghost use Rattle.std.specs.Prelude.{◌≡◌, false, IfOk};
ghost use Rattle.depot_questions.specs.Answers.{told_of_question};

use crate::convictions::convictions_from;
use crate::keys::keys_above;
use crate::latest::latest_writes;
use crate::question::Question;
use crate::question_answer::QuestionAnswer;
use crate::status::status_of;
use crate::updates::{accepted_among, update_facts, updates_from};
use depot_base::Memory;
use depot_queries::LocalNode;
use std::alloc::Global;

/// Asks a running node. The answer is the defined one, by the node's setting and its journal; or no memory was found.
#[tactic(auto, unfolding(crate::specs::Answers::told_of_question))]
pub fn ask<N: LocalNode>(
    alloc: Global,
    node: &N,
    question: &Question,
) -> Result<QuestionAnswer, Memory>
    requires { N.stopped node.now ≡ false }
    ensures { IfOk result (λ answer. answer ≡ told_of_question (N.stands node.now) (N.records node.now) question.now) }
{
    match question {
        Question::Status => Ok(QuestionAnswer::Status(status_of(node)?)),
        Question::Convictions(from) => Ok(QuestionAnswer::Convictions(convictions_from(
            alloc, node, *from,
        )?)),
        Question::Keys(after) => Ok(QuestionAnswer::Keys(keys_above(
            alloc,
            node.graph(),
            after.as_ref(),
        )?)),
        Question::Latest(key) => Ok(QuestionAnswer::Latest(latest_writes(alloc, node, key)?)),
        Question::Update(id) => Ok(QuestionAnswer::Update(update_facts(node.graph(), id)?)),
        Question::Accepted(ids) => Ok(QuestionAnswer::Accepted(accepted_among(
            alloc,
            node.graph(),
            ids.as_slice(),
        )?)),
        Question::Updates(from) => Ok(QuestionAnswer::Updates(updates_from(
            alloc,
            node.graph(),
            *from,
        )?)),
    }
}
