//! Who a node is, and how much it has.
ghost use Rattle.std.specs.Prelude.{◌≡◌, false, IfOk};
ghost use Rattle.depot_questions.specs.Answers.{status_told};

use crate::question_answer::NodeStatus;
use depot_base::Memory;
use depot_model::Past;
use depot_queries::LocalNode;

/// Who a node is, and how much it has.
#[tactic(auto, unfolding(crate::specs::Answers::status_told))]
pub(crate) fn status_of<N: LocalNode>(node: &N) -> Result<NodeStatus, Memory>
    requires { N.stopped node.now ≡ false }
    ensures { IfOk result (λ status. status ≡ status_told (N.stands node.now) (N.records node.now)) }
{
    let convicted = node.convicted()?;
    let counts = node.counts();
    Ok(NodeStatus {
        node: node.me(),
        roster: *node.roster_hash(),
        statements: node.statement_count(),
        signable: node.leaf_count(),
        records: counts.records,
        bytes: counts.bytes,
        updates: node.graph().count(),
        leaves: counts.leaves,
        convicted,
    })
}
