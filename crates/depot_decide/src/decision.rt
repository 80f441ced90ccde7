//! What a node decides on what it is given.
ghost use Rattle.std.specs.Prelude.{◌≡◌, [], None};
ghost use Rattle.depot_decide.specs.Deciding.{AnswersAs};

use depot_accept::Parents;
use depot_base::Check;
use depot_model::{TakeError, Taken};
use depot_readings::Growth;

/// What a node answers to what it is given, and what its journal grows by where there is room.
#[derive(Drop)]
pub struct Decision {
    /// The answer, where there is room for the growth: new, known, or the first check that fails.
    pub answer: Result<Taken, Check>,
    /// The records to append: none, one, or a conviction followed by a statement.
    pub growth: Growth,
    /// The items of a taken update's parents, with their joined row: for `Readings::keep_row` before the growth is
    /// read, so that the rows aren't joined again.
    pub parents: Option<Parents>,
}

impl Decision {
    /// An answer without a growth. It takes no memory.
    pub fn of(answer: Result<Taken, Check>) -> Decision
        ensures { result ≡ record { answer = answer; growth = []; parents = None } }
    {
        Decision {
            answer,
            growth: Growth::nothing(),
            parents: None,
        }
    }
}

/// The answer of a decision as a node returns it: a failed check is a refusal. It takes no memory.
pub fn answered(answer: Result<Taken, Check>) -> Result<Taken, TakeError>
    ensures { AnswersAs answer result }
{
    match answer {
        Ok(taken) => Ok(taken),
        Err(check) => Err(TakeError::Refused(check)),
    }
}
