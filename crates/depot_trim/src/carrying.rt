//! What is decided of what a reader is given is carried out.
ghost use Rattle.std.specs.Prelude.{◌≡◌, OnOk, OnErr};
ghost use Rattle.depot_model.specs.checks.Checks.{Given};
ghost use Rattle.depot_model.specs.journals.Journal.{accepted};
ghost use Rattle.depot_model.specs.readers.Readers.{Reader, told_as_node};
ghost use Rattle.depot_decide.specs.Deciding.{AreJoined};
ghost use Rattle.depot_readings.specs.LeavesWith.{leaves_with};
ghost use Rattle.depot_trim.specs.ReaderAnswers.{Becomes};
ghost use Rattle.depot_trim.specs.ReaderDecides.{GrowsBy, IsDecidedOf, MayTake, as_told};
ghost use Rattle.depot_trim.specs.ReaderView.{IsReaderOf};

use crate::trim_error::TrimTake;
use crate::trimmed::Trimmed;
use depot_accept::Parents;
use depot_base::{Check, Full, Memory};
use depot_decide::Decision;
use depot_model::{Scheme, Taken};
use depot_readings::{Growth, leaves_with};

impl<S: Scheme> Trimmed<S> {
    /// Carries out a decision if there is room for its growth, and returns its answer.
    pub(crate) fn carry_out(&mut self, decision: Decision) -> Result<Taken, TrimTake>
        requires reader { (R : Reader) × (IsReaderOf S.verifies R self.old × ((x : Given) × IsDecidedOf R x decision.answer decision.growth)) }
        requires joined { AreJoined self.old.state.accepted decision.parents }
        ensures { (R : Reader) (x : Given) → IsReaderOf S.verifies R self.old → IsDecidedOf R x decision.answer decision.growth → Becomes S.verifies R (told_as_node R x) result self.new }
    {
        let Decision {
            answer,
            growth,
            parents,
        } = decision;
        let leaves = self.leaves_with(&growth);
        if let Some(full) = self.counts.limit(&growth, leaves) {
            drop(growth);
            return Err(TrimTake::Full(full));
        }
        self.keep_parents(parents);
        self.grow(growth, leaves)?;
        answered(answer)
    }

    /// Keeps the joined row of an update's parents, so that the rows aren't joined again when it is added.
    fn keep_parents(&mut self, parents: Option<Parents>)
        requires { AreJoined self.old.state.accepted parents }
        ensures { self.new ≡ self.old }
    {
        if let Some(parents) = parents {
            self.state.keep_row(parents);
        }
    }

    /// How many leaves of other writers there are with a growth, if it takes an update of another writer.
    fn leaves_with(&self, growth: &Growth) -> Option<u32>
        requires { (R : Reader) × IsReaderOf S.verifies R self.now }
        ensures { (R : Reader) → IsReaderOf S.verifies R self.now → result ≡ leaves_with (accepted R.journal) self.now.counts.leaves growth.now }
    {
        leaves_with(self.state.graph(), self.counts.leaves, growth)
    }

    /// Grows the journal. With the growth there are so many leaves of other writers, if it takes an update of another.
    /// Memory for the values that it names is reserved first, so that nothing is kept of it on `Memory`.
    fn grow(&mut self, growth: Growth, leaves: Option<u32>) -> Result<(), Memory>
        requires { (R : Reader) × (IsReaderOf S.verifies R self.old × MayTake R growth) }
        ensures ok { OnOk result (GrowsBy S.verifies growth leaves self.old self.new) }
        ensures err { OnErr result ((R : Reader) → IsReaderOf S.verifies R self.old → IsReaderOf S.verifies R self.new) }
    {
        let Ok(names) = self.named.named_by(&growth) else {
            drop(growth);
            return Err(Memory);
        };
        if self.named.reserve(names.as_slice()).is_err() {
            drop(growth);
            return Err(Memory);
        }
        let mut counts = self.counts;
        counts.grow(&growth, leaves);
        growth.keep_in(&mut self.state)?;
        self.counts = counts;
        self.named.add(names.as_slice());
        Ok(())
    }
}

/// The answer of a decision as a reader gives it: a failed check is a refusal.
fn answered(answer: Result<Taken, Check>) -> Result<Taken, TrimTake>
    ensures { result ≡ as_told answer }
{
    match answer {
        Ok(taken) => Ok(taken),
        Err(check) => Err(TrimTake::Refused(check)),
    }
}
