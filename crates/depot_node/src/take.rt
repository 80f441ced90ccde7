//! What a node takes: decides over what was read, and carries the decision out. A stopped node takes nothing.
ghost use Rattle.std.specs.Prelude.{◌≡◌, false, Some};
ghost use Rattle.depot_base.specs.declared.check.Full.{Full};
ghost use Rattle.depot_model.specs.journals.Journal.{accepted};
ghost use Rattle.depot_model.specs.checks.Room.{full_by};
ghost use Rattle.depot_model.specs.checks.Taking.{TakesStatement, TakesProof, TakesValue, as_statement, as_proof, as_value};
ghost use Rattle.depot_readings.specs.NewRecords.{MayGrow};
ghost use Rattle.depot_readings.specs.RecordTexts.{IsGiven};
ghost use Rattle.depot_decide.specs.Deciding.{AreJoined, IsCarriedOut};
ghost use Rattle.depot_node.specs.Holdings.{node_setting};
ghost use Rattle.depot_node.specs.StoreCalls.{IsCarryCall, IsKept, IsStoreTake};

use crate::commit::CommitError;
use crate::store::Store;
use depot_decide::{Decision, answered, decide_proof, decide_statement, decide_value};
use depot_model::{Scheme, TakeError, Taken};
use depot_outside::Disk;
use std::alloc::Global;

/// Takes the text of a signed statement, and keeps the journal lawful. After its tag the text is appended as it came.
pub fn take_statement<D: Disk, S: Scheme>(
    alloc: Global,
    store: &mut Store<D, S>,
    text: &[u8],
) -> Result<Taken, TakeError>
    requires kept { IsKept S.verifies store.old }
    ensures takes { TakesStatement (node_setting S.verifies store.old) store.old.records text.now result store.new.records }
    ensures stands { node_setting S.verifies store.new ≡ node_setting S.verifies store.old }
    ensures kept { IsKept S.verifies store.new }
    ensures call { IsStoreTake D.Disk S.verifies as_statement store.old store.new text.now result }
{
    if store.is_stopped() {
        return Err(TakeError::Stopped);
    }
    let decision = decide_statement(alloc, store.readings(), text)?;
    carry_out(alloc, store, decision, text)
}

/// Takes the text of a proof, and keeps the journal lawful.
pub fn take_proof<D: Disk, S: Scheme>(
    alloc: Global,
    store: &mut Store<D, S>,
    text: &[u8],
) -> Result<Taken, TakeError>
    requires kept { IsKept S.verifies store.old }
    ensures takes { TakesProof (node_setting S.verifies store.old) store.old.records text.now result store.new.records }
    ensures stands { node_setting S.verifies store.new ≡ node_setting S.verifies store.old }
    ensures kept { IsKept S.verifies store.new }
    ensures call { IsStoreTake D.Disk S.verifies as_proof store.old store.new text.now result }
{
    if store.is_stopped() {
        return Err(TakeError::Stopped);
    }
    let decision = decide_proof(alloc, store.readings(), text)?;
    carry_out(alloc, store, decision, &[])
}

/// Takes a value, and keeps the journal lawful.
pub fn take_value<D: Disk, S: Scheme>(
    alloc: Global,
    store: &mut Store<D, S>,
    text: &[u8],
) -> Result<Taken, TakeError>
    requires kept { IsKept S.verifies store.old }
    ensures takes { TakesValue (node_setting S.verifies store.old) store.old.records text.now result store.new.records }
    ensures stands { node_setting S.verifies store.new ≡ node_setting S.verifies store.old }
    ensures kept { IsKept S.verifies store.new }
    ensures call { IsStoreTake D.Disk S.verifies as_value store.old store.new text.now result }
{
    if store.is_stopped() {
        return Err(TakeError::Stopped);
    }
    let decision = decide_value(alloc, store.readings(), text)?;
    carry_out(alloc, store, decision, &[])
}

/// Appends a decision's growth where there is room for it, and returns its answer. `given` is the text of the statement
/// with which the growth ends, if it ends with one.
fn carry_out<D: Disk, S: Scheme>(
    alloc: Global,
    store: &mut Store<D, S>,
    decision: Decision,
    given: &[u8],
) -> Result<Taken, TakeError>
    requires runs { store.old.stopped ≡ false }
    requires kept { IsKept S.verifies store.old }
    requires may { MayGrow (node_setting S.verifies store.old) store.old.records decision.growth }
    requires joined { AreJoined (accepted store.old.records) decision.parents }
    requires given { IsGiven decision.growth given.now }
    ensures carried { IsCarriedOut store.old.me store.old.records decision.answer decision.growth result store.new.records }
    ensures stands { node_setting S.verifies store.new ≡ node_setting S.verifies store.old }
    ensures kept { IsKept S.verifies store.new }
    ensures full { (what : Full) → full_by store.old.me store.old.records decision.growth ≡ Some what → store.new ≡ store.old }
    ensures call { IsCarryCall D.Disk store.old store.new decision.growth result }
{
    let Decision {
        answer,
        growth,
        parents,
    } = decision;
    match store.commit(alloc, growth, parents, given) {
        Ok(()) => answered(answer),
        Err(CommitError::Memory) => Err(TakeError::Memory),
        Err(CommitError::Disk) => Err(TakeError::Disk),
        Err(CommitError::Full(full)) => Err(TakeError::Full(full)),
    }
}
