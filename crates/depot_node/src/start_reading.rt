//! Reads the records of a journal one by one, checking each as if it came now.
ghost use Rattle.std.specs.Prelude.{◌≡◌, ◌∷◌, [], ℕ, List, true, false, IsTrue, OnOk, OnErr, IfOk, IfErr, IsErrOf};
ghost use Rattle.depot_model.specs.journals.JournalCalls.{KeepsDisk};
ghost use Rattle.depot_model.specs.checks.RecordFaults.{AreTextsOf};
ghost use Rattle.depot_model.specs.texts.Roster.{has_node};
ghost use Rattle.depot_model.specs.journals.Stops.{LeavesAll};
ghost use Rattle.depot_model.specs.texts.Texts.{hash_of_roster};
ghost use Rattle.depot_node.specs.Holdings.{IsWhole, journal_on, node_setting};
ghost use Rattle.depot_node.specs.Starting.{AreOwn, LeavesFile, birth_after, started};
ghost use Rattle.depot_node.specs.StartReading.{IsBirthCall, IsDiskFilled, IsFilled, IsNotFilled, IsReadOn, IsNextWrong, AreWrong, IsOtherBirth, AreOther};

use crate::commit::WriteError;
use crate::start_error::StartError;
use crate::store::Store;
use depot_base::{DecodeError, Hash32, NodeId, Record};
use depot_decide::{Fit, ReadError, check_record};
use depot_model::Scheme;
use depot_outside::Disk;
use depot_readings::Growth;
use depot_update::decode_record;
use std::alloc::Global;

/// Reads all records of a journal that has none read yet. A journal without records gets the birth record of the node.
///
/// `OtherNode`, `OtherRoster` and `NotLawful` come in this order, each exactly where it is so; nothing is then done to the disk.
pub fn fill<D: Disk, S: Scheme>(alloc: Global, store: &mut Store<D, S>) -> Result<(), StartError>
    requires runs { store.old.stopped ≡ false }
    requires none { store.old.records ≡ [] }
    requires listed { has_node store.old.listed store.old.me ≡ true }
    ensures filled { OnOk result (IsFilled D.Disk (node_setting S.verifies store.old) store.old store.new) }
    ensures refused { IfErr result (IsNotFilled D.Disk (node_setting S.verifies store.old) store.old store.new) }
    ensures stands { node_setting S.verifies store.new ≡ node_setting S.verifies store.old }
    ensures disk { KeepsDisk (journal_on D.Disk) store.old store.new (IsErrOf result StartError.Disk) }
    ensures left { IsDiskFilled D.Disk (node_setting S.verifies store.old) store.old store.new }
{
    let Some(text) = store.unread() else {
        return add_birth(alloc, store);
    };
    check_origin(alloc, store, text)?;
    read_all(alloc, store)
}

/// Appends the birth record of the node to a journal without records.
fn add_birth<D: Disk, S: Scheme>(alloc: Global, store: &mut Store<D, S>) -> Result<(), StartError>
    requires runs { store.old.stopped ≡ false }
    requires none { store.old.records ≡ [] }
    requires read { store.old.unread ≡ [] }
    requires listed { has_node store.old.listed store.old.me ≡ true }
    ensures records { OnOk result (store.new.records ≡ started (node_setting S.verifies store.old) []) }
    ensures whole { OnOk result (IsWhole store.new) }
    ensures refused { IfErr result (λ e. LeavesFile e → ⊥) }
    ensures stands { node_setting S.verifies store.new ≡ node_setting S.verifies store.old }
    ensures call { IsBirthCall D.Disk store.old store.new (birth_after (node_setting S.verifies store.old) []) result }
{
    let node = store.me();
    let roster = store.roster();
    // Called for its clause alone: the entries make a roster, so the birth record has a text.
    let _entries = roster.entries();
    let hash = *roster.hash();
    let birth = Growth::birth(node, hash);
    match store.append(alloc, birth, None, &[]) {
        Ok(()) => Ok(()),
        Err(WriteError::Memory) => Err(StartError::Memory),
        Err(WriteError::Disk) => Err(StartError::Disk),
    }
}

/// Refuses a journal whose first text is the birth of another node, or under another roster.
fn check_origin<D: Disk, S: Scheme>(
    alloc: Global,
    store: &Store<D, S>,
    first: &[u8],
) -> Result<(), StartError>
    ensures own { OnOk result ((rest : List (List ℕ)) → AreOwn (node_setting S.verifies store.now) (first.now ∷ rest)) }
    ensures other { IfErr result (λ e. (rest : List (List ℕ)) → AreOther (node_setting S.verifies store.now) (first.now ∷ rest) e) }
{
    let item = match decode_record(alloc, first) {
        Ok(item) => item,
        Err(DecodeError::Memory) => return Err(StartError::Memory),
        Err(DecodeError::IllFormed(_)) => return Ok(()),
    };
    let checked = match &item {
        Record::Birth { node, roster } => check_birth(store, *node, *roster),
        _ => Ok(()),
    };
    drop(item);
    checked
}

/// Refuses a birth of another node, or of the node under another roster.
fn check_birth<D: Disk, S: Scheme>(
    store: &Store<D, S>,
    node: NodeId,
    roster: Hash32,
) -> Result<(), StartError>
    ensures own { OnOk result ((node ≡ store.now.me) × (roster ≡ hash_of_roster store.now.listed)) }
    ensures other { IfErr result (IsOtherBirth (node_setting S.verifies store.now) node roster) }
{
    if node != store.me() {
        return Err(StartError::OtherNode(node));
    }
    let given = *store.roster().hash();
    if roster != given {
        return Err(StartError::OtherRoster {
            kept: roster,
            given,
        });
    }
    Ok(())
}

/// Reads the records of a journal that has none read yet.
fn read_all<D: Disk, S: Scheme>(alloc: Global, store: &mut Store<D, S>) -> Result<(), StartError>
    requires runs { store.old.stopped ≡ false }
    requires none { store.old.records ≡ [] }
    ensures read { OnOk result (AreTextsOf (node_setting S.verifies store.old) store.new.records store.old.unread) }
    ensures whole { OnOk result (IsWhole store.new) }
    ensures wrong { IfErr result (AreWrong (node_setting S.verifies store.old) store.old.unread) }
    ensures stands { node_setting S.verifies store.new ≡ node_setting S.verifies store.old }
    ensures disk { store.new.disk ≡ store.old.disk }
    ensures stable { OnOk result (IsTrue (D.tells store.new.disk) → LeavesAll store.new.records false (D.may_leave store.new.disk)) }
{
    while read_next(alloc, store)? {}
    // Called for its clause alone: the crash images have the records.
    let _runs = store.is_stopped();
    Ok(())
}

/// Reads the first record that wasn't read yet. Returns false where every record was.
fn read_next<D: Disk, S: Scheme>(alloc: Global, store: &mut Store<D, S>) -> Result<bool, StartError>
    requires runs { store.old.stopped ≡ false }
    ensures read { IfOk result (λ more. more ≡ true → IsReadOn (node_setting S.verifies store.old) store.old store.new) }
    ensures end { IfOk result (λ more. more ≡ false → (store.old.unread ≡ []) × (store.new ≡ store.old)) }
    ensures wrong { IfErr result (IsNextWrong (node_setting S.verifies store.old) store.old.records store.old.unread) }
    ensures same { OnErr result (store.new ≡ store.old) }
{
    let Some(text) = store.unread() else {
        return Ok(false);
    };
    match check_record(alloc, store.readings(), text) {
        Ok(Fit { growth, parents }) => {
            store.read(growth, parents)?;
            Ok(true)
        }
        Err(ReadError::Memory) => Err(StartError::Memory),
        Err(ReadError::Fault(fault)) => Err(StartError::NotLawful {
            place: store.count(),
            fault,
        }),
    }
}
