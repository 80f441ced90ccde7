//! Checks a record of a journal as if it came now.
ghost use Rattle.std.specs.Prelude.{◌≡◌, ◌↔◌, ◌<◌, ◌≤◌, ◌∷◌, ◌++◌, ℕ, List, Err, true, length, map, IfOk, IfErr, IsTrue};
ghost use Rattle.std.specs.List.{AllByRecursion};
ghost use Rattle.depot_base.specs.Writes.{sizes_of};
ghost use Rattle.depot_base.specs.declared.limits.TheConstants.{MOST_ENTRIES};
ghost use Rattle.depot_base.specs.declared.record.Record.TheVariants.{Birth, OwnPut, OwnVoucher, Foreign, Conviction, Held};
ghost use Rattle.depot_model.specs.journals.Journal.{accepted, own, is_foreign};
ghost use Rattle.depot_model.specs.journals.Lawful.{IsLawful, MayFollow, MayVouch};
ghost use Rattle.depot_model.specs.checks.Own.{next_with, write_of, changes_of};
ghost use Rattle.depot_model.specs.checks.RecordFaults.{IsAtPlace};
ghost use Rattle.depot_model.specs.texts.Texts.{hash_of_roster, id_of_update};
ghost use Rattle.depot_readings.specs.ReadingsView.{standing};
ghost use Rattle.depot_model.specs.texts.Records.{IsTextOf};
ghost use Rattle.depot_decide.specs.declared.record_check.ReadError.TheVariants as refused;
ghost use Rattle.depot_decide.specs.Deciding.{AreJoined};
ghost use Rattle.depot_decide.specs.ReadRecords.{IsRecordChecked, IsFitAs, IsReadAs, TakesNew, HasManyEntries, record_fault_of};

use crate::decision::Decision;
use crate::plan_errors::NextError;
use crate::proof_decision::decide_decoded;
use crate::put_decision::{Next, has_leaf, is_fresh, next_own};
use crate::statement_decision::decide_signed;
use crate::value::decide_short;
use crate::voucher_decision::is_foreign;
use depot_accept::Parents;
use depot_base::{
    Check, DecodeError, Hash32, Memory, NodeId, Proof, Record, Signed, Update, Value, ValueList,
    Voucher, Write, Writes,
};
use depot_model::{RecordFault, Scheme, Taken, hash_of};
use depot_readings::{Growth, Readings};
use depot_update::{decode_record, id_in_own_put, id_in_own_voucher};
use std::alloc::Global;

/// Why a record isn't read.
#[derive(Clone, Copy, Debug, PartialEq, Eq)]
pub enum ReadError {
    /// Memory ran out.
    Memory,
    /// It may not follow the records before it.
    Fault(RecordFault),
}

impl From<Memory> for ReadError {
    ghost from_gives = { λ _ e. e ≡ refused.Memory };

    fn from(_e: Memory) -> ReadError {
        ReadError::Memory
    }
}

/// A record that may follow those before it, as it is to be read.
#[derive(Drop)]
pub struct Fit {
    /// The record.
    pub growth: Growth,
    /// The items of the parents of another's update, with their joined row, as a `Decision` has them.
    pub parents: Option<Parents>,
}

/// Checks the text of a record: returns the record where it is allowed after those that were read, and else its first
/// fault.
pub fn check_record<S: Scheme>(
    alloc: Global,
    readings: &Readings<S>,
    text: &[u8],
) -> Result<Fit, ReadError>
    ensures fit { IsReadAs (standing S.verifies readings.now) readings.now.records text.now result }
    ensures lawful { IfOk result (λ fit. IsLawful (standing S.verifies readings.now) (readings.now.records ++ fit.growth)) }
    ensures joined { IfOk result (λ fit. AreJoined (accepted readings.now.records) fit.parents) }
{
    // Called for its clause alone: the records that were read are lawful.
    let _count = readings.count();
    let fit = check_text(alloc, readings, text)?;
    if !readings.has_room(&fit.growth) {
        drop(fit);
        return Err(ReadError::Fault(RecordFault::NoRoom));
    }
    Ok(fit)
}

/// The same without the check of the room.
pub fn check_text<S: Scheme>(
    alloc: Global,
    readings: &Readings<S>,
    text: &[u8],
) -> Result<Fit, ReadError>
    ensures fit { IsFitAs (standing S.verifies readings.now) readings.now.records text.now result }
    ensures joined { IfOk result (λ fit. AreJoined (accepted readings.now.records) fit.parents) }
{
    let item = match decode_record(alloc, text) {
        Ok(item) => item,
        Err(DecodeError::Memory) => return Err(ReadError::Memory),
        Err(DecodeError::IllFormed(at)) => return Err(ReadError::Fault(RecordFault::Ill(at))),
    };
    if !is_at_place(readings, &item) {
        drop(item);
        return Err(ReadError::Fault(RecordFault::Birth));
    }
    check_item(alloc, readings, item, text)
}

/// Whether a record is a birth exactly where no record was read.
fn is_at_place<S: Scheme>(readings: &Readings<S>, item: &Record) -> bool
    ensures { IsTrue result ↔ IsAtPlace readings.now.records item.now }
{
    match item {
        Record::Birth { .. } => readings.count() == 0,
        _ => readings.count() > 0,
    }
}

/// Checks a record that is at its place, without the check of the room.
fn check_item<S: Scheme>(
    alloc: Global,
    readings: &Readings<S>,
    item: Record,
    text: &[u8],
) -> Result<Fit, ReadError>
    requires place { IsAtPlace readings.now.records item }
    requires text { IsTextOf item text.now }
    ensures checked { IsRecordChecked (standing S.verifies readings.now) readings.now.records item result }
    ensures joined { IfOk result (λ fit. AreJoined (accepted readings.now.records) fit.parents) }
{
    match item {
        Record::Birth { node, roster } => check_birth(readings, node, roster),
        Record::OwnPut { update, values } => check_put(alloc, readings, update, values, text),
        Record::OwnVoucher { voucher } => check_voucher(alloc, readings, voucher, text),
        Record::Foreign { signed } => check_foreign(alloc, readings, signed, text),
        Record::Conviction { proof } => check_conviction(alloc, readings, proof, text),
        Record::Held { value } => check_held(alloc, readings, value),
    }
}

/// Checks a birth: it must be that of the node and its roster.
fn check_birth<S: Scheme>(
    readings: &Readings<S>,
    node: NodeId,
    roster: Hash32,
) -> Result<Fit, ReadError>
    requires place { IsAtPlace readings.now.records (Birth node roster) }
    requires text { (text : List ℕ) × IsTextOf (Birth node roster) text }
    ensures checked { IsRecordChecked (standing S.verifies readings.now) readings.now.records (Birth node roster) result }
    ensures joined { IfOk result (λ fit. AreJoined (accepted readings.now.records) fit.parents) }
{
    if !is_own_birth(readings, node, &roster) {
        return Err(ReadError::Fault(RecordFault::Birth));
    }
    Ok(Fit {
        growth: Growth::birth(node, roster),
        parents: None,
    })
}

/// Whether a birth is that of the node and its roster.
fn is_own_birth<S: Scheme>(readings: &Readings<S>, node: NodeId, roster: &Hash32) -> bool
    ensures { IsTrue result ↔ ((node ≡ readings.now.me) × (roster.now ≡ hash_of_roster readings.now.listed)) }
{
    node == readings.me() && roster == readings.roster().hash()
}

/// Checks an own update and its values: a put must append just these.
fn check_put<S: Scheme>(
    alloc: Global,
    readings: &Readings<S>,
    update: Update,
    values: ValueList,
    text: &[u8],
) -> Result<Fit, ReadError>
    requires place { IsAtPlace readings.now.records (OwnPut update values) }
    requires text { IsTextOf (OwnPut update values) text.now }
    ensures checked { IsRecordChecked (standing S.verifies readings.now) readings.now.records (OwnPut update values) result }
    ensures joined { IfOk result (λ fit. AreJoined (accepted readings.now.records) fit.parents) }
{
    let id = id_in_own_put(text);
    let parents = parents_of_put(alloc, readings, &update, &values, &id)?;
    Ok(Fit {
        growth: Growth::read_put(update, values, id, parents, text),
        parents: None,
    })
}

/// The items of the parents of an own update with this id, where a put would append just this update and these values.
/// Nothing is encoded: the values are compared with the writes, and the update with the one that a put of these writes
/// would make.
fn parents_of_put<S: Scheme>(
    alloc: Global,
    readings: &Readings<S>,
    update: &Update,
    values: &ValueList,
    id: &Hash32,
) -> Result<Vec<u32>, ReadError>
    requires place { IsAtPlace readings.now.records (OwnPut update.now values.now) }
    requires id { id.now ≡ id_of_update update.now }
    requires lengths { map (λ v. length v) values.now ≡ sizes_of update.now.writes }
    ensures may { IfOk result (λ _. MayFollow (standing S.verifies readings.now) readings.now.records (OwnPut update.now values.now)) }
    ensures refused { IfErr result (λ e. IsRecordChecked (standing S.verifies readings.now) readings.now.records (OwnPut update.now values.now) (Err e)) }
{
    if !has_leaf(readings, readings.totals().own) {
        return Err(ReadError::Fault(RecordFault::NotNext));
    }
    if !are_values_of(update.writes.as_slice(), values.as_slice()) {
        return Err(ReadError::Fault(RecordFault::NotNext));
    }
    let next = next_put(alloc, readings, update.writes.copy()?)?;
    if !update.is_same(&next.update) {
        return Err(ReadError::Fault(RecordFault::NotNext));
    }
    if !is_fresh(readings.state().graph(), id) {
        return Err(ReadError::Fault(RecordFault::NotNext));
    }
    Ok(next.parents)
}

/// Whether these values are those of the writes that are no deletions, in their order, by their hashes. The lengths
/// agree.
fn are_values_of(writes: &[Write], values: &[Value]) -> bool
    requires { map (λ v. length v) values.now ≡ sizes_of writes.now }
    ensures { IsTrue result ↔ (writes.now ≡ map write_of (changes_of writes.now values.now)) }
{
    let mut place = 0;
    for write in writes {
        let Some(name) = write.what.named() else {
            continue;
        };
        let Some(value) = values.get(place) else {
            unreachable!();
        };
        if hash_of(value.bytes()) != name.hash {
            return false;
        }
        place += 1;
    }
    true
}

/// The next own update with these writes. Refused where it would have too many entries.
fn next_put<S: Scheme>(
    alloc: Global,
    readings: &Readings<S>,
    writes: Writes,
) -> Result<Next, ReadError>
    ensures next { IfOk result (λ next. next.update ≡ next_with readings.now.me readings.now.records writes) }
    ensures narrow { IfOk result (λ _. length (next_with readings.now.me readings.now.records writes).deps ≤ MOST_ENTRIES) }
    ensures wide { IfErr result (HasManyEntries (next_with readings.now.me readings.now.records writes)) }
{
    match next_own(alloc, readings, writes) {
        Ok(next) => Ok(next),
        Err(NextError::Tips(_)) => Err(ReadError::Fault(RecordFault::NotNext)),
        Err(NextError::Memory) => Err(ReadError::Memory),
    }
}

/// Checks an own voucher: it must be one that the node may make.
fn check_voucher<S: Scheme>(
    alloc: Global,
    readings: &Readings<S>,
    voucher: Voucher,
    text: &[u8],
) -> Result<Fit, ReadError>
    requires place { IsAtPlace readings.now.records (OwnVoucher voucher) }
    requires text { IsTextOf (OwnVoucher voucher) text.now }
    ensures checked { IsRecordChecked (standing S.verifies readings.now) readings.now.records (OwnVoucher voucher) result }
    ensures joined { IfOk result (λ fit. AreJoined (accepted readings.now.records) fit.parents) }
{
    if !may_vouch(readings, &voucher) {
        return Err(ReadError::Fault(RecordFault::OwnVoucher));
    }
    let id = id_in_own_voucher(text);
    let growth = Growth::read_voucher(alloc, voucher, id, text)?;
    Ok(Fit {
        growth,
        parents: None,
    })
}

/// Whether a voucher is one that the node may make next.
fn may_vouch<S: Scheme>(readings: &Readings<S>, voucher: &Voucher) -> bool
    ensures { IsTrue result ↔ MayVouch (standing S.verifies readings.now) readings.now.records voucher.now }
{
    let own = readings.totals().own;
    voucher.node == readings.me()
        && voucher.seq == own
        && has_leaf(readings, own)
        && are_foreign(readings, voucher.ids.as_slice())
}

/// Whether each of these is the id of an accepted update of another node.
fn are_foreign<S: Scheme>(readings: &Readings<S>, ids: &[Hash32]) -> bool
    ensures { IsTrue result ↔ AllByRecursion (λ h. is_foreign readings.now.me (accepted readings.now.records) h ≡ true) ids.now }
{
    for id in ids {
        if !is_foreign(readings, id) {
            return false;
        }
    }
    true
}

/// Checks another's statement: it must be new, and the conviction of its writer not due.
fn check_foreign<S: Scheme>(
    alloc: Global,
    readings: &Readings<S>,
    signed: Signed,
    text: &[u8],
) -> Result<Fit, ReadError>
    requires place { IsAtPlace readings.now.records (Foreign signed) }
    requires text { IsTextOf (Foreign signed) text.now }
    ensures checked { IsRecordChecked (standing S.verifies readings.now) readings.now.records (Foreign signed) result }
    ensures joined { IfOk result (λ fit. AreJoined (accepted readings.now.records) fit.parents) }
{
    let decision = decide_signed(alloc, readings, signed, behind_tag(text))?;
    let fit = fit_of_new(decision)?;
    if fit.growth.count() > 1 {
        drop(fit);
        return Err(ReadError::Fault(RecordFault::ProofDue));
    }
    Ok(fit)
}

/// Checks a conviction: its proof must be new.
fn check_conviction<S: Scheme>(
    alloc: Global,
    readings: &Readings<S>,
    proof: Proof,
    text: &[u8],
) -> Result<Fit, ReadError>
    requires place { IsAtPlace readings.now.records (Conviction proof) }
    requires text { IsTextOf (Conviction proof) text.now }
    ensures checked { IsRecordChecked (standing S.verifies readings.now) readings.now.records (Conviction proof) result }
    ensures joined { IfOk result (λ fit. AreJoined (accepted readings.now.records) fit.parents) }
{
    let decision = decide_decoded(alloc, readings, proof, behind_tag(text))?;
    fit_of_new(decision)
}

/// Checks a value of others: it must be new.
fn check_held<S: Scheme>(
    alloc: Global,
    readings: &Readings<S>,
    value: Value,
) -> Result<Fit, ReadError>
    requires place { IsAtPlace readings.now.records (Held value) }
    ensures checked { IsRecordChecked (standing S.verifies readings.now) readings.now.records (Held value) result }
    ensures joined { IfOk result (λ fit. AreJoined (accepted readings.now.records) fit.parents) }
{
    let decision = decide_short(alloc, readings, value.bytes())?;
    fit_of_new(decision)
}

/// What was decided on something new, as a record to read.
fn fit_of_new(decision: Decision) -> Result<Fit, ReadError>
    ensures taken { TakesNew decision.answer decision.growth result }
    ensures parents { IfOk result (λ fit. fit.parents ≡ decision.parents) }
{
    let Decision {
        answer,
        growth,
        parents,
    } = decision;
    match fault_of(&answer) {
        None => Ok(Fit { growth, parents }),
        Some(fault) => {
            drop(growth);
            drop(parents);
            Err(ReadError::Fault(fault))
        }
    }
}

/// What is wrong with a record, from the answer to it, if it isn't new.
fn fault_of(answer: &Result<Taken, Check>) -> Option<RecordFault>
    ensures { result ≡ record_fault_of answer.now }
{
    match answer {
        Ok(Taken::New) => None,
        Ok(Taken::Known) => Some(RecordFault::Idle),
        Err(check) => Some(RecordFault::Refused(*check)),
    }
}

/// A record's text without its tag.
fn behind_tag(text: &[u8]) -> &[u8]
    ensures { (tag : ℕ) (rest : List ℕ) → text.now ≡ tag ∷ rest → result.now ≡ rest }
{
    text.get(1..).unwrap_or(&[])
}
