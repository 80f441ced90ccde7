//! Checks records one by one, each after those before it, and reads them into memory alone.
ghost use Rattle.std.specs.Prelude.{◌≡◌, [], IfOk, IfErr, OnOk, OnErr};
ghost use Rattle.depot_model.specs.journals.Journal.{accepted};
ghost use Rattle.depot_readings.specs.ReadingsView.{standing};
ghost use Rattle.depot_decide.specs.Deciding.{AreJoined};
ghost use Rattle.depot_decide.specs.TextFaults.{AreCheckedAs, IsTakenFrom, IsTextFault};

use crate::record_check::{Fit, ReadError, check_record};
use depot_accept::{Parents, State};
use depot_base::{Bytes, Memory, NodeId, Texts};
use depot_model::{RecordFault, Scheme};
use depot_readings::Readings;
use depot_sign::Roster;
use std::alloc::Global;

/// A record that isn't lawful after those before it.
#[derive(Clone, Copy, Debug, PartialEq, Eq)]
pub struct PlaceFault {
    /// Its place, from 0.
    pub place: u32,
    /// What is wrong with it.
    pub fault: RecordFault,
}

/// Finds the first of these texts that isn't the record of a lawful journal of the node and roster, after those before
/// it, and what is wrong with it. None exactly where they are the texts of a lawful journal, which may have no records
/// yet.
pub fn check_records<S: Scheme>(
    alloc: Global,
    me: NodeId,
    roster: &Roster,
    scheme: &S,
    texts: &Texts,
) -> Result<Option<PlaceFault>, Memory>
    ensures { IfOk result (AreCheckedAs (record { verifies = S.verifies; me = me; listed = roster.now }) texts.now) }
{
    let mut readings = no_records(alloc, me, roster, scheme)?;
    let found = take_texts(alloc, &mut readings, texts.as_slice());
    drop(readings);
    found
}

/// Reads the records of texts, up to the first that has a fault.
fn take_texts<S: Scheme>(
    alloc: Global,
    readings: &mut Readings<S>,
    texts: &[Bytes],
) -> Result<Option<PlaceFault>, Memory>
    requires { readings.old.records ≡ [] }
    ensures { IfOk result (AreCheckedAs (standing S.verifies readings.old) texts.now) }
{
    for text in texts {
        match take_text(alloc, readings, text.as_slice()) {
            Ok(()) => {}
            Err(ReadError::Memory) => return Err(Memory),
            Err(ReadError::Fault(fault)) => {
                return Ok(Some(PlaceFault {
                    place: readings.count(),
                    fault,
                }));
            }
        }
    }
    Ok(None)
}

/// The readings of a node of a roster before its first record.
pub fn no_records<S: Scheme>(
    alloc: Global,
    me: NodeId,
    roster: &Roster,
    scheme: S,
) -> Result<Readings<S>, Memory>
    ensures stands { IfOk result (λ r. standing S.verifies r ≡ record { verifies = S.verifies; me = me; listed = roster.now }) }
    ensures none { IfOk result (λ r. r.records ≡ []) }
{
    let state = State::new(alloc, me, roster.copy()?, scheme)?;
    Ok(Readings::new(alloc, state))
}

/// Reads the record of a text after those that were read, where it is allowed there; else returns its fault. On each
/// error the records are unchanged.
pub fn take_text<S: Scheme>(
    alloc: Global,
    readings: &mut Readings<S>,
    text: &[u8],
) -> Result<(), ReadError>
    ensures taken { OnOk result (IsTakenFrom (standing S.verifies readings.old) readings.old.records text.now readings.new.records) }
    ensures wrong { IfErr result (IsTextFault (standing S.verifies readings.old) readings.old.records text.now) }
    ensures same { OnErr result (readings.new.records ≡ readings.old.records) }
    ensures stands { standing S.verifies readings.new ≡ standing S.verifies readings.old }
{
    let Fit { growth, parents } = check_record(alloc, readings, text)?;
    keep_parents(readings, parents);
    readings.read(growth)?;
    Ok(())
}

/// Keeps the joined row of an update's parents, if there is one, until the update is read. What was read stays.
pub fn keep_parents<S: Scheme>(readings: &mut Readings<S>, parents: Option<Parents>)
    requires { AreJoined (accepted readings.old.records) parents }
    ensures { readings.new ≡ readings.old }
{
    match parents {
        Some(parents) => readings.keep_row(parents),
        None => {}
    }
}
