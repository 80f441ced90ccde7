//! What is wrong with a record of a journal.
ghost use Rattle.std.specs.Prelude.{◌≡◌, ◌++◌, OnOk};
ghost use Rattle.depot_answers.specs.AnswerTexts.{text_of_record_fault};

use crate::checks::check;
use crate::words::{numbered, text};
use depot_base::{Bytes, Memory};
use depot_model::RecordFault;
use std::alloc::Global;

/// Appends what is wrong with a record: the fault's name, and the offset or the check that it carries. On `Memory` a
/// prefix of it may have been appended.
pub fn record_fault(alloc: Global, out: &mut Bytes, fault: &RecordFault) -> Result<(), Memory>
    ensures { OnOk result (out.new ≡ out.old ++ text_of_record_fault fault.now) }
{
    match fault {
        RecordFault::Ill(at) => numbered(alloc, out, "Ill", *at as u64),
        RecordFault::Birth => text(out, "Birth"),
        RecordFault::NotNext => text(out, "NotNext"),
        RecordFault::OwnVoucher => text(out, "OwnVoucher"),
        RecordFault::Refused(failed) => check(alloc, out, failed),
        RecordFault::ProofDue => text(out, "ProofDue"),
        RecordFault::Idle => text(out, "Idle"),
        RecordFault::NoRoom => text(out, "NoRoom"),
    }
}
