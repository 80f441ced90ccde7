//! Faults of records, without the hashes that they carry.

use depot_base::Check;
use depot_model::RecordFault;

/// A fault without the hashes that it carries.
#[derive(Clone, Copy, Debug, PartialEq, Eq)]
pub enum Told {
    Ill(u32),
    Birth,
    NotNext,
    BadSignature(u16),
    Unwanted,
    Idle,
    Other,
}

/// A fault without the hashes that it carries.
pub fn bare(fault: &RecordFault) -> Told {
    match fault {
        RecordFault::Ill(at) => Told::Ill(*at),
        RecordFault::Birth => Told::Birth,
        RecordFault::NotNext => Told::NotNext,
        RecordFault::Refused(Check::BadSignature(writer)) => Told::BadSignature(writer.number()),
        RecordFault::Refused(Check::Unwanted(_)) => Told::Unwanted,
        RecordFault::Idle => Told::Idle,
        _ => Told::Other,
    }
}
