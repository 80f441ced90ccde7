//! How much a journal takes, and whether there is room for more.
ghost use Rattle.std.specs.Prelude.{◌≡◌, ◌≤◌, ◌+◌, ◌++◌, ◌^◌, ℕ, List};
ghost use Rattle.depot_base.specs.declared.check.Full.{Full};
ghost use Rattle.depot_base.specs.declared.record.Record.{Record};
ghost use Rattle.depot_model.specs.checks.Checks.{Setting};
ghost use Rattle.depot_model.specs.journals.Lawful.{IsLawful};
ghost use Rattle.depot_model.specs.checks.Room.{full_by, leaves_counted, limit_passed};
ghost use Rattle.depot_readings.specs.Counts.{AreCountsOf, CountsMore, LimitsNew};

use crate::growth::Growth;
use depot_base::limits::{MOST_FOREIGN_LEAVES, MOST_JOURNAL, MOST_RECORDS};
use depot_base::{Full, FullOf};

/// How much a journal takes.
#[derive(Clone, Copy, Debug, PartialEq, Eq)]
pub struct JournalCounts {
    /// Its records.
    pub records: u32,
    /// Its bytes, with the last gate.
    pub bytes: u32,
    /// The leaves of other writers.
    pub leaves: u32,
}

impl JournalCounts {
    /// The first limit, of records, bytes and leaves of other writers, that a journal with these counts would pass with
    /// a growth, and the number now; None where there is room. `leaves_then` is the number of leaves of other writers
    /// with the growth, where it takes an update of another. It holds for a lawful journal to which the growth is new,
    /// with `leaves_then` as `leaves_with` counts it. It takes no memory.
    pub fn limit(&self, growth: &Growth, leaves_then: Option<u32>) -> Option<Full>
        ensures counted { (me : ℕ) (J : List Record) → AreCountsOf me J self.now → leaves_then ≡ leaves_counted me J growth.now → result ≡ full_by me J growth.now }
        ensures lawful { LimitsNew self.now growth.now leaves_then result }
    {
        let records = growth.count();
        if records == 0 {
            return None;
        }
        self.limit_passed(records as u64, growth.bytes, leaves_then)
    }

    /// The first limit that `records` more records, of `bytes` bytes, pass, where there are then `leaves` leaves of
    /// other writers.
    fn limit_passed(&self, records: u64, bytes: u64, leaves: Option<u32>) -> Option<Full>
        requires few { records ≤ 2 ^ 40 }
        requires small { bytes ≤ 2 ^ 40 }
        ensures { result ≡ limit_passed self.now.records self.now.bytes self.now.leaves (self.now.records + records) (self.now.bytes + bytes) leaves }
    {
        if self.records as u64 + records > MOST_RECORDS as u64 {
            return Some(full(FullOf::Records, self.records));
        }
        if self.bytes as u64 + bytes > MOST_JOURNAL as u64 {
            return Some(full(FullOf::Bytes, self.bytes));
        }
        match leaves {
            Some(leaves) if leaves > MOST_FOREIGN_LEAVES => Some(full(
                FullOf::Writers,
                self.leaves,
            )),
            _ => None,
        }
    }

    /// Adds a growth to the counts of a journal, which stays lawful with it. `leaves_then` is the number of leaves of
    /// other writers with the growth, where it takes an update of another. It takes no memory.
    pub fn grow(&mut self, growth: &Growth, leaves_then: Option<u32>)
        requires { (here : Setting) × ((J : List Record) × (IsLawful here (J ++ growth.now) × AreCountsOf here.me J self.old)) }
        ensures { CountsMore self.old growth.now leaves_then self.new }
    {
        self.records += growth.count() as u32;
        self.bytes += growth.bytes as u32;
        self.leaves = leaves_then.unwrap_or(self.leaves);
    }
}

fn full(what: FullOf, number: u32) -> Full
    ensures { result ≡ record { what = what; number = number } }
{
    Full { what, number }
}
