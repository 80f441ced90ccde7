//! A journal: an append-only list of records on a disk, each synced when its append returns.
//!
//! The file is a list of records, each a gate byte, the length of its body as four bytes, and the body; after the last
//! record comes the gate of the next. A gate of 1 is open; at any other the list ends. An append writes the record and
//! a new closed gate after the closed gate, syncs, opens the gate, and syncs again. So every crash image of an append
//! has the old records, with the new one or without it; after the last sync it has the new one.
//!
//! A journal is seen as its records, its disk, whether it is stopped, and for how many more records memory is reserved.
//!
//! - While it isn't stopped its file has these records, within the limits, and nothing is unsynced.
//! - After a fault of the disk it is stopped, and accesses the disk no more. Every crash image then has all its
//!   records, followed at most by the one on which the disk failed.
//!
//! Records that come together can be appended as one group: `append_group` writes them as one block after the closed gate,
//! syncs, opens the gate, and syncs again. So every crash image of it has all of the group or none of it. A journal whose
//! records are appended so is detached from its disk (`Journal::detach`), and goes on in memory, over a `NullDisk`.
//!
//! What the records mean is no matter here, and no record is ever changed or taken back.
#![tactic(auto)]

mod file_parse;
mod group;
mod journal;
mod journal_error;
mod journal_laws;
mod journal_room;
mod journal_start;
mod mirror;
mod null_disk;
mod span;
mod write;

pub use group::{append_group, put_in_group};
pub use journal::{Detached, Journal};
pub use journal_error::{AppendError, JournalError};
pub use journal_laws::{
    damage_has_one_place, files_have_one_list, good_files_are_undamaged, standing_records_are_read,
    what_a_stop_leaves_is_read,
};
pub use null_disk::NullDisk;
