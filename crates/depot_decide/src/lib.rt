//! What a node decides, before anything changes.
//!
//! Readings are seen as the list of the records that were read (`depot_readings`). A decision over them is what the
//! journal is to grow by, where there is room, and what is then answered. Both are the definition's of that list, and
//! with the growth the journal stays lawful.
//!
//! - A statement, a proof or a value of others gives a `Decision` (`statement_decision`, `proof_decision`, `value`).
//! - A put gives a `Plan`, or the limit that it meets (`put_decision`).
//! - Ids that the node should vouch for give own vouchers (`voucher_decision`, which also says whether an id is that of
//!   another's accepted update). `plan_errors` has the reasons why nothing is planned.
//! - The text of a record is checked by the same calls, as if it came now (`record_check`). So `depot_node` reads the
//!   records of a journal from a disk, and a caller that has their texts reads them into memory alone (`text_checks`).
//!
//! Decisions on statements and proofs ask the readings for their state alone (`decide_checked`, `decide_judged`), so a
//! caller that keeps a state without readings decides the same.
//!
//! Nothing is kept, and no call but `take_text` changes what was read. A node carries a decision out by its one write
//! path, which checks the room; it calls `keep_parents` first, so that the rows that a check joined aren't joined
//! again.
#![tactic(auto)]

mod checked;
mod decision;
mod plan_errors;
mod proof_decision;
mod put_decision;
mod put_writes;
mod record_check;
mod statement_decision;
mod text_checks;
mod value;
mod voucher_decision;

pub use checked::decide_checked;
pub use decision::{Decision, answered};
pub use plan_errors::{NextError, PlanError, VoucherPlanError};
pub use proof_decision::{decide_judged, decide_proof};
pub use put_decision::{Plan, decide_put};
pub use record_check::{Fit, ReadError, check_record};
pub use statement_decision::decide_statement;
pub use text_checks::{PlaceFault, check_records, keep_parents, no_records, take_text};
pub use value::decide_value;
pub use voucher_decision::{decide_vouchers, is_foreign};
