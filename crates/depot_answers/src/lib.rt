//! The text that is printed of each answer: of a put and a read, a refusal, an exchange of two nodes, a judgement.
//!
//! Each function appends one text to the bytes so far: the one that `specs/AnswerTexts.antt` or
//! `depot_model/specs/texts/Lines.antt` defines for that answer, without LF. On `Memory` a prefix of it may have been
//! appended.
//!
//! `checks` has failed checks and refusals, `limit_answers` the limits that a node meets, `journal_answers` puts, reads
//! and counts of a journal, `exchange_answers` hellos, bundles and streams, `receipt_answers` why no receipt is given
//! and whether a put is settled, `reader_answers` checkpoints and their readers, `judgement_answers` rosters and
//! proofs, `audit_answers` what an audit finds, `record_faults` faulty records, `fault_answers` faulty lines, and
//! `words` what these are made of.
#![tactic(auto)]

mod audit_answers;
mod checks;
mod exchange_answers;
mod fault_answers;
mod journal_answers;
mod judgement_answers;
mod limit_answers;
mod reader_answers;
mod receipt_answers;
mod record_faults;
mod words;

pub use audit_answers::{finding, traced};
pub use checks::{check, refusal};
pub use exchange_answers::{Closing, counts, named, report};
pub use fault_answers::faulty_line;
pub use journal_answers::{Seen, put, records, write};
pub use judgement_answers::{point, roster_error, verdict};
pub use limit_answers::{collides, full, spent, tips};
pub use reader_answers::{ReaderCounts, empty, kept, many, reader_feed, unsigned};
pub use receipt_answers::{no_value, settled, unknown};
pub use record_faults::record_fault;
pub use words::numbered;
