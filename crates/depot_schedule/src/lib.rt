//! Schedules: texts that say which nodes there are and what happens to them, line by line (docs/FORMATS.md,
//! "Schedules").
//!
//! A schedule is plain data: contracts see its members and events as lists, labels and bytes as lists of bytes, and
//! numbers of nodes as numbers.
//!
//! - Each schedule that has a text (`IsSchedule`) has one, and is read back from it.
//! - Any other text has a first faulty line, and that line a first fault (`schedule_of`).
//!
//! `specs/EventLines.antt` has the table of events, in the language of lines of `depot_lines`; `EventWords` has the
//! words that only events have, and `Schedules` whole texts. `proofs/` has the laws of each line of the table. A new
//! kind of event is a variant of `Event` and of `Verb`, a line of the table with its law, and a reader (in
//! `depot_schedule_parser`) and a writer with no proof file.
//!
//! `event`, `member` and `schedule` have the types, `verb` the kinds of events and what their labels name.
//! `event_writers` and `reference_writers` write the words of events, `print` whole schedules, and heads of lines.
//!
//! Nothing here reads a text, and nothing says what an event does.
#![tactic(auto)]

mod event;
mod event_writers;
mod member;
mod print;
mod reference_writers;
mod schedule;
mod schedule_laws;
mod verb;

pub use event::{Event, HistoryWord, Ref, Refs};
pub use member::{Member, Members};
pub use print::{event_head, print_schedule};
pub use schedule::{Events, Schedule};
pub use schedule_laws::{schedules_are_read_back, schedules_have_one_spelling};
pub use verb::{Made, Verb, Wanted};
