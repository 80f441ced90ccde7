//! Reads schedules (docs/FORMATS.md, "Schedules").
//!
//! `parse_schedule` returns the schedule of a text, or the number of its first faulty line and that line's first fault,
//! as `schedule_of` of `depot_schedule` defines it. Contracts see a `Draft` as the schedule so far. It also keeps what
//! labels name, so that each line is read a fixed number of times, and a label is looked up in logarithmic time.
//!
//! `parse` reads whole texts, `header` the lines of the header, `schedule_lines` any line after the second,
//! `event_lines` the words after the name of an event, one function for each line of the table; `schedule_words` and
//! `references` read the words that only events have.
//!
//! Nothing here defines which schedules there are: each reader answers what the definitions of `depot_schedule` say.
#![tactic(auto)]

mod draft;
mod event_lines;
mod header;
mod labels;
mod parse;
mod references;
mod schedule_lines;
mod schedule_words;

pub use parse::parse_schedule;
