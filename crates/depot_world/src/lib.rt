//! What a schedule means: its world and its transcript; and loads, long schedules that numbers make, with the summary
//! of their transcripts. Nothing here plays a schedule over nodes: the commands `replay` and `load` do that
//! (`depot_replay`, `depot_cli`).
//!
//! - `specs/` defines what a schedule makes happen, event by event, over one journal and one list of reads for each
//!   correct node, one list of bytes for each label, and one reader for each name: `world_of` is the resulting world,
//!   and `transcript_of` is what is printed. `EventRequests` has what events ask nodes for, `ScheduleStops` the crash
//!   images of a node's disk, `FaultySigning` what faulty nodes sign, `Transcript` all else that events do and print,
//!   `Audits` the traces of nodes and the world that an audit examines, and `Forgetting` which labels events name, and
//!   when runs agree though labels are gone.
//! - `world_laws` has the laws: this is a world, whatever faulty nodes sign and send and wherever disks stop. So the
//!   laws of worlds hold of it.
//! - `make_load`: the load of a number. `specs/Loads.antt` defines it, round by round. Each load has a text
//!   (`IsSchedule`), so it can be printed and replayed. A `LoadDraft` is a load as it grows: `rounds` has its rounds
//!   and `closing` its end, `event_parts` what its events name, and `making` all of it.
//! - `summary`: what is summed up of a transcript, and of any other text too. `specs/Summaries.antt` defines it over
//!   bytes, line by line. `transcript_lines` reads what a line says of a load, `load_totals` and `agreement` sum it
//!   up, and `summing` writes the summary.
#![tactic(auto)]

mod agreement;
mod closing;
mod event_parts;
mod load_draft;
mod load_laws;
mod load_totals;
mod making;
mod rounds;
mod summing;
mod transcript_lines;
mod world_laws;

pub use load_laws::loads_are_schedules;
pub use making::make_load;
pub use summing::summary;
pub use world_laws::{
    audits_of_runs, latest_writes_are_listed, receipts_of_schedules_are_true,
    runs_go_on_without_labels, runs_of_schedules_are_sound, schedules_make_worlds,
    worlds_of_schedules_are_causal,
};
