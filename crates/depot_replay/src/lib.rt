//! Replays schedules: every correct node runs over a disk in memory, and the transcript is written line by line.
//!
//! `depot_world` defines what a schedule makes happen, event by event. `depot_simulation` plays it over correct nodes
//! that it knows by their contract alone (`Actor`). Here is such a node: a `MemHost`, a node of `depot_node` over a
//! disk in memory, which is started again after a stop in an event. Its readers are `MemHostReader`s, which keep a
//! reader of `depot_trim`. `replaying` makes the signers and the roster, hosts the nodes and plays all events. The
//! transcript is the defined one, `transcript_of`; after an error a prefix of it went out.
#![tactic(auto)]

mod mem_host;
mod mem_host_reader;
mod replaying;

pub use depot_simulation::ReplayError;
pub use replaying::replay;
