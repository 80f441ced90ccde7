//! Plays schedules over correct nodes, whichever they are, event by event.
//!
//! `depot_world` defines what a schedule makes happen; here it runs, and what is written is the defined text. A correct
//! node is an `Actor`, known by its contract alone: an event has the outcome that the definitions of runs give, whether
//! a stop falls into it or not. There is no disk here: what a crash leaves is up to the actor.
//!
//! A `Simulation` is a run at work (`IsSimulationAt`): the correct nodes, each with its reads (`Participant`), what
//! labels name, the updates seen, and the `Readers` by their names, each known by its contract alone too (`Reading`).
//!
//! - `events` does one event and returns its lines.
//! - `requests` does those that ask a node for something, by what labels and references name: the node leaves its place
//!   (`host_places`), does what is asked, and returns.
//! - `event_stops` sets stops on disks, `event_readers` does the events of readers, `audits` audits all nodes, and
//!   `updates` and `made` do the events that only make a label; `drafting` finds what their references name.
//! - `asking` says which events need right histories, `playing` begins a run and plays all events, and `forgetting`
//!   drops labels that no later event names.
//!
//! What needs no node is in `depot_scenario`; the nodes are those of `depot_replay`.
#![tactic(auto)]

mod acting;
mod actor;
mod asking;
mod audits;
mod drafting;
mod event_readers;
mod event_stops;
mod events;
mod forgetting;
mod host_places;
mod made;
mod participant;
mod playing;
mod readers;
mod reading;
mod replay_error;
mod requests;
mod simulation;
mod starts_fresh;
mod updates;

pub use actor::{Actor, EventOutcome};
pub use asking::any_asks_right_history;
pub use participant::Participant;
pub use playing::{begun, play_all, write};
pub use readers::Readers;
pub use reading::{Reading, Trimming};
pub use replay_error::ReplayError;
pub use simulation::Simulation;
pub use starts_fresh::StartsFresh;
