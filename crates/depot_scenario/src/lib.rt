//! What a schedule is played with: its members, their signers, its labels, the updates seen, and what faulty nodes
//! make.
//!
//! - Members: a schedule declares them by their numbers. Each signs under a key whose seed is its number (`signers`),
//!   by Winternitz signatures or by the plain scheme; the roster has their keys in rising order. `member_places` finds
//!   a member by its number. The updates that a faulty member names become the entries of its update, or the ids of its
//!   voucher, in rising order and each once (`entries`).
//! - A `Scenario` is the setup in which `depot_world` defines a schedule to be played (`IsScenarioOf`): the roster of
//!   the members, and their signers.
//! - `Labels` are what events gave labels (`AreLabels`). `LabelUses` says when an event names one last (`AreUses`), so
//!   that it can be forgotten.
//! - `KnownUpdates` are the updates over which right history hashes are computed.
//! - `drafts` has the updates that faulty nodes sign, `texts` the bytes that events give their labels, `event_heads`
//!   the head of an event's line, and `judging_events` what is printed of a judgement.
//!
//! Nothing here runs a correct node, uses a disk or plays an event: `depot_simulation` does that.
#![tactic(auto)]

mod drafts;
mod entries;
mod event_heads;
mod event_labels;
mod judging_events;
mod known_updates;
mod label_table;
mod label_uses;
mod listed_updates;
mod member_places;
mod scenario;
mod signed_apart;
mod signers;
mod signing;
pub mod texts;
mod value_frames;

pub use drafts::{drafted, is_by, writes_of};
pub use entries::{entries_of_others, entry_of, rising_ids};
pub use event_heads::head_and_arrow;
pub use event_labels::labels_of;
pub use judging_events::judged;
pub use known_updates::KnownUpdates;
pub use label_table::Labels;
pub use label_uses::LabelUses;
pub use listed_updates::ListedUpdates;
pub use member_places::{Numbered, place_of};
pub use scenario::Scenario;
pub use signers::{plain_signers, roster_of, signer_of, winter_signers};
