//! Worked examples of definitions, each with a yes and a no, worlds that meet the conditions of laws, and laws that no
//! code needs. Nothing depends on this crate.
//!
//! - Changing the meaning of a definition makes an example false. If a law asked for too much, no world here would
//!   meet its conditions any more.
//! - Laws of the world of every schedule and of every session. The headline is about the reads and the judged proofs
//!   of a world, and no code keeps these. So laws here say which there are, and worked examples show them over takes,
//!   restarts and stops.
//! - Worked examples of scripts and of files at their limits.
#![tactic(auto)]

mod alike;
mod shown;
mod signatures;
mod told;
mod worlds;

pub use alike::{proofs_are_contrary_at_last, writes_and_values_make_changes};
pub use shown::readers_show_as_before;
pub use signatures::a_top_leaf_signs_one_text;
pub use told::{sessions_have_all_reads, worlds_have_all_reads_and_verdicts};
pub use worlds::{some_checkpoint_is_signed, some_put_is_settled};
