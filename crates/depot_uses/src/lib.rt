//! Three small callers, to start from when using the libraries from Rattle.
//!
//! `judging` asks a judge whom a proof convicts, `copying` reads and writes a text, and `noting` puts and reads at a
//! node over a disk in memory. Each states what it does by the definitions of the calls that it makes, and is tested.
//! Nothing depends on this crate.
#![tactic(auto)]

mod copying;
mod judging;
mod noting;
#[cfg(test)]
mod tries;

pub use copying::copied;
pub use judging::convicted;
pub use noting::{MemNode, note};
