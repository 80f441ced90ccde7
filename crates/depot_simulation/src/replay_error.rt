//! Why a replay ends early.
ghost use Rattle.std.specs.Prelude.{◌≡◌};
ghost use Rattle.depot_simulation.specs.declared.replay_error.ReplayError.TheVariants as replay_error;

use depot_base::Memory;
use thiserror::Error;

/// Why a replay ended before its schedule did. A prefix of the transcript went out.
#[derive(Clone, Copy, Debug, PartialEq, Eq, Error)]
pub enum ReplayError {
    /// No memory was found.
    #[error("no memory was found")]
    Memory,
    /// The sink failed.
    #[error("the sink failed")]
    Sink,
}

impl From<Memory> for ReplayError {
    ghost from_gives = { λ _ e. e ≡ replay_error.Memory };

    fn from(_e: Memory) -> ReplayError {
        ReplayError::Memory
    }
}
