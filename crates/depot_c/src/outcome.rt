//! How a call ended.
ghost use Rattle.std.specs.Prelude.{◌≡◌};
ghost use Rattle.depot_c.specs.Refusals.{number_of};

/// How a call ended: with the number that it answers.
#[derive(Clone, Copy, Debug, PartialEq, Eq)]
pub enum CallOutcome {
    /// It did what was asked.
    Done,
    /// The input isn't in its form.
    Input,
    /// The disk failed; the node is stopped. A disk in memory never fails.
    Disk,
    /// No memory was found.
    Memory,
    /// The journal isn't lawful, or damaged.
    NotLawful,
    /// Another roster, another key or another node.
    Identity,
    /// The handle isn't where this can be asked.
    Order,
    /// The disk failed in an earlier call.
    Stopped,
}

impl CallOutcome {
    /// Its number. Up to 10 it is the status by which the program ends for the same; those above are of calls alone, and the 11 of the
    /// program says something else.
    pub fn number(self) -> u64
        ensures { result ≡ number_of self }
    {
        match self {
            CallOutcome::Done => 0,
            CallOutcome::Input => 2,
            CallOutcome::Disk => 4,
            CallOutcome::Memory => 6,
            CallOutcome::NotLawful => 9,
            CallOutcome::Identity => 10,
            CallOutcome::Order => 11,
            CallOutcome::Stopped => 12,
        }
    }
}
