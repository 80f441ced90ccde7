//! What is counted of a journal's statements.
ghost use Rattle.std.specs.Prelude.{ℕ, []};
ghost use Rattle.depot_readings.specs.Totals.{AreTotals};

use depot_base::Hash32;

/// What is counted of a journal's statements.
#[derive(Clone, Copy, Debug, PartialEq, Eq)]
pub struct Totals {
    /// The node's own statements.
    pub own: u32,
    /// The leaves of other writers.
    pub leaves: u32,
    /// The greatest clock of the accepted updates, 0 where there is none.
    pub clock: u64,
    /// The id of the last own update, or 32 zero bytes.
    pub last: Hash32,
}

impl Totals {
    /// Those of no records.
    #[tactic(auto, unfolding(depot_model::specs::checks::Room::foreign_leaves, depot_model::specs::updates::History::leaves_of))]
    pub fn new() -> Totals
        ensures { (me : ℕ) → AreTotals me [] result }
    {
        Totals {
            own: 0,
            leaves: 0,
            clock: 0,
            last: Hash32::zeros(),
        }
    }
}
