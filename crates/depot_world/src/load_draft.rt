//! A load as it grows.
ghost use Rattle.std.specs.Prelude.{◌≡◌, ◌<◌, OnOk};
ghost use Rattle.depot_world.specs.Loads.{begun, draw, drawn, draft_with};

use depot_base::{Memory, Sequence};
use depot_schedule::{Event, Events};
use std::alloc::Global;

/// What a state is multiplied with.
const FACTOR: u64 = 6_364_136_223_846_793_005;

/// What is added then.
const SUMMAND: u64 = 1_442_695_040_888_963_407;

/// A load so far.
#[derive(Drop)]
pub struct LoadDraft {
    /// The state that numbers are drawn from.
    pub state: u64,
    /// How many updates the faulty node signed.
    pub updates: u32,
    /// The events.
    pub events: Events,
}

impl LoadDraft {
    /// A load before its first round. It takes no memory.
    pub fn new(alloc: Global, number: u32) -> LoadDraft
        ensures { result ≡ begun number }
    {
        LoadDraft {
            state: u64::from(number),
            updates: 0,
            events: Sequence::new(alloc),
        }
    }

    /// Draws a number below `m`.
    #[tactic(auto, using(crate::proofs::of_loads::Draws::goes_on), unfolding(crate::specs::Loads::number_at))]
    pub fn draw(&mut self, m: u16) -> u16
        requires { 0 < m }
        ensures state { self.new ≡ drawn self.old }
        ensures number { result ≡ draw m self.new }
        ensures below { result < m }
    {
        self.state = self.state.wrapping_mul(FACTOR).wrapping_add(SUMMAND);
        ((self.state >> 33) % u64::from(m)) as u16
    }

    /// Adds an event.
    pub fn push(&mut self, event: Event) -> Result<(), Memory>
        ensures { OnOk result (self.new ≡ draft_with self.old event) }
    {
        self.events.push(event)
    }
}
