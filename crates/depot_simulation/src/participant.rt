//! A correct node in a simulation, with what it has read.
use crate::actor::Actor;
use depot_base::NodeId;
use depot_scenario::Numbered;
use depot_traces::Reads;

/// A correct node and its reads so far, as a trace records them. A node itself keeps none.
#[derive(Drop)]
pub struct Participant<A> {
    pub actor: A,
    pub reads: Reads,
}

impl<A: Actor> Numbered for Participant<A> {
    ghost number_of = { λ p. A.number_of p.actor };

    fn number(&self) -> NodeId {
        self.actor.number()
    }
}
