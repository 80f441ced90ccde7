//! How a node leaves its place for an event, and comes back.
ghost use Rattle.std.specs.Prelude.{◌≡◌, ◌≤◌, ◌+◌, insert, length, take, vec_len, None, MatchOption, OnOk};
ghost use Rattle.depot_model.specs.journals.Journal.{accepted};
ghost use Rattle.depot_world.specs.Run.{seen_with};
ghost use Rattle.depot_simulation.specs.Doing.{HasLeft, place_of_node};
ghost use Rattle.depot_simulation.specs.Playing.{WereSeen};

use crate::acting::{ActingNode, Seat};
use crate::actor::Actor;
use crate::participant::Participant;
use crate::simulation::Simulation;
use depot_base::{Memory, NodeId};

impl<A: Actor> Simulation<A> {
    /// Takes the first node of this number from its place. `None` exactly when there is none. It takes no memory.
    pub fn leave(&mut self, node: NodeId) -> Option<ActingNode<A>>
        ensures { MatchOption result ((self.new ≡ self.old) × (place_of_node A.view node self.old.participants.items ≡ None)) (λ acting. HasLeft A A.view node self.old self.new acting) }
    {
        let place = self.place_of(node)?;
        let Participant { actor, reads } = self.participants.remove(place);
        let count = actor.update_count();
        let seat = Seat { place, count };
        Some(ActingNode { seat, actor, reads })
    }

    /// Puts a node back in its place, with its reads, and notes the updates that it accepted since it left as seen.
    pub fn come_back(&mut self, seat: Seat, participant: Participant<A>) -> Result<(), Memory>
        requires place { seat.place ≤ vec_len self.old.participants }
        requires seen { WereSeen self.old.seen.listed.updates (take seat.count (accepted (A.view participant.actor).journal)) }
        requires room { length self.old.seen.listed.updates + length (accepted (A.view participant.actor).journal) ≤ 4294967295 }
        ensures participants { OnOk result (self.new.participants.items ≡ insert self.old.participants.items seat.place participant) }
        ensures labels { self.new.labels ≡ self.old.labels }
        ensures readers { self.new.readers ≡ self.old.readers }
        ensures seen { OnOk result (self.new.seen.listed.updates ≡ seen_with self.old.seen.listed.updates (accepted (A.view participant.actor).journal)) }
        ensures asked { self.new.seen.asked ≡ self.old.seen.asked }
    {
        self.see(&participant.actor, seat.count)?;
        self.participants.insert(seat.place, participant)?;
        Ok(())
    }

    /// The updates that a node accepted are seen; the first `count` of them were.
    fn see(&mut self, actor: &A, count: u32) -> Result<(), Memory>
        requires seen { WereSeen self.old.seen.listed.updates (take count (accepted (A.view actor.now).journal)) }
        requires room { length self.old.seen.listed.updates + length (accepted (A.view actor.now).journal) ≤ 4294967295 }
        ensures participants { self.new.participants ≡ self.old.participants }
        ensures labels { self.new.labels ≡ self.old.labels }
        ensures readers { self.new.readers ≡ self.old.readers }
        ensures seen { OnOk result (self.new.seen.listed.updates ≡ seen_with self.old.seen.listed.updates (accepted (A.view actor.now).journal)) }
        ensures asked { self.new.seen.asked ≡ self.old.seen.asked }
    {
        for item in count..actor.update_count() {
            self.seen.add(actor.update(item), actor.id(item))?;
        }
        Ok(())
    }
}
