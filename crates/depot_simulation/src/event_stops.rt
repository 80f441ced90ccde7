//! Stops that are set on the disk of a node.
ghost use Rattle.std.specs.Prelude.{◌≡◌, ◌≤◌, ℕ, IfOk};
ghost use Rattle.depot_base.specs.declared.limits.TheConstants.{MOST_STOP_CALL};
ghost use Rattle.depot_world.specs.Transcript.{pending_at};
ghost use Rattle.depot_simulation.specs.Doing.{HasLeftSimulation};
ghost use Rattle.depot_simulation.specs.Playing.{IsPlayed};
ghost use Rattle.depot_simulation.specs.EachRun.{Completes, Simulates};

use crate::acting::ActingNode;
use crate::actor::Actor;
use crate::participant::Participant;
use crate::simulation::Simulation;
use depot_base::{Bytes, Memory, NodeId};

impl<A: Actor> Simulation<A> {
    /// Sets a stop on a node's disk. Returns the lines from the arrow on.
    pub fn stop(&mut self, node: NodeId, call: u32, image: u8) -> Result<Bytes, Memory>
        requires call { 1 ≤ call }
        requires most { call ≤ MOST_STOP_CALL }
        requires image { image ≤ 2 }
        requires played { IsPlayed A.view A.Reader.reads self.old }
        ensures lines { IfOk result (λ lines. Simulates A.view A.Reader.reads self.old (λ setup run. pending_at run node call image) lines self.new) }
        ensures asked { self.new.seen.asked ≡ self.old.seen.asked }
    {
        match self.leave(node) {
            Some(acting) => self.arm(acting, call, image),
            None => Ok(Bytes::from_slice(self.alloc, b"\n")?),
        }
    }

    /// The same with the node that left its place for it.
    fn arm(&mut self, acting: ActingNode<A>, call: u32, image: u8) -> Result<Bytes, Memory>
        requires call { 1 ≤ call }
        requires most { call ≤ MOST_STOP_CALL }
        requires image { image ≤ 2 }
        requires left { (node : ℕ) × HasLeftSimulation A A.view A.Reader.reads node self.old acting }
        ensures lines { IfOk result (λ lines. (node : ℕ) → Completes A.view A.Reader.reads node self.old acting (λ setup run. pending_at run node call image) lines self.new) }
        ensures asked { self.new.seen.asked ≡ self.old.seen.asked }
    {
        let ActingNode { seat, actor, reads } = acting;
        let actor = actor.stop_at(call, image)?;
        self.come_back(seat, Participant { actor, reads })?;
        Ok(Bytes::from_slice(self.alloc, b" armed\n")?)
    }
}
