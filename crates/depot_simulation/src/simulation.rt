//! A run of a schedule at work.
ghost use Rattle.std.specs.Prelude.{◌≡◌, option_copied, option_and_then};
ghost use Rattle.depot_world.specs.Run.{bytes_of_label, own_update, plain_referred, referred, signed_of, host_in};
ghost use Rattle.depot_simulation.specs.EachRun.{OfEachRun};
ghost use Rattle.depot_simulation.specs.Doing.{place_of_node};

use crate::actor::Actor;
use crate::participant::Participant;
use crate::readers::Readers;
use depot_base::{NodeId, Signed, Update};
use depot_lines::Label;
use depot_scenario::{KnownUpdates, Labels, place_of};
use depot_schedule::Ref;
use std::alloc::Global;

/// A run between two events: the correct nodes with their reads in the order of their lines, what labels name, the
/// updates seen, and the readers.
#[derive(Drop)]
pub struct Simulation<A: Actor> {
    pub alloc: Global,
    pub participants: Vec<Participant<A>>,
    pub labels: Labels,
    pub seen: KnownUpdates,
    pub readers: Readers<A::Reader>,
}

impl<A: Actor> Simulation<A> {
    /// The place of the first node with this number, from 0. It takes no memory.
    pub fn place_of(&self, node: NodeId) -> Option<usize>
        ensures { result ≡ place_of_node A.view node self.now.participants.items }
    {
        place_of(self.participants.as_slice(), node)
    }

    /// The bytes of a label. It takes no memory.
    pub fn bytes_of(&self, label: &Label) -> &[u8]
        ensures { OfEachRun A.view A.Reader.reads self.now (λ setup run. result.now ≡ bytes_of_label run label.now) }
    {
        self.labels.bytes(label)
    }

    /// The signed statement of a label, if it names one. It takes no memory.
    pub fn signed_of(&self, label: &Label) -> Option<&Signed>
        ensures { OfEachRun A.view A.Reader.reads self.now (λ setup run. option_copied result ≡ signed_of run label.now) }
    {
        self.labels.signed(label)
    }

    /// The bytes of the plain label that a reference names, if it does. It takes no memory.
    pub fn plain_referred(&self, r: &Ref) -> Option<&[u8]>
        ensures { OfEachRun A.view A.Reader.reads self.now (λ setup run. option_copied result ≡ plain_referred run r.now) }
    {
        match r {
            Ref::Label(label) => self.labels.plain(label),
            Ref::Own { .. } => None,
        }
    }

    /// The update that a reference names, if it names one. It takes no memory.
    pub fn referred(&self, r: &Ref) -> Option<&Update>
        ensures { OfEachRun A.view A.Reader.reads self.now (λ setup run. option_copied result ≡ referred run r.now) }
    {
        match r {
            Ref::Label(label) => self.labels.update(label),
            Ref::Own { node, seq } => self.own_update(*node, *seq),
        }
    }

    /// A node's own update with this number, if it has one.
    fn own_update(&self, node: NodeId, seq: u32) -> Option<&Update>
        ensures { OfEachRun A.view A.Reader.reads self.now (λ setup run. option_copied result ≡ option_and_then (λ s. own_update s.correct.journal seq) (host_in run.hosts node)) }
    {
        let place = self.place_of(node)?;
        self.participants[place].actor.own_update(seq)
    }
}
