//! Labels are forgotten, once no event to come names them.
ghost use Rattle.std.specs.Prelude.{◌≡◌, OnOk};
ghost use Rattle.depot_simulation.specs.EachRun.{ForgetsLabels};

use crate::actor::Actor;
use crate::simulation::Simulation;
use depot_base::Memory;
use depot_lines::Label;
use depot_scenario::{LabelUses, labels_of};
use depot_schedule::Event;

impl<A: Actor> Simulation<A> {
    /// Forgets those labels of an event that none of the remaining events, so many, names.
    pub fn forget_labels(
        &mut self,
        event: &Event,
        uses: &mut LabelUses,
        to_come: usize,
    ) -> Result<(), Memory>
        ensures forgets { OnOk result (ForgetsLabels A.view A.Reader.reads to_come uses.old.map.entries self.old uses.new.map.entries self.new) }
        ensures asked { self.new.seen.asked ≡ self.old.seen.asked }
    {
        let labels = labels_of(self.alloc, event)?;
        for label in labels.as_slice() {
            self.forget_label(label, uses, to_come);
        }
        Ok(())
    }

    /// Forgets a label, unless one of so many events to come names it.
    fn forget_label(&mut self, label: &Label, uses: &mut LabelUses, to_come: usize)
        ensures forgets { ForgetsLabels A.view A.Reader.reads to_come uses.old.map.entries self.old uses.new.map.entries self.new }
        ensures asked { self.new.seen.asked ≡ self.old.seen.asked }
    {
        if uses.end(label, to_come) {
            self.labels.forget(label);
        }
    }
}
