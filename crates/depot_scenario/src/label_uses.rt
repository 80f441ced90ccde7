//! When labels are named last.
ghost use Rattle.std.specs.Prelude.{◌≡◌, IfOk, OnOk};
ghost use Rattle.depot_world.specs.Forgetting.{labels_in};
ghost use Rattle.depot_scenario.specs.Labels.{named_in};
ghost use Rattle.depot_scenario.specs.LabelUses.{AreNoted, AreUses, EndsUse, has_below};

use crate::event_labels::labels_of;
use depot_base::Memory;
use depot_lines::Label;
use depot_schedule::Event;
use std::alloc::Global;
use std::collections::BTreeMap;

/// For each label that a later event names: how many events follow the last one that does, in an ordered map, as in
/// `Labels`.
#[derive(Drop)]
pub struct LabelUses {
    alloc: Global,
    pub map: BTreeMap<Vec<u8>, usize>,
}

impl LabelUses {
    /// The uses of labels in the remaining events, which are listed last first.
    pub fn of(alloc: Global, to_come: &[Event]) -> Result<LabelUses, Memory>
        ensures { IfOk result (λ uses. AreUses uses.map.entries to_come.now) }
    {
        let mut uses = LabelUses {
            alloc,
            map: BTreeMap::new(alloc),
        };
        for place in (0..to_come.len()).rev() {
            uses.note(&to_come[place], place)?;
        }
        Ok(uses)
    }

    /// Notes the labels of an event that so many events follow.
    fn note(&mut self, event: &Event, behind: usize) -> Result<(), Memory>
        ensures { OnOk result (AreNoted (labels_in event.now) behind self.old.map.entries self.new.map.entries) }
    {
        let labels = labels_of(self.alloc, event)?;
        for label in labels.as_slice() {
            let name = Vec::from_slice(self.alloc, label.bytes())?;
            self.map.insert(name, behind)?;
        }
        Ok(())
    }

    /// Returns true only if none of the remaining events, so many, names a label; its use is then dropped.
    pub fn end(&mut self, label: &Label, to_come: usize) -> bool
        ensures { EndsUse self.old.map.entries label.now to_come result self.new.map.entries }
    {
        if self.is_named(label, to_come) {
            return false;
        }
        self.map.remove(label.bytes());
        true
    }

    /// Whether one of so many events to come names a label.
    fn is_named(&self, label: &Label, to_come: usize) -> bool
        ensures { result ≡ has_below to_come (named_in label.now self.now.map.entries) }
    {
        match self.map.get(label.bytes()) {
            Some(behind) => *behind < to_come,
            None => false,
        }
    }
}
