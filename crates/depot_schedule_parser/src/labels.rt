//! The labels that events made.
ghost use Rattle.std.specs.Prelude.{◌≡◌, [], Some, IfOk};
ghost use Rattle.depot_schedule_parser.specs.LabelTable.{named_in_table, AddsLabel};

use depot_base::Memory;
use depot_schedule::Made;
use std::alloc::Global;
use std::collections::BTreeMap;

/// What each label names, in an ordered map. Whoever writes a schedule picks the labels, so none is hashed: a look-up
/// takes logarithmic time, whatever they are.
#[derive(Drop)]
pub struct NamedLabels {
    /// The labels.
    pub map: BTreeMap<Vec<u8>, Made>,
}

impl NamedLabels {
    /// No labels. It takes no memory.
    pub fn new(alloc: Global) -> NamedLabels
        ensures { result.map.entries ≡ [] }
    {
        NamedLabels {
            map: BTreeMap::new(alloc),
        }
    }

    /// What a label names. `None` exactly when it was not put in.
    pub fn get(&self, label: &[u8]) -> Option<Made>
        ensures { result ≡ named_in_table label.now self.now.map.entries }
    {
        self.map.get(label).copied()
    }

    /// The labels with one more, which names this.
    pub fn with(self, alloc: Global, label: &[u8], made: Made) -> Result<NamedLabels, Memory>
        ensures { IfOk result (λ l. AddsLabel self.map.entries (Some (label.now, made)) l.map.entries) }
    {
        let mut labels = self;
        let name = Vec::from_slice(alloc, label)?;
        labels.map.insert(name, made)?;
        Ok(labels)
    }
}
