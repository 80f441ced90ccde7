//! A reader that gave up what was trimmed.
ghost use Rattle.std.specs.Prelude.{◌≡◌, ℕ, List, length, All, Some, option_copied, slice_get};
ghost use Rattle.depot_base.specs.declared.update.Update.{Update};
ghost use Rattle.depot_model.specs.lists.Items.{updates_at};
ghost use Rattle.depot_model.specs.journals.Journal.{accepted, named, value_with};
ghost use Rattle.depot_model.specs.texts.Contents.{Writes};
ghost use Rattle.depot_model.specs.updates.Order.{AreLatestIn};
ghost use Rattle.depot_model.specs.readers.Readers.{Reader, kept, seen_by_reader};
ghost use Rattle.depot_kept.specs.Values.{held_in};
ghost use Rattle.depot_queries.specs.ShownValues.{value_seen};
ghost use Rattle.depot_trim.specs.ReaderView.{IsReaderOf};
ghost use Rattle.depot_trim.specs.ReaderAnswers.{IsKeptItem};
ghost use Rattle.depot_trim.specs.Trimmings.{held_of};

use crate::marked_names::Marks;
use depot_accept::State;
use depot_base::{Hash32, Key, NamedValue, Update};
use depot_kept::Values;
use depot_model::{Past, Scheme};
use depot_readings::{JournalCounts, NamedValues};
use std::alloc::Global;

/// A reader: what it keeps of the journal it was made from and of what it took since, without what every member signed
/// off. It takes and reads, and doesn't write. The texts of records, the signatures of trimmed updates and dropped
/// values aren't kept.
///
/// Each call states its answer for the reader that this is (`IsReaderOf`): the node's journal when it was trimmed, with
/// all that was taken since; the trimmed updates; and the held values.
#[derive(Drop)]
pub struct Trimmed<S: Scheme> {
    pub(crate) alloc: Global,
    pub(crate) state: State<S>,
    pub(crate) values: Values,
    pub(crate) named: NamedValues,
    pub(crate) counts: JournalCounts,
    pub(crate) marks: Marks,
}

impl<S: Scheme> Trimmed<S> {
    /// The items of a key's latest writes among all accepted updates, in the listed order, as at a node with the whole
    /// journal. Each is that of a kept update. It takes no memory.
    pub fn latest(&self, key: &Key) -> &[u32]
        ensures latest { (R : Reader) → IsReaderOf S.verifies R self.now → AreLatestIn key.now (accepted R.journal) (updates_at (accepted R.journal) result.now) }
        ensures items { (R : Reader) → IsReaderOf S.verifies R self.now → All (IsKeptItem R) result.now }
    {
        self.state.graph().latest(key)
    }

    /// The update of an item that is kept. It takes no memory.
    pub fn update(&self, item: u32) -> &Update
        requires { (R : Reader) × (IsReaderOf S.verifies R self.now × IsKeptItem R item) }
        ensures { (R : Reader) → IsReaderOf S.verifies R self.now → slice_get (accepted R.journal) item ≡ Some result.now }
    {
        self.state.graph().update(item)
    }

    /// The value that the update of a kept item writes under the key, where it is held. `None` exactly when it isn't,
    /// or where the write is a deletion. It takes no memory.
    pub fn value_of(&self, item: u32, key: &Key) -> Option<&[u8]>
        requires item { (R : Reader) × (IsReaderOf S.verifies R self.now × IsKeptItem R item) }
        requires writes { (R : Reader) (u : Update) → IsReaderOf S.verifies R self.now → slice_get (accepted R.journal) item ≡ Some u → Writes key.now u }
        ensures { (R : Reader) (u : Update) → IsReaderOf S.verifies R self.now → slice_get (accepted R.journal) item ≡ Some u → option_copied result ≡ value_seen (seen_by_reader R key.now u) }
    {
        let Some(wrote) = self.update(item).wrote(key.bytes()) else {
            unreachable!();
        };
        let Some(name) = wrote.named() else {
            return None;
        };
        held_as(&self.values, &name)
    }

    /// The kept update with an id. `None` exactly when the id is of no kept update. It takes no memory.
    pub fn body(&self, id: &Hash32) -> Option<&Update>
        ensures { (R : Reader) → IsReaderOf S.verifies R self.now → option_copied result ≡ named (kept R) id.now }
    {
        if self.marks.has(id) {
            return None;
        }
        let graph = self.state.graph();
        match graph.find(id) {
            Some(item) => Some(graph.update(item)),
            None => None,
        }
    }

    /// How many updates are kept. It takes no memory.
    pub fn kept(&self) -> u32
        ensures { (R : Reader) → IsReaderOf S.verifies R self.now → result ≡ length (kept R) }
    {
        (self.accepted() as usize).saturating_sub(self.marks.list.len()) as u32
    }

    /// How many updates were accepted, the trimmed ones too. It takes no memory.
    pub fn accepted(&self) -> u32
        ensures { (R : Reader) → IsReaderOf S.verifies R self.now → result ≡ length (accepted R.journal) }
    {
        self.state.graph().count()
    }
}

/// The value of this hash and of so many bytes, if it is here.
fn held_as<'a>(values: &'a Values, name: &NamedValue) -> Option<&'a [u8]>
    ensures { (held : List (List ℕ)) → ((hash : List ℕ) → held_in values.now hash ≡ value_with hash held) → option_copied result ≡ held_of held name.now }
{
    match values.get(&name.hash) {
        Some(value) if value.len() == name.size as usize => Some(value),
        _ => None,
    }
}
