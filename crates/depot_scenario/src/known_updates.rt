//! The updates over which right histories are computed.
ghost use Rattle.std.specs.Prelude.{◌≡◌, ◌<◌, ◌∷◌, [], length, true, Some, IfOk, OnOk, OnErr};
ghost use Rattle.std.specs.List.{AllByRecursion};
ghost use Rattle.depot_model.specs.updates.History.{history_hash as hash_of_history};
ghost use Rattle.depot_model.specs.lists.Items.{place_of_id, AreItemsOf};
ghost use Rattle.depot_model.specs.journals.Journal.{has_id};
ghost use Rattle.depot_model.specs.updates.Order.{parents, past, prevs};
ghost use Rattle.depot_model.specs.texts.Texts.{IsUpdate, id_of_update};
ghost use Rattle.depot_world.specs.FaultySigning.{history_by, with_history};
ghost use Rattle.depot_world.specs.Run.{seen_with};
ghost use Rattle.depot_graph.specs.Kept.{updates_in};
ghost use Rattle.depot_scenario.specs.KnownUpdates.{HasSeenParents, MayAsk};

use crate::listed_updates::ListedUpdates;
use depot_base::{Hash32, Memory, Update};
use depot_graph::{Graph, history_hash};
use depot_model::Past;
use depot_schedule::HistoryWord;
use std::alloc::Global;

/// The updates that events made and that correct nodes accepted, each id once, in the order in which they came.
/// Contracts see them all. They take memory only if right histories of updates with parents are needed.
#[derive(Drop)]
pub struct KnownUpdates {
    alloc: Global,
    graph: Graph,
    /// Whether right histories of updates with parents are needed.
    pub asked: bool,
    pub listed: ListedUpdates,
    ghost held: { asked ≡ true → updates_in graph.items.entries ≡ listed.updates },
}

/// Adds an update to a graph, unless one with its id is there.
fn hold(graph: &mut Graph, update: &Update, id: &Hash32) -> Result<(), Memory>
    requires id { id.now ≡ id_of_update update.now }
    requires text { IsUpdate update.now }
    requires parents { HasSeenParents (⟦<Graph as Past>⟧.updates graph.old) update.now }
    requires room { length (⟦<Graph as Past>⟧.updates graph.old) < 4294967295 }
    ensures ok { OnOk result (⟦<Graph as Past>⟧.updates graph.new ≡ seen_with (⟦<Graph as Past>⟧.updates graph.old) (update.now ∷ [])) }
    ensures err { OnErr result (⟦<Graph as Past>⟧.updates graph.new ≡ ⟦<Graph as Past>⟧.updates graph.old) }
{
    if graph.find(id).is_some() {
        return Ok(());
    }
    graph.add_uncounted(update.copy()?, &[], *id)?;
    Ok(())
}

impl KnownUpdates {
    /// Makes an empty list; the flag says whether right histories of updates with parents will be needed. It takes no
    /// memory.
    pub fn new(alloc: Global, asked: bool) -> KnownUpdates
        ensures none { result.listed.updates ≡ [] }
        ensures asked { result.asked ≡ asked }
    {
        KnownUpdates {
            alloc,
            graph: Graph::new(alloc),
            asked,
            listed: ListedUpdates::new(),
        }
    }

    /// Adds an update with its id, unless one with that id is there. Its parents have to be there, and there are fewer
    /// than 4,294,967,295 updates.
    pub fn add(&mut self, update: &Update, id: &Hash32) -> Result<(), Memory>
        requires id { id.now ≡ id_of_update update.now }
        requires text { IsUpdate update.now }
        requires parents { HasSeenParents self.old.listed.updates update.now }
        requires room { length self.old.listed.updates < 4294967295 }
        ensures ok { OnOk result (self.new.listed.updates ≡ seen_with self.old.listed.updates (update.now ∷ [])) }
        ensures err { OnErr result (self.new.listed.updates ≡ self.old.listed.updates) }
        ensures asked { self.new.asked ≡ self.old.asked }
    {
        if self.asked {
            hold(&mut self.graph, update, id)?;
        }
        self.listed.note(update);
        Ok(())
    }

    /// The history hash that the parents of an update call for. They are here.
    fn right_history(&self, update: &Update) -> Result<Hash32, Memory>
        requires parents { HasSeenParents self.now.listed.updates update.now }
        requires asked { self.now.asked ≡ true }
        ensures { IfOk result (λ hash. hash ≡ hash_of_history (past update.now self.now.listed.updates)) }
    {
        let items = self.parent_items(update)?;
        history_hash(self.alloc, &self.graph, items.as_slice())
    }

    /// The history hash of an update without parents.
    fn first_history(&self, update: &Update) -> Result<Hash32, Memory>
        requires { parents update.now ≡ [] }
        ensures { IfOk result (λ hash. hash ≡ hash_of_history (past update.now self.now.listed.updates)) }
    {
        let none = Graph::new(self.alloc);
        history_hash(self.alloc, &none, &[])
    }

    /// The update with its history hash: a given one, or the right one. Its parents have to be there.
    pub fn with_history(&self, draft: Update, history: HistoryWord) -> Result<Update, Memory>
        requires parents { HasSeenParents self.now.listed.updates draft }
        requires asked { MayAsk self.now.asked draft history }
        ensures { IfOk result (λ u. u ≡ with_history draft (history_by self.now.listed.updates history draft)) }
    {
        let history = self.history_of(&draft, history)?;
        let mut update = draft;
        update.history = history;
        Ok(update)
    }

    /// The history hash of an update, given or right. Its parents have to be there.
    fn history_of(&self, draft: &Update, history: HistoryWord) -> Result<Hash32, Memory>
        requires parents { HasSeenParents self.now.listed.updates draft.now }
        requires asked { MayAsk self.now.asked draft.now history }
        ensures { IfOk result (λ hash. hash ≡ history_by self.now.listed.updates history draft.now) }
    {
        match history {
            HistoryWord::Right if self.asked => self.right_history(draft),
            HistoryWord::Right => self.first_history(draft),
            HistoryWord::Given(hash) => Ok(hash),
        }
    }

    /// The items of the parents of an update, which are here.
    fn parent_items(&self, update: &Update) -> Result<Vec<u32>, Memory>
        requires { HasSeenParents (⟦<Graph as Past>⟧.updates self.now.graph) update.now }
        ensures { IfOk result (λ items. AreItemsOf (⟦<Graph as Past>⟧.updates self.now.graph) (parents update.now) items.items) }
    {
        let mut items = self.prev_items(update)?;
        for dep in update.deps.as_slice() {
            items.push(self.item(&dep.id))?;
        }
        Ok(items)
    }

    /// The item of the prev of an update, if it names one.
    fn prev_items(&self, update: &Update) -> Result<Vec<u32>, Memory>
        requires { AllByRecursion (λ id. has_id (⟦<Graph as Past>⟧.updates self.now.graph) id ≡ true) (prevs update.now) }
        ensures { IfOk result (λ items. AreItemsOf (⟦<Graph as Past>⟧.updates self.now.graph) (prevs update.now) items.items) }
    {
        let mut items = Vec::new(self.alloc);
        if update.prev.is_zeros() {
            return Ok(items);
        }
        items.push(self.item(&update.prev))?;
        Ok(items)
    }

    /// The item with an id, which is here. It takes no memory.
    fn item(&self, id: &Hash32) -> u32
        requires { has_id (⟦<Graph as Past>⟧.updates self.now.graph) id.now ≡ true }
        ensures { place_of_id id.now (⟦<Graph as Past>⟧.updates self.now.graph) ≡ Some result }
    {
        match self.graph.find(id) {
            Some(item) => item,
            None => unreachable!(),
        }
    }
}
