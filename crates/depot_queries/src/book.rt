//! Who gave receipts for which update, among the updates of a graph.
ghost use Rattle.std.specs.Prelude.{◌≡◌, ◌≤◌, ◌<◌, ◌↔◌, List, [], ◌∷◌, ◌++◌, length, take, IsTrue, OnOk, OnErr};
ghost use Rattle.depot_base.specs.declared.update.Update.{Update};
ghost use Rattle.depot_model.specs.worlds.Receipts.{holders_in};

use crate::given::ids_given;
use crate::holders::Holders;
use depot_base::{Hash32, Memory, NodeId, Update};
use depot_graph::Graph;
use depot_model::Past;
use std::alloc::Global;

/// Who gave receipts for which update, among the updates read so far. These are a prefix of a graph that the book
/// doesn't hold.
#[derive(Drop)]
pub struct Book {
    /// How many updates it has read.
    read: u32,
    /// Who gave receipts among them.
    holders: Holders,
    alloc: Global,
}

impl Book {
    ghost use Rattle.depot_queries.specs.Books.{IsBookOf, items_read};

    /// A book that has read nothing. It takes no memory.
    pub fn new(alloc: Global) -> Book
        ensures { IsBookOf [] result }
    {
        Book {
            read: 0,
            holders: Holders::new(alloc),
            alloc,
        }
    }

    /// Reads the updates of a graph that it hasn't read yet. The graph has to begin with those it has read. On `Memory`
    /// it has read some of them, as `count` says; another call continues there.
    pub fn catch_up(&mut self, graph: &Graph) -> Result<(), Memory>
        requires begins { IsBookOf (take (items_read self.old) (⟦<Graph as Past>⟧.updates graph.now)) self.old }
        ensures ok { OnOk result (IsBookOf (⟦<Graph as Past>⟧.updates graph.now) self.new) }
        ensures err { OnErr result (IsBookOf (take (items_read self.new) (⟦<Graph as Past>⟧.updates graph.now)) self.new) }
        ensures more { items_read self.old ≤ items_read self.new }
    {
        for item in self.read..graph.count() {
            self.read(graph.update(item))?;
        }
        Ok(())
    }

    /// Reads one update. It reserves room for all receipts before it notes any of them, so on `Memory` the update isn't
    /// read.
    fn read(&mut self, update: &Update) -> Result<(), Memory>
        requires { items_read self.old < 4294967295 }
        ensures ok { OnOk result ((us : List Update) → IsBookOf us self.old → IsBookOf (us ++ update.now ∷ []) self.new) }
        ensures err { OnErr result ((us : List Update) → IsBookOf us self.old → IsBookOf us self.new) }
    {
        let ids = ids_given(self.alloc, update)?;
        self.holders.reserve_each(ids.as_slice(), update.writer)?;
        self.holders.note_each(ids.as_slice(), update.writer);
        self.read += 1;
        Ok(())
    }

    /// How many updates it has read. It takes no memory.
    pub fn count(&self) -> u32
        ensures read { result ≡ items_read self.now }
        ensures count { (us : List Update) → IsBookOf us self.now → result ≡ length us }
    {
        self.read
    }

    /// The nodes that gave a receipt for an id, each once, in rising order. It takes no memory.
    pub fn holders(&self, id: &Hash32) -> &[NodeId]
        ensures { (us : List Update) → IsBookOf us self.now → result.now ≡ holders_in us id.now }
    {
        // What it knows it knows of ids, which have 32 bytes.
        let _ = id.bytes();
        self.holders.of(id)
    }

    /// Whether at least so many nodes gave a receipt for an id. It takes no memory.
    pub fn settled(&self, id: &Hash32, k: u32) -> bool
        ensures { (us : List Update) → IsBookOf us self.now → IsTrue result ↔ (k ≤ length (holders_in us id.now)) }
    {
        self.holders(id).len() >= k as usize
    }
}
