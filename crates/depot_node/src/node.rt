//! The node.
ghost use Rattle.std.specs.Prelude.{◌≡◌, ◌<◌, ◌≤◌, ◌^◌, length, map, false, refl, IsTrue, Some, All, slice_get};
ghost use Rattle.depot_base.specs.Disk.{Only};
ghost use Rattle.depot_base.specs.File.{blocks};
ghost use Rattle.depot_journal.specs.WriteSteps.{StandsTo};
ghost use Rattle.depot_model.specs.texts.Records.{text_of_record};
ghost use Rattle.depot_model.specs.journals.Journal.{accepted};
ghost use Rattle.depot_model.specs.lists.Items.{updates_at};
ghost use Rattle.depot_model.specs.updates.Order.{AreLatestIn};
ghost use Rattle.depot_model.specs.texts.Roster.{key_of};
ghost use Rattle.depot_model.specs.texts.TextFacts.{IsRoster-prop};
ghost use Rattle.depot_model.specs.texts.Texts.{IsRoster};
ghost use Rattle.depot_node.specs.Holdings.{node_setting};
ghost use Rattle.depot_node.specs.Keyed.{HasKey-prop, IsKept-prop};
ghost use Rattle.depot_node.specs.StoreCalls.{IsKept};

use crate::put::{put, put_all};
use crate::store::{DetachedStore, Store};
use crate::take::{take_proof, take_statement, take_value};
use depot_base::{Changes, Hash32, Key, NamedValue, NodeId, Update, Value};
use depot_graph::Graph;
use depot_journal::NullDisk;
use depot_model::{NodeState, Past, PutDone, PutError, Replica, Scheme, Signer, TakeError, Taken};
use depot_outside::Disk;
use depot_queries::{LocalNode, held_as};
use depot_readings::JournalCounts;
use std::alloc::Global;

/// A node with its journal on a disk. The journal is lawful, and the roster has the signer's key for the node. Once the
/// disk failed the node is stopped: start it again from its disk.
#[derive(Drop)]
pub struct Node<D: Disk, S: Scheme, G: Signer<Of = S>> {
    pub(crate) alloc: Global,
    pub(crate) store: Store<D, S>,
    pub(crate) signer: G,
    ghost kept: { IsKept S.verifies store } by { IsKept-prop S.verifies store },
    ghost formed: { IsRoster store.listed } by { IsRoster-prop store.listed },
    ghost keyed: { key_of store.listed store.me ≡ Some (G.key_of signer) } by { HasKey-prop store.listed store.me (G.key_of signer) },
}

/// A node in memory, the disk from which it was detached, and the offset of the closed gate in the disk's file.
#[derive(Drop)]
pub struct DetachedNode<D: Disk, S: Scheme, G: Signer<Of = S>> {
    /// The node: what its journal grows by reaches no disk.
    pub node: Node<NullDisk, S, G>,
    /// The disk, as the node left it.
    pub disk: D,
    /// The offset of the closed gate, at which a group of records is appended.
    pub gate: u64,
}

/// Something with a journal on a disk that contracts see.
pub trait OnDisk<D> {
    /// The disk.
    ghost disk: { Self → D };
}

impl<D: Disk, S: Scheme, G: Signer<Of = S>> OnDisk<D> for Node<D, S, G> {
    ghost disk = { λ n. n.store.disk };
}

impl<D: Disk, S: Scheme, G: Signer<Of = S>> Node<D, S, G> {
    /// Returns its disk as it is, of a stopped node too. It takes no memory.
    pub fn into_disk(self) -> D
        ensures { result ≡ ⟦<Node<D, S, G> as OnDisk<D>>⟧.disk self }
    {
        self.store.into_disk()
    }

    /// Detaches the node from its disk: it goes on in memory. What its journal grows by is to be appended to the disk's
    /// file, too, by `depot_journal::append_group`. It takes no memory.
    pub fn detach(self) -> DetachedNode<D, S, G>
        ensures stands { ⟦<Node<NullDisk, S, G> as NodeState>⟧.stands result.node ≡ ⟦<Node<D, S, G> as NodeState>⟧.stands self }
        ensures records { ⟦<Node<NullDisk, S, G> as NodeState>⟧.records result.node ≡ ⟦<Node<D, S, G> as NodeState>⟧.records self }
        ensures key { ⟦<Node<NullDisk, S, G> as NodeState>⟧.key result.node ≡ ⟦<Node<D, S, G> as NodeState>⟧.key self }
        ensures signs { ⟦<Node<NullDisk, S, G> as NodeState>⟧.signature_of result.node ≡ ⟦<Node<D, S, G> as NodeState>⟧.signature_of self }
        ensures stopped { ⟦<Node<NullDisk, S, G> as NodeState>⟧.stopped result.node ≡ ⟦<Node<D, S, G> as NodeState>⟧.stopped self }
        ensures disk { result.disk ≡ ⟦<Node<D, S, G> as OnDisk<D>>⟧.disk self }
        ensures gate { result.gate ≡ length (blocks (map text_of_record (⟦<Node<D, S, G> as NodeState>⟧.records self))) }
        // While it isn't stopped, its records are in the file up to that gate, and nothing is unsynced.
        ensures file { ⟦<Node<D, S, G> as NodeState>⟧.stopped self ≡ false → IsTrue (D.tells result.disk) → StandsTo (D.seen result.disk) (map text_of_record (⟦<Node<D, S, G> as NodeState>⟧.records self)) result.gate }
        ensures stable { ⟦<Node<D, S, G> as NodeState>⟧.stopped self ≡ false → IsTrue (D.tells result.disk) → Only (D.seen result.disk) (D.may_leave result.disk) }
    {
        let Node {
            alloc,
            store,
            signer,
        } = self;
        let DetachedStore { store, disk, gate } = store.detach();
        DetachedNode {
            node: Node {
                alloc,
                store,
                signer,
            },
            disk,
            gate,
        }
    }

    /// How many updates it accepted. It takes no memory.
    pub fn update_count(&self) -> u32
        requires { ⟦<Node<D, S, G> as NodeState>⟧.stopped self.now ≡ false }
        ensures { result ≡ length (accepted (⟦<Node<D, S, G> as NodeState>⟧.records self.now)) }
    {
        self.store.readings().state().graph().count()
    }

    /// The items of the latest writes of a key among the accepted updates, in rising order of clock, writer, seq and
    /// id; none for a key that no update writes. An item is a place among the accepted updates, from 0. It takes no
    /// memory.
    pub fn latest(&self, key: &Key) -> &[u32]
        requires { ⟦<Node<D, S, G> as NodeState>⟧.stopped self.now ≡ false }
        ensures latest { AreLatestIn key.now (accepted (⟦<Node<D, S, G> as NodeState>⟧.records self.now)) (updates_at (accepted (⟦<Node<D, S, G> as NodeState>⟧.records self.now)) result.now) }
        ensures items { All (λ item. item < length (accepted (⟦<Node<D, S, G> as NodeState>⟧.records self.now))) result.now }
    {
        self.store.readings().state().graph().latest(key)
    }

    /// The update of an item. It takes no memory.
    pub fn update(&self, item: u32) -> &Update
        requires runs { ⟦<Node<D, S, G> as NodeState>⟧.stopped self.now ≡ false }
        requires item { item < length (accepted (⟦<Node<D, S, G> as NodeState>⟧.records self.now)) }
        ensures { slice_get (accepted (⟦<Node<D, S, G> as NodeState>⟧.records self.now)) item ≡ Some result.now }
    {
        self.store.readings().state().graph().update(item)
    }
}

impl<D: Disk, S: Scheme, G: Signer<Of = S>> NodeState for Node<D, S, G> {
    ghost stands = { λ n. node_setting S.verifies n.store };

    ghost records = { λ n. n.store.records };

    ghost key = { λ n. G.key_of n.signer };

    ghost signature_of = { λ n. G.signature_of n.signer };

    ghost stopped = { λ n. n.store.stopped };

    ghost handle = { λ n. D.handle n.store.disk };

    ghost faults = { λ n. D.faults n.store.disk };

    ghost is_faultless = { λ n. D.is_faultless n.store.disk };

    ghost tells = { λ n. D.tells n.store.disk };

    ghost may_leave = { λ n file. D.may_leave n.store.disk file };

    ghost moment = { λ n. D.moment n.store.disk };

    ghost left_since = { λ n t file. D.left_since n.store.disk t file };

    ghost reads = { λ n. D.seen n.store.disk };

    ghost after = { λ n calls m. D.after n.store.disk calls m.store.disk };
}

impl<D: Disk, S: Scheme, G: Signer<Of = S>> Replica for Node<D, S, G> {
    type Of = S;

    fn me(&self) -> NodeId {
        self.store.me()
    }

    fn roster_hash(&self) -> &Hash32 {
        self.store.roster().hash()
    }

    fn has_node(&self, node: NodeId) -> bool {
        self.store.roster().has_node(node)
    }

    fn is_stopped(&self) -> bool {
        self.store.is_stopped()
    }

    fn record_count(&self) -> u32 {
        self.store.count()
    }

    fn record_text(&self, place: u32) -> &[u8] {
        self.store.text(place)
    }

    fn take_statement(&mut self, text: &[u8]) -> Result<Taken, TakeError> {
        take_statement(self.alloc, &mut self.store, text)
    }

    fn take_proof(&mut self, text: &[u8]) -> Result<Taken, TakeError> {
        take_proof(self.alloc, &mut self.store, text)
    }

    fn take_value(&mut self, text: &[u8]) -> Result<Taken, TakeError> {
        take_value(self.alloc, &mut self.store, text)
    }

    ghost lawful = { λ n. n.kept.lawful };

    ghost some = { λ n. n.kept.some };

    ghost formed = { λ n. n.formed };

    ghost keyed = { λ n. n.keyed };

    ghost verifies_by = { λ n. refl };

    ghost only_now = { λ n file left. D.only_now n.store.disk file left };

    ghost counts_now = { λ n t file late leaves. D.counts_now n.store.disk t file late leaves };

    ghost after_none = { λ n. D.after_none n.store.disk };

    ghost after_more = { λ old between new calls more first then. D.after_more old.store.disk between.store.disk new.store.disk calls more first then };

    ghost signs = { λ n seq body below. G.verifies_under_key n.signer seq body below };

    ghost short = { λ n seq body. G.is_short n.signer seq body };
}

/// How many leaves a tree of this height has.
fn leaves_of_tree(height: u8) -> u32
    requires { height ≤ 17 }
    ensures { result ≡ 2 ^ height }
{
    1 << height
}

impl<D: Disk, S: Scheme, G: Signer<Of = S>> LocalNode for Node<D, S, G> {
    fn put(&mut self, key: Key, value: Value) -> Result<PutDone, PutError> {
        put(self.alloc, &mut self.store, key, value)
    }

    fn put_all(&mut self, changes: Changes) -> Result<PutDone, PutError> {
        put_all(self.alloc, &mut self.store, changes)
    }

    fn graph(&self) -> &Graph {
        self.store.readings().state().graph()
    }

    fn held_as(&self, name: &NamedValue) -> Option<&[u8]> {
        held_as(self.store.readings(), name)
    }

    fn value_of(&self, item: u32, key: &Key) -> Option<&[u8]> {
        let Some(wrote) = self.update(item).wrote(key.bytes()) else {
            unreachable!();
        };
        let Some(name) = wrote.named() else {
            return None;
        };
        self.held_as(&name)
    }

    fn counts(&self) -> JournalCounts {
        self.store.readings().counts()
    }

    fn statement_count(&self) -> u32 {
        self.store.readings().totals().own
    }

    #[tactic(auto, unfolding(depot_model::specs::checks::Own::leaf_count))]
    fn leaf_count(&self) -> u32 {
        match self.store.roster().key_of(self.store.me()) {
            Some(key) => leaves_of_tree(key.height),
            None => 0,
        }
    }
}
