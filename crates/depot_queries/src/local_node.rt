//! What a node does for the program beside it.
ghost use Rattle.std.specs.Prelude.{◌≡◌, ◌<◌, ◌≤◌, length, true, false, Some, option_copied, slice_get};
ghost use Rattle.depot_base.specs.Pairs.{AllPairsByRecursion};
ghost use Rattle.depot_base.specs.Parts.{is_below};
ghost use Rattle.depot_base.specs.Writes.{one_change};
ghost use Rattle.depot_base.specs.declared.update.Update.{Update};
ghost use Rattle.depot_base.specs.declared.limits.TheConstants.{MOST_WRITES};
ghost use Rattle.depot_model.specs.texts.Contents.{Writes};
ghost use Rattle.depot_model.specs.journals.Journal.{accepted, held_as, own};
ghost use Rattle.depot_model.specs.checks.Own.{leaf_count};
ghost use Rattle.depot_model.specs.checks.Putting.{IsPutCall, Puts};
ghost use Rattle.depot_readings.specs.Counts.{AreCountsOf};
ghost use Rattle.depot_queries.specs.ShownValues.{IsWrittenAt};

use depot_base::{Changes, Key, NamedValue, Value};
use depot_graph::Graph;
use depot_model::{Past, Peer, PutDone, PutError};
use depot_readings::JournalCounts;

/// A node as its program uses it: it puts, and what it accepted and holds can be read while it runs.
pub trait LocalNode: Peer {
    /// Puts a value under a key: the same as [`put_all`](LocalNode::put_all) with this one change.
    fn put(&mut self, key: Key, value: Value) -> Result<PutDone, PutError>
        ensures puts { Puts (Self.stands self.old) (Self.records self.old) (one_change key value) result (Self.records self.new) }
        ensures call { IsPutCall Self.NodeState self.old self.new (one_change key value) result };

    /// Gives keys a value or deletes them, 1 to 16 of them at once, rising strictly. The journal grows by the next own
    /// update; the call returns its id, seq and clock. `Stopped` comes exactly where the disk failed in an earlier
    /// call. `Spent`, `Tips`, `Collides` and `Full` come exactly where the definition says, in this order; on these and
    /// on `Memory` the journal is unchanged. On `Disk` the node is stopped. Every crash image of the call has the
    /// records from before, or these and the new one; where an error other than `Disk` is returned, those from before.
    fn put_all(&mut self, changes: Changes) -> Result<PutDone, PutError>
        requires few { (1 ≤ length changes) × (length changes ≤ MOST_WRITES) }
        requires rising { AllPairsByRecursion (λ c d. is_below c.key d.key ≡ true) changes }
        ensures puts { Puts (Self.stands self.old) (Self.records self.old) changes result (Self.records self.new) }
        ensures call { IsPutCall Self.NodeState self.old self.new changes result };

    /// The graph of the updates that it accepted. It takes no memory.
    fn graph(&self) -> &Graph
        requires { Self.stopped self.now ≡ false }
        ensures { ⟦<Graph as Past>⟧.updates result.now ≡ accepted (Self.records self.now) };

    /// The held value of this hash and this length. None exactly where it isn't held. It takes no memory.
    fn held_as(&self, name: &NamedValue) -> Option<&[u8]>
        requires { Self.stopped self.now ≡ false }
        ensures { option_copied result ≡ held_as (Self.records self.now) name.now };

    /// The held value that an item's update writes under a key, found by the hash and the length that its write of this
    /// key names. None exactly where this write is a deletion or its value isn't held. It takes no memory.
    fn value_of(&self, item: u32, key: &Key) -> Option<&[u8]>
        requires runs { Self.stopped self.now ≡ false }
        requires item { item < length (accepted (Self.records self.now)) }
        requires writes { (u : Update) → slice_get (accepted (Self.records self.now)) item ≡ Some u → Writes key.now u }
        ensures { IsWrittenAt (Self.records self.now) item key.now (option_copied result) };

    /// How much its journal takes. It takes no memory.
    fn counts(&self) -> JournalCounts
        requires { Self.stopped self.now ≡ false }
        ensures { AreCountsOf (Self.stands self.now).me (Self.records self.now) result };

    /// How many statements it has made, its own updates and vouchers: each spends a leaf of its key. It takes no memory.
    fn statement_count(&self) -> u32
        requires { Self.stopped self.now ≡ false }
        ensures { result ≡ length (own (Self.records self.now)) };

    /// How many statements its key signs, which is how many leaves its tree has. It takes no memory.
    fn leaf_count(&self) -> u32
        ensures { result ≡ leaf_count (Self.stands self.now).listed (Self.stands self.now).me };
}
