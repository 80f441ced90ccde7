//! What a schedule lets happen.

use crate::verb::Verb;
use depot_base::{Bytes, Changes, Hash32, Key, Kind, NodeId, Sequence, Value};
use depot_lines::Label;

/// What names an update, or in a voucher bytes.
#[derive(Debug, Drop)]
pub enum Ref {
    /// The label of the event that made it.
    Label(Label),
    /// The own update of a correct node with this number.
    Own {
        /// The node.
        node: NodeId,
        /// The number, from 0.
        seq: u32,
    },
}

/// References as written.
pub type Refs = Sequence<Ref>;

/// The history hash that a faulty update carries.
#[derive(Clone, Copy, Debug, PartialEq, Eq)]
pub enum HistoryWord {
    /// The one that its parents call for.
    Right,
    /// This one.
    Given(Hash32),
}

/// One event. `node` is always a correct node, `writer` a faulty one.
#[derive(Debug, Drop)]
pub enum Event {
    /// The node writes the value under the key.
    Put {
        node: NodeId,
        key: Key,
        value: Value,
    },
    /// The node writes and deletes: 1 to 16 changes, rising strictly by key.
    Puts {
        node: NodeId,
        changes: Changes,
    },
    /// The node reads the key.
    Get {
        node: NodeId,
        key: Key,
    },
    /// The node's hello becomes the bytes of the label.
    Hello {
        node: NodeId,
        label: Label,
    },
    /// The node's bundle for the bytes of `hello` becomes the bytes of the label.
    Bundle {
        node: NodeId,
        hello: Label,
        label: Label,
    },
    /// The node takes the bytes of the label, whole or in pieces of `size` bytes, 1 to 1,000,000.
    Give {
        node: NodeId,
        label: Label,
        size: Option<u32>,
    },
    /// The node starts again from its disk.
    Restart {
        node: NodeId,
    },
    /// The writer signs an update of number `seq` (below `2^height`) and of this clock (1 to `2^63 - 1`), with at most 1,024 entries.
    Update {
        label: Label,
        writer: NodeId,
        seq: u32,
        clock: u64,
        prev: Option<Ref>,
        key: Key,
        value: Value,
        deps: Refs,
        history: HistoryWord,
    },
    /// The same of an update of 1 to 16 changes, rising strictly by key.
    Updates {
        label: Label,
        writer: NodeId,
        seq: u32,
        clock: u64,
        prev: Option<Ref>,
        changes: Changes,
        deps: Refs,
        history: HistoryWord,
    },
    /// The writer signs a voucher of number `seq` (below `2^height`) for 1 to 256 updates or labels of plain bytes.
    Voucher {
        label: Label,
        writer: NodeId,
        seq: u32,
        refs: Refs,
    },
    /// The bytes of the label become a proof of this kind, of two signed labels.
    Proof {
        label: Label,
        kind: Kind,
        first: Label,
        second: Label,
    },
    /// The bytes of the label become a proof that the voucher names plain bytes, those of `text`, which are no update's.
    Hollow {
        label: Label,
        voucher: Label,
        text: Label,
    },
    /// The bytes of the label are judged as a proof.
    Judge {
        label: Label,
    },
    /// These bytes become those of the label.
    Raw {
        label: Label,
        bytes: Bytes,
    },
    /// As many as there are of `count` bytes of `source`, from the place `start` on (from 0), become those of the label.
    Cut {
        label: Label,
        source: Label,
        start: u32,
        count: u32,
    },
    /// The bytes of `source`, with the lowest bit of that at `place` (from 0) changed, become those of the label.
    Flip {
        label: Label,
        source: Label,
        place: u32,
    },
    /// The bytes of `first` and after them those of `second` become those of the label.
    Join {
        label: Label,
        first: Label,
        second: Label,
    },
    /// The node's disk stops at its `call`-th call from here on, 1 to 1,000,000, and is left with this image: 0, 1 or 2.
    Stop {
        node: NodeId,
        call: u32,
        image: u8,
    },
    /// The node gives receipts for 1 to 16 updates.
    Receipt {
        node: NodeId,
        refs: Refs,
    },
    /// Whether at least `k` nodes, 1 to 256, gave receipts for the update that the node has accepted.
    Settled {
        node: NodeId,
        reference: Ref,
        k: u32,
    },
    /// What all correct nodes did is audited, from their journals and reads alone.
    Audit,
    /// The node makes a checkpoint and signs it; its text becomes the bytes of the label.
    Checkpoint {
        node: NodeId,
        label: Label,
    },
    /// The node signs the checkpoint whose text the label has.
    Sign {
        node: NodeId,
        label: Label,
    },
    /// A reader of this name is made of the node, below the checkpoint whose text the label has.
    Trim {
        node: NodeId,
        label: Label,
        name: Label,
    },
    /// The reader of this name takes the bytes of the label.
    Tgive {
        name: Label,
        label: Label,
    },
    /// The reader of this name reads a key.
    Tget {
        name: Label,
        key: Key,
    },
}

impl Event {
    ghost use Rattle.std.specs.Prelude.{◌≡◌};
    ghost use Rattle.depot_schedule.specs.EventLines.{verb_of};

    /// The kind of event that it is.
    pub fn verb(&self) -> Verb
        ensures { result ≡ verb_of self.now }
    {
        match self {
            Event::Put { .. } => Verb::Put,
            Event::Puts { .. } => Verb::Puts,
            Event::Get { .. } => Verb::Get,
            Event::Hello { .. } => Verb::Hello,
            Event::Bundle { .. } => Verb::Bundle,
            Event::Give { .. } => Verb::Give,
            Event::Restart { .. } => Verb::Restart,
            Event::Update { .. } => Verb::Update,
            Event::Updates { .. } => Verb::Updates,
            Event::Voucher { .. } => Verb::Voucher,
            Event::Proof { .. } => Verb::Proof,
            Event::Hollow { .. } => Verb::Hollow,
            Event::Judge { .. } => Verb::Judge,
            Event::Raw { .. } => Verb::Raw,
            Event::Cut { .. } => Verb::Cut,
            Event::Flip { .. } => Verb::Flip,
            Event::Join { .. } => Verb::Join,
            Event::Stop { .. } => Verb::Stop,
            Event::Receipt { .. } => Verb::Receipt,
            Event::Settled { .. } => Verb::Settled,
            Event::Audit => Verb::Audit,
            Event::Checkpoint { .. } => Verb::Checkpoint,
            Event::Sign { .. } => Verb::Sign,
            Event::Trim { .. } => Verb::Trim,
            Event::Tgive { .. } => Verb::Tgive,
            Event::Tget { .. } => Verb::Tget,
        }
    }
}
