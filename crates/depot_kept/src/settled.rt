//! The newest link of each mark, in ordered maps.
ghost use Rattle.std.specs.Prelude.{◌≡◌, None, Some, OnOk, OnErr, if◌then◌else◌};
ghost use Rattle.depot_kept.specs.declared.marks.StatementMark.{StatementMark};
ghost use Rattle.depot_kept.specs.Links.{same_mark};
ghost use Rattle.depot_kept.specs.Settled.{settled};

use crate::marks::StatementMark;
use depot_base::{Hash32, Memory, NodeId};
use std::alloc::Global;
use std::collections::BTreeMap;

/// One map for each kind of mark, so that a mark takes no more memory than its kind needs.
#[derive(Drop)]
pub(crate) struct Settled {
    numbers: BTreeMap<Number, u32>,
    prevs: BTreeMap<Prev, u32>,
    ids: BTreeMap<Hash32, u32>,
}

/// The writer of a statement, and its seq.
#[derive(Clone, Copy, PartialEq, Eq, PartialOrd, Ord)]
struct Number {
    writer: NodeId,
    seq: u32,
}

/// The writer of an update, and its prev.
#[derive(Clone, Copy, PartialEq, Eq, PartialOrd, Ord)]
struct Prev {
    writer: NodeId,
    prev: Hash32,
}

impl Settled {
    /// No link of any mark. It takes no memory.
    #[tactic(auto, using(crate::proofs::SettledLaws::none_settled))]
    pub(crate) fn new(alloc: Global) -> Settled
        ensures { (mark : StatementMark) → settled result mark ≡ None }
    {
        Settled {
            numbers: BTreeMap::new(alloc),
            prevs: BTreeMap::new(alloc),
            ids: BTreeMap::new(alloc),
        }
    }

    /// The newest link of a mark, if it has one.
    pub(crate) fn get(&self, mark: &StatementMark) -> Option<u32>
        ensures { result ≡ settled self.now mark.now }
    {
        match *mark {
            StatementMark::Number(writer, seq) => self
                .numbers
                .get(&Number { writer, seq })
                .copied(),
            StatementMark::Prev(writer, prev) => self.prevs.get(&Prev { writer, prev }).copied(),
            StatementMark::Id(id) => self.ids.get(&id).copied(),
        }
    }

    /// Makes a link the newest of its mark. On `Memory` all is unchanged.
    pub(crate) fn insert(&mut self, mark: StatementMark, link: u32) -> Result<(), Memory>
        ensures ok { OnOk result ((other : StatementMark) → settled self.new other ≡ (if same_mark mark other then Some link else settled self.old other)) }
        ensures err { OnErr result ((other : StatementMark) → settled self.new other ≡ settled self.old other) }
    {
        match mark {
            StatementMark::Number(writer, seq) => self
                .numbers
                .insert(Number { writer, seq }, link)?,
            StatementMark::Prev(writer, prev) => self.prevs.insert(Prev { writer, prev }, link)?,
            StatementMark::Id(id) => self.ids.insert(id, link)?,
        };
        Ok(())
    }
}
