//! The newest link of each mark.
ghost use Rattle.std.specs.Prelude.{◌≡◌, ◌<◌, ◌≤◌, ◌+◌, Some, None, IsOk, OnOk, OnErr, if◌then◌else◌};
ghost use Rattle.depot_kept.specs.declared.marks.StatementMark.{StatementMark};
ghost use Rattle.depot_kept.specs.Links.{same_mark};
ghost use Rattle.depot_kept.specs.Heads.{newest_of};
ghost use Rattle.depot_kept.specs.Settled.{settled};

use crate::marks::StatementMark;
use crate::settled::Settled;
use depot_base::Memory;
use std::alloc::Global;

/// The newest link of each mark, by number. Strangers pick the marks, so none is hashed: a look-up takes logarithmic
/// time for any marks.
///
/// A new link is appended to a short list, which is searched one by one and for which memory is reserved. Reserving
/// more memory moves that list into the map; it is the one call that may run out of memory.
#[derive(Drop)]
pub(crate) struct Heads {
    settled: Settled,
    // The newest links that aren't in the map yet, the oldest first.
    fresh: Vec<Fresh>,
}

/// A link that isn't in the map yet.
#[derive(Clone, Copy)]
struct Fresh {
    mark: StatementMark,
    link: u32,
}

impl Heads {
    ghost use Rattle.depot_kept.specs.Heads.{head, spare_heads};

    /// No link of any mark. It takes no memory.
    #[tactic(auto, unfolding(crate::specs::Heads::head))]
    pub(crate) fn new(alloc: Global) -> Heads
        ensures { (mark : StatementMark) → head result mark ≡ None }
    {
        Heads {
            settled: Settled::new(alloc),
            fresh: Vec::new(alloc),
        }
    }

    /// The newest link of a mark, if it has one.
    #[tactic(auto, using(crate::proofs::HeadLaws::head_laws), unfolding(crate::specs::Heads::head))]
    pub(crate) fn get(&self, mark: &StatementMark) -> Option<u32>
        ensures { result ≡ head self.now mark.now }
    {
        let mut newest = self.settled.get(mark);
        for fresh in self.fresh.as_slice() {
            newest = newest_with(fresh, mark, newest);
        }
        newest
    }

    /// Reserves memory for `count` more links.
    #[tactic(auto, using(crate::proofs::HeadLaws::head_laws), unfolding(crate::specs::Heads::head, crate::specs::Heads::spare_heads))]
    pub(crate) fn reserve(&mut self, count: usize) -> Result<(), Memory>
        ensures same { (mark : StatementMark) → head self.new mark ≡ head self.old mark }
        ensures ok { OnOk result (count ≤ spare_heads self.new) }
        ensures known { count ≤ spare_heads self.old → IsOk result }
    {
        if count <= self.fresh.capacity() - self.fresh.len() {
            return Ok(());
        }
        self.settle()?;
        self.fresh.reserve(count)?;
        Ok(())
    }

    /// Moves the links that aren't in the map yet into it.
    #[tactic(auto, using(crate::proofs::HeadLaws::head_laws), unfolding(crate::specs::Heads::head))]
    fn settle(&mut self) -> Result<(), Memory>
        ensures { (mark : StatementMark) → head self.new mark ≡ head self.old mark }
    {
        settle_all(&mut self.settled, self.fresh.as_slice())?;
        self.fresh.clear();
        Ok(())
    }

    /// Makes a link the newest of its mark. There is room for it.
    #[tactic(auto, using(crate::proofs::HeadLaws::head_laws), unfolding(crate::specs::Heads::head, crate::specs::Heads::spare_heads))]
    pub(crate) fn add(&mut self, mark: StatementMark, link: u32)
        requires { 0 < spare_heads self.old }
        ensures head { (other : StatementMark) → head self.new other ≡ (if same_mark mark other then Some link else head self.old other) }
        ensures room { spare_heads self.old ≤ spare_heads self.new + 1 }
    {
        self.fresh.push_reserved(Fresh { mark, link });
    }
}

/// The newest link of a mark, with one more link after the one before.
fn newest_with(fresh: &Fresh, mark: &StatementMark, before: Option<u32>) -> Option<u32>
    ensures { result ≡ (if same_mark fresh.now.mark mark.now then Some fresh.now.link else before) }
{
    if fresh.mark == *mark {
        Some(fresh.link)
    } else {
        before
    }
}

/// Inserts links into a map, each in place of an older one. Where memory runs out, some may be inserted: a look-up in
/// the list of all of them and then in the map still gives the same.
fn settle_all(map: &mut Settled, fresh: &[Fresh]) -> Result<(), Memory>
    ensures ok { OnOk result ((mark : StatementMark) → settled map.new mark ≡ newest_of (settled map.old mark) fresh.now mark) }
    ensures err { OnErr result ((mark : StatementMark) → newest_of (settled map.new mark) fresh.now mark ≡ newest_of (settled map.old mark) fresh.now mark) }
{
    for one in fresh {
        map.insert(one.mark, one.link)?;
    }
    Ok(())
}
