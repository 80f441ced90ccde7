//! Places by mark.
ghost use Rattle.std.specs.Prelude.{◌≡◌, ◌<◌, ◌≤◌, ◌+◌, ◌^◌, [], ◌∷◌, OnOk, IsOk, if◌then◌else◌};
ghost use Rattle.std.specs.Iterator.{YieldsFirst, item_count};
ghost use Rattle.depot_kept.specs.declared.marks.StatementMark.{StatementMark};
ghost use Rattle.depot_kept.specs.Links.{same_mark, AreLinked, IsLinkedFrom};
ghost use Rattle.depot_kept.specs.Heads.{head};

use crate::heads::Heads;
use crate::marks::StatementMark;
use depot_base::Memory;
use std::alloc::Global;

/// The places of kept statements under each of their marks, the newest first.
#[derive(Drop)]
pub(crate) struct PlaceTable {
    // The newest link of each mark.
    newest: Heads,
    links: Vec<Link>,
    ghost linked: { AreLinked (head newest) links.items },
}

/// A place under a mark, and the link of the one before it under the same mark.
#[derive(Clone, Copy)]
struct Link {
    place: u32,
    before: Option<u32>,
}

impl PlaceTable {
    ghost use Rattle.depot_kept.specs.Table.{link_count, places_with_mark, spare_places};
    ghost use Rattle.depot_kept.specs.PlacesLeft.{left};

    /// Nothing under any mark. It takes no memory.
    #[tactic(auto, using(crate::proofs::LinkLaws::link_laws), unfolding(crate::specs::Table::link_count, crate::specs::Table::places_with_mark, crate::specs::Table::spare_places))]
    pub(crate) fn new(alloc: Global) -> PlaceTable
        ensures listed { (mark : StatementMark) → places_with_mark result mark ≡ [] }
        ensures count { link_count result ≡ 0 }
    {
        PlaceTable {
            newest: Heads::new(alloc),
            links: Vec::new(alloc),
        }
    }

    /// Reserves memory to list `count` more places.
    #[tactic(auto, using(crate::proofs::LinkLaws::link_laws), unfolding(crate::specs::Table::link_count, crate::specs::Table::places_with_mark, crate::specs::Table::spare_places))]
    pub(crate) fn reserve(&mut self, count: usize) -> Result<(), Memory>
        ensures same { (mark : StatementMark) → places_with_mark self.new mark ≡ places_with_mark self.old mark }
        ensures count { link_count self.new ≡ link_count self.old }
        ensures ok { OnOk result (count ≤ spare_places self.new) }
        ensures known { count ≤ spare_places self.old → IsOk result }
    {
        self.newest.reserve(count)?;
        self.links.reserve(count)?;
        Ok(())
    }

    /// Lists a place under a mark, ahead of those that are listed already.
    #[tactic(auto, using(crate::proofs::LinkLaws::link_laws), unfolding(crate::specs::Table::link_count, crate::specs::Table::places_with_mark, crate::specs::Table::spare_places))]
    pub(crate) fn add(&mut self, mark: StatementMark, place: u32)
        requires room { 0 < spare_places self.old }
        requires few { link_count self.old < 2 ^ 32 }
        ensures listed { (other : StatementMark) → places_with_mark self.new other ≡ (if same_mark mark other then place ∷ places_with_mark self.old other else places_with_mark self.old other) }
        ensures count { link_count self.new ≡ link_count self.old + 1 }
        ensures room { spare_places self.old ≤ spare_places self.new + 1 }
    {
        let before = self.newest.get(&mark);
        let link = self.links.len() as u32;
        self.links.push_reserved(Link { place, before });
        self.newest.add(mark, link);
    }

    /// The places under a mark, the newest first.
    #[tactic(auto, unfolding(crate::specs::Table::places_with_mark, crate::specs::PlacesLeft::left))]
    pub(crate) fn places(&self, mark: &StatementMark) -> Places<'_>
        ensures { left result ≡ places_with_mark self.now mark.now }
    {
        Places {
            links: self.links.as_slice(),
            next: self.newest.get(mark),
        }
    }
}

/// Places that are still to come.
#[derive(Drop)]
pub(crate) struct Places<'a> {
    links: &'a [Link],
    next: Option<u32>,
    ghost linked: { IsLinkedFrom links.now next },
}

impl Iterator for Places<'_> {
    type Item = u32;

    ghost use Rattle.depot_kept.specs.PlacesLeft.{left};

    ghost next_gives = { YieldsFirst left };

    ghost remaining = { item_count left };

    fn next(&mut self) -> Option<u32> {
        let link = self.links[self.next? as usize];
        self.next = link.before;
        Some(link.place)
    }
}
