//! The chains of a forest of items: its virtual writers.
ghost use Rattle.std.specs.Prelude.{◌≡◌, ◌<◌, ◌-◌, ◌≤◌, ◌==◌, ℕ, List, [], ◌∷◌, ◌++◌, length, Option, Some, slice_get, slice_set, OnOk, OnErr, IfOk, IfSome, IsOk, vec_len, if◌then◌else◌};
ghost use Rattle.std.specs.Vec.{vec_capacity};
ghost use Rattle.depot_order.specs.Spots.{IsForest, spots, next_spot, spot_count, chain_count, IsSpotAt, IsTip, LeadsBack};

use depot_base::Memory;
use std::alloc::Global;
use std::marker::Model;

/// The place of an item: its chain, and its place there.
#[derive(Clone, Copy, Debug, PartialEq, Eq)]
pub struct Spot {
    /// Its chain, from 0 in the order in which the chains start.
    pub chain: u32,
    /// How many items of the chain come before it.
    pub place: u32,
}

/// A forest of items, numbered from 0 in the order in which they were added.
#[derive(Debug, Drop)]
pub struct Chains {
    prevs: Vec<Option<u32>>,
    placed: Vec<Spot>,
    tips: Vec<u32>,
}

impl Model for Chains {
    ghost use Rattle.std.specs.Prelude.{min, ◌-◌, vec_len};
    ghost use Rattle.std.specs.Vec.{vec_capacity};
    ghost use Rattle.depot_order.specs.Spots.{Forest};
    ghost use Rattle.depot_order.specs.Numbered.{AreSpotsNumbered};

    ghost Value = { Forest };

    ghost view = { λ c. record { prevs = c.prevs.items; room = min (vec_capacity c.prevs - vec_len c.prevs) (min (vec_capacity c.placed - vec_len c.placed) (vec_capacity c.tips - vec_len c.tips)) } };

    ghost invariant = { λ c. AreSpotsNumbered c.prevs.items c.placed.items c.tips.items };
}

impl Chains {
    /// No items. It takes no memory.
    pub fn new(alloc: Global) -> Chains
        ensures { result.prevs ≡ [] }
    {
        Chains {
            prevs: Vec::new(alloc),
            placed: Vec::new(alloc),
            tips: Vec::new(alloc),
        }
    }

    /// Reserves memory for one more item.
    pub fn reserve(&mut self) -> Result<(), Memory>
        ensures same { self.new.prevs ≡ self.old.prevs }
        ensures room { OnOk result (0 < self.new.room) }
        ensures known { 0 < self.old.room → IsOk result }
    {
        self.prevs.reserve(1)?;
        self.placed.reserve(1)?;
        self.tips.reserve(1)?;
        Ok(())
    }

    /// Appends an item with this prev, and returns its spot.
    pub fn add(&mut self, prev: Option<u32>) -> Result<Spot, Memory>
        requires earlier { IfSome prev (λ item. item < length self.old.prevs) }
        requires few { length self.old.prevs < 4294967295 }
        ensures added { OnOk result (self.new.prevs ≡ self.old.prevs ++ prev ∷ []) }
        ensures spot { IfOk result (λ s. slice_get (spots self.new.prevs) (length self.old.prevs) ≡ Some s) }
        ensures err { OnErr result (self.new.prevs ≡ self.old.prevs) }
        ensures room { 0 < self.old.room → IsOk result }
    {
        self.reserve()?;
        let spot = self.next_spot(prev);
        self.place(prev, spot);
        Ok(spot)
    }

    /// The spot that the next item gets, if it has this prev. It follows the last item of its chain, which is its prev;
    /// or it is the first of the next chain. It takes no memory.
    pub fn next(&self, prev: Option<u32>) -> Spot
        requires earlier { IfSome prev (λ item. item < length self.now.prevs) }
        requires few { length self.now.prevs < 4294967295 }
        ensures spot { result ≡ next_spot self.now.prevs (spots self.now.prevs) prev }
        ensures chain { result.chain ≤ chain_count self.now.prevs }
        ensures place { result.place ≡ spot_count (spots self.now.prevs) result.chain }
        ensures behind { 0 < result.place → (p : ℕ) × ((prev ≡ Some p) × IsSpotAt self.now.prevs p result.chain (result.place - 1)) }
    {
        self.next_spot(prev)
    }

    /// The spot of the next item, if it has this prev.
    fn next_spot(&self, prev: Option<u32>) -> Spot
        requires earlier { IfSome prev (λ item. item < length self.now.prevs) }
        requires few { length self.now.prevs < 4294967295 }
        ensures { result ≡ next_spot self.now.prevs (spots self.now.prevs) prev }
    {
        if let Some(parent) = prev {
            let spot = self.placed[parent as usize];
            if self.tips[spot.chain as usize] == parent {
                return Spot {
                    chain: spot.chain,
                    place: spot.place + 1,
                };
            }
        }
        Spot {
            chain: self.chain_count(),
            place: 0,
        }
    }

    /// Places the next item where it belongs. There is room for it.
    fn place(&mut self, prev: Option<u32>, spot: Spot)
        requires room { 0 < self.old.room }
        requires earlier { IfSome prev (λ item. item < length self.old.prevs) }
        requires few { length self.old.prevs < 4294967295 }
        requires spot { spot ≡ next_spot self.old.prevs (spots self.old.prevs) prev }
        ensures { self.new.prevs ≡ self.old.prevs ++ prev ∷ [] }
    {
        let item = self.prevs.len() as u32;
        move_tip(&mut self.tips, spot, item);
        self.prevs.push_reserved(prev);
        self.placed.push_reserved(spot);
    }

    /// The spot of an item. It takes no memory.
    pub fn spot(&self, item: u32) -> Spot
        requires { item < length self.now.prevs }
        ensures { slice_get (spots self.now.prevs) item ≡ Some result }
    {
        self.placed[item as usize]
    }

    /// The prev of an item, if it has one. It takes no memory.
    pub fn prev(&self, item: u32) -> Option<u32>
        requires { item < length self.now.prevs }
        ensures { slice_get self.now.prevs item ≡ Some result }
    {
        self.prevs[item as usize]
    }

    /// The last item of a chain. It takes no memory.
    pub fn tip(&self, chain: u32) -> u32
        requires { chain < chain_count self.now.prevs }
        ensures { IsTip (spots self.now.prevs) chain result }
    {
        self.tips[chain as usize]
    }

    /// How many chains there are. It takes no memory.
    pub fn chain_count(&self) -> u32
        ensures count { result ≡ chain_count self.now.prevs }
        ensures forest { IsForest self.now.prevs }
    {
        self.tips.len() as u32
    }
}

/// Makes the item its chain's tip. Where it starts the chain, memory for a tip is reserved.
fn move_tip(tips: &mut Vec<u32>, spot: Spot, item: u32)
    requires room { vec_len tips.old < vec_capacity tips.old }
    requires known { (spot.place ≡ 0 → ⊥) → spot.chain < vec_len tips.old }
    ensures { tips.new.items ≡ (if spot.place == 0 then tips.old.items ++ item ∷ [] else slice_set tips.old.items spot.chain item) }
{
    if spot.place == 0 {
        tips.push_reserved(item);
    } else {
        tips[spot.chain as usize] = item;
    }
}

/// A chain is one path by prev, with each place once, whatever the prevs are: from an item to an earlier one of its
/// chain the path has as many steps as the places differ by.
pub fn one_chain_is_one_path()
    ensures path { (prevs : List (Option ℕ)) (chain a b i j : ℕ) → IsSpotAt prevs a chain i → IsSpotAt prevs b chain j → i < j → LeadsBack prevs (j - i) b a }
    ensures once { (prevs : List (Option ℕ)) (chain place a b : ℕ) → IsSpotAt prevs a chain place → IsSpotAt prevs b chain place → a ≡ b }
    ensures gapless { (prevs : List (Option ℕ)) (chain place lower a : ℕ) → IsSpotAt prevs a chain place → lower ≤ place → (b : ℕ) × IsSpotAt prevs b chain lower }
    ensures started { (prevs : List (Option ℕ)) (chain : ℕ) → chain < chain_count prevs → (a : ℕ) × IsSpotAt prevs a chain 0 }
    ensures counted { (prevs : List (Option ℕ)) (chain place a : ℕ) → IsSpotAt prevs a chain place → chain < chain_count prevs }
{}
