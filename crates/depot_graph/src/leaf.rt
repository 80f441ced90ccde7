//! Leaves, as the history text lists them.
ghost use Rattle.std.specs.Prelude.{◌≡◌, IfOk, map};
ghost use Rattle.std.specs.List.{flat_map};
ghost use Rattle.sha2.specs.Sha256.{sha256};
ghost use Rattle.depot_graph.specs.PastLeaves.{row_of};

use byteorder::{BigEndian, ByteOrder};
use depot_base::{Hash32, Items, Memory, NodeId};
use sha2::{Digest, Sha256};
use std::alloc::Global;
use std::collections::BTreeSet;

/// A leaf. Leaves are in order by writer and then by id, which no two updates share.
#[derive(Clone, Copy, Debug, PartialEq, Eq, PartialOrd, Ord)]
pub struct Leaf {
    pub writer: NodeId,
    pub id: Hash32,
    pub clock: u64,
    /// Its item.
    pub item: u32,
}

impl Leaf {
    ghost use Rattle.depot_graph.specs.PastLeaves.{row_of};

    /// Its row of the history text, 42 bytes: writer, clock, id.
    #[tactic(auto, using(crate::proofs::HistoryRows::row_laws), unfolding(depot_base::specs::Cursor::numeral))]
    fn row(&self) -> [u8; 42]
        ensures { result ≡ row_of self.now }
    {
        let mut row = [0; 42];
        BigEndian::write_u16(&mut row[..2], self.writer.number());
        BigEndian::write_u64(&mut row[2..10], self.clock);
        row[10..].copy_from_slice(self.id.bytes());
        row
    }
}

/// Leaves in rising order of (writer, id).
pub type Leaves = BTreeSet<Leaf>;

/// SHA-256 of the rows of these leaves, in their order.
pub fn hash_of_rows(leaves: &Leaves) -> Hash32
    ensures { result ≡ sha256 (flat_map row_of leaves.now.keys) }
{
    let mut hasher = Sha256::new();
    for leaf in leaves {
        hasher.update(&leaf.row());
    }
    Hash32::new(hasher.finalize())
}

/// The items of these leaves, in their order.
pub fn items_of(alloc: Global, leaves: &Leaves) -> Result<Items, Memory>
    ensures { IfOk result (λ items. items ≡ map (λ l. l.item) leaves.now.keys) }
{
    let items: Vec<u32> = leaves.iter().map(|leaf| leaf.item).collect(alloc)?;
    Ok(Items::from_vec(items))
}
