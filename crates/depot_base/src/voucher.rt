//! What a node vouches for.
ghost use Rattle.std.specs.Prelude.{◌≡◌, ◌↔◌, IsTrue, IfOk};

use crate::{Hash32, Ids, Memory, NodeId};

/// A signed list of updates that a node says it has accepted. A faulty node may name any ids. To vouch is the article's
/// word too.
#[derive(Debug, Drop)]
pub struct Voucher {
    /// Who vouches.
    pub node: NodeId,
    /// The seq: which of its node's statements it is, from 0. The one-time leaf of this number signs it.
    pub seq: u32,
    /// The ids of the updates, 1 to 256, rising strictly.
    pub ids: Ids,
}

impl Voucher {
    /// A copy of the voucher.
    pub fn copy(&self) -> Result<Voucher, Memory>
        ensures { IfOk result (λ v. v ≡ self.now) }
    {
        Ok(Voucher {
            node: self.node,
            seq: self.seq,
            ids: self.ids.copy()?,
        })
    }

    /// Whether the two are one voucher.
    pub fn is_same(&self, other: &Voucher) -> bool
        ensures { IsTrue result ↔ (self.now ≡ other.now) }
    {
        self.node == other.node
            && self.seq == other.seq
            && are_same_ids(self.ids.as_slice(), other.ids.as_slice())
    }
}

fn are_same_ids(some: &[Hash32], others: &[Hash32]) -> bool
    ensures { IsTrue result ↔ (some.now ≡ others.now) }
{
    some == others
}
