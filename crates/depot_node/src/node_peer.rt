//! What a node sends others of its journal, and the vouchers that it makes for them.

use crate::node::Node;
use crate::vouch::own_vouchers;
use depot_base::{Bytes, Hash32, Ids, Items, Memory, NodeId, Nodes, Update};
use depot_decide::is_foreign;
use depot_model::{HelloLeaves, Peer, Scheme, Signer, VoucherError};
use depot_outside::Disk;
use depot_queries::{
    candidates, convicted, id_at, leaves, proof_places, signed_text, update_at, voucher_places,
};

impl<D: Disk, S: Scheme, G: Signer<Of = S>> Peer for Node<D, S, G> {
    fn convicted(&self) -> Result<Nodes, Memory> {
        convicted(self.alloc, self.store.readings())
    }

    fn leaves(&self) -> Result<HelloLeaves, Memory> {
        leaves(self.alloc, self.store.readings())
    }

    fn wanted(&self) -> Result<Ids, Memory> {
        self.store.readings().wanted()
    }

    fn candidates(&self, leaves: &Ids, reader: NodeId) -> Result<Items, Memory> {
        candidates(self.alloc, self.store.readings(), leaves, reader)
    }

    fn proof_places(&self, listed: &Nodes) -> Result<Items, Memory> {
        proof_places(self.alloc, self.store.readings(), listed)
    }

    fn voucher_places(&self, ids: &Ids) -> Result<Items, Memory> {
        voucher_places(self.alloc, self.store.readings(), ids)
    }

    fn update_at(&self, place: u32) -> Option<&Update> {
        update_at(self.store.readings(), place)
    }

    fn id_at(&self, place: u32) -> Option<&Hash32> {
        id_at(self.store.readings(), place)
    }

    fn signed_text(&self, place: u32) -> Result<Bytes, Memory> {
        signed_text(self.alloc, &self.signer, self.store.text(place))
    }

    fn held(&self, hash: &Hash32) -> Option<&[u8]> {
        self.store.readings().value(hash)
    }

    fn is_foreign(&self, id: &Hash32) -> bool {
        is_foreign(self.store.readings(), id)
    }

    fn is_mine_vouched(&self, id: &Hash32) -> bool {
        self.store.readings().is_mine_vouched(id)
    }

    fn own_vouchers(&mut self, ids: &Ids) -> Result<(), VoucherError> {
        own_vouchers(self.alloc, &mut self.store, ids)
    }
}
