//! The calls by which a node makes hellos and bundles.
ghost use Rattle.std.specs.Prelude.{◌≡◌, [], ◌∷◌, true, false, length, map, Some, IfOk, option_copied, option_to_list, slice_get};
ghost use Rattle.std.specs.List.{AllByRecursion};
ghost use Rattle.depot_base.specs.declared.record.Record.{Record};
ghost use Rattle.depot_model.specs.exchange.Bundle.{signed_by, candidate_places, proof_places, voucher_places};
ghost use Rattle.depot_model.specs.exchange.Hello.{convicted_nodes, wanted_of, leaves_named};
ghost use Rattle.depot_model.specs.journals.Journal.{accepted, accepted_at, held, value_with, is_foreign};
ghost use Rattle.depot_model.specs.lists.Lists.{AreApart};
ghost use Rattle.depot_model.specs.journals.Replicas.{IsVoucherCall};
ghost use Rattle.depot_model.specs.texts.Texts.{id_of_update, text_of_signed};
ghost use Rattle.depot_model.specs.checks.Vouching.{Vouches, is_mine_vouched};

use crate::{HelloLeaves, Replica, VoucherError};
use depot_base::{Bytes, Hash32, Ids, Items, Memory, NodeId, Nodes, Update};

/// A replica that makes hellos and bundles from what it has, and vouches for what it took. A stopped node still gives
/// the texts of its records and of its signed statements, and nothing else of what it has accepted.
pub trait Peer: Replica {
    /// The convicted nodes, in rising order.
    fn convicted(&self) -> Result<Nodes, Memory>
        requires { Self.stopped self.now ≡ false }
        ensures { IfOk result (λ nodes. nodes ≡ convicted_nodes (Self.stands self.now) (Self.records self.now)) };

    /// The leaves, in rising order of (writer, id), as a hello names them.
    fn leaves(&self) -> Result<HelloLeaves, Memory>
        requires { Self.stopped self.now ≡ false }
        ensures { IfOk result (λ leaves. leaves ≡ leaves_named (Self.records self.now)) };

    /// The hashes of values that it lacks, the first 1,024 in rising order.
    fn wanted(&self) -> Result<Ids, Memory>
        requires { Self.stopped self.now ≡ false }
        ensures { IfOk result (λ hashes. hashes ≡ wanted_of (Self.records self.now)) };

    /// The places of the records whose updates a reader with these leaves lacks, rising.
    fn candidates(&self, leaves: &Ids, reader: NodeId) -> Result<Items, Memory>
        requires { Self.stopped self.now ≡ false }
        ensures { IfOk result (λ places. places ≡ candidate_places (Self.records self.now) leaves.now reader) };

    /// The places, from 0, of the records that convict a node which isn't one of these, rising.
    fn proof_places(&self, listed: &Nodes) -> Result<Items, Memory>
        requires { Self.stopped self.now ≡ false }
        ensures { IfOk result (λ places. places ≡ proof_places (Self.records self.now) listed.now) };

    /// The places, from 0, of the own vouchers that name one of these ids, rising, each once.
    fn voucher_places(&self, ids: &Ids) -> Result<Items, Memory>
        requires { Self.stopped self.now ≡ false }
        ensures { IfOk result (λ places. places ≡ voucher_places (Self.records self.now) ids.now) };

    /// The update that the record of a place, from 0, accepts. None exactly where it accepts none. It takes no memory.
    fn update_at(&self, place: u32) -> Option<&Update>
        requires { Self.stopped self.now ≡ false }
        ensures { option_to_list (option_copied result) ≡ accepted_at (Self.records self.now) place };

    /// The id of the update that the record of a place, from 0, accepts. None exactly where it accepts none. It takes no memory.
    fn id_at(&self, place: u32) -> Option<&Hash32>
        requires { Self.stopped self.now ≡ false }
        ensures { option_to_list (option_copied result) ≡ map id_of_update (accepted_at (Self.records self.now) place) };

    /// The text of the signed statement of a place, from 0, that holds one: another's as it came, its own signed now.
    fn signed_text(&self, place: u32) -> Result<Bytes, Memory>
        requires { (r : Record) × ((slice_get (Self.records self.now) place ≡ Some r) × (length (signed_by (Self.signature_of self.now) r) ≡ 1)) }
        ensures { IfOk result (λ text. (r : Record) → slice_get (Self.records self.now) place ≡ Some r → map text_of_signed (signed_by (Self.signature_of self.now) r) ≡ text ∷ []) };

    /// The held value with a hash. None exactly where none is held.
    fn held(&self, hash: &Hash32) -> Option<&[u8]>
        requires { Self.stopped self.now ≡ false }
        ensures { option_copied result ≡ value_with hash.now (held (Self.records self.now)) };

    /// Whether an accepted update of another node has this id.
    fn is_foreign(&self, id: &Hash32) -> bool
        requires { Self.stopped self.now ≡ false }
        ensures { result ≡ is_foreign (Self.stands self.now).me (accepted (Self.records self.now)) id.now };

    /// Whether one of its own vouchers names this id.
    fn is_mine_vouched(&self, id: &Hash32) -> bool
        requires { Self.stopped self.now ≡ false }
        ensures { result ≡ is_mine_vouched (Self.records self.now) id.now };

    /// Vouches for accepted updates of others that it hasn't vouched for: one own voucher for each 256 ids, in the
    /// order given. Appends all of them or none. On `Disk` those before the failing one are appended, and the node is
    /// stopped. `Spent` comes exactly where the vouchers would pass the leaves of its tree, with the number of its
    /// statements; else `Full` comes exactly where there is no room for them. Every crash image of the call has the
    /// records from before and a prefix of the vouchers; on an error other than `Disk`, none of the vouchers.
    fn own_vouchers(&mut self, ids: &Ids) -> Result<(), VoucherError>
        requires apart { AreApart ids.now }
        requires foreign { AllByRecursion (λ h. is_foreign (Self.stands self.old).me (accepted (Self.records self.old)) h ≡ true) ids.now }
        requires fresh { AllByRecursion (λ h. is_mine_vouched (Self.records self.old) h ≡ false) ids.now }
        ensures vouches { Vouches (Self.stands self.old) (Self.records self.old) ids.now result (Self.records self.new) }
        ensures call { IsVoucherCall Self.NodeState self.old self.new ids.now result };
}
