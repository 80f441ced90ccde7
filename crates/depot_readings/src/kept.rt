//! What is read off the records of a journal.
ghost use Rattle.std.specs.Prelude.{◌≡◌, ◌<◌, ◌≤◌, ◌+◌, [], ◌∷◌, ℕ, List, length, map, OnOk, OnErr};
ghost use Rattle.std.specs.List.{AllByRecursion};
ghost use Rattle.sha2.specs.Sha256.{sha256};
ghost use Rattle.depot_base.specs.declared.record.Record.{Record};
ghost use Rattle.depot_base.specs.declared.record.Record.TheVariants.{OwnPut, OwnVoucher, Foreign, Conviction, Held};
ghost use Rattle.depot_model.specs.texts.Texts.{id_of_statement, id_of_update};
ghost use Rattle.depot_model.specs.checks.Vouching.{records_of};
ghost use Rattle.depot_kept.specs.VouchedView.{AreWithin};
ghost use Rattle.depot_accept.specs.StateView.{setting};
ghost use Rattle.depot_readings.specs.NewRecords.{records_in, vouchers_of, HasOwnId, AreHashed};
ghost use Rattle.depot_readings.specs.OwnIds.{AddsMine, HaveRoom};
ghost use Rattle.depot_kept.specs.Values.{held_in};
ghost use Rattle.depot_readings.specs.AddedValues.{HasRoomForAll, AddsAll};
ghost use Rattle.depot_readings.specs.ReadingsParts.{IsKeptOf, MayKeep, KeepsRecords, StillKeeps};
ghost use Rattle.depot_readings.specs.LeavesWith.{leaves_then, leaves_with};
ghost use Rattle.depot_readings.specs.Totals.{AreTaken};

use crate::named::names_in_update;
use crate::news::{NewVoucher, News};
use crate::taken::keep_both;
use crate::totals::Totals;
use depot_accept::State;
use depot_base::{
    Hash32, Memory, NamedValue, Proof, Sequence, Signed, Statement, Update, Value, ValueList,
};
use depot_kept::{Values, VouchedIds};
use depot_model::Scheme;

/// What is read off the records of a journal: what the checks look at, the values by their hash, and counts. It isn't
/// tied to one journal: each call says what it does to whatever is kept of any.
#[derive(Drop)]
pub struct Kept<S: Scheme> {
    pub(crate) state: State<S>,
    pub(crate) values: Values,
    pub(crate) totals: Totals,
}

impl<S: Scheme> Kept<S> {
    /// Keeps the records of a growth, and the ids that its own vouchers name: all, or on `Memory` none. `leaves` is the
    /// number of leaves of other writers with them, where they bring an update of another.
    pub(crate) fn keep(
        &mut self,
        news: News,
        leaves: Option<u32>,
        mine: &mut VouchedIds,
    ) -> Result<(), Memory>
        requires hashed { AreHashed news }
        requires leaves { leaves ≡ leaves_with self.old.state.accepted self.old.totals.leaves (records_in news) }
        requires may { MayKeep S.verifies self.old.state self.old.values self.old.totals (records_in news) }
        ensures ok { OnOk result (KeepsRecords S.verifies self.old.state self.old.values self.old.totals (records_in news) self.new.state self.new.values self.new.totals) }
        ensures err { OnErr result (StillKeeps self.old.state self.old.values self.old.totals self.new.state self.new.values self.new.totals) }
        ensures stays { setting S.verifies self.new.state ≡ setting S.verifies self.old.state }
        ensures mine { OnOk result (AddsMine mine.old.ids (records_in news) mine.new.ids) }
        ensures mine_err { OnErr result (mine.new.ids ≡ mine.old.ids) }
    {
        match news {
            News::Put {
                update,
                values,
                id,
                parents,
            } => self.keep_put(update, id, values, &parents),
            News::Foreign {
                signed,
                id,
                parents,
            } => self.keep_foreign(signed, id, &parents, leaves),
            News::Convicting {
                proof,
                signed,
                id,
                parents,
            } => self.keep_convicting(&proof, signed, id, &parents, leaves),
            News::Conviction(proof) => {
                self.convict(&proof);
                Ok(())
            }
            News::Held { value, hash } => self.keep_held(value, hash),
            News::Vouchers(vouchers) => self.keep_vouchers(vouchers, mine),
            News::Nothing => Ok(()),
            News::Birth { .. } => Ok(()),
        }
    }

    /// Keeps an own update and its values. Their hashes are those that its writes name, so none is hashed again.
    fn keep_put(
        &mut self,
        update: Update,
        id: Hash32,
        values: ValueList,
        parents: &[u32],
    ) -> Result<(), Memory>
        requires id { id ≡ id_of_update update }
        requires may { MayKeep S.verifies self.old.state self.old.values self.old.totals (OwnPut update values ∷ []) }
        ensures ok { OnOk result (KeepsRecords S.verifies self.old.state self.old.values self.old.totals (OwnPut update values ∷ []) self.new.state self.new.values self.new.totals) }
        ensures err { OnErr result (StillKeeps self.old.state self.old.values self.old.totals self.new.state self.new.values self.new.totals) }
        ensures stays { setting S.verifies self.new.state ≡ setting S.verifies self.old.state }
    {
        let values = values.into_vec();
        let names = names_in_update(*values.allocator(), &update)?;
        reserve_values(&mut self.values, names.as_slice())?;
        let clock = update.clock;
        self.state.add_own(Statement::Update(update), parents, id)?;
        add_values(&mut self.values, names.as_slice(), values);
        self.totals.own += 1;
        self.totals.clock = clock.max(self.totals.clock);
        self.totals.last = id;
        Ok(())
    }

    /// Keeps own vouchers: all, or on `Memory` none.
    fn keep_vouchers(
        &mut self,
        vouchers: Sequence<NewVoucher>,
        mine: &mut VouchedIds,
    ) -> Result<(), Memory>
        requires ids { AllByRecursion HasOwnId vouchers }
        requires may { MayKeep S.verifies self.old.state self.old.values self.old.totals (records_of (vouchers_of vouchers)) }
        ensures ok { OnOk result (KeepsRecords S.verifies self.old.state self.old.values self.old.totals (records_of (vouchers_of vouchers)) self.new.state self.new.values self.new.totals) }
        ensures err { OnErr result (StillKeeps self.old.state self.old.values self.old.totals self.new.state self.new.values self.new.totals) }
        ensures stays { setting S.verifies self.new.state ≡ setting S.verifies self.old.state }
        ensures mine { OnOk result (AddsMine mine.old.ids (records_of (vouchers_of vouchers)) mine.new.ids) }
        ensures mine_err { OnErr result (mine.new.ids ≡ mine.old.ids) }
    {
        let vouchers = vouchers.into_vec();
        reserve_ids(mine, vouchers.as_slice())?;
        self.state.reserve_vouchers(vouchers.len() as u32)?;
        self.add_vouchers(vouchers, mine);
        Ok(())
    }

    /// Keeps own vouchers for which memory was reserved. It takes none.
    fn add_vouchers(&mut self, vouchers: Vec<NewVoucher>, mine: &mut VouchedIds)
        requires ids { AllByRecursion HasOwnId vouchers.items }
        requires may { MayKeep S.verifies self.old.state self.old.values self.old.totals (records_of (vouchers_of vouchers.items)) }
        requires room { length vouchers.items ≤ self.old.state.voucher_room }
        requires mine_room { HaveRoom vouchers.items mine.old.room }
        ensures kept { KeepsRecords S.verifies self.old.state self.old.values self.old.totals (records_of (vouchers_of vouchers.items)) self.new.state self.new.values self.new.totals }
        ensures stays { setting S.verifies self.new.state ≡ setting S.verifies self.old.state }
        ensures mine { AddsMine mine.old.ids (records_of (vouchers_of vouchers.items)) mine.new.ids }
    {
        for item in vouchers {
            self.add_voucher(item, mine);
        }
    }

    /// Keeps an own voucher for which memory was reserved. It takes none.
    fn add_voucher(&mut self, item: NewVoucher, mine: &mut VouchedIds)
        requires id { HasOwnId item }
        requires may { MayKeep S.verifies self.old.state self.old.values self.old.totals (OwnVoucher item.voucher ∷ []) }
        requires room { 0 < self.old.state.voucher_room }
        requires mine_room { AreWithin item.voucher.ids mine.old.room }
        ensures kept { KeepsRecords S.verifies self.old.state self.old.values self.old.totals (OwnVoucher item.voucher ∷ []) self.new.state self.new.values self.new.totals }
        ensures stays { setting S.verifies self.new.state ≡ setting S.verifies self.old.state }
        ensures room { self.new.state.voucher_room + 1 ≡ self.old.state.voucher_room }
        ensures mine { AddsMine mine.old.ids (OwnVoucher item.voucher ∷ []) mine.new.ids }
        ensures mine_room { AreWithin mine.old.room mine.new.room }
    {
        let NewVoucher { voucher, id } = item;
        let _ = mine.add(&voucher.ids);
        let _ = self.state.add_own(Statement::Voucher(voucher), &[], id);
        self.totals.own += 1;
    }

    /// Keeps another's statement.
    fn keep_foreign(
        &mut self,
        signed: Signed,
        id: Hash32,
        parents: &[u32],
        leaves: Option<u32>,
    ) -> Result<(), Memory>
        requires id { id ≡ id_of_statement signed.statement }
        requires leaves { leaves ≡ leaves_then self.old.state.accepted self.old.totals.leaves signed.statement }
        requires may { MayKeep S.verifies self.old.state self.old.values self.old.totals (Foreign signed ∷ []) }
        ensures ok { OnOk result (KeepsRecords S.verifies self.old.state self.old.values self.old.totals (Foreign signed ∷ []) self.new.state self.new.values self.new.totals) }
        ensures err { OnErr result (StillKeeps self.old.state self.old.values self.old.totals self.new.state self.new.values self.new.totals) }
        ensures stays { setting S.verifies self.new.state ≡ setting S.verifies self.old.state }
    {
        let totals = self.totals_with(&signed.statement, leaves);
        self.state.add_foreign(signed, parents, id)?;
        self.totals = totals;
        Ok(())
    }

    /// Keeps another's statement after the conviction of its writer.
    fn keep_convicting(
        &mut self,
        proof: &Proof,
        signed: Signed,
        id: Hash32,
        parents: &[u32],
        leaves: Option<u32>,
    ) -> Result<(), Memory>
        requires id { id ≡ id_of_statement signed.statement }
        requires leaves { leaves ≡ leaves_then self.old.state.accepted self.old.totals.leaves signed.statement }
        requires may { MayKeep S.verifies self.old.state self.old.values self.old.totals (Conviction proof.now ∷ Foreign signed ∷ []) }
        ensures ok { OnOk result (KeepsRecords S.verifies self.old.state self.old.values self.old.totals (Conviction proof.now ∷ Foreign signed ∷ []) self.new.state self.new.values self.new.totals) }
        ensures err { OnErr result (StillKeeps self.old.state self.old.values self.old.totals self.new.state self.new.values self.new.totals) }
        ensures stays { setting S.verifies self.new.state ≡ setting S.verifies self.old.state }
    {
        let totals = self.totals_with(&signed.statement, leaves);
        keep_both(&mut self.state, proof, signed, id, parents)?;
        self.totals = totals;
        Ok(())
    }

    /// Keeps a conviction. It takes no memory.
    fn convict(&mut self, proof: &Proof)
        requires { MayKeep S.verifies self.old.state self.old.values self.old.totals (Conviction proof.now ∷ []) }
        ensures kept { KeepsRecords S.verifies self.old.state self.old.values self.old.totals (Conviction proof.now ∷ []) self.new.state self.new.values self.new.totals }
        ensures stays { setting S.verifies self.new.state ≡ setting S.verifies self.old.state }
    {
        self.state.convict(proof.accused());
    }

    /// Keeps a value of others.
    fn keep_held(&mut self, value: Value, hash: Hash32) -> Result<(), Memory>
        requires hash { hash ≡ sha256 value }
        requires may { MayKeep S.verifies self.old.state self.old.values self.old.totals (Held value ∷ []) }
        ensures ok { OnOk result (KeepsRecords S.verifies self.old.state self.old.values self.old.totals (Held value ∷ []) self.new.state self.new.values self.new.totals) }
        ensures err { OnErr result (StillKeeps self.old.state self.old.values self.old.totals self.new.state self.new.values self.new.totals) }
        ensures stays { setting S.verifies self.new.state ≡ setting S.verifies self.old.state }
    {
        self.values.reserve(&hash)?;
        let _ = self.values.add_hashed(hash, value);
        Ok(())
    }

    /// The counts with one more statement of another. `leaves` is the number of leaves then, where it is an update.
    fn totals_with(&self, statement: &Statement, leaves: Option<u32>) -> Totals
        requires { leaves ≡ leaves_then self.now.state.accepted self.now.totals.leaves statement.now }
        ensures { (J : List Record) → IsKeptOf J self.now.state self.now.values self.now.totals → AreTaken self.now.state.me J statement.now result }
    {
        let mut totals = self.totals;
        if let Statement::Update(update) = statement {
            totals.clock = update.clock.max(totals.clock);
        }
        if let Some(leaves) = leaves {
            totals.leaves = leaves;
        }
        totals
    }
}

/// Reserves memory for the ids that these vouchers name. The ids in the set stay.
fn reserve_ids(mine: &mut VouchedIds, vouchers: &[NewVoucher]) -> Result<(), Memory>
    ensures room { OnOk result (HaveRoom vouchers.now mine.new.room) }
    ensures ids { mine.new.ids ≡ mine.old.ids }
{
    for item in vouchers {
        mine.reserve(&item.voucher.ids)?;
    }
    Ok(())
}

/// Reserves memory for values of these names. The values stay.
fn reserve_values(kept: &mut Values, names: &[NamedValue]) -> Result<(), Memory>
    ensures room { OnOk result (HasRoomForAll names.now kept.new) }
    ensures same { (hash : List ℕ) → held_in kept.new hash ≡ held_in kept.old hash }
{
    for name in names {
        kept.reserve(&name.hash)?;
    }
    Ok(())
}

/// Adds values under the hashes of their names, for which there is room. It takes no memory.
fn add_values(kept: &mut Values, names: &[NamedValue], values: Vec<Value>)
    requires hashed { map (λ n. n.hash) names.now ≡ map sha256 values.items }
    requires room { HasRoomForAll names.now kept.old }
    ensures { AddsAll kept.old kept.new values.items }
{
    let mut place = 0;
    for value in values {
        let name = match names.get(place) {
            Some(name) => name,
            None => unreachable!(),
        };
        let _ = kept.add_hashed(name.hash, value);
        place += 1;
    }
}
