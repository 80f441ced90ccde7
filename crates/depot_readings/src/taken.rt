//! What a take adds, kept in a state alone.
ghost use Rattle.std.specs.Prelude.{◌≡◌, ◌<◌, ◌≤◌, ◌++◌, List, [], ◌∷◌, length, true, OnOk, OnErr};
ghost use Rattle.std.specs.List.{AllByRecursion};
ghost use Rattle.depot_base.specs.declared.limits.TheConstants.{MOST_RECORDS};
ghost use Rattle.depot_base.specs.declared.record.Record.{Record};
ghost use Rattle.depot_base.specs.declared.record.Record.TheVariants.{Foreign, Conviction};
ghost use Rattle.depot_model.specs.journals.Journal.{accepted, accused, update_in};
ghost use Rattle.depot_model.specs.updates.Order.{IsCausal};
ghost use Rattle.depot_model.specs.texts.Records.{IsRecord};
ghost use Rattle.depot_model.specs.texts.Roster.{has_node};
ghost use Rattle.depot_model.specs.texts.Texts.{IsSigned, id_of_statement};
ghost use Rattle.depot_accept.specs.StateView.{IsStateOf, setting};
ghost use Rattle.depot_readings.specs.NewRecords.{records_in, AreHashed};
ghost use Rattle.depot_readings.specs.Taken.{IsTaken};

use crate::growth::Growth;
use crate::news::News;
use depot_accept::State;
use depot_base::{Hash32, Memory, Proof, Signed};
use depot_model::Scheme;

impl Growth {
    /// Keeps what a take adds in a state: nothing, a statement of another, a conviction, or a conviction followed by a
    /// statement of the convicted. On `Memory` the state is unchanged. Its conditions are those of `State::add_foreign`
    /// and `State::convict`.
    pub fn keep_in<S: Scheme>(self, state: &mut State<S>) -> Result<(), Memory>
        requires taken { AllByRecursion (IsTaken state.old.listed) self }
        requires fits { IsCausal [] (state.old.accepted ++ accepted self) }
        requires few_accepted { length state.old.accepted < 4294967295 }
        requires few_foreign { length state.old.foreign ≤ MOST_RECORDS }
        ensures ok { OnOk result ((J : List Record) → IsStateOf J state.old → IsStateOf (J ++ self) state.new) }
        ensures err { OnErr result (state.new ≡ state.old) }
        ensures stays { setting S.verifies state.new ≡ setting S.verifies state.old }
        ensures scheme { state.new.scheme ≡ state.old.scheme }
        ensures room { state.new.voucher_room ≡ state.old.voucher_room }
    {
        let Growth { news, .. } = self;
        keep_news(state, news)
    }
}

/// The same for the records, which are decoded and have their hashes.
fn keep_news<S: Scheme>(state: &mut State<S>, news: News) -> Result<(), Memory>
    requires texts { AllByRecursion IsRecord (records_in news) }
    requires hashed { AreHashed news }
    requires taken { AllByRecursion (IsTaken state.old.listed) (records_in news) }
    requires fits { IsCausal [] (state.old.accepted ++ accepted (records_in news)) }
    requires few_accepted { length state.old.accepted < 4294967295 }
    requires few_foreign { length state.old.foreign ≤ MOST_RECORDS }
    ensures ok { OnOk result ((J : List Record) → IsStateOf J state.old → IsStateOf (J ++ records_in news) state.new) }
    ensures err { OnErr result (state.new ≡ state.old) }
    ensures stays { setting S.verifies state.new ≡ setting S.verifies state.old }
    ensures scheme { state.new.scheme ≡ state.old.scheme }
    ensures room { state.new.voucher_room ≡ state.old.voucher_room }
{
    match news {
        News::Foreign {
            signed,
            id,
            parents,
        } => state.add_foreign(signed, &parents, id),
        News::Convicting {
            proof,
            signed,
            id,
            parents,
        } => keep_both(state, &proof, signed, id, &parents),
        News::Conviction(proof) => {
            state.convict(proof.accused());
            Ok(())
        }
        News::Nothing => Ok(()),
        // Of own vouchers a take adds none.
        News::Vouchers(_) => Ok(()),
        News::Birth { .. } | News::Put { .. } | News::Held { .. } => unreachable!(),
    }
}

/// Keeps another's statement and the conviction of a node of the roster, which precedes it in the journal. On `Memory`
/// the state is unchanged.
pub(crate) fn keep_both<S: Scheme>(
    state: &mut State<S>,
    proof: &Proof,
    signed: Signed,
    id: Hash32,
    parents: &[u32],
) -> Result<(), Memory>
    requires text { IsSigned signed }
    requires id { id ≡ id_of_statement signed.statement }
    requires listed { has_node state.old.listed (accused proof.now) ≡ true }
    requires fits { IsCausal [] (state.old.accepted ++ update_in signed.statement) }
    requires few_accepted { length state.old.accepted < 4294967295 }
    requires few_foreign { length state.old.foreign ≤ MOST_RECORDS }
    ensures ok { OnOk result ((J : List Record) → IsStateOf J state.old → IsStateOf (J ++ Conviction proof.now ∷ Foreign signed ∷ []) state.new) }
    ensures err { OnErr result (state.new ≡ state.old) }
    ensures stays { setting S.verifies state.new ≡ setting S.verifies state.old }
    ensures scheme { state.new.scheme ≡ state.old.scheme }
    ensures room { state.new.voucher_room ≡ state.old.voucher_room }
{
    // The statement alone takes memory, so it comes first: the state is the same in either order.
    state.add_foreign(signed, parents, id)?;
    state.convict(proof.accused());
    Ok(())
}
