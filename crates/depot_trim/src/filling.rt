//! A reader's state is filled from the records of a node.
ghost use Rattle.std.specs.Prelude.{◌≡◌, ◌<◌, List, [], ◌∷◌, ◌++◌, length, Some, slice_get, IfOk, OnOk};
ghost use Rattle.depot_base.specs.declared.record.Record.{Record};
ghost use Rattle.depot_base.specs.declared.record.Record.TheVariants.{Foreign};
ghost use Rattle.depot_base.specs.declared.statement.Statement.TheVariants as statements;
ghost use Rattle.depot_base.specs.declared.update.Update.{Update};
ghost use Rattle.depot_model.specs.journals.Journal.{accepted, own_by};
ghost use Rattle.depot_model.specs.updates.Order.{IsCausal};
ghost use Rattle.depot_model.specs.readers.Pruning.{pruned};
ghost use Rattle.depot_model.specs.texts.Records.{IsRecord, text_of_record};
ghost use Rattle.depot_model.specs.texts.Texts.{IsSigned, IsUpdate, id_of_statement, id_of_update};
ghost use Rattle.depot_accept.specs.StateView.{IsStateOf, setting};
ghost use Rattle.depot_trim.specs.Trimmings.{given_up, MayFill, Fills};

use crate::flags::flag_at;
use depot_accept::State;
use depot_base::{DecodeError, Hash32, Memory, Record, Signed, Statement, Update};
use depot_graph::Graph;
use depot_model::{Past, Replica, Scheme, hash_of};
use depot_sign::Roster;
use depot_update::{decode_record, id_in_own_voucher};
use std::alloc::Global;

/// Returns the state of a node's journal without the signed statements of the updates that are given up: one flag for
/// each item of the node's graph says which. The node accepted each statement, so no signature is verified again. No
/// text of a record is kept.
pub(crate) fn state_without<R: Replica, S: Scheme>(
    alloc: Global,
    node: &R,
    graph: &Graph,
    trimmed: &[bool],
    roster: Roster,
    scheme: S,
) -> Result<State<S>, Memory>
    requires verifies { (R.stands node.now).verifies ≡ S.verifies }
    requires roster { roster ≡ (R.stands node.now).listed }
    requires graph { ⟦<Graph as Past>⟧.updates graph.now ≡ accepted (R.records node.now) }
    requires flags { (ts : List Update) × (trimmed.now ≡ given_up ts (⟦<Graph as Past>⟧.updates graph.now)) }
    ensures state { IfOk result (λ state. (ts : List Update) → trimmed.now ≡ given_up ts (⟦<Graph as Past>⟧.updates graph.now) → IsStateOf (pruned ts (R.records node.now)) state) }
    ensures stands { IfOk result (λ state. setting S.verifies state ≡ R.stands node.now) }
{
    let mut state = State::new(alloc, node.me(), roster, scheme)?;
    for place in 0..node.record_count() {
        let text = node.record_text(place);
        let item = record_of(alloc, text)?;
        add_record(&mut state, graph, trimmed, item, text)?;
    }
    Ok(state)
}

/// Decodes this text, which is a record's: only memory can be lacking.
fn record_of(alloc: Global, text: &[u8]) -> Result<Record, Memory>
    requires { (r : Record) × (IsRecord r × (text.now ≡ text_of_record r)) }
    ensures { IfOk result (λ item. (r : Record) → IsRecord r → text.now ≡ text_of_record r → item ≡ r) }
{
    match decode_record(alloc, text) {
        Ok(item) => Ok(item),
        Err(DecodeError::Memory) => Err(Memory),
        Err(DecodeError::IllFormed(_)) => unreachable!(),
    }
}

/// Adds a record, whose text is available.
fn add_record<S: Scheme>(
    state: &mut State<S>,
    graph: &Graph,
    trimmed: &[bool],
    item: Record,
    text: &[u8],
) -> Result<(), Memory>
    requires text { text.now ≡ text_of_record item }
    requires may { MayFill S.verifies (⟦<Graph as Past>⟧.updates graph.now) trimmed.now state.old item }
    ensures ok { OnOk result (Fills S.verifies (⟦<Graph as Past>⟧.updates graph.now) trimmed.now state.old item state.new) }
    ensures stays { setting S.verifies state.new ≡ setting S.verifies state.old }
{
    match item {
        Record::Birth { .. } => Ok(()),
        Record::OwnPut { update, .. } => add_update(state, graph, update),
        Record::OwnVoucher { voucher } => {
            state.add_own(Statement::Voucher(voucher), &[], id_in_own_voucher(text))
        }
        Record::Foreign { signed } => add_foreign(state, graph, trimmed, signed),
        Record::Conviction { proof } => {
            state.convict(proof.accused());
            Ok(())
        }
        Record::Held { .. } => Ok(()),
    }
}

/// Adds another writer's statement, without its signature if it is an update that is given up.
fn add_foreign<S: Scheme>(
    state: &mut State<S>,
    graph: &Graph,
    trimmed: &[bool],
    signed: Signed,
) -> Result<(), Memory>
    requires { MayFill S.verifies (⟦<Graph as Past>⟧.updates graph.now) trimmed.now state.old (Foreign signed) }
    ensures ok { OnOk result (Fills S.verifies (⟦<Graph as Past>⟧.updates graph.now) trimmed.now state.old (Foreign signed) state.new) }
    ensures stays { setting S.verifies state.new ≡ setting S.verifies state.old }
{
    match &signed.statement {
        Statement::Update(_) => add_foreign_update(state, graph, trimmed, signed),
        Statement::Voucher(_) => {
            let id = id_of_body(&signed);
            state.add_foreign(signed, &[], id)
        }
    }
}

/// Adds another writer's update, without its signature if it is given up. It is the graph's next item, from which its
/// id is taken.
fn add_foreign_update<S: Scheme>(
    state: &mut State<S>,
    graph: &Graph,
    trimmed: &[bool],
    signed: Signed,
) -> Result<(), Memory>
    requires update { (u : Update) × (signed.statement ≡ statements.Update u) }
    requires may { MayFill S.verifies (⟦<Graph as Past>⟧.updates graph.now) trimmed.now state.old (Foreign signed) }
    ensures ok { OnOk result (Fills S.verifies (⟦<Graph as Past>⟧.updates graph.now) trimmed.now state.old (Foreign signed) state.new) }
    ensures stays { setting S.verifies state.new ≡ setting S.verifies state.old }
{
    if !is_next_given_up(state, trimmed) {
        let id = next_id(state, graph);
        return state.add_foreign(signed, &[], id);
    }
    let Signed { statement, .. } = signed;
    match statement {
        Statement::Update(update) => add_update(state, graph, update),
        Statement::Voucher(_) => unreachable!(),
    }
}

/// Adds an update without a signature. It is the graph's next item, from which its id is taken.
fn add_update<S: Scheme>(state: &mut State<S>, graph: &Graph, update: Update) -> Result<(), Memory>
    requires text { IsUpdate update }
    requires next { slice_get (⟦<Graph as Past>⟧.updates graph.now) (length state.old.accepted) ≡ Some update }
    requires fits { IsCausal [] (state.old.accepted ++ update ∷ []) }
    requires few { length state.old.accepted < 4294967295 }
    ensures ok { OnOk result ((J : List Record) (r : Record) → own_by r ≡ statements.Update update ∷ [] → IsStateOf J state.old → IsStateOf (J ++ r ∷ []) state.new) }
    ensures stays { setting S.verifies state.new ≡ setting S.verifies state.old }
{
    let id = next_id(state, graph);
    state.add_accepted(update, &[], id)
}

/// The id of the graph's next item.
fn next_id<S: Scheme>(state: &State<S>, graph: &Graph) -> Hash32
    requires { length state.now.accepted < length (⟦<Graph as Past>⟧.updates graph.now) }
    ensures { (u : Update) → slice_get (⟦<Graph as Past>⟧.updates graph.now) (length state.now.accepted) ≡ Some u → result ≡ id_of_update u }
{
    *graph.id(state.graph().count())
}

/// Whether the graph's next item is given up.
fn is_next_given_up<S: Scheme>(state: &State<S>, trimmed: &[bool]) -> bool
    requires { length state.now.accepted < length trimmed.now }
    ensures { slice_get trimmed.now (length state.now.accepted) ≡ Some result }
{
    flag_at(trimmed, state.graph().count())
}

/// The id of a statement whose body is available.
#[tactic(auto, using(depot_model::proofs::of_texts::BodyLaws::body_is_text), unfolding(depot_model::specs::texts::Texts::id_of_statement))]
fn id_of_body(signed: &Signed) -> Hash32
    requires { IsSigned signed.now }
    ensures { result ≡ id_of_statement signed.now.statement }
{
    hash_of(signed.body.as_slice())
}
