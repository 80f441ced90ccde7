//! The updates that faulty nodes sign, and what they vouch for.
ghost use Rattle.std.specs.Prelude.{◌≡◌, ℕ, true, map, option_map, IfOk, IfSome};
ghost use Rattle.depot_base.specs.declared.statement.Statement.TheVariants as statement;
ghost use Rattle.depot_model.specs.exchange.Bundle.{Signs};
ghost use Rattle.depot_model.specs.checks.Own.{entry_of};
ghost use Rattle.depot_model.specs.texts.Texts.{IsStatement, IsUpdate, id_of_update};
ghost use Rattle.depot_model.specs.checks.Vouching.{rising};
ghost use Rattle.depot_world.specs.Run.{id_referred, referred};
ghost use Rattle.depot_world.specs.FaultySigning.{all_of, all_referred, entries_of, prev_of_ref, updated};
ghost use Rattle.depot_simulation.specs.Asking.{asks_past};
ghost use Rattle.depot_simulation.specs.Drafts.{IsNumbered, MaySign, MayVouchFor};
ghost use Rattle.depot_simulation.specs.Playing.{IsPlayed};
ghost use Rattle.depot_scenario.specs.KnownUpdates.{HasSeenParents};
ghost use Rattle.depot_simulation.specs.EachRun.{OfEachRun};

use crate::actor::Actor;
use crate::simulation::Simulation;
use depot_base::{Change, Dep, Deps, Hash32, Ids, Memory, NodeId, Update};
use depot_model::hash_of;
use depot_scenario::{drafted, entries_of_others, entry_of, rising_ids, writes_of};
use depot_schedule::{HistoryWord, Ref};
use depot_update::id_of;
use std::alloc::Global;

impl<A: Actor> Simulation<A> {
    /// The update that a faulty node signs, from the fields of an event that a schedule may have. `None` exactly when
    /// its prev or an entry names nothing, or an entry names an update of the node's own.
    pub fn updated(
        &self,
        writer: NodeId,
        seq: u32,
        clock: u64,
        prev: &Option<Ref>,
        changes: &[Change],
        deps: &[Ref],
        history: HistoryWord,
    ) -> Result<Option<Update>, Memory>
        requires played { IsPlayed A.view A.Reader.reads self.now }
        requires fits { MaySign writer seq clock changes.now deps.now history }
        requires asked { asks_past prev.now deps.now history ≡ true → self.now.seen.asked ≡ true }
        ensures is { IfOk result (λ made. OfEachRun A.view A.Reader.reads self.now (λ setup run. (sign : Signs) → made ≡ updated sign run writer seq clock prev.now changes.now deps.now history)) }
        ensures text { IfOk result (λ made. IfSome made (λ u. IsUpdate u)) }
        ensures numbered { IfOk result (λ made. IfSome made (λ u. IsNumbered writer seq u)) }
        ensures parents { IfOk result (λ made. IfSome made (λ u. HasSeenParents self.now.seen.listed.updates u)) }
    {
        let Some(prev) = self.prev_of(prev)? else {
            return Ok(None);
        };
        let Some(deps) = self.entries_of(writer, deps)? else {
            return Ok(None);
        };
        let writes = writes_of(self.alloc, changes)?;
        let draft = drafted(writer, seq, clock, prev, writes, deps);
        Ok(Some(self.seen.with_history(draft, history)?))
    }

    /// The ids that references name for a voucher, in rising order, each once. `None` exactly when one names nothing.
    pub fn vouched_ids(&self, refs: &[Ref]) -> Result<Option<Ids>, Memory>
        requires { IsPlayed A.view A.Reader.reads self.now }
        ensures is { IfOk result (λ made. OfEachRun A.view A.Reader.reads self.now (λ setup run. made ≡ option_map rising (all_of (map (id_referred run) refs.now)))) }
        ensures text { IfOk result (λ made. IfSome made (λ ids. (node seq : ℕ) → MayVouchFor node seq refs.now → IsStatement (statement.Voucher (record { node = node; seq = seq; ids = ids })))) }
    {
        let Some(ids) = self.ids_of(refs)? else {
            return Ok(None);
        };
        Ok(Some(rising_ids(self.alloc, ids.as_slice())?))
    }

    /// The ids that references name for a voucher, in their order. `None` exactly when one names nothing.
    fn ids_of(&self, refs: &[Ref]) -> Result<Option<Ids>, Memory>
        requires { IsPlayed A.view A.Reader.reads self.now }
        ensures { IfOk result (λ ids. OfEachRun A.view A.Reader.reads self.now (λ setup run. ids ≡ all_of (map (id_referred run) refs.now))) }
    {
        let mut ids = Ids::new(self.alloc);
        for r in refs {
            let Some(id) = self.id_referred(r)? else {
                return Ok(None);
            };
            ids.push(id)?;
        }
        Ok(Some(ids))
    }

    /// The ids of the updates that references name, in rising order, each once. `None` exactly when one names nothing.
    pub fn receipt_ids(&self, refs: &[Ref]) -> Result<Option<Ids>, Memory>
        requires { IsPlayed A.view A.Reader.reads self.now }
        ensures { IfOk result (λ made. OfEachRun A.view A.Reader.reads self.now (λ setup run. made ≡ option_map (λ us. rising (map id_of_update us)) (all_referred run refs.now))) }
    {
        let Some(named) = self.named(refs)? else {
            return Ok(None);
        };
        let ids = ids_of(self.alloc, named.as_slice())?;
        Ok(Some(rising_ids(self.alloc, ids.as_slice())?))
    }

    /// The id that a reference names for a voucher: SHA-256 of the bytes of a plain label, or an update's. `None`
    /// exactly when it names nothing.
    fn id_referred(&self, r: &Ref) -> Result<Option<Hash32>, Memory>
        requires { IsPlayed A.view A.Reader.reads self.now }
        ensures { IfOk result (λ id. OfEachRun A.view A.Reader.reads self.now (λ setup run. id ≡ id_referred run r.now)) }
    {
        match self.plain_referred(r) {
            Some(bytes) => Ok(Some(hash_of(bytes))),
            None => self.update_id(r),
        }
    }

    /// The id of the update that a reference names. `None` exactly when it names nothing.
    pub fn update_id(&self, r: &Ref) -> Result<Option<Hash32>, Memory>
        requires { IsPlayed A.view A.Reader.reads self.now }
        ensures { IfOk result (λ id. OfEachRun A.view A.Reader.reads self.now (λ setup run. id ≡ option_map id_of_update (referred run r.now))) }
    {
        let Some(update) = self.referred(r) else {
            return Ok(None);
        };
        Ok(Some(id_of(self.alloc, update)?))
    }

    /// The id that a prev names, zeros if there is none. `None` exactly when its reference names nothing.
    fn prev_of(&self, prev: &Option<Ref>) -> Result<Option<Hash32>, Memory>
        requires { IsPlayed A.view A.Reader.reads self.now }
        ensures { IfOk result (λ id. OfEachRun A.view A.Reader.reads self.now (λ setup run. id ≡ prev_of_ref run prev.now)) }
    {
        match prev {
            Some(r) => self.update_id(r),
            None => Ok(Some(Hash32::zeros())),
        }
    }

    /// The entries that references name, in rising order, each once. `None` exactly when one names nothing, or an
    /// update of this writer.
    fn entries_of(&self, writer: NodeId, refs: &[Ref]) -> Result<Option<Deps>, Memory>
        requires { IsPlayed A.view A.Reader.reads self.now }
        ensures { IfOk result (λ deps. OfEachRun A.view A.Reader.reads self.now (λ setup run. deps ≡ option_map (λ us. map entry_of us) (entries_of run writer refs.now))) }
    {
        let Some(named) = self.named(refs)? else {
            return Ok(None);
        };
        entries_of_others(self.alloc, writer, named.as_slice())
    }

    /// The entries of the updates that references name, in their order. `None` exactly when one names nothing.
    fn named(&self, refs: &[Ref]) -> Result<Option<Deps>, Memory>
        requires { IsPlayed A.view A.Reader.reads self.now }
        ensures { IfOk result (λ named. OfEachRun A.view A.Reader.reads self.now (λ setup run. named ≡ option_map (λ us. map entry_of us) (all_referred run refs.now))) }
    {
        let mut named = Deps::new(self.alloc);
        for r in refs {
            let Some(update) = self.referred(r) else {
                return Ok(None);
            };
            named.push(entry_of(self.alloc, update)?)?;
        }
        Ok(Some(named))
    }
}

/// The ids that entries name, in their order.
fn ids_of(alloc: Global, entries: &[Dep]) -> Result<Ids, Memory>
    ensures { IfOk result (λ ids. ids ≡ map (λ d. d.id) entries.now) }
{
    let mut ids = Ids::new(alloc);
    for entry in entries {
        ids.push(entry.id)?;
    }
    Ok(ids)
}
