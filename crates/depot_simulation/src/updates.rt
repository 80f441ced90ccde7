//! Updates that faulty nodes sign.
ghost use Rattle.std.specs.Prelude.{◌≡◌, ◌<◌, ◌^◌, ◌∷◌, [], length, true, IfOk, IfSome, OnOk};
ghost use Rattle.depot_model.specs.journals.Journal.{update_in};
ghost use Rattle.depot_model.specs.checks.Own.{values_of};
ghost use Rattle.depot_model.specs.texts.Texts.{IsSigned, IsUpdate};
ghost use Rattle.depot_schedule.specs.EventLines.{event_label};
ghost use Rattle.depot_schedule.specs.EventWords.{is_declared};
ghost use Rattle.depot_world.specs.Run.{seen_with};
ghost use Rattle.depot_world.specs.FaultySigning.{update_text};
ghost use Rattle.depot_world.specs.Setups.{signs_on};
ghost use Rattle.depot_world.specs.Transcript.{done};
ghost use Rattle.depot_scenario.specs.Scenarios.{IsSomeScenario, MayHappen};
ghost use Rattle.depot_simulation.specs.Asking.{asks_right_history};
ghost use Rattle.depot_simulation.specs.Doing.{is_signing, signed_text, signing_by, update_by, with_update};
ghost use Rattle.depot_simulation.specs.Drafts.{HasLeaf, IsNumbered};
ghost use Rattle.depot_simulation.specs.Playing.{IsPlayed, WereSeen};
ghost use Rattle.depot_scenario.specs.KnownUpdates.{HasSeenParents};
ghost use Rattle.depot_scenario.specs.ScenarioTexts.{IsText};
ghost use Rattle.depot_simulation.specs.EachRun.{GoesTo, MakesOn, OfEachSetupOn, SimulatesOn};

use crate::actor::Actor;
use crate::simulation::Simulation;
use depot_base::{Bytes, Change, Changes, Memory, NodeId, Update};
use depot_lines::Label;
use depot_model::{Scheme, Signer};
use depot_scenario::texts::Text;
use depot_scenario::{Scenario, texts};
use depot_schedule::Event;
use depot_update::id_of;

impl<A: Actor> Simulation<A> {
    /// Lets a faulty node sign an update, which counts as seen from now on. Returns the lines from the arrow on.
    pub fn update<S: Scheme, G: Signer>(
        &mut self,
        scenario: &Scenario<'_, S, G>,
        label: &Label,
        event: &Event,
    ) -> Result<Bytes, Memory>
        requires signing { is_signing event.now ≡ true }
        requires label { event_label event.now ≡ label.now }
        requires scenario { IsSomeScenario S.verifies G.key_of G.signature_of scenario.now }
        requires may { MayHappen scenario.now.height scenario.now.members.now event.now }
        requires played { IsPlayed A.view A.Reader.reads self.old }
        requires asked { asks_right_history event.now ≡ true → self.old.seen.asked ≡ true }
        ensures lines { IfOk result (λ lines. SimulatesOn S.verifies G.key_of G.signature_of scenario.now A.view A.Reader.reads self.old (λ setup run. done setup run event.now) lines self.new) }
        ensures asked { self.new.seen.asked ≡ self.old.seen.asked }
    {
        let text = self.signed(scenario, event)?;
        let lines = self.labels.give(label, text)?;
        Ok(lines)
    }

    /// What the update's label is given, if its references name updates. The update is then noted as seen.
    fn signed<S: Scheme, G: Signer>(
        &mut self,
        scenario: &Scenario<'_, S, G>,
        event: &Event,
    ) -> Result<Text, Memory>
        requires signing { is_signing event.now ≡ true }
        requires scenario { IsSomeScenario S.verifies G.key_of G.signature_of scenario.now }
        requires may { MayHappen scenario.now.height scenario.now.members.now event.now }
        requires played { IsPlayed A.view A.Reader.reads self.old }
        requires asked { asks_right_history event.now ≡ true → self.old.seen.asked ≡ true }
        ensures is { IfOk result (λ text. MakesOn S.verifies G.key_of G.signature_of scenario.now A.view A.Reader.reads self.old (λ setup run. signing_by setup run event.now) text) }
        ensures at { OnOk result (GoesTo A.view A.Reader.reads self.old (λ setup run. with_update run (update_by setup run event.now)) self.new) }
        ensures fits { IfOk result (λ text. IfSome text.signed IsSigned) }
        ensures were { IfOk result (λ text. IfSome text.signed (λ s. WereSeen self.new.seen.listed.updates (update_in s.statement))) }
        ensures asked { self.new.seen.asked ≡ self.old.seen.asked }
    {
        match event {
            Event::Update {
                writer,
                seq,
                clock,
                prev,
                key,
                value,
                deps,
                history,
                ..
            } => {
                let changes = Changes::one(self.alloc, key.copy()?, value.copy()?)?;
                let made = self.updated(
                    *writer,
                    *seq,
                    *clock,
                    prev,
                    changes.as_slice(),
                    deps.as_slice(),
                    *history,
                )?;
                self.given(scenario, *writer, *seq, made, changes.as_slice())
            }
            Event::Updates {
                writer,
                seq,
                clock,
                prev,
                changes,
                deps,
                history,
                ..
            } => {
                let made = self.updated(
                    *writer,
                    *seq,
                    *clock,
                    prev,
                    changes.as_slice(),
                    deps.as_slice(),
                    *history,
                )?;
                self.given(scenario, *writer, *seq, made, changes.as_slice())
            }
            _ => unreachable!(),
        }
    }

    /// What the label is given if this update was made, or if none was. The update is noted as seen.
    fn given<S: Scheme, G: Signer>(
        &mut self,
        scenario: &Scenario<'_, S, G>,
        writer: NodeId,
        seq: u32,
        made: Option<Update>,
        changes: &[Change],
    ) -> Result<Text, Memory>
        requires text { IfSome made (λ u. IsUpdate u) }
        requires parents { IfSome made (λ u. HasSeenParents self.old.seen.listed.updates u) }
        requires room { length self.old.seen.listed.updates < 4294967295 }
        requires numbered { IfSome made (λ u. IsNumbered writer seq u) }
        requires leaf { HasLeaf scenario.now.height scenario.now.members.now writer seq }
        requires scenario { IsSomeScenario S.verifies G.key_of G.signature_of scenario.now }
        ensures is { IfOk result (λ text. OfEachSetupOn S.verifies G.key_of G.signature_of scenario.now (λ setup. IsText text (signed_text (signs_on setup writer) changes.now made))) }
        ensures at { OnOk result (GoesTo A.view A.Reader.reads self.old (λ setup run. with_update run made) self.new) }
        ensures fits { IfOk result (λ text. IfSome text.signed IsSigned) }
        ensures were { IfOk result (λ text. IfSome text.signed (λ s. WereSeen self.new.seen.listed.updates (update_in s.statement))) }
        ensures asked { self.new.seen.asked ≡ self.old.seen.asked }
    {
        match made {
            Some(update) => self.sign(scenario, update, changes),
            None => texts::no_reference(self.alloc),
        }
    }

    /// What the label of an update is given, which is seen.
    fn sign<S: Scheme, G: Signer>(
        &mut self,
        scenario: &Scenario<'_, S, G>,
        update: Update,
        changes: &[Change],
    ) -> Result<Text, Memory>
        requires text { IsUpdate update }
        requires parents { HasSeenParents self.old.seen.listed.updates update }
        requires room { length self.old.seen.listed.updates < 4294967295 }
        requires declared { is_declared scenario.now.members.now update.writer ≡ true }
        requires leaf { update.seq < 2 ^ scenario.now.height }
        requires scenario { IsSomeScenario S.verifies G.key_of G.signature_of scenario.now }
        ensures is { IfOk result (λ text. OfEachSetupOn S.verifies G.key_of G.signature_of scenario.now (λ setup. IsText text (update_text (signs_on setup update.writer) update (values_of changes.now)))) }
        ensures participants { self.new.participants ≡ self.old.participants }
        ensures labels { self.new.labels ≡ self.old.labels }
        ensures readers { self.new.readers ≡ self.old.readers }
        ensures seen { OnOk result (self.new.seen.listed.updates ≡ seen_with self.old.seen.listed.updates (update ∷ [])) }
        ensures fits { IfOk result (λ text. IfSome text.signed IsSigned) }
        ensures were { IfOk result (λ text. IfSome text.signed (λ s. WereSeen self.new.seen.listed.updates (update_in s.statement))) }
        ensures asked { self.new.seen.asked ≡ self.old.seen.asked }
    {
        let id = id_of(self.alloc, &update)?;
        self.seen.add(&update, &id)?;
        let signer = scenario.signer_of(update.writer);
        Ok(texts::update(self.alloc, signer, update, changes)?)
    }
}
