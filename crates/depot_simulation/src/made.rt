//! Events that only make a label.
ghost use Rattle.std.specs.Prelude.{◌≡◌, [], ℕ, List, None, true, IfOk, IfSome};
ghost use Rattle.depot_base.specs.Shown.{IsPairKind};
ghost use Rattle.depot_model.specs.journals.Journal.{update_in};
ghost use Rattle.depot_model.specs.texts.Texts.{IsSigned};
ghost use Rattle.depot_schedule.specs.EventLines.{event_label};
ghost use Rattle.depot_schedule.specs.declared.event.Event.TheVariants as event;
ghost use Rattle.depot_world.specs.FaultySigning.{hollow_text, proof_text};
ghost use Rattle.depot_world.specs.Transcript.{done};
ghost use Rattle.depot_scenario.specs.Scenarios.{IsSomeScenario, MayHappen};
ghost use Rattle.depot_simulation.specs.Doing.{is_text, text_by, vouched_by};
ghost use Rattle.depot_simulation.specs.Playing.{IsPlayed};
ghost use Rattle.depot_scenario.specs.ScenarioTexts.{IsText};
ghost use Rattle.depot_simulation.specs.EachRun.{MakesOn, OfEachRun, SimulatesOn};

use crate::actor::Actor;
use crate::simulation::Simulation;
use depot_base::limits::MOST_VALUE;
use depot_base::{Bytes, Kind, Memory, NodeId};
use depot_lines::Label;
use depot_model::{Scheme, Signer};
use depot_scenario::texts::Text;
use depot_scenario::{Scenario, texts};
use depot_schedule::{Event, Ref};

impl<A: Actor> Simulation<A> {
    /// Does an event that only makes a label. Returns the lines from the arrow on.
    pub fn make<S: Scheme, G: Signer>(
        &mut self,
        scenario: &Scenario<'_, S, G>,
        label: &Label,
        event: &Event,
    ) -> Result<Bytes, Memory>
        requires text { is_text event.now ≡ true }
        requires label { event_label event.now ≡ label.now }
        requires scenario { IsSomeScenario S.verifies G.key_of G.signature_of scenario.now }
        requires may { MayHappen scenario.now.height scenario.now.members.now event.now }
        requires played { IsPlayed A.view A.Reader.reads self.old }
        ensures lines { IfOk result (λ lines. SimulatesOn S.verifies G.key_of G.signature_of scenario.now A.view A.Reader.reads self.old (λ setup run. done setup run event.now) lines self.new) }
        ensures asked { self.new.seen.asked ≡ self.old.seen.asked }
    {
        let text = self.text(scenario, event)?;
        let lines = self.labels.give(label, text)?;
        Ok(lines)
    }

    /// What such an event makes.
    fn text<S: Scheme, G: Signer>(
        &self,
        scenario: &Scenario<'_, S, G>,
        event: &Event,
    ) -> Result<Text, Memory>
        requires text { is_text event.now ≡ true }
        requires scenario { IsSomeScenario S.verifies G.key_of G.signature_of scenario.now }
        requires may { MayHappen scenario.now.height scenario.now.members.now event.now }
        requires played { IsPlayed A.view A.Reader.reads self.now }
        ensures is { IfOk result (λ text. MakesOn S.verifies G.key_of G.signature_of scenario.now A.view A.Reader.reads self.now (λ setup run. text_by setup run event.now) text) }
        ensures fits { IfOk result (λ text. IfSome text.signed IsSigned) }
        ensures none { IfOk result (λ text. IfSome text.signed (λ s. update_in s.statement ≡ [])) }
    {
        match event {
            Event::Voucher {
                writer,
                seq,
                refs,
                ..
            } => self.voucher(scenario, *writer, *seq, refs.as_slice()),
            Event::Proof {
                kind,
                first,
                second,
                ..
            } => self.proof(*kind, first, second),
            Event::Hollow { voucher, text, .. } => self.hollow(voucher, text),
            Event::Raw { bytes, .. } => texts::raw(self.alloc, bytes.as_slice()),
            Event::Cut {
                source,
                start,
                count,
                ..
            } => texts::cut(self.alloc, self.bytes_of(source), *start, *count),
            Event::Flip { source, place, .. } => {
                texts::flip(self.alloc, self.bytes_of(source), *place)
            }
            Event::Join { first, second, .. } => {
                texts::join(self.alloc, self.bytes_of(first), self.bytes_of(second))
            }
            _ => unreachable!(),
        }
    }

    /// A voucher that a faulty node signs, if its references name updates or plain bytes.
    fn voucher<S: Scheme, G: Signer>(
        &self,
        scenario: &Scenario<'_, S, G>,
        writer: NodeId,
        seq: u32,
        refs: &[Ref],
    ) -> Result<Text, Memory>
        requires scenario { IsSomeScenario S.verifies G.key_of G.signature_of scenario.now }
        requires may { (label : List ℕ) × MayHappen scenario.now.height scenario.now.members.now (event.Voucher label writer seq refs.now) }
        requires played { IsPlayed A.view A.Reader.reads self.now }
        ensures is { IfOk result (λ text. MakesOn S.verifies G.key_of G.signature_of scenario.now A.view A.Reader.reads self.now (λ setup run. vouched_by setup run writer seq refs.now) text) }
        ensures fits { IfOk result (λ text. IfSome text.signed IsSigned) }
        ensures none { IfOk result (λ text. IfSome text.signed (λ s. update_in s.statement ≡ [])) }
    {
        match self.vouched_ids(refs)? {
            Some(ids) => texts::voucher(self.alloc, scenario.signer_of(writer), writer, seq, ids),
            None => texts::no_reference(self.alloc),
        }
    }

    /// The halves of a proof, if both labels name signed statements.
    fn proof(&self, kind: Kind, first: &Label, second: &Label) -> Result<Text, Memory>
        requires kind { IsPairKind kind }
        requires played { IsPlayed A.view A.Reader.reads self.now }
        ensures is { IfOk result (λ text. OfEachRun A.view A.Reader.reads self.now (λ setup run. IsText text (proof_text run kind first.now second.now))) }
        ensures none { IfOk result (λ text. text.signed ≡ None) }
    {
        let Some(one) = self.signed_of(first) else {
            return texts::no_reference(self.alloc);
        };
        let Some(other) = self.signed_of(second) else {
            return texts::no_reference(self.alloc);
        };
        texts::proof(self.alloc, kind, one, other)
    }

    /// A voucher and the bytes of a plain label as a hollow proof, if the label of the voucher names one and the bytes aren't too many.
    fn hollow(&self, voucher: &Label, text: &Label) -> Result<Text, Memory>
        requires { IsPlayed A.view A.Reader.reads self.now }
        ensures is { IfOk result (λ made. OfEachRun A.view A.Reader.reads self.now (λ setup run. IsText made (hollow_text run voucher.now text.now))) }
        ensures none { IfOk result (λ made. made.signed ≡ None) }
    {
        let Some(signed) = self.signed_of(voucher) else {
            return texts::no_reference(self.alloc);
        };
        let bytes = self.bytes_of(text);
        if bytes.len() > MOST_VALUE {
            return texts::no_reference(self.alloc);
        }
        texts::hollow(self.alloc, signed, bytes)
    }
}
