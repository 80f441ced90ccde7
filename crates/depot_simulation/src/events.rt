//! One event of a schedule.
ghost use Rattle.std.specs.Prelude.{◌≡◌, true, IfOk};
ghost use Rattle.depot_world.specs.Transcript.{done};
ghost use Rattle.depot_scenario.specs.Scenarios.{MayHappen};
ghost use Rattle.depot_simulation.specs.Asking.{asks_right_history};
ghost use Rattle.depot_simulation.specs.Playing.{IsPlayedOn};
ghost use Rattle.depot_simulation.specs.EachRun.{PlaysEvent, SimulatesOn, SimulatesSoundOn};
ghost use Rattle.depot_simulation.specs.Doing.{label_judged};

use crate::actor::Actor;
use crate::simulation::Simulation;
use depot_base::{Bytes, Memory};
use depot_lines::Label;
use depot_model::{Scheme, Signer};
use depot_scenario::{Scenario, head_and_arrow, judged};
use depot_schedule::Event;

impl<A: Actor> Simulation<A> {
    /// Does an event, and returns its lines. On `Memory` the simulation isn't one any more.
    pub fn event<S: Scheme, G: Signer>(
        &mut self,
        scenario: &Scenario<'_, S, G>,
        event: &Event,
    ) -> Result<Bytes, Memory>
        requires may { MayHappen scenario.now.height scenario.now.members.now event.now }
        requires played { IsPlayedOn S.verifies G.key_of G.signature_of scenario.now A.view A.Reader.reads self.old }
        requires asked { asks_right_history event.now ≡ true → self.old.seen.asked ≡ true }
        ensures lines { IfOk result (λ lines. PlaysEvent S.verifies G.key_of G.signature_of scenario.now A.view A.Reader.reads self.old event.now lines self.new) }
        ensures asked { self.new.seen.asked ≡ self.old.seen.asked }
    {
        let mut lines = head_and_arrow(self.alloc, event)?;
        let behind = self.lines(scenario, event)?;
        lines.push_all(behind.as_slice())?;
        Ok(lines)
    }

    /// The same; the lines are those from the arrow on.
    fn lines<S: Scheme, G: Signer>(
        &mut self,
        scenario: &Scenario<'_, S, G>,
        event: &Event,
    ) -> Result<Bytes, Memory>
        requires may { MayHappen scenario.now.height scenario.now.members.now event.now }
        requires played { IsPlayedOn S.verifies G.key_of G.signature_of scenario.now A.view A.Reader.reads self.old }
        requires asked { asks_right_history event.now ≡ true → self.old.seen.asked ≡ true }
        ensures lines { IfOk result (λ lines. SimulatesSoundOn S.verifies G.key_of G.signature_of scenario.now A.view A.Reader.reads self.old (λ setup run. done setup run event.now) lines self.new) }
        ensures asked { self.new.seen.asked ≡ self.old.seen.asked }
    {
        match event {
            Event::Restart { node } => self.restart(*node),
            Event::Update { label, .. } => self.update(scenario, label, event),
            Event::Updates { label, .. } => self.update(scenario, label, event),
            Event::Voucher { label, .. } => self.make(scenario, label, event),
            Event::Proof { label, .. } => self.make(scenario, label, event),
            Event::Hollow { label, .. } => self.make(scenario, label, event),
            Event::Judge { label } => self.judge(scenario, label),
            Event::Raw { label, .. } => self.make(scenario, label, event),
            Event::Cut { label, .. } => self.make(scenario, label, event),
            Event::Flip { label, .. } => self.make(scenario, label, event),
            Event::Join { label, .. } => self.make(scenario, label, event),
            Event::Stop { node, call, image } => self.stop(*node, *call, *image),
            Event::Audit => self.audit(scenario),
            Event::Trim { node, label, name } => self.trim(*node, label, name),
            Event::Tgive { name, label } => self.tgive(name, label),
            Event::Tget { name, key } => self.tget(name, key),
            _ => self.ask(event),
        }
    }

    /// Judges the bytes of a label as a proof. Returns the lines from the arrow on.
    fn judge<S: Scheme, G: Signer>(
        &self,
        scenario: &Scenario<'_, S, G>,
        label: &Label,
    ) -> Result<Bytes, Memory>
        ensures { IfOk result (λ lines. SimulatesOn S.verifies G.key_of G.signature_of scenario.now A.view A.Reader.reads self.now (λ setup run. label_judged setup run label.now) lines self.now) }
    {
        let mut lines = judged(
            self.alloc,
            scenario.roster,
            &scenario.scheme,
            self.bytes_of(label),
        )?;
        lines.push_all(b"\n")?;
        Ok(lines)
    }
}
